//! An archive behind a control listener and a socket of datagrams: what comes is recorded, and lines are answered.
#![tactic(auto)]

mod answering;
mod client;
mod clients;
mod connections;
mod consumer;
mod consumer_reader;
mod ends;
mod first_bytes;
mod followed_stream;
mod follower_connection;
mod followers;
mod following;
mod line_reader;
mod listener;
mod openings;
mod options;
mod place;
mod pushing;
mod script_reader;
mod send_lines;
mod sender_thread;
mod sending;
mod sendings;
mod served;
mod serving;
mod unopened;

pub use ends::Ends;
pub use openings::Openings;
pub use options::{IDLE_SECONDS, SEGMENT_LENGTH, SETTLE_EVERY, ServeOptions};
pub use served::{Served, Stuck};
pub use server_receiver::{MAX_NETWORKS, Network, Networks};
pub use server_recorder::{Flusher, Unflushed};
pub use server_state::{
    ArchiveNews, ClientNews, Counted, GapNews, Happening, HoleCause, ImageCounted, ImageNews,
    LineReporter, PlaceNews, Reporter, ResumeNews, SendNews, SessionNews, Unreported,
};
pub use serving::{serve_flushing, serve_on, serve_with};
