//! Agents, each in a thread of its own: receivers, recorders and replayers.
#![tactic(auto)]

mod agents;
mod block_source;
mod frame_sink;
mod gate;
mod handoff;
mod image_source;
mod item;
mod receiver;
mod recorder;
mod replayer;
mod run;

pub use agents::Agents;
pub use block_source::BlockSource;
pub use frame_sink::FrameSink;
pub use gate::Gate;
pub use handoff::{Handoff, Putter, Taker};
pub use image_source::ImageSource;
pub use item::Item;
pub use receiver::Receiver;
pub use recorder::Recorder;
pub use recorder_seats::{BoundedReplayer, DatagramEnd, RecorderSeat, Turn};
pub use replayer::Replayer;
pub use run::run_agents;
