//! The plain book of an archive: its recordings with their frames, in memory, changed by commands one after another.
#![tactic(auto)]

mod append;
mod book;
mod cut;
mod purge;
mod recording;
mod recordings;
mod replay;
mod stop;
mod truncate;

pub use book::Book;
pub use recording::Recording;
