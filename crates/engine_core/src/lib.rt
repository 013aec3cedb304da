//! The archive on one thread, with its crash promise.
#![tactic(auto)]

mod ask;
mod checkpoint;
mod compacting;
mod engine;
mod grouping;
pub mod laws;
mod making;
mod opening;
mod replay_close;
mod replay_open;
mod replay_poll;
mod settle;
mod settle_all;
mod start;
mod step;
mod storage;
mod stored;
mod sweep;
mod verify;
mod write;

pub use compacting::compact;
pub use engine::{Engine, OpenRefusal};
pub use replay_poll::Poll;
pub use settle_all::unsettled_segments;
pub use storage::Storage;
pub use sweep::keeps_of;
