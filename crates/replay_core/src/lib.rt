//! Replays: where one goes on, what a poll of it gives, and when it is done.
#![tactic(auto)]

mod cache;
mod gathering;
pub mod laws;
mod polling;
mod replay;
mod store;
mod taking;

pub use cache::{PageCache, PageKey};
pub use replay::Replay;
pub use store::Store;
pub use taking::FrameTaker;
