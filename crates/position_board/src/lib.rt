//! A board of positions: a writer for each slot raises the slot's position, and readers in any thread look at it, without
//! a lock.
#![tactic(auto)]

mod board;
mod making;
mod rule;

pub use board::{Board, Reader, Writer};
pub use making::{MAX_READERS, MAX_SLOTS};
