//! A replay of a recording merged into the live stream, without a gap or a repeat.
#![tactic(auto)]

pub mod laws;
mod merge;

pub use merge::{Merge, Offered};
