//! Recorder sessions: which block one may write next, and whether it has something to settle.
#![tactic(auto)]

mod recording;

pub use recording::Recording;
