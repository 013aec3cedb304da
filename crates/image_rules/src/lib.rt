//! What is decided of an image and its publication, over values: docs/PROTOCOL.md, "Whose frames an image takes".
#![tactic(auto)]

mod ending;
pub mod laws;
mod questions;
mod reach;
mod signs;

pub use ending::{EndedPublication, EndingFlags, LINGER, are_same_terms, is_whole_up_to};
pub use questions::{Doubt, Question};
pub use reach::{GapLook, OutOfReach, UnreachableGap, repeat_reach};
pub use signs::{Sign, UnaskedFrames, is_heartbeat_sign, is_setup_sign};
