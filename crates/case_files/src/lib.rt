//! Files of cases: what a test program asks its player, and what that has to answer, as text. README.md, "The format".
#![tactic(auto)]

mod filling;
mod paragraphs;
mod playing;
mod running;
mod steps;

pub use playing::{Player, Wrong, play_text};
pub use running::play_files;
pub use steps::Step;
