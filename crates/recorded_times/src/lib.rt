//! When a recording stood at which position: files of times, which line is due, and what is found at a time. docs/SERVING.md,
//! "When a frame was recorded".
#![tactic(auto)]

mod answering;
mod due;
mod found;
pub mod laws;
mod line;
mod moment;
mod names;
mod reading;
mod searching;

pub use answering::{AnswerFault, answer};
pub use due::{added_text, due_line};
pub use found::Found;
pub use line::TimesLine;
pub use moment::moment_of;
pub use names::{TimesName, is_name_of};
pub use searching::{SearchFault, TimesFile, WINDOW, last_line, search};
