//! Control lines read as what they ask for, and replies and refusals as their lines.
#![tactic(auto)]

mod hex_digits;
pub mod laws;
mod line;
mod merge_line;
mod number;
mod parse;
mod polled;
mod print;
mod refusal_line;
mod words;

pub use line::{FollowFields, Line};
pub use merge_line::MergeLine;
pub use parse::parse_line;
pub use polled::{TextBuffer, write_frame_line, write_polled};
pub use print::{print_following, print_reply};
pub use refusal_line::{RefusalLine, print_refusal};
