//! The program's commands over folders, and how they end: docs/CONTROL.md, "The program".
#![tactic(auto)]

mod answering;
mod asking;
mod capture;
mod commands;
mod concluding;
mod exit;
mod flushing;
mod hidden;
mod log;
mod looking;
mod looking_up;
mod networks;
mod observers;
mod open_folder;
mod outcome;
mod outlet;
mod reporting;
mod serving;
mod sound_disk;
mod status;
mod times_files;
mod times_writer;
mod usage;
mod verifying;
mod waiting;
mod why;
mod writing;

pub use answering::{answered, no_command};
pub use commands::obeyed;
pub use concluding::{concluded, reported};
pub use exit::Exit;
pub use outcome::{Left, Outcome};
pub use outlet::Outlet;
pub use status::Ending;
pub use why::Why;
