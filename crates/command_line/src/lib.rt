//! The program's command line.
#![tactic(auto)]

mod asking;
mod command;
mod serving;
mod usage;
mod version;

pub use asking::AskWords;
pub use command::{ToolCommand, command_of, unreadable_words};
pub use serving::ServeWords;
pub use usage::UsageError;
pub use version::{CATALOGUE_VERSION, PROGRAM_VERSION};
