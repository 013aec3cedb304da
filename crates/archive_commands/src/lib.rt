//! What the program's commands do with writers and disks beside scripts: archives made, compacted, listed and verified, the
//! frames of a file, and disks whose reads are watched.
#![tactic(auto)]

mod commands;
mod frames;
pub mod laws;
mod pace;
mod progress;
mod reports;
mod screen;
mod stored;
mod watched;

pub use commands::{
    CommandFault, Stop, compact_archive, create_archive, list_archive, verify_archive,
};
pub use frames::{Listing, list_frames};
pub use progress::{ListedFiles, Measure, OpeningProgress, Progress};
pub use reports::{Verdict, Verifiable, has_asked, list_recordings, verify_recordings};
pub use screen::{Screen, Stage};
pub use watched::{Viewer, Watched};
