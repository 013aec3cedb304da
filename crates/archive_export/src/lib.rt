//! Recorded frames as a capture file, of an archive that is only looked at.
#![tactic(auto)]

pub mod capture;
mod frames;
mod span;

pub use frames::{ExportFault, export};
pub use span::Span;
