//! An archive as it stands on a disk that is only read.
#![tactic(auto)]

mod count;
mod files;
mod frames;
mod hidden;
mod read_only;
mod view;

pub use read_only::ReadOnly;
pub use view::ArchiveView;
