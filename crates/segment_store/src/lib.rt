//! Segment files: frames stored at their positions, read back, boundaries told, stale files swept.
#![tactic(auto)]

mod boundary;
mod check;
mod keep;
pub mod laws;
mod layout;
mod read;
mod sweep;
mod write;

pub use boundary::{is_boundary, is_reached};
pub use check::shown_frame;
pub use keep::Keep;
pub use layout::{Layout, Spot, base_of, spot_of};
pub use read::read_frame;
pub use sweep::{stale_files, sweep_one};
pub use write::{sync_segment, write_block};
