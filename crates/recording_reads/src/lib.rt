//! What is read of a recording, for an archive that is open and for one that is only looked at.
#![tactic(auto)]

mod boundary;
mod counting;
mod cursor;
mod layout;
mod polling;
mod readable;
mod settled;

pub use boundary::{is_boundary, is_written_to};
pub use counting::count_frames;
pub use cursor::Cursor;
pub use layout::layout_of;
pub use polling::hand_frames;
pub use readable::is_readable;
pub use settled::SettledReader;
