//! The thread of a server that records: seats of sessions, settlings, and recordings that nobody asked for.
#![tactic(auto)]

mod checkpoints;
mod flushing;
mod grouping;
mod opening;
mod own_recordings;
mod recording;
mod seats;
mod settling;
mod standing_holes;
mod stopping;
mod streams;
mod tokens;
mod writing;

pub use checkpoints::{begin_short, is_begun, note_checkpoint};
pub use flushing::{Flusher, Unflushed};
pub use own_recordings::OwnRecordings;
pub use recording::{Recording, record_all};
pub use seats::{SeatRoom, Seats, parted};
pub use stopping::note_standing;
