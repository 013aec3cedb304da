//! Replays of a shared archive whose frames are read beside its lock.
#![tactic(auto)]

mod calls;
mod held;
mod opening;
mod replayer;
mod sending;
mod sent_frames;
mod signs;

pub use calls::{Seen, described};
pub use held::{HeldReplay, Unopened};
pub use opening::{Unbegun, open_in_term};
pub use replayer::SettledReplayer;
pub use sent_frames::SentFrames;
pub use signs::{Sign, sign_at};
