//! What is asked of an archive, as values, what is decided on it, and what an archive keeps of its callers.
#![tactic(auto)]

mod accepting;
mod asked;
mod bytes;
mod callers;
mod calls;
mod copies;
mod deciding;
mod decision;
mod desk;
mod event;
mod grouping;
pub mod laws;
mod opening;
mod replays;
mod request;
mod sessions;
mod turns;

pub use asked::{Asked, Told};
pub use bytes::read_terms;
pub use callers::{
    FoundReplay, FoundSession, OpenReplay, Reader, RecorderSession, Writer, Written,
};
pub use copies::copy_reply;
pub use deciding::decide;
pub use decision::Decision;
pub use desk::Desk;
pub use event::Event;
pub use grouping::decide_settle_all;
pub use request::{FindFields, Request};
pub use turns::{
    FoundSettling, FoundWriting, Opening, OpeningDecision, Settling, decide_close, decide_open,
    decide_poll, decide_settle, decide_sweep, decide_verify, decide_write,
};
