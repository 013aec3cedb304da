//! A publication of recorded frames: what a sender sends, and when. It is the other half of an image.
#![tactic(auto)]

mod bytes;
mod datagram;
mod due;
mod flow;
pub mod laws;
mod lists;
mod sender;
mod signs;

pub use bytes::Bytes;
pub use datagram::Datagram;
pub use due::Due;
pub use flow::Flow;
pub use sender::Sender;
