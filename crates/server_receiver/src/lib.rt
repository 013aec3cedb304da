//! The thread of a server that receives datagrams: images, and what their senders are sent.
#![tactic(auto)]

mod admission;
mod ages;
mod ends;
mod gaps;
mod giving;
mod images;
mod leaving;
mod metering;
mod networks;
mod no_places;
mod places;
mod receiving;
mod recorded_streams;
mod repeats;
mod resuming;
mod returning;
mod seen_images;
mod senders;
mod standing;
mod strangers;
mod tending;
mod unresumed;

pub use admission::{Admission, Course};
pub use images::{DatagramOutcome, Images};
pub use networks::{MAX_NETWORKS, Network, Networks};
pub use receiving::{Reception, TENDING};
pub use senders::{Receiver, SenderEnd, Senders};
