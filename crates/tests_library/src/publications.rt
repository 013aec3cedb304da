//! Senders of the vectors' stream, for the tests of other files.

use frame_core::{Geometry, Publication};
use publication_core::Sender;
use std::alloc::Global;

/// A sender of the vectors' stream, with terms of so many bytes and an MTU, that begins at a position.
pub(crate) fn sender_in(alloc: Global, term_length: i32, mtu: i32, position: u64) -> Sender {
    let geometry = Geometry {
        initial_term_id: 42,
        term_length,
        mtu,
    };
    let publication = Publication {
        session_id: 7,
        stream_id: 1_001,
    };
    Sender::new(alloc, geometry, publication, position)
}

/// The same, with the vectors' terms and MTU.
pub(crate) fn sender_at(alloc: Global, position: u64) -> Sender {
    sender_in(alloc, 65_536, 1_408, position)
}
