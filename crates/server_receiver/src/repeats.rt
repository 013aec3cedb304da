//! Datagrams that came late or again. docs/SERVING.md, "Metrics".

ghost use Rattle.std.specs.Prelude.{◌≡◌, None, replicate, slice_index_or, slice_set};
ghost use Rattle.server_receiver.specs.Metering.{farther, is_late};

use frame_core::limits::HEADER_LENGTH;
use frame_core::{Geometry, position, read_i32};
use stream_pairs::{MAX_IMAGES, Place};

/// Where the length of a frame, the offset in its term, and its term id are in its header.
const LENGTH_AT: usize = 0;

const TERM_OFFSET_AT: usize = 8;

const TERM_ID_AT: usize = 20;

/// By the images' places where the farthest frames begin that came, in bytes of the stream.
#[derive(Clone, Copy)]
pub(crate) struct Repeats {
    farthest: [Option<i64>; MAX_IMAGES],
}

impl Repeats {
    /// Nothing came.
    pub fn new() -> Repeats
        ensures { result ≡ record { farthest = replicate 64 None } }
    {
        Repeats {
            farthest: [None; MAX_IMAGES],
        }
    }

    /// A new image is at a place.
    pub fn forget(&mut self, place: Place)
        ensures { self.new ≡ record self.old { farthest = slice_set self.old.farthest place None } }
    {
        self.set(place, None);
    }

    /// Frames came that begin there, for the image at a place. Whether they came late or again. Not known: they change nothing.
    pub fn note(&mut self, place: Place, begins: Option<i64>) -> bool
        ensures late { result ≡ is_late begins (slice_index_or self.old.farthest place None) }
        ensures farthest { self.new ≡ record self.old {
          farthest = slice_set self.old.farthest place (farther begins (slice_index_or self.old.farthest place None));
        } }
    {
        let farthest = self.at(place);
        self.set(place, farther(begins, farthest));
        is_late(begins, farthest)
    }

    fn at(&self, place: Place) -> Option<i64>
        ensures { result ≡ slice_index_or self.now.farthest place None }
    {
        match self.farthest.get(place) {
            Some(farthest) => *farthest,
            None => None,
        }
    }

    fn set(&mut self, place: Place, farthest: Option<i64>)
        ensures { self.new ≡ record self.old { farthest = slice_set self.old.farthest place farthest } }
    {
        if place < MAX_IMAGES {
            self.farthest[place] = farthest;
        }
    }
}

/// Whether frames that begin here came late or again, if frames that begin there came.
fn is_late(begins: Option<i64>, farthest: Option<i64>) -> bool
    ensures { result ≡ is_late begins farthest }
{
    match (begins, farthest) {
        (Some(begins), Some(farthest)) => begins <= farthest,
        _ => false,
    }
}

/// The farther one of two positions, if both are known.
fn farther(begins: Option<i64>, farthest: Option<i64>) -> Option<i64>
    ensures { result ≡ farther begins farthest }
{
    match (begins, farthest) {
        (None, farthest) => farthest,
        (begins, None) => begins,
        (Some(begins), Some(farthest)) if begins <= farthest => Some(farthest),
        (begins, Some(_)) => begins,
    }
}

/// Where the frames of a datagram begin, in bytes of the stream. None of a heartbeat, and where that is not known.
pub(crate) fn begins_at(datagram: &[u8], geometry: &Geometry) -> Option<i64> {
    if datagram.len() < HEADER_LENGTH || read_i32(datagram, LENGTH_AT) == 0 {
        return None;
    }
    let term_id = read_i32(datagram, TERM_ID_AT);
    position(geometry, term_id, read_i32(datagram, TERM_OFFSET_AT))
}
