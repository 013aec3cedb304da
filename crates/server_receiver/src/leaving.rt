//! Images that leave: their places are given back once the recording thread is done with their blocks. docs/ARCHITECTURE.md,
//! "Serving".

ghost use Rattle.std.specs.Prelude.{◌≡◌, false, replicate, slice_index_or, slice_set, true};

use stream_pairs::{MAX_IMAGES, Place};

/// The places of images that leave.
#[derive(Clone, Copy)]
pub(crate) struct Leaving {
    places: [bool; MAX_IMAGES],
}

impl Leaving {
    /// No image leaves.
    pub fn new() -> Leaving
        ensures { result ≡ record { places = replicate 64 false } }
    {
        Leaving {
            places: [false; MAX_IMAGES],
        }
    }

    /// Whether the image at a place leaves.
    pub fn contains(&self, place: Place) -> bool
        ensures { result ≡ slice_index_or self.now.places place false }
    {
        match self.places.get(place) {
            Some(leaves) => *leaves,
            None => false,
        }
    }

    /// The image at a place leaves.
    pub fn add(&mut self, place: Place)
        ensures { self.new ≡ record self.old { places = slice_set self.old.places place true } }
    {
        self.set(place, true);
    }

    /// The image at a place has left.
    pub fn remove(&mut self, place: Place)
        ensures { self.new ≡ record self.old { places = slice_set self.old.places place false } }
    {
        self.set(place, false);
    }

    fn set(&mut self, place: Place, leaves: bool)
        ensures { self.new ≡ record self.old { places = slice_set self.old.places place leaves } }
    {
        if place < MAX_IMAGES {
            self.places[place] = leaves;
        }
    }
}
