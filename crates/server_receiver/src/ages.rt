//! Since when images are at their places, and which of them have had a block.

ghost use Rattle.std.specs.Prelude.{◌≡◌, ◌-◌, false, replicate, slice_index_or, slice_set, true};
ghost use Rattle.server_receiver.specs.Places.{joined_at, ages_with_block};

use stream_pairs::{MAX_IMAGES, Place};

/// By the images' places when they joined, and whether it was seen that they have a block.
#[derive(Clone, Copy)]
pub(crate) struct Ages {
    joined: [u64; MAX_IMAGES],
    has_block: [bool; MAX_IMAGES],
}

impl Ages {
    /// No image came.
    pub fn new() -> Ages
        ensures { result ≡ record { joined = replicate 64 0; has_block = replicate 64 false } }
    {
        Ages {
            joined: [0; MAX_IMAGES],
            has_block: [false; MAX_IMAGES],
        }
    }

    /// An image joins at a place, which has no block.
    pub fn join(&mut self, place: Place, now: u64)
        ensures { self.new ≡ joined_at place now self.old }
    {
        if place < MAX_IMAGES {
            self.joined[place] = now;
            self.has_block[place] = false;
        }
    }

    /// For how many milliseconds the image at a place is there.
    pub fn age(&self, place: Place, now: u64) -> u64
        ensures { result ≡ now - slice_index_or self.now.joined place 0 }
    {
        match self.joined.get(place) {
            Some(joined) => now.saturating_sub(*joined),
            None => now,
        }
    }

    /// The image at a place has a block. Whether that was seen before.
    pub fn fill(&mut self, place: Place) -> bool
        ensures seen { result ≡ slice_index_or self.old.has_block place true }
        ensures after { self.new ≡ ages_with_block place self.old }
    {
        if place < MAX_IMAGES {
            let before = self.has_block[place];
            self.has_block[place] = true;
            before
        } else {
            true
        }
    }
}
