//! How many datagrams came for images, and when the last one did. docs/SERVING.md, "Metrics".

ghost use Rattle.std.specs.Prelude.{◌≡◌, None, replicate, slice_index_or, slice_set};
ghost use Rattle.server_receiver.specs.SeenImages.{seen_after_datagram, heard_at, nothing_seen, silent};

use stream_pairs::{MAX_IMAGES, Place};

/// What was seen of the image at a place.
#[derive(Clone, Copy, Debug, PartialEq, Eq)]
pub(crate) struct SeenImage {
    /// How many datagrams came for it.
    pub datagrams: u64,
    /// When the last one came, in milliseconds, if that is known.
    pub last: Option<u64>,
}

const NOTHING: SeenImage = SeenImage {
    datagrams: 0,
    last: None,
};

/// What was seen of images, by their places.
#[derive(Clone, Copy)]
pub(crate) struct SeenImages {
    seen: [SeenImage; MAX_IMAGES],
    /// The place of the image for which the last datagram came, as long as it is not known when.
    heard: Option<Place>,
}

impl SeenImages {
    /// Nothing came.
    pub fn new() -> SeenImages
        ensures { result ≡ record { seen = replicate 64 nothing_seen; heard = None } }
    {
        SeenImages {
            seen: [NOTHING; MAX_IMAGES],
            heard: None,
        }
    }

    /// A new image is at a place.
    pub fn forget(&mut self, place: Place)
        ensures { self.new ≡ record self.old { seen = slice_set self.old.seen place nothing_seen } }
    {
        self.set(place, NOTHING);
    }

    /// A datagram came for the image at a place.
    pub fn note(&mut self, place: Place)
        ensures { self.new ≡ seen_after_datagram place self.old }
    {
        let seen = self.at(place);
        self.set(
            place,
            SeenImage {
                datagrams: seen.datagrams.saturating_add(1),
                ..seen
            },
        );
        self.heard = Some(place);
    }

    /// The last datagram came at a time, in milliseconds, if it came since the last call.
    pub fn note_time(&mut self, now: u64)
        ensures { self.new ≡ heard_at now self.old }
    {
        if let Some(place) = self.heard {
            let seen = self.at(place);
            self.set(
                place,
                SeenImage {
                    last: Some(now),
                    ..seen
                },
            );
            self.heard = None;
        }
    }

    /// What was seen of the image at a place.
    pub fn at(&self, place: Place) -> SeenImage
        ensures { result ≡ slice_index_or self.now.seen place nothing_seen }
    {
        match self.seen.get(place) {
            Some(seen) => *seen,
            None => NOTHING,
        }
    }

    fn set(&mut self, place: Place, seen: SeenImage)
        ensures { self.new ≡ record self.old { seen = slice_set self.old.seen place seen } }
    {
        if place < MAX_IMAGES {
            self.seen[place] = seen;
        }
    }
}

impl SeenImage {
    /// How many milliseconds ago the last datagram came; 0 if that is not known.
    pub fn silent(&self, now: u64) -> u64
        ensures { result ≡ silent now self.now.last }
    {
        match self.last {
            Some(last) => now.saturating_sub(last),
            None => 0,
        }
    }
}
