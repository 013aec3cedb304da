//! What several threads count.

ghost use Rattle.std.specs.Prelude.{◌≡◌, ◌↔◌, ◌<◌, IsSome, vec_len};

use crate::counted::{Counted, ImageCounted};
use metrics_text::ResumeMeasures;
use std::alloc::{AllocError, Global};
use std::sync::atomic::{AtomicU64, Ordering};
use stream_pairs::{MAX_IMAGES, Place};

/// A number that threads add to. It wraps around after the last `u64`.
#[derive(Drop)]
pub struct Count(AtomicU64);

impl Count {
    pub(crate) fn new() -> Count {
        Count(AtomicU64::new(0))
    }

    /// Adds to it.
    pub fn add(&self, more: u64) {
        self.0.fetch_add(more, Ordering::SeqCst);
    }

    pub(crate) fn get(&self) -> u64 {
        self.0.load(Ordering::SeqCst)
    }

    pub(crate) fn set(&self, value: u64) {
        self.0.store(value, Ordering::SeqCst);
    }
}

/// What is counted of an image.
#[derive(Drop)]
pub struct ImageCounts {
    /// Bytes that were recorded.
    pub recorded: Count,
    /// Datagrams that were lost past the stock.
    pub lost: Count,
    /// NAK frames that were sent.
    pub requests: Count,
}

impl ImageCounts {
    fn new() -> ImageCounts {
        ImageCounts {
            recorded: Count::new(),
            lost: Count::new(),
            requests: Count::new(),
        }
    }

    /// Nothing was counted.
    fn clear(&self) {
        self.recorded.set(0);
        self.lost.set(0);
        self.requests.set(0);
    }

    fn counted(&self) -> ImageCounted {
        ImageCounted {
            recorded: self.recorded.get(),
            lost: self.lost.get(),
            requests: self.requests.get(),
        }
    }
}

/// What is counted of a server.
#[derive(Drop)]
pub struct Counts {
    /// Connections that were taken.
    pub connections: Count,
    /// Datagrams that came.
    pub datagrams: Count,
    /// Images that joined.
    pub images: Count,
    /// Holes between recordings of one publication.
    pub holes: Count,
    /// Bytes of them.
    pub hole_bytes: Count,
    /// Images that began where a recording stands, before their publications' setup frames.
    pub resumed: Count,
    /// Bytes that were missing before setup frames, and came.
    pub resumed_bytes: Count,
    /// Images of those that wait for no bytes any more.
    pub resumed_ends: Count,
    /// What was counted of images that left.
    left: ImageCounts,
    /// By the images' places.
    of_images: Vec<ImageCounts>,
    ghost all_images: { vec_len of_images ≡ 64 },
}

impl Counts {
    /// Nothing was counted yet. Costs memory for 64 images.
    pub fn new(alloc: Global) -> Result<Counts, AllocError> {
        let mut of_images = Vec::with_capacity(alloc, MAX_IMAGES)?;
        for _ in 0..MAX_IMAGES {
            of_images.push(ImageCounts::new())?;
        }
        Ok(Counts {
            connections: Count::new(),
            datagrams: Count::new(),
            images: Count::new(),
            holes: Count::new(),
            hole_bytes: Count::new(),
            resumed: Count::new(),
            resumed_bytes: Count::new(),
            resumed_ends: Count::new(),
            left: ImageCounts::new(),
            of_images,
        })
    }

    /// What is counted of the image at a place, of each of 64.
    pub fn of(&self, place: Place) -> Option<&ImageCounts>
        ensures { IsSome result ↔ (place < 64) }
    {
        self.of_images.as_slice().get(place)
    }

    /// What was counted of the image at a place.
    pub fn counted(&self, place: Place) -> ImageCounted {
        match self.of(place) {
            Some(counts) => counts.counted(),
            None => NOTHING,
        }
    }

    /// The image at a place has left: what was counted of it counts for the whole alone from now on.
    pub fn leave(&self, place: Place) {
        if let Some(counts) = self.of(place) {
            let counted = counts.counted();
            self.left.recorded.add(counted.recorded);
            self.left.lost.add(counted.lost);
            self.left.requests.add(counted.requests);
            counts.clear();
        }
    }

    /// What was counted of publications that came back.
    pub fn resumes(&self) -> ResumeMeasures {
        let resumed = self.resumed.get();
        ResumeMeasures {
            holes: self.holes.get(),
            hole_bytes: self.hole_bytes.get(),
            resumed,
            resumed_bytes: self.resumed_bytes.get(),
            resuming: resumed.saturating_sub(self.resumed_ends.get()),
        }
    }

    /// What was counted of all.
    pub fn all(&self) -> Counted {
        let mut all = self.left.counted();
        for counts in self.of_images.as_slice() {
            let counted = counts.counted();
            all.recorded = all.recorded.saturating_add(counted.recorded);
            all.lost = all.lost.saturating_add(counted.lost);
            all.requests = all.requests.saturating_add(counted.requests);
        }
        Counted {
            connections: self.connections.get(),
            datagrams: self.datagrams.get(),
            images: self.images.get(),
            all,
        }
    }
}

const NOTHING: ImageCounted = ImageCounted {
    recorded: 0,
    lost: 0,
    requests: 0,
};
