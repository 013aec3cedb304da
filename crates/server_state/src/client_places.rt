//! How many clients are served. docs/SERVING.md, "Metrics".

use crate::counts::Count;

/// How many clients of the control port are served, and how many are at a time at most.
#[derive(Drop)]
pub struct ClientPlaces {
    begun: Count,
    ended: Count,
    places: Count,
}

impl ClientPlaces {
    /// Nobody is served, and nobody may be.
    pub(crate) fn new() -> ClientPlaces {
        ClientPlaces {
            begun: Count::new(),
            ended: Count::new(),
            places: Count::new(),
        }
    }

    /// So many are served at a time at most.
    pub fn set(&self, places: usize) {
        self.places.set(places as u64);
    }

    /// One more is served.
    pub fn begin(&self) {
        self.begun.add(1);
    }

    /// One is served no longer.
    pub fn end(&self) {
        self.ended.add(1);
    }

    /// How many are served.
    pub(crate) fn served(&self) -> u64 {
        let ended = self.ended.get();
        self.begun.get().saturating_sub(ended)
    }

    /// How many are served at a time at most.
    pub(crate) fn places(&self) -> u64 {
        self.places.get()
    }
}
