//! For how long the first gaps of images have stood. docs/SERVING.md, "Metrics".

ghost use Rattle.std.specs.Prelude.{◌≡◌, None, replicate, slice_index_or, slice_set};
ghost use Rattle.server_receiver.specs.Metering.{gap_now, gap_seen, is_seen, stood};

use stream_pairs::{MAX_IMAGES, Place};

/// A gap that was seen.
#[derive(Clone, Copy, Debug, PartialEq, Eq)]
pub(crate) struct SeenGap {
    /// Where it begins, in bytes of the stream.
    pub position: i64,
    /// When it was seen first, in milliseconds.
    pub since: u64,
}

/// By the images' places the first gap of each, as it was seen last.
#[derive(Clone, Copy)]
pub(crate) struct Gaps {
    seen: [Option<SeenGap>; MAX_IMAGES],
}

impl Gaps {
    /// No gap was seen.
    pub fn new() -> Gaps
        ensures { result ≡ record { seen = replicate 64 None } }
    {
        Gaps {
            seen: [None; MAX_IMAGES],
        }
    }

    /// The first gap of the image at a place is there now, or it has none: for how many milliseconds it has stood, since it was
    /// seen first. 0 if it has none.
    pub fn follow(&mut self, place: Place, position: Option<i64>, now: u64) -> u64
        ensures stood { result ≡ stood now (gap_seen position now (slice_index_or self.old.seen place None)) }
        ensures seen { self.new ≡ record self.old {
          seen = slice_set self.old.seen place (gap_seen position now (slice_index_or self.old.seen place None));
        } }
    {
        let gap = match position {
            Some(position) => Some(gap_now(position, now, self.at(place))),
            None => None,
        };
        self.set(place, gap);
        stood(now, gap)
    }

    fn at(&self, place: Place) -> Option<SeenGap>
        ensures { result ≡ slice_index_or self.now.seen place None }
    {
        match self.seen.get(place) {
            Some(gap) => *gap,
            None => None,
        }
    }

    fn set(&mut self, place: Place, gap: Option<SeenGap>)
        ensures { self.new ≡ record self.old { seen = slice_set self.old.seen place gap } }
    {
        if place < MAX_IMAGES {
            self.seen[place] = gap;
        }
    }
}

/// The gap at a position, by the one that was seen last.
fn gap_now(position: i64, now: u64, seen: Option<SeenGap>) -> SeenGap
    ensures { result ≡ gap_now position now seen }
{
    match seen {
        Some(gap) if gap.position == position => gap,
        _ => SeenGap {
            position,
            since: now,
        },
    }
}

/// For how many milliseconds a gap has stood; 0 if there is none.
fn stood(now: u64, gap: Option<SeenGap>) -> u64
    ensures { result ≡ stood now gap }
{
    match gap {
        Some(gap) => now.saturating_sub(gap.since),
        None => 0,
    }
}
