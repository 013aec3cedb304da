//! Gaps of images that stand for long, and when that is told. docs/SERVING.md, "What the server prints".

ghost use Rattle.std.specs.Prelude.{◌≡◌, None, replicate, slice_index_or, slice_set};
ghost use Rattle.server_receiver.specs.Standing.{filled_told, gap_followed, gap_kept, gap_told, is_telling, known_told, new_gap, stands_told, told_gap};

use stream_pairs::{MAX_IMAGES, Place};

/// Milliseconds that a gap stands before it is told.
const STANDING: u64 = 5_000;
/// Milliseconds of an hour.
const HOUR: u64 = 3_600_000;

/// The first gap of an image, which was seen.
#[derive(Clone, Copy, Debug, PartialEq, Eq)]
pub(crate) struct StandingGap {
    /// Where it begins, in bytes of the stream.
    pub position: i64,
    /// When it was seen first, in milliseconds.
    pub since: u64,
    /// How many NAKs the image had been asked for by then.
    pub naks: u64,
    /// Whether it was told that it stands.
    pub is_told: bool,
    /// For how many whole hours it stood when that was told last.
    pub hours: u64,
}

/// What is told of a gap.
#[derive(Clone, Copy, Debug, PartialEq, Eq)]
pub(crate) enum GapTold {
    /// It stands.
    Stands {
        /// For how many milliseconds.
        millis: u64,
        /// How many NAKs the image had been asked for when it was seen first.
        naks: u64,
    },
    /// It was filled.
    Filled {
        /// Where it began, in bytes of the stream.
        position: i64,
        /// After how many milliseconds.
        millis: u64,
    },
}

/// By the images' places the first gap of each, as it was seen last.
#[derive(Clone, Copy)]
pub(crate) struct StandingGaps {
    gaps: [Option<StandingGap>; MAX_IMAGES],
}

impl StandingGaps {
    /// No gap was seen.
    pub fn new() -> StandingGaps
        ensures { result ≡ record { gaps = replicate 64 None } }
    {
        StandingGaps {
            gaps: [None; MAX_IMAGES],
        }
    }

    /// The first gap of the image at a place begins there now, or it has none; so many NAKs were sent for it by now. What is
    /// told: that the gap has stood for 5 seconds, and that again at each hour; and once it is filled that it is, if it was told.
    pub fn follow(
        &mut self,
        place: Place,
        found: Option<i64>,
        naks: u64,
        now: u64,
    ) -> Option<GapTold>
        ensures told { result ≡ gap_told found now (slice_index_or self.old.gaps place None) }
        ensures gaps { self.new ≡ record self.old {
          gaps = slice_set self.old.gaps place (gap_followed found naks now (slice_index_or self.old.gaps place None));
        } }
    {
        let known = self.at(place);
        self.set(place, gap_followed(found, naks, now, known));
        gap_told(found, now, known)
    }

    /// The image at a place is another one.
    pub fn forget(&mut self, place: Place)
        ensures { self.new ≡ record self.old { gaps = slice_set self.old.gaps place None } }
    {
        self.set(place, None);
    }

    fn at(&self, place: Place) -> Option<StandingGap>
        ensures { result ≡ slice_index_or self.now.gaps place None }
    {
        match self.gaps.get(place) {
            Some(gap) => *gap,
            None => None,
        }
    }

    fn set(&mut self, place: Place, gap: Option<StandingGap>)
        ensures { self.new ≡ record self.old { gaps = slice_set self.old.gaps place gap } }
    {
        if place < MAX_IMAGES {
            self.gaps[place] = gap;
        }
    }
}

/// The first gap of an image, if it has one, by the one that was known.
fn gap_followed(
    found: Option<i64>,
    naks: u64,
    now: u64,
    known: Option<StandingGap>,
) -> Option<StandingGap>
    ensures { result ≡ gap_followed found naks now known }
{
    match found {
        Some(position) => Some(gap_kept(position, naks, now, known)),
        None => None,
    }
}

fn gap_kept(position: i64, naks: u64, now: u64, known: Option<StandingGap>) -> StandingGap
    ensures { result ≡ gap_kept position naks now known }
{
    match known {
        Some(gap) if gap.position == position => {
            if is_telling(now, &gap) {
                told_gap(now, gap)
            } else {
                gap
            }
        }
        _ => new_gap(position, naks, now),
    }
}

fn new_gap(position: i64, naks: u64, now: u64) -> StandingGap
    ensures { result ≡ new_gap position naks now }
{
    StandingGap {
        position,
        since: now,
        naks,
        is_told: false,
        hours: 0,
    }
}

/// Whether it is time to tell that a gap stands: it has stood for 5 seconds, or for more whole hours than were told.
fn is_telling(now: u64, gap: &StandingGap) -> bool
    ensures { result ≡ is_telling now gap.now }
{
    let stood = now.saturating_sub(gap.since);
    if gap.is_told {
        gap.hours < stood / HOUR
    } else {
        STANDING <= stood
    }
}

/// A gap of which it was told that it stands.
fn told_gap(now: u64, gap: StandingGap) -> StandingGap
    ensures { result ≡ told_gap now gap }
{
    StandingGap {
        is_told: true,
        hours: now.saturating_sub(gap.since) / HOUR,
        ..gap
    }
}

/// What is told of the gap that was known.
fn gap_told(found: Option<i64>, now: u64, known: Option<StandingGap>) -> Option<GapTold>
    ensures { result ≡ gap_told found now known }
{
    match known {
        Some(gap) => known_told(found, now, gap),
        None => None,
    }
}

fn known_told(found: Option<i64>, now: u64, gap: StandingGap) -> Option<GapTold>
    ensures { result ≡ known_told found now gap }
{
    match found {
        Some(position) if gap.position == position => stands_told(now, gap),
        _ => filled_told(now, gap),
    }
}

fn stands_told(now: u64, gap: StandingGap) -> Option<GapTold>
    ensures { result ≡ stands_told now gap }
{
    if is_telling(now, &gap) {
        Some(GapTold::Stands {
            millis: now.saturating_sub(gap.since),
            naks: gap.naks,
        })
    } else {
        None
    }
}

fn filled_told(now: u64, gap: StandingGap) -> Option<GapTold>
    ensures { result ≡ filled_told now gap }
{
    if gap.is_told {
        Some(GapTold::Filled {
            position: gap.position,
            millis: now.saturating_sub(gap.since),
        })
    } else {
        None
    }
}
