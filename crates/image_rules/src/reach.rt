//! A first gap that lies further back than a sender repeats: what is missing can't come any more.

ghost use Rattle.std.specs.Prelude.{◌≡◌, ◌<◌, ◌^◌, None, Some};
ghost use Rattle.image_rules.specs.Reach.{after_look, restarts_wait, gap_after, is_out_of_patience, is_out_of_reach, is_reached, repeat_reach};

use frame_core::Geometry;

/// The longest message of a stream whose terms are long, in bytes.
const LONGEST_MESSAGE: u64 = 16_777_216;
/// Milliseconds that a gap is out of reach before it is given up.
const PATIENCE: u64 = 5_000;
/// Milliseconds without a datagram of the publication after which the time begins anew.
const QUIET: u64 = 1_000;

/// How far back a sender repeats, in bytes: half a term and the longest message, an eighth of a term and at most 16,777,216. Does
/// not allocate.
pub fn repeat_reach(geometry: &Geometry) -> u64
    ensures value { result ≡ repeat_reach geometry.now }
    ensures small { result < 2 ^ 31 }
{
    let term_length = u64::from(geometry.term_length.unsigned_abs());
    term_length / 2 + (term_length / 8).min(LONGEST_MESSAGE)
}

/// What is seen of an image and its sender. Positions are bytes of the stream, times are milliseconds.
#[derive(Clone, Copy, Debug, PartialEq, Eq)]
pub struct GapLook {
    /// The rebuild position, if something is missing there that is asked for.
    pub gap: Option<u64>,
    /// The furthest position at which a frame of the sender began, kept or dropped. Heartbeats and setup frames don't count.
    pub newest: u64,
    /// The position that a heartbeat or a setup frame of the sender named since the last look, if one came.
    pub named: Option<u64>,
    /// How far back the sender repeats, in bytes.
    pub reach: u64,
    /// When something of the publication came last.
    pub heard: u64,
    /// The time.
    pub time: u64,
}

impl GapLook {
    /// Whether a gap at a position is further back than the sender repeats.
    fn is_out_of_reach(&self, position: u64) -> bool
        ensures { result ≡ is_out_of_reach position self.now }
    {
        self.reach < self.newest.saturating_sub(position)
    }

    /// Whether the sender named a position from which it could still repeat what is missing at a position.
    fn is_reached(&self, position: u64) -> bool
        ensures { result ≡ is_reached position self.now }
    {
        match self.named {
            Some(named) => named.saturating_sub(position) <= self.reach,
            None => false,
        }
    }

    /// Whether the time begins anew for a gap at a position: it can still be filled, or the publication is silent.
    fn restarts_wait(&self, position: u64) -> bool
        ensures { result ≡ restarts_wait position self.now }
    {
        !self.is_out_of_reach(position)
            || self.is_reached(position)
            || QUIET <= self.time.saturating_sub(self.heard)
    }
}

/// A first gap that is out of reach.
#[derive(Clone, Copy, Debug, PartialEq, Eq)]
pub struct OutOfReach {
    /// Where it begins, in bytes of the stream.
    pub position: u64,
    /// Since when it is out of reach, in milliseconds.
    pub since: u64,
}

/// The first gap of an image, while it is out of reach.
#[derive(Clone, Copy, Debug, PartialEq, Eq)]
pub struct UnreachableGap {
    /// The gap.
    pub gap: Option<OutOfReach>,
}

impl UnreachableGap {
    /// No gap is out of reach.
    pub fn new() -> UnreachableGap
        ensures { result ≡ record { gap = None } }
    {
        UnreachableGap { gap: None }
    }

    /// The image is looked at. Whether its first gap is given up: it was out of reach at each look for 5,000 milliseconds, while it was
    /// asked for and something of the publication came within each 1,000. Does not allocate.
    pub fn follow(&mut self, look: &GapLook) -> bool
        ensures given_up { result ≡ is_out_of_patience look.now self.old }
        ensures after { self.new ≡ after_look look.now self.old }
    {
        self.gap = gap_after(look, self.gap);
        match self.gap {
            Some(gap) => PATIENCE <= look.time.saturating_sub(gap.since),
            None => false,
        }
    }
}

/// The gap that is out of reach after a look, by the one that was known.
fn gap_after(look: &GapLook, known: Option<OutOfReach>) -> Option<OutOfReach>
    ensures { result ≡ gap_after look.now known }
{
    let Some(position) = look.gap else {
        return None;
    };
    if look.restarts_wait(position) {
        return None;
    }
    match known {
        Some(gap) if gap.position == position => Some(gap),
        _ => Some(OutOfReach {
            position,
            since: look.time,
        }),
    }
}
