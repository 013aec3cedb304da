//! Signs that frames from an image's address are another publication's. The sender's setup frames and heartbeats name its own
//! position, so neither ever stands before the end of the furthest frame that came of it.

ghost use Rattle.std.specs.Prelude.{◌≡◌, None, MatchBool};
ghost use Rattle.frame_core.specs.Setup.{IsUsable};
ghost use Rattle.image_rules.specs.Signs.{IsSetupSign, after_unasked, is_heartbeat_sign, is_third};

use crate::ending::are_same_terms;
use frame_core::{Geometry, Setup};

/// Milliseconds in which nothing else of a publication came before a heartbeat that is a sign.
const ALONE: u64 = 50;
/// Milliseconds within which three frames that come again are a sign.
const TOGETHER: u64 = 1_000;

/// A sign that the publication at an image's address is another one, by what shows it.
#[derive(Clone, Copy, Debug, PartialEq, Eq)]
pub enum Sign {
    /// A setup frame with other terms than the image's, or before the end of the furthest frame that came.
    Setup,
    /// A heartbeat before the end of the furthest frame that came.
    Heartbeat,
    /// Three frames within a second, before the rebuild position, that no NAK asked for.
    Repeats,
}

/// Whether a setup frame is a sign: it has other terms than the image, or its position is before the mark. The mark is the end of
/// the furthest frame that the image received, in bytes of the stream. Does not allocate.
#[tactic(auto, using(frame_core::proofs::SetupLemmas::one_join))]
pub fn is_setup_sign(geometry: &Geometry, mark: i64, setup: &Setup) -> bool
    requires usable { IsUsable setup.now }
    ensures { MatchBool result (IsSetupSign geometry.now mark setup.now) (IsSetupSign geometry.now mark setup.now → ⊥) }
{
    if !are_same_terms(&setup.geometry(), geometry) {
        return true;
    }
    match setup.join_position() {
        Some(position) => position < mark,
        None => true,
    }
}

/// Whether a heartbeat at a position is a sign: it is before the mark, and nothing else of the publication came in the 50
/// milliseconds before it. `heard` is when something else came last, in milliseconds. Does not allocate.
pub fn is_heartbeat_sign(mark: i64, position: i64, heard: u64, now: u64) -> bool
    ensures { result ≡ is_heartbeat_sign mark position heard now }
{
    position < mark && ALONE <= now.saturating_sub(heard)
}

/// When the last two frames came that came again unasked, since the last sign.
#[derive(Clone, Copy, Debug, PartialEq, Eq)]
pub struct UnaskedFrames {
    /// The last one, in milliseconds.
    pub last: Option<u64>,
    /// The one before it, in milliseconds.
    pub before: Option<u64>,
}

impl UnaskedFrames {
    /// None came.
    pub fn new() -> UnaskedFrames
        ensures { result ≡ record { last = None; before = None } }
    {
        UnaskedFrames {
            last: None,
            before: None,
        }
    }

    /// A frame came again unasked. Whether it is a sign: the third one within a second. The next sign needs three more. Does not
    /// allocate.
    pub fn hear(&mut self, now: u64) -> bool
        ensures sign { result ≡ is_third now self.old }
        ensures after { self.new ≡ after_unasked now self.old }
    {
        if self.is_third(now) {
            *self = UnaskedFrames::new();
            return true;
        }
        self.before = self.last;
        self.last = Some(now);
        false
    }

    /// Whether a frame that comes now is the third one within a second.
    fn is_third(&self, now: u64) -> bool
        ensures { result ≡ is_third now self.now }
    {
        match self.before {
            Some(before) => now.saturating_sub(before) <= TOGETHER,
            None => false,
        }
    }
}
