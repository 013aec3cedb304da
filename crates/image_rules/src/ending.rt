//! The end of a publication, which its sender says by flags of its heartbeats: Aeron Transport Protocol Specification, "Data Frame".

ghost use Rattle.std.specs.Prelude.{◌≡◌, ◌<◌, true, false};
ghost use Rattle.image_rules.specs.Ending.{brings_request, is_whole_up_to, are_same_terms, is_at_end, ends_stream, is_revoked, may_join};

use frame_core::Geometry;

/// The bit of a heartbeat's flags that says that the stream ends at its position.
const END_OF_STREAM: u8 = 0x20;
/// The bit that says, with the one above, that the publication is revoked: no frame of it comes any more.
const REVOKED: u8 = 0x10;
/// Milliseconds after an end in which a publication may linger.
pub const LINGER: u64 = 10_000;
/// Milliseconds without a heartbeat that says the end after which the publication may begin again there.
const SILENT: u64 = 300;

/// What the flags of a heartbeat say of its publication.
#[derive(Clone, Copy, Debug, PartialEq, Eq)]
pub struct EndingFlags {
    /// The stream ends at the heartbeat's position.
    pub ends_stream: bool,
    /// The publication is gone at once: an image of it leaves with what is whole.
    pub is_revoked: bool,
}

impl EndingFlags {
    /// What flags say. Does not allocate.
    pub fn of(flags: u8) -> EndingFlags
        ensures end { result.ends_stream ≡ ends_stream flags }
        ensures revoked { result.is_revoked ≡ is_revoked flags }
    {
        let ends_stream = flags & END_OF_STREAM != 0;
        EndingFlags {
            ends_stream,
            is_revoked: ends_stream && flags & REVOKED != 0,
        }
    }
}

/// Whether an image has all of a stream that ends at a position: that is its rebuild position, and no frame is further on. Does not
/// allocate.
pub fn is_whole_up_to(end: i64, rebuilt: i64, mark: i64) -> bool
    ensures { result ≡ is_whole_up_to end rebuilt mark }
{
    end == rebuilt && end == mark
}

/// A publication that ended, with all of it received.
#[derive(Clone, Copy, Debug, PartialEq, Eq)]
pub struct EndedPublication {
    /// Its terms.
    pub geometry: Geometry,
    /// Where it ended, in bytes of the stream.
    pub position: i64,
    /// When its image left, in milliseconds.
    pub at: u64,
    /// When a heartbeat came last that says the end, in milliseconds.
    pub heard: u64,
}

impl EndedPublication {
    /// Whether frames of it bring a request for a setup frame: not heartbeats that say the end, for 10 seconds. Does not allocate.
    pub fn brings_request(&self, says_end: bool, now: u64) -> bool
        ensures { result ≡ brings_request says_end now self.now }
    {
        !says_end || LINGER <= now.saturating_sub(self.at)
    }

    /// Whether a setup frame of it at a position joins: one with its terms where it ended has to wait, in these 10 seconds, until no
    /// heartbeat said the end for 300 milliseconds. Does not allocate.
    pub fn may_join(&self, geometry: &Geometry, position: i64, now: u64) -> bool
        ensures { result ≡ may_join geometry.now position now self.now }
    {
        !self.is_at_end(geometry, position)
            || LINGER <= now.saturating_sub(self.at)
            || SILENT <= now.saturating_sub(self.heard)
    }

    fn is_at_end(&self, geometry: &Geometry, position: i64) -> bool
        ensures { result ≡ is_at_end geometry.now position self.now }
    {
        self.position == position && are_same_terms(&self.geometry, geometry)
    }
}

/// Whether two publications have the same terms. Does not allocate.
pub fn are_same_terms(one: &Geometry, other: &Geometry) -> bool
    ensures { result ≡ are_same_terms one.now other.now }
{
    one.initial_term_id == other.initial_term_id
        && one.term_length == other.term_length
        && one.mtu == other.mtu
}
