//! Which image gives its place to another publication. docs/PROTOCOL.md, "Places".

ghost use Rattle.std.specs.Prelude.{◌≡◌};
ghost use Rattle.stream_pairs.specs.Places.{first_yielding, height, is_any_before, is_before, is_first_of, rank_of, unfed_rank, yields, yields_before, yields_by};

use crate::pairs::Place;

/// Milliseconds after which an image of a wanted publication yields if nothing of it came.
const PATIENCE: u64 = 1_000;

/// What an image counts when another publication wants a place.
#[derive(Clone, Copy, Debug, PartialEq, Eq)]
pub enum Rank {
    /// It feeds no session, and nobody wants its publication.
    Other,
    /// It feeds no session. Its publication is wanted, and nothing of it came.
    Silent,
    /// It feeds no session. Its publication is wanted, and something of it came; or the image was lost, or leaves.
    Kept,
    /// It feeds a session.
    Recorded,
}

/// What is known of the image at a place when another publication wants one.
#[derive(Clone, Copy, Debug, PartialEq, Eq)]
pub struct PlaceUse {
    /// Whether it feeds a session.
    pub feeds: bool,
    /// Whether it was lost, or leaves.
    pub ends: bool,
    /// Whether its publication is wanted: it is to be recorded without being asked, or an open session is of it.
    pub is_wanted: bool,
    /// Whether something of its publication came after the setup frame.
    pub has_begun: bool,
    /// For how long it is there, in milliseconds.
    pub age: u64,
    /// When something of its publication came last, in milliseconds.
    pub heard: u64,
}

impl PlaceUse {
    /// What the image counts. Does not allocate.
    pub fn rank(&self) -> Rank
        ensures { result ≡ rank_of self.now }
    {
        if self.feeds {
            Rank::Recorded
        } else {
            self.unfed_rank()
        }
    }

    fn unfed_rank(&self) -> Rank
        ensures { result ≡ unfed_rank self.now }
    {
        if self.ends {
            Rank::Kept
        } else if !self.is_wanted {
            Rank::Other
        } else if self.has_begun {
            Rank::Kept
        } else {
            Rank::Silent
        }
    }

    /// Whether the image yields its place to a wanted publication. Does not allocate.
    pub fn yields(&self) -> bool
        ensures { result ≡ yields self.now }
    {
        yields_by(self.rank(), self)
    }

    /// Whether the image yields before another one, if both do.
    fn is_before(&self, other: &PlaceUse) -> bool
        ensures { result ≡ is_before self.now other.now }
    {
        let (height, others) = (height(self.rank()), height(other.rank()));
        height < others || (height == others && self.heard < other.heard)
    }
}

/// The place that is given to a wanted publication if all are taken: of the images that yield, that of the lowest rank, and of
/// one rank that which was heard longest ago. None if no image yields. Costs a step for each two places. Does not allocate.
pub fn first_yielding(uses: &[Option<PlaceUse>]) -> Option<Place>
    ensures { result ≡ first_yielding uses.now }
{
    uses.iter().position(|place| is_first_of(uses, place))
}

/// Whether the image at a place yields, and none does before it.
fn is_first_of(uses: &[Option<PlaceUse>], place: &Option<PlaceUse>) -> bool
    ensures { result ≡ is_first_of uses.now place.now }
{
    match place {
        Some(place) => place.yields() && !is_any_before(uses, place),
        None => false,
    }
}

/// Whether an image yields before this one.
fn is_any_before(uses: &[Option<PlaceUse>], place: &PlaceUse) -> bool
    ensures { result ≡ is_any_before uses.now place.now }
{
    uses.iter().any(|other| yields_before(place, other))
}

/// Whether the image at a place yields before another one.
fn yields_before(other: &PlaceUse, place: &Option<PlaceUse>) -> bool
    ensures { result ≡ yields_before other.now place.now }
{
    match place {
        Some(place) => place.yields() && place.is_before(other),
        None => false,
    }
}

fn yields_by(rank: Rank, place: &PlaceUse) -> bool
    ensures { result ≡ yields_by rank place.now }
{
    match rank {
        Rank::Other => true,
        Rank::Silent => PATIENCE <= place.age,
        Rank::Kept => false,
        Rank::Recorded => false,
    }
}

fn height(rank: Rank) -> u64
    ensures { result ≡ height rank }
{
    match rank {
        Rank::Other => 0,
        Rank::Silent => 1,
        Rank::Kept => 2,
        Rank::Recorded => 3,
    }
}
