//! Laws of the definitions, each the contract of a function that does nothing.

ghost use Rattle.std.specs.Prelude.{◌≡◌, ◌++◌, ℕ, List};
ghost use Rattle.frame_core.specs.Block.{AreEncodable};
ghost use Rattle.frame_core.specs.declared.block.Publication.{Publication};
ghost use Rattle.frame_core.specs.declared.frame.Frame.{Frame};
ghost use Rattle.frame_core.specs.declared.geometry.Geometry.{Geometry};
ghost use Rattle.image_core.specs.Received.{IsUnseen, StandsFor};
ghost use Rattle.image_core.specs.Laws.{HasHighWaterMark, HasLongestChain, LieApart};
ghost use Rattle.image_core.specs.Received.{Received, begun, received_all};

/// What was taken of an image makes no difference. An image holds what it received, as long as nothing is taken. Where
/// it holds all that was received apart from what was taken, it has the rebuild position and the gap of all, the same
/// becomes of each further frame, and it holds all that is received then, apart from what was taken.
pub fn what_was_taken_makes_no_difference()
    ensures begins { (r : Received) → StandsFor r r }
    ensures unseen { (all r : Received) → StandsFor all r → IsUnseen all r }
{}

/// The frames of one datagram and then those of another are received as all of them in order.
pub fn datagrams_come_one_after_another()
    ensures { (r : Received) (fs gs : List Frame)
        → received_all r (fs ++ gs) ≡ received_all (received_all r fs) gs }
{}

/// After any frames the received ones lie one behind another, none before the join position; each is of the publication,
/// no longer than the MTU and inside its term, and lies at its position.
pub fn received_frames_lie_apart()
    ensures { (g : Geometry) (publication : Publication) (join : ℕ) (fs : List Frame)
        → AreEncodable fs → LieApart join (received_all (begun g publication join) fs) }
{}

/// After any frames the rebuild position is the end of the longest chain of received frames from the join position.
pub fn the_longest_chain_ends_at_the_rebuild_position()
    ensures { (g : Geometry) (publication : Publication) (join : ℕ) (fs : List Frame)
        → AreEncodable fs → HasLongestChain (received_all (begun g publication join) fs) }
{}

/// After any frames the high-water mark is the greatest of the join position, the ends of the received frames, and the
/// positions of the publication's heartbeats.
pub fn the_high_water_mark_is_the_greatest()
    ensures { (g : Geometry) (publication : Publication) (join : ℕ) (fs : List Frame)
        → AreEncodable fs → HasHighWaterMark join fs (received_all (begun g publication join) fs) }
{}
