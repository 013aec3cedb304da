//! Laws of the definitions, each the contract of a function that does nothing.

ghost use Rattle.std.specs.Prelude.{◌≡◌, ◌≤◌, ◌≤ℤ◌, ◌+◌, ◌+ℤ◌, ℕ, ℤ, pos, List, Option, Some, true};
ghost use Rattle.std.specs.List.{AllByRecursion};
ghost use Rattle.frame_core.specs.FrameEncoding.{IsAligned, IsEncodable, aligned_length};
ghost use Rattle.frame_core.specs.Position.{HasPosition, frame_position};
ghost use Rattle.frame_core.specs.declared.status.StatusMessage.{StatusMessage};
ghost use Rattle.flow_control.specs.declared.feedback.Feedback.{Feedback};
ghost use Rattle.frame_core.specs.declared.block.Block.{Block};
ghost use Rattle.frame_core.specs.declared.frame.Frame.{Frame};
ghost use Rattle.frame_core.specs.declared.geometry.Geometry.{Geometry};
ghost use Rattle.frame_core.specs.declared.setup.Setup.{Setup};
ghost use Rattle.image_core.specs.declared.inserted.Inserted.{Inserted};
ghost use Rattle.image_core.specs.Insert.{TakesIn};
ghost use Rattle.image_core.specs.Received.{IsBegun, Received};
ghost use Rattle.image_core.specs.Stock.{Offers, are_near};
ghost use Rattle.image_core.specs.Take.{GivesBlock};
ghost use Rattle.flow_control.specs.Admission.{AdmitsPast, AdmitsUpTo, AreBoundCalls, IsBoundCall, StatusCall};
ghost use Rattle.flow_control.specs.Feedback.{GivesStatus, has_term, told_position};
ghost use Rattle.flow_control.specs.Progress.{AreInWindow, HasNotFallen, HasRoomAt, HasRoomWithin, IsAlignedImage, MovesOn};
ghost use Rattle.flow_control.specs.Windows.{five_sixteenths, receiver_window, settled_bound};

/// An image moves on as frames are taken in or offered and as blocks are given: its consumed position and its rebuild
/// position never fall. Nothing done is no step back, and two such steps are one.
pub fn consumed_and_rebuild_positions_never_fall()
    ensures same { (r : Received) → MovesOn r r }
    ensures further { (r s t : Received) → MovesOn r s → MovesOn s t → MovesOn r t }
    ensures taken_in { (old new : Received) (fs : List Frame) (i : Inserted)
        → TakesIn old fs i new → MovesOn old new }
    ensures offered { (old new : Received) (fs : List Frame) (found : Option Inserted)
        → Offers old fs found new → MovesOn old new }
    ensures given { (old new : Received) (b : Block) → GivesBlock old b new → MovesOn old new }
{}

/// What a window admits has room. A window admits a message that ends at most a receiver window past what an image has
/// consumed, and a pad whose header does. What is kept of it ends within the stock of the image, then and however it moves
/// on; so a datagram of such frames is never lost. The frame ends within the window of the image, if it ends at most half a
/// term past what was consumed: each message does.
pub fn what_a_window_admits_has_room()
    ensures room { (r : Received) (most bytes : ℤ)
        → bytes ≤ℤ receiver_window r.geometry most → HasRoomWithin r bytes }
    ensures whole { (r later : Received) (most bytes : ℤ) (f : Frame) (p : ℕ)
        → bytes ≤ℤ receiver_window r.geometry most → MovesOn r later → IsEncodable f
        → frame_position r.geometry f ≡ Some p
        → pos (p + aligned_length f) ≤ℤ (pos r.from +ℤ bytes) → HasRoomAt later p f }
    ensures kept { (r later : Received) (most bytes : ℤ) (fs : List Frame)
        → bytes ≤ℤ receiver_window r.geometry most → AreInWindow r bytes fs → MovesOn r later
        → are_near later fs ≡ true }
{}

/// With a bound, nothing is admitted past the bound and the window. If the bound is that of what is settled, and the window
/// at most five sixteenths of a term, nothing is admitted more than five sixteenths of a term past what is settled: not by
/// a call, and not by any of the calls before it, since what is settled does not fall.
pub fn nothing_is_admitted_past_what_is_settled()
    ensures bound { (time : ℕ) (most receiver_id : ℤ) (bound : ℕ) (r : Received)
        (old new : Feedback) (status : StatusMessage)
        → GivesStatus time most (Some bound) receiver_id r old (Some status) new
        → AdmitsUpTo r.geometry (pos bound +ℤ status.receiver_window) status }
    ensures call { (g : Geometry) (c : StatusCall) → IsBoundCall g c → AdmitsPast g c.settled c }
    ensures calls { (g : Geometry) (from : ℕ) (cs : List StatusCall) (settled : ℕ)
        → AreBoundCalls g from cs settled → AllByRecursion (AdmitsPast g settled) cs }
{}

/// The position that status messages name does not fall as an image moves on, if its bound does not fall. It is never past
/// the consumed position, and a multiple of 32. With the bound of what is settled it is not before that.
pub fn named_positions_never_fall()
    ensures rising { (old new : Received) (bound later : Option ℕ)
        → MovesOn old new → HasNotFallen bound later
        → told_position old bound ≤ told_position new later }
    ensures consumed { (r : Received) (bound : Option ℕ) → told_position r bound ≤ r.from }
    ensures aligned { (r : Received) (bound : Option ℕ)
        → IsAlignedImage r → IsAligned (pos (told_position r bound)) }
    ensures settled { (r : Received) (most : ℤ) (settled : ℕ)
        → pos 0 ≤ℤ most → most ≤ℤ pos (five_sixteenths r.geometry)
        → IsAligned (pos settled) → settled ≤ r.from
        → settled ≤ told_position r (Some (settled_bound r.geometry most settled)) }
    ensures further { (g : Geometry) (most : ℤ) (settled later : ℕ)
        → settled ≤ later → settled_bound g most settled ≤ settled_bound g most later }
{}

/// The consumed position and the term length of an image are multiples of 32 bytes as it begins, and stay so.
pub fn consumed_positions_are_multiples_of_32()
    ensures begun { (s : Setup) (r : Received) → IsBegun s r → IsAlignedImage r }
    ensures taken_in { (old new : Received) (fs : List Frame) (i : Inserted)
        → TakesIn old fs i new → IsAlignedImage old → IsAlignedImage new }
    ensures offered { (old new : Received) (fs : List Frame) (found : Option Inserted)
        → Offers old fs found new → IsAlignedImage old → IsAlignedImage new }
    ensures given { (old new : Received) (b : Block)
        → GivesBlock old b new → IsAlignedImage old → IsAlignedImage new }
{}

/// A position that has a term id lies before the end of the stream's last term.
pub fn a_position_with_a_term_id_lies_before_the_end()
    ensures { (g : Geometry) (term_id offset : ℤ) (p : ℕ)
        → HasPosition g term_id offset (pos p) → has_term g p ≡ true }
{}
