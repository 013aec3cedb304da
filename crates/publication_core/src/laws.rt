//! Laws of the definitions, each the contract of a function that does nothing.

ghost use Rattle.std.specs.Prelude.{◌≡◌, ℕ, List, [], Option, map, true, pos};
ghost use Rattle.std.specs.List.{AllByRecursion};
ghost use Rattle.frame_core.specs.declared.block.Publication.{Publication};
ghost use Rattle.frame_core.specs.declared.frame.Frame.{Frame};
ghost use Rattle.frame_core.specs.declared.geometry.Geometry.{Geometry};
ghost use Rattle.frame_core.specs.declared.setup.Setup.{Setup};
ghost use Rattle.frame_core.specs.Datagram.{IsDatagram};
ghost use Rattle.frame_core.specs.FrameEncoding.{IsAligned};
ghost use Rattle.frame_core.specs.Limits.{is_mtu, is_term_length};
ghost use Rattle.image_core.specs.Received.{IsBegun, IsChain, StandsFor, begun, received_all};
ghost use Rattle.publication_core.specs.Bounded.{BoundedTurn, HasRoomForAll, MeetBounded, sender_calls, image_after, offered_by};
ghost use Rattle.publication_core.specs.declared.datagram.Datagram.{Datagram};
ghost use Rattle.publication_core.specs.Keeping.{EndsInItsTerm, EndsPast};
ghost use Rattle.publication_core.specs.Runs.{AreMadeOf, AreOfStream, AreShort, Call, IsMadeOf, IsWithinReach, after_calls, after_sending};
ghost use Rattle.publication_core.specs.Meeting.{Meet, Turn, came};
ghost use Rattle.publication_core.specs.Order.{SendsInOrder, firsts, laid_by};
ghost use Rattle.publication_core.specs.Sending.{Sending, Sends, new_sending};
ghost use Rattle.publication_core.specs.Signs.{IsSetupOf};
ghost use Rattle.publication_core.specs.Copies.{AreFirst, AreInReach, AreRecorded, AreWithinLimits, BeginsWith, HaveCome, HoldsAlone, IsRecordedStream};

/// An image that gets frames of a stream and heartbeats holds frames of the stream alone, wherever it joined: any of
/// them, in any order, any number of times.
pub fn an_image_holds_recorded_frames_alone()
    ensures { (g : Geometry) (publication : Publication) (from to join : ℕ)
        (stream : List (ℕ × Frame)) (fs : List Frame)
        → IsRecordedStream g publication from stream to → AreRecorded stream fs
        → HoldsAlone stream (received_all (begun g publication join) fs) }
{}

/// An image that joined where a stream begins, and got each frame up to a position, has these frames first, and has
/// rebuilt the stream up to there. Other frames of the stream and heartbeats may come between, in any order, any
/// number of times. No frame ends more than half a term past what the image has rebuilt as it comes.
pub fn an_image_that_got_all_frames_is_a_copy()
    ensures { (g : Geometry) (publication : Publication) (from to front : ℕ)
        (stream firsts : List (ℕ × Frame)) (fs : List Frame)
        → IsRecordedStream g publication from stream to → AreFirst from stream firsts front
        → AreRecorded stream fs → AreInReach stream (begun g publication from) fs → HaveCome fs firsts
        → BeginsWith firsts front (received_all (begun g publication from) fs) }
{}

/// As [`an_image_that_got_all_frames_is_a_copy`], in a sender's words: each frame that comes has with it how far the
/// receiver had consumed the stream, as its sender had heard. If that is never more than the image has rebuilt, and
/// each frame ends at most half a term past it, then nothing is lost for want of room.
pub fn a_sender_within_its_limit_makes_a_copy()
    ensures { (g : Geometry) (publication : Publication) (from to front : ℕ)
        (stream firsts sent : List (ℕ × Frame))
        → IsRecordedStream g publication from stream to → AreFirst from stream firsts front
        → AreRecorded stream (map (λ it. it.1) sent)
        → AreWithinLimits stream (begun g publication from) sent
        → HaveCome (map (λ it. it.1) sent) firsts
        → BeginsWith firsts front (received_all (begun g publication from) (map (λ it. it.1) sent)) }
{}

/// After any calls of a sender its limit is at most half a term and 1,048,576 bytes past what was consumed. What was
/// sent and is not consumed ends at most half a term past that, and so does the sender position. `next` says that a
/// send is one of these calls.
pub fn nothing_is_sent_further_than_half_a_term_past_what_was_consumed()
    ensures within { (g : Geometry) (publication : Publication) (from : ℕ) (calls : List Call)
        → IsWithinReach (after_calls calls (new_sending g publication from)) }
    ensures next { (now : ℕ) (old new : Sending) (found : Option ℕ)
        → Sends now old found new → new ≡ after_sending now old }
{}

/// If the frames that are laid into a sender are those of a stream, then after any calls each datagram that was sent
/// or waits is made of frames of the stream that follow one another. It is a datagram, and whoever reads it gets
/// frames of the stream alone.
pub fn a_publication_sends_recorded_frames_alone()
    ensures sent { (g : Geometry) (publication : Publication) (from to : ℕ)
        (stream : List (ℕ × Frame)) (calls : List Call)
        → IsRecordedStream g publication from stream to → AreOfStream stream calls
        → AreMadeOf stream (after_calls calls (new_sending g publication from)).sent }
    ensures waiting { (g : Geometry) (publication : Publication) (from to : ℕ)
        (stream : List (ℕ × Frame)) (calls : List Call)
        → IsRecordedStream g publication from stream to → AreOfStream stream calls
        → AreMadeOf stream (after_calls calls (new_sending g publication from)).waiting }
    ensures alone { (g : Geometry) (publication : Publication) (from to : ℕ)
        (stream : List (ℕ × Frame)) (d : Datagram) (fs : List Frame)
        → IsRecordedStream g publication from stream to → IsMadeOf stream d
        → IsDatagram d.bytes fs → AreRecorded stream fs }
{}

/// If the frames that are laid into a sender are those of a stream, then after any calls no datagram that was sent or
/// waits is longer than the MTU of the setup frame.
pub fn no_datagram_is_longer_than_the_mtu()
    ensures sent { (g : Geometry) (publication : Publication) (from to : ℕ)
        (stream : List (ℕ × Frame)) (calls : List Call)
        → IsRecordedStream g publication from stream to → is_mtu g.mtu ≡ true → AreOfStream stream calls
        → AreShort g (after_calls calls (new_sending g publication from)).sent }
    ensures waiting { (g : Geometry) (publication : Publication) (from to : ℕ)
        (stream : List (ℕ × Frame)) (calls : List Call)
        → IsRecordedStream g publication from stream to → is_mtu g.mtu ≡ true → AreOfStream stream calls
        → AreShort g (after_calls calls (new_sending g publication from)).waiting }
{}

/// A sender into which the frames of a stream are laid, and an image that joined where it begins. Between them
/// datagrams are lost, repeated, reordered and delayed, and status messages name no more than the image has rebuilt.
/// Whenever one looks, the image holds frames of the stream alone. Once each frame up to a position has come, the
/// image has these frames first, and has rebuilt the stream up to there.
pub fn a_sender_and_an_image_make_a_copy()
    ensures alone { (g : Geometry) (publication : Publication) (from to : ℕ)
        (stream : List (ℕ × Frame)) (ts : List Turn)
        → IsRecordedStream g publication from stream to
        → Meet stream ts [] (new_sending g publication from) (begun g publication from)
        → HoldsAlone stream (received_all (begun g publication from) (came ts)) }
    ensures copy { (g : Geometry) (publication : Publication) (from to front : ℕ)
        (stream firsts : List (ℕ × Frame)) (ts : List Turn)
        → IsRecordedStream g publication from stream to
        → Meet stream ts [] (new_sending g publication from) (begun g publication from)
        → AreFirst from stream firsts front → HaveCome (came ts) firsts
        → BeginsWith firsts front (received_all (begun g publication from) (came ts)) }
{}

/// If the frames that are laid into a sender follow one another, they are sent in this order, each for the first time
/// once, in datagrams of which each begins where the one before it ends, from where the publication begins up to the
/// sender position. The others wait, in order.
pub fn a_publication_sends_its_frames_in_order()
    ensures { (g : Geometry) (publication : Publication) (from to : ℕ) (calls : List Call)
        → IsChain from (laid_by calls) to
        → SendsInOrder from (laid_by calls) (firsts calls (new_sending g publication from))
        (after_calls calls (new_sending g publication from)) to }
{}

/// If the frames that are laid into a sender are those of a stream, then after any calls each datagram that was sent
/// or waits ends at the latest where the term ends in which it begins.
pub fn each_datagram_lies_in_one_term()
    ensures sent { (g : Geometry) (publication : Publication) (from to : ℕ)
        (stream : List (ℕ × Frame)) (calls : List Call)
        → IsRecordedStream g publication from stream to → AreOfStream stream calls
        → AllByRecursion (EndsInItsTerm g) (after_calls calls (new_sending g publication from)).sent }
    ensures waiting { (g : Geometry) (publication : Publication) (from to : ℕ)
        (stream : List (ℕ × Frame)) (calls : List Call)
        → IsRecordedStream g publication from stream to → AreOfStream stream calls
        → AllByRecursion (EndsInItsTerm g) (after_calls calls (new_sending g publication from)).waiting }
{}

/// If the frames that are laid into a sender follow one another, then after any calls each datagram that is kept for
/// repeats ends past what was consumed.
pub fn what_was_consumed_is_not_kept()
    ensures { (g : Geometry) (publication : Publication) (from to : ℕ) (calls : List Call)
        → IsChain from (laid_by calls) to
        → let new = after_calls calls (new_sending g publication from) in
        AllByRecursion (EndsPast new.flow.consumed) new.sent }
{}

/// If the frames that are laid into a sender follow one another, then after any calls its setup frame may be used, and
/// begins an image at the sender position. The publication begins at a multiple of 32, with terms and an MTU in their
/// limits.
pub fn a_setup_frame_begins_an_image_at_the_sender_position()
    ensures { (g : Geometry) (publication : Publication) (from to : ℕ) (calls : List Call) (setup : Setup)
        → is_term_length g.term_length ≡ true → is_mtu g.mtu ≡ true → IsAligned (pos from)
        → IsChain from (laid_by calls) to
        → let position = (after_calls calls (new_sending g publication from)).flow.position in
        IsSetupOf g publication position setup → IsBegun setup (begun g publication position) }
{}

/// A sender into which the frames of a stream are laid, one after another, and a bounded image that joined where it
/// begins. Between them datagrams are lost, repeated, reordered and delayed, and blocks are taken of the image as one
/// likes. Status messages name no position past what was taken of it. Then the image has room for whatever comes:
/// nothing is lost for want of stock or window. It gets what an image would of which nothing was taken, and that
/// makes a copy.
pub fn what_a_sender_sends_has_room_in_a_bounded_image()
    ensures room { (g : Geometry) (publication : Publication) (from to last : ℕ)
        (stream : List (ℕ × Frame)) (ts : List BoundedTurn)
        → IsRecordedStream g publication from stream to → is_mtu g.mtu ≡ true
        → IsChain from (laid_by (sender_calls ts)) last
        → MeetBounded stream ts [] (new_sending g publication from) (begun g publication from)
        → HasRoomForAll stream ts (begun g publication from) }
    ensures same { (g : Geometry) (publication : Publication) (from to last : ℕ)
        (stream : List (ℕ × Frame)) (ts : List BoundedTurn)
        → IsRecordedStream g publication from stream to → is_mtu g.mtu ≡ true
        → IsChain from (laid_by (sender_calls ts)) last
        → MeetBounded stream ts [] (new_sending g publication from) (begun g publication from)
        → StandsFor (received_all (begun g publication from) (offered_by ts))
        (image_after ts (begun g publication from)) }
    ensures copy { (g : Geometry) (publication : Publication) (from to last front : ℕ)
        (stream firsts : List (ℕ × Frame)) (ts : List BoundedTurn)
        → IsRecordedStream g publication from stream to → is_mtu g.mtu ≡ true
        → IsChain from (laid_by (sender_calls ts)) last
        → MeetBounded stream ts [] (new_sending g publication from) (begun g publication from)
        → AreFirst from stream firsts front → HaveCome (offered_by ts) firsts
        → BeginsWith firsts front (received_all (begun g publication from) (offered_by ts)) }
{}
