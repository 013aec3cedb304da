//! Laws of the definitions, each the contract of a function that does nothing.

ghost use Rattle.std.specs.Prelude.{◌≡◌, ◌≢◌, ℕ, ℤ, List, Some, ◌++◌, slice_get, true};
ghost use Rattle.stream_pairs.specs.declared.pairs.JoinedImage.{JoinedImage};
ghost use Rattle.stream_pairs.specs.declared.points.StreamPoint.{StreamPoint};
ghost use Rattle.stream_pairs.specs.Laws.{Coming, FeedsOne, Happening, IsLost, IsSameImage, LeavesTheRest, MayFeed, NoneWaits, PairStays, ReleasesNoOther, after_comings, after_happenings};
ghost use Rattle.stream_pairs.specs.Pairs.{PairsState, after_joined, after_opened, image_at, may_join, no_pairs, pair_one};

/// An image that is paired was not lost, and is paired with the least session that takes it.
pub fn an_image_is_paired_with_the_least_session_that_takes_it()
    ensures { (i n : ℕ) (s : PairsState) → image_at n s ≢ Some i → image_at n (pair_one i s) ≡ Some i → MayFeed i n s }
{}

/// Whatever comes, an image feeds one session at most.
pub fn an_image_feeds_one_session_at_most()
    ensures { (es : List Coming) → FeedsOne (after_comings no_pairs es) }
{}

/// So it is if places and seats are given back.
pub fn an_image_feeds_one_session_at_most_if_places_are_given_back()
    ensures { (hs : List Happening) → FeedsOne (after_happenings no_pairs hs) }
{}

/// What is given back takes nothing from the rest: from other images, and from sessions that the image does not feed.
pub fn what_is_given_back_takes_nothing_from_the_rest()
    ensures places { (i : ℕ) (s : PairsState) → LeavesTheRest i s }
    ensures seats { (recording : ℤ) (s : PairsState) → ReleasesNoOther recording s }
{}

/// The number of an image is never used again, whatever happens.
pub fn a_number_is_never_used_again()
    ensures { (hs more : List Happening) (i j : ℕ) (image later : JoinedImage) →
        slice_get (after_happenings no_pairs hs).images i ≡ Some image →
        slice_get (after_happenings no_pairs (hs ++ more)).images j ≡ Some later → IsSameImage image later }
{}

/// A pair ends by a refusal of its session alone.
pub fn a_pair_ends_by_a_refusal_alone()
    ensures { (s : PairsState) (e : Coming) (n : ℕ) → PairStays n e s }
{}

/// Whatever comes, an image that was lost feeds no session, then and ever after.
pub fn a_lost_image_is_never_paired_again()
    ensures { (es more : List Coming) (i n : ℕ) → IsLost i (after_comings no_pairs es) →
        image_at n (after_comings no_pairs (es ++ more)) ≢ Some i }
{}

/// Once a session was opened, or an image came, no session takes an image that waits.
pub fn no_image_waits_for_a_session_that_takes_it()
    ensures opened { (n : ℕ) (session recording : ℤ) (point : StreamPoint) (s : PairsState) →
        NoneWaits (after_opened n session recording point s) }
    ensures joined { (join : StreamPoint) (s : PairsState) → may_join join.publication s ≡ true →
        NoneWaits (after_joined join s) }
{}
