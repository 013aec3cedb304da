//! Laws of the definitions, each the contract of a function that does nothing.

ghost use Rattle.std.specs.Prelude.{◌≤◌, ℕ, List, length, IsTrue, ◌↔◌};
ghost use Rattle.frame_core.specs.declared.frame.Frame.{Frame};
ghost use Rattle.frame_core.specs.declared.geometry.Geometry.{Geometry};
ghost use Rattle.merge_core.specs.Merge.{opened_merge};
ghost use Rattle.merge_core.specs.Runs.{MergeStep, after_steps, output, FramesFollow, AreOf, from, IsBeginning, IsJoined};

/// Where all frames that are offered are of one stream, what comes out is a beginning of that stream from the position
/// at which the merge began, whatever was offered and taken, and in whatever order: no gap, no repeat.
#[tactic(auto, using(crate::proofs::StreamLemmas::gives_a_beginning))]
pub fn one_stream_gives_its_beginning()
    ensures { (g : Geometry) (opening start : ℕ) (stream : List Frame) (steps : List MergeStep)
        → FramesFollow g start stream → AreOf stream steps
        → IsBeginning (output steps (opened_merge g opening)) (from opening start stream) }
{}

/// A merge says that the live stream is joined exactly where it is by the offers and takes so far: at some moment of
/// them the cursor was the end of a live frame that had been offered before, and was held then, or was ignored when its
/// end was the cursor or a held frame had its position and end.
#[tactic(auto, using(crate::proofs::JoinLemmas::merged_is_joined))]
pub fn merged_is_where_the_live_stream_is_joined()
    ensures { (g : Geometry) (position : ℕ) (steps : List MergeStep)
        → IsTrue (after_steps steps (opened_merge g position)).is_merged ↔ IsJoined steps (opened_merge g position) }
{}

/// At most 4,096 frames are held, whatever was offered and taken.
#[tactic(auto, using(crate::proofs::BoundLemmas::few_frames))]
pub fn at_most_4096_are_held()
    ensures { (g : Geometry) (position : ℕ) (steps : List MergeStep)
        → length (after_steps steps (opened_merge g position)).held ≤ 4096 }
{}
