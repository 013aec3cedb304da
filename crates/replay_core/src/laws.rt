//! Laws of the definitions, each the contract of a function that does nothing.

ghost use Rattle.std.specs.Prelude.{◌≡◌, ℕ, ℤ, pos, List, take};
ghost use Rattle.disk_core.specs.DiskImage.{DiskImage};
ghost use Rattle.frame_core.specs.declared.frame.Frame.{Frame};
ghost use Rattle.frame_core.specs.declared.geometry.Geometry.{Geometry};
ghost use Rattle.frame_core.specs.Block.{AreEncodable};
ghost use Rattle.segment_store.specs.declared.layout.Layout.{Layout};
ghost use Rattle.segment_store.specs.Stored.{HoldsFrames};
ghost use Rattle.replay_core.specs.Pages.{Pages};
ghost use Rattle.replay_core.specs.Poll.{AgreeOn, ArePolled, Belong, BreaksOff, before};

/// On files that hold a recording's frames from a replay's position to the recorded position, a poll gives exactly the
/// first of those that begin before its bound, and they break off nowhere where kept pages agree with them.
pub fn a_poll_gives_the_recorded_frames()
    ensures given { (image : DiskImage) (l : Layout) (g : Geometry) (held frames : List Frame) (from to end most : ℕ) (bound : ℤ) →
        HoldsFrames image l from held to → AreEncodable held → Belong l g (pos to) from held →
        ArePolled image l g (pos to) bound most from frames end → frames ≡ take most (before bound from held) }
    ensures whole { (image : DiskImage) (l : Layout) (g : Geometry) (generation : ℕ) (pages : Pages) (held : List Frame)
        (from to most : ℕ) (bound at : ℤ) →
        HoldsFrames image l from held to → AreEncodable held → Belong l g (pos to) from held →
        ((frames : List Frame) → AgreeOn image l generation pages from frames) →
        BreaksOff image l g generation pages (pos to) bound most from at → ⊥ }
{}
