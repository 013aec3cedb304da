//! Where a replay ends, and when it is done: Aeron Archive documentation, "Replay"; docs/CONTROL.md, "Replays".

ghost use Rattle.std.specs.Prelude.{◌≡◌, ◌≤ℤ◌, negsuc};
ghost use Rattle.frame_core.specs.ReplayEnd.{bound_of, is_done};

/// Where a replay ends that begins at a position, with a length in bytes of the stream: -1, or one that reaches past the
/// last position, means that it has no end. Does not allocate.
pub fn replay_bound(position: &i64, length: &i64) -> i64
    ensures { negsuc 0 ≤ℤ length.now → result ≡ bound_of position.now length.now }
{
    if *length == -1 {
        return i64::MAX;
    }
    position.saturating_add(*length)
}

/// Whether a replay whose next frame begins at a position gives none any more: it is at its bound, or at the recorded
/// position of a recording that isn't active. Does not allocate.
pub fn is_replay_done(bound: &i64, next: &i64, recorded: &i64, active: bool) -> bool
    ensures { result ≡ is_done bound.now next.now recorded.now active }
{
    *bound <= *next || (!active && *next == *recorded)
}
