//! Frames that a truncation or a purge of segments leaves. docs/CONTROL.md, "Requests".

ghost use Rattle.std.specs.Prelude.{◌≡◌, ◌<◌, ◌≤◌, ◌^◌, pos, IsTrue, drop, filter, int_le, length, take};
ghost use Rattle.archive_model.specs.Commands.{ends_by};
ghost use Rattle.plain_book.specs.Kept.{left_by};
ghost use Rattle.archive_model.specs.Replay.{frames_in, placed};

use crate::replay::is_below;
use archive_model::Change;
use frame_core::Frame;

/// The frames that a change leaves, where they are; the first one of all begins at the start. Costs a lookup of each frame
/// up to the cut, and a move of each behind a purge's; does not allocate.
pub(crate) fn cut(frames: &mut Vec<Frame>, start: u64, change: &Change)
    requires { start < 2 ^ 63 }
    ensures { frames.new.items ≡ left_by change.now (pos start) frames.old.items }
{
    match change {
        Change::Truncate { position } => {
            let ended = ended_by(frames.as_slice(), start, position);
            frames.truncate(ended);
        }
        Change::PurgeSegments { position } => {
            let begun = begun_before(frames.as_slice(), start, position);
            frames.drain(..begun);
        }
        Change::Settle { .. } | Change::Stop { .. } | Change::Extend { .. } => {}
    }
}

/// How many frames end at or before a position.
fn ended_by(frames: &[Frame], start: u64, position: &i64) -> usize
    requires { start < 2 ^ 63 }
    ensures { take result frames.now
        ≡ frames_in (filter (ends_by position.now) (placed (pos start) frames.now)) }
{
    let mut at = start;
    for (ended, frame) in frames.iter().enumerate() {
        at += frame.aligned_length();
        if !is_by(at, position) {
            return ended;
        }
    }
    frames.len()
}

/// How many frames begin before a position.
fn begun_before(frames: &[Frame], start: u64, position: &i64) -> usize
    ensures within { result ≤ length frames.now }
    ensures begun { drop result frames.now ≡ frames_in
        (filter (λ f. int_le position.now f.position) (placed (pos start) frames.now)) }
{
    let mut at = start;
    for (begun, frame) in frames.iter().enumerate() {
        if !is_below(at, position) {
            return begun;
        }
        at += frame.aligned_length();
    }
    frames.len()
}

/// Whether a position lies at or before another one.
fn is_by(at: u64, position: &i64) -> bool
    ensures by { result ≡ int_le (pos at) position.now }
    ensures small { IsTrue result → at < 2 ^ 63 }
{
    match u64::try_from(*position) {
        Ok(position) => at <= position,
        Err(_) => false,
    }
}
