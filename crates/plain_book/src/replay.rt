//! Frames that a replay gives: Aeron Archive documentation, "Replay"; docs/CONTROL.md, "Replays".

ghost use Rattle.std.specs.Prelude.{◌≡◌, ◌<◌, ◌^◌, ℤ, pos, IfOk, IfErr, IsTrue, filter, take, int_le, int_lt};
ghost use Rattle.std.specs.Ordering.{int_eq};
ghost use Rattle.std.specs.List.{list_any};
ghost use Rattle.frame_core.specs.declared.refusal.Refusal.TheVariants.{NoMemory};
ghost use Rattle.archive_model.specs.Replay.{placed, frames_in, is_between, replayed, polled, EndBy, is_boundary};
ghost use Rattle.archive_model.specs.State.{recorded_position};

use crate::recording::Recording;
use archive_model::PolledFrame;
use frame_core::{Frame, Items, Refusal};
use std::alloc::Global;

impl Recording {
    /// Whether a replay may begin at a position: at a frame's beginning, the start or the recorded position. Costs
    /// a lookup of each frame before it.
    pub fn is_boundary(&self, position: &i64) -> bool
        ensures { result ≡ is_boundary position.now self.now }
    {
        if *position == self.descriptor().start_position {
            return true;
        }
        if *position == self.recorded_position() {
            return true;
        }
        begins_frame(self.frames(), self.start(), position)
    }

    /// Copies of the frames that begin at or after a position and before a bound. Costs a lookup of each frame before
    /// the bound, and the copies.
    pub fn replay(&self, alloc: Global, from: &i64, bound: &i64) -> Result<Items<Frame>, Refusal>
        ensures ok { IfOk result (λ frames. frames ≡ replayed from.now bound.now self.now) }
        ensures err { IfErr result (λ refusal. refusal ≡ NoMemory) }
    {
        let frames = chosen(alloc, self.frames(), self.start(), from, bound)?;
        Ok(Items::from_vec(frames))
    }

    /// Copies of the first frames that begin at or after a position and before a bound, so many as there are or as
    /// are asked for, each with where it begins. None of them ends past the recorded position. Costs a lookup of each
    /// frame before the last of them, and the copies.
    pub fn poll(
        &self,
        alloc: Global,
        next: &i64,
        bound: &i64,
        count: usize,
    ) -> Result<Items<PolledFrame>, Refusal>
        ensures ok { IfOk result (λ frames. frames ≡ polled next.now bound.now count self.now) }
        ensures ends { IfOk result (EndBy (recorded_position self.now)) }
        ensures err { IfErr result (λ refusal. refusal ≡ NoMemory) }
    {
        let frames = first_chosen(alloc, self.frames(), self.start(), next, bound, count)?;
        Ok(Items::from_vec(frames))
    }
}

/// Whether one of the frames begins at a position, the first one beginning at the start.
fn begins_frame(frames: &[Frame], start: u64, position: &i64) -> bool
    ensures { result
        ≡ list_any (λ f. int_eq position.now f.position) (placed (pos start) frames.now) }
{
    let mut at = start;
    for frame in frames {
        if !is_below(at, position) {
            return is_at(at, position);
        }
        at += frame.aligned_length();
    }
    false
}

/// Whether a position is this one.
fn is_at(at: u64, position: &i64) -> bool
    ensures { result ≡ int_eq position.now (pos at) }
{
    match u64::try_from(*position) {
        Ok(position) => position == at,
        Err(_) => false,
    }
}

/// Whether a position lies before a bound.
pub(crate) fn is_below(at: u64, bound: &i64) -> bool
    ensures below { result ≡ int_lt (pos at) bound.now }
    ensures small { IsTrue result → at < 2 ^ 63 }
{
    match u64::try_from(*bound) {
        Ok(bound) => at < bound,
        Err(_) => false,
    }
}

/// Whether a position lies at or behind another one.
fn is_reached(from: &i64, at: u64) -> bool
    ensures { result ≡ int_le from.now (pos at) }
{
    match u64::try_from(*from) {
        Ok(from) => from <= at,
        Err(_) => true,
    }
}

/// Copies of the frames that begin between two positions, the first one of all beginning at the start.
fn chosen(
    alloc: Global,
    frames: &[Frame],
    start: u64,
    from: &i64,
    bound: &i64,
) -> Result<Vec<Frame>, Refusal>
    ensures ok { IfOk result (λ chosen.
        chosen.items ≡ frames_in (filter (is_between from.now bound.now) (placed (pos start) frames.now))) }
    ensures err { IfErr result (λ refusal. refusal ≡ NoMemory) }
{
    let mut found = Vec::new(alloc);
    let mut at = start;
    for frame in frames {
        if !is_below(at, bound) {
            return Ok(found);
        }
        let begins = at;
        at += frame.aligned_length();
        if !is_reached(from, begins) {
            continue;
        }
        found.push(frame.as_ref().to_frame(alloc)?)?;
    }
    Ok(found)
}

/// The first of these frames, up to a count, each with where it begins.
fn first_chosen(
    alloc: Global,
    frames: &[Frame],
    start: u64,
    from: &i64,
    bound: &i64,
    count: usize,
) -> Result<Vec<PolledFrame>, Refusal>
    ensures ok { IfOk result (λ chosen.
        chosen.items ≡ take count (filter (is_between from.now bound.now) (placed (pos start) frames.now))) }
    ensures err { IfErr result (λ refusal. refusal ≡ NoMemory) }
{
    let mut found = Vec::new(alloc);
    let mut at = start;
    for frame in frames {
        if found.len() == count {
            return Ok(found);
        }
        if !is_below(at, bound) {
            return Ok(found);
        }
        let begins = at;
        at += frame.aligned_length();
        if !is_reached(from, begins) {
            continue;
        }
        found.push(placed_at(alloc, frame, begins)?)?;
    }
    Ok(found)
}

/// A copy of a frame, and where it begins.
fn placed_at(alloc: Global, frame: &Frame, begins: u64) -> Result<PolledFrame, Refusal>
    requires { begins < 2 ^ 63 }
    ensures ok { IfOk result
        (λ placed. placed ≡ record { position = pos begins; frame = frame.now }) }
    ensures err { IfErr result (λ refusal. refusal ≡ NoMemory) }
{
    Ok(PolledFrame {
        position: begins as i64,
        frame: frame.as_ref().to_frame(alloc)?,
    })
}
