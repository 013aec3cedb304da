//! Blocks that join the end of a recording. docs/CONTROL.md, "Requests".

ghost use Rattle.std.specs.Prelude.{◌≡◌, ◌++◌, ◌+ℤ◌, pos, MatchBool, MatchOption, IfOk, IfErr, OnOk, OnErr};
ghost use Rattle.frame_core.specs.declared.refusal.Refusal.TheVariants.{NoMemory};
ghost use Rattle.frame_core.specs.Block.{covered};
ghost use Rattle.archive_model.specs.State.{recorded_position};
ghost use Rattle.archive_model.specs.Commands.{frames_of};
ghost use Rattle.archive_model.specs.Acceptance.{AreBlocksFrom, Continue};

use crate::recording::Recording;
use frame_core::{Block, Frame, Geometry, Items, Publication, Refusal, block_end};
use std::alloc::Global;

impl Recording {
    /// Where blocks end that begin at the recorded position and follow one another, or none where they do not, or
    /// where there is none. Does not allocate. Costs a step for each of their frames.
    pub fn end_of(&self, blocks: &[Block]) -> Option<i64>
        ensures { MatchOption result
            (Continue self.now blocks.now → ⊥)
            (λ end. Continue self.now blocks.now
            × (end ≡ recorded_position self.now +ℤ pos (covered (frames_of blocks.now)))) }
    {
        if blocks.is_empty() {
            return None;
        }
        let descriptor = self.descriptor();
        let geometry = descriptor.geometry();
        let publication = descriptor.publication();
        let recorded = self.recorded_position();
        blocks_end(&geometry, &publication, &recorded, blocks)
    }
}

/// Where blocks of a publication end that follow one another from a start.
fn blocks_end(
    geometry: &Geometry,
    publication: &Publication,
    start: &i64,
    blocks: &[Block],
) -> Option<i64>
    ensures { MatchOption result
        (AreBlocksFrom geometry.now publication.now start.now blocks.now → ⊥)
        (λ end. AreBlocksFrom geometry.now publication.now start.now blocks.now
        × (end ≡ start.now +ℤ pos (covered (frames_of blocks.now)))) }
{
    let mut at = *start;
    for block in blocks {
        if !begins_at(block, &at) {
            return None;
        }
        let Some(end) = block_end(geometry, publication, block) else {
            return None;
        };
        at = end;
    }
    Some(at)
}

/// Whether a block has this position.
fn begins_at(block: &Block, position: &i64) -> bool
    ensures { MatchBool result
        (block.now.position ≡ position.now)
        (block.now.position ≡ position.now → ⊥) }
{
    block.position == *position
}

/// The frames of blocks join the end of a list, with no copy of a frame. Where memory is refused, those that had
/// joined are taken back. Costs a step for each frame that joins.
pub(crate) fn join_frames(frames: &mut Vec<Frame>, blocks: Items<Block>) -> Result<(), Refusal>
    ensures ok { OnOk result (frames.new.items ≡ frames.old.items ++ frames_of blocks) }
    ensures err { OnErr result (frames.new.items ≡ frames.old.items) }
    ensures memory { IfErr result (λ refusal. refusal ≡ NoMemory) }
{
    let before = frames.len();
    for block in blocks.into_vec() {
        let mut joining = block.frames.into_vec();
        if frames.append(&mut joining).is_err() {
            frames.truncate(before);
            return Err(Refusal::NoMemory);
        }
    }
    Ok(())
}

/// Copies of blocks. Costs the lengths of their payloads.
pub(crate) fn copies_of(alloc: Global, blocks: &[Block]) -> Result<Items<Block>, Refusal>
    ensures ok { IfOk result (λ copies. copies ≡ blocks.now) }
    ensures err { IfErr result (λ refusal. refusal ≡ NoMemory) }
{
    let mut copies = Items::new(alloc);
    for block in blocks {
        copies.push(copy_of(alloc, block)?)?;
    }
    Ok(copies)
}

/// A copy of a block.
fn copy_of(alloc: Global, block: &Block) -> Result<Block, Refusal>
    ensures ok { IfOk result (λ copy. copy ≡ block.now) }
    ensures err { IfErr result (λ refusal. refusal ≡ NoMemory) }
{
    let mut frames = Items::new(alloc);
    for frame in block.frames.as_slice() {
        frames.push(frame.as_ref().to_frame(alloc)?)?;
    }
    Ok(Block {
        position: block.position,
        frames,
    })
}
