//! What a recorder session has written and settled. docs/CONTROL.md, "Recorder sessions".

ghost use Rattle.std.specs.Prelude.{◌≡◌, ◌<◌, ◌≤◌, unsigned_abs};
ghost use Rattle.archive_model.specs.Register.{base_of};
ghost use Rattle.record_core.specs.Writing.{IsPartOf, MayWrite, must_settle, needs_settle};

use archive_model::Descriptor;
use frame_core::{Block, Refusal, block_end, segment_base};

/// A recorder session's part of a recording. Positions are in bytes of the stream.
#[derive(Clone, Copy, Debug, PartialEq, Eq)]
pub struct Recording {
    /// The session's number.
    pub session: i64,
    /// Where the last block ends that was written, or the recorded position.
    pub written: i64,
    /// The recorded position: where the last block ends that was settled.
    pub committed: i64,
}

impl Recording {
    /// Whether a block may be written: `BadBlock` where it is no block of the descriptor's publication that begins where
    /// the last written one ends; `NeedSettle` where blocks are written and not settled, and it begins in another segment
    /// than the first of them. Does not allocate. Costs a step for each of the block's frames. docs/PROTOCOL.md, "Blocks".
    pub fn next_write(&self, descriptor: &Descriptor, block: &Block) -> Result<(), Refusal>
        requires { IsPartOf descriptor.now self.now }
        ensures { MayWrite self.now descriptor.now block.now result }
    {
        if block.position != self.written {
            return Err(Refusal::BadBlock);
        }
        if block_end(&descriptor.geometry(), &descriptor.publication(), block).is_none() {
            return Err(Refusal::BadBlock);
        }
        if self.needs_settle(descriptor) {
            return Err(Refusal::NeedSettle);
        }
        Ok(())
    }

    /// Whether something is written that is not settled. Does not allocate.
    pub fn must_settle(&self) -> bool
        ensures { result ≡ must_settle self.now }
    {
        self.written != self.committed
    }

    /// Whether what is written has to be settled before the next block is written: that would begin in another segment
    /// than the first unsettled one. So unsettled blocks lie in one segment. Does not allocate.
    pub fn needs_settle(&self, descriptor: &Descriptor) -> bool
        requires { IsPartOf descriptor.now self.now }
        ensures { result ≡ needs_settle descriptor.now self.now }
    {
        base_of(descriptor, self.committed) != base_of(descriptor, self.written)
    }
}

/// Where the segment of a position begins, in bytes of the stream.
fn base_of(descriptor: &Descriptor, position: i64) -> u64
    requires term { 0 < unsigned_abs descriptor.now.term_length }
    requires segment { 0 < unsigned_abs descriptor.now.segment_length }
    requires from_start { unsigned_abs descriptor.now.start_position ≤ unsigned_abs position }
    ensures { result ≡ base_of descriptor.now (unsigned_abs position) }
{
    segment_base(
        descriptor.start_position.unsigned_abs(),
        descriptor.term_length.unsigned_abs(),
        descriptor.segment_length.unsigned_abs(),
        position.unsigned_abs(),
    )
}
