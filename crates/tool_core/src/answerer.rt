//! Who answers the lines of a script: docs/CONTROL.md, "Scripts".

ghost use Rattle.std.specs.Prelude.{◌≡◌};
ghost use Rattle.tool_core.specs.Answering.{Checkpointing, Records, Ways, WritesBytes};

use crate::checkpoints::CheckpointOutcome;
use crate::history::HistoryUse;
use archive_model::Reply;
use control_core::Event;
use frame_core::{Geometry, Refusal, block_of};
use std::alloc::Global;

/// Who answers the lines of a script: one archive, or a part in one that several share.
pub trait Answerer {
    /// By what terms bytes are read, and what each call may end with.
    ghost ways: { Ways Self };

    /// Whether the line `checkpoint` is one here, and what may be done before each line.
    ghost checkpoints: { Checkpointing Self };

    /// The terms by which the bytes that a recorder session writes are read, as `control_core::read_terms`.
    fn terms(&mut self, session: &i64) -> Result<Geometry, Refusal>
        ensures { ways.terms session.now self.old result self.new };

    /// Answers an event.
    fn call(&mut self, alloc: Global, event: &Event) -> Result<Reply, Refusal>
        ensures { ways.call event.now self.old result self.new };

    /// Answers the line `reopen`.
    fn reopen(self, alloc: Global) -> (Self, Result<Reply, Refusal>)
        ensures { ways.reopen self result.1 result.0 };

    /// Answers the line `compact`.
    fn compact(self, alloc: Global) -> (Self, Result<Reply, Refusal>)
        ensures { ways.compact self result.1 result.0 };

    /// Whether the line `checkpoint` asks for a checkpoint. If not, it is no line.
    fn offers_checkpoints(&self) -> bool
        ensures { result ≡ checkpoints.offers self.now };

    /// What is done before a line is answered: a checkpoint, if that is due here. What became of it.
    fn prepare(&mut self, alloc: Global) -> Option<CheckpointOutcome>
        ensures { checkpoints.before self.old self.new };

    /// How much of its history an archive has used, where the observer of a script is to get it. No answer depends
    /// on it.
    fn history(&self) -> Option<HistoryUse> {
        None
    }
}

/// Writes the bytes of a block, read by the terms of the recording that a session writes: by one call at most.
pub(crate) fn write_bytes<A: Answerer>(
    alloc: Global,
    answerer: &mut A,
    session: &i64,
    bytes: &[u8],
) -> Result<Reply, Refusal>
    ensures { WritesBytes A.ways session.now bytes.now answerer.old result answerer.new }
{
    let block = block_of(alloc, &answerer.terms(session)?, bytes)?;
    let event = Event::Write {
        session: *session,
        block,
    };
    answerer.call(alloc, &event)
}

/// Writes the bytes of a block, and settles it: by two calls at most. Where settling is refused it stays written.
pub(crate) fn record_bytes<A: Answerer>(
    alloc: Global,
    answerer: &mut A,
    session: &i64,
    bytes: &[u8],
) -> Result<Reply, Refusal>
    ensures { Records A.ways session.now bytes.now answerer.old result answerer.new }
{
    write_bytes(alloc, answerer, session, bytes)?;
    answerer.call(alloc, &Event::Settle { session: *session })
}
