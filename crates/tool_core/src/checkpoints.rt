//! Checkpoints that are made while an archive is used. docs/STORAGE.md, "Checkpoints".

ghost use Rattle.std.specs.Prelude.{◌≡◌, true};
ghost use Rattle.engine_core.specs.Seen.{seen};
ghost use Rattle.tool_core.specs.Answering.{checkpointing_seen, ways_seen};
ghost use Rattle.tool_core.specs.Archives.{archive_ways};
ghost use Rattle.tool_core.specs.Checkpoints.{MakesDue, checkpoint_due, checkpointed_seen, is_checkpoint_due, script_checkpoints};

use crate::answerer::Answerer;
use crate::archive::ScriptArchive;
use crate::history::HistoryUse;
use archive_model::Reply;
use control_core::{Desk, Event};
use control_lines::print_refusal;
use disk_core::Disk;
use engine_core::Engine;
use frame_core::{Geometry, Refusal};
use std::alloc::Global;
use std::fmt;

/// Whether a checkpoint is due where so many entries of a history count, so many recordings are active, and so many entries may
/// count: more entries count than a checkpoint leaves, and at least half of what may count beyond those.
pub fn is_checkpoint_due(counted: u64, active: u64, limit: u32) -> bool
    ensures { result ≡ is_checkpoint_due counted active limit }
{
    active < counted
        && u64::from(limit).saturating_sub(active) <= (counted - active).saturating_mul(2)
}

/// What became of a checkpoint that was due.
#[derive(Clone, Copy, Debug, PartialEq, Eq)]
pub enum CheckpointOutcome {
    /// It was made.
    Made {
        /// How many entries of the history counted before it.
        entries: u64,
        /// How many count after it.
        left: u64,
    },
    /// It was refused, and the history is as long as it was.
    Refused(Refusal),
}

impl CheckpointOutcome {
    /// That of a checkpoint which was answered so, before which so many entries counted, and after it so many.
    pub fn new(entries: u64, outcome: &Result<Reply, Refusal>, left: u64) -> CheckpointOutcome {
        match outcome {
            Ok(_) => CheckpointOutcome::Made { entries, left },
            Err(refusal) => CheckpointOutcome::Refused(*refusal),
        }
    }
}

impl fmt::Display for CheckpointOutcome {
    fn fmt<W: fmt::Write>(&self, f: &mut fmt::Formatter<W>) -> fmt::Result {
        match self {
            CheckpointOutcome::Made { entries, left } => write!(
                f,
                "the history was made short: {entries} entries became {left}"
            ),
            CheckpointOutcome::Refused(refusal) => {
                f.write_str("the history was not made short: ")?;
                let line = print_refusal(refusal);
                match std::str::from_utf8(line.as_bytes()) {
                    Ok(text) => f.write_str(text.trim_end()),
                    Err(_) => Ok(()),
                }
            }
        }
    }
}

/// The archive of a script that makes checkpoints: before each line at which one is due, and where the line `checkpoint` asks
/// for one.
#[derive(Drop)]
pub struct CheckpointedArchive<D: Disk> {
    /// The archive, or the disk of one that could not be opened.
    pub archive: ScriptArchive<D>,
}

impl<D: Disk> Answerer for CheckpointedArchive<D> {
    ghost ways = { ways_seen (checkpointed_seen D.life) archive_ways };

    ghost checkpoints = { checkpointing_seen (checkpointed_seen D.life) (script_checkpoints true) };

    fn terms(&mut self, session: &i64) -> Result<Geometry, Refusal> {
        self.archive.terms(session)
    }

    fn call(&mut self, alloc: Global, event: &Event) -> Result<Reply, Refusal> {
        self.archive.call(alloc, event)
    }

    fn reopen(self, alloc: Global) -> (CheckpointedArchive<D>, Result<Reply, Refusal>) {
        let (archive, outcome) = self.archive.reopen(alloc);
        (CheckpointedArchive { archive }, outcome)
    }

    fn compact(self, alloc: Global) -> (CheckpointedArchive<D>, Result<Reply, Refusal>) {
        let (archive, outcome) = self.archive.compact(alloc);
        (CheckpointedArchive { archive }, outcome)
    }

    fn offers_checkpoints(&self) -> bool {
        true
    }

    /// Makes a checkpoint of an open archive, if one is due.
    fn prepare(&mut self, alloc: Global) -> Option<CheckpointOutcome> {
        match &mut self.archive {
            ScriptArchive::Open(engine) => make_due(alloc, engine),
            ScriptArchive::Closed(_) => None,
        }
    }

    fn history(&self) -> Option<HistoryUse> {
        self.archive.history()
    }
}

/// Whether a checkpoint of an archive with this desk is due.
fn is_due(desk: &Desk) -> bool
    ensures { result ≡ checkpoint_due desk.now.state }
{
    is_checkpoint_due(desk.counted(), desk.active_count() as u64, desk.limit())
}

/// Makes a checkpoint, if one is due. What became of it.
fn make_due<D: Disk>(alloc: Global, engine: &mut Engine<D>) -> Option<CheckpointOutcome>
    ensures { MakesDue (seen D.life engine.old) (seen D.life engine.new) }
{
    if !is_due(engine.desk()) {
        return None;
    }
    let entries = engine.desk().counted();
    let outcome = engine.step(alloc, &Event::Checkpoint);
    let left = engine.desk().counted();
    Some(CheckpointOutcome::new(entries, &outcome, left))
}
