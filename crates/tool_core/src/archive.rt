//! The archive that a script works on. docs/CONTROL.md, "Lines".

ghost use Rattle.std.specs.Prelude.{◌≡◌, IfErr, IfOk};
ghost use Rattle.engine_core.specs.Opening.{ReadsAsBefore};
ghost use Rattle.tool_core.specs.Answering.{checkpointing_seen, no_checkpoints, ways_seen};
ghost use Rattle.tool_core.specs.Archives.{BeginsAs, archive_seen, archive_ways, closed_by, history_of, life_of};

use crate::answerer::Answerer;
use crate::checkpoints::CheckpointOutcome;
use crate::compacting::reopened;
use crate::history::HistoryUse;
use crate::observer::Beginning;
use archive_model::Reply;
use control_core::{Event, read_terms};
use disk_core::Disk;
use engine_core::{Engine, OpenRefusal};
use frame_core::{Geometry, Refusal};
use std::alloc::Global;

/// Entries that the history of a new archive may have.
const HISTORY: u32 = 1_048_576;

/// An archive, or the disk of one that could not be opened.
#[derive(Drop)]
pub enum ScriptArchive<D: Disk> {
    /// It is open.
    Open(Engine<D>),
    /// None is open.
    Closed(D),
}

impl<D: Disk> ScriptArchive<D> {
    /// The archive of a disk: a new one where no file is there, whose history may have 1,048,576 entries; else the one that
    /// is opened. Where it is refused none is open. Which of these it was stands beside it. Want of memory hands the disk
    /// back, and has changed nothing that is read. Costs what `Engine::create_or_open` costs.
    pub fn of_disk(alloc: Global, disk: D) -> Result<(ScriptArchive<D>, Beginning), D>
        ensures begun { IfOk result (λ found. BeginsAs (D.life disk) found.1 (archive_seen D.life found.0)) }
        ensures unopened { IfErr result (λ back. ReadsAsBefore (D.life disk) (D.life back)) }
    {
        match Engine::create_or_open(alloc, disk, HISTORY) {
            Ok((engine, None)) => Ok((ScriptArchive::Open(engine), Beginning::Made)),
            Ok((engine, Some(_))) => Ok((ScriptArchive::Open(engine), Beginning::Opened)),
            Err(OpenRefusal { refusal, disk }) => unless_memory(refusal, disk),
        }
    }

    /// The disk, with the files as they are.
    pub fn into_disk(self) -> D
        ensures { D.life result ≡ life_of (archive_seen D.life self) }
    {
        match self {
            ScriptArchive::Open(engine) => engine.into_disk(),
            ScriptArchive::Closed(disk) => disk,
        }
    }
}

/// Each call is answered as `Engine::step` answers it. Where none is open, calls are `Broken`, and so is `compact`.
impl<D: Disk> Answerer for ScriptArchive<D> {
    ghost ways = { ways_seen (archive_seen D.life) archive_ways };

    ghost checkpoints = { checkpointing_seen (archive_seen D.life) no_checkpoints };

    fn terms(&mut self, session: &i64) -> Result<Geometry, Refusal> {
        match &*self {
            ScriptArchive::Open(engine) => read_terms(engine.desk(), session),
            ScriptArchive::Closed(_) => Err(Refusal::Broken),
        }
    }

    fn call(&mut self, alloc: Global, event: &Event) -> Result<Reply, Refusal> {
        match self {
            ScriptArchive::Open(engine) => engine.step(alloc, event),
            ScriptArchive::Closed(_) => Err(Refusal::Broken),
        }
    }

    /// Closes the archive and opens it again: how many recordings that stopped. Where it is refused none is open.
    fn reopen(self, alloc: Global) -> (ScriptArchive<D>, Result<Reply, Refusal>) {
        match Engine::open(alloc, self.into_disk()) {
            Ok((engine, recordings)) => {
                let reply = Reply::Reopened { recordings };
                (ScriptArchive::Open(engine), Ok(reply))
            }
            Err(OpenRefusal { refusal, disk }) => (ScriptArchive::Closed(disk), Err(refusal)),
        }
    }

    /// Closes the archive, opens it, which stops each active recording, closes it, writes its catalogue anew and opens it.
    /// Where one of these is refused none is open, and where none is open nothing changes.
    fn compact(self, alloc: Global) -> (ScriptArchive<D>, Result<Reply, Refusal>) {
        match self {
            ScriptArchive::Open(engine) => reopened(alloc, engine.into_disk()),
            ScriptArchive::Closed(disk) => (ScriptArchive::Closed(disk), Err(Refusal::Broken)),
        }
    }

    fn offers_checkpoints(&self) -> bool {
        false
    }

    fn prepare(&mut self, _alloc: Global) -> Option<CheckpointOutcome> {
        None
    }

    /// How much of its history it has used, where it is open.
    fn history(&self) -> Option<HistoryUse>
        ensures { result ≡ history_of (archive_seen D.life self.now) }
    {
        match self {
            ScriptArchive::Open(engine) => Some(HistoryUse {
                counted: engine.desk().counted(),
                limit: engine.desk().limit(),
            }),
            ScriptArchive::Closed(_) => None,
        }
    }
}

/// None is open, by this refusal; the disk again for want of memory.
fn unless_memory<D: Disk>(refusal: Refusal, disk: D) -> Result<(ScriptArchive<D>, Beginning), D>
    ensures { result ≡ closed_by refusal disk }
{
    match refusal {
        Refusal::NoMemory => Err(disk),
        _ => Ok((ScriptArchive::Closed(disk), Beginning::Refused(refusal))),
    }
}
