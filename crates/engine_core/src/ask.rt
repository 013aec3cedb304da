//! Requests to the catalogue, and the commands that they make. docs/CONTROL.md, "Requests".

ghost use Rattle.std.specs.Prelude.{IsTrue};
ghost use Rattle.disk_core.specs.DiskImage.{reads};
ghost use Rattle.control_core.specs.Decisions.{decision_of};
ghost use Rattle.control_core.specs.declared.event.Event.TheVariants as events;
ghost use Rattle.engine_core.specs.Catalogued.{KeepsFound, register_made};
ghost use Rattle.engine_core.specs.Shown.{AsksDecided};
ghost use Rattle.engine_core.specs.Touching.{Touches, WantsMemory};

use crate::stored::StoredArchive;
use archive_model::Reply;
use control_core::{Decision, Request, decide};
use disk_core::Disk;
use frame_core::Refusal;
use recording_reads::is_boundary;
use std::alloc::Global;

impl<D: Disk> StoredArchive<D> {
    ghost use Rattle.engine_core.specs.Seen.{HasEnded, state_of};

    /// Answers a request: by what the desk decides, and where that is a command, by adding its entry to the catalogue, which
    /// takes four calls of the disk. Where a truncation lies strictly inside a recording, frames of the position's term are read first.
    ///
    /// The refusals of docs/CONTROL.md, "Refusals"; `DeviceFault`, after a write with the archive broken; `NoMemory`. Costs
    /// a lookup at each recording, session and replay at most.
    pub(crate) fn ask(&mut self, alloc: Global, request: &Request) -> Result<Reply, Refusal>
        ensures ends { HasEnded D.life self.old self.new (events.Ask request.now) result }
        ensures shows { IsTrue (D.life self.new.storage.disk).obeys →
            AsksDecided (reads (D.life self.old.storage.disk).now) self.old.desk.state
            (decision_of self.old.desk.state request.now) result }
        ensures touches { Touches (state_of D.life self.old) (events.Ask request.now) (D.life self.new.storage.disk) }
        ensures memory { WantsMemory self.old.desk.state (events.Ask request.now) result }
        ensures catalogue { KeepsFound (state_of D.life self.old) (state_of D.life self.new)
            (register_made self.old.desk.state (events.Ask request.now)) }
    {
        match decide(alloc, &self.desk, request) {
            Decision::Refused(refusal) => Err(refusal),
            Decision::Answered(reply) => Ok(reply),
            Decision::Accepted(command) => self.make(alloc, command),
            Decision::IfBoundary {
                known,
                position,
                decided,
            } => {
                if !is_boundary(&mut self.storage.disk, known, position)? {
                    return Err(Refusal::BadPosition);
                }
                self.make(alloc, decided?)
            }
        }
    }
}
