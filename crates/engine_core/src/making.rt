//! Commands that are accepted are made. docs/CONTROL.md, "Requests"; docs/STORAGE.md, "Opening".

ghost use Rattle.std.specs.Prelude.{◌≡◌, ◌≢◌, IfErr, IsFalse};
ghost use Rattle.frame_core.specs.declared.refusal.Refusal.TheVariants.{DeviceFault};
ghost use Rattle.archive_model.specs.Accepting.{Accepts};
ghost use Rattle.catalogue_log.specs.Banks.{bank_file};
ghost use Rattle.catalogue_log.specs.Catalogue.{ChangesBank};
ghost use Rattle.catalogue_entries.specs.History.{IsRequested};
ghost use Rattle.control_core.specs.Changes.{desk_after, reply_after};
ghost use Rattle.control_core.specs.Decisions.{Allows};
ghost use Rattle.control_core.specs.Exact.{archive_after, book_of};
ghost use Rattle.engine_core.specs.Catalogued.{AddsCommand, KeepsFound};
ghost use Rattle.engine_core.specs.Making.{CommitsEntry, Restarts, after_failure};
ghost use Rattle.engine_core.specs.Moves.{ChangesThese};

use crate::stored::StoredArchive;
use archive_model::{Command, Reply};
use catalogue_log::Entry;
use control_core::Desk;
use disk_core::Disk;
use frame_core::Refusal;
use std::alloc::Global;

impl<D: Disk> StoredArchive<D> {
    ghost use Rattle.engine_core.specs.Seen.{state_of};

    /// Makes a command that is accepted: its entry is added to the catalogue, and then the desk follows. All memory is
    /// taken first. `NoMemory`, which leaves everything as it was; `DeviceFault` where a write fails: the archive is then
    /// broken. By four calls of the disk.
    pub(crate) fn make(&mut self, alloc: Global, command: Command) -> Result<Reply, Refusal>
        requires requested { IsRequested command }
        requires allowed { Allows self.old.desk.state command }
        requires works { IsFalse self.old.desk.state.is_broken }
        ensures made { CommitsEntry (state_of D.life self.old) (state_of D.life self.new) (λ a. Accepts
            (book_of a) command)
            (reply_after self.old.desk.state command) (λ a. archive_after a command) result }
        ensures quiet { IfErr result (λ refusal. refusal ≢ DeviceFault →
            D.life self.new.storage.disk ≡ D.life self.old.storage.disk) }
        ensures changes { ChangesBank (D.life self.old.storage.disk)
            (D.life self.new.storage.disk) }
        ensures touches { ChangesThese (λ file. file ≡ bank_file self.old.storage.log.bank) 4
            (D.life self.old.storage.disk) (D.life self.new.storage.disk) }
        // Whatever the segment files hold.
        ensures entries { AddsCommand (state_of D.life self.old) (state_of D.life self.new) command result }
        ensures catalogue { KeepsFound (state_of D.life self.old) (state_of D.life self.new)
            (desk_after self.old.desk.state command).register }
    {
        let entry = Entry::of_command(alloc, &self.desk.next_recording(), &command)?;
        self.desk.reserve(&command)?;
        let reply = self.desk.reply(&command);
        match self.storage.commit(&entry) {
            Ok(()) => {
                self.desk.accept(command);
                Ok(reply)
            }
            Err(refusal) => Err(failed(&mut self.desk, refusal)),
        }
    }

    /// Stops each active recording of an archive that is opened, by four calls of the disk, and answers how many there
    /// were. Where none is active nothing is done.
    ///
    /// `NoMemory`, which leaves the disk as it was; `DeviceFault` where a write fails: the archive is then broken.
    /// docs/STORAGE.md, "Opening". Costs a lookup at each recording.
    pub(crate) fn restart(&mut self, alloc: Global) -> Result<i64, Refusal>
        requires { IsFalse self.old.desk.state.is_broken }
        ensures { Restarts (state_of D.life self.old) (state_of D.life self.new) result }
    {
        let stopped = self.desk.active_count() as i64;
        if stopped > 0 {
            self.make(alloc, Command::Restart)?;
        }
        Ok(stopped)
    }
}

/// What is answered where a write was refused; a device fault breaks the archive.
pub fn failed(desk: &mut Desk, refusal: Refusal) -> Refusal
    ensures same { result ≡ refusal }
    ensures state { desk.new.state ≡ after_failure refusal desk.old.state }
{
    if let Refusal::DeviceFault = refusal {
        desk.break_down();
    }
    refusal
}
