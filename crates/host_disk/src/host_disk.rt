//! A disk over a real folder.
ghost use Rattle.std.specs.Prelude.{◌≡◌, ◌<◌, IfOk, IsSome};
ghost use Rattle.host_disk.specs.ClosedDisk.{closed_life};
ghost use Rattle.host_disk.specs.Events.{Given};
ghost use Rattle.host_disk.specs.Replay.{life_from};

use crate::{ClosedDisk, FolderDisk, HostFolder, LastFault, OpenFault};
use std::alloc::Global;
use std::path::Path;

/// A disk over a real folder.
pub type HostDisk = FolderDisk<HostFolder>;

impl FolderDisk<HostFolder> {
    ghost use Rattle.host_disk.specs.FolderDisk.{faults_of};
    ghost use Rattle.host_disk.specs.HostDisk.{host_life};

    /// Opens a folder as a disk, and locks it. Whatever files the folder holds, and whatever calls that fail
    /// will leave of them, the disk begins with these files, and all of them count as durable: docs/STORAGE.md, "Folders", says why that is right once a new disk has
    /// synced. `Busy` where another disk has it open, `NoMemory` where its table of open files finds none,
    /// `Device` where the system refuses; nothing is made or changed then.
    pub fn open(rt: HostRuntime, alloc: Global, path: Path<'_>) -> Result<HostDisk, OpenFault>
        ghost given: { Given }
        ensures begun { IfOk result (λ disk. host_life disk ≡ life_from given) }
    {
        Ok(FolderDisk::new(HostFolder::open(rt, alloc, path)?))
    }

    /// The last fault, if there was one: its call, its file and what the system told of it.
    pub fn last_fault(&self) -> Option<LastFault>
        ensures { 0 < faults_of self.now → IsSome result }
    {
        self.folder().last_fault()
    }

    /// Closes the folder, and leaves its lock to others. What is left of the disk is its life.
    pub fn close(self) -> ClosedDisk
        ensures { closed_life result ≡ host_life self }
    {
        let (folder, faults) = self.into_parts();
        ClosedDisk::of(folder.close(), faults)
    }
}

/// A disk may be moved to another thread: this takes any value that may.
fn needs_send<T: Send + Drop>(_value: T) {}

/// A disk may go to another thread.
pub fn may_be_sent(disk: HostDisk) {
    needs_send(disk)
}
