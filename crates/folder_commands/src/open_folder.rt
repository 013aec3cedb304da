//! A folder that a command has open, and its closing.

ghost use Rattle.std.specs.Prelude.{◌≡◌, Some};
ghost use Rattle.host_disk.specs.ClosedDisk.{closed_life};
ghost use Rattle.folder_commands.specs.Left.{left_life};
ghost use Rattle.folder_commands.specs.Status.{ending_of};

use crate::exit::Exit;
use crate::outcome::{Left, Outcome};
use archive_commands::{CommandFault, Watched};
use disk_core::Disk;
use host_disk::{ClosedDisk, HostDisk, LastFault, ReadFolder};

/// A folder that a command has open, as a disk or to look at it alone.
pub(crate) trait OpenFolder: Disk + Drop {
    /// The last call that failed, if one has.
    fn fault(&self) -> Option<LastFault>;

    /// Closes it. What is left of it is its life.
    fn closed(self) -> ClosedDisk
        ensures { closed_life result ≡ Self.life self };
}

impl OpenFolder for HostDisk {
    fn fault(&self) -> Option<LastFault> {
        self.last_fault()
    }

    fn closed(self) -> ClosedDisk {
        self.close()
    }
}

impl OpenFolder for ReadFolder {
    fn fault(&self) -> Option<LastFault> {
        self.last_fault()
    }

    fn closed(self) -> ClosedDisk {
        self.close()
    }
}

/// Closes a folder that was watched.
pub(crate) fn closed<F: OpenFolder, V: Drop>(folder: Watched<F, V>) -> Left
    ensures { left_life result ≡ Some (F.life folder.disk) }
{
    let (folder, _) = folder.into_parts();
    Some(folder.closed())
}

/// Why a command over a watched folder ended before it was done. The folder is closed.
pub(crate) fn stopped<F: OpenFolder, V: Drop>(fault: CommandFault<Watched<F, V>>) -> Outcome
    ensures ending { result.exit.ending ≡ ending_of fault.why }
    ensures left { left_life result.left ≡ Some (F.life fault.disk.disk) }
{
    let CommandFault { why, disk } = fault;
    let (folder, _) = disk.into_parts();
    Outcome {
        exit: Exit::stopped(why, folder.fault()),
        left: Some(folder.closed()),
        looked: None,
    }
}
