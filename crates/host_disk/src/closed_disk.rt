//! What is left of a disk over a folder that was closed.
ghost use Rattle.std.specs.Prelude.{◌≡◌};
ghost use Rattle.host_disk.specs.Replay.{life_at};

use crate::system::Record;

/// What is left of a disk over a folder that was closed: its life, for clauses to tell of. `HostDisk::close` and
/// `ReadFolder::close` alone make one.
#[derive(Drop)]
pub struct ClosedDisk {
    record: Record,
    faults: u64,
}

impl ClosedDisk {
    ghost use Rattle.host_disk.specs.ClosedDisk.{closed_life};

    /// What is left of a disk with this record of its calls, of which so many have failed.
    pub(crate) fn of(calls: Record, faults: u64) -> ClosedDisk
        ensures { closed_life result ≡ life_at calls.events faults }
    {
        ClosedDisk {
            record: calls,
            faults,
        }
    }
}
