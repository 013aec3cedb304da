//! A folder that is waited for while it is in use. docs/CONTROL.md, "The program".

ghost use Rattle.std.specs.Prelude.{◌≡◌, IfErr, IfOk};
ghost use Rattle.host_disk.specs.Events.{Given};
ghost use Rattle.host_disk.specs.HostDisk.{host_life};
ghost use Rattle.host_disk.specs.Replay.{life_from};
ghost use Rattle.folder_commands.specs.Folders.{IsUnopenedFolder};

use crate::exit::Exit;
use host_disk::{HostDisk, OpenFault};
use std::path::Path;
use std::thread;
use std::time::Duration;

/// Milliseconds from one try to open a folder to the next.
const PAUSE: u64 = 100;
/// Tries a second.
const TRIES: u64 = 10;

/// The disk of a folder, which no other process has. While another one has it open this tries again each 100 milliseconds, for so many
/// seconds at least; without a number it tries once. The disk begins with the files that the folder holds.
pub(crate) fn disk_within(
    rt: HostRuntime,
    folder: Path<'_>,
    wait: Option<u32>,
) -> Result<HostDisk, Exit>
    ghost given: { Given }
    ensures begun { IfOk result (λ disk. host_life disk ≡ life_from given) }
    ensures unopened { IfErr result (λ exit. IsUnopenedFolder exit.ending) }
{
    Ok(opened_within(rt, folder, tries_in(wait))?)
}

/// How often a folder is tried again within so many seconds.
fn tries_in(wait: Option<u32>) -> u64 {
    u64::from(wait.unwrap_or(0)).saturating_mul(TRIES)
}

/// Opens a folder as a disk. While it is in use it is tried again so often.
fn opened_within(rt: HostRuntime, folder: Path<'_>, tries: u64) -> Result<HostDisk, OpenFault>
    ghost given: { Given }
    ensures begun { IfOk result (λ disk. host_life disk ≡ life_from given) }
{
    for _ in 0..tries {
        match HostDisk::open(rt, rt.alloc(), folder) {
            Err(OpenFault::Busy) => thread::sleep(&rt, Duration::from_millis(PAUSE)),
            opened => return opened,
        }
    }
    HostDisk::open(rt, rt.alloc(), folder)
}
