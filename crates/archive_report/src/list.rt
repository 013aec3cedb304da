//! What `list --read-only` prints of an archive. docs/CONTROL.md, "Looking without a change".

ghost use Rattle.std.specs.Prelude.{IfErr, IfOk};
ghost use Rattle.archive_report.specs.Viewing.{FailsToListViewed, HasListedViewed};

use crate::viewing::viewed;
use archive_commands::{CommandFault, Stop, list_recordings};
use disk_core::Disk;
use std::alloc::Global;
use std::io::Write;
use tool_core::Observer;

/// Writes the recordings of the archive of a disk as it stands, as `list_recordings`: an active one as active. The disk is
/// only read, and comes back. An observer gets whether the archive is there.
///
/// Refused as `ArchiveView::open` refuses, and then nothing is written; cut as `list_recordings`. docs/CONTROL.md, "Looking
/// without a change".
pub fn list_view<W: Write, D: Disk, O: Observer>(
    alloc: Global,
    disk: D,
    writer: &mut W,
    observer: &mut O,
) -> Result<D, CommandFault<D>>
    ensures listed { IfOk result (λ back. HasListedViewed (D.life disk) (D.life back)
        (W.contents writer.old) (W.contents writer.new)) }
    ensures fault { IfErr result (λ fault. FailsToListViewed D.life (D.life disk) fault.disk fault.why
        (W.contents writer.old) (W.contents writer.new)) }
{
    let view = viewed(alloc, disk, observer)?;
    let outcome = list_recordings(alloc, view.desk(), writer);
    let disk = view.into_disk().into_disk();
    match outcome {
        Ok(()) => Ok(disk),
        Err(end) => Err(CommandFault {
            why: Stop::Cut(end),
            disk,
        }),
    }
}
