//! An archive that is looked at. docs/CONTROL.md, "Looking without a change".

ghost use Rattle.std.specs.Prelude.{IfErr, IfOk};
ghost use Rattle.archive_commands.specs.Reports.{KnowsAsked};
ghost use Rattle.archive_view.specs.Viewed.{desk_of};
ghost use Rattle.archive_report.specs.Viewing.{IsUnseenBy, IsUnviewedBy, IsViewedBy};

use archive_commands::{CommandFault, Stop, has_asked};
use archive_view::{ArchiveView, ReadOnly};
use disk_core::Disk;
use engine_core::OpenRefusal;
use frame_core::Refusal;
use std::alloc::Global;
use tool_core::{Beginning, Observer};

/// The archive of a disk as it stands, which an observer gets; else why it cannot be looked at, and the disk. The disk
/// is only read.
pub(crate) fn viewed<D: Disk, O: Observer>(
    alloc: Global,
    disk: D,
    observer: &mut O,
) -> Result<ArchiveView<D>, CommandFault<D>>
    ensures viewed { IfOk result (λ view. IsViewedBy D.life (D.life disk) view) }
    ensures refused { IfErr result (λ fault. IsUnviewedBy D.life (D.life disk) fault.disk fault.why) }
{
    match ArchiveView::open(alloc, ReadOnly::new(disk)) {
        Ok(view) => {
            observer.began(&Beginning::Opened);
            Ok(view)
        }
        Err(OpenRefusal { refusal, disk }) => {
            observer.began(&Beginning::Refused(refusal));
            Err(CommandFault {
                why: Stop::Refused(refusal),
                disk: disk.into_disk(),
            })
        }
    }
}

/// The archive of a disk as it stands, if it has the recording that is asked for alone; else why it cannot be looked at, or
/// `UnknownRecording`, and the disk. The disk is only read.
pub(crate) fn viewed_with<D: Disk, O: Observer>(
    alloc: Global,
    disk: D,
    asked: Option<i64>,
    observer: &mut O,
) -> Result<ArchiveView<D>, CommandFault<D>>
    ensures viewed { IfOk result (λ view. IsViewedBy D.life (D.life disk) view) }
    ensures there { IfOk result (λ view. KnowsAsked asked (desk_of view)) }
    ensures refused { IfErr result (λ fault. IsUnseenBy D.life asked (D.life disk) fault.disk fault.why) }
{
    let view = viewed(alloc, disk, observer)?;
    if has_asked(view.desk(), asked) {
        return Ok(view);
    }
    Err(CommandFault {
        why: Stop::Refused(Refusal::UnknownRecording),
        disk: view.into_disk().into_disk(),
    })
}
