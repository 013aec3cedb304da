//! What `export` writes of a recording. docs/CONTROL.md, "Exporting frames".

ghost use Rattle.std.specs.Prelude.{◌≡◌, IfErr, IfOk};
ghost use Rattle.archive_report.specs.Exported.{FailsToExportFrom, HasExportedFrom, stop_of};

use crate::progress::ExportObserver;
use crate::viewing::viewed;
use archive_commands::{CommandFault, Stop};
use archive_export::{ExportFault, Span, export};
use disk_core::Disk;
use std::alloc::Global;
use std::io::Write;
use tool_core::EarlyEnd;

/// Writes the frames of a part of a recording as a capture file, of the archive of a disk as it stands. The disk is only
/// read, and comes back. An observer gets whether the archive is there, and the recording before anything is written.
///
/// Refused as `ArchiveView::open` refuses, and then nothing is written, and as `archive_export::export`; cut by `Write` where
/// the writer fails. What was written before stays written. docs/CONTROL.md, "Exporting frames".
pub fn export_view<W: Write, D: Disk, O: ExportObserver>(
    alloc: Global,
    disk: D,
    recording: &i64,
    span: &Span,
    writer: &mut W,
    observer: &mut O,
) -> Result<D, CommandFault<D>>
    ensures exported { IfOk result (λ back. HasExportedFrom D.life (D.life disk) (D.life back)
        recording.now span.now (W.contents writer.old) (W.contents writer.new)) }
    ensures fault { IfErr result (λ fault. FailsToExportFrom D.life (D.life disk) fault.disk
        recording.now span.now fault.why (W.contents writer.old) (W.contents writer.new)) }
{
    let mut view = viewed(alloc, disk, observer)?;
    if let Some(known) = view.desk().recording(recording) {
        observer.found(known);
    }
    let outcome = export(alloc, &mut view, recording, span, writer);
    let disk = view.into_disk().into_disk();
    match outcome {
        Ok(()) => Ok(disk),
        Err(fault) => Err(CommandFault {
            why: why_of(fault),
            disk,
        }),
    }
}

/// Why a command ended before it was done, by the fault of its export.
fn why_of(fault: ExportFault) -> Stop
    ensures { result ≡ stop_of fault }
{
    match fault {
        ExportFault::Refused(refusal) => Stop::Refused(refusal),
        ExportFault::Write => Stop::Cut(EarlyEnd::Write),
    }
}
