//! What `describe` prints of an archive. docs/CONTROL.md, "A page for people".

ghost use Rattle.std.specs.Prelude.{◌≡◌, IfErr, IfOk, IfSome, OnOk, string_bytes};
ghost use Rattle.std.specs.Io.KnownBytes.{Appends};
ghost use Rattle.archive_commands.specs.declared.commands.Stop.TheVariants.{Cut};
ghost use Rattle.tool_core.specs.declared.fault.EarlyEnd.TheVariants as ends;
ghost use Rattle.archive_report.specs.Describing.{DescribesView, FailsToDescribe, FailsView, HasDescribed, IsLookedOn, recording_as, text_as, text_asked};

use crate::document::{document_of, recording_document};
use crate::form::Form;
use crate::page::{page_of, recording_page};
use crate::summary::Summary;
use crate::viewing::viewed_with;
use archive_commands::{CommandFault, Stop};
use archive_model::Registration;
use archive_view::ArchiveView;
use control_core::Desk;
use disk_core::Disk;
use std::alloc::Global;
use std::io::Write;
use tool_core::{EarlyEnd, Observer};

/// Writes what is known of the archive of a disk as it stands: each recording with its files, totals, which files a sweep
/// would remove and why, files that no recording knows, and how much of the history is used; or the recording of an id alone
/// with its files. The disk is only read, and comes back. An observer gets whether the archive is there.
///
/// Refused as `ArchiveView::open` refuses, by `UnknownRecording` if the archive lacks that recording, and by `DeviceFault` and
/// `NoMemory` of its files, and then nothing is written; cut by `Memory` where there is none for the text, and then nothing is written either, and by `Write` where the writer
/// fails. docs/CONTROL.md, "A page for people". Costs a call of the disk for each file, and a step for each file and
/// recording.
pub fn describe_archive<W: Write, D: Disk, O: Observer>(
    alloc: Global,
    disk: D,
    asked: Option<i64>,
    form: Form,
    writer: &mut W,
    observer: &mut O,
) -> Result<D, CommandFault<D>>
    ensures described { IfOk result (λ back. HasDescribed asked (D.life disk) (D.life back) form
        (W.contents writer.old) (W.contents writer.new)) }
    ensures fault { IfErr result (λ fault. FailsToDescribe D.life asked (D.life disk) fault.disk fault.why
        (W.contents writer.old) (W.contents writer.new)) }
{
    let mut view = viewed_with(alloc, disk, asked, observer)?;
    let outcome = described(alloc, &mut view, asked, form, writer);
    let disk = view.into_disk().into_disk();
    match outcome {
        Ok(()) => Ok(disk),
        Err(why) => Err(CommandFault { why, disk }),
    }
}

/// Writes what is known of an archive, or of the recording of an id alone.
fn described<W: Write, D: Disk>(
    alloc: Global,
    view: &mut ArchiveView<D>,
    asked: Option<i64>,
    form: Form,
    writer: &mut W,
) -> Result<(), Stop>
    ensures look { IsLookedOn D.life view.old view.new }
    ensures told { OnOk result (DescribesView D.life asked view.old view.new form
        (W.contents writer.old) (W.contents writer.new)) }
    ensures fault { IfErr result (λ why.
        FailsView why (W.contents writer.old) (W.contents writer.new)) }
{
    let summary = match Summary::of(alloc, view) {
        Ok(summary) => summary,
        Err(refusal) => return Err(Stop::Refused(refusal)),
    };
    match text_of(alloc, view.desk(), &summary, asked, form) {
        Some(text) => written(text.as_str(), writer),
        None => Err(Stop::Cut(EarlyEnd::Memory)),
    }
}

/// Writes a text. `Write` where the writer fails.
fn written<W: Write>(text: &str, writer: &mut W) -> Result<(), Stop>
    ensures ok { OnOk result (Appends (W.contents writer.old) (W.contents writer.new) text.now) }
    ensures err { IfErr result (λ why. why ≡ Cut ends.Write) }
{
    match writer.write_all(text.as_bytes()) {
        Ok(()) => Ok(()),
        Err(_) => Err(Stop::Cut(EarlyEnd::Write)),
    }
}

/// What is known of a desk, or of its recording of an id alone, and of its archive's files, if there is memory for it. Nothing
/// of a recording that it lacks.
fn text_of(
    alloc: Global,
    desk: &Desk,
    summary: &Summary,
    asked: Option<i64>,
    form: Form,
) -> Option<String>
    ensures { IfSome result (λ text. string_bytes text ≡ text_asked asked form desk.now.state
        summary.now.files.items summary.now.stale.items summary.now.unknown.items) }
{
    let Some(id) = asked else {
        return whole_text(alloc, desk, summary, form);
    };
    match desk.recording(&id) {
        Some(known) => recording_text(alloc, known, summary, form),
        None => Some(String::new(alloc)),
    }
}

/// What is known of a recording and of its files, if there is memory for it.
fn recording_text(
    alloc: Global,
    known: &Registration,
    summary: &Summary,
    form: Form,
) -> Option<String>
    ensures { IfSome result (λ text. string_bytes text ≡ recording_as form summary.now.files.items known.now) }
{
    match form {
        Form::Page => recording_page(alloc, known, summary).ok(),
        Form::Json => recording_document(alloc, known, summary).ok(),
    }
}

/// What is known of a desk and of its archive's files, if there is memory for it.
fn whole_text(alloc: Global, desk: &Desk, summary: &Summary, form: Form) -> Option<String>
    ensures { IfSome result (λ text. string_bytes text ≡ text_as form desk.now.state
        summary.now.files.items summary.now.stale.items summary.now.unknown.items) }
{
    match form {
        Form::Page => page_of(alloc, desk, summary).ok(),
        Form::Json => document_of(alloc, desk, summary).ok(),
    }
}
