//! The frames of a recording as a capture file. docs/CONTROL.md, "Exporting frames"; docs/PROTOCOL.md, "Captures".

ghost use Rattle.std.specs.Prelude.{◌≡◌, ◌≤ℤ◌, ◌<ℤ◌, Some, IfErr, IfOk, MatchResult, OnOk};
ghost use Rattle.std.specs.Io.KnownBytes.{Appends};
ghost use Rattle.archive_model.specs.Register.{registration_in};
ghost use Rattle.archive_model.specs.declared.registration.Registration.{Registration};
ghost use Rattle.archive_view.specs.Viewed.{desk_of};
ghost use Rattle.archive_export.specs.Exporting.{FailsToExport, HasExported};
ghost use Rattle.archive_export.specs.Steps.{FailsToWrite, FailsToWriteAll, HasTaken, HasWrittenFrame, HasWrittenAll, IsAt, IsRefusedAtOnce, IsTargetOf, RefusesFrameAt};
ghost use Rattle.archive_export.specs.Packet.{FitsDatagram};

use crate::capture::{Destination, file_header, fits_datagram, record};
use crate::span::{Span, Target};
use archive_view::ArchiveView;
use disk_core::Disk;
use frame_core::{Frame, Refusal};
use std::alloc::{AllocError, Global};
use std::io::Write;

/// Why a recording was not exported.
#[derive(Clone, Copy, Debug, PartialEq, Eq)]
pub enum ExportFault {
    /// The archive refused.
    Refused(Refusal),
    /// The file could not be written.
    Write,
}

impl From<Refusal> for ExportFault {
    ghost use Rattle.archive_export.specs.declared.frames.ExportFault.TheVariants.{Refused};

    ghost from_gives = { λ refusal fault. fault ≡ Refused refusal };

    fn from(refusal: Refusal) -> Self {
        ExportFault::Refused(refusal)
    }
}

impl From<AllocError> for ExportFault {
    ghost use Rattle.archive_export.specs.declared.frames.ExportFault.TheVariants.{Refused};
    ghost use Rattle.frame_core.specs.declared.refusal.Refusal.TheVariants.{NoMemory};

    ghost from_gives = { λ _ fault. fault ≡ Refused NoMemory };

    fn from(_: AllocError) -> Self {
        ExportFault::Refused(Refusal::NoMemory)
    }
}

/// Writes the frames of a part of a recording as a capture file: its header, and behind it one record for each frame, as if
/// sent by a datagram to the destination of the recording's channel. The disk is only read.
///
/// `UnknownRecording`; `BadPosition` where the span isn't in the recording, up to the recorded position, or where no frame
/// begins or ends at one of its ends; `Damaged` with the position where the frames break off, also where a message is longer
/// than any datagram; `DeviceFault`; `NoMemory`; `Write` where the writer fails. What was written before stays written. Costs
/// a step for each frame of the term before the span, and what each frame of it costs. docs/CONTROL.md, "Exporting frames".
pub fn export<W: Write, D: Disk>(
    alloc: Global,
    view: &mut ArchiveView<D>,
    recording: &i64,
    span: &Span,
    writer: &mut W,
) -> Result<(), ExportFault>
    ensures exported { OnOk result (HasExported D.life view.old view.new recording.now span.now
        (W.contents writer.old) (W.contents writer.new)) }
    ensures refused { IfErr result (FailsToExport D.life view.old view.new recording.now span.now) }
{
    let target = target_of(view, recording, span)?;
    if !view.is_boundary(recording, target.first)? {
        return Err(ExportFault::Refused(Refusal::BadPosition));
    }
    write(&file_header(), writer)?;
    let end = export_frames(alloc, view, recording, target, writer)?;
    if end > target.last {
        return Err(ExportFault::Refused(Refusal::BadPosition));
    }
    Ok(())
}

/// What is exported of a recording. `UnknownRecording`; `BadPosition` where the span isn't in it.
fn target_of<D: Disk>(
    view: &ArchiveView<D>,
    recording: &i64,
    span: &Span,
) -> Result<Target, Refusal>
    ensures { MatchResult result
        (λ target. (g : Registration) × (registration_in (desk_of view.now).register recording.now ≡ Some g) × IsTargetOf g span.now target)
        (IsRefusedAtOnce (registration_in (desk_of view.now).register recording.now) span.now) }
{
    let Some(known) = view.desk().recording(recording) else {
        return Err(Refusal::UnknownRecording);
    };
    if !span.is_within(known) {
        return Err(Refusal::BadPosition);
    }
    Ok(Target {
        recording: known.descriptor.recording,
        first: span.first(known),
        last: span.last(known),
        recorded: known.recorded,
        destination: Destination::of(known.descriptor.channel.as_str()),
    })
}

/// Writes a record for each frame from the target's first position on that begins before its last, and says where they end.
fn export_frames<W: Write, D: Disk>(
    alloc: Global,
    view: &mut ArchiveView<D>,
    recording: &i64,
    target: Target,
    writer: &mut W,
) -> Result<i64, ExportFault>
    requires there { (g : Registration) × IsAt D.life view.old recording.now target g target.first }
    requires forward { target.first ≤ℤ target.last }
    ensures written { IfOk result (λ end. (g : Registration) → IsAt D.life view.old recording.now target g target.first →
        HasWrittenAll D.life view.old view.new g target.first target.last target.destination end (W.contents writer.old) (W.contents writer.new)) }
    ensures past { IfOk result (λ end. target.last ≤ℤ end) }
    ensures refused { IfErr result (λ fault. (g : Registration) → IsAt D.life view.old recording.now target g target.first →
        FailsToWriteAll D.life view.old view.new g target.first target.last fault) }
{
    let mut at = target.first;
    'frames: while at < target.last {
        at = export_frame(alloc, view, recording, target, &at, writer)?;
    }
    Ok(at)
}

/// Writes the record of the frame at a position, and says where it ends.
fn export_frame<W: Write, D: Disk>(
    alloc: Global,
    view: &mut ArchiveView<D>,
    recording: &i64,
    target: Target,
    at: &i64,
    writer: &mut W,
) -> Result<i64, ExportFault>
    requires there { (g : Registration) × IsAt D.life view.old recording.now target g at.now }
    requires due { at.now <ℤ target.last }
    ensures written { IfOk result (λ end. (g : Registration) → IsAt D.life view.old recording.now target g at.now →
        HasWrittenFrame D.life view.old view.new g at.now target.destination end (W.contents writer.old) (W.contents writer.new)) }
    ensures refused { IfErr result (λ fault. (g : Registration) → IsAt D.life view.old recording.now target g at.now →
        FailsToWrite D.life view.old view.new g at.now fault) }
{
    let frame = taken(alloc, view, recording, target, at)?;
    let record = record(alloc, &target.destination, &frame)?;
    write(record.as_slice(), writer)?;
    Ok(*at + frame.aligned_length() as i64)
}

/// The frame at a position, if it fits a datagram.
fn taken<D: Disk>(
    alloc: Global,
    view: &mut ArchiveView<D>,
    recording: &i64,
    target: Target,
    at: &i64,
) -> Result<Frame, Refusal>
    requires there { (g : Registration) × IsAt D.life view.old recording.now target g at.now }
    requires due { at.now <ℤ target.last }
    ensures taken { IfOk result (λ frame. (g : Registration) → IsAt D.life view.old recording.now target g at.now →
        HasTaken D.life view.old view.new g at.now frame) }
    ensures fits { IfOk result (λ frame. FitsDatagram frame) }
    ensures refused { IfErr result (λ refusal. (g : Registration) → IsAt D.life view.old recording.now target g at.now →
        RefusesFrameAt D.life view.old view.new g at.now refusal) }
{
    let frame = view.frame_at(alloc, recording, *at)?;
    if !fits_datagram(&frame) {
        return Err(Refusal::Damaged {
            recording: target.recording,
            position: *at,
        });
    }
    Ok(frame)
}

/// Writes bytes. `Write` where the writer fails.
fn write<W: Write>(bytes: &[u8], writer: &mut W) -> Result<(), ExportFault>
    ensures ok { OnOk result (Appends (W.contents writer.old) (W.contents writer.new) bytes.now) }
    ensures err { IfErr result (λ fault. fault ≡ ExportFault.Write) }
{
    match writer.write_all(bytes) {
        Ok(()) => Ok(()),
        Err(_) => Err(ExportFault::Write),
    }
}
