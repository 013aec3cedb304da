//! An archive as one JSON text. docs/CONTROL.md, "A page for people".

ghost use Rattle.std.specs.Prelude.{◌≡◌, IfOk, OnOk, string_bytes};
ghost use Rattle.serde_json.specs.View.{members_view, view};
ghost use Rattle.archive_report.specs.DocumentData.{archive_in_total, date_data, document_data, document_text, each_of, recording_data, recording_text, stale_data, stop_data, unknown_data, with_dates, with_extent, with_lengths, with_stream};

use crate::dates::{Date, StopDate};
use crate::summary::{Staleness, Summary, Total, recorded_bytes};
use crate::version::version_number;
use archive_model::Registration;
use control_core::Desk;
use disk_core::FileId;
use serde_json::{Map, Value, json, put};
use std::alloc::{AllocError, Global};

/// The text, with a line end behind it. An error where there is no memory for it.
#[tactic(auto, unfolding(crate::specs::DocumentData::document_text, crate::specs::DocumentData::document_data))]
pub(crate) fn document_of(
    alloc: Global,
    desk: &Desk,
    summary: &Summary,
) -> Result<String, AllocError>
    ensures { IfOk result (λ text. string_bytes text
        ≡ document_text desk.now.state summary.now.files.items
        summary.now.stale.items summary.now.unknown.items) }
{
    let recordings = recordings_of(alloc, desk.recordings(), summary)?;
    let stale = stale_of(alloc, desk, summary.stale.as_slice())?;
    let unknown = unknown_of(alloc, summary.unknown.as_slice())?;
    let document = archive_of(alloc, desk, &summary.of_all(), recordings, stale, unknown)?;
    let mut text = document.to_string(alloc)?;
    text.push_str("\n")?;
    Ok(text)
}

/// The archive, with what is known of its recordings and of files to look after.
#[tactic(auto, unfolding(crate::specs::DocumentData::archive_in_total))]
fn archive_of(
    alloc: Global,
    desk: &Desk,
    total: &Total,
    recordings: Value,
    stale: Value,
    unknown: Value,
) -> Result<Value, AllocError>
    ensures { IfOk result (λ found. view found
        ≡ archive_in_total total.now desk.now.state (view recordings) (view stale) (view unknown)) }
{
    json!(in alloc; {
        "catalogue_version": version_number(desk.version()),
        "disk_bytes": total.bytes,
        "history_entries": desk.counted(),
        "history_limit": desk.limit(),
        "recordings": recordings,
        "segment_files": total.files,
        "stale_files": stale,
        "unknown_files": unknown
    })
}

/// Each recording.
fn recordings_of(
    alloc: Global,
    recordings: &[Registration],
    summary: &Summary,
) -> Result<Value, AllocError>
    ensures { IfOk result (λ found. view found
        ≡ each_of (recording_data summary.now.files.items) recordings.now) }
{
    let mut found = Vec::new(alloc);
    for known in recordings {
        found.push(recording_of(alloc, known, summary)?)?;
    }
    Ok(Value::Array(found))
}

/// The text of a recording alone, with a line end behind it. An error where there is no memory for it.
#[tactic(auto, unfolding(crate::specs::DocumentData::recording_text))]
pub(crate) fn recording_document(
    alloc: Global,
    known: &Registration,
    summary: &Summary,
) -> Result<String, AllocError>
    ensures { IfOk result (λ text. string_bytes text ≡ recording_text summary.now.files.items known.now) }
{
    let recording = recording_of(alloc, known, summary)?;
    let mut text = recording.to_string(alloc)?;
    text.push_str("\n")?;
    Ok(text)
}

/// A recording.
#[tactic(auto, unfolding(crate::specs::DocumentData::recording_data))]
fn recording_of(alloc: Global, known: &Registration, summary: &Summary) -> Result<Value, AllocError>
    ensures { IfOk result (λ found. view found ≡ recording_data summary.now.files.items known.now) }
{
    let total = summary.of_recording(&known.descriptor.recording);
    let mut members = Map::new(alloc);
    put_stream(alloc, known, &mut members)?;
    put_dates(alloc, known, &mut members)?;
    put_extent(alloc, known, &total, &mut members)?;
    put_lengths(alloc, known, &mut members)?;
    Ok(Value::Object(members))
}

/// Which recording, and what stream it is of.
#[tactic(auto, unfolding(crate::specs::DocumentData::with_stream))]
fn put_stream(
    alloc: Global,
    known: &Registration,
    members: &mut Map<String, Value>,
) -> Result<(), AllocError>
    ensures { OnOk result (members_view members.new.entries
        ≡ with_stream known.now (members_view members.old.entries)) }
{
    let found = &known.descriptor;
    put(members, alloc, "recording", Value::from(found.recording))?;
    put(members, alloc, "active", Value::from(known.is_active()))?;
    put(
        members,
        alloc,
        "channel",
        Value::try_from_str(alloc, found.channel.as_str())?,
    )?;
    put(members, alloc, "stream_id", Value::from(found.stream_id))?;
    put(members, alloc, "session_id", Value::from(found.session_id))?;
    let source = Value::try_from_str(alloc, found.source_identity.as_str())?;
    put(members, alloc, "source_identity", source)
}

/// When it was started and stopped.
#[tactic(auto, unfolding(crate::specs::DocumentData::with_dates))]
fn put_dates(
    alloc: Global,
    known: &Registration,
    members: &mut Map<String, Value>,
) -> Result<(), AllocError>
    ensures { OnOk result (members_view members.new.entries
        ≡ with_dates known.now (members_view members.old.entries)) }
{
    let found = &known.descriptor;
    put(
        members,
        alloc,
        "started",
        date_of(alloc, Date(found.start_timestamp))?,
    )?;
    put(
        members,
        alloc,
        "stopped",
        stop_of(alloc, found.start_timestamp, found.stop_timestamp)?,
    )?;
    put(
        members,
        alloc,
        "start_timestamp",
        Value::from(found.start_timestamp),
    )?;
    put(
        members,
        alloc,
        "stop_timestamp",
        Value::from(found.stop_timestamp),
    )
}

/// How much of it is recorded, in how many files, and how many bytes these have.
#[tactic(auto, unfolding(crate::specs::DocumentData::with_extent))]
fn put_extent(
    alloc: Global,
    known: &Registration,
    total: &Total,
    members: &mut Map<String, Value>,
) -> Result<(), AllocError>
    ensures { OnOk result (members_view members.new.entries
        ≡ with_extent total.now known.now (members_view members.old.entries)) }
{
    put(
        members,
        alloc,
        "start_position",
        Value::from(known.descriptor.start_position),
    )?;
    put(
        members,
        alloc,
        "recorded_position",
        Value::from(known.recorded),
    )?;
    put(
        members,
        alloc,
        "recorded_bytes",
        Value::from(recorded_bytes(known)),
    )?;
    put(members, alloc, "disk_bytes", Value::from(total.bytes))?;
    put(members, alloc, "segment_files", Value::from(total.files))
}

/// How long its terms, segments and frames are.
#[tactic(auto, unfolding(crate::specs::DocumentData::with_lengths))]
fn put_lengths(
    alloc: Global,
    known: &Registration,
    members: &mut Map<String, Value>,
) -> Result<(), AllocError>
    ensures { OnOk result (members_view members.new.entries
        ≡ with_lengths known.now (members_view members.old.entries)) }
{
    let found = &known.descriptor;
    put(
        members,
        alloc,
        "initial_term_id",
        Value::from(found.initial_term_id),
    )?;
    put(
        members,
        alloc,
        "term_length",
        Value::from(found.term_length),
    )?;
    put(
        members,
        alloc,
        "segment_length",
        Value::from(found.segment_length),
    )?;
    put(members, alloc, "mtu", Value::from(found.mtu))
}

/// The date of a stop, null where it is not known, or before its start.
fn stop_of(alloc: Global, start: i64, stop: i64) -> Result<Value, AllocError>
    ensures { IfOk result (λ found. view found ≡ stop_data start stop) }
{
    if (StopDate { start, stop }).is_before_start() {
        return Ok(Value::Null);
    }
    date_of(alloc, Date(stop))
}

/// A date, null where it is not known.
fn date_of(alloc: Global, date: Date) -> Result<Value, AllocError>
    ensures { IfOk result (λ found. view found ≡ date_data date.0) }
{
    if !date.is_known() {
        return Ok(Value::Null);
    }
    Ok(Value::String(date.to_string(alloc)?))
}

/// Each file that a sweep would remove, and why.
fn stale_of(alloc: Global, desk: &Desk, stale: &[FileId]) -> Result<Value, AllocError>
    ensures { IfOk result (λ found. view found
        ≡ each_of (stale_data desk.now.state.register) stale.now) }
{
    let mut found = Vec::new(alloc);
    for file in stale {
        found.push(stale_file_of(alloc, desk, file)?)?;
    }
    Ok(Value::Array(found))
}

/// A file that a sweep would remove, and why.
#[tactic(auto, unfolding(crate::specs::DocumentData::stale_data))]
fn stale_file_of(alloc: Global, desk: &Desk, file: &FileId) -> Result<Value, AllocError>
    ensures { IfOk result (λ found. view found ≡ stale_data desk.now.state.register file.now) }
{
    let name = file.name(alloc)?;
    let why = Staleness::of(desk, file).text();
    json!(in alloc; {"file": name, "why": why})
}

/// Each file that no recording knows.
fn unknown_of(alloc: Global, unknown: &[FileId]) -> Result<Value, AllocError>
    ensures { IfOk result (λ found. view found ≡ each_of unknown_data unknown.now) }
{
    let mut found = Vec::new(alloc);
    for file in unknown {
        found.push(unknown_file_of(alloc, file)?)?;
    }
    Ok(Value::Array(found))
}

/// A file that no recording knows.
#[tactic(auto, unfolding(crate::specs::DocumentData::unknown_data))]
fn unknown_file_of(alloc: Global, file: &FileId) -> Result<Value, AllocError>
    ensures { IfOk result (λ found. view found ≡ unknown_data file.now) }
{
    Ok(Value::String(file.name(alloc)?))
}
