//! An archive as a page for people. docs/CONTROL.md, "A page for people".

ghost use Rattle.std.specs.Prelude.{◌≡◌, ◌++◌, IfOk, OnOk, string_bytes};
ghost use Rattle.std.specs.List.{flat_map};
ghost use Rattle.archive_report.specs.PageText.{count_line, date_lines, disk_line, history_lines, length_lines, page_text, position_lines, recording_lines, sender_line, stale_line, state_text, stream_lines, unknown_line};

use crate::dates::{Date, StopDate};
use crate::summary::{Staleness, Summary, Total, recorded_bytes};
use crate::version::version_number;
use archive_model::Registration;
use control_core::Desk;
use disk_core::FileId;
use std::alloc::{AllocError, Global};

/// The page: a part for each recording, and then one for the archive. An error where there is no memory for it.
#[tactic(auto, unfolding(crate::specs::PageText::page_text))]
pub(crate) fn page_of(alloc: Global, desk: &Desk, summary: &Summary) -> Result<String, AllocError>
    ensures { IfOk result (λ page. string_bytes page
        ≡ page_text desk.now.state summary.now.files.items
        summary.now.stale.items summary.now.unknown.items) }
{
    let mut page = String::new(alloc);
    add_recordings(desk.recordings(), summary, &mut page)?;
    add_count(desk, &mut page)?;
    add_disk("", &summary.of_all(), &mut page)?;
    add_history(desk, &mut page)?;
    add_stale(desk, summary.stale.as_slice(), &mut page)?;
    add_unknown(summary.unknown.as_slice(), &mut page)?;
    Ok(page)
}

/// The part of the page on a recording alone. An error where there is no memory for it.
pub(crate) fn recording_page(
    alloc: Global,
    known: &Registration,
    summary: &Summary,
) -> Result<String, AllocError>
    ensures { IfOk result (λ page. string_bytes page ≡ recording_lines summary.now.files.items known.now) }
{
    let mut page = String::new(alloc);
    add_recording(known, summary, &mut page)?;
    Ok(page)
}

/// Each recording.
fn add_recordings(
    recordings: &[Registration],
    summary: &Summary,
    page: &mut String,
) -> Result<(), AllocError>
    ensures { OnOk result (string_bytes page.new
        ≡ string_bytes page.old
        ++ flat_map (recording_lines summary.now.files.items) recordings.now) }
{
    for known in recordings {
        add_recording(known, summary, page)?;
    }
    Ok(())
}

/// A recording.
#[tactic(auto, unfolding(crate::specs::PageText::recording_lines))]
fn add_recording(
    known: &Registration,
    summary: &Summary,
    page: &mut String,
) -> Result<(), AllocError>
    ensures { OnOk result (string_bytes page.new
        ≡ string_bytes page.old ++ recording_lines summary.now.files.items known.now) }
{
    let total = summary.of_recording(&known.descriptor.recording);
    add_stream(known, page)?;
    add_source(known.descriptor.source_identity.as_str(), page)?;
    add_dates(known, page)?;
    add_positions(known, page)?;
    add_disk("  ", &total, page)?;
    add_lengths(known, page)
}

/// Which recording, and what stream it is of.
#[tactic(auto, unfolding(crate::specs::PageText::stream_lines))]
fn add_stream(known: &Registration, page: &mut String) -> Result<(), AllocError>
    ensures { OnOk result (string_bytes page.new
        ≡ string_bytes page.old ++ stream_lines known.now) }
{
    let found = &known.descriptor;
    writeln!(
        page,
        "recording {}, {}\n  channel    {}\n  stream     {}\n  session    {}",
        found.recording,
        state_text(known.is_active()),
        found.channel.as_str(),
        found.stream_id,
        found.session_id,
    )
}

/// Whether it is recorded, in a word.
fn state_text(is_active: bool) -> &'static str
    ensures { result.now ≡ state_text is_active }
{
    if is_active { "active" } else { "stopped" }
}

/// Who sends it, if that is known.
fn add_source(source: &str, page: &mut String) -> Result<(), AllocError>
    ensures { OnOk result (string_bytes page.new
        ≡ string_bytes page.old ++ sender_line source.now) }
{
    if source.is_empty() {
        return Ok(());
    }
    writeln!(page, "  source     {source}")
}

/// When it was started and stopped.
#[tactic(auto, unfolding(crate::specs::PageText::date_lines))]
fn add_dates(known: &Registration, page: &mut String) -> Result<(), AllocError>
    ensures { OnOk result (string_bytes page.new ≡ string_bytes page.old ++ date_lines known.now) }
{
    let started = Date(known.descriptor.start_timestamp);
    let stopped = StopDate {
        start: known.descriptor.start_timestamp,
        stop: known.descriptor.stop_timestamp,
    };
    writeln!(page, "  started    {started}\n  stopped    {stopped}")
}

/// How much of it is recorded.
#[tactic(auto, unfolding(crate::specs::PageText::position_lines))]
fn add_positions(known: &Registration, page: &mut String) -> Result<(), AllocError>
    ensures { OnOk result (string_bytes page.new
        ≡ string_bytes page.old ++ position_lines known.now) }
{
    writeln!(
        page,
        "  positions  {} to {}\n  recorded   {} bytes",
        known.descriptor.start_position,
        known.recorded,
        recorded_bytes(known),
    )
}

/// In how many files, and how many bytes these have, behind an indent.
#[tactic(auto, unfolding(crate::specs::PageText::disk_line))]
fn add_disk(indent: &str, total: &Total, page: &mut String) -> Result<(), AllocError>
    ensures { OnOk result (string_bytes page.new
        ≡ string_bytes page.old ++ disk_line indent.now total.now) }
{
    writeln!(
        page,
        "{indent}on disk    {} bytes in {} segment files",
        total.bytes, total.files,
    )
}

/// How long its terms, segments and frames are, and an empty line.
#[tactic(auto, unfolding(crate::specs::PageText::length_lines))]
fn add_lengths(known: &Registration, page: &mut String) -> Result<(), AllocError>
    ensures { OnOk result (string_bytes page.new
        ≡ string_bytes page.old ++ length_lines known.now) }
{
    let found = &known.descriptor;
    writeln!(
        page,
        "  lengths    term {}, segment {}, MTU {}\n",
        found.term_length, found.segment_length, found.mtu,
    )
}

/// How many recordings there are.
#[tactic(auto, unfolding(crate::specs::PageText::count_line))]
fn add_count(desk: &Desk, page: &mut String) -> Result<(), AllocError>
    ensures { OnOk result (string_bytes page.new
        ≡ string_bytes page.old ++ count_line desk.now.state.register) }
{
    let recordings = desk.recordings().len();
    let active = desk.active_count();
    writeln!(
        page,
        "archive    {recordings} recordings, {active} of them active"
    )
}

/// How much of the history is used, and the catalogue's version.
#[tactic(auto, unfolding(crate::specs::PageText::history_lines))]
fn add_history(desk: &Desk, page: &mut String) -> Result<(), AllocError>
    ensures { OnOk result (string_bytes page.new
        ≡ string_bytes page.old ++ history_lines desk.now.state) }
{
    let counted = desk.counted();
    let limit = desk.limit();
    let version = version_number(desk.version());
    writeln!(
        page,
        "history    {counted} of {limit} entries\ncatalogue  version {version}"
    )
}

/// Each file that a sweep would remove, and why.
fn add_stale(desk: &Desk, stale: &[FileId], page: &mut String) -> Result<(), AllocError>
    ensures { OnOk result (string_bytes page.new
        ≡ string_bytes page.old ++ flat_map (stale_line desk.now.state.register) stale.now) }
{
    for file in stale {
        add_stale_file(desk, file, page)?;
    }
    Ok(())
}

/// A file that a sweep would remove, and why.
#[tactic(auto, unfolding(crate::specs::PageText::stale_line))]
fn add_stale_file(desk: &Desk, file: &FileId, page: &mut String) -> Result<(), AllocError>
    ensures { OnOk result (string_bytes page.new
        ≡ string_bytes page.old ++ stale_line desk.now.state.register file.now) }
{
    let why = Staleness::of(desk, file).text();
    writeln!(page, "stale      {file}: {why}")
}

/// Each file that no recording knows.
fn add_unknown(unknown: &[FileId], page: &mut String) -> Result<(), AllocError>
    ensures { OnOk result (string_bytes page.new
        ≡ string_bytes page.old ++ flat_map unknown_line unknown.now) }
{
    for file in unknown {
        add_unknown_file(file, page)?;
    }
    Ok(())
}

/// A file that no recording knows.
#[tactic(auto, unfolding(crate::specs::PageText::unknown_line))]
fn add_unknown_file(file: &FileId, page: &mut String) -> Result<(), AllocError>
    ensures { OnOk result (string_bytes page.new
        ≡ string_bytes page.old ++ unknown_line file.now) }
{
    writeln!(page, "unknown    {file}")
}
