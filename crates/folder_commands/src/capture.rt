//! A capture file of frames of a recording: written beside its place, synced, and then named. docs/CONTROL.md, "Exporting
//! frames".

ghost use Rattle.std.specs.Prelude.{◌≡◌, IfErr, IfOk, IsSomeAnd, MatchResult, Some, codes};
ghost use Rattle.std.specs.Io.KnownBytes.{Appends};
ghost use Rattle.frame_core.specs.declared.refusal.Refusal.TheVariants.{DeviceFault};
ghost use Rattle.host_disk.specs.Events.{Given};
ghost use Rattle.host_disk.specs.ReadFolder.{folder_life};
ghost use Rattle.tool_core.specs.declared.fault.EarlyEnd.TheVariants.{Memory};
ghost use Rattle.folder_commands.specs.declared.status.Ending.TheVariants.{Cut, Refused};
ghost use Rattle.folder_commands.specs.Left.{ends_with, leaves, left_life};
ghost use Rattle.folder_commands.specs.Looking.{ExportsFolder, FailsToCapture, HasCaptured, IsUncaptured, uncaptured_ending};

use crate::commands::{opening_of, sync_name};
use crate::exit::Exit;
use crate::looking::folder_of;
use crate::open_folder::{closed, stopped};
use crate::outcome::{Left, Outcome};
use crate::outlet::Outlet;
use crate::status::Ending;
use crate::why::Why;
use archive_commands::{CommandFault, Progress, Screen, Stop, Viewer, Watched};
use archive_export::Span;
use archive_report::{ExportReporter, Extent, export_view};
use frame_core::Refusal;
use host_disk::ReadFolder;
use std::fs::{self, File};
use std::io::{self, BufWriter, ErrorKind, IsTerminal, Write};
use std::path::Path;
use tool_core::EarlyEnd;

/// Bytes that are written at once.
const BUFFER: usize = 65_536;
/// How many names are tried for a file until it gets its own.
const PARTS: u32 = 1_000;

/// A file that this export has made, under a name of its own.
#[derive(Drop)]
struct Part {
    name: String,
    file: File,
}

/// Writes frames of a recording of the archive in a folder as it stands into a capture file outside of it, and says so. Where
/// that is refused, or the file can't be written, what was written of it is removed. How far it has come is shown on standard
/// error, where that is a terminal.
pub(crate) fn export<W: Write>(
    rt: HostRuntime,
    folder: Path<'_>,
    recording: &i64,
    span: &Span,
    pcap: Path<'_>,
    writer: &mut W,
) -> Result<Left, Outcome>
    ghost given: { Given }
    ensures { ExportsFolder given recording.now span.now (W.contents writer.old) (W.contents writer.new) (leaves result) (ends_with result) }
{
    let screen = Screen::new(&rt);
    let extent = Extent::unknown();
    let disk = folder_of(rt, folder)?;
    let part = match part_outside(rt, folder, pcap) {
        Ok(part) => part,
        Err(exit) => return Err(Outcome {
            exit,
            left: Some(disk.close()),
            looked: None,
        }),
    };
    let viewer = (opening_of(&rt, &screen), progress_of(&rt, &screen, &extent));
    let disk = Watched::new(disk, viewer);
    let mut reporter = ExportReporter::new(&screen, span, &extent);
    let captured = captured(
        rt,
        disk,
        recording,
        span,
        &part,
        pcap.as_str(),
        &mut reporter,
    );
    screen.clear();
    let left = captured?;
    Outcome::leaving(exported(writer), left)
}

/// Says that frames were exported.
fn exported<W: Write>(writer: &mut W) -> Result<(), Exit>
    ensures { MatchResult result
        (λ _. Appends (W.contents writer.old) (W.contents writer.new) (codes "exported\n"))
        (λ exit. exit.ending ≡ Cut EarlyEnd.Write) }
{
    match writer.write_all(b"exported\n") {
        Ok(()) => Ok(()),
        Err(_) => Err(Exit::from(EarlyEnd::Write)),
    }
}

/// A file next to a place that is not in a folder. Refused if it is in there.
fn part_outside(rt: HostRuntime, folder: Path<'_>, pcap: Path<'_>) -> Result<Part, Exit>
    ensures { IfErr result (λ exit. IsUncaptured exit.ending) }
{
    keep_apart(rt, folder, pcap)?;
    made(rt, pcap.as_str())
}

/// Refuses a place for a file in an archive's folder, where it could take the name of one of the archive's own.
fn keep_apart(rt: HostRuntime, folder: Path<'_>, pcap: Path<'_>) -> Result<(), Exit>
    ensures { IfErr result (λ exit. IsUncaptured exit.ending) }
{
    match is_in(rt, folder, pcap) {
        Ok(false) => Ok(()),
        Ok(true) => Err(Exit {
            ending: Ending::Refused(Refusal::BadParameter),
            why: Why::CaptureInside,
        }),
        Err(error) if error.kind() == ErrorKind::OutOfMemory => Err(Exit::from(EarlyEnd::Memory)),
        Err(error) => Err(unwritten(Some(error))),
    }
}

/// Whether a file's place is in a folder.
fn is_in(rt: HostRuntime, folder: Path<'_>, file: Path<'_>) -> io::Result<bool> {
    let above = match file.parent() {
        Some(above) if !above.as_str().is_empty() => above,
        _ => Path::new("."),
    };
    Ok(fs::canonicalize(&rt, above)? == fs::canonicalize(&rt, folder)?)
}

/// Writes the frames into a file that was made, and names it. It is removed where that fails.
fn captured<V: Viewer<ReadFolder> + Drop>(
    rt: HostRuntime,
    disk: Watched<ReadFolder, V>,
    recording: &i64,
    span: &Span,
    part: &Part,
    pcap: &str,
    reporter: &mut ExportReporter<'_, HostRuntime>,
) -> Result<Left, Outcome>
    ensures done { IfOk result (λ left. IsSomeAnd (left_life left) (λ new.
        HasCaptured (folder_life disk.disk) new recording.now span.now)) }
    ensures failed { IfErr result (λ outcome. IsSomeAnd (left_life outcome.left) (λ new.
        FailsToCapture (folder_life disk.disk) new recording.now span.now outcome.exit.ending)) }
{
    match placed(rt, disk, recording, span, part, pcap, reporter) {
        Ok(left) => match synced(rt, pcap) {
            Ok(()) => Ok(left),
            Err(exit) => Err(Outcome {
                exit,
                left,
                looked: None,
            }),
        },
        Err(outcome) => {
            let _ = fs::remove_file(&rt, part.name.as_str());
            Err(outcome)
        }
    }
}

/// Writes the frames into a file, syncs it and gives it its name.
fn placed<V: Viewer<ReadFolder> + Drop>(
    rt: HostRuntime,
    disk: Watched<ReadFolder, V>,
    recording: &i64,
    span: &Span,
    part: &Part,
    pcap: &str,
    reporter: &mut ExportReporter<'_, HostRuntime>,
) -> Result<Left, Outcome>
    ensures done { IfOk result (λ left. IsSomeAnd (left_life left) (λ new.
        HasCaptured (folder_life disk.disk) new recording.now span.now)) }
    ensures failed { IfErr result (λ outcome. IsSomeAnd (left_life outcome.left) (λ new.
        FailsToCapture (folder_life disk.disk) new recording.now span.now outcome.exit.ending)) }
{
    let left = written(rt, disk, recording, span, &part.file, reporter)?;
    match named(rt, part, pcap) {
        Ok(()) => Ok(left),
        Err(exit) => Err(Outcome {
            exit,
            left,
            looked: None,
        }),
    }
}

/// Makes a file beside a place: under its name with `.part` behind it, or with a number behind that, the first name that no
/// file has.
fn made(rt: HostRuntime, pcap: &str) -> Result<Part, Exit>
    ensures { IfErr result (λ exit. IsUncaptured exit.ending) }
{
    for number in 0..PARTS {
        let name = part_name(rt, pcap, number)?;
        match File::create_new(&rt, name.as_str()) {
            Ok(file) => return Ok(Part { name, file }),
            Err(error) if error.kind() == ErrorKind::AlreadyExists => {}
            Err(error) => return Err(unwritten(Some(error))),
        }
    }
    Err(unwritten(Some(io::Error::from(ErrorKind::AlreadyExists))))
}

/// The so-many-th name for a file beside a place.
fn part_name(rt: HostRuntime, pcap: &str, number: u32) -> Result<String, Exit>
    ensures { IfErr result (λ exit. exit.ending ≡ Cut Memory) }
{
    let name = if number == 0 {
        format!(in rt.alloc(); "{pcap}.part")
    } else {
        format!(in rt.alloc(); "{pcap}.part{number}")
    };
    match name {
        Ok(name) => Ok(name),
        Err(_) => Err(Exit::from(EarlyEnd::Memory)),
    }
}

/// Writes the frames into a file.
fn written<V: Viewer<ReadFolder> + Drop>(
    rt: HostRuntime,
    disk: Watched<ReadFolder, V>,
    recording: &i64,
    span: &Span,
    file: &File,
    reporter: &mut ExportReporter<'_, HostRuntime>,
) -> Result<Left, Outcome>
    ensures done { IfOk result (λ left. IsSomeAnd (left_life left) (λ new.
        HasCaptured (folder_life disk.disk) new recording.now span.now)) }
    ensures failed { IfErr result (λ outcome. IsSomeAnd (left_life outcome.left) (λ new.
        FailsToCapture (folder_life disk.disk) new recording.now span.now outcome.exit.ending)) }
{
    let Ok(mut out) = BufWriter::with_capacity(rt.alloc(), BUFFER, Outlet::new(file)) else {
        return Err(Outcome {
            exit: Exit::from(EarlyEnd::Memory),
            left: closed(disk),
            looked: None,
        });
    };
    let left = match export_view(rt.alloc(), disk, recording, span, &mut out, reporter) {
        Ok(disk) => closed(disk),
        Err(fault) => return Err(uncaptured(fault, out.get_ref().fault())),
    };
    match out.flush() {
        Ok(()) => Ok(left),
        Err(_) => Err(Outcome {
            exit: unwritten(out.get_ref().fault()),
            left,
            looked: None,
        }),
    }
}

/// Why an export was stopped: its file, of which the system says this, takes no more, or the archive refuses it.
fn uncaptured<V: Drop>(
    fault: CommandFault<Watched<ReadFolder, V>>,
    error: Option<io::Error>,
) -> Outcome
    ensures ending { result.exit.ending ≡ uncaptured_ending fault.why }
    ensures left { left_life result.left ≡ Some (folder_life fault.disk.disk) }
{
    match fault.why {
        Stop::Cut(EarlyEnd::Write) => Outcome {
            exit: unwritten(error),
            left: closed(fault.disk),
            looked: None,
        },
        _ => stopped(fault),
    }
}

/// Syncs a file and gives it its name.
fn named(rt: HostRuntime, part: &Part, pcap: &str) -> Result<(), Exit>
    ensures { IfErr result (λ exit. exit.ending ≡ Refused DeviceFault) }
{
    if let Err(error) = part.file.sync_all() {
        return Err(unwritten(Some(error)));
    }
    match fs::rename(&rt, part.name.as_str(), pcap) {
        Ok(()) => Ok(()),
        Err(error) => Err(unwritten(Some(error))),
    }
}

/// Syncs the name of a file.
fn synced(rt: HostRuntime, pcap: &str) -> Result<(), Exit>
    ensures { IfErr result (λ exit. exit.ending ≡ Refused DeviceFault) }
{
    match sync_name(rt, pcap) {
        Ok(()) => Ok(()),
        Err(error) => Err(unwritten(Some(error))),
    }
}

/// The capture file was not written; what the system says of it, if that is known.
fn unwritten(error: Option<io::Error>) -> Exit
    ensures { result.ending ≡ Refused DeviceFault }
{
    Exit {
        ending: Ending::Refused(Refusal::DeviceFault),
        why: Why::Capture(error),
    }
}

/// What shows how far an export has come, where standard error is a terminal.
fn progress_of<'a>(
    rt: &'a HostRuntime,
    screen: &'a Screen<'a, HostRuntime>,
    extent: &'a Extent,
) -> Option<Progress<'a, HostRuntime, &'a Extent>> {
    if rt.stderr().is_terminal() {
        Some(Progress::new(rt, screen, extent))
    } else {
        None
    }
}
