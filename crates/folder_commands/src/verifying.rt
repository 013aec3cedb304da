//! The command `verify`, over a folder that is opened or only read. docs/CONTROL.md, "The program" and "Looking without a change".

ghost use Rattle.std.specs.Prelude.{◌≡◌, Some, true, false};
ghost use Rattle.disk_core.specs.Life.{IsQuiet};
ghost use Rattle.host_disk.specs.Events.{Given};
ghost use Rattle.folder_commands.specs.Folders.{VerifiesFolder, ending_by, ending_in};
ghost use Rattle.folder_commands.specs.Left.{ends_with, leaves};
ghost use Rattle.folder_commands.specs.Looking.{VerifiesAsItStands};

use crate::commands::opening_of;
use crate::exit::Exit;
use crate::hidden::warns_of_hidden;
use crate::looking::folder_of;
use crate::observers::{FaultReporter, VerifyReporter};
use crate::open_folder::{OpenFolder, closed, stopped};
use crate::outcome::{Left, Outcome};
use crate::status::Ending;
use crate::waiting::disk_within;
use crate::why::Why;
use archive_commands::{
    ListedFiles, OpeningProgress, Progress, Screen, Stage, Verdict, Watched, verify_archive,
};
use archive_report::{Finding, verify_view};
use disk_core::Disk;
use std::io::{IsTerminal, Write};
use std::path::Path;

/// Reports the calls that fail, and shows how far an opening and a verification have come.
type VerifyViewer<'a> = (
    FaultReporter<'a, HostRuntime>,
    (
        Option<OpeningProgress<'a, HostRuntime>>,
        Option<Progress<'a, HostRuntime, ListedFiles>>,
    ),
);

/// Reads each recorded frame of the archive in a folder, which is opened, or only looked at, and writes what was found of each
/// recording, or of one alone. How far it has come is shown on standard error, where that is a terminal, and what it found in all is
/// reported there. A folder that is opened is waited for.
pub(crate) fn verify<W: Write>(
    rt: HostRuntime,
    folder: Path<'_>,
    recording: Option<i64>,
    read_only: bool,
    wait: Option<u32>,
    writer: &mut W,
) -> Result<Left, Outcome>
    ghost given: { Given }
    ensures opened { read_only ≡ false → VerifiesFolder given recording
        (W.contents writer.old) (W.contents writer.new) (leaves result) (ends_with result) }
    ensures seen { read_only ≡ true → VerifiesAsItStands given recording
        (W.contents writer.old) (W.contents writer.new) (leaves result) (ends_with result) }
{
    if read_only {
        verify_read_only(rt, folder, recording, writer)
    } else {
        verify_opened(rt, folder, recording, wait, writer)
    }
}

/// Verifies the archive in a folder, which is opened. Before that it is reported if its catalogue may hide entries.
fn verify_opened<W: Write>(
    rt: HostRuntime,
    folder: Path<'_>,
    recording: Option<i64>,
    wait: Option<u32>,
    writer: &mut W,
) -> Result<Left, Outcome>
    ghost given: { Given }
    ensures { VerifiesFolder given recording
        (W.contents writer.old) (W.contents writer.new) (leaves result) (ends_with result) }
{
    let screen = Screen::new(&rt);
    let disk = disk_within(rt, folder, wait)?;
    let _ = warns_of_hidden(rt, folder, &screen);
    let disk = watched(&rt, &screen, disk);
    let mut reporter = VerifyReporter::new(&screen);
    match verify_archive(rt.alloc(), disk, recording, writer, &mut reporter) {
        Ok((disk, verdict)) => {
            // Nobody else writes it meanwhile.
            let is_moving = false;
            found(disk, Finding { verdict, is_moving }, reporter)
        }
        Err(fault) => {
            screen.clear();
            Err(stopped(fault))
        }
    }
}

/// Verifies the archive in a folder as it stands. It is reported if the archive is being written.
fn verify_read_only<W: Write>(
    rt: HostRuntime,
    folder: Path<'_>,
    recording: Option<i64>,
    writer: &mut W,
) -> Result<Left, Outcome>
    ghost given: { Given }
    ensures { VerifiesAsItStands given recording
        (W.contents writer.old) (W.contents writer.new) (leaves result) (ends_with result) }
{
    let screen = Screen::new(&rt);
    let folder = watched(&rt, &screen, folder_of(rt, folder)?);
    let mut reporter = VerifyReporter::new(&screen);
    match verify_view(rt.alloc(), folder, recording, writer, &mut reporter) {
        Ok((folder, finding)) => found(folder, finding, reporter),
        Err(fault) => {
            screen.clear();
            Err(stopped(fault))
        }
    }
}

/// A folder that is watched while it is verified. Its files are listed before, where standard error is a terminal.
fn watched<'a, F: OpenFolder>(
    rt: &'a HostRuntime,
    screen: &'a Screen<'a, HostRuntime>,
    folder: F,
) -> Watched<F, VerifyViewer<'a>>
    ensures { IsQuiet (F.life folder) (F.life result.disk) }
{
    let mut folder = folder;
    let progress = progress_of(rt, screen, &mut folder);
    let faults = FaultReporter::new(rt.alloc(), screen, Stage::Working);
    Watched::new(folder, (faults, (opening_of(rt, screen), progress)))
}

/// How the verification of a watched folder ends that found this. The folder is closed.
fn found<F: OpenFolder, V: Drop>(
    folder: Watched<F, V>,
    finding: Finding,
    reporter: VerifyReporter<'_, HostRuntime>,
) -> Result<Left, Outcome>
    ensures ending { ends_with result ≡ ending_by finding.verdict }
    ensures left { leaves result ≡ Some (F.life folder.disk) }
{
    reporter.finish();
    Outcome::leaving(judged(finding), closed(folder))
}

/// How a command ends that found this.
fn judged(finding: Finding) -> Result<(), Exit>
    ensures { ending_in result ≡ ending_by finding.verdict }
{
    match finding.verdict {
        Verdict::Whole => Ok(()),
        Verdict::Refused => Err(Exit {
            ending: Ending::FoundDamage,
            why: if finding.is_moving {
                Why::Moving
            } else {
                Why::Reported
            },
        }),
    }
}

/// What shows how far a verification of a disk has come, where standard error is a terminal.
fn progress_of<'a, D: Disk>(
    rt: &'a HostRuntime,
    screen: &'a Screen<'a, HostRuntime>,
    disk: &mut D,
) -> Option<Progress<'a, HostRuntime, ListedFiles>>
    ensures { IsQuiet (D.life disk.old) (D.life disk.new) }
{
    if rt.stderr().is_terminal() {
        let files = ListedFiles::of(rt.alloc(), disk)?;
        Some(Progress::new(rt, screen, files))
    } else {
        None
    }
}
