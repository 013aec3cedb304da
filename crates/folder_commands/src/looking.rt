//! The program's commands that only look at a folder. docs/CONTROL.md, "Looking without a change".

ghost use Rattle.std.specs.Prelude.{◌≡◌, IfErr, IfOk};
ghost use Rattle.host_disk.specs.Events.{Given};
ghost use Rattle.host_disk.specs.ReadFolder.{folder_life};
ghost use Rattle.host_disk.specs.Replay.{life_from};
ghost use Rattle.folder_commands.specs.Folders.{IsUnopenedFolder};
ghost use Rattle.folder_commands.specs.Left.{ends_with, leaves};
ghost use Rattle.folder_commands.specs.Looking.{DescribesFolder, ListsAsItStands, form_of};

use crate::commands::opening_of;
use crate::exit::Exit;
use crate::hidden::{hidden_place, still_hidden_place};
use crate::observers::OpeningReporter;
use crate::open_folder::{closed, stopped};
use crate::outcome::{Left, Outcome};
use archive_commands::{Screen, Watched};
use archive_report::{Form, describe_archive, list_view};
use host_disk::ReadFolder;
use std::io::Write;
use std::path::Path;

/// Writes the recordings of the archive in a folder as it stands.
pub(crate) fn list_read_only<W: Write>(
    rt: HostRuntime,
    folder: Path<'_>,
    writer: &mut W,
) -> Result<Left, Outcome>
    ghost given: { Given }
    ensures { ListsAsItStands given (W.contents writer.old) (W.contents writer.new) (leaves result) (ends_with result) }
{
    let screen = Screen::new(&rt);
    let disk = Watched::new(folder_of(rt, folder)?, opening_of(&rt, &screen));
    match list_view(rt.alloc(), disk, writer, &mut OpeningReporter::new(&screen)) {
        Ok(folder) => Ok(closed(folder)),
        Err(fault) => Err(stopped(fault)),
    }
}

/// Writes what is known of the archive in a folder as it stands, or of one recording alone, as a page or as JSON. It is reported on
/// standard error if its catalogue may hide entries, before and after that.
pub(crate) fn describe<W: Write>(
    rt: HostRuntime,
    folder: Path<'_>,
    recording: Option<i64>,
    json: bool,
    writer: &mut W,
) -> Result<Left, Outcome>
    ghost given: { Given }
    ensures { DescribesFolder given recording json (W.contents writer.old) (W.contents writer.new) (leaves result) (ends_with result) }
{
    let form = form_of(json);
    let screen = Screen::new(&rt);
    let disk = Watched::new(folder_of(rt, folder)?, opening_of(&rt, &screen));
    let hidden = hidden_place(rt, folder);
    let mut reporter = OpeningReporter::new(&screen);
    match describe_archive(rt.alloc(), disk, recording, form, writer, &mut reporter) {
        Ok(disk) => {
            if let Some(found) = still_hidden_place(rt, folder, hidden) {
                screen.report(found.place);
            }
            Ok(closed(disk))
        }
        Err(fault) => Err(stopped(fault)),
    }
}

/// The form of a description.
fn form_of(json: bool) -> Form
    ensures { result ≡ form_of json }
{
    if json { Form::Json } else { Form::Page }
}

/// A folder that is only read. As a disk it begins with the files that the folder holds.
pub(crate) fn folder_of(rt: HostRuntime, folder: Path<'_>) -> Result<ReadFolder, Exit>
    ghost given: { Given }
    ensures begun { IfOk result (λ disk. folder_life disk ≡ life_from given) }
    ensures unopened { IfErr result (λ exit. IsUnopenedFolder exit.ending) }
{
    Ok(ReadFolder::open(rt, rt.alloc(), folder)?)
}
