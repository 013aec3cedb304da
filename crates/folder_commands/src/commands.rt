//! What the program's commands do. docs/CONTROL.md, "The program".

ghost use Rattle.std.specs.Prelude.{◌≡◌, IfErr, IfOk, Some, true, false};
ghost use Rattle.host_disk.specs.Events.{Given};
ghost use Rattle.host_disk.specs.HostDisk.{host_life};
ghost use Rattle.host_disk.specs.Replay.{life_from};
ghost use Rattle.tool_core.specs.Archives.{disk_of, early_end_of};
ghost use Rattle.folder_commands.specs.Folders.{CompactsFolder, HasRun, HasRunFirst, IsUnopenedFolder, ListsFile, ListsFolder, ListsFrames, MakesArchive, RunsFolder, RunsInMemory, RunsOnDisk, RunsOver, ending_in};
ghost use Rattle.folder_commands.specs.Left.{ends_with, leaves, left_life, sees};
ghost use Rattle.folder_commands.specs.Looking.{ListsAsItStands};
ghost use Rattle.folder_commands.specs.Obeying.{HasObeyed, Obeys};
ghost use Rattle.folder_commands.specs.Status.{ending_of};

use crate::asking::ask;
use crate::capture::export;
use crate::exit::Exit;
use crate::hidden::warns_of_hidden;
use crate::looking::{describe, list_read_only};
use crate::looking_up::when;
use crate::observers::{FaultReporter, OpeningReporter, ScriptReporter, StartReporter};
use crate::open_folder::{closed, stopped};
use crate::outcome::{Left, Outcome};
use crate::serving::serve;
use crate::sound_disk::SoundDisk;
use crate::status::Ending;
use crate::verifying::verify;
use crate::waiting::disk_within;
use crate::why::Why;
use archive_commands::{
    CommandFault, Listing, OpeningProgress, Screen, Stage, Stop, Watched, compact_archive,
    create_archive, list_archive, list_frames,
};
use archive_export::Span;
use command_line::ToolCommand;
use disk_core::Disk;
use frame_core::Refusal;
use frame_core::limits::MAX_HISTORY;
use host_disk::{HostDisk, LastFault};
use std::alloc::Global;
use std::fs::{self, File};
use std::io::{self, Eprint, IsTerminal, Read, Write};
use std::net::{Net, TcpListener, TcpStream};
use std::path::Path;
use std::rt::Clock;
use std::sync::Wait;
use std::thread::Threads;
use tool_core::{Observer, ScriptFault, run_checkpointed_script, run_script};

/// Does what a command asks for, hands on what it writes, and answers how that ended, and what it left of its folder. The control
/// lines of `run` come from an input. Threads and sockets of `serve` are made by the handle, folders and files opened by the
/// runtime.
pub fn obeyed<
    R: Threads + Wait + Clock + Eprint + Net<Listener = TcpListener, Stream = TcpStream> + Sync,
    I: Read + Drop,
    W: Write,
>(net: &R, rt: HostRuntime, command: &ToolCommand<'_>, input: I, writer: &mut W) -> Outcome
    ghost given: { Given }
    ensures { HasObeyed given (I.remaining input) (W.contents writer.old) (W.contents writer.new) command.now
        (left_life result.looked) (left_life result.left) result.exit.ending }
{
    let Outcome { exit, left, looked } = Outcome::of(obey(net, rt, command, input, writer));
    Outcome {
        exit: exit.handed_on(writer.flush().is_ok()),
        left,
        looked,
    }
}

/// Does what a command asks for. The control lines of `run` come from an input.
fn obey<
    R: Threads + Wait + Clock + Eprint + Net<Listener = TcpListener, Stream = TcpStream> + Sync,
    I: Read + Drop,
    W: Write,
>(
    net: &R,
    rt: HostRuntime,
    command: &ToolCommand<'_>,
    input: I,
    writer: &mut W,
) -> Result<Left, Outcome>
    ghost given: { Given }
    ensures { Obeys given (I.remaining input) (W.contents writer.old) (W.contents writer.new) (sees result) command.now
        (leaves result) (ends_with result) }
{
    match command {
        ToolCommand::Serve(words) => serve(net, rt, words),
        ToolCommand::Create { folder, history } => create(rt, Path::new(folder), *history, writer),
        ToolCommand::Compact { folder, wait } => compact(rt, Path::new(folder), *wait, writer),
        ToolCommand::Run {
            folder: None,
            checkpoints,
            ..
        } => Outcome::leaving(run_without_folder(rt, *checkpoints, input, writer), None),
        ToolCommand::Run {
            folder: Some(folder),
            checkpoints,
            wait,
        } => run(rt, Path::new(folder), *checkpoints, *wait, input, writer),
        ToolCommand::List {
            folder,
            read_only,
            wait,
        } => list(rt, Path::new(folder), *read_only, *wait, writer),
        ToolCommand::Verify {
            folder,
            recording,
            read_only,
            wait,
        } => {
            let folder = Path::new(folder);
            verify(rt, folder, *recording, *read_only, *wait, writer)
        }
        ToolCommand::Describe {
            folder,
            recording,
            json,
        } => describe(rt, Path::new(folder), *recording, *json, writer),
        ToolCommand::Export {
            folder,
            recording,
            from,
            to,
            pcap,
        } => {
            let (folder, pcap) = (Path::new(folder), Path::new(pcap));
            let (from, to) = (*from, *to);
            export(rt, folder, recording, &Span { from, to }, pcap, writer)
        }
        ToolCommand::Frames { file } => Outcome::leaving(frames(rt, file, writer), None),
        ToolCommand::Ask(words) => Outcome::leaving(ask(net, rt, words, writer), None),
        ToolCommand::When {
            folder,
            recording,
            time,
        } => Outcome::leaving(when(rt, folder, *recording, time, writer), None),
    }
}

/// Makes an empty archive in a folder without one. The folder is made where it is not there.
fn create<W: Write>(
    rt: HostRuntime,
    folder: Path<'_>,
    history: u32,
    writer: &mut W,
) -> Result<Left, Outcome>
    ghost given: { Given }
    ensures { MakesArchive given history (W.contents writer.old) (W.contents writer.new) (leaves result) (ends_with result) }
{
    if let Err(error) = make_folder(rt, folder.as_str()) {
        return Err(Outcome::from(Exit {
            ending: Ending::Refused(Refusal::DeviceFault),
            why: Why::NewFolder(error),
        }));
    }
    match create_archive(rt.alloc(), disk_of(rt, folder)?, history, writer) {
        Ok(disk) => Ok(Some(disk.close())),
        Err(CommandFault { why, disk }) => Err(Outcome {
            exit: unmade(why, disk.last_fault(), history),
            left: Some(disk.close()),
            looked: None,
        }),
    }
}

/// Why no archive was made on a disk whose last fault was this one, with this limit of its history, or why that was not printed.
fn unmade(why: Stop, fault: Option<LastFault>, history: u32) -> Exit
    ensures { result.ending ≡ ending_of why }
{
    if why != Stop::Refused(Refusal::BadParameter) {
        return Exit::stopped(why, fault);
    }
    Exit {
        ending: Ending::Refused(Refusal::BadParameter),
        why: if history == 0 || history > MAX_HISTORY {
            Why::History(history)
        } else {
            Why::HasFiles
        },
    }
}

/// Makes a folder that is not there, and syncs its name; that of one that is there too, since who made it may have been
/// stopped before that.
fn make_folder(rt: HostRuntime, folder: &str) -> io::Result<()> {
    let is_there = match fs::create_dir(&rt, folder) {
        Ok(()) => false,
        Err(error) if error.kind() == io::ErrorKind::AlreadyExists => true,
        Err(error) => return Err(error),
    };
    match sync_name(rt, folder) {
        // Who may not read the folder above did not make this one so.
        Err(error) if is_there && error.kind() == io::ErrorKind::PermissionDenied => Ok(()),
        synced => synced,
    }
}

/// Syncs the name of a folder.
pub(crate) fn sync_name(rt: HostRuntime, folder: &str) -> io::Result<()> {
    match fs::canonicalize(&rt, folder)?.parent() {
        Some(above) => File::open(&rt, above)?.sync_all(),
        None => Ok(()),
    }
}

/// Answers the control lines of an input, over an archive in memory. Its disk comes back.
fn run_in_memory<I: Read + Drop, W: Write>(
    rt: HostRuntime,
    checkpoints: bool,
    input: I,
    writer: &mut W,
) -> (SoundDisk, Result<(), Exit>)
    ensures { RunsOnDisk checkpoints result.0 (I.remaining input) (W.contents writer.old) (W.contents writer.new) (ending_in result.1) }
{
    let screen = Screen::new(&rt);
    run_over(
        rt.alloc(),
        checkpoints,
        input,
        writer,
        SoundDisk::new(rt.alloc()),
        &mut StartReporter::new(rt.alloc(), &screen),
    )
}

/// The same, whose disk goes.
fn run_without_folder<I: Read + Drop, W: Write>(
    rt: HostRuntime,
    checkpoints: bool,
    input: I,
    writer: &mut W,
) -> Result<(), Exit>
    ensures { RunsInMemory checkpoints (I.remaining input) (W.contents writer.old) (W.contents writer.new) (ending_in result) }
{
    let (_, done) = run_in_memory(rt, checkpoints, input, writer);
    done
}

/// Answers the control lines of an input, over the archive of a folder. Before that is opened it is reported on standard error if
/// its catalogue may hide entries.
fn run<I: Read + Drop, W: Write>(
    rt: HostRuntime,
    folder: Path<'_>,
    checkpoints: bool,
    wait: Option<u32>,
    input: I,
    writer: &mut W,
) -> Result<Left, Outcome>
    ghost given: { Given }
    ensures { RunsFolder checkpoints given (I.remaining input) (W.contents writer.old) (W.contents writer.new) (leaves result) (ends_with result) }
{
    let screen = Screen::new(&rt);
    let faults = FaultReporter::new(rt.alloc(), &screen, Stage::Opening);
    let viewer = (faults, opening_of(&rt, &screen));
    let disk = Watched::new(disk_within(rt, folder, wait)?, viewer);
    let _ = warns_of_hidden(rt, folder, &screen);
    let (disk, done) = run_over(
        rt.alloc(),
        checkpoints,
        input,
        writer,
        disk,
        &mut ScriptReporter::new(rt.alloc(), &screen),
    );
    Outcome::leaving(done, closed(disk))
}

/// Answers the control lines of an input, over the archive of a disk, which comes back.
fn run_over<I: Read + Drop, W: Write, D: Disk, O: Observer>(
    alloc: Global,
    checkpoints: bool,
    input: I,
    writer: &mut W,
    disk: D,
    observer: &mut O,
) -> (D, Result<(), Exit>)
    ensures { RunsOver checkpoints (D.life disk) (I.remaining input) (W.contents writer.old) (W.contents writer.new) (D.life result.0) (ending_in result.1) }
{
    match script_of(alloc, checkpoints, input, writer, disk, observer) {
        Ok(disk) => (disk, Ok(())),
        Err(fault) => {
            let (disk, exit) = Exit::cut_off(fault, Why::Input);
            (disk, Err(exit))
        }
    }
}

/// Answers the control lines of an input, with checkpoints or without.
fn script_of<I: Read + Drop, W: Write, D: Disk, O: Observer>(
    alloc: Global,
    checkpoints: bool,
    input: I,
    writer: &mut W,
    disk: D,
    observer: &mut O,
) -> Result<D, ScriptFault<D>>
    ensures done { IfOk result (λ back.
        HasRun checkpoints (D.life disk) (I.remaining input) (W.contents writer.old) (W.contents writer.new) (D.life back)) }
    ensures early { IfErr result (λ fault.
        HasRunFirst checkpoints (D.life disk) (I.remaining input) (W.contents writer.old) (W.contents writer.new)
        (D.life (disk_of fault)) (early_end_of fault)) }
{
    if checkpoints {
        run_checkpointed_script(alloc, input, writer, disk, observer)
    } else {
        run_script(alloc, input, writer, disk, observer)
    }
}

/// Writes the catalogue of the archive in a folder anew.
fn compact<W: Write>(
    rt: HostRuntime,
    folder: Path<'_>,
    wait: Option<u32>,
    writer: &mut W,
) -> Result<Left, Outcome>
    ghost given: { Given }
    ensures { CompactsFolder given (W.contents writer.old) (W.contents writer.new) (leaves result) (ends_with result) }
{
    let screen = Screen::new(&rt);
    let disk = watched_disk(&rt, folder, wait, &screen)?;
    match compact_archive(rt.alloc(), disk, writer, &mut OpeningReporter::new(&screen)) {
        Ok(compacted) => Ok(closed(compacted)),
        Err(fault) => Err(uncompacted(fault)),
    }
}

/// Why the archive of a watched disk was not compacted, or why that was not printed. The disk is closed.
fn uncompacted<V: Drop>(fault: CommandFault<Watched<HostDisk, V>>) -> Outcome
    ensures ending { result.exit.ending ≡ ending_of fault.why }
    ensures left { left_life result.left ≡ Some (host_life fault.disk.disk) }
{
    if fault.why != Stop::Refused(Refusal::NotCatalogue) {
        return stopped(fault);
    }
    Outcome {
        exit: Exit {
            ending: Ending::Refused(Refusal::NotCatalogue),
            why: Why::NoSpare,
        },
        left: closed(fault.disk),
        looked: None,
    }
}

/// Writes the recordings of the archive in a folder, which is opened, or only looked at.
fn list<W: Write>(
    rt: HostRuntime,
    folder: Path<'_>,
    read_only: bool,
    wait: Option<u32>,
    writer: &mut W,
) -> Result<Left, Outcome>
    ghost given: { Given }
    ensures opened { read_only ≡ false →
        ListsFolder given (W.contents writer.old) (W.contents writer.new) (leaves result) (ends_with result) }
    ensures seen { read_only ≡ true →
        ListsAsItStands given (W.contents writer.old) (W.contents writer.new) (leaves result) (ends_with result) }
{
    if read_only {
        list_read_only(rt, folder, writer)
    } else {
        list_opened(rt, folder, wait, writer)
    }
}

/// Writes the recordings of the archive in a folder.
fn list_opened<W: Write>(
    rt: HostRuntime,
    folder: Path<'_>,
    wait: Option<u32>,
    writer: &mut W,
) -> Result<Left, Outcome>
    ghost given: { Given }
    ensures { ListsFolder given (W.contents writer.old) (W.contents writer.new) (leaves result) (ends_with result) }
{
    let screen = Screen::new(&rt);
    let disk = watched_disk(&rt, folder, wait, &screen)?;
    match list_archive(rt.alloc(), disk, writer, &mut OpeningReporter::new(&screen)) {
        Ok(disk) => Ok(closed(disk)),
        Err(fault) => Err(stopped(fault)),
    }
}

/// Writes the frames of a segment file.
fn frames<W: Write>(rt: HostRuntime, file: &str, writer: &mut W) -> Result<(), Exit>
    ensures { ListsFile (W.contents writer.old) (W.contents writer.new) (ending_in result) }
{
    match File::open(&rt, file) {
        Ok(reader) => frames_of(rt.alloc(), reader, writer),
        Err(error) => Err(Exit {
            ending: Ending::Refused(Refusal::DeviceFault),
            why: Why::File(error),
        }),
    }
}

/// Writes the frames that a reader of a segment file gives.
fn frames_of<F: Read + Drop, W: Write>(alloc: Global, reader: F, writer: &mut W) -> Result<(), Exit>
    ensures { ListsFrames (F.remaining reader) (W.contents writer.old) (W.contents writer.new) (ending_in result) }
{
    match list_frames(alloc, reader, writer) {
        Ok(Listing::Whole) => Ok(()),
        Ok(Listing::Damaged) => Err(Exit::reported(Ending::FoundDamage)),
        Err(end) => Err(Exit::cut(end, Why::FileRead)),
    }
}

/// The disk of a folder, whose opening is shown where it lasts. It is reported on standard error if its catalogue may hide entries.
fn watched_disk<'a>(
    rt: &'a HostRuntime,
    folder: Path<'_>,
    wait: Option<u32>,
    screen: &'a Screen<'a, HostRuntime>,
) -> Result<Watched<HostDisk, Option<OpeningProgress<'a, HostRuntime>>>, Exit>
    ghost given: { Given }
    ensures begun { IfOk result (λ watched. host_life watched.disk ≡ life_from given) }
    ensures unopened { IfErr result (λ exit. IsUnopenedFolder exit.ending) }
{
    let disk = Watched::new(disk_within(*rt, folder, wait)?, opening_of(rt, screen));
    let _ = warns_of_hidden(*rt, folder, screen);
    Ok(disk)
}

/// The disk of a folder, which no other process has. It begins with the files that the folder holds.
fn disk_of(rt: HostRuntime, folder: Path<'_>) -> Result<HostDisk, Exit>
    ghost given: { Given }
    ensures begun { IfOk result (λ disk. host_life disk ≡ life_from given) }
    ensures unopened { IfErr result (λ exit. IsUnopenedFolder exit.ending) }
{
    Ok(HostDisk::open(rt, rt.alloc(), folder)?)
}

/// What shows an opening that lasts, where standard error is a terminal.
pub(crate) fn opening_of<'a>(
    rt: &'a HostRuntime,
    screen: &'a Screen<'a, HostRuntime>,
) -> Option<OpeningProgress<'a, HostRuntime>> {
    if rt.stderr().is_terminal() {
        Some(OpeningProgress::new(rt, screen))
    } else {
        None
    }
}
