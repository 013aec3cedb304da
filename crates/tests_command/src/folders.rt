//! The commands over a real folder, and how they end: docs/CONTROL.md, "The program". Each test has a folder of its own
//! under the system's folder for temporary files.

use crate::words::{Full, Streams, words_in};
use command_line::{ToolCommand, command_of};
use disk_core::{Disk, FileId};
use folder_commands::{Exit, Outlet, concluded, obeyed};
use host_disk::HostDisk;
use std::alloc::AllocError;
use std::io::{self, Eprint, Read, Write};
use std::net::{Net, TcpListener, TcpStream};
use std::path::Path;
use std::rt::Clock;
use std::sync::Wait;
use std::test::*;
use std::thread::Threads;
use std::{env, fs};
use tool_core::{Unobserved, run_script};

const SCRIPT: &str = "start 1001 7 42 65536 1408 131072 0 1000 c\n\
    block 0 2500000000c001000000000007000000e90300002a000000000000000000000068656c6c6f\n";

/// Standard input, which no command reads.
pub(crate) const NO_LINES: &[u8] = &[];

const SEGMENT: FileId = FileId::Segment {
    recording: 0,
    base: 0,
};

/// The path of a folder that is not there.
pub(crate) fn unused(rt: HostRuntime, test: &str) -> Result<String, Fail> {
    let path = format!(in rt.alloc(); "{}/archive_tool-{test}", env::temp_dir(&rt)?.display())?;
    let emptied = emptied(rt, path.as_str());
    match emptied {
        Ok(()) => Ok(path),
        Err(error) => Err(Fail::from(error)),
    }
}

/// Removes a folder, if it is there.
pub(crate) fn emptied(rt: HostRuntime, path: &str) -> io::Result<()> {
    if fs::exists(&rt, path)? {
        fs::remove_dir_all(&rt, path)?;
    }
    Ok(())
}

/// How a command ends that reads and writes there.
pub(crate) fn ended<
    R: Threads + Wait + Clock + Eprint + Net<Listener = TcpListener, Stream = TcpStream> + Sync,
    I: Read + Drop,
    W: Write,
>(net: &R, rt: HostRuntime, command: ToolCommand<'_>, input: I, writer: &mut W) -> Exit {
    obeyed(net, rt, &command, input, writer).exit
}

/// How the command of a line ends, which writes there: its status, and whether standard error got these words alone. None if the
/// line asks for no command.
pub(crate) fn ends<
    R: Threads + Wait + Clock + Eprint + Net<Listener = TcpListener, Stream = TcpStream> + Sync,
    W: Write,
>(net: &R, rt: HostRuntime, words: &[String], writer: &mut W, error: &str) -> Option<(u8, bool)> {
    let ended = match command_of(rt.alloc(), words) {
        Ok(command) => ended(net, rt, command, NO_LINES, writer),
        Err(_) => return None,
    };
    let streams = Streams::new(rt.alloc(), error);
    let status = concluded(&streams, ended);
    Some((status, streams.awaited_came.get()))
}

/// What a command has to come to: its status, what it writes, and what standard error gets, if that is asked.
#[derive(Clone, Copy)]
struct Outcome<'a> {
    status: u8,
    told: &'a str,
    error: &'a str,
}

/// The words of a line, and behind an arrow what they come to: the status, what is written, and behind a `!` what standard error
/// gets. `;` stands for the end of a line.
fn parts_of(line: &str) -> (&str, Outcome<'_>) {
    let (words, rest) = line.split_once(" => ").unwrap_or((line, "0"));
    let (rest, error) = rest.split_once(" ! ").unwrap_or((rest, ""));
    let (status, told) = rest.split_once(' ').unwrap_or((rest, ""));
    let status = status.parse::<u8>().unwrap_or(u8::MAX);
    (
        words,
        Outcome {
            status,
            told,
            error,
        },
    )
}

/// Whether the words of a command line come to that.
fn is_met<
    R: Threads + Wait + Clock + Eprint + Net<Listener = TcpListener, Stream = TcpStream> + Sync,
>(net: &R, rt: HostRuntime, words: &[String], outcome: Outcome<'_>) -> Result<bool, AllocError> {
    let told = outcome.told.replace(rt.alloc(), ';', "\n")?;
    let error = outcome.error.replace(rt.alloc(), ';', "\n")?;
    let mut out = Vec::new(rt.alloc());
    Ok(match ends(net, rt, words, &mut out, error.as_str()) {
        Some((status, came)) => {
            status == outcome.status
                && out.as_slice() == told.as_bytes()
                && (came || error.is_empty())
        }
        None => false,
    })
}

/// The command of a line has to come to what stands behind it; where `@` stands, the path of a folder comes.
pub(crate) fn check<
    R: Threads + Wait + Clock + Eprint + Net<Listener = TcpListener, Stream = TcpStream> + Sync,
>(net: &R, rt: HostRuntime, folder: &str, line: &str) -> Result<(), Fail> {
    let (said, outcome) = parts_of(line);
    let words = words_in(rt.alloc(), said, folder)?;
    let is_met = is_met(net, rt, words.as_slice(), outcome);
    drop(words);
    if is_met? {
        Ok(())
    } else {
        Err(Fail::new(line))
    }
}

pub(crate) fn disk_of(rt: HostRuntime, folder: &str) -> Result<HostDisk, Fail> {
    match HostDisk::open(rt, rt.alloc(), Path::new(folder)) {
        Ok(disk) => Ok(disk),
        Err(_) => Err(Fail::new(folder)),
    }
}

/// Records a frame in the archive of a folder, in its first recording.
pub(crate) fn record(rt: HostRuntime, folder: &str) -> Result<(), Fail> {
    script(rt, folder, b"started 0 0\nsettled 64\n")
}

/// The same in its second recording.
pub(crate) fn record_more(rt: HostRuntime, folder: &str) -> Result<(), Fail> {
    script(rt, folder, b"started 1 0\nsettled 64\n")
}

/// Records a frame in the archive of a folder, where it is answered so.
fn script(rt: HostRuntime, folder: &str, told: &[u8]) -> Result<(), Fail> {
    let mut out = Vec::new(rt.alloc());
    let outcome = run_script(
        rt.alloc(),
        SCRIPT.as_bytes(),
        &mut out,
        disk_of(rt, folder)?,
        &mut Unobserved,
    );
    if outcome.is_ok() && out.as_slice() == told {
        Ok(())
    } else {
        Err(Fail::new(folder))
    }
}

/// Damages the first frame of the first recording.
fn damage(rt: HostRuntime, folder: &str) -> Result<(), Fail> {
    let mut disk = disk_of(rt, folder)?;
    disk.write_at(SEGMENT, 0, &[1])?;
    disk.sync(SEGMENT)?;
    Ok(())
}

/// Cuts the catalogue of an archive to a length.
fn cut_catalogue(rt: HostRuntime, folder: &str, length: u64) -> Result<(), Fail> {
    let mut disk = disk_of(rt, folder)?;
    disk.cut(FileId::BankA, length)?;
    Ok(())
}

/// Closes the gate of the Settle behind the first recording's Start in the catalogue of a folder.
fn close_gate(rt: HostRuntime, folder: &str) -> Result<(), Fail> {
    let mut disk = disk_of(rt, folder)?;
    disk.write_at(FileId::BankA, 89, &[0])?;
    Ok(())
}

/// Removes a file of a folder.
fn remove(rt: HostRuntime, folder: &str, name: &str) -> Result<(), Fail> {
    let file = format!(in rt.alloc(); "{folder}/{name}")?;
    fs::remove_file(&rt, file.as_str())?;
    Ok(())
}

/// Makes a folder in a folder.
fn make(rt: HostRuntime, folder: &str, name: &str) -> Result<(), Fail> {
    let path = format!(in rt.alloc(); "{folder}/{name}")?;
    fs::create_dir(&rt, path.as_str())?;
    Ok(())
}

/// The folder has to hold no files.
fn is_empty(rt: HostRuntime, folder: &str) -> Result<(), Fail> {
    let mut disk = disk_of(rt, folder)?;
    match disk.list()?.as_slice() {
        [] => Ok(()),
        _ => Err(Fail::new(folder)),
    }
}

/// The same as `check` while another opening has the folder.
fn check_held<
    R: Threads + Wait + Clock + Eprint + Net<Listener = TcpListener, Stream = TcpStream> + Sync,
>(net: &R, rt: HostRuntime, folder: &str, line: &str) -> Result<(), Fail> {
    let held = disk_of(rt, folder)?;
    let checked = check(net, rt, folder, line);
    drop(held);
    checked
}

/// Obeys a line: `record` and `record-more` record a frame, `damage` damages the first one, `cut` cuts the catalogue, `close-gate`
/// closes an entry's gate, `remove` removes a file, `empty` asks for no files, and `mkdir` makes a folder in it. A line behind `held` is
/// checked while another opening has the folder, each other one without.
fn obeys<
    R: Threads + Wait + Clock + Eprint + Net<Listener = TcpListener, Stream = TcpStream> + Sync,
>(net: &R, rt: HostRuntime, folder: &str, line: &str) -> Result<(), Fail> {
    let (word, rest) = line.split_once(' ').unwrap_or((line, ""));
    match word {
        "record" => record(rt, folder),
        "record-more" => record_more(rt, folder),
        "damage" => damage(rt, folder),
        "cut" => cut_catalogue(rt, folder, rest.parse::<u64>().unwrap_or(0)),
        "close-gate" => close_gate(rt, folder),
        "remove" => remove(rt, folder, rest),
        "empty" => is_empty(rt, folder),
        "mkdir" => make(rt, folder, rest),
        "held" => check_held(net, rt, folder, rest),
        _ => check(net, rt, folder, line),
    }
}

/// Obeys each line of a script in a folder.
pub(crate) fn obeys_each<
    R: Threads + Wait + Clock + Eprint + Net<Listener = TcpListener, Stream = TcpStream> + Sync,
>(net: &R, rt: HostRuntime, folder: &str, script: &str) -> Result<(), Fail> {
    for line in script.lines() {
        obeys(net, rt, folder, line)?;
    }
    Ok(())
}

/// The same in a folder of its own, which is not there before and after.
pub(crate) fn plays<
    R: Threads + Wait + Clock + Eprint + Net<Listener = TcpListener, Stream = TcpStream> + Sync,
>(net: &R, rt: HostRuntime, test: &str, script: &str) -> Result<(), Fail> {
    let path = unused(rt, test)?;
    let obeyed = obeys_each(net, rt, path.as_str(), script);
    let emptied = emptied(rt, path.as_str());
    drop(path);
    obeyed?;
    Ok(emptied?)
}

const WHOLE: &str = "\
create @ --history 16 => 0 created;
create @ --history 16 => 1
list @ => 0 end 0;
verify @ => 0
record
list @ => 0 recording 0 1000 -1 0 64 42 131072 65536 1408 7 1001 c;end 1;
verify @ => 0 verified 1;
frames @/0-0.rec => 0 frame 42 0 1 37 c0;end 1;
";

/// What one command made and another recorded in a folder, later commands list, verify and print as frames.
#[test]
fn an_archive_outlives_its_process(rt: HostRuntime) -> Result<(), Fail> {
    plays(&rt, rt, "whole", WHOLE)
}

const LOOKED_AT: &str = "\
create @ --history 16 => 0 created;
record
held list @ --read-only => 0 recording 0 1000 -1 0 -1 42 131072 65536 1408 7 1001 c;end 1;
held verify @ --read-only => 0 verified 1;
held list @ --read-only => 0 recording 0 1000 -1 0 -1 42 131072 65536 1408 7 1001 c;end 1;
held list @ => 3
";

/// `list` and `verify` with `--read-only` leave a recording active. They work while another opening has the folder, and `list`
/// does not.
#[test]
fn looking_stops_no_recording(rt: HostRuntime) -> Result<(), Fail> {
    plays(&rt, rt, "looked-at", LOOKED_AT)
}

const FULL: &str = "\
compact @ => 3
create @ --history 2 => 0 created;
record
compact @ => 0 compacted;
record-more
verify @ => 0 verified 1;verified 1;
held compact @ => 3
remove catalogue-a.bank
compact @ => 1
";

/// After `compact` a full history has room. It is refused if the folder is missing, in use, or without a bank A.
#[test]
fn a_full_history_is_compacted(rt: HostRuntime) -> Result<(), Fail> {
    plays(&rt, rt, "full", FULL)
}

/// A file has to have so many bytes; none if it is not to be there.
fn has_length(rt: HostRuntime, file: &str, length: Option<u64>) -> Result<(), Fail> {
    let found = if fs::exists(&rt, file)? {
        Some(fs::metadata(&rt, file)?.len())
    } else {
        None
    };
    if found == length {
        Ok(())
    } else {
        Err(Fail::new(file))
    }
}

/// The same of a file of a folder.
fn has_file(rt: HostRuntime, folder: &str, name: &str, length: Option<u64>) -> Result<(), Fail> {
    let file = format!(in rt.alloc(); "{folder}/{name}")?;
    has_length(rt, file.as_str(), length)
}

const UNEXPORTED: &str = "\
create @ --history 16 => 0 created;
record
export @ 1 --pcap @/../frames.pcap => 1
export @ 0 --pcap @/0-0.rec => 1
";

/// An archive of a frame is exported into its own folder, and to a file beside that, which is there then.
fn exports<
    R: Threads + Wait + Clock + Eprint + Net<Listener = TcpListener, Stream = TcpStream> + Sync,
>(net: &R, rt: HostRuntime, folder: &str) -> Result<(), Fail> {
    obeys_each(net, rt, folder, UNEXPORTED)?;
    has_file(rt, folder, "0-0.rec", Some(64))?;
    has_file(rt, folder, "../frames.pcap", None)?;
    check(
        net,
        rt,
        folder,
        "export @ 0 --pcap @/../frames.pcap => 0 exported;",
    )?;
    has_file(rt, folder, "0-0.rec", Some(64))?;
    has_file(rt, folder, "../frames.pcap", Some(132))?;
    has_file(rt, folder, "../frames.pcap.part", None)
}

/// Makes a folder, and exports an archive in it.
fn exports_in<
    R: Threads + Wait + Clock + Eprint + Net<Listener = TcpListener, Stream = TcpStream> + Sync,
>(net: &R, rt: HostRuntime, outer: &str) -> Result<(), Fail> {
    fs::create_dir(&rt, outer)?;
    let folder = format!(in rt.alloc(); "{outer}/a")?;
    exports(net, rt, folder.as_str())
}

/// An export of a missing recording, or into the archive's folder, leaves no file. That of one frame has 132 bytes: headers of
/// 24, 16 and 28, and the frame's 64.
#[test]
fn a_refused_export_leaves_no_file(rt: HostRuntime) -> Result<(), Fail> {
    let path = unused(rt, "exported")?;
    let exported = exports_in(&rt, rt, path.as_str());
    let emptied = emptied(rt, path.as_str());
    drop(path);
    exported?;
    Ok(emptied?)
}

const DAMAGED: &str = "\
create @ --history 16 => 0 created;
record
damage
verify @ => 3 error 15 Damaged 0 0;
frames @/0-0.rec => 3 error 21 BadFrame 0;
cut 40
list @ => 3
cut 31
list @ => 1
";

/// `verify` and `frames` report a damaged frame by a line and status 3. `list` has status 3 over a damaged catalogue, and 1 over
/// one that is cut too short.
#[test]
fn damage_in_a_folder_is_told(rt: HostRuntime) -> Result<(), Fail> {
    plays(&rt, rt, "damaged", DAMAGED)
}

const EMPTY: &str = "\
list @ => 3
frames @/0-0.rec => 3
create @ --history 0 => 1
list @ => 1
verify @ => 1
held list @ => 3
";

/// Commands over a missing folder or one in use end with status 3, and over a folder without an archive with status 1.
#[test]
fn folders_that_hold_no_archive(rt: HostRuntime) -> Result<(), Fail> {
    plays(&rt, rt, "empty", EMPTY)
}

/// Takes what is written, and cannot hand it on.
#[derive(Drop)]
struct Holding;

impl Write for Holding {
    fn write(&mut self, buf: &[u8]) -> io::Result<usize> {
        Ok(buf.len())
    }

    fn flush(&mut self) -> io::Result<()> {
        Err(io::Error::from(io::ErrorKind::Other))
    }
}

/// The status with which `create` ends there.
fn status_held<
    R: Threads + Wait + Clock + Eprint + Net<Listener = TcpListener, Stream = TcpStream> + Sync,
>(net: &R, rt: HostRuntime, folder: &str) -> u8 {
    let history = 16;
    let command = ToolCommand::Create { folder, history };
    ended(net, rt, command, NO_LINES, &mut Holding).status()
}

/// A command whose output is taken and can't be flushed ends with status 3.
#[test]
fn what_is_not_handed_on_is_told(rt: HostRuntime) -> Result<(), Fail> {
    let path = unused(rt, "held")?;
    let status = status_held(&rt, rt, path.as_str());
    let emptied = emptied(rt, path.as_str());
    drop(path);
    assert!(rt; status == 3);
    Ok(emptied?)
}

/// An outlet keeps the error of a write and that of a flush, and has none while all is taken.
#[test]
fn an_outlet_keeps_its_error(rt: HostRuntime) {
    let mut full = Outlet::new(Full);
    assert!(rt; full.write(b"end 0\n").is_err() && full.fault().is_some());
    let mut holding = Outlet::new(Holding);
    assert!(rt; matches!(holding.write(b"end 0\n"), Ok(6)) && holding.fault().is_none());
    assert!(rt; holding.flush().is_err() && holding.fault().is_some());
}
