//! What the words of a command line lead to, and how the program ends, beside their clauses: the texts, and where they are
//! told.

use clap::Error;
use clap::error::ErrorKind;
use command_line::{command_of, unreadable_words};
use folder_commands::{Ending, Exit, concluded, reported};
use std::alloc::{AllocError, Global};
use std::cell::Cell;
use std::fmt::Display;
use std::io::{self, Write};
use std::process::Abort;
use std::test::*;
use tool_core::EarlyEnd;

/// Adds the words of a line between blanks, or between bars where it has one.
fn put_words(alloc: Global, all: &mut Vec<String>, line: &str) -> Result<(), AllocError> {
    let mark = if line.contains('|') { '|' } else { ' ' };
    for word in line.split(mark) {
        all.push(String::from_str(alloc, word)?)?;
    }
    Ok(())
}

/// The words of a command line, the program's name before them.
fn words(alloc: Global, line: &str) -> Result<Vec<String>, AllocError> {
    let mut all = Vec::new(alloc);
    let named = put_words(alloc, &mut all, "archive_tool");
    let put = if line.is_empty() {
        Ok(())
    } else {
        put_words(alloc, &mut all, line)
    };
    named.and(put).and(Ok(all))
}

/// The same of a line in which `@` stands for the path of a folder.
pub(crate) fn words_in(alloc: Global, line: &str, folder: &str) -> Result<Vec<String>, AllocError> {
    let placed = line.replace(alloc, '@', folder)?;
    words(alloc, placed.as_str())
}

/// What the words ask for, as text; nothing if they ask for no command.
fn text_of(alloc: Global, words: &[String]) -> Result<String, AllocError> {
    match command_of(alloc, words) {
        Ok(command) => format!(in alloc; "{command:?}"),
        Err(_) => Ok(String::new(alloc)),
    }
}

/// Whether a command line asks for this, the program's name left out.
pub(crate) fn asks_for(alloc: Global, line: &str, command: &str) -> Result<bool, AllocError> {
    let words = words(alloc, line)?;
    let text = text_of(alloc, words.as_slice());
    drop(words);
    Ok(text?.as_str() == command)
}

/// Each line of a text has the words of a command line, and behind a colon what they ask for.
pub(crate) fn ask_for_each(rt: &impl Abort, alloc: Global, rows: &str) -> Result<(), Fail> {
    for row in rows.lines() {
        let (line, command) = row.split_once(": ").unwrap_or((row, ""));
        assert!(rt; asks_for(alloc, line, command)?, "{row}");
    }
    Ok(())
}

/// Why the words of a line ask for no command.
fn refused(alloc: Global, line: &str) -> Result<Option<Error>, AllocError> {
    let words = words(alloc, line)?;
    Ok(command_of(alloc, words.as_slice()).err())
}

// Counts what is told on standard error, and whether it was the text that is awaited.
#[derive(Drop)]
pub(crate) struct Streams<'a> {
    alloc: Global,
    awaited: &'a str,
    errors: Cell<u32>,
    pub(crate) awaited_came: Cell<bool>,
}

impl Streams<'_> {
    pub(crate) fn new(alloc: Global, awaited: &str) -> Streams<'_> {
        Streams {
            alloc,
            awaited,
            errors: Cell::new(0),
            awaited_came: Cell::new(false),
        }
    }
}

impl Eprint for Streams<'_> {
    fn eprint<D: Display + Drop>(&self, value: D) -> io::Result<()> {
        if let Ok(text) = value.to_string(self.alloc) {
            self.awaited_came.set(text.as_str() == self.awaited);
        }
        self.errors.set(self.errors.get().wrapping_add(1));
        Ok(())
    }

    fn eprintln<D: Display + Drop>(&self, value: D) -> io::Result<()> {
        self.eprint(value)
    }
}

/// Takes nothing.
#[derive(Drop)]
pub(crate) struct Full;

impl Write for Full {
    fn write(&mut self, _buf: &[u8]) -> io::Result<usize> {
        Err(io::Error::from(io::ErrorKind::Other))
    }

    fn flush(&mut self) -> io::Result<()> {
        Ok(())
    }
}

/// Whether an error's text is told once, on its stream, and ends the program so; and how it ends where the text cannot be told.
fn is_told(alloc: Global, kind: ErrorKind, text: &str, status: u8) -> bool {
    let (mut output, mut errors) = (Vec::new(alloc), Vec::new(alloc));
    let ended = reported(kind, text, &mut output, &mut errors);
    let (used, other) = if status == 0 {
        (output.as_slice(), errors.as_slice())
    } else {
        (errors.as_slice(), output.as_slice())
    };
    used == text.as_bytes()
        && other.is_empty()
        && ended.status() == status
        && reported(kind, text, &mut Full, &mut Full).status() == 3
}

/// The error is of that kind, begins so, is told once, on that stream, and ends the program so; and where it cannot be told.
fn check_told(
    alloc: Global,
    error: &Error,
    kind: ErrorKind,
    text: &str,
    status: u8,
) -> Result<(), Fail> {
    let whole = error.to_string(alloc)?;
    let is_right = error.kind() == kind
        && whole.as_str().starts_with(text)
        && is_told(alloc, kind, whole.as_str(), status);
    drop(whole);
    if is_right {
        Ok(())
    } else {
        Err(Fail::new(text))
    }
}

/// The line asks for no command: the error is of that kind and begins so, and the program ends with that status.
pub(crate) fn check_refused(
    alloc: Global,
    line: &str,
    kind: ErrorKind,
    text: &str,
    status: u8,
) -> Result<(), Fail> {
    match refused(alloc, line)? {
        Some(error) => check_told(alloc, &error, kind, text, status),
        None => Err(Fail::new(line)),
    }
}

/// `--help`, of the program and of each command, and `--version` are printed on standard output, with status 0.
#[test]
fn help(rt: HostRuntime) -> Result<(), Fail> {
    for (line, kind, text) in [
        (
            "--help",
            ErrorKind::DisplayHelp,
            "Records Aeron streams and replays them. An archive lies in a folder,",
        ),
        (
            "create --help",
            ErrorKind::DisplayHelp,
            "Makes an archive without recordings in a folder, and prints `created`.",
        ),
        (
            "run --help",
            ErrorKind::DisplayHelp,
            "Reads control lines from standard input, one a line,",
        ),
        (
            "serve --help",
            ErrorKind::DisplayHelp,
            "Records the datagrams of Aeron publications that come by UDP",
        ),
        (
            "compact --help",
            ErrorKind::DisplayHelp,
            "Makes room in the history of the archive in a folder, and prints `compacted`",
        ),
        (
            "list --help",
            ErrorKind::DisplayHelp,
            "Prints a line `recording ..` for each recording",
        ),
        (
            "verify --help",
            ErrorKind::DisplayHelp,
            "Reads each recorded frame of the archive in a folder,",
        ),
        (
            "frames --help",
            ErrorKind::DisplayHelp,
            "Prints a line `frame <term id> <term offset> <type> <length> <flags>` for each frame",
        ),
        (
            "describe --help",
            ErrorKind::DisplayHelp,
            "Prints what is known of the archive in a folder:",
        ),
        (
            "export --help",
            ErrorKind::DisplayHelp,
            "Writes the recorded frames of a recording of the archive in a folder",
        ),
        (
            "ask --help",
            ErrorKind::DisplayHelp,
            "Sends control lines to a server on this machine (`serve`), and prints what it answers,",
        ),
        (
            "when --help",
            ErrorKind::DisplayHelp,
            "Prints where a recording stood at a time, by a folder of times that `serve --times`",
        ),
        (
            "--version",
            ErrorKind::DisplayVersion,
            "archive_tool 0.2.0 (catalogue 2, rattle-kit-",
        ),
    ] {
        check_refused(rt.alloc(), line, kind, text, 0)?;
    }
    Ok(())
}

/// Words without a command, of an unknown one, too many of them, or not UTF-8 are a usage error on standard error, with status 2.
#[test]
fn words_that_ask_for_no_command(rt: HostRuntime) -> Result<(), Fail> {
    for (line, kind, text) in [
        (
            "",
            ErrorKind::DisplayHelpOnMissingArgumentOrSubcommand,
            "Records Aeron streams and replays them\n\nUsage: archive_tool <COMMAND>\n",
        ),
        (
            "walk",
            ErrorKind::InvalidSubcommand,
            "error: unrecognized subcommand 'walk'\n",
        ),
        (
            "run a fast",
            ErrorKind::UnknownArgument,
            "error: unexpected argument 'fast' found\n",
        ),
        (
            "create a b",
            ErrorKind::UnknownArgument,
            "error: unexpected argument 'b' found\n",
        ),
        (
            "list a --history 7",
            ErrorKind::UnknownArgument,
            "error: unexpected argument '--history' found\n",
        ),
    ] {
        check_refused(rt.alloc(), line, kind, text, 2)?;
    }
    let error = unreadable_words(rt.alloc());
    let text = "error: a word of the command line is not UTF-8\n";
    check_told(rt.alloc(), &error, ErrorKind::InvalidValue, text, 2)
}

/// The words of a line are a usage error that names a missing word.
pub(crate) fn check_missing(alloc: Global, line: &str, word: &str) -> Result<(), Fail> {
    let text = format!(in alloc;
        "error: the following required arguments were not provided:\n  {word}\n"
    )?;
    let kind = ErrorKind::MissingRequiredArgument;
    check_refused(alloc, line, kind, text.as_str(), 2)
}

/// The words of a line are a usage error, since this value is not one of its option.
pub(crate) fn check_value(alloc: Global, line: &str, value: &str) -> Result<(), Fail> {
    let text = format!(in alloc; "error: invalid value {value}: ")?;
    check_refused(alloc, line, ErrorKind::ValueValidation, text.as_str(), 2)
}

/// A command without its folder or file is a usage error that names it.
#[test]
fn a_missing_folder_or_file(rt: HostRuntime) -> Result<(), Fail> {
    for (line, word) in [
        ("create", "<folder>"),
        ("create --history 7", "<folder>"),
        ("compact", "<folder>"),
        ("list", "<folder>"),
        ("verify", "<folder>"),
        ("frames", "<file>"),
        ("describe", "<folder>"),
        ("export a 0", "--pcap <file>"),
        ("when a 0", "<time>"),
    ] {
        check_missing(rt.alloc(), line, word)?;
    }
    Ok(())
}

/// A `--history` that is not a number of 32 bits, has no value or comes twice is a usage error.
#[test]
fn a_history_that_is_no_number(rt: HostRuntime) -> Result<(), Fail> {
    for (line, kind, text) in [
        (
            "create a --history x",
            ErrorKind::ValueValidation,
            "error: invalid value 'x' for '--history <entries>': ",
        ),
        (
            "create a --history 4294967296",
            ErrorKind::ValueValidation,
            "error: invalid value '4294967296' for '--history <entries>': ",
        ),
        (
            "create a --history=-1",
            ErrorKind::ValueValidation,
            "error: invalid value '-1' for '--history <entries>': ",
        ),
        (
            "create a --history",
            ErrorKind::InvalidValue,
            "error: a value is required for '--history <entries>' but none was supplied\n",
        ),
        (
            "create a --history 7 --history 8",
            ErrorKind::ArgumentConflict,
            "error: the argument '--history <entries>' cannot be used multiple times\n",
        ),
    ] {
        check_refused(rt.alloc(), line, kind, text, 2)?;
    }
    Ok(())
}

const COMMANDS: &str = "\
run: Run { folder: None, checkpoints: false, wait: None }
run a: Run { folder: Some(\"a\"), checkpoints: false, wait: None }
run --checkpoints: Run { folder: None, checkpoints: true, wait: None }
run a --checkpoints: Run { folder: Some(\"a\"), checkpoints: true, wait: None }
compact a: Compact { folder: \"a\", wait: None }
list a: List { folder: \"a\", read_only: false, wait: None }
verify a/b: Verify { folder: \"a/b\", recording: None, read_only: false, wait: None }
list a --read-only: List { folder: \"a\", read_only: true, wait: None }
verify --read-only a: Verify { folder: \"a\", recording: None, read_only: true, wait: None }
describe a: Describe { folder: \"a\", recording: None, json: false }
describe a --json: Describe { folder: \"a\", recording: None, json: true }
export a 3 --pcap b: Export { folder: \"a\", recording: 3, from: None, to: None, pcap: \"b\" }
export a 0 --from 64 --to 128 --pcap b: Export { folder: \"a\", recording: 0, from: Some(64), to: Some(128), pcap: \"b\" }
frames a/0-0.rec: Frames { file: \"a/0-0.rec\" }
when a 3 2025-11-29T08:41:36.123Z: When { folder: \"a\", recording: 3, time: \"2025-11-29T08:41:36.123Z\" }
list -- -a: List { folder: \"-a\", read_only: false, wait: None }
list list: List { folder: \"list\", read_only: false, wait: None }
";

/// Each command takes its folder or file, its ids and its flags. Words after `--` are folders, whatever they begin with.
#[test]
fn each_command_has_its_words(rt: HostRuntime) -> Result<(), Fail> {
    ask_for_each(&rt, rt.alloc(), COMMANDS)
}

const OF_ONE: &str = "\
verify a 0: Verify { folder: \"a\", recording: Some(0), read_only: false, wait: None }
verify a 9223372036854775807 --read-only: Verify { folder: \"a\", recording: Some(9223372036854775807), read_only: true, wait: None }
describe --json a 7: Describe { folder: \"a\", recording: Some(7), json: true }
";

/// `verify` and `describe` take the id of one recording.
#[test]
fn commands_of_one_recording(rt: HostRuntime) -> Result<(), Fail> {
    ask_for_each(&rt, rt.alloc(), OF_ONE)
}

const WAITING: &str = "\
compact --wait 30 a: Compact { folder: \"a\", wait: Some(30) }
list a --wait 1: List { folder: \"a\", read_only: false, wait: Some(1) }
verify a --wait=86400: Verify { folder: \"a\", recording: None, read_only: false, wait: Some(86400) }
run a --wait 2: Run { folder: Some(\"a\"), checkpoints: false, wait: Some(2) }
";

/// Commands that open a folder take for how many seconds they wait for it.
#[test]
fn commands_that_wait(rt: HostRuntime) -> Result<(), Fail> {
    ask_for_each(&rt, rt.alloc(), WAITING)
}

/// An id or a wait that is out of its range, or given to a command that takes none, is a usage error.
#[test]
fn a_wrong_recording_or_wait(rt: HostRuntime) -> Result<(), Fail> {
    let value = ErrorKind::ValueValidation;
    for (line, kind, text) in [
        (
            "verify a x",
            value,
            "error: invalid value 'x' for '[recording]': ",
        ),
        (
            "describe a 9223372036854775808",
            value,
            "error: invalid value '9223372036854775808' for '[recording]': ",
        ),
        (
            "list a --wait 0",
            value,
            "error: invalid value '0' for '--wait <seconds>': ",
        ),
        (
            "compact a --wait 86401",
            value,
            "error: invalid value '86401' for '--wait <seconds>': ",
        ),
        (
            "list a 0",
            ErrorKind::UnknownArgument,
            "error: unexpected argument '0' found\n",
        ),
        (
            "describe a --wait 1",
            ErrorKind::UnknownArgument,
            "error: unexpected argument '--wait' found\n",
        ),
    ] {
        check_refused(rt.alloc(), line, kind, text, 2)?;
    }
    Ok(())
}

const HISTORIES: &str = "\
create /var/lib/recorder: Create { folder: \"/var/lib/recorder\", history: 1048576 }
create a --history 7: Create { folder: \"a\", history: 7 }
create --history=7 a: Create { folder: \"a\", history: 7 }
create a --history 0: Create { folder: \"a\", history: 0 }
create a --history 4294967295: Create { folder: \"a\", history: 4294967295 }
";

/// `create` takes the limit of its history, 1,048,576 without a word. Numbers that no archive has are refused by `create`, not by
/// the command line.
#[test]
fn a_new_archive_has_its_history(rt: HostRuntime) -> Result<(), Fail> {
    ask_for_each(&rt, rt.alloc(), HISTORIES)
}

/// An end by a failed stream or want of memory prints its refusal and has its status. A command that is done prints nothing.
#[test]
fn a_fault_is_told_by_its_line(rt: HostRuntime) {
    for (ending, line, status) in [
        (Ending::Done, "", 0),
        (Ending::Cut(EarlyEnd::Read), "error 17 DeviceFault\n", 3),
        (Ending::Cut(EarlyEnd::Write), "error 17 DeviceFault\n", 3),
        (Ending::Cut(EarlyEnd::Memory), "error 18 NoMemory\n", 1),
        (
            Ending::Failed(io::ErrorKind::OutOfMemory),
            "error 18 NoMemory\n",
            1,
        ),
        (
            Ending::Failed(io::ErrorKind::Other),
            "error 17 DeviceFault\n",
            3,
        ),
    ] {
        let streams = Streams::new(rt.alloc(), line);
        assert!(rt;
            concluded(&streams, Exit::reported(ending)) == status,
            "{line} {status}"
        );
        assert!(rt;
            streams.awaited_came.get() == (status > 0),
            "{line} {status}"
        );
    }
}
