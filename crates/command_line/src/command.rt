//! The program's command line: docs/CONTROL.md, "The program".

ghost use Rattle.std.specs.Prelude.{◌≡◌, ◌≢◌, ◌∷◌, [], ℕ, List, Ok, IfOk, IfErr, MatchOption, codes, false, map, string_bytes};
ghost use Rattle.clap.specs.Words.{AddsSubcommand, app_of, fault_of, found_of, kind_of, rows_of, rule_of, subcommand_rows_of};
ghost use Rattle.command_line.specs.CommandLine.{IsAsked, IsCommand, IsHeld, IsMet, IsPlain, IsWordsFault, compact_app, create_app, describe_app, export_app, file_option, flag_option, history_option, list_app, named_tool, number_word, position_option, recording_word, required_word, run_app, tool_app, verify_app, waiting_option, when_app, word_app, words_of};

use crate::asking::{AskWords, ask, asking};
use crate::serving::{ServeWords, serve_times, served};
use crate::version::VERSION;
use clap::builder::ValueParser;
use clap::error::ErrorKind;
use clap::{Arg, ArgAction, ArgMatches, Command, Error, value_parser};
use std::alloc::{AllocError, Global};

/// What the program is asked to do. Folders and files are words of the command line, as they were given.
#[derive(Debug, PartialEq, Eq, Drop)]
pub enum ToolCommand<'a> {
    /// Make an empty archive in a folder, with a history of at most so many entries.
    Create {
        folder: &'a str,
        history: u32,
    },
    /// Answer control lines from standard input on standard output, over the archive of a folder or over memory.
    Run {
        folder: Option<&'a str>,
        /// Whether checkpoints are made between lines.
        checkpoints: bool,
        /// Seconds for which the folder is waited for while it is in use. None: it is not waited for.
        wait: Option<u32>,
    },
    /// Answer control lines of connections, over the archive of a folder, and record what datagrams bring.
    Serve(ServeWords<'a>),
    /// Write the catalogue of the archive of a folder anew, so that its history has room again.
    Compact {
        folder: &'a str,
        /// Seconds, as in `Run`.
        wait: Option<u32>,
    },
    /// Print the recordings of the archive of a folder, which is changed by nothing but its opening, or not at all.
    List {
        folder: &'a str,
        read_only: bool,
        /// Seconds, as in `Run`.
        wait: Option<u32>,
    },
    /// Read each recorded frame of the archive of a folder, which is changed by nothing but its opening, or not at all.
    Verify {
        folder: &'a str,
        /// The id of the recording that is read alone. None: all are read.
        recording: Option<i64>,
        read_only: bool,
        /// Seconds, as in `Run`.
        wait: Option<u32>,
    },
    /// Print what is known of the archive of a folder, which is only read, as a page or as JSON.
    Describe {
        folder: &'a str,
        /// The id of the recording that is described alone. None: the archive is.
        recording: Option<i64>,
        json: bool,
    },
    /// Write the frames of a recording, of the archive of a folder, which is only read, into a capture file.
    Export {
        folder: &'a str,
        recording: i64,
        /// Where the first frame begins, in bytes of the stream: at the recording's start, where it is not said.
        from: Option<i64>,
        /// Where the last frame ends: at the recorded position, where it is not said.
        to: Option<i64>,
        /// The file that is written.
        pcap: &'a str,
    },
    /// Print the frames of a segment file.
    Frames {
        file: &'a str,
    },
    /// Send control lines to a server, and print what it answers.
    Ask(AskWords<'a>),
    /// Print where a recording stood at a time, by its file in a folder of times.
    When {
        folder: &'a str,
        recording: i64,
        /// A date, or a number of milliseconds, as it was given.
        time: &'a str,
    },
}

const TOOL_HELP: &str =
    "Records Aeron streams and replays them. An archive lies in a folder, which has to be on a local file system, and \
which one process may have open at a time. Positions, offsets and lengths are in bytes.";

const STATUSES: &str =
    "Statuses: 0 done, 1 refused, 2 a wrong command line, 3 a device fault or damage, or standard input or output \
failed. Why a command was refused is told on standard error by a line `error <number> <name>`.";

const CREATE_HELP: &str =
    "Makes an archive without recordings in a folder, and prints `created`. The folder is made where it is not there. \
It has to be on a local file system, and one process may have it open at a time.";

const CREATE_EXAMPLE: &str = "Example: archive_tool create /var/lib/recorder --history 4096

Statuses: 0 done, 1 refused, 2 a wrong command line, 3 a device fault or damage.";

const RUN_HELP: &str =
    "Reads control lines from standard input, one a line, until its end or the line `quit`, and writes the reply of \
each to standard output before it waits for the next. A line that is refused is answered by a line \
`error <number> <name>`. The archive is that of the folder, which has to be on a local file system, and which one \
process may have open at a time. Without a folder it lies in memory, and is gone when the program ends.";

const RUN_EXAMPLE: &str = "Example: archive_tool run /var/lib/recorder

Statuses: 0 done, refused lines too, 1 refused, 2 a wrong command line, 3 a device fault or damage, or standard input \
or output failed.";

const COMPACT_HELP: &str =
    "Makes room in the history of the archive in a folder, and prints `compacted`: the recordings and the next id are \
written into the other of the catalogue's two banks, without the commands that led there. Recordings that are active are \
stopped first; nothing that is recorded changes, and no segment file does. Stopped at any moment it leaves the archive as it \
was, or compacted. The folder has to be on a local file system, and one process may have it open at a time.";

const COMPACT_EXAMPLE: &str = "Example: archive_tool compact /var/lib/recorder

Statuses: 0 done, 1 refused, 2 a wrong command line, 3 a device fault or damage, or standard output failed.";

const LIST_HELP: &str =
    "Prints a line `recording ..` for each recording of the archive in a folder, by rising id and for at most 1024 of \
them, and then `end <count>`. Positions and lengths are in bytes, timestamps in milliseconds. The folder has to be on \
a local file system, and one process may have it open at a time.";

const LIST_EXAMPLE: &str = "Example: archive_tool list /var/lib/recorder

Statuses: 0 done, 1 refused, 2 a wrong command line, 3 a device fault or damage, or standard output failed.";

const VERIFY_HELP: &str =
    "Reads each recorded frame of the archive in a folder, and prints for each recording, by rising id, a line \
`verified <frames>`, or a line `error <number> <name>`. It asks that the header of each frame stands where the one before \
it ends, and belongs to the recording; bytes of a payload that have changed it does not find, nor that the last entries of \
the catalogue are gone. With a recording's id it reads that recording alone. The folder has to be on a local file system, and one process may have it open at a time.";

const VERIFY_EXAMPLE: &str = "Example: archive_tool verify /var/lib/recorder

Statuses: 0 done, 1 refused, 2 a wrong command line, 3 a device fault, a line `error ..` or other damage, or standard \
output failed.";

const FRAMES_HELP: &str =
    "Prints a line `frame <term id> <term offset> <type> <length> <flags>` for each frame of a segment file, from its \
beginning until a length of 0 or its end, and then `end <count>`. Offsets and lengths are in bytes, the flags are two \
hexadecimal digits. Where the bytes begin with no frame the last line is `error 21 BadFrame <offset>`.";

const FRAMES_EXAMPLE: &str = "Example: archive_tool frames /var/lib/recorder/0-0.rec

Statuses: 0 done, 2 a wrong command line, 3 a device fault or a line `error ..`, or standard output failed.";

const DESCRIBE_HELP: &str =
    "Prints what is known of the archive in a folder: of each recording, by rising id, its state, channel, stream and session, \
when it was started and stopped as dates in UTC, its first and its recorded position, its bytes and segment files, and the \
lengths of its terms and segments and its MTU; and then totals, how many entries of the history are used, the segment files \
that a sweep would remove, and why, and those that no recording knows. With a recording's id it prints that recording alone. \
Positions and lengths are in bytes. The folder is \
only read, also while another process has it open: nothing is locked, written or stopped.";

const DESCRIBE_EXAMPLE: &str = "Example: archive_tool describe /var/lib/recorder --json

Statuses: 0 done, 1 refused, 2 a wrong command line, 3 a device fault or damage, or standard output failed.";

const EXPORT_HELP: &str =
    "Writes the recorded frames of a recording of the archive in a folder into a capture file, which Wireshark reads, and \
prints `exported`: as if each had been sent by a UDP datagram of its own to the recording's channel. Positions are in bytes \
of the stream, and a frame begins or ends at each of the two. The file is written beside its place under a name of its own, \
synced, and then named; a refusal leaves no file, and a file that had the name stays. The folder is only read, also while \
another process has it open: nothing is locked, written or stopped.";

const EXPORT_EXAMPLE: &str =
    "Example: archive_tool export /var/lib/recorder 0 --from 65536 --pcap frames.pcap

Statuses: 0 done, 1 refused, 2 a wrong command line, 3 a device fault or damage, or the file cannot be written.";

const WHEN_HELP: &str =
    "Prints where a recording stood at a time, by a folder of times that `serve --times` wrote: `position <p> from <ms> to \
<ms>`, with the last position that was noted at or before that time, when it was noted, and when the next one was; `to -1` \
if it is the last. If the first one is later it prints `none before <ms>`. The position is in bytes, times are in \
milliseconds since 1970.";

const WHEN_EXAMPLE: &str =
    "Example: archive_tool when /var/lib/recorder-times 0 2026-11-29T14:31:07Z

Statuses: 0 done, 1 refused or `none before`, 2 a wrong command line, 3 the file cannot be read, or standard output failed.";

const TIMES_FOLDER_HELP: &str = "The folder of `serve --times`";

const TIME_HELP: &str =
    "A date with its offset, as 2026-11-29T08:41:36.123Z, or milliseconds since 1970";

const READ_ONLY_HELP: &str =
    "Only reads the folder, also while another process has it open: nothing is locked, written, synced or stopped";

const WAIT_HELP: &str =
    "For how many seconds to wait, from 1 to 86400, while another process has the folder open; without it not at all";

const RECORDING_HELP: &str = "The recording's id, if only that one is asked for";

const JSON_HELP: &str = "Prints it as one JSON text";

const FROM_HELP: &str = "Where the first frame begins, and not at the recording's start";

const TO_HELP: &str = "Where the last frame ends, and not at the recorded position";

pub(crate) const CHECKPOINTS_HELP: &str =
    "Makes the history short when half of it is used, while recordings go on, and answers the line `checkpoint`";

pub(crate) const FOLDER_HELP: &str = "The archive's folder, on a local file system";

/// The word `name` of a command, which has to be given.
pub(crate) fn required<'a>(alloc: Global, name: &'a str, help: &'a str) -> Arg<'a>
    ensures rule { rule_of result ≡ required_word name.entry.now }
    ensures local { result.global ≡ false }
{
    Arg::new(alloc, name).required(true).help(help)
}

/// The option `--history`, in entries.
fn history<'a>(alloc: Global) -> Arg<'a>
    ensures rule { rule_of result ≡ history_option }
    ensures local { result.global ≡ false }
{
    Arg::new(alloc, "history")
        .long("history")
        .value_name("entries")
        .value_parser(value_parser!(u32))
        .default_value("1048576")
        .help("How many entries the archive's history may have, from 1 to 16777216")
}

/// A flag, which is a word of its own.
pub(crate) fn flag<'a>(alloc: Global, name: &'a str, help: &'a str) -> Arg<'a>
    ensures rule { rule_of result ≡ flag_option name.entry.now }
    ensures local { result.global ≡ false }
{
    Arg::new(alloc, name)
        .long(name)
        .action(ArgAction::SetTrue)
        .help(help)
}

/// The option `--wait` of a command that opens a folder, in seconds.
pub(crate) fn waiting<'a>(alloc: Global) -> Arg<'a>
    ensures rule { rule_of result ≡ waiting_option }
    ensures local { result.global ≡ false }
{
    Arg::new(alloc, "wait")
        .long("wait")
        .value_name("seconds")
        .value_parser(ValueParser::signed(1, 86_400))
        .help(WAIT_HELP)
}

/// The id of a recording, which may be given.
fn one_recording<'a>(alloc: Global) -> Arg<'a>
    ensures rule { rule_of result ≡ recording_word }
    ensures local { result.global ≡ false }
{
    Arg::new(alloc, "recording")
        .value_parser(ValueParser::signed(0, i64::MAX))
        .help(RECORDING_HELP)
}

fn create<'a>(alloc: Global) -> Result<Command<'a>, AllocError>
    ensures { IfOk result (IsCommand create_app) }
{
    Command::new(alloc, "create")
        .about("Makes an empty archive in a folder")
        .long_about(CREATE_HELP)
        .after_help(CREATE_EXAMPLE)
        .arg(required(alloc, "folder", FOLDER_HELP))?
        .arg(history(alloc))
}

fn run<'a>(alloc: Global) -> Result<Command<'a>, AllocError>
    ensures { IfOk result (IsCommand run_app) }
{
    Command::new(alloc, "run")
        .about("Answers control lines from standard input on standard output")
        .long_about(RUN_HELP)
        .after_help(RUN_EXAMPLE)
        .arg(Arg::new(alloc, "folder").help(FOLDER_HELP))?
        .arg(flag(alloc, "checkpoints", CHECKPOINTS_HELP))?
        .arg(waiting(alloc))
}

fn compact<'a>(alloc: Global) -> Result<Command<'a>, AllocError>
    ensures { IfOk result (IsCommand compact_app) }
{
    Command::new(alloc, "compact")
        .about("Makes room in the history of an archive")
        .long_about(COMPACT_HELP)
        .after_help(COMPACT_EXAMPLE)
        .arg(required(alloc, "folder", FOLDER_HELP))?
        .arg(waiting(alloc))
}

fn list<'a>(alloc: Global) -> Result<Command<'a>, AllocError>
    ensures { IfOk result (IsCommand list_app) }
{
    Command::new(alloc, "list")
        .about("Prints the recordings of an archive")
        .long_about(LIST_HELP)
        .after_help(LIST_EXAMPLE)
        .arg(required(alloc, "folder", FOLDER_HELP))?
        .arg(flag(alloc, "read-only", READ_ONLY_HELP))?
        .arg(waiting(alloc))
}

fn verify<'a>(alloc: Global) -> Result<Command<'a>, AllocError>
    ensures { IfOk result (IsCommand verify_app) }
{
    let command = verify_folder(alloc)?;
    command
        .arg(one_recording(alloc))?
        .arg(flag(alloc, "read-only", READ_ONLY_HELP))?
        .arg(waiting(alloc))
}

/// The command `verify` with its folder.
fn verify_folder<'a>(alloc: Global) -> Result<Command<'a>, AllocError>
    ensures { IfOk result (IsCommand (word_app (codes "verify") (codes "folder"))) }
{
    Command::new(alloc, "verify")
        .about("Reads each recorded frame of an archive")
        .long_about(VERIFY_HELP)
        .after_help(VERIFY_EXAMPLE)
        .arg(required(alloc, "folder", FOLDER_HELP))
}

fn describe<'a>(alloc: Global) -> Result<Command<'a>, AllocError>
    ensures { IfOk result (IsCommand describe_app) }
{
    Command::new(alloc, "describe")
        .about("Prints what is known of an archive, which is only read")
        .long_about(DESCRIBE_HELP)
        .after_help(DESCRIBE_EXAMPLE)
        .arg(required(alloc, "folder", FOLDER_HELP))?
        .arg(one_recording(alloc))?
        .arg(flag(alloc, "json", JSON_HELP))
}

/// The id of a recording, which has to be given.
fn recording<'a>(alloc: Global) -> Arg<'a>
    ensures rule { rule_of result ≡ number_word (codes "recording") }
    ensures local { result.global ≡ false }
{
    Arg::new(alloc, "recording")
        .required(true)
        .value_parser(ValueParser::signed(0, i64::MAX))
        .help("The recording's id")
}

/// A position, which may be given.
fn position<'a>(alloc: Global, name: &'a str, help: &'a str) -> Arg<'a>
    ensures rule { rule_of result ≡ position_option name.entry.now }
    ensures local { result.global ≡ false }
{
    Arg::new(alloc, name)
        .long(name)
        .value_name("position")
        .value_parser(ValueParser::signed(0, i64::MAX))
        .help(help)
}

/// The file that `export` writes, which has to be given.
fn pcap<'a>(alloc: Global) -> Arg<'a>
    ensures rule { rule_of result ≡ file_option (codes "pcap") }
    ensures local { result.global ≡ false }
{
    Arg::new(alloc, "pcap")
        .long("pcap")
        .value_name("file")
        .required(true)
        .help("The capture file that is written")
}

/// The command `export` with its folder.
fn export_folder<'a>(alloc: Global) -> Result<Command<'a>, AllocError>
    ensures { IfOk result (IsCommand (word_app (codes "export") (codes "folder"))) }
{
    Command::new(alloc, "export")
        .about("Writes frames of a recording into a capture file")
        .long_about(EXPORT_HELP)
        .after_help(EXPORT_EXAMPLE)
        .arg(required(alloc, "folder", FOLDER_HELP))
}

fn export<'a>(alloc: Global) -> Result<Command<'a>, AllocError>
    ensures { IfOk result (IsCommand export_app) }
{
    let command = export_folder(alloc)?;
    command
        .arg(recording(alloc))?
        .arg(position(alloc, "from", FROM_HELP))?
        .arg(position(alloc, "to", TO_HELP))?
        .arg(pcap(alloc))
}

fn frames<'a>(alloc: Global) -> Result<Command<'a>, AllocError>
    ensures { IfOk result (IsCommand (word_app (codes "frames") (codes "file"))) }
{
    Command::new(alloc, "frames")
        .about("Prints the frames of a segment file")
        .long_about(FRAMES_HELP)
        .after_help(FRAMES_EXAMPLE)
        .arg(required(alloc, "file", "A segment file of an archive"))
}

/// The command `when` with its folder.
fn when_folder<'a>(alloc: Global) -> Result<Command<'a>, AllocError>
    ensures { IfOk result (IsCommand (word_app (codes "when") (codes "folder"))) }
{
    Command::new(alloc, "when")
        .about("Prints where a recording stood at a time")
        .long_about(WHEN_HELP)
        .after_help(WHEN_EXAMPLE)
        .arg(required(alloc, "folder", TIMES_FOLDER_HELP))
}

fn when<'a>(alloc: Global) -> Result<Command<'a>, AllocError>
    ensures { IfOk result (IsCommand when_app) }
{
    let command = when_folder(alloc)?;
    command
        .arg(recording(alloc))?
        .arg(required(alloc, "time", TIME_HELP))
}

/// The program without its commands.
fn named<'a>(alloc: Global) -> Command<'a>
    ensures { app_of result ≡ named_tool }
{
    Command::new(alloc, "archive_tool")
        .version(VERSION)
        .about("Records Aeron streams and replays them")
        .long_about(TOOL_HELP)
        .after_help(STATUSES)
        .subcommand_required(true)
        .arg_required_else_help(true)
}

/// The program with one more command, if there was memory for it.
fn with<'a>(
    tool: Command<'a>,
    command: Result<Command<'a>, AllocError>,
) -> Result<Command<'a>, AllocError>
    ensures { IfOk result (λ more. (one : Command) × (command.entry ≡ Ok one) × AddsSubcommand tool.entry one more) }
{
    tool.subcommand(command?)
}

fn tool<'a>(alloc: Global) -> Result<Command<'a>, AllocError>
    ensures { IfOk result (λ tool. app_of tool ≡ tool_app) }
{
    let tool = with(named(alloc), create(alloc))?;
    let tool = with(tool, run(alloc))?;
    let tool = with(tool, list(alloc))?;
    let tool = with(tool, verify(alloc))?;
    let tool = with(tool, frames(alloc))?;
    let tool = with(tool, describe(alloc))?;
    let tool = with(tool, serve_times(alloc))?;
    let tool = with(tool, compact(alloc))?;
    let tool = with(tool, export(alloc))?;
    let tool = with(tool, ask(alloc))?;
    with(tool, when(alloc))
}

/// The command `export` that its matches hold.
fn exported<'a>(own: &ArgMatches<'a>) -> Option<ToolCommand<'a>>
    ensures { MatchOption result
        ((command : ToolCommand) → IsAsked (codes "export") (rows_of (found_of own.now)) command → ⊥)
        (IsAsked (codes "export") (rows_of (found_of own.now))) }
{
    let folder = own.get_str("folder")?;
    let recording = own.get_one::<i64>("recording")?;
    let from = own.get_one::<i64>("from");
    let to = own.get_one::<i64>("to");
    let pcap = own.get_str("pcap")?;
    Some(ToolCommand::Export {
        folder,
        recording,
        from,
        to,
        pcap,
    })
}

/// The command `when` that its matches hold.
fn looked_up<'a>(own: &ArgMatches<'a>) -> Option<ToolCommand<'a>>
    ensures { MatchOption result
        ((command : ToolCommand) → IsAsked (codes "when") (rows_of (found_of own.now)) command → ⊥)
        (IsAsked (codes "when") (rows_of (found_of own.now))) }
{
    let folder = own.get_str("folder")?;
    let recording = own.get_one::<i64>("recording")?;
    let time = own.get_str("time")?;
    Some(ToolCommand::When {
        folder,
        recording,
        time,
    })
}

/// The command `verify` that its matches hold.
fn verified<'a>(own: &ArgMatches<'a>) -> Option<ToolCommand<'a>>
    ensures { MatchOption result
        ((command : ToolCommand) → IsAsked (codes "verify") (rows_of (found_of own.now)) command → ⊥)
        (IsAsked (codes "verify") (rows_of (found_of own.now))) }
{
    let folder = own.get_str("folder")?;
    let recording = own.get_one::<i64>("recording");
    let read_only = own.get_flag("read-only");
    let wait = own.get_one::<u32>("wait");
    Some(ToolCommand::Verify {
        folder,
        recording,
        read_only,
        wait,
    })
}

/// The command `describe` that its matches hold.
fn described<'a>(own: &ArgMatches<'a>) -> Option<ToolCommand<'a>>
    ensures { MatchOption result
        ((command : ToolCommand) → IsAsked (codes "describe") (rows_of (found_of own.now)) command → ⊥)
        (IsAsked (codes "describe") (rows_of (found_of own.now))) }
{
    let folder = own.get_str("folder")?;
    let recording = own.get_one::<i64>("recording");
    let json = own.get_flag("json");
    Some(ToolCommand::Describe {
        folder,
        recording,
        json,
    })
}

/// The command that a subcommand's name and matches hold, if it is one of the program's other than `ask` and `serve`.
fn asked<'a>(name: &str, own: &ArgMatches<'a>) -> Option<ToolCommand<'a>>
    requires ask { name.now ≢ codes "ask" }
    requires serve { name.now ≢ codes "serve" }
    ensures { MatchOption result
        ((command : ToolCommand) → IsAsked name.now (rows_of (found_of own.now)) command → ⊥)
        (IsAsked name.now (rows_of (found_of own.now))) }
{
    match name {
        "create" => Some(ToolCommand::Create {
            folder: own.get_str("folder")?,
            history: own.get_one::<u32>("history")?,
        }),
        "run" => Some(ToolCommand::Run {
            folder: own.get_str("folder"),
            checkpoints: own.get_flag("checkpoints"),
            wait: own.get_one::<u32>("wait"),
        }),
        "export" => exported(own),
        "compact" => Some(ToolCommand::Compact {
            folder: own.get_str("folder")?,
            wait: own.get_one::<u32>("wait"),
        }),
        "list" => Some(ToolCommand::List {
            folder: own.get_str("folder")?,
            read_only: own.get_flag("read-only"),
            wait: own.get_one::<u32>("wait"),
        }),
        "verify" => verified(own),
        "describe" => described(own),
        "when" => looked_up(own),
        "frames" => Some(ToolCommand::Frames {
            file: own.get_str("file")?,
        }),
        _ => None,
    }
}

/// The command that a subcommand's name and matches hold, if it is one of the program's. Only `ask` and `serve` take memory.
fn named_command<'a>(
    alloc: Global,
    name: &str,
    own: &ArgMatches<'a>,
) -> Result<Option<ToolCommand<'a>>, AllocError>
    ensures { IfOk result (λ found. MatchOption found
        ((command : ToolCommand) → IsAsked name.now (rows_of (found_of own.now)) command → ⊥)
        (IsAsked name.now (rows_of (found_of own.now)))) }
{
    if name != "ask" {
        return other_command(alloc, name, own);
    }
    match asking(alloc, own)? {
        Some(words) => Ok(Some(ToolCommand::Ask(words))),
        None => Ok(None),
    }
}

/// The command that a subcommand's name and matches hold, if it is one of the program's other than `ask`.
fn other_command<'a>(
    alloc: Global,
    name: &str,
    own: &ArgMatches<'a>,
) -> Result<Option<ToolCommand<'a>>, AllocError>
    requires { name.now ≢ codes "ask" }
    ensures { IfOk result (λ found. MatchOption found
        ((command : ToolCommand) → IsAsked name.now (rows_of (found_of own.now)) command → ⊥)
        (IsAsked name.now (rows_of (found_of own.now)))) }
{
    if name != "serve" {
        return Ok(asked(name, own));
    }
    match served(alloc, own)? {
        Some(words) => Ok(Some(ToolCommand::Serve(words))),
        None => Ok(None),
    }
}

/// The command that matches hold, if it is one of the program's.
fn held<'a>(alloc: Global, matches: &ArgMatches<'a>) -> Result<Option<ToolCommand<'a>>, AllocError>
    ensures { IfOk result (λ found. MatchOption found
        ((command : ToolCommand) → IsMet (subcommand_rows_of matches.now) command → ⊥)
        (IsMet (subcommand_rows_of matches.now))) }
{
    match matches.subcommand() {
        Some((name, own)) => named_command(alloc, name, own),
        None => Ok(None),
    }
}

/// What the words of a command line ask for, the program's name first.
///
/// An error says what is wrong with the words, or is the help that they ask for; its kind is the one that clap gives to
/// these words. Words that hold a command are refused for want of memory alone, as are a command's word and its folder
/// or file, where this begins with no hyphen.
pub fn command_of<'a>(alloc: Global, words: &'a [String]) -> Result<ToolCommand<'a>, Error>
    ensures held { IfOk result (IsHeld (map string_bytes words.now)) }
    ensures kind { IfErr result (λ e.
        IsWordsFault (fault_of tool_app (map string_bytes words.now)) (kind_of e)) }
    ensures refused { IfErr result (λ e. (command : ToolCommand)
        → IsHeld (map string_bytes words.now) command → kind_of e ≡ ErrorKind.OutOfMemory) }
    ensures alone { IfErr result (λ e. (program : List ℕ) (command : ToolCommand)
        → IsPlain command → map string_bytes words.now ≡ program ∷ words_of command
        → kind_of e ≡ ErrorKind.OutOfMemory) }
{
    let mut tool = tool(alloc)?;
    let matches = match tool.try_get_matches_from_mut(words) {
        Ok(matches) => matches,
        Err(error) => return Err(error),
    };
    match held(alloc, &matches)? {
        Some(command) => Ok(command),
        None => Err(tool.error(ErrorKind::MissingSubcommand, "a command is missing")?),
    }
}

/// What is told of words that cannot be read, since they are no UTF-8.
pub fn unreadable_words(alloc: Global) -> Error
    ensures { IsWordsFault (ErrorKind.InvalidValue ∷ []) (kind_of result) }
{
    match tool(alloc) {
        Ok(mut tool) => match tool.error(
            ErrorKind::InvalidValue,
            "a word of the command line is not UTF-8",
        ) {
            Ok(error) => error,
            Err(error) => Error::from(error),
        },
        Err(error) => Error::from(error),
    }
}
