//! Why a command could not do what it was asked for, where its ending does not say that. docs/CONTROL.md, "Standard error".

use command_line::UsageError;
use disk_core::FileId;
use host_disk::{FailedCall, LastFault};
use recorded_times::TimesName;
use std::fmt;
use std::io::{self, Cursor, ErrorKind, Write};

/// Why a command ended as it did.
#[derive(Clone, Copy, Drop)]
pub enum Why {
    /// Nothing more is known than what was reported.
    Reported,
    /// Its folder was not made.
    NewFolder(io::Error),
    /// Where an archive was to be made the folder has files of one.
    HasFiles,
    /// The history that was asked for is out of its range.
    History(u32),
    /// The folder of a server that makes no archive has none.
    NoArchive,
    /// An archive was to be compacted that has no catalogue, or no other bank that may be written.
    NoSpare,
    /// A call of the disk failed.
    Call(LastFault),
    /// Its file was not opened.
    File(io::Error),
    /// Its file could not be read on.
    FileRead,
    /// From this offset on its file of times has no whole line within 524,288 bytes.
    NoLine(u64),
    /// Its folder of times was not read.
    TimesFolder(io::Error),
    /// Several files of its folder of times fit its recording, which were reported.
    SeveralTimes,
    /// The capture file could not be written; what the system says of it, if that is known.
    Capture(Option<io::Error>),
    /// The capture file would lie in the archive's folder.
    CaptureInside,
    /// Its archive was being written while it was read.
    Moving,
    /// Its words are wrong.
    Usage(UsageError),
    /// A port was not bound.
    Port(u16, io::Error),
    /// The server of a port was not reached.
    Unreachable(u32, io::Error),
    /// A connection to a server failed.
    Lost(io::Error),
    /// A server sent nothing for so many seconds.
    Silent(u32),
    /// A server ended the connection when it had answered the first number of lines, of the second.
    Unanswered(usize, usize),
    /// The listener of control lines or the socket of datagrams failed.
    Ends,
    /// Standard input could not be read on.
    Input,
    /// Standard output took no more; what the system says of it, if it says anything.
    Output(Option<io::Error>),
}

impl fmt::Display for Why {
    fn fmt<W: fmt::Write>(&self, f: &mut fmt::Formatter<W>) -> fmt::Result {
        match self {
            Why::Reported => Ok(()),
            Why::NewFolder(error) => write!(f, "the folder cannot be made: {}", SystemText(*error)),
            Why::HasFiles => write!(f, "the folder has an archive, or files of one"),
            Why::History(entries) => {
                write!(f, "a history has 1 to 16777216 entries, and not {entries}")
            }
            Why::NoArchive => write!(
                f,
                "the folder has no archive, and none is made with --no-create"
            ),
            Why::NoSpare => write!(
                f,
                "there is no catalogue, or no other bank that a compaction may write"
            ),
            Why::Call(fault) => write!(f, "{}", FaultLine(*fault)),
            Why::File(error) => write!(f, "the file cannot be opened: {}", SystemText(*error)),
            Why::FileRead => write!(f, "the file cannot be read on"),
            Why::NoLine(offset) => write!(
                f,
                "the file has no whole line within 524288 bytes from offset {offset} on"
            ),
            Why::TimesFolder(error) => {
                write!(
                    f,
                    "the folder of times cannot be read: {}",
                    SystemText(*error)
                )
            }
            Why::SeveralTimes => write!(f, "several files of times fit the recording"),
            Why::Capture(Some(error)) => {
                write!(
                    f,
                    "the capture file cannot be written: {}",
                    SystemText(*error)
                )
            }
            Why::Capture(None) => write!(f, "the capture file cannot be written"),
            Why::CaptureInside => write!(f, "the capture file would lie in the archive's folder"),
            Why::Moving => write!(
                f,
                "the archive is being written: what is told to be damaged may be whole, so look again"
            ),
            Why::Usage(error) => write!(f, "{error}"),
            // Any port would do.
            Why::Port(0, error) => write!(f, "the address cannot be bound: {}", SystemText(*error)),
            Why::Port(port, error) => {
                write!(f, "the port {port} cannot be bound: {}", SystemText(*error))
            }
            Why::Unreachable(port, error) => {
                write!(f, "no server on port {port}: {}", SystemText(*error))
            }
            Why::Lost(error) => write!(f, "the connection failed: {}", SystemText(*error)),
            Why::Silent(seconds) => write!(f, "nothing came for {seconds} seconds"),
            Why::Unanswered(answered, lines) => {
                write!(f, "the server answered {answered} of {lines} lines")
            }
            Why::Ends => write!(f, "a port failed"),
            Why::Input => write!(f, "standard input cannot be read on"),
            Why::Output(Some(error)) if !is_closed(error) => {
                write!(f, "standard output: {}", SystemText(*error))
            }
            Why::Output(_) => write!(f, "standard output was closed"),
        }
    }
}

/// Whether standard output failed because nobody reads it.
fn is_closed(error: &io::Error) -> bool {
    error.kind() == ErrorKind::BrokenPipe || error.raw_os_error() == Some(BAD_DESCRIPTOR)
}

/// Linux's number of an error: the descriptor is not open.
const BAD_DESCRIPTOR: i32 = 9;

/// The system's text of an error, without its number.
#[derive(Clone, Copy, Drop)]
pub(crate) struct SystemText(pub io::Error);

impl fmt::Display for SystemText {
    fn fmt<W: fmt::Write>(&self, f: &mut fmt::Formatter<W>) -> fmt::Result {
        let mut buffer = Cursor::new([0u8; 256]);
        let _ = write!(buffer, "{}", self.0);
        let text = std::str::from_utf8(buffer.get_ref()).unwrap_or("");
        let text = text.trim_end_matches('\0');
        match text.split_once(" (os error ") {
            Some((text, _)) => f.write_str(text),
            None => f.write_str(text),
        }
    }
}

/// A metrics file was not written, as the system says.
#[derive(Clone, Copy, Drop)]
pub(crate) struct MetricsFault(pub io::Error);

impl fmt::Display for MetricsFault {
    fn fmt<W: fmt::Write>(&self, f: &mut fmt::Formatter<W>) -> fmt::Result {
        write!(
            f,
            "the metrics file cannot be written: {}",
            SystemText(self.0)
        )
    }
}

/// When recordings stood where can't be written, as the system says: of one, in its file, or of any, in their folder.
#[derive(Clone, Copy, Drop)]
pub(crate) struct TimesFault(pub Option<TimesName>, pub io::Error);

impl fmt::Display for TimesFault {
    fn fmt<W: fmt::Write>(&self, f: &mut fmt::Formatter<W>) -> fmt::Result {
        let text = SystemText(self.1);
        match self.0 {
            Some(name) => write!(f, "the times cannot be written: {name}: {text}"),
            None => write!(f, "the times cannot be written: the folder: {text}"),
        }
    }
}

/// A write of a metrics file or of times does not end.
#[derive(Clone, Copy, Drop)]
pub(crate) struct LateFault;

impl fmt::Display for LateFault {
    fn fmt<W: fmt::Write>(&self, f: &mut fmt::Formatter<W>) -> fmt::Result {
        f.write_str("a write of the metrics or the times has not ended for 10 seconds")
    }
}

/// A call that failed as `0-131072.rec: write: No space left on device`.
#[derive(Clone, Copy, Drop)]
pub(crate) struct FaultLine(pub LastFault);

impl fmt::Display for FaultLine {
    fn fmt<W: fmt::Write>(&self, f: &mut fmt::Formatter<W>) -> fmt::Result {
        let (call, text) = (self.0.call, SystemText(self.0.error));
        match file_of(call) {
            Some(file) => write!(f, "{file}: {}: {text}", word_of(call)),
            None => write!(f, "the folder: {}: {text}", word_of(call)),
        }
    }
}

/// The file that a call was of.
pub(crate) fn file_of(call: FailedCall) -> Option<FileId> {
    match call {
        FailedCall::Measure(file)
        | FailedCall::Read(file, _)
        | FailedCall::Write(file, _, _)
        | FailedCall::Cut(file, _)
        | FailedCall::Remove(file)
        | FailedCall::Sync(file)
        | FailedCall::Refused(file, _, _) => Some(file),
        FailedCall::List => None,
    }
}

/// What a call was to do.
pub(crate) fn word_of(call: FailedCall) -> &'static str {
    match call {
        FailedCall::Measure(_) => "length",
        FailedCall::Read(_, _) => "read",
        FailedCall::Write(_, _, _) => "write",
        FailedCall::Cut(_, _) => "cut",
        FailedCall::Remove(_) => "remove",
        FailedCall::Sync(_) => "sync",
        FailedCall::List => "list",
        FailedCall::Refused(_, _, _) => "refused",
    }
}
