//! How the program ends, and the status that says so: docs/CONTROL.md, "The program".

ghost use Rattle.std.specs.Prelude.{◌≡◌};
ghost use Rattle.folder_commands.specs.Status.{refusal_of, status_of, status_of_refusal, status_without_refusal};

use crate::exit::Exit;
use crate::usage::words_status;
use clap::error::ErrorKind;
use frame_core::Refusal;
use host_disk::OpenFault;
use server::Stuck;
use std::io;
use tool_core::EarlyEnd;

/// Done.
const DONE: u8 = 0;
/// Refused.
const REFUSED: u8 = 1;
/// A device fault or damage, or standard input or output failed.
const DEVICE: u8 = 3;

/// How the program ended.
#[derive(Clone, Copy, Debug)]
pub enum Ending {
    /// The command did what it was asked for; a script was read to its end.
    Done,
    /// The command ended early.
    Cut(EarlyEnd),
    /// The command was refused.
    Refused(Refusal),
    /// Its folder was not opened.
    Unopened(OpenFault),
    /// It found damage, and its output says what.
    FoundDamage,
    /// A server refused a line, and its output says which and why.
    LineRefused,
    /// `when` found no position at or before its time, and its output says so.
    NoneBefore,
    /// A strict server could record nothing.
    Stuck(Stuck),
    /// A strict server did not open an archive whose catalogue may hide entries.
    Hidden,
    /// The words of the command line asked for no command; what is wrong with them, or the help, was printed.
    NoCommand(ErrorKind),
    /// The words could not be read, or nothing could be printed of them.
    Failed(io::ErrorKind),
}

impl Exit {
    /// The program's status: that of the refusal which is reported, if one is.
    pub fn status(self) -> u8
        ensures { result ≡ status_of self.ending }
    {
        match self.refusal() {
            Some(refusal) => status_of_refusal(refusal),
            None => self.status_without_refusal(),
        }
    }

    /// The status of an ending that reports no refusal.
    fn status_without_refusal(self) -> u8
        ensures { result ≡ status_without_refusal self.ending }
    {
        match self.ending {
            Ending::FoundDamage => DEVICE,
            Ending::LineRefused | Ending::NoneBefore => REFUSED,
            Ending::Stuck(_) | Ending::Hidden => DEVICE,
            Ending::NoCommand(kind) => words_status(kind),
            _ => DONE,
        }
    }

    /// The refusal whose line is reported on standard error.
    pub fn refusal(self) -> Option<Refusal>
        ensures { result ≡ refusal_of self.ending }
    {
        match self.ending {
            Ending::Done
            | Ending::FoundDamage
            | Ending::LineRefused
            | Ending::NoneBefore
            | Ending::Stuck(_)
            | Ending::Hidden => None,
            Ending::Cut(EarlyEnd::Memory) => Some(Refusal::NoMemory),
            Ending::Cut(EarlyEnd::Read | EarlyEnd::Write) => Some(Refusal::DeviceFault),
            Ending::Refused(refusal) => Some(refusal),
            Ending::Unopened(OpenFault::NoMemory) => Some(Refusal::NoMemory),
            Ending::Unopened(_) => Some(Refusal::DeviceFault),
            Ending::NoCommand(ErrorKind::OutOfMemory) => Some(Refusal::NoMemory),
            Ending::NoCommand(_) => None,
            Ending::Failed(io::ErrorKind::OutOfMemory) => Some(Refusal::NoMemory),
            Ending::Failed(_) => Some(Refusal::DeviceFault),
        }
    }
}

/// The status of a refused command.
fn status_of_refusal(refusal: Refusal) -> u8
    ensures { result ≡ status_of_refusal refusal }
{
    match refusal {
        Refusal::Damaged { .. } | Refusal::Broken | Refusal::DeviceFault => DEVICE,
        _ => REFUSED,
    }
}
