//! How a command ended, and why. docs/CONTROL.md, "The program" and "Standard error".

ghost use Rattle.std.specs.Prelude.{◌≡◌, None};
ghost use Rattle.tool_core.specs.Archives.{disk_of, early_end_of};
ghost use Rattle.folder_commands.specs.declared.status.Ending.TheVariants.{Cut, Unopened};
ghost use Rattle.folder_commands.specs.Status.{ending_of, handed_on, why_with_output_fault};

use crate::status::Ending;
use crate::why::Why;
use archive_commands::Stop;
use frame_core::Refusal;
use host_disk::{LastFault, OpenFault};
use std::{fmt, io};
use tool_core::{EarlyEnd, ScriptFault};

/// How a command ended, and why it did not do what it was asked for: its status, the refusal that is reported, and the line after it.
#[derive(Clone, Copy)]
pub struct Exit {
    /// How. The status and the refusal follow from it.
    pub ending: Ending,
    /// Why, if that says more.
    pub why: Why,
}

impl Exit {
    /// It ended so, and nothing more is known of why.
    pub fn reported(ending: Ending) -> Exit
        ensures { result.ending ≡ ending }
    {
        Exit {
            ending,
            why: Why::Reported,
        }
    }

    /// Its file, or standard input or output, failed, or it found no memory.
    pub(crate) fn cut(end: EarlyEnd, read: Why) -> Exit
        ensures { result.ending ≡ Cut end }
    {
        Exit {
            ending: Ending::Cut(end),
            why: match end {
                EarlyEnd::Read => read,
                EarlyEnd::Write => Why::Output(None),
                EarlyEnd::Memory => Why::Reported,
            },
        }
    }

    /// A script, or a server, ended early by this fault; and the disk of its archive.
    pub(crate) fn cut_off<D>(fault: ScriptFault<D>, read: Why) -> (D, Exit)
        ensures disk { result.0 ≡ disk_of fault }
        ensures ending { result.1.ending ≡ Cut (early_end_of fault) }
    {
        let (end, disk) = fault.into_parts();
        (disk, Exit::cut(end, read))
    }

    /// It was stopped so, over a disk whose last fault was this one.
    pub(crate) fn stopped(stop: Stop, fault: Option<LastFault>) -> Exit
        ensures { result.ending ≡ ending_of stop }
    {
        let refusal = match stop {
            Stop::Cut(end) => return Exit::from(end),
            Stop::Refused(refusal) => refusal,
        };
        Exit {
            ending: Ending::Refused(refusal),
            why: match (refusal, fault) {
                (Refusal::DeviceFault, Some(fault)) => Why::Call(fault),
                _ => Why::Reported,
            },
        }
    }

    /// It ended so, and what it wrote was handed on, or could not be.
    pub(crate) fn handed_on(self, is_flushed: bool) -> Exit
        ensures { result.ending ≡ handed_on self.ending is_flushed }
    {
        match self.ending {
            Ending::Done | Ending::FoundDamage | Ending::NoneBefore if !is_flushed => Exit {
                ending: Ending::Cut(EarlyEnd::Write),
                why: Why::Output(None),
            },
            _ => self,
        }
    }

    /// The same, where that is what the system says of standard output.
    pub fn with_output_fault(self, fault: Option<io::Error>) -> Exit
        ensures ending { result.ending ≡ self.ending }
        ensures why { result.why ≡ why_with_output_fault fault self.why }
    {
        let why = match self.why {
            Why::Output(None) => Why::Output(fault),
            why => why,
        };
        Exit {
            ending: self.ending,
            why,
        }
    }

    /// Whether a line says why, behind the refusal's.
    pub(crate) fn has_line(&self) -> bool {
        match (self.ending, self.why) {
            (Ending::Unopened(_) | Ending::Stuck(_) | Ending::Hidden, _) => true,
            (_, Why::Reported) => false,
            _ => true,
        }
    }
}

/// The line that says why.
impl fmt::Display for Exit {
    fn fmt<W: fmt::Write>(&self, f: &mut fmt::Formatter<W>) -> fmt::Result {
        match self.ending {
            Ending::Unopened(fault) => write!(f, "{fault}"),
            Ending::Stuck(stuck) => write!(f, "nothing can be recorded: {stuck}"),
            Ending::Hidden => f.write_str("the archive is not opened, since entries may be hidden"),
            _ => write!(f, "{}", self.why),
        }
    }
}

impl From<EarlyEnd> for Exit {
    ghost from_gives = { λ end exit. exit.ending ≡ Cut end };

    fn from(end: EarlyEnd) -> Self {
        Exit::cut(end, Why::Input)
    }
}

impl From<OpenFault> for Exit {
    ghost from_gives = { λ fault exit. exit.ending ≡ Unopened fault };

    fn from(fault: OpenFault) -> Self {
        Exit::reported(Ending::Unopened(fault))
    }
}
