//! What a server gives back at its end. docs/SERVING.md, "A server that ends by itself".

ghost use Rattle.std.specs.Prelude.{◌≡◌};
ghost use Rattle.server.specs.Serving.{stuck_by, unopened_stop};

use control_core::Desk;
use control_lines::print_refusal;
use frame_core::Refusal;
use std::fmt;
use tool_core::Beginning;

/// Why a strict server can record nothing.
#[derive(Clone, Copy, Debug, PartialEq, Eq)]
pub enum Stuck {
    /// The archive could not be opened.
    Unopened(Refusal),
    /// A write has failed: the archive is Broken.
    Broken,
    /// The history has as many entries as it may have.
    HistoryFull,
}

/// What a server gives back.
#[derive(Drop)]
pub struct Served<D> {
    /// The disk, as the last call left it.
    pub disk: D,
    /// Why the server could record nothing at its end, if it is strict and that is so.
    pub stop: Option<Stuck>,
}

impl fmt::Display for Stuck {
    fn fmt<W: fmt::Write>(&self, f: &mut fmt::Formatter<W>) -> fmt::Result {
        match self {
            Stuck::Unopened(refusal) => {
                f.write_str("the archive is not open: ")?;
                let line = print_refusal(refusal);
                match std::str::from_utf8(line.as_bytes()) {
                    Ok(text) => f.write_str(text.trim_end()),
                    Err(_) => Ok(()),
                }
            }
            Stuck::Broken => f.write_str("a write has failed, and the archive is Broken"),
            Stuck::HistoryFull => f.write_str("the history is full"),
        }
    }
}

/// Why a server can record nothing whose archive stands so at its end, if it is strict.
pub(crate) fn stuck_by(is_strict: bool, desk: &Desk) -> Option<Stuck>
    ensures { result ≡ stuck_by is_strict desk.now.state }
{
    if !is_strict {
        None
    } else if desk.is_broken() {
        Some(Stuck::Broken)
    } else if !desk.has_room() {
        Some(Stuck::HistoryFull)
    } else {
        None
    }
}

/// Why a server records nothing whose archive is not open, if it is strict.
pub(crate) fn unopened_stop(is_strict: bool, beginning: &Beginning) -> Option<Stuck>
    ensures { result ≡ unopened_stop is_strict beginning.now }
{
    match beginning {
        Beginning::Refused(refusal) if is_strict => Some(Stuck::Unopened(*refusal)),
        _ => None,
    }
}
