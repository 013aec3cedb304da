//! What a server reports of its archive.

use crate::refusal_text::RefusalText;
use std::fmt;
use tool_core::{Beginning, CheckpointOutcome, HistoryUse};

/// What happened to the archive.
#[derive(Clone, Copy, Drop)]
pub enum ArchiveNews {
    /// How it began.
    Began(Beginning),
    /// A call was answered by a device fault, the first time.
    DeviceFault,
    /// How much of its history it has used.
    HistoryUsed(HistoryUse),
    /// What became of a checkpoint.
    Checkpoint(CheckpointOutcome),
}

impl ArchiveNews {
    /// Whether it is a fault.
    pub fn is_fault(&self) -> bool {
        match self {
            ArchiveNews::Began(Beginning::Refused(_)) => true,
            ArchiveNews::DeviceFault => true,
            ArchiveNews::Checkpoint(CheckpointOutcome::Refused(_)) => true,
            _ => false,
        }
    }
}

impl fmt::Display for ArchiveNews {
    fn fmt<W: fmt::Write>(&self, f: &mut fmt::Formatter<W>) -> fmt::Result {
        match self {
            ArchiveNews::Began(beginning) => write_beginning(f, beginning),
            ArchiveNews::DeviceFault => f.write_str("a call was answered by a device fault"),
            ArchiveNews::HistoryUsed(history) => write!(f, "{history}"),
            ArchiveNews::Checkpoint(outcome) => write!(f, "{outcome}"),
        }
    }
}

fn write_beginning<W: fmt::Write>(f: &mut fmt::Formatter<W>, beginning: &Beginning) -> fmt::Result {
    match beginning {
        Beginning::Made => f.write_str("a new archive was made, as there was none"),
        Beginning::Opened => f.write_str("the archive is open"),
        Beginning::Refused(refusal) => write!(
            f,
            "the archive is not open: {}; lines that need it are Broken, and nothing is recorded",
            RefusalText(*refusal)
        ),
    }
}
