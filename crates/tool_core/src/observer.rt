//! What an observer gets of a command while it runs, beside what it writes. docs/CONTROL.md, "Standard error".

use crate::checkpoints::CheckpointOutcome;
use crate::history::HistoryUse;
use archive_model::{Registration, Reply};
use frame_core::Refusal;

/// How a script's archive began.
#[derive(Clone, Copy, Debug, PartialEq, Eq)]
pub enum Beginning {
    /// It was made, where no file was.
    Made,
    /// It was there, and is open.
    Opened,
    /// It is not open, by this refusal.
    Refused(Refusal),
}

/// Gets how a command goes on. Nothing that is written or recorded depends on it.
pub trait Observer {
    /// How a script's archive began, before the first line is read.
    fn began(&mut self, _beginning: &Beginning) {}

    /// What a script's line is answered, before that is written. Of the line come its bytes without its end, and none if it is
    /// too long.
    fn answered(&mut self, _line: Option<&[u8]>, _outcome: &Result<Reply, Refusal>) {}

    /// What became of a checkpoint that was due before a line.
    fn checkpointed(&mut self, _outcome: &CheckpointOutcome) {}

    /// How much of its history a script's archive has used, at its opening and behind each line.
    fn used(&mut self, _history: &HistoryUse) {}

    /// What the verifying of a recording is answered, before that is written.
    fn verified(&mut self, _known: &Registration, _outcome: &Result<Reply, Refusal>) {}
}

/// Nobody observes.
#[derive(Clone, Copy, Debug, Drop)]
pub struct Unobserved;

impl Observer for Unobserved {}
