//! What is answered of a time. docs/CONTROL.md, "When a frame was recorded".

ghost use Rattle.std.specs.Prelude.{◌≡◌, MatchResult, IfOk, string_bytes};
ghost use Rattle.recorded_times.specs.Answer.{FailsToAnswerWhen, HasAnsweredWhen, answer_text};

use crate::found::Found;
use crate::searching::{SearchFault, TimesFile, search};
use std::alloc::{AllocError, Global};
use std::io::{self, Write};

/// Why nothing was answered of a time.
#[derive(Clone, Copy, Debug, Drop)]
pub enum AnswerFault {
    /// The file was not searched.
    Search(SearchFault),
    /// What is printed to failed.
    Output(io::Error),
}

/// Prints what a file has at a time, in milliseconds since the beginning of 1970: where the recording stood, and from when until when;
/// or that the first line is later. Whether it stood anywhere. Costs a search.
pub fn answer<F: TimesFile, W: Write>(
    alloc: Global,
    file: &F,
    time: u64,
    writer: &mut W,
) -> Result<bool, AnswerFault>
    ensures { MatchResult result
        (HasAnsweredWhen (F.bytes file.now) time (W.contents writer.old) (W.contents writer.new))
        (FailsToAnswerWhen (W.contents writer.old) (W.contents writer.new)) }
{
    let found = match search(alloc, file, time) {
        Ok(found) => found,
        Err(fault) => return Err(AnswerFault::Search(fault)),
    };
    let Ok(text) = answer_text(alloc, &found, time) else {
        return Err(AnswerFault::Search(SearchFault::Memory));
    };
    match writer.write_all(text.as_bytes()) {
        Ok(()) => Ok(found.is_some()),
        Err(error) => Err(AnswerFault::Output(error)),
    }
}

/// What is printed of what was found at a time.
fn answer_text(alloc: Global, found: &Option<Found>, time: u64) -> Result<String, AllocError>
    ensures { IfOk result (λ text. string_bytes text ≡ answer_text time found.now) }
{
    match found {
        Some(found) => format!(in alloc; "{found}\n"),
        None => format!(in alloc; "none before {time}\n"),
    }
}
