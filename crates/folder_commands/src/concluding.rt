//! What is reported of how the program ended. docs/CONTROL.md, "Standard error".

ghost use Rattle.std.specs.Prelude.{◌≡◌};
ghost use Rattle.folder_commands.specs.Status.{IsReported, status_of};

use crate::exit::Exit;
use crate::status::Ending;
use crate::usage::report_words;
use crate::why::Why;
use clap::error::ErrorKind;
use control_lines::print_refusal;
use frame_core::Refusal;
use std::io::{Eprint, Write};

/// Reports on standard error why the program ended early, if it did, and answers its status.
pub fn concluded<R: Eprint>(rt: &R, exit: Exit) -> u8
    ensures { result ≡ status_of exit.ending }
{
    if let Some(refusal) = exit.refusal() {
        report(rt, &refusal);
    }
    if exit.has_line() {
        let _ = rt.eprintln(exit);
    }
    exit.status()
}

/// Prints the text of an error of this kind: how the program ends by that.
pub fn reported<W: Write, E: Write>(
    kind: ErrorKind,
    text: &str,
    output: &mut W,
    errors: &mut E,
) -> Exit
    ensures { IsReported kind text.now (W.contents output.old) (W.contents output.new)
        (E.contents errors.old) (E.contents errors.new) result.ending }
{
    match report_words(kind, text, output, errors) {
        Ok(()) => Exit::reported(Ending::NoCommand(kind)),
        Err(fault) => Exit {
            ending: Ending::Failed(fault.kind()),
            why: Why::Output(Some(fault)),
        },
    }
}

/// Reports a refusal on standard error.
fn report<R: Eprint>(rt: &R, refusal: &Refusal) {
    let line = print_refusal(refusal);
    if let Ok(text) = std::str::from_utf8(line.as_bytes()) {
        let _ = rt.eprint(text);
    }
}
