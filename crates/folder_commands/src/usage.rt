//! What is printed where the words of a command line ask for no command, and the status that says so: docs/CONTROL.md, "The
//! program".

ghost use Rattle.std.specs.Prelude.{◌≡◌, MatchResult};
ghost use Rattle.folder_commands.specs.Usage.{FailsToReport, IsReportedBy, words_status};

use clap::error::ErrorKind;
use std::io::{self, Write};

/// Help or the version was asked for, and printed.
const PRINTED: u8 = 0;
/// The command line is none.
const USAGE: u8 = 2;

/// Prints the text of an error of this kind: help and the version on the first stream, standard output, and what is wrong with
/// the words on the second, standard error. Want of memory is reported on neither. An error is that of the stream, of which
/// nothing is said then; the other one stays as it was.
pub(crate) fn report_words<W: Write, E: Write>(
    kind: ErrorKind,
    text: &str,
    output: &mut W,
    errors: &mut E,
) -> io::Result<()>
    ensures { MatchResult result
        (λ _. IsReportedBy kind text.now (W.contents output.old) (W.contents output.new)
        (E.contents errors.old) (E.contents errors.new))
        (λ _. FailsToReport kind (W.contents output.old) (W.contents output.new)
        (E.contents errors.old) (E.contents errors.new)) }
{
    match kind {
        ErrorKind::OutOfMemory => Ok(()),
        ErrorKind::DisplayHelp | ErrorKind::DisplayVersion => output.write_all(text.as_bytes()),
        _ => errors.write_all(text.as_bytes()),
    }
}

/// The status with which the program ends where its words ask for no command, and this is printed of them: 0 of help and the
/// version, else 2. Want of memory is refused by `NoMemory`, whose status that of the program is.
pub(crate) fn words_status(kind: ErrorKind) -> u8
    ensures { result ≡ words_status kind }
{
    match kind {
        ErrorKind::DisplayHelp | ErrorKind::DisplayVersion => PRINTED,
        _ => USAGE,
    }
}
