//! What comes on a connection is printed. At its end its answer is known.

ghost use Rattle.std.specs.Prelude.{◌≡◌, ◌<◌, ℕ, List, IfErr, IfOk, OnOk, length, option_map};
ghost use Rattle.std.specs.Io.KnownBytes.{Appends};
ghost use Rattle.control_client.specs.Lines.{texts};
ghost use Rattle.control_client.specs.Replies.{answer_of};
ghost use Rattle.control_client.specs.Asking.{HasPrinted, PrintsUpTo};
ghost use Rattle.control_client.specs.Tally.{MovesPiece, StopsAt};

use crate::answer::Answer;
use crate::asking::Question;
use crate::fault::{AskFault, ConnectionFault};
use crate::tally::Tally;
use std::alloc::{AllocError, Global};
use std::io::{self, ErrorKind, Read, Write};

/// Bytes that are read at once at most.
const PIECE: usize = 65_536;

/// Prints what a reader gives until its end, as it comes, and answers what that answers to the lines of a question. Takes memory
/// for 65,536 bytes and the front of a line.
pub(crate) fn print_replies<R: Read, W: Write>(
    alloc: Global,
    question: &Question<'_>,
    replies: &mut R,
    out: &mut W,
) -> Result<Answer, AskFault>
    ensures whole { IfOk result (λ answer. (came : List ℕ)
        × HasPrinted (R.remaining replies.old) (W.contents out.old) (W.contents out.new) came
        × (answer ≡ answer_of (texts question.now.lines.now) (option_map (λ text. text.now) question.now.until) came)) }
    ensures early { IfErr result
        (PrintsUpTo (R.remaining replies.old) (W.contents out.old) (W.contents out.new)) }
{
    let mut piece = room(alloc, PIECE)?;
    let mut tally = Tally::new(alloc, question.lines, question.until);
    for _ in 0..u64::MAX {
        if !print_piece(replies, &mut piece, &mut tally, out)? {
            return Ok(tally.answer());
        }
    }
    Err(AskFault::from(lost(io::Error::from(ErrorKind::Other))))
}

/// So many bytes to read into.
fn room(alloc: Global, size: usize) -> Result<Vec<u8>, AllocError>
    ensures { IfOk result (λ room. length room.items ≡ size) }
{
    vec![in alloc; 0; size]
}

/// Prints what one read of a reader gives, and answers whether more may come. A read that a signal interrupts gives nothing.
fn print_piece<R: Read, W: Write>(
    replies: &mut R,
    piece: &mut Vec<u8>,
    tally: &mut Tally<'_>,
    out: &mut W,
) -> Result<bool, AskFault>
    requires { 0 < length piece.old.items }
    ensures moved { IfOk result (MovesPiece (R.remaining replies.old) (R.remaining replies.new)
        (W.contents out.old) (W.contents out.new) tally.old tally.new) }
    ensures stopped { IfErr result (StopsAt (R.remaining replies.old) (R.remaining replies.new)
        (W.contents out.old) (W.contents out.new)) }
    ensures length { OnOk result (length piece.new.items ≡ length piece.old.items) }
{
    let count = match replies.read(piece) {
        Ok(count) => count,
        Err(error) if error.kind() == ErrorKind::Interrupted => return Ok(true),
        Err(error) => return Err(AskFault::from(lost(error))),
    };
    let came = &piece[..count];
    print(came, out)?;
    tally.take(came)?;
    Ok(count > 0)
}

/// A connection on which reading failed.
fn lost(error: io::Error) -> ConnectionFault {
    ConnectionFault::Lost(error)
}

/// Prints bytes, and hands them on.
fn print<W: Write>(bytes: &[u8], out: &mut W) -> Result<(), AskFault>
    ensures printed { OnOk result (Appends (W.contents out.old) (W.contents out.new) bytes.now) }
    ensures fault { IfErr result (λ fault. fault ≡ AskFault.Output) }
{
    if out.write_all(bytes).is_err() || out.flush().is_err() {
        return Err(AskFault::Output);
    }
    Ok(())
}
