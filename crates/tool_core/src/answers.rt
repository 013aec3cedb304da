//! What is written of an answer: the text of its reply, or the line of its refusal. docs/CONTROL.md, "Lines" and "Refusals".

ghost use Rattle.std.specs.Prelude.{◌≡◌, IfErr, OnOk};
ghost use Rattle.std.specs.Io.KnownBytes.{Appends};
ghost use Rattle.control_lines.specs.ReplyText.{reply_text};
ghost use Rattle.control_lines.specs.RefusalText.{refusal_text};
ghost use Rattle.tool_core.specs.Answering.{FailsToAnswer, outcome_text};

use crate::fault::EarlyEnd;
use archive_model::Reply;
use control_lines::{print_refusal, print_reply, write_polled};
use frame_core::Refusal;
use std::alloc::Global;
use std::io::Write;

/// Writes what was answered. `Memory` where a reply's text finds no memory, and then nothing is written; `Write`
/// where the writer fails.
pub fn write_outcome<W: Write>(
    alloc: Global,
    outcome: &Result<Reply, Refusal>,
    writer: &mut W,
) -> Result<(), EarlyEnd>
    ensures ok { OnOk result
        (Appends (W.contents writer.old) (W.contents writer.new) (outcome_text outcome.now)) }
    ensures err { IfErr result
        (λ fault. FailsToAnswer fault (W.contents writer.old) (W.contents writer.new)) }
{
    match outcome {
        Ok(reply) => write_reply(alloc, reply, writer),
        Err(refusal) => write_refusal(refusal, writer),
    }
}

/// Writes a reply, each line with its end: of a poll frame by frame, which does not allocate. `Memory` where its text finds
/// no memory, and then nothing is written; `Write` where the writer fails.
pub fn write_reply<W: Write>(alloc: Global, reply: &Reply, writer: &mut W) -> Result<(), EarlyEnd>
    ensures ok { OnOk result
        (Appends (W.contents writer.old) (W.contents writer.new) (reply_text reply.now)) }
    ensures err { IfErr result
        (λ fault. FailsToAnswer fault (W.contents writer.old) (W.contents writer.new)) }
{
    if let Reply::Polled { frames, next } = reply {
        return write_polled(frames.as_slice(), *next, writer).map_err(|_| EarlyEnd::Write);
    }
    let Ok(text) = print_reply(alloc, reply) else {
        return Err(EarlyEnd::Memory);
    };
    if writer.write_all(text.as_slice()).is_err() {
        return Err(EarlyEnd::Write);
    }
    Ok(())
}

/// Writes a refusal's line. `Write` where the writer fails.
pub fn write_refusal<W: Write>(refusal: &Refusal, writer: &mut W) -> Result<(), EarlyEnd>
    ensures ok { OnOk result
        (Appends (W.contents writer.old) (W.contents writer.new) (refusal_text refusal.now)) }
    ensures err { IfErr result (λ fault. fault ≡ EarlyEnd.Write) }
{
    if writer.write_all(print_refusal(refusal).as_bytes()).is_err() {
        return Err(EarlyEnd::Write);
    }
    Ok(())
}
