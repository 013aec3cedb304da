//! The lines of an input, one after another. docs/CONTROL.md, "Scripts".

ghost use Rattle.std.specs.Prelude.{◌≡◌, ◌≢◌, ◌↔◌, ◌<◌, ◌≤◌, ◌+◌, ℕ, [], take, slice_index, length, IsTrue, IfOk, IfErr, OnOk, IfSome, IfNone, MatchOption, MatchBool};
ghost use Rattle.std.specs.Io.KnownBytes.{IsAtEnd};
ghost use Rattle.tool_core.specs.InputLines.{kept, ReadsLine};
ghost use Rattle.tool_core.specs.Parts.{HasNoEnd, LineGrows, IsSpent, TakesPart};

use crate::fault::EarlyEnd;
use frame_core::limits::MAX_LINE_LENGTH;
use memchr::memchr;
use std::alloc::{AllocError, Global};
use std::io::{BufRead, ErrorKind};
use std::marker::Model;

/// How often a script reads its input at most.
pub const MAX_READS: u64 = 9_223_372_036_854_775_807;

/// What is kept of a line while it is read. To a contract it is the line, or none where that is too long.
#[derive(Debug, Drop)]
pub struct LineBuffer {
    bytes: Vec<u8>,
    is_too_long: bool,
}

impl Model for LineBuffer {
    ghost use Rattle.std.specs.Prelude.{ℕ, ◌≤◌, List, Option, Some, None, vec_len, if◌then◌else◌};

    ghost Value = { Option (List ℕ) };

    ghost view = { λ line. if line.is_too_long then None else Some line.bytes.items };

    ghost invariant = { λ line. vec_len line.bytes ≤ 262144 };
}

impl LineBuffer {
    /// An empty line. Takes no memory.
    pub fn new(alloc: Global) -> LineBuffer
        ensures { result ≡ Some [] }
    {
        LineBuffer {
            bytes: Vec::new(alloc),
            is_too_long: false,
        }
    }

    /// The line without its end, or none where it is too long.
    pub fn bytes(&self) -> Option<&[u8]>
        ensures { MatchOption result (self.now ≡ None) (λ line. self.now ≡ Some line.now) }
    {
        if self.is_too_long {
            None
        } else {
            Some(self.bytes.as_slice())
        }
    }

    fn is_empty(&self) -> bool
        ensures { IsTrue result ↔ (self.now ≡ Some []) }
    {
        !self.is_too_long && self.bytes.is_empty()
    }

    fn clear(&mut self)
        ensures { self.new ≡ Some [] }
    {
        self.bytes.clear();
        self.is_too_long = false;
    }

    fn add(&mut self, text: &[u8]) -> Result<(), AllocError>
        ensures { OnOk result (LineGrows self.old self.new text.now) }
    {
        if self.is_too_long {
            return Ok(());
        }
        if text.len() > MAX_LINE_LENGTH - self.bytes.len() {
            self.is_too_long = true;
            return Ok(());
        }
        self.bytes.extend_from_slice(text)
    }
}

/// What one read of an input found.
#[derive(Clone, Copy, Debug, PartialEq, Eq)]
pub(crate) enum Part {
    /// A part of a line, perhaps an empty one, and not its end.
    More,
    /// The rest of a line, and its end.
    Ended,
    /// Nothing: the input has no further byte.
    AtEnd,
}

/// Counts a read of an input. `Read` where as many as may be were made.
pub fn count_read(reads: &mut u64) -> Result<(), EarlyEnd>
    ensures counted { OnOk result ((reads.old < MAX_READS) × (reads.new ≡ reads.old + 1)) }
    ensures spent { IfErr result (λ end. end ≡ EarlyEnd.Read) }
{
    if *reads >= MAX_READS {
        return Err(EarlyEnd::Read);
    }
    *reads += 1;
    Ok(())
}

fn line_end(shown: &[u8]) -> Option<usize>
    ensures found { IfSome result (λ at. (at < length shown.now) × (slice_index shown.now at ≡ 10)
        × HasNoEnd (take at shown.now)) }
    ensures none { IfNone result (HasNoEnd shown.now) }
{
    memchr(b'\n', shown)
}

/// Reads the input once, and counts the read; where as many as may be were made, nothing is read. A read that a
/// signal interrupts takes nothing.
fn take_part<R: BufRead>(
    reader: &mut R,
    reads: &mut u64,
    line: &mut LineBuffer,
) -> Result<Part, EarlyEnd>
    ensures taken { IfOk result (λ part.
        TakesPart part (R.remaining reader.old) (R.remaining reader.new) line.old line.new) }
    ensures counted { OnOk result ((reads.old < MAX_READS) × (reads.new ≡ reads.old + 1)) }
    ensures spent { MAX_READS ≤ reads.old → IsSpent result (R.remaining reader.old) (R.remaining reader.new) }
    ensures faults { IfErr result (λ fault. fault ≢ EarlyEnd.Write) }
{
    count_read(reads)?;
    let shown = match reader.fill_buf() {
        Ok(shown) => shown,
        Err(e) => {
            return if e.kind() == ErrorKind::Interrupted {
                Ok(Part::More)
            } else {
                Err(EarlyEnd::Read)
            };
        }
    };
    if shown.is_empty() {
        return Ok(Part::AtEnd);
    }
    match line_end(shown) {
        Some(at) => {
            line.add(&shown[..at])?;
            reader.consume(at + 1);
            Ok(Part::Ended)
        }
        None => {
            let used = shown.len();
            line.add(shown)?;
            reader.consume(used);
            Ok(Part::More)
        }
    }
}

/// Reads the next line of an input, and answers whether there was one. Costs the line's length.
///
/// `reads` counts the reads of the buffer, at least as many as those of the input, also those that a signal interrupts.
/// `Read` where the input fails, or was read `MAX_READS` times, and then nothing more is taken of it; `Memory`
/// where the line finds no memory. What was read of the line is then lost.
pub fn read_line<R: BufRead>(
    reader: &mut R,
    reads: &mut u64,
    line: &mut LineBuffer,
) -> Result<bool, EarlyEnd>
    ensures counted { OnOk result ((reads.old < MAX_READS) × (reads.old < reads.new)) }
    ensures found { IfOk result (λ is_line. MatchBool is_line
        (ReadsLine (R.remaining reader.old) (R.remaining reader.new) line.new)
        (IsAtEnd (R.remaining reader.old))) }
    ensures spent { MAX_READS ≤ reads.old → IsSpent result (R.remaining reader.old) (R.remaining reader.new) }
    ensures faults { IfErr result (λ fault. fault ≢ EarlyEnd.Write) }
{
    line.clear();
    loop {
        match take_part(reader, reads, line) {
            Ok(Part::More) => {}
            Ok(Part::Ended) => return Ok(true),
            Ok(Part::AtEnd) => return Ok(!line.is_empty()),
            Err(fault) => return Err(fault),
        }
    }
}
