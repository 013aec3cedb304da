//! What stands next in a file of frames. docs/CONTROL.md, "Frames of a file".

ghost use Rattle.std.specs.Prelude.{◌≡◌, ◌↔◌, ◌<◌, ◌≤◌, ◌+◌, ℕ, List, Option, length, take, unsigned_abs, IsTrue, IfOk, IfErr, OnOk, MatchBool};
ghost use Rattle.frame_core.specs.FrameEncoding.{frame_of};
ghost use Rattle.archive_commands.specs.FrameLines.{EndsFrames, HasStored};
ghost use Rattle.archive_commands.specs.Stored.{Fills, StandsNext, LosesFirst, LosesHeader, Skips};

use frame_core::limits::HEADER_LENGTH;
use frame_core::{FrameKind, FrameRef, decode_header};
use std::io::{BufRead, ErrorKind, Read};
use tool_core::{EarlyEnd, MAX_READS, count_read};

/// What one read of a file found.
#[derive(Clone, Copy, Debug, PartialEq, Eq)]
pub(crate) enum Passage {
    /// So many further bytes, which were passed: none where a signal interrupted the read.
    Passed(usize),
    /// The file has no further byte.
    AtEnd,
}

/// What stands next in a file.
#[derive(Clone, Copy, Debug)]
pub(crate) enum Next<'a> {
    /// A frame with this header.
    Stored(FrameRef<'a>),
    /// The end of the frames.
    End,
    /// Neither.
    NoFrame,
}

/// Reads the file once, for bytes that then come first in `out`. `Read` where the file cannot be read on, or was read
/// `MAX_READS` times.
fn read_some<R: Read>(reader: &mut R, reads: &mut u64, out: &mut [u8]) -> Result<Passage, EarlyEnd>
    requires { 0 < length out.old }
    ensures filled { IfOk result (λ passage.
        Fills passage (R.remaining reader.old) (R.remaining reader.new) out.new) }
    ensures counted { OnOk result ((reads.old < MAX_READS) × (reads.new ≡ reads.old + 1)) }
    ensures fault { IfErr result (λ end. end ≡ EarlyEnd.Read) }
{
    count_read(reads)?;
    match reader.read(out) {
        Ok(0) => Ok(Passage::AtEnd),
        Ok(count) => Ok(Passage::Passed(count)),
        Err(e) if e.kind() == ErrorKind::Interrupted => Ok(Passage::Passed(0)),
        Err(_) => Err(EarlyEnd::Read),
    }
}

/// Reads the buffer once, and passes at most so many of the bytes that it shows. `Read` as for `read_some`.
fn skip_some<R: BufRead>(reader: &mut R, reads: &mut u64, most: usize) -> Result<Passage, EarlyEnd>
    ensures skipped { IfOk result (λ passage.
        Skips passage (R.remaining reader.old) (R.remaining reader.new) most) }
    ensures counted { OnOk result ((reads.old < MAX_READS) × (reads.new ≡ reads.old + 1)) }
    ensures fault { IfErr result (λ end. end ≡ EarlyEnd.Read) }
{
    count_read(reads)?;
    let shown = match reader.fill_buf() {
        Ok(shown) => shown,
        Err(e) => {
            return if e.kind() == ErrorKind::Interrupted {
                Ok(Passage::Passed(0))
            } else {
                Err(EarlyEnd::Read)
            };
        }
    };
    if shown.is_empty() {
        return Ok(Passage::AtEnd);
    }
    let count = shown.len().min(most);
    reader.consume(count);
    Ok(Passage::Passed(count))
}

/// Reads the next 32 bytes of the file, and answers how many there are. `reads` counts the reads of the file. `Read` where
/// it cannot be read on, or was read `MAX_READS` times; what was read is then lost.
pub(crate) fn read_header<R: Read>(
    reader: &mut R,
    reads: &mut u64,
    out: &mut [u8; HEADER_LENGTH],
) -> Result<usize, EarlyEnd>
    ensures size { IfOk result (λ size. size ≤ 32) }
    ensures bytes { IfOk result (λ size.
        LosesHeader (R.remaining reader.old) (R.remaining reader.new) (take size out.new)) }
    ensures counted { OnOk result ((reads.old < MAX_READS) × (reads.old < reads.new)) }
    ensures fault { IfErr result (λ end. end ≡ EarlyEnd.Read) }
{
    let mut size = 0;
    while size < HEADER_LENGTH {
        match read_some(reader, reads, &mut out[size..])? {
            Passage::Passed(count) => size += count,
            Passage::AtEnd => return Ok(size),
        }
    }
    Ok(size)
}

/// Passes the next bytes of the file, at most so many, and answers how many there are. `Read` as for `read_header`.
fn skip<R: BufRead>(reader: &mut R, reads: &mut u64, most: usize) -> Result<usize, EarlyEnd>
    ensures size { IfOk result (λ size. size ≤ most) }
    ensures bytes { IfOk result (λ size.
        LosesFirst (R.remaining reader.old) (R.remaining reader.new) most size) }
    ensures counted { OnOk result (reads.old ≤ reads.new) }
    ensures fault { IfErr result (λ end. end ≡ EarlyEnd.Read) }
{
    let mut size = 0;
    while size < most {
        match skip_some(reader, reads, most - size)? {
            Passage::Passed(count) => size += count,
            Passage::AtEnd => return Ok(size),
        }
    }
    Ok(size)
}

/// Whether the frames end before these bytes.
fn ends_frames(bytes: &[u8]) -> bool
    ensures { let ends = EndsFrames bytes.now in MatchBool result ends (ends → ⊥) }
{
    bytes.is_empty() || bytes.starts_with(&[0; 4])
}

/// Whether what a file stores of a frame is among so many bytes.
fn has_stored(header: &FrameRef<'_>, count: usize) -> bool
    ensures { let stored = HasStored header.now.kind (unsigned_abs header.now.length) count in
        MatchBool result stored (stored → ⊥) }
{
    match header.kind {
        FrameKind::Pad => true,
        FrameKind::Message => header.length.unsigned_abs() as usize <= count,
        FrameKind::Heartbeat => false,
    }
}

/// What stands next in the file, of which the first 32 bytes, or all that there are, were read: docs/CONTROL.md, "Frames of
/// a file". What the file has of a frame's aligned length is then passed. `Read` as for `read_header`.
pub(crate) fn pass_next<'a, R: BufRead>(
    reader: &mut R,
    reads: &mut u64,
    header: &'a [u8],
) -> Result<Next<'a>, EarlyEnd>
    requires size { length header.now ≤ 32 }
    ensures next { IfOk result (λ next. (old : Option (List ℕ))
        → LosesHeader old (R.remaining reader.old) header.now → StandsNext old (R.remaining reader.new) next) }
    ensures counted { OnOk result (reads.old ≤ reads.new) }
    ensures fault { IfErr result (λ end. end ≡ EarlyEnd.Read) }
{
    if ends_frames(header) {
        return Ok(Next::End);
    }
    let Some(frame) = decode_header(header) else {
        return Ok(Next::NoFrame);
    };
    let behind = (frame.aligned_length() as usize).saturating_sub(HEADER_LENGTH);
    let passed = skip(reader, reads, behind)?;
    if has_stored(&frame, HEADER_LENGTH + passed) {
        Ok(Next::Stored(frame))
    } else {
        Ok(Next::NoFrame)
    }
}
