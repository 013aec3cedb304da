//! The frames of a segment file as lines. docs/CONTROL.md, "Frames of a file".

ghost use Rattle.std.specs.Prelude.{◌≡◌, ◌<◌, ◌≤◌, IfErr, IfOk, OnOk};
ghost use Rattle.std.specs.Io.KnownBytes.{Appends};
ghost use Rattle.frame_core.specs.FrameEncoding.{frame_of, type_of};
ghost use Rattle.archive_commands.specs.Stored.{FailsToWriteLine, ListsNext};
ghost use Rattle.archive_commands.specs.FrameLines.{IsListing, Lists, ListsSome, end_text, frame_text};

use crate::stored::{Next, pass_next, read_header};
use frame_core::limits::HEADER_LENGTH;
use frame_core::{FrameKind, FrameRef, Refusal};
use std::alloc::Global;
use std::io::{BufRead, BufReader, Read, Write};
use tool_core::{EarlyEnd, MAX_READS, READ_AHEAD, write_refusal};

/// How a listing of a file's frames ended.
#[derive(Clone, Copy, Debug, PartialEq, Eq)]
pub enum Listing {
    /// The file's frames were listed up to their end.
    Whole,
    /// Behind the last frame that was listed stands what is none.
    Damaged,
}

/// The number in the header's type field.
fn type_number(kind: FrameKind) -> u16
    ensures { result ≡ type_of kind }
{
    match kind {
        FrameKind::Pad => 0,
        FrameKind::Message | FrameKind::Heartbeat => 1,
    }
}

/// Writes a frame's line.
#[tactic(auto, using(std::proofs::lemmas::Fmt::hex_byte))]
fn write_frame<W: Write>(header: &FrameRef<'_>, writer: &mut W) -> Result<(), EarlyEnd>
    ensures ok { OnOk result
        (Appends (W.contents writer.old) (W.contents writer.new) (frame_text (frame_of header.now))) }
    ensures err { IfErr result (λ end. end ≡ EarlyEnd.Write) }
{
    let FrameRef {
        kind,
        flags,
        length,
        term_offset,
        term_id,
        ..
    } = *header;
    let number = type_number(kind);
    writeln!(
        writer,
        "frame {term_id} {term_offset} {number} {length} {flags:02x}",
    )
    .map_err(|_| EarlyEnd::Write)
}

/// Writes the last line of a file whose frames end.
fn write_end<W: Write>(count: u64, writer: &mut W) -> Result<(), EarlyEnd>
    ensures ok { OnOk result
        (Appends (W.contents writer.old) (W.contents writer.new) (end_text count)) }
    ensures err { IfErr result (λ end. end ≡ EarlyEnd.Write) }
{
    writeln!(writer, "end {count}").map_err(|_| EarlyEnd::Write)
}

/// How far a listing has come.
#[derive(Drop)]
struct Listed {
    /// Reads of the file.
    reads: u64,
    /// Frames that were listed.
    count: u64,
    /// Bytes of the file that they cover.
    offset: usize,
}

impl Listed {
    ghost use Rattle.archive_commands.specs.Stored.{Counts};

    /// Counts a frame. `Read` where the file has more bytes than can be counted.
    fn add(&mut self, header: &FrameRef<'_>) -> Result<(), EarlyEnd>
        requires { self.old.count < self.old.reads }
        ensures counts { OnOk result (Counts self.old self.new (frame_of header.now)) }
        ensures reads { self.new.reads ≡ self.old.reads }
        ensures fault { IfErr result (λ end. end ≡ EarlyEnd.Read) }
    {
        let size = header.aligned_length() as usize;
        let Some(offset) = self.offset.checked_add(size) else {
            return Err(EarlyEnd::Read);
        };
        self.offset = offset;
        self.count += 1;
        Ok(())
    }
}

/// Lists what stands next in the file, and answers how the listing ended, if it did.
fn list_next<R: BufRead, W: Write>(
    reader: &mut R,
    progress: &mut Listed,
    writer: &mut W,
) -> Result<Option<Listing>, EarlyEnd>
    requires { progress.old.count ≤ progress.old.reads }
    ensures listed { IfOk result (λ ended. ListsNext ended (R.remaining reader.old) (R.remaining reader.new)
        (W.contents writer.old) (W.contents writer.new) progress.old progress.new) }
    ensures counted { OnOk result
        ((progress.old.reads < MAX_READS) × (progress.old.reads < progress.new.reads)) }
    ensures fewer { OnOk result (progress.new.count ≤ progress.new.reads) }
    ensures early { IfErr result (λ end. FailsToWriteLine end (W.contents writer.old) (W.contents writer.new)) }
{
    let mut bytes = [0; HEADER_LENGTH];
    let size = read_header(reader, &mut progress.reads, &mut bytes)?;
    match pass_next(reader, &mut progress.reads, &bytes[..size])? {
        Next::Stored(header) => {
            progress.add(&header)?;
            write_frame(&header, writer)?;
            Ok(None)
        }
        Next::End => {
            write_end(progress.count, writer)?;
            Ok(Some(Listing::Whole))
        }
        Next::NoFrame => {
            let offset = progress.offset;
            write_refusal(&Refusal::BadFrame { offset }, writer)?;
            Ok(Some(Listing::Damaged))
        }
    }
}

/// Lists one frame after another.
fn list_all<R: BufRead, W: Write>(reader: &mut R, writer: &mut W) -> Result<Listing, EarlyEnd>
    ensures listed { IfOk result (λ listing. Lists (R.remaining reader.old)
        (W.contents writer.old) (W.contents writer.new) (IsListing listing)) }
    ensures early { IfErr result (λ end. ListsSome end (R.remaining reader.old)
        (W.contents writer.old) (W.contents writer.new)) }
{
    let mut progress = Listed {
        reads: 0,
        count: 0,
        offset: 0,
    };
    loop {
        if let Some(listing) = list_next(reader, &mut progress, writer)? {
            return Ok(listing);
        }
    }
}

/// Lists the frames of a segment file on a writer, from the file's first byte on: docs/CONTROL.md, "Frames of a file".
/// `Whole` where they end, at the file's end or before a length of 0; `Damaged` where what stands behind them is no frame.
/// Takes one buffer of 65,536 bytes, whatever the file's length. What the writer had stays before what it gains.
///
/// `Read` where the file cannot be read on, was read 9,223,372,036,854,775,807 times, or has more than
/// 18,446,744,073,709,551,615 bytes: the lines of its first frames are written. `Memory` where there is none for the
/// buffer, and then nothing is written. `Write` where the writer fails.
pub fn list_frames<R: Read + Drop, W: Write>(
    alloc: Global,
    reader: R,
    writer: &mut W,
) -> Result<Listing, EarlyEnd>
    ensures listed { IfOk result (λ listing. Lists (R.remaining reader)
        (W.contents writer.old) (W.contents writer.new) (IsListing listing)) }
    ensures early { IfErr result (λ end. ListsSome end (R.remaining reader)
        (W.contents writer.old) (W.contents writer.new)) }
{
    let Ok(mut reader) = BufReader::with_capacity(alloc, READ_AHEAD, reader) else {
        return Err(EarlyEnd::Memory);
    };
    list_all(&mut reader, writer)
}
