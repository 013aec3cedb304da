//! The frames of a poll as lines, written through a buffer of fixed length. docs/CONTROL.md, "Lines".

ghost use Rattle.std.specs.Prelude.{◌≡◌, ◌≤◌, ◌+◌, ◌*◌, ◌++◌, OnOk, codes, length, take};
ghost use Rattle.std.specs.Fmt.{signed_decimal};
ghost use Rattle.std.specs.Io.KnownBytes.{Appends};
ghost use Rattle.std.specs.List.{flat_map};
ghost use Rattle.hex.specs.Hex.{encode_lower};
ghost use Rattle.control_lines.specs.ReplyText.{encoded_line, end_line, frame_line};

use crate::hex_digits::encode_over;
use archive_model::PolledFrame;
use std::io::{self, Write};

/// Bytes of a payload whose digits are written at once at most.
const DIGITS_OF: usize = 2_000;

/// Bytes of text that are written at once at most: a line up to its payload, those digits and the line's end.
const WRITTEN_AT_ONCE: usize = 4_096;

/// Where frames' lines are put together. One serves any number of lines, one after another.
#[derive(Drop)]
pub struct TextBuffer {
    bytes: [u8; WRITTEN_AT_ONCE],
}

impl TextBuffer {
    /// A buffer for lines. Does not allocate.
    pub fn new() -> TextBuffer {
        TextBuffer {
            bytes: [0; WRITTEN_AT_ONCE],
        }
    }
}

/// Puts a text next to the first `at` bytes, and returns where it ends.
fn put(text: &[u8], out: &mut [u8], at: usize) -> usize
    requires room { at + length text.now ≤ length out.old }
    ensures end { result ≡ at + length text.now }
    ensures text { take result out.new ≡ take at out.old ++ text.now }
    ensures long { length out.new ≡ length out.old }
{
    let end = at + text.len();
    out[at..end].copy_from_slice(text);
    end
}

/// Puts the digits of bytes next to the first `at` bytes, and returns where they end.
fn put_digits(bytes: &[u8], out: &mut [u8], at: usize) -> usize
    requires room { at + 2 * length bytes.now ≤ length out.old }
    ensures end { result ≡ at + 2 * length bytes.now }
    ensures text { take result out.new ≡ take at out.old ++ encode_lower bytes.now }
    ensures long { length out.new ≡ length out.old }
{
    let end = at + 2 * bytes.len();
    encode_over(bytes, &mut out[at..end]);
    end
}

/// Puts a line up to its payload over the first bytes, and returns where that ends.
fn put_front(position: i64, header: &[u8; 32], out: &mut [u8]) -> usize
    requires room { 91 ≤ length out.old }
    ensures short { result ≤ 91 }
    ensures text { take result out.new
        ≡ codes "frame " ++ (signed_decimal position ++ (codes " " ++ encode_lower header.now)) }
    ensures long { length out.new ≡ length out.old }
{
    let mut number = itoa::Buffer::new();
    let at = put(b"frame ", out, 0);
    let at = put(number.format(position).as_bytes(), out, at);
    let at = put(b" ", out, at);
    put_digits(header, out, at)
}

/// Writes the line of a frame, whose encoding is a header and a payload. Does not allocate. Fails if the writer does.
/// Costs the line's bytes, and one call of the writer for a payload of up to 2,000 bytes.
pub fn write_frame_line<W: Write>(
    position: i64,
    header: &[u8; 32],
    payload: &[u8],
    buffer: &mut TextBuffer,
    writer: &mut W,
) -> io::Result<()>
    ensures { OnOk result (Appends (W.contents writer.old) (W.contents writer.new)
        (encoded_line position (header.now ++ payload.now))) }
{
    let out = &mut buffer.bytes;
    let mut end = put_front(position, header, out);
    let mut rest = payload;
    while rest.len() > DIGITS_OF {
        let (now, later) = rest.split_at(DIGITS_OF);
        end = put_digits(now, out, end);
        writer.write_all(&out[..end])?;
        end = 0;
        rest = later;
    }
    end = put_digits(rest, out, end);
    end = put(b"\n", out, end);
    writer.write_all(&out[..end])
}

/// Writes a polled frame's line. Fails if the writer does.
pub(crate) fn write_frame<W: Write>(
    polled: &PolledFrame,
    buffer: &mut TextBuffer,
    writer: &mut W,
) -> io::Result<()>
    ensures { OnOk result
        (Appends (W.contents writer.old) (W.contents writer.new) (frame_line polled.now)) }
{
    let frame = &polled.frame;
    write_frame_line(
        polled.position,
        &frame.header(),
        frame.payload.as_slice(),
        buffer,
        writer,
    )
}

/// Writes the line of where a poll ended. Fails if the writer does.
fn write_end<W: Write>(next: Option<i64>, writer: &mut W) -> io::Result<()>
    ensures { OnOk result
        (Appends (W.contents writer.old) (W.contents writer.new) (end_line next)) }
{
    match next {
        None => writer.write_all(b"done\n"),
        Some(next) => writeln!(writer, "more {next}"),
    }
}

/// Writes the frames of a poll, a line each, and where it ended. Does not allocate. Fails if the writer does. Costs the
/// text's length.
pub fn write_polled<W: Write>(
    frames: &[PolledFrame],
    next: Option<i64>,
    writer: &mut W,
) -> io::Result<()>
    ensures { OnOk result (Appends (W.contents writer.old) (W.contents writer.new)
        (flat_map frame_line frames.now ++ end_line next)) }
{
    let mut buffer = TextBuffer::new();
    for frame in frames {
        write_frame(frame, &mut buffer, writer)?;
    }
    write_end(next, writer)
}
