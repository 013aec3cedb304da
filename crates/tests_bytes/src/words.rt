//! Numbers and bytes of lines, and how an answer shows frames. README.md, "The lines".

use frame_core::{FrameKind, FrameRef, Nak, Refusal, StatusMessage};
use std::alloc::{AllocError, Global};

/// What messages carry that are named by their lengths.
static ZEROS: [u8; 2_048] = [0; 2_048];

/// The number that a word is: 0 if the word is missing. BadLine if it is not a number.
fn number(word: Option<&str>) -> Result<i64, Refusal> {
    let Some(word) = word else {
        return Ok(0);
    };
    match word.parse::<i64>() {
        Ok(number) => Ok(number),
        Err(_) => Err(Refusal::BadLine),
    }
}

/// The numbers of a line, at most four, each 0 if it is missing. BadLine if a word is not a number.
pub(crate) fn numbers(text: &str) -> Result<(i64, i64, i64, i64), Refusal> {
    let mut words = text.split(' ');
    let first = number(words.next())?;
    let second = number(words.next())?;
    let third = number(words.next())?;
    let fourth = number(words.next())?;
    Ok((first, second, third, fourth))
}

/// A number as an i32. BadLine if it is too large or too small.
pub(crate) fn int(number: i64) -> Result<i32, Refusal> {
    match i32::try_from(number) {
        Ok(number) => Ok(number),
        Err(_) => Err(Refusal::BadLine),
    }
}

/// A number from 0 on. BadLine if it is below 0.
pub(crate) fn natural(number: i64) -> Result<u64, Refusal> {
    match u64::try_from(number) {
        Ok(number) => Ok(number),
        Err(_) => Err(Refusal::BadLine),
    }
}

/// The bytes of hexadecimal digits. BadLine if the text has other characters, or an odd number of them.
pub(crate) fn bytes_of(alloc: Global, digits: &str) -> Result<Vec<u8>, Refusal> {
    match hex::decode(alloc, digits) {
        Ok(bytes) => Ok(bytes),
        Err(_) => Err(Refusal::BadLine),
    }
}

/// Adds the end of a line: a word, and bytes in hexadecimal, `none` if there are none.
pub(crate) fn put_bytes(
    alloc: Global,
    out: &mut String,
    word: &str,
    bytes: &[u8],
) -> Result<(), Refusal> {
    if bytes.is_empty() {
        writeln!(out, "{word} none")?;
        return Ok(());
    }
    let digits = hex::encode(alloc, bytes)?;
    writeln!(out, "{word} {digits}")?;
    Ok(())
}

/// Adds the line of a refusal: its number, its name, and the offset of a bad frame.
pub(crate) fn put_refusal(out: &mut String, refusal: &Refusal) -> Result<(), AllocError> {
    let number = refusal.number();
    match refusal {
        Refusal::BadFrame { offset } => writeln!(out, "error {number} BadFrame {offset}"),
        other => writeln!(out, "error {number} {other:?}"),
    }
}

/// Adds the end of a line: a request, if there is one.
pub(crate) fn put_request(
    alloc: Global,
    out: &mut String,
    request: Option<Nak>,
) -> Result<(), Refusal> {
    match request {
        Some(nak) => put_bytes(alloc, out, "nak", &nak.encode()),
        None => put_bytes(alloc, out, "nak", &[]),
    }
}

/// Adds the fields of a status message as a line.
pub(crate) fn put_status(out: &mut String, status: &StatusMessage) -> Result<(), Refusal> {
    let StatusMessage {
        flags,
        session_id,
        stream_id,
        consumption_term_id,
        consumption_term_offset,
        receiver_window,
        receiver_id,
    } = *status;
    write!(out, "status flags {flags:02x} session {session_id} ")?;
    write!(out, "stream {stream_id} term {consumption_term_id} ")?;
    write!(out, "offset {consumption_term_offset} ")?;
    writeln!(out, "window {receiver_window} receiver {receiver_id}")?;
    Ok(())
}

/// The word of a kind of frames.
fn word_of(kind: FrameKind) -> &'static str {
    match kind {
        FrameKind::Pad => "pad",
        FrameKind::Message => "message",
        FrameKind::Heartbeat => "heartbeat",
    }
}

/// Adds a frame as a line: its kind, the fields of its header in their order, and its payload.
pub(crate) fn put_frame(
    alloc: Global,
    out: &mut String,
    frame: &FrameRef<'_>,
) -> Result<(), Refusal> {
    let FrameRef {
        kind,
        flags,
        length,
        term_offset,
        session_id,
        stream_id,
        term_id,
        reserved,
        payload,
    } = *frame;
    let kind = word_of(kind);
    write!(out, "{kind} length {length} flags {flags:02x} ")?;
    write!(out, "offset {term_offset} session {session_id} ")?;
    write!(
        out,
        "stream {stream_id} term {term_id} reserved {reserved} "
    )?;
    put_bytes(alloc, out, "payload", payload)
}

/// A frame of a kind at a position of the vectors' stream, with terms of so many bytes: its length, and what it carries.
pub(crate) fn frame_at(
    kind: FrameKind,
    term_length: u64,
    position: u64,
    length: i32,
    payload: &[u8],
) -> FrameRef<'_> {
    let size = term_length.max(1);
    FrameRef {
        kind,
        flags: 0xC0,
        length,
        term_offset: (position % size % (1 << 30)) as i32,
        session_id: 7,
        stream_id: 1_001,
        term_id: 42 + (position / size % 1_000) as i32,
        reserved: 0,
        payload,
    }
}

/// The same of a message of zeros, of so many bytes with its header.
pub(crate) fn message_at(term_length: u64, position: u64, length: u64) -> FrameRef<'static> {
    let size = usize::try_from(length).unwrap_or(0).saturating_sub(32);
    let payload = ZEROS.get(..size).unwrap_or(&[]);
    let length = 32 + (payload.len() % 4_096) as i32;
    frame_at(FrameKind::Message, term_length, position, length, payload)
}
