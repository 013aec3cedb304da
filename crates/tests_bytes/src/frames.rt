//! Lines about bytes alone, and about positions: docs/PROTOCOL.md up to "Blocks", and "Repair". README.md, "Frames".

use crate::words::{bytes_of, int, numbers, put_bytes, put_frame, put_status};
use frame_core::{
    Frame, Geometry, Nak, Publication, Refusal, Setup, StatusMessage, are_encodable, block_end,
    block_of, decode_front, encode_into, frames_of_datagram, position, term_of,
};
use image_core::repair;
use std::alloc::Global;

// The terms and the publication of the vectors.
const TERMS: Geometry = Geometry {
    initial_term_id: 42,
    term_length: 65_536,
    mtu: 1_408,
};

const PUBLICATION: Publication = Publication {
    session_id: 7,
    stream_id: 1_001,
};

/// Adds what a line is answered, and returns whether its word is one of these.
pub(crate) fn reply(
    alloc: Global,
    out: &mut String,
    word: &str,
    rest: &str,
) -> Result<bool, Refusal> {
    match word {
        "front" => put_front(alloc, out, rest)?,
        "write" => put_written(alloc, out, rest)?,
        "datagram" => put_datagram(alloc, out, rest)?,
        "block" => put_block(alloc, out, rest)?,
        "read-setup" => put_setup(alloc, out, rest)?,
        "read-nak" => put_nak(alloc, out, rest)?,
        "read-status" => put_read_status(alloc, out, rest)?,
        "position" => put_position(out, rest)?,
        "term" => put_term(out, rest)?,
        "repair" => put_repaired(alloc, out, rest)?,
        _ => return Ok(false),
    }
    Ok(true)
}

/// Adds the frame in front of some bytes, and how many of them it uses.
fn put_front(alloc: Global, out: &mut String, digits: &str) -> Result<(), Refusal> {
    let bytes = bytes_of(alloc, digits)?;
    let (frame, used) = decode_front(bytes.as_slice())?;
    put_frame(alloc, out, &frame)?;
    writeln!(out, "used {used}")?;
    Ok(())
}

/// Adds how many bytes the frame in front of some bytes is written as, and 40 bytes of 255 after it was written over them.
fn put_written(alloc: Global, out: &mut String, digits: &str) -> Result<(), Refusal> {
    let bytes = bytes_of(alloc, digits)?;
    let (frame, _) = decode_front(bytes.as_slice())?;
    let frame = frame.to_frame(alloc)?;
    let mut room = [0xff; 40];
    if !frame.is_encodable() || frame.encoded_length() > room.len() {
        return Err(Refusal::BadParameter);
    }
    let size = encode_into(&frame, &mut room);
    write!(out, "wrote {size} ")?;
    put_bytes(alloc, out, "bytes", &room)
}

/// Adds the frames of a datagram.
fn put_datagram(alloc: Global, out: &mut String, digits: &str) -> Result<(), Refusal> {
    let bytes = bytes_of(alloc, digits)?;
    for frame in frames_of_datagram(alloc, bytes.as_slice())?.as_slice() {
        put_frame(alloc, out, frame)?;
    }
    Ok(())
}

/// Adds where the block of some bytes begins and ends in the vectors' publication, and its frames.
fn put_block(alloc: Global, out: &mut String, digits: &str) -> Result<(), Refusal> {
    let bytes = bytes_of(alloc, digits)?;
    let block = block_of(alloc, &TERMS, bytes.as_slice())?;
    write!(out, "block {}", block.position)?;
    match block_end(&TERMS, &PUBLICATION, &block) {
        Some(end) => writeln!(out, " to {end}")?,
        None => writeln!(out, " of another publication")?,
    }
    for frame in block.frames.as_slice() {
        put_frame(alloc, out, &frame.as_ref())?;
    }
    Ok(())
}

/// Adds the fields of a setup frame, its terms, where an image of it joins, and the bytes that it is written as.
fn put_setup(alloc: Global, out: &mut String, digits: &str) -> Result<(), Refusal> {
    let bytes = bytes_of(alloc, digits)?;
    let setup = Setup::decode(bytes.as_slice())?;
    put_fields(out, &setup)?;
    put_terms(out, &setup.geometry())?;
    match setup.join_position() {
        Some(position) => writeln!(out, "joins {position}")?,
        None => writeln!(out, "joins nowhere")?,
    }
    put_bytes(alloc, out, "bytes", &setup.encode())
}

/// Adds the fields of a setup frame.
fn put_fields(out: &mut String, setup: &Setup) -> Result<(), Refusal> {
    let Setup {
        flags,
        term_offset,
        session_id,
        stream_id,
        initial_term_id,
        active_term_id,
        term_length,
        mtu,
        ttl,
    } = *setup;
    write!(out, "setup flags {flags:02x} offset {term_offset} ")?;
    write!(out, "session {session_id} stream {stream_id} ")?;
    write!(out, "initial {initial_term_id} active {active_term_id} ")?;
    writeln!(out, "length {term_length} mtu {mtu} ttl {ttl}")?;
    Ok(())
}

/// Adds the terms of a publication.
fn put_terms(out: &mut String, terms: &Geometry) -> Result<(), Refusal> {
    let Geometry {
        initial_term_id,
        term_length,
        mtu,
    } = *terms;
    writeln!(
        out,
        "terms from {initial_term_id} of {term_length} mtu {mtu}"
    )?;
    Ok(())
}

/// Adds the fields of a NAK, and the bytes that it is written as.
fn put_nak(alloc: Global, out: &mut String, digits: &str) -> Result<(), Refusal> {
    let bytes = bytes_of(alloc, digits)?;
    let nak = Nak::decode(bytes.as_slice())?;
    let Nak {
        session_id,
        stream_id,
        term_id,
        term_offset,
        length,
    } = nak;
    write!(out, "nak session {session_id} stream {stream_id} ")?;
    writeln!(out, "term {term_id} offset {term_offset} length {length}")?;
    put_bytes(alloc, out, "bytes", &nak.encode())
}

/// Adds the fields of a status message, and the bytes that it is written as.
fn put_read_status(alloc: Global, out: &mut String, digits: &str) -> Result<(), Refusal> {
    let bytes = bytes_of(alloc, digits)?;
    let status = StatusMessage::decode(bytes.as_slice())?;
    put_status(out, &status)?;
    put_bytes(alloc, out, "bytes", &status.encode())
}

/// The terms from an id on, of so many bytes.
fn terms_of(initial: i64, length: i64) -> Result<Geometry, Refusal> {
    Ok(Geometry {
        initial_term_id: int(initial)?,
        term_length: int(length)?,
        mtu: 1_408,
    })
}

/// Adds the position of an offset in a term: the first term's id, the term length, the term's id and the offset.
fn put_position(out: &mut String, rest: &str) -> Result<(), Refusal> {
    let (initial, length, term, offset) = numbers(rest)?;
    match position(&terms_of(initial, length)?, int(term)?, int(offset)?) {
        Some(position) => writeln!(out, "position {position}")?,
        None => writeln!(out, "no position")?,
    }
    Ok(())
}

/// Adds the term of a position, and the offset there: the first term's id, the term length and the position.
fn put_term(out: &mut String, rest: &str) -> Result<(), Refusal> {
    let (initial, length, position, _) = numbers(rest)?;
    let terms = terms_of(initial, length)?;
    if terms.term_length <= 0 || position < 0 {
        return Err(Refusal::BadPosition);
    }
    if position >= (1 << 31) * i64::from(terms.term_length) {
        return Err(Refusal::BadPosition);
    }
    let (term, offset) = term_of(&terms, position);
    writeln!(out, "term {term} offset {offset}")?;
    Ok(())
}

/// The frames of a datagram, each on its own.
fn frames_in(alloc: Global, bytes: &[u8]) -> Result<Vec<Frame>, Refusal> {
    let mut frames = Vec::new(alloc);
    for frame in frames_of_datagram(alloc, bytes)?.as_slice() {
        frames.push(frame.to_frame(alloc)?)?;
    }
    Ok(frames)
}

/// Adds the datagrams that answer a NAK, of the frames of one datagram.
fn put_repaired(alloc: Global, out: &mut String, rest: &str) -> Result<(), Refusal> {
    let (nak, digits) = rest.split_once(' ').ok_or(Refusal::BadLine)?;
    let nak = Nak::decode(bytes_of(alloc, nak)?.as_slice())?;
    let bytes = bytes_of(alloc, digits)?;
    let frames = frames_in(alloc, bytes.as_slice())?;
    if !are_encodable(frames.as_slice()) {
        return Err(Refusal::BadParameter);
    }
    for datagram in repair(alloc, frames.as_slice(), &nak)?.as_slice() {
        put_bytes(alloc, out, "datagram", datagram.as_slice())?;
    }
    Ok(())
}
