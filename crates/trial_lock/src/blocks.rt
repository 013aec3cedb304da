//! Recordings and their blocks.

use archive_model::{Channel, ExtendFields, SourceIdentity, StartFields};
use frame_core::{Block, Frame, FrameKind, Items};
use std::alloc::{AllocError, Global};

/// Bytes of a term, and of a segment, where a recording is to have many.
pub(crate) const SHORT_TERM: i32 = 65_536;

/// Bytes of the longest term.
pub(crate) const LONG_TERM: i32 = 1_073_741_824;

const MTU: i32 = 1_408;

/// The frames of a block of nearly 64 KiB.
const FRAMES: i64 = 46;

/// The fields of a recording that begins at 0.
pub(crate) fn fields(alloc: Global, term_length: i32) -> Result<StartFields, AllocError> {
    Ok(StartFields {
        stream_id: 1_001,
        session_id: 7,
        initial_term_id: 42,
        term_length,
        mtu: MTU,
        segment_length: term_length,
        start_position: 0,
        timestamp: 1_000,
        channel: Channel::new(String::from_str(alloc, "c")?),
        source_identity: SourceIdentity::none(alloc),
    })
}

/// How a recording of short terms goes on.
pub(crate) fn extension(recording: i64, join_position: i64) -> ExtendFields {
    ExtendFields {
        recording,
        stream_id: 1_001,
        session_id: 7,
        initial_term_id: 42,
        term_length: SHORT_TERM,
        mtu: MTU,
        join_position,
    }
}

fn lesser(number: i64) -> i32 {
    i32::try_from(number).unwrap_or(0)
}

/// A frame at a position.
fn frame(
    term_length: i32,
    kind: FrameKind,
    position: i64,
    length: i64,
    payload: Items<u8>,
) -> Frame {
    let term = i64::from(term_length);
    let offset = position.checked_rem(term).unwrap_or(0);
    let terms = position.checked_div(term).unwrap_or(0);
    Frame {
        kind,
        flags: 0xc0,
        length: lesser(length),
        term_offset: lesser(offset),
        session_id: 7,
        stream_id: 1_001,
        term_id: lesser(terms).wrapping_add(42),
        reserved: 0,
        payload,
    }
}

/// A frame of 64 bytes at a position, which it tells, beside who sends it.
fn told_frame(
    alloc: Global,
    term_length: i32,
    position: i64,
    sender: i64,
) -> Result<Frame, AllocError> {
    let mut payload = position.to_le_bytes().to_vec(alloc)?;
    payload.extend_from_slice(&sender.to_le_bytes())?;
    Ok(frame(
        term_length,
        FrameKind::Message,
        position,
        48,
        Items::from_vec(payload),
    ))
}

/// The block of such a frame.
pub(crate) fn small_block(
    alloc: Global,
    term_length: i32,
    position: i64,
    sender: i64,
) -> Result<Block, AllocError> {
    let mut frames = Items::new(alloc);
    frames.push(told_frame(alloc, term_length, position, sender)?)?;
    Ok(Block { position, frames })
}

/// The block of a pad from a position to the end of its term.
pub(crate) fn pad_block(alloc: Global, position: i64) -> Result<Block, AllocError> {
    let term = i64::from(SHORT_TERM);
    let rest = term.wrapping_sub(position.wrapping_rem_euclid(term));
    let mut frames = Items::new(alloc);
    frames.push(frame(
        SHORT_TERM,
        FrameKind::Pad,
        position,
        rest,
        Items::new(alloc),
    ))?;
    Ok(Block { position, frames })
}

/// A block of nearly 64 KiB, at a position that it does not leave the term of.
pub(crate) fn large_block(alloc: Global, position: i64) -> Result<Block, AllocError> {
    let mut frames = Items::new(alloc);
    for index in 0..FRAMES {
        let at = position.wrapping_add(index.wrapping_mul(i64::from(MTU)));
        let payload = Items::from_vec(vec![in alloc; 7; 1_376]?);
        frames.push(frame(LONG_TERM, FrameKind::Message, at, i64::from(MTU), payload))?;
    }
    Ok(Block { position, frames })
}

/// The bytes that such a block covers.
pub(crate) const LARGE_BLOCK: i64 = 64_768;

/// The bytes that a small block covers.
pub(crate) const SMALL_BLOCK: i64 = 64;
