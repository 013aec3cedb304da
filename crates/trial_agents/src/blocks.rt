//! Recordings, their blocks and datagrams.

use agents_core::BlockSource;
use archive_model::{Channel, ExtendFields, SourceIdentity, StartFields};
use frame_core::{Block, Frame, FrameKind, Items, Setup};
use std::alloc::{AllocError, Global};

const MTU: i32 = 1_408;

/// Bytes of a term, and of a segment, of a recording of small blocks.
pub(crate) const SHORT_TERM: i32 = 65_536;

/// Bytes of a term of a recording of large blocks.
pub(crate) const LONG_TERM: i32 = 1_073_741_824;

/// The bytes that a frame of a small block covers.
const SMALL_FRAME: i64 = 64;

/// The frames of a large block.
const FRAMES: i64 = 46;

/// The bytes that a large block covers.
pub(crate) const LARGE_BLOCK: i64 = 64_768;

/// The fields of a recording that begins at 0.
pub(crate) fn fields(alloc: Global, term_length: i32) -> Result<StartFields, AllocError> {
    Ok(StartFields {
        stream_id: 1_001,
        session_id: 7,
        initial_term_id: 42,
        term_length,
        mtu: MTU,
        segment_length: term_length,
        start_position: 0,
        timestamp: 1_000,
        channel: Channel::new(String::from_str(alloc, "c")?),
        source_identity: SourceIdentity::none(alloc),
    })
}

/// How a recording of small blocks goes on.
pub(crate) fn extension(recording: i64, join_position: i64) -> ExtendFields {
    ExtendFields {
        recording,
        stream_id: 1_001,
        session_id: 7,
        initial_term_id: 42,
        term_length: SHORT_TERM,
        mtu: MTU,
        join_position,
    }
}

/// The setup frame of the stream of large blocks.
pub(crate) const SETUP: Setup = Setup {
    flags: 0,
    term_offset: 0,
    session_id: 7,
    stream_id: 1_001,
    initial_term_id: 42,
    active_term_id: 42,
    term_length: LONG_TERM,
    mtu: MTU,
    ttl: 0,
};

fn lesser(number: i64) -> i32 {
    i32::try_from(number).unwrap_or(0)
}

/// A message at a position.
fn message(term_length: i32, position: i64, length: i64, payload: Items<u8>) -> Frame {
    let term = i64::from(term_length);
    let offset = position.checked_rem(term).unwrap_or(0);
    let terms = position.checked_div(term).unwrap_or(0);
    Frame {
        kind: FrameKind::Message,
        flags: 0xc0,
        length: lesser(length),
        term_offset: lesser(offset),
        session_id: 7,
        stream_id: 1_001,
        term_id: lesser(terms).wrapping_add(42),
        reserved: 0,
        payload,
    }
}

/// A frame of 64 bytes, which tells its position and its recording.
fn small_frame(alloc: Global, position: i64, recording: i64) -> Result<Frame, AllocError> {
    let mut payload = position.to_le_bytes().to_vec(alloc)?;
    payload.extend_from_slice(&recording.to_le_bytes())?;
    Ok(message(SHORT_TERM, position, 48, Items::from_vec(payload)))
}

/// The block of so many of them.
fn small_block(
    alloc: Global,
    position: i64,
    recording: i64,
    count: u32,
) -> Result<Block, AllocError> {
    let mut frames = Items::new(alloc);
    for index in 0..count {
        let at = position.wrapping_add(i64::from(index).wrapping_mul(SMALL_FRAME));
        frames.push(small_frame(alloc, at, recording)?)?;
    }
    Ok(Block { position, frames })
}

/// Small blocks from a position on, so many.
#[derive(Drop)]
pub(crate) struct Blocks {
    /// Where it allocates.
    pub alloc: Global,
    /// The recording that the frames tell.
    pub recording: i64,
    /// Where the next block begins, in bytes of the stream.
    pub next: i64,
    /// How many frames each block has.
    pub frames: u32,
    /// How many blocks are left.
    pub left: u32,
}

impl BlockSource for Blocks {
    ghost use Rattle.std.specs.Prelude.{⊤};

    ghost gives = { λ old block new. ⊤ };

    fn next(&mut self) -> Option<Block> {
        if self.left == 0 {
            return None;
        }
        let block = small_block(self.alloc, self.next, self.recording, self.frames).ok()?;
        self.left -= 1;
        let length = i64::from(self.frames).wrapping_mul(SMALL_FRAME);
        self.next = self.next.wrapping_add(length);
        Some(block)
    }
}

/// The datagram of the frames of a large block, of 1,408 bytes each.
fn datagram(alloc: Global, position: i64) -> Result<Vec<u8>, AllocError> {
    let mut bytes = Vec::new(alloc);
    for index in 0..FRAMES {
        let at = position.wrapping_add(index.wrapping_mul(i64::from(MTU)));
        let frame = message(LONG_TERM, at, i64::from(MTU), Items::new(alloc));
        bytes.extend_from_slice(&frame.header())?;
        bytes.extend_from_slice(&[7; 1_376])?;
    }
    Ok(bytes)
}

/// The datagrams of so many large blocks.
pub(crate) fn datagrams(alloc: Global, blocks: u32) -> Result<Vec<Vec<u8>>, AllocError> {
    let mut all = Vec::new(alloc);
    for index in 0..blocks {
        all.push(datagram(alloc, i64::from(index).wrapping_mul(LARGE_BLOCK))?)?;
    }
    Ok(all)
}
