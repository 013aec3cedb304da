//! Blocks of 46 frames of 1,408 bytes, in segment files on a disk in memory.

use disk_core::MemoryDisk;
use frame_core::{Block, Frame, FrameKind, Geometry, Items, Publication, block_end};
use segment_store::{Layout, read_frame, sync_segment, write_block};
use std::alloc::{AllocError, Global};

const GEOMETRY: Geometry = Geometry {
    initial_term_id: 42,
    term_length: 1_073_741_824,
    mtu: 1_408,
};

const PUBLICATION: Publication = Publication {
    session_id: 7,
    stream_id: 1_001,
};

const LAYOUT: Layout = Layout {
    recording: 0,
    stream_id: 1_001,
    start_position: 0,
    term_length: 1_073_741_824,
    segment_length: 1_073_741_824,
};

fn frame(alloc: Global, term_offset: i32) -> Result<Frame, AllocError> {
    let payload = vec![in alloc; 7; 1_376]?;
    Ok(Frame {
        kind: FrameKind::Message,
        flags: 0xc0,
        length: 1_408,
        term_offset,
        session_id: 7,
        stream_id: 1_001,
        term_id: 42,
        reserved: 0,
        payload: Items::from_vec(payload),
    })
}

fn block(alloc: Global, position: u32) -> Result<Block, AllocError> {
    let mut frames = Items::new(alloc);
    for index in 0..46u32 {
        let offset = position.saturating_add(index * 1_408);
        frames.push(frame(alloc, i32::try_from(offset).unwrap_or(-1))?)?;
    }
    Ok(Block {
        position: i64::from(position),
        frames,
    })
}

/// Writes and syncs a block. Whether it was stored.
#[tactic(auto, using(crate::proofs::Facts::layout_fits))]
fn store(disk: &mut MemoryDisk, block: &Block) -> bool {
    block.position >= 0
        && block_end(&GEOMETRY, &PUBLICATION, block).is_some()
        && write_block(disk, &LAYOUT, block).is_ok()
        && sync_segment(disk, &LAYOUT, block.position).is_ok()
}

/// The bytes of a frame's payload.
#[tactic(auto, using(crate::proofs::Facts::layout_fits, crate::proofs::Facts::geometry_fits))]
fn read(alloc: Global, disk: &mut MemoryDisk, position: u32) -> Option<usize> {
    let limit = i64::from(position).saturating_add(1_408);
    match read_frame(alloc, disk, &LAYOUT, &GEOMETRY, i64::from(position), limit) {
        Ok(frame) => Some(frame.payload.len()),
        Err(_) => None,
    }
}

/// Makes 2,174 blocks; from `steps` 1 on writes and syncs each; from 2 on reads each of their frames again. Gives the bytes
/// of the payloads that were read.
pub(crate) fn bytes_read(alloc: Global, steps: u32) -> Option<u64> {
    let mut disk = MemoryDisk::new(alloc);
    for index in 0..2_174u32 {
        make(alloc, &mut disk, index * 64_768, steps > 0)?;
    }
    if steps > 1 {
        all_read(alloc, &mut disk)
    } else {
        Some(0)
    }
}

/// Makes a block, and stores it where that is asked for.
fn make(alloc: Global, disk: &mut MemoryDisk, position: u32, is_stored: bool) -> Option<()> {
    let block = block(alloc, position).ok()?;
    (!is_stored || store(disk, &block)).then_some(())
}

/// Reads each frame.
fn all_read(alloc: Global, disk: &mut MemoryDisk) -> Option<u64> {
    let mut bytes = 0u64;
    for index in 0..100_004u32 {
        bytes = bytes.saturating_add(read(alloc, disk, index * 1_408)? as u64);
    }
    Some(bytes)
}
