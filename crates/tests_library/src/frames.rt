//! Frames, datagrams, blocks and items: each request for memory refused, and the order of items.

use crate::vectors::HELLO_AT_0;
use frame_core::{Geometry, Items, Refusal, block_of, decode_front, frames_of_datagram};
use std::alloc::{AllocError, Global};

const GEOMETRY: Geometry = Geometry {
    initial_term_id: 42,
    term_length: 65_536,
    mtu: 1_408,
};

/// How many frames a datagram has.
fn count_in(alloc: Global, bytes: &[u8]) -> Result<usize, Refusal> {
    Ok(frames_of_datagram(alloc, bytes)?.len())
}

/// Adds 1, and then 2 and 3 together.
fn add_items(alloc: Global, items: &mut Items<i32>) -> Result<(), AllocError> {
    items.push(1)?;
    items.append([2, 3].to_vec(alloc)?)
}

/// Items keep the order in which they were added.
#[test]
fn items_keep_their_order(rt: HostRuntime) {
    let mut items = Items::new(rt.alloc());
    assert!(rt; add_items(rt.alloc(), &mut items).is_ok());
    assert!(rt; items.as_slice() == [1, 2, 3].as_slice());
}

/// How long the copy of a vector's frame is.
fn copied_length(alloc: Global, bytes: &[u8]) -> Result<i32, Refusal> {
    let (lent, _) = decode_front(bytes)?;
    Ok(lent.to_frame(alloc)?.length)
}

/// How many frames its block has.
fn count_of_block(alloc: Global, bytes: &[u8]) -> Result<usize, Refusal> {
    Ok(block_of(alloc, &GEOMETRY, bytes)?.frames.len())
}

/// Each of these asks again where its first request for memory was refused.
fn frame_length(alloc: Global, bytes: &[u8]) -> Result<i32, Refusal> {
    match copied_length(alloc, bytes) {
        Err(Refusal::NoMemory) => copied_length(alloc, bytes),
        length => length,
    }
}

fn frame_count(alloc: Global, bytes: &[u8]) -> Result<usize, Refusal> {
    match count_in(alloc, bytes) {
        Err(Refusal::NoMemory) => count_in(alloc, bytes),
        count => count,
    }
}

fn block_count(alloc: Global, bytes: &[u8]) -> Result<usize, Refusal> {
    match count_of_block(alloc, bytes) {
        Err(Refusal::NoMemory) => count_of_block(alloc, bytes),
        count => count,
    }
}

fn item_count(alloc: Global) -> Result<usize, AllocError> {
    let mut items = Items::new(alloc);
    if items.push(1).is_err() {
        items.push(1)?;
    }
    Ok(items.len())
}

/// A refused request for memory is answered NoMemory, and the call may be made again. trials/refused_memory.py refuses
/// each of its requests in turn.
#[test]
fn refused_memory_of_frames(rt: HostRuntime) {
    let alloc = rt.alloc();
    assert!(rt; frame_length(alloc, HELLO_AT_0) == Ok(37));
    assert!(rt; frame_count(alloc, HELLO_AT_0) == Ok(1));
    assert!(rt; block_count(alloc, HELLO_AT_0) == Ok(1));
    assert!(rt; item_count(alloc) == Ok(1));
}
