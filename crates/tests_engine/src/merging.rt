//! A replay of what is recorded, merged with the frames of an image of the live stream.

use crate::scene::Scene;
use archive_model::{PolledFrame, Reply};
use control_core::Event;
use frame_core::{Frame, Geometry, Refusal, Setup};
use image_core::Image;
use merge_core::{Merge, Offered};
use std::alloc::Global;
use std::test::Fail;

const TERMS: Geometry = Geometry {
    initial_term_id: 42,
    term_length: 65_536,
    mtu: 1_408,
};

// The setup frame of an image that is joined at offset 64.
const SETUP: Setup = Setup {
    flags: 0,
    term_offset: 64,
    session_id: 7,
    stream_id: 1_001,
    initial_term_id: 42,
    active_term_id: 42,
    term_length: 65_536,
    mtu: 1_408,
    ttl: 0,
};

// `hello` as a datagram, term 42, offset 64.
const HELLO_AT_64: &[u8] =
    b"\x25\0\0\0\0\xc0\x01\0\x40\0\0\0\x07\0\0\0\xe9\x03\0\0\x2a\0\0\0\0\0\0\0\0\0\0\0hello";

// The same at offset 128.
const HELLO_AT_128: &[u8] =
    b"\x25\0\0\0\0\xc0\x01\0\x80\0\0\0\x07\0\0\0\xe9\x03\0\0\x2a\0\0\0\0\0\0\0\0\0\0\0hello";

const RECORDED: &str = "\
make 16
start 0
write 0 0
settle 0
write 0 64
settle 0
replay 0 0 -1
";

/// The frames of a poll.
fn frames_of(reply: Reply) -> Result<Vec<PolledFrame>, Refusal> {
    match reply {
        Reply::Polled { frames, .. } => Ok(frames.into_vec()),
        _ => Err(Refusal::BadLine),
    }
}

/// The frames that the replay of an archive gives, which recorded `hello` at 0 and 64.
fn polled(alloc: Global, scene: &mut Scene) -> Result<Vec<PolledFrame>, Refusal> {
    scene.run(alloc, RECORDED)?;
    frames_of(scene.step(alloc, &Event::ReplayPoll { replay: 0, max: 10 })?)
}

/// The same of a new disk.
fn recorded(alloc: Global) -> Result<Vec<PolledFrame>, Refusal> {
    let mut scene = Scene::new(alloc);
    let frames = polled(alloc, &mut scene);
    drop(scene);
    frames
}

/// The live frames at 64 and 128, which an image gets.
fn live(alloc: Global) -> Result<Vec<Frame>, Refusal> {
    let mut image = Image::from_setup(alloc, &SETUP)?;
    image.insert(HELLO_AT_64)?;
    image.insert(HELLO_AT_128)?;
    match image.take_block()? {
        Some(block) => Ok(block.frames.into_vec()),
        None => Err(Refusal::BadBlock),
    }
}

/// Whether each of these live frames is held.
fn are_held(merge: &mut Merge, frames: Vec<Frame>) -> Result<bool, Refusal> {
    let mut are_held = true;
    for frame in frames {
        are_held = merge.live_frame(frame)? == Offered::Held && are_held;
    }
    Ok(are_held)
}

fn replay(merge: &mut Merge, polled: Vec<PolledFrame>) -> Result<(), Refusal> {
    for given in polled {
        merge.replay_frame(given.frame)?;
    }
    Ok(())
}

/// Where the frames of the output begin in their term.
fn output(alloc: Global, merge: &mut Merge) -> Result<Vec<i32>, Refusal> {
    let mut offsets = Vec::new(alloc);
    for _ in 0..10 {
        match merge.take() {
            Some(frame) => offsets.push(frame.term_offset)?,
            None => break,
        }
    }
    Ok(offsets)
}

/// Whether the live frames are held, where the frames of the output begin, and whether it is merged then.
fn merged(alloc: Global, merge: &mut Merge) -> Result<(bool, Vec<i32>, bool), Refusal> {
    let are_held = are_held(merge, live(alloc)?)?;
    replay(merge, recorded(alloc)?)?;
    let offsets = output(alloc, merge)?;
    Ok((are_held, offsets, merge.is_merged()))
}

/// A replay of recorded frames and the frames of a live image are merged to each frame once, in order.
#[test]
fn a_replay_is_merged_with_the_live_stream(rt: HostRuntime) -> Result<(), Fail> {
    let mut merge = Merge::new(rt.alloc(), TERMS, 0);
    let (are_held, offsets, is_merged) = merged(rt.alloc(), &mut merge)?;
    assert!(rt; are_held);
    assert!(rt; offsets.as_slice() == [0, 64, 128].as_slice());
    assert!(rt; is_merged);
    Ok(())
}
