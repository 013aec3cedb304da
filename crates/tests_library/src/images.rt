//! Images and repair: each request for memory refused, and a stream over a bad line. docs/PROTOCOL.md, "Images" and "Repair".

use crate::vectors::SETUP;
use frame_core::{Block, Frame, FrameKind, Items, Nak, Refusal, Setup, are_encodable};
use image_core::{Image, repair};
use std::alloc::{AllocError, Global};
use std::process::Abort;
use std::test::Fail;

/// A message of the vectors' session and stream.
fn message(alloc: Global, term_id: i32, offset: i32, body: &[u8]) -> Result<Frame, AllocError> {
    Ok(Frame {
        kind: FrameKind::Message,
        flags: 0xC0,
        length: 32 + (body.len() % 65_536) as i32,
        term_offset: offset,
        session_id: 7,
        stream_id: 1_001,
        term_id,
        reserved: 0,
        payload: Items::from_vec(body.to_vec(alloc)?),
    })
}

/// A datagram of one frame.
fn datagram(alloc: Global, frame: &Frame) -> Result<Vec<u8>, AllocError> {
    let mut bytes = frame.header().to_vec(alloc)?;
    bytes.extend_from_slice(frame.payload.as_slice())?;
    Ok(bytes)
}

/// The datagrams of the frames that a request asks for.
fn repaired(alloc: Global, frames: &[Frame], nak: &Nak) -> Result<Items<Items<u8>>, Fail> {
    if !are_encodable(frames) {
        return Err("a frame has no encoding".into());
    }
    Ok(repair(alloc, frames, nak)?)
}

/// Whether nothing is missing up to a position, which is the rebuild position and the high-water mark of an image.
fn stands(image: &Image, position: i64) -> bool {
    image.gap().is_none() && image.rebuilt() == position && image.high() == position
}

/// An image of the vectors' stream.
fn image(alloc: Global) -> Result<Image, Refusal> {
    Image::from_setup(alloc, &Setup::decode(&SETUP)?)
}

/// Inserts a datagram, and counts the frames of it that joined.
fn insert(image: &mut Image, bytes: &[u8]) -> Result<usize, Refusal> {
    Ok(image.insert(bytes)?.held)
}

/// Adds a message of a term at an offset.
fn add(
    alloc: Global,
    frames: &mut Vec<Frame>,
    term_id: i32,
    offset: i32,
    body: &[u8],
) -> Result<(), AllocError> {
    Ok(frames.push(message(alloc, term_id, offset, body)?)?)
}

/// How many frames the next block has, if there is one.
fn frames_taken(image: &mut Image) -> Result<Option<usize>, Refusal> {
    match image.take_block()? {
        Some(block) => Ok(Some(block.frames.len())),
        None => Ok(None),
    }
}

/// The same, once more where memory is refused, which has changed nothing.
fn taken_again(rt: &impl Abort, image: &mut Image) -> Result<Option<usize>, Refusal> {
    match frames_taken(image) {
        Ok(count) => Ok(count),
        Err(_) => {
            assert!(rt; stands(image, 192));
            frames_taken(image)
        }
    }
}

/// Inserts a datagram, again where memory is refused, which has changed nothing.
fn insert_again(rt: &impl Abort, image: &mut Image, bytes: &[u8]) -> Result<(), Refusal> {
    if insert(image, bytes).is_err() {
        assert!(rt; stands(image, 0));
        insert(image, bytes)?;
    }
    Ok(())
}

/// `hello` at the offsets 0, 64 and 128 of term 42, each with zeros up to its aligned length.
const THREE_HELLOS: &[u8] =
    b"\x25\0\0\0\0\xc0\x01\0\0\0\0\0\x07\0\0\0\xe9\x03\0\0\x2a\0\0\0\0\0\0\0\0\0\0\0hello\
    \0\0\0\0\0\0\0\0\0\0\0\0\0\0\0\0\0\0\0\0\0\0\0\0\0\0\0\
    \x25\0\0\0\0\xc0\x01\0\x40\0\0\0\x07\0\0\0\xe9\x03\0\0\x2a\0\0\0\0\0\0\0\0\0\0\0hello\
    \0\0\0\0\0\0\0\0\0\0\0\0\0\0\0\0\0\0\0\0\0\0\0\0\0\0\0\
    \x25\0\0\0\0\xc0\x01\0\x80\0\0\0\x07\0\0\0\xe9\x03\0\0\x2a\0\0\0\0\0\0\0\0\0\0\0hello\
    \0\0\0\0\0\0\0\0\0\0\0\0\0\0\0\0\0\0\0\0\0\0\0\0\0\0\0";

/// If memory is refused once, nothing has changed, and the call may be made again. trials/refused_memory.py refuses each
/// of its requests in turn.
#[test]
fn refused_memory_changes_nothing(rt: HostRuntime) -> Result<(), Fail> {
    let mut image = image(rt.alloc())?;
    insert_again(&rt, &mut image, THREE_HELLOS)?;
    assert!(rt; stands(&image, 192));
    assert!(rt; taken_again(&rt, &mut image) == Ok(Some(3)));
    assert!(rt; frames_taken(&mut image) == Ok(None));
    Ok(())
}

// Frames that are sent over a bad line, so many together, each of 64 bytes, so that a window has room for 512.
const FRAMES: u32 = 100_000;

const TOGETHER: u32 = 250;

/// The term and the offset of the frame of a number, from the largest term id on.
fn place_of(number: u32) -> (i32, i32) {
    let term_id = i32::MAX.wrapping_add((number / 1_024) as i32);
    (term_id, (number % 1_024 * 64) as i32)
}

/// The frames of some numbers, from the first on: what each carries is its number.
fn frames_from(alloc: Global, first: u32) -> Result<Vec<Frame>, AllocError> {
    let mut frames = Vec::new(alloc);
    for i in 0..TOGETHER {
        let number = first.wrapping_add(i);
        let (term_id, offset) = place_of(number);
        add(alloc, &mut frames, term_id, offset, &number.to_le_bytes())?;
    }
    Ok(frames)
}

/// Sends a frame. A number says how often it comes: one in eight is lost, and one in eight comes twice.
fn send_by(alloc: Global, image: &mut Image, frame: &Frame, seed: u32) -> Result<(), Fail> {
    let times = match seed >> 29 {
        0 => 0,
        1 => 2,
        _ => 1,
    };
    let bytes = datagram(alloc, frame)?;
    for _ in 0..times {
        insert(image, &bytes)?;
    }
    Ok(())
}

/// Sends the frames in an order that a number gives.
fn send(alloc: Global, image: &mut Image, frames: &[Frame], mut seed: u32) -> Result<u32, Fail> {
    for i in 0..TOGETHER {
        let index = (i * 77 + seed % TOGETHER) % TOGETHER;
        let frame = frames.get(index as usize).ok_or("no such frame")?;
        seed = seed.wrapping_mul(1_664_525).wrapping_add(1_013_904_223);
        send_by(alloc, image, frame, seed)?;
    }
    Ok(seed)
}

/// Fills the gap that a request names.
fn fill(alloc: Global, image: &mut Image, frames: &[Frame], nak: &Nak) -> Result<(), Fail> {
    for bytes in repaired(alloc, frames, nak)?.as_slice() {
        insert(image, bytes.as_slice())?;
    }
    Ok(())
}

/// Fills gap after gap, until there is none.
fn fill_all(alloc: Global, image: &mut Image, frames: &[Frame]) -> Result<(), Fail> {
    for _ in 0..=TOGETHER {
        let Some(nak) = image.gap() else {
            return Ok(());
        };
        fill(alloc, image, frames, &nak)?;
    }
    Err("a gap stays".into())
}

/// The frames of a block begin with that of a number: the number behind the last one.
fn behind(rt: &impl Abort, block: &Block, mut number: u32) -> u32 {
    assert!(rt; block.position == i64::from(number) * 64);
    for frame in block.frames.as_slice() {
        assert!(rt; frame.payload.as_slice() == number.to_le_bytes().as_slice());
        number = number.wrapping_add(1);
    }
    number
}

/// Takes all blocks, whose frames begin with that of a number, and answers the number behind the last one.
fn take_all(rt: &impl Abort, image: &mut Image, mut number: u32) -> Result<u32, Fail> {
    for _ in 0..=TOGETHER {
        let Some(block) = image.take_block()? else {
            return Ok(number);
        };
        number = behind(rt, &block, number);
    }
    Err("no end of blocks".into())
}

/// A heartbeat.
const HEARTBEAT: [u8; 32] =
    *b"\0\0\0\0\0\xc0\x01\0\0\0\0\0\x07\0\0\0\xe9\x03\0\0\0\0\0\0\0\0\0\0\0\0\0\0";

/// Inserts a heartbeat before the frame of a number.
fn beat(image: &mut Image, number: u32) -> Result<(), Refusal> {
    let (term_id, offset) = place_of(number);
    let mut bytes = HEARTBEAT;
    bytes[8..12].copy_from_slice(&offset.to_le_bytes());
    bytes[20..24].copy_from_slice(&term_id.to_le_bytes());
    image.insert(&bytes)?;
    Ok(())
}

/// Sends the frames of some numbers, from the first on, a heartbeat behind them, and what is asked for, until there is no
/// gap.
fn send_all(alloc: Global, image: &mut Image, first: u32, seed: u32) -> Result<u32, Fail> {
    let frames = frames_from(alloc, first)?;
    let seed = send(alloc, image, &frames, seed)?;
    beat(image, first.wrapping_add(TOGETHER))?;
    fill_all(alloc, image, &frames)?;
    Ok(seed)
}

/// An image of the stream from the largest term id on.
fn image_from_the_largest(alloc: Global) -> Result<Image, Refusal> {
    let mut setup = Setup::decode(&SETUP)?;
    setup.initial_term_id = i32::MAX;
    setup.active_term_id = i32::MAX;
    Image::from_setup(alloc, &setup)
}

/// Sends all frames over the bad line, and counts those that are taken.
fn taken_over(rt: &impl Abort, alloc: Global, image: &mut Image) -> Result<u32, Fail> {
    let mut seed = 1;
    let mut taken = 0;
    for group in 0..FRAMES / TOGETHER {
        seed = send_all(alloc, image, group * TOGETHER, seed)?;
        taken = take_all(rt, image, taken)?;
    }
    Ok(taken)
}

/// A stream whose datagrams are lost, repeated and reordered is rebuilt whole and in order by NAKs.
#[test]
fn a_stream_comes_whole_over_a_bad_line(rt: HostRuntime) -> Result<(), Fail> {
    let mut image = image_from_the_largest(rt.alloc())?;
    assert!(rt; taken_over(&rt, rt.alloc(), &mut image)? == FRAMES);
    Ok(())
}
