//! Images whose stock is bounded: each request for memory refused. docs/PROTOCOL.md, "Stock".

use crate::vectors::{HELLO_AT_0, SETUP};
use frame_core::{Refusal, Setup, frames_of_datagram};
use image_core::{BoundedImage, Inserted};
use std::alloc::Global;
use std::process::Abort;
use std::test::Fail;

/// An image that nothing came of.
fn joined(alloc: Global) -> Result<BoundedImage, Refusal> {
    BoundedImage::from_setup(alloc, &Setup::decode(&SETUP)?)
}

/// Offers the frames of a datagram.
#[tactic(auto, using(frame_core::proofs::DatagramLemmas::datagram_encodable))]
pub fn offer(
    alloc: Global,
    image: &mut BoundedImage,
    bytes: &[u8],
) -> Result<Option<Inserted>, Refusal> {
    let frames = frames_of_datagram(alloc, bytes)?;
    image.offer(frames.as_slice())
}

/// Offers a frame, again where memory is refused, which has changed nothing.
fn offer_again(rt: &impl Abort, alloc: Global, image: &mut BoundedImage) -> Result<(), Refusal> {
    if offer(alloc, image, HELLO_AT_0).is_err() {
        assert!(rt; image.rebuilt() == 0);
        offer(alloc, image, HELLO_AT_0)?;
    }
    Ok(())
}

/// Takes a block.
fn take(image: &mut BoundedImage) -> Result<(), Refusal> {
    image.take_block()?;
    Ok(())
}

/// The same, again where memory is refused, which has changed nothing.
fn take_again(rt: &impl Abort, image: &mut BoundedImage) -> Result<(), Refusal> {
    if take(image).is_err() {
        assert!(rt; image.taken() == 0);
        take(image)?;
    }
    Ok(())
}

/// Offers a frame and takes it, each again where memory is refused.
fn check_again(rt: &impl Abort, alloc: Global, image: &mut BoundedImage) -> Result<(), Refusal> {
    offer_again(rt, alloc, image)?;
    assert!(rt; image.rebuilt() == 64);
    take_again(rt, image)?;
    assert!(rt; image.taken() == 64);
    Ok(())
}

/// If memory is refused once, nothing has changed, and the call may be made again. trials/refused_memory.py refuses each
/// of its requests in turn.
#[test]
fn refused_memory_changes_nothing(rt: HostRuntime) -> Result<(), Fail> {
    let mut image = joined(rt.alloc())?;
    Ok(check_again(&rt, rt.alloc(), &mut image)?)
}
