//! Blocks of images handed to the thread that records.

use crate::images::Images;
use crate::leaving::Leaving;
use frame_core::Refusal;
use server_state::{FedBlock, Reporter, Shared};
use std::sync::Wait;
use stream_pairs::Place;

/// What became of the blocks of an image that were to be handed on.
#[derive(Clone, Copy)]
struct Given {
    /// Whether one was handed on.
    has_put: bool,
    /// Whether one was kept back.
    is_kept_back: bool,
}

/// Hands on the blocks of an image that may be handed on now, if a session has it and it does not leave, and wakes the thread that
/// records. Whether one was kept back.
pub(crate) fn give<R: Wait, T: Reporter>(
    rt: &R,
    shared: &Shared<T>,
    images: &mut Images,
    leaving: &Leaving,
    place: Place,
) -> bool {
    let given = put_blocks(rt, shared, images, leaving, place);
    if given.has_put {
        shared.queue.wake();
    }
    given.is_kept_back
}

/// Puts the blocks of an image that may be handed on now, if a session has it and it does not leave.
fn put_blocks<R: Wait, T: Reporter>(
    rt: &R,
    shared: &Shared<T>,
    images: &mut Images,
    leaving: &Leaving,
    place: Place,
) -> Given {
    let mut given = Given {
        has_put: false,
        is_kept_back: false,
    };
    if !images.has_block(place) || leaving.contains(place) {
        return given;
    }
    let Some(image) = shared.feeding(rt, place) else {
        return given;
    };
    for _ in 0..u64::MAX {
        if !images.has_block(place) {
            return given;
        }
        if !shared.queue.has_room(rt, images.is_full(place)) {
            given.is_kept_back = true;
            return given;
        }
        let Ok(Some(block)) = images.take_block(place) else {
            return given;
        };
        put(rt, shared, FedBlock { image, block });
        given.has_put = true;
    }
    given
}

/// Puts a block; if there is no memory for it, its session loses the image.
fn put<R: Wait, T: Reporter>(rt: &R, shared: &Shared<T>, fed: FedBlock) {
    if let Err(fed) = shared.queue.put(rt, fed) {
        if let Some(fed) = shared.session_of(rt, &fed.image) {
            shared.refused(rt, fed.session, Refusal::NoMemory);
        }
    }
}

/// Hands on blocks of all images, from one on, and then wakes the thread that records, so that it takes them together. The place that
/// a next round begins with: the first that kept one back.
pub(crate) fn give_round<R: Wait, T: Reporter>(
    rt: &R,
    shared: &Shared<T>,
    images: &mut Images,
    leaving: &Leaving,
    first: Place,
) -> Place {
    let count = images.len();
    let mut place = first;
    let mut next = None;
    let mut has_put = false;
    for _ in 0..count {
        if place >= count {
            place = 0;
        }
        let given = put_blocks(rt, shared, images, leaving, place);
        has_put = has_put || given.has_put;
        if given.is_kept_back && next.is_none() {
            next = Some(place);
        }
        place = place.saturating_add(1);
    }
    if has_put {
        shared.queue.wake();
    }
    next.unwrap_or(0)
}

/// Hands on all blocks of all images that sessions have, and waits for room.
pub(crate) fn give_all<R: Wait, T: Reporter>(
    rt: &R,
    shared: &Shared<T>,
    images: &mut Images,
    leaving: &Leaving,
) {
    for place in 0..images.len() {
        if !leaving.contains(place) {
            give_rest(rt, shared, images, place);
        }
    }
}

fn give_rest<R: Wait, T: Reporter>(rt: &R, shared: &Shared<T>, images: &mut Images, place: Place) {
    for _ in 0..u64::MAX {
        let Some(image) = shared.feeding(rt, place) else {
            return;
        };
        let Ok(Some(block)) = images.take_block(place) else {
            return;
        };
        shared.queue.wait_for_room(rt);
        put(rt, shared, FedBlock { image, block });
        shared.queue.wake();
    }
}
