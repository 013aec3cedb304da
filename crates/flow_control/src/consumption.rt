//! How far the stream of an image was consumed and rebuilt, and status messages that say so.

ghost use Rattle.std.specs.Prelude.{◌≡◌, ◌<◌, ◌^◌, true};
ghost use Rattle.image_core.specs.Received.{rebuilt};
ghost use Rattle.flow_control.specs.Feedback.{IsStatusOf, has_term, told_position};
ghost use Rattle.flow_control.specs.Windows.{receiver_window};

use crate::windows::receiver_window;
use frame_core::{StatusMessage, term_of};
use image_core::BoundedImage;

/// The consumed position, in bytes of the stream: where what the image did not give as blocks yet begins.
pub fn consumed(image: &BoundedImage) -> u64
    ensures position { result ≡ image.now.from }
    ensures small { result < 2 ^ 63 }
{
    image.taken() as u64
}

/// The rebuild position, in bytes of the stream: where the gap begins, if there is one.
pub fn rebuilt(image: &BoundedImage) -> u64
    ensures position { result ≡ rebuilt image.now }
    ensures small { result < 2 ^ 63 }
{
    image.rebuilt() as u64
}

/// The position that a status message names, in bytes of the stream: the consumed one. With a bound it is at most the
/// greatest multiple of 32 that is not past the bound. Does not allocate.
pub fn told_position(image: &BoundedImage, bound: Option<u64>) -> u64
    ensures position { result ≡ told_position image.now bound }
    ensures small { result < 2 ^ 63 }
{
    match bound {
        Some(bound) => consumed(image).min(bound / 32 * 32),
        None => consumed(image),
    }
}

/// Whether a position of an image's stream has a term id: it lies before the end of the stream's last term.
pub fn has_term(image: &BoundedImage, position: u64) -> bool
    requires { position < 2 ^ 63 }
    ensures { result ≡ has_term image.now.geometry position }
{
    (position as i64) < (1 << 31) * i64::from(image.geometry().term_length)
}

/// The status message of an image, with a window of at most so many bytes.
pub fn status_of(
    image: &BoundedImage,
    most: i32,
    bound: Option<u64>,
    receiver_id: i64,
) -> StatusMessage
    requires { has_term image.now.geometry (told_position image.now bound) ≡ true }
    ensures { let window = receiver_window image.now.geometry most in
        IsStatusOf image.now bound window receiver_id result }
{
    let told = told_position(image, bound);
    let (term_id, term_offset) = term_of(image.geometry(), told as i64);
    StatusMessage {
        flags: 0,
        session_id: image.publication().session_id,
        stream_id: image.publication().stream_id,
        consumption_term_id: term_id,
        consumption_term_offset: term_offset,
        receiver_window: receiver_window(image.geometry(), most),
        receiver_id,
    }
}
