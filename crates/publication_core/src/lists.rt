//! Lists of datagrams: those that wait, and those that were sent.

ghost use Rattle.std.specs.Prelude.{◌≡◌, ◌≤◌, ◌^◌, map, nat_le, IfOk, OnOk, OnErr};
ghost use Rattle.publication_core.specs.Sending.{first_passes};
ghost use Rattle.std.specs.List.{list_any, position};
ghost use Rattle.frame_core.specs.FrameEncoding.{frame_of};
ghost use Rattle.publication_core.specs.Datagrams.{after_repeat, alone, is_repeat_asked, laid, marked, unconsumed};

use crate::bytes::Bytes;
use crate::datagram::Datagram;
use frame_core::{FrameRef, Geometry};
use std::alloc::{AllocError, Global};
use std::collections::VecDeque;

/// Lays a frame at a position into the last of the datagrams, or into one of its own after them, with spare memory if
/// there is some. AllocError if there is no memory; then the datagrams stay as they were.
pub(crate) fn lay_into(
    alloc: Global,
    geometry: &Geometry,
    waiting: &mut VecDeque<Datagram>,
    spare: &mut Vec<Bytes>,
    position: u64,
    frame: &FrameRef<'_>,
) -> Result<(), AllocError>
    requires { position ≤ 2 ^ 63 }
    ensures laid { OnOk result
        (waiting.new.items ≡ laid geometry.now position (frame_of frame.now) waiting.old.items) }
    ensures same { OnErr result (waiting.new.items ≡ waiting.old.items) }
{
    if let Some(last) = waiting.back_mut() {
        if last.has_room(geometry, position, frame) {
            return last.add(position, frame);
        }
    }
    let datagram = datagram_of(alloc, spare, position, frame)?;
    waiting.push_back(datagram)?;
    Ok(())
}

/// A datagram of one frame, with spare memory if there is some.
fn datagram_of(
    alloc: Global,
    spare: &mut Vec<Bytes>,
    position: u64,
    frame: &FrameRef<'_>,
) -> Result<Datagram, AllocError>
    requires { position ≤ 2 ^ 63 }
    ensures { IfOk result (λ datagram. datagram ≡ alone position (frame_of frame.now)) }
{
    let bytes = spare.pop().unwrap_or(Bytes::new(alloc));
    let mut datagram = Datagram::empty_datagram(position, bytes);
    datagram.add(position, frame)?;
    Ok(datagram)
}

/// Drops the first datagrams as long as they end at a position at most. Their memory is spare then.
pub(crate) fn drop_consumed(sent: &mut VecDeque<Datagram>, spare: &mut Vec<Bytes>, consumed: u64)
    ensures { sent.new.items ≡ unconsumed consumed sent.old.items }
{
    while is_first_consumed(sent, consumed) {
        if let Some(gone) = sent.pop_front() {
            let _ = spare.push(gone.bytes);
        }
    }
}

/// Whether the first datagram ends at a position at most.
fn is_first_consumed(sent: &VecDeque<Datagram>, consumed: u64) -> bool
    ensures { result ≡ first_passes (λ d. nat_le d.end consumed) sent.now.items }
{
    match sent.front() {
        Some(first) => first.end <= consumed,
        None => false,
    }
}

/// Notes in each datagram that a range was asked for.
pub(crate) fn mark_each(sent: &mut VecDeque<Datagram>, now: u64, from: u64, to: u64)
    ensures { sent.new.items ≡ map (marked now from to) sent.old.items }
{
    for index in 0..sent.len() {
        if let Some(datagram) = sent.get_mut(index) {
            datagram.mark(now, from, to);
        }
    }
}

/// Notes in the first datagram that is asked for that it is repeated: its index.
pub(crate) fn repeat_first(sent: &mut VecDeque<Datagram>, now: u64) -> Option<usize>
    ensures first { result ≡ position is_repeat_asked sent.old.items }
    ensures repeated { sent.new.items ≡ after_repeat now sent.old.items }
{
    let index = first_asked(sent)?;
    if let Some(datagram) = sent.get_mut(index) {
        datagram.repeat(now);
    }
    Some(index)
}

/// Whether a datagram is asked for.
pub(crate) fn is_any_asked(sent: &VecDeque<Datagram>) -> bool
    ensures { result ≡ list_any is_repeat_asked sent.now.items }
{
    sent.iter().any(|datagram| datagram.is_repeat_asked)
}

/// The index of the first datagram that is asked for.
fn first_asked(sent: &VecDeque<Datagram>) -> Option<usize>
    ensures { result ≡ position is_repeat_asked sent.now.items }
{
    sent.iter().position(|datagram| datagram.is_repeat_asked)
}
