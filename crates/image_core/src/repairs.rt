//! Repair: the frames that a request asks for, sent once more. docs/PROTOCOL.md, "Repair".

ghost use Rattle.std.specs.Prelude.{◌≡◌, ◌<ℤ◌, ◌≤ℤ◌, ◌+ℤ◌, ◌^◌, pos, map, IfErr, IfOk};
ghost use Rattle.std.specs.Int.{int_max, int_min};
ghost use Rattle.std.specs.List.{filter};
ghost use Rattle.frame_core.specs.Block.{AreEncodable};
ghost use Rattle.frame_core.specs.FrameEncoding.{IsEncodable, aligned_length, encoded};
ghost use Rattle.frame_core.specs.declared.refusal.Refusal.TheVariants.{NoMemory};
ghost use Rattle.image_core.specs.Repair.{asks_for, is_in_range, is_of_request};

use frame_core::{Frame, Items, Nak, Refusal, encode_into};
use std::alloc::Global;

/// A datagram for each of the frames that covers a byte of the request's range, in its session, stream and term: the
/// frame's encoding, in the order of the frames. A pad is sent as its header. NoMemory where a datagram can't be made.
/// Costs a step for each frame, and the length of what is sent.
pub fn repair(alloc: Global, frames: &[Frame], nak: &Nak) -> Result<Items<Items<u8>>, Refusal>
    requires { AreEncodable frames.now }
    ensures asked { IfOk result
        (λ datagrams. datagrams ≡ map encoded (filter (asks_for nak.now) frames.now)) }
    ensures memory { IfErr result (λ refusal. refusal ≡ NoMemory) }
{
    let mut datagrams = Items::new(alloc);
    for frame in frames {
        if is_asked_for(nak, frame) {
            datagrams.push(datagram_of(alloc, frame)?)?;
        }
    }
    Ok(datagrams)
}

/// A datagram of one frame.
fn datagram_of(alloc: Global, frame: &Frame) -> Result<Items<u8>, Refusal>
    requires { IsEncodable frame.now }
    ensures bytes { IfOk result (λ datagram. datagram ≡ encoded frame.now) }
    ensures memory { IfErr result (λ refusal. refusal ≡ NoMemory) }
{
    let mut bytes = vec![in alloc; 0u8; frame.encoded_length()]?;
    encode_into(frame, &mut bytes);
    Ok(Items::from_vec(bytes))
}

/// Whether a request asks for a frame.
fn is_asked_for(nak: &Nak, frame: &Frame) -> bool
    ensures { result ≡ asks_for nak.now frame.now }
{
    is_of_request(nak, frame) && is_in_range(nak, frame)
}

/// Whether a frame is of a request's session, stream and term.
#[tactic(auto, unfolding(crate::specs::Repair::is_of_request))]
fn is_of_request(nak: &Nak, frame: &Frame) -> bool
    ensures { result ≡ is_of_request nak.now frame.now }
{
    frame.session_id == nak.session_id
        && frame.stream_id == nak.stream_id
        && frame.term_id == nak.term_id
}

/// Whether a frame covers a byte of a request's range.
#[tactic(auto, unfolding(crate::specs::Repair::is_in_range))]
fn is_in_range(nak: &Nak, frame: &Frame) -> bool
    ensures { result ≡ is_in_range nak.now frame.now }
{
    shared_start(nak, frame) < shared_end(nak, frame)
}

/// Where what a frame and a request's range share begins.
fn shared_start(nak: &Nak, frame: &Frame) -> i64
    ensures { result ≡ int_max frame.now.term_offset nak.now.term_offset }
{
    i64::from(frame.term_offset).max(i64::from(nak.term_offset))
}

/// Where it ends; at or before its beginning where they share nothing.
fn shared_end(nak: &Nak, frame: &Frame) -> i64
    ensures { result ≡ int_min
        (frame.now.term_offset +ℤ pos (aligned_length frame.now))
        (nak.now.term_offset +ℤ nak.now.length) }
{
    frame_end(frame).min(range_end(nak))
}

/// Where a frame ends in its term.
fn frame_end(frame: &Frame) -> i64
    ensures { result ≡ frame.now.term_offset +ℤ pos (aligned_length frame.now) }
{
    i64::from(frame.term_offset) + frame.aligned_length() as i64
}

/// Where a request's range ends in its term.
fn range_end(nak: &Nak) -> i64
    ensures { result ≡ nak.now.term_offset +ℤ nak.now.length }
{
    i64::from(nak.term_offset) + i64::from(nak.length)
}
