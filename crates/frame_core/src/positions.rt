//! Where frames lie in a stream: Aeron Transport Protocol Specification, "Stream position"; docs/PROTOCOL.md,
//! "Positions".

ghost use Rattle.std.specs.Prelude.{◌≡◌, ◌<◌, ◌≤◌, ◌+◌, ◌*◌, ◌≤ℤ◌, ◌<ℤ◌, ◌*ℤ◌, ◌^◌, ℤ, pos, unsigned_abs, MatchOption, IfSome};
ghost use Rattle.frame_core.specs.FrameEncoding.{frame_of};
ghost use Rattle.frame_core.specs.Position.{HasPosition, HasRoom, frame_position, position_of, terms_since};

use crate::frame::{Frame, FrameRef};
use crate::geometry::Geometry;

/// The position of an offset in a term, in bytes of the stream. None where the term is before the first one, or the
/// offset is not in a term: from 0 and below the term length. Takes no memory.
pub fn position(geometry: &Geometry, term_id: i32, offset: i32) -> Option<i64>
    ensures value { MatchOption result
        ((p : ℤ) → HasPosition geometry.now term_id offset p → ⊥)
        (HasPosition geometry.now term_id offset) }
    ensures small { IfSome result (λ p. (pos 0 ≤ℤ p) × (p <ℤ pos (2 ^ 62))) }
{
    match position_of(geometry, &term_id, &offset) {
        Some(position) => Some(position as i64),
        None => None,
    }
}

/// The term id of a position, and the offset in that term, in bytes. Takes no memory.
pub fn term_of(geometry: &Geometry, position: i64) -> (i32, i32)
    requires length { pos 0 <ℤ geometry.now.term_length }
    requires low { pos 0 ≤ℤ position }
    requires high { position <ℤ (pos (2 ^ 31) *ℤ geometry.now.term_length) }
    ensures { HasPosition geometry.now result.0 result.1 position }
{
    let (terms, offset) = split(position as u64, geometry.term_length as u32);
    (term_after(geometry, terms as i32), offset as i32)
}

/// How many whole terms lie before a position, and how many bytes behind them.
fn split(position: u64, size: u32) -> (u32, u32)
    requires size { 0 < size }
    requires high { position < 2 ^ 31 * size }
    ensures terms { result.0 < 2 ^ 31 }
    ensures offset { result.1 < size }
    ensures whole { position ≡ result.0 * size + result.1 }
{
    let size = u64::from(size);
    ((position / size) as u32, (position % size) as u32)
}

/// How many terms a term is after the first one, with the wrap of term ids.
fn since(geometry: &Geometry, term_id: i32) -> i32
    ensures { result ≡ terms_since geometry.now term_id }
{
    term_id.wrapping_sub(geometry.initial_term_id)
}

/// The term that is that many terms after the first one.
fn term_after(geometry: &Geometry, terms: i32) -> i32
    requires { pos 0 ≤ℤ terms }
    ensures { terms_since geometry.now result ≡ terms }
{
    geometry.initial_term_id.wrapping_add(terms)
}

impl Frame {
    /// The frame's position in a stream of that geometry, in bytes: below 2^62, and at least a term below the end of the
    /// last term. None where its term is before the first one, or its offset not in a term. Takes no memory.
    pub fn position_in(&self, geometry: &Geometry) -> Option<u64>
        ensures value { result ≡ frame_position geometry.now self.now }
        ensures small { IfSome result (λ p. p < 2 ^ 62) }
        ensures room { IfSome result (HasRoom geometry.now self.now.term_offset) }
    {
        position_of(geometry, &self.term_id, &self.term_offset)
    }
}

impl FrameRef<'_> {
    /// As [`Frame::position_in`].
    pub fn position_in(&self, geometry: &Geometry) -> Option<u64>
        ensures value { result ≡ frame_position geometry.now (frame_of self.now) }
        ensures small { IfSome result (λ p. p < 2 ^ 62) }
        ensures room { IfSome result (HasRoom geometry.now self.now.term_offset) }
    {
        position_of(geometry, &self.term_id, &self.term_offset)
    }
}

/// The position of an offset in a term.
#[tactic(auto, unfolding(crate::specs::Position::position_of))]
fn position_of(geometry: &Geometry, term_id: &i32, offset: &i32) -> Option<u64>
    ensures value { result ≡ position_of geometry.now term_id.now offset.now }
    ensures small { IfSome result (λ p. p < 2 ^ 62) }
    ensures room { IfSome result (HasRoom geometry.now offset.now) }
{
    let terms = since(geometry, *term_id);
    if terms < 0 {
        return None;
    }
    if *offset < 0 {
        return None;
    }
    if *offset >= geometry.term_length {
        return None;
    }
    Some(behind(terms, geometry.term_length, *offset))
}

/// Where an offset lies behind that many whole terms.
fn behind(terms: i32, size: i32, offset: i32) -> u64
    requires terms { pos 0 ≤ℤ terms }
    requires low { pos 0 ≤ℤ offset }
    requires high { offset <ℤ size }
    ensures value { result ≡ unsigned_abs terms * unsigned_abs size + unsigned_abs offset }
    ensures small { result < 2 ^ 62 }
    ensures room { result + unsigned_abs size ≤ 2 ^ 31 * unsigned_abs size + unsigned_abs offset }
{
    u64::from(terms.unsigned_abs()) * u64::from(size.unsigned_abs())
        + u64::from(offset.unsigned_abs())
}
