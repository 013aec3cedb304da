//! Blocks: what is written of a stream at once. docs/PROTOCOL.md, "Blocks".

ghost use Rattle.std.specs.Prelude.{◌≡◌, ◌<◌, ◌≤◌, ◌∷◌, ◌+◌, ◌^◌, ◌≤ℤ◌, ◌<ℤ◌, ℤ, pos, map, IsTrue, IfOk, IfErr, IfSome, MatchOption};
ghost use Rattle.std.specs.Bool.{MatchBool};
ghost use Rattle.frame_core.specs.Block.{AreBlock, AreBlockOf, AreEncodable, IsBlock, IsBlockRefusal, IsMessageBlock, IsPadBlock, covered, end_position, has_ids, is_part, block_ids, publication_of, run_end};
ghost use Rattle.frame_core.specs.Datagram.{IsDatagram};
ghost use Rattle.frame_core.specs.FrameEncoding.{aligned_length, frame_of};
ghost use Rattle.frame_core.specs.Position.{HasPosition};
ghost use Rattle.frame_core.specs.declared.refusal.Refusal.TheVariants.{NoMemory};

use crate::datagram::frames_of_datagram;
use crate::frame::{AsFrame, Frame, FrameKind, FrameRef};
use crate::geometry::Geometry;
use crate::items::Items;
use crate::limits::MAX_BLOCK_LENGTH;
use crate::positions::position;
use crate::refusal::Refusal;
use std::alloc::Global;

/// Frames that follow one another in one term, or one pad.
#[derive(Debug, Drop)]
pub struct Block {
    /// Where the first frame begins, in bytes of the stream.
    pub position: i64,
    /// The frames, in order.
    pub frames: Items<Frame>,
}

/// Who sends a stream: Aeron Transport Protocol Specification, "Session" and "Stream".
#[derive(Clone, Copy, Debug, PartialEq, Eq)]
pub struct Publication {
    /// The session.
    pub session_id: i32,
    /// The stream.
    pub stream_id: i32,
}

/// What the frames of a block have in common: whose they are, and how long each may be.
#[derive(Clone, Copy, Debug, PartialEq, Eq)]
pub struct BlockIds {
    /// Their term.
    pub term_id: i32,
    /// Their session.
    pub session_id: i32,
    /// Their stream.
    pub stream_id: i32,
    /// Bytes that each has at most.
    pub mtu: i32,
}

// From where to where frames are a block.
#[derive(Clone, Copy)]
struct Span {
    position: i64,
    size: u64,
}

/// Where a block of the publication ends, in bytes of the stream. None where the frames are no block of it that
/// begins at the block's position: docs/PROTOCOL.md, "Blocks". Takes no memory. Costs a step for each frame.
pub fn block_end(geometry: &Geometry, publication: &Publication, block: &Block) -> Option<i64>
    ensures { MatchOption result
        (IsBlock geometry.now publication.now block.now → ⊥)
        (λ end. IsBlock geometry.now publication.now block.now × (end ≡ end_position block.now)) }
{
    let frames = block.frames.as_slice();
    if !are_encodable(frames) {
        return None;
    }
    let Some(span) = span_of(geometry, publication, frames) else {
        return None;
    };
    if span.position != block.position {
        return None;
    }
    Some(span.position + span.size as i64)
}

/// The block that the bytes are, decoded as a datagram. BadFrame, with the offset in bytes, where they are no
/// datagram; else BadBlock where its frames are no block: docs/PROTOCOL.md, "Blocks". Payloads are copied once, of a
/// block alone; NoMemory where the frames can't be kept. Costs the bytes' length.
#[tactic(auto, using(crate::proofs::DatagramLemmas::datagram_encodable))]
pub fn block_of(alloc: Global, geometry: &Geometry, bytes: &[u8]) -> Result<Block, Refusal>
    ensures ok { IfOk result
        (λ block. IsDatagram bytes.now block.frames
        × AreBlock geometry.now block.frames block.position) }
    ensures err { IfErr result (IsBlockRefusal geometry.now bytes.now) }
{
    let lent = frames_of_datagram(alloc, bytes)?;
    let Some(position) = position_of(geometry, lent.as_slice()) else {
        return Err(Refusal::BadBlock);
    };
    let frames = owned(alloc, lent.as_slice())?;
    Ok(Block { position, frames })
}

/// Copies of lent frames.
fn owned(alloc: Global, lent: &[FrameRef<'_>]) -> Result<Items<Frame>, Refusal>
    ensures same { IfOk result (λ frames. frames ≡ map frame_of lent.now) }
    ensures memory { IfErr result (λ refusal. refusal ≡ NoMemory) }
{
    let mut frames = Items::new(alloc);
    for frame in lent {
        frames.push(frame.to_frame(alloc)?)?;
    }
    Ok(frames)
}

/// The position at which the frames of a datagram are a block.
fn position_of(geometry: &Geometry, lent: &[FrameRef<'_>]) -> Option<i64>
    requires { AreEncodable (map frame_of lent.now) }
    ensures { MatchOption result
        ((p : ℤ) → AreBlock geometry.now (map frame_of lent.now) p → ⊥)
        (AreBlock geometry.now (map frame_of lent.now)) }
{
    let [first, ..] = lent else {
        return None;
    };
    let publication = publication_behind(first);
    let Some(span) = span_of(geometry, &publication, lent) else {
        return None;
    };
    Some(span.position)
}

/// The publication that a frame is of.
fn publication_behind(frame: &FrameRef<'_>) -> Publication
    ensures { result ≡ publication_of (frame_of frame.now) }
{
    Publication {
        session_id: frame.session_id,
        stream_id: frame.stream_id,
    }
}

/// From where to where frames that have an encoding are a block of the publication.
fn span_of<F: AsFrame>(geometry: &Geometry, publication: &Publication, frames: &[F]) -> Option<Span>
    requires { AreEncodable (map F.frame frames.now) }
    ensures span { MatchOption result
        ((p : ℤ) → AreBlockOf geometry.now publication.now (map F.frame frames.now) p → ⊥)
        (λ span. AreBlockOf geometry.now publication.now (map F.frame frames.now) span.position
        × (span.size ≡ covered (map F.frame frames.now))) }
    ensures low { IfSome result (λ span. pos 0 ≤ℤ span.position) }
    ensures high { IfSome result (λ span. span.position <ℤ pos (2 ^ 62)) }
    ensures small { IfSome result (λ span. span.size < 2 ^ 33) }
{
    let [first, rest @ ..] = frames else {
        return None;
    };
    let Some(position) = start_of(geometry, &first.lent()) else {
        return None;
    };
    let ids = ids_of(geometry, publication, &first.lent());
    if let Some(size) = pad_size(geometry, &ids, &first.lent(), rest) {
        return Some(Span { position, size });
    }
    if let Some(size) = messages_size(geometry, &ids, first, rest, frames) {
        return Some(Span { position, size });
    }
    None
}

/// Where a frame begins.
fn start_of(geometry: &Geometry, frame: &FrameRef<'_>) -> Option<i64>
    ensures value { MatchOption result
        ((p : ℤ) → HasPosition geometry.now (frame_of frame.now).term_id (frame_of frame.now).term_offset p → ⊥)
        (HasPosition geometry.now (frame_of frame.now).term_id (frame_of frame.now).term_offset) }
    ensures small { IfSome result (λ p. (pos 0 ≤ℤ p) × (p <ℤ pos (2 ^ 62))) }
{
    position(geometry, frame.term_id, frame.term_offset)
}

/// What the frames of the publication's blocks have in common that begin with a frame. Takes no memory.
pub fn block_ids(geometry: &Geometry, publication: &Publication, first: &Frame) -> BlockIds
    ensures { result ≡ block_ids geometry.now publication.now first.now }
{
    ids_of(geometry, publication, &first.as_ref())
}

/// As [`block_ids`], of a lent frame.
fn ids_of(geometry: &Geometry, publication: &Publication, first: &FrameRef<'_>) -> BlockIds
    ensures { result ≡ block_ids geometry.now publication.now (frame_of first.now) }
{
    BlockIds {
        term_id: first.term_id,
        session_id: publication.session_id,
        stream_id: publication.stream_id,
        mtu: geometry.mtu,
    }
}

/// Whether each frame has an encoding: [`Frame::is_encodable`]. Takes no memory. Costs a step for each frame.
pub fn are_encodable(frames: &[Frame]) -> bool
    ensures { MatchBool result (AreEncodable frames.now) (AreEncodable frames.now → ⊥) }
{
    for frame in frames {
        if !frame.is_encodable() {
            return false;
        }
    }
    true
}

/// How many bytes one pad covers that lies inside its term.
fn pad_size<F: AsFrame>(
    geometry: &Geometry,
    ids: &BlockIds,
    first: &FrameRef<'_>,
    rest: &[F],
) -> Option<u64>
    ensures size { MatchOption result
        (IsPadBlock geometry.now ids.now (frame_of first.now) (map F.frame rest.now) → ⊥)
        (λ size. IsPadBlock geometry.now ids.now (frame_of first.now) (map F.frame rest.now)
        × (size ≡ aligned_length (frame_of first.now))) }
    ensures small { IfSome result (λ size. size < 2 ^ 33) }
{
    match rest {
        [] => {}
        [_, ..] => return None,
    }
    match first.kind {
        FrameKind::Pad => {}
        FrameKind::Message | FrameKind::Heartbeat => return None,
    }
    if !is_of(ids, first) {
        return None;
    }
    let size = first.aligned_length();
    if i64::from(first.term_offset) + size as i64 > i64::from(geometry.term_length) {
        return None;
    }
    Some(size)
}

/// How many bytes messages cover that follow one another inside their term, the first frame and the rest.
fn messages_size<F: AsFrame>(
    geometry: &Geometry,
    ids: &BlockIds,
    first: &F,
    rest: &[F],
    frames: &[F],
) -> Option<u64>
    requires { frames.now ≡ first.now ∷ rest.now }
    ensures size { MatchOption result
        (IsMessageBlock geometry.now ids.now (F.frame first.now) (map F.frame rest.now) → ⊥)
        (λ size. IsMessageBlock geometry.now ids.now (F.frame first.now) (map F.frame rest.now)
        × (size ≡ covered (map F.frame frames.now))) }
    ensures small { IfSome result (λ size. size < 2 ^ 33) }
{
    let first = first.lent();
    if first.term_offset < 0 {
        return None;
    }
    let start = first.term_offset as u32;
    let Some(size) = run_size(ids, start, frames) else {
        return None;
    };
    if size > MAX_BLOCK_LENGTH as u64 {
        return None;
    }
    if (u64::from(start) + size) as i64 > i64::from(geometry.term_length) {
        return None;
    }
    Some(size)
}

/// How many bytes messages with the ids cover that follow one another from an offset.
fn run_size<F: AsFrame>(ids: &BlockIds, start: u32, frames: &[F]) -> Option<u64>
    ensures end { MatchOption result
        (run_end ids.now start (map F.frame frames.now) ≡ None)
        (λ size. (run_end ids.now start (map F.frame frames.now) ≡ Some (start + size))
        × (size ≡ covered (map F.frame frames.now))) }
    ensures small { IfSome result (λ size. size < 2 ^ 34) }
{
    let mut offset = u64::from(start);
    for frame in frames {
        let frame = frame.lent();
        if !follows(ids, offset, &frame) {
            return None;
        }
        offset += frame.aligned_length();
    }
    Some(offset - u64::from(start))
}

/// Whether a frame is a message with the ids that begins at the offset, in bytes of its term, and no longer than the
/// MTU: docs/PROTOCOL.md, "Blocks". Takes no memory.
pub fn is_next(ids: &BlockIds, offset: u64, frame: &Frame) -> bool
    ensures starts { IsTrue result → offset < 2 ^ 31 }
    ensures part { result ≡ is_part ids.now offset frame.now }
{
    follows(ids, offset, &frame.as_ref())
}

/// As [`is_next`], of a lent frame.
#[tactic(auto, unfolding(crate::specs::Block::is_part))]
fn follows(ids: &BlockIds, offset: u64, frame: &FrameRef<'_>) -> bool
    ensures starts { IsTrue result → offset < 2 ^ 31 }
    ensures part { result ≡ is_part ids.now offset (frame_of frame.now) }
{
    matches!(frame.kind, FrameKind::Message)
        && frame.term_offset >= 0
        && frame.term_offset as u64 == offset
        && is_of(ids, frame)
        && frame.length <= ids.mtu
}

/// Whether a frame is of the term, session and stream.
#[tactic(auto, unfolding(crate::specs::Block::has_ids))]
fn is_of(ids: &BlockIds, frame: &FrameRef<'_>) -> bool
    ensures { result ≡ has_ids ids.now (frame_of frame.now) }
{
    frame.term_id == ids.term_id
        && frame.session_id == ids.session_id
        && frame.stream_id == ids.stream_id
}
