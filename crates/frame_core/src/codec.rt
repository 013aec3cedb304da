//! Frames from bytes, and as bytes: Aeron Transport Protocol Specification, "Data Frame" and "Padding Frame";
//! docs/PROTOCOL.md, "Data and pad header".

ghost use Rattle.std.specs.Prelude.{◌≡◌, ◌<◌, ◌≤◌, ◌^◌, ◌++◌, ◌↔◌, ℕ, length, drop, slice_index, IsTrue, IfOk, IfErr, OnErr, MatchOption};
ghost use Rattle.frame_core.specs.Datagram.{HasNoFront};
ghost use Rattle.frame_core.specs.Decoding.{IsBody, read_frame};
ghost use Rattle.frame_core.specs.FrameEncoding.{IsEncodable, aligned, encoded, frame_of, u16_at};
ghost use Rattle.frame_core.specs.Front.{IsFront};
ghost use Rattle.frame_core.specs.Header.{IsHeaderOfKind, StartsWithHeader};
ghost use Rattle.frame_core.specs.declared.frame.Frame.{Frame};
ghost use Rattle.frame_core.specs.declared.frame.FrameKind.{FrameKind};

use crate::fields::{read_i32, read_i64, read_u16};
use crate::frame::{Frame, FrameKind, FrameRef, is_aligned};
use crate::limits::{FRAME_ALIGNMENT, HEADER_LENGTH};
use crate::refusal::Refusal;

// What stands behind a header: the kind of its frame, where the payload ends, and how many bytes the frame uses.
#[derive(Clone, Copy)]
struct Body {
    kind: FrameKind,
    end: usize,
    used: usize,
}

/// The frame in front of the bytes, and how many of them it uses: a message its aligned length, or all bytes where
/// fewer are there; a heartbeat 32; a pad all. Where no frame stands in front, BadFrame with offset 0.
/// docs/PROTOCOL.md, "Fronts". Takes no memory.
pub fn decode_front(bytes: &[u8]) -> Result<(FrameRef<'_>, usize), Refusal>
    ensures found { IfOk result (λ front. IsFront bytes.now (frame_of front.0) front.1) }
    ensures refused { OnErr result (HasNoFront bytes.now) }
    ensures refusal { IfErr result (λ refusal. refusal ≡ Refusal.BadFrame 0) }
{
    match front_of(bytes) {
        Some(front) => Ok(front),
        None => Err(Refusal::BadFrame { offset: 0 }),
    }
}

/// The frame whose header stands in front of the bytes, with no payload: what it carries may stand behind, or not. None
/// where no frame has these 32 bytes as its header, also where they are fewer. docs/PROTOCOL.md, "Data and pad header".
/// Does not allocate.
pub fn decode_header(bytes: &[u8]) -> Option<FrameRef<'_>>
    ensures { MatchOption result
        ((header : Frame) → StartsWithHeader bytes.now header → ⊥)
        (λ header. StartsWithHeader bytes.now (frame_of header)) }
{
    if bytes.len() < HEADER_LENGTH {
        return None;
    }
    if !has_version(bytes) {
        return None;
    }
    let term_offset = read_i32(bytes, 8);
    if !is_aligned(&term_offset) {
        return None;
    }
    let kind = header_kind(read_u16(bytes, 6), read_i32(bytes, 0))?;
    Some(frame_at(bytes, kind, HEADER_LENGTH))
}

/// The kind of a frame with this type and length in its header.
fn header_kind(number: u16, size: i32) -> Option<FrameKind>
    ensures { MatchOption result
        ((kind : FrameKind) → IsHeaderOfKind number size kind → ⊥)
        (IsHeaderOfKind number size) }
{
    match number {
        0 if size >= 32 => Some(FrameKind::Pad),
        1 if size >= 32 => Some(FrameKind::Message),
        1 if size == 0 => Some(FrameKind::Heartbeat),
        _ => None,
    }
}

/// Writes the frame's encoding over the first bytes, and answers how many it wrote; the bytes behind stay. Takes no
/// memory. Costs the payload's length.
pub fn encode_into(frame: &Frame, out: &mut [u8]) -> usize
    requires encodable { IsEncodable frame.now }
    requires room { length (encoded frame.now) ≤ length out.old }
    ensures written { out.new ≡ encoded frame.now ++ drop (length (encoded frame.now)) out.old }
    ensures size { result ≡ length (encoded frame.now) }
{
    let header = frame.header();
    let payload = frame.payload.as_slice();
    let (front, behind) = out.split_at_mut(HEADER_LENGTH);
    front.copy_from_slice(&header);
    let (body, _) = behind.split_at_mut(payload.len());
    body.copy_from_slice(payload);
    frame.encoded_length()
}

/// The frame in front of the bytes, and how many of them it uses.
fn front_of(bytes: &[u8]) -> Option<(FrameRef<'_>, usize)>
    ensures { MatchOption result
        (HasNoFront bytes.now)
        (λ front. IsFront bytes.now (frame_of front.0) front.1) }
{
    if bytes.len() < HEADER_LENGTH {
        return None;
    }
    if !has_version(bytes) {
        return None;
    }
    if !is_aligned(&read_i32(bytes, 8)) {
        return None;
    }
    let Some(body) = body_of(bytes) else {
        return None;
    };
    Some((frame_at(bytes, body.kind, body.end), body.used))
}

/// Whether a header is of version 0.
fn has_version(bytes: &[u8]) -> bool
    requires { 32 ≤ length bytes.now }
    ensures { IsTrue result ↔ (slice_index bytes.now 4 ≡ 0) }
{
    bytes[4] == 0
}

/// What stands behind a header.
fn body_of(bytes: &[u8]) -> Option<Body>
    requires { 32 ≤ length bytes.now }
    ensures { MatchOption result
        ((kind : FrameKind) (end used : ℕ) → IsBody bytes.now kind end used → ⊥)
        (λ body. IsBody bytes.now body.kind body.end body.used) }
{
    let number = read_u16(bytes, 6);
    if number == 0 {
        return pad_body(bytes);
    }
    if number == 1 {
        return data_body(bytes);
    }
    None
}

/// What stands behind the header of a pad.
fn pad_body(bytes: &[u8]) -> Option<Body>
    requires whole { 32 ≤ length bytes.now }
    requires number { u16_at bytes.now 6 ≡ 0 }
    ensures { MatchOption result
        ((kind : FrameKind) (end used : ℕ) → IsBody bytes.now kind end used → ⊥)
        (λ body. IsBody bytes.now body.kind body.end body.used) }
{
    if read_i32(bytes, 0) < 32 {
        return None;
    }
    Some(Body {
        kind: FrameKind::Pad,
        end: HEADER_LENGTH,
        used: bytes.len(),
    })
}

/// What stands behind the header of a data frame, which may be a heartbeat.
fn data_body(bytes: &[u8]) -> Option<Body>
    requires whole { 32 ≤ length bytes.now }
    requires number { u16_at bytes.now 6 ≡ 1 }
    ensures { MatchOption result
        ((kind : FrameKind) (end used : ℕ) → IsBody bytes.now kind end used → ⊥)
        (λ body. IsBody bytes.now body.kind body.end body.used) }
{
    let size = read_i32(bytes, 0);
    if size == 0 {
        return Some(Body {
            kind: FrameKind::Heartbeat,
            end: HEADER_LENGTH,
            used: HEADER_LENGTH,
        });
    }
    if size < 32 {
        return None;
    }
    let end = size as usize;
    if end > bytes.len() {
        return None;
    }
    let used = aligned_size(end).min(bytes.len());
    Some(Body {
        kind: FrameKind::Message,
        end,
        used,
    })
}

/// The size, rounded up to a multiple of 32.
fn aligned_size(size: usize) -> usize
    requires { size < 2 ^ 31 }
    ensures { result ≡ aligned size }
{
    (size + 31) / FRAME_ALIGNMENT * FRAME_ALIGNMENT
}

/// The frame of a kind whose encoding stands in the bytes up to an offset.
fn frame_at(bytes: &[u8], kind: FrameKind, end: usize) -> FrameRef<'_>
    requires header { 32 ≤ end }
    requires whole { end ≤ length bytes.now }
    ensures { frame_of result ≡ read_frame bytes.now kind end }
{
    FrameRef {
        kind,
        flags: bytes[5],
        length: read_i32(bytes, 0),
        term_offset: read_i32(bytes, 8),
        session_id: read_i32(bytes, 12),
        stream_id: read_i32(bytes, 16),
        term_id: read_i32(bytes, 20),
        reserved: read_i64(bytes, 24),
        payload: &bytes[HEADER_LENGTH..end],
    }
}
