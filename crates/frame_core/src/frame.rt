//! Frames of a stream: Aeron Transport Protocol Specification, "Data Frame" and "Padding Frame".

ghost use Rattle.std.specs.Prelude.{◌≡◌, ◌<◌, ◌^◌, length, unsigned_abs, IfOk, IfErr};
ghost use Rattle.std.specs.Bool.{MatchBool};
ghost use Rattle.frame_core.specs.FrameEncoding.{IsAligned, aligned, frame_of};
ghost use Rattle.frame_core.specs.declared.refusal.Refusal.TheVariants.{NoMemory};

use crate::fields::{put_i32, put_i64, put_u16};
use crate::items::Items;
use crate::limits::{FRAME_ALIGNMENT, HEADER_LENGTH};
use crate::refusal::Refusal;
use std::alloc::Global;

/// What a frame is for.
#[derive(Clone, Copy, Debug, PartialEq, Eq)]
pub enum FrameKind {
    /// Fills a range of a term, and carries nothing.
    Pad,
    /// Carries a message, or a part of one.
    Message,
    /// Tells where a publication stands while it has nothing to send.
    Heartbeat,
}

impl FrameKind {
    ghost use Rattle.frame_core.specs.FrameEncoding.{type_of};

    /// The number in the header's type field.
    fn number(self) -> u16
        ensures { result ≡ type_of self }
    {
        match self {
            FrameKind::Pad => 0,
            FrameKind::Message | FrameKind::Heartbeat => 1,
        }
    }
}

/// A frame: docs/PROTOCOL.md, "Data and pad header".
#[derive(Debug, Drop)]
pub struct Frame {
    /// What it is for.
    pub kind: FrameKind,
    /// The header's flags, kept as they come.
    pub flags: u8,
    /// Bytes of header and payload; of a pad, how many bytes of its term it fills; 0 of a heartbeat.
    pub length: i32,
    /// Bytes from the beginning of its term.
    pub term_offset: i32,
    /// The publication's session.
    pub session_id: i32,
    /// The stream.
    pub stream_id: i32,
    /// The term.
    pub term_id: i32,
    /// The header's reserved value, kept as it comes.
    pub reserved: i64,
    /// What a message carries; empty for a pad and a heartbeat.
    pub payload: Items<u8>,
}

/// A frame that lies in bytes which somebody else owns.
#[derive(Clone, Copy, Debug)]
pub struct FrameRef<'a> {
    /// What it is for.
    pub kind: FrameKind,
    /// The header's flags, kept as they come.
    pub flags: u8,
    /// Bytes of header and payload; of a pad, how many bytes of its term it fills; 0 of a heartbeat.
    pub length: i32,
    /// Bytes from the beginning of its term.
    pub term_offset: i32,
    /// The publication's session.
    pub session_id: i32,
    /// The stream.
    pub stream_id: i32,
    /// The term.
    pub term_id: i32,
    /// The header's reserved value, kept as it comes.
    pub reserved: i64,
    /// What a message carries; empty for a pad and a heartbeat.
    pub payload: &'a [u8],
}

/// A frame, owned or lent.
pub trait AsFrame {
    ghost use Rattle.frame_core.specs.declared.frame.Frame.{Frame};

    /// The frame that it is.
    ghost frame: { Self → Frame };

    /// The frame as lent. Takes no memory.
    fn lent(&self) -> FrameRef<'_>
        ensures { frame_of result ≡ frame self.now };
}

impl AsFrame for Frame {
    ghost frame = { λ f. f };

    fn lent(&self) -> FrameRef<'_> {
        self.as_ref()
    }
}

impl AsFrame for FrameRef<'_> {
    ghost frame = { frame_of };

    fn lent(&self) -> FrameRef<'_> {
        *self
    }
}

impl FrameRef<'_> {
    ghost use Rattle.frame_core.specs.FrameEncoding.{header_of, aligned_length, HasLength};

    /// As [`Frame::aligned_length`].
    pub fn aligned_length(&self) -> u64
        ensures value { result ≡ aligned_length (frame_of self.now) }
        ensures small { result < 2 ^ 33 }
    {
        aligned_size(&self.length)
    }

    /// As [`Frame::header`].
    pub fn header(&self) -> [u8; 32]
        ensures { result ≡ header_of (frame_of self.now) }
    {
        let mut out = [0; 32];
        put_i32(&mut out, 0, self.length);
        out[5] = self.flags;
        put_u16(&mut out, 6, self.kind.number());
        put_i32(&mut out, 8, self.term_offset);
        put_i32(&mut out, 12, self.session_id);
        put_i32(&mut out, 16, self.stream_id);
        put_i32(&mut out, 20, self.term_id);
        put_i64(&mut out, 24, self.reserved);
        out
    }

    /// A copy of the frame. Costs its payload's length.
    pub fn to_frame(&self, alloc: Global) -> Result<Frame, Refusal>
        ensures same { IfOk result (λ frame. frame ≡ frame_of self.now) }
        ensures memory { IfErr result (λ refusal. refusal ≡ NoMemory) }
    {
        Ok(Frame {
            kind: self.kind,
            flags: self.flags,
            length: self.length,
            term_offset: self.term_offset,
            session_id: self.session_id,
            stream_id: self.stream_id,
            term_id: self.term_id,
            reserved: self.reserved,
            payload: Items::from_vec(self.payload.to_vec(alloc)?),
        })
    }

    /// Whether the length and the payload are those of the kind.
    fn has_length(&self) -> bool
        ensures { let fits = HasLength self.now.kind self.now.length self.now.payload.now in
            MatchBool result fits (fits → ⊥) }
    {
        match self.kind {
            FrameKind::Pad => self.payload.is_empty() && self.length >= 32,
            FrameKind::Message => {
                self.length >= 32 && self.length as usize - 32 == self.payload.len()
            }
            FrameKind::Heartbeat => self.payload.is_empty() && self.length == 0,
        }
    }
}

/// The bytes of a length, rounded up to a multiple of 32.
fn aligned_size(length: &i32) -> u64
    ensures value { result ≡ aligned (unsigned_abs length.now) }
    ensures small { result < 2 ^ 33 }
{
    (u64::from(length.unsigned_abs()) + 31) / 32 * 32
}

impl Frame {
    ghost use Rattle.frame_core.specs.FrameEncoding.{header_of, encoded, aligned_length, IsEncodable};

    /// The frame as lent. Takes no memory.
    pub fn as_ref(&self) -> FrameRef<'_>
        ensures { frame_of result ≡ self.now }
    {
        FrameRef {
            kind: self.kind,
            flags: self.flags,
            length: self.length,
            term_offset: self.term_offset,
            session_id: self.session_id,
            stream_id: self.stream_id,
            term_id: self.term_id,
            reserved: self.reserved,
            payload: self.payload.as_slice(),
        }
    }

    /// How many bytes of its stream the frame covers: its length, rounded up to a multiple of 32. Aeron Transport
    /// Protocol Specification, "Data Frame". Takes no memory.
    pub fn aligned_length(&self) -> u64
        ensures value { result ≡ aligned_length self.now }
        ensures small { result < 2 ^ 33 }
    {
        aligned_size(&self.length)
    }

    /// How many bytes the frame's encoding has: its header's and its payload's. Takes no memory.
    pub fn encoded_length(&self) -> usize
        ensures { result ≡ length (encoded self.now) }
    {
        HEADER_LENGTH + self.payload.as_slice().len()
    }

    /// Whether the frame has an encoding: its length and its payload are those of its kind, and its term offset is
    /// from 0 and a multiple of 32. docs/PROTOCOL.md, "Data and pad header". Takes no memory.
    pub fn is_encodable(&self) -> bool
        ensures { MatchBool result (IsEncodable self.now) (IsEncodable self.now → ⊥) }
    {
        self.as_ref().has_length() && is_aligned(&self.term_offset)
    }

    /// The 32 bytes of the frame's header: Aeron Transport Protocol Specification, "Data Frame" and "Padding Frame".
    /// Takes no memory.
    pub fn header(&self) -> [u8; 32]
        ensures { result ≡ header_of self.now }
    {
        self.as_ref().header()
    }
}

/// Whether a term offset is from 0 and a multiple of [`FRAME_ALIGNMENT`]. Takes no memory.
pub fn is_aligned(term_offset: &i32) -> bool
    ensures { let aligned = IsAligned term_offset.now in
        MatchBool result aligned (aligned → ⊥) }
{
    *term_offset >= 0 && *term_offset as u32 % FRAME_ALIGNMENT as u32 == 0
}
