//! NAK frames: Aeron Transport Protocol Specification, "NAK Frame"; docs/PROTOCOL.md, "NAK frame".

ghost use Rattle.std.specs.Prelude.{◌≡◌, ◌≤◌, ◌++◌, ℕ, List, length, IfOk, IfErr, OnErr, MatchOption};
ghost use Rattle.frame_core.specs.Decoding.{read_nak};
ghost use Rattle.frame_core.specs.Nak.{HasNoNak, HasRange, IsNak, encoded_nak};

use crate::fields::{put_i32, put_u16, read_i32, read_u16};
use crate::refusal::Refusal;

// Bytes of a NAK frame.
const LENGTH: usize = 28;
// The header's type field.
const TYPE: u16 = 2;

/// A NAK frame, which asks for the frames of a range of a term once more: docs/PROTOCOL.md, "NAK frame".
#[derive(Clone, Copy, Debug, PartialEq, Eq)]
pub struct Nak {
    /// The publication's session.
    pub session_id: i32,
    /// The stream.
    pub stream_id: i32,
    /// The term.
    pub term_id: i32,
    /// Bytes from the beginning of the term to the range.
    pub term_offset: i32,
    /// Bytes of the range.
    pub length: i32,
}

impl Nak {
    /// The 28 bytes of the frame, with the version 0 and the flags 0. Where the offset is at least 0 and the length at
    /// least 1, `decode` reads them as this NAK, whatever follows. Takes no memory.
    pub fn encode(&self) -> [u8; 28]
        ensures bytes { result ≡ encoded_nak self.now }
        ensures read { HasRange self.now → (rest : List ℕ) → IsNak (result ++ rest) self.now }
    {
        let mut out = [0; LENGTH];
        put_i32(&mut out, 0, 28);
        put_u16(&mut out, 6, TYPE);
        put_i32(&mut out, 8, self.session_id);
        put_i32(&mut out, 12, self.stream_id);
        put_i32(&mut out, 16, self.term_id);
        put_i32(&mut out, 20, self.term_offset);
        put_i32(&mut out, 24, self.length);
        out
    }

    /// The NAK frame in front of the bytes; its flags and what follows its 28 bytes are not read. Where none
    /// stands there, BadFrame with offset 0: fewer than 28 bytes, another version, type or frame length, an offset
    /// below 0, or a range length below 1. Takes no memory.
    pub fn decode(bytes: &[u8]) -> Result<Nak, Refusal>
        ensures found { IfOk result (IsNak bytes.now) }
        ensures refused { OnErr result (HasNoNak bytes.now) }
        ensures refusal { IfErr result (λ refusal. refusal ≡ Refusal.BadFrame 0) }
    {
        match nak_of(bytes) {
            Some(nak) => Ok(nak),
            None => Err(Refusal::BadFrame { offset: 0 }),
        }
    }
}

/// The NAK frame in front of the bytes.
fn nak_of(bytes: &[u8]) -> Option<Nak>
    ensures { MatchOption result (HasNoNak bytes.now) (IsNak bytes.now) }
{
    if bytes.len() < LENGTH {
        return None;
    }
    if read_i32(bytes, 0) != 28 {
        return None;
    }
    if bytes[4] != 0 {
        return None;
    }
    if read_u16(bytes, 6) != TYPE {
        return None;
    }
    let nak = nak_at(bytes);
    if nak.term_offset < 0 {
        return None;
    }
    if nak.length < 1 {
        return None;
    }
    Some(nak)
}

/// The fields of a NAK frame, at their offsets.
fn nak_at(bytes: &[u8]) -> Nak
    requires { 28 ≤ length bytes.now }
    ensures { result ≡ read_nak bytes.now }
{
    Nak {
        session_id: read_i32(bytes, 8),
        stream_id: read_i32(bytes, 12),
        term_id: read_i32(bytes, 16),
        term_offset: read_i32(bytes, 20),
        length: read_i32(bytes, 24),
    }
}
