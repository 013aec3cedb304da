//! Setup frames: Aeron Transport Protocol Specification, "Setup Frame"; docs/PROTOCOL.md, "Setup frame".

ghost use Rattle.std.specs.Prelude.{◌≡◌, ◌<◌, ◌≤◌, ◌≤ℤ◌, ◌<ℤ◌, ◌^◌, ◌++◌, ℕ, List, pos, length, IfOk, IfErr, IfSome, OnErr, MatchOption};
ghost use Rattle.frame_core.specs.Decoding.{read_setup};
ghost use Rattle.frame_core.specs.FrameEncoding.{i32_at, u16_at};
ghost use Rattle.frame_core.specs.Setup.{HasJoinPosition, HasNoSetup, IsSetup, IsUsable, encoded_setup, geometry_of};

use crate::fields::{put_i32, put_u16, read_i32, read_u16};
use crate::frame::is_aligned;
use crate::geometry::Geometry;
use crate::limits::{is_mtu, is_term_length};
use crate::positions::position;
use crate::refusal::Refusal;

// Bytes of a setup frame.
const LENGTH: usize = 40;
// The header's type field.
const TYPE: u16 = 5;

/// A setup frame, which tells the terms of a publication and where its image begins: docs/PROTOCOL.md, "Setup frame".
#[derive(Clone, Copy, Debug, PartialEq, Eq)]
pub struct Setup {
    /// The header's flags, kept as they come.
    pub flags: u8,
    /// Bytes from the beginning of the active term to where the image begins.
    pub term_offset: i32,
    /// The publication's session.
    pub session_id: i32,
    /// The stream.
    pub stream_id: i32,
    /// The id of the first term.
    pub initial_term_id: i32,
    /// The id of the term in which the image begins.
    pub active_term_id: i32,
    /// Bytes of each term.
    pub term_length: i32,
    /// Bytes that a data frame has at most, its header included.
    pub mtu: i32,
    /// The time to live of multicast datagrams, kept as it comes.
    pub ttl: i32,
}

impl Setup {
    /// The 40 bytes of the frame, with the version 0. If it may be used, `decode` reads them as this setup frame, whatever
    /// follows. Does not allocate.
    pub fn encode(&self) -> [u8; 40]
        ensures bytes { result ≡ encoded_setup self.now }
        ensures read { IsUsable self.now → (rest : List ℕ) → IsSetup (result ++ rest) self.now }
    {
        let mut out = [0; LENGTH];
        put_i32(&mut out, 0, 40);
        out[5] = self.flags;
        put_u16(&mut out, 6, TYPE);
        put_i32(&mut out, 8, self.term_offset);
        put_i32(&mut out, 12, self.session_id);
        put_i32(&mut out, 16, self.stream_id);
        put_i32(&mut out, 20, self.initial_term_id);
        put_i32(&mut out, 24, self.active_term_id);
        put_i32(&mut out, 28, self.term_length);
        put_i32(&mut out, 32, self.mtu);
        put_i32(&mut out, 36, self.ttl);
        out
    }

    /// The setup frame in front of the bytes; what follows its 40 bytes is not read. Where none stands there that
    /// may be used, BadFrame with offset 0: fewer than 40 bytes, another version, type or length, a term length or an
    /// MTU outside docs/CONTROL.md, "Limits", a term offset that is no multiple of 32, or an active term and an offset
    /// with no position. Takes no memory.
    pub fn decode(bytes: &[u8]) -> Result<Setup, Refusal>
        ensures found { IfOk result (IsSetup bytes.now) }
        ensures refused { OnErr result (HasNoSetup bytes.now) }
        ensures refusal { IfErr result (λ refusal. refusal ≡ Refusal.BadFrame 0) }
    {
        match setup_of(bytes) {
            Some(setup) => Ok(setup),
            None => Err(Refusal::BadFrame { offset: 0 }),
        }
    }

    /// The terms of the publication. Takes no memory.
    pub fn geometry(&self) -> Geometry
        ensures { result ≡ geometry_of self.now }
    {
        Geometry {
            initial_term_id: self.initial_term_id,
            term_length: self.term_length,
            mtu: self.mtu,
        }
    }

    /// Where an image of the publication begins, in bytes of the stream: the position of the active term and the
    /// offset. None where the setup frame may not be used, for a field that `decode` would refuse. Takes no memory.
    pub fn join_position(&self) -> Option<i64>
        ensures value { MatchOption result (IsUsable self.now → ⊥) (HasJoinPosition self.now) }
        ensures small { IfSome result (λ p. (pos 0 ≤ℤ p) × (p <ℤ pos (2 ^ 62))) }
    {
        if !is_term_length(self.term_length) {
            return None;
        }
        if !is_mtu(self.mtu) {
            return None;
        }
        if !is_aligned(&self.term_offset) {
            return None;
        }
        position(&self.geometry(), self.active_term_id, self.term_offset)
    }
}

/// The setup frame in front of the bytes.
fn setup_of(bytes: &[u8]) -> Option<Setup>
    ensures { MatchOption result (HasNoSetup bytes.now) (IsSetup bytes.now) }
{
    if bytes.len() < LENGTH {
        return None;
    }
    if read_i32(bytes, 0) != 40 {
        return None;
    }
    if bytes[4] != 0 {
        return None;
    }
    if read_u16(bytes, 6) != TYPE {
        return None;
    }
    let setup = setup_at(bytes);
    match setup.join_position() {
        Some(_) => Some(setup),
        None => None,
    }
}

/// The fields of a setup frame, at their offsets.
fn setup_at(bytes: &[u8]) -> Setup
    requires { 40 ≤ length bytes.now }
    ensures { result ≡ read_setup bytes.now }
{
    Setup {
        flags: bytes[5],
        term_offset: read_i32(bytes, 8),
        session_id: read_i32(bytes, 12),
        stream_id: read_i32(bytes, 16),
        initial_term_id: read_i32(bytes, 20),
        active_term_id: read_i32(bytes, 24),
        term_length: read_i32(bytes, 28),
        mtu: read_i32(bytes, 32),
        ttl: read_i32(bytes, 36),
    }
}
