//! Status messages: Aeron Transport Protocol Specification, "Status Message Frame"; docs/PROTOCOL.md, "Status message".

ghost use Rattle.std.specs.Prelude.{◌≡◌, ◌≤◌, ◌++◌, ℕ, List, length, IfOk, IfErr, OnErr, MatchOption};
ghost use Rattle.frame_core.specs.Decoding.{read_status};
ghost use Rattle.frame_core.specs.Status.{HasNoStatus, IsStatus, MayStand, encoded_status};

use crate::fields::{put_i32, put_i64, put_u16, read_i32, read_i64, read_u16};
use crate::frame::is_aligned;
use crate::limits::STATUS_LENGTH;
use crate::refusal::Refusal;

// The header's type field.
const TYPE: u16 = 3;

/// A status message, by which a receiver tells a sender how far it may go: docs/PROTOCOL.md, "Status message".
#[derive(Clone, Copy, Debug, PartialEq, Eq)]
pub struct StatusMessage {
    /// The header's flags. 0x80 asks for a setup frame.
    pub flags: u8,
    /// The publication's session.
    pub session_id: i32,
    /// The stream.
    pub stream_id: i32,
    /// The term up to which the receiver has consumed the stream.
    pub consumption_term_id: i32,
    /// Bytes from the beginning of that term to what the receiver has not consumed.
    pub consumption_term_offset: i32,
    /// Bytes that the receiver takes past what it has consumed.
    pub receiver_window: i32,
    /// The receiver's number.
    pub receiver_id: i64,
}

impl StatusMessage {
    /// The 36 bytes of the frame, with the version 0. If the offset is a multiple of 32 from 0 and the window is at least
    /// 0, `decode` reads them as this status message, whatever follows. Does not allocate.
    pub fn encode(&self) -> [u8; 36]
        ensures bytes { result ≡ encoded_status self.now }
        ensures read { MayStand self.now → (rest : List ℕ) → IsStatus (result ++ rest) self.now }
    {
        let mut out = [0; STATUS_LENGTH];
        put_i32(&mut out, 0, 36);
        out[5] = self.flags;
        put_u16(&mut out, 6, TYPE);
        put_i32(&mut out, 8, self.session_id);
        put_i32(&mut out, 12, self.stream_id);
        put_i32(&mut out, 16, self.consumption_term_id);
        put_i32(&mut out, 20, self.consumption_term_offset);
        put_i32(&mut out, 24, self.receiver_window);
        put_i64(&mut out, 28, self.receiver_id);
        out
    }

    /// The status message at the beginning of the bytes. What follows its 36 bytes is not read.
    ///
    /// BadFrame with offset 0 if there is none: fewer than 36 bytes, another version or type, a frame length below 36 or
    /// past the bytes, an offset below 0 or not a multiple of 32, or a window below 0. Does not allocate.
    pub fn decode(bytes: &[u8]) -> Result<StatusMessage, Refusal>
        ensures found { IfOk result (IsStatus bytes.now) }
        ensures refused { OnErr result (HasNoStatus bytes.now) }
        ensures refusal { IfErr result (λ refusal. refusal ≡ Refusal.BadFrame 0) }
    {
        match status_of(bytes) {
            Some(status) => Ok(status),
            None => Err(Refusal::BadFrame { offset: 0 }),
        }
    }
}

/// The status message at the beginning of the bytes.
fn status_of(bytes: &[u8]) -> Option<StatusMessage>
    ensures { MatchOption result (HasNoStatus bytes.now) (IsStatus bytes.now) }
{
    if bytes.len() < STATUS_LENGTH {
        return None;
    }
    let size = read_i32(bytes, 0);
    if size < 36 {
        return None;
    }
    if size as usize > bytes.len() {
        return None;
    }
    if bytes[4] != 0 {
        return None;
    }
    if read_u16(bytes, 6) != TYPE {
        return None;
    }
    let status = status_at(bytes);
    if !is_aligned(&status.consumption_term_offset) {
        return None;
    }
    if status.receiver_window < 0 {
        return None;
    }
    Some(status)
}

/// The fields of a status message, at their offsets.
fn status_at(bytes: &[u8]) -> StatusMessage
    requires { 36 ≤ length bytes.now }
    ensures { result ≡ read_status bytes.now }
{
    StatusMessage {
        flags: bytes[5],
        session_id: read_i32(bytes, 8),
        stream_id: read_i32(bytes, 12),
        consumption_term_id: read_i32(bytes, 16),
        consumption_term_offset: read_i32(bytes, 20),
        receiver_window: read_i32(bytes, 24),
        receiver_id: read_i64(bytes, 28),
    }
}
