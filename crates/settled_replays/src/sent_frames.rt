//! Frames as a follower is sent them. docs/PROTOCOL.md, "Following a recording".

ghost use Rattle.std.specs.Prelude.{◌≡◌, ◌-◌, ◌++◌, [], length, replicate, take, OnErr, OnOk};
ghost use Rattle.frame_core.specs.FrameEncoding.{aligned_length, encoded, frame_of, header_of, stored};

use frame_core::limits::HEADER_LENGTH;
use frame_core::{FrameKind, FrameRef};
use replay_core::FrameTaker;
use std::alloc::{AllocError, Global};
use std::marker::Model;

/// The stored bytes of frames, one after another: a message with zeros up to its aligned length, a pad's header. To a contract
/// they are the list of them.
#[derive(Debug, Drop)]
pub struct SentFrames {
    bytes: Vec<u8>,
}

impl Model for SentFrames {
    ghost use Rattle.std.specs.Prelude.{ℕ, List};

    ghost Value = { List ℕ };

    ghost view = { λ s. s.bytes.items };
}

impl SentFrames {
    /// No bytes. Does not allocate.
    pub fn new(alloc: Global) -> SentFrames
        ensures { result ≡ [] }
    {
        SentFrames {
            bytes: Vec::new(alloc),
        }
    }

    /// The bytes.
    pub fn as_slice(&self) -> &[u8]
        ensures { result.now ≡ self.now }
    {
        self.bytes.as_slice()
    }

    /// Drops the bytes, and keeps their memory.
    pub fn clear(&mut self)
        ensures { self.new ≡ [] }
    {
        self.bytes.clear();
    }
}

impl FrameTaker for SentFrames {
    ghost takes = { λ old position frame new. new ≡ old ++ stored frame };

    ghost leaves = { λ old new. new ≡ old };

    fn take(
        &mut self,
        _position: i64,
        header: &[u8],
        frame: &FrameRef<'_>,
    ) -> Result<(), AllocError> {
        let length = self.bytes.len();
        let written = append(&mut self.bytes, header, frame);
        if written.is_err() {
            self.bytes.truncate(length);
        }
        written
    }
}

/// How many bytes a frame's header and its payload have.
fn encoded_length(frame: &FrameRef<'_>) -> u64
    ensures { result ≡ length (encoded (frame_of frame.now)) }
{
    (HEADER_LENGTH + frame.payload.len()) as u64
}

/// Appends what a segment file holds of a frame with this header. If there is no memory, a part of it may be there.
fn append(out: &mut Vec<u8>, header: &[u8], frame: &FrameRef<'_>) -> Result<(), AllocError>
    requires { header.now ≡ header_of (frame_of frame.now) }
    ensures ok { OnOk result (out.new.items ≡ out.old.items ++ stored (frame_of frame.now)) }
    ensures err { OnErr result (take (length out.old.items) out.new.items ≡ out.old.items) }
{
    match frame.kind {
        FrameKind::Pad => out.extend_from_slice(header),
        FrameKind::Message => append_message(out, header, frame),
        FrameKind::Heartbeat => Ok(()),
    }
}

/// Appends the header of a frame, its payload, and zeros up to its aligned length.
fn append_message(out: &mut Vec<u8>, header: &[u8], frame: &FrameRef<'_>) -> Result<(), AllocError>
    requires { header.now ≡ header_of (frame_of frame.now) }
    ensures ok { OnOk result (out.new.items ≡ out.old.items ++ (encoded (frame_of frame.now)
        ++ replicate (aligned_length (frame_of frame.now) - length (encoded (frame_of frame.now))) 0)) }
    ensures err { OnErr result (take (length out.old.items) out.new.items ≡ out.old.items) }
{
    out.extend_from_slice(header)?;
    out.extend_from_slice(frame.payload)?;
    append_zeros(
        out,
        frame.aligned_length().saturating_sub(encoded_length(frame)),
    )
}

/// Appends so many zeros.
fn append_zeros(out: &mut Vec<u8>, count: u64) -> Result<(), AllocError>
    ensures ok { OnOk result (out.new.items ≡ out.old.items ++ replicate count 0) }
    ensures err { OnErr result (take (length out.old.items) out.new.items ≡ out.old.items) }
{
    for _ in 0..count {
        out.push(0)?;
    }
    Ok(())
}
