//! The bytes of a datagram.

ghost use Rattle.std.specs.Prelude.{◌≡◌, ◌≤◌, ◌+◌, ◌-◌, ◌++◌, [], length, replicate, take, OnOk, OnErr};
ghost use Rattle.frame_core.specs.FrameEncoding.{aligned_length, encoded, frame_of, stored};

use frame_core::limits::HEADER_LENGTH;
use frame_core::{FrameKind, FrameRef};
use std::alloc::{AllocError, Global};
use std::marker::Model;

/// Bytes as they are sent. To a contract they are the list of them.
#[derive(Debug, Drop)]
pub struct Bytes {
    kept: Vec<u8>,
}

impl Model for Bytes {
    ghost use Rattle.std.specs.Prelude.{ℕ, List};

    ghost Value = { List ℕ };

    ghost view = { λ b. b.kept.items };
}

impl Bytes {
    /// No bytes. Does not allocate.
    pub(crate) fn new(alloc: Global) -> Bytes
        ensures { result ≡ [] }
    {
        Bytes {
            kept: Vec::new(alloc),
        }
    }

    /// The bytes.
    pub fn as_slice(&self) -> &[u8]
        ensures { result.now ≡ self.now }
    {
        self.kept.as_slice()
    }

    /// How many bytes there are.
    pub fn len(&self) -> usize
        ensures { result ≡ length self.now }
    {
        self.kept.len()
    }

    /// Drops the bytes, and keeps their memory.
    pub(crate) fn clear(&mut self)
        ensures { self.new ≡ [] }
    {
        self.kept.clear();
    }

    /// Writes what a segment file holds of a frame, after the other bytes. AllocError if there is no memory; then the bytes stay
    /// as they were.
    pub(crate) fn write(&mut self, frame: &FrameRef<'_>) -> Result<(), AllocError>
        ensures ok { OnOk result (self.new ≡ self.old ++ stored (frame_of frame.now)) }
        ensures err { OnErr result (self.new ≡ self.old) }
    {
        let length = self.kept.len();
        let written = append(&mut self.kept, frame);
        if written.is_err() {
            self.kept.truncate(length);
        }
        written
    }
}

/// How many bytes a segment file holds of a frame.
pub(crate) fn stored_length(frame: &FrameRef<'_>) -> u64
    ensures { result ≡ length (stored (frame_of frame.now)) }
{
    match frame.kind {
        FrameKind::Pad => HEADER_LENGTH as u64,
        FrameKind::Message => encoded_length(frame).max(frame.aligned_length()),
        FrameKind::Heartbeat => 0,
    }
}

/// How many bytes a frame's header and its payload have.
fn encoded_length(frame: &FrameRef<'_>) -> u64
    ensures { result ≡ length (encoded (frame_of frame.now)) }
{
    (HEADER_LENGTH + frame.payload.len()) as u64
}

/// Appends what a segment file holds of a frame. If there is no memory, a part of it may be there.
fn append(out: &mut Vec<u8>, frame: &FrameRef<'_>) -> Result<(), AllocError>
    ensures ok { OnOk result (out.new.items ≡ out.old.items ++ stored (frame_of frame.now)) }
    ensures err { OnErr result (take (length out.old.items) out.new.items ≡ out.old.items) }
{
    match frame.kind {
        FrameKind::Pad => out.extend_from_slice(&frame.header()),
        FrameKind::Message => append_message(out, frame),
        FrameKind::Heartbeat => Ok(()),
    }
}

/// Appends the header of a frame, its payload, and zeros up to its aligned length.
fn append_message(out: &mut Vec<u8>, frame: &FrameRef<'_>) -> Result<(), AllocError>
    ensures ok { OnOk result (out.new.items ≡ out.old.items ++ (encoded (frame_of frame.now)
        ++ replicate (aligned_length (frame_of frame.now) - length (encoded (frame_of frame.now))) 0)) }
    ensures err { OnErr result (take (length out.old.items) out.new.items ≡ out.old.items) }
{
    out.extend_from_slice(&frame.header())?;
    out.extend_from_slice(frame.payload)?;
    append_zeros(
        out,
        frame.aligned_length().saturating_sub(encoded_length(frame)),
    )
}

/// Appends so many zeros.
fn append_zeros(out: &mut Vec<u8>, count: u64) -> Result<(), AllocError>
    ensures ok { OnOk result (out.new.items ≡ out.old.items ++ replicate count 0) }
    ensures err { OnErr result (take (length out.old.items) out.new.items ≡ out.old.items) }
{
    for _ in 0..count {
        out.push(0)?;
    }
    Ok(())
}
