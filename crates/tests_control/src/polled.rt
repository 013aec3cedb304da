//! The frames of a poll as lines, written to a writer: docs/CONTROL.md, "Lines", by example.

use archive_model::{PolledFrame, Reply};
use control_lines::{TextBuffer, print_reply, write_frame_line, write_polled};
use frame_core::{Frame, FrameKind, Items};
use std::alloc::Global;
use std::io::{Error, ErrorKind, Write};
use std::test::*;

/// A frame at 64 with a payload of so many bytes 0x5A.
fn frame_of(alloc: Global, count: usize) -> Result<PolledFrame, Fail> {
    let frame = Frame {
        kind: FrameKind::Message,
        flags: 192,
        length: i32::try_from(count)?.saturating_add(32),
        term_offset: 64,
        session_id: 7,
        stream_id: 1_001,
        term_id: 42,
        reserved: 0,
        payload: Items::from_vec(vec![in alloc; 0x5a; count]?),
    };
    Ok(PolledFrame {
        position: 64,
        frame,
    })
}

/// The line of that frame, with the digits of its length.
fn line_of(alloc: Global, length: &str, count: usize) -> Result<String, Fail> {
    let payload = "5a".repeat(alloc, count)?;
    Ok(format!(in alloc;
        "frame 64 {length}00c001004000000007000000e90300002a0000000000000000000000{payload}\n"
    )?)
}

/// What is written of a frame at 64 with its header and its payload lent.
fn written(alloc: Global, frame: &Frame) -> Result<Vec<u8>, Fail> {
    let mut out = Vec::new(alloc);
    let payload = frame.payload.as_slice();
    let (header, mut buffer) = (frame.header(), TextBuffer::new());
    write_frame_line(64, &header, payload, &mut buffer, &mut out)?;
    Ok(out)
}

/// What is printed of a frame.
fn printed(alloc: Global, frame: PolledFrame) -> Result<Vec<u8>, Fail> {
    Ok(print_reply(alloc, &Reply::Taken(Some(frame)))?)
}

/// What is written of that frame, and what is printed.
fn lines_of(alloc: Global, count: usize) -> Result<(Vec<u8>, Vec<u8>), Fail> {
    let polled = frame_of(alloc, count)?;
    let written = written(alloc, &polled.frame)?;
    Ok((written, printed(alloc, polled)?))
}

/// Whether that frame's line is written and printed.
fn is_line(alloc: Global, length: &str, count: usize) -> Result<bool, Fail> {
    let (written, printed) = lines_of(alloc, count)?;
    let line = line_of(alloc, length, count)?;
    Ok(written.as_slice() == line.as_bytes() && printed.as_slice() == line.as_bytes())
}

/// Payloads that are empty, that fill the buffer, and that are written in parts.
#[test]
fn payloads_of_each_length(rt: HostRuntime) -> Result<(), Fail> {
    for (length, count) in [
        ("20000000", 0),
        ("21000000", 1),
        ("f0070000", 2_000),
        ("f1070000", 2_001),
        ("c0ff0000", 65_440),
    ] {
        let is_line = is_line(rt.alloc(), length, count)?;
        assert!(rt; is_line, "a payload of {count} bytes");
    }
    Ok(())
}

/// Takes a few bytes, and then fails.
#[derive(Drop)]
struct FullWriter {
    room: usize,
}

impl Write for FullWriter {
    fn write(&mut self, buf: &[u8]) -> std::io::Result<usize> {
        if self.room == 0 {
            return Err(Error::from(ErrorKind::Other));
        }
        let count = buf.len().min(self.room);
        self.room -= count;
        Ok(count)
    }

    fn flush(&mut self) -> std::io::Result<()> {
        Ok(())
    }
}

/// Whether a poll of one frame of 2,001 bytes fits into so much room: 4,076 bytes for its line, and 5 for `done`.
fn fits(alloc: Global, room: usize) -> Result<bool, Fail> {
    let polled = [frame_of(alloc, 2_001)?];
    Ok(write_polled(&polled, None, &mut FullWriter { room }).is_ok())
}

/// A poll ends with a fault if the output has no room for all its lines.
#[test]
fn a_failing_writer_ends_a_poll(rt: HostRuntime) -> Result<(), Fail> {
    for (room, is_enough) in [
        (0, false),
        (4_072, false),
        (4_073, false),
        (4_075, false),
        (4_076, false),
        (4_080, false),
        (4_081, true),
    ] {
        let fits = fits(rt.alloc(), room)?;
        assert!(rt; fits == is_enough, "room for {room} bytes");
    }
    Ok(())
}
