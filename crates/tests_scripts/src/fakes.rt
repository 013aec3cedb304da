//! Readers that give few bytes at a time or fail, and writers that take few bytes or hand nothing on.

use std::io::{Error, ErrorKind, Read, Write};

/// Gives its bytes a few at a time, each time after a read that a signal interrupts; then ends, or fails.
#[derive(Drop)]
pub(crate) struct SlowReader<'a> {
    bytes: &'a [u8],
    at_once: usize,
    is_ready: bool,
    fails: bool,
}

impl Read for SlowReader<'_> {
    fn read(&mut self, buf: &mut [u8]) -> std::io::Result<usize> {
        self.is_ready = !self.is_ready;
        if self.is_ready {
            return Err(Error::from(ErrorKind::Interrupted));
        }
        if self.bytes.is_empty() && self.fails {
            return Err(Error::from(ErrorKind::Other));
        }
        let count = self.bytes.len().min(buf.len()).min(self.at_once);
        let (now, later) = self.bytes.split_at(count);
        buf[..count].copy_from_slice(now);
        self.bytes = later;
        Ok(count)
    }
}

/// A reader of these bytes that gives so many at a time.
pub(crate) fn slow(bytes: &[u8], at_once: usize) -> SlowReader<'_> {
    SlowReader {
        bytes,
        at_once,
        is_ready: false,
        fails: false,
    }
}

/// The same of one that fails then.
pub(crate) fn broken(bytes: &[u8], at_once: usize) -> SlowReader<'_> {
    SlowReader {
        bytes,
        at_once,
        is_ready: false,
        fails: true,
    }
}

/// Takes a few bytes, and then no more.
#[derive(Drop)]
pub(crate) struct FullWriter {
    /// For how many bytes there is room.
    pub room: usize,
}

impl Write for FullWriter {
    fn write(&mut self, buf: &[u8]) -> std::io::Result<usize> {
        let count = buf.len().min(self.room);
        self.room -= count;
        Ok(count)
    }

    fn flush(&mut self) -> std::io::Result<()> {
        Ok(())
    }
}

/// Takes a few bytes, and then fails; hands on what it took, unless it is to hold it.
#[derive(Drop)]
pub(crate) struct HoldingWriter {
    room: usize,
    taken: usize,
    holds: bool,
}

impl HoldingWriter {
    /// One that has room for so many bytes.
    pub fn with_room(room: usize) -> HoldingWriter {
        HoldingWriter {
            room,
            taken: 0,
            holds: false,
        }
    }

    /// One that has room for 1,000 bytes, and holds them.
    pub fn holding() -> HoldingWriter {
        HoldingWriter {
            room: 1_000,
            taken: 0,
            holds: true,
        }
    }
}

impl Write for HoldingWriter {
    fn write(&mut self, buf: &[u8]) -> std::io::Result<usize> {
        if self.room == 0 {
            return Err(Error::from(ErrorKind::Other));
        }
        let count = buf.len().min(self.room);
        self.room -= count;
        self.taken = self.taken.saturating_add(count);
        Ok(count)
    }

    fn flush(&mut self) -> std::io::Result<()> {
        if self.holds && self.taken > 0 {
            return Err(Error::from(ErrorKind::Other));
        }
        Ok(())
    }
}
