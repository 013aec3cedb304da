//! What a client sends, a line at a time: once another client has quit no further line is read.

ghost use Rattle.std.specs.Prelude.{◌≤◌, length};

use crate::client::Client;
use memchr::memchr;
use server_state::Reporter;
use std::alloc::Global;
use std::io::{self, BufRead, BufReader, ErrorKind, Read};
use std::rt::Clock;
use std::sync::Wait;

/// Bytes that are read at once at most.
const READ_AHEAD: usize = 65_536;

/// Gives what a reader gives, a line at a time, as long as the client's lines are read.
#[derive(Drop)]
pub(crate) struct LineReader<'a, R, T, I> {
    client: &'a Client<'a, R, T>,
    lines: BufReader<I>,
}

impl<'a, R: Wait + Clock, T: Reporter, I: Read + Drop> LineReader<'a, R, T, I> {
    /// The lines of a reader. Costs memory for 65,536 bytes.
    pub fn new(
        alloc: Global,
        client: &'a Client<'a, R, T>,
        reader: I,
    ) -> io::Result<LineReader<'a, R, T, I>> {
        let lines = BufReader::with_capacity(alloc, READ_AHEAD, reader)?;
        Ok(LineReader { client, lines })
    }
}

impl<R: Wait + Clock, T: Reporter, I: Read + Drop> Read for LineReader<'_, R, T, I> {
    fn read(&mut self, buf: &mut [u8]) -> io::Result<usize> {
        if !self.client.reads_on() {
            return Err(io::Error::from(ErrorKind::TimedOut));
        }
        let shown = self.lines.fill_buf()?;
        let count = line_length(shown).min(buf.len());
        buf[..count].copy_from_slice(&shown[..count]);
        self.lines.consume(count);
        Ok(count)
    }
}

/// How many bytes stand up to the end of the first line, or of the bytes.
fn line_length(bytes: &[u8]) -> usize
    ensures { result ≤ length bytes.now }
{
    match memchr(b'\n', bytes) {
        Some(at) => at + 1,
        None => bytes.len(),
    }
}
