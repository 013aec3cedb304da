//! What no clause says: that lines are read while there is memory, and what a failing input leads to.

use super::scripts::{answers, expect};
use std::alloc::Global;
use std::io::{BufRead, BufReader, Error, ErrorKind, Read};
use std::test::*;
use tool_core::{EarlyEnd, LineBuffer, MAX_READS, read_line};

/// Whether there is a further line.
fn next_line<R: BufRead>(
    reader: &mut R,
    reads: &mut u64,
    line: &mut LineBuffer,
) -> Result<bool, EarlyEnd> {
    read_line(reader, reads, line)
}

/// Adds a line's bytes as text, or `-` where it is too long, followed by `|`.
fn add_line(out: &mut String, line: &LineBuffer) -> Result<(), Fail> {
    match line.bytes() {
        Some(bytes) => out.push_str(std::str::from_utf8(bytes)?)?,
        None => out.push('-')?,
    }
    Ok(out.push('|')?)
}

/// Adds each line of a reader. Fails where there are more than `most`.
fn add_lines<R: BufRead>(
    reader: &mut R,
    most: usize,
    line: &mut LineBuffer,
    out: &mut String,
) -> Result<(), Fail> {
    let mut reads = 0;
    for _ in 0..=most {
        if !next_line(reader, &mut reads, line)? {
            return Ok(());
        }
        add_line(out, line)?;
    }
    Err(Fail::new("more lines than bytes"))
}

/// Each line's bytes as text, or `-` where it is too long, each followed by `|`.
fn lines_read(alloc: Global, input: &[u8], room: usize) -> Result<String, Fail> {
    let mut reader = BufReader::with_capacity(alloc, room, input)?;
    let (mut line, mut out) = (LineBuffer::new(alloc), String::new(alloc));
    add_lines(&mut reader, input.len(), &mut line, &mut out)?;
    Ok(out)
}

/// Fails with the lines that were read, where they are others.
fn check(alloc: Global, input: &str, room: usize, lines: &str) -> Result<(), Fail> {
    let found = lines_read(alloc, input.as_bytes(), room)?;
    if found.as_str() == lines {
        Ok(())
    } else {
        Err(Fail::new(found))
    }
}

/// Inputs, and their lines.
const INPUTS: [(&'static str, &'static str); 4] = [
    ("", ""),
    ("\n\n", "||"),
    ("list 0 10\nquit", "list 0 10|quit|"),
    (" a \r\n\tb\n", " a \r|\tb|"),
];

/// Inputs are split at line feeds alone, with or without a last one, whatever the buffer's size.
#[test]
fn lines_of_inputs(rt: HostRuntime) -> Result<(), Fail> {
    for (input, lines) in INPUTS {
        for room in [1, 3, 8_192] {
            check(rt.alloc(), input, room, lines)?;
        }
    }
    Ok(())
}

/// Adds a line of so many bytes.
fn add_long(input: &mut Vec<u8>, count: usize) -> Result<(), Fail> {
    let end = input.len();
    input.resize(end.saturating_add(count), b'x')?;
    Ok(input.push(b'\n')?)
}

/// Lines of 262,144 and of 262,145 bytes, and a short one.
fn long_input(alloc: Global) -> Result<Vec<u8>, Fail> {
    let mut input = Vec::new(alloc);
    add_long(&mut input, 262_144)?;
    add_long(&mut input, 262_145)?;
    input.extend_from_slice(b"quit")?;
    Ok(input)
}

/// How long the text of the lines is, and whether the last ones are a line that is too long and a short one.
fn long_read(alloc: Global, input: &[u8], room: usize) -> Result<(usize, bool), Fail> {
    let lines = lines_read(alloc, input, room)?;
    Ok((lines.len(), lines.as_str().ends_with("x|-|quit|")))
}

/// A line of 262,144 bytes is read, one of a byte more is skipped as too long, and the next line is read.
#[test]
fn long_lines(rt: HostRuntime) -> Result<(), Fail> {
    let input = long_input(rt.alloc())?;
    for room in [8_192, 262_144, 600_000] {
        let found = long_read(rt.alloc(), input.as_slice(), room)?;
        assert!(rt; found == (262_144 + 1 + 2 + 5, true));
    }
    Ok(())
}

/// A line of 262,145 bytes, and a short one.
fn too_long(alloc: Global) -> Result<Vec<u8>, Fail> {
    let mut input = Vec::new(alloc);
    add_long(&mut input, 262_145)?;
    input.extend_from_slice(b"list 0 0")?;
    Ok(input)
}

/// A line that is too long is answered BadLine, and the script goes on.
#[test]
fn a_line_that_is_too_long_is_bad(rt: HostRuntime) -> Result<(), Fail> {
    let input = too_long(rt.alloc())?;
    let script = std::str::from_utf8(input.as_slice())?;
    let out = answers(rt.alloc(), script)?;
    expect(out.as_slice(), "error 22 BadLine\nend 0\n")
}

// Gives its text a byte at a time, each behind a read that a signal interrupts, and fails in slot of one byte.
#[derive(Drop)]
struct Flaky<'a> {
    text: &'a [u8],
    fails_at: usize,
    at: usize,
    is_interrupted: bool,
}

impl Read for Flaky<'_> {
    fn read(&mut self, buf: &mut [u8]) -> std::io::Result<usize> {
        self.is_interrupted = !self.is_interrupted;
        if self.is_interrupted {
            return Err(Error::from(ErrorKind::Interrupted));
        }
        if self.at == self.fails_at {
            return Err(Error::from(ErrorKind::BrokenPipe));
        }
        match (self.text.get(self.at), buf.first_mut()) {
            (Some(byte), Some(slot)) => {
                *slot = *byte;
                self.at = self.at.saturating_add(1);
                Ok(1)
            }
            _ => Ok(0),
        }
    }
}

fn make_flaky(text: &[u8], fails_at: usize) -> Flaky<'_> {
    Flaky {
        text,
        fails_at,
        at: 0,
        is_interrupted: false,
    }
}

/// Whether a reader that fails at such a byte gives the first line in 18 reads, if it gives that, and then its fault.
fn fails_in_turn<R: BufRead>(reader: &mut R, fails_at: usize, line: &mut LineBuffer) -> bool {
    let mut reads = 0;
    if fails_at > 8 && (next_line(reader, &mut reads, line) != Ok(true) || reads != 18) {
        return false;
    }
    next_line(reader, &mut reads, line) == Err(EarlyEnd::Read)
}

/// The same of an input of two lines.
fn input_fails(alloc: Global, fails_at: usize, line: &mut LineBuffer) -> Result<bool, Fail> {
    let mut reader = BufReader::new(alloc, make_flaky(b"poll 0 1\nquit\n", fails_at))?;
    Ok(fails_in_turn(&mut reader, fails_at, line))
}

/// An input that fails in the middle of a line ends there, interrupted reads are tried again, and the whole line before
/// is given.
#[test]
fn an_input_that_fails(rt: HostRuntime) -> Result<(), Fail> {
    let mut line = LineBuffer::new(rt.alloc());
    for fails_at in 0..12 {
        let is_as_told = input_fails(rt.alloc(), fails_at, &mut line)?;
        assert!(rt; is_as_told, "{fails_at}");
    }
    Ok(())
}

/// An input ends with a read fault once it was read as often as the limit allows.
#[test]
fn an_input_that_was_looked_at_too_often(rt: HostRuntime) {
    let mut line = LineBuffer::new(rt.alloc());
    let mut input = b"quit\nquit\n".as_slice();
    let mut reads = MAX_READS - 1;
    assert!(rt; next_line(&mut input, &mut reads, &mut line) == Ok(true));
    assert!(rt; next_line(&mut input, &mut reads, &mut line) == Err(EarlyEnd::Read));
    assert!(rt; reads == MAX_READS);
}
