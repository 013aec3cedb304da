//! The first bytes of a connection, which say whether another protocol is spoken there. docs/SERVING.md, "Control lines".

ghost use Rattle.std.specs.Prelude.{◌≡◌, ◌≤◌, nat_eq};
ghost use Rattle.std.specs.List.{list_any, starts_with};
ghost use Rattle.server.specs.FirstBytes.{is_foreign, may_be_foreign};

use std::io::{self, Read};

/// What a connection of another protocol begins with: a method of HTTP and a blank, HTTP/2's preface, or the first byte of a TLS
/// handshake.
const WORDS: [&[u8]; 11] = [
    b"GET ",
    b"POST ",
    b"HEAD ",
    b"PUT ",
    b"DELETE ",
    b"OPTIONS ",
    b"CONNECT ",
    b"PATCH ",
    b"TRACE ",
    b"PRI ",
    b"\x16",
];
/// Bytes on which it is decided at most: the longest of the words.
const LONGEST: usize = 8;

/// What a reader gives, of whose first bytes is decided whether another protocol is spoken.
#[derive(Drop)]
pub(crate) struct FirstBytes<I> {
    reader: I,
    held: [u8; 8],
    /// Where the bytes that wait begin among those that are held.
    from: usize,
    /// Where they end.
    to: usize,
    ghost ordered: { from ≤ to },
    ghost inside: { to ≤ 8 },
}

impl<I: Read + Drop> FirstBytes<I> {
    /// What a reader gives. Nothing of it was read.
    pub fn new(reader: I) -> FirstBytes<I> {
        FirstBytes {
            reader,
            held: [0; 8],
            from: 0,
            to: 0,
        }
    }

    /// The bytes that wait.
    fn waiting(&self) -> &[u8] {
        &self.held[self.from..self.to]
    }

    /// Whether another protocol is spoken: reads on until that is decided, by 8 bytes at most. If not, the bytes are given by
    /// reads. An error: a read failed.
    pub fn are_foreign(&mut self) -> io::Result<bool> {
        for _ in 0..=LONGEST {
            if is_foreign(self.waiting()) {
                return Ok(true);
            }
            if !may_be_foreign(self.waiting()) || !self.holds_more()? {
                return Ok(false);
            }
        }
        Ok(false)
    }

    /// Reads one byte after those that wait. Whether it came. Lines are decided on by their first one, so that the rest is read at
    /// once, and a connection that ends after `quit` has no bytes unread: the system would reset it.
    fn holds_more(&mut self) -> io::Result<bool> {
        if self.to >= LONGEST {
            return Ok(false);
        }
        let end = self.to + 1;
        let count = self.reader.read(&mut self.held[self.to..end])?;
        self.to += count;
        Ok(count > 0)
    }
}

impl<I: Read + Drop> Read for FirstBytes<I> {
    fn read(&mut self, buf: &mut [u8]) -> io::Result<usize> {
        let count = buf.len().min(self.to - self.from);
        if count == 0 {
            return self.reader.read(buf);
        }
        let end = self.from + count;
        buf[..count].copy_from_slice(&self.held[self.from..end]);
        self.from = end;
        Ok(count)
    }
}

/// Whether bytes begin a connection of another protocol.
fn is_foreign(bytes: &[u8]) -> bool
    ensures { result ≡ is_foreign bytes.now }
{
    let words: [&[u8]; 11] = WORDS;
    begins_with_one(bytes, words.as_slice())
}

/// Whether bytes may begin such a connection once more of them come.
fn may_be_foreign(bytes: &[u8]) -> bool
    ensures { result ≡ may_be_foreign bytes.now }
{
    let words: [&[u8]; 11] = WORDS;
    begins_one(bytes, words.as_slice())
}

/// Whether bytes begin with one of these words.
fn begins_with_one(bytes: &[u8], words: &[&[u8]]) -> bool
    ensures { result ≡ list_any (λ word. starts_with nat_eq bytes.now word.now) words.now }
{
    for word in words {
        if bytes.starts_with(word) {
            return true;
        }
    }
    false
}

/// Whether one of these words begins with bytes.
fn begins_one(bytes: &[u8], words: &[&[u8]]) -> bool
    ensures { result ≡ list_any (λ word. starts_with nat_eq word.now bytes.now) words.now }
{
    for word in words {
        if word.starts_with(bytes) {
            return true;
        }
    }
    false
}
