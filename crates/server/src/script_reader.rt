//! What a client sends up to a line that the server answers by itself: `images`, `replays`, `sends`, or one that begins with `follow`,
//! `send` or `stop-sending`. docs/SERVING.md, "Which images there are", "Which replays are open", "Consumers" and "Send a recording".

ghost use Rattle.std.specs.Prelude.{◌≡◌, ◌≤◌, ◌==◌, IfSome, length, take, vec_len};
ghost use Rattle.std.specs.List.{list_any};
ghost use Rattle.server.specs.OwnLines.{ends_soon, is_images, is_line, is_replays, is_sends, is_worded, may_be_images, may_be_own, may_be_replays, may_be_sending, may_be_sends, may_be_worded, may_grow, script_length};

use memchr::memchr;
use std::alloc::{AllocError, Global};
use std::io::{self, Read};

/// The line that asks for the images.
const IMAGES: &[u8; 7] = b"images\n";
/// The line that asks for the open replays.
const REPLAYS: &[u8; 8] = b"replays\n";
/// The line that asks for the sendings.
const SENDS: &[u8; 6] = b"sends\n";
/// How a line begins that asks for frames.
const FOLLOW: &[u8; 7] = b"follow ";
/// How a line begins by which a recording is sent.
const SEND: &[u8; 5] = b"send ";
/// How a line begins by which a sending ends.
const STOP_SENDING: &[u8; 13] = b"stop-sending ";
/// Bytes of the longest such line, its end among them: a longer one is no control line.
pub(crate) const LONGEST_LINE: usize = 90;
/// Bytes that are read at once at most.
const READ_AHEAD: usize = 65_536;

/// Which lines the server answers by itself.
#[derive(Clone, Copy, Debug, PartialEq, Eq)]
pub(crate) struct OwnLines {
    /// The line `images`.
    pub images: bool,
    /// The line `replays`.
    pub replays: bool,
    /// Lines that begin with `follow`.
    pub follow: bool,
    /// The line `sends`, and lines that begin with `send` or `stop-sending`.
    pub sends: bool,
}

/// A line of several words that the server answers by itself, by how it begins.
#[derive(Clone, Copy, Debug, PartialEq, Eq)]
pub(crate) enum WordedLine {
    /// It asks for frames.
    Follow,
    /// A recording is to be sent, or a sending is to end.
    Sending,
}

/// Reads a client's lines up to one that the server answers by itself; once that was taken, those after it.
#[derive(Drop)]
pub(crate) struct ScriptReader<R> {
    reader: R,
    own: OwnLines,
    buffer: Vec<u8>,
    /// Where the bytes that wait begin in the buffer.
    from: usize,
    /// Where they end.
    to: usize,
    /// Whether the first of them begins a line.
    begins_line: bool,
    /// Whether the client sends no more.
    has_ended: bool,
    ghost ordered: { from ≤ to },
    ghost inside: { to ≤ vec_len buffer },
}

impl<R: Read> ScriptReader<R> {
    /// What a reader gives. Costs memory for 65,536 bytes.
    pub fn new(alloc: Global, reader: R, own: OwnLines) -> Result<ScriptReader<R>, AllocError>
    where
        R: Drop,
    {
        let buffer = vec![in alloc; 0; READ_AHEAD]?;
        Ok(ScriptReader {
            reader,
            own,
            buffer,
            from: 0,
            to: 0,
            begins_line: true,
            has_ended: false,
        })
    }

    /// The bytes that wait.
    fn waiting(&self) -> &[u8] {
        &self.buffer[self.from..self.to]
    }

    /// Whether the line `images` comes next. It is passed over then.
    pub fn takes_images(&mut self) -> bool {
        let is_next = self.is_at_images();
        if is_next {
            self.pass_over(IMAGES.len());
        }
        is_next
    }

    /// Whether the line `replays` comes next. It is passed over then.
    pub fn takes_replays(&mut self) -> bool {
        let is_next = self.is_at_replays();
        if is_next {
            self.pass_over(REPLAYS.len());
        }
        is_next
    }

    /// Passes over so many of the bytes that wait, or over all if there are fewer.
    fn pass_over(&mut self, count: usize) {
        self.from = self.from.saturating_add(count).min(self.to);
    }

    fn is_at_images(&self) -> bool {
        self.own.images && self.begins_line && is_images(self.waiting(), self.has_ended)
    }

    fn is_at_replays(&self) -> bool {
        self.own.replays && self.begins_line && is_replays(self.waiting(), self.has_ended)
    }

    /// Whether the line `sends` comes next. It is passed over then.
    pub fn takes_sends(&mut self) -> bool {
        let is_next = self.is_at_sends();
        if is_next {
            self.pass_over(SENDS.len());
        }
        is_next
    }

    fn is_at_sends(&self) -> bool {
        self.own.sends && self.begins_line && is_sends(self.waiting(), self.has_ended)
    }

    fn is_at_follow(&self) -> bool {
        self.own.follow && self.begins_line && is_worded(self.waiting(), FOLLOW, self.has_ended)
    }

    fn is_at_sending(&self) -> bool {
        self.own.sends
            && self.begins_line
            && (is_worded(self.waiting(), SEND, self.has_ended)
                || is_worded(self.waiting(), STOP_SENDING, self.has_ended))
    }

    /// Whether a line comes next that the server answers by itself.
    fn is_at_own(&self) -> bool {
        self.is_at_images()
            || self.is_at_replays()
            || self.is_at_sends()
            || self.is_at_follow()
            || self.is_at_sending()
    }

    /// Which line of several words comes next.
    fn worded(&self) -> Option<WordedLine> {
        if self.is_at_follow() {
            Some(WordedLine::Follow)
        } else if self.is_at_sending() {
            Some(WordedLine::Sending)
        } else {
            None
        }
    }

    /// Takes the line of several words that comes next: which it is, and how many bytes it has, its end among them, unless that is
    /// missing. None if another one comes next.
    pub fn take_worded(&mut self, line: &mut [u8; LONGEST_LINE]) -> Option<(WordedLine, usize)>
        ensures { IfSome result (λ taken. taken.1 ≤ 90) }
    {
        let worded = self.worded()?;
        let waiting = self.waiting();
        let length = match memchr(b'\n', waiting) {
            Some(end) => end + 1,
            None => waiting.len(),
        };
        let count = self.give(length, line);
        self.begins_line = true;
        Some((worded, count))
    }

    /// Reads further bytes after those that wait, which move to the front of the buffer.
    fn fill(&mut self) -> io::Result<()> {
        let waiting = self.to - self.from;
        self.buffer.copy_within(self.from..self.to, 0);
        self.from = 0;
        self.to = waiting;
        let count = self.reader.read(&mut self.buffer[waiting..])?;
        self.to = waiting + count;
        self.has_ended = count == 0;
        Ok(())
    }

    /// Gives so many of the bytes that wait, as far as there is room for them: how many.
    fn give(&mut self, count: usize, buf: &mut [u8]) -> usize
        ensures { result ≤ length buf.new }
    {
        let count = count.min(buf.len()).min(self.to - self.from);
        let end = self.from + count;
        buf[..count].copy_from_slice(&self.buffer[self.from..end]);
        if count > 0 {
            self.begins_line = self.buffer[end - 1] == b'\n';
        }
        self.from = end;
        count
    }
}

impl<R: Read> Read for ScriptReader<R> {
    fn read(&mut self, buf: &mut [u8]) -> io::Result<usize> {
        for _ in 0..u64::MAX {
            let count = script_length(&self.own, self.waiting(), self.begins_line, self.has_ended);
            if count > 0 {
                return Ok(self.give(count, buf));
            }
            if self.has_ended || self.is_at_own() {
                return Ok(0);
            }
            self.fill()?;
        }
        Ok(0)
    }
}

/// Whether bytes begin with the line `images`; if no more bytes come, its end may be missing.
fn is_images(bytes: &[u8], has_ended: bool) -> bool
    ensures { result ≡ is_images has_ended bytes.now }
{
    is_line(bytes, IMAGES, b"images", has_ended)
}

/// Whether bytes begin with the line `replays`; if no more bytes come, its end may be missing.
fn is_replays(bytes: &[u8], has_ended: bool) -> bool
    ensures { result ≡ is_replays has_ended bytes.now }
{
    is_line(bytes, REPLAYS, b"replays", has_ended)
}

/// Whether bytes begin with a line; if no more bytes come, they may be its word without its end.
fn is_line(bytes: &[u8], line: &[u8], word: &[u8], has_ended: bool) -> bool
    ensures { result ≡ is_line line.now word.now has_ended bytes.now }
{
    bytes.starts_with(line) || (has_ended && bytes == word)
}

/// Whether bytes begin with the line `images`, or may once more of them come.
fn may_be_images(bytes: &[u8], has_ended: bool) -> bool
    ensures { result ≡ may_be_images has_ended bytes.now }
{
    is_images(bytes, has_ended) || (!has_ended && IMAGES.starts_with(bytes))
}

/// Whether bytes begin with the line `replays`, or may once more of them come.
fn may_be_replays(bytes: &[u8], has_ended: bool) -> bool
    ensures { result ≡ may_be_replays has_ended bytes.now }
{
    is_replays(bytes, has_ended) || (!has_ended && REPLAYS.starts_with(bytes))
}

/// Whether bytes begin with the line `sends`; if no more bytes come, its end may be missing.
fn is_sends(bytes: &[u8], has_ended: bool) -> bool
    ensures { result ≡ is_sends has_ended bytes.now }
{
    is_line(bytes, SENDS, b"sends", has_ended)
}

/// Whether bytes begin with the line `sends`, or may once more of them come.
fn may_be_sends(bytes: &[u8], has_ended: bool) -> bool
    ensures { result ≡ may_be_sends has_ended bytes.now }
{
    is_sends(bytes, has_ended) || (!has_ended && SENDS.starts_with(bytes))
}

/// Whether bytes begin with a line that begins with a word, and is short enough.
fn is_worded(bytes: &[u8], word: &[u8], has_ended: bool) -> bool
    ensures { result ≡ is_worded word.now has_ended bytes.now }
{
    bytes.starts_with(word) && ends_soon(bytes, has_ended)
}

/// Whether a line that bytes begin with is short enough.
fn ends_soon(bytes: &[u8], has_ended: bool) -> bool
    ensures { result ≡ ends_soon has_ended bytes.now }
{
    has_line_end(front_of(bytes)) || (has_ended && bytes.len() <= LONGEST_LINE)
}

/// The first 90 bytes, or all if there are not so many.
fn front_of(bytes: &[u8]) -> &[u8]
    ensures { result.now ≡ take 90 bytes.now }
{
    if bytes.len() <= LONGEST_LINE {
        bytes
    } else {
        &bytes[..LONGEST_LINE]
    }
}

/// Whether a line ends in bytes.
fn has_line_end(bytes: &[u8]) -> bool
    ensures { result ≡ list_any (λ b. b == 10) bytes.now }
{
    bytes.iter().any(|byte| is_line_end(byte))
}

fn is_line_end(byte: &u8) -> bool
    ensures { result ≡ (byte.now == 10) }
{
    *byte == b'\n'
}

/// Whether bytes begin with such a line, or may once more of them come.
fn may_be_worded(bytes: &[u8], word: &[u8], has_ended: bool) -> bool
    ensures { result ≡ may_be_worded word.now has_ended bytes.now }
{
    is_worded(bytes, word, has_ended) || (!has_ended && may_grow(bytes, word))
}

/// Whether bytes may be the first of such a line.
fn may_grow(bytes: &[u8], word: &[u8]) -> bool
    ensures { result ≡ may_grow word.now bytes.now }
{
    bytes.len() < LONGEST_LINE && (bytes.starts_with(word) || word.starts_with(bytes))
}

/// Whether bytes begin with a line about sendings, or may once more of them come.
fn may_be_sending(bytes: &[u8], has_ended: bool) -> bool
    ensures { result ≡ may_be_sending has_ended bytes.now }
{
    may_be_sends(bytes, has_ended)
        || may_be_worded(bytes, SEND, has_ended)
        || may_be_worded(bytes, STOP_SENDING, has_ended)
}

/// Whether bytes begin with a line that the server answers by itself, or may once more of them come.
fn may_be_own(own: &OwnLines, bytes: &[u8], has_ended: bool) -> bool
    ensures { result ≡ may_be_own own.now has_ended bytes.now }
{
    (own.images && may_be_images(bytes, has_ended))
        || (own.replays && may_be_replays(bytes, has_ended))
        || (own.follow && may_be_worded(bytes, FOLLOW, has_ended))
        || (own.sends && may_be_sending(bytes, has_ended))
}

/// How many bytes stand before a line that the server answers by itself, or before what may become one. Costs a step for each
/// byte, and 90 for each that begins a line.
fn script_length(own: &OwnLines, bytes: &[u8], begins_line: bool, has_ended: bool) -> usize
    ensures { result ≡ script_length own.now has_ended begins_line bytes.now }
{
    let mut begins_line = begins_line;
    for (at, byte) in bytes.iter().enumerate() {
        if begins_line && may_be_own(own, &bytes[at..], has_ended) {
            return at;
        }
        begins_line = *byte == b'\n';
    }
    bytes.len()
}
