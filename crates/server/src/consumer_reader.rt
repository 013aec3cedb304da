//! What a consumer sends, with an empty line in the place of each line that its port does not answer. docs/SERVING.md,
//! "Consumers".

ghost use Rattle.std.specs.Prelude.{◌≡◌, ◌≤◌, ◌<◌, IfNone, IfSome, IsFalse, IsTrue, false, true, length, vec_len};
ghost use Rattle.server.specs.ConsumerLines.{IsWordDecided, IsWordKnown, first_word, is_consumer_word, is_for_consumers};

use memchr::memchr;
use std::alloc::{AllocError, Global};
use std::io::{self, Read};

/// Bytes that are read at once at most.
const READ_AHEAD: usize = 4_096;
/// Bytes of the longest first word that is answered.
const LONGEST_WORD: usize = 9;

/// What becomes of the line that is being read.
#[derive(Clone, Copy, Debug, PartialEq, Eq)]
enum Course {
    /// That is not known yet: none of it was given.
    Begins,
    /// It is given.
    Passes,
    /// An empty line is given in its place.
    Skips,
}

/// Reads a consumer's lines. In the place of a line that its port does not answer it gives an empty one, which is BadLine.
#[derive(Drop)]
pub(crate) struct ConsumerReader<I> {
    reader: I,
    buffer: Vec<u8>,
    /// Where the bytes that wait begin in the buffer.
    from: usize,
    /// Where they end.
    to: usize,
    course: Course,
    /// Whether the consumer sends no more.
    has_ended: bool,
    ghost ordered: { from ≤ to },
    ghost inside: { to ≤ vec_len buffer },
}

impl<I: Read> ConsumerReader<I> {
    /// What a reader gives. Costs memory for 4,096 bytes.
    pub fn new(alloc: Global, reader: I) -> Result<ConsumerReader<I>, AllocError>
    where
        I: Drop,
    {
        let buffer = vec![in alloc; 0; READ_AHEAD]?;
        Ok(ConsumerReader {
            reader,
            buffer,
            from: 0,
            to: 0,
            course: Course::Begins,
            has_ended: false,
        })
    }

    /// The bytes that wait.
    fn waiting(&self) -> &[u8] {
        &self.buffer[self.from..self.to]
    }

    /// Reads further bytes after those that wait, which move to the front of the buffer.
    fn fill(&mut self) -> io::Result<()> {
        let waiting = self.to - self.from;
        self.buffer.copy_within(self.from..self.to, 0);
        self.from = 0;
        self.to = waiting;
        let count = self.reader.read(&mut self.buffer[waiting..])?;
        self.to = waiting + count;
        self.has_ended = count == 0;
        Ok(())
    }

    /// Decides what becomes of the line that begins, as far as the bytes that wait say so.
    fn begin(&mut self) {
        let waiting = self.waiting();
        if waiting.is_empty() {
            return;
        }
        let end = memchr(b'\n', waiting);
        let is_whole = end.is_some() || self.has_ended;
        let front = &waiting[..end.unwrap_or(waiting.len())];
        self.course = match decided(front, is_whole) {
            Some(true) => Course::Passes,
            Some(false) => Course::Skips,
            None => Course::Begins,
        };
    }

    /// Gives bytes of the line up to its end, as far as there is room for them: how many.
    fn pass(&mut self, buf: &mut [u8]) -> usize
        ensures { result ≤ length buf.new }
    {
        let count = line_length(self.waiting())
            .min(buf.len())
            .min(self.to - self.from);
        let end = self.from + count;
        buf[..count].copy_from_slice(&self.buffer[self.from..end]);
        if count > 0 && self.buffer[end - 1] == b'\n' {
            self.course = Course::Begins;
        }
        self.from = end;
        count
    }

    /// Passes over bytes of the line up to its end. Whether that was there, or no more comes.
    fn skip(&mut self) -> bool {
        let has_end = memchr(b'\n', self.waiting()).is_some() || self.has_ended;
        let count = line_length(self.waiting()).min(self.to - self.from);
        self.from += count;
        if has_end {
            self.course = Course::Begins;
        }
        has_end
    }

    /// Gives what is known to be given now: how many bytes. None if more has to be read first.
    fn given(&mut self, buf: &mut [u8]) -> Option<usize>
        ensures { IfSome result (λ count. count ≤ length buf.new) }
    {
        if self.course == Course::Begins {
            self.begin();
        }
        match self.course {
            Course::Begins => None,
            Course::Passes if self.from == self.to => None,
            Course::Passes => Some(self.pass(buf)),
            Course::Skips => self.skipped(buf),
        }
    }

    /// Passes over bytes of the line up to its end, and gives an empty line there.
    fn skipped(&mut self, buf: &mut [u8]) -> Option<usize>
        ensures { IfSome result (λ count. count ≤ length buf.new) }
    {
        if !self.skip() {
            return None;
        }
        let first = buf.first_mut()?;
        *first = b'\n';
        Some(1)
    }
}

impl<I: Read> Read for ConsumerReader<I> {
    fn read(&mut self, buf: &mut [u8]) -> io::Result<usize> {
        if buf.is_empty() {
            return Ok(0);
        }
        for _ in 0..u64::MAX {
            if let Some(count) = self.given(buf) {
                return Ok(count);
            }
            if self.has_ended {
                return Ok(0);
            }
            self.fill()?;
        }
        Ok(0)
    }
}

/// How many bytes stand up to the end of the first line, or of the bytes.
fn line_length(bytes: &[u8]) -> usize
    ensures { result ≤ length bytes.now }
{
    match memchr(b'\n', bytes) {
        Some(at) => at + 1,
        None => bytes.len(),
    }
}

/// Whether a port of consumers answers a line that begins with these bytes, if that is known: all of it is there, or its first
/// word is, or more than the longest word.
#[tactic(auto, using(crate::proofs::ConsumerLemmas::decides))]
fn decided(front: &[u8], is_whole: bool) -> Option<bool>
    ensures decided { IsWordDecided is_whole front.now result }
    ensures short { IfNone result (length front.now < 10) }
{
    if is_whole {
        return Some(is_for_consumers(front));
    }
    if is_known(front) {
        return Some(is_for_consumers(front));
    }
    None
}

/// Whether bytes have the first word of their line, or are too many for a word that is answered.
#[tactic(auto, using(crate::proofs::ConsumerLemmas::word_ends))]
fn is_known(front: &[u8]) -> bool
    ensures known { IsTrue result → IsWordKnown front.now }
    ensures short { IsFalse result → length front.now < 10 }
{
    match memchr(b' ', front) {
        Some(_) => true,
        None => front.len() > LONGEST_WORD,
    }
}

/// Whether a port of consumers answers a line: its first word is one of a line that only reads, or ends the connection.
fn is_for_consumers(line: &[u8]) -> bool
    ensures { result ≡ is_for_consumers line.now }
{
    is_consumer_word(first_word(line))
}

/// The first word of a line: its bytes before the first blank, or all of them.
#[tactic(auto, using(crate::proofs::ConsumerLemmas::word_before))]
fn first_word(line: &[u8]) -> &[u8]
    ensures { result.now ≡ first_word line.now }
{
    match memchr(b' ', line) {
        Some(at) => &line[..at],
        None => line,
    }
}

/// Whether a word is the first one of a line that a port of consumers answers.
fn is_consumer_word(word: &[u8]) -> bool
    ensures { result ≡ is_consumer_word word.now }
{
    word == b"list".as_slice()
        || word == b"find".as_slice()
        || word == b"positions".as_slice()
        || word == b"source".as_slice()
        || word == b"images".as_slice()
        || word == b"follow".as_slice()
        || word == b"quit".as_slice()
}
