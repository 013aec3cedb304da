//! What is kept of replies while they come: which lines have none yet, and the front of the line that comes.

ghost use Rattle.std.specs.Prelude.{◌≡◌, ◌<◌, ℕ, IsTrue, length, List, Option, [], ◌∷◌, OnOk, option_map};
ghost use Rattle.control_client.specs.Lines.{texts};
ghost use Rattle.control_client.specs.Replies.{answer_of, is_answered, is_awaited, unanswered};
ghost use Rattle.control_client.specs.Tally.{EndsLine, Follows, Grows, IsTally, telling_length};

use crate::answer::Answer;
use crate::replies::{ends_reply, is_refusal};
use std::alloc::{AllocError, Global};

/// One byte less than shows what a line is: the length of `recording `, without its last one.
const TELLING: usize = 9;

/// What is kept of replies.
#[derive(Drop)]
pub(crate) struct Tally<'a> {
    /// The line that is awaited.
    pub until: Option<&'a str>,
    /// The lines that are not answered yet.
    pub left: &'a [&'a str],
    /// Whether a line was a refusal.
    pub is_refused: bool,
    /// Whether the last line was the awaited one, if one is.
    pub is_awaited: bool,
    /// The front of the line that comes.
    pub front: Vec<u8>,
}

impl<'a> Tally<'a> {
    /// Nothing came yet. Takes no memory.
    pub fn new(alloc: Global, lines: &'a [&'a str], until: Option<&'a str>) -> Tally<'a>
        ensures { IsTally (texts lines.entry.now) (option_map (λ text. text.now) until.entry) [] result }
    {
        Tally {
            until,
            left: lines,
            is_refused: false,
            is_awaited: until.is_none(),
            front: Vec::new(alloc),
        }
    }

    /// Further bytes came. Costs a step for each.
    pub fn take(&mut self, bytes: &[u8]) -> Result<(), AllocError>
        ensures { OnOk result (Follows self.old bytes.now self.new) }
    {
        for byte in bytes {
            self.add(*byte)?;
        }
        Ok(())
    }

    /// One byte more came.
    fn add(&mut self, byte: u8) -> Result<(), AllocError>
        ensures { OnOk result (Follows self.old (byte ∷ []) self.new) }
    {
        if byte == b'\n' {
            self.end_line();
            return Ok(());
        }
        self.grow(byte)
    }

    /// One byte more of a line came.
    fn grow(&mut self, byte: u8) -> Result<(), AllocError>
        ensures { OnOk result (Grows self.old byte self.new) }
    {
        if self.front.len() <= telling_length(self.until) {
            self.front.push(byte)?;
        }
        Ok(())
    }

    /// The end of a line came.
    fn end_line(&mut self)
        ensures { EndsLine self.old self.new }
    {
        let front = self.front.as_slice();
        self.left = left_after(self.left, front);
        self.is_refused |= is_refusal(front);
        self.is_awaited = is_awaited(self.until, front);
        self.front.clear();
    }

    /// What the bytes that came answer.
    pub fn answer(&self) -> Answer
        ensures { (asked : List (List ℕ)) (until : Option (List ℕ)) (came : List ℕ) →
            IsTally asked until came self.now → result ≡ answer_of asked until came }
    {
        Answer {
            left: self.left.len(),
            is_refused: self.is_refused,
            is_awaited: self.is_awaited,
        }
    }
}

/// The lines that are left after one more line came.
fn left_after<'a>(left: &'a [&'a str], line: &[u8]) -> &'a [&'a str]
    ensures { texts result.now ≡ unanswered (texts left.entry.now) (line.now ∷ []) }
{
    if is_answered(left, line) {
        &left[1..]
    } else {
        left
    }
}

/// Whether a line is the last one of the reply to the first line that is left.
fn is_answered(left: &[&str], line: &[u8]) -> bool
    ensures answered { result ≡ is_answered (texts left.now) line.now }
    ensures some { IsTrue result → 0 < length left.now }
{
    match left.first() {
        Some(asked) => ends_reply(asked, line),
        None => false,
    }
}

/// Whether a line is the one that is awaited, if one is.
fn is_awaited(until: Option<&str>, line: &[u8]) -> bool
    ensures { result ≡ is_awaited (option_map (λ text. text.now) until.entry) (line.now ∷ []) }
{
    match until {
        None => true,
        Some(until) => line == until.as_bytes(),
    }
}

/// How many bytes of a line are kept at least before one more is dropped.
fn telling_length(until: Option<&str>) -> usize
    ensures { result ≡ telling_length (option_map (λ text. text.now) until.entry) }
{
    match until {
        None => TELLING,
        Some(until) => TELLING.max(until.len()),
    }
}
