//! The words of a control line, one after another. docs/CONTROL.md, "Words".

ghost use Rattle.std.specs.Prelude.{◌≡◌, Some, false, is_none, option_copied, true};
ghost use Rattle.control_lines.specs.Table.{int, long, hex, plain};
ghost use Rattle.control_lines.specs.Lines.{Reads, text_at, value_at, word_at};

use crate::number::{bytes, int, long, plain};
use archive_model::{Channel, SourceIdentity};
use frame_core::{Items, Refusal};
use std::alloc::Global;
use std::marker::Model;

/// What is left of a line, which is read word by word. To a contract it is that text, if there is any.
#[derive(Drop)]
pub(crate) struct Words<'a> {
    rest: Option<&'a str>,
}

impl<'a> Model for Words<'a> {
    ghost use Rattle.std.specs.Prelude.{ℕ, List, Option, option_copied};

    ghost Value = { Option (List ℕ) };

    ghost view = { λ words. option_copied words.rest };
}

impl<'a> Words<'a> {
    pub(crate) fn new(text: &'a str) -> Words<'a>
        ensures { result ≡ Some text.now }
    {
        Words { rest: Some(text) }
    }

    /// The next word, or `BadLine` where nothing is left.
    pub(crate) fn word(&mut self) -> Result<&'a str, Refusal>
        ensures { Reads false (λ word. (word.now, self.new)) result (word_at self.old) }
    {
        let text = self.rest.ok_or(Refusal::BadLine)?;
        match text.split_once(' ') {
            Some((word, rest)) => {
                self.rest = Some(rest);
                Ok(word)
            }
            None => {
                self.rest = None;
                Ok(text)
            }
        }
    }

    /// The next word as a number of 32 bits, or `BadLine`.
    pub(crate) fn int(&mut self) -> Result<i32, Refusal>
        ensures { Reads false (λ z. (z, self.new)) result (value_at int self.old) }
    {
        int(self.word()?)
    }

    /// The next word as a number, or `BadLine`.
    pub(crate) fn long(&mut self) -> Result<i64, Refusal>
        ensures { Reads false (λ z. (z, self.new)) result (value_at long self.old) }
    {
        long(self.word()?)
    }

    /// The next word as the bytes whose hex digits it is: `BadLine` where it is none, or `NoMemory`.
    pub(crate) fn bytes(&mut self, alloc: Global) -> Result<Items<u8>, Refusal>
        ensures { Reads true (λ bytes. (bytes, self.new)) result (value_at hex self.old) }
    {
        bytes(alloc, self.word()?)
    }

    /// The next word as a source: `BadLine` where it is empty, or `NoMemory`.
    pub(crate) fn plain(&mut self, alloc: Global) -> Result<SourceIdentity, Refusal>
        ensures { Reads true (λ source. (source, self.new)) result (value_at plain self.old) }
    {
        plain(alloc, self.word()?)
    }

    /// All that is left as a text: `BadLine` where it has no byte, or `NoMemory`.
    pub(crate) fn text(&mut self, alloc: Global) -> Result<Channel, Refusal>
        ensures { Reads true (λ text. (text, self.new)) result (text_at self.old) }
    {
        match self.rest.take() {
            None | Some("") => Err(Refusal::BadLine),
            Some(text) => Ok(Channel::new(String::from_str(alloc, text)?)),
        }
    }

    /// Whether nothing is left.
    pub(crate) fn is_empty(&self) -> bool
        ensures { result ≡ is_none self.now }
    {
        self.rest.is_none()
    }
}
