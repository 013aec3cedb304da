//! What a case has made: an image, a receiver and a sender. README.md, "The lines".

use crate::feedback::Receiver;
use crate::frames;
use crate::images::Images;
use crate::senders::Sending;
use crate::words::put_refusal;
use case_files::Player;
use frame_core::Refusal;
use std::alloc::{AllocError, Global};

/// The images of a case, the receiver of the bounded one, and the sender.
#[derive(Drop)]
pub(crate) struct World {
    images: Images,
    receiver: Receiver,
    sending: Sending,
}

impl World {
    /// Nothing is made yet.
    pub fn new() -> World {
        World {
            images: Images::new(),
            receiver: Receiver::new(),
            sending: Sending::new(),
        }
    }

    /// Adds what a line of a word is answered. BadLine if no line has this word.
    fn reply(
        &mut self,
        alloc: Global,
        out: &mut String,
        word: &str,
        rest: &str,
    ) -> Result<(), Refusal> {
        if frames::reply(alloc, out, word, rest)? {
            return Ok(());
        }
        if self.images.reply(alloc, out, word, rest)? {
            return Ok(());
        }
        let image = self.images.bounded();
        if self.receiver.reply(alloc, out, word, rest, image)? {
            return Ok(());
        }
        if self.sending.reply(alloc, out, word, rest)? {
            return Ok(());
        }
        Err(Refusal::BadLine)
    }

    /// What a line of a word is answered, or the line of its refusal.
    fn told(&mut self, alloc: Global, word: &str, rest: &str) -> Result<String, AllocError> {
        let mut out = String::new(alloc);
        if let Err(refusal) = self.reply(alloc, &mut out, word, rest) {
            out.clear();
            put_refusal(&mut out, &refusal)?;
        }
        Ok(out)
    }

    /// What a word is answered to each shorter beginning of some bytes: how many there are, and the answer that all of them get; or
    /// how long the first one is that gets another answer, and that.
    fn told_of_beginnings(
        &mut self,
        alloc: Global,
        word: &str,
        digits: &str,
    ) -> Result<String, AllocError> {
        let first = self.told(alloc, word, "")?;
        let count = digits.len() / 2;
        for length in 1..count {
            let part = digits.get(..length.wrapping_mul(2)).unwrap_or("");
            let other = self.told(alloc, word, part)?;
            if other.as_str() != first.as_str() {
                return format!(in alloc; "{length} bytes: {other}");
            }
        }
        format!(in alloc; "{count} beginnings: {first}")
    }
}

impl Player for World {
    fn begin(&mut self, _alloc: Global) -> Result<(), AllocError> {
        *self = World::new();
        Ok(())
    }

    fn answer(&mut self, alloc: Global, line: &str) -> Result<Vec<u8>, AllocError> {
        let (word, rest) = line.split_once(' ').unwrap_or((line, ""));
        let told = if word == "beginnings" {
            let (word, digits) = rest.split_once(' ').unwrap_or((rest, ""));
            self.told_of_beginnings(alloc, word, digits)?
        } else {
            self.told(alloc, word, rest)?
        };
        Ok(told.into_bytes())
    }
}
