//! Standard error, and the line on it that shows how far a command has come. docs/CONTROL.md, "Standard error".

use control_lines::print_refusal;
use frame_core::Refusal;
use std::cell::Cell;
use std::fmt::Display;
use std::io::Eprint;

/// What a command does for the time.
#[derive(Clone, Copy, Debug, PartialEq, Eq)]
pub enum Stage {
    /// It opens an archive.
    Opening,
    /// It works on one that is open, or on none.
    Working,
}

/// Standard error. Where it is a terminal, its last line may show how far a command has come; the line goes before another
/// text is reported.
#[derive(Drop)]
pub struct Screen<'a, R> {
    rt: &'a R,
    is_shown: Cell<bool>,
    stage: Cell<Stage>,
}

impl<'a, R: Eprint> Screen<'a, R> {
    /// Standard error, without such a line, as an archive is about to be opened.
    pub fn new(rt: &'a R) -> Screen<'a, R> {
        Screen {
            rt,
            is_shown: Cell::new(false),
            stage: Cell::new(Stage::Opening),
        }
    }

    /// What the command does for the time.
    pub fn stage(&self) -> Stage {
        self.stage.get()
    }

    /// The archive is open, or is not: the line of its opening goes.
    pub fn work(&self) {
        self.clear();
        self.stage.set(Stage::Working);
    }

    /// Shows how far the command has come, in place of what was shown.
    pub fn show<T: Display + Drop>(&self, text: T) {
        self.is_shown.set(true);
        let _ = eprint!(self.rt; "\r{text}\x1b[K");
    }

    /// Clears that line, if there is one.
    pub fn clear(&self) {
        if self.is_shown.get() {
            self.is_shown.set(false);
            let _ = eprint!(self.rt; "\r\x1b[K");
        }
    }

    /// Reports a text, with a line end after it.
    pub fn report<T: Display + Drop>(&self, text: T) {
        self.clear();
        let _ = eprintln!(self.rt; "{text}");
    }
    /// Reports a refusal's line.
    pub fn report_refusal(&self, refusal: &Refusal) {
        self.clear();
        let line = print_refusal(refusal);
        if let Ok(text) = std::str::from_utf8(line.as_bytes()) {
            let _ = eprint!(self.rt; "{text}");
        }
    }
}
