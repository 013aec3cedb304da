//! A writer, and what the system says where it failed.

ghost use Rattle.std.specs.Prelude.{◌≡◌, MatchResult, None, Some};

use std::io::{self, Write};

/// A writer that keeps the last error of another.
#[derive(Drop)]
pub struct Outlet<W> {
    to: W,
    fault: Option<io::Error>,
}

impl<W: Write> Outlet<W> {
    /// Writes to this writer, which has not failed yet.
    pub fn new(to: W) -> Outlet<W>
        ensures { result ≡ record { to = to; fault = None } }
    {
        Outlet { to, fault: None }
    }

    /// The last error of the writer, if it failed.
    pub fn fault(&self) -> Option<io::Error>
        ensures { result ≡ self.now.fault }
    {
        self.fault
    }

    /// Keeps the error of an answer, if it is one.
    fn note<T>(&mut self, answer: &io::Result<T>)
        ensures to { self.new.to ≡ self.old.to }
        ensures fault { MatchResult answer.now
            (λ _. self.new.fault ≡ self.old.fault)
            (λ error. self.new.fault ≡ Some error) }
    {
        if let Err(error) = answer {
            self.fault = Some(*error);
        }
    }
}

impl<W: Write> Write for Outlet<W> {
    ghost contents = { λ outlet. W.contents outlet.to };

    fn write(&mut self, buf: &[u8]) -> io::Result<usize> {
        let answer = self.to.write(buf);
        self.note(&answer);
        answer
    }

    fn flush(&mut self) -> io::Result<()> {
        let answer = self.to.flush();
        self.note(&answer);
        answer
    }
}
