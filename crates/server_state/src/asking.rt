//! What other threads ask of the recording thread: settlings of sessions, by their seats, and the leaving of images, by their
//! places. docs/ARCHITECTURE.md, "Serving".

ghost use Rattle.std.specs.Prelude.{◌≡◌, false, replicate, slice_set, true};
ghost use Rattle.server_state.specs.Asking.{all_taken, is_any_asked, is_pending};

use std::mem;
use stream_pairs::FED_SESSIONS;

/// Seats or places that something is asked for: those that the recording thread has not taken yet, and those that it took and is
/// not done with.
#[derive(Clone, Copy)]
pub(crate) struct Asks {
    asked: [bool; FED_SESSIONS],
    taken: [bool; FED_SESSIONS],
    /// Whether the recording thread has ended, and takes none any more.
    is_closed: bool,
}

impl Asks {
    /// Nothing is asked for.
    pub fn new() -> Asks
        ensures { result ≡ record {
          asked = replicate 64 false;
          taken = replicate 64 false;
          is_closed = false;
        } }
    {
        Asks {
            asked: [false; FED_SESSIONS],
            taken: [false; FED_SESSIONS],
            is_closed: false,
        }
    }

    /// Asks for a seat or a place. One from 64 on changes nothing.
    pub fn ask(&mut self, index: usize)
        ensures { self.new ≡ record self.old { asked = slice_set self.old.asked index true } }
    {
        if index < FED_SESSIONS {
            self.asked[index] = true;
        }
    }

    /// Whether one was asked for and not taken.
    pub fn is_asked(&self) -> bool
        ensures { result ≡ is_any_asked self.now.asked }
    {
        self.asked.iter().any(|asked| *asked)
    }

    /// Takes those that were asked for.
    pub fn take(&mut self) -> [bool; FED_SESSIONS]
        ensures asked { result ≡ self.old.asked }
        ensures taken { self.new ≡ all_taken self.old }
    {
        self.taken = mem::replace(&mut self.asked, [false; FED_SESSIONS]);
        self.taken
    }

    /// The recording thread is done with those that were taken.
    pub fn answer(&mut self)
        ensures { self.new ≡ record self.old { taken = replicate 64 false } }
    {
        self.taken = [false; FED_SESSIONS];
    }

    /// The recording thread has ended.
    pub fn close(&mut self)
        ensures { self.new ≡ record self.old { is_closed = true } }
    {
        self.is_closed = true;
    }

    /// Whether one was asked for and is not done, and may be still.
    pub fn is_pending(&self, index: usize) -> bool
        ensures { result ≡ is_pending index self.now }
    {
        index < FED_SESSIONS && !self.is_closed && (self.asked[index] || self.taken[index])
    }
}
