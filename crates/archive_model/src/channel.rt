//! The text that names where a stream comes from.

ghost use Rattle.std.specs.Prelude.{◌≡◌, IfOk, string_bytes};

use std::alloc::{AllocError, Global};
use std::marker::Model;

/// A channel. To a contract it is the bytes of its text.
#[derive(Debug, Drop)]
pub struct Channel {
    text: String,
}

impl Model for Channel {
    ghost use Rattle.std.specs.Prelude.{ℕ, List, string_bytes};

    ghost Value = { List ℕ };

    ghost view = { λ c. string_bytes c.text };
}

impl Channel {
    /// The channel with this text. Takes no memory.
    pub fn new(text: String) -> Channel
        ensures { result ≡ string_bytes text }
    {
        Channel { text }
    }

    /// Its text.
    pub fn as_str(&self) -> &str
        ensures { result.now ≡ self.now }
    {
        self.text.as_str()
    }

    /// A copy. Costs its length.
    pub fn copy(&self, alloc: Global) -> Result<Channel, AllocError>
        ensures { IfOk result (λ c. c ≡ self.now) }
    {
        Ok(Channel {
            text: String::from_str(alloc, self.text.as_str())?,
        })
    }
}
