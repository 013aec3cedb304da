//! Who sends a stream.

ghost use Rattle.std.specs.Prelude.{◌≡◌, [], IfOk, string_bytes};

use std::alloc::{AllocError, Global};
use std::marker::Model;

/// Who sends a recorded stream, as Aeron's `sourceIdentity`: a text that is kept and shown, and empty if nobody named one.
/// To a contract it is the bytes of its text. docs/CONTROL.md, "Recordings".
#[derive(Debug, Drop)]
pub struct SourceIdentity {
    text: String,
}

impl Model for SourceIdentity {
    ghost use Rattle.std.specs.Prelude.{ℕ, List, string_bytes};

    ghost Value = { List ℕ };

    ghost view = { λ s. string_bytes s.text };
}

impl SourceIdentity {
    /// The source with this text. Does not allocate.
    pub fn new(text: String) -> SourceIdentity
        ensures { result ≡ string_bytes text }
    {
        SourceIdentity { text }
    }

    /// The empty source. Does not allocate.
    pub fn none(alloc: Global) -> SourceIdentity
        ensures { result ≡ [] }
    {
        SourceIdentity {
            text: String::new(alloc),
        }
    }

    /// Its text.
    pub fn as_str(&self) -> &str
        ensures { result.now ≡ self.now }
    {
        self.text.as_str()
    }

    /// A copy. Costs its length.
    pub fn copy(&self, alloc: Global) -> Result<SourceIdentity, AllocError>
        ensures { IfOk result (λ s. s ≡ self.now) }
    {
        Ok(SourceIdentity {
            text: String::from_str(alloc, self.text.as_str())?,
        })
    }
}
