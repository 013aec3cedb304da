//! What a receiver hands to its recorder. docs/ARCHITECTURE.md, "Agents".

ghost use Rattle.std.specs.Prelude.{◌≡◌};

use frame_core::Block;

/// What a receiver hands to its recorder.
#[derive(Drop)]
pub enum Item {
    /// A block.
    Block(Block),
    /// No more comes.
    End,
}

impl Item {
    ghost use Rattle.agents_core.specs.Receivers.{is_end_item};

    /// Whether no more comes.
    pub fn is_end(&self) -> bool
        ensures { result ≡ is_end_item self.now }
    {
        matches!(self, Item::End)
    }
}
