//! Where a receiver has its blocks from: docs/ARCHITECTURE.md, "Agents".

use frame_core::Block;

/// Where a receiver has its blocks from.
pub trait BlockSource {
    ghost use Rattle.std.specs.Prelude.{Option};
    ghost use Rattle.frame_core.specs.declared.block.Block.{Block};

    /// What a state may give next, a block or none, and which state follows.
    ghost gives: { Self → Option Block → Self → Type 0 };

    /// The next block, or none where there is no more. May wait for the world.
    fn next(&mut self) -> Option<Block>
        ensures { Self.gives self.old result self.new };
}
