//! The rule of a board, what its seats know, and what its steps tell them.

use atomic_table::{Join, Play, Split, TableRule};
use std::collections::LinkedList;

/// What makes the seats: the slot whose writer is the next one, and where the slots start. No value of it is made.
pub struct Maker {
    pub next: u64,
    pub starts: LinkedList<i64>,
}

/// What a writer knows: its slot, and all positions of it. No value of it is made.
pub struct Raiser {
    pub slot: u64,
    pub positions: LinkedList<i64>,
}

/// What a seat knows; a reader, the position that it saw last in each slot. No value of it is made.
pub struct View {
    pub maker: Option<Maker>,
    pub raiser: Option<Raiser>,
    pub reader: Option<LinkedList<i64>>,
}

/// A word for each slot, its last position.
pub struct BoardRule;

impl TableRule<(), View, Vec<u64>> for BoardRule {
    ghost use Rattle.std.specs.Prelude.{map, pos};
    ghost use Rattle.position_board.specs.Rule.{IsBoard, making};

    ghost holds = { λ _ s. IsBoard s.words s.views };

    ghost first = { λ words. making 0 (map pos words.items) };
}

/// One store in the slot's word.
pub struct Raises;

impl Play<(), View> for Raises {
    ghost use Rattle.std.specs.Prelude.{◌≡◌, pos};
    ghost use Rattle.position_board.specs.Rule.{raised_to};

    ghost then = { λ step v _ w. w ≡ (raised_to (pos step.first) v.0, v.1) };
}

/// One load of the slot's word.
pub struct Looks;

impl Play<(), View> for Looks {
    ghost use Rattle.std.specs.Prelude.{◌≡◌};
    ghost use Rattle.position_board.specs.Rule.{Looked};

    ghost then = { λ step v word w. Looked step.word word v.0 w.0 × (w.1 ≡ v.1) };
}

/// One load of the slot's word, by a seat that has the slot's writer and a reader.
pub struct Meets;

impl Play<(), View> for Meets {
    ghost use Rattle.std.specs.Prelude.{◌≡◌};
    ghost use Rattle.position_board.specs.Rule.{Met};

    ghost then = { λ step v word w. Met step.word word v.0 w.0 × (w.1 ≡ v.1) };
}

/// The reader's part goes out of a seat.
pub struct ReaderOut;

impl Split<View> for ReaderOut {
    ghost use Rattle.position_board.specs.Rule.{without_reader, reader_part};

    ghost left = { without_reader };

    ghost right = { reader_part };
}

/// A reader's part comes to a writer's seat.
pub struct ReaderIn;

impl Join<View> for ReaderIn {
    ghost use Rattle.position_board.specs.Rule.{with_reader, no_part};

    ghost both = { with_reader };

    ghost spent = { no_part };
}

/// The next slot's writer.
pub struct MakesWriter;

impl Split<View> for MakesWriter {
    ghost use Rattle.position_board.specs.Rule.{writer_made, next_writer};

    ghost left = { writer_made };

    ghost right = { next_writer };
}

/// A new reader.
pub struct MakesReader;

impl Split<View> for MakesReader {
    ghost use Rattle.position_board.specs.Rule.{new_reader};

    ghost left = { λ v. v };

    ghost right = { new_reader };
}
