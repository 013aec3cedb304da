//! The board, its writers and its readers.

ghost use Rattle.std.specs.Prelude.{◌≡◌, ◌^◌, ◌<◌, ◌≤ℤ◌, pos, Contains};
ghost use Rattle.position_board.specs.Positions.{last_position, having_seen, seen_at, with_position, NeverFall};

use crate::rule::{BoardRule, Looks, Meets, Raises, ReaderIn, ReaderOut, View};
use atomic_table::{Seat, Table};
use std::alloc::Global;
use std::marker::Model;

pub(crate) type Words = Table<(), View, Vec<u64>, BoardRule, Global>;

/// A position for each slot, which one writer raises and any reader may look at, from any thread. To a contract it is the
/// table that it lies in, whose words are its slots.
#[derive(Drop)]
pub struct Board {
    pub(crate) table: Words,
}

impl Model for Board {
    ghost use Rattle.atomic_table.specs.Seated.{TableId};

    ghost Value = { TableId };

    ghost view = { λ b. b.table.shared.table_id };
}

/// The one that raises a slot's position. To a contract it is its board, its slot and all positions of the slot.
#[derive(Drop)]
pub struct Writer {
    pub(crate) slot: usize,
    pub(crate) last: u64,
    pub(crate) seat: Seat<(), View>,
}

impl Model for Writer {
    ghost use Rattle.position_board.specs.Positions.{Published};
    ghost use Rattle.position_board.specs.Rule.{IsWriterSeat, positions_of};

    ghost Value = { Published };

    ghost view = { λ w. record { table = w.seat.table_id; slot = w.slot; positions = positions_of w.seat.me.0 } };

    ghost invariant = { λ w. IsWriterSeat w.seat.table_id w.slot w.last w.seat.me };
}

/// One that looks at positions. To a contract it is its board, and the position that it saw last in each slot.
#[derive(Drop)]
pub struct Reader {
    pub(crate) seat: Seat<(), View>,
}

impl Model for Reader {
    ghost use Rattle.position_board.specs.Positions.{Seen};
    ghost use Rattle.position_board.specs.Rule.{IsReaderSeat, seen_of};

    ghost Value = { Seen };

    ghost view = { λ r. record { table = r.seat.table_id; seen = seen_of r.seat.me.0 } };

    ghost invariant = { λ r. IsReaderSeat r.seat.table_id r.seat.me };
}

impl Board {
    /// How many slots it has.
    pub fn slots(&self) -> usize
        ensures { result ≡ self.now.words }
    {
        self.table.word_count()
    }

    /// Raises the position of the writer's slot, in bytes of a stream, which is then the last of its positions. One store
    /// of one word: no lock, no waiting, no memory. docs/ARCHITECTURE.md, "The board".
    pub fn raise(&self, writer: &mut Writer, position: i64)
        requires board { writer.old.table ≡ self.now }
        requires above { last_position writer.old.positions ≤ℤ position }
        ensures { writer.new ≡ with_position position writer.old }
    {
        let last = writer.last();
        prove!(0 <= last && last <= position);
        self.store(writer, position as u64);
    }

    fn store(&self, writer: &mut Writer, word: u64)
        requires board { writer.old.table ≡ self.now }
        requires above { last_position writer.old.positions ≤ℤ pos word }
        requires small { word < 2 ^ 63 }
        ensures { writer.new ≡ with_position (pos word) writer.old }
    {
        self.table
            .shared
            .store::<Raises>(&mut writer.seat, writer.slot, word);
        writer.last = word;
    }

    /// The position of a slot, in bytes of a stream, which the reader has then seen. It never falls from one look to the
    /// next. That it is the slot's start or a position that its writer raised is told where the two meet. One load of one
    /// word: no lock, no waiting, no memory. docs/ARCHITECTURE.md, "The board".
    pub fn look(&self, reader: &mut Reader, slot: usize) -> i64
        requires board { reader.old.table ≡ self.now }
        requires slot { slot < self.now.words }
        ensures seen { reader.new ≡ having_seen slot result reader.old }
        ensures now { seen_at slot reader.new ≡ result }
        ensures rises { seen_at slot reader.old ≤ℤ result }
    {
        self.load(reader, slot) as i64
    }

    fn load(&self, reader: &mut Reader, slot: usize) -> u64
        requires board { reader.old.table ≡ self.now }
        requires slot { slot < self.now.words }
        ensures small { result < 2 ^ 63 }
        ensures seen { reader.new ≡ having_seen slot (pos result) reader.old }
        ensures now { seen_at slot reader.new ≡ pos result }
        ensures rises { seen_at slot reader.old ≤ℤ pos result }
    {
        self.table.shared.load::<Looks>(&mut reader.seat, slot)
    }

    /// Shows the reader the last position of the writer's slot, which it answers. What the reader had seen in that slot is
    /// one of the writer's positions: the slot's start, or one that it raised. Four loads: no lock, no waiting, no memory.
    /// docs/ARCHITECTURE.md, "The board".
    pub fn meet(&self, writer: &mut Writer, reader: &mut Reader) -> i64
        requires writer { writer.old.table ≡ self.now }
        requires reader { reader.old.table ≡ self.now }
        ensures writer { writer.new ≡ writer.old }
        ensures was { Contains writer.old.positions (seen_at writer.old.slot reader.old) }
        ensures last { result ≡ last_position writer.old.positions }
        ensures seen { reader.new ≡ having_seen writer.old.slot result reader.old }
        ensures now { seen_at writer.old.slot reader.new ≡ result }
        ensures rises { seen_at writer.old.slot reader.old ≤ℤ result }
    {
        self.show(writer, reader) as i64
    }

    fn show(&self, writer: &mut Writer, reader: &mut Reader) -> u64
        requires writer { writer.old.table ≡ self.now }
        requires reader { reader.old.table ≡ self.now }
        ensures small { result < 2 ^ 63 }
        ensures writer { writer.new ≡ writer.old }
        ensures was { Contains writer.old.positions (seen_at writer.old.slot reader.old) }
        ensures last { pos result ≡ last_position writer.old.positions }
        ensures seen { reader.new ≡ having_seen writer.old.slot (pos result) reader.old }
        ensures now { seen_at writer.old.slot reader.new ≡ pos result }
        ensures rises { seen_at writer.old.slot reader.old ≤ℤ pos result }
    {
        let slot = writer.slot;
        let shared = &self.table.shared;
        // A load by the reader's own seat would tell nothing of the writer's list.
        let part = shared.split_seat::<ReaderOut>(&mut reader.seat);
        shared.join_seat::<ReaderIn>(&mut writer.seat, part);
        let word = shared.load::<Meets>(&mut writer.seat, slot);
        reader.seat = shared.split_seat::<ReaderOut>(&mut writer.seat);
        word
    }
}

impl Writer {
    /// The last of the slot's positions, in bytes of a stream: the start, where none was raised. Costs nothing but a copy.
    pub fn last(&self) -> i64
        ensures last { result ≡ last_position self.now.positions }
        ensures low { pos 0 ≤ℤ result }
        ensures rising { NeverFall self.now.positions }
    {
        self.last as i64
    }
}
