//! Laws of the definitions, each the contract of a function that does nothing.

ghost use Rattle.std.specs.Prelude.{◌≡◌, ◌<ℤ◌, ℕ, ℤ, Contains, List, map};
ghost use Rattle.atomic_table.specs.Seated.{TableId};
ghost use Rattle.engine_core.specs.Engine.{Content, EngineState, archive_of};
ghost use Rattle.call_history.specs.Passes.{HasEach, calls_by, new_passes};
ghost use Rattle.call_history.specs.Values.{PassView};
ghost use Rattle.position_board.specs.Positions.{Published, position_at};
ghost use Rattle.archive_lock.specs.declared.history.Made.{Made};
ghost use Rattle.archive_lock.specs.Durable.{GroupsStay, SettlingsStay};
ghost use Rattle.archive_lock.specs.History.{Member};
ghost use Rattle.recorder_seats.specs.Bench.{RaisedAreAmong};
ghost use Rattle.recorder_seats.specs.HandedOut.{IsDurableTo, IsGroupDurableTo};
ghost use Rattle.recorder_seats.specs.Seat.{RaisedAreSettled};

/// A position that was seen in a recorder's slot, past the slot's start, is durable in the recorder's archive. So the frames
/// that a `BoundedReplayer` hands out, of this archive or another, begin before a durable position of the followed one.
///
/// What it takes is what `SharedArchive::close` (`settled`, `all`), `RecorderSeat::into_parts` and `Board::meet` (`was`) give.
/// docs/ARCHITECTURE.md, "The board".
#[tactic(auto, using(crate::proofs::HandedOutLemmas::seen_is_durable))]
pub fn what_is_handed_out_is_durable()
    ensures { (opening now : EngineState) (c : Content) (members : List Member)
        (pass : PassView Made) (writer : Published) (seen : ℤ) →
        SettlingsStay (archive_of opening c) members now →
        pass.own ≡ calls_by pass.number members →
        RaisedAreSettled pass writer → Contains writer.positions seen →
        position_at 0 writer.positions <ℤ seen →
        IsDurableTo (archive_of opening c) members now seen }
{}

/// So is a position that was seen in the slot of a bench's writer, which a settling of one session or of several answered.
///
/// What it takes is what `SharedArchive::close` (`settled`, `together`, `all`), `RecorderBench::into_parts` and `Board::meet`
/// (`was`) give. docs/ARCHITECTURE.md, "The board".
#[tactic(auto, using(crate::proofs::HandedOutLemmas::seen_of_bench))]
pub fn what_a_bench_raised_is_durable()
    ensures { (opening now : EngineState) (c : Content) (members : List Member)
        (pass : PassView Made) (writer : Published) (seen : ℤ) →
        SettlingsStay (archive_of opening c) members now →
        GroupsStay (archive_of opening c) members now →
        pass.own ≡ calls_by pass.number members →
        RaisedAreAmong pass writer → Contains writer.positions seen →
        position_at 0 writer.positions <ℤ seen →
        IsGroupDurableTo (archive_of opening c) members now seen }
{}

/// Passes that keep their numbers are all that were made, if they were before, and those that an archive was made with are all. So
/// `SharedArchive::close` is answered Ok once the passes of a run's agents are back (agents_core `run_agents`: `numbers`).
pub fn passes_keep_their_numbers()
    ensures kept { (count : ℕ) (olds news : List (PassView Made)) →
        map (λ (p : PassView Made). p.number) news ≡ map (λ (p : PassView Made). p.number) olds →
        HasEach count olds → HasEach count news }
    ensures made { (table : TableId) (count : ℕ) (passes : List (PassView Made)) →
        passes ≡ new_passes table count → HasEach count passes }
{}
