//! A recorder: writes and settles the blocks that it is handed. docs/ARCHITECTURE.md, "Agents".

ghost use Rattle.std.specs.Prelude.{◌≡◌, ◌↔◌, ◌∷◌, [], IsTrue, None, Option};
ghost use Rattle.frame_core.specs.declared.refusal.Refusal.{Refusal};
ghost use Rattle.agents_core.specs.Recorders.{RecorderEnded, RecorderRan};

use crate::gate::{Gate, Signals};
use crate::handoff::{Handoff, Taker};
use crate::item::Item;
use archive_lock::{Naming, SharedArchive};
use disk_core::Disk;
use frame_core::{Block, Refusal};
use position_board::Board;
use recorder_seats::RecorderSeat;
use std::alloc::Global;
use std::sync::Wait;
use std::sync::atomic::{AtomicBool, Ordering};
use std::thread;

/// An agent that records blocks, and raises the slot of its seat to the recorded position.
#[derive(Drop)]
pub struct Recorder {
    /// By which it calls, and raises.
    pub seat: RecorderSeat,
    /// What refused a call.
    pub refused: Option<Refusal>,
}

impl Recorder {
    /// One turn with a block: writes it and settles it. Whether it goes on: exactly if nothing was refused. It keeps a refusal.
    pub fn turn<D: Disk, A: Naming, R: Wait>(
        &mut self,
        rt: &R,
        alloc: Global,
        archive: &SharedArchive<D, A>,
        board: &Board,
        block: Block,
    ) -> bool
        requires pass { self.old.seat.pass.table ≡ A.table }
        requires writer { self.old.seat.writer.table ≡ board.now }
        ensures { (stop : Option Refusal) × RecorderRan (block ∷ []) self.old self.new stop
            × (IsTrue result ↔ (stop ≡ None)) }
    {
        if let Err(refusal) = self.seat.write(rt, alloc, archive, block) {
            self.refused = Some(refusal);
            return false;
        }
        match self.seat.settle(rt, alloc, archive, board) {
            Ok(_) => true,
            Err(refusal) => {
                self.refused = Some(refusal);
                false
            }
        }
    }
}

/// Records what is handed over until there is no more, the gate ends it or a call is refused; then sets the flag of its pair.
pub fn record<D: Disk, A: Naming, G: Gate, R: Wait>(
    rt: &R,
    alloc: Global,
    agent: u32,
    recorder: Recorder,
    archive: &SharedArchive<D, A>,
    board: &Board,
    handoff: &Handoff<Item>,
    taker: Taker<Item>,
    signals: &Signals<'_, G>,
    is_over: &AtomicBool,
) -> (Recorder, Taker<Item>)
    requires pass { recorder.seat.pass.table ≡ A.table }
    requires writer { recorder.seat.writer.table ≡ board.now }
    requires handoff { taker.handoff ≡ handoff.now }
    requires empty { taker.taken ≡ [] }
    ensures { RecorderEnded recorder handoff.now result.0 result.1 }
{
    let ended = take_all(
        rt, alloc, agent, recorder, archive, board, handoff, taker, signals, is_over,
    );
    is_over.store(true, Ordering::SeqCst);
    ended
}

fn take_all<D: Disk, A: Naming, G: Gate, R: Wait>(
    rt: &R,
    alloc: Global,
    agent: u32,
    mut recorder: Recorder,
    archive: &SharedArchive<D, A>,
    board: &Board,
    handoff: &Handoff<Item>,
    mut taker: Taker<Item>,
    signals: &Signals<'_, G>,
    is_over: &AtomicBool,
) -> (Recorder, Taker<Item>)
    requires pass { recorder.seat.pass.table ≡ A.table }
    requires writer { recorder.seat.writer.table ≡ board.now }
    requires handoff { taker.handoff ≡ handoff.now }
    requires empty { taker.taken ≡ [] }
    ensures { RecorderEnded recorder handoff.now result.0 result.1 }
{
    for _ in rt.forever() {
        if !signals.goes_on(agent) {
            return (recorder, taker);
        }
        let was_over = is_over.load(Ordering::SeqCst);
        match handoff.take(rt, &mut taker) {
            Some(Item::Block(block)) => {
                if !recorder.turn(rt, alloc, archive, board, block) {
                    return (recorder, taker);
                }
            }
            Some(Item::End) => return (recorder, taker),
            None => {
                if was_over {
                    return (recorder, taker);
                }
                thread::yield_now();
            }
        }
    }
    unreachable!()
}
