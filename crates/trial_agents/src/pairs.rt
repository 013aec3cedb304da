//! Receivers with their recorders, whose runs nothing ends from outside.

ghost use Rattle.std.specs.Prelude.{◌≡◌, IfSome};
ghost use Rattle.agents_core.specs.Runs.{AreSeated};

use agents_core::{
    Agents, BlockSource, FrameSink, Gate, Receiver, Recorder, RecorderSeat, run_agents,
};
use archive_lock::{Naming, SharedArchive};
use archive_model::PolledFrame;
use disk_core::Disk;
use frame_core::Refusal;
use position_board::Board;
use std::alloc::{AllocError, Global};
use std::sync::Wait;
use std::thread::Threads;

/// A gate that is always open.
struct Open;

impl Gate for Open {
    fn turn(&self, agent: u32) -> bool {
        let _ = agent;
        true
    }
}

/// The sink of no replayer.
#[derive(Drop)]
struct NoSink;

impl FrameSink for NoSink {
    ghost use Rattle.std.specs.Prelude.{⊤};

    ghost takes = { λ old frames more new. ⊤ };

    fn take(&mut self, frames: &[PolledFrame]) -> bool {
        let _ = frames;
        false
    }
}

/// Runs pairs until each has ended: the first refusal of a recorder, if there is one.
pub(crate) fn run<
    S: BlockSource + Drop + Send,
    D: Disk + Drop + Send,
    A: Naming + Send + Sync,
    R: Threads + Wait + Sync,
>(
    rt: &R,
    alloc: Global,
    archive: &SharedArchive<D, A>,
    board: &Board,
    receivers: Vec<Receiver<S>>,
    recorders: Vec<Recorder>,
) -> Result<(), Refusal>
    requires { AreSeated A.table board.now recorders.items }
{
    let agents = Agents::<S, NoSink> {
        receivers,
        recorders,
        replayers: Vec::new(alloc),
    };
    let (agents, outcome) = run_agents(rt, alloc, archive, board, agents, &Open);
    outcome.and(accepted(agents.recorders.as_slice()))
}

/// The first refusal of a recorder, if there is one.
fn accepted(recorders: &[Recorder]) -> Result<(), Refusal> {
    for recorder in recorders {
        if let Some(refusal) = recorder.refused {
            return Err(refusal);
        }
    }
    Ok(())
}

/// Runs a receiver and a recorder until both have ended: what refused the recorder, if anything did.
pub(crate) fn run_one<
    S: BlockSource + Drop + Send,
    D: Disk + Drop + Send,
    A: Naming + Send + Sync,
    R: Threads + Wait + Sync,
>(
    rt: &R,
    alloc: Global,
    archive: &SharedArchive<D, A>,
    board: &Board,
    source: S,
    seat: RecorderSeat,
) -> Result<(), Refusal>
    requires pass { seat.pass.table ≡ A.table }
    requires writer { seat.writer.table ≡ board.now }
{
    let (Ok(receivers), Some(recorders)) = (
        receivers(alloc, source),
        recorders::<A>(alloc, board, seat),
    ) else {
        return Err(Refusal::NoMemory);
    };
    run(rt, alloc, archive, board, receivers, recorders)
}

fn receivers<S: BlockSource + Drop>(
    alloc: Global,
    source: S,
) -> Result<Vec<Receiver<S>>, AllocError> {
    let mut receivers = Vec::new(alloc);
    receivers.push(Receiver { source })?;
    Ok(receivers)
}

fn recorders<A: Naming>(alloc: Global, board: &Board, seat: RecorderSeat) -> Option<Vec<Recorder>>
    requires { (seat.pass.table ≡ A.table) × (seat.writer.table ≡ board.now) }
    ensures { IfSome result (λ recorders. AreSeated A.table board.now recorders.items) }
{
    let _ = board;
    let recorder = Recorder {
        seat,
        refused: None,
    };
    vec![in alloc; recorder].ok()
}
