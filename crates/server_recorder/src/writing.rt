//! The blocks of a batch, which are written under one taking of the lock as far as none has to wait for a settling.
//! docs/ARCHITECTURE.md, "Serving".

ghost use Rattle.std.specs.Prelude.{◌≡◌};
ghost use Rattle.server_recorder.specs.Recording.{first_term};

use crate::recording::{Recording, refuse, settle};
use crate::seats::Seats;
use crate::settling::Settling;
use archive_lock::Naming;
use archive_model::Reply;
use control_core::Event;
use disk_core::Disk;
use frame_core::{Block, Refusal};
use server_state::{FedBlock, FedSession, MAX_QUEUED, Reporter};
use std::alloc::Global;
use std::collections::VecDeque;
use std::rt::Clock;
use std::sync::Wait;
use stream_pairs::Place;

/// What is known of a block that is to be written.
#[derive(Clone, Copy)]
struct Planned {
    /// The session that it is written for.
    session: FedSession,
    /// The place of its image.
    image: Place,
    /// The term of its frames.
    term_id: i32,
    /// How many bytes of the stream it covers.
    bytes: u64,
    /// How many frames it has.
    frames: u64,
}

/// Blocks that are to be written one after another, each as the event of its writing, and what is known of each.
#[derive(Drop)]
pub(crate) struct Run {
    events: Vec<Event>,
    planned: Vec<Planned>,
}

impl Run {
    /// No block, with room for those of a batch if there is memory for it.
    pub(crate) fn new(alloc: Global) -> Run {
        let events = Vec::with_capacity(alloc, MAX_QUEUED);
        let planned = Vec::with_capacity(alloc, MAX_QUEUED);
        match (events, planned) {
            (Ok(events), Ok(planned)) => Run { events, planned },
            _ => Run {
                events: Vec::new(alloc),
                planned: Vec::new(alloc),
            },
        }
    }

    /// One block more. `NoMemory` where there is no room for it.
    fn add(&mut self, planned: Planned, block: Block) -> Result<(), Refusal> {
        let session = planned.session.session;
        self.planned.push(planned)?;
        if self.events.push(Event::Write { session, block }).is_err() {
            let _ = self.planned.pop();
            return Err(Refusal::NoMemory);
        }
        Ok(())
    }

    /// How many bytes the blocks of a session cover, at most 2^64 - 1.
    fn bytes_of(&self, session: &FedSession) -> u64 {
        let mut bytes: u64 = 0;
        for planned in self.planned.iter() {
            if planned.session.session == session.session {
                bytes = bytes.saturating_add(planned.bytes);
            }
        }
        bytes
    }

    fn clear(&mut self) {
        self.events.clear();
        self.planned.clear();
    }
}

/// Writes the blocks of a batch, each for the session that its image feeds then. A block of an image that feeds none, or that is
/// not at its place any more, is dropped. A session that wrote enough settles before its next block.
pub(crate) fn write_batch<D: Disk, A: Naming, R: Wait + Clock, T: Reporter>(
    with: &Recording<'_, D, A, R, T>,
    seats: &mut Seats<A>,
    settling: &mut Settling,
    batch: &mut VecDeque<FedBlock>,
    run: &mut Run,
) {
    for _ in 0..u64::MAX {
        fill(with, seats, settling, batch, run);
        if run.events.is_empty() {
            return;
        }
        write_run(with, seats, settling, run);
        settle_full(with, seats, settling, run);
        run.clear();
    }
}

/// Takes blocks of a batch, up to one with which its session has written enough.
fn fill<D: Disk, A: Naming, R: Wait + Clock, T: Reporter>(
    with: &Recording<'_, D, A, R, T>,
    seats: &mut Seats<A>,
    settling: &Settling,
    batch: &mut VecDeque<FedBlock>,
    run: &mut Run,
) {
    for _ in 0..u64::MAX {
        let Some(FedBlock { image, block }) = batch.pop_front() else {
            return;
        };
        if let Some(session) = with.shared.session_of(with.rt, &image) {
            let planned = planned_of(&session, image.place, &block);
            if let Err(cause) = run.add(planned, block) {
                refuse(with, seats, &session, cause);
            }
            if settling.is_full_with(session.seat, session.session, run.bytes_of(&session)) {
                return;
            }
        }
    }
}

/// What is known of a block of an image, which is to be written for a session.
fn planned_of(session: &FedSession, image: Place, block: &Block) -> Planned {
    let mut bytes: u64 = 0;
    let mut frames: u64 = 0;
    for frame in block.frames.as_slice() {
        bytes = bytes.saturating_add(frame.aligned_length());
        frames = frames.saturating_add(1);
    }
    Planned {
        session: *session,
        image,
        term_id: term_of(block),
        bytes,
        frames,
    }
}

/// Writes the blocks of a run. Where a session has to settle first, it does, and writes its block again. A refusal takes the image
/// away, and the blocks behind it go on.
fn write_run<D: Disk, A: Naming, R: Wait + Clock, T: Reporter>(
    with: &Recording<'_, D, A, R, T>,
    seats: &mut Seats<A>,
    settling: &mut Settling,
    run: &Run,
) {
    let mut first: usize = 0;
    let mut has_settled = false;
    for _ in 0..u64::MAX {
        if first >= run.events.len() || first >= run.planned.len() {
            return;
        }
        let outcomes = seats.calls(with.rt, with.alloc, with.archive, &run.events[first..]);
        let (count, refused) = noted(with, settling, &run.planned[first..], outcomes);
        first = first.saturating_add(count);
        has_settled = has_settled && count == 0;
        let (Some(cause), Some(planned)) = (refused, run.planned.get(first)) else {
            return;
        };
        if cause == Refusal::NeedSettle && !has_settled {
            has_settled = settle(with, seats, settling, planned.session.seat);
        } else {
            refuse(with, seats, &planned.session, cause);
            has_settled = false;
        }
        if !has_settled {
            first = first.saturating_add(1);
        }
    }
}

/// Notes blocks that were written: how many were, and why the next one was not, if there is one.
fn noted<D: Disk, A: Naming, R: Wait + Clock, T: Reporter>(
    with: &Recording<'_, D, A, R, T>,
    settling: &mut Settling,
    planned: &[Planned],
    outcomes: Result<Vec<Result<Reply, Refusal>>, Refusal>,
) -> (usize, Option<Refusal>) {
    let outcomes = match outcomes {
        Ok(outcomes) => outcomes,
        Err(cause) => return (0, Some(cause)),
    };
    let mut count: usize = 0;
    for (planned, outcome) in planned.iter().zip(outcomes.iter()) {
        if let Err(cause) = outcome {
            return (count, Some(*cause));
        }
        note_written(with, settling, planned);
        count = count.saturating_add(1);
    }
    (count, None)
}

/// A block was written.
fn note_written<D: Disk, A: Naming, R: Wait + Clock, T: Reporter>(
    with: &Recording<'_, D, A, R, T>,
    settling: &mut Settling,
    planned: &Planned,
) {
    let FedSession { seat, session } = planned.session;
    settling.add(seat, session, planned.image, planned.term_id, planned.bytes);
    with.shared.meter.frames.add(planned.frames);
}

/// Settles the sessions of a run that wrote enough.
fn settle_full<D: Disk, A: Naming, R: Wait + Clock, T: Reporter>(
    with: &Recording<'_, D, A, R, T>,
    seats: &mut Seats<A>,
    settling: &mut Settling,
    run: &Run,
) {
    for planned in run.planned.iter() {
        if settling.is_full(planned.session.seat) {
            let _ = settle(with, seats, settling, planned.session.seat);
        }
    }
}

/// The term of a block's frames.
fn term_of(block: &Block) -> i32
    ensures { result ≡ first_term block.now.frames }
{
    match block.frames.as_slice().first() {
        Some(frame) => frame.term_id,
        None => 0,
    }
}
