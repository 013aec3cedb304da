//! An archive with two recorder sessions, its board, and what is to be done with them.

ghost use Rattle.std.specs.Prelude.{◌≡◌, ◌<◌, [], IfSome};
ghost use Rattle.call_history.specs.Passes.{new_passes};
ghost use Rattle.archive_lock.specs.Held.{engine_seen, view_of};

use crate::blocks::{extension, fields};
use crate::folder::follow_all;
use crate::speed::{MadeEnd, record_all};
use archive_lock::{Made, Naming, SharedArchive};
use archive_model::Reply;
use call_history::{Opened, Pass};
use control_core::{Event, Request};
use disk_core::Disk;
use engine_core::Engine;
use frame_core::Refusal;
use position_board::{Board, Reader};
use recorder_seats::RecorderSeat;
use std::alloc::Global;
use std::io::Print;
use std::marker::Brand;
use std::rt::Clock;
use std::sync::Wait;
use std::thread::Threads;

/// A recorder session, and the position that its recording is recorded to.
#[derive(Clone, Copy)]
pub(crate) struct Begun {
    /// The session's number.
    pub session: i64,
    /// The position, in bytes of the stream.
    pub position: i64,
}

/// What is to be done.
#[derive(Drop)]
pub(crate) enum Plan {
    /// Both sessions record so many blocks each, and a follower tells their positions.
    Follow(u32),
    /// The first session records what comes from datagrams, by a receiver and a recorder.
    Queue(MadeEnd),
    /// The same by one thread.
    Alone(MadeEnd),
}

/// A board of two slots with the seats that record, and a reader.
#[derive(Drop)]
struct Seats {
    board: Board,
    first: RecorderSeat,
    second: RecorderSeat,
    reader: Reader,
}

/// Begins a recording, or goes on where it stopped.
pub(crate) fn begin<D: Disk>(
    alloc: Global,
    engine: &mut Engine<D>,
    recording: i64,
    term_length: i32,
) -> Result<Begun, Refusal> {
    let positions = Event::Ask(Request::Positions { recording });
    match ask(alloc, engine, positions) {
        Ok(Reply::Positions { recorded, .. }) => extend(alloc, engine, recording, recorded),
        _ => start(alloc, engine, term_length),
    }
}

/// The answer to an event.
pub(crate) fn ask<D: Disk>(
    alloc: Global,
    engine: &mut Engine<D>,
    event: Event,
) -> Result<Reply, Refusal> {
    engine.step(alloc, &event)
}

fn extend<D: Disk>(
    alloc: Global,
    engine: &mut Engine<D>,
    recording: i64,
    position: i64,
) -> Result<Begun, Refusal> {
    let extend = Event::Ask(Request::Extend(extension(recording, position)));
    match ask(alloc, engine, extend) {
        Ok(Reply::Extended { session }) => Ok(Begun { session, position }),
        Ok(_) => Err(Refusal::BadLine),
        Err(refusal) => Err(refusal),
    }
}

fn start<D: Disk>(
    alloc: Global,
    engine: &mut Engine<D>,
    term_length: i32,
) -> Result<Begun, Refusal> {
    let fields = fields(alloc, term_length)?;
    match ask(alloc, engine, Event::Ask(Request::Start(fields))) {
        Ok(Reply::Started { session, .. }) => Ok(Begun {
            session,
            position: 0,
        }),
        Ok(_) => Err(Refusal::BadLine),
        Err(refusal) => Err(refusal),
    }
}

/// Does what is to be done with an archive of two sessions. Gives the microseconds that it took, once the agents are made.
pub(crate) fn crewed<D: Disk + Drop + Send, R: Threads + Wait + Clock + Print + Sync>(
    rt: &R,
    alloc: Global,
    engine: Engine<D>,
    begun: [Begun; 2],
    plan: Plan,
) -> Result<u128, Refusal> {
    let Ok(opened) = Opened::new(alloc, false) else {
        return Err(Refusal::NoMemory);
    };
    shared::<D, Brand, R>(rt, alloc, opened, engine, begun, plan)
}

fn shared<D: Disk + Drop + Send, A: Naming + Send + Sync, R: Threads + Wait + Clock + Print + Sync>(
    rt: &R,
    alloc: Global,
    opened: Opened<Made>,
    engine: Engine<D>,
    begun: [Begun; 2],
    plan: Plan,
) -> Result<u128, Refusal>
    requires named { opened.table ≡ A.table }
    requires counts { A.passes ≡ 2 }
    requires stores { opened.keeps ≡ A.keeps }
    requires opens { engine_seen D.life (view_of engine []) ≡ A.opening }
{
    let Ok((archive, passes)) = SharedArchive::<D, A>::new(alloc, opened, engine, 2) else {
        return Err(Refusal::NoMemory);
    };
    seated(rt, alloc, &archive, passes, begun, plan)
}

fn seated<D: Disk + Drop + Send, A: Naming + Send + Sync, R: Threads + Wait + Clock + Print + Sync>(
    rt: &R,
    alloc: Global,
    archive: &SharedArchive<D, A>,
    passes: Vec<Pass<Made>>,
    begun: [Begun; 2],
    plan: Plan,
) -> Result<u128, Refusal>
    requires { passes.items ≡ new_passes A.table 2 }
{
    let [one, other] = begun;
    let starts = [one.position, other.position];
    let Some(
        Seats {
            board,
            first,
            second,
            reader,
        },
    ) = seats_of::<A>(alloc, passes, one, other)
    else {
        return Err(Refusal::NoMemory);
    };
    match plan {
        Plan::Follow(blocks) => {
            follow_all(
                rt, alloc, archive, &board, first, second, reader, starts, blocks,
            )
        }
        Plan::Queue(end) => record_all(rt, alloc, archive, &board, first, end, true),
        Plan::Alone(end) => record_all(rt, alloc, archive, &board, first, end, false),
    }
}

/// The seats of two sessions, and a reader, at a board of their positions.
fn seats_of<A: Naming>(
    alloc: Global,
    mut passes: Vec<Pass<Made>>,
    one: Begun,
    other: Begun,
) -> Option<Seats>
    requires { passes.items ≡ new_passes A.table 2 }
    ensures first { IfSome result (λ seats. seats.first.pass.table ≡ A.table) }
    ensures writer { IfSome result (λ seats. seats.first.writer.table ≡ seats.board) }
    ensures second { IfSome result (λ seats. seats.second.pass.table ≡ A.table) }
    ensures other { IfSome result (λ seats. seats.second.writer.table ≡ seats.board) }
    ensures reader { IfSome result (λ seats. seats.reader.table ≡ seats.board) }
    ensures slots { IfSome result (λ seats. 1 < seats.board.words) }
{
    let Ok((board, mut writers, mut readers)) = Board::new(
        alloc,
        &[one.position, other.position],
        1,
    ) else {
        return None;
    };
    let (Some(second), Some(first)) = (passes.pop(), passes.pop()) else {
        return None;
    };
    let (Some(next_writer), Some(writer)) = (writers.pop(), writers.pop()) else {
        return None;
    };
    let reader = readers.pop()?;
    Some(Seats {
        board,
        first: RecorderSeat::new(one.session, first, writer),
        second: RecorderSeat::new(other.session, second, next_writer),
        reader,
    })
}
