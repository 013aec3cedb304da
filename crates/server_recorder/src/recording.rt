//! The thread that records. docs/ARCHITECTURE.md, "Serving".

ghost use Rattle.std.specs.Prelude.{◌≡◌, ◌∷◌, []};
ghost use Rattle.server_recorder.specs.Settles.{SettlesOne, SettlesSeats};
ghost use Rattle.server_recorder.specs.Settling.{session_at};

use crate::checkpoints::{keep_short, retry_when_full, wait_at_most};
use crate::flushing::{Flusher, Flushing, MOST_FLUSHED};
use crate::grouping::settle_due;
use crate::own_recordings::{
    OwnRecordings, count_recordings, report_standing_holes, wait_to_count,
};
use crate::seats::Seats;
use crate::settling::{Settling, Written};
use crate::stopping::note_standing;
use crate::writing::{Run, write_batch};
use archive_lock::{Naming, SharedArchive};
use disk_core::Disk;
use frame_core::Refusal;
use server_state::{FedBlock, FedSession, Reporter, Shared, Stopwatch, Taken};
use std::alloc::Global;
use std::collections::VecDeque;
use std::net::UdpSocket;
use std::rt::Clock;
use std::sync::Wait;
use std::thread::{self, Threads};
use stream_pairs::{MAX_IMAGES, Seat};

/// Syncs of the disk in a settling.
pub(crate) const SYNCS: usize = 3;

/// What the thread that records works with.
#[derive(Drop)]
pub struct Recording<'a, D: Disk, A: Naming, R, T> {
    /// The runtime.
    pub rt: &'a R,
    /// Where memory comes from.
    pub alloc: Global,
    /// What it records into.
    pub archive: &'a SharedArchive<D, A>,
    /// What the threads of the server share.
    pub shared: &'a Shared<T>,
    /// Where datagrams come to; the thread that receives is woken by it.
    pub socket: &'a UdpSocket,
}

/// Records the blocks that wait, batch after batch, until no more come, and the images that are recorded without being asked.
/// A session settles once it is due: a block waits for `settle_every` milliseconds at most. All sessions settle at the end.
/// Then nobody waits for a settling any more. Sessions that are due together settle together. Where syncs are slow the segment files
/// of those that are due, of one too, are flushed first, by threads that end with this one: as many as the flusher wants, 8 at most, as far as there are any.
///
/// A checkpoint is made after a settling or a call of the server's own which leaves it due, and tried each second while the history
/// is full. Where the archive stands is noted after each settling, and after each call for a recording that nobody asked for, by what
/// came with the answer. After a write that the disk failed the lock is taken once more for it. Nothing else is noted.
pub fn record_all<
    D: Disk,
    A: Naming,
    R: Threads + Wait + Clock + Sync,
    T: Reporter,
    F: Flusher + Sync,
>(
    with: &Recording<'_, D, A, R, T>,
    seats: &mut Seats<A>,
    own: OwnRecordings,
    settle_every: u64,
    batch: &mut VecDeque<FedBlock>,
    flusher: &F,
) {
    let flushing = Flushing::new(with.alloc);
    let (flushing, rt) = (&flushing, with.rt);
    thread::scope(thread::scope_env(), rt, |scope| {
        for _ in 0..flusher.width().min(MOST_FLUSHED) {
            if scope.spawn(move || flushing.serve(rt, flusher)).is_ok() {
                flushing.add_thread(rt);
            }
        }
        record_batches(with, seats, own, settle_every, batch, flushing);
        flushing.end(rt);
    });
}

/// Reports the holes that stand between recordings, and records batch after batch until no more come.
fn record_batches<D: Disk, A: Naming, R: Wait + Clock, T: Reporter>(
    with: &Recording<'_, D, A, R, T>,
    seats: &mut Seats<A>,
    mut own: OwnRecordings,
    settle_every: u64,
    batch: &mut VecDeque<FedBlock>,
    flushing: &Flushing,
) {
    let watch = Stopwatch::new(with.rt);
    let mut settling = Settling::new(settle_every);
    let mut run = Run::new(with.alloc);
    let mut tried = None;
    let mut counted = None;
    report_standing_holes(with, seats);
    for _ in with.rt.forever() {
        let taken = take_batch(with, &watch, &mut settling, batch);
        write_batch(with, seats, &mut settling, batch, &mut run);
        settle_due(with, seats, &mut settling, &taken, flushing);
        settle_leaving(with, seats, &mut settling, &taken);
        own.follow(with, seats, &taken, watch.read(with.rt));
        if with.shared.meter.is_on() {
            count_recordings(with, seats, watch.read(with.rt), &mut counted);
        }
        retry_when_full(with, seats, &watch, &mut tried);
        with.shared.queue.answer(with.rt);
        if taken.is_over {
            break;
        }
    }
    with.shared.queue.leave(with.rt);
}

/// Waits for blocks, for a settling that is asked for, or until a session is due, and takes what came. Sets the time.
fn take_batch<D: Disk, A: Naming, R: Wait + Clock, T: Reporter>(
    with: &Recording<'_, D, A, R, T>,
    watch: &Stopwatch,
    settling: &mut Settling,
    batch: &mut VecDeque<FedBlock>,
) -> Taken {
    if with.shared.queue.await_blocks(with.rt) {
        with.shared.look_round(with.socket);
    }
    settling.set_time(watch.read(with.rt));
    let wait = wait_at_most(with.shared, settling.next_due());
    let wait = wait_to_count(with.shared, wait);
    let taken = with.shared.queue.take(with.rt, batch, wait);
    settling.set_time(watch.read(with.rt));
    taken
}

/// Settles the sessions of images that leave: no block of theirs waits any more.
fn settle_leaving<D: Disk, A: Naming, R: Wait + Clock, T: Reporter>(
    with: &Recording<'_, D, A, R, T>,
    seats: &mut Seats<A>,
    settling: &mut Settling,
    taken: &Taken,
) {
    for place in 0..MAX_IMAGES {
        if taken.leaving[place] {
            if let Some(seat) = with.shared.seat_of(with.rt, place) {
                let _ = settle(with, seats, settling, seat);
            }
        }
    }
}

/// A write of a session was refused, which takes its image away. Where the archive stands is noted if the disk failed it.
pub(crate) fn refuse<D: Disk, A: Naming, R: Wait + Clock, T: Reporter>(
    with: &Recording<'_, D, A, R, T>,
    seats: &mut Seats<A>,
    session: &FedSession,
    cause: Refusal,
) {
    with.shared.refused(with.rt, session.session, cause);
    if cause == Refusal::DeviceFault {
        let standing = seats.standing(with.rt, with.archive);
        note_standing(with.shared, &standing);
    }
}

/// Settles the session at a seat, if it wrote something, and notes where the archive stands after it. False if that is refused,
/// which takes its image away.
pub(crate) fn settle<D: Disk, A: Naming, R: Wait + Clock, T: Reporter>(
    with: &Recording<'_, D, A, R, T>,
    seats: &mut Seats<A>,
    settling: &mut Settling,
    seat: Seat,
) -> bool
    ensures calls { SettlesOne D.life A.opening seat (session_at seat settling.old.sessions).written seats.old result seats.new }
    ensures settled { SettlesSeats (seat ∷ []) settling.old settling.new }
{
    settle_alone(with, seats, settling, seat, SYNCS)
}

/// The same for a settling that waits for so many syncs. 0 if the session's segment files were flushed before.
pub(crate) fn settle_alone<D: Disk, A: Naming, R: Wait + Clock, T: Reporter>(
    with: &Recording<'_, D, A, R, T>,
    seats: &mut Seats<A>,
    settling: &mut Settling,
    seat: Seat,
    syncs: usize,
) -> bool
    ensures calls { SettlesOne D.life A.opening seat (session_at seat settling.old.sessions).written seats.old result seats.new }
    ensures settled { SettlesSeats (seat ∷ []) settling.old settling.new }
{
    let Some(written) = settling.take(seat) else {
        return true;
    };
    seats.set_session(seat, written.session);
    let watch = Stopwatch::new(with.rt);
    let (answer, standing) = seats.settle(with.rt, with.alloc, with.archive, seat);
    match answer {
        Ok(position) => {
            note_time(with, settling, &watch, syncs);
            note_settled(with, &written, position);
        }
        Err(cause) => with.shared.refused(with.rt, written.session, cause),
    }
    if let Some(standing) = standing {
        keep_short(with, seats, &standing);
    }
    answer.is_ok()
}

/// A session settled what it wrote, and is recorded up to a position.
pub(crate) fn note_settled<D: Disk, A: Naming, R: Wait + Clock, T: Reporter>(
    with: &Recording<'_, D, A, R, T>,
    written: &Written,
    position: i64,
) {
    with.shared.settled(with.rt, written.session, position);
    if with.shared.takes_hold() {
        with.shared.look_round(with.socket);
    }
    if let Some(counts) = with.shared.counts.of(written.image) {
        counts.recorded.add(written.bytes);
    }
}

/// A settle was made, which began when a watch did, and waited for so many syncs. 0 if that says nothing of how slow syncs are.
pub(crate) fn note_time<D: Disk, A: Naming, R: Wait + Clock, T: Reporter>(
    with: &Recording<'_, D, A, R, T>,
    settling: &mut Settling,
    watch: &Stopwatch,
    syncs: usize,
)
    ensures { settling.new ≡ record settling.old { pace = settling.new.pace } }
{
    if let Some(micros) = watch.micros(with.rt) {
        settling.note_syncs(micros, syncs);
        if with.shared.meter.is_on() {
            with.shared.meter.settled(with.rt, micros);
        }
    }
}
