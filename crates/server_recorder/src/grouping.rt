//! Sessions that are due, which settle together, and whose segment files are flushed before. docs/SERVING.md, "When a frame is
//! durable".

ghost use Rattle.std.specs.Prelude.{◌≡◌, IfSome, MatchBool, true};
ghost use Rattle.std.specs.List.{count_by};
ghost use Rattle.server_recorder.specs.Grouping.{due_seats, seats_of, sessions_written, with_near};
ghost use Rattle.server_recorder.specs.Settles.{LooksForFiles, SettlesAfterLook, SettlesDue, SettlesAlone, SettlesSeats, SettlesTogether, seated_each, settled_seats, settling_seats};

use crate::checkpoints::keep_short;
use crate::flushing::Flushing;
use crate::recording::{Recording, SYNCS, note_settled, note_time, settle_alone};
use crate::seats::Seats;
use crate::settling::Settling;
use archive_lock::Naming;
use disk_core::Disk;
use frame_core::Refusal;
use server_state::{Reporter, Stopwatch, Taken};
use std::alloc::Global;
use std::rt::Clock;
use std::sync::Wait;
use stream_pairs::{FED_SESSIONS, Seat};

/// Syncs of the disk beside those of the segment files.
const BANK_SYNCS: usize = 2;

/// Settles each session that is due now; all of them if no more blocks come. Where syncs are slow, their segment files are flushed
/// first, beside the lock. One that is due alone settles by itself. Where there are several they settle together, with those that
/// have waited for at least half as long as a block may; where nothing was done by that, each settles by itself.
pub(crate) fn settle_due<D: Disk, A: Naming, R: Wait + Clock, T: Reporter>(
    with: &Recording<'_, D, A, R, T>,
    seats: &mut Seats<A>,
    settling: &mut Settling,
    taken: &Taken,
    flushing: &Flushing,
)
    ensures { SettlesDue D.life A.opening taken.now settling.old settling.new seats.old seats.new }
{
    let block_waits = with.shared.queue.has_block(with.rt);
    let chosen = settling_seats(settling, block_waits, taken);
    match seats_of(with.alloc, &chosen) {
        Some(group) => settle_chosen(with, seats, settling, &chosen, group.as_slice(), flushing),
        None => settle_each(with, seats, settling, &chosen, false),
    }
}

/// Settles the sessions at some seats, whose numbers these are: several together if that goes, else each by itself.
fn settle_chosen<D: Disk, A: Naming, R: Wait + Clock, T: Reporter>(
    with: &Recording<'_, D, A, R, T>,
    seats: &mut Seats<A>,
    settling: &mut Settling,
    chosen: &[bool; FED_SESSIONS],
    group: &[Seat],
    flushing: &Flushing,
)
    requires { group.now ≡ seats_of chosen.now }
    ensures { SettlesAfterLook D.life A.opening group.now settling.old settling.new seats.old seats.new }
{
    if group.is_empty() {
        return;
    }
    let is_flushed = flush(with, seats, settling, group, flushing);
    if group.len() > 1 && settle_group(with, seats, settling, group, is_flushed) {
        return;
    }
    settle_each(with, seats, settling, chosen, is_flushed);
}

/// Settles the sessions at some seats, each by itself. `is_flushed`: their segment files were flushed.
fn settle_each<D: Disk, A: Naming, R: Wait + Clock, T: Reporter>(
    with: &Recording<'_, D, A, R, T>,
    seats: &mut Seats<A>,
    settling: &mut Settling,
    due: &[bool; FED_SESSIONS],
    is_flushed: bool,
)
    ensures calls { SettlesAlone D.life A.opening (seats_of due.now) settling.old seats.old seats.new }
    ensures settled { SettlesSeats (seats_of due.now) settling.old settling.new }
{
    let syncs = if is_flushed { 0 } else { SYNCS };
    for seat in 0..FED_SESSIONS {
        if due[seat] {
            let _ = settle_alone(with, seats, settling, seat, syncs);
        }
    }
}

/// Of each seat whether its session settles: it is due, or near to be due where several are due.
fn settling_seats(settling: &Settling, block_waits: bool, taken: &Taken) -> [bool; FED_SESSIONS]
    ensures { result ≡ settling_seats block_waits taken.now settling.now }
{
    let due = due_seats(settling, block_waits, taken);
    if count(&due) > 1 {
        with_near(settling, &due)
    } else {
        due
    }
}

/// Of each seat whether its session is due.
fn due_seats(settling: &Settling, block_waits: bool, taken: &Taken) -> [bool; FED_SESSIONS]
    ensures { result ≡ due_seats block_waits taken.now settling.now }
{
    let mut due = [false; FED_SESSIONS];
    for seat in 0..FED_SESSIONS {
        let is_asked = taken.is_over || taken.asked[seat];
        due[seat] = settling.is_due(seat, block_waits, is_asked);
    }
    due
}

/// Of each seat whether its session is one of those that are due, or is near to be due.
fn with_near(settling: &Settling, due: &[bool; FED_SESSIONS]) -> [bool; FED_SESSIONS]
    ensures { result ≡ with_near settling.now due.now }
{
    let mut near = [false; FED_SESSIONS];
    for seat in 0..FED_SESSIONS {
        near[seat] = due[seat] || settling.is_half_due(seat);
    }
    near
}

/// How many seats there are.
fn count(seats: &[bool; FED_SESSIONS]) -> usize
    ensures { result ≡ count_by (λ is. is) seats.now }
{
    let mut count: usize = 0;
    for seat in 0..FED_SESSIONS {
        if seats[seat] {
            count += 1;
        }
    }
    count
}

/// The numbers of seats. None if there is no memory for them.
fn seats_of(alloc: Global, seats: &[bool; FED_SESSIONS]) -> Option<Vec<Seat>>
    ensures { IfSome result (λ numbers. numbers.items ≡ seats_of seats.now) }
{
    let mut numbers = Vec::with_capacity(alloc, FED_SESSIONS).ok()?;
    for seat in 0..FED_SESSIONS {
        if seats[seat] {
            numbers.push(seat).ok()?;
        }
    }
    Some(numbers)
}

/// Settles the sessions of several seats together. Whether that was done, or failed in a way that leaves each of them refused: a
/// refusal for want of room or of memory is none, since one session alone may need less. `is_flushed`: their segment files were
/// flushed.
fn settle_group<D: Disk, A: Naming, R: Wait + Clock, T: Reporter>(
    with: &Recording<'_, D, A, R, T>,
    seats: &mut Seats<A>,
    settling: &mut Settling,
    group: &[Seat],
    is_flushed: bool,
) -> bool
    ensures calls { SettlesTogether D.life A.opening group.now settling.old seats.old result seats.new }
    ensures settled { MatchBool result (SettlesSeats group.now settling.old settling.new) (settling.new ≡ settling.old) }
{
    seat_each(seats, settling, group);
    let watch = Stopwatch::new(with.rt);
    let (answer, standing) = seats.settle_all(with.rt, with.alloc, with.archive, group);
    let is_done = match answer {
        Ok(positions) => {
            let syncs = if is_flushed {
                0
            } else {
                group.len().saturating_add(BANK_SYNCS)
            };
            note_time(with, settling, &watch, syncs);
            note_group(with, settling, group, positions.as_slice());
            take_each(settling, group);
            true
        }
        Err(Refusal::DeviceFault) => {
            refuse_group(with, settling, group);
            take_each(settling, group);
            true
        }
        Err(_) => false,
    };
    if let Some(standing) = standing {
        keep_short(with, seats, &standing);
    }
    is_done
}

/// Seats call for the sessions that wrote something there.
fn seat_each<A: Naming>(seats: &mut Seats<A>, settling: &Settling, group: &[Seat])
    ensures { seats.new ≡ seated_each settling.now group.now seats.old }
{
    for seat in group {
        if let Some(written) = settling.written(*seat) {
            seats.set_session(*seat, written.session);
        }
    }
}

/// The sessions of several seats settled what they wrote.
fn take_each(settling: &mut Settling, group: &[Seat])
    ensures { settling.new ≡ settled_seats group.now settling.old }
{
    for seat in group {
        let _ = settling.take(*seat);
    }
}

/// Notes that the sessions of several seats settled, and that each is recorded up to its own position. One that was stopped before
/// has none.
fn note_group<D: Disk, A: Naming, R: Wait + Clock, T: Reporter>(
    with: &Recording<'_, D, A, R, T>,
    settling: &Settling,
    group: &[Seat],
    positions: &[Option<i64>],
) {
    for (index, seat) in group.iter().enumerate() {
        if let Some(written) = settling.written(*seat) {
            match positions.get(index) {
                Some(Some(position)) => note_settled(with, &written, *position),
                _ => with
                    .shared
                    .refused(with.rt, written.session, Refusal::StaleSession),
            }
        }
    }
}

/// The disk failed what the sessions of several seats were to settle: each loses its image.
fn refuse_group<D: Disk, A: Naming, R: Wait + Clock, T: Reporter>(
    with: &Recording<'_, D, A, R, T>,
    settling: &Settling,
    group: &[Seat],
) {
    for seat in group {
        if let Some(written) = settling.written(*seat) {
            with.shared
                .refused(with.rt, written.session, Refusal::DeviceFault);
        }
    }
}

/// Flushes the segment files of sessions that are to settle, if syncs are slow. Without memory nothing is flushed. What a flush
/// answers is not looked at: the settling syncs the same files. Whether files were flushed.
fn flush<D: Disk, A: Naming, R: Wait + Clock, T: Reporter>(
    with: &Recording<'_, D, A, R, T>,
    seats: &mut Seats<A>,
    settling: &mut Settling,
    group: &[Seat],
    flushing: &Flushing,
) -> bool
    ensures looks { LooksForFiles D.life A.opening seats.old seats.new }
    ensures paced { settling.new ≡ record settling.old { pace = settling.new.pace } }
{
    if !settling.is_slow() || !flushing.works() {
        return false;
    }
    let Some(sessions) = sessions_of(with.alloc, settling, group) else {
        return false;
    };
    let files = seats.unsettled_segments(with.rt, with.alloc, with.archive, sessions.as_slice());
    let Ok(files) = files else {
        return false;
    };
    let watch = Stopwatch::new(with.rt);
    let rounds = flushing.flush(with.rt, files);
    if let Some(micros) = watch.micros(with.rt) {
        settling.note_syncs(micros, rounds);
    }
    rounds > 0
}

/// The numbers of the sessions at some seats, as far as they wrote something. None if there is no memory for them.
fn sessions_of(alloc: Global, settling: &Settling, seats: &[Seat]) -> Option<Vec<i64>>
    ensures { IfSome result (λ sessions. sessions.items ≡ sessions_written settling.now seats.now) }
{
    let mut sessions = Vec::with_capacity(alloc, FED_SESSIONS).ok()?;
    for seat in seats {
        if let Some(written) = settling.written(*seat) {
            sessions.push(written.session).ok()?;
        }
    }
    Some(sessions)
}
