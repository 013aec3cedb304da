//! Checkpoints by the thread that records. docs/SERVING.md, "How long a history lasts".

ghost use Rattle.std.specs.Prelude.{◌≡◌, ◌&&◌, Bool, IsTrue, true};
ghost use Rattle.server_recorder.specs.Checkpoints.{LooksFirst, MakesCheckpoint, MayCheckpoint, Retries, is_checkpoint_wanted, is_long, is_worthwhile, wait_while};

use crate::own_recordings::is_past;
use crate::recording::Recording;
use crate::seats::Seats;
use crate::settling::sooner;
use crate::stopping::note_standing;
use archive_lock::{Naming, Standing};
use archive_model::{BankVersion, Reply};
use control_core::Event;
use disk_core::Disk;
use frame_core::Refusal;
use server_state::{Reporter, Shared, Stopwatch};
use std::rt::Clock;
use std::sync::Wait;
use tool_core::CheckpointOutcome;

/// Milliseconds after which a checkpoint of a full history is tried again.
const SECOND: u64 = 1_000;

/// Notes where an archive stands after a call by the pass of the seats. If a checkpoint is due then, it is made by that pass first,
/// and noted. The history is as long as before if it is refused.
pub(crate) fn keep_short<D: Disk, A: Naming, R: Wait, T: Reporter>(
    with: &Recording<'_, D, A, R, T>,
    seats: &mut Seats<A>,
    standing: &Standing,
)
    ensures { MayCheckpoint D.life A.opening (is_checkpoint_wanted standing.now) seats.old seats.new }
{
    if is_begun(with.shared, standing) {
        make(with, seats, standing);
    } else {
        note_standing(with.shared, standing);
    }
}

/// Notes where an archive stands that was just opened. A checkpoint of it is made first if that is asked for, and an entry counts or
/// its bank is of version 1.
pub fn begin_short<D: Disk, A: Naming, R: Wait, T: Reporter>(
    with: &Recording<'_, D, A, R, T>,
    seats: &mut Seats<A>,
    is_asked: bool,
)
    ensures { LooksFirst D.life A.opening (λ standing. is_asked && is_worthwhile standing) seats.old seats.new }
{
    let standing = seats.standing(with.rt, with.archive);
    if is_asked && is_worthwhile(&standing) && with.shared.checkpointing.begins_now() {
        make(with, seats, &standing);
    } else {
        note_standing(with.shared, &standing);
    }
}

/// Makes a checkpoint that has begun, by the pass of the seats, and notes how it ended.
fn make<D: Disk, A: Naming, R: Wait, T: Reporter>(
    with: &Recording<'_, D, A, R, T>,
    seats: &mut Seats<A>,
    before: &Standing,
)
    ensures { MakesCheckpoint D.life A.opening seats.old seats.new }
{
    let (outcome, after) = seats.call(with.rt, with.alloc, with.archive, &Event::Checkpoint);
    note_checkpoint(with.shared, before, &outcome, &after);
}

/// Whether the caller is to make a checkpoint of an archive that stands so: one is due, and no write has failed. Then no other
/// thread is to, until it is noted.
pub fn is_begun<T: Reporter>(shared: &Shared<T>, standing: &Standing) -> bool
    ensures { IsTrue result → is_checkpoint_wanted standing.now ≡ true }
{
    !standing.is_broken
        && shared
            .checkpointing
            .begins(standing.counted, standing.active, standing.limit)
}

/// Whether an entry of an archive that stands so counts, or its bank is of version 1.
fn is_worthwhile(standing: &Standing) -> bool
    ensures { result ≡ is_worthwhile standing.now }
{
    standing.counted > 0 || standing.version == BankVersion::One
}

/// Notes how a checkpoint ended that was made where an archive stood so, and where it stands after it, if that is known.
pub fn note_checkpoint<T: Reporter>(
    shared: &Shared<T>,
    before: &Standing,
    outcome: &Result<Reply, Refusal>,
    after: &Option<Standing>,
) {
    let after = match after {
        Some(after) => after,
        None => before,
    };
    let news = CheckpointOutcome::new(before.counted, outcome, after.counted);
    shared.note_checkpoint(&news, after.counted, after.limit);
    note_standing(shared, after);
}

/// How long the thread that records may wait: for a second at most while a full history is to be made short.
pub(crate) fn wait_at_most<T: Reporter>(shared: &Shared<T>, wait: Option<u64>) -> Option<u64>
    ensures { (is_full : Bool) × (result ≡ wait_while is_full wait) }
{
    wait_while(shared.checkpointing.is_full(), wait)
}

/// The same, by whether a full history is to be made short.
fn wait_while(is_full: bool, wait: Option<u64>) -> Option<u64>
    ensures { result ≡ wait_while is_full wait }
{
    if is_full {
        sooner(wait, Some(SECOND))
    } else {
        wait
    }
}

/// Tries a checkpoint of a full history, if the last try was a second ago. `tried` is the time of the last one, in milliseconds.
pub(crate) fn retry_when_full<D: Disk, A: Naming, R: Wait + Clock, T: Reporter>(
    with: &Recording<'_, D, A, R, T>,
    seats: &mut Seats<A>,
    watch: &Stopwatch,
    tried: &mut Option<u64>,
)
    ensures { Retries D.life A.opening tried.old tried.new seats.old seats.new }
{
    let shared = with.shared;
    if !shared.checkpointing.is_full() {
        return;
    }
    let now = watch.read(with.rt);
    if !is_past(SECOND, *tried, now) {
        return;
    }
    *tried = now;
    let standing = seats.standing(with.rt, with.archive);
    if is_long(&standing) && shared.checkpointing.begins_now() {
        make(with, seats, &standing);
    }
}

/// Whether a checkpoint makes the history of an archive shorter that stands so, and no write of it has failed.
fn is_long(standing: &Standing) -> bool
    ensures { result ≡ is_long standing.now }
{
    standing.counted > standing.active && !standing.is_broken
}
