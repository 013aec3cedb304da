//! How a replay is opened whose frames are read beside the archive's lock. docs/CONTROL.md, "Replays".

ghost use Rattle.std.specs.Prelude.{◌≡◌, ◌≤ℤ◌, ◌⊎◌, [], IfErr, IfOk};
ghost use Rattle.disk_core.specs.DiskImage.{reads};
ghost use Rattle.replay_core.specs.Pages.{kept};
ghost use Rattle.settled_replays.specs.Reading.{BeginsReading, ReachesFrame, opened_for, replay_from};

use crate::held::{HeldReplay, Unopened};
use crate::replayer::SettledReplayer;
use archive_lock::{Made, Naming, SharedArchive};
use archive_model::{Descriptor, Registration};
use call_history::Pass;
use control_core::OpenReplay;
use disk_core::Disk;
use frame_core::{FrameRef, Refusal, replay_bound};
use recording_reads::{Cursor, SettledReader, is_readable};
use replay_core::{FrameTaker, PageCache};
use std::alloc::{AllocError, Global};
use std::sync::Wait;

/// Pages that a reader keeps, of 4,096 bytes.
const PAGES: usize = 16;

/// Why a reader was not begun, and its replay.
#[derive(Drop)]
pub struct Unbegun {
    /// The replay, which is open still.
    pub held: HeldReplay,
    /// Why.
    pub refusal: Refusal,
}

/// Opens a replay of a recording for a position, in bytes of the stream: where the position's term begins, or the recording
/// where that is later, so that no frame is read under the lock. If that is refused, it is opened at the position itself: so a
/// refusal is that of a replay there.
pub fn open_in_term<D: Disk, A: Naming, R: Wait>(
    rt: &R,
    alloc: Global,
    archive: &SharedArchive<D, A>,
    pass: Pass<Made>,
    descriptor: &Descriptor,
    position: i64,
) -> Result<HeldReplay, Unopened>
    requires { pass.table ≡ A.table }
    ensures from { IfOk result (λ held. (held.from ≡ opened_for descriptor.now position) ⊎ (held.from ≡ position)) }
    ensures protected { IfOk result (λ held. held.from ≤ℤ position) }
    ensures recording { IfOk result (λ held. held.recording ≡ descriptor.now.recording) }
    ensures pass { IfOk result (λ held. (held.pass.table ≡ pass.table) × (held.pass.number ≡ pass.number)) }
    ensures back { IfErr result (λ un. (un.pass.table ≡ pass.table) × (un.pass.number ≡ pass.number)) }
{
    let recording = descriptor.recording;
    let from = opened_for(descriptor, position);
    match HeldReplay::open(rt, alloc, archive, pass, recording, from, -1) {
        Err(Unopened { pass, refusal }) if from != position => {
            let _ = refusal;
            HeldReplay::open(rt, alloc, archive, pass, recording, position, -1)
        }
        opened => opened,
    }
}

/// Where a replay is opened for a position.
fn opened_for(descriptor: &Descriptor, position: i64) -> i64
    ensures value { result ≡ opened_for descriptor.now position }
    ensures before { result ≤ℤ position }
{
    let start = descriptor.start_position;
    if descriptor.term_length <= 0 || start < 0 || position < start {
        return position;
    }
    let at = position.unsigned_abs();
    let term = at - at % u64::from(descriptor.term_length.unsigned_abs());
    start.unsigned_abs().max(term) as i64
}

/// Takes frames, and keeps nothing of them.
#[derive(Clone, Copy, Drop)]
struct Passed;

impl FrameTaker for Passed {
    ghost takes = { λ old position frame new. Unit {0} };

    ghost leaves = { λ old new. Unit {0} };

    fn take(
        &mut self,
        _position: i64,
        _header: &[u8],
        _frame: &FrameRef<'_>,
    ) -> Result<(), AllocError> {
        Ok(())
    }
}

impl<E: Disk + Drop> SettledReplayer<E> {
    /// A reader of a replay that is open, from a position on, for a length, both in bytes of the stream; the replay was opened
    /// there or before, in the same recording. Whether a frame begins there is read beside the lock, from where the replay was
    /// opened on.
    ///
    /// `BadPosition` if none does; `Damaged` if the frames break off before; `DeviceFault`; `NoMemory`. Then the replay is open
    /// still. Costs memory for 16 pages, and a step for each frame between the two.
    pub fn begin<D: Disk, A: Naming, R: Wait>(
        rt: &R,
        alloc: Global,
        archive: &SharedArchive<D, A>,
        mut held: HeldReplay,
        disk: E,
        descriptor: Descriptor,
        position: i64,
        length: i64,
    ) -> Result<SettledReplayer<E>, Unbegun>
        requires table { held.pass.table ≡ A.table }
        requires recording { held.recording ≡ descriptor.recording }
        requires protected { held.from ≤ℤ position }
        ensures begins { IfOk result (λ r. BeginsReading (E.life r.reader.disk).obeys (reads (E.life disk).now) descriptor
            position length r.held r.reader.cursor) }
        ensures pass { IfOk result (λ r. (r.held.pass.table ≡ held.pass.table) × (r.held.pass.number ≡ held.pass.number)) }
        ensures back { IfErr result (λ un. (un.held.pass.table ≡ held.pass.table) × (un.held.pass.number ≡ held.pass.number)) }
    {
        if let Err(refusal) = held.look(rt, alloc, archive) {
            return Err(Unbegun { held, refusal });
        }
        match begun_at(alloc, &held, disk, descriptor, position, length) {
            Ok(begun) => Ok(SettledReplayer::new(held, begun.disk, begun.pages, begun.cursor)),
            Err(refusal) => Err(Unbegun { held, refusal }),
        }
    }
}

/// What a reader begins with.
#[derive(Drop)]
struct Begun<E> {
    disk: E,
    pages: PageCache,
    cursor: Cursor,
}

/// What a reader of a replay begins with, if a frame begins at the position.
fn begun_at<E: Disk + Drop>(
    alloc: Global,
    held: &HeldReplay,
    disk: E,
    descriptor: Descriptor,
    position: i64,
    length: i64,
) -> Result<Begun<E>, Refusal>
    requires { held.now.recording ≡ descriptor.recording }
    ensures begins { IfOk result (λ b. BeginsReading (E.life b.disk).obeys (reads (E.life disk).now) descriptor
        position length held.now b.cursor) }
    ensures pages { IfOk result (λ b. kept b.pages ≡ []) }
{
    let known = Registration {
        descriptor: descriptor.copy(alloc)?,
        recorded: held.seen(),
    };
    let disk = reached(alloc, held, disk, known, position)?;
    let known = Registration {
        descriptor,
        recorded: held.seen(),
    };
    let replay = replay_from(held, position, replay_bound(&position, &length));
    if !is_readable(&known, &replay) {
        return Err(Refusal::BadPosition);
    }
    Ok(Begun {
        disk,
        pages: PageCache::new(alloc, PAGES)?,
        cursor: Cursor::new(known, replay),
    })
}

/// The disk, if a frame begins at a position, or the recording is recorded up to there.
fn reached<E: Disk + Drop>(
    alloc: Global,
    held: &HeldReplay,
    disk: E,
    known: Registration,
    position: i64,
) -> Result<E, Refusal>
    requires { known.recorded ≡ held.now.seen }
    ensures { IfOk result (λ after. ReachesFrame (E.life after).obeys (reads (E.life disk).now) known held.now position) }
{
    if position == held.from() || position == held.seen() {
        return Ok(disk);
    }
    let replay = replay_from(held, held.from(), position);
    if !is_readable(&known, &replay) {
        return Err(Refusal::BadPosition);
    }
    let pages = PageCache::new(alloc, PAGES)?;
    let mut reader = SettledReader::new(disk, pages, Cursor::new(known, replay));
    reader.turn(alloc, held.seen(), i64::MAX, &mut Passed)?;
    let next = reader.next_position();
    let (disk, _) = reader.into_parts();
    if next == position {
        Ok(disk)
    } else {
        Err(Refusal::BadPosition)
    }
}

/// A replay of the recording of one that is open, from a position to a bound.
fn replay_from(held: &HeldReplay, next: i64, bound: i64) -> OpenReplay
    ensures { result ≡ replay_from held.now next bound }
{
    OpenReplay {
        number: held.number(),
        recording: held.recording(),
        next,
        bound,
    }
}
