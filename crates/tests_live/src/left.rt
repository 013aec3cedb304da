//! What an archive leaves that was closed: docs/STORAGE.md, "Recovery".

use crate::archives::Counted;
use crate::benches::check_group;
use crate::failing::{Course, Place, Row, check_done, check_fault};
use disk_core::Disk;
use engine_core::Engine;
use frame_core::Refusal;
use std::alloc::Global;
use std::process::Abort;

/// What an archive leaves.
#[derive(Clone, Copy)]
pub(crate) struct Left {
    /// How many calls were stored, and whether their records were kept.
    pub calls: (u64, bool),
    /// How many changes its disk has seen.
    pub changes: u64,
    /// Where recording 0 lies once it is opened again.
    pub place: Place,
    /// Where recording 1 does.
    pub second: Place,
    /// Whether it was opened twice, since a call of the disk failed.
    pub is_opened_twice: bool,
}

/// What has to be left.
#[derive(Clone, Copy)]
pub(crate) enum Then {
    Anything,
    /// So many calls.
    Calls(u64),
    /// What a script left of which a call of the disk failed, the one of this number.
    Fault(Course, u64),
    /// What so many of these rows left, whose changes of the disk are so many in all.
    Rows(&'static [Row], usize, u64),
    /// What the settling of a group left of which a call of the disk failed, the one of this number; whether it failed.
    Group(u64, bool),
}

/// What is left is what has to be. Records of the calls were kept, or not.
pub(crate) fn check(rt: &impl Abort, left: Left, keeps: bool, then: Then) {
    match then {
        Then::Anything => {}
        Then::Calls(count) => assert!(rt; left.calls == (count, keeps)),
        Then::Fault(course, call) => check_fault(rt, left, course, call),
        Then::Rows(rows, done, changes) => check_done(rt, left, rows, done, changes),
        Then::Group(call, has_failed) => check_group(rt, left, call, has_failed),
    }
}

/// Where a recording lies; no place, if there is none.
fn place_of<D: Disk>(engine: &Engine<D>, id: i64) -> Place {
    match engine.desk().recording(&id) {
        Some(found) => (found.descriptor.start_position, found.recorded),
        None => (-1, -1),
    }
}

/// Where the recordings 0 and 1 of the archive of a disk lie, or the disk.
fn places_in<D: Disk + Drop>(alloc: Global, disk: D) -> Result<(Place, Place), D> {
    match Engine::open(alloc, disk) {
        Ok((engine, _)) => Ok((place_of(&engine, 0), place_of(&engine, 1))),
        Err(refused) => Err(refused.disk),
    }
}

/// The same, and whether the archive was refused at first.
fn places_found<D: Disk + Drop>(alloc: Global, disk: D) -> Option<(Place, Place, bool)> {
    match places_in(alloc, disk) {
        Ok((place, second)) => Some((place, second, false)),
        Err(disk) => match places_in(alloc, disk) {
            Ok((place, second)) => Some((place, second, true)),
            Err(_) => None,
        },
    }
}

/// What is left on a disk, where so many calls were stored.
pub(crate) fn left_on<D: Disk + Counted + Drop>(
    alloc: Global,
    disk: D,
    calls: (u64, bool),
) -> Result<Left, Refusal> {
    let changes = disk.changes_seen();
    match places_found(alloc, disk) {
        Some((place, second, is_opened_twice)) => Ok(Left {
            calls,
            changes,
            place,
            second,
            is_opened_twice,
        }),
        None => Err(Refusal::DeviceFault),
    }
}
