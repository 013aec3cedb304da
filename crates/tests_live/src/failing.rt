//! Calls under a lock whose disk fails, or that find no memory: docs/STORAGE.md, "Recovery".

use crate::archives::{Scenario, Seats, played, played_again};
use crate::left::{Left, Then};
use crate::seat::Seat;
use archive_lock::{Naming, SharedArchive};
use disk_core::Disk;
use frame_core::Refusal;
use std::alloc::Global;
use std::process::Abort;
use std::sync::Wait;
use std::test::Fail;

/// Where recording 0 starts, and is recorded to.
pub(crate) type Place = (i64, i64);

/// A line, what it is answered, by how many changes of the disk, and where recording 0 lies then.
pub(crate) type Row = (&'static str, &'static str, u64, Place);

// A script that makes each change of an archive: its blocks are a pad of a term and `hello` at 65,536, twice.
pub(crate) const SCRIPT: [Row; 14] = [
    (
        "start 1001 7 42 65536 1408 65536 0 1000 c",
        "started 0 0",
        4,
        (0, 0),
    ),
    (
        "write 0 0000010000c000000000000007000000e90300002a0000000000000000000000",
        "written 65536",
        1,
        (0, 0),
    ),
    ("settle 0", "settled 65536", 5, (0, 65_536)),
    (
        "write 0 2500000000c001000000000007000000e90300002b000000000000000000000068656c6c6f",
        "written 65600",
        1,
        (0, 65_536),
    ),
    ("settle 0", "settled 65600", 5, (0, 65_600)),
    ("purge-segments 0 65536", "purged 1", 4, (65_536, 65_600)),
    ("sweep", "swept 1", 2, (65_536, 65_600)),
    ("stop 0 2000", "stopped 65600", 4, (65_536, 65_600)),
    ("truncate 0 65536", "truncated 65536", 4, (65_536, 65_536)),
    ("sweep", "swept 1", 2, (65_536, 65_536)),
    (
        "extend 0 1001 7 42 65536 1408 65536",
        "extended 1",
        4,
        (65_536, 65_536),
    ),
    (
        "write 1 2500000000c001000000000007000000e90300002b000000000000000000000068656c6c6f",
        "written 65600",
        1,
        (65_536, 65_536),
    ),
    ("settle 1", "settled 65600", 5, (65_536, 65_600)),
    ("stop 0 3000", "stopped 65600", 4, (65_536, 65_600)),
];

/// How many calls of the disk the script makes: 46 changes, and a listing of the files by each sweep.
const CALLS: u64 = 48;

/// The script next to a disk of which a call fails.
#[derive(Clone, Copy)]
pub(crate) struct Course {
    /// The number from here on of the call that fails; 0 once one has broken the archive.
    fails_at: Option<u64>,
    /// Where recording 0 lies.
    place: Place,
    /// Where it may lie too, if a call is in doubt.
    doubt: Place,
}

/// What a call is answered that makes so many calls of the disk.
fn answer_to(reply: &'static str, calls: u64, fails_at: Option<u64>) -> &'static str {
    match fails_at {
        Some(0) => "error 16 Broken",
        Some(at) if at <= calls => "error 17 DeviceFault",
        _ => reply,
    }
}

/// The course after a row that makes so many calls of the disk.
fn course_after(course: Course, row: &Row, calls: u64) -> Course {
    let (line, _, _, place) = *row;
    match course.fails_at {
        Some(0) => course,
        // A sweep that fails breaks nothing.
        Some(at) if at <= calls && line == "sweep" => Course {
            fails_at: None,
            ..course
        },
        Some(at) if at <= calls => Course {
            fails_at: Some(0),
            doubt: place,
            ..course
        },
        fails_at => Course {
            fails_at: fails_at.map(|at| at.wrapping_sub(calls)),
            place,
            doubt: place,
        },
    }
}

/// Whether a text is this reply.
fn is_reply(text: &Vec<u8>, reply: &str) -> bool {
    text.as_slice().strip_suffix(b"\n") == Some(reply.as_bytes())
}

/// A line is answered so.
fn check_line<D: Disk, A: Naming, R: Wait + Abort>(
    rt: &R,
    alloc: Global,
    archive: &SharedArchive<D, A>,
    seat: &mut Seat<A>,
    line: &str,
    reply: &str,
) -> Result<(), Fail> {
    let text = seat.tells(rt, alloc, archive, line)?;
    let is_answered = is_reply(&text, reply);
    drop(text);
    assert!(rt; is_answered, "{line}");
    Ok(())
}

/// A seat makes the call of a row, and the other seat too if the archive is broken. Then the seats change places.
fn follow<D: Disk, A: Naming, R: Wait + Abort>(
    rt: &R,
    alloc: Global,
    archive: &SharedArchive<D, A>,
    seats: &mut Seats<A>,
    course: Course,
    row: &Row,
) -> Result<Course, Fail> {
    let (line, reply, changes, _) = *row;
    // A sweep lists the files before it removes one.
    let calls = if line == "sweep" {
        changes.wrapping_add(1)
    } else {
        changes
    };
    let answer = answer_to(reply, calls, course.fails_at);
    check_line(rt, alloc, archive, &mut seats.first, line, answer)?;
    if course.fails_at == Some(0) {
        check_line(rt, alloc, archive, &mut seats.second, line, answer)?;
    }
    std::mem::swap(&mut seats.first, &mut seats.second);
    Ok(course_after(course, row, calls))
}

/// Two seats make the calls of the script in turn.
fn play<D: Disk, A: Naming, R: Wait + Abort>(
    rt: &R,
    alloc: Global,
    archive: &SharedArchive<D, A>,
    seats: &mut Seats<A>,
    fails_at: u64,
) -> Result<Course, Fail> {
    let mut course = Course {
        fails_at: Some(fails_at),
        place: (-1, -1),
        doubt: (-1, -1),
    };
    for row in &SCRIPT {
        course = follow(rt, alloc, archive, seats, course, row)?;
    }
    Ok(course)
}

/// What was answered is there, and of the call that failed nothing or all. The fault came in the script, or is past its calls.
pub(crate) fn check_fault(rt: &impl Abort, left: Left, course: Course, call: u64) {
    assert!(rt;
        left.place == course.place || left.place == course.doubt,
        "{call}"
    );
    assert!(rt; left.is_opened_twice == (call > CALLS), "{call}");
}

/// After the fault both passes are refused, and the archive closes.
pub(crate) fn faults<D: Disk, A: Naming, R: Wait + Abort>(
    rt: &R,
    alloc: Global,
    archive: &SharedArchive<D, A>,
    mut seats: Seats<A>,
    call: u64,
) -> Result<(Seats<A>, Then), Fail> {
    match play(rt, alloc, archive, &mut seats, call) {
        Ok(course) => Ok((seats, Then::Fault(course, call))),
        Err(fail) => Err(fail),
    }
}

/// Calls under a lock are answered as they have to be, whichever call of the disk fails. The last one is the next opening's
/// first.
#[test]
fn each_call_of_a_disk_fails(rt: HostRuntime) -> Result<(), Fail> {
    for call in 1..=CALLS + 1 {
        played(&rt, rt.alloc(), true, Scenario::Fault(call))?;
    }
    Ok(())
}

/// What is told of the answer to a line, which is asked again if memory is refused: the archive stands as before then.
fn told_again<D: Disk, A: Naming, R: Wait + Abort>(
    rt: &R,
    alloc: Global,
    archive: &SharedArchive<D, A>,
    seat: &mut Seat<A>,
    line: &str,
) -> Result<Vec<u8>, Refusal> {
    let before = seat.standing(rt, archive);
    let text = seat.tells(rt, alloc, archive, line)?;
    if !is_reply(&text, "error 18 NoMemory") {
        return Ok(text);
    }
    drop(text);
    let after = seat.standing(rt, archive);
    assert!(rt; after == before);
    seat.tells(rt, alloc, archive, line)
}

/// Whether a line is answered so. Else the disk found no memory, and the line is a fault of it.
fn is_answered<D: Disk, A: Naming, R: Wait + Abort>(
    rt: &R,
    alloc: Global,
    archive: &SharedArchive<D, A>,
    seat: &mut Seat<A>,
    row: &Row,
) -> Result<bool, Refusal> {
    let (line, reply, _, _) = *row;
    let text = told_again(rt, alloc, archive, seat, line)?;
    let is_right = is_reply(&text, reply);
    let is_fault = is_reply(&text, "error 17 DeviceFault");
    drop(text);
    assert!(rt; is_right || is_fault, "{line}");
    Ok(is_right)
}

/// How many rows two seats are answered in turn, before the disk finds no memory.
fn rows_answered<D: Disk, A: Naming, R: Wait + Abort>(
    rt: &R,
    alloc: Global,
    archive: &SharedArchive<D, A>,
    seats: &mut Seats<A>,
    rows: &[Row],
) -> Result<usize, Refusal> {
    let mut done = 0usize;
    for row in rows {
        if !is_answered(rt, alloc, archive, &mut seats.first, row)? {
            break;
        }
        done = done.wrapping_add(1);
        std::mem::swap(&mut seats.first, &mut seats.second);
    }
    Ok(done)
}

/// Where recording 0 lies after so many rows.
fn place_after(rows: &[Row], done: usize) -> Place {
    match rows.get(done.wrapping_sub(1)) {
        Some((_, _, _, place)) => *place,
        None => (-1, -1),
    }
}

/// The history has the calls that were answered, and none that was refused memory. What they left is there and, once all were
/// answered, the disk has seen no change but theirs.
pub(crate) fn check_done(rt: &impl Abort, left: Left, rows: &[Row], done: usize, changes: u64) {
    let next = done.wrapping_add(1).min(rows.len());
    assert!(rt; left.calls.0 == next as u64);
    assert!(rt; done < rows.len() || left.changes == changes);
    assert!(rt; left.place == place_after(rows, done) || left.place == place_after(rows, next));
}

/// Two seats make the calls of a script, each again if memory is refused.
pub(crate) fn again<D: Disk, A: Naming, R: Wait + Abort>(
    rt: &R,
    alloc: Global,
    archive: &SharedArchive<D, A>,
    mut seats: Seats<A>,
    rows: &'static [Row],
    changes: u64,
) -> Result<(Seats<A>, Then), Fail> {
    match rows_answered(rt, alloc, archive, &mut seats, rows) {
        Ok(done) => Ok((seats, Then::Rows(rows, done, changes))),
        Err(refusal) => Err(Fail::from(refusal)),
    }
}

/// Each line that finds no memory changes nothing, and is answered if it is asked again: `trials/refused_memory.py tests` refuses
/// one request of each run.
#[test]
fn refused_memory_of_each_call(rt: HostRuntime) -> Result<(), Fail> {
    played_again(&rt, rt.alloc(), true, Scenario::EachAgain)?;
    played_again(&rt, rt.alloc(), false, Scenario::EachAgain)
}

// Replay 0 reads a recording of two frames.
pub(crate) const READINGS: [Row; 8] = [
    (
        "poll 0 1",
        "frame 0 2500000000c001000000000007000000e90300002a000000000000000000000068656c6c6f\nmore 64",
        0,
        (0, 128),
    ),
    (
        "poll-to 0 9 128",
        "frame 64 2500000000c001004000000007000000e90300002a000000000000000000000068656c6c6f\ndone",
        0,
        (0, 128),
    ),
    ("replay 0 64 -1", "replay 1", 0, (0, 128)),
    ("find 0 1001 7 c", "found 0", 0, (0, 128)),
    (
        "list 0 9",
        "recording 0 1000 2000 0 128 42 65536 65536 1408 7 1001 c\nend 1",
        0,
        (0, 128),
    ),
    ("source 0", "source 0", 0, (0, 128)),
    ("verify 0", "verified 2", 0, (0, 128)),
    ("close 1", "closed", 0, (0, 128)),
];

/// A poll that finds no memory leaves its replay where it is, and gives its frames if it is asked again.
#[test]
fn refused_memory_of_each_reading(rt: HostRuntime) -> Result<(), Fail> {
    played_again(&rt, rt.alloc(), true, Scenario::ReadAgain)
}
