//! What a desk decides on the calls that are no requests, what is looked for, and the limits: docs/CONTROL.md, by example.

use crate::desks::{begin, decided, make_asked, told_by_line, told_of};
use crate::requests::{BAD_START, START};
use archive_model::{Channel, Reply};
use control_core::{
    Decision, Desk, FindFields, OpeningDecision, Request, Written, decide_close, decide_open,
    decide_poll, decide_settle, decide_sweep, decide_verify, decide_write, laws, read_terms,
};
use frame_core::{Block, Frame, FrameKind, Geometry, Items, Refusal};
use std::alloc::{AllocError, Global};
use std::test::*;

/// An archive of so many active recordings.
pub fn recording(alloc: Global, count: u8, limit: u32) -> Result<Desk, Refusal> {
    let mut desk = Desk::new(alloc, limit);
    begin(alloc, &mut desk, count).and(Ok(desk))
}

/// Opens a replay of a recording from its start.
fn open(desk: &mut Desk, recording: i64) -> Result<(), Refusal> {
    laws::what_is_opened_is_allowed();
    let OpeningDecision::Decided(decided) = decide_open(desk, &recording, &-1, &-1) else {
        return Err(Refusal::BadLine);
    };
    let opening = decided?;
    desk.reserve_replay()?;
    desk.open_replay(&opening);
    Ok(())
}

fn number_of<T: Drop>(decided: &Result<T, Refusal>) -> u8 {
    match decided {
        Ok(_) => 0,
        Err(refusal) => refusal.number(),
    }
}

fn opened(decision: &OpeningDecision) -> u8 {
    match decision {
        OpeningDecision::Decided(Err(refusal)) => refusal.number(),
        _ => 0,
    }
}

/// A block of 64 bytes from a position on, of a stream of session 7.
fn block_at(alloc: Global, position: i64, stream_id: i32) -> Result<Block, AllocError> {
    let term = position.wrapping_div_euclid(65_536);
    let offset = position.wrapping_rem_euclid(65_536);
    let mut frames = Items::new(alloc);
    frames.push(Frame {
        kind: FrameKind::Message,
        flags: 0xc0,
        length: 37,
        term_offset: i32::try_from(offset).unwrap_or(0),
        session_id: 7,
        stream_id,
        term_id: i32::try_from(term).unwrap_or(0).wrapping_add(42),
        reserved: 0,
        payload: Items::from_vec(b"hello".to_vec(alloc)?),
    })?;
    Ok(Block { position, frames })
}

/// The refusal of a session's block from such a position on, or 0.
fn written(
    alloc: Global,
    desk: &Desk,
    number: i64,
    first: i64,
    stream_id: i32,
) -> Result<u8, AllocError> {
    let block = block_at(alloc, first, stream_id)?;
    Ok(number_of(&decide_write(desk, &number, &block)))
}

/// The refusal of a call by its kind, or 0. Replay 0 and session 0 are of recording 0, which is active and empty.
fn called(alloc: Global, desk: &Desk, kind: u8, number: i64, other: i64) -> Result<u8, AllocError> {
    let refusal = match kind {
        0 => number_of(&decide_settle(desk, &number)),
        1 => told_at(desk, number, other),
        2 => number_of(&decide_poll(desk, &number, &other, &None)),
        3 => number_of(&decide_close(desk, &number)),
        4 => number_of(&decide_sweep(desk)),
        5 => number_of(&decide_verify(desk, &number)),
        7 => number_of(&read_terms(desk, &number)),
        8 => written(alloc, desk, number, other, 1_002)?,
        9 => number_of(&decide_poll(desk, &number, &1, &Some(other))),
        _ => written(alloc, desk, number, other, 1_001)?,
    };
    Ok(refusal)
}

// Whether a write failed, the kind, the session, replay or recording, and another number. In each row that is refused the
// next rule is broken, too; those of written blocks and of 64 open replays have tests of their own. A session that is not
// there wrote nothing, so a full history does not refuse to settle it. Kind 8 writes a block of another stream, kind 9 polls
// with a limit.
const CALLS: [(bool, u8, i64, i64, u8); 28] = [
    (true, 0, 9, 0, 16),
    (false, 0, 9, 0, 12),
    (false, 0, 0, 0, 0),
    (true, 1, 9, -2, 10),
    (true, 1, 9, 64, 1),
    (true, 1, 0, 64, 5),
    (true, 1, 0, 0, 0),
    (true, 2, 9, 0, 10),
    (true, 2, 9, 4_097, 10),
    (true, 2, 9, 4_096, 9),
    (true, 2, 0, 1, 0),
    (true, 9, 9, -1, 10),
    (true, 9, 9, 0, 9),
    (true, 9, 0, 0, 0),
    (true, 3, 9, 0, 9),
    (true, 3, 0, 0, 0),
    (true, 4, 0, 0, 16),
    (false, 4, 0, 0, 0),
    (true, 5, 9, 0, 1),
    (true, 5, 0, 0, 0),
    (true, 6, 9, 64, 16),
    (false, 6, 9, 64, 12),
    (false, 6, 0, 64, 13),
    (true, 8, 0, 0, 16),
    (false, 8, 9, 0, 12),
    (false, 8, 0, 0, 13),
    (true, 7, 9, 0, 16),
    (false, 7, 9, 0, 12),
];

fn with_replay(alloc: Global, is_broken: bool) -> Result<Desk, Refusal> {
    let mut desk = recording(alloc, 1, 2)?;
    let opened = open(&mut desk, 0);
    if is_broken {
        desk.break_down();
    }
    opened.and(Ok(desk))
}

fn called_with_replay(
    alloc: Global,
    is_broken: bool,
    kind: u8,
    number: i64,
    other: i64,
) -> Result<u8, Refusal> {
    let desk = with_replay(alloc, is_broken)?;
    let called = called(alloc, &desk, kind, number, other);
    drop(desk);
    Ok(called?)
}

/// Each call that is no request is refused by the first of its checks that fails.
#[test]
fn calls_are_refused_in_their_order(rt: HostRuntime) -> Result<(), Fail> {
    for (is_broken, kind, number, other, refusal) in CALLS {
        let called = called_with_replay(rt.alloc(), is_broken, kind, number, other)?;
        assert!(rt; called == refusal);
    }
    Ok(())
}

/// The terms by which the bytes of session 0 are read.
fn terms(desk: &Desk) -> Result<Geometry, Refusal> {
    read_terms(desk, &0)
}

fn terms_of_one(alloc: Global) -> Result<Geometry, Refusal> {
    let desk = recording(alloc, 1, 1)?;
    let terms = terms(&desk);
    drop(desk);
    terms
}

/// A session's bytes are read with the term length, MTU and initial term id of its recording.
#[test]
fn bytes_are_read_by_the_terms_of_the_recording(rt: HostRuntime) -> Result<(), Fail> {
    let terms = Geometry {
        initial_term_id: 42,
        term_length: 65_536,
        mtu: 1_408,
    };
    let found = terms_of_one(rt.alloc())?;
    assert!(rt; found == terms);
    Ok(())
}

/// Session 0 wrote a block from 0 on, of a recording of which nothing is recorded.
pub fn note(desk: &mut Desk, last: i64) -> Result<(), Refusal> {
    let found = desk.session(&0).ok_or(Refusal::StaleSession)?.found;
    let Some(known) = desk.recording(&found.session.recording) else {
        return Err(Refusal::UnknownRecording);
    };
    if known.recorded != 0 || last <= 0 || last > 131_072 || last % 32 != 0 {
        return Err(Refusal::BadPosition);
    }
    let None = found.session.written else {
        return Err(Refusal::NeedSettle);
    };
    desk.note_written(&0, found.index, &Written { first: 0, last });
    Ok(())
}

fn with_blocks(alloc: Global, last: i64) -> Result<Desk, Refusal> {
    let mut desk = recording(alloc, 1, 1)?;
    note(&mut desk, last).and(Ok(desk))
}

// Where the written blocks end, the kind of `called`, a position: the history is full. A segment has 131,072 bytes.
const WRITTEN: [(i64, u8, i64, u8); 5] = [
    (64, 6, 0, 13),
    (64, 6, 64, 0),
    (131_072, 6, 64, 13),
    (131_072, 6, 131_072, 14),
    (64, 0, 0, 11),
];

fn called_with_blocks(alloc: Global, last: i64, kind: u8, position: i64) -> Result<u8, Refusal> {
    let desk = with_blocks(alloc, last)?;
    let called = called(alloc, &desk, kind, 0, position);
    drop(desk);
    Ok(called?)
}

/// A block follows where the last one ends, and one in the next segment needs a settle first.
#[test]
fn written_blocks_are_settled_before_the_next_segment(rt: HostRuntime) -> Result<(), Fail> {
    for (last, kind, position, refusal) in WRITTEN {
        let called = called_with_blocks(rt.alloc(), last, kind, position)?;
        assert!(rt; called == refusal);
    }
    Ok(())
}

/// What session 0 wrote is settled: recording 0 is recorded to where its second segment begins.
fn record_a_segment(desk: &mut Desk) -> Result<(), Refusal> {
    note(desk, 131_072)?;
    let written = desk.session(&0).ok_or(Refusal::StaleSession)?.found;
    if !desk.has_room() {
        return Err(Refusal::HistoryFull);
    }
    desk.settle(&0, &written);
    Ok(())
}

// The state of `kept`, the kind of `asked`, a position: the history is full.
const KEPT: [(u8, u8, i64, u8); 8] = [
    (1, 1, 0, 4),
    (1, 3, 0, 4),
    (1, 1, 64, 5),
    (1, 2, 64, 5),
    (0, 1, 64, 2),
    (0, 3, 0, 2),
    (2, 2, 131_072, 4),
    (3, 2, 131_072, 11),
];

fn prepare_recording(alloc: Global, desk: &mut Desk, state: u8) -> Result<(), Refusal> {
    match state {
        0 => Ok(()),
        1 => make_asked(alloc, desk, 0, 0, 5),
        _ => record_a_segment(desk),
    }
}

fn prepare(alloc: Global, desk: &mut Desk, state: u8) -> Result<(), Refusal> {
    prepare_recording(alloc, desk, state)?;
    if state == 3 { Ok(()) } else { open(desk, 0) }
}

/// 0: active, 1: stopped, 2 and 3: recorded to where its second segment begins. A replay from 0 on is open, but in 3.
fn kept(alloc: Global, state: u8) -> Result<Desk, Refusal> {
    let mut desk = recording(alloc, 1, if state == 0 { 1 } else { 2 })?;
    prepare(alloc, &mut desk, state).and(Ok(desk))
}

fn told_where_kept(alloc: Global, state: u8, kind: u8, position: i64) -> Result<u8, Refusal> {
    let desk = kept(alloc, state)?;
    let told = told_of(alloc, &desk, kind, 0, position);
    drop(desk);
    Ok(told)
}

/// In each row the next rule is broken, too.
#[test]
fn a_replay_keeps_its_recording(rt: HostRuntime) -> Result<(), Fail> {
    for (state, kind, position, refusal) in KEPT {
        let told = told_where_kept(rt.alloc(), state, kind, position)?;
        assert!(rt; told == refusal);
    }
    Ok(())
}

fn record_and_stop(alloc: Global, desk: &mut Desk) -> Result<(), Refusal> {
    record_a_segment(desk)?;
    make_asked(alloc, desk, 0, 0, 5)
}

/// Recording 0 is recorded to where its second segment begins, and stopped; there is room for an entry.
fn stopped_behind_a_segment(alloc: Global) -> Result<Desk, Refusal> {
    let mut desk = recording(alloc, 1, 4)?;
    record_and_stop(alloc, &mut desk).and(Ok(desk))
}

/// What a truncation of recording 0 is told by the desk alone.
fn truncated(alloc: Global, desk: &Desk, position: i64) -> &'static str {
    let request = Request::Truncate {
        recording: 0,
        position,
    };
    match decided(alloc, desk, &request) {
        Decision::Refused(Refusal::BadPosition) => "BadPosition",
        Decision::IfBoundary { .. } => "as the frames say",
        Decision::Accepted(_) => "accepted",
        _ => "another",
    }
}

const TRUNCATED: [(i64, &'static str); 10] = [
    (-32, "BadPosition"),
    (0, "accepted"),
    (63, "BadPosition"),
    (64, "as the frames say"),
    (65, "BadPosition"),
    (96, "as the frames say"),
    (97, "BadPosition"),
    (131_071, "BadPosition"),
    (131_072, "accepted"),
    (131_104, "BadPosition"),
];

/// The first position whose truncation is decided otherwise.
fn other_truncation(alloc: Global, desk: &Desk) -> Option<i64> {
    for (position, decided) in TRUNCATED {
        if truncated(alloc, desk, position) != decided {
            return Some(position);
        }
    }
    None
}

/// The desk accepts a truncation to a segment's base, asks the frames at other multiples of 32 in the recording, and
/// refuses all else.
#[test]
fn frames_are_asked_at_multiples_of_32_alone(rt: HostRuntime) -> Result<(), Fail> {
    let desk = stopped_behind_a_segment(rt.alloc())?;
    let wrong = other_truncation(rt.alloc(), &desk);
    drop(desk);
    assert!(rt; wrong.is_none(), "{wrong:?}");
    Ok(())
}

fn open_many(desk: &mut Desk, count: u8) -> Result<(), Refusal> {
    for _ in 0..count {
        open(desk, 0)?;
    }
    Ok(())
}

fn many_replays(alloc: Global) -> Result<Desk, Refusal> {
    let mut desk = recording(alloc, 1, 1)?;
    open_many(&mut desk, 64).and(Ok(desk))
}

/// A recording, a position, and what the opening of one more is told. Of a recording that is not there no position is bad.
const OPENED: [(i64, i64, u8); 3] = [(9, 0, 1), (0, 64, 5), (0, 0, 8)];

/// What the opening of a replay is told.
fn told_at(desk: &Desk, recording: i64, position: i64) -> u8 {
    opened(&decide_open(desk, &recording, &position, &-1))
}

/// Whether each opening of one more is refused so.
fn are_refused(desk: &Desk) -> bool {
    for (recording, position, refusal) in OPENED {
        if told_at(desk, recording, position) != refusal {
            return false;
        }
    }
    true
}

/// With 64 replays open a further one is refused, unless its recording or position is refused first.
#[test]
fn at_most_64_replays_are_open(rt: HostRuntime) -> Result<(), Fail> {
    let desk = many_replays(rt.alloc())?;
    let are_refused = are_refused(&desk);
    drop(desk);
    assert!(rt; are_refused);
    Ok(())
}

/// What a start whose terms are bad is told, and what one is whose terms are good.
fn starts(alloc: Global, desk: &Desk) -> Result<(u8, u8), Refusal> {
    let bad = told_by_line(alloc, desk, BAD_START)?;
    let good = told_by_line(alloc, desk, START)?;
    Ok((bad, good))
}

/// Both before a write fails, and both then.
fn starts_around_a_fault(alloc: Global, desk: &mut Desk) -> Result<[(u8, u8); 2], Refusal> {
    let refused = starts(alloc, desk)?;
    desk.break_down();
    let broken = starts(alloc, desk)?;
    Ok([refused, broken])
}

fn starts_beside_64(alloc: Global) -> Result<[(u8, u8); 2], Refusal> {
    let mut desk = recording(alloc, 64, 64)?;
    let told = starts_around_a_fault(alloc, &mut desk);
    drop(desk);
    told
}

/// The history is full, too; then a write fails.
#[test]
fn at_most_64_recordings_are_active(rt: HostRuntime) -> Result<(), Fail> {
    let told = starts_beside_64(rt.alloc())?;
    assert!(rt; told == [(10, 7), (16, 16)]);
    Ok(())
}

/// The id that is found, or the refusal's number below -1.
fn found(decision: &Decision) -> i64 {
    match decision {
        Decision::Answered(Reply::Found { recording }) => *recording,
        Decision::Refused(refusal) => -1 - i64::from(refusal.number()),
        _ => -1_000,
    }
}

fn sought(
    alloc: Global,
    least: i64,
    session_id: i32,
    fragment: &'static str,
) -> Result<Request, Refusal> {
    Ok(Request::Find(FindFields {
        least,
        stream_id: 1_001,
        session_id,
        fragment: Channel::new(String::from_str(alloc, fragment)?),
    }))
}

const SOUGHT: [(i64, i32, &'static str, i64); 7] = [
    (0, 7, "c", 1),
    (1, 7, "c", 1),
    (2, 7, "c", -1),
    (0, 8, "c", -1),
    (0, 7, "d", -1),
    (-1, 7, "c", -11),
    (0, 7, "", -11),
];

/// What is found by a desk.
fn found_on(alloc: Global, desk: &Desk, request: &Request) -> i64 {
    found(&decided(alloc, desk, request))
}

/// The same of these.
fn found_by(
    alloc: Global,
    desk: &Desk,
    least: i64,
    session_id: i32,
    fragment: &'static str,
) -> Result<i64, Refusal> {
    let request = sought(alloc, least, session_id, fragment)?;
    Ok(found_on(alloc, desk, &request))
}

/// What is found of two recordings.
fn found_of_two(
    alloc: Global,
    least: i64,
    session_id: i32,
    fragment: &'static str,
) -> Result<i64, Refusal> {
    let desk = recording(alloc, 2, 2)?;
    let found = found_by(alloc, &desk, least, session_id, fragment);
    drop(desk);
    found
}

/// `find` returns the highest id at or above its least whose stream, session and channel match, or -1.
#[test]
fn the_greatest_id_is_found(rt: HostRuntime) -> Result<(), Fail> {
    for (least, session_id, fragment, id) in SOUGHT {
        let found = found_of_two(rt.alloc(), least, session_id, fragment)?;
        assert!(rt; found == id);
    }
    Ok(())
}
