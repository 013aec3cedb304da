//! What a desk refuses, and in which order: docs/CONTROL.md, "Refusals", by example.

use crate::requests::{request_of, start};
use archive_model::ExtendFields;
use control_core::{Decision, Desk, Request, decide, laws};
use frame_core::Refusal;
use std::alloc::Global;
use std::test::*;

/// A request by its kind and two numbers.
fn asked(kind: u8, recording: i64, number: i64) -> Request {
    match kind {
        0 => Request::Stop {
            recording,
            timestamp: number,
        },
        1 => Request::Truncate {
            recording,
            position: number,
        },
        2 => Request::PurgeSegments {
            recording,
            position: number,
        },
        3 => Request::PurgeRecording { recording },
        4 => Request::Positions { recording },
        5 => Request::List {
            from: recording,
            count: number,
        },
        _ => Request::Extend(ExtendFields {
            recording,
            stream_id: 1_001,
            session_id: 8,
            initial_term_id: 42,
            term_length: 65_536,
            mtu: 1_408,
            join_position: number,
        }),
    }
}

/// Makes an accepted request.
pub(crate) fn make(alloc: Global, desk: &mut Desk, request: &Request) -> Result<(), Refusal> {
    laws::what_is_decided_is_allowed();
    let command = match decide(alloc, desk, request) {
        Decision::Accepted(command) => command,
        Decision::Refused(refusal) => return Err(refusal),
        _ => return Err(Refusal::BadLine),
    };
    desk.reserve(&command)?;
    desk.accept(command);
    Ok(())
}

/// The same of a request by its kind and two numbers.
pub(crate) fn make_asked(
    alloc: Global,
    desk: &mut Desk,
    kind: u8,
    recording: i64,
    number: i64,
) -> Result<(), Refusal> {
    make(alloc, desk, &asked(kind, recording, number))
}

/// What is decided on a request.
pub(crate) fn decided<'a>(alloc: Global, desk: &'a Desk, request: &Request) -> Decision<'a> {
    decide(alloc, desk, request)
}

/// What a request is told.
pub(crate) fn told_by(alloc: Global, desk: &Desk, request: &Request) -> u8 {
    told(&decided(alloc, desk, request))
}

/// The same of a request by its kind and two numbers.
pub(crate) fn told_of(alloc: Global, desk: &Desk, kind: u8, recording: i64, number: i64) -> u8 {
    told_by(alloc, desk, &asked(kind, recording, number))
}

/// The same of a line that asks for a start.
pub(crate) fn told_by_line(alloc: Global, desk: &Desk, line: &str) -> Result<u8, Refusal> {
    let request = request_of(alloc, line.as_bytes())?;
    Ok(told_by(alloc, desk, &request))
}

/// Makes a request so many times.
fn make_times(alloc: Global, desk: &mut Desk, request: &Request, count: u8) -> Result<(), Refusal> {
    for _ in 0..count {
        make(alloc, desk, request)?;
    }
    Ok(())
}

/// Begins so many more recordings.
pub(crate) fn begin(alloc: Global, desk: &mut Desk, count: u8) -> Result<(), Refusal> {
    let request = start(alloc)?;
    make_times(alloc, desk, &request, count)
}

/// Begins two recordings, stops the second, and begins so many more.
fn begin_two(alloc: Global, desk: &mut Desk, more: u8) -> Result<(), Refusal> {
    begin(alloc, desk, 2)?;
    make_asked(alloc, desk, 0, 1, 5)?;
    begin(alloc, desk, more)
}

/// Recording 0 is active, recording 1 is stopped where it began, and so many more are active; three more entries count.
fn two_recordings(alloc: Global, more: u8, limit: u32) -> Result<Desk, Refusal> {
    let mut desk = Desk::new(alloc, limit);
    begin_two(alloc, &mut desk, more).and(Ok(desk))
}

/// 0: there is room; 1: there is none; 2: none, and a write failed; 3: none, and 64 recordings are active.
fn desk_of(alloc: Global, state: u8) -> Result<Desk, Refusal> {
    let (more, limit) = match state {
        0 => (0, 4),
        3 => (63, 66),
        _ => (0, 3),
    };
    let mut desk = two_recordings(alloc, more, limit)?;
    if state == 2 {
        desk.break_down();
    }
    Ok(desk)
}

/// The number of a refusal, or 0.
fn told(decision: &Decision) -> u8 {
    match decision {
        Decision::Refused(refusal) => refusal.number(),
        _ => 0,
    }
}

// In each row that is refused two rules are broken at once, where the request has a later one. Of a recording that is not
// there none is but those of the recordings and the history.
const ROWS: [(u8, u8, i64, i64, u8); 31] = [
    (2, 0, 9, -1, 16),
    (1, 0, 9, -1, 10),
    (1, 0, 9, 5, 1),
    (1, 0, 1, 5, 3),
    (1, 0, 0, 5, 11),
    (0, 0, 0, 5, 0),
    (2, 6, 9, 0, 16),
    (1, 6, 9, 0, 1),
    (3, 6, 99, 0, 1),
    (1, 6, 0, 64, 2),
    (1, 6, 1, 64, 6),
    (3, 6, 1, 64, 6),
    (3, 6, 1, 0, 7),
    (1, 6, 1, 0, 11),
    (0, 6, 1, 0, 0),
    (2, 1, 9, 0, 16),
    (1, 1, 9, 0, 1),
    (1, 1, 0, 64, 2),
    (1, 1, 1, 64, 5),
    (1, 1, 1, 0, 11),
    (0, 1, 1, 0, 0),
    (2, 2, 9, 0, 16),
    (1, 2, 9, 0, 1),
    (1, 2, 0, 0, 5),
    (2, 3, 9, 0, 16),
    (1, 3, 9, 0, 1),
    (1, 3, 0, 0, 2),
    (1, 3, 1, 0, 11),
    (0, 3, 1, 0, 0),
    (2, 4, 9, 0, 1),
    (2, 5, -1, 1_025, 10),
];

/// What a request is told by a desk of such a state.
fn told_in(alloc: Global, state: u8, kind: u8, recording: i64, number: i64) -> Result<u8, Refusal> {
    let desk = desk_of(alloc, state)?;
    let told = told_of(alloc, &desk, kind, recording, number);
    drop(desk);
    Ok(told)
}

/// A request with several faults is refused by the first of its checks.
#[test]
fn refusals_come_in_their_order(rt: HostRuntime) -> Result<(), Fail> {
    for (state, kind, recording, number, refusal) in ROWS {
        let told = told_in(rt.alloc(), state, kind, recording, number)?;
        assert!(rt; told == refusal);
    }
    Ok(())
}
