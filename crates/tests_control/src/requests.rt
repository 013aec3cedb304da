//! Decisions of a desk without recordings: docs/CONTROL.md, "Requests", by example.

use crate::desks::decided;
use archive_model::{Channel, Command, Reply};
use control_core::{Decision, Desk, Event, FindFields, Request};
use control_lines::{Line, parse_line};
use frame_core::Refusal;
use std::alloc::Global;
use std::test::*;

pub(crate) const START: &str = "start 1001 7 42 65536 1408 131072 0 1000 c";

/// The same with a term length that is none.
pub(crate) const BAD_START: &str = "start 1001 7 42 65535 1408 131072 0 1000 c";

/// The request of that line.
pub(crate) fn start(alloc: Global) -> Result<Request, Refusal> {
    request_of(alloc, START.as_bytes())
}

/// The request that a line asks for.
pub(crate) fn request_of(alloc: Global, line: &[u8]) -> Result<Request, Refusal> {
    match parse_line(alloc, line) {
        Ok(Line::Event(Event::Ask(request))) => Ok(request),
        Ok(_) => Err(Refusal::BadLine),
        Err(refusal) => Err(refusal),
    }
}

/// What a decision is, as far as the tests here ask.
fn named(decision: &Decision) -> &'static str {
    match decision {
        Decision::Accepted(Command::Start(_)) => "a start",
        Decision::Accepted(_) => "another command",
        Decision::Answered(Reply::Recordings(_)) => "recordings",
        Decision::Answered(Reply::Found { recording: -1 }) => "nothing found",
        Decision::Refused(Refusal::HistoryFull) => "HistoryFull",
        Decision::Refused(Refusal::NoMemory) => "NoMemory",
        _ => "another",
    }
}

/// What a desk decides on a request, by its name.
fn named_by(alloc: Global, desk: &Desk, request: &Request) -> &'static str {
    named(&decided(alloc, desk, request))
}

/// What is decided on a request where so many entries may be made.
fn decided_at(alloc: Global, limit: u32, request: &Request) -> &'static str {
    let desk = Desk::new(alloc, limit);
    let named = named_by(alloc, &desk, request);
    drop(desk);
    named
}

/// The same of the request of one line.
fn start_decided(alloc: Global, limit: u32) -> Result<&'static str, Refusal> {
    let request = start(alloc)?;
    Ok(decided_at(alloc, limit, &request))
}

/// An archive without recordings accepts a start.
#[test]
fn a_start_is_accepted(rt: HostRuntime) -> Result<(), Fail> {
    let decided = start_decided(rt.alloc(), 1)?;
    assert!(rt; decided == "a start");
    Ok(())
}

/// An archive without recordings lists none, and does not refuse.
#[test]
fn nothing_is_listed(rt: HostRuntime) {
    let decided = decided_at(rt.alloc(), 1, &Request::List { from: 0, count: 10 });
    assert!(rt; decided == "recordings");
}

fn sought(alloc: Global) -> Result<Request, Fail> {
    Ok(Request::Find(FindFields {
        least: 0,
        stream_id: 1_001,
        session_id: 7,
        fragment: Channel::new(String::from_str(alloc, "c")?),
    }))
}

/// An archive without recordings answers a `find` by -1.
#[test]
fn nothing_is_found(rt: HostRuntime) -> Result<(), Fail> {
    let decided = decided_at(rt.alloc(), 1, &sought(rt.alloc())?);
    assert!(rt; decided == "nothing found");
    Ok(())
}

/// No entry may be made.
#[test]
fn a_full_history_refuses_a_start(rt: HostRuntime) -> Result<(), Fail> {
    let decided = start_decided(rt.alloc(), 0)?;
    assert!(rt; decided == "HistoryFull");
    Ok(())
}

/// Asked for again, where a request for memory was refused.
fn is_accepted(alloc: Global, desk: &Desk, request: &Request) -> bool {
    match named_by(alloc, desk, request) {
        "NoMemory" => named_by(alloc, desk, request) == "a start",
        named => named == "a start",
    }
}

fn started(alloc: Global) -> Result<Request, Refusal> {
    match start(alloc) {
        Err(Refusal::NoMemory) => start(alloc),
        request => request,
    }
}

/// A refused request for memory is answered NoMemory, and the decision may be asked for again.
#[test]
fn refused_memory_at_a_decision(rt: HostRuntime) -> Result<(), Fail> {
    let request = started(rt.alloc())?;
    let desk = Desk::new(rt.alloc(), 1);
    let is_accepted = is_accepted(rt.alloc(), &desk, &request);
    drop(desk);
    drop(request);
    assert!(rt; is_accepted);
    Ok(())
}
