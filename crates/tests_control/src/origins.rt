//! What a desk decides by a recording's channel and source, and by the version of its catalogue's bank: docs/CONTROL.md,
//! "Limits" and "Refusals", by example.

use crate::desks::{begin, decided, make, make_asked, told_by, told_by_line};
use crate::requests::{BAD_START, START, request_of};
use archive_model::{BankVersion, Channel, Register, Reply, SourceIdentity, StartFields};
use control_core::{Decision, Desk, Request};
use frame_core::Refusal;
use std::alloc::Global;
use std::test::*;

/// A start whose channel and source are these.
fn start_with(channel: String, source: String) -> Request {
    Request::Start(StartFields {
        stream_id: 1_001,
        session_id: 7,
        initial_term_id: 42,
        term_length: 65_536,
        mtu: 1_408,
        segment_length: 131_072,
        start_position: 0,
        timestamp: 1_000,
        channel: Channel::new(channel),
        source_identity: SourceIdentity::new(source),
    })
}

/// What a start is told by an archive without recordings whose catalogue's bank has this version.
fn started_in(alloc: Global, version: BankVersion, start: &Request) -> u8 {
    let desk = Desk::opened(alloc, Register::new(alloc), 0, 1, version);
    let told = told_by(alloc, &desk, start);
    drop(desk);
    told
}

// The bank's version, how many bytes the channel and the source have, and what a start is told. In each row that is
// refused with 10 the bank could not hold the recording, either.
const LENGTHS: [(BankVersion, usize, usize, u8); 14] = [
    (BankVersion::One, 0, 1, 10),
    (BankVersion::One, 1, 0, 0),
    (BankVersion::One, 512, 0, 0),
    (BankVersion::One, 513, 0, 23),
    (BankVersion::One, 1_024, 0, 23),
    (BankVersion::One, 1_025, 0, 10),
    (BankVersion::One, 1, 1, 23),
    (BankVersion::One, 512, 128, 23),
    (BankVersion::One, 1, 129, 10),
    (BankVersion::Two, 0, 0, 10),
    (BankVersion::Two, 513, 1, 0),
    (BankVersion::Two, 1_024, 128, 0),
    (BankVersion::Two, 1_025, 0, 10),
    (BankVersion::Two, 1, 129, 10),
];

fn started_of(
    alloc: Global,
    version: BankVersion,
    channel: usize,
    source: usize,
) -> Result<u8, Refusal> {
    let start = start_with("c".repeat(alloc, channel)?, "s".repeat(alloc, source)?);
    Ok(started_in(alloc, version, &start))
}

/// A start is refused for a channel or a source that is too long, and as NeedCompact where only version 1 can't hold it.
#[test]
fn channels_and_sources_have_limits(rt: HostRuntime) -> Result<(), Fail> {
    for (version, channel, source, refusal) in LENGTHS {
        let told = started_of(rt.alloc(), version, channel, source)?;
        assert!(rt; told == refusal, "{channel} {source}");
    }
    Ok(())
}

/// A source, and what a start is told. The no-break space, U+00A0, is no blank.
const SOURCES: [(&'static str, u8); 10] = [
    ("", 0),
    ("127.0.0.1:40123", 0),
    ("\u{e9}", 0),
    ("a\u{a0}b", 0),
    (" ", 10),
    ("a b", 10),
    ("a\tb", 10),
    ("a\n", 10),
    ("\u{7f}", 10),
    ("a\u{85}", 10),
];

fn started_from(alloc: Global, source: &'static str) -> Result<u8, Refusal> {
    let start = start_with(
        String::from_str(alloc, "c")?,
        String::from_str(alloc, source)?,
    );
    Ok(started_in(alloc, BankVersion::Two, &start))
}

/// A source with a blank or a control character is refused.
#[test]
fn sources_have_no_blanks(rt: HostRuntime) -> Result<(), Fail> {
    for (source, refusal) in SOURCES {
        let told = started_from(rt.alloc(), source)?;
        assert!(rt; told == refusal, "{source:?}");
    }
    Ok(())
}

const START_FROM: &str = "start-from s 1001 7 42 65536 1408 131072 0 1000 c";

const BAD_START_FROM: &str = "start-from s 1001 7 42 65537 1408 131072 0 1000 c";

// Whether a write failed, how many recordings are active, how many entries of the history may count, a line, and what it is
// told where the catalogue's bank has version 1. In each row that is refused a later rule is broken, too, but where the
// history alone is full.
const ORDER: [(bool, u8, u32, &'static str, u8); 11] = [
    (true, 64, 64, BAD_START_FROM, 16),
    (true, 0, 1, START_FROM, 16),
    (false, 64, 64, BAD_START_FROM, 10),
    (false, 0, 1, BAD_START_FROM, 10),
    (false, 64, 65, START_FROM, 7),
    (false, 64, 64, START_FROM, 7),
    (false, 0, 0, START_FROM, 23),
    (false, 1, 1, START_FROM, 23),
    (false, 1, 1, BAD_START, 10),
    (false, 1, 1, START, 11),
    (false, 1, 2, START, 0),
];

/// An archive of so many active recordings, whose catalogue's bank has version 1.
fn version_one(alloc: Global, count: u8, limit: u32) -> Result<Desk, Refusal> {
    let mut desk = Desk::opened(alloc, Register::new(alloc), 0, limit, BankVersion::One);
    begin(alloc, &mut desk, count).and(Ok(desk))
}

fn told_in_order(
    alloc: Global,
    is_broken: bool,
    count: u8,
    limit: u32,
    line: &str,
) -> Result<u8, Refusal> {
    let mut desk = version_one(alloc, count, limit)?;
    if is_broken {
        desk.break_down();
    }
    let told = told_by_line(alloc, &desk, line);
    drop(desk);
    told
}

/// Over a catalogue of version 1 a start is refused by the first of: broken, parameters, 64 active recordings, need of a
/// compaction, full history.
#[test]
fn a_start_is_refused_in_order(rt: HostRuntime) -> Result<(), Fail> {
    for (is_broken, count, limit, line, refusal) in ORDER {
        let told = told_in_order(rt.alloc(), is_broken, count, limit, line)?;
        assert!(rt; told == refusal, "{count} {limit} {line}");
    }
    Ok(())
}

/// Recording 0 has the source `s`, and recording 1 none.
fn with_sources(alloc: Global) -> Result<Desk, Refusal> {
    let mut desk = Desk::new(alloc, 4);
    begin_with_sources(alloc, &mut desk).and(Ok(desk))
}

fn begin_with_sources(alloc: Global, desk: &mut Desk) -> Result<(), Refusal> {
    begin_line(alloc, desk, START_FROM)?;
    begin_line(alloc, desk, START)
}

fn begin_line(alloc: Global, desk: &mut Desk, line: &str) -> Result<(), Refusal> {
    let request = request_of(alloc, line.as_bytes())?;
    make(alloc, desk, &request)
}

/// Recording 0 is stopped, and then extended.
fn extend_first(alloc: Global, desk: &mut Desk) -> Result<(), Refusal> {
    make_asked(alloc, desk, 0, 0, 5)?;
    make_asked(alloc, desk, 6, 0, 0)
}

fn with_sources_extended(alloc: Global) -> Result<Desk, Refusal> {
    let mut desk = with_sources(alloc)?;
    extend_first(alloc, &mut desk).and(Ok(desk))
}

/// Whether a decision tells this source.
fn is_source(decision: &Decision, text: &str) -> bool {
    match decision {
        Decision::Answered(Reply::Source(source)) => source.as_str() == text,
        _ => false,
    }
}

fn tells(alloc: Global, desk: &Desk, recording: i64, text: &str) -> bool {
    is_source(&decided(alloc, desk, &Request::Source { recording }), text)
}

fn refused(alloc: Global, desk: &Desk, recording: i64) -> u8 {
    told_by(alloc, desk, &Request::Source { recording })
}

/// Whether each recording's source is told, and each id's that is none refused.
fn sources_told(alloc: Global, desk: &Desk) -> [bool; 4] {
    [
        tells(alloc, desk, 0, "s"),
        tells(alloc, desk, 1, ""),
        refused(alloc, desk, 2) == 1,
        refused(alloc, desk, -1) == 1,
    ]
}

/// The same after an extension, and where a write failed.
fn sources_of_two(alloc: Global) -> Result<[bool; 4], Refusal> {
    let mut desk = with_sources_extended(alloc)?;
    desk.break_down();
    let told = sources_told(alloc, &desk);
    drop(desk);
    Ok(told)
}

/// A recording keeps its source over an extension, and it is answered even by a broken archive.
#[test]
fn a_recording_keeps_its_source(rt: HostRuntime) -> Result<(), Fail> {
    let told = sources_of_two(rt.alloc())?;
    assert!(rt; told == [true; 4]);
    Ok(())
}

fn made_again(alloc: Global) -> Result<Desk, Refusal> {
    match with_sources(alloc) {
        Err(Refusal::NoMemory) => with_sources(alloc),
        desk => desk,
    }
}

/// Asked for again, where a request for memory was refused.
fn tells_again(alloc: Global, desk: &Desk) -> bool {
    match decided(alloc, desk, &Request::Source { recording: 0 }) {
        Decision::Refused(Refusal::NoMemory) => tells(alloc, desk, 0, "s"),
        decision => is_source(&decision, "s"),
    }
}

/// A refused request for memory is answered NoMemory, and the source may be asked for again.
#[test]
fn refused_memory_at_a_source(rt: HostRuntime) -> Result<(), Fail> {
    let desk = made_again(rt.alloc())?;
    let tells = tells_again(rt.alloc(), &desk);
    drop(desk);
    assert!(rt; tells);
    Ok(())
}
