//! Control lines read, and replies and refusals printed: docs/CONTROL.md, "Lines" and "Refusals", by example.

use archive_model::{Channel, Descriptor, PolledFrame, Reply, SourceIdentity, StartFields};
use control_core::{Event, FindFields, Request};
use control_lines::{Line, parse_line, print_refusal, print_reply};
use frame_core::{Frame, FrameKind, Items, Refusal};
use std::alloc::Global;
use std::test::*;

const START_LINE: &[u8] =
    b"start 1001 7 42 65536 1408 131072 0 1000 aeron:udp?endpoint=localhost:40123";

const START_FROM_LINE: &[u8] =
    b"start-from 127.0.0.1:40123 1001 7 42 65536 1408 131072 0 1000 aeron:udp?endpoint=localhost:40123";

fn has_terms(fields: &StartFields) -> bool {
    fields.initial_term_id == 42 && fields.term_length == 65_536 && fields.mtu == 1_408
}

fn has_numbers(fields: &StartFields) -> bool {
    fields.segment_length == 131_072 && fields.start_position == 0 && fields.timestamp == 1_000
}

fn has_stream(fields: &StartFields) -> bool {
    fields.stream_id == 1_001 && fields.session_id == 7
}

fn has_channel(fields: &StartFields) -> bool {
    fields.channel.as_str() == "aeron:udp?endpoint=localhost:40123"
}

/// Which fields of a line that starts a recording are as told: of the stream, terms, numbers, and the channel.
fn started(line: &Line) -> Option<[bool; 4]> {
    match line {
        Line::Event(Event::Ask(Request::Start(fields))) => Some([
            has_stream(fields),
            has_terms(fields),
            has_numbers(fields),
            has_channel(fields),
        ]),
        _ => None,
    }
}

fn source_of(line: &Line) -> Option<&str> {
    match line {
        Line::Event(Event::Ask(Request::Start(fields))) => Some(fields.source_identity.as_str()),
        _ => None,
    }
}

/// Whether a line starts the recording that is told, of a stream from this source.
fn starts_from(alloc: Global, line: &[u8], source: &str) -> bool {
    match parse_line(alloc, line) {
        Ok(line) => started(&line) == Some([true; 4]) && source_of(&line) == Some(source),
        Err(_) => false,
    }
}

/// The `start` line of docs/CONTROL.md is read, field by field.
#[test]
fn a_line_that_starts_a_recording(rt: HostRuntime) {
    assert!(rt; starts_from(rt.alloc(), START_LINE, ""));
}

/// A source of bytes beyond ASCII, with a no-break space, which is no blank.
const WIDE_SOURCE_LINE: &str =
    "start-from \u{e9}\u{a0}1 1001 7 42 65536 1408 131072 0 1000 aeron:udp?endpoint=localhost:40123";

/// A line that starts a recording, and the source that it names.
#[test]
fn lines_that_name_a_source(rt: HostRuntime) {
    for (line, source) in [
        (START_LINE, ""),
        (START_FROM_LINE, "127.0.0.1:40123"),
        (WIDE_SOURCE_LINE.as_bytes(), "\u{e9}\u{a0}1"),
    ] {
        assert!(rt; starts_from(rt.alloc(), line, source), "{source}");
    }
}

/// A line, and what it asks the archive for.
const ASKED: [(&'static str, &'static str); 16] = [
    ("list 0 -1", "Event(Ask(List { from: 0, count: -1 }))"),
    (
        "extend 1 1001 7 42 65536 1408 128",
        "Event(Ask(Extend(ExtendFields { recording: 1, stream_id: 1001, session_id: 7, \
         initial_term_id: 42, term_length: 65536, mtu: 1408, join_position: 128 })))",
    ),
    ("settle 3", "Event(Settle { session: 3 })"),
    (
        "stop 1 2000",
        "Event(Ask(Stop { recording: 1, timestamp: 2000 }))",
    ),
    (
        "truncate 1 64",
        "Event(Ask(Truncate { recording: 1, position: 64 }))",
    ),
    (
        "purge-segments 1 65536",
        "Event(Ask(PurgeSegments { recording: 1, position: 65536 }))",
    ),
    ("purge 1", "Event(Ask(PurgeRecording { recording: 1 }))"),
    ("positions 1", "Event(Ask(Positions { recording: 1 }))"),
    ("source 1", "Event(Ask(Source { recording: 1 }))"),
    (
        "poll-to 4 10 -1",
        "Event(ReplayPollTo { replay: 4, max: 10, limit: -1 })",
    ),
    ("close 4", "Event(ReplayClose { replay: 4 })"),
    ("sweep", "Event(Sweep)"),
    ("checkpoint", "Event(Checkpoint)"),
    ("verify 1", "Event(Verify { recording: 1 })"),
    ("reopen", "Reopen"),
    ("compact", "Compact"),
];

/// Fails with what a line asks for, where that is another thing.
fn check_asked(alloc: Global, line: &str, asked: &str) -> Result<(), Fail> {
    let line = parse_line(alloc, line.as_bytes())?;
    let told = format!(in alloc; "{line:?}")?;
    if told.as_str() == asked {
        Ok(())
    } else {
        Err(Fail::new(told))
    }
}

/// Frames in hex are read in either case, in each line that has some.
#[test]
fn lines_with_bytes(rt: HostRuntime) -> Result<(), Fail> {
    for (line, asked) in [
        (
            "write 0 00ffA0aF",
            "Write { session: 0, bytes: Items { kept: [0, 255, 160, 175] } }",
        ),
        (
            "block 0 00ffA0aF",
            "Block { session: 0, bytes: Items { kept: [0, 255, 160, 175] } }",
        ),
        (
            "merge-replay 00ffA0aF",
            "Merge(Replay(Items { kept: [0, 255, 160, 175] }))",
        ),
        (
            "merge-live 00ffA0aF",
            "Merge(Live(Items { kept: [0, 255, 160, 175] }))",
        ),
    ] {
        check_asked(rt.alloc(), line, asked)?;
    }
    Ok(())
}

/// Each line of the grammar is read as the call that it asks for.
#[test]
fn lines_that_ask_the_archive(rt: HostRuntime) -> Result<(), Fail> {
    for (line, asked) in ASKED {
        check_asked(rt.alloc(), line, asked)?;
    }
    Ok(())
}

/// Whether a recording is sought by what is told.
fn seeks(fields: &FindFields) -> bool {
    fields.least == 2
        && fields.stream_id == 1_001
        && fields.session_id == -7
        && fields.fragment.as_str() == "a b"
}

/// Whether a line seeks it.
fn is_sought(alloc: Global, line: &[u8]) -> bool {
    match parse_line(alloc, line) {
        Ok(Line::Event(Event::Ask(Request::Find(fields)))) => seeks(&fields),
        _ => false,
    }
}

/// A `find` line is read, with a fragment that contains a blank.
#[test]
fn a_line_that_seeks_a_recording(rt: HostRuntime) {
    assert!(rt; is_sought(rt.alloc(), b"find 2 1001 -7 a b"));
}

/// Each breaks a rule of docs/CONTROL.md, "Lines"; the first is empty.
const MALFORMED: &str = "
 quit
quit 
quit 1
Quit
list 0
list  0 10
list 0 10 1
list\t0 10
list 0 10\r
list +0 10
list 00 10
list -0 10
list 9223372036854775808 10
block 0
block 0 000
block 0 0g
block 0 00 00
find 0 1001 7 
start 2147483648 7 42 65536 1408 131072 0 1000 c
start 1001 7 42 65536 1408 131072 0 1000 \nframe 0 00
start-from
start-from x
start-from  1001 7 42 65536 1408 131072 0 1000 c
start-from x 1001 7 42 65536 1408 131072 0 1000
start-from x 1001 7 42 65536 1408 131072 0 1000 
start-from 1001 7 42 65536 1408 131072 0 1000 c
Start-from x 1001 7 42 65536 1408 131072 0 1000 c
source
source 
source x
source 1 
source 1 2
write 0
poll-to 0 10
poll-to 0 10 1 2
poll-to 0 10 +1
sweep 1
checkpoint 1
checkpoint 
compact 1";

fn is_malformed(alloc: Global, line: &[u8]) -> bool {
    matches!(parse_line(alloc, line), Err(Refusal::BadLine))
}

fn is_event(alloc: Global, line: &[u8]) -> bool {
    matches!(parse_line(alloc, line), Ok(Line::Event(_)))
}

/// Whether a line of 262,144 bytes is read, and whether one of a byte more is malformed.
fn longest(alloc: Global) -> Result<(bool, bool), Fail> {
    let mut line = Vec::from_slice(alloc, b"start 1 2 3 4 5 6 7 8 ")?;
    line.resize(262_144, b'c')?;
    let is_read = is_event(alloc, line.as_slice());
    line.push(b'c')?;
    Ok((is_read, is_malformed(alloc, line.as_slice())))
}

/// Lines with a field missing, too many, malformed or out of range are refused, as are bytes that are not UTF-8 and lines
/// of more than 262,144 bytes.
#[test]
fn malformed_lines(rt: HostRuntime) -> Result<(), Fail> {
    for line in MALFORMED.split('\n') {
        assert!(rt; is_malformed(rt.alloc(), line.as_bytes()), "{line:?}");
    }
    assert!(rt; is_malformed(rt.alloc(), b"quit\xff"));
    assert!(rt;
        is_malformed(
            rt.alloc(),
            b"start-from \xff 1001 7 42 65536 1408 131072 0 1000 c"
        )
    );
    let longest = longest(rt.alloc())?;
    assert!(rt; longest == (true, true));
    Ok(())
}

/// Fails with what is printed for a reply, where that is another text.
fn check_printed(alloc: Global, reply: Reply, text: &str) -> Result<(), Fail> {
    let printed = print_reply(alloc, &reply)?;
    if printed.as_slice() == text.as_bytes() {
        Ok(())
    } else {
        Err(Fail::new(std::str::from_utf8(printed.as_slice())?))
    }
}

/// What recorders are told.
fn check_recorders(alloc: Global) -> Result<(), Fail> {
    let started = Reply::Started {
        recording: 12,
        session: 9_223_372_036_854_775_807,
    };
    check_printed(alloc, started, "started 12 9223372036854775807\n")?;
    check_printed(alloc, Reply::Extended { session: 1 }, "extended 1\n")?;
    check_printed(alloc, Reply::Written { position: 64 }, "written 64\n")?;
    check_printed(alloc, Reply::Settled { position: 128 }, "settled 128\n")?;
    check_printed(alloc, Reply::Stopped { position: 0 }, "stopped 0\n")
}

/// What is told of recordings.
fn check_recordings(alloc: Global) -> Result<(), Fail> {
    check_printed(alloc, Reply::Truncated { position: 64 }, "truncated 64\n")?;
    check_printed(alloc, Reply::Purged { segments: 1 }, "purged 1\n")?;
    check_printed(alloc, Reply::PurgedRecording, "purged-recording\n")?;
    check_printed(alloc, Reply::Found { recording: -1 }, "found -1\n")?;
    let positions = Reply::Positions {
        start: 0,
        recorded: 128,
        stop: -1,
    };
    check_printed(alloc, positions, "positions 0 128 -1\n")
}

fn check_source(alloc: Global, source: &str, text: &str) -> Result<(), Fail> {
    let source = SourceIdentity::new(String::from_str(alloc, source)?);
    check_printed(alloc, Reply::Source(source), text)
}

/// What is told of sources, with their length in bytes.
fn check_sources(alloc: Global) -> Result<(), Fail> {
    check_source(alloc, "", "source 0\n")?;
    check_source(alloc, "127.0.0.1:40123", "source 15 127.0.0.1:40123\n")?;
    check_source(alloc, "\u{e9}", "source 2 \u{e9}\n")
}

/// What is told of replays, of reading and of the archive.
fn check_archive(alloc: Global) -> Result<(), Fail> {
    check_printed(alloc, Reply::ReplayOpened { replay: 0 }, "replay 0\n")?;
    check_printed(alloc, Reply::Closed, "closed\n")?;
    check_printed(alloc, Reply::Swept { removed: true }, "swept 1\n")?;
    check_printed(alloc, Reply::Swept { removed: false }, "swept 0\n")?;
    check_printed(alloc, Reply::Verified { frames: 2 }, "verified 2\n")?;
    check_printed(alloc, Reply::Reopened { recordings: 1 }, "reopened 1\n")?;
    check_printed(alloc, Reply::Compacted, "compacted\n")?;
    check_printed(alloc, Reply::Checkpointed, "checkpointed\n")
}

/// What is told of several sessions that are settled together, which no line asks for.
fn check_settled_all(alloc: Global) -> Result<(), Fail> {
    let none = Items::new(alloc);
    check_printed(
        alloc,
        Reply::SettledAll { positions: none },
        "settled-all\n",
    )?;
    let positions = Items::from_vec([Some(128), None, Some(0)].to_vec(alloc)?);
    check_printed(
        alloc,
        Reply::SettledAll { positions },
        "settled-all 128 - 0\n",
    )
}

fn check_state(alloc: Global, is_merged: bool, cursor: i64, text: &str) -> Result<(), Fail> {
    check_printed(alloc, Reply::MergeState { is_merged, cursor }, text)
}

/// What is told of a merge, and at the end.
fn check_merges(alloc: Global) -> Result<(), Fail> {
    check_printed(alloc, Reply::MergeOpened { position: 0 }, "merge 0\n")?;
    check_printed(alloc, Reply::Held, "held\n")?;
    check_printed(alloc, Reply::Ignored, "ignored\n")?;
    check_printed(alloc, Reply::Full, "full\n")?;
    check_printed(alloc, Reply::Taken(None), "none\n")?;
    check_state(alloc, true, 128, "merged yes 128\n")?;
    check_state(alloc, false, 0, "merged no 0\n")?;
    check_printed(alloc, Reply::Bye, "bye\n")
}

/// Each reply without frames or descriptors is printed as docs/CONTROL.md has it.
#[test]
fn replies_of_one_word_and_numbers(rt: HostRuntime) -> Result<(), Fail> {
    check_recorders(rt.alloc())?;
    check_recordings(rt.alloc())?;
    check_sources(rt.alloc())?;
    check_archive(rt.alloc())?;
    check_settled_all(rt.alloc())?;
    check_merges(rt.alloc())
}

fn descriptor(alloc: Global, recording: i64) -> Result<Descriptor, Fail> {
    Ok(Descriptor {
        recording,
        start_timestamp: 1_000,
        stop_timestamp: -1,
        start_position: 0,
        stop_position: -1,
        initial_term_id: 42,
        segment_length: 131_072,
        term_length: 65_536,
        mtu: 1_408,
        session_id: 7,
        stream_id: 1_001,
        channel: Channel::new(String::from_str(alloc, "aeron:udp?endpoint=localhost:40123")?),
        source_identity: SourceIdentity::new(String::from_str(alloc, "127.0.0.1:40123")?),
    })
}

/// The recordings of a list of one.
fn one_listed(alloc: Global) -> Result<Reply, Fail> {
    let mut found = Items::new(alloc);
    found.push(descriptor(alloc, 12)?)?;
    Ok(Reply::Recordings(found))
}

/// A descriptor's line does not show its source.
#[test]
fn descriptor_lines(rt: HostRuntime) -> Result<(), Fail> {
    check_printed(
        rt.alloc(),
        one_listed(rt.alloc())?,
        "recording 12 1000 -1 0 -1 42 131072 65536 1408 7 1001 aeron:udp?endpoint=localhost:40123\n\
         end 1\n",
    )
}

/// `hello` and a pad of 64 bytes, each where it lies.
fn two_frames(alloc: Global) -> Result<Items<PolledFrame>, Fail> {
    let mut frames = Items::new(alloc);
    for (position, kind, length, term_offset, payload) in [
        (64, FrameKind::Message, 37, 64, "hello"),
        (65_472, FrameKind::Pad, 64, 65_472, ""),
    ] {
        let frame = Frame {
            kind,
            flags: 192,
            length,
            term_offset,
            session_id: 7,
            stream_id: 1_001,
            term_id: 42,
            reserved: 0,
            payload: Items::from_vec(Vec::from_slice(alloc, payload.as_bytes())?),
        };
        frames.push(PolledFrame { position, frame })?;
    }
    Ok(frames)
}

/// The frames of a poll are printed with their positions and bytes, and the last line gives the next position.
#[test]
fn frame_lines(rt: HostRuntime) -> Result<(), Fail> {
    let polled = Reply::Polled {
        frames: two_frames(rt.alloc())?,
        next: Some(65_536),
    };
    check_printed(
        rt.alloc(),
        polled,
        "frame 64 2500000000c001004000000007000000e90300002a000000000000000000000068656c6c6f\n\
         frame 65472 4000000000c00000c0ff000007000000e90300002a0000000000000000000000\n\
         more 65536\n",
    )
}

const REFUSALS: [(Refusal, &'static str); 23] = [
    (Refusal::UnknownRecording, "error 1 UnknownRecording\n"),
    (Refusal::ActiveRecording, "error 2 ActiveRecording\n"),
    (Refusal::NotActive, "error 3 NotActive\n"),
    (Refusal::ActiveReplay, "error 4 ActiveReplay\n"),
    (Refusal::BadPosition, "error 5 BadPosition\n"),
    (Refusal::BadExtension, "error 6 BadExtension\n"),
    (Refusal::MaxRecordings, "error 7 MaxRecordings\n"),
    (Refusal::MaxReplays, "error 8 MaxReplays\n"),
    (Refusal::UnknownReplay, "error 9 UnknownReplay\n"),
    (Refusal::BadParameter, "error 10 BadParameter\n"),
    (Refusal::HistoryFull, "error 11 HistoryFull\n"),
    (Refusal::StaleSession, "error 12 StaleSession\n"),
    (Refusal::BadBlock, "error 13 BadBlock\n"),
    (Refusal::NeedSettle, "error 14 NeedSettle\n"),
    (
        Refusal::Damaged {
            recording: -1,
            position: 64,
        },
        "error 15 Damaged -1 64\n",
    ),
    (Refusal::Broken, "error 16 Broken\n"),
    (Refusal::DeviceFault, "error 17 DeviceFault\n"),
    (Refusal::NoMemory, "error 18 NoMemory\n"),
    (Refusal::NotCatalogue, "error 19 NotCatalogue\n"),
    (Refusal::NewerVersion, "error 20 NewerVersion\n"),
    (Refusal::BadFrame { offset: 32 }, "error 21 BadFrame 32\n"),
    (Refusal::BadLine, "error 22 BadLine\n"),
    (Refusal::NeedCompact, "error 23 NeedCompact\n"),
];

/// Each refusal is printed with its number, its name and its details.
#[test]
fn refusal_lines(rt: HostRuntime) {
    for (refusal, text) in REFUSALS {
        assert!(rt; print_refusal(&refusal).as_bytes() == text.as_bytes());
    }
}

/// Whether a line is read that is not the last; read again where a request for memory was refused.
fn goes_on(alloc: Global, line: &[u8]) -> Result<bool, Refusal> {
    let line = match parse_line(alloc, line) {
        Err(Refusal::NoMemory) => parse_line(alloc, line),
        line => line,
    };
    Ok(!matches!(line?, Line::Quit))
}

/// Printed again, where a request for memory was refused.
fn printed(alloc: Global, reply: &Reply) -> Result<Vec<u8>, Refusal> {
    match print_reply(alloc, reply) {
        Err(Refusal::NoMemory) => print_reply(alloc, reply),
        text => text,
    }
}

/// A refused request for memory is answered NoMemory, and the call may be made again. trials/refused_memory.py refuses
/// each of its requests in turn.
#[test]
fn refused_memory_is_told(rt: HostRuntime) -> Result<(), Fail> {
    for line in [START_FROM_LINE, b"block 0 00ff", b"merge-live 00ff"] {
        let goes_on = goes_on(rt.alloc(), line)?;
        assert!(rt; goes_on);
    }
    let text = printed(rt.alloc(), &Reply::Settled { position: 64 })?;
    assert!(rt; text.as_slice() == b"settled 64\n".as_slice());
    Ok(())
}
