//! Calls of the archive that is open, as lines, and their answers as the lines of docs/CONTROL.md. README.md, "Calls".

use crate::world::World;
use archive_model::Reply;
use control_core::Event;
use control_lines::{Line, parse_line, print_reply};
use disk_core::MemoryDisk;
use engine_core::Engine;
use frame_core::{Block, Frame, FrameKind, Items, Refusal};
use std::alloc::{AllocError, Global};

/// Bytes of a term.
const TERM: i64 = 65_536;

/// Bytes from one frame of five bytes to the next.
const APART: i64 = 64;

/// What a line is answered: a question to the archive that is no call, several calls, or a call.
pub(crate) fn reply(alloc: Global, world: &mut World, line: &str) -> Result<Vec<u8>, Refusal> {
    let archive = world.archive()?;
    let (word, rest) = line.split_once(' ').unwrap_or((line, ""));
    match word {
        "entries" => counted(alloc, archive.desk().counted()),
        "broken" => counted(alloc, u64::from(archive.desk().is_broken())),
        "do" => make_calls(alloc, archive, rest),
        "writes" => write_frames(alloc, archive, rest, b"hello"),
        "worlds" => write_frames(alloc, archive, rest, b"world"),
        "count" => count_lines(alloc, archive, rest),
        _ => call(alloc, archive, line),
    }
}

/// A count as a line.
fn counted(alloc: Global, count: u64) -> Result<Vec<u8>, Refusal> {
    Ok(format!(in alloc; "{count}\n")?.into_bytes())
}

/// What the archive replies to an event.
fn step(alloc: Global, archive: &mut Engine<MemoryDisk>, event: &Event) -> Result<Reply, Refusal> {
    archive.step(alloc, event)
}

/// The same as lines.
fn answer(
    alloc: Global,
    archive: &mut Engine<MemoryDisk>,
    event: &Event,
) -> Result<Vec<u8>, Refusal> {
    match step(alloc, archive, event) {
        Ok(reply) => print_reply(alloc, &reply),
        Err(refusal) => Err(refusal),
    }
}

/// What the call of a line is answered.
fn call(alloc: Global, archive: &mut Engine<MemoryDisk>, line: &str) -> Result<Vec<u8>, Refusal> {
    let event = event_of(alloc, line)?;
    answer(alloc, archive, &event)
}

/// Makes calls, which are parted by `; `, and answers `done`, or the first refusal.
fn make_calls(
    alloc: Global,
    archive: &mut Engine<MemoryDisk>,
    lines: &str,
) -> Result<Vec<u8>, Refusal> {
    for line in lines.split("; ") {
        call(alloc, archive, line)?;
    }
    Ok(Vec::from_slice(alloc, b"done\n")?)
}

/// A session writes frames with these bytes, each where the last one ended: its number, the first one's position and how many. Answers as
/// the last write does; BadBlock if a write is answered another position than 64 bytes past its begin.
fn write_frames(
    alloc: Global,
    archive: &mut Engine<MemoryDisk>,
    rest: &str,
    payload: &[u8],
) -> Result<Vec<u8>, Refusal> {
    let mut words = rest.split(' ');
    let session = number(words.next());
    let mut position = number(words.next());
    for _ in 0..number(words.next()) {
        let next = position.wrapping_add(APART);
        if written(alloc, archive, session, position, payload)? != next {
            return Err(Refusal::BadBlock);
        }
        position = next;
    }
    Ok(format!(in alloc; "written {position}\n")?.into_bytes())
}

/// Where a frame ends that a session writes at a position.
fn written(
    alloc: Global,
    archive: &mut Engine<MemoryDisk>,
    session: i64,
    position: i64,
    payload: &[u8],
) -> Result<i64, Refusal> {
    let event = write_at(alloc, session, position, payload)?;
    match step(alloc, archive, &event) {
        Ok(Reply::Written { position }) => Ok(position),
        Ok(_) => Err(Refusal::BadBlock),
        Err(refusal) => Err(refusal),
    }
}

/// How many lines of a call's answer end in a text, for each of some texts: they are parted by commas, and the call follows them.
fn count_lines(
    alloc: Global,
    archive: &mut Engine<MemoryDisk>,
    rest: &str,
) -> Result<Vec<u8>, Refusal> {
    let (endings, line) = rest.split_once(' ').unwrap_or((rest, ""));
    let answer = call(alloc, archive, line)?;
    let mut counts = String::new(alloc);
    for ending in endings.split(',') {
        let lines = count(answer.as_slice(), ending.as_bytes());
        writeln!(counts, "{lines} {ending}")?;
    }
    Ok(counts.into_bytes())
}

/// How many lines of a text end so.
fn count(text: &[u8], end: &[u8]) -> usize {
    text.split(|byte| *byte == b'\n')
        .filter(|line| line.ends_with(end))
        .count()
}

/// A number of a line, 0 where there is none.
fn number(word: Option<&str>) -> i64 {
    match word {
        Some(word) => word.parse::<i64>().unwrap_or(-2),
        None => 0,
    }
}

/// The number in 32 bits, 0 if it has more.
fn lesser(number: i64) -> i32 {
    i32::try_from(number).unwrap_or(0)
}

/// A frame of five bytes at a position; without bytes a pad from there to its term's end.
fn frame_at(alloc: Global, position: i64, payload: &[u8]) -> Result<Frame, AllocError> {
    let offset = position.wrapping_rem_euclid(TERM);
    let (kind, length) = if payload.is_empty() {
        (FrameKind::Pad, TERM.wrapping_sub(offset))
    } else {
        (FrameKind::Message, 37)
    };
    Ok(Frame {
        kind,
        flags: 0xc0,
        length: lesser(length),
        term_offset: lesser(offset),
        session_id: 7,
        stream_id: 1_001,
        term_id: lesser(position.wrapping_div_euclid(TERM)).wrapping_add(42),
        reserved: 0,
        payload: Items::from_vec(payload.to_vec(alloc)?),
    })
}

/// The event by which a session writes the block of that frame.
fn write_at(alloc: Global, session: i64, position: i64, payload: &[u8]) -> Result<Event, Refusal> {
    let mut frames = Items::new(alloc);
    frames.push(frame_at(alloc, position, payload)?)?;
    let block = Block { position, frames };
    Ok(Event::Write { session, block })
}

/// The event by which the sessions of a line are settled together.
fn settle_all(alloc: Global, line: &str) -> Result<Event, Refusal> {
    let mut sessions = Items::new(alloc);
    for word in line.split(' ').skip(1) {
        sessions.push(number(Some(word)))?;
    }
    Ok(Event::SettleAll { sessions })
}

/// The event of a line of docs/CONTROL.md, "Lines".
fn read(alloc: Global, line: &str) -> Result<Event, Refusal> {
    match parse_line(alloc, line.as_bytes())? {
        Line::Event(event) => Ok(event),
        _ => Err(Refusal::BadLine),
    }
}

/// The same of a line that leaves out what the recordings have in common.
fn read_short(alloc: Global, word: &str, of: &str, at: i64) -> Result<Event, Refusal> {
    let line = match word {
        "start" => format!(in alloc; "start 1001 7 42 65536 1408 65536 {of} 1000 c")?,
        "start-of-two" => format!(in alloc; "start 1001 7 42 65536 1408 131072 {of} 1000 c")?,
        "start-from" => {
            format!(in alloc; "start-from a:1 1001 7 42 65536 1408 65536 {of} 1000 c")?
        }
        _ => format!(in alloc; "extend {of} 1001 7 42 65536 1408 {at}")?,
    };
    read(alloc, line.as_str())
}

/// The event of a line. README.md, "Calls", has the lines that are shorter than those of docs/CONTROL.md.
fn event_of(alloc: Global, line: &str) -> Result<Event, Refusal> {
    let mut words = line.split(' ');
    let word = words.next().unwrap_or("");
    let of = words.next().unwrap_or("");
    let at = number(words.next());
    match word {
        "write" => write_at(alloc, number(Some(of)), at, b"hello"),
        "world" => write_at(alloc, number(Some(of)), at, b"world"),
        "pad" => write_at(alloc, number(Some(of)), at, b""),
        "settle-all" => settle_all(alloc, line),
        "start" | "start-of-two" | "start-from" | "extend" => read_short(alloc, word, of, at),
        _ => read(alloc, line),
    }
}
