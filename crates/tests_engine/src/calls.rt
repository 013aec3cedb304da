//! Calls as lines, and their answers as the lines of docs/CONTROL.md.

use archive_model::Reply;
use control_core::Event;
use control_lines::{Line, parse_line, print_refusal, print_reply};
use disk_core::Disk;
use engine_core::{Engine, OpenRefusal};
use frame_core::{Block, Frame, FrameKind, Items, Refusal};
use std::alloc::{AllocError, Global};

/// Bytes of a term.
pub const TERM: i64 = 65_536;

/// A number of a line, 0 where there is none.
fn number(word: Option<&str>) -> i64 {
    match word {
        Some(word) => word.parse::<i64>().unwrap_or(-2),
        None => 0,
    }
}

fn lesser(number: i64) -> i32 {
    i32::try_from(number).unwrap_or(0)
}

/// A frame of five bytes at a position; without bytes a pad from there to its term's end.
fn frame_at(alloc: Global, position: i64, payload: &[u8]) -> Result<Frame, AllocError> {
    let offset = position.wrapping_rem_euclid(TERM);
    let (kind, length) = if payload.is_empty() {
        (FrameKind::Pad, TERM.wrapping_sub(offset))
    } else {
        (FrameKind::Message, 37)
    };
    Ok(Frame {
        kind,
        flags: 0xc0,
        length: lesser(length),
        term_offset: lesser(offset),
        session_id: 7,
        stream_id: 1_001,
        term_id: lesser(position.wrapping_div_euclid(TERM)).wrapping_add(42),
        reserved: 0,
        payload: Items::from_vec(payload.to_vec(alloc)?),
    })
}

/// A session writes the block of that frame.
fn write_at(alloc: Global, session: i64, position: i64, payload: &[u8]) -> Result<Event, Refusal> {
    let mut frames = Items::new(alloc);
    frames.push(frame_at(alloc, position, payload)?)?;
    let block = Block { position, frames };
    Ok(Event::Write { session, block })
}

/// The sessions of a line are settled together.
fn settle_all(alloc: Global, line: &str) -> Result<Event, Refusal> {
    let mut sessions = Items::new(alloc);
    for word in line.split(' ').skip(1) {
        sessions.push(number(Some(word)))?;
    }
    Ok(Event::SettleAll { sessions })
}

/// The call of a line of docs/CONTROL.md, "Lines".
fn read(alloc: Global, line: &str) -> Result<Event, Refusal> {
    match parse_line(alloc, line.as_bytes())? {
        Line::Event(event) => Ok(event),
        _ => Err(Refusal::BadLine),
    }
}

/// The same of a line that leaves out what the recordings have in common.
fn read_short(alloc: Global, word: &str, of: &str, at: i64) -> Result<Event, Refusal> {
    let line = match word {
        "start" => format!(in alloc; "start 1001 7 42 65536 1408 65536 {of} 1000 c")?,
        "start-from" => {
            format!(in alloc; "start-from a:1 1001 7 42 65536 1408 65536 {of} 1000 c")?
        }
        _ => format!(in alloc; "extend {of} 1001 7 42 65536 1408 {at}")?,
    };
    read(alloc, line.as_str())
}

/// The call of a line. `start` has the position alone, and so has `start-from`, whose source is `a:1`. `extend` has the recording and
/// the position. A session writes `hello` (`write`), `world` or a pad to its term's end at a position; `settle-all` settles several. The
/// others are those of docs/CONTROL.md, "Lines".
pub fn event_in(alloc: Global, line: &str) -> Result<Event, Refusal> {
    let mut words = line.split(' ');
    let word = words.next().unwrap_or("");
    let of = words.next().unwrap_or("");
    let at = number(words.next());
    match word {
        "write" => write_at(alloc, number(Some(of)), at, b"hello"),
        "world" => write_at(alloc, number(Some(of)), at, b"world"),
        "pad" => write_at(alloc, number(Some(of)), at, b""),
        "settle-all" => settle_all(alloc, line),
        "start" | "start-from" | "extend" => read_short(alloc, word, of, at),
        _ => read(alloc, line),
    }
}

/// What an archive answers to a call.
pub fn answer<D: Disk>(
    alloc: Global,
    engine: &mut Engine<D>,
    event: &Event,
) -> Result<Reply, Refusal> {
    engine.step(alloc, event)
}

/// A reply as lines.
pub fn told(alloc: Global, reply: &Reply) -> Result<Vec<u8>, Refusal> {
    print_reply(alloc, reply)
}

/// A refusal as a line.
pub fn refused(alloc: Global, refusal: &Refusal) -> Result<Vec<u8>, Refusal> {
    Ok(Vec::from_slice(alloc, print_refusal(refusal).as_bytes())?)
}

/// A new archive on a disk, or why it was not made, and the disk.
pub fn created<D: Disk>(alloc: Global, disk: D, limit: u32) -> Result<Engine<D>, OpenRefusal<D>> {
    Engine::create(alloc, disk, limit)
}
