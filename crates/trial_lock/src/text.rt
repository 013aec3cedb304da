//! Answers as the lines of docs/CONTROL.md, and what an archive has as such lines.

use crate::recorder::list;
use archive_model::Reply;
use control_core::Event;
use control_lines::{print_refusal, print_reply};
use disk_core::{Disk, MemoryDisk};
use engine_core::Engine;
use frame_core::Refusal;
use std::alloc::Global;

/// More than a run begins recordings.
const MOST_RECORDINGS: i64 = 400;

/// What an archive answers to an event.
pub(crate) fn ask<D: Disk>(
    alloc: Global,
    engine: &mut Engine<D>,
    event: &Event,
) -> Result<Reply, Refusal> {
    engine.step(alloc, event)
}

/// The same of an event that goes then.
pub(crate) fn asked<D: Disk>(
    alloc: Global,
    engine: &mut Engine<D>,
    event: Event,
) -> Result<Reply, Refusal> {
    ask(alloc, engine, &event)
}

/// The replay that an answer opens.
fn replay_of(reply: Reply) -> Result<i64, Refusal> {
    match reply {
        Reply::ReplayOpened { replay } => Ok(replay),
        _ => Err(Refusal::BadLine),
    }
}

/// Opens a replay of a whole recording.
pub(crate) fn open_replay<D: Disk>(
    alloc: Global,
    engine: &mut Engine<D>,
    recording: i64,
) -> Result<i64, Refusal> {
    let open = Event::ReplayOpen {
        recording,
        position: -1,
        length: -1,
    };
    replay_of(asked(alloc, engine, open)?)
}

/// What is told of an answer.
pub(crate) fn told(alloc: Global, answer: &Result<Reply, Refusal>) -> Result<Vec<u8>, Refusal> {
    match answer {
        Ok(reply) => print_reply(alloc, reply),
        Err(refusal) => refused(alloc, refusal),
    }
}

/// What is told of a refusal.
pub(crate) fn refused(alloc: Global, refusal: &Refusal) -> Result<Vec<u8>, Refusal> {
    Ok(Vec::from_slice(alloc, print_refusal(refusal).as_bytes())?)
}

/// Whether a text is this one.
pub(crate) fn is_text(text: Result<Vec<u8>, Refusal>, right: &[u8]) -> bool {
    match text {
        Ok(text) => text.as_slice() == right,
        Err(_) => false,
    }
}

/// The recordings of an archive, and behind them the frames of each.
pub(crate) fn text_of(alloc: Global, engine: &mut Engine<MemoryDisk>) -> Result<Vec<u8>, Refusal> {
    let mut text = listed(alloc, engine)?;
    for recording in 0..MOST_RECORDINGS {
        add_frames(alloc, engine, recording, &mut text)?;
    }
    Ok(text)
}

fn listed(alloc: Global, engine: &mut Engine<MemoryDisk>) -> Result<Vec<u8>, Refusal> {
    let answer = asked(alloc, engine, list());
    told(alloc, &answer)
}

/// Adds the frames of a recording, if there is one of the number.
fn add_frames(
    alloc: Global,
    engine: &mut Engine<MemoryDisk>,
    recording: i64,
    text: &mut Vec<u8>,
) -> Result<(), Refusal> {
    let mut frames = frames_of(alloc, engine, recording)?;
    Ok(text.append(&mut frames)?)
}

/// The frames of a whole recording.
fn frames_of(
    alloc: Global,
    engine: &mut Engine<MemoryDisk>,
    recording: i64,
) -> Result<Vec<u8>, Refusal> {
    let Ok(replay) = open_replay(alloc, engine, recording) else {
        return Ok(Vec::new(alloc));
    };
    let polled = asked(alloc, engine, Event::ReplayPoll { replay, max: 4_096 });
    let _ = asked(alloc, engine, Event::ReplayClose { replay });
    told(alloc, &polled)
}
