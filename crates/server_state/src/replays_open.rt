//! Which replays are open, as far as a server's answers say it. docs/SERVING.md, "Which replays are open".

ghost use Rattle.std.specs.Prelude.{◌≡◌, slice_get, slice_set};
ghost use Rattle.std.specs.List.{position};
ghost use Rattle.server_state.specs.ReplaysOpen.{AddsReplay, NotesAnswer, after_answer, after_closing, after_moving, replay_after_poll, after_polling, asked_position, frame_end_of, replay_has_number, known_or, last_end, replay_moved_to, opened_by, polled_from, position_after};

use crate::known_replay::{KnownReplay, ReplayReader};
use crate::replay_lines::{measures_of, replays_held, replays_text};
use archive_model::{PolledFrame, Reply};
use control_core::Event;
use frame_core::{Refusal, replay_bound};
use metrics_text::ReplayMeasures;
use std::alloc::{AllocError, Global};
use std::marker::Model;
use std::net::SocketAddr;
use std::sync::{Mutex, Wait};

/// The replays that are known to be open. To a contract they are the list of them.
#[derive(Drop)]
struct KnownReplays {
    replays: Vec<KnownReplay>,
}

impl Model for KnownReplays {
    ghost use Rattle.std.specs.Prelude.{List};
    ghost use Rattle.server_state.specs.declared.known_replay.KnownReplay.{KnownReplay};

    ghost Value = { List KnownReplay };

    ghost view = { λ k. k.replays.items };
}

impl KnownReplays {
    /// A client at an address was answered so. A replay for which there is no memory is not known.
    fn note(&mut self, event: &Event, outcome: &Result<Reply, Refusal>, address: Option<SocketAddr>)
        ensures { NotesAnswer address event.now outcome.now self.old self.new }
    {
        self.add(opened_by(event, outcome, address));
        self.change(event, outcome);
    }

    /// One replay more, if there is one.
    fn add(&mut self, opened: Option<KnownReplay>)
        ensures { AddsReplay opened self.old self.new }
    {
        if let Some(replay) = opened {
            let _ = self.replays.push(replay);
        }
    }

    /// What an answer changes of replays that are known.
    fn change(&mut self, event: &Event, outcome: &Result<Reply, Refusal>)
        ensures { self.new ≡ after_answer event.now outcome.now self.old }
    {
        match (event, outcome) {
            (Event::ReplayPoll { replay, max }, Ok(Reply::Polled { frames, next })) => {
                let _ = max;
                self.poll(replay, frames.as_slice(), next);
            }
            (Event::ReplayPollTo { replay, max, limit }, Ok(Reply::Polled { frames, next })) => {
                let _ = max;
                let _ = limit;
                self.poll(replay, frames.as_slice(), next);
            }
            (Event::ReplayClose { replay }, Ok(_)) => self.close(replay),
            (Event::ReplayClose { replay }, Err(Refusal::UnknownReplay)) => self.close(replay),
            _ => {}
        }
    }

    /// The replay of a number gave these frames, and goes on there.
    fn poll(&mut self, number: &i64, frames: &[PolledFrame], next: &Option<i64>)
        ensures { self.new ≡ after_polling number.now frames.now next.now self.old }
    {
        if let Some(index) = self.index_of(number) {
            if let Some(replay) = self.at(index) {
                self.set(index, after_poll(replay, frames, *next));
            }
        }
    }

    /// The replay of a number is open no longer.
    fn close(&mut self, number: &i64)
        ensures { self.new ≡ after_closing number.now self.old }
    {
        remove(&mut self.replays, number);
    }

    /// The replay of a number has another one now, and goes on at a position.
    fn move_on(&mut self, before: &i64, number: i64, position: i64)
        ensures { self.new ≡ after_moving before.now number position self.old }
    {
        if let Some(index) = self.index_of(before) {
            if let Some(replay) = self.at(index) {
                self.set(index, moved_to(replay, number, position));
            }
        }
    }

    fn index_of(&self, number: &i64) -> Option<usize>
        ensures { result ≡ position (replay_has_number number.now) self.now }
    {
        index_in(self.replays.as_slice(), number)
    }

    fn at(&self, index: usize) -> Option<KnownReplay>
        ensures { result ≡ slice_get self.now index }
    {
        match self.replays.as_slice().get(index) {
            Some(replay) => Some(*replay),
            None => None,
        }
    }

    fn set(&mut self, index: usize, replay: KnownReplay)
        ensures { self.new ≡ slice_set self.old index replay }
    {
        if index < self.replays.len() {
            self.replays[index] = replay;
        }
    }
}

/// The replay of a number is open no longer.
fn remove(replays: &mut Vec<KnownReplay>, number: &i64)
    ensures { replays.new.items ≡ after_closing number.now replays.old.items }
{
    match index_in(replays.as_slice(), number) {
        Some(index) => {
            replays.remove(index);
        }
        None => {}
    }
}

/// Where the replay of a number is among these.
fn index_in(replays: &[KnownReplay], number: &i64) -> Option<usize>
    ensures { result ≡ position (replay_has_number number.now) replays.now }
{
    replays.iter().position(|replay| has_number(number, replay))
}

/// Whether a replay has a number.
fn has_number(number: &i64, replay: &KnownReplay) -> bool
    ensures { result ≡ replay_has_number number.now replay.now }
{
    replay.number == *number
}

/// The replay that a call opened which a client at an address was answered so.
fn opened_by(
    event: &Event,
    outcome: &Result<Reply, Refusal>,
    address: Option<SocketAddr>,
) -> Option<KnownReplay>
    ensures { result ≡ opened_by address event.now outcome.now }
{
    match (event, outcome) {
        (
            Event::ReplayOpen {
                recording,
                position,
                length,
            },
            Ok(Reply::ReplayOpened { replay }),
        ) => Some(KnownReplay {
            number: *replay,
            recording: *recording,
            first: asked_position(*position),
            next: asked_position(*position),
            length: *length,
            reader: ReplayReader::Line,
            address,
        }),
        _ => None,
    }
}

/// The position that was asked for. None: the recording's start, which the answer does not say.
fn asked_position(position: i64) -> Option<i64>
    ensures { result ≡ asked_position position }
{
    if position < 0 { None } else { Some(position) }
}

/// A replay that gave these frames, and goes on there, or is done.
fn after_poll(replay: KnownReplay, frames: &[PolledFrame], next: Option<i64>) -> KnownReplay
    ensures { result ≡ replay_after_poll frames.now next replay }
{
    KnownReplay {
        first: known_or(replay.first, polled_from(frames, next)),
        next: known_or(position_after(frames, next), replay.next),
        ..replay
    }
}

/// A replay that has another number now, and goes on at a position.
fn moved_to(replay: KnownReplay, number: i64, position: i64) -> KnownReplay
    ensures { result ≡ replay_moved_to number position replay }
{
    KnownReplay {
        number,
        next: Some(position),
        ..replay
    }
}

/// A position, or another one if it is not known.
fn known_or(position: Option<i64>, other: Option<i64>) -> Option<i64>
    ensures { result ≡ known_or position other }
{
    match position {
        Some(position) => Some(position),
        None => other,
    }
}

/// Where a poll began that gave these frames: at the first one, or where the replay goes on.
fn polled_from(frames: &[PolledFrame], next: Option<i64>) -> Option<i64>
    ensures { result ≡ polled_from (slice_get frames.now 0) next }
{
    match frames.first() {
        Some(frame) => Some(frame.position),
        None => next,
    }
}

/// Where a replay goes on that gave these frames: as the answer says, or at the end of the last one.
fn position_after(frames: &[PolledFrame], next: Option<i64>) -> Option<i64>
    ensures { result ≡ position_after frames.now next }
{
    match next {
        Some(next) => Some(next),
        None => last_end(frames),
    }
}

/// Where the last of these frames ends.
fn last_end(frames: &[PolledFrame]) -> Option<i64>
    ensures { result ≡ last_end frames.now }
{
    match frames.last() {
        Some(frame) => Some(end_of(frame)),
        None => None,
    }
}

/// Where a frame ends.
fn end_of(frame: &PolledFrame) -> i64
    ensures { result ≡ frame_end_of frame.now }
{
    replay_bound(&frame.position, &(frame.frame.aligned_length() as i64))
}

/// Which replays are open, for the threads of a server.
#[derive(Drop)]
pub struct OpenReplays {
    known: Mutex<KnownReplays>,
}

impl OpenReplays {
    /// None is known.
    pub(crate) fn new(alloc: Global) -> OpenReplays {
        OpenReplays {
            known: Mutex::new(KnownReplays {
                replays: Vec::new(alloc),
            }),
        }
    }

    /// A client at an address was answered so.
    pub fn note<R: Wait>(
        &self,
        rt: &R,
        event: &Event,
        outcome: &Result<Reply, Refusal>,
        address: Option<SocketAddr>,
    ) {
        self.known.lock(rt).note(event, outcome, address);
    }

    /// A follower's replay is open, or that of a sending. If there is no memory for it, it is not known.
    pub fn follow<R: Wait>(&self, rt: &R, replay: KnownReplay) {
        self.known.lock(rt).add(Some(replay));
    }

    /// The replay of a number has another one now, and goes on at a position.
    pub fn move_on<R: Wait>(&self, rt: &R, before: i64, number: i64, position: i64) {
        self.known.lock(rt).move_on(&before, number, position);
    }

    /// The replay of a number is open no longer.
    pub fn close<R: Wait>(&self, rt: &R, number: i64) {
        self.known.lock(rt).close(&number);
    }

    /// The answer to the line `replays`.
    pub fn text<R: Wait>(&self, rt: &R, alloc: Global) -> Result<String, AllocError> {
        replays_text(alloc, self.known.lock(rt).replays.as_slice())
    }

    /// How many there are.
    pub(crate) fn count<R: Wait>(&self, rt: &R) -> u64 {
        self.known.lock(rt).replays.len() as u64
    }

    /// What is measured of them.
    pub(crate) fn measures<R: Wait>(
        &self,
        rt: &R,
        alloc: Global,
    ) -> Result<Vec<ReplayMeasures>, AllocError> {
        measures_of(alloc, self.known.lock(rt).replays.as_slice())
    }

    /// Those of a recording.
    pub(crate) fn of_recording<R: Wait>(
        &self,
        rt: &R,
        alloc: Global,
        recording: i64,
    ) -> Result<Vec<KnownReplay>, AllocError> {
        replays_held(alloc, self.known.lock(rt).replays.as_slice(), recording)
    }
}
