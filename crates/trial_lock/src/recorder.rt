//! A thread's recording: which call comes next, by chance, and what an answer makes of it.

use crate::blocks::{SHORT_TERM, extension, fields, pad_block, small_block};
use crate::chance::Chance;
use archive_model::Reply;
use control_core::{Event, Request};
use frame_core::Refusal;
use std::alloc::{AllocError, Global};

/// Blocks that are settled together, at most.
const TOGETHER: u32 = 6;

/// How often a steady recorder stops its recording and goes on: one turn of so many.
const STOPS: u32 = 50;

/// What comes next.
#[derive(Clone, Copy)]
enum Step {
    /// To ask where the recording ends; or, by chance, a listing.
    Rest,
    /// To begin a recording, or to go on with it.
    Join,
    /// To record.
    Record,
    /// To take frames of a replay.
    Poll(i64),
    /// To close a replay.
    Close(i64),
}

/// What a recorder knows of its recording.
#[derive(Clone, Copy)]
pub(crate) struct Recorder {
    /// Its number, which its frames tell.
    sender: i64,
    /// Whether it settles blocks in turn, with a stop now and then; else it makes any call by chance.
    is_steady: bool,
    /// Its recording; below 0 where it has none.
    pub recording: i64,
    session: i64,
    /// Where its next block begins.
    pub next: i64,
    /// How many blocks a steady one writes before it settles; below 0 where none waits for it.
    left: i64,
    step: Step,
}

impl Recorder {
    /// One that goes on with a recording, or begins one.
    pub(crate) fn new(sender: i64, is_steady: bool, recording: i64) -> Recorder {
        Recorder {
            sender,
            is_steady,
            recording,
            session: -1,
            next: 0,
            left: -1,
            step: Step::Rest,
        }
    }

    /// The next call.
    pub(crate) fn next(&mut self, alloc: Global, chance: &mut Chance) -> Result<Event, AllocError> {
        match self.step {
            Step::Rest => Ok(self.ask(chance)),
            Step::Join => self.join(alloc),
            Step::Record => self.record(alloc, chance),
            Step::Poll(replay) => {
                self.step = Step::Close(replay);
                Ok(Event::ReplayPoll { replay, max: 50 })
            }
            Step::Close(replay) => {
                self.step = Step::Record;
                Ok(Event::ReplayClose { replay })
            }
        }
    }

    /// Asks where the recording ends, to go on there; where it is there, perhaps a listing.
    fn ask(&mut self, chance: &mut Chance) -> Event {
        if self.is_steady || self.recording < 0 || chance.below(4) == 0 {
            self.step = Step::Join;
            return Event::Ask(Request::Positions {
                recording: self.recording,
            });
        }
        list()
    }

    fn join(&mut self, alloc: Global) -> Result<Event, AllocError> {
        self.step = Step::Rest;
        if self.recording < 0 {
            let fields = fields(alloc, SHORT_TERM)?;
            return Ok(Event::Ask(Request::Start(fields)));
        }
        Ok(Event::Ask(Request::Extend(extension(self.recording, self.next))))
    }

    fn record(&mut self, alloc: Global, chance: &mut Chance) -> Result<Event, AllocError> {
        if self.is_steady {
            return self.go_on(alloc, chance);
        }
        match chance.below(20) {
            0..=8 => self.write(alloc),
            9..=10 => self.pad(alloc),
            11..=15 => Ok(self.settle()),
            16..=17 => Ok(self.replay()),
            18 => Ok(self.stop()),
            _ => Ok(list()),
        }
    }

    /// Writes some blocks and settles them, or stops.
    fn go_on(&mut self, alloc: Global, chance: &mut Chance) -> Result<Event, AllocError> {
        if self.left < 0 {
            if chance.below(STOPS) == 0 {
                return Ok(self.stop());
            }
            self.left = chance.below(TOGETHER).wrapping_add(1);
        }
        self.left = self.left.wrapping_sub(1);
        if self.left < 0 {
            return Ok(self.settle());
        }
        self.write(alloc)
    }

    fn write(&self, alloc: Global) -> Result<Event, AllocError> {
        Ok(Event::Write {
            session: self.session,
            block: small_block(alloc, SHORT_TERM, self.next, self.sender)?,
        })
    }

    fn pad(&self, alloc: Global) -> Result<Event, AllocError> {
        Ok(Event::Write {
            session: self.session,
            block: pad_block(alloc, self.next)?,
        })
    }

    fn settle(&self) -> Event {
        Event::Settle {
            session: self.session,
        }
    }

    fn stop(&self) -> Event {
        Event::Ask(Request::Stop {
            recording: self.recording,
            timestamp: 2_000,
        })
    }

    fn replay(&self) -> Event {
        Event::ReplayOpen {
            recording: self.recording,
            position: -1,
            length: -1,
        }
    }

    /// Takes from an answer where the next block begins, and what comes next.
    pub(crate) fn note(&mut self, answer: &Result<Reply, Refusal>) {
        match answer {
            Ok(Reply::Written { position }) => self.wrote(*position),
            Ok(Reply::Settled { position }) => self.next = *position,
            Ok(Reply::Positions { recorded, .. }) => self.next = *recorded,
            Ok(Reply::Started { recording, session }) => self.begin(*recording, *session, 0),
            Ok(Reply::Extended { session }) => self.begin(self.recording, *session, self.next),
            Ok(Reply::Stopped { .. }) => self.step = Step::Rest,
            Ok(Reply::ReplayOpened { replay }) => self.step = Step::Poll(*replay),
            Err(Refusal::UnknownRecording) => self.recording = -1,
            _ => {}
        }
    }

    /// What is settled together ends where its segment does.
    fn wrote(&mut self, position: i64) {
        self.next = position;
        if self.left > 0 && position.wrapping_rem_euclid(i64::from(SHORT_TERM)) == 0 {
            self.left = 0;
        }
    }

    fn begin(&mut self, recording: i64, session: i64, next: i64) {
        self.recording = recording;
        self.session = session;
        self.next = next;
        self.step = Step::Record;
    }

    /// Whether its last call may be refused: of a steady one only the question for a recording that is not there yet.
    pub(crate) fn may_be_refused(&self) -> bool {
        !self.is_steady || matches!(self.step, Step::Join)
    }
}

/// All recordings.
pub(crate) fn list() -> Event {
    Event::Ask(Request::List {
        from: 0,
        count: 1_024,
    })
}
