//! What a thread does at a shared archive, call by call.

use crate::chance::Chance;
use crate::recorder::Recorder;
use crate::retention::Retention;
use crate::speed::Load;
use crate::text::told;
use archive_model::Reply;
use control_core::Event;
use frame_core::Refusal;
use std::alloc::{AllocError, Global};
use std::io::Print;

/// How many calls a thread makes by chance.
const CALLS: u64 = 120;

/// More calls than a steady recorder makes behind one answer that it tells, up to the next.
const CALLS_TO_A_LINE: u64 = 8;

/// What threads are to do.
#[derive(Clone, Copy)]
pub(crate) enum Plan {
    /// Calls by chance, which are kept with their answers: the last thread truncates, lists and purges, the others record.
    Storm {
        /// What their chances begin with.
        seed: u32,
    },
    /// To record, each thread the recording of its number, and to tell so many answers.
    Folder {
        /// What their chances begin with.
        seed: u32,
        /// How many answers a thread tells, its first one apart.
        turns: u32,
    },
    /// Calls that are made before.
    Speed(Load),
}

/// Who makes the calls.
#[derive(Clone, Copy)]
enum Role {
    Recorder(Recorder),
    Retention(Retention),
}

/// A call, and what was told of its answer.
#[derive(Drop)]
pub(crate) struct Said {
    /// What was asked.
    pub event: Event,
    /// The lines of the answer.
    pub answer: Vec<u8>,
}

/// The work of a thread.
#[derive(Drop)]
pub(crate) struct Work {
    /// What the threads are to do.
    pub plan: Plan,
    role: Role,
    chance: Chance,
    told: u32,
    /// The calls that are made before.
    pub events: Vec<Event>,
    /// The calls that were kept.
    pub said: Vec<Said>,
    /// Whether all that was made before was answered Ok.
    pub is_right: bool,
}

impl Work {
    /// The work of the thread of a number.
    pub(crate) fn new(alloc: Global, plan: Plan, number: u32) -> Work {
        let sender = i64::from(number);
        let (seed, role) = match plan {
            Plan::Storm { seed } if number < 4 => {
                (seed, Role::Recorder(Recorder::new(sender, false, -1)))
            }
            Plan::Folder { seed, .. } => {
                (seed, Role::Recorder(Recorder::new(sender, true, sender)))
            }
            Plan::Storm { seed } => (seed, Role::Retention(Retention::new())),
            Plan::Speed(_) => (0, Role::Retention(Retention::new())),
        };
        Work {
            plan,
            role,
            chance: Chance::new(seed, number),
            told: 0,
            events: Vec::new(alloc),
            said: Vec::new(alloc),
            is_right: false,
        }
    }

    /// How many calls it makes at most.
    pub(crate) fn calls(&self) -> u64 {
        match self.plan {
            Plan::Storm { .. } => CALLS,
            Plan::Folder { turns, .. } => u64::from(turns).wrapping_mul(CALLS_TO_A_LINE),
            Plan::Speed(_) => 0,
        }
    }

    /// The microseconds before its next call.
    pub(crate) fn pause(&mut self) -> u64 {
        match self.plan {
            Plan::Storm { .. } => u64::try_from(self.chance.below(80)).unwrap_or(0),
            _ => 0,
        }
    }

    /// The next call.
    pub(crate) fn next(&mut self, alloc: Global) -> Result<Event, AllocError> {
        match &mut self.role {
            Role::Recorder(recorder) => recorder.next(alloc, &mut self.chance),
            Role::Retention(retention) => Ok(retention.next(&mut self.chance)),
        }
    }

    /// Takes a call that was answered: keeps it, or tells it. Whether the work goes on.
    pub(crate) fn take<R: Print>(
        &mut self,
        rt: &R,
        alloc: Global,
        event: Event,
        answer: &Result<Reply, Refusal>,
    ) -> bool {
        self.note(answer);
        match self.plan {
            Plan::Storm { .. } => self.keep(alloc, event, answer).is_ok(),
            Plan::Folder { turns, .. } => {
                self.is_answered(answer)
                    && self.tell(rt, alloc, answer).is_ok()
                    && self.told <= turns
            }
            Plan::Speed(_) => false,
        }
    }

    fn note(&mut self, answer: &Result<Reply, Refusal>) {
        match &mut self.role {
            Role::Recorder(recorder) => recorder.note(answer),
            Role::Retention(retention) => retention.note(answer),
        }
    }

    fn keep(
        &mut self,
        alloc: Global,
        event: Event,
        answer: &Result<Reply, Refusal>,
    ) -> Result<(), Refusal> {
        let answer = told(alloc, answer)?;
        Ok(self.said.push(Said { event, answer })?)
    }

    /// Whether an answer is one that the work goes on behind.
    fn is_answered(&self, answer: &Result<Reply, Refusal>) -> bool {
        match &self.role {
            Role::Recorder(recorder) => answer.is_ok() || recorder.may_be_refused(),
            Role::Retention(_) => true,
        }
    }

    /// Tells an answer by which a recording began, stopped or is settled: by one call, in a line.
    fn tell<R: Print>(
        &mut self,
        rt: &R,
        alloc: Global,
        answer: &Result<Reply, Refusal>,
    ) -> Result<(), Refusal> {
        let word = match answer {
            Ok(Reply::Started { .. }) => "begun",
            Ok(Reply::Extended { .. }) => "begun",
            Ok(Reply::Stopped { .. }) => "stopped",
            Ok(Reply::Settled { .. }) => "settled",
            _ => return Ok(()),
        };
        self.told = self.told.wrapping_add(1);
        match &self.role {
            Role::Recorder(recorder) => say(rt, alloc, word, recorder.recording, recorder.next),
            Role::Retention(_) => Ok(()),
        }
    }
}

fn say<R: Print>(
    rt: &R,
    alloc: Global,
    word: &str,
    recording: i64,
    position: i64,
) -> Result<(), Refusal> {
    let line = format!(in alloc; "{word} {recording} {position}\n")?;
    rt.write_all(line.as_bytes())
        .map_err(|_| Refusal::DeviceFault)
}
