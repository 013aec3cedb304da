//! Five threads over a disk in memory: four record, one truncates, lists and purges. What they were answered is what one
//! thread is answered that makes the calls of the history in its order; and what they leave is what the plain book has.

use crate::book::Story;
use crate::crew::{Left, crewed};
use crate::folder::made;
use crate::text::{ask, is_text, refused, text_of, told};
use crate::work::{Plan, Said, Work};
use archive_lock::Call;
use archive_model::Reply;
use call_history::Stored;
use control_core::Told;
use control_lines::print_reply;
use disk_core::MemoryDisk;
use engine_core::Engine;
use frame_core::Refusal;
use std::alloc::{AllocError, Global};
use std::io::Print;
use std::rt::Clock;
use std::sync::Wait;
use std::thread::Threads;

/// How many entries the history of an archive takes.
const LIMIT: u32 = 100_000;

const THREADS: u64 = 5;

/// The words that calls are answered by which change recordings, and of a sweep that removes a file.
const WORDS: [&str; 8] = [
    "started ",
    "extended ",
    "settled ",
    "stopped ",
    "truncated ",
    "purged ",
    "purged-recording",
    "swept 1",
];

/// What came of a run.
#[derive(Clone, Copy)]
pub(crate) struct Verdict {
    /// How many calls there were.
    pub calls: u64,
    /// How many were answered as one thread is.
    pub same_answers: u64,
    /// Whether they left the same state.
    pub is_same_state: bool,
    counts: [u64; 8],
}

impl Verdict {
    /// Whether all is as it has to be.
    pub(crate) fn is_right(&self) -> bool {
        self.same_answers == self.calls && self.is_same_state
    }

    /// How many calls there were, and how many were answered by each of the words.
    pub(crate) fn census(&self, alloc: Global) -> Result<String, AllocError> {
        let mut text = format!(in alloc; "{} calls", self.calls)?;
        for index in 0..8usize {
            add_count(alloc, WORDS[index], self.counts[index], &mut text)?;
        }
        Ok(text)
    }
}

fn add_count(alloc: Global, word: &str, count: u64, text: &mut String) -> Result<(), AllocError> {
    let part = format!(in alloc; ", {} {}", word.trim_end(), count)?;
    text.push_str(part.as_str())
}

/// A run by a seed.
pub(crate) fn run<R: Threads + Wait + Clock + Print + Sync>(
    rt: &R,
    alloc: Global,
    seed: u32,
) -> Result<Verdict, Refusal> {
    let engine = made(alloc, MemoryDisk::new(alloc), LIMIT)?;
    let left = crewed(rt, alloc, engine, true, THREADS, Plan::Storm { seed });
    judged(alloc, left?)
}

fn judged(alloc: Global, left: Left<MemoryDisk>) -> Result<Verdict, Refusal> {
    match made(alloc, MemoryDisk::new(alloc), LIMIT) {
        Ok(engine) => judged_by(alloc, engine, left),
        Err(refusal) => Err(refusal),
    }
}

/// By a new archive.
fn judged_by(
    alloc: Global,
    engine: Engine<MemoryDisk>,
    mut left: Left<MemoryDisk>,
) -> Result<Verdict, Refusal> {
    let mut again = Again {
        engine,
        story: Story::new(alloc, LIMIT),
        same: 0,
        counts: [0; 8],
    };
    again.judge(alloc, &mut left)
}

// ---- one thread makes the same calls

/// An archive and a book that the calls of a history are made on again.
#[derive(Drop)]
struct Again {
    engine: Engine<MemoryDisk>,
    story: Story,
    same: u64,
    counts: [u64; 8],
}

impl Again {
    fn judge(&mut self, alloc: Global, left: &mut Left<MemoryDisk>) -> Result<Verdict, Refusal> {
        let Stored::Kept(records) = &left.history else {
            return Err(Refusal::BadParameter);
        };
        self.make_all(alloc, records.as_slice(), left.works.as_mut_slice())?;
        Ok(Verdict {
            calls: records.len() as u64,
            same_answers: self.same,
            is_same_state: self.has_state(alloc, &mut left.engine)?,
            counts: self.counts,
        })
    }

    fn make_all(
        &mut self,
        alloc: Global,
        records: &[Call],
        works: &mut [Work],
    ) -> Result<(), Refusal> {
        for record in records {
            if let Some(said) = said_by(record.pass, works) {
                self.make(alloc, record, said)?;
            }
        }
        Ok(())
    }

    /// Makes a call.
    fn make(&mut self, alloc: Global, record: &Call, said: Said) -> Result<(), Refusal> {
        let Said { event, answer } = said;
        let outcome = ask(alloc, &mut self.engine, &event);
        if self.is_same(alloc, record, answer.as_slice(), &outcome) {
            self.same = self.same.wrapping_add(1);
        }
        if outcome.is_ok() {
            self.story.note(alloc, event)
        } else {
            Ok(())
        }
    }

    /// Whether a call was answered as it is now.
    fn is_same(
        &mut self,
        alloc: Global,
        record: &Call,
        answer: &[u8],
        outcome: &Result<Reply, Refusal>,
    ) -> bool {
        self.count(answer);
        is_text(told(alloc, outcome), answer) && is_told(alloc, &record.outcome, answer)
    }

    /// Counts the word that an answer begins with.
    fn count(&mut self, answer: &[u8]) {
        for index in 0..8usize {
            if answer.starts_with(WORDS[index].as_bytes()) {
                self.counts[index] = self.counts[index].wrapping_add(1);
            }
        }
    }

    /// Whether archive and book have the state of an archive.
    fn has_state(
        &mut self,
        alloc: Global,
        engine: &mut Engine<MemoryDisk>,
    ) -> Result<bool, Refusal> {
        let text = text_of(alloc, engine)?;
        Ok(
            is_text(text_of(alloc, &mut self.engine), text.as_slice())
                && is_text(self.story.text(alloc), text.as_slice()),
        )
    }
}

/// The next call of a pass.
fn said_by(pass: u64, works: &mut [Work]) -> Option<Said> {
    let index = usize::try_from(pass).ok()?;
    works.get_mut(index)?.said.pop()
}

/// Whether a record tells an answer, of a poll that it is done.
fn is_told(alloc: Global, told: &Result<Told, Refusal>, answer: &[u8]) -> bool {
    match told {
        Ok(Told::Reply(reply)) => is_text(print_reply(alloc, reply), answer),
        Ok(Told::Polled { frames: _, is_done }) => answer.ends_with(b"done\n") == *is_done,
        Err(refusal) => is_text(refused(alloc, refusal), answer),
    }
}
