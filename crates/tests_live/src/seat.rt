//! A seat at a shared archive, which makes the calls of control lines: docs/CONTROL.md, "Lines".

ghost use Rattle.std.specs.Prelude.{◌≡◌};

use archive_lock::{Made, Naming, SharedArchive, Standing};
use archive_model::Reply;
use call_history::Pass;
use control_core::Event;
use control_lines::{Line, parse_line, print_refusal, print_reply};
use disk_core::Disk;
use frame_core::{Block, Geometry, Refusal, block_of};
use std::alloc::Global;
use std::marker::PhantomData;
use std::process::Abort;
use std::sync::Wait;
use std::test::Fail;

/// A pass of the archive of a name.
#[derive(Drop)]
pub struct Seat<A: Naming> {
    pass: Pass<Made>,
    of: PhantomData<A>,
    ghost named: { pass.table ≡ A.table },
}

impl<A: Naming> Seat<A> {
    /// The seat of a pass.
    pub fn new(pass: Pass<Made>) -> Seat<A>
        requires { pass.table ≡ A.table }
    {
        Seat {
            pass,
            of: PhantomData,
        }
    }

    /// Its pass.
    pub fn into_pass(self) -> Pass<Made>
        ensures { result.table ≡ A.table }
    {
        self.pass
    }

    /// Where its archive stands.
    pub fn standing<D: Disk, R: Wait>(
        &mut self,
        rt: &R,
        archive: &SharedArchive<D, A>,
    ) -> Standing {
        archive.standing(rt, &mut self.pass)
    }

    /// What the archive answers to an event.
    fn call<D: Disk, R: Wait>(
        &mut self,
        rt: &R,
        alloc: Global,
        archive: &SharedArchive<D, A>,
        event: &Event,
    ) -> Result<Reply, Refusal> {
        archive.call(rt, alloc, &mut self.pass, event)
    }

    /// What the archive answers to a line. Bytes of a block are read by the terms of their session first.
    pub fn answer<D: Disk, R: Wait>(
        &mut self,
        rt: &R,
        alloc: Global,
        archive: &SharedArchive<D, A>,
        line: &str,
    ) -> Result<Reply, Refusal> {
        match parse_line(alloc, line.as_bytes())? {
            Line::Event(event) => self.call(rt, alloc, archive, &event),
            Line::Write { session, bytes } => {
                self.write(rt, alloc, archive, session, bytes.as_slice())
            }
            Line::Block { session, bytes } => {
                self.record(rt, alloc, archive, session, bytes.as_slice())
            }
            _ => Err(Refusal::BadLine),
        }
    }

    fn write<D: Disk, R: Wait>(
        &mut self,
        rt: &R,
        alloc: Global,
        archive: &SharedArchive<D, A>,
        session: i64,
        bytes: &[u8],
    ) -> Result<Reply, Refusal> {
        let terms = self.terms(rt, archive, &session)?;
        let block = read(alloc, &terms, bytes)?;
        self.call(rt, alloc, archive, &Event::Write { session, block })
    }

    /// The terms of a session.
    fn terms<D: Disk, R: Wait>(
        &mut self,
        rt: &R,
        archive: &SharedArchive<D, A>,
        session: &i64,
    ) -> Result<Geometry, Refusal> {
        archive.terms(rt, &mut self.pass, session)
    }

    fn record<D: Disk, R: Wait>(
        &mut self,
        rt: &R,
        alloc: Global,
        archive: &SharedArchive<D, A>,
        session: i64,
        bytes: &[u8],
    ) -> Result<Reply, Refusal> {
        match self.write(rt, alloc, archive, session, bytes) {
            Ok(_) => self.call(rt, alloc, archive, &Event::Settle { session }),
            Err(refusal) => Err(refusal),
        }
    }

    /// What is told of the answer to a line.
    pub fn tells<D: Disk, R: Wait>(
        &mut self,
        rt: &R,
        alloc: Global,
        archive: &SharedArchive<D, A>,
        line: &str,
    ) -> Result<Vec<u8>, Refusal> {
        told(alloc, &self.answer(rt, alloc, archive, line))
    }

    /// Adds a line to a transcript, and behind a colon what is answered.
    fn put<D: Disk, R: Wait>(
        &mut self,
        rt: &R,
        alloc: Global,
        archive: &SharedArchive<D, A>,
        text: &mut Vec<u8>,
        line: &str,
    ) -> Result<(), Refusal> {
        let mut lines = self.tells(rt, alloc, archive, line)?;
        text.extend_from_slice(line.as_bytes())?;
        text.extend_from_slice(b": ")?;
        text.append(&mut lines)?;
        Ok(())
    }

    /// The transcript of the calls of a script, which stand each in a line before a colon.
    fn transcript<D: Disk, R: Wait>(
        &mut self,
        rt: &R,
        alloc: Global,
        archive: &SharedArchive<D, A>,
        script: &str,
    ) -> Result<Vec<u8>, Refusal> {
        let mut text = Vec::new(alloc);
        for line in script.lines() {
            if let Some((call, _)) = line.split_once(": ") {
                self.put(rt, alloc, archive, &mut text, call)?;
            }
        }
        Ok(text)
    }

    /// Makes the calls of a script, which have to be answered as it says; `NoMemory` if one found none.
    pub fn plays<D: Disk, R: Wait + Abort>(
        &mut self,
        rt: &R,
        alloc: Global,
        archive: &SharedArchive<D, A>,
        script: &str,
    ) -> Result<(), Fail> {
        let text = self.transcript(rt, alloc, archive, script)?;
        if text.as_slice() == script.as_bytes() {
            return Ok(());
        }
        assert!(rt;
            lacks_memory(text.as_slice()),
            "{:?}",
            std::str::from_utf8(text.as_slice())
        );
        Err(Fail::from(Refusal::NoMemory))
    }
}

/// The block of bytes, by the terms of their session.
fn read(alloc: Global, terms: &Geometry, bytes: &[u8]) -> Result<Block, Refusal> {
    block_of(alloc, terms, bytes)
}

/// Whether an answer is want of memory, or a fault of the disk in memory, which may find none.
fn lacks_memory(text: &[u8]) -> bool {
    match std::str::from_utf8(text) {
        Ok(text) => text.contains("error 18 NoMemory") || text.contains("error 17 DeviceFault"),
        Err(_) => false,
    }
}

/// What is told of an answer.
fn told(alloc: Global, answer: &Result<Reply, Refusal>) -> Result<Vec<u8>, Refusal> {
    match answer {
        Ok(reply) => print_reply(alloc, reply),
        Err(refusal) => Ok(Vec::from_slice(alloc, print_refusal(refusal).as_bytes())?),
    }
}
