//! Events answered one after another. docs/CONTROL.md, "Requests"; docs/STORAGE.md, "Recovery".

ghost use Rattle.std.specs.Prelude.{◌≡◌, IfErr, IfOk, IsTrue};
ghost use Rattle.control_core.specs.Exact.{poll_event};
ghost use Rattle.frame_core.specs.declared.refusal.Refusal.TheVariants.{NoMemory};
ghost use Rattle.control_core.specs.Orderly.{KeepsDesk};
ghost use Rattle.replay_core.specs.Pages.{kept};
ghost use Rattle.engine_core.specs.Calls.{AnswersEvent, IsRun};
ghost use Rattle.engine_core.specs.Handing.{HandsPolled};
ghost use Rattle.engine_core.specs.KeptPages.{KeepsPages, generation_after};
ghost use Rattle.engine_core.specs.Touching.{WantsMemory};

use crate::Engine;
use crate::replay_poll::Poll;
use crate::stored::StoredArchive;
use archive_model::Reply;
use control_core::{Desk, Event};
use disk_core::Disk;
use frame_core::Refusal;
use replay_core::{FrameTaker, PageCache};
use std::alloc::Global;

impl<D: Disk> StoredArchive<D> {
    ghost use Rattle.engine_core.specs.Seen.{state_of};

    /// Answers an event, as `Engine::step` does. A poll reads through kept pages of a generation, and keeps those that it reads.
    fn answer(
        &mut self,
        alloc: Global,
        pages: &mut PageCache,
        generation: u64,
        event: &Event,
    ) -> Result<Reply, Refusal>
        requires paged { KeepsPages (D.life self.old.storage.disk) self.old.desk.state.register generation (kept pages.old) }
        ensures answered { AnswersEvent (state_of D.life self.old) (state_of D.life self.new) event.now result }
        ensures memory { WantsMemory self.old.desk.state event.now result }
        // What is kept, the disk read before the event.
        ensures paged { IsTrue (D.life self.new.storage.disk).obeys →
            KeepsPages (D.life self.old.storage.disk) self.old.desk.state.register generation (kept pages.new) }
    {
        match event {
            Event::Ask(request) => self.ask(alloc, request),
            Event::Write { session, block } => self.write(session, block),
            Event::Settle { session } => self.settle(session),
            Event::SettleAll { sessions } => self.settle_all(alloc, sessions),
            Event::ReplayOpen {
                recording,
                position,
                length,
            } => self.open_replay(recording, position, length),
            Event::ReplayPoll { replay, max } => {
                let poll = Poll {
                    replay: *replay,
                    max: *max,
                    limit: None,
                };
                self.poll(alloc, pages, generation, &poll)
            }
            Event::ReplayPollTo { replay, max, limit } => {
                let poll = Poll {
                    replay: *replay,
                    max: *max,
                    limit: Some(*limit),
                };
                self.poll(alloc, pages, generation, &poll)
            }
            Event::ReplayClose { replay } => self.close(replay),
            Event::Sweep => self.sweep(alloc),
            Event::Verify { recording } => self.verify(alloc, recording),
            Event::Checkpoint => self.checkpoint(alloc),
        }
    }
}

impl<D: Disk> Engine<D> {
    ghost use Rattle.engine_core.specs.Seen.{HasAnswered, seen};

    /// Answers an event: by its reply, or by the first refusal whose test does not hold. A crash at any moment of it leaves
    /// the state before it or the one after it; once it is answered the one after it alone, refused the one before it.
    ///
    /// The refusals of docs/CONTROL.md, "Refusals"; `DeviceFault`, after a write with the archive broken: reading goes on
    /// over the state before it, and a crash leaves one of the two; `NoMemory`, which changes nothing. Costs what the
    /// event costs: docs/ARCHITECTURE.md, "The engine".
    pub fn step(&mut self, alloc: Global, event: &Event) -> Result<Reply, Refusal>
        ensures answered { HasAnswered D.life self.old self.new event.now result }
        ensures memory { WantsMemory self.old.archive.desk.state event.now result }
    {
        a_desk_is_orderly(&self.archive.desk);
        let result = self
            .archive
            .answer(alloc, &mut self.pages, self.generation, event);
        self.generation = generation_after(&result, self.generation);
        result
    }

    /// Answers a poll as `step` does, but hands its frames on, each as it is read: where the replay goes on, or none where
    /// it is done. `step` answers a poll by this, with a taker that keeps copies.
    ///
    /// Refused as `step`, and by `NoMemory` where the taker has none for a frame: the taker may then have taken some of the
    /// frames, and the replay stays where it was. Takes no memory for a frame that pages have.
    pub fn hand_on<T: FrameTaker>(
        &mut self,
        alloc: Global,
        poll: &Poll,
        taker: &mut T,
    ) -> Result<Option<i64>, Refusal>
        ensures { HandsPolled T.takes T.leaves taker.old taker.new
            (HasAnswered D.life self.old self.new (poll_event poll.now.replay poll.now.max poll.now.limit)) result }
    {
        a_desk_is_orderly(&self.archive.desk);
        let pages = &mut self.pages;
        self.archive
            .hand_on(alloc, pages, self.generation, poll, taker)
    }

    /// Answers events, one after another. A crash at any moment of it leaves a state that stood after the first of them.
    ///
    /// `NoMemory` where there is none for the list of answers: then no event was answered. Costs what the events cost.
    pub fn drive(
        &mut self,
        alloc: Global,
        events: &[Event],
    ) -> Result<Vec<Result<Reply, Refusal>>, Refusal>
        ensures ran { IfOk result (λ outcomes.
            IsRun (seen D.life self.old) events.now outcomes.items (seen D.life self.new)) }
        ensures refused { IfErr result (λ refusal. (refusal ≡ NoMemory) × (self.new ≡ self.old)) }
    {
        let mut outcomes = Vec::with_capacity(alloc, events.len())?;
        for event in events {
            let outcome = self.step(alloc, event);
            outcomes.push_reserved(outcome);
        }
        Ok(outcomes)
    }
}

/// The generation of kept pages after an event: the next one where it was a truncation that was accepted, up to the last.
fn generation_after(outcome: &Result<Reply, Refusal>, generation: u64) -> u64
    ensures { result ≡ generation_after outcome.now generation }
{
    match outcome {
        Ok(Reply::Truncated { .. }) => generation.saturating_add(1),
        _ => generation,
    }
}

/// What a desk keeps: a law of `Desk`, which costs nothing.
fn a_desk_is_orderly(desk: &Desk)
    ensures { KeepsDesk desk.now.state.register desk.now.state.callers }
{
    let _broken = desk.is_broken();
}
