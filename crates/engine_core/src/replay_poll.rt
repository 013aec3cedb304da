//! A replay goes on. docs/CONTROL.md, "Replays".

ghost use Rattle.std.specs.Prelude.{◌≡◌, ◌∷◌, ◌++◌, [], IsTrue, None, Some, if◌then◌else◌};
ghost use Rattle.control_core.specs.Exact.{poll_event};
ghost use Rattle.control_core.specs.Turns.{held_back, is_done_at};
ghost use Rattle.replay_core.specs.Pages.{kept};
ghost use Rattle.engine_core.specs.Calls.{AnswersEvent};
ghost use Rattle.engine_core.specs.Handing.{HandsPolled};
ghost use Rattle.engine_core.specs.KeptPages.{KeepsPages};

use crate::stored::StoredArchive;
use archive_model::{PolledFrame, Registration, Reply};
use control_core::{OpenReplay, decide_poll};
use disk_core::Disk;
use frame_core::{FrameRef, Items, Refusal, is_replay_done};
use recording_reads::hand_frames;
use replay_core::{FrameTaker, PageCache};
use std::alloc::{AllocError, Global};

/// Which frames are asked for of a replay: docs/CONTROL.md, "Replays".
#[derive(Clone, Copy, Debug)]
pub struct Poll {
    /// The replay's number.
    pub replay: i64,
    /// How many frames are taken at most: from 1 to 4,096.
    pub max: i64,
    /// A limit, in bytes of the stream: only frames that begin before it are given. None for a poll without a limit.
    pub limit: Option<i64>,
}

/// Keeps a copy of each frame, with where it begins.
#[derive(Drop)]
struct PlacedCopies {
    // What the copies' memory is of.
    alloc: Global,
    // In the order in which the frames were taken.
    frames: Vec<PolledFrame>,
}

impl FrameTaker for PlacedCopies {
    ghost takes = { λ old at frame new.
        new.frames.items ≡ old.frames.items ++ record { position = at; frame = frame } ∷ [] };

    ghost leaves = { λ old new. new.frames.items ≡ old.frames.items };

    fn take(
        &mut self,
        position: i64,
        _header: &[u8],
        frame: &FrameRef<'_>,
    ) -> Result<(), AllocError> {
        let Ok(copy) = frame.to_frame(self.alloc) else {
            return Err(AllocError);
        };
        self.frames.push(PolledFrame {
            position,
            frame: copy,
        })?;
        Ok(())
    }
}

impl<D: Disk> StoredArchive<D> {
    ghost use Rattle.engine_core.specs.Seen.{state_of};

    /// Takes the next frames of a replay, those that `hand_on` hands on, as a list of copies. Refused as that, and
    /// `NoMemory` where there is none for a copy.
    pub(crate) fn poll(
        &mut self,
        alloc: Global,
        pages: &mut PageCache,
        generation: u64,
        poll: &Poll,
    ) -> Result<Reply, Refusal>
        requires paged { KeepsPages (D.life self.old.storage.disk) self.old.desk.state.register generation (kept pages.old) }
        ensures answered { AnswersEvent (state_of D.life self.old) (state_of D.life self.new)
            (poll_event poll.now.replay poll.now.max poll.now.limit) result }
        ensures paged { IsTrue (D.life self.new.storage.disk).obeys →
            KeepsPages (D.life self.old.storage.disk) self.old.desk.state.register generation (kept pages.new) }
    {
        let mut copies = PlacedCopies {
            alloc,
            frames: Vec::new(alloc),
        };
        let next = self.hand_on(alloc, pages, generation, poll, &mut copies)?;
        Ok(Reply::Polled {
            frames: Items::from_vec(copies.frames),
            next,
        })
    }

    /// Hands on the next frames of a replay, at most so many, and gives where it goes on, or none where it is done: at its
    /// bound, or at the end of a recording that isn't active. What is written and not settled is not handed on, nor what
    /// begins at a limit or past it; whether the replay is done does not depend on a limit. Frames are read through kept
    /// pages of a generation, and pages that are read are kept.
    ///
    /// `BadParameter` where `max` is not from 1 to 4,096, or a limit is below 0; `UnknownReplay`; `Damaged` where the frames break off;
    /// `DeviceFault`; `NoMemory`, also where the taker has none. Each leaves the replay where it was; the taker may have
    /// taken some of the frames. Costs what the frames that are given cost.
    pub(crate) fn hand_on<T: FrameTaker>(
        &mut self,
        alloc: Global,
        pages: &mut PageCache,
        generation: u64,
        poll: &Poll,
        taker: &mut T,
    ) -> Result<Option<i64>, Refusal>
        requires paged { KeepsPages (D.life self.old.storage.disk) self.old.desk.state.register generation (kept pages.old) }
        ensures handed { HandsPolled T.takes T.leaves taker.old taker.new (AnswersEvent (state_of D.life self.old)
            (state_of D.life self.new) (poll_event poll.now.replay poll.now.max poll.now.limit)) result }
        ensures paged { IsTrue (D.life self.new.storage.disk).obeys →
            KeepsPages (D.life self.old.storage.disk) self.old.desk.state.register generation (kept pages.new) }
    {
        let reader = decide_poll(&self.desk, &poll.replay, &poll.max, &poll.limit)?;
        let found = reader.found;
        let known = reader.known;
        let held = held_back(&found.replay, &poll.limit);
        let next = hand_frames(
            alloc,
            &mut self.storage.disk,
            pages,
            generation,
            known,
            &held,
            poll.max,
            taker,
        )?;
        let goes = goes_on(known, &found.replay.bound, next);
        self.desk.move_replay(&poll.replay, found.index, &next);
        Ok(goes)
    }
}

/// A replay with the bound that a limit leaves it: the lesser of both.
fn held_back(replay: &OpenReplay, limit: &Option<i64>) -> OpenReplay
    ensures { result ≡ held_back limit.now replay.now }
{
    let bound = match limit {
        Some(limit) if *limit < replay.bound => *limit,
        _ => replay.bound,
    };
    OpenReplay { bound, ..*replay }
}

/// Where a replay goes on that has come to a position, or none where it is done.
fn goes_on(known: &Registration, bound: &i64, next: i64) -> Option<i64>
    ensures { result ≡ (if is_done_at known.now bound.now next then None else Some next) }
{
    if is_replay_done(bound, &next, &known.recorded, known.is_active()) {
        return None;
    }
    Some(next)
}
