//! A replayer: looks at a slot, polls a replay, and hands on the frames. docs/ARCHITECTURE.md, "Agents".

ghost use Rattle.std.specs.Prelude.{◌≡◌, ◌<◌, MatchResult, Option};
ghost use Rattle.frame_core.specs.declared.refusal.Refusal.{Refusal};
ghost use Rattle.agents_core.specs.Replayers.{HasLooked, HasNotLooked, MakesOnePoll, ReplayerEnded, ReplayerRan};

use crate::frame_sink::FrameSink;
use crate::gate::{Gate, Signals};
use archive_lock::{Made, Naming, SharedArchive};
use call_history::Pass;
use control_core::Event;
use disk_core::Disk;
use frame_core::Refusal;
use position_board::{Board, Reader};
use recorder_seats::polled;
use std::alloc::{AllocError, Global};
use std::snapshot::Snapshot;
use std::sync::Wait;

/// An agent that gives a replay's frames to a sink.
#[derive(Drop)]
pub struct Replayer<K> {
    /// By which it calls.
    pub pass: Pass<Made>,
    /// The number of its replay.
    pub replay: i64,
    /// How many frames it polls at once, from 1 to 4,096.
    pub max: i64,
    /// By which it looks at the board.
    pub reader: Reader,
    /// The slot that it follows.
    pub slot: usize,
    /// Where the frames go.
    pub sink: K,
    /// The positions that it looked at, in order, in bytes of the stream.
    pub looked: Vec<i64>,
    /// What refused a call, or `NoMemory`.
    pub refused: Option<Refusal>,
}

impl<K: FrameSink> Replayer<K> {
    /// One turn: a look, a poll, and its frames to the sink, even if there are none. Whether it goes on: not if the replay is
    /// done, if the sink wants no more, or if it was refused, which it keeps.
    pub fn turn<D: Disk, A: Naming, R: Wait>(
        &mut self,
        rt: &R,
        alloc: Global,
        archive: &SharedArchive<D, A>,
        board: &Board,
    ) -> bool
        requires pass { self.old.pass.table ≡ A.table }
        requires reader { self.old.reader.table ≡ board.now }
        requires slot { self.old.slot < board.now.words }
        ensures ran { (stop : Option Refusal) × ReplayerRan K.takes self.old self.new result stop }
        ensures one { MakesOnePoll self.old self.new }
    {
        let before = Snapshot::of(self);
        if self.look(board).is_err() {
            self.refused = Some(Refusal::NoMemory);
            return false;
        }
        self.poll(rt, alloc, archive, before)
    }

    /// Looks at its slot once, and keeps the position. If there is no memory to keep it, it does not look.
    fn look(&mut self, board: &Board) -> Result<(), AllocError>
        requires reader { self.old.reader.table ≡ board.now }
        requires slot { self.old.slot < board.now.words }
        ensures { MatchResult result (λ _. HasLooked self.old self.new)
            (λ _. HasNotLooked self.old self.new) }
    {
        self.looked.reserve(1)?;
        let position = board.look(&mut self.reader, self.slot);
        self.looked.push_reserved(position);
        Ok(())
    }

    /// Polls its replay once, after a look: `before` is what it was before that look. Its frames go to the sink, even if there
    /// are none. Whether it goes on.
    fn poll<D: Disk, A: Naming, R: Wait>(
        &mut self,
        rt: &R,
        alloc: Global,
        archive: &SharedArchive<D, A>,
        before: Snapshot<Replayer<K>>,
    ) -> bool
        requires pass { self.old.pass.table ≡ A.table }
        requires looked { HasLooked before.value self.old }
        ensures ran { (stop : Option Refusal) × ReplayerRan K.takes before.value self.new result stop }
        ensures one { MakesOnePoll before.value self.new }
    {
        let event = Event::ReplayPoll {
            replay: self.replay,
            max: self.max,
        };
        match archive.call(rt, alloc, &mut self.pass, &event) {
            Ok(reply) => {
                let (frames, is_done) = polled(reply);
                self.sink.take(frames.as_slice()) && !is_done
            }
            Err(refusal) => {
                self.refused = Some(refusal);
                false
            }
        }
    }
}

/// Turns of a replayer until it is done, the gate ends it or something is refused.
pub fn replay<K: FrameSink, D: Disk, A: Naming, G: Gate, R: Wait>(
    rt: &R,
    alloc: Global,
    agent: u32,
    mut replayer: Replayer<K>,
    archive: &SharedArchive<D, A>,
    board: &Board,
    signals: &Signals<'_, G>,
) -> Replayer<K>
    requires pass { replayer.pass.table ≡ A.table }
    requires reader { replayer.reader.table ≡ board.now }
    requires slot { replayer.slot < board.now.words }
    ensures { ReplayerEnded K.takes replayer result }
{
    for _ in rt.forever() {
        if !signals.goes_on(agent) {
            return replayer;
        }
        if !replayer.turn(rt, alloc, archive, board) {
            return replayer;
        }
    }
    unreachable!()
}
