//! Agents, each in a thread of its own: docs/ARCHITECTURE.md, "Agents".

ghost use Rattle.std.specs.Prelude.{◌≡◌, IfOk, IfSome};
ghost use Rattle.agents_core.specs.Runs.{AreReading, AreSeated};

use crate::archives::{Scenario, Seats, played};
use crate::left::Then;
use crate::seat::Seat;
use agents_core::{
    Agents, BlockSource, FrameSink, Gate, Receiver, Recorder, RecorderSeat, Replayer, run_agents,
};
use archive_lock::{Made, Naming, SharedArchive};
use archive_model::PolledFrame;
use call_history::Pass;
use disk_core::Disk;
use frame_core::{Block, Frame, FrameKind, Items};
use position_board::{Board, Reader};
use std::alloc::{AllocError, Global};
use std::process::Abort;
use std::sync::Wait;
use std::sync::atomic::{AtomicU32, Ordering};
use std::test::Fail;
use std::thread::{self, Threads};

/// How often an agent may look while it waits, and how many turns it may make.
pub(crate) const MOST: u32 = 1_000_000;

/// Four agents arrive, and each then waits for the others.
#[derive(Clone, Copy)]
pub(crate) struct Meeting<'a> {
    arrived: &'a AtomicU32,
}

impl<'a> Meeting<'a> {
    /// Whether all arrived in time.
    fn is_met(&self) -> bool {
        self.arrived.fetch_add(1, Ordering::SeqCst);
        for _ in 0..MOST {
            if self.arrived.load(Ordering::SeqCst) >= 4 {
                return true;
            }
            thread::yield_now();
        }
        false
    }
}

/// Whether all arrived in time at a meeting, if there is one.
fn is_met(meeting: Option<Meeting<'_>>) -> bool {
    match meeting {
        Some(meeting) => meeting.is_met(),
        None => true,
    }
}

/// Blocks, from the last to the first, perhaps after a meeting.
#[derive(Drop)]
struct Listed<'a> {
    blocks: Vec<Block>,
    meeting: Option<Meeting<'a>>,
}

impl<'a> BlockSource for Listed<'a> {
    ghost use Rattle.std.specs.Prelude.{⊤};

    ghost gives = { λ old block new. ⊤ };

    fn next(&mut self) -> Option<Block> {
        if is_met(self.meeting.take()) {
            self.blocks.pop()
        } else {
            None
        }
    }
}

/// Counts frames, perhaps after a meeting, and wants so many. It knows how many one call brought at most, and how often it
/// was called once it wanted no more.
#[derive(Drop)]
struct Counting<'a> {
    frames: usize,
    wanted: usize,
    most: usize,
    late: usize,
    is_closed: bool,
    meeting: Option<Meeting<'a>>,
}

impl<'a> FrameSink for Counting<'a> {
    ghost use Rattle.std.specs.Prelude.{⊤};

    ghost takes = { λ old frames more new. ⊤ };

    fn take(&mut self, frames: &[PolledFrame]) -> bool {
        self.late = self.late.saturating_add(usize::from(self.is_closed));
        let is_met = is_met(self.meeting.take());
        thread::yield_now();
        self.frames = self.frames.saturating_add(frames.len());
        self.most = self.most.max(frames.len());
        let is_open = is_met & (self.frames < self.wanted);
        self.is_closed = !is_open;
        is_open
    }
}

/// So many turns for each of six agents.
#[derive(Drop)]
struct Turns {
    made: [AtomicU32; 6],
}

impl Gate for Turns {
    fn turn(&self, agent: u32) -> bool {
        match self.made.get(agent as usize) {
            Some(made) => made.fetch_add(1, Ordering::SeqCst) < MOST,
            None => false,
        }
    }
}

/// How many turns each agent makes that is ended by its gate: receivers, recorders, replayers.
const TURNS: [u32; 6] = [3, 4, 2, 1, 5, 6];

/// Says no to each agent at a turn of its own. A recorder waits until that was said to its receiver.
#[derive(Drop)]
struct Ends {
    asked: [AtomicU32; 6],
}

impl Ends {
    /// How often an agent asked.
    fn asked_by(&self, agent: usize) -> u32 {
        match self.asked.get(agent) {
            Some(asked) => asked.load(Ordering::SeqCst),
            None => 0,
        }
    }

    /// Waits, for a recorder, until its receiver was refused a turn.
    fn wait_for_receiver(&self, agent: u32) {
        if agent != 2 && agent != 3 {
            return;
        }
        let (receiver, turns) = if agent == 2 { (0, 3) } else { (1, 4) };
        for _ in 0..MOST {
            if self.asked_by(receiver) > turns {
                return;
            }
            thread::yield_now();
        }
    }
}

impl Gate for Ends {
    fn turn(&self, agent: u32) -> bool {
        self.wait_for_receiver(agent);
        match (self.asked.get(agent as usize), TURNS.get(agent as usize)) {
            (Some(asked), Some(turns)) => asked.fetch_add(1, Ordering::SeqCst) < *turns,
            _ => false,
        }
    }
}

/// What agents are made with: what the first seat says before they run; where the blocks of each source begin, from the last on; how
/// many frames the first sink wants; and where sources and sinks meet.
#[derive(Clone, Copy)]
pub(crate) struct Plan<'a> {
    pub script: &'a str,
    pub offsets: &'a [i32],
    pub wanted: usize,
    pub meeting: Option<Meeting<'a>>,
}

/// What the agents did. The first sink says how many frames a call of it brought at most.
#[derive(Clone, Copy)]
pub(crate) struct Told {
    pub has_run: bool,
    pub refused: usize,
    pub rising: usize,
    late: usize,
    most: usize,
    pub frames: [usize; 2],
    pub left: [usize; 2],
    pub polls: u64,
}

/// Two receivers with their recorders and two replayers run at once, each in its own thread. All blocks are recorded, and
/// replayed as far as each sink wants.
#[test]
fn two_recorders_and_two_replayers(rt: HostRuntime) -> Result<(), Fail> {
    played(&rt, rt.alloc(), true, Scenario::Agents)
}

/// A gate ends each of six agents at a turn of its own: each is asked by its number, before each turn.
#[test]
fn a_gate_ends_each_agent_at_its_turn(rt: HostRuntime) -> Result<(), Fail> {
    played(&rt, rt.alloc(), true, Scenario::Gated)
}

/// Two recordings, and a replay of each.
const BEGUN: &str = "\
start 1001 7 42 65536 1408 65536 0 1000 c: started 0 0
start 1001 7 42 65536 1408 65536 0 1000 c: started 1 1
replay 0 0 192: replay 0
replay 1 0 192: replay 1
";

/// Two receivers with their recorders, and two replayers. Both sources and both sinks meet. The first seat makes four calls
/// before they run.
pub(crate) fn two_pairs<
    D: Disk + Drop + Send,
    A: Naming + Send + Sync,
    R: Threads + Wait + Abort + Sync,
>(
    rt: &R,
    alloc: Global,
    archive: &SharedArchive<D, A>,
    seats: Seats<A>,
) -> Result<(Seats<A>, Then), Fail> {
    let arrived = AtomicU32::new(0);
    let plan = Plan {
        script: BEGUN,
        offsets: &[128, 64, 0],
        wanted: 1,
        meeting: Some(Meeting { arrived: &arrived }),
    };
    let gate = Turns { made: zeros() };
    let (seats, told) = ran(rt, alloc, archive, seats, plan, &gate)?;
    assert!(rt; arrived.load(Ordering::SeqCst) == 4);
    check_whole(rt, told, &gate);
    Ok((seats, Then::Calls(told.polls.saturating_add(16))))
}

/// All blocks were recorded, and replayed as far as each sink wants.
fn check_whole(rt: &impl Abort, told: Told, gate: &Turns) {
    assert!(rt; told.has_run && told.refused == 0 && told.rising == 2);
    // One sink ends at the poll that has its first frame, and is not called again; the other has all three.
    assert!(rt; told.frames == [told.most, 3] && told.most > 0 && told.late == 0);
    assert!(rt; told.left == [0, 0]);
    for made in &gate.made {
        assert!(rt; (1..=MOST).contains(&made.load(Ordering::SeqCst)));
    }
}

/// The same agents without a meeting, over longer lists of blocks, ended by their gate.
pub(crate) fn gated_pairs<
    D: Disk + Drop + Send,
    A: Naming + Send + Sync,
    R: Threads + Wait + Abort + Sync,
>(
    rt: &R,
    alloc: Global,
    archive: &SharedArchive<D, A>,
    seats: Seats<A>,
) -> Result<(Seats<A>, Then), Fail> {
    let plan = Plan {
        script: BEGUN,
        offsets: &[448, 384, 320, 256, 192, 128, 64, 0],
        wanted: 100,
        meeting: None,
    };
    let gate = Ends { asked: zeros() };
    let (seats, told) = ran(rt, alloc, archive, seats, plan, &gate)?;
    check_gated(rt, told, &gate);
    Ok((seats, Then::Calls(4 + 2 * 2 + 2 + 5 + 6)))
}

/// Each agent made as many turns as its gate let it.
fn check_gated(rt: &impl Abort, told: Told, gate: &Ends) {
    assert!(rt; told.has_run && told.refused == 0 && told.rising == 2);
    // Each agent asked once more than it made turns, by a number of its own.
    for (asked, turns) in gate.asked.iter().zip(TURNS) {
        assert!(rt; asked.load(Ordering::SeqCst) == turns.saturating_add(1));
    }
    // A receiver's turn takes a block, a recorder's makes two calls, a replayer's one.
    assert!(rt; told.left == [5, 4] && told.polls == 11);
}

pub(crate) fn zeros() -> [AtomicU32; 6] {
    [
        AtomicU32::new(0),
        AtomicU32::new(0),
        AtomicU32::new(0),
        AtomicU32::new(0),
        AtomicU32::new(0),
        AtomicU32::new(0),
    ]
}

/// Makes agents by a plan, and runs them. The seats again, and what the agents did.
pub(crate) fn ran<
    D: Disk + Drop + Send,
    A: Naming + Send + Sync,
    G: Gate + Sync,
    R: Threads + Wait + Abort + Sync,
>(
    rt: &R,
    alloc: Global,
    archive: &SharedArchive<D, A>,
    mut seats: Seats<A>,
    plan: Plan<'_>,
    gate: &G,
) -> Result<(Seats<A>, Told), Fail> {
    if let Err(fail) = seats.first.plays(rt, alloc, archive, plan.script) {
        return Err(fail);
    }
    let ran = match seated(alloc, seats, plan) {
        Some((board, agents)) => run(rt, alloc, archive, &board, agents, gate),
        None => None,
    };
    match ran {
        Some(ran) => Ok(ran),
        None => Err(Fail::from("no agents")),
    }
}

/// A board, and the agents of four seats.
fn seated<'a, A: Naming>(
    alloc: Global,
    seats: Seats<A>,
    plan: Plan<'a>,
) -> Option<(Board, Agents<Listed<'a>, Counting<'a>>)>
    ensures seated { IfSome result (λ made. AreSeated A.table made.0 made.1.recorders.items) }
    ensures reading { IfSome result (λ made. AreReading A.table made.0 made.1.replayers.items) }
{
    let Ok((board, mut writers, mut readers)) = Board::new(alloc, &[0, 0], 2) else {
        return None;
    };
    let (Some(second), Some(first), Some(late), Some(early)) = (
        writers.pop(),
        writers.pop(),
        readers.pop(),
        readers.pop(),
    ) else {
        return None;
    };
    let first = RecorderSeat::new(0, seats.first.into_pass(), first);
    let second = RecorderSeat::new(1, seats.second.into_pass(), second);
    let follower = replayer(alloc, seats.third.into_pass(), 0, early, plan.wanted, plan);
    let late = replayer(alloc, seats.fourth.into_pass(), 1, late, 100, plan);
    match agents_of::<A>(alloc, &board, plan, first, second, follower, late) {
        Some(agents) => Some((board, agents)),
        None => None,
    }
}

fn agents_of<'a, A: Naming>(
    alloc: Global,
    board: &Board,
    plan: Plan<'a>,
    first: RecorderSeat,
    second: RecorderSeat,
    follower: Replayer<Counting<'a>>,
    late: Replayer<Counting<'a>>,
) -> Option<Agents<Listed<'a>, Counting<'a>>>
    requires first { (first.pass.table ≡ A.table) × (first.writer.table ≡ board.now) }
    requires second { (second.pass.table ≡ A.table) × (second.writer.table ≡ board.now) }
    requires follower { (follower.pass.table ≡ A.table) × (follower.reader.table ≡ board.now) }
    requires late { (late.pass.table ≡ A.table) × (late.reader.table ≡ board.now) }
    ensures seated { IfSome result (λ agents. AreSeated A.table board.now agents.recorders.items) }
    ensures reading { IfSome result (λ agents. AreReading A.table board.now agents.replayers.items) }
{
    let (Ok(receivers), Ok(recorders), Ok(replayers)) = (
        receivers(alloc, plan),
        recorders::<A>(alloc, board, first, second),
        replayers::<A>(alloc, board, follower, late),
    ) else {
        return None;
    };
    Some(Agents {
        receivers,
        recorders,
        replayers,
    })
}

/// Runs the agents. Their seats, and what they did.
fn run<D: Disk + Drop + Send, A: Naming + Send + Sync, G: Gate + Sync, R: Threads + Wait + Sync>(
    rt: &R,
    alloc: Global,
    archive: &SharedArchive<D, A>,
    board: &Board,
    agents: Agents<Listed<'_>, Counting<'_>>,
    gate: &G,
) -> Option<(Seats<A>, Told)>
    requires recorders { AreSeated A.table board.now agents.recorders.items }
    requires replayers { AreReading A.table board.now agents.replayers.items }
{
    let (agents, outcome) = run_agents(rt, alloc, archive, board, agents, gate);
    let told = told_by(outcome.is_ok(), &agents);
    match seats_left::<A>(board, agents) {
        Some(seats) => Some((seats, told)),
        None => None,
    }
}

/// The seats of all agents.
fn seats_left<A: Naming>(
    board: &Board,
    agents: Agents<Listed<'_>, Counting<'_>>,
) -> Option<Seats<A>>
    requires recorders { AreSeated A.table board.now agents.recorders.items }
    requires replayers { AreReading A.table board.now agents.replayers.items }
{
    let Agents {
        receivers: _,
        mut recorders,
        mut replayers,
    } = agents;
    let (Some(second), Some(first), Some(fourth), Some(third)) = (
        recorder_seat::<A>(board, &mut recorders),
        recorder_seat::<A>(board, &mut recorders),
        replayer_seat::<A>(board, &mut replayers),
        replayer_seat::<A>(board, &mut replayers),
    ) else {
        return None;
    };
    Some(Seats {
        first,
        second,
        third,
        fourth,
    })
}

fn recorder_seat<A: Naming>(board: &Board, recorders: &mut Vec<Recorder>) -> Option<Seat<A>>
    requires { AreSeated A.table board.now recorders.old.items }
    ensures { AreSeated A.table board.now recorders.new.items }
{
    let _ = board;
    match recorders.pop() {
        Some(recorder) => Some(seat_of(recorder.seat)),
        None => None,
    }
}

/// The seat of a recorder's pass.
fn seat_of<A: Naming>(recorder: RecorderSeat) -> Seat<A>
    requires { recorder.pass.table ≡ A.table }
{
    let (pass, _) = recorder.into_parts();
    Seat::new(pass)
}

fn replayer_seat<A: Naming>(
    board: &Board,
    replayers: &mut Vec<Replayer<Counting<'_>>>,
) -> Option<Seat<A>>
    requires { AreReading A.table board.now replayers.old.items }
    ensures { AreReading A.table board.now replayers.new.items }
{
    let _ = board;
    match replayers.pop() {
        Some(replayer) => Some(Seat::new(replayer.pass)),
        None => None,
    }
}

fn told_by(has_run: bool, agents: &Agents<Listed<'_>, Counting<'_>>) -> Told {
    let mut told = Told {
        has_run,
        refused: refused_of(agents.recorders.as_slice()),
        rising: 0,
        late: 0,
        most: 0,
        frames: [0; 2],
        left: left_of(agents.receivers.as_slice()),
        polls: 0,
    };
    if let [first, second] = agents.replayers.as_slice() {
        note(&mut told, first);
        note(&mut told, second);
        told.most = first.sink.most;
        told.frames = [first.sink.frames, second.sink.frames];
    }
    told
}

/// How many blocks each source still has.
fn left_of(receivers: &[Receiver<Listed<'_>>]) -> [usize; 2] {
    match receivers {
        [first, second] => [first.source.blocks.len(), second.source.blocks.len()],
        _ => [usize::MAX; 2],
    }
}

/// How many recorders were refused.
fn refused_of(recorders: &[Recorder]) -> usize {
    let mut refused = 0_usize;
    for recorder in recorders {
        if recorder.refused.is_some() {
            refused = refused.saturating_add(1);
        }
    }
    refused
}

/// Adds what a replayer did.
fn note(told: &mut Told, replayer: &Replayer<Counting<'_>>) {
    if replayer.refused.is_some() {
        told.refused = told.refused.saturating_add(1);
    }
    if replayer.looked.as_slice().is_sorted() {
        told.rising = told.rising.saturating_add(1);
    }
    told.late = told.late.saturating_add(replayer.sink.late);
    told.polls = told.polls.saturating_add(replayer.looked.len() as u64);
}

/// Two receivers of the plan's blocks.
fn receivers<'a>(alloc: Global, plan: Plan<'a>) -> Result<Vec<Receiver<Listed<'a>>>, AllocError> {
    let first = receiver(alloc, plan)?;
    let second = receiver(alloc, plan)?;
    Ok(vec![in alloc; first, second]?)
}

fn receiver<'a>(alloc: Global, plan: Plan<'a>) -> Result<Receiver<Listed<'a>>, AllocError> {
    Ok(Receiver {
        source: Listed {
            blocks: blocks(alloc, plan.offsets)?,
            meeting: plan.meeting,
        },
    })
}

/// Blocks of a frame each, from the last to the first.
fn blocks(alloc: Global, offsets: &[i32]) -> Result<Vec<Block>, AllocError> {
    let mut blocks = Vec::new(alloc);
    for offset in offsets {
        blocks.push(block_of(alloc, 7, *offset)?)?;
    }
    Ok(blocks)
}

/// The block of one frame of a session id at an offset of the first term.
pub(crate) fn block_of(alloc: Global, session_id: i32, offset: i32) -> Result<Block, AllocError> {
    let frame = Frame {
        kind: FrameKind::Message,
        flags: 0xC0,
        length: 37,
        term_offset: offset,
        session_id,
        stream_id: 1_001,
        term_id: 42,
        reserved: 0,
        payload: Items::from_vec(b"hello".to_vec(alloc)?),
    };
    Ok(Block {
        position: offset as i64,
        frames: Items::from_vec(vec![in alloc; frame]?),
    })
}

fn recorders<A: Naming>(
    alloc: Global,
    board: &Board,
    first: RecorderSeat,
    second: RecorderSeat,
) -> Result<Vec<Recorder>, AllocError>
    requires first { (first.pass.table ≡ A.table) × (first.writer.table ≡ board.now) }
    requires second { (second.pass.table ≡ A.table) × (second.writer.table ≡ board.now) }
    ensures { IfOk result (λ recorders. AreSeated A.table board.now recorders.items) }
{
    let _ = board;
    let first = Recorder {
        seat: first,
        refused: None,
    };
    let second = Recorder {
        seat: second,
        refused: None,
    };
    Ok(vec![in alloc; first, second]?)
}

/// A replayer that follows the slot of its replay's number, and whose sink wants so many frames.
fn replayer<'a>(
    alloc: Global,
    pass: Pass<Made>,
    number: u32,
    reader: Reader,
    wanted: usize,
    plan: Plan<'a>,
) -> Replayer<Counting<'a>>
    ensures { (result.pass ≡ pass) × (result.reader ≡ reader) }
{
    Replayer {
        pass,
        replay: number as i64,
        max: 10,
        reader,
        slot: number as usize,
        sink: Counting {
            frames: 0,
            wanted,
            most: 0,
            late: 0,
            is_closed: false,
            meeting: plan.meeting,
        },
        looked: Vec::new(alloc),
        refused: None,
    }
}

fn replayers<'a, A: Naming>(
    alloc: Global,
    board: &Board,
    first: Replayer<Counting<'a>>,
    second: Replayer<Counting<'a>>,
) -> Result<Vec<Replayer<Counting<'a>>>, AllocError>
    requires first { (first.pass.table ≡ A.table) × (first.reader.table ≡ board.now) }
    requires second { (second.pass.table ≡ A.table) × (second.reader.table ≡ board.now) }
    ensures { IfOk result (λ replayers. AreReading A.table board.now replayers.items) }
{
    let _ = board;
    Ok(vec![in alloc; first, second]?)
}
