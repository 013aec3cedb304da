//! Agents run, each in a thread of its own. docs/ARCHITECTURE.md, "Agents".

ghost use Rattle.std.specs.Prelude.{◌≡◌, ◌+◌, ◌<◌, ◌++◌, ◌∷◌, [], IfErr, IsTrue, Err, vec_capacity, vec_len, ◌↔◌};
ghost use Rattle.std.specs.Thread.{IsSync};
ghost use Rattle.frame_core.specs.declared.refusal.Refusal.TheVariants.{BadParameter, NoMemory};
ghost use Rattle.agents_core.specs.Receivers.{ReceiverEnded};
ghost use Rattle.agents_core.specs.Replayers.{ReplayerEnded};
ghost use Rattle.agents_core.specs.Runs.{AgentsBack, AgentsRan, AreOnSlots, AreReading, AreReady, AreSeated, IsRunnable, KeepsRoom, PairRan, PairsRan, ReplayersRan, pass_numbers};

use crate::agents::Agents;
use crate::block_source::BlockSource;
use crate::frame_sink::FrameSink;
use crate::gate::{Gate, Signals};
use crate::handoff::{Handoff, Putter, Taker};
use crate::item::Item;
use crate::receiver::{Receiver, receive};
use crate::recorder::{Recorder, record};
use crate::replayer::{Replayer, replay};
use archive_lock::{Naming, SharedArchive};
use disk_core::Disk;
use frame_core::Refusal;
use position_board::Board;
use std::alloc::Global;
use std::snapshot::Snapshot;
use std::sync::Wait;
use std::sync::atomic::AtomicBool;
use std::thread::{self, Promise, Threads};

/// What a receiver's thread keeps.
#[derive(Drop)]
struct Receives<S> {
    receiver: Snapshot<Receiver<S>>,
    putter: Snapshot<Putter<Item>>,
}

impl<S: BlockSource> Promise<(Receiver<S>, Putter<Item>)> for Receives<S> {
    ghost use Rattle.agents_core.specs.Receivers.{ReceiverEnded};

    ghost kept_by = { λ p r. ReceiverEnded S.gives p.receiver.value p.putter.value.handoff r.0 r.1 };
}

/// What a replayer's thread keeps.
#[derive(Drop)]
struct Replays<K> {
    replayer: Snapshot<Replayer<K>>,
}

impl<K: FrameSink> Promise<Replayer<K>> for Replays<K> {
    ghost use Rattle.agents_core.specs.Replayers.{ReplayerEnded};

    ghost kept_by = { λ p r. ReplayerEnded K.takes p.replayer.value r };
}

/// What the thread of the other agents keeps.
#[derive(Drop)]
struct RunsOthers<S, K> {
    agents: Snapshot<Agents<S, K>>,
}

impl<S: BlockSource, K: FrameSink> Promise<(Agents<S, K>, Result<(), Refusal>)>
    for RunsOthers<S, K> {
    ghost use Rattle.agents_core.specs.Runs.{AgentsBack};

    ghost kept_by = { λ p r. AgentsBack S.gives K.takes p.agents.value r.0 r.1 };
}

/// Runs each agent in a thread of its own until all have ended, and hands them back. Agents have numbers from 0: receivers,
/// then recorders, then replayers.
///
/// `BadParameter` exactly where there are not as many receivers as recorders, or a replayer's slot is none of the board's:
/// then none runs. `NoMemory`, also where no thread can be made: then each agent ends at its next turn, and what was done
/// stands. Makes as many threads as there are agents, and a handoff for each pair; agents that find nothing to do poll.
pub fn run_agents<
    D: Disk + Drop + Send,
    A: Naming + Send + Sync,
    S: BlockSource + Drop + Send,
    K: FrameSink + Drop + Send,
    G: Gate + Sync,
    R: Threads + Wait + Sync,
>(
    rt: &R,
    alloc: Global,
    archive: &SharedArchive<D, A>,
    board: &Board,
    agents: Agents<S, K>,
    gate: &G,
) -> (Agents<S, K>, Result<(), Refusal>)
    requires recorders { AreSeated A.table board.now agents.recorders.items }
    requires replayers { AreReading A.table board.now agents.replayers.items }
    ensures pairs { IsRunnable board.now.words agents →
        PairsRan S.gives agents.receivers.items agents.recorders.items
        result.0.receivers.items result.0.recorders.items }
    ensures replayers { IsRunnable board.now.words agents →
        ReplayersRan K.takes agents.replayers.items result.0.replayers.items }
    ensures refused { IsRunnable board.now.words agents →
        IfErr result.1 (λ refusal. refusal ≡ NoMemory) }
    ensures unfit { (IsRunnable board.now.words agents → ⊥) →
        (result.0 ≡ agents) × (result.1 ≡ Err BadParameter) }
    ensures seated { AreSeated A.table board.now result.0.recorders.items }
    ensures reading { AreReading A.table board.now result.0.replayers.items }
    ensures numbers { pass_numbers result.0 ≡ pass_numbers agents }
{
    let are_pairs = agents.receivers.len() == agents.recorders.len();
    if !are_pairs || !are_on(agents.replayers.as_slice(), board.slots()) {
        return (agents, Err(Refusal::BadParameter));
    }
    let ends = AtomicBool::new(false);
    let signals = Signals { gate, ends: &ends };
    let pairs = agents.recorders.len();
    run_pairs(rt, alloc, archive, board, pairs, agents, &signals)
}

/// Whether each replayer's slot is one of so many.
fn are_on<K>(replayers: &[Replayer<K>], slots: usize) -> bool
    ensures { IsTrue result ↔ AreOnSlots slots replayers.now }
{
    match replayers {
        [] => true,
        [replayer, rest @ ..] => replayer.slot < slots && are_on(rest, slots),
    }
}

/// Runs the last pair and, next to it, the others; then puts it back.
#[cycle(pairs)]
fn run_pairs<
    D: Disk + Drop + Send,
    A: Naming + Send + Sync,
    S: BlockSource + Drop + Send,
    K: FrameSink + Drop + Send,
    G: Gate + Sync,
    R: Threads + Wait + Sync,
>(
    rt: &R,
    alloc: Global,
    archive: &SharedArchive<D, A>,
    board: &Board,
    pairs: usize,
    mut agents: Agents<S, K>,
    signals: &Signals<'_, G>,
) -> (Agents<S, K>, Result<(), Refusal>)
    requires { AreReady A.table board.now agents }
    ensures { AgentsBack S.gives K.takes agents result.0 result.1 }
{
    let Some(recorder) = agents.recorders.pop() else {
        let Agents {
            receivers,
            recorders,
            replayers,
        } = agents;
        let (replayers, outcome) = run_replayers(
            rt, alloc, archive, board, pairs, replayers, signals,
        );
        return (
            Agents {
                receivers,
                recorders,
                replayers,
            },
            outcome,
        );
    };
    let Some(receiver) = agents.receivers.pop() else {
        unreachable!()
    };
    run_last_pair(
        rt, alloc, archive, board, pairs, agents, signals, receiver, recorder,
    )
}

/// Runs a pair and, in another thread, the others; then puts the pair back.
#[cycle(pairs)]
fn run_last_pair<
    D: Disk + Drop + Send,
    A: Naming + Send + Sync,
    S: BlockSource + Drop + Send,
    K: FrameSink + Drop + Send,
    G: Gate + Sync,
    R: Threads + Wait + Sync,
>(
    rt: &R,
    alloc: Global,
    archive: &SharedArchive<D, A>,
    board: &Board,
    pairs: usize,
    rest: Agents<S, K>,
    signals: &Signals<'_, G>,
    receiver: Receiver<S>,
    recorder: Recorder,
) -> (Agents<S, K>, Result<(), Refusal>)
    requires rest { AreReady A.table board.now rest }
    requires pass { recorder.seat.pass.table ≡ A.table }
    requires writer { recorder.seat.writer.table ≡ board.now }
    requires receivers_room { vec_len rest.receivers < vec_capacity rest.receivers }
    requires recorders_room { vec_len rest.recorders < vec_capacity rest.recorders }
    ensures ran { AgentsRan S.gives K.takes (rest.receivers.items ++ receiver ∷ [])
        (rest.recorders.items ++ recorder ∷ []) rest.replayers.items result.0 result.1 }
    ensures room { KeepsRoom 1 rest result.0 }
{
    let index = rest.recorders.len();
    thread::scope(
        thread::scope_env(),
        rt,
        |scope| -> (Agents<S, K>, Result<(), Refusal>)
            requires shared { IsSync R.row }
            requires rest { AreReady A.table board.now rest }
            requires pass { recorder.seat.pass.table ≡ A.table }
            requires writer { recorder.seat.writer.table ≡ board.now }
            requires receivers_room { vec_len rest.receivers < vec_capacity rest.receivers }
            requires recorders_room { vec_len rest.recorders < vec_capacity rest.recorders }
            ensures ran { AgentsRan S.gives K.takes (rest.receivers.items ++ receiver ∷ [])
                (rest.recorders.items ++ recorder ∷ []) rest.replayers.items result.0 result.1 }
            ensures room { KeepsRoom 1 rest result.0 }
        {
            let promise = RunsOthers {
                agents: Snapshot::of(&rest),
            };
            let running = scope.spawn_with(
                promise,
                move || -> (Agents<S, K>, Result<(), Refusal>)
                    requires shared { IsSync R.row }
                    requires rest { AreReady A.table board.now rest }
                    ensures { AgentsBack S.gives K.takes rest result.0 result.1 }
                { run_pairs(rt, alloc, archive, board, pairs, rest, signals) },
            );
            let runs = signals.note(running.is_ok());
            let (receiver, recorder, has_run) = run_pair(
                rt, alloc, archive, board, pairs, index, receiver, recorder, signals,
            );
            let (mut agents, outcome) = match running {
                Ok(thread) => thread.join(rt),
                Err(refused) => (refused.value)(),
            };
            agents.receivers.push_reserved(receiver);
            agents.recorders.push_reserved(recorder);
            (agents, outcome_of(runs && has_run, outcome))
        },
    )
}

/// Runs the pair of an index, and hands it back. Whether it could be started.
fn run_pair<
    D: Disk,
    A: Naming,
    S: BlockSource + Drop + Send,
    G: Gate + Sync,
    R: Threads + Wait + Sync,
>(
    rt: &R,
    alloc: Global,
    archive: &SharedArchive<D, A>,
    board: &Board,
    pairs: usize,
    index: usize,
    receiver: Receiver<S>,
    recorder: Recorder,
    signals: &Signals<'_, G>,
) -> (Receiver<S>, Recorder, bool)
    requires pass { recorder.seat.pass.table ≡ A.table }
    requires writer { recorder.seat.writer.table ≡ board.now }
    ensures { PairRan S.gives receiver recorder result.0 result.1 }
{
    let Ok((handoff, putter, taker)) = Handoff::new(alloc) else {
        let has_run = signals.note(false);
        return (receiver, recorder, has_run);
    };
    let is_over = AtomicBool::new(false);
    hand_over(
        rt, alloc, archive, board, pairs, index, receiver, recorder, signals, &handoff, putter,
        taker, &is_over,
    )
}

/// Runs a receiver in a thread of its own and its recorder in this one, over a handoff. Whether a thread could be made.
fn hand_over<
    D: Disk,
    A: Naming,
    S: BlockSource + Drop + Send,
    G: Gate + Sync,
    R: Threads + Wait + Sync,
>(
    rt: &R,
    alloc: Global,
    archive: &SharedArchive<D, A>,
    board: &Board,
    pairs: usize,
    index: usize,
    receiver: Receiver<S>,
    recorder: Recorder,
    signals: &Signals<'_, G>,
    handoff: &Handoff<Item>,
    putter: Putter<Item>,
    taker: Taker<Item>,
    is_over: &AtomicBool,
) -> (Receiver<S>, Recorder, bool)
    requires pass { recorder.seat.pass.table ≡ A.table }
    requires writer { recorder.seat.writer.table ≡ board.now }
    requires putter { putter ≡ record { handoff = handoff.now; put = [] } }
    requires taker { taker ≡ record { handoff = handoff.now; taken = [] } }
    ensures { PairRan S.gives receiver recorder result.0 result.1 }
{
    let handing = number_of(index);
    let recording = number_of(pairs.saturating_add(index));
    thread::scope(
        thread::scope_env(),
        rt,
        |scope| -> (Receiver<S>, Recorder, bool)
            requires shared { IsSync R.row }
            requires pass { recorder.seat.pass.table ≡ A.table }
            requires writer { recorder.seat.writer.table ≡ board.now }
            requires putter { putter ≡ record { handoff = handoff.now; put = [] } }
            requires taker { taker ≡ record { handoff = handoff.now; taken = [] } }
            ensures { PairRan S.gives receiver recorder result.0 result.1 }
        {
            let promise = Receives {
                receiver: Snapshot::of(&receiver),
                putter: Snapshot::of(&putter),
            };
            let receiving = scope.spawn_with(
                promise,
                move || -> (Receiver<S>, Putter<Item>)
                    requires handoff { putter.handoff ≡ handoff.now }
                    requires empty { putter.put ≡ [] }
                    ensures { ReceiverEnded S.gives receiver handoff.entry.now result.0 result.1 }
                { receive(rt, handing, receiver, handoff, putter, signals, is_over) },
            );
            let runs = signals.note(receiving.is_ok());
            let (recorder, taker) = record(
                rt, alloc, recording, recorder, archive, board, handoff, taker, signals, is_over,
            );
            let (receiver, putter) = match receiving {
                Ok(thread) => thread.join(rt),
                Err(refused) => (refused.value)(),
            };
            handoff.compare(putter, taker);
            (receiver, recorder, runs)
        },
    )
}

/// The outcome of agents, of which some could not be started.
fn outcome_of(all_run: bool, outcome: Result<(), Refusal>) -> Result<(), Refusal>
    requires { IfErr outcome (λ refusal. refusal ≡ NoMemory) }
    ensures { IfErr result (λ refusal. refusal ≡ NoMemory) }
{
    if all_run {
        outcome
    } else {
        Err(Refusal::NoMemory)
    }
}

/// Runs the last replayer and, beside it, the others; then puts it back.
#[cycle(replayers)]
fn run_replayers<
    D: Disk + Drop + Send,
    A: Naming + Send + Sync,
    K: FrameSink + Drop + Send,
    G: Gate + Sync,
    R: Threads + Wait + Sync,
>(
    rt: &R,
    alloc: Global,
    archive: &SharedArchive<D, A>,
    board: &Board,
    pairs: usize,
    mut replayers: Vec<Replayer<K>>,
    signals: &Signals<'_, G>,
) -> (Vec<Replayer<K>>, Result<(), Refusal>)
    requires reading { AreReading A.table board.now replayers.items }
    requires slots { AreOnSlots board.now.words replayers.items }
    ensures ran { ReplayersRan K.takes replayers.items result.0.items }
    ensures refused { IfErr result.1 (λ refusal. refusal ≡ NoMemory) }
    ensures room { vec_capacity result.0 ≡ vec_capacity replayers }
    ensures len { vec_len result.0 ≡ vec_len replayers }
{
    let Some(replayer) = replayers.pop() else {
        return (replayers, Ok(()));
    };
    run_replayer(
        rt, alloc, archive, board, pairs, replayers, signals, replayer,
    )
}

/// Runs a replayer, and the others beside it.
#[cycle(replayers)]
fn run_replayer<
    D: Disk + Drop + Send,
    A: Naming + Send + Sync,
    K: FrameSink + Drop + Send,
    G: Gate + Sync,
    R: Threads + Wait + Sync,
>(
    rt: &R,
    alloc: Global,
    archive: &SharedArchive<D, A>,
    board: &Board,
    pairs: usize,
    rest: Vec<Replayer<K>>,
    signals: &Signals<'_, G>,
    replayer: Replayer<K>,
) -> (Vec<Replayer<K>>, Result<(), Refusal>)
    requires reading { AreReading A.table board.now rest.items }
    requires slots { AreOnSlots board.now.words rest.items }
    requires pass { replayer.pass.table ≡ A.table }
    requires reader { replayer.reader.table ≡ board.now }
    requires slot { replayer.slot < board.now.words }
    requires room { vec_len rest < vec_capacity rest }
    ensures ran { ReplayersRan K.takes (rest.items ++ replayer ∷ []) result.0.items }
    ensures refused { IfErr result.1 (λ refusal. refusal ≡ NoMemory) }
    ensures room { vec_capacity result.0 ≡ vec_capacity rest }
    ensures len { vec_len result.0 ≡ vec_len rest + 1 }
{
    let index = pairs.saturating_add(pairs).saturating_add(rest.len());
    let agent = number_of(index);
    thread::scope(
        thread::scope_env(),
        rt,
        |scope| -> (Vec<Replayer<K>>, Result<(), Refusal>)
            requires shared { IsSync R.row }
            requires reading { AreReading A.table board.now rest.items }
            requires slots { AreOnSlots board.now.words rest.items }
            requires pass { replayer.pass.table ≡ A.table }
            requires reader { replayer.reader.table ≡ board.now }
            requires slot { replayer.slot < board.now.words }
            requires room { vec_len rest < vec_capacity rest }
            ensures ran { ReplayersRan K.takes (rest.items ++ replayer ∷ []) result.0.items }
            ensures refused { IfErr result.1 (λ refusal. refusal ≡ NoMemory) }
            ensures room { vec_capacity result.0 ≡ vec_capacity rest }
            ensures len { vec_len result.0 ≡ vec_len rest + 1 }
        {
            let promise = Replays {
                replayer: Snapshot::of(&replayer),
            };
            let replaying = scope.spawn_with(
                promise,
                move || -> Replayer<K>
                    requires pass { replayer.pass.table ≡ A.table }
                    requires reader { replayer.reader.table ≡ board.now }
                    requires slot { replayer.slot < board.now.words }
                    ensures { ReplayerEnded K.takes replayer result }
                { replay(rt, alloc, agent, replayer, archive, board, signals) },
            );
            let runs = signals.note(replaying.is_ok());
            let (mut replayers, outcome) = run_replayers(
                rt, alloc, archive, board, pairs, rest, signals,
            );
            let replayer = match replaying {
                Ok(thread) => thread.join(rt),
                Err(refused) => (refused.value)(),
            };
            replayers.push_reserved(replayer);
            (replayers, outcome_of(runs, outcome))
        },
    )
}

/// The number of an agent. There are never as many threads as a `u32` counts.
fn number_of(index: usize) -> u32 {
    u32::try_from(index).unwrap_or(u32::MAX)
}
