//! Threads at one shared archive, each with a pass and its work.

ghost use Rattle.std.specs.Prelude.{◌≡◌, [], IfOk};
ghost use Rattle.call_history.specs.Passes.{AllOfTable};
ghost use Rattle.archive_lock.specs.Held.{engine_seen, view_of};

use crate::job::{Job, done};
use crate::seat::Seat;
use crate::work::{Plan, Work};
use archive_lock::{Call, Closed, Made, Naming, SharedArchive};
use call_history::{Opened, Pass, Stored};
use disk_core::Disk;
use engine_core::Engine;
use frame_core::Refusal;
use std::alloc::{AllocError, Global};
use std::io::Print;
use std::marker::Brand;
use std::rt::Clock;
use std::sync::Wait;
use std::thread::{Threads, map_vec};
use std::time::Instant;

/// What threads left.
#[derive(Drop)]
pub(crate) struct Left<D: Disk> {
    /// The archive.
    pub engine: Engine<D>,
    /// The records of its calls, or their number.
    pub history: Stored<Call>,
    /// The work of each thread.
    pub works: Vec<Work>,
    /// How many microseconds the threads worked.
    pub took: Option<u128>,
}

/// What the threads give back: their passes, their work, the last call of each first, and the time.
#[derive(Drop)]
struct Done {
    passes: Vec<Pass<Made>>,
    works: Vec<Work>,
    took: Option<u128>,
}

/// Lets so many threads work at an archive.
pub(crate) fn crewed<D: Disk + Drop + Send, R: Threads + Wait + Clock + Print + Sync>(
    rt: &R,
    alloc: Global,
    engine: Engine<D>,
    keeps: bool,
    threads: u64,
    plan: Plan,
) -> Result<Left<D>, Refusal> {
    let Ok(opened) = Opened::new(alloc, keeps) else {
        return Err(Refusal::NoMemory);
    };
    shared::<D, Brand, R>(rt, alloc, opened, engine, threads, plan)
}

fn shared<D: Disk + Drop + Send, A: Naming + Send + Sync, R: Threads + Wait + Clock + Print + Sync>(
    rt: &R,
    alloc: Global,
    opened: Opened<Made>,
    engine: Engine<D>,
    threads: u64,
    plan: Plan,
) -> Result<Left<D>, Refusal>
    requires named { opened.table ≡ A.table }
    requires counts { threads ≡ A.passes }
    requires stores { opened.keeps ≡ A.keeps }
    requires opens { engine_seen D.life (view_of engine []) ≡ A.opening }
{
    let Ok((archive, passes)) = SharedArchive::<D, A>::new(alloc, opened, engine, threads) else {
        return Err(Refusal::NoMemory);
    };
    let done = at_work(rt, alloc, &archive, passes, plan);
    closed(archive, done)
}

/// The archive with its history, once the threads are done.
fn closed<D: Disk + Drop, A: Naming>(
    archive: SharedArchive<D, A>,
    done: Result<Done, Refusal>,
) -> Result<Left<D>, Refusal>
    requires { IfOk done (λ done. AllOfTable A.table done.passes.items) }
{
    let Done {
        passes,
        works,
        took,
    } = done?;
    let Ok(
        Closed {
            engine,
            opening: _,
            history,
        },
    ) = archive.close(passes)
    else {
        return Err(Refusal::BadParameter);
    };
    Ok(Left {
        engine,
        history,
        works,
        took,
    })
}

/// A thread for each pass.
fn at_work<
    D: Disk + Drop + Send,
    A: Naming + Send + Sync,
    R: Threads + Wait + Clock + Print + Sync,
>(
    rt: &R,
    alloc: Global,
    archive: &SharedArchive<D, A>,
    passes: Vec<Pass<Made>>,
    plan: Plan,
) -> Result<Done, Refusal>
    requires { AllOfTable A.table passes.items }
    ensures { IfOk result (λ done. AllOfTable A.table done.passes.items) }
{
    let mut jobs = jobs_of::<A>(alloc, passes, plan)?;
    let outcome = prepared(rt, alloc, archive, jobs.as_mut_slice());
    match outcome {
        Ok(()) => timed(rt, alloc, archive, jobs),
        Err(refusal) => Err(refusal),
    }
}

/// A job for each pass, in their order.
#[tactic(auto, using(crate::proofs::PassLemmas::all_front, crate::proofs::PassLemmas::all_last))]
fn jobs_of<A: Naming>(
    alloc: Global,
    mut passes: Vec<Pass<Made>>,
    plan: Plan,
) -> Result<Vec<Job<A>>, AllocError>
    requires { AllOfTable A.table passes.items }
{
    let mut jobs = Vec::new(alloc);
    while let Some(pass) = passes.pop() {
        let number = u32::try_from(passes.len()).unwrap_or(0);
        jobs.push(Job {
            seat: Seat::new(pass),
            work: Work::new(alloc, plan, number),
        })?;
    }
    jobs.reverse();
    Ok(jobs)
}

/// Does what comes before the threads, one job after another.
fn prepared<D: Disk, A: Naming, R: Wait + Clock + Print>(
    rt: &R,
    alloc: Global,
    archive: &SharedArchive<D, A>,
    jobs: &mut [Job<A>],
) -> Result<(), Refusal> {
    for job in jobs.iter_mut() {
        job.prepare(rt, alloc, archive)?;
    }
    Ok(())
}

/// The threads work, for as long as is told.
fn timed<D: Disk + Drop + Send, A: Naming + Send + Sync, R: Threads + Wait + Clock + Print + Sync>(
    rt: &R,
    alloc: Global,
    archive: &SharedArchive<D, A>,
    jobs: Vec<Job<A>>,
) -> Result<Done, Refusal>
    ensures { IfOk result (λ done. AllOfTable A.table done.passes.items) }
{
    let begun = now(rt);
    let jobs = map_vec(rt, jobs, &|job| done(rt, alloc, archive, job))?;
    let took = since(rt, begun);
    Ok(parts_of(alloc, jobs, took)?)
}

/// The time, where the clock tells it.
pub(crate) fn now<R: Clock>(rt: &R) -> Option<Instant> {
    Instant::now(rt).ok()
}

/// The microseconds from a time on.
pub(crate) fn since<R: Clock>(rt: &R, begun: Option<Instant>) -> Option<u128> {
    let begun = begun?;
    let elapsed = begun.elapsed(rt).ok()?;
    Some(elapsed.as_micros())
}

/// The passes and the work of jobs.
#[tactic(auto, using(crate::proofs::PassLemmas::all_push))]
fn parts_of<A: Naming>(
    alloc: Global,
    jobs: Vec<Job<A>>,
    took: Option<u128>,
) -> Result<Done, AllocError>
    ensures { IfOk result (λ done. AllOfTable A.table done.passes.items) }
{
    let mut passes = Vec::new(alloc);
    let mut works = Vec::new(alloc);
    for job in jobs {
        let Job { seat, mut work } = job;
        work.said.reverse();
        passes.push(seat.into_pass())?;
        works.push(work)?;
    }
    Ok(Done {
        passes,
        works,
        took,
    })
}
