//! Threads that share an archive: what trials/threads.py and bench/threads.py run. The first word says what, and the rest how
//! much: `memory RUNS SEED`, or `census` with what was answered; `folder FOLDER SEED TURNS`; `speed HOW DISK SIZE BLOCKS`, and
//! how many blocks a settle has where that is not one; `polls FOLDER REPLAYS FRAMES`, for bench/polls.py.
#![tactic(auto)]

mod blocks;
mod book;
mod chance;
mod crew;
mod folder;
mod job;
mod polls;
mod recorder;
mod retention;
mod seat;
mod speed;
mod storm;
mod text;
mod work;

use anyhow::{Result, bail};
use frame_core::Refusal;
use speed::Load;
use std::alloc::Global;
use std::env;
use std::io::Print;
use std::rt::Clock;
use std::sync::Wait;
use std::thread::Threads;
use storm::Verdict;

fn main(rt: HostRuntime) -> Result<()> {
    let words = words_of(rt)?;
    match obeyed(&rt, rt, words.as_slice()) {
        Ok(()) => Ok(()),
        Err(refusal) => bail!("{refusal:?}"),
    }
}

/// The words of the command line, the program's name first.
fn words_of(host: HostRuntime) -> Result<Vec<String>> {
    let mut words = Vec::new(host.alloc());
    for word in env::args(&host)? {
        words.push(word)?;
    }
    Ok(words)
}

/// Does what the words ask for: `BadLine` where they ask for nothing. Threads are made by the handle, folders opened by the
/// runtime.
fn obeyed<R: Threads + Wait + Clock + Print + Sync>(
    rt: &R,
    host: HostRuntime,
    words: &[String],
) -> Result<(), Refusal> {
    match word(words, 1)? {
        "memory" => runs(rt, host.alloc(), false, words),
        "census" => runs(rt, host.alloc(), true, words),
        "folder" => recorded(rt, host, words),
        "speed" => measured(rt, host, words),
        "polls" => polled(rt, host, words),
        _ => Err(Refusal::BadLine),
    }
}

fn word(words: &[String], index: usize) -> Result<&str, Refusal> {
    match words.get(index) {
        Some(word) => Ok(word.as_str()),
        None => Err(Refusal::BadLine),
    }
}

fn number(words: &[String], index: usize) -> Result<u32, Refusal> {
    match word(words, index)?.parse() {
        Ok(number) => Ok(number),
        Err(_) => Err(Refusal::BadLine),
    }
}

/// Runs of threads over memory, each with a seed one above the last.
fn runs<R: Threads + Wait + Clock + Print + Sync>(
    rt: &R,
    alloc: Global,
    counts: bool,
    words: &[String],
) -> Result<(), Refusal> {
    let seed = number(words, 3)?;
    for index in 0..number(words, 2)? {
        run(rt, alloc, counts, seed.wrapping_add(index))?;
    }
    Ok(())
}

fn run<R: Threads + Wait + Clock + Print + Sync>(
    rt: &R,
    alloc: Global,
    counts: bool,
    seed: u32,
) -> Result<(), Refusal> {
    let verdict = storm::run(rt, alloc, seed)?;
    tell(rt, seed, verdict)?;
    if counts {
        tell_census(rt, alloc, verdict)?;
    }
    if verdict.is_right() {
        Ok(())
    } else {
        Err(Refusal::BadLine)
    }
}

fn tell<R: Print>(rt: &R, seed: u32, verdict: Verdict) -> Result<(), Refusal> {
    let told = if verdict.is_right() {
        println!(rt;
            "seed {seed}: each call is answered as one thread is, and leaves the same state"
        )
    } else {
        println!(rt;
            "seed {seed}: {} of {} calls are answered as one thread is, and the state is the same: {}",
            verdict.same_answers, verdict.calls, verdict.is_same_state
        )
    };
    printed(told.is_ok())
}

/// A refusal where a line was not printed.
fn printed(is: bool) -> Result<(), Refusal> {
    if is {
        Ok(())
    } else {
        Err(Refusal::DeviceFault)
    }
}

fn tell_census<R: Print>(rt: &R, alloc: Global, verdict: Verdict) -> Result<(), Refusal> {
    let census = verdict.census(alloc)?;
    printed(println!(rt; "{census}").is_ok())
}

fn recorded<R: Threads + Wait + Clock + Print + Sync>(
    rt: &R,
    host: HostRuntime,
    words: &[String],
) -> Result<(), Refusal> {
    let (seed, turns) = (number(words, 3)?, number(words, 4)?);
    let calls = folder::recorded(rt, host, word(words, 2)?, seed, turns)?;
    printed(println!(rt; "closed {calls}").is_ok())
}

fn measured<R: Threads + Wait + Clock + Print + Sync>(
    rt: &R,
    host: HostRuntime,
    words: &[String],
) -> Result<(), Refusal> {
    let (how, disk) = (word(words, 2)?, word(words, 3)?);
    let load = Load {
        is_large: word(words, 4)? == "large",
        blocks: number(words, 5)?,
        to_a_settle: number(words, 6).unwrap_or(1),
    };
    let microseconds = speed::measured(rt, host, how, disk, load)?;
    printed(println!(rt; "{microseconds}").is_ok())
}

fn polled<R: Clock + Print>(rt: &R, host: HostRuntime, words: &[String]) -> Result<(), Refusal> {
    let (replays, most) = (number(words, 3)?, number(words, 4)?);
    let (frames, took) = polls::replayed(rt, host, word(words, 2)?, replays, most)?;
    printed(println!(rt; "{frames} frames, {took} microseconds").is_ok())
}
