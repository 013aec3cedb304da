//! Recorders with their receivers and followers, as trials/agents.py, trials/bounded.py and bench/agents.py run them. The first
//! word says what, and the rest how much: `folder FOLDER BLOCKS`; `bounded LOG DATA BLOCKS BEGIN`; `look LOOKS`;
//! `queue BLOCKS`, `alone BLOCKS`, `both BLOCKS`.
#![tactic(auto)]

mod blocks;
mod bounded;
mod crew;
mod folder;
mod pairs;
mod speed;

use crate::bounded::Folders;
use anyhow::{Result, bail};
use frame_core::Refusal;
use std::env;
use std::io::Print;
use std::rt::Clock;
use std::sync::Wait;
use std::thread::Threads;

fn main(rt: HostRuntime) -> Result<()> {
    let words = words_of(rt)?;
    match obeyed(&rt, rt, words.as_slice()) {
        Ok(()) => Ok(()),
        Err(refusal) => bail!("{refusal:?}"),
    }
}

/// The words of the command line, the program's name first.
fn words_of(host: HostRuntime) -> Result<Vec<String>> {
    let mut words = Vec::new(host.alloc());
    for word in env::args(&host)? {
        words.push(word)?;
    }
    Ok(words)
}

/// Does what the words ask for: `BadLine` where they ask for nothing. Threads are made by the handle, folders opened by the
/// runtime.
fn obeyed<R: Threads + Wait + Clock + Print + Sync>(
    rt: &R,
    host: HostRuntime,
    words: &[String],
) -> Result<(), Refusal> {
    match word(words, 1)? {
        "folder" => folder::recorded(rt, host, word(words, 2)?, number(words, 3)?),
        "bounded" => handed_out(rt, host, words),
        "look" => looked(rt, host, number(words, 2)?),
        "queue" => measured(rt, host, true, number(words, 2)?),
        "alone" => measured(rt, host, false, number(words, 2)?),
        "both" => both(rt, host, number(words, 2)?),
        _ => Err(Refusal::BadLine),
    }
}

fn word(words: &[String], index: usize) -> Result<&str, Refusal> {
    match words.get(index) {
        Some(word) => Ok(word.as_str()),
        None => Err(Refusal::BadLine),
    }
}

fn number(words: &[String], index: usize) -> Result<u32, Refusal> {
    match word(words, index)?.parse() {
        Ok(number) => Ok(number),
        Err(_) => Err(Refusal::BadLine),
    }
}

/// Records a log and data, and hands out the data no further than the log is durable.
fn handed_out<R: Threads + Wait + Print + Sync>(
    rt: &R,
    host: HostRuntime,
    words: &[String],
) -> Result<(), Refusal> {
    let folders = Folders {
        log: word(words, 2)?,
        data: word(words, 3)?,
    };
    bounded::handed_out(rt, host, folders, number(words, 4)?, number(words, 5)?)
}

/// Prints the microseconds of looks, and of as many loads.
fn looked<R: Clock + Print>(rt: &R, host: HostRuntime, looks: u32) -> Result<(), Refusal> {
    let (looks, loads) = speed::looked(rt, host.alloc(), looks)?;
    printed(println!(rt; "{looks} {loads}").is_ok())
}

/// Prints the microseconds of so many blocks.
fn measured<R: Threads + Wait + Clock + Print + Sync>(
    rt: &R,
    host: HostRuntime,
    has_queue: bool,
    blocks: u32,
) -> Result<(), Refusal> {
    let microseconds = speed::measured(rt, host.alloc(), has_queue, blocks)?;
    printed(println!(rt; "{microseconds}").is_ok())
}

/// Records so many blocks both ways, and prints no time.
fn both<R: Threads + Wait + Clock + Print + Sync>(
    rt: &R,
    host: HostRuntime,
    blocks: u32,
) -> Result<(), Refusal> {
    speed::measured(rt, host.alloc(), true, blocks)?;
    speed::measured(rt, host.alloc(), false, blocks)?;
    printed(println!(rt; "recorded both ways").is_ok())
}

/// A refusal where a line was not printed.
fn printed(is: bool) -> Result<(), Refusal> {
    if is {
        Ok(())
    } else {
        Err(Refusal::DeviceFault)
    }
}
