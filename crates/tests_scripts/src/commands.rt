//! Scripts of control lines and commands over the disk of a world. README.md, "Commands".

use crate::world::World;
use crate::{archives, captures, frames, looks, scripts};
use archive_commands::{CommandFault, Stop};
use disk_core::MemoryDisk;
use frame_core::Refusal;
use std::alloc::{AllocError, Global};

/// The words of these lines.
const WORDS: [&str; 22] = [
    "run",
    "run-text",
    "run-checkpointed",
    "after",
    "run-broken",
    "run-full",
    "run-held",
    "due",
    "list-archive",
    "verify-archive",
    "compact-archive",
    "list-read-only",
    "verify-read-only",
    "describe",
    "describe-json",
    "hidden",
    "moment",
    "export",
    "destination",
    "frames",
    "frames-broken",
    "frames-full",
];

/// Whether a line with this word is one of them.
pub(crate) fn has(word: &str) -> bool {
    WORDS.contains(&word)
}

/// What a line of this word is answered.
pub(crate) fn reply(
    alloc: Global,
    world: &mut World,
    word: &str,
    rest: &str,
) -> Result<Vec<u8>, Refusal> {
    let mut answer = Vec::new(alloc);
    obey(alloc, world, word, rest, &mut answer)?;
    Ok(answer)
}

/// Adds what a line of this word is answered.
fn obey(
    alloc: Global,
    world: &mut World,
    word: &str,
    rest: &str,
    answer: &mut Vec<u8>,
) -> Result<(), Refusal> {
    match word {
        "list-archive" | "verify-archive" | "compact-archive" => {
            archives::obey(alloc, world, word, rest, answer)
        }
        "list-read-only"
        | "verify-read-only"
        | "describe"
        | "describe-json"
        | "hidden"
        | "moment" => looks::obey(alloc, world, word, rest, answer),
        "export" | "destination" => captures::obey(alloc, world, word, rest, answer),
        "frames" | "frames-broken" | "frames-full" => frames::obey(alloc, word, rest, answer),
        _ => scripts::obey(alloc, world, word, rest, answer),
    }
}

/// Adds a line to an answer.
pub(crate) fn add_line(answer: &mut Vec<u8>, line: &str) -> Result<(), AllocError> {
    answer.extend_from_slice(line.as_bytes())?;
    answer.push(b'\n')?;
    Ok(())
}

/// The number of a word, if it is one.
pub(crate) fn number(word: &str) -> Option<i64> {
    word.parse::<i64>().ok()
}

/// The count of a word, 0 if it is none.
pub(crate) fn count(word: &str) -> u64 {
    word.parse::<u64>().unwrap_or(0)
}

/// The same, of bytes in memory.
pub(crate) fn size(word: &str) -> usize {
    usize::try_from(count(word)).unwrap_or(0)
}

/// Puts the disk of a command back into its world, and returns by which refusal the command ended. What was written went into memory,
/// so one that was cut found no memory.
pub(crate) fn refused(world: &mut World, fault: CommandFault<MemoryDisk>) -> Refusal {
    let CommandFault { why, disk } = fault;
    world.put_disk(disk);
    match why {
        Stop::Refused(refusal) => refusal,
        Stop::Cut(_) => Refusal::NoMemory,
    }
}

/// Puts the disk of a command back into its world, and returns the refusal by which the command ended, if it was refused.
pub(crate) fn put_back(
    world: &mut World,
    done: Result<MemoryDisk, CommandFault<MemoryDisk>>,
) -> Result<(), Refusal> {
    match done {
        Ok(disk) => {
            world.put_disk(disk);
            Ok(())
        }
        Err(fault) => Err(refused(world, fault)),
    }
}
