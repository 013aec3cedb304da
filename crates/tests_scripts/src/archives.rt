//! Commands that open the archive of a world's disk. README.md, "Commands".

use crate::commands::{add_line, number, put_back, refused};
use crate::world::World;
use archive_commands::{Verdict, compact_archive, list_archive, verify_archive};
use frame_core::Refusal;
use std::alloc::Global;
use tool_core::Unobserved;

/// Adds what the command of a word answers.
pub(crate) fn obey(
    alloc: Global,
    world: &mut World,
    word: &str,
    rest: &str,
    answer: &mut Vec<u8>,
) -> Result<(), Refusal> {
    match word {
        "list-archive" => list(alloc, world, answer),
        "verify-archive" => verify(alloc, world, rest, answer),
        _ => compact(alloc, world, answer),
    }
}

/// Adds the recordings.
fn list(alloc: Global, world: &mut World, answer: &mut Vec<u8>) -> Result<(), Refusal> {
    let disk = world.take_disk(alloc);
    let done = list_archive(alloc, disk, answer, &mut Unobserved);
    put_back(world, done)
}

/// Adds what `compact` prints.
fn compact(alloc: Global, world: &mut World, answer: &mut Vec<u8>) -> Result<(), Refusal> {
    let disk = world.take_disk(alloc);
    let done = compact_archive(alloc, disk, answer, &mut Unobserved);
    put_back(world, done)
}

/// Adds what is verified of each recording, or of the one that is asked for, and the verdict.
fn verify(
    alloc: Global,
    world: &mut World,
    asked: &str,
    answer: &mut Vec<u8>,
) -> Result<(), Refusal> {
    let disk = world.take_disk(alloc);
    match verify_archive(alloc, disk, number(asked), answer, &mut Unobserved) {
        Ok((disk, verdict)) => {
            world.put_disk(disk);
            Ok(add_line(answer, name_of(verdict))?)
        }
        Err(fault) => Err(refused(world, fault)),
    }
}

/// A verdict as a word.
pub(crate) fn name_of(verdict: Verdict) -> &'static str {
    match verdict {
        Verdict::Whole => "whole",
        Verdict::Refused => "refused",
    }
}
