//! Scripts of control lines over the disk of a world. README.md, "Commands".

use crate::commands::{add_line, count, size};
use crate::fakes::{HoldingWriter, broken};
use crate::world::World;
use disk_core::MemoryDisk;
use frame_core::Refusal;
use std::alloc::{AllocError, Global};
use std::io::{Read, Write};
use tool_core::{
    EarlyEnd, ScriptFault, Unobserved, is_checkpoint_due, run_checkpointed_script, run_script,
};

/// Adds what a line of a word answers.
pub(crate) fn obey(
    alloc: Global,
    world: &mut World,
    word: &str,
    rest: &str,
    answer: &mut Vec<u8>,
) -> Result<(), Refusal> {
    match word {
        "run" => run(alloc, world, text_of(alloc, rest)?.as_str(), answer),
        "run-text" => run(alloc, world, exact_text(alloc, rest)?.as_str(), answer),
        "run-checkpointed" => checkpointed(alloc, world, text_of(alloc, rest)?.as_str(), answer),
        "after" => after(alloc, world, text_of(alloc, rest)?.as_str(), answer),
        "run-broken" => break_off(alloc, world, rest, answer),
        "run-full" => fill_up(alloc, world, rest, answer),
        "run-held" => hold_back(alloc, world, rest, answer),
        _ => Ok(due(rest, answer)?),
    }
}

/// The text of lines between which there is `; `.
fn text_of(alloc: Global, lines: &str) -> Result<String, AllocError> {
    let mut text = lines.replace(alloc, "; ", "\n")?;
    text.push('\n')?;
    Ok(text)
}

/// A text in which `\n` is a line feed.
fn exact_text(alloc: Global, text: &str) -> Result<String, AllocError> {
    text.replace(alloc, "\\n", "\n")
}

/// Adds what a script writes. The script is read from memory and writes into memory, so it ends early only if it finds no memory.
fn run(
    alloc: Global,
    world: &mut World,
    script: &str,
    answer: &mut Vec<u8>,
) -> Result<(), Refusal> {
    match played(alloc, world, script.as_bytes(), answer) {
        None => Ok(()),
        Some(_) => Err(Refusal::NoMemory),
    }
}

/// Plays a script, and ignores what it writes.
fn after(
    alloc: Global,
    world: &mut World,
    script: &str,
    answer: &mut Vec<u8>,
) -> Result<(), Refusal> {
    run(alloc, world, script, &mut Vec::new(alloc))?;
    Ok(add_line(answer, "done")?)
}

/// Adds what a script with checkpoints writes.
fn checkpointed(
    alloc: Global,
    world: &mut World,
    script: &str,
    answer: &mut Vec<u8>,
) -> Result<(), Refusal> {
    let disk = world.take_disk(alloc);
    let reader = script.as_bytes();
    let done = run_checkpointed_script(alloc, reader, answer, disk, &mut Unobserved);
    match put_back(world, done) {
        None => Ok(()),
        Some(_) => Err(Refusal::NoMemory),
    }
}

/// Plays a script of a reader on a writer. Why it ended early, if it did.
fn played<R: Read + Drop, W: Write>(
    alloc: Global,
    world: &mut World,
    reader: R,
    writer: &mut W,
) -> Option<EarlyEnd> {
    let disk = world.take_disk(alloc);
    let done = run_script(alloc, reader, writer, disk, &mut Unobserved);
    put_back(world, done)
}

/// Puts the disk of a script back into its world. Why the script ended early, if it did.
fn put_back(
    world: &mut World,
    done: Result<MemoryDisk, ScriptFault<MemoryDisk>>,
) -> Option<EarlyEnd> {
    match done {
        Ok(disk) => {
            world.put_disk(disk);
            None
        }
        Err(fault) => {
            let (end, disk) = fault.into_parts();
            world.put_disk(disk);
            Some(end)
        }
    }
}

/// Adds how a script ended, or a listing of frames.
pub(crate) fn add_end(end: Option<EarlyEnd>, answer: &mut Vec<u8>) -> Result<(), Refusal> {
    match end {
        None => Ok(add_line(answer, "no fault")?),
        Some(EarlyEnd::Read) => Ok(add_line(answer, "read fault")?),
        Some(EarlyEnd::Write) => Ok(add_line(answer, "write fault")?),
        Some(EarlyEnd::Memory) => Err(Refusal::NoMemory),
    }
}

/// Adds what a script writes whose reader fails after its text, and how the script ends. The words are how many bytes come at once, and
/// the text.
fn break_off(
    alloc: Global,
    world: &mut World,
    rest: &str,
    answer: &mut Vec<u8>,
) -> Result<(), Refusal> {
    let (at_once, text) = rest.split_once(' ').unwrap_or((rest, ""));
    let script = exact_text(alloc, text)?;
    let reader = broken(script.as_bytes(), size(at_once));
    let end = played(alloc, world, reader, answer);
    add_end(end, answer)
}

/// Adds how a script ends whose writer has room for so many bytes. The words are the room and the text.
fn fill_up(
    alloc: Global,
    world: &mut World,
    rest: &str,
    answer: &mut Vec<u8>,
) -> Result<(), Refusal> {
    let (room, text) = rest.split_once(' ').unwrap_or((rest, ""));
    let script = exact_text(alloc, text)?;
    let mut writer = HoldingWriter::with_room(size(room));
    let end = played(alloc, world, script.as_bytes(), &mut writer);
    add_end(end, answer)
}

/// Adds how a script ends whose writer hands nothing on, and whose reader fails after its text.
fn hold_back(
    alloc: Global,
    world: &mut World,
    rest: &str,
    answer: &mut Vec<u8>,
) -> Result<(), Refusal> {
    let script = exact_text(alloc, rest)?;
    let reader = broken(script.as_bytes(), 100);
    let end = played(alloc, world, reader, &mut HoldingWriter::holding());
    add_end(end, answer)
}

/// Adds whether a checkpoint is due. The words are the entries that count, the active recordings and the entries that may count.
fn due(rest: &str, answer: &mut Vec<u8>) -> Result<(), AllocError> {
    let mut words = rest.split(' ');
    let counted = count(words.next().unwrap_or(""));
    let active = count(words.next().unwrap_or(""));
    let limit = u32::try_from(count(words.next().unwrap_or(""))).unwrap_or(0);
    let is_due = is_checkpoint_due(counted, active, limit);
    add_line(answer, if is_due { "yes" } else { "no" })
}
