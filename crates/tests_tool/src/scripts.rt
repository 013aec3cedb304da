//! Scripts over disks in memory, which tests begin with: docs/CONTROL.md. In a script a vector of docs/PROTOCOL.md is named.

use disk_core::MemoryDisk;
use engine_core::Engine;
use std::alloc::Global;
use std::io::{Read, Write};
use std::test::Fail;
use tool_core::{EarlyEnd, Observer, Unobserved, run_script};

// The vectors that scripts name, in hex.
const VECTORS: [(&str, &str); 3] = [
    (
        "HELLO_AT_0",
        "2500000000c001000000000007000000e90300002a000000000000000000000068656c6c6f",
    ),
    (
        "HELLO_AT_64",
        "2500000000c001004000000007000000e90300002a000000000000000000000068656c6c6f",
    ),
    (
        "HELLO_AT_128",
        "2500000000c001008000000007000000e90300002a000000000000000000000068656c6c6f",
    ),
];

/// The vector of this name in hex, or the word itself where it names none.
fn meant(word: &str) -> &str {
    for (name, hex) in VECTORS {
        if name == word {
            return hex;
        }
    }
    word
}

/// Adds a line of a script, in which a vector stands by its name.
fn add_line(text: &mut String, line: &str) -> Result<(), Fail> {
    for (index, word) in line.split(' ').enumerate() {
        if index > 0 {
            text.push(' ')?;
        }
        text.push_str(meant(word))?;
    }
    Ok(text.push('\n')?)
}

/// The text of these lines, which stand apart by `; ` here.
pub fn text_of(alloc: Global, lines: &str) -> Result<String, Fail> {
    let mut text = String::new(alloc);
    for line in lines.split("; ") {
        add_line(&mut text, line)?;
    }
    Ok(text)
}

/// Fails with what was written, where that is another text.
pub fn expect(written: &[u8], told: &str) -> Result<(), Fail> {
    if written == told.as_bytes() {
        return Ok(());
    }
    Err(Fail::new(std::str::from_utf8(written)?))
}

/// The disk after a script that is read, answered and observed, or why it ended early.
pub fn behind<R: Read + Drop, W: Write, O: Observer>(
    alloc: Global,
    reader: R,
    writer: &mut W,
    disk: MemoryDisk,
    observer: &mut O,
) -> Result<MemoryDisk, EarlyEnd> {
    match run_script(alloc, reader, writer, disk, observer) {
        Ok(disk) => Ok(disk),
        Err(fault) => {
            let (end, disk) = fault.into_parts();
            drop(disk);
            Err(end)
        }
    }
}

/// What a script answers over an empty disk, and the disk then.
fn replies(alloc: Global, script: &str) -> Result<(Vec<u8>, MemoryDisk), Fail> {
    let mut out = Vec::new(alloc);
    let disk = MemoryDisk::new(alloc);
    match behind(alloc, script.as_bytes(), &mut out, disk, &mut Unobserved) {
        Ok(disk) => Ok((out, disk)),
        Err(_) => Err(Fail::new("the script ended early")),
    }
}

/// What a script answers over an empty disk.
pub fn answers(alloc: Global, script: &str) -> Result<Vec<u8>, Fail> {
    let (out, disk) = replies(alloc, script)?;
    drop(disk);
    Ok(out)
}

/// The disk after these lines of a script.
pub fn after(alloc: Global, lines: &str) -> Result<MemoryDisk, Fail> {
    let script = text_of(alloc, lines)?;
    let (_, disk) = replies(alloc, script.as_str())?;
    Ok(disk)
}

/// The disk, unless something failed before.
pub fn with_disk(done: Result<(), Fail>, disk: MemoryDisk) -> Result<MemoryDisk, Fail> {
    match done {
        Ok(()) => Ok(disk),
        Err(fail) => {
            drop(disk);
            Err(fail)
        }
    }
}

/// A disk with a new archive, whose history may have so many entries.
pub fn created(alloc: Global, limit: u32) -> Option<MemoryDisk> {
    match Engine::create(alloc, MemoryDisk::new(alloc), limit) {
        Ok(engine) => Some(engine.into_disk()),
        Err(_) => None,
    }
}

/// One with three entries.
pub fn with_short_history(alloc: Global) -> Result<MemoryDisk, Fail> {
    match created(alloc, 3) {
        Some(disk) => Ok(disk),
        None => Err(Fail::new("no archive was made")),
    }
}
