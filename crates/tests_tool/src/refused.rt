//! Requests for memory that are refused in a script: `trials/refused_memory.py tests` runs the test once for each of its requests,
//! which it refuses. docs/CONTROL.md, "Refusals".

use super::scripts::{behind, created};
use disk_core::MemoryDisk;
use std::alloc::{AllocError, Global};
use tool_core::Unobserved;

// A script that makes each change of an archive.
const LINES: [&str; 14] = [
    "start 1001 7 42 65536 1408 65536 0 1000 c",
    "write 0 0000010000c000000000000007000000e90300002a0000000000000000000000",
    "settle 0",
    "write 0 2500000000c001000000000007000000e90300002b000000000000000000000068656c6c6f",
    "settle 0",
    "purge-segments 0 65536",
    "sweep",
    "stop 0 2000",
    "truncate 0 65536",
    "sweep",
    "extend 0 1001 7 42 65536 1408 65536",
    "write 1 2500000000c001000000000007000000e90300002b000000000000000000000068656c6c6f",
    "settle 1",
    "stop 0 3000",
];

const REPLIES: &str = "\
started 0 0
written 65536
settled 65536
written 65600
settled 65600
purged 1
swept 1
stopped 65600
truncated 65536
swept 1
extended 1
written 65600
settled 65600
stopped 65600
";

/// The script without the line of this number.
fn script_without(alloc: Global, left_out: usize) -> Result<String, AllocError> {
    let mut text = String::new(alloc);
    for (number, line) in LINES.iter().enumerate() {
        if number != left_out {
            text.push_str(line)?;
            text.push('\n')?;
        }
    }
    Ok(text)
}

/// What a script answers over the archive of a disk, and the disk then; none if it ended early.
fn replies(alloc: Global, disk: MemoryDisk, script: &str) -> Option<(Vec<u8>, MemoryDisk)> {
    let mut out = Vec::new(alloc);
    match behind(alloc, script.as_bytes(), &mut out, disk, &mut Unobserved) {
        Ok(disk) => Some((out, disk)),
        Err(_) => None,
    }
}

/// The same of the script without a line, over a new archive.
fn run_without(alloc: Global, left_out: usize) -> Option<(Vec<u8>, MemoryDisk)> {
    let script = script_without(alloc, left_out).ok()?;
    match created(alloc, 64) {
        Some(disk) => replies(alloc, disk, script.as_str()),
        None => None,
    }
}

/// The recordings and how many frames there are.
fn found(alloc: Global, disk: MemoryDisk) -> Option<Vec<u8>> {
    let (out, disk) = replies(alloc, disk, "list 0 9\nverify 0\n")?;
    drop(disk);
    Some(out)
}

/// The number of the first line that is this one.
fn place_of(text: &str, line: &str) -> Option<usize> {
    text.lines().position(|found| found == line)
}

/// A text without the line of this number.
fn text_without(alloc: Global, text: &str, left_out: usize) -> Result<Vec<u8>, AllocError> {
    let mut rest = Vec::new(alloc);
    for (number, line) in text.lines().enumerate() {
        if number != left_out {
            rest.extend_from_slice(line.as_bytes())?;
            rest.push(b'\n')?;
        }
    }
    Ok(rest)
}

/// Whether an answered text is this one without the line of this number.
fn is_without(alloc: Global, answered: &[u8], text: &str, line: usize) -> Option<bool> {
    let rest = text_without(alloc, text, line).ok()?;
    Some(rest.as_slice() == answered)
}

/// Whether two disks have taken as many changes, and have the same recordings and frames.
fn are_alike(alloc: Global, disk: MemoryDisk, other: MemoryDisk) -> Option<bool> {
    let is_counted = disk.changes() == other.changes();
    match (found(alloc, disk), found(alloc, other)) {
        (Some(here), Some(there)) => Some(is_counted && here == there),
        _ => None,
    }
}

/// Whether a script of which this line found no memory has answered the others, and left the archive, as if the line were not
/// there.
fn is_refused(alloc: Global, text: &str, disk: MemoryDisk, line: usize) -> Option<bool> {
    let (out, other) = run_without(alloc, line)?;
    let is_answered = is_without(alloc, out.as_slice(), text, line);
    let is_left = are_alike(alloc, disk, other);
    Some(is_answered? && is_left?)
}

/// Whether a script that found no memory at the opening, or by its disk, leaves an archive that is opened.
fn is_fault(alloc: Global, text: &str, disk: MemoryDisk) -> Option<bool> {
    let is_told = text.starts_with("error 16 Broken\n")
        || place_of(text, "error 17 DeviceFault").is_some();
    let out = found(alloc, disk)?;
    Some(is_told && !out.as_slice().starts_with(b"error 16 Broken\n"))
}

/// Whether a script was answered as it has to be, and left such a disk.
fn is_right(alloc: Global, text: &str, disk: MemoryDisk) -> Option<bool> {
    match place_of(text, "error 18 NoMemory") {
        _ if text == REPLIES => Some(true),
        Some(line) => is_refused(alloc, text, disk, line),
        None => is_fault(alloc, text, disk),
    }
}

/// Runs the script, and says whether that went as it has to; none if it ended early, or something else than it found no memory.
fn runs(alloc: Global) -> Option<bool> {
    let (out, disk) = run_without(alloc, LINES.len())?;
    match std::str::from_utf8(out.as_slice()) {
        Ok(text) => is_right(alloc, text, disk),
        Err(_) => Some(false),
    }
}

/// A line that is refused memory is answered NoMemory, and the script goes on as if that line were not there.
#[test]
fn refused_memory_of_a_script(rt: HostRuntime) {
    let is_run = match runs(rt.alloc()) {
        Some(is_right) => is_right,
        None => runs(rt.alloc()) == Some(true),
    };
    assert!(rt; is_run);
}
