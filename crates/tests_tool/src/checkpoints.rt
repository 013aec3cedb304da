//! Scripts that make checkpoints, against the same without, and what an observer gets of them: docs/STORAGE.md, "Checkpoints".

use super::compactions::remove_spare;
use super::scripts::{answers, expect, text_of, with_disk, with_short_history};
use disk_core::MemoryDisk;
use frame_core::Refusal;
use std::alloc::Global;
use std::test::*;
use tool_core::{CheckpointOutcome, HistoryUse, Observer, Unobserved, run_checkpointed_script};

/// What a script that makes checkpoints answers over the archive of a disk, and the disk then.
fn checkpointed<O: Observer>(
    alloc: Global,
    disk: MemoryDisk,
    script: &str,
    observer: &mut O,
) -> Result<(Vec<u8>, MemoryDisk), Fail> {
    let mut out = Vec::new(alloc);
    match run_checkpointed_script(alloc, script.as_bytes(), &mut out, disk, observer) {
        Ok(disk) => Ok((out, disk)),
        Err(_) => Err(Fail::new("the script ended early")),
    }
}

/// One line for each event, and for what a script has beside them.
const EACH_EVENT: &str =
    "start 1001 7 42 65536 1408 131072 0 1000 c; start-from 127.0.0.1:40123 1001 8 42 65536 1408 65536 0 1000 d; \
    write 0 HELLO_AT_0; settle 0; block 0 HELLO_AT_64; block 0 HELLO_AT_64; settle 9; positions 0; source 1; list 0 10; \
    find 0 1001 7 c; replay 0 0 -1; poll 0 1; write 0 HELLO_AT_128; poll-to 0 10 128; positions 0; settle 0; poll 0 10; \
    truncate 0 64; stop 0 2000; stop 0 2000; truncate 0 64; close 0; truncate 0 64; extend 0 1001 7 42 65536 1408 64; \
    block 2 HELLO_AT_64; verify 0; sweep; stop 1 2000; purge 1; merge 42 65536 0; merge-live HELLO_AT_0; merge-take; merge-state; \
    purge-segments 0 0; reopen; list 0 10; extend 0 1001 7 42 65536 1408 128; block 0 HELLO_AT_128; compact; list 0 10; \
    start 1001 7 42 65536 1408 131072 0 1000 e; verify 0; walk; quit";

/// The lines with a checkpoint behind each.
fn with_checkpoints(alloc: Global, lines: &str) -> Result<String, Fail> {
    let mut text = String::new(alloc);
    for line in text_of(alloc, lines)?.as_str().lines() {
        text.push_str(line)?;
        text.push_str("\ncheckpoint\n")?;
    }
    Ok(text)
}

/// The text without the answers to checkpoints.
fn without_checkpointed(alloc: Global, text: &[u8]) -> Result<String, Fail> {
    let mut left = String::new(alloc);
    for line in std::str::from_utf8(text)?.lines() {
        if line != "checkpointed" {
            left.push_str(line)?;
            left.push('\n')?;
        }
    }
    Ok(left)
}

/// What the lines are answered.
fn plain_answers(alloc: Global) -> Result<Vec<u8>, Fail> {
    let script = text_of(alloc, EACH_EVENT)?;
    answers(alloc, script.as_str())
}

/// The same with a checkpoint behind each, but for its answers.
fn other_answers(alloc: Global) -> Result<String, Fail> {
    let script = with_checkpoints(alloc, EACH_EVENT)?;
    let disk = MemoryDisk::new(alloc);
    let (out, disk) = checkpointed(alloc, disk, script.as_str(), &mut Unobserved)?;
    drop(disk);
    without_checkpointed(alloc, out.as_slice())
}

/// A checkpoint behind each line changes no answer.
#[test]
fn each_event_with_a_checkpoint_behind_it(rt: HostRuntime) -> Result<(), Fail> {
    let plain = plain_answers(rt.alloc())?;
    let other = other_answers(rt.alloc())?;
    expect(plain.as_slice(), other.as_str())
}

/// Counts checkpoints by how they ended, and takes the highest count of entries.
#[derive(Clone, Copy)]
struct Counting {
    made: u64,
    refused: u64,
    highest: u64,
}

impl Observer for Counting {
    fn checkpointed(&mut self, outcome: &CheckpointOutcome) {
        match outcome {
            CheckpointOutcome::Made { .. } => self.made = self.made.wrapping_add(1),
            CheckpointOutcome::Refused(_) => self.refused = self.refused.wrapping_add(1),
        }
    }

    fn used(&mut self, history: &HistoryUse) {
        self.highest = self.highest.max(history.counted);
    }
}

/// How often a checkpoint was made and refused in a script over a disk, and how many entries counted at most.
fn counted(alloc: Global, disk: MemoryDisk) -> Result<(u64, u64, u64), Fail> {
    let mut counting = Counting {
        made: 0,
        refused: 0,
        highest: 0,
    };
    let script = text_of(alloc, FOUR_ENTRIES)?;
    let (_, disk) = checkpointed(alloc, disk, script.as_str(), &mut counting)?;
    drop(disk);
    Ok((counting.made, counting.refused, counting.highest))
}

/// Lines that make four entries, and then one that makes none.
const FOUR_ENTRIES: &str =
    "start 1001 7 42 65536 1408 131072 0 1000 c; block 0 HELLO_AT_0; block 0 HELLO_AT_64; stop 0 2000; list 0 1";

/// A disk with a short history, whose other bank is removed.
fn short_without_spare(alloc: Global) -> Result<MemoryDisk, Fail> {
    let mut disk = with_short_history(alloc)?;
    with_disk(remove_spare(&mut disk), disk)
}

/// An observer gets what became of each checkpoint that was due.
#[test]
fn checkpoints_are_observed(rt: HostRuntime) -> Result<(), Fail> {
    let short = counted(rt.alloc(), with_short_history(rt.alloc())?)?;
    assert!(rt; short == (3, 0, 2));
    let refused = counted(rt.alloc(), short_without_spare(rt.alloc())?)?;
    assert!(rt; refused == (0, 3, 3));
    let long = counted(rt.alloc(), MemoryDisk::new(rt.alloc()))?;
    assert!(rt; long == (0, 0, 4));
    Ok(())
}

/// What is printed of a checkpoint.
#[test]
fn what_is_told_of_a_checkpoint(rt: HostRuntime) -> Result<(), Fail> {
    for (outcome, told) in [
        (
            CheckpointOutcome::Made {
                entries: 8_388_640,
                left: 64,
            },
            "the history was made short: 8388640 entries became 64",
        ),
        (
            CheckpointOutcome::Refused(Refusal::NotCatalogue),
            "the history was not made short: error 19 NotCatalogue",
        ),
    ] {
        let text = outcome.to_string(rt.alloc())?;
        assert!(rt; text.as_str() == told);
    }
    Ok(())
}
