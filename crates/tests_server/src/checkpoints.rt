//! Servers that make their history short while they record: docs/SERVING.md, "How long a history lasts".

use crate::serving::{options, served_with};
use crate::strict::{not_a_catalogue, of_limit};
use disk_core::{Disk, FileId, MemoryDisk};
use server::{SETTLE_EVERY, ServeOptions};
use std::alloc::Global;
use std::net::{Net, TcpListener, TcpStream};
use std::rt::Clock;
use std::sync::Wait;
use std::test::Fail;
use std::thread::Threads;
use tool_core::{Unobserved, run_script};

/// A server that makes checkpoints, one before its first line too.
fn checkpointing() -> ServeOptions<'static> {
    let mut options = options(60, SETTLE_EVERY);
    options.window = Some(131_072);
    options.makes_checkpoints = true;
    options.begins_short = true;
    options
}

/// Serves a disk by such a server, or by one that makes none, while a conversation is held. Whether all was answered so.
fn is_served<R: Threads + Wait + Clock + Net<Listener = TcpListener, Stream = TcpStream> + Sync>(
    rt: &R,
    alloc: Global,
    disk: MemoryDisk,
    makes_checkpoints: bool,
    conversation: &str,
) -> bool {
    let mut options = checkpointing();
    options.makes_checkpoints = makes_checkpoints;
    served_with(rt, alloc, disk, options, conversation).is_some()
}

/// The same of a new archive whose history has room for so many entries.
fn is_served_anew<
    R: Threads + Wait + Clock + Net<Listener = TcpListener, Stream = TcpStream> + Sync,
>(rt: &R, alloc: Global, limit: u32, makes_checkpoints: bool, conversation: &str) -> bool {
    match of_limit(alloc, limit) {
        Some(disk) => is_served(rt, alloc, disk, makes_checkpoints, conversation),
        None => false,
    }
}

/// 600 entries, next to a recording that stays active.
const LONG: &str = "\
records-200
asks start 1002 7 42 65536 1408 65536 0 1000 c: started 200 200
asks checkpoint: checkpointed
asks positions 200: positions 0 0 -1
asks stop 200 5: stopped 0
asks checkpoint: checkpointed
asks verify 199: verified 1
";

/// 200 publications are started, recorded and stopped over a history of 16 entries, which checkpoints make short.
#[test]
fn a_short_history_never_ends(rt: HostRuntime) -> Result<(), Fail> {
    assert!(rt; is_served_anew(&rt, rt.alloc(), 16, true, LONG));
    Ok(())
}

/// Without checkpoints the line is BadLine, and the history ends.
const ENDED: &str = "\
asks checkpoint: error 22 BadLine
asks start 1001 1 42 65536 1408 65536 0 1000 c: started 0 0
asks stop 0 5: stopped 0
asks start 1001 2 42 65536 1408 65536 0 1000 c: started 1 1
asks stop 1 5: error 11 HistoryFull
asks checkpoint: error 22 BadLine
asks compact: error 22 BadLine
";

/// The same lines by which it does not.
const UNENDED: &str = "\
asks checkpoint: checkpointed
asks start 1001 1 42 65536 1408 65536 0 1000 c: started 0 0
asks stop 0 5: stopped 0
asks start 1001 2 42 65536 1408 65536 0 1000 c: started 1 1
asks stop 1 5: stopped 0
asks checkpoint 1: error 22 BadLine
asks compact: error 22 BadLine
";

/// A history of three entries is full after three, and has room on if checkpoints are made. Without them `checkpoint` is BadLine.
#[test]
fn a_history_ends_without_checkpoints_alone(rt: HostRuntime) -> Result<(), Fail> {
    for (makes_checkpoints, lines) in [(false, ENDED), (true, UNENDED)] {
        assert!(rt;
            is_served_anew(&rt, rt.alloc(), 3, makes_checkpoints, lines),
            "{lines}"
        );
    }
    Ok(())
}

/// Without an open archive `checkpoint` is Broken; BadLine without checkpoints.
#[test]
fn a_checkpoint_without_an_archive(rt: HostRuntime) -> Result<(), Fail> {
    for (makes_checkpoints, lines) in [
        (true, "asks checkpoint: error 16 Broken\n"),
        (false, "asks checkpoint: error 22 BadLine\n"),
    ] {
        let disk = not_a_catalogue(rt.alloc());
        assert!(rt;
            is_served(&rt, rt.alloc(), disk, makes_checkpoints, lines),
            "{lines}"
        );
    }
    Ok(())
}

/// Lines that are answered where no checkpoint can be made.
const REFUSED: &str = "\
asks checkpoint: error 19 NotCatalogue
asks start 1001 1 42 65536 1408 65536 0 1000 c: started 0 0
asks stop 0 5: stopped 0
";

/// A new archive without its other bank.
fn of_one_bank(alloc: Global) -> Option<MemoryDisk> {
    let mut disk = of_limit(alloc, 16)?;
    disk.remove(FileId::BankB).ok()?;
    disk.sync(FileId::BankB).ok()?;
    Some(disk)
}

/// Whether it is served so.
fn is_refused<R: Threads + Wait + Clock + Net<Listener = TcpListener, Stream = TcpStream> + Sync>(
    rt: &R,
    alloc: Global,
) -> bool {
    match of_one_bank(alloc) {
        Some(disk) => is_served(rt, alloc, disk, true, REFUSED),
        None => false,
    }
}

/// Without its other bank an archive refuses checkpoints by NotCatalogue. All else goes on.
#[test]
fn a_server_whose_checkpoints_are_refused(rt: HostRuntime) -> Result<(), Fail> {
    assert!(rt; is_refused(&rt, rt.alloc()));
    Ok(())
}

/// A script that makes an entry, and one that makes none.
const WITH_ENTRIES: &str = "start 1001 7 42 65536 1408 131072 0 1000 c\nstop 0 5\n";

const WITHOUT: &str = "list 0 1\n";

/// The disk that a script leaves.
fn made_by(alloc: Global, script: &str) -> Option<MemoryDisk> {
    let mut output = Vec::new(alloc);
    let disk = MemoryDisk::new(alloc);
    match run_script(alloc, script.as_bytes(), &mut output, disk, &mut Unobserved) {
        Ok(disk) => Some(disk),
        Err(_) => None,
    }
}

/// The first byte of the other bank, its version, and its epoch.
fn other_bank(mut disk: MemoryDisk) -> Option<(u8, u8, u8)> {
    let mut header = [0; 9];
    let _ = disk.read_at(FileId::BankB, 0, &mut header).ok()?;
    Some((header[0], header[1], header[8]))
}

/// The other bank's first byte, version and epoch after a server over what a script left, which may make a checkpoint before its
/// first line.
fn bank_after<R: Threads + Wait + Clock + Net<Listener = TcpListener, Stream = TcpStream> + Sync>(
    rt: &R,
    alloc: Global,
    begins_short: bool,
    script: &str,
) -> Option<(u8, u8, u8)> {
    let mut options = checkpointing();
    options.begins_short = begins_short;
    let disk = made_by(alloc, script)?;
    other_bank(served_with(rt, alloc, disk, options, "asks sweep: swept 0\n")?)
}

/// A server makes a checkpoint before its first line, if it is asked for and an entry counts: the other bank is of the next epoch.
#[test]
fn a_server_begins_with_a_checkpoint(rt: HostRuntime) -> Result<(), Fail> {
    for (begins_short, script, found) in [
        (true, WITH_ENTRIES, (1, 2, 2)),
        (true, WITHOUT, (0, 0, 0)),
        (false, WITH_ENTRIES, (0, 0, 0)),
    ] {
        let bank = bank_after(&rt, rt.alloc(), begins_short, script);
        assert!(rt; bank == Some(found), "{begins_short} {script}");
    }
    Ok(())
}
