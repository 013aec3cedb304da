//! Strict servers, which end by themselves once they can record nothing: docs/SERVING.md, "A server that ends by itself".

use crate::client::{Client, Ports};
use crate::conversations::holds;
use crate::serving::{Told, bound, options};
use disk_core::{Disk, FileId, MemoryDisk};
use engine_core::Engine;
use frame_core::Refusal;
use server::{SETTLE_EVERY, Served, Stuck, serve_with};
use std::alloc::Global;
use std::net::{Net, TcpListener, TcpStream};
use std::rt::Clock;
use std::sync::Wait;
use std::test::Fail;
use std::thread::{self, Threads};

/// Calls that write, cut, remove or sync after which a disk fails: those of an opening, and the first of an entry.
const FAILS_AFTER: u64 = 3;
/// Those of an opening, and the four of an entry.
const FAILS_AFTER_AN_ENTRY: u64 = 6;

/// What is said to a server.
#[derive(Clone, Copy)]
enum Said {
    /// Nothing.
    Nothing,
    /// A conversation.
    Conversation(&'static str),
    /// A start and a quit at once, of which the first is answered by a device fault.
    FaultAndQuit,
}

/// Serves a disk by a strict server, or by one that is not, until something that is said ends it, or it ends by itself. None if
/// it ended early, or something was answered otherwise.
fn served<R: Threads + Wait + Clock + Net<Listener = TcpListener, Stream = TcpStream> + Sync>(
    rt: &R,
    alloc: Global,
    disk: MemoryDisk,
    is_strict: bool,
    said: Said,
) -> Option<Served<MemoryDisk>> {
    let (ends, ports) = bound(rt)?;
    let told = Told::new();
    let told = &told;
    let mut options = options(60, SETTLE_EVERY);
    options.is_strict = is_strict;
    let (served, is_right) = thread::join(
        rt,
        move || { serve_with(rt, alloc, ends, disk, &options, told.reporter()).ok() },
        move || is_answered(rt, alloc, ports, told, said),
    );
    if is_right { served } else { None }
}

/// Whether what is said is answered as it has to be.
fn is_answered<R: Clock + Net<Listener = TcpListener, Stream = TcpStream>>(
    rt: &R,
    alloc: Global,
    ports: Ports,
    told: &Told,
    said: Said,
) -> bool {
    match said {
        Said::Nothing => true,
        Said::Conversation(lines) => holds(rt, alloc, ports, told, lines),
        Said::FaultAndQuit => faults_and_quits(rt, alloc, ports),
    }
}

fn faults_and_quits<R: Net<Listener = TcpListener, Stream = TcpStream>>(
    rt: &R,
    alloc: Global,
    ports: Ports,
) -> bool {
    let Some(mut client) = Client::new(rt, alloc, ports) else {
        return false;
    };
    client.send(b"start 1001 7 42 65536 1408 65536 0 1000 c\nquit\n")
        && client.hears(alloc, "error 17 DeviceFault")
        && client.hears(alloc, "bye")
}

/// Why a strict server could record nothing; None too if it ended early, or something was answered otherwise.
fn stop_of<R: Threads + Wait + Clock + Net<Listener = TcpListener, Stream = TcpStream> + Sync>(
    rt: &R,
    alloc: Global,
    disk: Option<MemoryDisk>,
    said: Said,
) -> Option<Stuck> {
    served(rt, alloc, disk?, true, said)?.stop
}

/// The disk that another server leaves which could record, as far as it says.
fn left_by<R: Threads + Wait + Clock + Net<Listener = TcpListener, Stream = TcpStream> + Sync>(
    rt: &R,
    alloc: Global,
    disk: Option<MemoryDisk>,
    said: Said,
) -> Option<MemoryDisk> {
    let served = served(rt, alloc, disk?, false, said)?;
    match served.stop {
        Some(_) => None,
        None => Some(served.disk),
    }
}

/// A bank A that is not a catalogue.
pub(crate) fn not_a_catalogue(alloc: Global) -> MemoryDisk {
    let mut disk = MemoryDisk::new(alloc);
    let _ = disk.write_at(FileId::BankA, 0, b"none");
    disk
}

/// A new archive whose history has room for so many entries.
pub(crate) fn of_limit(alloc: Global, limit: u32) -> Option<MemoryDisk> {
    match Engine::create(alloc, MemoryDisk::new(alloc), limit) {
        Ok(engine) => Some(engine.into_disk()),
        Err(_) => None,
    }
}

/// A new archive on a disk that fails once it was opened.
pub(crate) fn failing(alloc: Global) -> Option<MemoryDisk> {
    failing_after(alloc, FAILS_AFTER)
}

/// A new archive on a disk that fails after so many calls.
fn failing_after(alloc: Global, calls: u64) -> Option<MemoryDisk> {
    let mut disk = of_limit(alloc, 64)?;
    disk.stop_after(calls);
    Some(disk)
}

/// A strict server without an archive ends before any line, and says by which refusal.
#[test]
fn without_an_archive_it_ends(rt: HostRuntime) -> Result<(), Fail> {
    let disk = Some(not_a_catalogue(rt.alloc()));
    let stop = stop_of(&rt, rt.alloc(), disk, Said::Nothing);
    assert!(rt; stop == Some(Stuck::Unopened(Refusal::NotCatalogue)));
    Ok(())
}

/// A call is answered by a device fault, and the connection ends.
const FAULT: &str = "\
asks start 1001 7 42 65536 1408 65536 0 1000 c: error 17 DeviceFault
ends
";

/// It does not without the option.
const FAULTS: &str = "\
asks start 1001 7 42 65536 1408 65536 0 1000 c: error 17 DeviceFault
asks start 1001 7 42 65536 1408 65536 0 1000 c: error 16 Broken
asks quit: bye
";

/// A strict server ends after the call that broke its archive. Another one answers on, Broken.
#[test]
fn it_ends_by_a_device_fault(rt: HostRuntime) -> Result<(), Fail> {
    let disk = failing(rt.alloc());
    let stop = stop_of(&rt, rt.alloc(), disk, Said::Conversation(FAULT));
    assert!(rt; stop == Some(Stuck::Broken));
    let disk = failing(rt.alloc());
    assert!(rt; left_by(&rt, rt.alloc(), disk, Said::Conversation(FAULTS)).is_some());
    Ok(())
}

/// A strict server that quits with a broken archive says so too.
#[test]
fn a_quit_says_that_it_is_broken(rt: HostRuntime) -> Result<(), Fail> {
    let stop = stop_of(&rt, rt.alloc(), failing(rt.alloc()), Said::FaultAndQuit);
    assert!(rt; stop == Some(Stuck::Broken));
    Ok(())
}

/// The last entry of a history of two, and the connection ends.
const FULL: &str = "\
asks start 1001 7 42 65536 1408 65536 0 1000 c: started 0 0
asks stop 0 5: stopped 0
ends
";

/// It does not without the option.
const FULL_ON: &str = "\
asks start 1001 7 42 65536 1408 65536 0 1000 c: started 0 0
asks stop 0 5: stopped 0
asks start 1001 7 42 65536 1408 65536 0 1000 c: error 11 HistoryFull
asks quit: bye
";

/// A strict server ends after the last entry of its history, and at once if it is full. Another one answers on.
#[test]
fn it_ends_by_a_full_history(rt: HostRuntime) -> Result<(), Fail> {
    let disk = of_limit(rt.alloc(), 2);
    let stop = stop_of(&rt, rt.alloc(), disk, Said::Conversation(FULL));
    assert!(rt; stop == Some(Stuck::HistoryFull));
    let disk = of_limit(rt.alloc(), 2);
    let full = left_by(&rt, rt.alloc(), disk, Said::Conversation(FULL_ON));
    let stop = stop_of(&rt, rt.alloc(), full, Said::Nothing);
    assert!(rt; stop == Some(Stuck::HistoryFull));
    Ok(())
}

/// A block comes, and the connection ends: its settling makes the last entry of a history of two, or the disk fails its write.
const SETTLED: &str = "\
asks start 1001 7 42 65536 1408 65536 0 1000 c: started 0 0
casts SETUP
casts HELLO_AT_0
ends
";

/// A strict server ends after a settle that makes the last entry.
#[test]
fn it_ends_by_a_settling_too(rt: HostRuntime) -> Result<(), Fail> {
    let disk = of_limit(rt.alloc(), 2);
    let stop = stop_of(&rt, rt.alloc(), disk, Said::Conversation(SETTLED));
    assert!(rt; stop == Some(Stuck::HistoryFull));
    Ok(())
}

/// A strict server ends after a block that the disk fails to write.
#[test]
fn it_ends_by_a_block_that_the_disk_fails(rt: HostRuntime) -> Result<(), Fail> {
    let disk = failing_after(rt.alloc(), FAILS_AFTER_AN_ENTRY);
    let stop = stop_of(&rt, rt.alloc(), disk, Said::Conversation(SETTLED));
    assert!(rt; stop == Some(Stuck::Broken));
    Ok(())
}
