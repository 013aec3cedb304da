//! Sessions of a server that settle together, and whose segment files are flushed before: docs/SERVING.md, "When a frame is
//! durable".

use crate::client::{Client, Ports};
use crate::serving::{bound, disk_flushed, options, quits};
use crate::vectors::{hello, hello_of, setup_of};
use archive_commands::{Viewer, Watched};
use disk_core::{FileId, MemoryDisk};
use engine_core::Engine;
use server::{Flusher, Openings};
use std::alloc::Global;
use std::io::{self, ErrorKind};
use std::net::{Net, TcpListener, TcpStream};
use std::rt::Clock;
use std::sync::Wait;
use std::sync::atomic::{AtomicU32, Ordering};
use std::test::Fail;
use std::thread::{self, Threads};
use std::time::Duration;

/// Milliseconds that no test lasts.
const LONG: u64 = 600_000;

/// Makes each sync take a millisecond longer.
#[derive(Clone, Copy, Drop)]
struct Slow<'a, R>(&'a R);

impl<R: Clock> Viewer<MemoryDisk> for Slow<'_, R> {
    fn synced(&mut self, _file: FileId) {
        thread::sleep(self.0, Duration::from_millis(1));
    }
}

/// Counts the files that it is given, and the failures that it is told of. It fails, if it is to. It takes longer than a sync that
/// counts as slow.
#[derive(Drop)]
struct Flushes {
    fails: bool,
    files: AtomicU32,
    failures: AtomicU32,
    turns: AtomicU32,
}

/// Turns of a flush: some milliseconds.
const TURNS: u32 = 1_000_000;

impl Flusher for Flushes {
    fn width(&self) -> usize {
        2
    }

    fn flush(&self, file: FileId) -> io::Result<()> {
        let _ = file;
        self.files.fetch_add(1, Ordering::SeqCst);
        for _ in 0..TURNS {
            self.turns.fetch_add(1, Ordering::SeqCst);
        }
        if self.fails {
            return Err(ErrorKind::Other.into());
        }
        Ok(())
    }

    fn failed(&self, file: FileId, error: io::Error) {
        let _ = (file, error);
        self.failures.fetch_add(1, Ordering::SeqCst);
    }
}

impl Openings<MemoryDisk> for Flushes {
    fn can_open(&self) -> bool {
        false
    }

    fn open_again(&self, _alloc: Global) -> Option<MemoryDisk> {
        None
    }
}

/// `hello` of a session id, term 42, offset 64.
fn next_of(session_id: u8) -> [u8; 37] {
    let mut frame = hello(1);
    frame[12] = session_id;
    frame
}

/// The lines by which two recordings begin.
const FIRST: &str = "start 1001 7 42 65536 1408 65536 0 1000 c";

const SECOND: &str = "start 1001 8 42 65536 1408 65536 0 1000 c";

/// Whether two recordings have begun.
fn have_begun(client: &mut Client, alloc: Global) -> bool {
    client.asks(alloc, FIRST, "started 0 0") && client.asks(alloc, SECOND, "started 1 1")
}

/// Sends the setup frame and the first frame of a publication.
fn casts_first(client: &Client, session_id: u8) -> bool {
    client.casts(setup_of(session_id).as_slice()) && client.casts(hello_of(session_id).as_slice())
}

/// Whether the first frames of both recordings are recorded.
fn have_first<R: Clock>(rt: &R, alloc: Global, client: &mut Client) -> bool {
    client.awaits(rt, alloc, "positions 0", "positions 0 64 -1")
        && client.awaits(rt, alloc, "positions 1", "positions 0 64 -1")
}

/// Sends the second frame of each publication, and gives the server time to write both. The flushes of files from then on count.
fn casts_second<R: Clock>(rt: &R, client: &Client, flushes: &Flushes) -> bool {
    thread::sleep(rt, Duration::from_millis(300));
    flushes.files.store(0, Ordering::SeqCst);
    let is_sent = client.casts(next_of(7).as_slice()) && client.casts(next_of(8).as_slice());
    thread::sleep(rt, Duration::from_millis(500));
    is_sent
}

/// Whether two streams are recorded, and a frame more of each waits for its settling.
fn are_cast<R: Clock + Net<Listener = TcpListener, Stream = TcpStream>>(
    rt: &R,
    alloc: Global,
    ports: Ports,
    flushes: &Flushes,
) -> bool {
    let Some(mut client) = Client::new(rt, alloc, ports) else {
        return false;
    };
    have_begun(&mut client, alloc)
        && casts_first(&client, 7)
        && casts_first(&client, 8)
        && have_first(rt, alloc, &mut client)
        && casts_second(rt, &client, flushes)
}

/// The disk that such a server leaves that quits then.
fn served_slowly<
    R: Threads + Wait + Clock + Net<Listener = TcpListener, Stream = TcpStream> + Sync,
>(rt: &R, alloc: Global, flushes: &Flushes) -> Option<MemoryDisk> {
    let (ends, ports) = bound(rt)?;
    let options = options(60, LONG);
    let disk = Watched::new(MemoryDisk::new(alloc), Slow(rt));
    let (back, is_right) = thread::join(
        rt,
        move || disk_flushed(rt, alloc, ends, disk, &options, flushes),
        move || are_cast(rt, alloc, ports, flushes) && quits(rt, alloc, ports),
    );
    let (disk, _) = back?.into_parts();
    if is_right { Some(disk) } else { None }
}

/// Whether such a server leaves both frames of both recordings.
fn is_whole<R: Threads + Wait + Clock + Net<Listener = TcpListener, Stream = TcpStream> + Sync>(
    rt: &R,
    alloc: Global,
    flushes: &Flushes,
) -> bool {
    match served_slowly(rt, alloc, flushes) {
        Some(disk) => has_all(alloc, disk),
        None => false,
    }
}

/// Whether both recordings of a disk have both frames, by two entries of each session next to the starts.
fn has_all(alloc: Global, disk: MemoryDisk) -> bool {
    match Engine::open(alloc, disk) {
        Ok((engine, _)) => {
            is_recorded(&engine, 0) && is_recorded(&engine, 1) && engine.desk().counted() == 6
        }
        Err(_) => false,
    }
}

/// Whether a recording has both frames.
fn is_recorded(engine: &Engine<MemoryDisk>, id: i64) -> bool {
    match engine.desk().recording(&id) {
        Some(found) => found.recorded == 128,
        None => false,
    }
}

/// A flusher that has made no flush.
fn unused(fails: bool) -> Flushes {
    Flushes {
        fails,
        files: AtomicU32::new(0),
        failures: AtomicU32::new(0),
        turns: AtomicU32::new(0),
    }
}

/// If syncs are slow, both segment files are flushed before two sessions settle together at the end.
#[test]
fn files_are_flushed_before_a_group_settles(rt: HostRuntime) -> Result<(), Fail> {
    let flushes = unused(false);
    assert!(rt; is_whole(&rt, rt.alloc(), &flushes));
    assert!(rt; flushes.files.load(Ordering::SeqCst) == 2);
    assert!(rt; flushes.failures.load(Ordering::SeqCst) == 0);
    Ok(())
}

/// A flush that fails is reported once, and both sessions settle as without it.
#[test]
fn a_failed_flush_changes_nothing_else(rt: HostRuntime) -> Result<(), Fail> {
    let flushes = unused(true);
    assert!(rt; is_whole(&rt, rt.alloc(), &flushes));
    assert!(rt; flushes.failures.load(Ordering::SeqCst) == 1);
    Ok(())
}
