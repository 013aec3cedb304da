//! When a server settles what it wrote: docs/SERVING.md, "When a frame is durable".

use crate::conversations::records;
use crate::serving::{options, served_with};
use disk_core::MemoryDisk;
use engine_core::Engine;
use std::alloc::Global;
use std::net::{Net, TcpListener, TcpStream};
use std::rt::Clock;
use std::sync::Wait;
use std::test::Fail;
use std::thread::Threads;

/// Milliseconds that no test lasts.
const LONG: u64 = 600_000;

/// How many entries the history of the archive of a disk has.
fn entries_of(alloc: Global, disk: MemoryDisk) -> Option<u64> {
    match Engine::open(alloc, disk) {
        Ok((engine, _)) => Some(engine.desk().counted()),
        Err(_) => None,
    }
}

/// The same of an archive in memory that was served while a conversation was held; a block waits for so many milliseconds at most.
/// None if it was answered otherwise.
fn entries<R: Threads + Wait + Clock + Net<Listener = TcpListener, Stream = TcpStream> + Sync>(
    rt: &R,
    alloc: Global,
    settle_every: u64,
    conversation: &str,
) -> Option<u64> {
    let options = options(60, settle_every);
    match served_with(rt, alloc, MemoryDisk::new(alloc), options, conversation) {
        Some(disk) => entries_of(alloc, disk),
        None => None,
    }
}

/// Each message is awaited, and asked for by that.
const ONE_BY_ONE: &str = "\
asks start 1001 7 42 65536 1408 65536 0 1000 c: started 0 0
casts SETUP
casts HELLO_AT_0
awaits positions 0: positions 0 64 -1
casts HELLO_AT_64
awaits positions 0: positions 0 128 -1
casts HELLO_AT_128
awaits positions 0: positions 0 192 -1
";

/// With `--settle-every 0` each batch is settled at once: an entry for each message.
#[test]
fn each_batch_settles_at_0(rt: HostRuntime) -> Result<(), Fail> {
    let entries = entries(&rt, rt.alloc(), 0, ONE_BY_ONE);
    assert!(rt; entries == Some(4));
    Ok(())
}

/// `positions` has a session settled whose blocks would wait for ten minutes.
#[test]
fn a_session_settles_when_a_client_asks(rt: HostRuntime) -> Result<(), Fail> {
    let entries = entries(&rt, rt.alloc(), LONG, ONE_BY_ONE);
    assert!(rt; entries == Some(4));
    Ok(())
}

/// The first message settles at once, and the others by time.
const TEN: &str = "\
asks start 1001 7 42 65536 1408 65536 0 1000 c: started 0 0
casts SETUP
casts-ten
rests
asks positions 0: positions 0 640 -1
";

/// Messages that come within the wait settle together: ten take at most five entries.
#[test]
fn messages_settle_together_by_time(rt: HostRuntime) -> Result<(), Fail> {
    let entries = entries(&rt, rt.alloc(), 1_000, TEN).ok_or("served")?;
    assert!(rt; entries <= 6);
    Ok(())
}

/// Positions show what settled before they were asked for.
const ASKED_TWICE: &str = "\
asks start 1001 7 42 65536 1408 65536 0 1000 c: started 0 0
casts SETUP
casts HELLO_AT_0
awaits positions 0: positions 0 64 -1
pauses
casts HELLO_AT_64
rests
asks positions 0: positions 0 64 -1
asks positions 0: positions 0 128 -1
";

/// `positions` shows what was settled before it. The next one shows what it has settled.
#[test]
fn the_next_positions_show_it(rt: HostRuntime) -> Result<(), Fail> {
    let entries = entries(&rt, rt.alloc(), LONG, ASKED_TWICE);
    assert!(rt; entries == Some(3));
    Ok(())
}

/// A block of 65,536 bytes.
const LARGE: &str = "\
asks start 1001 7 42 131072 1408 131072 65472 1000 c: started 0 0
casts SETUP_OF_LONG_TERM
casts HELLO_AT_TERM_END
awaits positions 0: positions 65472 65536 -1
pauses
casts PAD_OF_LONG_TERM
rests
asks positions 0: positions 65472 131072 -1
";

/// A block of 65,536 bytes settles at once, and does not wait.
#[test]
fn so_many_bytes_settle_at_once(rt: HostRuntime) -> Result<(), Fail> {
    let entries = entries(&rt, rt.alloc(), LONG, LARGE);
    assert!(rt; entries == Some(3));
    Ok(())
}

/// What was written before a stop.
const STOPPED: &str = "\
asks start 1001 7 42 65536 1408 65536 0 1000 c: started 0 0
casts SETUP
casts HELLO_AT_0
awaits positions 0: positions 0 64 -1
pauses
casts HELLO_AT_64
casts HELLO_AT_128
rests
asks stop 0 2000: stopped 192
asks stop 0 2000: error 3 NotActive
";

/// What was written before `stop` is recorded. A second `stop` is NotActive.
#[test]
fn a_stop_keeps_what_was_written(rt: HostRuntime) -> Result<(), Fail> {
    let entries = entries(&rt, rt.alloc(), LONG, STOPPED);
    assert!(rt; entries == Some(4));
    Ok(())
}

/// What was written before the server ends.
const ENDED: &str = "\
asks start 1001 7 42 65536 1408 65536 0 1000 c: started 0 0
casts SETUP
casts HELLO_AT_0
awaits positions 0: positions 0 64 -1
casts HELLO_AT_64
casts HELLO_AT_128
rests
";

/// What was written and not settled is recorded when the server ends.
#[test]
fn all_sessions_settle_at_the_end(rt: HostRuntime) -> Result<(), Fail> {
    assert!(rt; records(&rt, rt.alloc(), options(60, LONG), ENDED));
    Ok(())
}
