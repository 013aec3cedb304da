//! Clients that only read, at a port of their own: docs/SERVING.md, "Consumers".

use crate::client::{Client, Ports};
use crate::conversations::holds;
use crate::serving::{Told, bound, disk_after, options, quits};
use disk_core::MemoryDisk;
use server::{Ends, SETTLE_EVERY, Unreported};
use std::alloc::Global;
use std::net::{Net, TcpListener, TcpStream};
use std::rt::Clock;
use std::sync::Wait;
use std::test::Fail;
use std::thread::{self, Threads};

/// Milliseconds that no test lasts.
const LONG: u64 = 600_000;
/// How many clients are served at a time.
const PLACES: usize = 64;

/// What is said to a server: at its control port, at that of its consumers, and at its control port again.
#[derive(Clone, Copy)]
struct Said {
    first: &'static str,
    by_consumers: &'static str,
    last: &'static str,
}

/// A listener for control lines, one for those of consumers, and a socket, on free ports. Where the first and the last are, and
/// the second and the last.
fn bound_for_consumers<R: Net<Listener = TcpListener, Stream = TcpStream>>(
    rt: &R,
) -> Option<(Ends, Ports, Ports)> {
    let listener = TcpListener::bind(rt, "127.0.0.1:0").ok()?;
    let control = listener.local_addr().ok()?;
    let (mut ends, ports) = bound(rt)?;
    ends.consumers = Some(listener);
    let consumers = Ports {
        control,
        receive: ports.receive,
    };
    Some((ends, ports, consumers))
}

/// Whether all this is answered as it has to be.
fn is_answered<R: Clock + Net<Listener = TcpListener, Stream = TcpStream>>(
    rt: &R,
    alloc: Global,
    ports: Ports,
    consumers: Ports,
    told: &Told,
    said: Said,
) -> bool {
    let is_right = holds(rt, alloc, ports, told, said.first)
        && holds(rt, alloc, consumers, told, said.by_consumers);
    holds(rt, alloc, ports, told, said.last) && is_right
}

/// Serves an archive in memory while all this is said, of which the last quits. A block waits for so many milliseconds at most.
/// Whether all is answered as it has to be.
fn consumes<R: Threads + Wait + Clock + Net<Listener = TcpListener, Stream = TcpStream> + Sync>(
    rt: &R,
    alloc: Global,
    settle_every: u64,
    said: Said,
) -> bool {
    let Some((ends, ports, consumers)) = bound_for_consumers(rt) else {
        return false;
    };
    let told = Told::new();
    let told = &told;
    let options = options(60, settle_every);
    let disk = MemoryDisk::new(alloc);
    let (has_ended, is_right) = thread::join(
        rt,
        move || disk_after(rt, alloc, ends, disk, &options, Unreported).is_some(),
        move || is_answered(rt, alloc, ports, consumers, told, said),
    );
    has_ended && is_right
}

/// A recording of one frame.
const RECORDS: &str = "\
asks start 1001 7 42 65536 1408 65536 0 1000 c: started 0 0
asks block 0 2500000000c001000000000007000000e90300002a000000000000000000000068656c6c6f: settled 64";

/// Each line is answered, or is none; one that quits ends its connection alone.
const EACH_LINE: &str = "\
asks positions 0: positions 0 64 -1
asks list 0 10: recording 0 1000 -1 0 -1 42 65536 65536 1408 7 1001 c
follows end 1
asks find 0 1001 7 c: found 0
asks source 0: source 0
asks positions 1: error 1 UnknownRecording
asks list 0: error 22 BadLine
asks positions: error 22 BadLine
asks images: error 22 BadLine
asks replays: error 22 BadLine
asks start 1001 8 42 65536 1408 65536 0 1000 c: error 22 BadLine
asks start-from s 1001 8 42 65536 1408 65536 0 1000 c: error 22 BadLine
asks extend 0 1001 7 42 65536 1408 64: error 22 BadLine
asks write 0 00: error 22 BadLine
asks settle 0: error 22 BadLine
asks block 0 00: error 22 BadLine
asks stop 0 2000: error 22 BadLine
asks truncate 0 0: error 22 BadLine
asks purge-segments 0 0: error 22 BadLine
asks purge 0: error 22 BadLine
asks replay 0 0 -1: error 22 BadLine
asks poll 0 1: error 22 BadLine
asks poll-to 0 1 64: error 22 BadLine
asks close 0: error 22 BadLine
asks sweep: error 22 BadLine
asks verify 0: error 22 BadLine
asks reopen: error 22 BadLine
asks compact: error 22 BadLine
asks merge 42 65536 0: error 22 BadLine
asks merge-replay 00: error 22 BadLine
asks merge-live 00: error 22 BadLine
asks merge-take: error 22 BadLine
asks merge-state: error 22 BadLine
asks lists 0 1: error 22 BadLine
asks LIST 0 1: error 22 BadLine
asks quit now: error 22 BadLine
sends posi
pauses
asks tions 0: positions 0 64 -1
asks quit: bye
ends

asks positions 0: positions 0 64 -1";

/// Nothing has changed.
const AS_BEFORE: &str = "\
asks positions 0: positions 0 64 -1
asks list 0 10: recording 0 1000 -1 0 -1 42 65536 65536 1408 7 1001 c
follows end 1
asks replay 0 0 -1: replay 0
asks quit: bye";

/// At the consumers' port lines that only read are answered, and each other one is BadLine. `quit` ends the connection alone.
/// Nothing is changed.
#[test]
fn each_line_of_a_consumer(rt: HostRuntime) -> Result<(), Fail> {
    let said = Said {
        first: RECORDS,
        by_consumers: EACH_LINE,
        last: AS_BEFORE,
    };
    assert!(rt; consumes(&rt, rt.alloc(), SETTLE_EVERY, said));
    Ok(())
}

/// A frame is recorded, and the next one is written.
const WRITES: &str = "\
asks start 1001 7 42 65536 1408 65536 0 1000 c: started 0 0
casts SETUP
casts HELLO_AT_0
awaits positions 0: positions 0 64 -1
pauses
casts HELLO_AT_64
rests";

/// Positions that a consumer asks for settle nothing.
const ASKS_THRICE: &str = "\
asks positions 0: positions 0 64 -1
pauses
asks positions 0: positions 0 64 -1
pauses
asks positions 0: positions 0 64 -1";

/// Those that another client asks for do.
const SETTLES: &str = "\
asks positions 0: positions 0 64 -1
asks positions 0: positions 0 128 -1
asks quit: bye";

/// `positions` of a consumer has nothing settled. That of another client has.
#[test]
fn positions_of_a_consumer_settle_nothing(rt: HostRuntime) -> Result<(), Fail> {
    let said = Said {
        first: WRITES,
        by_consumers: ASKS_THRICE,
        last: SETTLES,
    };
    assert!(rt; consumes(&rt, rt.alloc(), LONG, said));
    Ok(())
}

/// A client of a server that is answered.
fn answered<R: Net<Listener = TcpListener, Stream = TcpStream>>(
    rt: &R,
    alloc: Global,
    ports: Ports,
) -> Option<Client> {
    let mut client = Client::new(rt, alloc, ports)?;
    if client.asks(alloc, "positions 0", "error 1 UnknownRecording") {
        Some(client)
    } else {
        None
    }
}

/// Adds as many of them as there are places. Whether each is answered.
fn all_answered<R: Net<Listener = TcpListener, Stream = TcpStream>>(
    rt: &R,
    alloc: Global,
    ports: Ports,
    clients: &mut Vec<Client>,
) -> Option<()> {
    for _ in 0..PLACES {
        clients.push(answered(rt, alloc, ports)?).ok()?;
    }
    Some(())
}

/// Whether one client more waits until one of these leaves, while a client at the control port is answered.
fn is_last<R: Net<Listener = TcpListener, Stream = TcpStream>>(
    rt: &R,
    alloc: Global,
    ports: Ports,
    consumers: Ports,
    clients: &mut Vec<Client>,
) -> bool {
    let Some(mut late) = Client::new(rt, alloc, consumers) else {
        return false;
    };
    let is_late = late.say("list 0 1") && late.hears_nothing(alloc);
    let is_answered = is_empty(rt, alloc, ports);
    let _ = clients.pop();
    is_late && is_answered && late.hears(alloc, "end 0")
}

/// Whether a client is told that there is no recording.
fn is_empty<R: Net<Listener = TcpListener, Stream = TcpStream>>(
    rt: &R,
    alloc: Global,
    ports: Ports,
) -> bool {
    match Client::new(rt, alloc, ports) {
        Some(mut client) => client.asks(alloc, "list 0 1", "end 0"),
        None => false,
    }
}

/// Whether as many are served as there are places, and one more waits. The server quits then.
fn waits<R: Net<Listener = TcpListener, Stream = TcpStream>>(
    rt: &R,
    alloc: Global,
    ports: Ports,
    consumers: Ports,
) -> bool {
    let mut clients = Vec::new(alloc);
    let is_right = all_answered(rt, alloc, consumers, &mut clients).is_some()
        && is_last(rt, alloc, ports, consumers, &mut clients);
    drop(clients);
    quits(rt, alloc, ports) && is_right
}

/// Serves an archive in memory to as many consumers as there are places, and one more. Whether all goes as it has to.
fn are_served<R: Threads + Wait + Clock + Net<Listener = TcpListener, Stream = TcpStream> + Sync>(
    rt: &R,
    alloc: Global,
) -> bool {
    let Some((ends, ports, consumers)) = bound_for_consumers(rt) else {
        return false;
    };
    let options = options(60, SETTLE_EVERY);
    let disk = MemoryDisk::new(alloc);
    let (has_ended, is_right) = thread::join(
        rt,
        move || disk_after(rt, alloc, ends, disk, &options, Unreported).is_some(),
        move || waits(rt, alloc, ports, consumers),
    );
    has_ended && is_right
}

/// 64 consumers are served at a time. One more waits until one of them leaves; a client at the control port does not.
#[test]
fn so_many_consumers_at_a_time(rt: HostRuntime) -> Result<(), Fail> {
    assert!(rt; are_served(&rt, rt.alloc()));
    Ok(())
}
