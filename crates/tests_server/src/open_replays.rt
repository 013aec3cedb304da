//! Which replays are open: docs/SERVING.md, "Which replays are open".

use crate::client::{Client, Ports};
use crate::serving::{bound, converses, options};
use disk_core::MemoryDisk;
use server::{ClientNews, Happening, Reporter, SETTLE_EVERY, serve_with};
use std::alloc::{AllocError, Global};
use std::net::{Net, SocketAddr, TcpListener, TcpStream};
use std::rt::Clock;
use std::sync::Wait;
use std::sync::atomic::{AtomicU64, Ordering};
use std::test::Fail;
use std::thread::{self, Threads};
use std::time::Duration;

/// A recording of one frame.
const RECORDED: [(&str, &str); 2] = [
    ("start 1001 7 42 65536 1408 65536 0 1000 c", "started 0 0"),
    (
        "block 0 2500000000c001000000000007000000e90300002a000000000000000000000068656c6c6f",
        "settled 64",
    ),
];

/// What a poll of it answers.
const FRAME: &str =
    "frame 0 2500000000c001000000000007000000e90300002a000000000000000000000068656c6c6f";

/// Lines that would take its frame away.
const REMOVES: [(&str, &str); 3] = [
    ("stop 0 5", "stopped 64"),
    ("truncate 0 0", "error 4 ActiveReplay"),
    ("purge 0", "error 4 ActiveReplay"),
];

/// How many open replays were said to hold recording 0, in all.
#[derive(Drop)]
struct Held(AtomicU64);

/// Counts them.
#[derive(Clone, Copy, Drop)]
struct Counting<'a>(&'a Held);

impl Reporter for Counting<'_> {
    fn report(&self, happening: &Happening<'_>) {
        if let Happening::Client(
            ClientNews::HeldByReplays {
                recording: 0,
                replays,
            },
        ) = happening
        {
            self.0.0.fetch_add(replays.len() as u64, Ordering::SeqCst);
        }
    }
}

/// Whether the line `replays` answers with these open replays of a client, each by its line without the address.
pub(crate) fn lists(
    alloc: Global,
    client: &mut Client,
    replays: &[&str],
    address: SocketAddr,
) -> Result<bool, AllocError> {
    if !client.say("replays") {
        return Ok(false);
    }
    for replay in replays {
        let line = format!(in alloc; "{replay} {address}")?;
        if !client.hears(alloc, line.as_str()) {
            return Ok(false);
        }
    }
    let end = format!(in alloc; "end {}", replays.len())?;
    Ok(client.hears(alloc, end.as_str()))
}

/// Whether each of these lines is answered so.
fn are_answered(alloc: Global, client: &mut Client, lines: &[(&str, &str)]) -> bool {
    for (line, answer) in lines {
        if !client.asks(alloc, line, answer) {
            return false;
        }
    }
    true
}

/// One client replays a recording, and another one sees where it is.
fn are_seen(
    alloc: Global,
    reader: &mut Client,
    other: &mut Client,
    address: SocketAddr,
) -> Result<bool, AllocError> {
    let is_begun = lists(alloc, other, &[], address)?
        && are_answered(alloc, reader, RECORDED.as_slice())
        && reader.asks(alloc, "replay 0 0 64", "replay 0")
        && reader.asks(alloc, "replay 0 -1 -1", "replay 1");
    let both = ["open 0 0 0 64 line", "open 1 0 -1 -1 line"];
    let is_seen = is_begun && lists(alloc, other, &both, address)?;
    let is_polled = is_seen
        && reader.asks(alloc, "poll 1 10", FRAME)
        && reader.hears(alloc, "more 64")
        && reader.asks(alloc, "poll 0 10", FRAME)
        && reader.hears(alloc, "done");
    let both = ["open 0 0 64 64 line", "open 1 0 64 -1 line"];
    let is_seen = is_polled && lists(alloc, other, &both, address)?;
    let is_closed = is_seen
        && are_answered(alloc, other, REMOVES.as_slice())
        && other.asks(alloc, "close 0", "closed");
    Ok(is_closed && lists(alloc, other, &["open 1 0 64 -1 line"], address)?)
}

/// Whether that is so of two clients, whose connections end then.
fn is_seen<R: Net<Listener = TcpListener, Stream = TcpStream>>(
    rt: &R,
    alloc: Global,
    ports: Ports,
) -> bool {
    match (Client::new(rt, alloc, ports), Client::new(rt, alloc, ports)) {
        (Some(mut reader), Some(mut other)) => match reader.address() {
            Some(address) => are_seen(alloc, &mut reader, &mut other, address) == Ok(true),
            None => false,
        },
        _ => false,
    }
}

/// Serves two clients at a time while one replays. Whether the other one sees it, whether none is open after the end of the first
/// one's connection, and how many replays were said to hold the recording.
fn seen<R: Threads + Wait + Clock + Net<Listener = TcpListener, Stream = TcpStream> + Sync>(
    rt: &R,
    alloc: Global,
) -> Option<(bool, bool, u64)> {
    let (ends, ports) = bound(rt)?;
    let held = Held(AtomicU64::new(0));
    let told = &held;
    let mut options = options(60, SETTLE_EVERY);
    options.clients = Some(2);
    let disk = MemoryDisk::new(alloc);
    let (has_ended, are_right) = thread::join(
        rt,
        move || { serve_with(rt, alloc, ends, disk, &options, Counting(told)).is_ok() },
        move || looks(rt, alloc, ports),
    );
    if !has_ended {
        return None;
    }
    let (are_seen, is_left) = are_right?;
    Some((are_seen, is_left, held.0.load(Ordering::SeqCst)))
}

/// Asks at most 1,000 times until no replay is open, where one at most is. Whether that was answered.
fn awaits_none<R: Clock>(rt: &R, alloc: Global, client: &mut Client) -> bool {
    for _ in 0..1_000 {
        if client.asks(alloc, "replays", "end 0") {
            return true;
        }
        if !client.hears(alloc, "end 1") {
            return false;
        }
        thread::sleep(rt, Duration::from_millis(2));
    }
    false
}

/// Two clients, and a third one after them, which quits.
fn looks<R: Clock + Net<Listener = TcpListener, Stream = TcpStream>>(
    rt: &R,
    alloc: Global,
    ports: Ports,
) -> Option<(bool, bool)> {
    let is_right = is_seen(rt, alloc, ports);
    let mut last = Client::new(rt, alloc, ports)?;
    let is_left = awaits_none(rt, alloc, &mut last);
    if last.asks(alloc, "quit", "bye") {
        Some((is_right, is_left))
    } else {
        None
    }
}

/// With two clients at a time one sees where the other's replays are, with the other's address. A refused line that would take
/// frames away says that both hold them. The end of a connection closes its replays.
#[test]
fn open_replays_are_seen(rt: HostRuntime) -> Result<(), Fail> {
    assert!(rt; seen(&rt, rt.alloc()) == Some((true, true, 4)));
    Ok(())
}

/// A client of a server of one client at a time.
const ALONE: &str = "\
asks replays: error 22 BadLine
";

/// With one client at a time, and without `--aeron`, `replays` is BadLine. With `--aeron` it is answered.
#[test]
fn the_line_of_open_replays(rt: HostRuntime) -> Result<(), Fail> {
    for (window, answer) in [(None, ALONE), (Some(131_072), "asks replays: end 0\n")] {
        let mut options = options(60, SETTLE_EVERY);
        options.window = window;
        converses(&rt, rt.alloc(), options, answer)?;
    }
    Ok(())
}
