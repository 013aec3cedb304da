//! Several clients at a time: docs/SERVING.md, "Control lines".

use crate::client::{Client, Ports};
use crate::serving::{bound, converses, options};
use disk_core::MemoryDisk;
use server::{SETTLE_EVERY, ServeOptions, Unreported, serve_with};
use std::alloc::Global;
use std::net::{Net, TcpListener, TcpStream};
use std::rt::Clock;
use std::sync::Wait;
use std::test::Fail;
use std::thread::{self, Threads};
use std::time::Duration;

/// What clients do, up to the line that quits.
#[derive(Clone, Copy)]
enum Crowd {
    /// One polls until another one, which was answered meanwhile, quits.
    Polls,
    /// Two are idle when a third one comes.
    Idles,
    /// Two wait when a third one quits, one of them in the middle of a line.
    Waits,
}

/// Options of a server for so many clients.
fn for_clients(idle_seconds: u64, clients: Option<u32>) -> ServeOptions<'static> {
    let mut options = options(idle_seconds, SETTLE_EVERY);
    options.clients = clients;
    options
}

/// Serves a crowd of so many clients at most until one quits. Whether all goes as it has to.
fn is_served<R: Threads + Wait + Clock + Net<Listener = TcpListener, Stream = TcpStream> + Sync>(
    rt: &R,
    alloc: Global,
    clients: u32,
    crowd: Crowd,
) -> bool {
    let Some((ends, ports)) = bound(rt) else {
        return false;
    };
    let options = for_clients(1, Some(clients));
    let disk = MemoryDisk::new(alloc);
    let (has_ended, is_right) = thread::join(
        rt,
        move || { serve_with(rt, alloc, ends, disk, &options, Unreported).is_ok() },
        move || does(rt, alloc, ports, crowd),
    );
    has_ended && is_right
}

/// Whether a crowd is answered as it has to be.
fn does<R: Threads + Clock + Net<Listener = TcpListener, Stream = TcpStream> + Sync>(
    rt: &R,
    alloc: Global,
    ports: Ports,
    crowd: Crowd,
) -> bool {
    match (
        Client::new(rt, alloc, ports),
        Client::new(rt, alloc, ports),
        Client::new(rt, alloc, ports),
    ) {
        (Some(first), Some(second), Some(third)) => match crowd {
            Crowd::Polls => polls(rt, alloc, ports, first, second, third),
            Crowd::Idles => idles(rt, alloc, first, second, third),
            Crowd::Waits => waits(alloc, first, second, third),
        },
        _ => false,
    }
}

/// One polls, while three others are answered.
fn polls<R: Threads + Net<Listener = TcpListener, Stream = TcpStream> + Sync>(
    rt: &R,
    alloc: Global,
    ports: Ports,
    mut first: Client,
    mut second: Client,
    mut third: Client,
) -> bool {
    const START: &str = "start 1001 7 42 65536 1408 65536 0 1000 c";
    if !first.asks(alloc, START, "started 0 0") || !first.asks(alloc, "replay 0 0 -1", "replay 0") {
        return false;
    }
    let (polls, is_answered) = thread::join(
        rt,
        move || polls_on(alloc, &mut first),
        move || {
            second.asks(alloc, "positions 0", "positions 0 0 -1")
                && third.asks(alloc, "poll 0 1", "more 0")
                && quits_alone(rt, alloc, ports)
        },
    );
    polls > 0 && is_answered
}

/// A fourth client is answered, and quits.
fn quits_alone<R: Net<Listener = TcpListener, Stream = TcpStream>>(
    rt: &R,
    alloc: Global,
    ports: Ports,
) -> bool {
    match Client::new(rt, alloc, ports) {
        Some(mut client) => {
            client.asks(alloc, "source 0", "source 0") && client.asks(alloc, "quit", "bye")
        }
        None => false,
    }
}

/// Polls until the server ends the connection: how many polls were answered.
fn polls_on(alloc: Global, client: &mut Client) -> u64 {
    for polls in 0..u64::MAX {
        if !client.asks(alloc, "poll 0 1", "more 0") {
            return polls;
        }
    }
    u64::MAX
}

/// The third one gets the place of one of two that are idle for longer than a second. The other one keeps its place.
fn idles<R: Clock>(
    rt: &R,
    alloc: Global,
    mut first: Client,
    mut second: Client,
    mut third: Client,
) -> bool {
    thread::sleep(rt, Duration::from_millis(1_500));
    const LINE: &str = "positions 0";
    const ANSWER: &str = "error 1 UnknownRecording";
    let is_answered = third.asks(alloc, LINE, ANSWER);
    let has_first = first.asks(alloc, LINE, ANSWER);
    let has_second = second.asks(alloc, LINE, ANSWER);
    third.asks(alloc, "quit", "bye") && is_answered && has_first != has_second
}

/// The server ends the connections of two that say nothing, or half a line, once the third one has quit.
fn waits(alloc: Global, mut first: Client, mut second: Client, mut third: Client) -> bool {
    first.send(b"posi")
        && second.asks(alloc, "positions 0", "error 1 UnknownRecording")
        && third.asks(alloc, "quit", "bye")
        && !first.hears(alloc, "")
        && !second.hears(alloc, "")
}

/// With four clients at a time, one polls without a pause while three others are answered.
#[test]
fn one_polls_while_three_are_answered(rt: HostRuntime) -> Result<(), Fail> {
    assert!(rt; is_served(&rt, rt.alloc(), 4, Crowd::Polls));
    Ok(())
}

/// If all places are taken, a client that waits gets the place of one that is idle for too long. The others stay.
#[test]
fn an_idle_client_leaves_its_place(rt: HostRuntime) -> Result<(), Fail> {
    assert!(rt; is_served(&rt, rt.alloc(), 2, Crowd::Idles));
    Ok(())
}

/// `quit` of one client ends the connections of those that are idle, or within a line.
#[test]
fn a_quit_ends_all_connections(rt: HostRuntime) -> Result<(), Fail> {
    assert!(rt; is_served(&rt, rt.alloc(), 3, Crowd::Waits));
    Ok(())
}

/// A replay that a connection left is closed, and a merge goes on in the next connection.
const ALONE: &str = "\
asks start 1001 7 42 65536 1408 65536 0 1000 c: started 0 0
asks replay 0 0 -1: replay 0
asks merge 42 65536 64: merge 64

asks poll 0 1: error 9 UnknownReplay
asks merge-state: merged no 64";

/// A replay that a connection left is closed, and a merge is the connection's.
const BESIDE: &str = "\
asks start 1001 7 42 65536 1408 65536 0 1000 c: started 0 0
asks replay 0 0 -1: replay 0
asks merge 42 65536 64: merge 64
asks-alone merge-state: error 9 UnknownReplay
asks-alone poll 0 1: more 0
asks merge-state: merged no 64

awaits poll 0 1: error 9 UnknownReplay
asks merge-state: error 9 UnknownReplay";

/// A replay that a connection left stays open.
const LEFT: &str = "\
asks start 1001 7 42 65536 1408 65536 0 1000 c: started 0 0
asks replay 0 0 -1: replay 0

asks poll 0 1: more 0";

/// A replay that a connection leaves open is closed with `--clients`, and stays without. A merge stays if one client is served at
/// a time.
#[test]
fn what_a_connection_leaves(rt: HostRuntime) -> Result<(), Fail> {
    for (clients, conversation) in [(Some(1), ALONE), (Some(2), BESIDE), (None, LEFT)] {
        converses(&rt, rt.alloc(), for_clients(60, clients), conversation)?;
    }
    Ok(())
}
