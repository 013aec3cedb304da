//! Conversations with a server, as text: docs/SERVING.md, "Control lines".
//!
//! An empty line ends a connection, and the next line begins another one. Behind a line's word stands what is said, or the
//! name of a datagram of `vectors`, and behind a colon what has to be answered:
//! - `asks` says a line once, `awaits` until it is answered so, `asks-alone` in a connection of its own beside this one;
//!   `sends` sends bytes of a line;
//! - `casts` sends a datagram, `casts-elsewhere` by another socket, which gets no answer, `casts-ten` the first ten messages of
//!   a stream, `casts-setups` the setup frames of 64 publications, `casts-firsts` with a message after each, `casts-others` the setup
//!   frames of 64 publications of another stream; `moves` makes another socket the client's;
//! - `receives` waits for one, `receives-either` for one of two, `receives-among` for one among others, `silence` until none has come for a second;
//! - `follows` waits for one line more;
//! - `beats` sends a datagram each 200 milliseconds for 3 seconds;
//! - `pauses` waits for 300 milliseconds, `rests` for 3 seconds, `loses` until an image was lost, `ends` until the server has
//!   ended the connection.

use crate::client::{Client, Ports};
use crate::serving::{Told, converses, options, served, served_with};
use crate::strict::not_a_catalogue;
use crate::vectors::datagram;
use disk_core::MemoryDisk;
use server::{SETTLE_EVERY, ServeOptions};
use std::alloc::Global;
use std::net::{Net, TcpListener, TcpStream};
use std::rt::Clock;
use std::sync::Wait;
use std::test::Fail;
use std::thread::{self, Threads};
use std::time::Duration;
use tool_core::{Unobserved, run_script};

/// Whether a conversation goes as it says.
pub(crate) fn holds<R: Clock + Net<Listener = TcpListener, Stream = TcpStream>>(
    rt: &R,
    alloc: Global,
    ports: Ports,
    told: &Told,
    conversation: &str,
) -> bool {
    for connection in conversation.split("\n\n") {
        if !goes_as_told(rt, alloc, ports, told, connection) {
            return false;
        }
    }
    true
}

/// Whether one connection of it does.
fn goes_as_told<R: Clock + Net<Listener = TcpListener, Stream = TcpStream>>(
    rt: &R,
    alloc: Global,
    ports: Ports,
    told: &Told,
    connection: &str,
) -> bool {
    let Some(mut client) = Client::new(rt, alloc, ports) else {
        return false;
    };
    for line in connection.lines() {
        if !is_met(rt, alloc, ports, told, &mut client, line) {
            return false;
        }
    }
    true
}

/// Whether a line of it does.
fn is_met<R: Clock + Net<Listener = TcpListener, Stream = TcpStream>>(
    rt: &R,
    alloc: Global,
    ports: Ports,
    told: &Told,
    client: &mut Client,
    line: &str,
) -> bool {
    let (word, rest) = parted(line, " ");
    let (said, answer) = parted(rest, ": ");
    match word {
        "asks" => client.asks(alloc, said, answer),
        "awaits" => client.awaits(rt, alloc, said, answer),
        "asks-alone" => asks_alone(rt, alloc, ports, said, answer),
        "sends" => client.send(said.as_bytes()),
        "casts" => client.casts(datagram(said)),
        "casts-elsewhere" => client.casts_elsewhere(rt, datagram(said)),
        "beats" => beats(rt, client, datagram(said)),
        "casts-ten" => client.casts_ten(),
        "casts-setups" => client.casts_setups(),
        "casts-firsts" => client.casts_firsts(),
        "casts-others" => client.casts_others(),
        "moves" => client.moves(rt),
        "records-200" => client.records_200(rt, alloc),
        "receives" => client.receives(datagram(said)),
        "receives-either" => receives_either(client, said),
        "receives-among" => client.receives_among(datagram(said)),
        "silence" => client.falls_silent(),
        "follows" => client.hears(alloc, rest),
        "loses" => told.awaits_loss(rt),
        "ends" => !client.hears(alloc, ""),
        "pauses" => sleeps(rt, 300),
        "rests" => sleeps(rt, 3_000),
        _ => false,
    }
}

/// What stands before a mark and behind it; the whole text and nothing where it has none.
fn parted<'a>(text: &'a str, mark: &str) -> (&'a str, &'a str) {
    match text.split_once(mark) {
        Some(parts) => parts,
        None => (text, ""),
    }
}

fn sleeps<R: Clock>(rt: &R, milliseconds: u64) -> bool {
    thread::sleep(rt, Duration::from_millis(milliseconds));
    true
}

/// Whether the next datagram that comes is one of two, by their names.
fn receives_either(client: &Client, names: &str) -> bool {
    let (one, other) = parted(names, " ");
    client.receives_either(datagram(one), datagram(other))
}

/// Sends a datagram each 200 milliseconds for 3 seconds.
fn beats<R: Clock>(rt: &R, client: &Client, datagram: &[u8]) -> bool {
    for _ in 0..15 {
        if !client.casts(datagram) {
            return false;
        }
        sleeps(rt, 200);
    }
    true
}

/// Whether a line is answered so in a connection of its own.
fn asks_alone<R: Net<Listener = TcpListener, Stream = TcpStream>>(
    rt: &R,
    alloc: Global,
    ports: Ports,
    line: &str,
    answer: &str,
) -> bool {
    match Client::new(rt, alloc, ports) {
        Some(mut client) => client.asks(alloc, line, answer),
        None => false,
    }
}

/// Frames come behind a session that was opened, and one is lost.
const LOSS: &str = "\
asks start 1001 7 42 65536 1408 65536 0 1000 c: started 0 0
casts SETUP
casts HELLO_AT_0
casts HELLO_AT_128
receives NAK_AT_64
casts HELLO_AT_64
awaits positions 0: positions 0 192 -1
";

/// What a script of `positions 0`, a replay and a poll of a frame is answered then.
const RECORDED: &str = "\
positions 0 192 192
replay 0
frame 0 2500000000c001000000000007000000e90300002a000000000000000000000068656c6c6f
more 64
";

/// Whether such a script is answered so over a disk.
fn is_recorded(alloc: Global, disk: MemoryDisk) -> bool {
    let script = b"positions 0\nreplay 0 -1 -1\npoll 0 1\n".as_slice();
    let mut output = Vec::new(alloc);
    match run_script(alloc, script, &mut output, disk, &mut Unobserved) {
        Ok(_) => output.as_slice() == RECORDED.as_bytes(),
        Err(_) => false,
    }
}

/// Whether it is so once a new disk was served with these options while a conversation was held.
pub(crate) fn records<
    R: Threads + Wait + Clock + Net<Listener = TcpListener, Stream = TcpStream> + Sync,
>(rt: &R, alloc: Global, options: ServeOptions<'_>, conversation: &str) -> bool {
    match served_with(rt, alloc, MemoryDisk::new(alloc), options, conversation) {
        Some(disk) => is_recorded(alloc, disk),
        None => false,
    }
}

/// A lost datagram is asked for by a NAK. Once it came, all frames are recorded, and on the disk after `quit`.
#[test]
fn frames_are_recorded_behind_a_loss(rt: HostRuntime) -> Result<(), Fail> {
    assert!(rt; records(&rt, rt.alloc(), options(60, SETTLE_EVERY), LOSS));
    Ok(())
}

/// Frames come before their session is opened, and so do datagrams that are none.
const EARLY: &str = "\
casts HELLO_AT_128
casts no datagram
casts
casts SETUP_CUT_OFF
casts SETUP
casts SETUP
casts HELLO_AT_0
casts HELLO_AT_64_CUT_OFF
casts HELLO_AT_128
receives NAK_AT_64
asks start 1001 7 42 65536 1408 65536 64 1000 c: started 0 0
asks start 1001 7 42 65536 1408 65536 0 1000 c: started 1 1
casts HELLO_AT_64
awaits positions 1: positions 0 192 -1
asks positions 0: positions 64 64 -1
";

/// Frames that came before `start` are recorded by the session that begins where their image joined. Bad datagrams change
/// nothing.
#[test]
fn an_image_waits_for_its_session(rt: HostRuntime) -> Result<(), Fail> {
    converses(&rt, rt.alloc(), options(60, SETTLE_EVERY), EARLY)
}

/// A client writes what the image has too: the image is lost, and the session goes on.
const RIVAL: &str = "\
asks start 1001 7 42 65536 1408 65536 0 1000 c: started 0 0
casts SETUP
casts HELLO_AT_0
awaits positions 0: positions 0 64 -1
asks write 0 00: error 21 BadFrame 0
asks block 0 2500000000c001004000000007000000e90300002a000000000000000000000068656c6c6f: settled 128
casts HELLO_AT_64
loses
casts HELLO_AT_128
asks positions 0: positions 0 128 -1
";

/// After a client's block the image's next one is refused: the image is lost, and the session keeps what it wrote. A refused line
/// takes nothing away.
#[test]
fn a_refused_block_takes_the_image_away(rt: HostRuntime) -> Result<(), Fail> {
    converses(&rt, rt.alloc(), options(60, SETTLE_EVERY), RIVAL)
}

/// Lines that are none here, one in pieces, two that are cut off, and a client that says nothing while another waits, which is
/// served then.
const CLIENTS: &str = "\
asks reopen: error 22 BadLine
asks compact: error 22 BadLine
asks images: error 22 BadLine
sends positi
pauses
asks ons 0: error 1 UnknownRecording

sends positi

sends positi

asks-alone merge-state: error 9 UnknownReplay
ends";

/// `reopen`, `compact` and `images` are BadLine. A line in pieces is answered, and one that is cut off harms no client. A client
/// that is idle leaves its place to one that waits.
#[test]
fn each_client_is_served(rt: HostRuntime) -> Result<(), Fail> {
    converses(&rt, rt.alloc(), options(1, SETTLE_EVERY), CLIENTS)
}

/// Clients one after another: a merge that one of them began is there for the next.
const MERGING: &str = "\
asks merge-state: error 9 UnknownReplay

asks merge 42 65536 64: merge 64

asks merge-state: merged no 64";

/// A merge that one connection began goes on in the next one, if one client is served at a time.
#[test]
fn a_merge_goes_on_in_the_next_connection(rt: HostRuntime) -> Result<(), Fail> {
    converses(&rt, rt.alloc(), options(60, SETTLE_EVERY), MERGING)
}

/// Lines where no archive is open.
const UNOPENED: &str = "\
asks start 1001 7 42 65536 1408 65536 0 1000 c: error 16 Broken
asks reopen: error 22 BadLine
casts SETUP
casts HELLO_AT_128
receives NAK_AT_0
asks merge 42 65536 0: merge 0
";

/// Without an open archive lines that need it are Broken. Merges and NAKs go on.
#[test]
fn lines_are_broken_where_no_archive_is_open(rt: HostRuntime) -> Result<(), Fail> {
    let disk = not_a_catalogue(rt.alloc());
    assert!(rt; served(&rt, rt.alloc(), disk, 60, UNOPENED).is_some());
    Ok(())
}

/// Blocks of two segments wait for their session.
const TWO_SEGMENTS: &str = "\
casts SETUP_AT_TERM_END
casts HELLO_AT_TERM_END
casts HELLO_IN_NEXT_TERM
casts HELLO_LATER
receives NAK_IN_NEXT_TERM
asks start 1001 7 42 65536 1408 65536 65472 1000 c: started 0 0
awaits positions 0: positions 65472 65600 -1
";

/// Blocks of two segments that wait for their session are all recorded.
#[test]
fn a_batch_goes_over_a_segment(rt: HostRuntime) -> Result<(), Fail> {
    converses(&rt, rt.alloc(), options(60, SETTLE_EVERY), TWO_SEGMENTS)
}
