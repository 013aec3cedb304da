//! Connections that are sent the frames of a replay: docs/SERVING.md, "Consumers"; docs/PROTOCOL.md, "Following a recording".

use crate::client::{Client, Ports, connected};
use crate::open_replays::lists;
use crate::serving::{bound, disk_flushed, options, quits, served};
use crate::vectors::hello;
use disk_core::{FileId, MemoryDisk};
use server::{Flusher, Openings, SETTLE_EVERY, ServeOptions, Unflushed};
use std::alloc::Global;
use std::io::{self, Read, Write};
use std::net::{Net, TcpListener, TcpStream};
use std::rt::Clock;
use std::sync::Wait;
use std::test::Fail;
use std::thread::{self, Threads};

/// A recording of two messages, which is stopped.
pub(crate) const RECORDED: &str = "asks start 1001 7 42 65536 1408 65536 0 1000 c: started 0 0
asks block 0 2500000000c001000000000007000000e90300002a000000000000000000000068656c6c6f: settled 64
asks block 0 2500000000c001004000000007000000e90300002a000000000000000000000068656c6c6f: settled 128
asks stop 0 5: stopped 128
";

/// A disk that is opened again as it was.
#[derive(Drop)]
pub(crate) struct Copies(pub MemoryDisk);

impl Openings<MemoryDisk> for Copies {
    fn can_open(&self) -> bool {
        true
    }

    fn open_again(&self, _alloc: Global) -> Option<MemoryDisk> {
        self.0.crash(&[255]).ok()
    }
}

impl Flusher for Copies {
    fn width(&self) -> usize {
        0
    }

    fn flush(&self, file: FileId) -> io::Result<()> {
        let _ = file;
        Ok(())
    }

    fn failed(&self, file: FileId, error: io::Error) {
        let _ = (file, error);
    }
}

/// A heartbeat of the recording with these flags, at an offset of its term of so many times 64 bytes.
pub(crate) fn sign(flags: u8, index: u8) -> [u8; 32] {
    let mut bytes = [0; 32];
    bytes[5] = flags;
    bytes[6] = 1;
    bytes[8] = index.wrapping_mul(64);
    bytes[12] = 7;
    bytes[16] = 0xE9;
    bytes[17] = 3;
    bytes[20] = 42;
    bytes
}

/// The message at such an offset as a follower is sent it.
pub(crate) fn sent(index: u8) -> [u8; 64] {
    let mut bytes = [0; 64];
    for (to, from) in bytes.iter_mut().zip(hello(index).as_slice()) {
        *to = *from;
    }
    bytes
}

/// Whether these bytes come next.
fn comes(stream: &mut TcpStream, wanted: &[u8]) -> bool {
    let mut bytes = [0; 64];
    match bytes.get_mut(..wanted.len()) {
        Some(bytes) => stream.read_exact(bytes).is_ok() && &*bytes == wanted,
        None => false,
    }
}

/// Whether the messages between two such offsets come next.
fn come(stream: &mut TcpStream, from: u8, to: u8) -> bool {
    for index in from..to {
        if !comes(stream, sent(index).as_slice()) {
            return false;
        }
    }
    true
}

/// Whether no more comes, and the connection ends.
fn has_ended(stream: &mut TcpStream, alloc: Global) -> bool {
    let mut rest = Vec::new(alloc);
    stream.read_to_end(&mut rest).is_ok() && rest.is_empty()
}

/// A connection on which something is said, and answered by this.
fn answered<R: Net<Listener = TcpListener, Stream = TcpStream>>(
    rt: &R,
    ports: Ports,
    said: &str,
    answer: &str,
) -> Option<TcpStream> {
    let mut stream = connected(rt, ports)?;
    if stream.write_all(said.as_bytes()).is_ok() && comes(&mut stream, answer.as_bytes()) {
        Some(stream)
    } else {
        None
    }
}

/// What clients do, while two are served at a time.
#[derive(Clone, Copy)]
enum Case {
    /// They follow the recording, which is stopped.
    Stopped,
    /// They follow what can't be followed.
    Refused,
    /// One follows the recording, which is active, and another closes its replay.
    Closed,
}

/// Options of a server of two clients at a time.
fn for_two() -> ServeOptions<'static> {
    let mut options = options(60, SETTLE_EVERY);
    options.clients = Some(2);
    options
}

/// Serves a disk to clients in a case. Whether all went as it has to.
fn is_followed<R: Threads + Wait + Clock + Net<Listener = TcpListener, Stream = TcpStream> + Sync>(
    rt: &R,
    alloc: Global,
    disk: MemoryDisk,
    copies: &Copies,
    case: Case,
) -> bool {
    let Some((ends, ports)) = bound(rt) else {
        return false;
    };
    let options = for_two();
    let (has_ended, is_right) = thread::join(
        rt,
        move || disk_flushed(rt, alloc, ends, disk, &options, copies).is_some(),
        move || goes(rt, alloc, ports, case),
    );
    has_ended && is_right
}

/// Serves the recording in a case. Whether all went as it has to.
fn is_right<R: Threads + Wait + Clock + Net<Listener = TcpListener, Stream = TcpStream> + Sync>(
    rt: &R,
    alloc: Global,
    case: Case,
) -> bool {
    let Some(disk) = served(rt, alloc, MemoryDisk::new(alloc), 60, RECORDED) else {
        return false;
    };
    match disk.crash(&[255]) {
        Ok(copy) => is_followed(rt, alloc, disk, &Copies(copy), case),
        Err(_) => false,
    }
}

/// Whether a case goes as it has to. The server quits then.
fn goes<R: Net<Listener = TcpListener, Stream = TcpStream>>(
    rt: &R,
    alloc: Global,
    ports: Ports,
    case: Case,
) -> bool {
    let is_right = match case {
        Case::Stopped => is_sent(rt, alloc, ports),
        Case::Refused => is_refused(rt, alloc, ports),
        Case::Closed => is_closed(rt, alloc, ports),
    };
    quits(rt, alloc, ports) && is_right
}

/// What is said, what it is answered, and between which offsets messages come then, in 64 bytes: the recording is sent from its
/// start, from its second message on, up to a bound, and from its end on.
const FOLLOWED: [(&str, &str, u8, u8); 4] = [
    ("follow 0 -1 -1\n", "following 0\n", 0, 2),
    ("follow 0 64 -1\nquit\n", "following 64\n", 1, 2),
    ("follow 0 0 1\n", "following 0\n", 0, 1),
    ("follow 0 128 -1\n", "following 128\n", 2, 2),
];

/// Whether a row is followed by its messages and by an end, and no more comes.
fn follows<R: Net<Listener = TcpListener, Stream = TcpStream>>(
    rt: &R,
    alloc: Global,
    ports: Ports,
    row: (&str, &str, u8, u8),
) -> bool {
    let (said, answer, from, to) = row;
    match answered(rt, ports, said, answer) {
        Some(mut stream) => {
            come(&mut stream, from, to)
                && comes(&mut stream, sign(0xE0, to).as_slice())
                && has_ended(&mut stream, alloc)
        }
        None => false,
    }
}

/// Whether a stopped recording is sent as the rows say.
fn is_sent<R: Net<Listener = TcpListener, Stream = TcpStream>>(
    rt: &R,
    alloc: Global,
    ports: Ports,
) -> bool {
    for row in FOLLOWED {
        if !follows(rt, alloc, ports, row) {
            return false;
        }
    }
    true
}

/// What can't be followed, and how it is refused. The connection goes on.
const REFUSED: [(&str, &str); 8] = [
    ("follow 9 0 -1", "error 1 UnknownRecording"),
    ("follow 0 32 -1", "error 5 BadPosition"),
    ("follow 0 192 -1", "error 5 BadPosition"),
    ("follow 0 -2 -1", "error 10 BadParameter"),
    ("follow 0 0 -2", "error 10 BadParameter"),
    ("follow 0 0", "error 22 BadLine"),
    ("follow", "error 22 BadLine"),
    ("positions 0", "positions 0 128 128"),
];

/// Whether what can't be followed is refused as the rows say.
fn is_refused<R: Net<Listener = TcpListener, Stream = TcpStream>>(
    rt: &R,
    alloc: Global,
    ports: Ports,
) -> bool {
    let Some(mut client) = Client::new(rt, alloc, ports) else {
        return false;
    };
    for (line, answer) in REFUSED {
        if !client.asks(alloc, line, answer) {
            return false;
        }
    }
    true
}

/// Whether a follower of the active recording is sent its second message, and two heartbeats.
fn is_live(stream: &mut TcpStream) -> bool {
    comes(stream, sent(1).as_slice())
        && comes(stream, sign(0xC0, 2).as_slice())
        && comes(stream, sign(0xC0, 2).as_slice())
}

/// Whether a follower's replay is listed where its next message begins, with the follower's address.
fn is_listed(client: &mut Client, alloc: Global, stream: &TcpStream) -> bool {
    match stream.local_addr() {
        Ok(address) => lists(alloc, client, &["open 0 0 128 -1 follow"], address) == Ok(true),
        Err(_) => false,
    }
}

/// Whether a follower's replay can't be polled, and is closed by `close`.
fn is_its_own(client: &mut Client, alloc: Global) -> bool {
    client.asks(alloc, "poll 0 1", "error 9 UnknownReplay")
        && client.asks(alloc, "poll-to 0 1 64", "error 9 UnknownReplay")
        && client.asks(alloc, "close 0", "closed")
}

/// Whether the connection ends, after heartbeats alone.
fn hears_nothing_else(stream: &mut TcpStream, alloc: Global) -> bool {
    let mut rest = Vec::new(alloc);
    stream.read_to_end(&mut rest).is_ok() && are_heartbeats(rest.as_slice())
}

/// Whether these bytes are heartbeats at the recording's end.
fn are_heartbeats(bytes: &[u8]) -> bool {
    for heartbeat in bytes.chunks(32) {
        if heartbeat != sign(0xC0, 2).as_slice() {
            return false;
        }
    }
    true
}

/// Whether a client that closes a follower's replay ends the follower, and nothing but that does.
fn is_closed<R: Net<Listener = TcpListener, Stream = TcpStream>>(
    rt: &R,
    alloc: Global,
    ports: Ports,
) -> bool {
    let Some(mut client) = Client::new(rt, alloc, ports) else {
        return false;
    };
    if !client.asks(alloc, "extend 0 1001 7 42 65536 1408 128", "extended 0") {
        return false;
    }
    match answered(rt, ports, "follow 0 64 -1\n", "following 64\n") {
        Some(mut stream) => {
            is_live(&mut stream)
                && is_listed(&mut client, alloc, &stream)
                && is_its_own(&mut client, alloc)
                && hears_nothing_else(&mut stream, alloc)
                && client.asks(alloc, "close 0", "error 9 UnknownReplay")
                && client.asks(alloc, "replays", "end 0")
        }
        None => false,
    }
}

/// A stopped recording is sent byte for byte: from its start, from a position in it, up to a bound, and from its end on. Then comes
/// an end, and the connection ends.
#[test]
fn a_stopped_recording_is_sent(rt: HostRuntime) -> Result<(), Fail> {
    assert!(rt; is_right(&rt, rt.alloc(), Case::Stopped));
    Ok(())
}

/// What can't be followed is refused as a replay is, and the connection goes on.
#[test]
fn what_cannot_be_followed_is_refused_as_a_replay(rt: HostRuntime) -> Result<(), Fail> {
    assert!(rt; is_right(&rt, rt.alloc(), Case::Refused));
    Ok(())
}

/// A client can't poll a follower's replay. To close it ends the follower, without an end of the recording.
#[test]
fn a_followers_replay_is_its_own(rt: HostRuntime) -> Result<(), Fail> {
    assert!(rt; is_right(&rt, rt.alloc(), Case::Closed));
    Ok(())
}

/// What flushes nothing has no thread and opens nothing. If it is asked all the same, it says that a file is flushed.
#[test]
fn idle_flusher(rt: HostRuntime) -> Result<(), Fail> {
    assert!(rt; Unflushed.width() == 0 && Unflushed.flush(FileId::BankA).is_ok());
    assert!(rt; !Unflushed.can_open() && Unflushed.open_again(rt.alloc()).is_none());
    Ok(())
}
