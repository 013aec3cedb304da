//! Recordings that are sent: docs/SERVING.md, "Send a recording"; docs/CONTROL.md, "Sendings".

use crate::client::{Client, Ports};
use crate::followers::{Copies, RECORDED, sent, sign};
use crate::serving::{bound, disk_flushed, options, quits, served};
use crate::vectors::SETUP;
use disk_core::MemoryDisk;
use server::{Network, Networks, SETTLE_EVERY, ServeOptions};
use std::alloc::Global;
use std::net::{Net, SocketAddr, TcpListener, TcpStream, UdpSocket};
use std::rt::Clock;
use std::sync::Wait;
use std::test::Fail;
use std::thread::{self, Threads};
use std::time::Duration;

/// What a client does with a recording that is stopped.
#[derive(Clone, Copy)]
enum Case {
    /// It has it sent, up to a bound, to a receiver that consumes it.
    Bounded,
    /// It has it sent as far as it grows.
    Unbounded,
    /// It has it sent to nobody, and ends that.
    Unheard,
    /// It asks for what is refused.
    Refused,
}

/// Options of a receiver of the public standard that sends to the network 127.0.0.0/8.
fn for_sendings() -> ServeOptions<'static> {
    let mut networks = Networks::new();
    networks.networks[0] = Some(Network {
        address: 0x7F00_0000,
        bits: 8,
    });
    let mut options = options(60, SETTLE_EVERY);
    options.clients = Some(2);
    options.window = Some(131_072);
    options.send_to = networks;
    options
}

/// A status message of the recording's publication: it is consumed up to an offset of its first term, and 4,096 bytes more are
/// admitted.
fn status(offset: u8) -> [u8; 36] {
    let mut bytes = [0; 36];
    bytes[0] = 36;
    bytes[6] = 3;
    bytes[8] = 7;
    bytes[12] = 0xE9;
    bytes[13] = 3;
    bytes[16] = 42;
    bytes[20] = offset;
    bytes[25] = 0x10;
    bytes
}

/// A receiver of a sending, and where datagrams came from last.
#[derive(Drop)]
struct Receiver {
    socket: UdpSocket,
    sender: Option<SocketAddr>,
}

impl Receiver {
    /// A receiver on a free port, which waits for 10 seconds at most.
    fn new<R: Net<Listener = TcpListener, Stream = TcpStream>>(rt: &R) -> Option<Receiver> {
        let socket = UdpSocket::bind(rt, "127.0.0.1:0").ok()?;
        socket.set_read_timeout(Some(Duration::from_secs(10))).ok()?;
        Some(Receiver {
            socket,
            sender: None,
        })
    }

    /// Whether the next datagram is this one, but for any of two others that come before it.
    fn hears(&mut self, wanted: &[u8], others: [&[u8]; 2]) -> bool {
        let mut buffer = [0; 2_048];
        for _ in 0..1_000 {
            let Ok((count, sender)) = self.socket.recv_from(buffer.as_mut_slice()) else {
                return false;
            };
            self.sender = Some(sender);
            let came = buffer.get(..count);
            if came == Some(wanted) {
                return true;
            }
            if came != Some(others[0]) && came != Some(others[1]) {
                return false;
            }
        }
        false
    }

    /// Sends a status message to where the last datagram came from.
    fn consumes(&self, offset: u8) -> bool {
        match self.sender {
            Some(sender) => self
                .socket
                .send_to(status(offset).as_slice(), sender)
                .is_ok(),
            None => false,
        }
    }
}

/// The recording's two messages, as one datagram.
fn both() -> [u8; 128] {
    let mut bytes = [0; 128];
    for (to, from) in bytes.iter_mut().zip(sent(0)) {
        *to = from;
    }
    for (to, from) in bytes.iter_mut().skip(64).zip(sent(1)) {
        *to = from;
    }
    bytes
}

/// Serves the recording in a case. Whether all went as it has to.
fn is_right<R: Threads + Wait + Clock + Net<Listener = TcpListener, Stream = TcpStream> + Sync>(
    rt: &R,
    alloc: Global,
    case: Case,
) -> bool {
    let Some(disk) = served(rt, alloc, MemoryDisk::new(alloc), 60, RECORDED) else {
        return false;
    };
    match disk.crash(&[255]) {
        Ok(copy) => is_served(rt, alloc, disk, &Copies(copy), case),
        Err(_) => false,
    }
}

/// Serves a disk to a client in a case. Whether all went as it has to.
fn is_served<R: Threads + Wait + Clock + Net<Listener = TcpListener, Stream = TcpStream> + Sync>(
    rt: &R,
    alloc: Global,
    disk: MemoryDisk,
    copies: &Copies,
    case: Case,
) -> bool {
    let Some((mut ends, ports)) = bound(rt) else {
        return false;
    };
    ends.sending = UdpSocket::bind(rt, "127.0.0.1:0").ok();
    let options = for_sendings();
    let (has_ended, is_right) = thread::join(
        rt,
        move || disk_flushed(rt, alloc, ends, disk, &options, copies).is_some(),
        move || goes(rt, alloc, ports, case),
    );
    has_ended && is_right
}

/// Whether a case goes as it has to. The server quits then.
fn goes<R: Clock + Net<Listener = TcpListener, Stream = TcpStream>>(
    rt: &R,
    alloc: Global,
    ports: Ports,
    case: Case,
) -> bool {
    let is_right = match (Client::new(rt, alloc, ports), Receiver::new(rt)) {
        (Some(mut client), Some(mut receiver)) => {
            holds(rt, alloc, ports, &mut client, &mut receiver, case)
        }
        _ => false,
    };
    quits(rt, alloc, ports) && is_right
}

/// Whether a case holds.
fn holds<R: Clock>(
    rt: &R,
    alloc: Global,
    ports: Ports,
    client: &mut Client,
    receiver: &mut Receiver,
    case: Case,
) -> bool {
    let Ok(address) = receiver.socket.local_addr() else {
        return false;
    };
    match case {
        Case::Bounded => is_bounded(rt, alloc, client, receiver, address) == Some(true),
        Case::Unbounded => is_unbounded(rt, alloc, client, receiver, address) == Some(true),
        Case::Unheard => is_unheard(alloc, client, receiver, address) == Some(true),
        Case::Refused => is_refused(alloc, ports, client, address) == Some(true),
    }
}

/// Whether the recording's frames are sent, once a status message came. A heartbeat may come before them.
fn is_sent(receiver: &mut Receiver) -> bool {
    let quiet = sign(0xC0, 0);
    receiver.hears(SETUP, [&[]; 2])
        && receiver.consumes(0)
        && receiver.hears(both().as_slice(), [SETUP, quiet.as_slice()])
        && receiver.consumes(128)
}

/// Whether a bounded sending ends with three heartbeats that have the end-of-stream flag.
fn is_bounded<R: Clock>(
    rt: &R,
    alloc: Global,
    client: &mut Client,
    receiver: &mut Receiver,
    address: SocketAddr,
) -> Option<bool> {
    let line = format!(in alloc; "send 0 -1 128 {address}").ok()?;
    let known = format!(in alloc; "send 0 0 {address} done 128 4224 128 128 0").ok()?;
    let (end, quiet) = (sign(0xE0, 2), sign(0xC0, 2));
    Some(
        client.asks(alloc, line.as_str(), "sending 0")
            && is_sent(receiver)
            && receiver.hears(end.as_slice(), [quiet.as_slice(), &[]])
            && receiver.hears(end.as_slice(), [&[]; 2])
            && receiver.hears(end.as_slice(), [&[]; 2])
            && is_listed(rt, alloc, client, known.as_str())
            && client.asks(alloc, "stop-sending 0", "stopped-sending 128")
            && client.asks(alloc, "sends", "end 0"),
    )
}

/// Whether `sends` has this line alone, once it has.
fn is_listed<R: Clock>(rt: &R, alloc: Global, client: &mut Client, known: &str) -> bool {
    client.awaits_two(rt, alloc, "sends", known, "end 1")
}

/// Whether a sending without a bound is done once all is consumed, and no flag says so.
fn is_unbounded<R: Clock>(
    rt: &R,
    alloc: Global,
    client: &mut Client,
    receiver: &mut Receiver,
    address: SocketAddr,
) -> Option<bool> {
    let line = format!(in alloc; "send 0 0 -1 {address}").ok()?;
    let known = format!(in alloc; "send 0 0 {address} done 128 4224 128 -1 0").ok()?;
    Some(
        client.asks(alloc, line.as_str(), "sending 0")
            && is_sent(receiver)
            && is_listed(rt, alloc, client, known.as_str())
            && client.asks(alloc, line.as_str(), "sending 1")
            && client.asks(alloc, "stop-sending 0", "stopped-sending 128"),
    )
}

/// Whether a sending that nobody answers is refused a second one, and ends.
fn is_unheard(
    alloc: Global,
    client: &mut Client,
    receiver: &mut Receiver,
    address: SocketAddr,
) -> Option<bool> {
    let line = format!(in alloc; "send 0 64 -1 {address}").ok()?;
    let open = format!(in alloc; "open 0 0 64 -1 send {address}").ok()?;
    Some(
        client.asks(alloc, line.as_str(), "sending 0")
            && receiver.hears(SETUP_AT_64, [&[]; 2])
            && client.asks(alloc, line.as_str(), "error 4 ActiveReplay")
            && client.asks(alloc, "replays", open.as_str())
            && client.hears(alloc, "end 1")
            && client.asks(alloc, "poll 0 1", "error 9 UnknownReplay")
            && client.asks(alloc, "stop-sending 0", "stopped-sending 64")
            && client.asks(alloc, "stop-sending 0", "error 9 UnknownReplay")
            && client.asks(alloc, "replays", "end 0"),
    )
}

/// The recording's setup frame, joined at offset 64.
const SETUP_AT_64: &[u8] = &[
    0x28, 0, 0, 0, 0, 0, 5, 0, 0x40, 0, 0, 0, 7, 0, 0, 0, 0xe9, 3, 0, 0, 0x2a, 0, 0, 0, 0x2a, 0, 0,
    0, 0, 0, 1, 0, 0x80, 5, 0, 0, 0, 0, 0, 0,
];

/// What is refused, and how.
const REFUSED: [(&str, &str); 14] = [
    ("sends", "end 0"),
    ("send 0 0 -1 127.0.0.1:0", "error 22 BadLine"),
    ("send 0 0 -1 0.0.0.0:4000", "error 22 BadLine"),
    ("send 0 0 -1 224.0.0.1:4000", "error 22 BadLine"),
    ("send 0 0 -1 255.255.255.255:4000", "error 22 BadLine"),
    ("send 0 0 -1 10.0.0.1:4000", "error 22 BadLine"),
    ("send 0 0 -1 127.0.0.1", "error 22 BadLine"),
    ("send 0 0 -1 127.0.0.1:04000", "error 22 BadLine"),
    ("send 0 00 -1 127.0.0.1:4000", "error 22 BadLine"),
    ("send 0 0 127.0.0.1:4000", "error 22 BadLine"),
    ("stop-sending 00", "error 22 BadLine"),
    ("stop-sending -1", "error 9 UnknownReplay"),
    ("stop-sending 0", "error 9 UnknownReplay"),
    ("send", "error 22 BadLine"),
];

/// Whether what can't be sent is refused, and a replay's refusals are those of the replay.
fn is_refused(
    alloc: Global,
    ports: Ports,
    client: &mut Client,
    address: SocketAddr,
) -> Option<bool> {
    for (line, answer) in REFUSED {
        if !client.asks(alloc, line, answer) {
            return Some(false);
        }
    }
    Some(
        is_refused_by(alloc, client, ("0 0 -1", ports.receive), "error 22 BadLine")?
            && is_refused_by(
                alloc,
                client,
                ("9 0 -1", address),
                "error 1 UnknownRecording",
            )?
            && is_refused_by(alloc, client, ("0 32 -1", address), "error 5 BadPosition")?
            && is_refused_by(alloc, client, ("0 0 -2", address), "error 10 BadParameter")?,
    )
}

/// Whether what is to be sent to an address is refused so.
fn is_refused_by(
    alloc: Global,
    client: &mut Client,
    sent: (&str, SocketAddr),
    answer: &str,
) -> Option<bool> {
    let (what, address) = sent;
    let line = format!(in alloc; "send {what} {address}").ok()?;
    Some(client.asks(alloc, line.as_str(), answer))
}

/// A recording is sent byte for byte up to a bound, and then comes the end of the stream, three times.
#[test]
fn a_bounded_recording_is_sent(rt: HostRuntime) -> Result<(), Fail> {
    assert!(rt; is_right(&rt, rt.alloc(), Case::Bounded));
    Ok(())
}

/// A stopped recording that is sent without a bound is done once it is consumed, and may be sent again.
#[test]
fn an_unbounded_recording_is_done(rt: HostRuntime) -> Result<(), Fail> {
    assert!(rt; is_right(&rt, rt.alloc(), Case::Unbounded));
    Ok(())
}

/// A sending holds its endpoint and its replay until it ends.
#[test]
fn an_unheard_sending_is_ended(rt: HostRuntime) -> Result<(), Fail> {
    assert!(rt; is_right(&rt, rt.alloc(), Case::Unheard));
    Ok(())
}

/// What can't be sent is refused.
#[test]
fn what_cannot_be_sent_is_refused(rt: HostRuntime) -> Result<(), Fail> {
    assert!(rt; is_right(&rt, rt.alloc(), Case::Refused));
    Ok(())
}
