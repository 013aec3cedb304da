//! Connections on which another protocol is spoken: docs/SERVING.md, "Control lines".

use crate::client::{Client, Ports, connected};
use crate::receivers::receiver;
use crate::serving::{bound, disk_after, options, quits};
use disk_core::MemoryDisk;
use server::{SETTLE_EVERY, ServeOptions, Unreported};
use std::alloc::Global;
use std::io::{Read, Write};
use std::net::{Net, TcpListener, TcpStream};
use std::rt::Clock;
use std::sync::Wait;
use std::test::Fail;
use std::thread::{self, Threads};

/// What a browser on the server's host may send, whose body is a line. A TLS handshake begins with the byte 16 hexadecimal.
const FOREIGN: [&str; 11] = [
    "GET / HTTP/1.1\r\nquit\n",
    "POST / HTTP/1.1\r\n\r\nquit\n",
    "HEAD / HTTP/1.1\r\nquit\n",
    "PUT / HTTP/1.1\r\n\r\nquit\n",
    "DELETE / HTTP/1.1\r\nquit\n",
    "OPTIONS * HTTP/1.1\r\nquit\n",
    "CONNECT a:1 HTTP/1.1\r\nquit\n",
    "PATCH / HTTP/1.1\r\n\r\nquit\n",
    "TRACE / HTTP/1.1\r\nquit\n",
    "PRI * HTTP/2.0\r\n\r\nquit\n",
    "\x16\x03\x01\nquit\n",
];

/// Lines that begin as such a connection does, and go on otherwise. Each is BadLine, and the connection goes on.
const LINES: [&str; 3] = ["GET", "get / HTTP/1.1", "OPTIONS"];

/// Whether bytes that are sent in two parts are answered by BadLine alone, and the connection ends.
fn is_refused<R: Net<Listener = TcpListener, Stream = TcpStream>>(
    rt: &R,
    alloc: Global,
    ports: Ports,
    bytes: &[u8],
    first: usize,
) -> bool {
    let Some(mut stream) = connected(rt, ports) else {
        return false;
    };
    let (head, tail) = bytes.split_at(first.min(bytes.len()));
    let is_sent = stream.write_all(head).is_ok();
    // The connection may end before the rest is sent, and by a fault where bytes were not read.
    let _ = stream.write_all(tail);
    let mut answer = Vec::new(alloc);
    let _ = stream.read_to_end(&mut answer);
    is_sent && answer.as_slice() == b"error 22 BadLine\n".as_slice()
}

/// Whether it is so where the first part has so many bytes of each connection.
fn are_refused<R: Net<Listener = TcpListener, Stream = TcpStream>>(
    rt: &R,
    alloc: Global,
    ports: Ports,
    first: usize,
) -> bool {
    for text in FOREIGN {
        if !is_refused(rt, alloc, ports, text.as_bytes(), first) {
            return false;
        }
    }
    true
}

/// Whether a line is BadLine, and another one is answered by the same connection.
fn is_bad_alone<R: Net<Listener = TcpListener, Stream = TcpStream>>(
    rt: &R,
    alloc: Global,
    ports: Ports,
    line: &str,
) -> bool {
    match Client::new(rt, alloc, ports) {
        Some(mut client) => {
            client.asks(alloc, line, "error 22 BadLine")
                && client.asks(alloc, "merge-state", "error 9 UnknownReplay")
        }
        None => false,
    }
}

/// Whether that is so of each line.
fn are_bad_alone<R: Net<Listener = TcpListener, Stream = TcpStream>>(
    rt: &R,
    alloc: Global,
    ports: Ports,
) -> bool {
    for line in LINES {
        if !is_bad_alone(rt, alloc, ports, line) {
            return false;
        }
    }
    true
}

/// Whether a connection may end after a byte with which another protocol begins.
fn is_cut_off<R: Net<Listener = TcpListener, Stream = TcpStream>>(
    rt: &R,
    alloc: Global,
    ports: Ports,
) -> bool {
    match Client::new(rt, alloc, ports) {
        Some(mut client) => client.send(b"P"),
        None => false,
    }
}

/// Whether connections of other protocols are refused, and those of lines are not. The server quits then.
fn are_told_apart<R: Net<Listener = TcpListener, Stream = TcpStream>>(
    rt: &R,
    alloc: Global,
    ports: Ports,
) -> bool {
    let is_right = are_refused(rt, alloc, ports, 1)
        && are_refused(rt, alloc, ports, 3)
        && are_refused(rt, alloc, ports, 64)
        && are_bad_alone(rt, alloc, ports)
        && is_cut_off(rt, alloc, ports);
    quits(rt, alloc, ports) && is_right
}

/// Serves an empty disk with options while connections of other protocols come. Whether all goes as it has to.
fn is_served<R: Threads + Wait + Clock + Net<Listener = TcpListener, Stream = TcpStream> + Sync>(
    rt: &R,
    alloc: Global,
    options: ServeOptions<'_>,
) -> bool {
    let Some((ends, ports)) = bound(rt) else {
        return false;
    };
    let disk = MemoryDisk::new(alloc);
    let (has_ended, is_right) = thread::join(
        rt,
        move || disk_after(rt, alloc, ends, disk, &options, Unreported).is_some(),
        move || are_told_apart(rt, alloc, ports),
    );
    has_ended && is_right
}

/// A connection that begins as another protocol's is answered BadLine and closed, however its first bytes come. Lines that begin
/// so are answered.
#[test]
fn another_protocol_is_refused(rt: HostRuntime) -> Result<(), Fail> {
    assert!(rt; is_served(&rt, rt.alloc(), options(60, SETTLE_EVERY)));
    Ok(())
}

/// It is so with `--aeron` and four clients at a time too.
#[test]
fn another_protocol_is_refused_by_each_of_several_places(rt: HostRuntime) -> Result<(), Fail> {
    let mut options = receiver();
    options.clients = Some(4);
    assert!(rt; is_served(&rt, rt.alloc(), options));
    Ok(())
}
