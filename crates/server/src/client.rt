//! A client's connection, whose reads and writes end if it is idle for too long and another waits.

use crate::connections::{Connections, Port};
use memchr::memchr;
use server_state::Reporter;
use std::alloc::{AllocError, Global};
use std::cell::Cell;
use std::io::{self, ErrorKind, Read, Write};
use std::net::{SocketAddr, TcpStream};
use std::rt::Clock;
use std::sync::{Mutex, Wait};
use std::time::{Duration, Instant};

/// Milliseconds that a read or a write waits at once at most.
const PATIENCE: u64 = 250;

/// Gives a connection its time-outs, by which a read or a write waits for 250 milliseconds at once. Whether it has them.
pub(crate) fn is_timed(stream: &TcpStream) -> bool {
    let patience = Some(Duration::from_millis(PATIENCE));
    stream.set_read_timeout(patience).is_ok()
        && stream.set_write_timeout(patience).is_ok()
        && stream.set_nodelay(true).is_ok()
}

/// A connection, and when it was not idle last: a whole line came, or a byte of a reply went out.
#[derive(Drop)]
pub(crate) struct Client<'a, R, T> {
    rt: &'a R,
    with: &'a Connections<T>,
    port: &'a Port,
    stream: TcpStream,
    /// Where it comes from. None if it was gone before that was asked.
    address: Option<SocketAddr>,
    last: Cell<Option<Instant>>,
    /// The connection that it leaves its place to.
    next: Mutex<Option<TcpStream>>,
}

impl<'a, R: Wait + Clock, T: Reporter> Client<'a, R, T> {
    /// A connection to a port that was just taken, and has time-outs.
    pub fn new(
        rt: &'a R,
        with: &'a Connections<T>,
        port: &'a Port,
        stream: TcpStream,
    ) -> Client<'a, R, T> {
        let address = stream.peer_addr().ok();
        Client {
            rt,
            with,
            port,
            stream,
            address,
            last: Cell::new(Instant::now(rt).ok()),
            next: Mutex::new(None),
        }
    }

    /// The connection that it left its place to.
    pub fn take_next(&self) -> Option<TcpStream> {
        self.next.lock(self.rt).take()
    }

    /// Where it comes from, if that is known.
    pub fn address(&self) -> Option<SocketAddr> {
        self.address
    }

    /// The connection.
    pub fn into_stream(self) -> TcpStream {
        self.stream
    }

    /// Whether its next line is read: it is served further, no client has quit, and the server has not stopped.
    pub fn reads_on(&self) -> bool {
        !self.is_last() && self.goes_on()
    }

    /// Whether the line that is answered is the last one: a client has quit, or the server has stopped.
    fn is_last(&self) -> bool {
        self.with.ending.is_closed() || self.with.shared.has_stopped()
    }

    /// The answer to the line `images`.
    pub fn images_text(&self, alloc: Global) -> Result<String, AllocError> {
        self.with.shared.images_text(self.rt, alloc)
    }

    /// The answer to the line `replays`.
    pub fn replays_text(&self, alloc: Global) -> Result<String, AllocError> {
        self.with.shared.replays.text(self.rt, alloc)
    }

    /// The answer to the line `sends`.
    pub fn sends_text(&self, alloc: Global) -> Result<String, AllocError> {
        self.with.shared.sends.text(self.rt, alloc)
    }

    /// It is not idle now.
    fn touch(&self) {
        self.last.set(Instant::now(self.rt).ok());
    }

    /// Whether it is served further: the server does not end, and it does not leave its place.
    fn goes_on(&self) -> bool {
        !self.with.shared.has_ended() && !self.leaves_place()
    }

    /// Whether it leaves its place to a connection that waits: it was idle for too long, and all places are taken.
    fn leaves_place(&self) -> bool {
        let mut next = self.next.lock(self.rt);
        if next.is_none() && self.is_idle() {
            *next = self.port.listener.take_waiting();
        }
        next.is_some()
    }

    /// Whether it was idle for too long. Where the clock can't be read it was not.
    fn is_idle(&self) -> bool {
        match (self.last.get(), Instant::now(self.rt)) {
            (Some(last), Ok(now)) => now.duration_since(last) > self.port.options.idle,
            _ => false,
        }
    }
}

/// What a client sends.
#[derive(Drop)]
pub(crate) struct ClientReader<'a, R, T>(pub &'a Client<'a, R, T>);

impl<R: Wait + Clock, T: Reporter> Read for ClientReader<'_, R, T> {
    fn read(&mut self, buf: &mut [u8]) -> io::Result<usize> {
        let client = self.0;
        for _ in client.rt.forever() {
            if !client.reads_on() {
                return Err(io::Error::from(ErrorKind::TimedOut));
            }
            match (&client.stream).read(buf) {
                Ok(count) => {
                    if memchr(b'\n', &buf[..count]).is_some() {
                        client.touch();
                    }
                    return Ok(count);
                }
                Err(error) if is_late(&error) => {}
                Err(error) => return Err(error),
            }
        }
        unreachable!()
    }
}

/// What a client is answered. Once another client has quit, or the server has stopped, no more is written if a write has to wait.
#[derive(Drop)]
pub(crate) struct ClientWriter<'a, R, T>(pub &'a Client<'a, R, T>);

impl<R: Wait + Clock, T: Reporter> Write for ClientWriter<'_, R, T> {
    fn write(&mut self, buf: &[u8]) -> io::Result<usize> {
        let client = self.0;
        for _ in client.rt.forever() {
            if !client.goes_on() {
                return Err(io::Error::from(ErrorKind::TimedOut));
            }
            match (&client.stream).write(buf) {
                Ok(count) => {
                    client.touch();
                    return Ok(count);
                }
                Err(error) if is_late(&error) && !client.is_last() => {}
                Err(error) => return Err(error),
            }
        }
        unreachable!()
    }

    fn flush(&mut self) -> io::Result<()> {
        Ok(())
    }
}

/// Whether a read or a write has only waited as long as it may at once.
pub(crate) fn is_late(error: &io::Error) -> bool {
    error.kind() == ErrorKind::WouldBlock
}
