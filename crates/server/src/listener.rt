//! Listeners, the connections that wait there, and the end of serving.

use server_state::{Reporter, Shared};
use std::io::{self, ErrorKind};
use std::net::{SocketAddr, TcpListener, TcpStream};
use std::rt::Clock;
use std::sync::atomic::{AtomicBool, AtomicU64, Ordering};
use std::sync::{Mutex, Wait};
use std::thread;
use std::time::Duration;
use tool_core::EarlyEnd;

/// Milliseconds between two looks for a connection.
const LOOK: u64 = 10;

/// The end of serving, which all listeners of a server share.
#[derive(Drop)]
pub(crate) struct Ending {
    is_closed: AtomicBool,
    /// How serving ended.
    end: Mutex<Option<Result<(), EarlyEnd>>>,
}

impl Ending {
    /// Serving has not ended.
    pub fn new() -> Ending {
        Ending {
            is_closed: AtomicBool::new(false),
            end: Mutex::new(None),
        }
    }

    /// Serving ends so, unless it has ended before. No client's next line is read.
    pub fn close<R: Wait>(&self, rt: &R, end: Result<(), EarlyEnd>) {
        self.end.lock(rt).get_or_insert(end);
        self.is_closed.store(true, Ordering::SeqCst);
    }

    /// Whether serving has ended.
    pub fn is_closed(&self) -> bool {
        self.is_closed.load(Ordering::SeqCst)
    }

    /// How serving ended: `Read` if the server ended otherwise, and did not stop.
    pub fn end<R: Wait, T: Reporter>(&self, rt: &R, shared: &Shared<T>) -> Result<(), EarlyEnd> {
        let end = *self.end.lock(rt);
        match end {
            Some(end) => end,
            None if shared.has_stopped() => Ok(()),
            None => Err(EarlyEnd::Read),
        }
    }

    /// Whether serving has ended, whatever ended it.
    pub fn has_ended<T: Reporter>(&self, shared: &Shared<T>) -> bool {
        self.is_closed() || shared.has_stopped() || shared.has_ended()
    }
}

/// A listener that does not wait, which the threads that serve its clients share.
#[derive(Drop)]
pub(crate) struct SharedListener {
    listener: TcpListener,
    /// How many more clients can be served now.
    free: AtomicU64,
    /// Of the threads that have no client one looks for a connection, and the others wait for it.
    turn: Mutex<()>,
}

/// What a look for a connection found.
#[derive(Drop)]
enum Found {
    Connection(TcpStream),
    Nobody,
    Failed,
}

impl SharedListener {
    /// The listener for so many clients. Serving ends by `Read` if it can't be asked without waiting.
    pub fn new<R: Wait>(
        rt: &R,
        listener: TcpListener,
        clients: usize,
        ending: &Ending,
    ) -> SharedListener {
        if listener.set_nonblocking(true).is_err() {
            ending.close(rt, Err(EarlyEnd::Read));
        }
        SharedListener {
            listener,
            free: AtomicU64::new(clients as u64),
            turn: Mutex::new(()),
        }
    }

    /// Where connections come to.
    pub fn address(&self) -> io::Result<SocketAddr> {
        self.listener.local_addr()
    }

    /// The next connection, which takes a place: `waiting` if there is one, whose place is taken. None if the server ends.
    pub fn next<R: Wait + Clock, T: Reporter>(
        &self,
        rt: &R,
        shared: &Shared<T>,
        ending: &Ending,
        waiting: Option<TcpStream>,
    ) -> Option<TcpStream> {
        if waiting.is_some() && !ending.has_ended(shared) {
            return waiting;
        }
        let stream = self.watch(rt, shared, ending)?;
        self.free.fetch_sub(1, Ordering::SeqCst);
        Some(stream)
    }

    /// A client has left, and its place is free.
    pub fn leave(&self) {
        self.free.fetch_add(1, Ordering::SeqCst);
    }

    /// The connection that waits, if there is one and all places are taken. The caller's client leaves it its place.
    pub fn take_waiting(&self) -> Option<TcpStream> {
        if self.free.load(Ordering::SeqCst) > 0 {
            return None;
        }
        match self.look() {
            Found::Connection(stream) => Some(stream),
            _ => None,
        }
    }

    /// Looks for a connection until one comes. None if the server ends, or the listener fails, which ends it.
    fn watch<R: Wait + Clock, T: Reporter>(
        &self,
        rt: &R,
        shared: &Shared<T>,
        ending: &Ending,
    ) -> Option<TcpStream> {
        let _turn = self.turn.lock(rt);
        for _ in rt.forever() {
            if ending.has_ended(shared) {
                return None;
            }
            match self.look() {
                Found::Connection(stream) => return Some(stream),
                Found::Nobody => thread::sleep(rt, Duration::from_millis(LOOK)),
                Found::Failed => {
                    ending.close(rt, Err(EarlyEnd::Read));
                    return None;
                }
            }
        }
        unreachable!()
    }

    fn look(&self) -> Found {
        match self.listener.accept() {
            Ok((stream, _)) => Found::Connection(stream),
            Err(error) => match error.kind() {
                ErrorKind::WouldBlock | ErrorKind::ConnectionAborted | ErrorKind::Interrupted => {
                    Found::Nobody
                }
                _ => Found::Failed,
            },
        }
    }
}
