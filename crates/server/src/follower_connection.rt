//! A follower's connection, which ends if the follower takes too little of what is there. docs/SERVING.md, "Consumers".

use crate::client::is_late;
use crate::connections::Connections;
use server_state::Reporter;
use std::cell::Cell;
use std::io::{self, ErrorKind, Write};
use std::net::TcpStream;
use std::rt::Clock;
use std::sync::Wait;
use std::time::{Duration, Instant};

/// Milliseconds that a write waits at once at most.
const PATIENCE: u64 = 100;

/// Bytes that a follower has to take in the time for which a client may be idle, if there are as many.
const TAKEN_AT_LEAST: u64 = 65_536;

/// A connection. While a write waits for it: since when, and how many bytes it took since then.
#[derive(Drop)]
pub(crate) struct FollowerConnection<'a, R, T> {
    rt: &'a R,
    with: &'a Connections<T>,
    place: usize,
    stream: TcpStream,
    /// None: no write waits for it.
    since: Cell<Option<Instant>>,
    taken: Cell<u64>,
}

impl<'a, R: Wait + Clock, T: Reporter> FollowerConnection<'a, R, T> {
    /// The connection of a place's follower. None if it can't be written with a time-out.
    pub fn new(
        rt: &'a R,
        with: &'a Connections<T>,
        place: usize,
        stream: TcpStream,
    ) -> Option<FollowerConnection<'a, R, T>> {
        let patience = Some(Duration::from_millis(PATIENCE));
        if stream.set_write_timeout(patience).is_err() {
            return None;
        }
        Some(FollowerConnection {
            rt,
            with,
            place,
            stream,
            since: Cell::new(None),
            taken: Cell::new(0),
        })
    }

    /// Whether more is sent: the server goes on, and no client asked to close the follower's replay.
    pub fn goes_on(&self) -> bool {
        !self.with.has_ended() && !self.with.followers.is_to_end(self.place)
    }

    /// All that is there was taken: no write waits for it.
    pub fn rest(&self) {
        self.since.set(None);
        self.taken.set(0);
    }

    /// Notes that a write waits for it, which took so many bytes. Once they are enough they are counted anew.
    fn note(&self, count: u64) {
        let taken = self.taken.get().saturating_add(count);
        if self.since.get().is_none() || taken >= TAKEN_AT_LEAST {
            self.since.set(Instant::now(self.rt).ok());
            self.taken.set(0);
        } else {
            self.taken.set(taken);
        }
    }

    /// Whether too few bytes were taken for too long. Where the clock can't be read they were not.
    fn is_slow(&self) -> bool {
        match (self.since.get(), Instant::now(self.rt)) {
            (Some(since), Ok(now)) => now.duration_since(since) > self.with.control.options.idle,
            _ => false,
        }
    }
}

/// What a follower is sent.
#[derive(Drop)]
pub(crate) struct FollowerWriter<'a, R, T>(pub &'a FollowerConnection<'a, R, T>);

impl<R: Wait + Clock, T: Reporter> Write for FollowerWriter<'_, R, T> {
    fn write(&mut self, buf: &[u8]) -> io::Result<usize> {
        let connection = self.0;
        for _ in connection.rt.forever() {
            if !connection.goes_on() || connection.is_slow() {
                return Err(io::Error::from(ErrorKind::TimedOut));
            }
            match (&connection.stream).write(buf) {
                Ok(count) if count < buf.len() => {
                    connection.note(count as u64);
                    return Ok(count);
                }
                Ok(count) => {
                    connection.rest();
                    return Ok(count);
                }
                Err(error) if is_late(&error) => connection.note(0),
                Err(error) => return Err(error),
            }
        }
        unreachable!()
    }

    fn flush(&mut self) -> io::Result<()> {
        Ok(())
    }
}
