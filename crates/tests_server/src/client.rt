//! A client of a server, on a thread of its own, and the server that it talks to.

use crate::vectors::{hello, hello_of, setup_of, setup_of_other};
use std::alloc::{AllocError, Global};
use std::io::{BufRead, BufReader, Write};
use std::net::{Net, SocketAddr, TcpListener, TcpStream, UdpSocket};
use std::rt::Clock;
use std::thread;
use std::time::Duration;

/// Where a server is.
#[derive(Clone, Copy)]
pub(crate) struct Ports {
    pub control: SocketAddr,
    pub receive: SocketAddr,
}

/// A client's connection and socket, which wait for 10 seconds at most.
#[derive(Drop)]
pub(crate) struct Client {
    lines: BufReader<TcpStream>,
    socket: UdpSocket,
    receive: SocketAddr,
}

/// Bytes that are read at once at most.
const READ_AHEAD: usize = 65_536;

const PATIENCE: u64 = 10;

/// A connection that waits for 10 seconds at most, and sends each piece of a line at once.
pub(crate) fn connected<R: Net<Listener = TcpListener, Stream = TcpStream>>(
    rt: &R,
    ports: Ports,
) -> Option<TcpStream> {
    let stream = TcpStream::connect(rt, ports.control).ok()?;
    stream.set_nodelay(true).ok()?;
    stream
        .set_read_timeout(Some(Duration::from_secs(PATIENCE)))
        .ok()?;
    stream
        .set_write_timeout(Some(Duration::from_secs(PATIENCE)))
        .ok()?;
    Some(stream)
}

impl Client {
    /// A client of a server.
    pub(crate) fn new<R: Net<Listener = TcpListener, Stream = TcpStream>>(
        rt: &R,
        alloc: Global,
        ports: Ports,
    ) -> Option<Client> {
        let stream = connected(rt, ports)?;
        let lines = BufReader::with_capacity(alloc, READ_AHEAD, stream).ok()?;
        let socket = UdpSocket::bind(rt, "127.0.0.1:0").ok()?;
        socket
            .set_read_timeout(Some(Duration::from_secs(PATIENCE)))
            .ok()?;
        Some(Client {
            lines,
            socket,
            receive: ports.receive,
        })
    }

    /// Where its connection comes from.
    pub(crate) fn address(&self) -> Option<SocketAddr> {
        self.lines.get_ref().local_addr().ok()
    }

    /// Sends bytes.
    pub(crate) fn send(&mut self, text: &[u8]) -> bool {
        self.lines.get_mut().write_all(text).is_ok()
    }

    /// Sends a line.
    pub(crate) fn say(&mut self, line: &str) -> bool {
        self.send(line.as_bytes()) && self.send(b"\n")
    }

    /// Whether the next line that comes is this one.
    pub(crate) fn hears(&mut self, alloc: Global, line: &str) -> bool {
        let mut text = Vec::new(alloc);
        match self.lines.read_until(b'\n', &mut text) {
            Ok(_) => text.as_slice().strip_suffix(b"\n") == Some(line.as_bytes()),
            Err(_) => false,
        }
    }

    /// Whether nothing comes for 300 milliseconds.
    pub(crate) fn hears_nothing(&mut self, alloc: Global) -> bool {
        let mut text = Vec::new(alloc);
        let is_timed = self.listens_for(Duration::from_millis(300));
        let is_silent = is_timed && self.lines.read_until(b'\n', &mut text).is_err();
        self.listens_for(Duration::from_secs(PATIENCE)) && is_silent && text.is_empty()
    }

    fn listens_for(&self, patience: Duration) -> bool {
        self.lines
            .get_ref()
            .set_read_timeout(Some(patience))
            .is_ok()
    }

    /// Sends a line, and whether this one is answered.
    pub(crate) fn asks(&mut self, alloc: Global, line: &str, answer: &str) -> bool {
        self.say(line) && self.hears(alloc, answer)
    }

    /// Asks at most 1,000 times until this is answered. Whether it was.
    pub(crate) fn awaits<R: Clock>(
        &mut self,
        rt: &R,
        alloc: Global,
        line: &str,
        answer: &str,
    ) -> bool {
        for _ in 0..1_000 {
            if self.asks(alloc, line, answer) {
                return true;
            }
            thread::sleep(rt, Duration::from_millis(2));
        }
        false
    }

    /// Asks at most 1,000 times until this line is answered, and then another one, which comes second each time. Whether they were.
    pub(crate) fn awaits_two<R: Clock>(
        &mut self,
        rt: &R,
        alloc: Global,
        line: &str,
        answer: &str,
        second: &str,
    ) -> bool {
        for _ in 0..1_000 {
            let is_answered = self.asks(alloc, line, answer);
            if !self.hears(alloc, second) {
                return false;
            }
            if is_answered {
                return true;
            }
            thread::sleep(rt, Duration::from_millis(2));
        }
        false
    }

    /// Sends a datagram.
    pub(crate) fn casts(&self, datagram: &[u8]) -> bool {
        self.socket.send_to(datagram, self.receive).is_ok()
    }

    /// Sends the first ten messages of a stream, each in a datagram.
    pub(crate) fn casts_ten(&self) -> bool {
        for index in 0..10 {
            if !self.casts(hello(index).as_slice()) {
                return false;
            }
        }
        true
    }

    /// Sends the setup frames of 64 publications, of the session ids 100 to 163.
    pub(crate) fn casts_setups(&self) -> bool {
        for session_id in 100..164 {
            if !self.casts(setup_of(session_id).as_slice()) {
                return false;
            }
        }
        true
    }

    /// Sends the setup frame of each of them, and its first message after it.
    pub(crate) fn casts_firsts(&self) -> bool {
        for session_id in 100..164 {
            let is_set_up = self.casts(setup_of(session_id).as_slice());
            if !is_set_up || !self.casts(hello_of(session_id).as_slice()) {
                return false;
            }
        }
        true
    }

    /// Sends the setup frames of 64 publications of stream 9999.
    pub(crate) fn casts_others(&self) -> bool {
        for session_id in 100..164 {
            if !self.casts(setup_of_other(session_id).as_slice()) {
                return false;
            }
        }
        true
    }

    /// Datagrams go out by another socket from now on, and come there.
    pub(crate) fn moves<R: Net<Listener = TcpListener, Stream = TcpStream>>(
        &mut self,
        rt: &R,
    ) -> bool {
        let Ok(socket) = UdpSocket::bind(rt, "127.0.0.1:0") else {
            return false;
        };
        self.socket = socket;
        self.waits(Duration::from_secs(PATIENCE))
    }

    /// Whether publications of the session ids 0 to 199, one after another, are each started, recorded and stopped.
    pub(crate) fn records_200<R: Clock>(&mut self, rt: &R, alloc: Global) -> bool {
        for session_id in 0..200 {
            if self.records(rt, alloc, session_id) != Ok(true) {
                return false;
            }
        }
        true
    }

    /// Whether a publication is started, recorded and stopped: the recording and its session have its session id's number.
    fn records<R: Clock>(
        &mut self,
        rt: &R,
        alloc: Global,
        session_id: u8,
    ) -> Result<bool, AllocError> {
        Ok(
            self.casts(setup_of(session_id).as_slice())
                && self.starts(alloc, session_id)?
                && self.casts(hello_of(session_id).as_slice())
                && self.has_recorded(rt, alloc, session_id)?
                && self.stops(alloc, session_id)?,
        )
    }

    /// Whether its recording is started, of its session id's number.
    fn starts(&mut self, alloc: Global, session_id: u8) -> Result<bool, AllocError> {
        let start = format!(in alloc; "start 1001 {session_id} 42 65536 1408 65536 0 1000 c")?;
        let started = format!(in alloc; "started {session_id} {session_id}")?;
        Ok(self.asks(alloc, start.as_str(), started.as_str()))
    }

    /// Whether its first message is recorded.
    fn has_recorded<R: Clock>(
        &mut self,
        rt: &R,
        alloc: Global,
        session_id: u8,
    ) -> Result<bool, AllocError> {
        let positions = format!(in alloc; "positions {session_id}")?;
        Ok(self.awaits(rt, alloc, positions.as_str(), "positions 0 64 -1"))
    }

    /// Whether it is stopped behind that.
    fn stops(&mut self, alloc: Global, session_id: u8) -> Result<bool, AllocError> {
        let stop = format!(in alloc; "stop {session_id} 5")?;
        Ok(self.asks(alloc, stop.as_str(), "stopped 64"))
    }

    /// Whether the next datagram that comes is this one.
    pub(crate) fn receives(&self, datagram: &[u8]) -> bool {
        let mut buffer = [0u8; 128];
        match self.socket.recv_from(&mut buffer) {
            Ok((count, _)) => &buffer[..count] == datagram,
            Err(_) => false,
        }
    }

    /// Whether the next datagram that comes is one of these.
    pub(crate) fn receives_either(&self, one: &[u8], other: &[u8]) -> bool {
        let mut buffer = [0u8; 128];
        match self.socket.recv_from(&mut buffer) {
            Ok((count, _)) => &buffer[..count] == one || &buffer[..count] == other,
            Err(_) => false,
        }
    }

    /// Whether this datagram is among the next 100 that come.
    pub(crate) fn receives_among(&self, datagram: &[u8]) -> bool {
        for _ in 0..100 {
            if self.receives(datagram) {
                return true;
            }
        }
        false
    }

    /// Whether no datagram comes for a second, after at most 200 of them.
    pub(crate) fn falls_silent(&self) -> bool {
        let is_timed = self.waits(Duration::from_secs(1));
        let is_silent = is_timed && self.ends();
        self.waits(Duration::from_secs(PATIENCE)) && is_silent
    }

    fn waits(&self, patience: Duration) -> bool {
        self.socket.set_read_timeout(Some(patience)).is_ok()
    }

    /// Whether at most 200 datagrams come, up to one that is late.
    fn ends(&self) -> bool {
        let mut buffer = [0u8; 128];
        for _ in 0..200 {
            if self.socket.recv_from(&mut buffer).is_err() {
                return true;
            }
        }
        false
    }

    /// Whether a datagram that another socket sends brings that socket no answer for a second.
    pub(crate) fn casts_elsewhere<R: Net<Listener = TcpListener, Stream = TcpStream>>(
        &self,
        rt: &R,
        datagram: &[u8],
    ) -> bool {
        let Ok(socket) = UdpSocket::bind(rt, "127.0.0.1:0") else {
            return false;
        };
        let mut buffer = [0u8; 128];
        socket.send_to(datagram, self.receive).is_ok()
            && socket
                .set_read_timeout(Some(Duration::from_secs(1)))
                .is_ok()
            && socket.recv_from(&mut buffer).is_err()
    }
}
