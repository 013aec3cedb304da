//! The places of sendings, which the threads that read their recordings share with the thread that sends. docs/ARCHITECTURE.md,
//! "Serving".

use frame_core::Refusal;
use server_receiver::Networks;
use server_sender::{
    Endpoint, LastFrames, Publishing, ReadFrames, SendOver, SendProgress, is_sendable,
};
use server_state::Stopwatch;
use std::alloc::{AllocError, Global};
use std::mem;
use std::net::{SocketAddr, UdpSocket};
use std::rt::Clock;
use std::sync::atomic::{AtomicBool, AtomicU64, Ordering};
use std::sync::{Condvar, CondvarTimeouts, Mutex, MutexGuard, Wait};
use std::time::Duration;

/// A sending that is under way.
#[derive(Drop)]
pub(crate) struct ActiveSending {
    /// Its number.
    pub number: u64,
    /// Where its datagrams go to.
    pub to: Endpoint,
    /// Bytes that a datagram of it may have.
    pub mtu: i32,
    /// When it began, in milliseconds.
    pub begun_at: u64,
    /// What is sent.
    pub publishing: Publishing,
    /// Frames that were taken and are not laid yet.
    pub read: ReadFrames,
    /// How far it was when that was noted last.
    pub noted: SendProgress,
    /// Whether it was reported that no receiver answers.
    pub is_waiting_reported: bool,
    /// How it ended, if it is over.
    pub over: Option<SendOver>,
}

/// What goes from the thread that reads to the one that sends.
#[derive(Drop)]
struct Handover {
    /// Frames that were read and not taken yet.
    frames: ReadFrames,
    /// Why none come after them, if that is so.
    last: Option<LastFrames>,
    /// Whether none are taken any more.
    is_over: bool,
}

/// The place of a sending.
#[derive(Drop)]
pub(crate) struct SendPlace {
    sending: Mutex<Option<ActiveSending>>,
    handover: Mutex<Handover>,
    /// The thread that reads goes on: what it gave was taken, or the sending is over.
    changed: Condvar,
    /// Whether there is a sending.
    is_taken: AtomicBool,
}

impl SendPlace {
    fn new(alloc: Global) -> SendPlace {
        let handover = Handover {
            frames: ReadFrames::new(alloc),
            last: None,
            is_over: true,
        };
        SendPlace {
            sending: Mutex::new(None),
            handover: Mutex::new(handover),
            changed: Condvar::new(),
            is_taken: AtomicBool::new(false),
        }
    }

    /// Whether there may be a sending. Takes no lock.
    pub fn is_taken(&self) -> bool {
        self.is_taken.load(Ordering::SeqCst)
    }

    /// The sending, which nobody else changes meanwhile.
    pub fn lock<R: Wait>(&self, rt: &R) -> MutexGuard<'_, Option<ActiveSending>> {
        self.sending.lock(rt)
    }

    /// A sending begins.
    pub fn put<R: Wait>(&self, rt: &R, sending: ActiveSending) {
        self.reset(rt, false);
        *self.sending.lock(rt) = Some(sending);
        self.is_taken.store(true, Ordering::SeqCst);
    }

    /// Nothing is sent any more: what was.
    pub fn take<R: Wait>(&self, rt: &R) -> Option<ActiveSending> {
        self.is_taken.store(false, Ordering::SeqCst);
        self.reset(rt, true);
        self.sending.lock(rt).take()
    }

    /// Nothing is handed over.
    fn reset<R: Wait>(&self, rt: &R, is_over: bool) {
        let mut handover = self.handover.lock(rt);
        handover.frames.clear();
        handover.last = None;
        handover.is_over = is_over;
    }

    /// Gives frames that were read to the thread that sends, for those that are there: none after `wait` has said so.
    pub fn give<R: Wait>(&self, rt: &R, read: &mut ReadFrames) {
        let mut handover = self.handover.lock(rt);
        mem::swap(&mut handover.frames, read);
    }

    /// No frames come after those that were given, for this reason.
    pub fn give_last<R: Wait>(&self, rt: &R, last: LastFrames) {
        self.handover.lock(rt).last = Some(last);
    }

    /// Takes what was given, if there are frames. Else why none come any more, if that is so.
    pub fn take_given<R: Wait>(&self, rt: &R, read: &mut ReadFrames) -> Option<LastFrames> {
        let mut handover = self.handover.lock(rt);
        if handover.frames.is_empty() {
            return handover.last;
        }
        mem::swap(&mut handover.frames, read);
        self.changed.notify_all();
        None
    }

    /// The sending is over: nothing is taken any more.
    pub fn end<R: Wait>(&self, rt: &R) {
        self.handover.lock(rt).is_over = true;
        self.changed.notify_all();
    }

    /// Whether the sending is over.
    pub fn is_over<R: Wait>(&self, rt: &R) -> bool {
        self.handover.lock(rt).is_over
    }

    /// Waits until what was given is taken, for so many milliseconds at most. Whether it is; none is once the sending is over.
    pub fn wait<R: Wait + Clock>(&self, rt: &R, most: u64) -> bool {
        let handover = self.handover.lock(rt);
        let most = Duration::from_millis(most);
        let (handover, _) = self
            .changed
            .wait_timeout_while(rt, handover, most, |handover| waits(handover));
        handover.frames.is_empty() && handover.last.is_none() && !handover.is_over
    }
}

/// Whether something was given and not taken, and the sending is not over.
fn waits(handover: &Handover) -> bool {
    !handover.is_over && (!handover.frames.is_empty() || handover.last.is_some())
}

/// The places of sendings, and the socket that their datagrams go out by.
#[derive(Drop)]
pub(crate) struct Sendings {
    socket: Option<UdpSocket>,
    to: Networks,
    /// Where datagrams for this server come to.
    receive: Option<SocketAddr>,
    places: Vec<SendPlace>,
    /// Whether the thread that sends is about to sleep.
    is_asleep: AtomicBool,
    clock: Stopwatch,
    /// The time that was read last, in milliseconds.
    now: AtomicU64,
}

impl Sendings {
    /// So many places, which send by a socket to these networks, of a server to which datagrams come there. Costs memory for the
    /// places.
    pub fn new<R: Clock>(
        rt: &R,
        alloc: Global,
        socket: Option<UdpSocket>,
        to: Networks,
        receive: Option<SocketAddr>,
        count: usize,
    ) -> Result<Sendings, AllocError> {
        let mut places = Vec::with_capacity(alloc, count)?;
        for _ in 0..count {
            places.push(SendPlace::new(alloc))?;
        }
        Ok(Sendings {
            socket,
            to,
            receive,
            places,
            is_asleep: AtomicBool::new(false),
            clock: Stopwatch::new(rt),
            now: AtomicU64::new(0),
        })
    }

    /// The socket, if recordings are sent.
    pub fn socket(&self) -> Option<&UdpSocket> {
        self.socket.as_ref()
    }

    /// Whether a recording may be sent to an endpoint. `BadLine` if not.
    pub fn check(&self, endpoint: &Endpoint) -> Result<(), Refusal> {
        let Some(receive) = &self.receive else {
            return Err(Refusal::BadLine);
        };
        let address = Some(SocketAddr::V4(endpoint.to_socket()));
        if self.socket.is_some() && self.to.has(address) && is_sendable(endpoint, receive) {
            Ok(())
        } else {
            Err(Refusal::BadLine)
        }
    }

    /// The places.
    pub fn places(&self) -> &[SendPlace] {
        self.places.as_slice()
    }

    /// A place.
    pub fn place(&self, index: usize) -> Option<&SendPlace> {
        self.places.get(index)
    }

    /// Milliseconds since the server began, which don't go back.
    pub fn now<R: Clock>(&self, rt: &R) -> u64 {
        let read = self.clock.read(rt).unwrap_or(0);
        self.now.fetch_max(read, Ordering::SeqCst).max(read)
    }

    /// The thread that sends is about to sleep, or it isn't.
    pub fn set_asleep(&self, is_asleep: bool) {
        self.is_asleep.store(is_asleep, Ordering::SeqCst);
    }

    /// Wakes the thread that sends, if it is about to sleep. Where the datagram is lost, the socket's time-out does.
    pub fn wake(&self) {
        if let Some(socket) = &self.socket {
            if self.is_asleep.swap(false, Ordering::SeqCst) {
                if let Ok(address) = socket.local_addr() {
                    let _ = socket.send_to(&[], address);
                }
            }
        }
    }
}
