//! A server and who talks to it, in one process.

use crate::client::{Client, Ports};
use crate::conversations::holds;
use disk_core::{Disk, MemoryDisk};
use server::{
    Ends, Flusher, Happening, Openings, Reporter, SETTLE_EVERY, ServeOptions, SessionNews,
    Unreported, serve_flushing, serve_with,
};
use std::alloc::Global;
use std::net::{Net, TcpListener, TcpStream, UdpSocket};
use std::rt::Clock;
use std::sync::Wait;
use std::sync::atomic::{AtomicU32, Ordering};
use std::test::Fail;
use std::thread::{self, Threads};
use std::time::Duration;

/// How many images were lost by a server, and how many did not fit a session, as far as it was told.
#[derive(Drop)]
pub(crate) struct Told {
    lost: AtomicU32,
    misfits: AtomicU32,
}

impl Told {
    /// Nothing was told.
    pub(crate) fn new() -> Told {
        Told {
            lost: AtomicU32::new(0),
            misfits: AtomicU32::new(0),
        }
    }

    /// Counts what a server tells.
    pub(crate) fn reporter(&self) -> Counting<'_> {
        Counting(self)
    }

    /// How many images did not fit a session.
    pub(crate) fn misfits(&self) -> u32 {
        self.misfits.load(Ordering::SeqCst)
    }

    /// Waits for 10 seconds at most until an image was lost. Whether one was.
    pub(crate) fn awaits_loss<R: Clock>(&self, rt: &R) -> bool {
        for _ in 0..1_000 {
            if self.lost.load(Ordering::SeqCst) > 0 {
                return true;
            }
            thread::sleep(rt, Duration::from_millis(10));
        }
        false
    }
}

/// Counts lost images, and those that don't fit.
#[derive(Clone, Copy, Drop)]
pub(crate) struct Counting<'a>(&'a Told);

impl Reporter for Counting<'_> {
    fn report(&self, happening: &Happening<'_>) {
        match happening {
            Happening::Session(SessionNews::Lost { .. }) => {
                self.0.lost.fetch_add(1, Ordering::SeqCst);
            }
            Happening::Session(SessionNews::Misfit { .. }) => {
                self.0.misfits.fetch_add(1, Ordering::SeqCst);
            }
            _ => {}
        }
    }
}

/// Serves a disk as `served_with`: a block waits for its settling as long as it does if no option says otherwise.
pub(crate) fn served<
    R: Threads + Wait + Clock + Net<Listener = TcpListener, Stream = TcpStream> + Sync,
    D: Disk + Drop + Send,
>(rt: &R, alloc: Global, disk: D, idle_seconds: u64, conversation: &str) -> Option<D> {
    let options = options(idle_seconds, SETTLE_EVERY);
    served_with(rt, alloc, disk, options, conversation)
}

/// Options: for how many seconds a client may be idle, and for how many milliseconds a block waits for its settling at most.
pub(crate) fn options(idle_seconds: u64, settle_every: u64) -> ServeOptions<'static> {
    let mut options = ServeOptions::new();
    options.idle_seconds = idle_seconds;
    options.settle_every = settle_every;
    options
}

/// The disk that a server with these options leaves; none if it ends early.
pub(crate) fn disk_after<
    R: Threads + Wait + Clock + Sync,
    D: Disk + Drop + Send,
    T: Reporter + Drop + Send + Sync,
>(
    rt: &R,
    alloc: Global,
    ends: Ends,
    disk: D,
    options: &ServeOptions<'_>,
    reporter: T,
) -> Option<D> {
    match serve_with(rt, alloc, ends, disk, options, reporter) {
        Ok(served) => Some(served.disk),
        Err(_) => None,
    }
}

/// The same of a server whose files are flushed and opened again by this.
pub(crate) fn disk_flushed<
    R: Threads + Wait + Clock + Sync,
    D: Disk + Drop + Send,
    E: Disk + Drop + Send,
    F: Flusher + Openings<E> + Send + Sync,
>(
    rt: &R,
    alloc: Global,
    ends: Ends,
    disk: D,
    options: &ServeOptions<'_>,
    flusher: &F,
) -> Option<D> {
    match serve_flushing::<R, D, Unreported, E, F>(
        rt, alloc, ends, disk, options, Unreported, flusher,
    ) {
        Ok(served) => Some(served.disk),
        Err(_) => None,
    }
}

/// Serves a new disk as `served_with`: all has to be answered so.
pub(crate) fn converses<
    R: Threads + Wait + Clock + Net<Listener = TcpListener, Stream = TcpStream> + Sync,
>(rt: &R, alloc: Global, options: ServeOptions<'_>, conversation: &str) -> Result<(), Fail> {
    match served_with(rt, alloc, MemoryDisk::new(alloc), options, conversation) {
        Some(_) => Ok(()),
        None => Err(Fail::from("served")),
    }
}

/// Serves a disk while a conversation is held, and then quits. The disk, where all was answered as it has to be.
pub(crate) fn served_with<
    R: Threads + Wait + Clock + Net<Listener = TcpListener, Stream = TcpStream> + Sync,
    D: Disk + Drop + Send,
>(rt: &R, alloc: Global, disk: D, options: ServeOptions<'_>, conversation: &str) -> Option<D> {
    let (ends, ports) = bound(rt)?;
    let told = Told::new();
    let told = &told;
    let (back, is_right) = thread::join(
        rt,
        move || disk_after(rt, alloc, ends, disk, &options, Counting(told)),
        move || {
            let is_right = holds(rt, alloc, ports, told, conversation);
            quits(rt, alloc, ports) && is_right
        },
    );
    if is_right { back } else { None }
}

/// Whether `quit` is answered by `bye`.
pub(crate) fn quits<R: Net<Listener = TcpListener, Stream = TcpStream>>(
    rt: &R,
    alloc: Global,
    ports: Ports,
) -> bool {
    match Client::new(rt, alloc, ports) {
        Some(mut client) => client.asks(alloc, "quit", "bye"),
        None => false,
    }
}

/// A listener and a socket on free ports.
pub(crate) fn bound<R: Net<Listener = TcpListener, Stream = TcpStream>>(
    rt: &R,
) -> Option<(Ends, Ports)> {
    let control = TcpListener::bind(rt, "127.0.0.1:0").ok()?;
    let datagrams = UdpSocket::bind(rt, "127.0.0.1:0").ok()?;
    let ports = Ports {
        control: control.local_addr().ok()?,
        receive: datagrams.local_addr().ok()?,
    };
    let ends = Ends {
        control,
        consumers: None,
        datagrams,
        sending: None,
    };
    Some((ends, ports))
}
