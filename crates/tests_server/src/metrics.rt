//! What is measured of a server: docs/SERVING.md, "Metrics".

use crate::conversations::holds;
use crate::serving::{Told, bound, options};
use crate::strict::failing;
use disk_core::MemoryDisk;
use metrics_text::{
    ArchiveMeasures, ClientMeasures, DatagramMeasures, ImageMeasures, Measures, RecordingMeasures,
    ReplayMeasures,
};
use server::{Happening, Reporter, SETTLE_EVERY, serve_with};
use std::alloc::Global;
use std::net::{Net, TcpListener, TcpStream};
use std::rt::Clock;
use std::sync::Wait;
use std::sync::atomic::{AtomicBool, AtomicU64, Ordering};
use std::test::Fail;
use std::thread::{self, Threads};

/// A frame is recorded, a replay is open, a datagram is of no image, and one frame came twice.
const MEASURED: &str = "\
asks start 1001 7 42 65536 1408 131072 0 1000 c: started 0 0
casts SETUP
casts HELLO_AT_0
casts HELLO_AT_0
awaits positions 0: positions 0 64 -1
asks replay 0 0 -1: replay 0
asks replay 0 0 -1: replay 1
asks close 1: closed
asks poll 0 1: frame 0 2500000000c001000000000007000000e90300002a000000000000000000000068656c6c6f
follows more 64
rests
asks quit: bye
";

const ARCHIVE: ArchiveMeasures = ArchiveMeasures {
    is_open: true,
    is_broken: false,
    is_full: false,
    entries: 2,
    limit: 1_048_576,
    checkpoints: 0,
    refused_checkpoints: 0,
};

const DATAGRAMS: DatagramMeasures = DatagramMeasures {
    received: 3,
    dropped: 0,
    lost: 0,
    repeats: 1,
    naks: 0,
    status_messages: 0,
    images: 1,
};

const RECORDING: RecordingMeasures = RecordingMeasures {
    recording: 0,
    stream_id: 1_001,
    session_id: 7,
    recorded: 64,
};

const IMAGE: ImageMeasures = ImageMeasures {
    image: 0,
    stream_id: 1_001,
    session_id: 7,
    rebuilt: 64,
    consumed: 64,
    gap_micros: 0,
    gap_bytes: 0,
    hole_bytes: 0,
    datagrams: 3,
    naks: 0,
    lost: 0,
    silent_micros: 0,
};

/// The first replay, after its poll.
const REPLAY: ReplayMeasures = ReplayMeasures {
    replay: 0,
    recording: 0,
    next: 64,
};

/// The same call, answered by a device fault, and one behind it.
const FAULTS: &str = "\
asks start 1001 7 42 65536 1408 131072 0 1000 c: error 17 DeviceFault
asks stop 0 5: error 16 Broken
rests
asks quit: bye
";

/// Whether the last measures were those of the first conversation, whether they said that the archive is broken, and whether
/// any were told.
#[derive(Clone, Copy, PartialEq, Eq)]
struct Outcome {
    is_right: bool,
    is_broken: bool,
    was_told: bool,
}

/// The same, as it is told.
#[derive(Drop)]
struct Seen {
    is_right: AtomicBool,
    is_broken: AtomicBool,
    was_told: AtomicBool,
}

/// Looks at the measures of a server.
#[derive(Clone, Copy, Drop)]
struct Looking<'a>(&'a Seen);

impl Reporter for Looking<'_> {
    fn report(&self, happening: &Happening<'_>) {
        let _ = happening;
    }

    fn measured(&self, measures: &Measures) {
        self.0.was_told.store(true, Ordering::SeqCst);
        self.0.is_right.store(is_right(measures), Ordering::SeqCst);
        let is_broken = measures.archive.is_broken;
        self.0.is_broken.store(is_broken, Ordering::SeqCst);
    }
}

/// Whether they are those of the server after the conversation.
fn is_right(measures: &Measures) -> bool {
    measures.archive == ARCHIVE
        && measures.datagrams == DATAGRAMS
        && are_clients(&measures.clients)
        && measures.recorder.bytes == 64
        && measures.recorder.frames == 1
        && measures.recorder.settles.count == 1
        && measures.recordings.as_slice() == [RECORDING].as_slice()
        && measures.replays.as_slice() == [REPLAY].as_slice()
        && are_images(measures.images.as_slice())
}

/// Whether the image's last datagram came within the time of the conversation.
fn are_images(images: &[ImageMeasures]) -> bool {
    match images {
        [image] => {
            let seen = ImageMeasures {
                silent_micros: 0,
                ..*image
            };
            seen == IMAGE && image.silent_micros > 0 && image.silent_micros < 60_000_000
        }
        _ => false,
    }
}

fn are_clients(clients: &ClientMeasures) -> bool {
    clients.polls == 1 && clients.replays == 1 && clients.clients == 1 && clients.places == 1
}

/// What a server of a disk told of its measures while a conversation was held that ends it.
fn measured<R: Threads + Wait + Clock + Net<Listener = TcpListener, Stream = TcpStream> + Sync>(
    rt: &R,
    alloc: Global,
    disk: MemoryDisk,
    is_measured: bool,
    lines: &'static str,
) -> Option<Outcome> {
    let (ends, ports) = bound(rt)?;
    let (told, seen) = (Told::new(), unseen());
    let (told, seen) = (&told, &seen);
    let mut options = options(60, SETTLE_EVERY);
    options.is_measured = is_measured;
    let (has_ended, is_held) = thread::join(
        rt,
        move || { serve_with(rt, alloc, ends, disk, &options, Looking(seen)).is_ok() },
        move || holds(rt, alloc, ports, told, lines),
    );
    let outcome = Outcome {
        is_right: seen.is_right.load(Ordering::SeqCst),
        is_broken: seen.is_broken.load(Ordering::SeqCst),
        was_told: seen.was_told.load(Ordering::SeqCst),
    };
    if has_ended && is_held {
        Some(outcome)
    } else {
        None
    }
}

fn told_as(is_right: bool, is_broken: bool, was_told: bool) -> Option<Outcome> {
    Some(Outcome {
        is_right,
        is_broken,
        was_told,
    })
}

fn unseen() -> Seen {
    Seen {
        is_right: AtomicBool::new(false),
        is_broken: AtomicBool::new(false),
        was_told: AtomicBool::new(false),
    }
}

/// Nothing happens.
const REST: &str = "\
rests
asks quit: bye
";

/// Counts how often a server is measured, so many milliseconds apart.
#[derive(Clone, Copy, Drop)]
struct Counting<'a> {
    count: &'a AtomicU64,
    every: u64,
}

impl Reporter for Counting<'_> {
    fn report(&self, happening: &Happening<'_>) {
        let _ = happening;
    }

    fn measured(&self, measures: &Measures) {
        let _ = measures;
        self.count.fetch_add(1, Ordering::SeqCst);
    }

    fn measures_every(&self) -> u64 {
        self.every
    }
}

/// How often a server was measured that was to be so many milliseconds apart.
fn counted<R: Threads + Wait + Clock + Net<Listener = TcpListener, Stream = TcpStream> + Sync>(
    rt: &R,
    alloc: Global,
    every: u64,
) -> Option<u64> {
    let (ends, ports) = bound(rt)?;
    let (told, count) = (Told::new(), AtomicU64::new(0));
    let (told, count) = (&told, &count);
    let disk = MemoryDisk::new(alloc);
    let mut options = options(60, SETTLE_EVERY);
    options.is_measured = true;
    let (has_ended, is_held) = thread::join(
        rt,
        move || { serve_with(rt, alloc, ends, disk, &options, Counting { count, every }).is_ok() },
        move || holds(rt, alloc, ports, told, REST),
    );
    if has_ended && is_held {
        Some(count.load(Ordering::SeqCst))
    } else {
        None
    }
}

/// A reporter says how often the server is measured.
#[test]
fn a_server_is_measured_as_often_as_asked(rt: HostRuntime) -> Result<(), Fail> {
    let often = counted(&rt, rt.alloc(), 100).ok_or("often")?;
    let seldom = counted(&rt, rt.alloc(), 60_000).ok_or("seldom")?;
    assert!(rt; often >= 8 && seldom == 1, "{often}, {seldom}");
    Ok(())
}

/// A measured server reports what it recorded, received and answered, by exact numbers.
#[test]
fn a_server_is_measured_each_second(rt: HostRuntime) -> Result<(), Fail> {
    let disk = MemoryDisk::new(rt.alloc());
    let told = measured(&rt, rt.alloc(), disk, true, MEASURED);
    assert!(rt; told == told_as(true, false, true));
    Ok(())
}

/// A server that is not to be measured reports no measures.
#[test]
fn a_server_is_not_measured_unasked(rt: HostRuntime) -> Result<(), Fail> {
    let disk = MemoryDisk::new(rt.alloc());
    let told = measured(&rt, rt.alloc(), disk, false, MEASURED);
    assert!(rt; told == told_as(false, false, false));
    Ok(())
}

/// What it told where the disk fails.
fn measured_broken<
    R: Threads + Wait + Clock + Net<Listener = TcpListener, Stream = TcpStream> + Sync,
>(rt: &R, alloc: Global) -> Option<Outcome> {
    measured(rt, alloc, failing(alloc)?, true, FAULTS)
}

/// After a device fault the measures say that the archive is broken.
#[test]
fn a_broken_archive_is_measured(rt: HostRuntime) -> Result<(), Fail> {
    let told = measured_broken(&rt, rt.alloc());
    assert!(rt; told == told_as(false, true, true));
    Ok(())
}
