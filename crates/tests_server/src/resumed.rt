//! Publications that go on where their recordings stand: docs/SERVING.md, "After a restart".

use crate::client::Ports;
use crate::conversations::holds;
use crate::receivers::receiver;
use crate::recorded::recorder;
use crate::serving::{Told, bound, disk_after, quits};
use disk_core::MemoryDisk;
use server::{Happening, Reporter, ResumeNews, ServeOptions, SessionNews};
use std::alloc::Global;
use std::net::{Net, TcpListener, TcpStream};
use std::rt::Clock;
use std::sync::Wait;
use std::sync::atomic::{AtomicU64, Ordering};
use std::test::Fail;
use std::thread::{self, Threads};

/// What a server said of publications that came back.
#[derive(Clone, Copy, PartialEq, Eq, Debug)]
struct Said {
    /// Bytes before setup frames that were asked for.
    resumed: u64,
    /// Bytes of them that came.
    filled: u64,
    /// Bytes that are in no recording.
    holes: u64,
    /// Bytes that were in no recording when it began.
    standing: u64,
    /// Publications that went back.
    back: u64,
    /// Images and sessions that don't fit.
    misfits: u64,
}

const NOTHING: Said = Said {
    resumed: 0,
    filled: 0,
    holes: 0,
    standing: 0,
    back: 0,
    misfits: 0,
};

/// The same, as it is said.
#[derive(Drop)]
struct Heard {
    resumed: AtomicU64,
    filled: AtomicU64,
    holes: AtomicU64,
    standing: AtomicU64,
    back: AtomicU64,
    misfits: AtomicU64,
}

impl Heard {
    fn new() -> Heard {
        Heard {
            resumed: AtomicU64::new(0),
            filled: AtomicU64::new(0),
            holes: AtomicU64::new(0),
            standing: AtomicU64::new(0),
            back: AtomicU64::new(0),
            misfits: AtomicU64::new(0),
        }
    }

    fn said(&self) -> Said {
        Said {
            resumed: self.resumed.load(Ordering::SeqCst),
            filled: self.filled.load(Ordering::SeqCst),
            holes: self.holes.load(Ordering::SeqCst),
            standing: self.standing.load(Ordering::SeqCst),
            back: self.back.load(Ordering::SeqCst),
            misfits: self.misfits.load(Ordering::SeqCst),
        }
    }
}

/// Hears what a server says.
#[derive(Clone, Copy, Drop)]
struct Hearing<'a>(&'a Heard);

impl Reporter for Hearing<'_> {
    fn report(&self, happening: &Happening<'_>) {
        match happening {
            Happening::Resume(news) => self.note(news),
            Happening::Session(SessionNews::Misfit { .. }) => {
                self.0.misfits.fetch_add(1, Ordering::SeqCst);
            }
            _ => {}
        }
    }
}

impl Hearing<'_> {
    fn note(&self, news: &ResumeNews) {
        match news {
            ResumeNews::Resumes { bytes, .. } => {
                self.0.resumed.fetch_add(*bytes, Ordering::SeqCst);
            }
            ResumeNews::Filled { bytes, .. } => {
                self.0.filled.fetch_add(*bytes, Ordering::SeqCst);
            }
            ResumeNews::Hole { from, to, .. } => {
                let bytes = to.saturating_sub(*from).unsigned_abs();
                self.0.holes.fetch_add(bytes, Ordering::SeqCst);
            }
            ResumeNews::WentBack { .. } => {
                self.0.back.fetch_add(1, Ordering::SeqCst);
            }
            ResumeNews::HolesStand { bytes, .. } => {
                self.0.standing.fetch_add(*bytes, Ordering::SeqCst);
            }
        }
    }
}

/// Whether a conversation goes as it says that ends its server. One that goes otherwise has not ended it.
fn goes<R: Clock + Net<Listener = TcpListener, Stream = TcpStream>>(
    rt: &R,
    alloc: Global,
    ports: Ports,
    told: &Told,
    conversation: &str,
) -> bool {
    if holds(rt, alloc, ports, told, conversation) {
        return true;
    }
    let _ = quits(rt, alloc, ports);
    false
}

/// Serves a disk while a conversation is held that ends it. The disk, if all was answered as it has to be.
fn served<R: Threads + Wait + Clock + Net<Listener = TcpListener, Stream = TcpStream> + Sync>(
    rt: &R,
    alloc: Global,
    disk: MemoryDisk,
    options: ServeOptions<'_>,
    hearing: Hearing<'_>,
    conversation: &str,
) -> Option<MemoryDisk> {
    let (ends, ports) = bound(rt)?;
    let told = Told::new();
    let told = &told;
    let (back, is_held) = thread::join(
        rt,
        move || disk_after(rt, alloc, ends, disk, &options, hearing),
        move || goes(rt, alloc, ports, told, conversation),
    );
    if is_held { back } else { None }
}

/// Recording 0 of the stream, which ends at 128.
const BEGUN: &str = "\
casts SETUP
casts HELLO_AT_0
casts HELLO_AT_64
awaits positions 0: positions 0 128 -1
asks quit: bye
";

/// A disk with that recording, of which nothing was said.
fn begun<R: Threads + Wait + Clock + Net<Listener = TcpListener, Stream = TcpStream> + Sync>(
    rt: &R,
    alloc: Global,
) -> Option<MemoryDisk> {
    let heard = Heard::new();
    let disk = MemoryDisk::new(alloc);
    let disk = served(rt, alloc, disk, recorder(&[1_001]), Hearing(&heard), BEGUN);
    if heard.said() == NOTHING { disk } else { None }
}

/// What a server says over a disk while a conversation is held that ends it. None if it goes otherwise.
fn said_over<R: Threads + Wait + Clock + Net<Listener = TcpListener, Stream = TcpStream> + Sync>(
    rt: &R,
    alloc: Global,
    disk: MemoryDisk,
    options: ServeOptions<'_>,
    conversation: &str,
) -> Option<Said> {
    let heard = Heard::new();
    match served(rt, alloc, disk, options, Hearing(&heard), conversation) {
        Some(_) => Some(heard.said()),
        None => None,
    }
}

/// The same over the recording, by a server that records without being asked.
fn said_then<R: Threads + Wait + Clock + Net<Listener = TcpListener, Stream = TcpStream> + Sync>(
    rt: &R,
    alloc: Global,
    conversation: &str,
) -> Option<Said> {
    match begun(rt, alloc) {
        Some(disk) => said_over(rt, alloc, disk, recorder(&[1_001]), conversation),
        None => None,
    }
}

/// The same over no recording, by a server whose clients record.
fn said_anew<R: Threads + Wait + Clock + Net<Listener = TcpListener, Stream = TcpStream> + Sync>(
    rt: &R,
    alloc: Global,
    conversation: &str,
) -> Option<Said> {
    said_over(rt, alloc, MemoryDisk::new(alloc), receiver(), conversation)
}

/// 64 bytes were asked for, and came.
const FILLED: Said = Said {
    resumed: 64,
    filled: 64,
    ..NOTHING
};

/// 64 bytes were asked for, and are in no recording.
const MISSED: Said = Said {
    resumed: 64,
    holes: 64,
    ..NOTHING
};

/// The sender has gone on to 192. What lies between is asked for, and no status message says before that it was consumed. The
/// recording goes on.
const FURTHER: &str = "\
casts SETUP_AT_192
receives-either NAK_AT_128 STATUS_AT_128
receives-among NAK_AT_128
receives-among STATUS_AT_128
casts HELLO_AT_128
awaits positions 0: positions 0 192 -1
receives-among STATUS_AT_192
asks images: image 1 7 1001 42 65536 1408 128 0
follows end 1
asks positions 1: error 1 UnknownRecording
asks quit: bye
";

/// A publication that comes back further on goes on in its recording. What lies between is asked for, and recorded.
#[test]
fn a_publication_goes_on_where_its_recording_stands(rt: HostRuntime) -> Result<(), Fail> {
    assert!(rt; said_then(&rt, rt.alloc(), FURTHER) == Some(FILLED));
    Ok(())
}

/// Nothing is sent again for 5 seconds, while heartbeats come. The image leaves, and the next setup frame makes another recording.
const NO_REPEAT: &str = "\
casts SETUP_AT_192
receives-either NAK_AT_128 STATUS_AT_128
receives-among NAK_AT_128
beats HEARTBEAT_AT_192
beats HEARTBEAT_AT_192
casts HELLO_AT_192
receives-among SETUP_ASKED
casts SETUP_AT_192
casts HELLO_AT_192
awaits positions 1: positions 192 256 -1
awaits positions 0: positions 0 128 128
asks quit: bye
";

/// If nothing is sent again for 5 seconds, another recording begins. The hole is reported.
#[test]
fn a_sender_that_repeats_nothing_leaves_a_hole(rt: HostRuntime) -> Result<(), Fail> {
    assert!(rt; said_then(&rt, rt.alloc(), NO_REPEAT) == Some(MISSED));
    Ok(())
}

/// After 3 seconds nothing is heard for 4. Then the time begins anew, so that the image waits on.
const CUT_OFF: &str = "\
casts SETUP_AT_192
receives-either NAK_AT_128 STATUS_AT_128
receives-among NAK_AT_128
beats HEARTBEAT_AT_192
rests
pauses
pauses
pauses
casts HEARTBEAT_AT_192
casts HELLO_AT_128
awaits positions 0: positions 0 192 -1
pauses
asks quit: bye
";

/// Silence of the sender is not one of those seconds: the image waits on, and what is missing is recorded.
#[test]
fn a_silent_line_is_no_refusal(rt: HostRuntime) -> Result<(), Fail> {
    assert!(rt; said_then(&rt, rt.alloc(), CUT_OFF) == Some(FILLED));
    Ok(())
}

/// The server ends between the request and the repeat. The next one asks for the same.
const ENDED: &str = "\
casts SETUP_AT_192
receives-either NAK_AT_128 STATUS_AT_128
receives-among NAK_AT_128
awaits images: image 1 7 1001 42 65536 1408 128 0
follows end 1
asks quit: bye
";

/// What a server says while the second of two conversations is held, of which each ends its server, over the recording.
fn said_twice<R: Threads + Wait + Clock + Net<Listener = TcpListener, Stream = TcpStream> + Sync>(
    rt: &R,
    alloc: Global,
    first: &str,
    second: &str,
) -> Option<Said> {
    let heard = Heard::new();
    let disk = begun(rt, alloc)?;
    let disk = served(rt, alloc, disk, recorder(&[1_001]), Hearing(&heard), first)?;
    said_over(rt, alloc, disk, recorder(&[1_001]), second)
}

/// A server that ends before the repeat leaves nothing out: the next one asks for the same.
#[test]
fn a_second_stop_loses_nothing(rt: HostRuntime) -> Result<(), Fail> {
    assert!(rt; said_twice(&rt, rt.alloc(), ENDED, FURTHER) == Some(FILLED));
    Ok(())
}

/// A setup frame before the recording's end, and one out of reach, each with a message. Each makes a recording of its own.
const BACK: &str = "\
casts SETUP_AT_64
casts HELLO_AT_64
awaits positions 1: positions 64 128 -1
asks quit: bye
";

const FAR: &str = "\
casts SETUP_FAR_ON
casts HELLO_FAR_ON
awaits positions 1: positions 49152 49216 -1
asks quit: bye
";

/// A publication whose setup frame lies before its recording's end gets another recording. That is reported.
#[test]
fn a_publication_that_went_back_is_recorded_anew(rt: HostRuntime) -> Result<(), Fail> {
    let back = Said { back: 1, ..NOTHING };
    assert!(rt; said_then(&rt, rt.alloc(), BACK) == Some(back));
    Ok(())
}

/// A publication that comes back out of reach gets another recording. The hole is reported.
#[test]
fn a_publication_out_of_reach_leaves_a_hole(rt: HostRuntime) -> Result<(), Fail> {
    let hole = Said {
        holes: 49_024,
        ..NOTHING
    };
    assert!(rt; said_then(&rt, rt.alloc(), FAR) == Some(hole));
    Ok(())
}

/// A hole that stands when a server begins is reported.
#[test]
fn a_hole_that_stands_is_reported_at_the_beginning(rt: HostRuntime) -> Result<(), Fail> {
    let standing = Said {
        standing: 49_024,
        ..NOTHING
    };
    assert!(rt; said_twice(&rt, rt.alloc(), FAR, "asks quit: bye\n") == Some(standing));
    Ok(())
}

/// A client's recording stands before the setup frame: opened before it came, or after.
const CLIENTS_FIRST: &str = "\
asks start 1001 7 42 65536 1408 65536 128 1000 c: started 0 0
casts SETUP_AT_192
receives-either NAK_AT_128 STATUS_AT_128
receives-among NAK_AT_128
casts HELLO_AT_128
awaits positions 0: positions 128 192 -1
pauses
asks quit: bye
";

const CLIENTS_LATER: &str = "\
casts SETUP_AT_192
silence
asks start 1001 7 42 65536 1408 65536 128 1000 c: started 0 0
receives-among NAK_AT_128
casts HELLO_AT_128
awaits positions 0: positions 128 192 -1
pauses
asks quit: bye
";

/// A client's recording that stands before the setup frame gets what lies between, whichever came first.
#[test]
fn a_clients_recording_is_gone_on_with(rt: HostRuntime) -> Result<(), Fail> {
    for conversation in [CLIENTS_FIRST, CLIENTS_LATER] {
        assert!(rt;
            said_anew(&rt, rt.alloc(), conversation) == Some(FILLED),
            "{conversation}"
        );
    }
    Ok(())
}

/// Nothing of what a client's recording misses is sent again. Its session stays open. The sender is not recorded where it is.
const CLIENTS_HOLE: &str = "\
asks start 1001 7 42 65536 1408 65536 128 1000 c: started 0 0
casts SETUP_AT_192
receives-either NAK_AT_128 STATUS_AT_128
receives-among NAK_AT_128
beats HEARTBEAT_AT_192
beats HEARTBEAT_AT_192
casts HELLO_AT_192
receives-among SETUP_ASKED
casts SETUP_AT_192
asks positions 0: positions 128 128 -1
pauses
asks images: image 2 7 1001 42 65536 1408 192 -
follows end 1
asks quit: bye
";

/// If nothing of that is sent again, a client's session stays open, and the publication is not recorded further on.
#[test]
fn a_clients_recording_keeps_its_hole(rt: HostRuntime) -> Result<(), Fail> {
    let expected = Said {
        misfits: 1,
        ..MISSED
    };
    assert!(rt; said_anew(&rt, rt.alloc(), CLIENTS_HOLE) == Some(expected));
    Ok(())
}
