//! Images and recorder sessions of one publication that don't fit: docs/SERVING.md, "What the server prints".

use crate::conversations::holds;
use crate::serving::{Told, bound, options};
use disk_core::MemoryDisk;
use frame_core::{Geometry, Publication};
use server::{Happening, SETTLE_EVERY, SessionNews, serve_with};
use std::alloc::Global;
use std::net::{Net, TcpListener, TcpStream};
use std::rt::Clock;
use std::sync::Wait;
use std::test::Fail;
use std::thread::{self, Threads};
use stream_pairs::StreamPoint;

/// An image joined at 0. Two sessions of its publication stand at 64, and one of another stream: the image is reported once for
/// each of the two.
const TWO: &str = "\
casts SETUP
rests
asks start 1001 7 42 65536 1408 65536 64 1000 c: started 0 0
asks start 1002 7 42 65536 1408 65536 64 1000 c: started 1 1
asks stop 0 5: stopped 64
asks start 1001 7 42 65536 1408 65536 64 1000 c: started 2 2
asks start 1002 7 42 65536 1408 65536 64 1000 c: started 3 3
asks quit: bye
";

/// How many misfits a server tells while a conversation is held that ends it.
fn misfits<R: Threads + Wait + Clock + Net<Listener = TcpListener, Stream = TcpStream> + Sync>(
    rt: &R,
    alloc: Global,
    conversation: &str,
) -> Option<u32> {
    let (ends, ports) = bound(rt)?;
    let told = Told::new();
    let told = &told;
    let options = options(60, SETTLE_EVERY);
    let disk = MemoryDisk::new(alloc);
    let (has_ended, is_right) = thread::join(
        rt,
        move || { serve_with(rt, alloc, ends, disk, &options, told.reporter()).is_ok() },
        move || holds(rt, alloc, ports, told, conversation),
    );
    if has_ended && is_right {
        Some(told.misfits())
    } else {
        None
    }
}

/// An image and a session of one publication that don't fit are reported once for each two.
#[test]
fn a_misfit_is_reported_once(rt: HostRuntime) -> Result<(), Fail> {
    assert!(rt; misfits(&rt, rt.alloc(), TWO) == Some(2));
    Ok(())
}

/// Where a stream stands, by its term length and position.
fn point(term_length: i32, position: i64) -> StreamPoint {
    StreamPoint {
        publication: Publication {
            session_id: 7,
            stream_id: 1_001,
        },
        geometry: Geometry {
            initial_term_id: 42,
            term_length,
            mtu: 1_408,
        },
        position,
    }
}

/// The line of a misfit has each number that differs, the image's first.
#[test]
fn a_misfit_says_what_differs(rt: HostRuntime) -> Result<(), Fail> {
    let misfit = Happening::Session(SessionNews::Misfit {
        image: 3,
        session: 2,
        joined: point(65_536, 192),
        recorded: point(131_072, 64),
    });
    let line = format!(in rt.alloc(); "{misfit}")?;
    let said =
        "image 3 does not fit session 2: term length 65536 and not 131072, position 192 and not 64";
    assert!(rt; line.as_str() == said);
    Ok(())
}
