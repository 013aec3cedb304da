//! What a server leaves of an archive that has recordings, if its clients ask for no change: docs/SERVING.md, "After a restart".

use crate::serving::served;
use disk_core::MemoryDisk;
use std::alloc::Global;
use std::net::{Net, TcpListener, TcpStream};
use std::rt::Clock;
use std::sync::Wait;
use std::test::Fail;
use std::thread::Threads;
use tool_core::{Unobserved, run_script};

/// Two recordings of a frame each, which are stopped.
const MADE: &str = "\
start 1001 7 42 65536 1408 65536 0 1000 c
block 0 2500000000c001000000000007000000e90300002a000000000000000000000068656c6c6f
stop 0 2000
start 1001 7 42 65536 1408 65536 0 1000 d
block 1 2500000000c001000000000007000000e90300002a000000000000000000000068656c6c6f
stop 1 3000
";

/// What these lines are answered.
const MADE_SO: &str = "\
started 0 0
settled 64
stopped 64
started 1 1
settled 64
stopped 64
";

/// Asks for all recordings and all their frames.
const LOOK: &str = "\
list 0 1024
verify 0
verify 1
replay 0 -1 -1
poll 0 10
replay 1 -1 -1
poll 1 10
";

/// What these lines are answered, before the archive is served and after it.
const SEEN: &str = "\
recording 0 1000 2000 0 64 42 65536 65536 1408 7 1001 c
recording 1 1000 3000 0 64 42 65536 65536 1408 7 1001 d
end 2
verified 1
verified 1
replay 0
frame 0 2500000000c001000000000007000000e90300002a000000000000000000000068656c6c6f
done
replay 1
frame 0 2500000000c001000000000007000000e90300002a000000000000000000000068656c6c6f
done
";

/// A client that asks for the recordings alone.
const LISTED: &str = "\
asks list 0 1024: recording 0 1000 2000 0 64 42 65536 65536 1408 7 1001 c
follows recording 1 1000 3000 0 64 42 65536 65536 1408 7 1001 d
follows end 2
";

/// The disk again, if a script over it is answered so.
fn answered(alloc: Global, disk: MemoryDisk, script: &str, answers: &str) -> Option<MemoryDisk> {
    let mut output = Vec::new(alloc);
    match run_script(alloc, script.as_bytes(), &mut output, disk, &mut Unobserved) {
        Ok(disk) if output.as_slice() == answers.as_bytes() => Some(disk),
        _ => None,
    }
}

/// A disk with two recordings that are there.
fn made(alloc: Global) -> Option<MemoryDisk> {
    let disk = answered(alloc, MemoryDisk::new(alloc), MADE, MADE_SO)?;
    answered(alloc, disk, LOOK, SEEN)
}

/// The same disk behind a server, if they are still there.
fn kept<R: Threads + Wait + Clock + Net<Listener = TcpListener, Stream = TcpStream> + Sync>(
    rt: &R,
    alloc: Global,
) -> Option<MemoryDisk> {
    let disk = served(rt, alloc, made(alloc)?, 60, LISTED)?;
    answered(alloc, disk, LOOK, SEEN)
}

/// A server whose client only lists leaves all recordings and frames as they were.
#[test]
fn a_server_keeps_what_nobody_asks_to_change(rt: HostRuntime) -> Result<(), Fail> {
    assert!(rt; kept(&rt, rt.alloc()).is_some());
    Ok(())
}
