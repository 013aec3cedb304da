//! A script that makes each change of an archive, and what each stop and each failed call of the disk leaves of it, next to the plain
//! book. docs/STORAGE.md, "Recovery".

use crate::runs::{Run, survives};
use crate::scene::Scene;
use frame_core::Refusal;
use std::alloc::{AllocError, Global};
use std::test::Fail;

/// What an archive knows of recording 0: the timestamp of its stop, its start and its recorded position.
pub type Place = (i64, i64, i64);

/// A call, what it is answered, and what the archive knows then.
pub type Row = (&'static str, &'static str, Place);

/// The script. Its blocks are a pad of a term and `hello` at 65,536, twice.
pub const SCRIPT: [Row; 14] = [
    ("start 0", "started 0 0", (-1, 0, 0)),
    ("pad 0 0", "written 65536", (-1, 0, 0)),
    ("settle 0", "settled 65536", (-1, 0, 65_536)),
    ("write 0 65536", "written 65600", (-1, 0, 65_536)),
    ("settle 0", "settled 65600", (-1, 0, 65_600)),
    ("purge-segments 0 65536", "purged 1", (-1, 65_536, 65_600)),
    ("sweep", "swept 1", (-1, 65_536, 65_600)),
    ("stop 0 2000", "stopped 65600", (2_000, 65_536, 65_600)),
    (
        "truncate 0 65536",
        "truncated 65536",
        (2_000, 65_536, 65_536),
    ),
    ("sweep", "swept 1", (2_000, 65_536, 65_536)),
    ("extend 0 65536", "extended 1", (-1, 65_536, 65_536)),
    ("write 1 65536", "written 65600", (-1, 65_536, 65_536)),
    ("settle 1", "settled 65600", (-1, 65_536, 65_600)),
    ("stop 0 3000", "stopped 65600", (3_000, 65_536, 65_600)),
];

/// How many changes the script makes.
pub const CHANGES: u64 = 46;

/// Makes an archive with room for 64 entries, and the first calls of the script.
pub fn run_script(alloc: Global, scene: &mut Scene, rows: usize) -> Result<(), Refusal> {
    scene.make(alloc, 64)?;
    for row in SCRIPT.iter().take(rows) {
        scene.answered(alloc, row.0)?;
    }
    Ok(())
}

/// The descriptor of recording 0 as a line, where it stopped there.
pub fn line_of(alloc: Global, place: Option<Place>) -> Result<String, AllocError> {
    match place {
        Some((timestamp, start, recorded)) => format!(in alloc;
            "recording 0 1000 {timestamp} {start} {recorded} 42 65536 65536 1408 7 1001 c\nend 1"
        ),
        None => String::from_str(alloc, "end 0"),
    }
}

/// Obeys an order of the disk, and makes the calls of the script in a new archive until a call of the disk fails.
pub fn play(alloc: Global, run: &mut Run, order: &str) -> Result<(), Refusal> {
    run.scene.answered(alloc, order)?;
    run.scene.make(alloc, 64)?;
    for row in &SCRIPT {
        if run.has_stopped {
            break;
        }
        run.make(alloc, row.0)?;
    }
    Ok(())
}

/// Whether a disk that obeys an order leaves what it may, and whether a call of it failed.
fn survives_order(alloc: Global, order: &str) -> Result<(bool, bool), Refusal> {
    let mut run = Run::new(alloc);
    let played = play(alloc, &mut run, order);
    let survived = survives(alloc, &mut run);
    drop(run);
    played.and(survived)
}

/// If the disk stops after any change, a crash leaves what the answered calls made, or these and the one in flight.
#[test]
fn each_stop_leaves_a_beginning_of_the_script(rt: HostRuntime) -> Result<(), Fail> {
    for changes in 0..=CHANGES {
        let order = format!(in rt.alloc(); "stop-after {}", changes.wrapping_add(6))?;
        let found = survives_order(rt.alloc(), order.as_str())?;
        assert!(rt; found == (true, changes < CHANGES), "{changes}");
    }
    Ok(())
}

/// If any disk call fails, a crash leaves what the answered calls made, or these and the one in flight.
#[test]
fn each_failed_call_leaves_a_beginning_of_the_script(rt: HostRuntime) -> Result<(), Fail> {
    for call in 1..=49u64 {
        let order = format!(in rt.alloc(); "fail-at {}", call.wrapping_add(7))?;
        let found = survives_order(rt.alloc(), order.as_str())?;
        assert!(rt; found == (true, call <= 48), "{call}");
    }
    Ok(())
}
