//! Requests for memory that are refused, in calls, openings and compactions: `trials/refused_memory.py tests` runs each test once for
//! each of its requests, which it refuses. docs/STORAGE.md, "Recovery".

use crate::calls::{event_in, refused, told};
use crate::checkpoints::checkpoints;
use crate::groups::settles_again;
use crate::handing::handed;
use crate::scene::{Scene, compacts};
use crate::script::{Place, SCRIPT, line_of, run_script};
use archive_model::Reply;
use control_core::Event;
use engine_core::Poll;
use frame_core::Refusal;
use std::alloc::Global;
use std::process::Abort;
use std::test::Fail;

/// What is done in an archive whose requests for memory are refused.
#[derive(Clone, Copy)]
pub enum Trial {
    Calls,
    Readings,
    HandingOn,
    Opening,
    Compaction,
    Group,
    Checkpoint,
}

/// Does it on a disk. NoMemory if memory was refused to what comes before.
fn tries(rt: &impl Abort, alloc: Global, scene: &mut Scene, trial: Trial) -> Result<(), Refusal> {
    match trial {
        Trial::Calls => plays_script(rt, alloc, scene),
        Trial::Readings => reads(rt, alloc, scene),
        Trial::HandingOn => hands_on(rt, alloc, scene),
        Trial::Opening => opens(rt, alloc, scene),
        Trial::Compaction => compacts_script(rt, alloc, scene),
        Trial::Group => settles_again(rt, alloc, scene),
        Trial::Checkpoint => checkpoints(rt, alloc, scene),
    }
}

/// Where what comes before or after finds no memory, all is done again on a new disk.
fn tries_twice(
    rt: &impl Abort,
    alloc: Global,
    scene: &mut Scene,
    trial: Trial,
) -> Result<(), Fail> {
    if tries(rt, alloc, scene, trial).is_err() {
        scene.clear(alloc);
        tries(rt, alloc, scene, trial)?;
    }
    Ok(())
}

/// The same from a new disk on.
pub fn refused_memory(rt: &impl Abort, alloc: Global, trial: Trial) -> Result<(), Fail> {
    let mut scene = Scene::new(alloc);
    let tried = tries_twice(rt, alloc, &mut scene, trial);
    drop(scene);
    tried
}

/// What an archive knows, in numbers: the next recording's, how many entries count, whether it is broken, where recording 0 starts,
/// is recorded to and stops; the next replay's, how many are open, and where replay 0 is.
fn known(scene: &mut Scene) -> Result<[i64; 9], Refusal> {
    let desk = scene.archive()?.desk();
    let mut known = [-1; 9];
    known[0] = desk.next_recording();
    known[1] = i64::try_from(desk.counted()).unwrap_or(-1);
    known[2] = i64::from(desk.is_broken());
    if let Some(found) = desk.recording(&0) {
        known[3] = found.descriptor.start_position;
        known[4] = found.recorded;
        known[5] = found.descriptor.stop_position;
    }
    known[6] = desk.next_replay();
    known[7] = i64::try_from(desk.open_replays()).unwrap_or(-1);
    if let Some(reader) = desk.replay(&0) {
        known[8] = reader.found.replay.next;
    }
    Ok(known)
}

/// What an archive answers to a call, which is made again if memory is refused; the archive knows the same then.
fn step_again(
    rt: &impl Abort,
    alloc: Global,
    scene: &mut Scene,
    event: &Event,
) -> Result<Reply, Refusal> {
    let before = known(scene)?;
    match scene.step(alloc, event) {
        Err(Refusal::NoMemory) => {
            assert!(rt; known(scene)? == before);
            scene.step(alloc, event)
        }
        outcome => outcome,
    }
}

/// The same of the call of a line, as lines.
fn answered_again(
    rt: &impl Abort,
    alloc: Global,
    scene: &mut Scene,
    call: &str,
) -> Result<Vec<u8>, Refusal> {
    let event = event_in(alloc, call)?;
    let outcome = step_again(rt, alloc, scene, &event);
    drop(event);
    match outcome {
        Ok(reply) => told(alloc, &reply),
        Err(refusal) => refused(alloc, &refusal),
    }
}

/// Whether a call is answered so. Else the disk found no memory, and the call is a fault of it.
pub fn is_answered(
    rt: &impl Abort,
    alloc: Global,
    scene: &mut Scene,
    call: &str,
    reply: &str,
) -> Result<bool, Refusal> {
    let text = answered_again(rt, alloc, scene, call)?;
    let is_right = text.as_slice().strip_suffix(b"\n") == Some(reply.as_bytes());
    assert!(rt; is_right || text.as_slice() == b"error 17 DeviceFault\n".as_slice());
    Ok(is_right)
}

/// How many calls of the script are answered as it says, before the disk finds no memory.
fn rows_answered(rt: &impl Abort, alloc: Global, scene: &mut Scene) -> Result<usize, Refusal> {
    let mut rows = 0usize;
    for row in &SCRIPT {
        if !is_answered(rt, alloc, scene, row.0, row.1)? {
            break;
        }
        rows = rows.wrapping_add(1);
    }
    Ok(rows)
}

/// What the archive knows once it is opened again after so many rows.
fn place_after(rows: usize) -> Option<Place> {
    let (_, _, place) = SCRIPT.get(rows.wrapping_sub(1))?;
    Some(*place)
}

/// Whether these are the recordings of the archive.
fn has(alloc: Global, scene: &mut Scene, rows: usize) -> Result<bool, Refusal> {
    let line = line_of(alloc, place_after(rows))?;
    let found = scene.call(alloc, "list 0 9")?;
    Ok(found.as_slice().strip_suffix(b"\n") == Some(line.as_bytes()))
}

/// Plays the script: the disk has the archive after so many rows, or after one more; after all of them it has seen no change but
/// theirs.
fn plays_script(rt: &impl Abort, alloc: Global, scene: &mut Scene) -> Result<(), Refusal> {
    scene.make(alloc, 64)?;
    let rows = rows_answered(rt, alloc, scene)?;
    assert!(rt; rows < 14 || scene.disk().changes() == 52);
    scene.open(alloc)?;
    let is_before = has(alloc, scene, rows)?;
    assert!(rt; is_before || has(alloc, scene, rows.wrapping_add(1).min(14))?);
    Ok(())
}

/// Where what comes before a call or after it finds no memory, all is done again.
#[test]
fn refused_memory_of_each_call(rt: HostRuntime) -> Result<(), Fail> {
    refused_memory(&rt, rt.alloc(), Trial::Calls)
}

// Three frames are recorded, of 64 bytes each.
const RECORDED: &str = "\
make 64: done
start-from 0: started 0 0
write 0 0: written 64
write 0 64: written 128
write 0 128: written 192
settle 0: settled 192
stop 0 2000: stopped 192
";

const READINGS: [(&str, &str); 9] = [
    ("source 0", "source 3 a:1"),
    ("replay 0 0 -1", "replay 0"),
    (
        "poll 0 1",
        "frame 0 2500000000c001000000000007000000e90300002a000000000000000000000068656c6c6f\nmore 64",
    ),
    (
        "poll-to 0 9 128",
        "frame 64 2500000000c001004000000007000000e90300002a000000000000000000000068656c6c6f\nmore 128",
    ),
    (
        "poll 0 9",
        "frame 128 2500000000c001008000000007000000e90300002a000000000000000000000068656c6c6f\ndone",
    ),
    ("close 0", "closed"),
    ("truncate 0 96", "error 5 BadPosition"),
    ("verify 0", "verified 3"),
    ("start-from 0", "started 1 1"),
];

/// Makes the readings and the last start; NoMemory if one of the calls before was refused.
fn reads(rt: &impl Abort, alloc: Global, scene: &mut Scene) -> Result<(), Refusal> {
    scene.obey(alloc, RECORDED)?;
    for (call, reply) in READINGS {
        let is_right = is_answered(rt, alloc, scene, call, reply)?;
        assert!(rt; is_right || call == "start-from 0");
    }
    Ok(())
}

/// A poll that finds no memory leaves its replay where it is.
#[test]
fn refused_memory_of_each_reading(rt: HostRuntime) -> Result<(), Fail> {
    refused_memory(&rt, rt.alloc(), Trial::Readings)
}

/// Opens a replay, whose frames are handed on, once more if memory is refused.
fn hands_on(rt: &impl Abort, alloc: Global, scene: &mut Scene) -> Result<(), Refusal> {
    scene.obey(alloc, RECORDED)?;
    is_answered(rt, alloc, scene, "replay 0 0 -1", "replay 0")?;
    let before = known(scene)?;
    let poll = Poll {
        replay: 0,
        max: 9,
        limit: None,
    };
    let mut text = handed(alloc, scene, &poll, 9)?;
    if text.as_str().starts_with("Err(NoMemory)") {
        assert!(rt; known(scene)? == before);
        text = handed(alloc, scene, &poll, 9)?;
    }
    assert!(rt; text.as_str() == "Ok(None) [0, 64, 128]");
    Ok(())
}

/// A taker that finds no memory leaves the replay where it is.
#[test]
fn refused_memory_of_frames_that_are_handed_on(rt: HostRuntime) -> Result<(), Fail> {
    refused_memory(&rt, rt.alloc(), Trial::HandingOn)
}

/// The disk after so many rows, which made so many changes; NoMemory if one of them was refused.
fn whole(alloc: Global, scene: &mut Scene, rows: usize, changes: u64) -> Result<(), Refusal> {
    run_script(alloc, scene, rows)?;
    if scene.disk().changes() == changes {
        Ok(())
    } else {
        Err(Refusal::NoMemory)
    }
}

/// A refusal is want of memory, and nothing but so many syncs came before it; or the disk found none.
fn check_refused(rt: &impl Abort, refusal: Refusal, changes: u64, syncs: u64) {
    assert!(rt;
        refusal == Refusal::NoMemory && changes <= syncs || refusal == Refusal::DeviceFault
    );
}

/// Opens the archive of an active recording, again if memory is refused.
fn opens(rt: &impl Abort, alloc: Global, scene: &mut Scene) -> Result<(), Refusal> {
    whole(alloc, scene, 13, 48)?;
    if let Err(refusal) = scene.open(alloc) {
        check_refused(rt, refusal, scene.disk().changes().wrapping_sub(48), 3);
        scene.open(alloc)?;
    }
    assert!(rt; has(alloc, scene, 13)?);
    Ok(())
}

/// An opening that is refused memory changes no file, and succeeds if it is tried again.
#[test]
fn refused_memory_of_an_opening(rt: HostRuntime) -> Result<(), Fail> {
    refused_memory(&rt, rt.alloc(), Trial::Opening)
}

/// Compacts the archive after the script, again if memory is refused; and the archive is there between.
fn compacts_script(rt: &impl Abort, alloc: Global, scene: &mut Scene) -> Result<(), Refusal> {
    whole(alloc, scene, 14, 52)?;
    if let Err(refusal) = compacts(alloc, scene.disk()) {
        check_refused(rt, refusal, scene.disk().changes().wrapping_sub(52), 2);
        scene.open(alloc)?;
        assert!(rt; has(alloc, scene, 14)?);
        compacts(alloc, scene.disk())?;
    }
    scene.open(alloc)?;
    assert!(rt; has(alloc, scene, 14)? && scene.archive()?.desk().counted() == 0);
    Ok(())
}

/// A compaction that is refused memory keeps the archive, and succeeds if it is tried again.
#[test]
fn refused_memory_of_a_compaction(rt: HostRuntime) -> Result<(), Fail> {
    refused_memory(&rt, rt.alloc(), Trial::Compaction)
}
