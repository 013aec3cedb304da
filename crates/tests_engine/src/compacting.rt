//! Two compactions after a script, each stopped at each of its changes: which state a crash leaves, and in which bank.
//! docs/STORAGE.md, "Compaction".

use crate::reference::text_of_book;
use crate::runs::Run;
use crate::scene::{Scene, catalogue_of, compacts};
use crate::script::play;
use disk_core::MemoryDisk;
use frame_core::Refusal;
use std::alloc::Global;
use std::process::Abort;
use std::test::Fail;

/// A compaction of the catalogue of an epoch, on a disk that stops after so many changes, and the choice of a crash then.
#[derive(Clone, Copy)]
struct Stop {
    epoch: u64,
    changes: u64,
    choice: u8,
}

impl Stop {
    /// How many changes it makes: in epoch 2 the other bank's gate is open, and is closed first.
    fn in_all(self) -> u64 {
        if self.epoch == 1 { 7 } else { 9 }
    }

    /// The epoch that the crash leaves: the last change but one opens the gate, the last one syncs it.
    fn left(self) -> u64 {
        let is_open = self.changes.wrapping_add(1) == self.in_all() && self.choice == 1;
        if is_open || self.changes == self.in_all() {
            self.epoch.wrapping_add(1)
        } else {
            self.epoch
        }
    }
}

/// Compacts, stops and crashes so: whether it stopped as it had to.
fn stops(alloc: Global, scene: &mut Scene, stop: Stop) -> Result<bool, Refusal> {
    scene.disk().stop_after(stop.changes);
    let has_stopped = compacts(alloc, scene.disk()).is_err();
    scene.crash(stop.choice)?;
    Ok(has_stopped == (stop.changes < stop.in_all()))
}

/// Whether the archive has this epoch and this text.
fn is_found(alloc: Global, scene: &mut Scene, epoch: u64, text: &[u8]) -> Result<bool, Refusal> {
    Ok(catalogue_of(alloc, scene.disk())?.0 == epoch && scene.found(alloc)?.as_slice() == text)
}

/// Whether a stop leaves the text of a disk to a scene, in the bank that it has to.
fn leaves_to(
    alloc: Global,
    scene: &mut Scene,
    disk: &MemoryDisk,
    stop: Stop,
    text: &[u8],
) -> Result<bool, Refusal> {
    scene.take_crash(disk, 0)?;
    let is_right = stops(alloc, scene, stop)?;
    Ok(is_right && is_found(alloc, scene, stop.left(), text)?)
}

/// The same to a new scene.
fn leaves(alloc: Global, disk: &MemoryDisk, stop: Stop, text: &[u8]) -> Result<bool, Refusal> {
    let mut scene = Scene::new(alloc);
    let leaves = leaves_to(alloc, &mut scene, disk, stop, text);
    drop(scene);
    leaves
}

const CHOICES: [u8; 3] = [0, 1, 255];

/// Whether each stop of a compaction in this epoch leaves it.
fn all_leave(alloc: Global, disk: &MemoryDisk, epoch: u64, text: &[u8]) -> Result<bool, Refusal> {
    let mut all = true;
    for changes in 0..=9u64 {
        for choice in CHOICES {
            let stop = Stop {
                epoch,
                changes,
                choice,
            };
            all = all && (changes > stop.in_all() || leaves(alloc, disk, stop, text)?);
        }
    }
    Ok(all)
}

/// Whether a stop leaves it to a scene, and so does each stop of another compaction after it.
fn both_leave_to(
    alloc: Global,
    scene: &mut Scene,
    disk: &MemoryDisk,
    stop: Stop,
    text: &[u8],
) -> Result<bool, Refusal> {
    scene.take_crash(disk, 0)?;
    let is_right = stops(alloc, scene, stop)?;
    let all_leave = all_leave(alloc, scene.disk(), stop.left(), text)?;
    Ok(is_right && all_leave && is_found(alloc, scene, stop.left(), text)?)
}

/// The same to a new scene.
fn both_leave(alloc: Global, disk: &MemoryDisk, stop: Stop, text: &[u8]) -> Result<bool, Refusal> {
    let mut scene = Scene::new(alloc);
    let leave = both_leave_to(alloc, &mut scene, disk, stop, text);
    drop(scene);
    leave
}

/// Each two stops leave it.
fn each_two_leave(
    rt: &impl Abort,
    alloc: Global,
    disk: &MemoryDisk,
    text: &[u8],
) -> Result<(), Fail> {
    for changes in 0..=7u64 {
        for choice in CHOICES {
            let stop = Stop {
                epoch: 1,
                changes,
                choice,
            };
            assert!(rt; both_leave(alloc, disk, stop, text)?, "{changes} {choice}");
        }
    }
    Ok(())
}

/// Plays the script, of whose text that is so.
fn plays(rt: &impl Abort, alloc: Global, run: &mut Run) -> Result<(), Fail> {
    play(alloc, run, "fail-at 0")?;
    let text = text_of_book(alloc, &run.story.book)?;
    each_two_leave(rt, alloc, run.scene.disk(), text.as_slice())
}

/// After a stop at any change of two compactions in a row a crash leaves the archive's state, in the bank whose gate was
/// opened last.
#[test]
fn each_stop_of_two_compactions_leaves_the_state(rt: HostRuntime) -> Result<(), Fail> {
    let mut run = Run::new(rt.alloc());
    let played = plays(&rt, rt.alloc(), &mut run);
    drop(run);
    played
}
