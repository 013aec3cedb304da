//! Polls whose frames are handed on: docs/CONTROL.md, "Replays".

use crate::scene::Scene;
use engine_core::Poll;
use frame_core::{FrameRef, Refusal};
use replay_core::FrameTaker;
use std::alloc::{AllocError, Global};
use std::process::Abort;
use std::test::Fail;

/// Where frames begin that carry `hello`, so many at most: then there is no memory.
#[derive(Drop)]
struct Starts {
    /// Where they begin.
    found: Vec<i64>,
    /// How many there may be.
    most: usize,
}

impl Starts {
    /// None yet.
    fn new(alloc: Global, most: usize) -> Starts {
        Starts {
            found: Vec::new(alloc),
            most,
        }
    }
}

impl FrameTaker for Starts {
    ghost takes = { λ old position frame new. Unit {0} };

    ghost leaves = { λ old new. Unit {0} };

    fn take(
        &mut self,
        position: i64,
        _header: &[u8],
        frame: &FrameRef<'_>,
    ) -> Result<(), AllocError> {
        if self.found.len() >= self.most {
            return Err(AllocError);
        }
        if frame.payload == b"hello".as_slice() {
            self.found.push(position)?;
        }
        Ok(())
    }
}

const REPLAYED: &str = "\
make 16
start 0
write 0 0
write 0 64
write 0 128
settle 0
stop 0 2000
replay 0 0 -1
";

/// What a poll is answered, and where the frames begin that it hands on, if they are so many at most.
pub fn handed(
    alloc: Global,
    scene: &mut Scene,
    poll: &Poll,
    most: usize,
) -> Result<String, Refusal> {
    let mut taker = Starts::new(alloc, most);
    let next = scene.archive()?.hand_on(alloc, poll, &mut taker);
    Ok(format!(in alloc; "{next:?} {:?}", taker.found.as_slice())?)
}

/// Whether that is so.
fn is_handed(
    alloc: Global,
    scene: &mut Scene,
    poll: &Poll,
    most: usize,
    outcome: &str,
) -> Result<bool, Refusal> {
    Ok(handed(alloc, scene, poll, most)?.as_str() == outcome)
}

/// Polls of an archive that has three frames are answered so, and hand on these.
fn polls(rt: &impl Abort, alloc: Global, scene: &mut Scene) -> Result<(), Fail> {
    scene.run(alloc, REPLAYED)?;
    for (replay, max, limit, most, outcome) in [
        (7, 10, None, 9, "Err(UnknownReplay) []"),
        (0, 0, None, 9, "Err(BadParameter) []"),
        (0, 10, Some(-1), 9, "Err(BadParameter) []"),
        (0, 10, Some(0), 9, "Ok(Some(0)) []"),
        (0, 10, None, 1, "Err(NoMemory) [0]"),
        (0, 10, Some(64), 9, "Ok(Some(64)) [0]"),
        (0, 1, Some(129), 9, "Ok(Some(128)) [64]"),
        (0, 10, None, 9, "Ok(None) [128]"),
        (0, 10, Some(0), 9, "Ok(None) []"),
    ] {
        let poll = Poll { replay, max, limit };
        assert!(rt;
            is_handed(alloc, scene, &poll, most, outcome)?,
            "{poll:?} {most}"
        );
    }
    Ok(())
}

/// A replay whose taker has no memory stays where it was, and what is handed on then is what a poll gives.
#[test]
fn frames_are_handed_on(rt: HostRuntime) -> Result<(), Fail> {
    let mut scene = Scene::new(rt.alloc());
    let polled = polls(&rt, rt.alloc(), &mut scene);
    drop(scene);
    polled
}
