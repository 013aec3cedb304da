//! A checkpoint of an archive with active recordings, unsettled blocks and an open replay: docs/STORAGE.md, "Checkpoints".

use crate::refused::{Trial, is_answered, refused_memory};
use crate::scene::{Scene, catalogue_of};
use frame_core::Refusal;
use std::alloc::Global;
use std::process::Abort;
use std::test::Fail;

// Two recordings are active. A replay of the first has given a frame, and blocks of both are not settled.
const BEFORE: &str = "\
make 16: done
start 0: started 0 0
start-from 0: started 1 1
write 0 0: written 64
world 0 64: written 128
settle 0: settled 128
write 1 0: written 64
settle 1: settled 64
replay 0 0 -1: replay 0
poll 0 1: frame 0 2500000000c001000000000007000000e90300002a000000000000000000000068656c6c6f
more 64
write 0 128: written 192
world 1 64: written 128
";

/// A checkpoint, made again where memory is refused: nothing has changed then. Where what comes before it finds no memory, all
/// is done again.
pub fn checkpoints(rt: &impl Abort, alloc: Global, scene: &mut Scene) -> Result<(), Refusal> {
    scene.obey(alloc, BEFORE)?;
    assert!(rt; scene.archive()?.desk().counted() == 4);
    if is_answered(rt, alloc, scene, "checkpoint", "checkpointed")? {
        assert!(rt; scene.archive()?.desk().counted() == 2);
        scene.obey(alloc, "settle 0: settled 192\nsettle 1: settled 128\n")?;
        scene.crash(0)?;
        assert!(rt; catalogue_of(alloc, scene.disk())? == (2, 4));
    } else {
        assert!(rt; scene.archive()?.desk().is_broken());
    }
    Ok(())
}

/// A checkpoint that is refused memory changes nothing, and succeeds if it is tried again.
#[test]
fn refused_memory_of_a_checkpoint(rt: HostRuntime) -> Result<(), Fail> {
    refused_memory(&rt, rt.alloc(), Trial::Checkpoint)
}
