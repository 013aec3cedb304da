//! What several recorder sessions wrote, settled together: docs/CONTROL.md, "Recorder sessions".

use crate::refused::{Trial, is_answered, refused_memory};
use crate::scene::Scene;
use frame_core::Refusal;
use std::alloc::Global;
use std::process::Abort;
use std::test::Fail;

// Three sessions, of which the first wrote one block, the second two and the third nothing.
const WRITTEN: &str = "\
start 0: started 0 0
start 0: started 1 1
start 0: started 2 2
write 0 0: written 64
write 1 0: written 64
write 1 64: written 128
";

/// Settles a group, once more if memory is refused: nothing had changed then. A disk that finds no memory has a fault.
pub fn settles_again(rt: &impl Abort, alloc: Global, scene: &mut Scene) -> Result<(), Refusal> {
    scene.obey(alloc, "make 16: done\n")?;
    scene.obey(alloc, WRITTEN)?;
    let reply = "settled-all 64 0 - 128";
    is_answered(rt, alloc, scene, "settle-all 0 2 9 1", reply).and(Ok(()))
}

/// Where what comes before the group finds no memory, all is done again.
#[test]
fn refused_memory_of_a_group(rt: HostRuntime) -> Result<(), Fail> {
    refused_memory(&rt, rt.alloc(), Trial::Group)
}
