//! The archive of a disk opened, closed and compacted. docs/STORAGE.md, "Compaction".

ghost use Rattle.std.specs.Prelude.{IfErr, IfOk, MatchResult};
ghost use Rattle.tool_core.specs.Archives.{CompactsDisk, HasCompacted, HasNotCompacted, archive_seen};

use crate::archive::ScriptArchive;
use archive_model::Reply;
use disk_core::Disk;
use engine_core::{Engine, OpenRefusal, compact};
use frame_core::Refusal;
use std::alloc::Global;

/// Opens the archive of a disk, which stops each active recording, closes it, and writes its catalogue anew. The disk comes
/// back.
///
/// Refused as `Engine::open` and `engine_core::compact` refuse. Costs what these cost.
pub fn compact_disk<D: Disk>(alloc: Global, disk: D) -> Result<D, OpenRefusal<D>>
    ensures { MatchResult result
        (λ back. HasCompacted (D.life disk) (D.life back))
        (λ refused. HasNotCompacted (D.life disk) (D.life refused.disk) refused.refusal) }
{
    let (engine, _) = Engine::open(alloc, disk)?;
    let mut disk = engine.into_disk();
    match compact(alloc, &mut disk) {
        Ok(()) => Ok(disk),
        Err(refusal) => Err(OpenRefusal { refusal, disk }),
    }
}

/// The same, and opens it again: the archive, and the answer to the line `compact`. Where one of these is refused none is
/// open.
pub(crate) fn reopened<D: Disk>(
    alloc: Global,
    disk: D,
) -> (ScriptArchive<D>, Result<Reply, Refusal>)
    ensures { CompactsDisk (D.life disk) result.1 (archive_seen D.life result.0) }
{
    let disk = match compact_disk(alloc, disk) {
        Ok(disk) => disk,
        Err(OpenRefusal { refusal, disk }) => return (ScriptArchive::Closed(disk), Err(refusal)),
    };
    match Engine::open(alloc, disk) {
        Ok((engine, _)) => (ScriptArchive::Open(engine), Ok(Reply::Compacted)),
        Err(OpenRefusal { refusal, disk }) => (ScriptArchive::Closed(disk), Err(refusal)),
    }
}
