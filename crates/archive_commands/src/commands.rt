//! What `create`, `compact`, `list` and `verify` do over a disk and a writer. docs/CONTROL.md, "The program".

ghost use Rattle.std.specs.Prelude.{◌≡◌, ◌⊎◌, ◌<◌, IfErr, IfOk, IsErrAnd, codes};
ghost use Rattle.std.specs.Io.KnownBytes.{Appends};
ghost use Rattle.frame_core.specs.declared.refusal.Refusal.TheVariants.{BadParameter};
ghost use Rattle.engine_core.specs.Seen.{seen};
ghost use Rattle.archive_commands.specs.declared.commands.Stop.TheVariants.{Refused};
ghost use Rattle.archive_commands.specs.Commands.{FailsToCompact, FailsToCreate, FailsToList, FailsToVerify, HasListed, HasVerifiedOpened, IsCreated, IsOpenedBy, IsUnopenedBy};
ghost use Rattle.tool_core.specs.Archives.{HasCompacted};

use crate::reports::{Verdict, has_asked, list_recordings, verify_recordings};
use disk_core::Disk;
use engine_core::{Engine, OpenRefusal};
use frame_core::Refusal;
use std::alloc::Global;
use std::io::Write;
use tool_core::{Beginning, EarlyEnd, Observer, compact_disk};

/// Why a command ended before it was done.
#[derive(Clone, Copy, Debug, PartialEq, Eq)]
pub enum Stop {
    /// Its archive was neither made nor opened, or not compacted.
    Refused(Refusal),
    /// It ended early.
    Cut(EarlyEnd),
}

/// Why a command ended before it was done, and the disk of its archive.
#[derive(Drop)]
pub struct CommandFault<D> {
    /// Why.
    pub why: Stop,
    /// The disk that was given.
    pub disk: D,
}

/// Makes an archive without recordings on a disk without files, with this limit of its history, and writes `created`. The
/// disk comes back.
///
/// Refused as `Engine::create` refuses, and then nothing is written; cut by `Write` where the writer fails: then the archive is
/// there. docs/CONTROL.md, "The program".
pub fn create_archive<W: Write, D: Disk>(
    alloc: Global,
    disk: D,
    history: u32,
    writer: &mut W,
) -> Result<D, CommandFault<D>>
    ensures created { IfOk result (λ back. IsCreated history (D.life disk) (D.life back)
        × Appends (W.contents writer.old) (W.contents writer.new) (codes "created\n")) }
    ensures fault { IfErr result (λ fault. FailsToCreate history (D.life disk) (D.life fault.disk) fault.why
        (W.contents writer.old) (W.contents writer.new)) }
    // A limit out of its range is refused before the disk is asked.
    ensures limit { (history < 1) ⊎ (16777216 < history) → IsErrAnd result (λ fault.
        (fault.why ≡ Refused BadParameter) × (D.life fault.disk ≡ D.life disk)) }
{
    let engine = match Engine::create(alloc, disk, history) {
        Ok(engine) => engine,
        Err(OpenRefusal { refusal, disk }) => return Err(CommandFault {
            why: Stop::Refused(refusal),
            disk,
        }),
    };
    let disk = engine.into_disk();
    if writer.write_all(b"created\n").is_err() {
        let why = Stop::Cut(EarlyEnd::Write);
        return Err(CommandFault { why, disk });
    }
    Ok(disk)
}

/// Opens the archive of a disk, which stops each active recording, closes it, writes its catalogue anew, and writes
/// `compacted`. The disk comes back. An observer then gets how that ended.
///
/// Refused as `Engine::open` and `engine_core::compact` refuse, and then nothing is written; cut by `Write` where the writer
/// fails: then the archive is compacted. docs/CONTROL.md, "The program".
pub fn compact_archive<W: Write, D: Disk, O: Observer>(
    alloc: Global,
    disk: D,
    writer: &mut W,
    observer: &mut O,
) -> Result<D, CommandFault<D>>
    ensures compacted { IfOk result (λ back. HasCompacted (D.life disk) (D.life back)
        × Appends (W.contents writer.old) (W.contents writer.new) (codes "compacted\n")) }
    ensures fault { IfErr result (λ fault. FailsToCompact (D.life disk) (D.life fault.disk) fault.why
        (W.contents writer.old) (W.contents writer.new)) }
{
    let disk = match compact_disk(alloc, disk) {
        Ok(disk) => disk,
        Err(OpenRefusal { refusal, disk }) => {
            observer.began(&Beginning::Refused(refusal));
            let why = Stop::Refused(refusal);
            return Err(CommandFault { why, disk });
        }
    };
    observer.began(&Beginning::Opened);
    if writer.write_all(b"compacted\n").is_err() {
        let why = Stop::Cut(EarlyEnd::Write);
        return Err(CommandFault { why, disk });
    }
    Ok(disk)
}

/// Opens the archive of a disk, and writes its recordings as `list_recordings`. The disk comes back. An observer gets
/// whether it was opened.
///
/// Refused as `Engine::open` refuses, and then nothing is written; cut as `list_recordings`. docs/CONTROL.md, "The program".
pub fn list_archive<W: Write, D: Disk, O: Observer>(
    alloc: Global,
    disk: D,
    writer: &mut W,
    observer: &mut O,
) -> Result<D, CommandFault<D>>
    ensures listed { IfOk result (λ back. HasListed (D.life disk) (D.life back)
        (W.contents writer.old) (W.contents writer.new)) }
    ensures fault { IfErr result (λ fault. FailsToList (D.life disk) (D.life fault.disk) fault.why
        (W.contents writer.old) (W.contents writer.new)) }
{
    let engine = opened(alloc, disk, observer)?;
    let outcome = list_recordings(alloc, engine.desk(), writer);
    let disk = engine.into_disk();
    match outcome {
        Ok(()) => Ok(disk),
        Err(end) => Err(CommandFault {
            why: Stop::Cut(end),
            disk,
        }),
    }
}

/// Opens the archive of a disk, and verifies its recordings, or the one of an id, as `verify_recordings`. The disk comes
/// back, with the verdict. An observer gets whether it was opened, and each answer.
///
/// Refused as `Engine::open` refuses, and by `UnknownRecording` if the archive lacks that recording, and then nothing is
/// written; cut as `verify_recordings`. docs/CONTROL.md, "The program".
pub fn verify_archive<W: Write, D: Disk, O: Observer>(
    alloc: Global,
    disk: D,
    asked: Option<i64>,
    writer: &mut W,
    observer: &mut O,
) -> Result<(D, Verdict), CommandFault<D>>
    ensures verified { IfOk result (λ found. HasVerifiedOpened asked (D.life disk) (D.life found.0)
        (W.contents writer.old) (W.contents writer.new) found.1) }
    ensures fault { IfErr result (λ fault. FailsToVerify asked (D.life disk) (D.life fault.disk) fault.why
        (W.contents writer.old) (W.contents writer.new)) }
{
    let mut engine = opened(alloc, disk, observer)?;
    if !has_asked(engine.desk(), asked) {
        return Err(CommandFault {
            why: Stop::Refused(Refusal::UnknownRecording),
            disk: engine.into_disk(),
        });
    }
    let outcome = verify_recordings(alloc, &mut engine, asked, writer, observer);
    let disk = engine.into_disk();
    match outcome {
        Ok(verdict) => Ok((disk, verdict)),
        Err(end) => Err(CommandFault {
            why: Stop::Cut(end),
            disk,
        }),
    }
}

/// The archive of a disk, opened, which an observer gets; else why it is not, and the disk.
fn opened<D: Disk, O: Observer>(
    alloc: Global,
    disk: D,
    observer: &mut O,
) -> Result<Engine<D>, CommandFault<D>>
    ensures opened { IfOk result (λ engine. IsOpenedBy (D.life disk) (seen D.life engine)) }
    ensures refused { IfErr result (λ fault. IsUnopenedBy (D.life disk) (D.life fault.disk) fault.why) }
{
    match Engine::open(alloc, disk) {
        Ok((engine, _)) => {
            observer.began(&Beginning::Opened);
            Ok(engine)
        }
        Err(OpenRefusal { refusal, disk }) => {
            observer.began(&Beginning::Refused(refusal));
            let why = Stop::Refused(refusal);
            Err(CommandFault { why, disk })
        }
    }
}
