//! The files of an archive, opened or made anew: docs/STORAGE.md, "Opening" and "Recovery".

ghost use Rattle.std.specs.Prelude.{◌≡◌, ◌⊎◌, ◌+◌, ◌<◌, ◌≤◌, ◌^◌, ◌↔◌, ℕ, ℤ, length, IfErr, IfNone, IfOk, IfSome, IsErrOf, IsFalse, IsSome, IsTrue, List, OnOk, None};
ghost use Rattle.frame_core.specs.declared.refusal.Refusal.TheVariants.{BadParameter, DeviceFault, NoMemory};
ghost use Rattle.disk_core.specs.declared.file_id.FileId.{FileId};
ghost use Rattle.disk_core.specs.declared.file_id.FileId.TheVariants.{BankB, Segment};
ghost use Rattle.disk_core.specs.DiskImage.{durable, reads};
ghost use Rattle.disk_core.specs.FileNames.{AreFilesWith};
ghost use Rattle.disk_core.specs.Life.{HasFailed, IsQuiet, moment};
ghost use Rattle.archive_model.specs.State.{State, empty, register_of};
ghost use Rattle.archive_model.specs.Register.{no_recordings};
ghost use Rattle.catalogue_entries.specs.declared.entry.Entry.{Entry};
ghost use Rattle.catalogue_log.specs.Banks.{HasClosedGate};
ghost use Rattle.catalogue_log.specs.Catalogue.{RefusesCatalogue};
ghost use Rattle.catalogue_entries.specs.Fold.{after_entries};
ghost use Rattle.catalogue_log.specs.LogState.{IsAtRest, IsLogIn, banks_of};
ghost use Rattle.engine_core.specs.Opening.{MakesBanks, SyncsFiles, SyncsOnly};
ghost use Rattle.archive_model.specs.declared.version.BankVersion.TheVariants.{Two};
ghost use Rattle.control_core.specs.Desk.{opened_desk};
ghost use Rattle.control_core.specs.Orderly.{AreLaid};
ghost use Rattle.engine_core.specs.Engine.{DiskGoesOn, IsTied};
ghost use Rattle.engine_core.specs.Opened.{new_banks};
ghost use Rattle.engine_core.specs.Recovery.{IsSound, Recovers};

use archive_model::Register;
use catalogue_log::{Log, open_register};
use control_core::Desk;
use disk_core::{Disk, FileId};
use frame_core::Refusal;
use frame_core::limits::MAX_HISTORY;
use std::alloc::Global;

/// Syncs the files of an archive, which are these, and reads its catalogue: the log, and the desk, at which nobody calls
/// yet.
///
/// Where the disk's files recover to a state, the archive is sound for it from then on, and the desk has that state's
/// recordings; and then it refuses by `DeviceFault` and `NoMemory` alone. Else `NotCatalogue`, `NewerVersion` and
/// `Damaged`, as `catalogue_log::open`. In every case each file reads as before. docs/STORAGE.md, "Opening". Costs a call of
/// the disk for each file and for each 64 KiB of the catalogue, and the memory of the recordings: none for the entries.
pub(crate) fn read_desk<D: Disk>(
    alloc: Global,
    disk: &mut D,
    files: &[FileId],
) -> Result<(Log, Desk), Refusal>
    requires { IsTrue (D.life disk.old).obeys →
        AreFilesWith (λ file. IsSome (reads (D.life disk.old).now file)) files.now }
    ensures sound { IfOk result (λ opened. IsTrue (D.life disk.new).obeys → (x : State) →
        Recovers (reads (D.life disk.old).now) x → IsSound (D.life disk.new).now opened.0 x
        × (opened.1.state ≡ opened_desk (register_of x) opened.0.counted opened.0.header.history_limit
        opened.0.header.version)) }
    ensures tied { IfOk result (λ opened. IsTied opened.0 opened.1.state
        × IsFalse opened.1.state.is_broken) }
    // Of any catalogue, whatever the segment files hold.
    ensures log { IfOk result (λ opened. IsTrue (D.life disk.new).obeys →
        (entries : List Entry) × IsLogIn (reads (D.life disk.old).now) opened.0 entries
        × IsAtRest (D.life disk.new).now opened.0 entries
        × (opened.1.state ≡ opened_desk (after_entries no_recordings entries) opened.0.counted opened.0.header.history_limit
        opened.0.header.version)) }
    ensures refused { IfErr result (λ refusal. IsTrue (D.life disk.new).obeys →
        RefusesCatalogue (reads (D.life disk.old).now) refusal) }
    ensures whole { IfErr result (λ refusal. IsTrue (D.life disk.new).obeys → (x : State) →
        Recovers (reads (D.life disk.old).now) x → (refusal ≡ DeviceFault) ⊎ (refusal ≡ NoMemory)) }
    ensures files { SyncsFiles (D.life disk.old) (D.life disk.new) (length files.now) result }
{
    let (log, register) = open_files(alloc, disk, files)?;
    let counted = log.counted() as u64;
    let limit = log.limit();
    let version = log.version();
    let desk = Desk::opened(alloc, register, counted, limit, version);
    Ok((log, desk))
}

/// The log of the catalogue and the register that its entries make, once the files of the archive are synced.
fn open_files<D: Disk>(
    alloc: Global,
    disk: &mut D,
    files: &[FileId],
) -> Result<(Log, Register), Refusal>
    requires { IsTrue (D.life disk.old).obeys →
        AreFilesWith (λ file. IsSome (reads (D.life disk.old).now file)) files.now }
    ensures sound { IfOk result (λ opened. IsTrue (D.life disk.new).obeys → (x : State) →
        Recovers (reads (D.life disk.old).now) x →
        IsSound (D.life disk.new).now opened.0 x × (opened.1.state ≡ register_of x)) }
    ensures laid { IfOk result (λ opened. AreLaid opened.1.state) }
    ensures log { IfOk result (λ opened. IsTrue (D.life disk.new).obeys →
        (entries : List Entry) × IsLogIn (reads (D.life disk.old).now) opened.0 entries
        × IsAtRest (D.life disk.new).now opened.0 entries
        × (opened.1.state ≡ after_entries no_recordings entries)) }
    ensures works { IfOk result (λ opened. IsFalse opened.0.is_broken) }
    ensures refused { IfErr result (λ refusal. IsTrue (D.life disk.new).obeys →
        RefusesCatalogue (reads (D.life disk.old).now) refusal) }
    ensures files { SyncsFiles (D.life disk.old) (D.life disk.new) (length files.now) result }
{
    sync_segments(disk, files)?;
    open_register(alloc, disk)
}

/// The files of a disk. `DeviceFault`; `NoMemory` for the listing.
pub(crate) fn files_of<D: Disk>(disk: &mut D) -> Result<Vec<FileId>, Refusal>
    ensures files { IfOk result (λ files. IsTrue (D.life disk.new).obeys →
        AreFilesWith (λ file. IsSome (reads (D.life disk.old).now file)) files.items) }
    ensures quiet { IsQuiet (D.life disk.old) (D.life disk.new) }
    ensures refused { IfErr result (λ refusal.
        ((refusal ≡ DeviceFault) × HasFailed (D.life disk.old) (D.life disk.new))
        ⊎ (refusal ≡ NoMemory)) }
{
    Ok(disk.list()?)
}

/// The files of a disk on which an archive may stand with this limit of its history.
///
/// `BadParameter` where the limit is not from 1 to 16,777,216, before the disk is asked; `DeviceFault`; `NoMemory` for the
/// listing. docs/CONTROL.md, "Limits".
pub(crate) fn files_within<D: Disk>(
    disk: &mut D,
    history_limit: u32,
) -> Result<Vec<FileId>, Refusal>
    ensures some { OnOk result (1 ≤ history_limit) }
    ensures most { OnOk result (history_limit ≤ 16777216) }
    ensures files { IfOk result (λ files. IsTrue (D.life disk.new).obeys →
        AreFilesWith (λ file. IsSome (reads (D.life disk.old).now file)) files.items) }
    ensures quiet { IsQuiet (D.life disk.old) (D.life disk.new) }
    ensures refused { IfErr result (λ refusal.
        ((refusal ≡ BadParameter) × ((history_limit < 1) ⊎ (16777216 < history_limit))
        × (D.life disk.new ≡ D.life disk.old))
        ⊎ ((refusal ≡ DeviceFault) × HasFailed (D.life disk.old) (D.life disk.new))
        ⊎ (refusal ≡ NoMemory)) }
    ensures limit { (history_limit < 1) ⊎ (16777216 < history_limit) → IsErrOf result BadParameter }
{
    if history_limit == 0 || history_limit > MAX_HISTORY {
        return Err(Refusal::BadParameter);
    }
    files_of(disk)
}

/// The catalogue of a new archive without recordings, with this limit of its history: its log, for which the archive is
/// sound; bank B has a closed gate. `DeviceFault` where a call of the disk fails: what the banks hold then is unknown.
/// docs/STORAGE.md, "Banks". By six calls of the disk.
pub(crate) fn create<D: Disk>(
    alloc: Global,
    disk: &mut D,
    history_limit: u32,
) -> Result<Log, Refusal>
    requires some { 1 ≤ history_limit }
    requires most { history_limit ≤ 16777216 }
    ensures sound { IfOk result (λ log. IsSound (D.life disk.new).now log empty) }
    ensures log { IfOk result (λ log. (log.header
        ≡ record { version = Two; history_limit = history_limit; epoch = 1 })
        × (log.counted ≡ 0) × IsFalse log.is_broken) }
    ensures banks { IfOk result (λ log. banks_of log ≡ new_banks) }
    ensures spare { OnOk result (HasClosedGate (D.life disk.new).now BankB) }
    ensures refused { IfErr result (λ refusal.
        (refusal ≡ DeviceFault) × HasFailed (D.life disk.old) (D.life disk.new)) }
    ensures goes_on { MakesBanks (D.life disk.old) (D.life disk.new) }
{
    catalogue_log::create(alloc, disk, history_limit)
}

/// Syncs each segment file of these files of a disk, which may read what is not yet durable. `DeviceFault`.
/// docs/STORAGE.md, "Opening". Costs a call of the disk for each of them.
pub(crate) fn sync_segments<D: Disk>(disk: &mut D, files: &[FileId]) -> Result<(), Refusal>
    requires { IsTrue (D.life disk.old).obeys →
        AreFilesWith (λ file. IsSome (reads (D.life disk.old).now file)) files.now }
    ensures synced { OnOk result (IsTrue (D.life disk.new).obeys → (recording base : ℤ) →
        IsSome (reads (D.life disk.old).now (Segment recording base)) →
        (D.life disk.new).now (Segment recording base)
        ≡ durable (reads (D.life disk.old).now (Segment recording base))) }
    ensures only { SyncsOnly (D.life disk.old) (D.life disk.new) }
    ensures refused { IfErr result (λ refusal. refusal ≡ DeviceFault) }
    ensures cause { IsErrOf result DeviceFault → HasFailed (D.life disk.old) (D.life disk.new) }
    ensures calls { moment (D.life disk.new) ≤ moment (D.life disk.old) + length files.now }
{
    for file in files {
        sync_listed(disk, *file)?;
    }
    Ok(())
}

/// Syncs a segment file. The banks stay: whoever opens the catalogue syncs them.
fn sync_listed<D: Disk>(disk: &mut D, file: FileId) -> Result<(), Refusal>
    ensures synced { OnOk result ((recording base : ℤ) → file ≡ Segment recording base →
        (D.life disk.new).now file ≡ durable (reads (D.life disk.old).now file)) }
    ensures only { SyncsOnly (D.life disk.old) (D.life disk.new) }
    ensures refused { IfErr result (λ refusal. refusal ≡ DeviceFault) }
    ensures cause { IsErrOf result DeviceFault → HasFailed (D.life disk.old) (D.life disk.new) }
    ensures calls { moment (D.life disk.new) ≤ moment (D.life disk.old) + 1 }
{
    match file {
        FileId::BankA | FileId::BankB => {}
        FileId::Segment { .. } => disk.sync(file)?,
    }
    Ok(())
}
