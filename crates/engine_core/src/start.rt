//! An archive is made on a disk without files, or opened, and then its recordings stop. docs/STORAGE.md, "Opening".

ghost use Rattle.std.specs.Prelude.{◌≡◌, ◌⊎◌, ◌≤◌, [], Err, IfErr, IfOk, IsFalse, IsSome, IsTrue, MatchResult, None, Ok, Some};
ghost use Rattle.frame_core.specs.declared.refusal.Refusal.TheVariants.{DeviceFault, NoMemory};
ghost use Rattle.disk_core.specs.declared.file_id.FileId.TheVariants.{BankB};
ghost use Rattle.disk_core.specs.DiskImage.{reads};
ghost use Rattle.disk_core.specs.FileNames.{AreFilesWith};
ghost use Rattle.disk_core.specs.Life.{HasFailed};
ghost use Rattle.catalogue_log.specs.Banks.{HasClosedGate};
ghost use Rattle.catalogue_log.specs.LogState.{banks_of};
ghost use Rattle.engine_core.specs.Consistent.{KeepsArchive};
ghost use Rattle.engine_core.specs.Engine.{new_archive};
ghost use Rattle.engine_core.specs.Making.{HasNotStarted, Restarts};
ghost use Rattle.engine_core.specs.Opened.{HasNotOpened, HasOpened, new_banks};
ghost use Rattle.engine_core.specs.Opening.{MakesBanks};
ghost use Rattle.engine_core.specs.Seen.{seen, state_of};
ghost use Rattle.replay_core.specs.Pages.{kept};

use crate::stored::StoredArchive;
use crate::{Engine, OpenRefusal, Storage, opening};
use control_core::Desk;
use disk_core::{Disk, FileId};
use frame_core::Refusal;
use replay_core::PageCache;
use std::alloc::Global;

// How many pages an engine keeps.
const PAGES: usize = 256;

/// A new archive on a disk without files; else the disk: by `NoMemory` for the pages, before it is asked, or by `DeviceFault`.
/// By six calls of the disk.
pub(crate) fn make<D: Disk>(
    alloc: Global,
    disk: D,
    history_limit: u32,
) -> Result<Engine<D>, OpenRefusal<D>>
    requires some { 1 ≤ history_limit }
    requires most { history_limit ≤ 16777216 }
    ensures keeps { IfOk result (λ engine. KeepsArchive (seen D.life engine)
        (new_archive history_limit)) }
    ensures banks { IfOk result (λ engine. banks_of engine.archive.storage.log ≡ new_banks) }
    ensures spare { IfOk result (λ engine. HasClosedGate (D.life engine.archive.storage.disk).now BankB) }
    ensures goes_on { MatchResult result
        (λ engine. MakesBanks (D.life disk) (D.life engine.archive.storage.disk))
        (λ refused. MakesBanks (D.life disk) (D.life refused.disk)) }
    ensures refused { IfErr result (λ refused.
        ((refused.refusal ≡ DeviceFault) × HasFailed (D.life disk) (D.life refused.disk))
        ⊎ ((refused.refusal ≡ NoMemory) × (D.life refused.disk ≡ D.life disk))) }
{
    let pages = match no_pages(alloc) {
        Ok(pages) => pages,
        Err(refusal) => return Err(OpenRefusal { refusal, disk }),
    };
    let archive = make_archive(alloc, disk, history_limit)?;
    Ok(with_pages(archive, pages))
}

/// The archive of these files of a disk, and how many recordings its opening stopped: all of `Engine::open` behind the
/// listing.
pub(crate) fn open_listed<D: Disk>(
    alloc: Global,
    disk: D,
    files: &[FileId],
) -> Result<(Engine<D>, i64), OpenRefusal<D>>
    requires { IsTrue (D.life disk).obeys →
        AreFilesWith (λ file. IsSome (reads (D.life disk).now file)) files.now }
    ensures { MatchResult result
        (λ opened. HasOpened (D.life disk) (seen D.life opened.0) opened.1)
        (λ refused. HasNotOpened (D.life disk) (D.life refused.disk) refused.refusal) }
{
    let pages = match no_pages(alloc) {
        Ok(pages) => pages,
        Err(refusal) => return Err(OpenRefusal { refusal, disk }),
    };
    let (archive, stopped) = open_archive(alloc, disk, files)?;
    Ok((with_pages(archive, pages), stopped))
}

/// Room for the pages of an archive: `NoMemory`. Takes the memory of their keys.
fn no_pages(alloc: Global) -> Result<PageCache, Refusal>
    ensures empty { IfOk result (λ pages. kept pages ≡ []) }
    ensures refused { IfErr result (λ refusal. refusal ≡ NoMemory) }
{
    PageCache::new(alloc, PAGES)
}

/// An archive of which no page is kept yet.
fn with_pages<D: Disk>(archive: StoredArchive<D>, pages: PageCache) -> Engine<D>
    requires { kept pages ≡ [] }
    ensures { result.archive ≡ archive }
{
    Engine {
        archive,
        pages,
        generation: 0,
    }
}

/// What a new archive keeps beside pages; else the disk, by `DeviceFault`.
fn make_archive<D: Disk>(
    alloc: Global,
    disk: D,
    history_limit: u32,
) -> Result<StoredArchive<D>, OpenRefusal<D>>
    requires some { 1 ≤ history_limit }
    requires most { history_limit ≤ 16777216 }
    ensures keeps { IfOk result (λ archive. KeepsArchive (state_of D.life archive)
        (new_archive history_limit)) }
    ensures banks { IfOk result (λ archive. banks_of archive.storage.log ≡ new_banks) }
    ensures spare { IfOk result (λ archive. HasClosedGate (D.life archive.storage.disk).now BankB) }
    ensures goes_on { MatchResult result
        (λ archive. MakesBanks (D.life disk) (D.life archive.storage.disk))
        (λ refused. MakesBanks (D.life disk) (D.life refused.disk)) }
    ensures refused { IfErr result (λ refused. (refused.refusal ≡ DeviceFault)
        × HasFailed (D.life disk) (D.life refused.disk)) }
{
    let mut disk = disk;
    match opening::create(alloc, &mut disk, history_limit) {
        Ok(log) => Ok(StoredArchive {
            storage: Storage { disk, log },
            desk: Desk::new(alloc, history_limit),
        }),
        Err(refusal) => Err(OpenRefusal { refusal, disk }),
    }
}

/// The archive of these files of a disk beside its pages, and how many recordings its opening stopped; else the disk.
fn open_archive<D: Disk>(
    alloc: Global,
    disk: D,
    files: &[FileId],
) -> Result<(StoredArchive<D>, i64), OpenRefusal<D>>
    requires { IsTrue (D.life disk).obeys →
        AreFilesWith (λ file. IsSome (reads (D.life disk).now file)) files.now }
    ensures { MatchResult result
        (λ opened. HasOpened (D.life disk) (state_of D.life opened.0) opened.1)
        (λ refused. HasNotOpened (D.life disk) (D.life refused.disk) refused.refusal) }
{
    let mut disk = disk;
    match opening::read_desk(alloc, &mut disk, files) {
        Ok((log, desk)) => {
            let storage = Storage { disk, log };
            start(alloc, StoredArchive { storage, desk })
        }
        Err(refusal) => Err(OpenRefusal { refusal, disk }),
    }
}

/// An archive whose files were read, once each active recording has stopped, and how many there were; else why it did not, and
/// the disk. `NoMemory`; `DeviceFault` where a write fails.
fn start<D: Disk>(
    alloc: Global,
    archive: StoredArchive<D>,
) -> Result<(StoredArchive<D>, i64), OpenRefusal<D>>
    requires { IsFalse archive.desk.state.is_broken }
    ensures { MatchResult result
        (λ started. Restarts (state_of D.life archive) (state_of D.life started.0) (Ok started.1))
        (λ refused. HasNotStarted (state_of D.life archive) (D.life refused.disk) refused.refusal) }
{
    let mut archive = archive;
    match archive.restart(alloc) {
        Ok(stopped) => Ok((archive, stopped)),
        Err(refusal) => Err(OpenRefusal {
            refusal,
            disk: archive.storage.disk,
        }),
    }
}
