//! An archive on one thread, made anew or opened. docs/ARCHITECTURE.md, "The engine"; docs/STORAGE.md, "Opening".

ghost use Rattle.engine_core.specs.KeptPages.{KeepsPages};
ghost use Rattle.replay_core.specs.Pages.{kept};

use crate::opening;
use crate::start::{make, open_listed};
use crate::stored::StoredArchive;
use control_core::Desk;
use disk_core::Disk;
use frame_core::Refusal;
use replay_core::PageCache;
use std::alloc::Global;

/// An archive, and pages that are kept of its recordings. What a kept page has is what the disk reads: docs/STORAGE.md, "Pages".
#[derive(Drop)]
pub struct Engine<D: Disk> {
    pub(crate) archive: StoredArchive<D>,
    pub(crate) pages: PageCache,
    // How many truncations were accepted, up to the last `u64`: of the pages that were kept before the last one none is asked.
    pub(crate) generation: u64,
    pub ghost paged: { KeepsPages (D.life archive.storage.disk) archive.desk.state.register generation (kept pages) },
}

/// Why an archive was neither made nor opened, and its disk.
#[derive(Drop)]
pub struct OpenRefusal<D> {
    /// Why.
    pub refusal: Refusal,
    /// The disk that was given.
    pub disk: D,
}

impl<D: Disk> Engine<D> {
    ghost use Rattle.std.specs.Prelude.{◌≡◌, ◌⊎◌, ◌<◌, ◌≤◌, IfErr, IfOk, IsErrAnd, MatchResult};
    ghost use Rattle.frame_core.specs.declared.refusal.Refusal.TheVariants.{BadParameter};
    ghost use Rattle.engine_core.specs.Consistent.{KeepsArchive};
    ghost use Rattle.engine_core.specs.Engine.{new_archive};
    ghost use Rattle.engine_core.specs.Opened.{HasNotOpened, HasOpened, MadeOrOpened, NeitherMadeNorOpened};
    ghost use Rattle.engine_core.specs.Opening.{IsMadeIn, RefusesNew};
    ghost use Rattle.engine_core.specs.Seen.{seen};

    /// The disk, with the files as they are.
    pub fn into_disk(self) -> D
        ensures { D.life result ≡ D.life self.archive.storage.disk }
    {
        self.archive.storage.disk
    }

    /// What the archive knows but its frames: docs/CONTROL.md, "Control state".
    pub fn desk(&self) -> &Desk
        ensures { result.now.state ≡ self.now.archive.desk.state }
    {
        &self.archive.desk
    }

    /// A new archive without recordings on a disk without files, with this limit of its history. From then on every
    /// image that a crash may leave recovers to the state without recordings.
    ///
    /// `BadParameter` where the limit is not from 1 to 16,777,216, before the disk is asked, or where a file is there, and
    /// `NoMemory` for the listing and the pages: then nothing was done. `DeviceFault` where a call of the disk fails: what the banks hold then is unknown. The disk comes
    /// back. docs/STORAGE.md, "Banks"; docs/CONTROL.md, "Limits". By six calls of the disk behind a listing.
    pub fn create(alloc: Global, disk: D, history_limit: u32) -> Result<Engine<D>, OpenRefusal<D>>
        ensures made { IfOk result (λ engine. IsMadeIn (D.life disk)
            (D.life engine.archive.storage.disk) history_limit) }
        ensures keeps { IfOk result (λ engine. KeepsArchive (seen D.life engine)
            (new_archive history_limit)) }
        ensures refused { IfErr result (λ refused.
            RefusesNew (D.life disk) (D.life refused.disk) history_limit refused.refusal) }
        // A limit out of its range is refused before the disk is asked.
        ensures limit { (history_limit < 1) ⊎ (16777216 < history_limit) →
            IsErrAnd result (λ refused.
            (refused.refusal ≡ BadParameter) × (D.life refused.disk ≡ D.life disk)) }
        ensures faults { MatchResult result
            (λ engine. (D.life disk).faults ≤ (D.life engine.archive.storage.disk).faults)
            (λ refused. (D.life disk).faults ≤ (D.life refused.disk).faults) }
    {
        let mut disk = disk;
        match opening::files_within(&mut disk, history_limit) {
            Ok(files) if files.is_empty() => make(alloc, disk, history_limit),
            Ok(_) => Err(OpenRefusal {
                refusal: Refusal::BadParameter,
                disk,
            }),
            Err(refusal) => Err(OpenRefusal { refusal, disk }),
        }
    }

    /// The archive of a disk, as after a crash, and how many recordings that stopped: syncs its files, reads its catalogue,
    /// and then stops each recording that was active. Nobody calls yet.
    ///
    /// Where each image that a crash now may leave recovers to one of two states, as every call of an archive leaves it,
    /// the archive is the restart of the one that the disk reads as; and it is refused by `DeviceFault` and `NoMemory`
    /// alone. Over any other disk the desk is that of its catalogue and a restart; or `NotCatalogue`, `NewerVersion` and
    /// `Damaged`, as `catalogue_log::open`, and then each file reads as before. The disk comes back; an opening may be tried again. docs/STORAGE.md,
    /// "Opening" and "Recovery". Costs a call of the disk for each file and for each 64 KiB of the catalogue, four more
    /// where a recording was active, and the memory of the listing, the recordings and the pages.
    pub fn open(alloc: Global, disk: D) -> Result<(Engine<D>, i64), OpenRefusal<D>>
        ensures { MatchResult result
            (λ opened. HasOpened (D.life disk) (seen D.life opened.0) opened.1)
            (λ refused. HasNotOpened (D.life disk) (D.life refused.disk) refused.refusal) }
    {
        let mut disk = disk;
        match opening::files_of(&mut disk) {
            Ok(files) => open_listed(alloc, disk, files.as_slice()),
            Err(refusal) => Err(OpenRefusal { refusal, disk }),
        }
    }

    /// The archive of a disk: made anew, as `create` does, where no file is there; else opened, as `open` does, and then
    /// how many recordings that stopped. The disk is listed once.
    ///
    /// `BadParameter` where the limit is not from 1 to 16,777,216, before the disk is asked; else the refusals of
    /// `create` and `open`. The disk comes back. Costs what they cost.
    pub fn create_or_open(
        alloc: Global,
        disk: D,
        history_limit: u32,
    ) -> Result<(Engine<D>, Option<i64>), OpenRefusal<D>>
        ensures found { MatchResult result
            (λ found. MadeOrOpened history_limit (D.life disk) (seen D.life found.0) found.1)
            (λ refused. NeitherMadeNorOpened history_limit (D.life disk)
            (D.life refused.disk) refused.refusal) }
        // A limit out of its range is refused before the disk is asked.
        ensures limit { (history_limit < 1) ⊎ (16777216 < history_limit) →
            IsErrAnd result (λ refused.
            (refused.refusal ≡ BadParameter) × (D.life refused.disk ≡ D.life disk)) }
    {
        let mut disk = disk;
        match opening::files_within(&mut disk, history_limit) {
            Ok(files) if files.is_empty() => {
                let engine = make(alloc, disk, history_limit)?;
                Ok((engine, None))
            }
            Ok(files) => {
                let (engine, stopped) = open_listed(alloc, disk, files.as_slice())?;
                Ok((engine, Some(stopped)))
            }
            Err(refusal) => Err(OpenRefusal { refusal, disk }),
        }
    }
}
