//! An archive as it stands: docs/STORAGE.md, "Looking at an archive".

ghost use Rattle.std.specs.Prelude.{◌≡◌, ◌==◌, ◌||◌, IfErr, IfOk, IsErrOf, IsTrue, MatchResult, not};
ghost use Rattle.frame_core.specs.declared.refusal.Refusal.TheVariants.{DeviceFault};
ghost use Rattle.catalogue_log.specs.Catalogue.{RefusesCatalogue};
ghost use Rattle.archive_view.specs.View.{IsAsCatalogued, TellsMoved};
ghost use Rattle.archive_view.specs.ReadOnly.{Looks, Refuses};

use crate::ReadOnly;
use catalogue_log::{Log, open_register};
use control_core::Desk;
use disk_core::Disk;
use engine_core::OpenRefusal;
use engine_core::laws::admitted_entries_make_laid_recordings;
use frame_core::Refusal;
use std::alloc::Global;

/// An archive as it stood when its catalogue was read: its recordings, of which some may be active, and its disk.
#[derive(Drop)]
pub struct ArchiveView<D> {
    pub(crate) disk: ReadOnly<D>,
    pub(crate) desk: Desk,
    // Where the entries of its catalogue ended.
    pub(crate) log: Log,
}

// What a catalogue gives.
#[derive(Drop)]
struct Catalogued {
    desk: Desk,
    log: Log,
}

impl<D: Disk> ArchiveView<D> {
    ghost use Rattle.archive_view.specs.ReadOnly.{Looks, Refuses};
    ghost use Rattle.archive_view.specs.Viewed.{desk_of, log_of, read_of};

    /// The archive of a disk as it stands: what its catalogue's entries make, with no recording stopped.
    ///
    /// `NotCatalogue`, `NewerVersion` and `Damaged` as `catalogue_log::open`; `DeviceFault`; `NoMemory`. The disk is only
    /// read, and comes back. docs/STORAGE.md, "Looking at an archive". Costs a call of the disk for each 64 KiB of the
    /// catalogue, and the memory of the recordings: none for the entries.
    pub fn open(
        alloc: Global,
        disk: ReadOnly<D>,
    ) -> Result<ArchiveView<D>, OpenRefusal<ReadOnly<D>>>
        ensures { MatchResult result
            (λ view. Looks D.life (λ image. IsAsCatalogued image (desk_of view) (log_of view)) disk (read_of view))
            (λ refused. Refuses D.life (λ image. RefusesCatalogue image refused.refusal) disk refused.disk refused.refusal) }
    {
        let mut disk = disk;
        match catalogue_of(alloc, &mut disk) {
            Ok(Catalogued { desk, log }) => Ok(ArchiveView { disk, desk, log }),
            Err(refusal) => Err(OpenRefusal { refusal, disk }),
        }
    }

    /// What the archive knows of its recordings and its history; nobody calls.
    pub fn desk(&self) -> &Desk
        ensures { result.now.state ≡ desk_of self.now }
    {
        &self.desk
    }

    /// Where the entries of the catalogue ended when it was read: its bank, and that bank's closed gate.
    pub fn log(&self) -> &Log
        ensures { result.now ≡ log_of self.now }
    {
        &self.log
    }

    /// Whether the catalogue by now counts other entries than those that were read, as it may if another process writes the
    /// folder: then what was read of the files since may be of no moment at all. A restart is an entry that does not count,
    /// and takes no frame away.
    ///
    /// The refusals of `open`. The disk is only read. Costs what `open` costs.
    pub fn has_moved(&mut self, alloc: Global) -> Result<bool, Refusal>
        ensures answer { MatchResult result
            (λ moved. Looks D.life (λ image. TellsMoved image (log_of self.old) moved) (read_of self.old) (read_of self.new))
            (λ refusal. Refuses D.life (λ image. RefusesCatalogue image refusal) (read_of self.old) (read_of self.new) refusal) }
        ensures desk { desk_of self.new ≡ desk_of self.old }
        ensures log { log_of self.new ≡ log_of self.old }
    {
        let found = catalogue_of(alloc, &mut self.disk)?;
        Ok(has_other_entries(&found.log, &self.log))
    }

    /// The disk, which was only read.
    pub fn into_disk(self) -> ReadOnly<D>
        ensures { result ≡ read_of self }
    {
        self.disk
    }
}

/// Whether another number of entries counts in front of a log, or its bank has another epoch.
fn has_other_entries(log: &Log, known: &Log) -> bool
    ensures { result ≡ not (log.now.counted == known.now.counted) || not (log.now.header.epoch == known.now.header.epoch) }
{
    log.counted() != known.counted() || log.epoch() != known.epoch()
}

/// What the catalogue of a disk gives, which is only read.
fn catalogue_of<D: Disk>(alloc: Global, disk: &mut ReadOnly<D>) -> Result<Catalogued, Refusal>
    ensures found { IfOk result (λ found. Looks D.life (λ image.
        IsAsCatalogued image found.desk.state found.log) disk.old disk.new) }
    ensures refused { IfErr result (λ refusal.
        Refuses D.life (λ image. RefusesCatalogue image refusal) disk.old disk.new refusal) }
{
    admitted_entries_make_laid_recordings();
    let (log, register) = open_register(alloc, disk)?;
    let counted = log.counted() as u64;
    let desk = Desk::opened(alloc, register, counted, log.limit(), log.version());
    Ok(Catalogued { desk, log })
}
