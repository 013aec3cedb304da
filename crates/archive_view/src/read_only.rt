//! A disk that is only read: docs/STORAGE.md, "Looking at an archive".

ghost use Rattle.std.specs.Prelude.{◌≡◌};
ghost use Rattle.disk_core.specs.DiskImage.{reads};

use disk_core::{Disk, Fault, FileId, ListFault};

/// A disk that is asked for lengths, bytes and names alone. What is read of it counts as durable from then on: so a sync
/// has nothing to do, and asks the disk nothing. A write, a cut and a remove are faults that are counted here, and the disk
/// is not asked either.
#[derive(Drop)]
pub struct ReadOnly<D> {
    disk: D,
    // How many calls were refused here, up to the last `u64`.
    refused: u64,
}

impl<D: Disk> ReadOnly<D> {
    ghost use Rattle.archive_view.specs.ReadLife.{one_more};
    ghost use Rattle.archive_view.specs.ReadOnly.{disk_of};

    /// The disk, only read from now on.
    pub fn new(disk: D) -> ReadOnly<D>
        ensures { disk_of result ≡ disk }
    {
        ReadOnly { disk, refused: 0 }
    }

    /// The disk that was only read.
    pub fn into_disk(self) -> D
        ensures { result ≡ disk_of self }
    {
        self.disk
    }

    /// Counts a call that is refused.
    fn refuse(&mut self) -> Fault
        ensures disk { self.new.disk ≡ self.old.disk }
        ensures more { self.new.refused ≡ one_more self.old.refused }
    {
        self.refused = self.refused.saturating_add(1);
        Fault
    }
}

impl<D: Disk> Disk for ReadOnly<D> {
    ghost use Rattle.archive_view.specs.ReadLife.{begun_stays, read_life};

    ghost life = { λ d. read_life (D.life d.disk) d.refused };

    ghost reads_may_stay = { λ d. begun_stays (reads (D.life d.disk).now) };

    fn len(&mut self, file: FileId) -> Result<u64, Fault> {
        self.disk.len(file)
    }

    fn read_at(&mut self, file: FileId, at: u64, into: &mut [u8]) -> Result<usize, Fault> {
        self.disk.read_at(file, at, into)
    }

    fn write_at(&mut self, _file: FileId, _at: u64, _bytes: &[u8]) -> Result<(), Fault> {
        Err(self.refuse())
    }

    fn cut(&mut self, _file: FileId, _len: u64) -> Result<(), Fault> {
        Err(self.refuse())
    }

    fn remove(&mut self, _file: FileId) -> Result<(), Fault> {
        Err(self.refuse())
    }

    fn sync(&mut self, _file: FileId) -> Result<(), Fault> {
        Ok(())
    }

    fn list(&mut self) -> Result<Vec<FileId>, ListFault> {
        self.disk.list()
    }

    fn faults(&self) -> u64 {
        self.disk.faults().saturating_add(self.refused)
    }
}
