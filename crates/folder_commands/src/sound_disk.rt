//! The disk in memory over which `run` without a folder answers its lines. docs/CONTROL.md, "Scripts".

ghost use Rattle.std.specs.Prelude.{◌≡◌, None, refl};
ghost use Rattle.disk_core.specs.Memory.{well_stays};
ghost use Rattle.disk_core.specs.MemoryDisk.{counts_of, life_of};

use disk_core::{Disk, Fault, FileId, ListFault, MemoryDisk};
use std::alloc::Global;

/// A disk in memory that is not made to stop, and of which no call is made to fail: a call fails for want of memory alone.
#[derive(Drop)]
pub(crate) struct SoundDisk {
    disk: MemoryDisk,
    ghost goes_on: { (counts_of disk).left ≡ None },
    ghost goes: { (counts_of disk).fails ≡ 0 },
}

impl SoundDisk {
    ghost use Rattle.folder_commands.specs.SoundDisk.{IsFirstLife, sound_life};

    /// A disk with no file.
    pub(crate) fn new(alloc: Global) -> SoundDisk
        ensures { IsFirstLife (sound_life result) }
    {
        SoundDisk {
            disk: MemoryDisk::new(alloc),
        }
    }
}

impl Disk for SoundDisk {
    ghost life = { λ d. life_of d.disk };

    ghost reads_may_stay = { λ d file.
        well_stays ((life_of d.disk).now file) ((life_of d.disk).now file).reads refl (d.disk.change_log.well file) };

    fn len(&mut self, file: FileId) -> Result<u64, Fault> {
        self.disk.len(file)
    }

    fn read_at(&mut self, file: FileId, at: u64, into: &mut [u8]) -> Result<usize, Fault> {
        self.disk.read_at(file, at, into)
    }

    fn write_at(&mut self, file: FileId, at: u64, bytes: &[u8]) -> Result<(), Fault> {
        self.disk.write_at(file, at, bytes)
    }

    fn cut(&mut self, file: FileId, len: u64) -> Result<(), Fault> {
        self.disk.cut(file, len)
    }

    fn remove(&mut self, file: FileId) -> Result<(), Fault> {
        self.disk.remove(file)
    }

    fn sync(&mut self, file: FileId) -> Result<(), Fault> {
        self.disk.sync(file)
    }

    fn list(&mut self) -> Result<Vec<FileId>, ListFault> {
        self.disk.list()
    }

    fn faults(&self) -> u64 {
        self.disk.faults()
    }
}
