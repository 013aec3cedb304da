//! A folder as a disk that can only be read: docs/STORAGE.md, "Looking at an archive".
ghost use Rattle.std.specs.Prelude.{◌≡◌, ◌∷◌, ◌≤◌, ◌+◌, ◌-◌, ◌^◌, min, IfOk, refl};
ghost use Rattle.disk_core.specs.Memory.{well_stays};
ghost use Rattle.host_disk.specs.ClosedDisk.{closed_life};
ghost use Rattle.host_disk.specs.Events.{Given, refused};
ghost use Rattle.host_disk.specs.Looked.{events_of};
ghost use Rattle.host_disk.specs.Replay.{replay, life_at, life_from};
ghost use Rattle.host_disk.specs.WellFormed.{all_well};

use crate::looked::Looked;
use crate::{ClosedDisk, LastFault, OpenFault};
use disk_core::{Disk, Fault, FileId, ListFault};
use std::alloc::Global;
use std::path::Path;

/// A folder that is only read: no lock is taken, each file is opened for reading alone, and a write, a cut, a remove and a
/// sync are faults of which the system is asked nothing. It obeys the crash model as long as nobody writes into the folder.
/// If somebody does, what is read may be of several moments, unless all that is asked for was synced and stays.
#[derive(Drop)]
pub struct ReadFolder {
    folder: Looked,
    faults: u64,
}

impl ReadFolder {
    ghost use Rattle.host_disk.specs.ReadFolder.{folder_life};

    /// The disk of a folder, which begins with whatever files the folder holds. `Missing`, `NoFolder`, `Denied` or `Device`
    /// as the system says; `NoMemory`.
    pub fn open(rt: HostRuntime, alloc: Global, path: Path<'_>) -> Result<ReadFolder, OpenFault>
        ghost given: { Given }
        ensures begun { IfOk result (λ disk. folder_life disk ≡ life_from given) }
    {
        Ok(ReadFolder {
            folder: Looked::open(rt, alloc, path)?,
            faults: 0,
        })
    }

    /// The last call that failed, if one has, with its file and what the system told of it.
    pub fn last_fault(&self) -> Option<LastFault> {
        self.folder.last_fault()
    }

    /// Closes the folder. What is left of the disk is its life.
    pub fn close(self) -> ClosedDisk
        ensures { closed_life result ≡ folder_life self }
    {
        let ReadFolder { folder, faults } = self;
        ClosedDisk::of(folder.close(), faults)
    }

    /// Refuses a call of a file, so many bytes behind an offset.
    fn refuse(&mut self, file: FileId, at: u64, done: usize) -> Fault
        ensures noted { events_of self.new.folder ≡ refused file (at + done) ∷ events_of self.old.folder }
        ensures counted { self.new.faults ≡ min (self.old.faults + 1) (2 ^ 64 - 1) }
        ensures more { self.old.faults ≤ self.new.faults }
    {
        self.folder.refuse(file, at, done);
        self.count();
        Fault
    }

    /// Counts a call that failed.
    fn count(&mut self)
        ensures folder { self.new.folder ≡ self.old.folder }
        ensures counted { self.new.faults ≡ min (self.old.faults + 1) (2 ^ 64 - 1) }
        ensures more { self.old.faults ≤ self.new.faults }
    {
        self.faults = self.faults.saturating_add(1);
    }
}

impl Disk for ReadFolder {
    ghost life = { λ d. life_at (events_of d.folder) d.faults };

    ghost reads_may_stay = { λ d file. let events = events_of d.folder in
        well_stays ((replay events).now file) ((replay events).now file).reads refl (all_well events file) };

    fn len(&mut self, file: FileId) -> Result<u64, Fault> {
        let answer = self.folder.len(file);
        if answer.is_err() {
            self.count();
        }
        answer
    }

    fn read_at(&mut self, file: FileId, at: u64, into: &mut [u8]) -> Result<usize, Fault> {
        let mut done = 0;
        while done < into.len() {
            let Some(from) = at.checked_add(done as u64) else {
                return Err(self.refuse(file, at, done));
            };
            let Ok(count) = self.folder.read_some(file, from, &mut into[done..]) else {
                self.count();
                return Err(Fault);
            };
            if count == 0 {
                return Ok(done);
            }
            done += count;
        }
        Ok(done)
    }

    fn write_at(&mut self, file: FileId, at: u64, _bytes: &[u8]) -> Result<(), Fault> {
        Err(self.refuse(file, at, 0))
    }

    fn cut(&mut self, file: FileId, _len: u64) -> Result<(), Fault> {
        Err(self.refuse(file, 0, 0))
    }

    fn remove(&mut self, file: FileId) -> Result<(), Fault> {
        Err(self.refuse(file, 0, 0))
    }

    fn sync(&mut self, file: FileId) -> Result<(), Fault> {
        Err(self.refuse(file, 0, 0))
    }

    fn list(&mut self) -> Result<Vec<FileId>, ListFault> {
        let answer = self.folder.list();
        if let Err(ListFault::Device) = &answer {
            self.count();
        }
        answer
    }

    fn faults(&self) -> u64 {
        self.faults
    }
}
