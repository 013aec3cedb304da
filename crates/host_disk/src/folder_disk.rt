//! A disk over a folder, of which nothing is kept in memory.
ghost use Rattle.std.specs.Prelude.{◌≡◌, ◌≤◌, ◌+◌, ◌-◌, ◌^◌, [], ◌∷◌, List, ℕ, min, refl, true, false, IsTrue, IfOk, OnErr, OnOk};
ghost use Rattle.disk_core.specs.Memory.{well_stays};
ghost use Rattle.host_disk.specs.Events.{Given, opened, locked, refused};
ghost use Rattle.host_disk.specs.Faults.{failures};
ghost use Rattle.host_disk.specs.Replay.{replay, life_at};
ghost use Rattle.host_disk.specs.Lost.{covers, lost_after, is_careful, with_lost};
ghost use Rattle.host_disk.specs.WellFormed.{all_well};

use crate::{Folder, Lost};
use disk_core::{Disk, Fault, FileId, ListFault};

/// A disk over a folder. A file of which a sync has failed answers faults from then on; where that is more
/// than one file, every file does. After another call that has failed reading goes on, over what is left.
#[derive(Drop)]
pub struct FolderDisk<F: Folder> {
    folder: F,
    faults: u64,
    lost: Lost,
    ghost tied: { lost ≡ lost_after (F.Folder.events folder) },
    ghost careful: { is_careful (F.Folder.events folder) ≡ true },
    ghost counted: { faults ≡ min (failures (F.Folder.events folder)) (2 ^ 64 - 1) },
}

fn one_more(n: u64) -> u64
    ensures { result ≡ min (n + 1) (2 ^ 64 - 1) }
{
    n.saturating_add(1)
}

/// Refuses a call of a file, so many bytes behind an offset, and counts that as a fault.
fn refuse<F: Folder>(folder: &mut F, faults: &mut u64, file: FileId, at: u64, done: usize) -> Fault
    ensures more { faults.old ≤ faults.new }
    ensures counted { faults.new ≡ min (faults.old + 1) (2 ^ 64 - 1) }
    ensures noted { F.Folder.events folder.new
        ≡ refused file (at + done) ∷ F.Folder.events folder.old }
{
    folder.refuse(file, at, done);
    *faults = one_more(*faults);
    Fault
}

/// Counts a sync of a file that has failed, and takes the file as lost.
fn note_failure(faults: &mut u64, lost: &mut Lost, file: FileId)
    ensures more { faults.old ≤ faults.new }
    ensures counted { faults.new ≡ min (faults.old + 1) (2 ^ 64 - 1) }
    ensures lost { lost.new ≡ with_lost file lost.old }
{
    *faults = one_more(*faults);
    *lost = lost.with(file);
}

impl<F: Folder> FolderDisk<F> {
    ghost use Rattle.host_disk.specs.FolderDisk.{folder_of, faults_of};

    /// A disk over a folder that was just opened.
    pub fn new(folder: F) -> FolderDisk<F>
        requires { (path : List ℕ) × (given : Given)
            × (F.Folder.events folder ≡ locked path ∷ opened given ∷ []) }
        ensures folder { folder_of result ≡ folder }
        ensures faults { faults_of result ≡ 0 }
    {
        FolderDisk {
            folder,
            faults: 0,
            lost: Lost::Nothing,
        }
    }

    /// Its folder.
    pub fn folder(&self) -> &F
        ensures { result.now ≡ folder_of self.now }
    {
        &self.folder
    }

    /// Its folder, and how many calls have failed.
    pub(crate) fn into_parts(self) -> (F, u64)
        ensures folder { result.0 ≡ folder_of self }
        ensures faults { result.1 ≡ faults_of self }
    {
        let FolderDisk { folder, faults, .. } = self;
        (folder, faults)
    }

    /// No file was asked for anything once a sync of it had failed.
    pub fn asks_no_lost_file(&self)
        ensures { is_careful (F.Folder.events (folder_of self.now)) ≡ true }
    {}

    /// The count of faults is that of the calls that have failed or were refused, up to the last `u64`.
    pub fn counts_failed_calls(&self)
        ensures { faults_of self.now
            ≡ min (failures (F.Folder.events (folder_of self.now))) (2 ^ 64 - 1) }
    {}
}

impl<F: Folder> Disk for FolderDisk<F> {
    ghost life = { λ d. life_at (F.Folder.events d.folder) d.faults };

    ghost reads_may_stay = { λ d file. let events = F.Folder.events d.folder in
        well_stays ((replay events).now file) ((replay events).now file).reads refl (all_well events file) };

    fn len(&mut self, file: FileId) -> Result<u64, Fault> {
        if self.lost.covers(file) {
            return Err(refuse(&mut self.folder, &mut self.faults, file, 0, 0));
        }
        let answer = self.folder.len(file);
        if answer.is_err() {
            self.faults = one_more(self.faults);
        }
        answer
    }

    fn read_at(&mut self, file: FileId, at: u64, into: &mut [u8]) -> Result<usize, Fault> {
        if self.lost.covers(file) {
            return Err(refuse(&mut self.folder, &mut self.faults, file, 0, 0));
        }
        let mut done = 0;
        while done < into.len() {
            let Some(from) = at.checked_add(done as u64) else {
                return Err(refuse(&mut self.folder, &mut self.faults, file, at, done));
            };
            let Ok(count) = self.folder.read_some(file, from, &mut into[done..]) else {
                self.faults = one_more(self.faults);
                return Err(Fault);
            };
            if count == 0 {
                return Ok(done);
            }
            done += count;
        }
        Ok(done)
    }

    fn write_at(&mut self, file: FileId, at: u64, bytes: &[u8]) -> Result<(), Fault> {
        if bytes.is_empty() {
            return Ok(());
        }
        if self.lost.covers(file) {
            return Err(refuse(&mut self.folder, &mut self.faults, file, 0, 0));
        }
        let answer = self.folder.write(file, at, bytes);
        if answer.is_err() {
            self.faults = one_more(self.faults);
        }
        answer
    }

    fn cut(&mut self, file: FileId, len: u64) -> Result<(), Fault> {
        if self.lost.covers(file) {
            return Err(refuse(&mut self.folder, &mut self.faults, file, 0, 0));
        }
        let answer = self.folder.cut(file, len);
        if answer.is_err() {
            self.faults = one_more(self.faults);
        }
        answer
    }

    fn remove(&mut self, file: FileId) -> Result<(), Fault> {
        if self.lost.covers(file) {
            return Err(refuse(&mut self.folder, &mut self.faults, file, 0, 0));
        }
        let answer = self.folder.remove(file);
        if answer.is_err() {
            self.faults = one_more(self.faults);
        }
        answer
    }

    fn sync(&mut self, file: FileId) -> Result<(), Fault> {
        if self.lost.covers(file) {
            return Err(refuse(&mut self.folder, &mut self.faults, file, 0, 0));
        }
        let answer = self.folder.sync(file);
        if answer.is_err() {
            note_failure(&mut self.faults, &mut self.lost, file);
        }
        answer
    }

    fn list(&mut self) -> Result<Vec<FileId>, ListFault> {
        if let Some(file) = self.lost.any() {
            let Fault = refuse(&mut self.folder, &mut self.faults, file, 0, 0);
            return Err(ListFault::Device);
        }
        let answer = self.folder.list();
        if let Err(ListFault::Device) = &answer {
            self.faults = one_more(self.faults);
        }
        answer
    }

    fn faults(&self) -> u64 {
        self.faults
    }
}
