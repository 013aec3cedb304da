//! A disk whose calls are watched.

ghost use Rattle.std.specs.Prelude.{◌≡◌};

use disk_core::{Disk, Fault, FileId, ListFault};

/// Gets the calls of a disk. Nothing that they answer depends on it.
pub trait Viewer<D> {
    /// So many bytes of a file were read from an offset on.
    fn saw(&mut self, _file: FileId, _at: u64, _count: usize) {}

    /// A file was synced.
    fn synced(&mut self, _file: FileId) {}

    /// A call of the disk failed.
    fn failed(&mut self, _disk: &D) {}
}

/// Nobody gets them where there is no viewer.
impl<D, V: Viewer<D>> Viewer<D> for Option<V> {
    fn saw(&mut self, file: FileId, at: u64, count: usize) {
        if let Some(viewer) = self {
            viewer.saw(file, at, count);
        }
    }

    fn synced(&mut self, file: FileId) {
        if let Some(viewer) = self {
            viewer.synced(file);
        }
    }

    fn failed(&mut self, disk: &D) {
        if let Some(viewer) = self {
            viewer.failed(disk);
        }
    }
}

/// Both get them.
impl<D, V: Viewer<D>, W: Viewer<D>> Viewer<D> for (V, W) {
    fn saw(&mut self, file: FileId, at: u64, count: usize) {
        self.0.saw(file, at, count);
        self.1.saw(file, at, count);
    }

    fn synced(&mut self, file: FileId) {
        self.0.synced(file);
        self.1.synced(file);
    }

    fn failed(&mut self, disk: &D) {
        self.0.failed(disk);
        self.1.failed(disk);
    }
}

/// A disk whose viewer gets its reads and syncs, and each call that fails. To a contract it is the disk inside.
#[derive(Drop)]
pub struct Watched<D, V> {
    disk: D,
    viewer: V,
}

impl<D, V> Watched<D, V> {
    /// The disk, watched by this viewer.
    pub fn new(disk: D, viewer: V) -> Watched<D, V>
        ensures { result.disk ≡ disk }
    {
        Watched { disk, viewer }
    }

    /// The disk inside, and its viewer.
    pub fn into_parts(self) -> (D, V)
        ensures { result.0 ≡ self.disk }
    {
        (self.disk, self.viewer)
    }
}

impl<D: Disk, V: Viewer<D>> Disk for Watched<D, V> {
    ghost life = { λ w. D.life w.disk };

    ghost reads_may_stay = { λ w. D.reads_may_stay w.disk };

    fn len(&mut self, file: FileId) -> Result<u64, Fault> {
        let answer = self.disk.len(file);
        if answer.is_err() {
            self.viewer.failed(&self.disk);
        }
        answer
    }

    fn read_at(&mut self, file: FileId, at: u64, into: &mut [u8]) -> Result<usize, Fault> {
        let answer = self.disk.read_at(file, at, into);
        match &answer {
            Ok(count) => self.viewer.saw(file, at, *count),
            Err(_) => self.viewer.failed(&self.disk),
        }
        answer
    }

    fn write_at(&mut self, file: FileId, at: u64, bytes: &[u8]) -> Result<(), Fault> {
        let answer = self.disk.write_at(file, at, bytes);
        if answer.is_err() {
            self.viewer.failed(&self.disk);
        }
        answer
    }

    fn cut(&mut self, file: FileId, len: u64) -> Result<(), Fault> {
        let answer = self.disk.cut(file, len);
        if answer.is_err() {
            self.viewer.failed(&self.disk);
        }
        answer
    }

    fn remove(&mut self, file: FileId) -> Result<(), Fault> {
        let answer = self.disk.remove(file);
        if answer.is_err() {
            self.viewer.failed(&self.disk);
        }
        answer
    }

    fn sync(&mut self, file: FileId) -> Result<(), Fault> {
        let answer = self.disk.sync(file);
        match &answer {
            Ok(()) => self.viewer.synced(file),
            Err(_) => self.viewer.failed(&self.disk),
        }
        answer
    }

    fn list(&mut self) -> Result<Vec<FileId>, ListFault> {
        let answer = self.disk.list();
        if let Err(ListFault::Device) = &answer {
            self.viewer.failed(&self.disk);
        }
        answer
    }

    fn faults(&self) -> u64 {
        self.disk.faults()
    }
}
