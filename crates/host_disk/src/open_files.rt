//! The files that are held open, at most so many at once.
ghost use Rattle.std.specs.Prelude.{◌≡◌, ◌≢◌, ◌<◌, ◌≤◌, ◌↔◌, ◌+◌, length, IsTrue, IsFalse, IfOk, IfSome, IfNone, IsNone, Some, slice_get, slice_set, vec_capacity, [], All, true, false};
ghost use Rattle.std.specs.List.{Contains};

use crate::system::OpenFile;
use disk_core::FileId;
use std::alloc::{AllocError, Global};

/// How many files are held open at once: more than an archive writes between two syncs.
const OPEN_FILES: usize = 128;

/// The files that are held open, each at its index.
#[derive(Drop)]
pub(crate) struct OpenFiles {
    entries: Vec<OpenFile>,
    ghost bounded: { length entries.items ≤ 128 },
    ghost room: { 128 ≤ vec_capacity entries },
}

impl OpenFiles {
    ghost use Rattle.host_disk.specs.OpenFiles.{entries_of, held, unsynced, file_at, IsFull, IsMarked, KeepsMarks, KeepsOtherMarks};

    /// No file, with room for as many as are held at once. `AllocError` where there is no memory for them.
    pub(crate) fn new(alloc: Global) -> Result<OpenFiles, AllocError>
        ensures { IfOk result (λ files. entries_of files ≡ []) }
    {
        let mut entries = Vec::new(alloc);
        entries.reserve(OPEN_FILES)?;
        Ok(OpenFiles { entries })
    }

    /// The index of a file, if it is held open.
    pub(crate) fn index_of(&self, file: FileId) -> Option<usize>
        ensures found { IfSome result (λ index. slice_get (held self.now) index ≡ Some file) }
        ensures none { IfNone result (¬ Contains (held self.now) file) }
    {
        for i in 0..self.entries.len() {
            if self.entries[i].file == file {
                return Some(i);
            }
        }
        None
    }

    /// Holds an opened file, and closes another where so many are held. None exactly where each of those is
    /// unsynced.
    pub(crate) fn hold(&mut self, opened: OpenFile) -> Option<usize>
        ensures held { IfSome result (λ index. slice_get (held self.new) index ≡ Some opened.file) }
        ensures none { IsNone result ↔ IsFull self.old }
        ensures marks { KeepsMarks self.old self.new }
    {
        if !self.make_room() {
            return None;
        }
        // It allocates nothing: the room was reserved.
        self.entries.push(opened).ok()?;
        Some(self.entries.len() - 1)
    }

    /// Closes a file where as many are held as may be, and answers whether there is room for one now. One
    /// with unsynced bytes is never closed.
    pub(crate) fn make_room(&mut self) -> bool
        ensures room { IsTrue result → length (entries_of self.new) < 128 }
        ensures full { IsFalse result ↔ IsFull self.old }
        ensures marks { KeepsMarks self.old self.new }
    {
        if self.entries.len() < OPEN_FILES {
            return true;
        }
        match self.synced_index() {
            Some(index) => {
                self.entries.remove(index);
                true
            }
            None => false,
        }
    }

    /// The file at an index.
    pub(crate) fn at(&self, index: usize) -> &OpenFile
        requires { index < length (entries_of self.now) }
        ensures file { slice_get (held self.now) index ≡ Some result.now.file }
        ensures flag { slice_get (unsynced self.now) index ≡ Some result.now.is_unsynced }
    {
        &self.entries[index]
    }

    /// Says of the file at an index whether it was written or cut since it was last synced.
    pub(crate) fn mark(&mut self, index: usize, is_unsynced: bool)
        requires { index < length (entries_of self.old) }
        ensures same_files { held self.new ≡ held self.old }
        ensures marked { unsynced self.new ≡ slice_set (unsynced self.old) index is_unsynced }
        ensures flag { slice_get (unsynced self.new) index ≡ Some is_unsynced }
        ensures marks { KeepsOtherMarks (file_at self.old index) self.old self.new }
        ensures mark { IsTrue is_unsynced →
            KeepsMarks self.old self.new × IsMarked self.new (file_at self.old index) }
    {
        self.entries[index].is_unsynced = is_unsynced;
    }

    /// Closes a file, if it is held open. The others stay open.
    pub(crate) fn close(&mut self, file: FileId)
        ensures gone { ¬ Contains (held self.new) file }
        ensures marks { KeepsOtherMarks file self.old self.new }
    {
        while let Some(index) = self.index_of(file) {
            self.entries.remove(index);
        }
    }

    /// The first index whose file may be closed.
    fn synced_index(&self) -> Option<usize>
        ensures found { IfSome result (λ index. slice_get (unsynced self.now) index ≡ Some false) }
        ensures none { IfNone result (All IsTrue (unsynced self.now)) }
    {
        for i in 0..self.entries.len() {
            if !self.entries[i].is_unsynced {
                return Some(i);
            }
        }
        None
    }
}
