//! A folder that is only read, of which one file at a time is open: docs/STORAGE.md, "Looking at an archive".
ghost use Rattle.std.specs.Prelude.{◌≡◌, ◌≤◌, ◌<◌, ◌+◌, [], ◌∷◌, length, IfOk, IsSome, MatchResult};
ghost use Rattle.std.specs.List.Sorted.{IsStrictlySortedBy};
ghost use Rattle.disk_core.specs.FileNames.{file_cmp};
ghost use Rattle.host_disk.specs.Events.{Given, opened, measured, measure_failed, asked, gave, read_failed, listed, refused};
ghost use Rattle.host_disk.specs.Faults.{after_list_fault, failures};
ghost use Rattle.host_disk.specs.Lookups.{IsFoundOf};

use crate::file_path::write_path;
use crate::system::{FolderPath, Found, Notes, OpenFile, Record, list_files};
use crate::{FailedCall, LastFault, OpenFault};
use disk_core::{Fault, FileId, ListFault};
use std::alloc::Global;
use std::io;
use std::path::Path;

/// A folder, of which one file at a time is open for reading, and the record of its calls.
#[derive(Drop)]
pub(crate) struct Looked {
    rt: HostRuntime,
    alloc: Global,
    folder: FolderPath,
    // The path of the file that a call is about.
    path: String,
    open: Option<OpenFile>,
    notes: Notes,
}

impl Looked {
    ghost use Rattle.host_disk.specs.Looked.{events_of};

    /// A folder, whatever is given with it, which is there and may be read. Nothing is asked of its files.
    pub(crate) fn open(rt: HostRuntime, alloc: Global, path: Path<'_>) -> Result<Looked, OpenFault>
        ghost given: { Given }
        ensures { IfOk result (λ folder. events_of folder ≡ opened given ∷ []) }
    {
        let (folder, notes) = FolderPath::of(&rt, alloc, path)?;
        Ok(Looked {
            rt,
            alloc,
            folder,
            path: String::new(alloc),
            open: None,
            notes,
        })
    }

    /// The last call that failed, if one has, and what the system told of it.
    pub(crate) fn last_fault(&self) -> Option<LastFault>
        ensures { 0 < failures (events_of self.now) → IsSome result }
    {
        self.notes.last()
    }

    /// Leaves what was noted of the folder.
    pub(crate) fn close(self) -> Record
        ensures { result.events ≡ events_of self }
    {
        let Looked { notes, .. } = self;
        notes.into_record()
    }

    /// The length of a file, 0 if it is absent.
    pub(crate) fn len(&mut self, file: FileId) -> Result<u64, Fault>
        ensures { MatchResult result
            (λ n. events_of self.new ≡ measured file n ∷ events_of self.old)
            (λ _. events_of self.new ≡ measure_failed file ∷ events_of self.old) }
    {
        match self.find(file) {
            Ok(Found::There(opened)) => {
                let answer = opened.len(&mut self.notes);
                self.open = Some(opened);
                answer
            }
            Ok(Found::Missing(absent)) => Ok(absent.len(&mut self.notes)),
            Err(error) => Err(self.notes.fail(FailedCall::Measure(file), error)),
        }
    }

    /// Reads once from an offset, and answers how many bytes came: none only at the end.
    pub(crate) fn read_some(
        &mut self,
        file: FileId,
        at: u64,
        into: &mut [u8],
    ) -> Result<usize, Fault>
        ensures within { IfOk result (λ n. n ≤ length into.old) }
        ensures noted { MatchResult result
            (λ n. events_of self.new ≡ gave file at n into.new ∷ asked into.old ∷ events_of self.old)
            (λ _. events_of self.new ≡ read_failed file at ∷ asked into.old ∷ events_of self.old) }
    {
        self.notes.ask(into);
        match self.find(file) {
            Ok(Found::There(opened)) => {
                let answer = opened.read(&mut self.notes, at, into);
                self.open = Some(opened);
                answer
            }
            Ok(Found::Missing(absent)) => Ok(absent.read(&mut self.notes, at, into)),
            Err(error) => Err(self.notes.fail(FailedCall::Read(file, at), error)),
        }
    }

    /// The files that are there, each once and in order. Another name is passed over.
    pub(crate) fn list(&mut self) -> Result<Vec<FileId>, ListFault>
        ensures in_order { IfOk result (λ files. IsStrictlySortedBy file_cmp files.items) }
        ensures noted { MatchResult result
            (λ files. events_of self.new ≡ listed files.items ∷ events_of self.old)
            (λ fault. events_of self.new ≡ after_list_fault fault (events_of self.old)) }
    {
        list_files(&self.rt, &self.folder, self.alloc, &mut self.notes)
    }

    /// Refuses a call of a file, so many bytes behind an offset, and asks the system nothing.
    pub(crate) fn refuse(&mut self, file: FileId, at: u64, done: usize)
        ensures { events_of self.new ≡ refused file (at + done) ∷ events_of self.old }
    {
        let call = FailedCall::Refused(file, at, done);
        let Fault = self.notes.fail(call, io::ErrorKind::Unsupported.into());
    }

    /// A file, which is taken out if it is the open one, and else is opened in place of that one.
    fn find(&mut self, file: FileId) -> io::Result<Found>
        ensures same { events_of self.new ≡ events_of self.old }
        ensures found { IfOk result (IsFoundOf file) }
    {
        if let Some(opened) = self.open.take() {
            if opened.file == file {
                return Ok(Found::There(opened));
            }
        }
        write_path(&mut self.path, &self.folder, file)?;
        self.folder.open_to_read(&self.rt, file, self.path.as_str())
    }
}
