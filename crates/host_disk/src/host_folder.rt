//! A real folder, with the files that are open in it.
ghost use Rattle.std.specs.Prelude.{◌≡◌, ◌<◌, [], ◌∷◌, List, ℕ, MatchResult, IfOk, IsSome, OnOk, OnErr};
ghost use Rattle.std.specs.List.{Contains};
ghost use Rattle.host_disk.specs.Events.{Given, opened, locked, gone, remove_failed};
ghost use Rattle.host_disk.specs.Faults.{failures};
ghost use Rattle.host_disk.specs.Names.{path_of};
ghost use Rattle.host_disk.specs.NotesOf.{noted};
ghost use Rattle.host_disk.specs.OpenFiles.{IsFull, held, HoldsUnsynced};
ghost use Rattle.host_disk.specs.Paths.{path_in};

use crate::file_path::write_path;
use crate::open_files::OpenFiles;
use crate::system::{Absent, Found, Names, Notes, OpenFile, Record, list_files};
use crate::{FailedCall, Folder, LastFault, OpenFault};
use disk_core::{Fault, FileId, ListFault};
use std::alloc::Global;
use std::io;
use std::path::Path;

/// The longest name of a file of an archive, in bytes.
const NAME_LENGTH: usize = 48;

/// A real folder, locked against a second opening. Its path must go on to name it.
#[derive(Drop)]
pub struct HostFolder {
    rt: HostRuntime,
    alloc: Global,
    names: Names,
    // The path of the file that a call is about.
    path: String,
    open_files: OpenFiles,
    notes: Notes,
    // The folder that is worked in is the one that was locked.
    ghost kept: { path_of names ≡ path_in (noted notes) },
    // A file that is not held open, or not marked, was not written or cut since its last sync.
    ghost marked: { HoldsUnsynced open_files (noted notes) },
}

// Where a file was found: among the open ones, or nowhere.
#[derive(Drop)]
enum Lookup {
    At(usize),
    Nowhere(Absent),
}

impl HostFolder {
    ghost use Rattle.host_disk.specs.HostFolder.{notes_of, open_files_of, events_of, IsHeldAt, IsLookupOf, IsPathOf};

    /// Opens a folder and locks it, whatever files it holds, and whatever calls that fail will leave. Nothing is made or changed.
    pub fn open(rt: HostRuntime, alloc: Global, path: Path<'_>) -> Result<HostFolder, OpenFault>
        ghost given: { Given }
        ensures { IfOk result (λ folder.
            (path : List ℕ) × (events_of folder ≡ locked path ∷ opened given ∷ [])) }
    {
        let (names, notes) = Names::lock(&rt, alloc, path)?;
        // With this room no call but a listing allocates.
        let mut path = String::new(alloc);
        path.reserve(names.path().as_str().len().saturating_add(NAME_LENGTH))
            .map_err(|_| OpenFault::NoMemory)?;
        let open_files = OpenFiles::new(alloc).map_err(|_| OpenFault::NoMemory)?;
        Ok(HostFolder {
            rt,
            alloc,
            names,
            path,
            open_files,
            notes,
        })
    }

    /// The last call that failed, if one has, and what the system told of it.
    pub fn last_fault(&self) -> Option<LastFault>
        ensures { 0 < failures (events_of self.now) → IsSome result }
    {
        self.notes.last()
    }

    /// Closes the folder, and leaves what was noted of it.
    pub(crate) fn close(self) -> Record
        ensures { result.events ≡ notes_of self }
    {
        let HostFolder { notes, .. } = self;
        notes.into_record()
    }

    /// Lets `path` name a file.
    fn name(&mut self, file: FileId) -> io::Result<()>
        ensures same { notes_of self.new ≡ notes_of self.old }
        ensures named { OnOk result (IsPathOf self.new file) }
    {
        write_path(&mut self.path, self.names.path(), file)
    }

    /// Where a file is, which is opened if it is there.
    fn find(&mut self, file: FileId) -> io::Result<Lookup>
        ensures same { notes_of self.new ≡ notes_of self.old }
        ensures found { IfOk result (IsLookupOf self.new file) }
    {
        if let Some(index) = self.open_files.index_of(file) {
            return Ok(Lookup::At(index));
        }
        self.name(file)?;
        match self.names.open(&self.rt, file, self.path.as_str())? {
            Found::There(opened) => Ok(Lookup::At(self.hold(opened)?)),
            Found::Missing(absent) => Ok(Lookup::Nowhere(absent)),
        }
    }

    /// The index of a file, which is made where it is absent and there is room for it.
    fn find_or_make(&mut self, file: FileId) -> io::Result<usize>
        ensures same { notes_of self.new ≡ notes_of self.old }
        ensures index { IfOk result (λ index. IsHeldAt self.new file index) }
    {
        if let Lookup::At(index) = self.find(file)? {
            return Ok(index);
        }
        // Without room it would be made, and then be a fault.
        if !self.open_files.make_room() {
            return Err(io::ErrorKind::ResourceBusy.into());
        }
        self.name(file)?;
        let made = self.names.make(&self.rt, file, self.path.as_str())?;
        self.hold(made)
    }

    /// Holds an opened file. An error where as many are held as may be, all of them unsynced.
    fn hold(&mut self, opened: OpenFile) -> io::Result<usize>
        ensures same { notes_of self.new ≡ notes_of self.old }
        ensures index { IfOk result (λ index. IsHeldAt self.new opened.file index) }
        ensures full { OnErr result (IsFull (open_files_of self.old)) }
    {
        match self.open_files.hold(opened) {
            Some(index) => Ok(index),
            None => Err(io::ErrorKind::ResourceBusy.into()),
        }
    }

    /// Removes a file, if it is there, which is not held open then: what is made under its name later is
    /// another file.
    fn remove_and_close(&mut self, file: FileId) -> Result<(), Fault>
        ensures noted { MatchResult result
            (λ _. notes_of self.new ≡ gone file ∷ notes_of self.old)
            (λ _. notes_of self.new ≡ remove_failed file ∷ notes_of self.old) }
        ensures closed { OnOk result (¬ Contains (held (open_files_of self.new)) file) }
    {
        if let Err(error) = self.name(file) {
            return Err(self.notes.fail(FailedCall::Remove(file), error));
        }
        self.names
            .remove(&self.rt, file, self.path.as_str(), &mut self.notes)?;
        self.open_files.close(file);
        Ok(())
    }
}

impl Folder for HostFolder {
    ghost use Rattle.host_disk.specs.HostFolder.{events_of};

    ghost events = { events_of };

    fn len(&mut self, file: FileId) -> Result<u64, Fault> {
        match self.find(file) {
            Ok(Lookup::At(index)) => self.open_files.at(index).len(&mut self.notes),
            Ok(Lookup::Nowhere(absent)) => Ok(absent.len(&mut self.notes)),
            Err(error) => Err(self.notes.fail(FailedCall::Measure(file), error)),
        }
    }

    fn read_some(&mut self, file: FileId, at: u64, into: &mut [u8]) -> Result<usize, Fault> {
        self.notes.ask(into);
        match self.find(file) {
            Ok(Lookup::At(index)) => self.open_files.at(index).read(&mut self.notes, at, into),
            Ok(Lookup::Nowhere(absent)) => Ok(absent.read(&mut self.notes, at, into)),
            Err(error) => Err(self.notes.fail(FailedCall::Read(file, at), error)),
        }
    }

    fn write(&mut self, file: FileId, at: u64, bytes: &[u8]) -> Result<(), Fault> {
        let index = match self.find_or_make(file) {
            Ok(index) => index,
            Err(error) => {
                let call = FailedCall::Write(file, at, bytes.len());
                return Err(self.notes.fail(call, error));
            }
        };
        self.open_files.mark(index, true);
        self.open_files.at(index).write(&mut self.notes, at, bytes)
    }

    fn cut(&mut self, file: FileId, len: u64) -> Result<(), Fault> {
        match self.find(file) {
            Ok(Lookup::At(index)) => {
                self.open_files.mark(index, true);
                self.open_files.at(index).cut(&mut self.notes, len)
            }
            Ok(Lookup::Nowhere(absent)) => {
                absent.cut(&mut self.notes, len);
                Ok(())
            }
            Err(error) => Err(self.notes.fail(FailedCall::Cut(file, len), error)),
        }
    }

    fn remove(&mut self, file: FileId) -> Result<(), Fault> {
        self.remove_and_close(file)
    }

    fn sync(&mut self, file: FileId) -> Result<(), Fault> {
        match self.find(file) {
            Ok(Lookup::At(index)) => {
                let answer = self
                    .open_files
                    .at(index)
                    .sync(&mut self.notes, &mut self.names);
                if answer.is_ok() {
                    self.open_files.mark(index, false);
                }
                answer
            }
            Ok(Lookup::Nowhere(absent)) => absent.sync(&mut self.notes, &mut self.names),
            Err(error) => Err(self.notes.fail(FailedCall::Sync(file), error)),
        }
    }

    fn list(&mut self) -> Result<Vec<FileId>, ListFault> {
        list_files(&self.rt, self.names.path(), self.alloc, &mut self.notes)
    }

    fn refuse(&mut self, file: FileId, at: u64, done: usize) {
        self.notes.refuse(file, at, done);
    }
}
