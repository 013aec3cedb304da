//! The system calls on a folder and its files, each noted with its answer: docs/STORAGE.md, "Folders".
//!
//! No contract guards the bodies of this file. Each is trusted to make the system call that it notes, on the
//! file of that name: to be read, and tried by tests. Nothing else can note what the system has answered,
//! since the notes of answers are private to this file; elsewhere a call is noted as failed, and no more.
//! Which file a call is of, under which path, which files stay open and what is asked after a failure is
//! decided elsewhere, and proved.
ghost use Rattle.std.specs.Prelude.{◌≡◌, ◌≤◌, ◌++◌, [], ◌∷◌, List, length, string_bytes, IfOk, MatchResult, IsTrue};
ghost use Rattle.std.specs.List.Sorted.{IsStrictlySortedBy};
ghost use Rattle.disk_core.specs.FileNames.{file_cmp, name_of};
ghost use Rattle.host_disk.specs.Names.{path_of, path_text};
ghost use Rattle.host_disk.specs.NotesOf.{noted};
ghost use Rattle.host_disk.specs.Lookups.{IsFoundOf};
ghost use Rattle.host_disk.specs.Events.{Given, opened, locked, measured, measure_failed, asked, gave, read_failed, touched, wrote, write_failed, cut, cut_failed, gone, remove_failed, flushed, flush_failed, listed};
ghost use Rattle.host_disk.specs.Faults.{after_list_fault};

mod notes;
mod record;

use crate::file_names::file_named;
use crate::{FailedCall, OpenFault};
use disk_core::{Fault, FileId, ListFault};
pub(crate) use notes::Notes;
use record::Note;
pub(crate) use record::Record;
use std::alloc::Global;
use std::collections::BTreeSet;
use std::fs::{self, DirEntry, File, Metadata, OpenOptions};
use std::io;
use std::os::unix::fs::{FileExt, MetadataExt};
use std::path::Path;

/// A file that is open under its name.
#[derive(Drop)]
pub(crate) struct OpenFile {
    pub(crate) file: FileId,
    handle: File,
    /// Written or cut since it was last synced. The system tells of bytes that did not reach the disk at a
    /// sync, and may forget it once the file is closed.
    pub(crate) is_unsynced: bool,
}

/// A file that was absent when it was to be opened.
#[derive(Drop)]
pub(crate) struct Absent {
    file: FileId,
}

/// What was found under a file's name.
#[derive(Drop)]
pub(crate) enum Found {
    There(OpenFile),
    Missing(Absent),
}

/// The path of a folder, with a slash behind it.
#[derive(Drop)]
pub(crate) struct FolderPath {
    text: String,
}

/// The folder itself, locked against a second opening, its path, and what is known of the names in it.
#[derive(Drop)]
pub(crate) struct Names {
    folder: File,
    path: FolderPath,
    // A name came or went since the folder was last synced.
    are_new: bool,
    // A sync of the folder has failed.
    are_lost: bool,
}

impl FolderPath {
    ghost use Rattle.host_disk.specs.Names.{path_text};

    /// The path of a folder that is there, whatever is given with it, and the record of its calls, which begins. Nothing is
    /// opened: a pipe would wait.
    pub(crate) fn of(
        rt: &HostRuntime,
        alloc: Global,
        path: Path<'_>,
    ) -> Result<(FolderPath, Notes), OpenFault>
        ghost given: { Given }
        ensures { IfOk result (λ begun. noted begun.1 ≡ opened given ∷ []) }
    {
        let real = fs::canonicalize(rt, path).map_err(OpenFault::of)?;
        let found = fs::metadata(rt, real.as_path()).map_err(OpenFault::of)?;
        if !found.is_dir() {
            return Err(OpenFault::NoFolder);
        }
        let text = format!(in alloc; "{}/", real.display()).map_err(|_| OpenFault::NoMemory)?;
        Ok((FolderPath { text }, Notes::begin()))
    }

    /// Its text.
    pub(crate) fn as_str(&self) -> &str
        ensures { result.now ≡ path_text self.now }
    {
        self.text.as_str()
    }

    /// Opens a file for reading alone, if it is there. The path is the folder's with the file's name behind it.
    pub(crate) fn open_to_read(
        &self,
        rt: &HostRuntime,
        file: FileId,
        path: &str,
    ) -> io::Result<Found>
        requires { path.now ≡ path_text self.now ++ name_of file }
        ensures { IfOk result (IsFoundOf file) }
    {
        match open_file(rt, file, path, false) {
            // It went in between: nobody has locked the folder.
            Err(error) if error.kind() == io::ErrorKind::NotFound => {
                Ok(Found::Missing(Absent { file }))
            }
            found => found,
        }
    }
}

impl Names {
    ghost use Rattle.host_disk.specs.Names.{path_of, path_text};

    /// Locks a folder, whatever is given with it, and begins the record of its calls. `Busy` where another
    /// opening of it has the lock.
    pub(crate) fn lock(
        rt: &HostRuntime,
        alloc: Global,
        path: Path<'_>,
    ) -> Result<(Names, Notes), OpenFault>
        ghost given: { Given }
        ensures { IfOk result (λ begun.
            noted begun.1 ≡ locked (path_of begun.0) ∷ opened given ∷ []) }
    {
        let (path, mut notes) = FolderPath::of(rt, alloc, path)?;
        let folder = locked_folder(rt, path.as_str())?;
        notes.add(&Note::Locked(path.as_str().as_bytes()));
        let names = Names {
            folder,
            path,
            are_new: true,
            are_lost: false,
        };
        Ok((names, notes))
    }

    /// The folder's path.
    pub(crate) fn path(&self) -> &FolderPath
        ensures { path_text result.now ≡ path_of self.now }
    {
        &self.path
    }

    /// Syncs the folder where a name came or went. Once that has failed it fails for good.
    fn sync(&mut self) -> io::Result<()>
        ensures { path_of self.new ≡ path_of self.old }
    {
        if self.are_lost {
            return Err(io::ErrorKind::Other.into());
        }
        if self.are_new {
            self.are_lost = true;
            self.folder.sync_all()?;
            self.are_lost = false;
            self.are_new = false;
        }
        Ok(())
    }

    /// Opens a file for reading and writing, if it is there. The path is the folder's with the file's name behind it.
    pub(crate) fn open(&self, rt: &HostRuntime, file: FileId, path: &str) -> io::Result<Found>
        requires { path.now ≡ path_of self.now ++ name_of file }
        ensures { IfOk result (IsFoundOf file) }
    {
        open_file(rt, file, path, true)
    }

    /// Makes a file that was absent, and opens it. The path is the folder's with the file's name behind it.
    pub(crate) fn make(
        &mut self,
        rt: &HostRuntime,
        file: FileId,
        path: &str,
    ) -> io::Result<OpenFile>
        requires { path.now ≡ path_of self.old ++ name_of file }
        ensures made { IfOk result (λ made. made.file ≡ file) }
        ensures path { path_of self.new ≡ path_of self.old }
    {
        self.are_new = true;
        Ok(OpenFile {
            file,
            handle: File::create_new(rt, path)?,
            is_unsynced: false,
        })
    }

    /// Removes a file, if it is there. Whatever else has that name is refused, and stays. The path is the
    /// folder's with the file's name behind it.
    pub(crate) fn remove(
        &mut self,
        rt: &HostRuntime,
        file: FileId,
        path: &str,
        notes: &mut Notes,
    ) -> Result<(), Fault>
        requires { path.now ≡ path_of self.old ++ name_of file }
        ensures noted { MatchResult result
            (λ _. noted notes.new ≡ gone file ∷ noted notes.old)
            (λ _. noted notes.new ≡ remove_failed file ∷ noted notes.old) }
        ensures path { path_of self.new ≡ path_of self.old }
    {
        self.are_new = true;
        if let Err(error) = remove_file(rt, path) {
            return Err(notes.fail(FailedCall::Remove(file), error));
        }
        notes.add(&Note::Removed(file));
        Ok(())
    }
}

/// Opens a folder and locks it.
fn locked_folder(rt: &HostRuntime, path: &str) -> Result<File, OpenFault> {
    let folder = File::open(rt, path).map_err(OpenFault::of)?;
    match folder.try_lock() {
        Ok(()) => Ok(folder),
        Err(fs::TryLockError::WouldBlock) => Err(OpenFault::Busy),
        Err(fs::TryLockError::Error(_)) => Err(OpenFault::Device),
    }
}

/// Removes what has this name, if it is there and a file.
fn remove_file(rt: &HostRuntime, path: &str) -> io::Result<()> {
    match kind_of(rt, path)? {
        Some(_) => fs::remove_file(rt, path),
        None => Ok(()),
    }
}

/// What has this name, if it is there. Whatever is no file is refused.
fn kind_of(rt: &HostRuntime, path: &str) -> io::Result<Option<Metadata>> {
    match fs::symlink_metadata(rt, path) {
        Ok(named) if named.is_file() => Ok(Some(named)),
        Ok(_) => Err(io::ErrorKind::Unsupported.into()),
        Err(error) if error.kind() == io::ErrorKind::NotFound => Ok(None),
        Err(error) => Err(error),
    }
}

/// Opens a file, if it is there, for reading, and for writing too where that is asked for. Whatever else has that name is
/// refused, and a link is not followed.
fn open_file(rt: &HostRuntime, file: FileId, path: &str, may_write: bool) -> io::Result<Found>
    ensures { IfOk result (IsFoundOf file) }
{
    let Some(named) = kind_of(rt, path)? else {
        return Ok(Found::Missing(Absent { file }));
    };
    let handle = OpenOptions::new()
        .read(true)
        .write(may_write)
        .open(rt, path)?;
    // The name might have come to be a link's in between.
    let found = handle.metadata()?;
    if found.dev() != named.dev() || found.ino() != named.ino() {
        return Err(io::ErrorKind::Unsupported.into());
    }
    Ok(Found::There(OpenFile {
        file,
        handle,
        is_unsynced: false,
    }))
}

impl OpenFile {
    ghost use Rattle.host_disk.specs.Names.{path_of};

    /// The file's length.
    pub(crate) fn len(&self, notes: &mut Notes) -> Result<u64, Fault>
        ensures { MatchResult result
            (λ n. noted notes.new ≡ measured self.now.file n ∷ noted notes.old)
            (λ _. noted notes.new ≡ measure_failed self.now.file ∷ noted notes.old) }
    {
        let len = match self.handle.metadata() {
            Ok(found) => found.len(),
            Err(error) => return Err(notes.fail(FailedCall::Measure(self.file), error)),
        };
        notes.add(&Note::Measured(self.file, len));
        Ok(len)
    }

    /// Reads once from an offset, and answers how many bytes came: none only at the end.
    pub(crate) fn read(&self, notes: &mut Notes, at: u64, into: &mut [u8]) -> Result<usize, Fault>
        ensures within { IfOk result (λ n. n ≤ length into.old) }
        ensures noted { MatchResult result
            (λ n. noted notes.new ≡ gave self.now.file at n into.new ∷ noted notes.old)
            (λ _. noted notes.new ≡ read_failed self.now.file at ∷ noted notes.old) }
    {
        let count = match self.handle.read_at(into, at) {
            Ok(count) => count,
            Err(error) => return Err(notes.fail(FailedCall::Read(self.file, at), error)),
        };
        notes.add(&Note::Gave(self.file, at, count, into));
        Ok(count)
    }

    /// Writes all of the bytes at an offset, of a file that is marked as unsynced.
    pub(crate) fn write(&self, notes: &mut Notes, at: u64, bytes: &[u8]) -> Result<(), Fault>
        requires marked { IsTrue self.now.is_unsynced }
        ensures { MatchResult result
            (λ _. noted notes.new
            ≡ wrote self.now.file at bytes.now ∷ touched self.now.file ∷ noted notes.old)
            (λ _. noted notes.new ≡ write_failed self.now.file at (length bytes.now)
            ∷ touched self.now.file ∷ noted notes.old) }
    {
        notes.add(&Note::Touched(self.file));
        if let Err(error) = self.handle.write_all_at(bytes, at) {
            return Err(notes.fail(FailedCall::Write(self.file, at, bytes.len()), error));
        }
        notes.add(&Note::Wrote(self.file, at, bytes));
        Ok(())
    }

    /// Cuts the file to a length, where it is longer. It is marked as unsynced.
    pub(crate) fn cut(&self, notes: &mut Notes, len: u64) -> Result<(), Fault>
        requires marked { IsTrue self.now.is_unsynced }
        ensures { MatchResult result
            (λ _. noted notes.new ≡ cut self.now.file len ∷ touched self.now.file ∷ noted notes.old)
            (λ _. noted notes.new
            ≡ cut_failed self.now.file len ∷ touched self.now.file ∷ noted notes.old) }
    {
        notes.add(&Note::Touched(self.file));
        if let Err(error) = self.shorten(len) {
            return Err(notes.fail(FailedCall::Cut(self.file, len), error));
        }
        notes.add(&Note::Cut(self.file, len));
        Ok(())
    }

    fn shorten(&self, len: u64) -> io::Result<()> {
        if self.handle.metadata()?.len() <= len {
            return Ok(());
        }
        self.handle.set_len(len)
    }

    /// Syncs the file, and the folder where a name came or went.
    pub(crate) fn sync(&self, notes: &mut Notes, names: &mut Names) -> Result<(), Fault>
        ensures noted { MatchResult result
            (λ _. noted notes.new ≡ flushed self.now.file ∷ noted notes.old)
            (λ _. noted notes.new ≡ flush_failed self.now.file ∷ noted notes.old) }
        ensures path { path_of names.new ≡ path_of names.old }
    {
        if let Err(error) = self.handle.sync_data() {
            return Err(notes.fail(FailedCall::Sync(self.file), error));
        }
        if let Err(error) = names.sync() {
            return Err(notes.fail(FailedCall::Sync(self.file), error));
        }
        notes.add(&Note::Synced(self.file));
        Ok(())
    }
}

impl Absent {
    ghost use Rattle.host_disk.specs.Names.{path_of};

    /// The length of an absent file.
    pub(crate) fn len(&self, notes: &mut Notes) -> u64
        ensures { noted notes.new ≡ measured self.now.file result ∷ noted notes.old }
    {
        notes.add(&Note::Measured(self.file, 0));
        0
    }

    /// Reads nothing of an absent file.
    pub(crate) fn read(&self, notes: &mut Notes, at: u64, into: &[u8]) -> usize
        ensures within { result ≤ length into.now }
        ensures noted { noted notes.new ≡ gave self.now.file at result into.now ∷ noted notes.old }
    {
        notes.add(&Note::Gave(self.file, at, 0, into));
        0
    }

    /// Cuts nothing of an absent file.
    pub(crate) fn cut(&self, notes: &mut Notes, len: u64)
        ensures { noted notes.new ≡ cut self.now.file len ∷ noted notes.old }
    {
        notes.add(&Note::Cut(self.file, len));
    }

    /// Syncs the folder where a name came or went, so that the file stays absent.
    pub(crate) fn sync(&self, notes: &mut Notes, names: &mut Names) -> Result<(), Fault>
        ensures noted { MatchResult result
            (λ _. noted notes.new ≡ flushed self.now.file ∷ noted notes.old)
            (λ _. noted notes.new ≡ flush_failed self.now.file ∷ noted notes.old) }
        ensures path { path_of names.new ≡ path_of names.old }
    {
        if let Err(error) = names.sync() {
            return Err(notes.fail(FailedCall::Sync(self.file), error));
        }
        notes.add(&Note::Synced(self.file));
        Ok(())
    }
}

/// The files of a folder, in order. Another name is passed over; what has a file's name must be a file.
pub(crate) fn list_files(
    rt: &HostRuntime,
    folder: &FolderPath,
    alloc: Global,
    notes: &mut Notes,
) -> Result<Vec<FileId>, ListFault>
    ensures in_order { IfOk result (λ files. IsStrictlySortedBy file_cmp files.items) }
    ensures noted { MatchResult result
        (λ files. noted notes.new ≡ listed files.items ∷ noted notes.old)
        (λ fault. noted notes.new ≡ after_list_fault fault (noted notes.old)) }
{
    match files_in(rt, alloc, folder.as_str()) {
        Ok(files) => {
            notes.add(&Note::Listed(&files));
            Ok(files)
        }
        Err(error) if error.kind() == io::ErrorKind::OutOfMemory => Err(ListFault::NoMemory),
        Err(error) => {
            let Fault = notes.fail(FailedCall::List, error);
            Err(ListFault::Device)
        }
    }
}

/// The files of an archive that a folder holds, in order. Another name is passed over; what has a file's name and is no file is
/// refused by `Unsupported`, and want of memory by `OutOfMemory`. docs/STORAGE.md, "Files".
fn files_in(rt: &HostRuntime, alloc: Global, folder: &str) -> io::Result<Vec<FileId>>
    ensures { IfOk result (λ files. IsStrictlySortedBy file_cmp files.items) }
{
    let mut found = BTreeSet::new(alloc);
    for entry in fs::read_dir(rt, folder)? {
        if let Some(file) = listed_file(alloc, entry)? {
            if found.insert(file).is_err() {
                return Err(io::ErrorKind::OutOfMemory.into());
            }
        }
    }
    in_order(alloc, &found)
}

/// The file of an entry of the folder, none for another name.
fn listed_file(
    alloc: Global,
    entry: io::Result<DirEntry<HostRuntime>>,
) -> io::Result<Option<FileId>> {
    let entry = match entry {
        Ok(entry) => entry,
        // A name that is no UTF-8 is no file's.
        Err(error) if error.kind() == io::ErrorKind::InvalidFilename => return Ok(None),
        Err(error) => return Err(error),
    };
    let named = file_named(alloc, entry.file_name())?;
    if named.is_none() || entry.file_type()?.is_file() {
        Ok(named)
    } else {
        Err(io::ErrorKind::Unsupported.into())
    }
}

fn in_order(alloc: Global, files: &BTreeSet<FileId>) -> io::Result<Vec<FileId>>
    ensures { IfOk result (λ files. IsStrictlySortedBy file_cmp files.items) }
{
    Ok(files.iter().copied().collect(alloc)?)
}
