//! Segment files of a served folder that are flushed beside the archive. docs/SERVING.md, "When a frame is durable";
//! docs/STORAGE.md, "Folders".

use crate::log::{Level, Log};
use crate::why::SystemText;
use disk_core::FileId;
use host_disk::ReadFolder;
use server::{Flusher, Openings};
use std::alloc::Global;
use std::fmt;
use std::fs::{self, File};
use std::io::{self, Eprint, ErrorKind};
use std::marker::{Brand, PhantomData};
use std::path::Path;
use std::rt::Clock;

/// Files that are flushed at a time.
const FLUSHED: usize = 8;

/// Names what nobody can tell when a folder is opened again.
pub(crate) trait Found {
    ghost use Rattle.host_disk.specs.Events.{Given};

    /// What the folder holds then.
    ghost given: { Given };
}

impl Found for Brand {
    ghost use Rattle.std.specs.Prelude.{[]};

    ghost given = { record { held = []; left = [] } };
}

/// Flushes files of a folder, each by a second opening, and reports on standard error that a flush has failed. It opens the folder
/// again for each who reads beside the archive.
#[derive(Drop)]
pub(crate) struct FolderFlusher<'a, R, G: Found> {
    log: Log<'a, R>,
    rt: HostRuntime,
    folder: &'a str,
    found: PhantomData<G>,
}

impl<'a, R, G: Found> FolderFlusher<'a, R, G> {
    /// Flushes files of the folder of a path.
    pub(crate) fn new(
        log: Log<'a, R>,
        rt: HostRuntime,
        folder: Path<'a>,
    ) -> FolderFlusher<'a, R, G> {
        FolderFlusher {
            log,
            rt,
            folder: folder.as_str(),
            found: PhantomData,
        }
    }
}

impl<R, G: Found> Openings<ReadFolder> for FolderFlusher<'_, R, G> {
    fn can_open(&self) -> bool {
        true
    }

    fn open_again(&self, alloc: Global) -> Option<ReadFolder> {
        ReadFolder::open(self.rt, alloc, Path::new(self.folder)).ok()
    }
}

impl<R: Eprint + Clock, G: Found> Flusher for FolderFlusher<'_, R, G> {
    fn width(&self) -> usize {
        FLUSHED
    }

    fn flush(&self, file: FileId) -> io::Result<()> {
        let Ok(path) = format!(in self.rt.alloc(); "{}/{file}", self.folder) else {
            return Err(io::Error::from(ErrorKind::OutOfMemory));
        };
        match flush_file(&self.rt, path.as_str()) {
            // A purge has removed it since.
            Err(error) if error.kind() == ErrorKind::NotFound => Ok(()),
            flushed => flushed,
        }
    }

    fn failed(&self, file: FileId, error: io::Error) {
        self.log.print(Level::Error, FlushFault(file, error));
    }
}

/// Opens a file for reading alone, and flushes it. Whatever else has that name is refused: a link is not followed.
fn flush_file(rt: &HostRuntime, path: &str) -> io::Result<()> {
    if !fs::symlink_metadata(rt, path)?.is_file() {
        return Err(ErrorKind::Unsupported.into());
    }
    File::open(rt, path)?.sync_data()
}

/// A flush that failed as `0-131072.rec: flush: Input/output error; no more files are flushed before they are settled`.
#[derive(Clone, Copy, Drop)]
struct FlushFault(FileId, io::Error);

impl fmt::Display for FlushFault {
    fn fmt<W: fmt::Write>(&self, f: &mut fmt::Formatter<W>) -> fmt::Result {
        let (file, text) = (self.0, SystemText(self.1));
        write!(
            f,
            "{file}: flush: {text}; no more files are flushed before they are settled"
        )
    }
}
