//! Segment files that are flushed beside the archive's lock, before their sessions settle. docs/SERVING.md, "When a frame is
//! durable"; docs/STORAGE.md, "Folders".

ghost use Rattle.std.specs.Prelude.{◌≡◌, ◌-◌, [], false, length};
ghost use Rattle.server_recorder.specs.Flushing.{TakesLast, given_files};

use disk_core::FileId;
use std::alloc::Global;
use std::io;
use std::sync::atomic::{AtomicBool, Ordering};
use std::sync::{Condvar, Mutex, Wait};

/// Files that are flushed at a time, at most.
pub(crate) const MOST_FLUSHED: usize = 8;

/// Flushes files of an archive's disk beside the archive: by handles of its own, without a call of the archive's. It changes no file.
pub trait Flusher {
    /// How many files it flushes at a time, each by a thread of its own: at most 8. 0 if there is nothing to flush.
    fn width(&self) -> usize;

    /// Waits until what was written to a file is on the disk. A file that is not there is flushed.
    fn flush(&self, file: FileId) -> io::Result<()>;

    /// A flush has failed, and none is made any more. Called once.
    fn failed(&self, file: FileId, error: io::Error);
}

/// Flushes nothing: what is in memory needs none.
#[derive(Clone, Copy, Debug, Drop)]
pub struct Unflushed;

impl Flusher for Unflushed {
    fn width(&self) -> usize {
        0
    }

    fn flush(&self, file: FileId) -> io::Result<()> {
        let _ = file;
        Ok(())
    }

    fn failed(&self, file: FileId, error: io::Error) {
        let _ = (file, error);
    }
}

/// Files on their way from the thread that records to those that flush.
#[derive(Drop)]
pub(crate) struct Flushing {
    work: Mutex<Work>,
    given: Condvar,
    done: Condvar,
    has_failed: AtomicBool,
}

/// What is to be flushed.
#[derive(Drop)]
struct Work {
    /// Files that wait.
    files: Vec<FileId>,
    /// How many wait or are being flushed.
    left: usize,
    /// How many threads flush.
    threads: usize,
    is_over: bool,
}

impl Work {
    /// Takes a file that waits, which is being flushed from now on.
    fn take(&mut self) -> Option<FileId>
        ensures taken { TakesLast self.old.files.items result self.new.files.items }
        ensures same { self.new ≡ record self.old { files = self.new.files } }
    {
        self.files.pop()
    }

    /// A file that was taken was flushed, or could not be.
    fn finish(&mut self)
        ensures { self.new ≡ record self.old { left = self.old.left - 1 } }
    {
        self.left = self.left.saturating_sub(1);
    }

    /// Gives files to those that flush, if any do. How many threads do.
    fn give(&mut self, files: Vec<FileId>) -> usize
        ensures threads { result ≡ self.old.threads }
        ensures given { self.new ≡ given_files files self.old }
    {
        if self.threads > 0 {
            self.left = files.len();
            self.files = files;
        }
        self.threads
    }
}

impl Flushing {
    /// Nothing waits, and no thread flushes. Takes no memory.
    pub(crate) fn new(alloc: Global) -> Flushing {
        let work = Work {
            files: Vec::new(alloc),
            left: 0,
            threads: 0,
            is_over: false,
        };
        Flushing {
            work: Mutex::new(work),
            given: Condvar::new(),
            done: Condvar::new(),
            has_failed: AtomicBool::new(false),
        }
    }

    /// One thread more flushes.
    pub(crate) fn add_thread<R: Wait>(&self, rt: &R) {
        let mut work = self.work.lock(rt);
        work.threads = work.threads.saturating_add(1);
    }

    /// Whether no flush has failed.
    pub(crate) fn works(&self) -> bool {
        !self.has_failed.load(Ordering::SeqCst)
    }

    /// Flushes files, and waits until that is done. How many were flushed one after another; 0 if no thread flushes.
    pub(crate) fn flush<R: Wait>(&self, rt: &R, files: Vec<FileId>) -> usize {
        let count = files.len();
        let threads = self.work.lock(rt).give(files);
        if threads == 0 {
            return 0;
        }
        self.given.notify_all();
        let work = self
            .done
            .wait_while(rt, self.work.lock(rt), |work| work.left > 0);
        let _ = work.is_over;
        count.saturating_add(threads - 1) / threads
    }

    /// Flushes the files that are given, until there are none any more.
    pub(crate) fn serve<R: Wait, F: Flusher>(&self, rt: &R, flusher: &F) {
        for _ in rt.forever() {
            let Some(file) = self.next(rt) else {
                return;
            };
            self.flush_one(flusher, file);
            self.work.lock(rt).finish();
            self.done.notify_all();
        }
    }

    /// Waits for a file, and takes it. None once there are none any more.
    fn next<R: Wait>(&self, rt: &R) -> Option<FileId> {
        let mut work = self.given.wait_while(rt, self.work.lock(rt), |work| {
            work.files.is_empty() && !work.is_over
        });
        work.take()
    }

    /// Flushes a file, if no flush has failed.
    fn flush_one<F: Flusher>(&self, flusher: &F, file: FileId) {
        if !self.works() {
            return;
        }
        if let Err(error) = flusher.flush(file) {
            if !self.has_failed.swap(true, Ordering::SeqCst) {
                flusher.failed(file, error);
            }
        }
    }

    /// There are no more files: the threads that flush end.
    pub(crate) fn end<R: Wait>(&self, rt: &R) {
        self.work.lock(rt).is_over = true;
        self.given.notify_all();
    }
}
