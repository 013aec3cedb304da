//! What is shown of a long verification, by a clock of the tests.

use super::scripts::{after, expect};
use archive_commands::{
    ListedFiles, OpeningProgress, Progress, Screen, Verdict, Verifiable, Viewer, Watched,
    verify_recordings,
};
use disk_core::{Disk, FileId, MemoryDisk};
use engine_core::Engine;
use std::alloc::Global;
use std::cell::Cell;
use std::fmt::Display;
use std::io::Eprint;
use std::test::*;
use std::time::{Clock, Duration};
use tool_core::Unobserved;

/// A clock that goes on by 150 milliseconds at each read, and a terminal that counts what is printed, and whether the text that
/// is awaited was among it.
#[derive(Drop)]
struct Desktop<'a> {
    alloc: Global,
    awaited: &'a str,
    has_come: Cell<bool>,
    millis: Cell<u64>,
    printed: Cell<u32>,
}

impl Desktop<'_> {
    fn new(alloc: Global, awaited: &str) -> Desktop<'_> {
        Desktop {
            alloc,
            awaited,
            has_come: Cell::new(false),
            millis: Cell::new(0),
            printed: Cell::new(0),
        }
    }
}

impl Clock for Desktop<'_> {
    fn monotonic(&self) -> std::io::Result<Duration> {
        let now = self.millis.get();
        self.millis.set(now.saturating_add(150));
        Ok(Duration::from_millis(now))
    }

    fn since_1970(&self) -> std::io::Result<Duration> {
        Ok(Duration::ZERO)
    }
}

impl Eprint for Desktop<'_> {
    fn eprint<D: Display + Drop>(&self, value: D) -> std::io::Result<()> {
        self.printed.set(self.printed.get().saturating_add(1));
        if let Ok(text) = value.to_string(self.alloc) {
            if text.as_str() == self.awaited {
                self.has_come.set(true);
            }
        }
        Ok(())
    }

    fn eprintln<D: Display + Drop>(&self, value: D) -> std::io::Result<()> {
        self.eprint(value)
    }
}

const SECOND: FileId = FileId::Segment {
    recording: 1,
    base: 0,
};

/// So many bytes of a file are read, one after another.
fn see<V: Viewer<MemoryDisk>>(viewer: &mut V, file: FileId, count: u64) {
    for at in 0..count {
        viewer.saw(file, at, 1);
    }
}

/// The files of a disk.
fn listed(alloc: Global, disk: MemoryDisk) -> Result<ListedFiles, Fail> {
    let mut disk = disk;
    let files = ListedFiles::of(alloc, &mut disk);
    drop(disk);
    match files {
        Some(files) => Ok(files),
        None => Err(Fail::new("the files were not listed")),
    }
}

/// The disk of an archive with two recordings: one of two frames, which was stopped, and one of a frame, which was not.
fn two_recordings(alloc: Global) -> Result<MemoryDisk, Fail> {
    after(
        alloc,
        "start 1001 7 42 65536 1408 131072 0 1000 c; start 1001 7 42 65536 1408 131072 0 1000 d; block 0 HELLO_AT_0; \
        block 0 HELLO_AT_64; block 1 HELLO_AT_0; stop 0 2000",
    )
}

/// The files of an archive with two recordings.
fn two_listed(alloc: Global) -> Result<ListedFiles, Fail> {
    listed(alloc, two_recordings(alloc)?)
}

/// How often something was printed, and whether the awaited text was, while so many bytes of a file are read; and how often
/// once the line is cleared twice.
fn printed(desktop: &Desktop<'_>, files: ListedFiles, file: FileId) -> (u32, bool, u32) {
    let screen = Screen::new(desktop);
    let mut progress = Progress::new(desktop, &screen, files);
    see(&mut progress, file, 1_792);
    let (times, has_come) = (desktop.printed.get(), desktop.has_come.get());
    screen.clear();
    screen.clear();
    (times, has_come, desktop.printed.get())
}

/// The clock is read at each 256th read: at 0 milliseconds and then each 150, and the line is written at 600 and at 900. The
/// first file has 128 bytes and the second 64.
#[test]
fn the_line_is_written_now_and_then(rt: HostRuntime) -> Result<(), Fail> {
    let files = two_listed(rt.alloc())?;
    let desktop = Desktop::new(rt.alloc(), "\rrecording 1 100 %    0 MB/s\x1b[K");
    let printed = printed(&desktop, files, SECOND);
    assert!(rt; printed == (2, true, 3));
    Ok(())
}

/// The same at reads of no bytes.
fn printed_of_nothing(desktop: &Desktop<'_>, files: ListedFiles) -> (u32, bool) {
    let screen = Screen::new(desktop);
    let mut progress = Progress::new(desktop, &screen, files);
    for _ in 0..1_792 {
        Viewer::<MemoryDisk>::saw(&mut progress, SECOND, 0, 0);
    }
    (desktop.printed.get(), desktop.has_come.get())
}

/// Each further file counts the bytes of those before it.
#[test]
fn the_files_before_count(rt: HostRuntime) -> Result<(), Fail> {
    let files = two_listed(rt.alloc())?;
    let desktop = Desktop::new(rt.alloc(), "\rrecording 1  66 %    0 MB/s\x1b[K");
    let printed = printed_of_nothing(&desktop, files);
    assert!(rt; printed == (2, true));
    Ok(())
}

/// An opening begins at 0 milliseconds, and the clock is read at each file that it syncs. The line is written at 600, 900
/// and 1,200, and no more once the archive is open.
#[test]
fn an_opening_is_shown_once_it_lasts(rt: HostRuntime) {
    let awaited = "\ropening: 6 segment files, 0 bytes of the catalogue\x1b[K";
    let desktop = Desktop::new(rt.alloc(), awaited);
    let screen = Screen::new(&desktop);
    let mut progress = OpeningProgress::new(&desktop, &screen);
    for _ in 0..8 {
        Viewer::<MemoryDisk>::synced(&mut progress, SECOND);
    }
    assert!(rt; desktop.printed.get() == 3 && desktop.has_come.get());
    screen.work();
    see::<OpeningProgress<'_, Desktop<'_>>>(&mut progress, FileId::BankA, 100);
    assert!(rt; desktop.printed.get() == 4);
}

/// Nothing is written of the catalogue's banks by a verification, and no line is cleared that was not written.
#[test]
fn banks_are_not_shown(rt: HostRuntime) -> Result<(), Fail> {
    let files = listed(rt.alloc(), MemoryDisk::new(rt.alloc()))?;
    let desktop = Desktop::new(rt.alloc(), "");
    let printed = printed(&desktop, files, FileId::BankA);
    assert!(rt; printed == (0, false, 0));
    Ok(())
}

/// Counts the bytes that it is told of.
#[derive(Drop)]
struct Counter {
    bytes: u64,
}

impl Viewer<MemoryDisk> for Counter {
    fn saw(&mut self, file: FileId, _at: u64, count: usize) {
        if file != FileId::BankA {
            self.bytes = self.bytes.saturating_add(count as u64);
        }
    }
}

/// Of how many bytes the viewer of an archive's disk was told, where it has one.
fn bytes_told(engine: Engine<Watched<MemoryDisk, Option<Counter>>>) -> Option<u64> {
    let (_, viewer) = engine.into_disk().into_parts();
    viewer.map(|counter| counter.bytes)
}

/// The archive of a disk.
fn opened<D: Disk + Drop>(alloc: Global, disk: D) -> Result<Engine<D>, Fail> {
    match Engine::open(alloc, disk) {
        Ok((engine, _)) => Ok(engine),
        Err(_) => Err(Fail::new("the archive was not opened")),
    }
}

/// What `verify` tells of an archive, and its verdict.
fn verified<A: Verifiable>(alloc: Global, archive: &mut A) -> Result<(Vec<u8>, Verdict), Fail> {
    let mut out = Vec::new(alloc);
    match verify_recordings(alloc, archive, None, &mut out, &mut Unobserved) {
        Ok(verdict) => Ok((out, verdict)),
        Err(_) => Err(Fail::new("the verification ended early")),
    }
}

/// Fails with what `verify` tells of an archive, where it is another text or verdict.
fn check_archive<A: Verifiable>(
    alloc: Global,
    archive: &mut A,
    told: &str,
    verdict: Verdict,
) -> Result<(), Fail> {
    let (out, judged) = verified(alloc, archive)?;
    expect(out.as_slice(), told)?;
    if judged == verdict {
        Ok(())
    } else {
        Err(Fail::new("another verdict"))
    }
}

/// Of how many bytes a viewer is told while two recordings are verified.
fn bytes_verified(alloc: Global) -> Result<Option<u64>, Fail> {
    let disk = Watched::new(two_recordings(alloc)?, Some(Counter { bytes: 0 }));
    let mut engine = opened(alloc, disk)?;
    let told = "verified 2\nverified 1\n";
    let checked = check_archive(alloc, &mut engine, told, Verdict::Whole);
    let bytes = bytes_told(engine);
    checked?;
    Ok(bytes)
}

/// A watched disk gives what it gives unwatched, and its viewer gets each frame's bytes.
#[test]
fn a_watched_disk(rt: HostRuntime) -> Result<(), Fail> {
    let bytes = bytes_verified(rt.alloc())?;
    assert!(rt; bytes.is_some_and(|bytes| bytes >= 3 * 37));
    Ok(())
}
