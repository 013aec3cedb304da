//! What a terminal shows of an opening and of a reading of segment files that last. docs/CONTROL.md, "Standard error".

ghost use Rattle.std.specs.Prelude.{◌≡◌, ◌+◌, IfSome, IsTrue};
ghost use Rattle.disk_core.specs.DiskImage.{reads};
ghost use Rattle.disk_core.specs.Life.{IsQuiet};
ghost use Rattle.archive_commands.specs.Progress.{AreListed, bytes_before, bytes_of_files, counted, hundredths, segment_bytes};

use crate::pace::Pace;
use crate::screen::{Screen, Stage};
use crate::watched::Viewer;
use disk_core::{Disk, FileId};
use std::alloc::Global;
use std::io::Eprint;
use std::time::{Clock, Duration};

/// Reads of a disk from one read of the clock to the next.
const READS_PER_CLOCK_READ: u32 = 256;

/// What is read of a disk's segment files, as far as it can be measured.
pub trait Measure {
    /// How many hundredths of it lie before an offset in a segment file, a hundred at most; none where that is not known.
    fn percent_before(&self, file: FileId, end: u64) -> Option<u128>;
}

/// A file of a disk, and its length in bytes: none of a bank.
#[derive(Clone, Copy, Debug, PartialEq, Eq)]
pub(crate) struct ListedFile {
    pub file: FileId,
    pub length: u64,
}

/// All files of a disk, as they rise, with the lengths that its segment files had when they were listed.
#[derive(Drop)]
pub struct ListedFiles {
    files: Vec<ListedFile>,
}

impl ListedFiles {
    /// The files of a disk, as they are now. None where a call of the disk fails or there is no memory for a list of them.
    pub fn of<D: Disk>(alloc: Global, disk: &mut D) -> Option<ListedFiles>
        ensures listed { IfSome result (λ listed. IsTrue (D.life disk.new).obeys →
            AreListed (reads (D.life disk.old).now) listed.files.items) }
        ensures quiet { IsQuiet (D.life disk.old) (D.life disk.new) }
    {
        let files = listed_files(alloc, disk)?;
        Some(ListedFiles { files })
    }
}

impl Measure for ListedFiles {
    fn percent_before(&self, file: FileId, end: u64) -> Option<u128> {
        Some(percent_of(file, end, self.files.as_slice()))
    }
}

/// Shows which recording is read, how many hundredths of what is to be read lie before that, and how many bytes a second were
/// read, once that has lasted half a second: a line that is written anew about five times a second.
#[derive(Drop)]
pub struct Progress<'a, R, M> {
    screen: &'a Screen<'a, R>,
    pace: Pace<'a, R>,
    measure: M,
    /// Reads of the disk since the clock was read.
    reads: u32,
    /// Bytes that were read since the clock was read first.
    read: u64,
}

impl<'a, R: Eprint + Clock, M: Measure> Progress<'a, R, M> {
    /// What is shown of a reading of all that this measures; it begins when the clock is read first.
    pub fn new(clock: &'a R, screen: &'a Screen<'a, R>, measure: M) -> Progress<'a, R, M> {
        Progress {
            screen,
            pace: Pace::new(clock),
            measure,
            reads: 0,
            read: 0,
        }
    }

    /// Reads the clock, and writes the line anew where that is due. `end` is where the last read of the file ended.
    fn time(&mut self, recording: i64, file: FileId, end: u64) {
        if !self.pace.has_begun() {
            self.pace.begin();
            self.read = 0;
            return;
        }
        let Some(lasted) = self.pace.due() else {
            return;
        };
        let Some(percent) = self.measure.percent_before(file, end) else {
            return;
        };
        let rate = megabytes_a_second(self.read, lasted);
        self.screen.show(format_args!("recording {recording} {percent:>3} % {rate:>4} MB/s"));
    }
}

impl<D, R: Eprint + Clock, M: Measure> Viewer<D> for Progress<'_, R, M> {
    fn saw(&mut self, file: FileId, at: u64, count: usize) {
        let FileId::Segment { recording, .. } = file else {
            return;
        };
        self.read = self.read.saturating_add(count as u64);
        self.reads = self.reads.saturating_add(1);
        if self.reads >= READS_PER_CLOCK_READ {
            self.reads = 0;
            self.time(recording, file, at.saturating_add(count as u64));
        }
    }
}

/// Shows how many segment files an opening has synced and how much of the catalogue it has read, once it has lasted half a
/// second: a line that is written anew about five times a second, until the archive is open.
#[derive(Drop)]
pub struct OpeningProgress<'a, R> {
    screen: &'a Screen<'a, R>,
    pace: Pace<'a, R>,
    /// Segment files that were synced.
    synced: u64,
    /// Bytes of the catalogue that were read.
    read: u64,
}

impl<'a, R: Eprint + Clock> OpeningProgress<'a, R> {
    /// What is shown of an opening that begins now.
    pub fn new(clock: &'a R, screen: &'a Screen<'a, R>) -> OpeningProgress<'a, R> {
        let mut pace = Pace::new(clock);
        pace.begin();
        OpeningProgress {
            screen,
            pace,
            synced: 0,
            read: 0,
        }
    }

    /// Reads the clock, and writes the line anew where that is due.
    fn time(&mut self) {
        if self.pace.due().is_some() {
            let OpeningProgress { synced, read, .. } = self;
            self.screen.show(format_args!(
                "opening: {synced} segment files, {read} bytes of the catalogue"
            ));
        }
    }
}

impl<D, R: Eprint + Clock> Viewer<D> for OpeningProgress<'_, R> {
    fn saw(&mut self, file: FileId, _at: u64, count: usize) {
        if self.screen.stage() == Stage::Opening {
            if let FileId::BankA | FileId::BankB = file {
                self.read = self.read.saturating_add(count as u64);
                self.time();
            }
        }
    }

    fn synced(&mut self, file: FileId) {
        if self.screen.stage() == Stage::Opening {
            if let FileId::Segment { .. } = file {
                self.synced = self.synced.saturating_add(1);
                self.time();
            }
        }
    }
}

/// The files of a disk, with the lengths of its segment files.
fn listed_files<D: Disk>(alloc: Global, disk: &mut D) -> Option<Vec<ListedFile>>
    ensures listed { IfSome result (λ files. IsTrue (D.life disk.new).obeys →
        AreListed (reads (D.life disk.old).now) files.items) }
    ensures quiet { IsQuiet (D.life disk.old) (D.life disk.new) }
{
    let files = disk.list().ok()?;
    let mut listed = Vec::new(alloc);
    for file in &files {
        let length = segment_length(disk, *file)?;
        let file = *file;
        listed.push(ListedFile { file, length }).ok()?;
    }
    Some(listed)
}

/// The length of a segment file, and 0 of any other.
fn segment_length<D: Disk>(disk: &mut D, file: FileId) -> Option<u64>
    ensures length { IfSome result (λ length. IsTrue (D.life disk.new).obeys →
        length ≡ segment_bytes (reads (D.life disk.old).now) file) }
    ensures quiet { IsQuiet (D.life disk.old) (D.life disk.new) }
{
    match file {
        FileId::Segment { .. } => disk.len(file).ok(),
        FileId::BankA | FileId::BankB => Some(0),
    }
}

/// How many bytes these files have together, as far as a `u64` counts them.
fn bytes_in(files: &[ListedFile]) -> u64
    ensures { result ≡ counted (bytes_of_files files.now) }
{
    let mut total = 0u64;
    for listed in files {
        total = total.saturating_add(listed.length);
    }
    total
}

/// How many bytes the files before this one have together, as far as a `u64` counts them.
fn bytes_before(file: FileId, files: &[ListedFile]) -> u64
    ensures { result ≡ counted (bytes_before file files.now) }
{
    let mut total = 0u64;
    for listed in files {
        if listed.file.compare(&file).is_eq() {
            return total;
        }
        total = total.saturating_add(listed.length);
    }
    total
}

/// How many hundredths of the bytes of all these files lie before an offset in one of them, a hundred at most.
fn percent_of(file: FileId, end: u64, files: &[ListedFile]) -> u128
    ensures { result ≡ hundredths (counted (bytes_before file files.now) + end) (counted (bytes_of_files files.now)) }
{
    let done = bytes_before(file, files) as u128 + end as u128;
    (done * 100 / (bytes_in(files) as u128).max(1)).min(100)
}

/// Millions of bytes a second.
fn megabytes_a_second(bytes: u64, elapsed: Duration) -> u128 {
    bytes as u128 / elapsed.as_micros().max(1)
}
