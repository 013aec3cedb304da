//! When recordings stood where, as a server writes it into files of a folder. docs/SERVING.md, "When a frame was recorded".

use crate::log::{Level, Log, now};
use crate::times_files::{add_to, last_line_of, make_with, path_of};
use crate::why::TimesFault;
use archive_model::Registration;
use archive_view::{ArchiveView, ReadOnly};
use host_disk::ReadFolder;
use metrics_text::RecordingMeasures;
use recorded_times::{TimesLine, TimesName, added_text, due_line};
use server::Openings;
use std::fs;
use std::io::{self, Eprint, ErrorKind};
use std::rt::Clock;

/// Milliseconds between two looks at the archive at least.
const LOOKS: u64 = 1_000;
/// Causes of faults that are reported at most.
const REPORTED_CAUSES: usize = 8;

/// A recording whose positions are noted.
#[derive(Clone, Copy)]
struct Noted {
    name: TimesName,
    /// The last line of its file.
    last: Option<TimesLine>,
    /// Whether its file ends with a whole line since it was opened.
    is_begun: bool,
}

/// Notes where recordings stand, each in a file of its own in a folder.
#[derive(Drop)]
pub(crate) struct TimesWriter<'a, R> {
    log: Log<'a, R>,
    rt: HostRuntime,
    folder: &'a str,
    /// Milliseconds between two lines of a recording at least.
    every: u64,
    /// Whether the folder was looked for.
    has_looked: bool,
    noted: Vec<Noted>,
    /// When the archive was looked at last.
    looked_at: Option<u64>,
    /// The causes of faults that were reported.
    reported: Vec<i32>,
}

impl<'a, R: Eprint + Clock> TimesWriter<'a, R> {
    /// Nothing is noted yet.
    pub(crate) fn new(
        log: Log<'a, R>,
        rt: HostRuntime,
        folder: &'a str,
        every: u64,
    ) -> TimesWriter<'a, R> {
        TimesWriter {
            log,
            rt,
            folder,
            every,
            has_looked: false,
            noted: Vec::new(rt.alloc()),
            looked_at: None,
            reported: Vec::new(rt.alloc()),
        }
    }

    /// Notes where recordings stand now that are active. The archive is looked at for those that came or ended.
    pub(crate) fn note<O: Openings<ReadFolder>>(
        &mut self,
        archive: &O,
        recordings: &[RecordingMeasures],
    ) {
        self.look_for_folder();
        let now = now(&self.rt).unsigned_abs();
        if self.is_to_look(recordings, now) {
            self.looked_at = Some(now);
            self.look(archive, recordings, now);
        }
        for index in 0..self.noted.len() {
            if let Some(position) = self.position_of(index, recordings) {
                self.add(index, position, now, self.every);
            }
        }
    }

    /// Reports, the first time, if the folder can't be read, as one that is not there.
    fn look_for_folder(&mut self) {
        if self.has_looked {
            return;
        }
        self.has_looked = true;
        if let Err(error) = fs::read_dir(&self.rt, self.folder) {
            self.report(None, error);
        }
    }

    /// Notes where the recordings stand at the end.
    pub(crate) fn finish<O: Openings<ReadFolder>>(&mut self, archive: &O) {
        let now = now(&self.rt).unsigned_abs();
        self.look(archive, &[], now);
    }

    /// Whether a recording came or ended, and the last look was not just now.
    fn is_to_look(&self, recordings: &[RecordingMeasures], now: u64) -> bool {
        if let Some(looked_at) = self.looked_at {
            if looked_at <= now && now - looked_at < LOOKS {
                return false;
            }
        }
        self.noted.iter().any(|noted| measured_of(recordings, noted.name.recording).is_none())
            || recordings
                .iter()
                .any(|measured| self.index_of(measured.recording).is_none())
    }

    /// Looks at the archive: recordings that came are noted from now on; those that ended get their last line.
    fn look<O: Openings<ReadFolder>>(
        &mut self,
        archive: &O,
        recordings: &[RecordingMeasures],
        now: u64,
    ) {
        let alloc = self.rt.alloc();
        let Some(disk) = archive.open_again(alloc) else {
            return;
        };
        let Ok(view) = ArchiveView::open(alloc, ReadOnly::new(disk)) else {
            return;
        };
        for registration in view.desk().recordings() {
            self.follow(registration, recordings, now);
        }
        self.noted.retain(|noted| measured_of(recordings, noted.name.recording).is_some());
    }

    /// Follows a recording of the archive: begins if it is active and not noted, and gives it its last line if it has ended.
    fn follow(&mut self, registration: &Registration, recordings: &[RecordingMeasures], now: u64) {
        let Ok(recording) = u64::try_from(registration.descriptor.recording) else {
            return;
        };
        let is_active = measured_of(recordings, recording).is_some();
        match self.index_of(registration.descriptor.recording) {
            None if is_active => self.begin(TimesName {
                recording,
                start_timestamp: registration.descriptor.start_timestamp,
            }),
            Some(index) if !is_active => {
                if let Ok(position) = u64::try_from(registration.recorded) {
                    self.add(index, position, now, 0);
                }
            }
            _ => {}
        }
    }

    /// Notes a recording from now on, past what its file has.
    fn begin(&mut self, name: TimesName) {
        let last = match path_of(self.rt.alloc(), self.folder, name) {
            Ok(path) => last_line_of(&self.rt, path.as_str()),
            Err(_) => Err(ErrorKind::OutOfMemory.into()),
        };
        match last {
            Ok(last) => {
                // Without memory it is looked for again.
                let _ = self.noted.push(Noted {
                    name,
                    last,
                    is_begun: false,
                });
            }
            Err(error) => self.report(Some(name), error),
        }
    }

    /// Adds a line for a recording that stands at a position, if one is due.
    fn add(&mut self, index: usize, position: u64, now: u64, every: u64) {
        let Some(noted) = self.noted.get(index).copied() else {
            return;
        };
        let Some(line) = due_line(noted.last, position, now, every) else {
            return;
        };
        let written = self.write(&noted, &line);
        if let Some(noted) = self.noted.get_mut(index) {
            noted.is_begun = written.is_ok();
            if written.is_ok() {
                noted.last = Some(line);
            }
        }
        if let Err(error) = written {
            self.report(Some(noted.name), error);
        }
    }

    /// Writes a line of a recording. Its file is made if it is not there.
    fn write(&self, noted: &Noted, line: &TimesLine) -> io::Result<()> {
        let alloc = self.rt.alloc();
        let path = path_of(alloc, self.folder, noted.name)?;
        let text = added_text(alloc, noted.is_begun, line)?;
        match add_to(&self.rt, path.as_str(), text.as_slice()) {
            Err(error) if error.kind() == ErrorKind::NotFound => {
                let first = added_text(alloc, true, line)?;
                make_with(&self.rt, path.as_str(), first.as_slice())
            }
            added => added,
        }
    }

    /// Reports a fault, once for each cause.
    fn report(&mut self, name: Option<TimesName>, error: io::Error) {
        let cause = error.raw_os_error().unwrap_or(0);
        if self.reported.len() >= REPORTED_CAUSES || self.reported.contains(&cause) {
            return;
        }
        let _ = self.reported.push(cause);
        self.log.print(Level::Error, TimesFault(name, error));
    }

    /// Where a noted recording stands, if it is measured.
    fn position_of(&self, index: usize, recordings: &[RecordingMeasures]) -> Option<u64> {
        let noted = self.noted.get(index)?;
        let measured = measured_of(recordings, noted.name.recording)?;
        u64::try_from(measured.recorded).ok()
    }

    /// Which of those that are noted a recording is.
    fn index_of(&self, recording: i64) -> Option<usize> {
        let recording = u64::try_from(recording).ok()?;
        self.noted
            .iter()
            .position(|noted| noted.name.recording == recording)
    }
}

/// What was measured of a recording.
fn measured_of(recordings: &[RecordingMeasures], recording: u64) -> Option<&RecordingMeasures> {
    recordings
        .iter()
        .find(|measured| is_of(measured, recording))
}

/// Whether measures are of a recording.
fn is_of(measured: &RecordingMeasures, recording: u64) -> bool {
    measured.recording >= 0 && measured.recording.unsigned_abs() == recording
}
