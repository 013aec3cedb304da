//! What is reported on standard error while a command runs. docs/CONTROL.md, "Standard error".

use crate::open_folder::OpenFolder;
use crate::why::{FaultLine, file_of, word_of};
use archive_commands::{Screen, Stage, Viewer};
use archive_model::{Registration, Reply};
use control_core::{Event, Request};
use control_lines::{Line, parse_line};
use disk_core::FileId;
use frame_core::{Refusal, segment_base};
use host_disk::LastFault;
use start_faults::{StartWord, wrong_word};
use std::alloc::Global;
use std::io::Eprint;
use tool_core::{Beginning, CheckpointOutcome, HistoryUse, Observer};

/// Reports each call of a folder that fails, once for each file and cause.
#[derive(Drop)]
pub(crate) struct FaultReporter<'a, R> {
    screen: &'a Screen<'a, R>,
    from: Stage,
    reported: Vec<LastFault>,
}

impl<'a, R: Eprint> FaultReporter<'a, R> {
    /// Reports the calls that fail from this stage of the command on.
    pub(crate) fn new(
        alloc: Global,
        screen: &'a Screen<'a, R>,
        from: Stage,
    ) -> FaultReporter<'a, R> {
        FaultReporter {
            screen,
            from,
            reported: Vec::new(alloc),
        }
    }
}

impl<R: Eprint> FaultReporter<'_, R> {
    /// Reports a call that failed, unless it was reported.
    fn report(&mut self, fault: Option<LastFault>) {
        if self.from == Stage::Working && self.screen.stage() == Stage::Opening {
            return;
        }
        let Some(fault) = fault else {
            return;
        };
        if self
            .reported
            .iter()
            .any(|reported| is_same(reported, &fault))
        {
            return;
        }
        // Where there is no memory for it, it may be reported again.
        let _ = self.reported.push(fault);
        self.screen.report(FaultLine(fault));
    }
}

impl<F: OpenFolder, R: Eprint> Viewer<F> for FaultReporter<'_, R> {
    fn failed(&mut self, folder: &F) {
        self.report(folder.fault());
    }
}

/// Whether two faults are of one file, and have one cause.
pub(crate) fn is_same(first: &LastFault, second: &LastFault) -> bool {
    file_of(first.call) == file_of(second.call)
        && word_of(first.call) == word_of(second.call)
        && first.error.raw_os_error() == second.error.raw_os_error()
        && first.error.kind() == second.error.kind()
}

/// Reports nothing, but takes away the line that shows an opening.
#[derive(Drop)]
pub(crate) struct OpeningReporter<'a, R> {
    screen: &'a Screen<'a, R>,
}

impl<'a, R: Eprint> OpeningReporter<'a, R> {
    pub(crate) fn new(screen: &'a Screen<'a, R>) -> OpeningReporter<'a, R> {
        OpeningReporter { screen }
    }
}

impl<R: Eprint> Observer for OpeningReporter<'_, R> {
    fn began(&mut self, _beginning: &Beginning) {
        self.screen.work();
    }
}

/// Reports which word of a script's start is wrong.
#[derive(Drop)]
pub(crate) struct StartReporter<'a, R> {
    alloc: Global,
    screen: &'a Screen<'a, R>,
}

impl<'a, R: Eprint> StartReporter<'a, R> {
    pub(crate) fn new(alloc: Global, screen: &'a Screen<'a, R>) -> StartReporter<'a, R> {
        StartReporter { alloc, screen }
    }
}

impl<R: Eprint> Observer for StartReporter<'_, R> {
    fn answered(&mut self, line: Option<&[u8]>, outcome: &Result<Reply, Refusal>) {
        let (Some(line), Err(Refusal::BadParameter)) = (line, outcome) else {
            return;
        };
        if let Some(word) = word_of_line(self.alloc, line) {
            self.screen.report(word);
        }
    }
}

/// The word that is wrong in a line that starts a recording.
fn word_of_line(alloc: Global, line: &[u8]) -> Option<StartWord> {
    match parse_line(alloc, line) {
        Ok(Line::Event(Event::Ask(Request::Start(fields)))) => wrong_word(&fields),
        _ => None,
    }
}

/// Reports how a script's archive began, that its history fills up, that it is full, what became of checkpoints, and which word of
/// a start is wrong.
#[derive(Drop)]
pub(crate) struct ScriptReporter<'a, R> {
    screen: &'a Screen<'a, R>,
    starts: StartReporter<'a, R>,
    /// The hundredths of the history's limit that were reported last.
    reported_level: u8,
    has_reported_full: bool,
    /// Why checkpoints were refused, as it was reported.
    reported_causes: Vec<Refusal>,
}

impl<'a, R: Eprint> ScriptReporter<'a, R> {
    pub(crate) fn new(alloc: Global, screen: &'a Screen<'a, R>) -> ScriptReporter<'a, R> {
        ScriptReporter {
            screen,
            starts: StartReporter::new(alloc, screen),
            reported_level: 0,
            has_reported_full: false,
            reported_causes: Vec::new(alloc),
        }
    }
}

impl<R: Eprint> Observer for ScriptReporter<'_, R> {
    fn began(&mut self, beginning: &Beginning) {
        self.screen.work();
        match beginning {
            Beginning::Made => self
                .screen
                .report("a new archive was made, as the folder had none"),
            Beginning::Opened => {}
            Beginning::Refused(refusal) => {
                self.screen.report_refusal(refusal);
                self.screen.report(
                    "the archive is not open: lines that need it are Broken until reopen opens it",
                );
            }
        }
    }

    fn answered(&mut self, line: Option<&[u8]>, outcome: &Result<Reply, Refusal>) {
        self.starts.answered(line, outcome);
        if let Err(Refusal::HistoryFull) = outcome {
            if !self.has_reported_full {
                self.has_reported_full = true;
                self.screen.report(
                    "the history is full: nothing is recorded until compact makes room, which stops all recordings",
                );
            }
        }
    }

    /// Warnings come again after a checkpoint that was made. Each cause of a refusal is reported once.
    fn checkpointed(&mut self, outcome: &CheckpointOutcome) {
        match outcome {
            CheckpointOutcome::Made { .. } => {
                self.reported_level = 0;
                self.has_reported_full = false;
            }
            CheckpointOutcome::Refused(cause) => {
                if self.reported_causes.contains(cause) {
                    return;
                }
                // Where there is no memory for it, it may be reported again.
                let _ = self.reported_causes.push(*cause);
            }
        }
        self.screen.report(*outcome);
    }

    fn used(&mut self, history: &HistoryUse) {
        let level = history.level();
        if level > self.reported_level {
            self.reported_level = level;
            self.screen.report(*history);
        }
    }
}

/// Reports what a verification found of each damaged recording, and at its end of all.
#[derive(Drop)]
pub(crate) struct VerifyReporter<'a, R> {
    screen: &'a Screen<'a, R>,
    recordings: u64,
    frames: u64,
    bytes: u64,
    damaged: u64,
    unread: u64,
}

impl<'a, R: Eprint> VerifyReporter<'a, R> {
    pub(crate) fn new(screen: &'a Screen<'a, R>) -> VerifyReporter<'a, R> {
        VerifyReporter {
            screen,
            recordings: 0,
            frames: 0,
            bytes: 0,
            damaged: 0,
            unread: 0,
        }
    }

    /// Reports how many recordings there are, how many frames and bytes those have that were verified, and how many are
    /// damaged or could not be read.
    pub(crate) fn finish(self) {
        let VerifyReporter {
            screen,
            recordings,
            frames,
            bytes,
            damaged,
            unread,
        } = self;
        screen.report(format_args!(
            "recordings {recordings}, frames {frames}, bytes {bytes}, damaged {damaged}, not read {unread}"
        ));
    }
}

impl<R: Eprint> Observer for VerifyReporter<'_, R> {
    fn began(&mut self, _beginning: &Beginning) {
        self.screen.work();
    }

    fn verified(&mut self, known: &Registration, outcome: &Result<Reply, Refusal>) {
        self.recordings = self.recordings.saturating_add(1);
        match outcome {
            Ok(Reply::Verified { frames }) => {
                let bytes = known
                    .recorded
                    .saturating_sub(known.descriptor.start_position);
                self.frames = self.frames.saturating_add(frames.unsigned_abs());
                self.bytes = self.bytes.saturating_add(bytes.unsigned_abs());
            }
            Err(Refusal::Damaged { position, .. }) => {
                self.damaged = self.damaged.saturating_add(1);
                if let Some((file, offset)) = stored_at(known, *position) {
                    self.screen
                        .report(format_args!("{file}: damaged at offset {offset}"));
                }
            }
            _ => self.unread = self.unread.saturating_add(1),
        }
    }
}

/// The segment file in which a position of a recording is stored, and the offset in it.
fn stored_at(known: &Registration, position: i64) -> Option<(FileId, u64)> {
    let descriptor = &known.descriptor;
    let start = u64::try_from(descriptor.start_position).ok()?;
    let term_length = u32::try_from(descriptor.term_length).ok()?;
    let segment_length = u32::try_from(descriptor.segment_length).ok()?;
    let position = u64::try_from(position).ok()?;
    if term_length == 0 || segment_length == 0 || position < start {
        return None;
    }
    let base = segment_base(start, term_length, segment_length, position);
    let file = FileId::Segment {
        recording: descriptor.recording,
        base: i64::try_from(base).ok()?,
    };
    Some((file, position.saturating_sub(base)))
}
