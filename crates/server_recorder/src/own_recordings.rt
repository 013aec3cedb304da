//! Recordings that the server starts by itself. docs/SERVING.md, "Recording without being asked".

ghost use Rattle.std.specs.Prelude.{◌≡◌, None, replicate, slice_set};
ghost use Rattle.server_recorder.specs.Opening.{is_past};
ghost use Rattle.server_recorder.specs.Seats.{MakesCall};

use crate::checkpoints::keep_short;
use crate::opening::{Opening, OwnRecording, is_left_empty, opening_for};
use crate::recording::Recording;
use crate::seats::Seats;
use crate::standing_holes::standing_holes;
use crate::streams::{extend_fields, finding_for, stand_before, start_fields};
use crate::tokens::Tokens;
use archive_lock::{Naming, Standing};
use archive_model::{Channel, Descriptor, Reply, SourceIdentity};
use control_core::{Event, Request};
use disk_core::Disk;
use frame_core::limits::MAX_LIST;
use frame_core::{Items, Refusal};
use server_state::{
    Found, Happening, HoleCause, ImageNews, PlaceNews, Reporter, ResumeNews, Resumes, Shared,
    Stand, Taken, WaitingImage, resume_reach,
};
use std::alloc::{AllocError, Global};
use std::net::SocketAddr;
use std::rt::Clock;
use std::sync::Wait;
use std::time::SystemTime;
use stream_pairs::{ImageNumber, MAX_IMAGES, Place, StreamPoint};

/// Milliseconds of an hour.
const HOUR: u64 = 3_600_000;
/// Milliseconds between two looks for how many recordings stand.
const COUNTING: u64 = 10_000;

/// Recordings that the server starts by itself, by the places of their images.
#[derive(Clone, Copy)]
pub struct OwnRecordings {
    /// Bytes of a segment, or fewer than a term has.
    segment_length: i32,
    recordings: [Option<OwnRecording>; MAX_IMAGES],
    /// By place why the image that is there is not recorded, as it was reported last.
    refused: [Option<Refusal>; MAX_IMAGES],
    /// When it was reported last that there are as many recordings as there may be, in milliseconds.
    full_at: Option<u64>,
    /// How many recordings may begin.
    tokens: Tokens,
    /// By place the image that waits since no recording may begin, as it was reported last.
    late: [Option<ImageNumber>; MAX_IMAGES],
}

impl OwnRecordings {
    /// No recording. One that is started has segments of so many bytes, or of a term if that is longer.
    pub fn new(segment_length: i32) -> OwnRecordings
        ensures { result ≡ record {
          segment_length = segment_length;
          recordings = replicate 64 None;
          refused = replicate 64 None;
          full_at = None;
          tokens = record { left = 64; since = 0 };
          late = replicate 64 None;
        } }
    {
        OwnRecordings {
            segment_length,
            recordings: [None; MAX_IMAGES],
            refused: [None; MAX_IMAGES],
            full_at: None,
            tokens: Tokens::new(),
            late: [None; MAX_IMAGES],
        }
    }

    /// Stops the recordings of images that leave, and records those that are asked for.
    pub fn follow<D: Disk, A: Naming, R: Wait + Clock, T: Reporter>(
        &mut self,
        with: &Recording<'_, D, A, R, T>,
        seats: &mut Seats<A>,
        taken: &Taken,
        now: Option<u64>,
    ) {
        for place in 0..MAX_IMAGES {
            if taken.leaving[place] {
                self.stop(with, seats, place);
            } else if taken.records[place] {
                self.record(with, seats, place, now);
            }
        }
    }

    /// Records the image at a place, if it feeds no session: by an extension of a stopped recording, or a new one. Reports it;
    /// a refusal once for an image and cause. An image whose publication's last recording stands before its setup frame is not
    /// recorded yet: it is to begin anew there.
    fn record<D: Disk, A: Naming, R: Wait + Clock, T: Reporter>(
        &mut self,
        with: &Recording<'_, D, A, R, T>,
        seats: &mut Seats<A>,
        place: Place,
        now: Option<u64>,
    ) {
        let Some(image) = with.shared.waiting(with.rt, place) else {
            return;
        };
        let may_begin = self.may_begin(now);
        match open(with, seats, &image, may_begin, self.segment_length) {
            Ok(Opened::Recorded { own, before }) => {
                self.note_begun(own.begun_at.is_some(), now);
                self.set(place, Some(own), None);
                found(with, &image, Found::Recorded);
                with.shared.report(&Happening::Image(ImageNews::Recorded {
                    image: image.key.number,
                    recording: own.recording,
                }));
                report_before(with, &image, before);
                self.stop_if_left(with, seats, &image);
            }
            Ok(Opened::StandsBefore(stand)) => found(with, &image, Found::Stands(stand)),
            Ok(Opened::AwaitsBlock) => found(with, &image, Found::Nothing),
            Ok(Opened::IsLate) => self.report_late(with, &image),
            Err(cause) => {
                with.shared.found(with.rt, &image.key, Found::Refused);
                self.report(with, place, &image, cause, now);
            }
        }
    }

    /// Whether a recording may begin now. Without a clock it may.
    fn may_begin(&self, now: Option<u64>) -> bool {
        match now {
            Some(now) => self.tokens.has_one(now),
            None => true,
        }
    }

    /// A recording was opened; a new one counts.
    fn note_begun(&mut self, is_new: bool, now: Option<u64>) {
        if let Some(now) = now {
            if is_new {
                self.tokens.take(now);
            }
        }
    }

    /// Reports an image for which no recording may begin yet, once.
    fn report_late<D: Disk, A: Naming, R: Wait + Clock, T: Reporter>(
        &mut self,
        with: &Recording<'_, D, A, R, T>,
        image: &WaitingImage,
    ) {
        let place = image.key.place;
        let number = Some(image.key.number);
        if place < MAX_IMAGES && self.late[place] != number {
            self.late[place] = number;
            let image = image.key.number;
            with.shared.places.late.add(1);
            with.shared
                .report(&Happening::Image(ImageNews::TooManyBegun { image }));
        }
    }

    fn report<D: Disk, A: Naming, R: Wait + Clock, T: Reporter>(
        &mut self,
        with: &Recording<'_, D, A, R, T>,
        place: Place,
        image: &WaitingImage,
        cause: Refusal,
        now: Option<u64>,
    ) {
        if self.refused(place) != Some(cause) {
            with.shared.places.refuse(cause);
        }
        if self.is_new(place, cause, now) {
            self.set(place, None, Some(cause));
            with.shared.report(&Happening::Image(ImageNews::NotRecorded {
                image: image.key.number,
                cause,
            }));
        }
    }

    /// An image that has left meanwhile: its recording is stopped.
    fn stop_if_left<D: Disk, A: Naming, R: Wait + Clock, T: Reporter>(
        &mut self,
        with: &Recording<'_, D, A, R, T>,
        seats: &mut Seats<A>,
        image: &WaitingImage,
    ) {
        let place = image.key.place;
        if with.shared.key_at(with.rt, place) != Some(image.key) {
            self.stop(with, seats, place);
        }
    }

    /// The image at a place leaves: its recording is stopped, if the server writes it. One that the server began, and by which nothing
    /// was recorded, is purged.
    fn stop<D: Disk, A: Naming, R: Wait + Clock, T: Reporter>(
        &mut self,
        with: &Recording<'_, D, A, R, T>,
        seats: &mut Seats<A>,
        place: Place,
    ) {
        let own = self.recording(place);
        self.set(place, None, None);
        if let Some(own) = own {
            let (is_purged, standing) = stop_own(with, seats, &own);
            if let Some(standing) = standing {
                keep_short(with, seats, &standing);
            }
            if is_purged {
                with.shared.report(&Happening::Place(PlaceNews::Purged {
                    recording: own.recording,
                }));
            }
        }
    }

    /// Whether a refusal is to be reported: it is another one for the image, or says once more after an hour that there are as
    /// many recordings as there may be.
    fn is_new(&mut self, place: Place, cause: Refusal, now: Option<u64>) -> bool {
        let is_late = cause == Refusal::MaxRecordings && self.is_hour_past(now);
        if is_late {
            self.full_at = now;
        }
        is_late || self.refused(place) != Some(cause)
    }

    /// Whether an hour has passed since it was reported that there are as many recordings as there may be.
    fn is_hour_past(&self, now: Option<u64>) -> bool {
        is_past(HOUR, self.full_at, now)
    }

    fn recording(&self, place: Place) -> Option<OwnRecording> {
        match self.recordings.get(place) {
            Some(recording) => *recording,
            None => None,
        }
    }

    fn refused(&self, place: Place) -> Option<Refusal> {
        match self.refused.get(place) {
            Some(refused) => *refused,
            None => None,
        }
    }

    fn set(&mut self, place: Place, recording: Option<OwnRecording>, refused: Option<Refusal>)
        ensures { self.new ≡ record self.old {
          recordings = slice_set self.old.recordings place recording;
          refused = slice_set self.old.refused place refused;
        } }
    {
        if place < MAX_IMAGES {
            self.recordings[place] = recording;
            self.refused[place] = refused;
        }
    }
}

/// Whether so many milliseconds have passed since a time. So it is if that is not known.
pub(crate) fn is_past(millis: u64, last: Option<u64>, now: Option<u64>) -> bool
    ensures { result ≡ is_past millis last now }
{
    match (last, now) {
        (Some(last), Some(now)) => millis <= now.saturating_sub(last),
        _ => true,
    }
}

/// What came of an image that waits to be recorded.
#[derive(Clone, Copy)]
enum Opened {
    /// A recording was opened for it.
    Recorded {
        /// The recording.
        own: OwnRecording,
        /// Where the last recording of its publication ends, if this is a new one.
        before: Option<Stand>,
    },
    /// The last recording of its publication stands before its setup frame.
    StandsBefore(Stand),
    /// A recording begins with its first block.
    AwaitsBlock,
    /// A recording would begin, but as many have begun as may within a short time.
    IsLate,
}

/// Opens a session for an image that waits, unless it is to begin anew before, has no block, or no recording may begin.
fn open<D: Disk, A: Naming, R: Wait + Clock, T: Reporter>(
    with: &Recording<'_, D, A, R, T>,
    seats: &mut Seats<A>,
    image: &WaitingImage,
    may_begin: bool,
    segment_length: i32,
) -> Result<Opened, Refusal> {
    let point = &image.point;
    let recordings = listed(with, seats)?;
    let finding = finding_for(recordings.as_slice(), point, image.resumes);
    match opening_for(finding, image.has_block, may_begin) {
        Opening::GoesOn(recording) => {
            let fields = extend_fields(recording, point);
            call(with, seats, &Event::Ask(Request::Extend(fields)))?;
            let begun_at = None;
            Ok(Opened::Recorded {
                own: OwnRecording {
                    recording,
                    begun_at,
                },
                before: None,
            })
        }
        Opening::ResumesAt(stand) => Ok(Opened::StandsBefore(stand)),
        Opening::AwaitsBlock => Ok(Opened::AwaitsBlock),
        Opening::IsLate => Ok(Opened::IsLate),
        Opening::Starts => {
            let before = stand_before(recordings.as_slice(), point);
            let recording = start(with, seats, point, image.sender, segment_length)?;
            let begun_at = Some(point.position);
            Ok(Opened::Recorded {
                own: OwnRecording {
                    recording,
                    begun_at,
                },
                before,
            })
        }
    }
}

/// For how long the thread waits at most, so that it counts recordings in time for the metrics.
pub(crate) fn wait_to_count<T: Reporter>(shared: &Shared<T>, wait: Option<u64>) -> Option<u64> {
    if shared.meter.is_on() {
        Some(wait.unwrap_or(COUNTING).min(COUNTING))
    } else {
        wait
    }
}

/// How many recordings stand is noted, if it is time for it.
pub(crate) fn count_recordings<D: Disk, A: Naming, R: Wait + Clock, T: Reporter>(
    with: &Recording<'_, D, A, R, T>,
    seats: &mut Seats<A>,
    now: Option<u64>,
    counted: &mut Option<u64>,
) {
    if is_past(COUNTING, *counted, now) {
        *counted = now;
        let _ = listed(with, seats);
    }
}

/// Reports the holes that stand between recordings of one publication, if there are any. Without `--aeron` none are looked for.
pub(crate) fn report_standing_holes<D: Disk, A: Naming, R: Wait + Clock, T: Reporter>(
    with: &Recording<'_, D, A, R, T>,
    seats: &mut Seats<A>,
) {
    if !with.shared.gives_back() {
        return;
    }
    if let Ok(recordings) = listed(with, seats) {
        let holes = standing_holes(recordings.as_slice());
        let (count, bytes) = (holes.count, holes.bytes);
        if count > 0 {
            let news = ResumeNews::HolesStand { count, bytes };
            with.shared.report_resume(with.rt, news);
        }
    }
}

/// All recordings, by rising id. How many there are is noted.
fn listed<D: Disk, A: Naming, R: Wait + Clock, T: Reporter>(
    with: &Recording<'_, D, A, R, T>,
    seats: &mut Seats<A>,
) -> Result<Items<Descriptor>, Refusal> {
    let all = Request::List {
        from: 0,
        count: MAX_LIST,
    };
    match call(with, seats, &Event::Ask(all))? {
        Reply::Recordings(recordings) => {
            with.shared.note_recordings(recordings.len());
            Ok(recordings)
        }
        _ => Ok(Items::new(with.alloc)),
    }
}

/// The thread that receives is told what was found for an image.
fn found<D: Disk, A: Naming, R: Wait, T: Reporter>(
    with: &Recording<'_, D, A, R, T>,
    image: &WaitingImage,
    found: Found,
) {
    with.shared.found(with.rt, &image.key, found);
    with.shared.look_round(with.socket);
}

/// Reports what a new recording of a publication misses after the last one, or that the publication went back before its end.
fn report_before<D: Disk, A: Naming, R: Wait, T: Reporter>(
    with: &Recording<'_, D, A, R, T>,
    image: &WaitingImage,
    before: Option<Stand>,
) {
    let Some(stand) = before else {
        return;
    };
    let point = &image.point;
    let publication = point.publication;
    let news = if stand.position < point.position {
        ResumeNews::Hole {
            publication,
            from: stand.position,
            to: point.position,
            cause: hole_cause(image),
        }
    } else {
        ResumeNews::WentBack {
            publication,
            at: point.position,
            recording: stand.recording,
            end: stand.position,
        }
    };
    with.shared.report_resume(with.rt, news);
}

/// Why a publication does not go on where its last recording ends.
fn hole_cause(image: &WaitingImage) -> HoleCause {
    match image.resumes {
        Resumes::Yes => HoleCause::TooFar(resume_reach(&image.point.geometry)),
        Resumes::NoRepeat => HoleCause::NoRepeat,
        Resumes::WasLost => HoleCause::WasLost,
    }
}

/// Starts a recording at a point: its id. Without a source, if the catalogue keeps none.
fn start<D: Disk, A: Naming, R: Wait + Clock, T: Reporter>(
    with: &Recording<'_, D, A, R, T>,
    seats: &mut Seats<A>,
    point: &StreamPoint,
    sender: Option<SocketAddr>,
    segment_length: i32,
) -> Result<i64, Refusal> {
    let source = source_of(with.alloc, sender)?;
    match start_from(with, seats, point, source, segment_length) {
        Err(Refusal::NeedCompact) => {
            let none = SourceIdentity::none(with.alloc);
            start_from(with, seats, point, none, segment_length)
        }
        outcome => outcome,
    }
}

fn start_from<D: Disk, A: Naming, R: Wait + Clock, T: Reporter>(
    with: &Recording<'_, D, A, R, T>,
    seats: &mut Seats<A>,
    point: &StreamPoint,
    source: SourceIdentity,
    segment_length: i32,
) -> Result<i64, Refusal> {
    let channel = channel_of(with.alloc, with.socket.local_addr().ok())?;
    let time = milliseconds(with.rt);
    let fields = start_fields(point, segment_length, time, channel, source);
    match call(with, seats, &Event::Ask(Request::Start(fields)))? {
        Reply::Started { recording, .. } => Ok(recording),
        _ => Err(Refusal::BadParameter),
    }
}

/// Makes a call by the pass of the seats, and notes its answer and where the archive stands after it. A checkpoint follows if the
/// call leaves one due.
fn call<D: Disk, A: Naming, R: Wait, T: Reporter>(
    with: &Recording<'_, D, A, R, T>,
    seats: &mut Seats<A>,
    event: &Event,
) -> Result<Reply, Refusal> {
    let (outcome, standing) = noted_call(with, seats, event);
    if let Some(standing) = standing {
        keep_short(with, seats, &standing);
    }
    outcome
}

/// Makes a call by the pass of the seats, and notes its answer, before or after each other call that is noted. Where the archive
/// stands after it.
fn noted_call<D: Disk, A: Naming, R: Wait, T: Reporter>(
    with: &Recording<'_, D, A, R, T>,
    seats: &mut Seats<A>,
    event: &Event,
) -> (Result<Reply, Refusal>, Option<Standing>)
    ensures { MakesCall D.life A.opening event.now seats.old result seats.new }
{
    let _turn = with.shared.turn.lock(with.rt);
    call_in_turn(with, seats, event)
}

/// The same within a turn.
fn call_in_turn<D: Disk, A: Naming, R: Wait, T: Reporter>(
    with: &Recording<'_, D, A, R, T>,
    seats: &mut Seats<A>,
    event: &Event,
) -> (Result<Reply, Refusal>, Option<Standing>)
    ensures { MakesCall D.life A.opening event.now seats.old result seats.new }
{
    let (outcome, standing) = seats.call(with.rt, with.alloc, with.archive, event);
    with.shared.note(with.rt, event, &outcome);
    (outcome, standing)
}

/// Stops a recording that the server writes, and purges it in the same turn if the server began it and nothing was recorded by it.
/// Whether it is purged, and where the archive stands.
fn stop_own<D: Disk, A: Naming, R: Wait + Clock, T: Reporter>(
    with: &Recording<'_, D, A, R, T>,
    seats: &mut Seats<A>,
    own: &OwnRecording,
) -> (bool, Option<Standing>) {
    let recording = own.recording;
    let timestamp = milliseconds(with.rt);
    let stop = Event::Ask(Request::Stop {
        recording,
        timestamp,
    });
    let _turn = with.shared.turn.lock(with.rt);
    let (outcome, standing) = call_in_turn(with, seats, &stop);
    if !is_left_empty(own, &outcome) {
        return (false, standing);
    }
    let purge = Event::Ask(Request::PurgeRecording { recording });
    let (outcome, standing) = call_in_turn(with, seats, &purge);
    (outcome.is_ok(), standing)
}

/// The channel of what comes to an address.
fn channel_of(alloc: Global, address: Option<SocketAddr>) -> Result<Channel, AllocError> {
    let text = match address {
        Some(address) => format!(in alloc; "aeron:udp?endpoint={address}")?,
        None => String::from_str(alloc, "aeron:udp")?,
    };
    Ok(Channel::new(text))
}

/// The source of what comes from an address.
fn source_of(alloc: Global, sender: Option<SocketAddr>) -> Result<SourceIdentity, AllocError> {
    match sender {
        Some(sender) => Ok(SourceIdentity::new(format!(in alloc; "{sender}")?)),
        None => Ok(SourceIdentity::none(alloc)),
    }
}

/// Milliseconds since 1970. 0 if the clock can't be read.
fn milliseconds(clock: &impl Clock) -> i64 {
    let Ok(now) = SystemTime::now(clock) else {
        return 0;
    };
    match now.duration_since(SystemTime::UNIX_EPOCH) {
        Ok(gone) => i64::try_from(gone.as_millis()).unwrap_or(i64::MAX),
        Err(_) => 0,
    }
}
