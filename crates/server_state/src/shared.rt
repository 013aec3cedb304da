//! What the three threads of a server share, beside the archive.

ghost use Rattle.std.specs.Prelude.{◌≡◌};
ghost use Rattle.server_state.specs.Noting.{opens_session};

use crate::archive_news::ArchiveNews;
use crate::checkpointing::Checkpointing;
use crate::client_news::ClientNews;
use crate::counts::Counts;
use crate::happening::Happening;
use crate::image_news::ImageNews;
use crate::listing::images_text;
use crate::measuring::recordings_of;
use crate::meter::Meter;
use crate::naming::named_word;
use crate::noting::settle;
use crate::open_sends::OpenSends;
use crate::origins::{Found, Origin, Origins};
use crate::pairing::{FedSession, ImageKey, Misfit, Pairing};
use crate::place_counts::PlaceCounts;
use crate::place_news::PlaceNews;
use crate::publication_holes::SeenHoles;
use crate::queue::Queue;
use crate::replays_open::OpenReplays;
use crate::reporter::Reporter;
use crate::resume_news::ResumeNews;
use crate::resuming::{Resumes, Stand, is_resumable};
use crate::session_news::SessionNews;
use crate::settle_notice::SettleNotice;
use archive_model::Reply;
use control_core::Event;
use frame_core::{Publication, Refusal};
use metrics_text::{DatagramMeasures, ImageMeasures, Measures};
use std::alloc::{AllocError, Global};
use std::net::{SocketAddr, UdpSocket};
use std::sync::atomic::{AtomicBool, AtomicU8, Ordering};
use std::sync::{Mutex, Wait};
use stream_pairs::{FED_SESSIONS, ImageNumber, MAX_IMAGES, Pairs, Place, Seat, StreamPoint};
use tool_core::{CheckpointOutcome, HistoryUse};

/// An image that waits for a session.
#[derive(Clone, Copy, Drop)]
pub struct WaitingImage {
    /// Its place and its number.
    pub key: ImageKey,
    /// Where it joined.
    pub point: StreamPoint,
    /// Who sent its setup frame.
    pub sender: Option<SocketAddr>,
    /// Whether it may go on before that.
    pub resumes: Resumes,
    /// What the recording thread found for it.
    pub found: Found,
    /// Whether it has a block.
    pub has_block: bool,
}

/// An image that goes on where a recording stands, before its publication's setup frame.
#[derive(Clone, Copy, Drop)]
pub struct Resumption {
    /// The image.
    pub image: WaitingImage,
    /// Where the recording stands.
    pub stand: Stand,
}

/// What the thread that receives measures of datagrams.
#[derive(Clone, Copy, Debug, PartialEq, Eq)]
pub struct ReceivedMeasures {
    /// Datagrams that changed nothing.
    pub dropped: u64,
    /// Datagrams that came late or again.
    pub repeats: u64,
    /// Status messages that were sent.
    pub status_messages: u64,
}

/// How a server goes on.
#[derive(Clone, Copy, Debug, PartialEq, Eq)]
pub struct SharedOptions {
    /// Whether places of images and seats of sessions are given back.
    pub gives_back: bool,
    /// Whether the server ends once its archive can record nothing any more.
    pub is_strict: bool,
    /// Whether it is measured.
    pub is_measured: bool,
    /// Whether it makes checkpoints.
    pub makes_checkpoints: bool,
}

/// What the threads share. A method takes one lock at most, and reports what happened when it has none.
#[derive(Drop)]
pub struct Shared<T> {
    pairing: Mutex<Pairing>,
    /// Where images come from, by their places.
    origins: Mutex<Origins>,
    /// Blocks on their way.
    pub queue: Queue,
    /// Wakes those who wait until something more is settled.
    pub settles: SettleNotice,
    /// What is counted.
    pub counts: Counts,
    /// What is counted of datagrams that are not taken, and of publications without a place.
    pub places: PlaceCounts,
    /// Holes that were seen, by publication.
    holes: Mutex<SeenHoles>,
    /// What is counted for the metrics alone.
    pub meter: Meter,
    /// When checkpoints are made.
    pub checkpointing: Checkpointing,
    /// Which replays are open.
    pub replays: OpenReplays,
    /// Which recordings are sent.
    pub sends: OpenSends,
    ends: AtomicBool,
    looks_round: AtomicBool,
    holds: AtomicBool,
    /// Calls that make entries are made and noted one after another.
    pub turn: Mutex<()>,
    has_faulted: AtomicBool,
    history: AtomicU8,
    /// Whether places of images and seats of sessions are given back.
    gives_back: bool,
    /// Whether the server ends once its archive can record nothing any more.
    is_strict: bool,
    has_stopped: AtomicBool,
    reporter: T,
}

impl<T: Reporter> Shared<T> {
    /// Nothing came yet. Costs memory for tables and for 64 blocks.
    pub fn new(alloc: Global, options: SharedOptions, reporter: T) -> Result<Shared<T>, AllocError>
    where
        T: Drop,
    {
        let Ok(pairs) = Pairs::new(alloc) else {
            return Err(AllocError);
        };
        Ok(Shared {
            pairing: Mutex::new(Pairing::new(pairs, options.gives_back)),
            origins: Mutex::new(Origins::new()),
            queue: Queue::new(alloc)?,
            settles: SettleNotice::new(),
            counts: Counts::new(alloc)?,
            places: PlaceCounts::new(),
            holes: Mutex::new(SeenHoles::new()),
            meter: Meter::new(options.is_measured),
            checkpointing: Checkpointing::new(options.makes_checkpoints),
            replays: OpenReplays::new(alloc),
            sends: OpenSends::new(alloc),
            ends: AtomicBool::new(false),
            looks_round: AtomicBool::new(false),
            holds: AtomicBool::new(false),
            turn: Mutex::new(()),
            has_faulted: AtomicBool::new(false),
            history: AtomicU8::new(0),
            gives_back: options.gives_back,
            is_strict: options.is_strict,
            has_stopped: AtomicBool::new(false),
            reporter,
        })
    }

    /// Reports what happened.
    pub fn report(&self, happening: &Happening<'_>) {
        self.reporter.report(happening);
    }

    /// Reports something of a publication that came back, and counts it.
    pub fn report_resume<R: Wait>(&self, rt: &R, news: ResumeNews) {
        match &news {
            ResumeNews::Resumes { .. } => self.counts.resumed.add(1),
            ResumeNews::Filled { bytes, .. } => self.counts.resumed_bytes.add(*bytes),
            ResumeNews::Hole {
                publication,
                from,
                to,
                ..
            } => {
                let bytes = to.saturating_sub(*from).unsigned_abs();
                self.counts.holes.add(1);
                self.counts.hole_bytes.add(bytes);
                self.holes.lock(rt).add(*publication, bytes);
            }
            ResumeNews::WentBack { .. } => {}
            ResumeNews::HolesStand { .. } => {}
        }
        self.report(&Happening::Resume(news));
    }

    /// Bytes of holes of a publication that were seen since the server began. The last 64 publications with a hole are kept.
    pub fn hole_bytes<R: Wait>(&self, rt: &R, publication: &Publication) -> u64 {
        self.holes.lock(rt).bytes_of(publication)
    }

    /// So many recordings stand, which is reported where they become many.
    pub fn note_recordings(&self, count: usize) {
        if self.places.note_recordings(count) {
            self.report(&Happening::Place(PlaceNews::Recordings { count }));
        }
    }

    /// Reports the end, with what was counted.
    pub fn report_end(&self) {
        let counted = self.counts.all();
        self.report(&Happening::Ended(counted));
    }

    /// A client's call was answered so: which word is wrong is reported, if it is a start that is BadParameter.
    pub fn report_wrong_word(&self, event: &Event, outcome: &Result<Reply, Refusal>) {
        if let Some(word) = named_word(event, outcome) {
            self.report(&Happening::Client(ClientNews::WrongWord(word)));
        }
    }

    /// Milliseconds between two times that the server is measured.
    pub fn measures_every(&self) -> u64 {
        self.reporter.measures_every()
    }

    /// Hands on what is measured of the server, with what the thread that receives has measured. Without memory nothing is.
    pub fn report_measures<R: Wait>(
        &self,
        rt: &R,
        alloc: Global,
        received: ReceivedMeasures,
        images: Vec<ImageMeasures>,
    ) {
        if let Ok(measures) = self.measures(rt, alloc, received, images) {
            self.reporter.measured(&measures);
        }
    }

    fn measures<R: Wait>(
        &self,
        rt: &R,
        alloc: Global,
        received: ReceivedMeasures,
        images: Vec<ImageMeasures>,
    ) -> Result<Measures, AllocError> {
        let recordings = recordings_of(alloc, &self.pairing.lock(rt).pairs)?;
        let counted = self.counts.all();
        Ok(Measures {
            archive: self.meter.archive(),
            recorder: self.meter.recorder(rt, counted.all.recorded),
            datagrams: DatagramMeasures {
                received: counted.datagrams,
                dropped: received.dropped,
                lost: counted.all.lost,
                repeats: received.repeats,
                naks: counted.all.requests,
                status_messages: received.status_messages,
                images: counted.images,
            },
            resumes: self.counts.resumes(),
            places: self.places.measures(),
            clients: self
                .meter
                .clients(counted.connections, self.replays.count(rt)),
            recordings,
            replays: self.replays.measures(rt, alloc)?,
            images,
            sending: self.sends.counted(rt),
            sends: self.sends.measures(rt, alloc)?,
        })
    }

    /// The image at a place: its number.
    pub fn key_at<R: Wait>(&self, rt: &R, place: Place) -> Option<ImageKey> {
        self.pairing.lock(rt).key_at(place)
    }

    /// Whether the server ends.
    pub fn has_ended(&self) -> bool {
        self.ends.load(Ordering::SeqCst)
    }

    /// Whether places of images and seats of sessions are given back.
    pub fn gives_back(&self) -> bool
        ensures { result ≡ self.now.gives_back }
    {
        self.gives_back
    }

    /// Whether the server ends once its archive can record nothing any more.
    pub fn is_strict(&self) -> bool
        ensures { result ≡ self.now.is_strict }
    {
        self.is_strict
    }

    /// The archive can record nothing any more: no further line is read from now on, as after a `quit`.
    pub fn stop(&self) {
        self.has_stopped.store(true, Ordering::SeqCst);
    }

    /// Whether the server ends since its archive can record nothing any more.
    pub fn has_stopped(&self) -> bool {
        self.has_stopped.load(Ordering::SeqCst)
    }

    /// The server ends from now on; who sleeps on the socket is woken.
    pub fn end(&self, socket: &UdpSocket) {
        self.ends.store(true, Ordering::SeqCst);
        wake(socket);
    }

    /// The thread that receives is to look for blocks of all images; it is woken, unless it is on its way to that.
    pub fn look_round(&self, socket: &UdpSocket) {
        if !self.looks_round.swap(true, Ordering::SeqCst) {
            wake(socket);
        }
    }

    /// A sender is held back by what is not settled: the thread that receives is to look round after a settle.
    pub fn hold(&self) {
        self.holds.store(true, Ordering::SeqCst);
    }

    /// Whether one is; asked again none is, until there is a next one.
    pub fn takes_hold(&self) -> bool {
        self.holds.swap(false, Ordering::SeqCst)
    }

    /// Whether it is to look for blocks of all images; asked again it is not, until there is a next round.
    pub fn takes_round(&self) -> bool {
        self.looks_round.swap(false, Ordering::SeqCst)
    }

    /// A call was answered so: the pairs follow it, and what follows from it is reported. Whether a session was opened.
    pub fn note<R: Wait>(&self, rt: &R, event: &Event, outcome: &Result<Reply, Refusal>) -> bool
        ensures { result ≡ opens_session outcome.now }
    {
        match outcome {
            Ok(reply) => {
                self.pairing.lock(rt).note(event, reply);
                match reply {
                    Reply::Started { session, .. } | Reply::Extended { session } => {
                        self.report_session(rt, *session);
                        true
                    }
                    Reply::Settled { .. } => {
                        self.settles.note(rt);
                        false
                    }
                    _ => false,
                }
            }
            Err(refusal) => {
                self.note_refusal(refusal);
                false
            }
        }
    }

    fn report_session<R: Wait>(&self, rt: &R, session: i64) {
        self.report_pairs(rt);
        self.report_misfits(rt);
        if self.gives_back {
            self.report_seat(rt, session);
        } else if session == FED_SESSIONS as i64 - 1 {
            self.report(&Happening::Session(SessionNews::Last));
        }
    }

    /// Reports a session that has no seat.
    fn report_seat<R: Wait>(&self, rt: &R, session: i64) {
        let seat = self.pairing.lock(rt).pairs.seat_of(session);
        if seat.is_none() {
            self.report(&Happening::Session(SessionNews::NoSeat { session }));
        }
    }

    /// Reports a device fault, the first time.
    pub fn note_refusal(&self, refusal: &Refusal) {
        if *refusal == Refusal::DeviceFault && !self.has_faulted.swap(true, Ordering::SeqCst) {
            self.report(&Happening::Archive(ArchiveNews::DeviceFault));
        }
    }

    /// So many entries of the history count, and so many may: reported at 90, 95 and 99 hundredths, each once.
    pub fn note_history(&self, counted: u64, limit: u32) {
        self.meter.set_history(counted, limit);
        self.checkpointing.note(counted, limit);
        let history = HistoryUse { counted, limit };
        let level = history.level();
        if level > 0 && self.history.fetch_max(level, Ordering::SeqCst) < level {
            self.report(&Happening::Archive(ArchiveNews::HistoryUsed(history)));
        }
    }

    /// A checkpoint ended so, with which so many entries count, of so many that may. It is reported if it was made, and each
    /// cause of a refusal once. Warnings of a history that fills up come again after one that was made.
    pub fn note_checkpoint(&self, outcome: &CheckpointOutcome, counted: u64, limit: u32) {
        match outcome {
            CheckpointOutcome::Made { .. } => {
                self.history.store(0, Ordering::SeqCst);
                self.meter.checkpoints.add(1);
            }
            CheckpointOutcome::Refused(cause) => {
                self.note_refusal(cause);
                self.meter.refused_checkpoints.add(1);
            }
        }
        if self.checkpointing.ended(outcome, counted, limit) {
            self.report(&Happening::Archive(ArchiveNews::Checkpoint(*outcome)));
        }
    }

    /// An image joined, whose setup frame came from there, and which may go on before that, or not. Its place and its number.
    pub fn joined<R: Wait>(
        &self,
        rt: &R,
        point: StreamPoint,
        sender: Option<SocketAddr>,
        resumes: Resumes,
    ) -> Option<ImageKey> {
        let place = self.pairing.lock(rt).pairs.joined(point)?;
        let key = self.key_at(rt, place)?;
        let origin = Origin {
            number: key.number,
            sender,
            resumes,
            found: Found::Unasked,
            is_refused: false,
            has_block: false,
        };
        self.origins.lock(rt).put(place, origin);
        let count = self.pairing.lock(rt).pairs.image_count();
        self.counts.images.add(1);
        if count == MAX_IMAGES {
            self.report(if self.gives_back {
                &Happening::Image(ImageNews::AllPlacesTaken)
            } else {
                &Happening::Image(ImageNews::Last)
            });
        }
        Some(key)
    }

    /// The place of an image is given back.
    pub fn left<R: Wait>(&self, rt: &R, place: Place) {
        let key = self.pairing.lock(rt).key_at(place);
        self.pairing.lock(rt).pairs.left(place);
        if let Some(key) = key {
            let counted = self.counts.counted(place);
            self.counts.leave(place);
            self.report(&Happening::Image(ImageNews::Left {
                image: key.number,
                counted,
            }));
        }
    }

    /// The image at a place, if it waits for a session.
    pub fn waiting<R: Wait>(&self, rt: &R, place: Place) -> Option<WaitingImage> {
        let image = self.pairing.lock(rt).waiting(place)?;
        let key = ImageKey {
            place,
            number: image.number,
        };
        let origin = self.origins.lock(rt).of(&key)?;
        Some(WaitingImage {
            key,
            point: image.join,
            sender: origin.sender,
            resumes: origin.resumes,
            found: origin.found,
            has_block: origin.has_block,
        })
    }

    /// The image at a place, if it waits for a session and may go on before its setup frame, and where: where the recording
    /// thread found a recording of it, or where an open session without an image stands.
    pub fn resumption<R: Wait>(&self, rt: &R, place: Place) -> Option<Resumption> {
        let image = self.waiting(rt, place)?;
        if !image.resumes.may_resume() {
            return None;
        }
        let stand = match image.found {
            Found::Stands(stand) => stand,
            _ => self.pairing.lock(rt).stand_for(&image.point)?,
        };
        Some(Resumption { image, stand })
    }

    /// The image at a place has its first block. Whether it waits for a session.
    pub fn filled<R: Wait>(&self, rt: &R, place: Place) -> bool {
        match self.waiting(rt, place) {
            Some(image) => {
                self.origins.lock(rt).fill(&image.key);
                true
            }
            None => false,
        }
    }

    /// Whether a recording begins with the first block of the image at a place.
    pub fn begins<R: Wait>(&self, rt: &R, place: Place) -> bool {
        match self.waiting(rt, place) {
            Some(image) => image.found == Found::Nothing,
            None => false,
        }
    }

    /// Up to where the session is settled, in bytes of the stream, that the image at a place feeds, if it is open.
    pub fn settled_of<R: Wait>(&self, rt: &R, place: Place) -> Option<i64> {
        self.pairing.lock(rt).settled_of(place)
    }

    /// Whether an open session is of a publication.
    pub fn has_open_session<R: Wait>(&self, rt: &R, publication: &Publication) -> bool {
        self.pairing.lock(rt).pairs.has_open_session(publication)
    }

    /// The recording thread has found this for an image, if it is at its place still.
    pub fn found<R: Wait>(&self, rt: &R, key: &ImageKey, found: Found) {
        self.origins.lock(rt).note(key, found);
    }

    /// Where the image at a place comes from.
    pub fn origin_at<R: Wait>(&self, rt: &R, place: Place) -> Option<Origin> {
        let key = self.key_at(rt, place)?;
        self.origins.lock(rt).of(&key)
    }

    /// Whether the place of an image may be given back, whether it is live or not: it was lost, or its session has ended.
    pub fn is_over<R: Wait>(&self, rt: &R, place: Place) -> bool {
        self.pairing.lock(rt).is_over(place)
    }

    /// Reports the pairs that were not reported.
    pub fn report_pairs<R: Wait>(&self, rt: &R) {
        for _ in 0..FED_SESSIONS {
            let Some((seat, image)) = self.pairing.lock(rt).next_unreported() else {
                return;
            };
            let fed = self.pairing.lock(rt).seated_session(seat);
            if let Some(fed) = fed {
                let session = fed.session;
                self.report(&Happening::Session(SessionNews::Paired { image, session }));
            }
        }
    }

    /// Reports the images and sessions of one publication that don't fit and were not reported.
    pub fn report_misfits<R: Wait>(&self, rt: &R) {
        for _ in 0..FED_SESSIONS {
            let Some(misfit) = self.pairing.lock(rt).next_misfit() else {
                return;
            };
            if self.is_resumed(rt, &misfit) {
                continue;
            }
            self.report(&Happening::Session(SessionNews::Misfit {
                image: misfit.image,
                session: misfit.session,
                joined: misfit.joined,
                recorded: misfit.recorded,
            }));
        }
    }

    /// Whether the image of a misfit goes on where the recording stands, before its setup frame.
    fn is_resumed<R: Wait>(&self, rt: &R, misfit: &Misfit) -> bool {
        if !self.gives_back || !is_resumable(&misfit.joined, &misfit.recorded) {
            return false;
        }
        let place = self
            .pairing
            .lock(rt)
            .pairs
            .image_of(&misfit.joined.publication);
        match place {
            Some(place) => match self.origin_at(rt, place) {
                Some(origin) => origin.resumes.may_resume(),
                None => true,
            },
            None => false,
        }
    }

    /// The image at a place, if it feeds a session.
    pub fn feeding<R: Wait>(&self, rt: &R, place: Place) -> Option<ImageKey> {
        let pairing = self.pairing.lock(rt);
        pairing.pairs.session_of_image(place)?;
        pairing.key_at(place)
    }

    /// The session that an image feeds.
    pub fn session_of<R: Wait>(&self, rt: &R, image: &ImageKey) -> Option<FedSession> {
        self.pairing.lock(rt).session_of(image)
    }

    /// The seat of the session that the image at a place feeds.
    pub fn seat_of<R: Wait>(&self, rt: &R, place: Place) -> Option<Seat> {
        self.pairing.lock(rt).pairs.session_of_image(place)
    }

    /// A line for each image, and a line with how many there are.
    pub fn images_text<R: Wait>(&self, rt: &R, alloc: Global) -> Result<String, AllocError> {
        images_text(alloc, &self.pairing.lock(rt).pairs)
    }

    /// A session settled, and is recorded up to a position.
    pub fn settled<R: Wait>(&self, rt: &R, session: i64, position: i64) {
        settle(&mut self.pairing.lock(rt).pairs, session, position);
        self.settles.note(rt);
    }

    /// The open session that writes a recording is to settle at once, if there is one. Its seat. Waits for nothing.
    pub fn ask_writer<R: Wait>(&self, rt: &R, recording: i64) -> Option<Seat> {
        let seat = self.pairing.lock(rt).pairs.writer_of(recording);
        if let Some(seat) = seat {
            self.queue.ask(rt, seat);
        }
        seat
    }

    /// The open session that writes a recording settles at once, if there is one. Waits until it has, or the recording thread
    /// has ended.
    pub fn settle_writer<R: Wait>(&self, rt: &R, recording: i64) {
        if let Some(seat) = self.ask_writer(rt, recording) {
            self.queue.wait_for_settling(rt, seat);
        }
    }

    /// Waits for a settling of the open session that writes a recording, if one was asked for and is not made yet.
    pub fn await_writer<R: Wait>(&self, rt: &R, recording: i64) {
        let seat = self.pairing.lock(rt).pairs.writer_of(recording);
        if let Some(seat) = seat {
            self.queue.wait_for_settling(rt, seat);
        }
    }

    /// A session was refused: it loses its image, if it has one.
    pub fn refused<R: Wait>(&self, rt: &R, session: i64, cause: Refusal) {
        self.note_refusal(&cause);
        let lost = self.pairing.lock(rt).refused(session);
        if let Some(lost) = lost {
            self.origins.lock(rt).refuse(&lost);
            self.report(&Happening::Session(SessionNews::Lost {
                image: lost.number,
                session,
                cause,
                counted: self.counts.counted(lost.place),
            }));
        }
    }
}

/// An empty datagram to the socket's own port. Where it is lost, the socket's time-out wakes who sleeps.
fn wake(socket: &UdpSocket) {
    if let Ok(address) = socket.local_addr() {
        let _ = socket.send_to(&[], address);
    }
}
