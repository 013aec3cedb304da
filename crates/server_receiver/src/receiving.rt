//! The thread that receives datagrams. docs/ARCHITECTURE.md, "Serving".

use crate::admission::{Course, Courses};
use crate::ages::Ages;
use crate::ends::UdpEnd;
use crate::giving::{give, give_all, give_round};
use crate::images::{DatagramOutcome, Images};
use crate::leaving::Leaving;
use crate::metering::Metering;
use crate::networks::Networks;
use crate::no_places::NoPlaces;
use crate::recorded_streams::is_recorded_stream;
use crate::resuming::ResumedImages;
use crate::senders::Senders;
use crate::standing::{GapTold, StandingGaps};
use crate::strangers::Strangers;
use crate::unresumed::UnresumedPublications;
use recorder_seats::DatagramEnd;
use server_state::{GapNews, Happening, ImageNews, Reporter, Resumes, Shared, Stopwatch};
use std::alloc::Global;
use std::net::{SocketAddr, UdpSocket};
use std::rt::Clock;
use std::sync::Wait;
use stream_pairs::{ImageNumber, Place, StreamPoint};

/// Milliseconds between two looks for what is due to senders.
pub const TENDING: u64 = 10;
/// Milliseconds between two looks for images that have to leave.
const SEEING_OFF: u64 = 10;
/// Milliseconds between two looks for images that wait to be recorded.
const RECORDING: u64 = 1_000;
/// Milliseconds between two looks for gaps that stand.
const WATCHING: u64 = 1_000;

/// What the thread that receives works with.
#[derive(Drop)]
pub struct Reception<'a, R, T> {
    pub(crate) rt: &'a R,
    alloc: Global,
    pub(crate) shared: &'a Shared<T>,
    pub(crate) end: UdpEnd<'a>,
    pub(crate) images: Images,
    /// The senders of images, if the server is a receiver of the public standard.
    pub(crate) senders: Option<Senders>,
    /// Streams whose publications are recorded without being asked.
    pub(crate) streams: &'a [i32],
    /// The networks that datagrams are taken from.
    networks: Networks,
    /// Images that leave.
    pub(crate) leaving: Leaving,
    watch: Stopwatch,
    /// When it is looked next for what is due to senders.
    tends_at: u64,
    /// When it is looked next for images that have to leave.
    sees_off_at: u64,
    /// When it is looked next for images that wait to be recorded.
    records_at: u64,
    /// Images that resume.
    pub(crate) resumed: ResumedImages,
    /// Publications that don't resume for a while.
    pub(crate) unresumed: UnresumedPublications,
    /// Which images something came for from another address.
    pub(crate) strangers: Strangers,
    /// How images are recorded.
    pub(crate) courses: Courses,
    /// Since when images are there.
    pub(crate) ages: Ages,
    /// Publications that got no place.
    pub(crate) no_places: NoPlaces,
    /// Gaps of images.
    gaps: StandingGaps,
    /// When it is looked next for gaps that stand.
    watches_at: u64,
    pub(crate) metering: Metering,
}

impl<'a, R: Wait + Clock, T: Reporter> Reception<'a, R, T> {
    /// Nothing was received.
    pub fn new(
        rt: &'a R,
        alloc: Global,
        shared: &'a Shared<T>,
        socket: &'a UdpSocket,
        images: Images,
        senders: Option<Senders>,
        streams: &'a [i32],
        networks: Networks,
    ) -> Reception<'a, R, T> {
        Reception {
            rt,
            alloc,
            shared,
            end: UdpEnd::new(socket),
            images,
            senders,
            streams,
            networks,
            leaving: Leaving::new(),
            watch: Stopwatch::new(rt),
            tends_at: 0,
            sees_off_at: 0,
            records_at: 0,
            resumed: ResumedImages::new(),
            unresumed: UnresumedPublications::new(),
            strangers: Strangers::new(),
            courses: Courses::new(),
            ages: Ages::new(),
            no_places: NoPlaces::new(),
            gaps: StandingGaps::new(),
            watches_at: 0,
            metering: Metering::new(),
        }
    }

    /// Receives datagrams until the server ends, and then hands on all blocks that sessions have. False if no more can be
    /// received.
    pub fn receive_all(&mut self, buffer: &mut [u8]) -> bool {
        let mut first = 0;
        let mut is_whole = true;
        for _ in self.rt.forever() {
            let Some(count) = self.end.receive(buffer) else {
                is_whole = self.shared.has_ended();
                break;
            };
            if self.shared.has_ended() {
                break;
            }
            let now = self.now();
            let is_round = self.shared.takes_round();
            if is_round {
                self.return_all(now);
                first = give_round(self.rt, self.shared, &mut self.images, &self.leaving, first);
            }
            self.take(&buffer[..count], now);
            self.tend_by_time(is_round, now);
            self.see_off_by_time(now);
            self.record_by_time(now);
            self.watch_gaps_by_time(now);
            self.measure_by_time(now);
        }
        give_all(self.rt, self.shared, &mut self.images, &self.leaving);
        is_whole
    }

    /// Milliseconds since the thread began, if the server is a receiver of the public standard. None if the clock can't be read.
    fn now(&self) -> Option<u64> {
        if self.senders.is_some() {
            self.watch.read(self.rt)
        } else {
            None
        }
    }

    /// Takes a datagram, and answers it. An empty one is not a datagram.
    fn take(&mut self, datagram: &[u8], now: Option<u64>) {
        if datagram.is_empty() {
            return;
        }
        self.shared.counts.datagrams.add(1);
        if !self.networks.takes(self.end.sender()) {
            self.shared.places.foreign.add(1);
            return;
        }
        if self.take_strange(datagram, now) {
            return;
        }
        let mut outcome = self.take_into_images(datagram, now);
        if self.shared.meter.is_on() {
            self.metering.note(&outcome, datagram, &self.images);
        }
        match outcome {
            DatagramOutcome::Joined { place, point } => {
                let (sender, resumes) = (self.end.sender(), self.resumes(&point, now));
                self.note_joined(point, sender, resumes);
                self.ages.join(place, now.unwrap_or(0));
                outcome = self.joined_outcome(place, outcome, now);
            }
            DatagramOutcome::Frames { place, is_lost } => self.note_frames(place, is_lost),
            _ => {}
        }
        if self.senders.is_some() {
            self.answer(&outcome, now);
        } else {
            self.ask(&outcome);
        }
    }

    /// What the setup frame of a new image came to: the image begins anew where an open session stands, or is to be recorded.
    fn joined_outcome(
        &mut self,
        place: Place,
        outcome: DatagramOutcome,
        now: Option<u64>,
    ) -> DatagramOutcome {
        let returned = match now {
            Some(now) => self.return_image(place, now),
            None => None,
        };
        match returned {
            Some(returned) => returned,
            None => {
                self.ask_to_record(place);
                outcome
            }
        }
    }

    /// Whether a publication that joined may go on before its setup frame.
    fn resumes(&self, point: &StreamPoint, now: Option<u64>) -> Resumes {
        match now {
            Some(now) => self.unresumed.resumes(&point.publication, now),
            None => Resumes::NoRepeat,
        }
    }

    /// An image joined.
    pub(crate) fn note_joined(
        &mut self,
        point: StreamPoint,
        sender: Option<SocketAddr>,
        resumes: Resumes,
    ) {
        if let Some(joined) = self.shared.joined(self.rt, point, sender, resumes) {
            self.shared.report(&Happening::Image(ImageNews::Joined {
                image: joined.number,
                point,
                sender,
            }));
            self.note_window(joined.number, point);
            self.shared.report_pairs(self.rt);
            self.shared.report_misfits(self.rt);
        }
    }

    /// Reports an image whose sender is sent no status messages.
    fn note_window(&self, image: ImageNumber, point: StreamPoint) {
        if let Some(senders) = &self.senders {
            if !senders.has_window(&point.geometry) {
                let mtu = point.geometry.mtu;
                self.shared
                    .report(&Happening::Image(ImageNews::NoWindow { image, mtu }));
            }
        }
    }

    fn note_frames(&self, place: Place, is_lost: bool) {
        if let Some(counts) = self.shared.counts.of(place) {
            if is_lost {
                counts.lost.add(1);
            }
        }
    }

    pub(crate) fn note_request(&self, place: Place, has_asked: bool) {
        if let Some(counts) = self.shared.counts.of(place) {
            if has_asked {
                counts.requests.add(1);
            }
        }
    }

    /// Asks for what is missing of an image, and hands on its blocks.
    fn ask(&mut self, outcome: &DatagramOutcome) {
        let has_asked = self.images.ask_after(&mut self.end, outcome);
        if let DatagramOutcome::Frames { place, .. } = outcome {
            self.note_request(*place, has_asked);
            self.give(*place);
        }
    }

    /// Hands on blocks of an image, and sends what is due to its sender, as a receiver of the public standard does. How a new image is
    /// recorded is looked at first: a session may wait for it.
    fn answer(&mut self, outcome: &DatagramOutcome, now: Option<u64>) {
        if let DatagramOutcome::Frames { place, .. } = outcome {
            self.give(*place);
            self.ask_to_begin(*place);
        }
        let Some(now) = now else {
            return;
        };
        let from = self.end.sender();
        if let Some(senders) = self.senders.as_mut() {
            senders.note(outcome, from, now);
        }
        self.ask_for_setup(outcome, from, now);
        if let DatagramOutcome::Joined { place, .. } = outcome {
            self.look_at(*place);
        }
        if let Some(place) = self.image_in(outcome) {
            self.tend(place, now);
        }
    }

    /// Asks for the setup frame of frames whose publication has no image and may get a place.
    fn ask_for_setup(&mut self, outcome: &DatagramOutcome, from: Option<SocketAddr>, now: u64) {
        if let DatagramOutcome::Unknown(publication) = outcome {
            if !self.may_get_place(publication, now) {
                return;
            }
        }
        if let Some(senders) = self.senders.as_mut() {
            senders.ask_for_setup(&mut self.end, outcome, from, now);
        }
    }

    /// The image that a datagram was for, or made.
    fn image_in(&self, outcome: &DatagramOutcome) -> Option<Place> {
        match outcome {
            DatagramOutcome::Joined { place, .. }
            | DatagramOutcome::SetUp { place }
            | DatagramOutcome::Frames { place, .. } => { Some(*place) }
            _ => None,
        }
    }

    /// Hands on the blocks of an image that may be handed on now. Whether one was kept back.
    fn give(&mut self, place: Place) -> bool {
        give(self.rt, self.shared, &mut self.images, &self.leaving, place)
    }

    /// Sends what is due to all senders, each 10 milliseconds, and when blocks of all images were looked for. Then it is looked too how
    /// they are recorded: a round follows each session that is opened, and each settle that a sender waits for.
    fn tend_by_time(&mut self, is_round: bool, now: Option<u64>) {
        let Some(now) = now else {
            return;
        };
        if !is_round && now < self.tends_at {
            return;
        }
        self.tends_at = now.saturating_add(TENDING);
        for place in 0..self.images.len() {
            if is_round {
                self.look_at(place);
            }
            self.tend(place, now);
        }
    }

    /// Gives back the places of images that have to leave, each 10 milliseconds.
    fn see_off_by_time(&mut self, now: Option<u64>) {
        let Some(now) = now else {
            return;
        };
        if now < self.sees_off_at {
            return;
        }
        self.sees_off_at = now.saturating_add(SEEING_OFF);
        for place in 0..self.images.len() {
            self.follow_resumed(place, now);
            self.see_off(place, now);
        }
    }

    /// Asks that each image is recorded whose stream is, each second.
    fn record_by_time(&mut self, now: Option<u64>) {
        let Some(now) = now else {
            return;
        };
        if self.streams.is_empty() || now < self.records_at {
            return;
        }
        self.records_at = now.saturating_add(RECORDING);
        for place in 0..self.images.len() {
            self.ask_to_record(place);
        }
    }

    /// Looks for gaps of images that stand, each second.
    fn watch_gaps_by_time(&mut self, now: Option<u64>) {
        let Some(now) = now else {
            return;
        };
        if now < self.watches_at {
            return;
        }
        self.watches_at = now.saturating_add(WATCHING);
        for place in 0..self.images.len() {
            self.watch_gap(place, now);
        }
    }

    /// Reports that the first gap of an image stands, or that one is filled, if it is time for it.
    fn watch_gap(&mut self, place: Place, now: u64) {
        let Some(known) = self.images.get(place) else {
            return;
        };
        let (found, length) = match known.request() {
            Some(nak) => (Some(known.rebuilt()), nak.length),
            None => (None, 0),
        };
        let publication = *known.publication();
        let sent = self.shared.counts.counted(place).requests;
        let told = self.gaps.follow(place, found, sent, now);
        if let (Some(told), Some(key)) = (told, self.shared.key_at(self.rt, place)) {
            let image = key.number;
            let news = match told {
                GapTold::Stands { millis, naks } => GapNews::Stands {
                    image,
                    publication,
                    position: found.unwrap_or(0),
                    length,
                    millis,
                    naks: sent.saturating_sub(naks),
                },
                GapTold::Filled { position, millis } => GapNews::Filled {
                    image,
                    position,
                    millis,
                },
            };
            self.shared.report(&Happening::Gap(news));
        }
    }

    /// Measures the server each second, if there are metrics.
    fn measure_by_time(&mut self, now: Option<u64>) {
        if !self.shared.meter.is_on() {
            return;
        }
        let now = match now {
            Some(now) => Some(now),
            None => self.watch.read(self.rt),
        };
        let Some(now) = now else {
            return;
        };
        self.metering.note_time(now);
        if self.metering.is_due(now) {
            self.count_images(now);
            let statuses = self.end.statuses();
            self.metering.measure(
                self.rt,
                self.alloc,
                self.shared,
                &self.images,
                statuses,
                now,
            );
        }
    }

    /// Asks that an image is recorded if its stream is, it does not leave, and feeds no session.
    pub(crate) fn ask_to_record(&self, place: Place) {
        let Some(known) = self.images.get(place) else {
            return;
        };
        if is_recorded_stream(self.streams, known.publication().stream_id)
            && !self.leaving.contains(place)
            && self.shared.waiting(self.rt, place).is_some()
        {
            self.shared.queue.ask_to_record(self.rt, place);
        }
    }

    /// Gives the place of an image back that has to leave, in two steps: no block of it is handed on any more; then the
    /// recording thread is done with those that were.
    fn see_off(&mut self, place: Place, now: u64) {
        if !self.leaving.contains(place) {
            if self.has_to_leave(place, now) {
                self.note_loss(place, now);
                self.leave(place);
            }
        } else if !self.shared.queue.is_leaving(self.rt, place) {
            self.give_back(place);
        }
    }

    /// An image leaves: no block of it is handed on any more.
    pub(crate) fn leave(&mut self, place: Place) {
        self.leaving.add(place);
        self.shared.queue.ask_to_leave(self.rt, place);
    }

    /// The place of an image is given back.
    pub(crate) fn give_back(&mut self, place: Place) {
        self.shared.left(self.rt, place);
        self.images.remove(place);
        self.leaving.remove(place);
        self.gaps.forget(place);
        self.strangers.set(place, false);
        self.courses.set(place, Course::Waits);
        if self.resumed.at(place).is_some() {
            self.shared.counts.resumed_ends.add(1);
            self.resumed.forget(place);
        }
    }

    /// Whether an image has to leave: it was lost, its session has ended, or it is not live, and no block of it is left for its
    /// session.
    fn has_to_leave(&mut self, place: Place, now: u64) -> bool {
        if self.images.get(place).is_none() {
            return false;
        }
        if self.shared.is_over(self.rt, place) {
            return true;
        }
        let is_gone = match &self.senders {
            Some(senders) => senders.is_gone(place, now),
            None => false,
        };
        is_gone && !self.give(place)
    }
}
