//! Publications that come back: their images begin where a recording stands, or after a while where they are.
//! docs/ARCHITECTURE.md, "Where an image joins".

ghost use Rattle.frame_core.specs.Setup.{IsUsable};

use crate::images::DatagramOutcome;
use crate::receiving::Reception;
use crate::resuming::{Looked, Progress, ResumedImage, setup_at};
use frame_core::Setup;
use server_state::{Found, HoleCause, Reporter, ResumeNews, Resumes, Resumption};
use std::rt::Clock;
use std::sync::Wait;
use stream_pairs::Place;

impl<R: Wait + Clock, T: Reporter> Reception<'_, R, T> {
    /// Images that wait begin anew where a recording of theirs stands.
    pub(crate) fn return_all(&mut self, now: Option<u64>) {
        let Some(now) = now else {
            return;
        };
        for place in 0..self.images.len() {
            let _ = self.return_image(place, now);
        }
    }

    /// The image at a place begins anew where a recording stands, before its publication's setup frame, if it waits for a session
    /// and may. What it is then.
    pub(crate) fn return_image(&mut self, place: Place, now: u64) -> Option<DatagramOutcome> {
        if self.leaving.contains(place) || self.images.get(place).is_none() {
            return None;
        }
        let resumption = self.shared.resumption(self.rt, place)?;
        let point = &resumption.image.point;
        let begin = setup_at(point, resumption.stand.position)?;
        let stand = setup_at(point, point.position)?;
        Some(self.begin_anew(place, &resumption, &begin, &stand, now))
    }

    fn begin_anew(
        &mut self,
        place: Place,
        resumption: &Resumption,
        begin: &Setup,
        stand: &Setup,
        now: u64,
    ) -> DatagramOutcome
        requires begins { IsUsable begin.now }
        requires stands { IsUsable stand.now }
    {
        let sender = self.sender_address(place);
        self.give_back(place);
        let outcome = self.images.resume(begin, stand);
        if let DatagramOutcome::Joined { place, point } = outcome {
            self.note_joined(point, sender, Resumes::Yes);
            if let Some(senders) = self.senders.as_mut() {
                senders.note(&outcome, sender, now);
            }
            let to = resumption.image.point.position;
            self.resumed.begin(place, point.position, to, now);
            self.ages.join(place, now);
            self.metering.forget(place);
            self.report_resumed(place, resumption);
            self.ask_to_record(place);
        }
        outcome
    }

    fn report_resumed(&self, place: Place, resumption: &Resumption) {
        let Some(key) = self.shared.key_at(self.rt, place) else {
            return;
        };
        let point = &resumption.image.point;
        let from = resumption.stand.position;
        let news = ResumeNews::Resumes {
            image: key.number,
            publication: point.publication,
            from,
            recording: resumption.stand.recording,
            bytes: bytes_between(from, point.position),
        };
        self.shared.report_resume(self.rt, news);
    }

    /// Looks whether the image at a place that resumes has what was missing, or has to be given up.
    pub(crate) fn follow_resumed(&mut self, place: Place, now: u64) {
        if self.resumed.at(place).is_none() {
            return;
        }
        let (Some(known), Some(senders)) = (self.images.get(place), &self.senders) else {
            return;
        };
        let look = Looked {
            rebuilt: known.rebuilt(),
            asks: known.request().is_some(),
            heard: senders.heard(place),
            time: now,
        };
        let progress = self.resumed.follow(place, &look);
        if self.resumed.at(place).is_none() {
            self.shared.counts.resumed_ends.add(1);
        }
        match progress {
            Progress::Waits => {}
            Progress::IsWhole(image) => self.report_filled(place, &image, now),
            Progress::GivesUp(image) => self.give_up(place, &image, now),
        }
    }

    fn report_filled(&self, place: Place, image: &ResumedImage, now: u64) {
        let Some(key) = self.shared.key_at(self.rt, place) else {
            return;
        };
        let news = ResumeNews::Filled {
            image: key.number,
            bytes: bytes_between(image.from, image.to),
            to: image.to,
            millis: now.saturating_sub(image.begun),
        };
        self.shared.report_resume(self.rt, news);
    }

    /// An image leaves that nothing was sent again for. Its publication does not resume for a while. What a client's session misses
    /// then is reported; a recording that the server began is stopped, and what it misses is reported with the next one.
    fn give_up(&mut self, place: Place, image: &ResumedImage, now: u64) {
        let Some(known) = self.images.get(place) else {
            return;
        };
        let (publication, from) = (*known.publication(), known.rebuilt());
        self.unresumed.note(publication, Resumes::NoRepeat, now);
        if self.feeds_a_clients_session(place) {
            let news = ResumeNews::Hole {
                publication,
                from,
                to: image.to,
                cause: HoleCause::NoRepeat,
            };
            self.shared.report_resume(self.rt, news);
        }
        self.leave(place);
    }

    /// Whether the image at a place feeds a session that a client opened.
    fn feeds_a_clients_session(&self, place: Place) -> bool {
        match self.shared.origin_at(self.rt, place) {
            Some(origin) => {
                origin.found != Found::Recorded && self.shared.seat_of(self.rt, place).is_some()
            }
            None => false,
        }
    }

    /// An image leaves that was lost by a refused block: its publication does not resume for a while.
    pub(crate) fn note_loss(&mut self, place: Place, now: u64) {
        let (Some(known), Some(origin)) = (
            self.images.get(place),
            self.shared.origin_at(self.rt, place),
        ) else {
            return;
        };
        if origin.is_refused {
            self.unresumed
                .note(*known.publication(), Resumes::WasLost, now);
        }
    }
}

/// Bytes from one position to another.
pub(crate) fn bytes_between(from: i64, to: i64) -> u64 {
    to.saturating_sub(from).unsigned_abs()
}
