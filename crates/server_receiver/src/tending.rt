//! What is due to the senders of images, by how these are recorded. docs/PROTOCOL.md, "Status messages and NAKs of a receiver".

use crate::admission::{Admission, Course, has_opened, is_held};
use crate::receiving::Reception;
use server_state::Reporter;
use std::rt::Clock;
use std::sync::Wait;
use stream_pairs::Place;

impl<R: Wait + Clock, T: Reporter> Reception<'_, R, T> {
    /// Sends what is due to the sender of an image, unless the image leaves. Before a status message it is looked how the image is
    /// recorded.
    pub(crate) fn tend(&mut self, place: Place, now: u64) {
        if self.leaving.contains(place) {
            return;
        }
        if self.is_status_due(place, now) {
            self.look_at(place);
        }
        let admission = self.admission(place);
        let has_asked = match (self.senders.as_mut(), self.images.get(place)) {
            (Some(senders), Some(known)) => {
                senders.tend(&mut self.end, place, known, admission, now)
            }
            _ => false,
        };
        self.note_request(place, has_asked);
        self.ask_to_settle(place, admission);
    }

    /// Looks how the image at a place is recorded. Its sender is due a status message at once if it was admitted one frame before,
    /// and is admitted a whole window now.
    pub(crate) fn look_at(&mut self, place: Place) {
        let course = self.course(place);
        let has_opened = has_opened(self.courses.at(place), course);
        self.courses.set(place, course);
        if let Some(senders) = self.senders.as_mut() {
            if has_opened {
                senders.forget_status(place);
            }
        }
    }

    fn course(&self, place: Place) -> Course {
        match self.shared.settled_of(self.rt, place) {
            Some(position) => Course::IsSettledTo(position),
            None if self.shared.begins(self.rt, place) => Course::Begins,
            None => Course::Waits,
        }
    }

    /// What the sender of the image at a place is admitted, by what was looked at last.
    fn admission(&self, place: Place) -> Option<Admission> {
        match (&self.senders, self.images.get(place)) {
            (Some(senders), Some(known)) => {
                senders.admission_of(known.geometry(), self.courses.at(place))
            }
            _ => None,
        }
    }

    /// Whether it is time for a status message to the sender of an image.
    fn is_status_due(&self, place: Place, now: u64) -> bool {
        let admission = self.admission(place);
        match (&self.senders, self.images.get(place)) {
            (Some(senders), Some(known)) => senders.is_status_due(place, known, admission, now),
            _ => false,
        }
    }

    /// Asks that the session of an image settles at once whose sender is held back by what is not settled, and for a round after
    /// that.
    fn ask_to_settle(&self, place: Place, admission: Option<Admission>) {
        let (Some(admission), Some(known)) = (admission, self.images.get(place)) else {
            return;
        };
        if is_held(known, &admission) {
            if let Some(seat) = self.shared.seat_of(self.rt, place) {
                self.shared.hold();
                self.shared.queue.ask(self.rt, seat);
            }
        }
    }
}
