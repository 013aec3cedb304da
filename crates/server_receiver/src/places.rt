//! Which publication gets a place. docs/PROTOCOL.md, "Places".

use crate::images::DatagramOutcome;
use crate::receiving::Reception;
use crate::recorded_streams::is_recorded_stream;
use frame_core::Publication;
use server_state::{PlaceNews, Reporter};
use std::rt::Clock;
use std::sync::Wait;
use stream_pairs::{MAX_IMAGES, Place, PlaceUse, Rank, first_yielding};

impl<R: Wait + Clock, T: Reporter> Reception<'_, R, T> {
    /// Takes a datagram into the images. If all places are taken, a publication that is wanted gets one that an image yields.
    pub(crate) fn take_into_images(
        &mut self,
        datagram: &[u8],
        now: Option<u64>,
    ) -> DatagramOutcome {
        let outcome = self.images.take_datagram(datagram);
        match (outcome, now) {
            (DatagramOutcome::NoPlace(publication), Some(now)) => {
                if self.make_place(&publication, now) {
                    self.images.take_datagram(datagram)
                } else {
                    outcome
                }
            }
            _ => outcome,
        }
    }

    /// Makes a place for a publication, if it is wanted and an image yields. Whether there is one.
    fn make_place(&mut self, publication: &Publication, now: u64) -> bool {
        let is_wanted = self.is_wanted(publication);
        let yielding = if is_wanted { self.yielding(now) } else { None };
        match yielding {
            Some(place) => {
                self.yield_place(place, publication);
                true
            }
            None => {
                self.refuse_place(publication, is_wanted, now);
                false
            }
        }
    }

    /// An image yields its place. It feeds no session, so no block of it is on its way.
    fn yield_place(&mut self, place: Place, publication: &Publication) {
        if let Some(key) = self.shared.key_at(self.rt, place) {
            self.report_place(PlaceNews::Yields {
                image: key.number,
                to: *publication,
            });
        }
        self.give_back(place);
    }

    /// A publication gets no place: it is counted once, and reported if it is wanted.
    fn refuse_place(&mut self, publication: &Publication, is_wanted: bool, now: u64) {
        if !self.no_places.contains(publication) {
            self.no_places.add(*publication);
            self.shared.places.without_place.add(1);
        }
        if is_wanted {
            if let Some(more) = self.no_places.tells(now) {
                self.report_place(PlaceNews::NoPlace {
                    publication: *publication,
                    more,
                });
            }
        }
    }

    /// Whether a publication is wanted: its stream is recorded without being asked, or an open session is of it.
    fn is_wanted(&self, publication: &Publication) -> bool {
        is_recorded_stream(self.streams, publication.stream_id)
            || self.shared.has_open_session(self.rt, publication)
    }

    /// The place that is given to a publication that is wanted, if all are taken.
    fn yielding(&self, now: u64) -> Option<Place> {
        let mut uses = [None; MAX_IMAGES];
        for place in 0..MAX_IMAGES {
            uses[place] = self.use_of(place, now);
        }
        first_yielding(&uses)
    }

    /// What is known of the image at a place.
    fn use_of(&self, place: Place, now: u64) -> Option<PlaceUse> {
        let known = self.images.get(place)?;
        let heard = match &self.senders {
            Some(senders) => senders.heard(place),
            None => 0,
        };
        Some(PlaceUse {
            feeds: self.shared.seat_of(self.rt, place).is_some(),
            ends: self.leaving.contains(place) || self.shared.is_over(self.rt, place),
            is_wanted: self.is_wanted(known.publication()),
            has_begun: known.has_block() || known.request().is_some(),
            age: self.ages.age(place, now),
            heard,
        })
    }

    /// Counts the images by what they count when another publication wants a place.
    pub(crate) fn count_images(&self, now: u64) {
        let mut recorded: u64 = 0;
        let mut waiting: u64 = 0;
        let mut unwanted: u64 = 0;
        for place in 0..self.images.len() {
            if let Some(image) = self.use_of(place, now) {
                match image.rank() {
                    Rank::Recorded => recorded = recorded.saturating_add(1),
                    Rank::Silent => waiting = waiting.saturating_add(1),
                    Rank::Kept => waiting = waiting.saturating_add(1),
                    Rank::Other => unwanted = unwanted.saturating_add(1),
                }
            }
        }
        self.shared.places.set_images(recorded, waiting, unwanted);
    }

    /// Whether a publication without an image may get a place: one is free, or it is wanted and an image yields.
    pub(crate) fn may_get_place(&self, publication: &Publication, now: u64) -> bool {
        self.images.has_place() || (self.is_wanted(publication) && self.yielding(now).is_some())
    }

    /// Asks that a recording begins for an image that has its first block, if its stream is recorded without being asked.
    pub(crate) fn ask_to_begin(&mut self, place: Place) {
        let Some(known) = self.images.get(place) else {
            return;
        };
        let is_recorded = is_recorded_stream(self.streams, known.publication().stream_id);
        if is_recorded
            && known.has_block()
            && !self.ages.fill(place)
            && self.shared.filled(self.rt, place)
        {
            self.ask_to_record(place);
        }
    }
}
