//! Whose frames an image takes: those of its sender's address. docs/PROTOCOL.md, "Whose frames an image takes".

ghost use Rattle.std.specs.Prelude.{◌≡◌, false, replicate, slice_index_or, slice_set, true};
ghost use Rattle.server_receiver.specs.Strangers.{provenance_of, strange_provenance};

use crate::receiving::Reception;
use server_state::{Happening, PlaceNews, Reporter};
use std::net::SocketAddr;
use std::rt::Clock;
use std::sync::Wait;
use stream_pairs::{MAX_IMAGES, Place};

/// What a datagram of a publication that has an image is, by where it came from.
#[derive(Clone, Copy, Debug, PartialEq, Eq)]
pub(crate) enum Provenance {
    /// It came from the image's sender.
    Own,
    /// It is a setup frame with the image's terms, from another address, and the sender is silent: it is there from now on.
    Moves,
    /// It came from another address, and the sender is silent: that address is asked for a setup frame.
    Asks,
    /// It came from another address.
    Foreign,
}

/// What a datagram of an image's publication is: whether it came from another address than the sender, whether the sender is
/// silent, and whether it is a setup frame with the image's terms.
fn provenance_of(is_elsewhere: bool, is_silent: bool, sets_up: bool) -> Provenance
    ensures { result ≡ provenance_of is_elsewhere is_silent sets_up }
{
    if is_elsewhere {
        strange_provenance(is_silent, sets_up)
    } else {
        Provenance::Own
    }
}

fn strange_provenance(is_silent: bool, sets_up: bool) -> Provenance
    ensures { result ≡ strange_provenance is_silent sets_up }
{
    if !is_silent {
        Provenance::Foreign
    } else if sets_up {
        Provenance::Moves
    } else {
        Provenance::Asks
    }
}

/// The places of images of whose publication something came from another address, and that was reported.
#[derive(Clone, Copy)]
pub(crate) struct Strangers {
    told: [bool; MAX_IMAGES],
}

impl Strangers {
    /// Nothing was reported.
    pub fn new() -> Strangers
        ensures { result ≡ record { told = replicate 64 false } }
    {
        Strangers {
            told: [false; MAX_IMAGES],
        }
    }

    /// Whether that was reported of the image at a place.
    pub fn is_told(&self, place: Place) -> bool
        ensures { result ≡ slice_index_or self.now.told place false }
    {
        match self.told.get(place) {
            Some(told) => *told,
            None => false,
        }
    }

    /// That was reported, or another image is there of which it was not.
    pub fn set(&mut self, place: Place, told: bool)
        ensures { self.new ≡ record self.old { told = slice_set self.old.told place told } }
    {
        if place < MAX_IMAGES {
            self.told[place] = told;
        }
    }
}

impl<R: Wait + Clock, T: Reporter> Reception<'_, R, T> {
    /// Takes a datagram of a publication that has an image, if it came from another address than the image's sender. Whether it
    /// did, and so is not the image's. A setup frame by which the sender moves is.
    pub(crate) fn take_strange(&mut self, datagram: &[u8], now: Option<u64>) -> bool {
        let (Some(now), Some(place)) = (now, self.images.image_named(datagram)) else {
            return false;
        };
        match self.provenance(place, datagram, now) {
            Provenance::Own => false,
            Provenance::Moves => {
                self.move_sender(place, now);
                false
            }
            Provenance::Asks => {
                self.ask_stranger(place, now);
                self.note_stranger(place);
                true
            }
            Provenance::Foreign => {
                self.note_stranger(place);
                true
            }
        }
    }

    fn provenance(&self, place: Place, datagram: &[u8], now: u64) -> Provenance {
        let Some(senders) = &self.senders else {
            return Provenance::Own;
        };
        let is_elsewhere = senders.is_elsewhere(place, self.end.sender());
        let is_silent = is_elsewhere && senders.is_silent(place, now);
        let sets_up = is_silent && self.images.sets_up(place, datagram);
        provenance_of(is_elsewhere, is_silent, sets_up)
    }

    /// The sender of an image is where the last datagram came from.
    fn move_sender(&mut self, place: Place, now: u64) {
        let to = self.end.sender();
        let Some(senders) = self.senders.as_mut() else {
            return;
        };
        let from = senders.address(place);
        senders.set_up(place, to, now);
        self.strangers.set(place, false);
        if let (Some(key), Some(from), Some(to)) = (self.shared.key_at(self.rt, place), from, to) {
            let image = key.number;
            self.report_place(PlaceNews::Moved { image, to, from });
        }
    }

    /// Asks where the last datagram came from for a setup frame, at most each 200 milliseconds.
    fn ask_stranger(&mut self, place: Place, now: u64) {
        let Some(known) = self.images.get(place) else {
            return;
        };
        if let (Some(senders), Some(to)) = (self.senders.as_mut(), self.end.sender()) {
            senders.ask_publication(&mut self.end, known.publication(), to, now);
        }
    }

    /// A datagram of an image's publication is not taken, which is reported once for each image.
    fn note_stranger(&mut self, place: Place) {
        self.shared.places.foreign.add(1);
        if self.strangers.is_told(place) {
            return;
        }
        self.strangers.set(place, true);
        if let (Some(image), Some(from), Some(sender)) = (
            self.shared.key_at(self.rt, place),
            self.end.sender(),
            self.sender_address(place),
        ) {
            let image = image.number;
            self.report_place(PlaceNews::Stranger {
                image,
                from,
                sender,
            });
        }
    }

    /// Where the sender of the image at a place is.
    pub(crate) fn sender_address(&self, place: Place) -> Option<SocketAddr> {
        match &self.senders {
            Some(senders) => senders.address(place),
            None => None,
        }
    }

    /// Reports something of a place.
    pub(crate) fn report_place(&self, news: PlaceNews) {
        self.shared.report(&Happening::Place(news));
    }
}
