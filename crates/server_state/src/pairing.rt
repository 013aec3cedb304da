//! Pairs of images and recorder sessions, and which of them were reported.

ghost use Rattle.std.specs.Prelude.{◌≡◌, ◌<◌, None, replicate};
ghost use Rattle.std.specs.List.{position};
ghost use Rattle.stream_pairs.specs.Pairs.{feeds, seat_of};
ghost use Rattle.server_state.specs.Places.{open_position, settled_of};
ghost use Rattle.server_state.specs.Resuming.{GoesOnAt, seat_stand};
ghost use Rattle.server_state.specs.Noting.{ReportsMisfit, ReportsNext, after_noted, after_refusing, fed_key, fed_session, has_key, image_key, is_over_at, is_reported, is_unfed, image_key_at, lost_key, misfit_at, misfit_of, misfit_with, unreported_misfit, waiting_image, waiting_with, waits, seated_session, fed_at, unreported_image};

use crate::noting::note;
use crate::resuming::{Stand, slot_stand};
use archive_model::Reply;
use control_core::Event;
use frame_core::Publication;
use stream_pairs::{
    FED_SESSIONS, ImageNumber, JoinedImage, Pairs, Place, Seat, SessionSlot, StreamPoint,
};

/// An image: its place, and its number, which no other image has.
#[derive(Clone, Copy, PartialEq, Eq)]
pub struct ImageKey {
    /// The place.
    pub place: Place,
    /// How many images came before it.
    pub number: ImageNumber,
}

/// A recorder session that an image feeds.
#[derive(Clone, Copy)]
pub struct FedSession {
    /// Its seat.
    pub seat: Seat,
    /// Its number.
    pub session: i64,
}

/// An image and a recorder session of one publication that don't fit.
#[derive(Clone, Copy)]
pub(crate) struct Misfit {
    /// The image's number.
    pub image: ImageNumber,
    /// The session's number.
    pub session: i64,
    /// Where the image joined.
    pub joined: StreamPoint,
    /// Up to where the session's recording is recorded.
    pub recorded: StreamPoint,
}

/// Which image feeds which recorder session, and which pairs and misfits were reported.
#[derive(Drop)]
pub(crate) struct Pairing {
    /// The pairs.
    pub pairs: Pairs,
    /// Of each seat the number of the image that was reported to feed its session.
    reported: [Option<ImageNumber>; FED_SESSIONS],
    /// Of each seat the misfit of its session that was reported last.
    misfits: [Option<Misfit>; FED_SESSIONS],
    /// Whether the seat of a session is given back once its recording was stopped.
    gives_back: bool,
}

impl Pairing {
    /// These pairs, of which nothing was reported.
    pub fn new(pairs: Pairs, gives_back: bool) -> Pairing
        ensures { result ≡ record { pairs = pairs; reported = replicate 64 None; misfits = replicate 64 None; gives_back = gives_back } }
    {
        Pairing {
            pairs,
            reported: [None; FED_SESSIONS],
            misfits: [None; FED_SESSIONS],
            gives_back,
        }
    }

    /// A call was answered so.
    pub fn note(&mut self, event: &Event, reply: &Reply)
        ensures { self.new ≡ record self.old
            { pairs = after_noted self.old.gives_back event.now reply.now self.old.pairs } }
    {
        note(&mut self.pairs, self.gives_back, event, reply);
    }

    /// The least seat whose session has an image that was not reported before, and that image's number. From now on it was.
    pub fn next_unreported(&mut self) -> Option<(Seat, ImageNumber)>
        ensures reported { ReportsNext self.old.pairs self.old.reported result self.new.reported }
        ensures same { self.new ≡ record self.old { reported = self.new.reported } }
    {
        for seat in 0..FED_SESSIONS {
            if let Some(number) = self.unreported_image(seat) {
                self.reported[seat] = Some(number);
                return Some((seat, number));
            }
        }
        None
    }

    /// The number of the image that feeds a session, unless it was reported.
    fn unreported_image(&self, seat: Seat) -> Option<ImageNumber>
        requires { seat < 64 }
        ensures { result ≡ unreported_image seat self.now.pairs self.now.reported }
    {
        match self.fed_key(seat) {
            Some(key) if self.reported[seat] != Some(key.number) => Some(key.number),
            _ => None,
        }
    }

    /// The misfit of the least seat whose session has one that was not reported before. From now on it was.
    pub fn next_misfit(&mut self) -> Option<Misfit>
        ensures reported { ReportsMisfit self.old.pairs self.old.misfits result self.new.misfits }
        ensures same { self.new ≡ record self.old { misfits = self.new.misfits } }
    {
        for seat in 0..FED_SESSIONS {
            if let Some(misfit) = self.unreported_misfit(seat) {
                self.misfits[seat] = Some(misfit);
                return Some(misfit);
            }
        }
        None
    }

    /// The misfit of the session at a seat, unless it was reported.
    fn unreported_misfit(&self, seat: Seat) -> Option<Misfit>
        requires { seat < 64 }
        ensures { result ≡ unreported_misfit seat self.now.pairs self.now.misfits }
    {
        match self.misfit_at(seat) {
            Some(misfit) if !is_reported(&misfit, self.misfits[seat]) => Some(misfit),
            _ => None,
        }
    }

    /// The session at a seat and the image of its publication, if they don't fit.
    fn misfit_at(&self, seat: Seat) -> Option<Misfit>
        ensures { result ≡ misfit_at seat self.now.pairs }
    {
        match self.pairs.slot(seat) {
            Some(slot) if is_unfed(&slot) => self.misfit_of(&slot),
            _ => None,
        }
    }

    /// A session that no image feeds and the image of its publication, if they don't fit.
    fn misfit_of(&self, slot: &SessionSlot) -> Option<Misfit>
        ensures { result ≡ misfit_of slot.now self.now.pairs }
    {
        match self.waiting_of(&slot.point.publication) {
            Some(image) => misfit_with(slot, &image),
            None => None,
        }
    }

    /// The image of a publication, if it waits for a session.
    fn waiting_of(&self, publication: &Publication) -> Option<JoinedImage>
        ensures { result ≡ waiting_with publication.now self.now.pairs }
    {
        match self.pairs.image_of(publication) {
            Some(place) => self.waiting(place),
            None => None,
        }
    }

    /// The image at a place.
    pub fn key_at(&self, place: Place) -> Option<ImageKey>
        ensures { result ≡ image_key_at place self.now.pairs }
    {
        image_key(place, self.pairs.image(place))
    }

    /// The image that feeds the session at a seat.
    fn fed_key(&self, seat: Seat) -> Option<ImageKey>
        ensures { result ≡ fed_key seat self.now.pairs }
    {
        match self.pairs.image_of_session(seat) {
            Some(place) => self.key_at(place),
            None => None,
        }
    }

    /// The session that an image feeds. None if it feeds none, or its place was given back.
    pub fn session_of(&self, key: &ImageKey) -> Option<FedSession>
        ensures { result ≡ fed_session key.now self.now.pairs }
    {
        if self.has_key(key) {
            self.session_fed(key.place)
        } else {
            None
        }
    }

    /// Whether the image is at its place.
    fn has_key(&self, key: &ImageKey) -> bool
        ensures { result ≡ has_key key.now self.now.pairs }
    {
        match self.pairs.image(key.place) {
            Some(image) => image.number == key.number,
            None => false,
        }
    }

    /// The session that the image at a place feeds.
    fn session_fed(&self, place: Place) -> Option<FedSession>
        ensures { result ≡ fed_at (position (feeds place) self.now.pairs.slots) self.now.pairs }
    {
        match self.pairs.session_of_image(place) {
            Some(seat) => self.seated_session(seat),
            None => None,
        }
    }

    /// The session at a seat.
    pub fn seated_session(&self, seat: Seat) -> Option<FedSession>
        ensures { result ≡ seated_session seat self.now.pairs }
    {
        match self.pairs.slot(seat) {
            Some(slot) => Some(FedSession {
                seat,
                session: slot.session,
            }),
            None => None,
        }
    }

    /// Whether the place of an image may be given back, whether it is live or not: it was lost, or its session has ended.
    pub fn is_over(&self, place: Place) -> bool
        ensures { result ≡ is_over_at place self.now.pairs }
    {
        match self.pairs.image(place) {
            Some(image) => image.is_lost,
            None => false,
        }
    }

    /// The image at a place, if it waits for a session: it feeds none, and was not lost.
    pub fn waiting(&self, place: Place) -> Option<JoinedImage>
        ensures { result ≡ waiting_image place self.now.pairs }
    {
        match self.pairs.image(place) {
            Some(image) => self.waits(place, image),
            None => None,
        }
    }

    fn waits(&self, place: Place, image: JoinedImage) -> Option<JoinedImage>
        ensures { result ≡ waits place image self.now.pairs }
    {
        if image.is_lost || self.pairs.session_of_image(place).is_some() {
            None
        } else {
            Some(image)
        }
    }

    /// Up to where the session is settled that the image at a place feeds, if it is open.
    pub fn settled_of(&self, place: Place) -> Option<i64>
        ensures { result ≡ settled_of place self.now.pairs }
    {
        match self.pairs.session_of_image(place) {
            Some(seat) => open_position(self.pairs.slot(seat)),
            None => None,
        }
    }

    /// Where the session of the least seat stands that is open, has no image, and stands where a publication may go on which
    /// joined at a point.
    pub fn stand_for(&self, join: &StreamPoint) -> Option<Stand>
        ensures { GoesOnAt join.now self.now.pairs result }
    {
        for seat in 0..FED_SESSIONS {
            if let Some(stand) = self.seat_stand(seat, join) {
                return Some(stand);
            }
        }
        None
    }

    fn seat_stand(&self, seat: Seat, join: &StreamPoint) -> Option<Stand>
        ensures { result ≡ seat_stand seat join.now self.now.pairs }
    {
        slot_stand(join, self.pairs.slot(seat))
    }

    /// The session of a number was refused: the image that it loses, if it has one.
    pub fn refused(&mut self, session: i64) -> Option<ImageKey>
        ensures image { result ≡ lost_key (seat_of session self.old.pairs) self.old.pairs }
        ensures pairs { self.new ≡ record self.old { pairs = after_refusing (seat_of session self.old.pairs) self.old.pairs } }
    {
        match self.pairs.seat_of(session) {
            Some(seat) => {
                let key = self.fed_key(seat);
                self.pairs.refused(seat);
                key
            }
            None => None,
        }
    }
}

/// The image at a place, by what is known of it.
fn image_key(place: Place, image: Option<JoinedImage>) -> Option<ImageKey>
    ensures { result ≡ image_key place image }
{
    match image {
        Some(image) => Some(ImageKey {
            place,
            number: image.number,
        }),
        None => None,
    }
}

/// Up to where a session is settled, if it is open.
fn open_position(slot: Option<SessionSlot>) -> Option<i64>
    ensures { result ≡ open_position slot }
{
    match slot {
        Some(slot) if slot.is_open => Some(slot.point.position),
        _ => None,
    }
}

/// Whether a session is open, and no image feeds it.
fn is_unfed(slot: &SessionSlot) -> bool
    ensures { result ≡ is_unfed slot.now }
{
    slot.is_open && slot.image.is_none()
}

/// A session and an image of its publication, if the recording does not stand where the image joined.
fn misfit_with(slot: &SessionSlot, image: &JoinedImage) -> Option<Misfit>
    ensures { result ≡ misfit_with slot.now image.now }
{
    if slot.point.is_at(&image.join) {
        return None;
    }
    Some(Misfit {
        image: image.number,
        session: slot.session,
        joined: image.join,
        recorded: slot.point,
    })
}

/// Whether a misfit is of the same image and session as the one that was reported.
fn is_reported(misfit: &Misfit, reported: Option<Misfit>) -> bool
    ensures { result ≡ is_reported misfit.now reported }
{
    match reported {
        Some(reported) => reported.image == misfit.image && reported.session == misfit.session,
        None => false,
    }
}
