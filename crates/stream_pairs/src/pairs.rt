//! Pairs of images and recorder sessions.

ghost use Rattle.std.specs.Prelude.{◌≡◌, ◌<◌, ◌≤◌, ◌-◌, ◌^◌, IfOk, IfErr, MatchOption, None, is_some, length, slice_get, true};
ghost use Rattle.std.specs.List.{position};
ghost use Rattle.frame_core.specs.declared.refusal.Refusal.TheVariants.{NoMemory};
ghost use Rattle.stream_pairs.specs.Pairs.{after_joined, after_left, after_opened, after_refused, after_released, after_settled, after_stopped, ended, fed_by, feeds, has_own_seat, has_session, image_at, image_count, image_in, image_with, is_free, is_image_of, is_recorded, is_recorded_by, is_vacant, joined, joined_index, kept_image, may_join, no_pairs, pair_all, pair_one, place_for_next, put_image, released_at, seat_for, seat_of, slot_of, takes, unfed_at, vacated, with_lost_image, with_new_session, with_slot, writes};
ghost use Rattle.stream_pairs.specs.Places.{has_open_session, is_open_of};

use crate::points::StreamPoint;
use frame_core::{Publication, Refusal};
use std::alloc::Global;
use std::marker::Model;

/// A seat of a recorder session that images feed: which of 64 it has, counted from 0.
pub type Seat = usize;
/// A place of an image: which of 64 it has until it leaves, counted from 0.
pub type Place = usize;
/// The number of an image: how many images came before it. No other image has it.
pub type ImageNumber = u64;

/// Seats of recorder sessions that images feed.
pub const FED_SESSIONS: usize = 64;
/// Images that there may be at a time.
pub const MAX_IMAGES: usize = 64;

/// What is known of a recorder session.
#[derive(Clone, Copy, Debug, PartialEq, Eq)]
pub struct SessionSlot {
    /// The session's number.
    pub session: i64,
    /// The id of the recording that it writes.
    pub recording: i64,
    /// What the recording records, and up to which position it is recorded.
    pub point: StreamPoint,
    /// Whether the recording was not stopped since.
    pub is_open: bool,
    /// The place of the image that feeds it.
    pub image: Option<Place>,
}

/// What is known of an image.
#[derive(Clone, Copy, Debug, PartialEq, Eq)]
pub struct JoinedImage {
    /// How many images came before it: its number, which no other image has.
    pub number: ImageNumber,
    /// Where it joined.
    pub join: StreamPoint,
    /// Whether a session that it fed was refused, or has ended and gave its seat back.
    pub is_lost: bool,
    /// Whether its place was given back.
    pub has_left: bool,
}

/// Which image feeds which recorder session: images by their places, sessions by their seats. An image's place is its number
/// until a place is given back.
/// docs/ARCHITECTURE.md, "Images and recorder sessions".
#[derive(Drop)]
pub struct Pairs {
    slots: [Option<SessionSlot>; FED_SESSIONS],
    images: Vec<JoinedImage>,
    /// How many images came.
    came: u64,
}

impl Model for Pairs {
    ghost use Rattle.std.specs.Prelude.{◌≤◌};
    ghost use Rattle.std.specs.Vec.{vec_capacity, vec_len};
    ghost use Rattle.stream_pairs.specs.Pairs.{PairsState};

    ghost Value = { PairsState };

    ghost view = { λ p. record { slots = p.slots; images = p.images.items; came = p.came } };

    ghost invariant = { λ p. (vec_len p.images ≤ 64) × (64 ≤ vec_capacity p.images) };
}

impl Pairs {
    /// No session and no image. `NoMemory` where there is none for the table of images; nothing else here takes memory.
    pub fn new(alloc: Global) -> Result<Pairs, Refusal>
        ensures none { IfOk result (λ pairs. pairs ≡ no_pairs) }
        ensures memory { IfErr result (λ refusal. refusal ≡ NoMemory) }
    {
        Ok(Pairs {
            slots: [None; FED_SESSIONS],
            images: Vec::with_capacity(alloc, MAX_IMAGES)?,
            came: 0,
        })
    }

    /// A recorder session of this number was opened at a seat, by a start or an extension: the id of the recording that it
    /// writes, and where that stands. Then each image without a session is paired, by their places. A seat from 64 on is not
    /// noted, nor one that has a session. Costs a step for each session for each image.
    pub fn opened(&mut self, seat: Seat, session: i64, recording: i64, point: StreamPoint)
        ensures { self.new ≡ after_opened seat session recording point self.old }
    {
        self.note(
            seat,
            SessionSlot {
                session,
                recording,
                point,
                is_open: true,
                image: None,
            },
        );
        self.pair_all();
    }

    /// An image came: where it joined. Its place: the least that was given back, or the next one. Then each image without a
    /// session is paired, by their places. None if its publication has an image, or all 64 places have one; nothing changes
    /// then. Costs a step for each session for each image.
    pub fn joined(&mut self, join: StreamPoint) -> Option<Place>
        ensures state { self.new ≡ after_joined join self.old }
        ensures index { result ≡ joined_index join.publication self.old }
    {
        if !self.may_join(&join.publication) {
            return None;
        }
        let place = self.place_for_next();
        self.add(join);
        self.pair_all();
        place
    }

    /// The recording of the session at a seat is recorded up to another position. Nothing is paired by it. Costs a
    /// constant time.
    pub fn settled(&mut self, seat: Seat, position: i64)
        ensures { self.new ≡ after_settled seat position self.old }
    {
        if let Some(Some(slot)) = self.slots.get(seat).copied() {
            let mut slot = slot;
            slot.point.position = position;
            self.put(seat, Some(slot));
        }
    }

    /// A recording was stopped, and the session that wrote it has ended. It keeps its image until it is refused. Costs a
    /// step for each session.
    pub fn stopped(&mut self, recording: i64)
        ensures { self.new ≡ after_stopped recording self.old }
    {
        if let Some(seat) = self.writer_of(recording) {
            self.end(seat);
        }
    }

    /// A recording was stopped, and the seat of the session that wrote it is given back: it has no session from now on. The
    /// image that fed it is not paired again. Costs a step for each session.
    pub fn released(&mut self, recording: i64)
        ensures { self.new ≡ after_released recording self.old }
    {
        if let Some(seat) = self.writer_of(recording) {
            self.release(seat);
        }
    }

    fn release(&mut self, seat: Seat)
        ensures { self.new ≡ with_slot seat None (after_refused seat self.old) }
    {
        self.refused(seat);
        self.put(seat, None);
    }

    /// The place of an image is given back, to the next one that comes. A session that it fed stays, without an image. Costs
    /// a step for each session.
    pub fn left(&mut self, place: Place)
        ensures { self.new ≡ after_left place self.old }
    {
        let fed = self.session_of_image(place);
        self.unfeed(fed);
        self.vacate(place);
    }

    fn unfeed(&mut self, seat: Option<Seat>)
        ensures { self.new ≡ unfed_at seat self.old }
    {
        if let Some(seat) = seat {
            self.feed(seat, None);
        }
    }

    fn vacate(&mut self, place: Place)
        ensures { self.new ≡ record self.old
            { images = vacated (slice_get self.old.images place) place self.old.images } }
    {
        if let Some(image) = self.images.get_mut(place) {
            image.is_lost = true;
            image.has_left = true;
        }
    }

    /// The session at a seat was refused: it loses its image, which is not paired again. Costs a constant time.
    pub fn refused(&mut self, seat: Seat)
        ensures { self.new ≡ after_refused seat self.old }
    {
        let Some(place) = self.image_of_session(seat) else {
            return;
        };
        self.feed(seat, None);
        self.lose(place);
    }

    /// The place of the image of a publication. Costs a step for each image.
    pub fn image_of(&self, publication: &Publication) -> Option<Place>
        ensures { result ≡ image_with publication.now self.now }
    {
        self.images
            .iter()
            .position(|image| is_image_of(image, publication))
    }

    /// The session at a seat, if it has one. Costs a constant time.
    pub fn slot(&self, seat: Seat) -> Option<SessionSlot>
        ensures { result ≡ slot_of seat self.now }
    {
        match self.slots.get(seat) {
            Some(slot) => *slot,
            None => None,
        }
    }

    /// The seat of the session of a number, if it has one. Costs a step for each session.
    pub fn seat_of(&self, session: i64) -> Option<Seat>
        ensures { result ≡ seat_of session self.now }
    {
        self.slots
            .iter()
            .position(|slot| has_session(slot, session))
    }

    /// A seat for the session of a number: that of its own number if it is free, else the least that is free. None if none is.
    /// Costs a step for each session.
    pub fn seat_for(&self, session: i64) -> Option<Seat>
        ensures { result ≡ seat_for session self.now }
    {
        if self.has_own_seat(session) {
            Some(session.unsigned_abs() as usize)
        } else {
            self.free_seat()
        }
    }

    /// Whether the seat of a session's own number is free.
    fn has_own_seat(&self, session: i64) -> bool
        ensures { result ≡ has_own_seat session self.now }
    {
        0 <= session
            && session.unsigned_abs() < FED_SESSIONS as u64
            && self.slot(session.unsigned_abs() as usize).is_none()
    }

    /// The least seat that is free.
    fn free_seat(&self) -> Option<Seat>
        ensures { result ≡ position is_free self.now.slots }
    {
        self.slots.iter().position(|slot| slot.is_none())
    }

    /// The image at a place, unless the place was given back. Costs a constant time.
    pub fn image(&self, place: Place) -> Option<JoinedImage>
        ensures { result ≡ image_in place self.now }
    {
        let image = self.joined_image(place)?;
        if image.has_left { None } else { Some(image) }
    }

    /// The place of the image that feeds the session at a seat. Costs a constant time.
    pub fn image_of_session(&self, seat: Seat) -> Option<Place>
        ensures { result ≡ image_at seat self.now }
    {
        match self.slots.get(seat) {
            Some(Some(slot)) => slot.image,
            _ => None,
        }
    }

    /// The seat of the session that the image at a place feeds. Costs a step for each session.
    pub fn session_of_image(&self, place: Place) -> Option<Seat>
        ensures { result ≡ position (feeds place) self.now.slots }
    {
        self.slots.iter().position(|slot| feeds(slot, place))
    }

    /// The seat of the open session that writes a recording, the least of them. None where no open session does. Costs a
    /// step for each session. Does not allocate.
    pub fn writer_of(&self, recording: i64) -> Option<Seat>
        ensures { result ≡ position (writes recording) self.now.slots }
    {
        self.slots.iter().position(|slot| writes(slot, &recording))
    }

    /// Whether the image at a place feeds a session that is open. Costs a step for each session. Does not allocate.
    pub fn is_recorded(&self, place: Place) -> bool
        ensures { result ≡ is_recorded place self.now }
    {
        self.slots.iter().any(|slot| is_recorded_by(slot, place))
    }

    /// Whether an open session is of a publication. Costs a step for each session. Does not allocate.
    pub fn has_open_session(&self, publication: &Publication) -> bool
        ensures { result ≡ has_open_session publication.now self.now }
    {
        self.slots.iter().any(|slot| is_open_of(slot, publication))
    }

    /// The images by their places, those that were given back too. Costs a constant time.
    pub fn images(&self) -> &[JoinedImage]
        ensures { result.now ≡ self.now.images }
    {
        self.images.as_slice()
    }

    /// How many places have an image. Costs a step for each.
    pub fn image_count(&self) -> usize
        ensures count { result ≡ image_count self.now }
        ensures few { result ≤ 64 }
    {
        self.images.iter().filter(|image| !image.has_left).count()
    }

    fn note(&mut self, seat: Seat, slot: SessionSlot)
        ensures { self.new ≡ with_new_session seat slot self.old }
    {
        if let Some(None) = self.slots.get(seat) {
            self.put(seat, Some(slot));
        }
    }

    /// Whether an image of a publication may come: it has none, there is a place, and fewer than 2^64 - 1 came.
    fn may_join(&self, publication: &Publication) -> bool
        ensures { result ≡ may_join publication.now self.now }
    {
        self.place_for_next().is_some()
            && self.image_of(publication).is_none()
            && self.came < u64::MAX
    }

    /// The place of one image more: the least that was given back, or the next one, of 64.
    fn place_for_next(&self) -> Option<Place>
        ensures { result ≡ place_for_next self.now }
    {
        match self.vacant() {
            Some(place) => Some(place),
            None if self.images.len() < MAX_IMAGES => Some(self.images.len()),
            None => None,
        }
    }

    /// The least place that was given back.
    fn vacant(&self) -> Option<Place>
        ensures { result ≡ position is_vacant self.now.images }
    {
        self.images.iter().position(|image| image.has_left)
    }

    fn add(&mut self, join: StreamPoint)
        requires place { is_some (place_for_next self.old) ≡ true }
        requires few { self.old.came < 2 ^ 64 - 1 }
        ensures { self.new ≡ joined join self.old }
    {
        let image = JoinedImage {
            number: self.came,
            join,
            is_lost: false,
            has_left: false,
        };
        let place = self.vacant();
        self.came += 1;
        self.put_image(place, image);
    }

    /// Puts an image at a place that was given back, or at the next one.
    fn put_image(&mut self, place: Option<Place>, image: JoinedImage)
        requires inside { MatchOption place (length self.old.images < 64) (λ i. i < length self.old.images) }
        ensures { self.new ≡ record self.old { images = put_image place image self.old.images } }
    {
        match place {
            Some(place) => self.images[place] = image,
            None => self.images.push_reserved(image),
        }
    }

    fn put(&mut self, seat: Seat, slot: Option<SessionSlot>)
        ensures { self.new ≡ with_slot seat slot self.old }
    {
        if seat < FED_SESSIONS {
            self.slots[seat] = slot;
        }
    }

    fn feed(&mut self, seat: Seat, image: Option<Place>)
        ensures { self.new ≡ with_slot seat (fed_by image (slot_of seat self.old)) self.old }
    {
        if let Some(Some(slot)) = self.slots.get(seat).copied() {
            let mut slot = slot;
            slot.image = image;
            self.put(seat, Some(slot));
        }
    }

    fn lose(&mut self, place: Place)
        ensures { self.new ≡ with_lost_image place self.old }
    {
        if let Some(image) = self.images.get_mut(place) {
            image.is_lost = true;
        }
    }

    /// The session at a seat has ended.
    fn end(&mut self, seat: Seat)
        ensures { self.new ≡ with_slot seat (ended (slot_of seat self.old)) self.old }
    {
        if let Some(Some(slot)) = self.slots.get(seat).copied() {
            let mut slot = slot;
            slot.is_open = false;
            self.put(seat, Some(slot));
        }
    }

    /// Pairs each image without a session, by their places.
    fn pair_all(&mut self)
        ensures { self.new ≡ pair_all self.old }
    {
        let count = self.images.len();
        for place in 0..count {
            self.pair(place);
        }
    }

    /// Pairs an image with the least session that takes it, unless it has lost its session or has one.
    fn pair(&mut self, place: Place)
        ensures { self.new ≡ pair_one place self.old }
    {
        let Some(image) = self.joined_image(place) else {
            return;
        };
        if image.is_lost || self.session_of_image(place).is_some() {
            return;
        }
        if let Some(seat) = self.taker_of(&image.join) {
            self.feed(seat, Some(place));
        }
    }

    /// What is known of the image at a place.
    fn joined_image(&self, place: Place) -> Option<JoinedImage>
        ensures { result ≡ slice_get self.now.images place }
    {
        self.images.get(place).copied()
    }

    /// The least session that takes an image which joined there.
    fn taker_of(&self, join: &StreamPoint) -> Option<Seat>
        ensures { result ≡ position (takes join.now) self.now.slots }
    {
        self.slots.iter().position(|slot| takes(slot, join))
    }
}

/// Whether an image is of a publication, and its place was not given back.
fn is_image_of(image: &JoinedImage, publication: &Publication) -> bool
    ensures { result ≡ is_image_of publication.now image.now }
{
    !image.has_left && image.join.is_of(publication)
}

/// Whether the session at a seat is that of a number.
fn has_session(slot: &Option<SessionSlot>, session: i64) -> bool
    ensures { result ≡ has_session session slot.now }
{
    match slot {
        Some(slot) => slot.session == session,
        None => false,
    }
}

/// Whether a session takes an image that joined there.
fn takes(slot: &Option<SessionSlot>, join: &StreamPoint) -> bool
    ensures { result ≡ takes join.now slot.now }
{
    match slot {
        Some(slot) => slot.is_open && slot.image.is_none() && slot.point.is_at(join),
        None => false,
    }
}

/// Whether an image feeds a session.
fn feeds(slot: &Option<SessionSlot>, place: Place) -> bool
    ensures { result ≡ feeds place slot.now }
{
    match slot {
        Some(slot) => slot.image == Some(place),
        None => false,
    }
}

/// Whether a session is open and an image feeds it.
fn is_recorded_by(slot: &Option<SessionSlot>, place: Place) -> bool
    ensures { result ≡ is_recorded_by place slot.now }
{
    match slot {
        Some(slot) => slot.is_open && slot.image == Some(place),
        None => false,
    }
}

/// Whether a session is open and of a publication.
fn is_open_of(slot: &Option<SessionSlot>, publication: &Publication) -> bool
    ensures { result ≡ is_open_of publication.now slot.now }
{
    match slot {
        Some(slot) => slot.is_open && slot.point.is_of(publication),
        None => false,
    }
}

/// Whether a session writes a recording.
fn writes(slot: &Option<SessionSlot>, recording: &i64) -> bool
    ensures { result ≡ writes recording.now slot.now }
{
    match slot {
        Some(slot) => slot.is_open && slot.recording == *recording,
        None => false,
    }
}
