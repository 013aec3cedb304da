//! Images by their places, and what happens to a datagram. docs/ARCHITECTURE.md, "Serving".

ghost use Rattle.std.specs.Prelude.{◌≡◌, ◌<◌, [], IfErr, IfOk, OnErr, OnOk, is_none, is_some, length, map, slice_get, true};
ghost use Rattle.std.specs.List.{position};
ghost use Rattle.std.specs.Option.{option_copied};
ghost use Rattle.frame_core.specs.FrameEncoding.{frame_of};
ghost use Rattle.frame_core.specs.Block.{AreEncodable, publication_of};
ghost use Rattle.frame_core.specs.Setup.{IsUsable};
ghost use Rattle.frame_core.specs.declared.refusal.Refusal.TheVariants.{NoMemory};
ghost use Rattle.server_receiver.specs.Resuming.{HearsAt, HearsIn, HearsStand, ResumesBy, heartbeat_of};
ghost use Rattle.server_receiver.specs.Datagrams.{AsksAfter, AsksOf, BegunBy, GivesNextBlock, HandledAt, HandlesFrames, HandlesIn, HasNext, IsPlaced, JoinsIfSetup, JoinsBy, LacksBlock, SendsOneRequest, Takes, TakesNext, TakesFrames, has_block_of, has_publication, received_at, image_of, image_with, is_full_image, is_full_of, join_point, place_for_image, publication_of_setup, with_received_at, unknown_of, vacated_at};
ghost use Rattle.server_receiver.specs.Strangers.{SetsUpImage, has_setup_terms, has_terms_of, image_named, named_publication};

use frame_core::limits::{HEADER_LENGTH, MAX_BLOCK_LENGTH};
use frame_core::{
    Block, FrameKind, FrameRef, Geometry, Publication, Refusal, Setup, frames_of_datagram, read_i32,
};
use image_core::BoundedImage;
use recorder_seats::DatagramEnd;
use std::alloc::Global;
use std::marker::Model;
use stream_pairs::{MAX_IMAGES, Place, StreamPoint};

/// Where a frame and a setup frame name their publication.
const SESSION_ID_AT: usize = 12;

const STREAM_ID_AT: usize = 16;
/// The flags of a frame that is a whole message.
const UNFRAGMENTED: u8 = 192;

/// The images by their places, at most 64 at a time. To a contract they are what each received.
#[derive(Drop)]
pub struct Images {
    alloc: Global,
    images: Vec<Option<BoundedImage>>,
}

impl Model for Images {
    ghost use Rattle.std.specs.Prelude.{List, Option};
    ghost use Rattle.image_core.specs.Received.{Received};

    ghost Value = { List (Option Received) };

    ghost view = { λ i. i.images.items };
}

/// What a datagram was.
#[derive(Clone, Copy)]
pub enum DatagramOutcome {
    /// Nothing that an image takes, and nothing of a publication that may join.
    Nothing,
    /// The setup frame of a new image, which joined at the point.
    Joined {
        /// The image's place.
        place: Place,
        /// Where it joined.
        point: StreamPoint,
    },
    /// A setup frame of a publication that has an image.
    SetUp {
        /// The image's place.
        place: Place,
    },
    /// Frames of an image.
    Frames {
        /// The image's place.
        place: Place,
        /// Whether they were lost past the stock.
        is_lost: bool,
    },
    /// Frames of a publication that has no image.
    Unknown(Publication),
    /// The setup frame of a publication that has no image, and for which there is no place.
    NoPlace(Publication),
    /// No datagram of frames, or frames or the setup frame of an image for which there was no memory.
    Refused(Refusal),
}

impl Images {
    /// No image came.
    pub fn new(alloc: Global) -> Images
        ensures { result ≡ [] }
    {
        Images {
            alloc,
            images: Vec::new(alloc),
        }
    }

    /// How many places had an image.
    pub fn len(&self) -> usize
        ensures { result ≡ length self.now }
    {
        self.images.len()
    }

    /// The image at a place.
    pub fn get(&self, place: Place) -> Option<&BoundedImage>
        ensures { option_copied result ≡ received_at place self.now }
    {
        match self.images.as_slice().get(place) {
            Some(Some(image)) => Some(image),
            _ => None,
        }
    }

    /// The image at a place is given back. Its memory is freed.
    pub fn remove(&mut self, place: Place)
        ensures { self.new ≡ vacated_at place self.old }
    {
        if let Some(slot) = self.images.get_mut(place) {
            *slot = None;
        }
    }

    /// The place of the image of a publication.
    fn index_of(&self, publication: &Publication) -> Option<Place>
        ensures { result ≡ image_with publication.now self.now }
    {
        self.images
            .iter()
            .position(|image| has_publication(image, publication))
    }

    /// The place of the image of the publication that a datagram names, where a frame and a setup frame do. Nothing else of it is
    /// read.
    pub(crate) fn image_named(&self, datagram: &[u8]) -> Option<Place>
        ensures { result ≡ image_named datagram.now self.now }
    {
        match named_publication(datagram) {
            Some(publication) => self.index_of(&publication),
            None => None,
        }
    }

    /// Whether a datagram is a setup frame with the terms of the image at a place.
    pub(crate) fn sets_up(&self, place: Place, datagram: &[u8]) -> bool
        ensures { SetsUpImage datagram.now (received_at place self.now) result }
    {
        match Setup::decode(datagram) {
            Ok(setup) => self.has_terms(place, &setup),
            Err(_) => false,
        }
    }

    fn has_terms(&self, place: Place, setup: &Setup) -> bool
        ensures { result ≡ has_terms_of (received_at place self.now) setup.now }
    {
        match self.get(place) {
            Some(image) => has_setup_terms(image.geometry(), setup),
            None => false,
        }
    }

    /// The place of one image more: the least without one, or the next one, of 64.
    fn place_for_next(&self) -> Option<Place>
        ensures { result ≡ place_for_image self.now }
    {
        match self.vacant() {
            Some(place) => Some(place),
            None if self.images.len() < MAX_IMAGES => Some(self.images.len()),
            None => None,
        }
    }

    /// Whether there is a place for one image more.
    pub(crate) fn has_place(&self) -> bool
        ensures { result ≡ is_some (place_for_image self.now) }
    {
        self.place_for_next().is_some()
    }

    /// The least place without an image.
    fn vacant(&self) -> Option<Place>
        ensures { result ≡ position is_none self.now }
    {
        self.images.iter().position(|image| image.is_none())
    }

    /// Takes a datagram, which is decoded here once. Its frames are offered to the image of the first one's publication.
    /// The setup frame of a publication that has no image makes one, if there is a place and memory for it. For
    /// everything else, and for a datagram that is refused, nothing changes.
    pub fn take_datagram(&mut self, datagram: &[u8]) -> DatagramOutcome
        ensures { Takes self.old datagram.now self.new result }
    {
        match frames_of_datagram(self.alloc, datagram) {
            Ok(frames) => self.take_frames(frames.as_slice()),
            Err(Refusal::BadFrame { offset: 0 }) => self.take_setup(datagram),
            Err(refusal) => DatagramOutcome::Refused(refusal),
        }
    }

    /// Asks once for what is missing of the image whose frames came, as far as the window and the stock have room for it.
    /// Whether it did. After anything else nothing is sent.
    pub fn ask_after<E: DatagramEnd>(&self, end: &mut E, outcome: &DatagramOutcome) -> bool
        ensures { AsksAfter E.sends self.now outcome.now end.old end.new result }
    {
        match outcome {
            DatagramOutcome::Frames { place, is_lost } => {
                let _ = is_lost;
                self.ask_of(end, *place)
            }
            _ => false,
        }
    }

    fn ask_of<E: DatagramEnd>(&self, end: &mut E, place: Place) -> bool
        ensures { AsksOf E.sends (received_at place self.now) end.old end.new result }
    {
        match self.get(place) {
            Some(image) => request(end, image),
            None => false,
        }
    }

    #[tactic(auto, using(crate::proofs::ImageLemmas::is_placed_of))]
    fn take_frames(&mut self, frames: &[FrameRef<'_>]) -> DatagramOutcome
        requires { AreEncodable (map frame_of frames.now) }
        ensures { let fs = map frame_of frames.now in
            TakesFrames (image_of fs self.old) self.old fs self.new result }
    {
        match self.image_of(frames) {
            Some(place) => self.offer_to(place, frames),
            None => unknown(frames),
        }
    }

    /// The place of the image of the first frame's publication.
    fn image_of(&self, frames: &[FrameRef<'_>]) -> Option<Place>
        ensures { result ≡ image_of (map frame_of frames.now) self.now }
    {
        match frames.first() {
            Some(frame) => self.index_of(&publication_of(frame)),
            None => None,
        }
    }

    /// Offers frames to the image at a place.
    fn offer_to(&mut self, place: Place, frames: &[FrameRef<'_>]) -> DatagramOutcome
        requires there { IsPlaced (slice_get self.old place) }
        requires encodable { AreEncodable (map frame_of frames.now) }
        ensures { let fs = map frame_of frames.now in HandledAt place self.old fs self.new result }
    {
        let Some(slot) = self.images.get_mut(place) else {
            unreachable!();
        };
        match offer_in(slot, frames) {
            Ok(is_lost) => DatagramOutcome::Frames { place, is_lost },
            Err(refusal) => DatagramOutcome::Refused(refusal),
        }
    }

    fn take_setup(&mut self, datagram: &[u8]) -> DatagramOutcome
        ensures { JoinsIfSetup datagram.now self.old self.new result }
    {
        match Setup::decode(datagram) {
            Ok(setup) => self.join(&setup),
            Err(_) => DatagramOutcome::Nothing,
        }
    }

    /// Makes an image of a setup frame as a datagram of it would. If it joined, it is told then that its publication stands where
    /// another setup frame says.
    pub fn resume(&mut self, begin: &Setup, stand: &Setup) -> DatagramOutcome
        requires begins { IsUsable begin.now }
        requires stands { IsUsable stand.now }
        ensures { ResumesBy begin.now stand.now self.old self.new result }
    {
        let outcome = self.join(begin);
        self.hear_stand(&outcome, stand);
        outcome
    }

    /// An image that joined is told that its publication stands where a setup frame says.
    fn hear_stand(&mut self, outcome: &DatagramOutcome, stand: &Setup)
        requires { IsUsable stand.now }
        ensures { HearsStand outcome.now (heartbeat_of stand.now) self.old self.new }
    {
        match outcome {
            DatagramOutcome::Joined { place, point } => {
                let _ = point;
                self.hear(*place, stand);
            }
            _ => {}
        }
    }

    /// The image at a place is told by a heartbeat that its publication stands where a setup frame says.
    fn hear(&mut self, place: Place, stand: &Setup)
        requires { IsUsable stand.now }
        ensures { HearsAt place (heartbeat_of stand.now) self.old self.new }
    {
        if let Some(slot) = self.images.get_mut(place) {
            hear(slot, stand);
        }
    }

    /// Makes an image of a setup frame, if its publication has none, and there is a place and memory for it.
    fn join(&mut self, setup: &Setup) -> DatagramOutcome
        requires { IsUsable setup.now }
        ensures { JoinsBy setup.now self.old self.new result }
    {
        match self.index_of(&publication_of_setup(setup)) {
            Some(place) => DatagramOutcome::SetUp { place },
            None => self.begin(setup),
        }
    }

    /// One image more, if there is a place. `NoMemory`.
    fn begin(&mut self, setup: &Setup) -> DatagramOutcome
        requires { IsUsable setup.now }
        ensures { BegunBy setup.now self.old self.new result }
    {
        let Some(place) = self.place_for_next() else {
            return DatagramOutcome::NoPlace(publication_of_setup(setup));
        };
        let Ok(image) = BoundedImage::from_setup(self.alloc, setup) else {
            unreachable!();
        };
        let point = join_point(&image);
        match self.put(image) {
            Ok(()) => DatagramOutcome::Joined { place, point },
            Err(refusal) => DatagramOutcome::Refused(refusal),
        }
    }

    /// Puts an image at the least place without one, or at the next one. `NoMemory`; nothing changes then.
    fn put(&mut self, image: BoundedImage) -> Result<(), Refusal>
        ensures put { OnOk result (self.new ≡ with_received_at (position is_none self.old) image self.old) }
        ensures memory { IfErr result (λ refusal. (refusal ≡ NoMemory) × (self.new ≡ self.old)) }
    {
        match self.vacant() {
            Some(place) => {
                self.images[place] = Some(image);
                Ok(())
            }
            None => match self.images.push(Some(image)) {
                Ok(()) => Ok(()),
                Err(_) => Err(Refusal::NoMemory),
            },
        }
    }

    /// Whether an image has a block to take.
    pub fn has_block(&self, place: Place) -> bool
        ensures { result ≡ has_block_of (received_at place self.now) }
    {
        match self.get(place) {
            Some(image) => image.has_block(),
            None => false,
        }
    }

    /// Whether so much was rebuilt of an image, and not taken, that a block of it is as long as it may be.
    pub fn is_full(&self, place: Place) -> bool
        ensures { result ≡ is_full_of (received_at place self.now) }
    {
        match self.get(place) {
            Some(image) => is_full(image),
            None => false,
        }
    }

    /// Takes the next block of an image, if there is one. `NoMemory`; then it stays in the image.
    pub fn take_block(&mut self, place: Place) -> Result<Option<Block>, Refusal>
        ensures taken { IfOk result (λ found. TakesNext place self.old found self.new) }
        ensures lacks { OnErr result (LacksBlock place self.old self.new) }
        ensures memory { IfErr result (λ refusal. refusal ≡ NoMemory) }
    {
        match self.images.get_mut(place) {
            Some(slot) => take_next(slot),
            None => Ok(None),
        }
    }
}

/// What frames are whose publication has no image.
fn unknown(frames: &[FrameRef<'_>]) -> DatagramOutcome
    ensures { result ≡ unknown_of (map frame_of frames.now) }
{
    match frames.first() {
        Some(frame) => DatagramOutcome::Unknown(publication_of(frame)),
        None => DatagramOutcome::Nothing,
    }
}

/// The publication that a frame is of.
fn publication_of(frame: &FrameRef<'_>) -> Publication
    ensures { result ≡ publication_of (frame_of frame.now) }
{
    Publication {
        session_id: frame.session_id,
        stream_id: frame.stream_id,
    }
}

/// The publication that a setup frame is of.
fn publication_of_setup(setup: &Setup) -> Publication
    ensures { result ≡ publication_of_setup setup.now }
{
    Publication {
        session_id: setup.session_id,
        stream_id: setup.stream_id,
    }
}

/// The publication that a datagram names, where a frame and a setup frame do.
fn named_publication(datagram: &[u8]) -> Option<Publication>
    ensures { result ≡ named_publication datagram.now }
{
    if datagram.len() < HEADER_LENGTH {
        return None;
    }
    Some(Publication {
        session_id: read_i32(datagram, SESSION_ID_AT),
        stream_id: read_i32(datagram, STREAM_ID_AT),
    })
}

/// Whether a setup frame has these terms.
fn has_setup_terms(geometry: &Geometry, setup: &Setup) -> bool
    ensures { result ≡ has_setup_terms geometry.now setup.now }
{
    setup.initial_term_id == geometry.initial_term_id
        && setup.term_length == geometry.term_length
        && setup.mtu == geometry.mtu
}

/// Whether a place has an image of a publication.
fn has_publication(image: &Option<BoundedImage>, publication: &Publication) -> bool
    ensures { result ≡ has_publication publication.now image.now }
{
    let Some(image) = image else {
        return false;
    };
    let own = image.publication();
    own.session_id == publication.session_id && own.stream_id == publication.stream_id
}

/// Whether so much was rebuilt of an image, and not taken, that a datagram's length more may pass a block's.
fn is_full(image: &BoundedImage) -> bool
    ensures { result ≡ is_full_image image.now }
{
    let most = MAX_BLOCK_LENGTH as i64 - i64::from(image.geometry().mtu);
    image.rebuilt() - image.taken() > most
}

/// Where a new image joined.
fn join_point(image: &BoundedImage) -> StreamPoint
    ensures { result ≡ join_point image.now }
{
    StreamPoint {
        publication: *image.publication(),
        geometry: *image.geometry(),
        position: image.taken(),
    }
}

/// Takes the next block of the image at a place, if there is one. `NoMemory`; then it stays in the image.
fn take_next(slot: &mut Option<BoundedImage>) -> Result<Option<Block>, Refusal>
    ensures taken { IfOk result (λ found. GivesNextBlock slot.old found slot.new) }
    ensures lacks { OnErr result (HasNext slot.old × (slot.new ≡ slot.old)) }
    ensures memory { IfErr result (λ refusal. refusal ≡ NoMemory) }
{
    match slot {
        Some(image) => image.take_block(),
        None => Ok(None),
    }
}

/// Offers frames to the image at a place.
fn offer_in(slot: &mut Option<BoundedImage>, frames: &[FrameRef<'_>]) -> Result<bool, Refusal>
    requires there { is_some slot.old ≡ true }
    requires encodable { AreEncodable (map frame_of frames.now) }
    ensures { HandlesIn slot.old (map frame_of frames.now) slot.new result }
{
    match slot {
        Some(image) => offer(image, frames),
        None => unreachable!(),
    }
}

/// Offers frames to an image. Whether they were lost past its stock. `NoMemory`; nothing changes then.
fn offer(image: &mut BoundedImage, frames: &[FrameRef<'_>]) -> Result<bool, Refusal>
    requires { AreEncodable (map frame_of frames.now) }
    ensures { HandlesFrames image.old (map frame_of frames.now) image.new result }
{
    match image.offer(frames) {
        Ok(inserted) => Ok(inserted.is_none()),
        Err(refusal) => Err(refusal),
    }
}

/// The image at a place, if there is one, is told by a heartbeat that its publication stands where a setup frame says.
fn hear(slot: &mut Option<BoundedImage>, stand: &Setup)
    requires { IsUsable stand.now }
    ensures { HearsIn slot.old (heartbeat_of stand.now) slot.new }
{
    if let Some(image) = slot {
        let _ = offer(image, &[heartbeat_of(stand)]);
    }
}

/// The heartbeat of a publication that stands where a setup frame says.
fn heartbeat_of(setup: &Setup) -> FrameRef<'static>
    ensures { frame_of result ≡ heartbeat_of setup.now }
{
    FrameRef {
        kind: FrameKind::Heartbeat,
        flags: UNFRAGMENTED,
        length: 0,
        term_offset: setup.term_offset,
        session_id: setup.session_id,
        stream_id: setup.stream_id,
        term_id: setup.active_term_id,
        reserved: 0,
        payload: &[],
    }
}

/// Asks once for what is missing first of an image, if something is. Whether it did.
fn request<E: DatagramEnd>(end: &mut E, image: &BoundedImage) -> bool
    ensures { SendsOneRequest E.sends image.now end.old end.new result }
{
    match image.request() {
        Some(nak) => {
            end.send(&nak.encode());
            true
        }
        None => false,
    }
}
