//! What the senders of images are sent, if the server is a receiver of the public standard. docs/PROTOCOL.md, "Status messages
//! and NAKs of a receiver".

ghost use Rattle.std.specs.Prelude.{◌≡◌, [], IfOk, MatchBool, slice_get};
ghost use Rattle.flow_control.specs.Windows.{has_window};
ghost use Rattle.server_receiver.specs.Senders.{AsksForSetup, AsksPublication, ChangesAt, Hears, Notes, SetsUp, SendsRequestDue, SendsStatusDue, Tends, TendsIf, StatusForgotten, TendsTo, address_of, heard_of, is_due_by, is_gone, is_silent, is_status_due_to, new_sender, with_sender};
ghost use Rattle.server_receiver.specs.Admission.{admission_of, most_for};
ghost use Rattle.server_receiver.specs.Strangers.{IsElsewhere, is_sender_silent};

use crate::admission::{Admission, Course, admission_of};
use crate::images::DatagramOutcome;
use flow_control::{Feedback, SetupRequests, five_sixteenths, setup_request, window_of};
use frame_core::{Geometry, Publication};
use image_core::BoundedImage;
use std::alloc::{AllocError, Global};
use std::marker::Model;
use std::net::SocketAddr;
use stream_pairs::{MAX_IMAGES, Place};

/// Milliseconds without a datagram from an image's sender after which another address may take its place.
const SILENCE: u64 = 2_000;

/// The end that frames for senders go out by.
pub trait SenderEnd {
    ghost use Rattle.std.specs.Prelude.{ℕ, List};
    ghost use Rattle.std.specs.declared.net.socket_addr.SocketAddr.{SocketAddr};

    /// Which state follows once some bytes were sent to an address.
    ghost puts: { Self → SocketAddr → List ℕ → Self → Type 0 };

    /// Sends a frame to an address. A frame may be lost on the way, and so may one that can't be sent.
    fn put(&mut self, frame: &[u8], to: SocketAddr)
        ensures { Self.puts self.old to frame.now self.new };
}

/// What a receiver's status messages have: the greatest window, in bytes, and the receiver's number.
#[derive(Clone, Copy)]
pub struct Receiver {
    /// The greatest receiver window, in bytes.
    pub window: i32,
    /// The receiver's number.
    pub id: i64,
}

/// The greatest window of a publication with these terms, in bytes: the receiver's, but at most five sixteenths of a term.
pub(crate) fn most_for(receiver: &Receiver, geometry: &Geometry) -> i32
    ensures { result ≡ most_for receiver.now geometry.now }
{
    receiver.window.min(five_sixteenths(geometry) as i32)
}

/// The sender of an image.
#[derive(Clone, Copy, Drop)]
pub(crate) struct ImageSender {
    /// Where its setup frame came from.
    pub address: Option<SocketAddr>,
    /// When something of the publication came from there last.
    pub seen: u64,
    /// What it was sent, and when something of the publication came.
    pub feedback: Feedback,
}

impl ImageSender {
    /// The sender of a new image.
    fn new(from: Option<SocketAddr>, now: u64) -> ImageSender
        ensures { result ≡ new_sender from now }
    {
        ImageSender {
            address: from,
            seen: now,
            feedback: Feedback::new(now),
        }
    }

    /// Whether it is at an address.
    fn is_at(&self, from: Option<SocketAddr>) -> bool
        ensures { MatchBool result (self.now.address ≡ from) (self.now.address ≡ from → ⊥) }
    {
        self.address == from
    }

    /// A datagram of the publication came.
    fn hear(&mut self, from: Option<SocketAddr>, now: u64)
        ensures { Hears from now self.old self.new }
    {
        if self.address == from {
            self.seen = now;
        }
        self.feedback.hear(now);
    }

    /// Whether nothing came from the address for 2,000 milliseconds.
    fn is_silent(&self, now: u64) -> bool
        ensures { result ≡ is_silent now self.now }
    {
        SILENCE <= now.saturating_sub(self.seen)
    }

    /// A setup frame of the publication came.
    fn set_up(&mut self, from: Option<SocketAddr>, now: u64)
        ensures { SetsUp from now self.old self.new }
    {
        if self.is_silent(now) {
            self.address = from;
            self.seen = now;
            self.feedback.hear(now);
        } else {
            self.hear(from, now);
        }
    }

    /// Whether a status message is due, if the sender is admitted so much.
    fn is_due_by(&self, admission: Option<Admission>, image: &BoundedImage, now: u64) -> bool
        ensures { result ≡ is_due_by admission now image.now self.now.feedback }
    {
        match admission {
            Some(Admission { most, bound }) => self.feedback.is_status_due(now, image, most, bound),
            None => false,
        }
    }

    /// Sends what is due. Whether a NAK was.
    fn tend<E: SenderEnd>(
        &mut self,
        end: &mut E,
        image: &BoundedImage,
        receiver: &Receiver,
        admission: Option<Admission>,
        now: u64,
    ) -> bool
        ensures { TendsIf E.puts admission now receiver.now image.now self.old.address self.old end.old self.new end.new result }
    {
        let Some(to) = self.address else {
            return false;
        };
        send_status(&mut self.feedback, end, to, image, receiver, admission, now);
        send_request(&mut self.feedback, end, to, image, now)
    }
}

/// Sends the status message that is due, if the sender is admitted anything.
fn send_status<E: SenderEnd>(
    feedback: &mut Feedback,
    end: &mut E,
    to: SocketAddr,
    image: &BoundedImage,
    receiver: &Receiver,
    admission: Option<Admission>,
    now: u64,
)
    ensures { SendsStatusDue E.puts admission now receiver.now image.now to feedback.old end.old feedback.new end.new }
{
    let Some(Admission { most, bound }) = admission else {
        return;
    };
    if let Some(status) = feedback.status(now, image, most, bound, receiver.id) {
        end.put(&status.encode(), to);
    }
}

/// Sends the NAK that is due. Whether there was one.
fn send_request<E: SenderEnd>(
    feedback: &mut Feedback,
    end: &mut E,
    to: SocketAddr,
    image: &BoundedImage,
    now: u64,
) -> bool
    ensures { SendsRequestDue E.puts now image.now to feedback.old end.old feedback.new end.new result }
{
    match feedback.request(now, image) {
        Some(nak) => {
            end.put(&nak.encode(), to);
            true
        }
        None => false,
    }
}

/// The senders of all images, by the images' places, and the publications that were asked for a setup frame.
#[derive(Drop)]
pub struct Senders {
    receiver: Receiver,
    senders: Vec<ImageSender>,
    setups: SetupRequests,
}

impl Model for Senders {
    ghost use Rattle.std.specs.Prelude.{◌≤◌, vec_capacity, vec_len};
    ghost use Rattle.server_receiver.specs.Senders.{SendersState};

    ghost Value = { SendersState };

    ghost view = { λ s. record { receiver = s.receiver; senders = s.senders.items; setups = s.setups } };

    ghost invariant = { λ s. (vec_len s.senders ≤ 64) × (64 ≤ vec_capacity s.senders) };
}

impl Senders {
    /// No image came. Costs memory for 64 senders, and for 64 publications.
    pub fn new(alloc: Global, receiver: Receiver) -> Result<Senders, AllocError>
        ensures { IfOk result (λ made. made ≡ record { receiver = receiver; senders = []; setups = [] }) }
    {
        Ok(Senders {
            receiver,
            senders: Vec::with_capacity(alloc, MAX_IMAGES)?,
            setups: SetupRequests::new(alloc)?,
        })
    }

    /// Whether the sender of an image with these terms is sent status messages: no frame is longer than the window.
    pub fn has_window(&self, geometry: &Geometry) -> bool
        ensures { let most = most_for self.now.receiver geometry.now in result ≡ has_window geometry.now most }
    {
        window_of(geometry, most_for(&self.receiver, geometry)).is_some()
    }

    /// Notes a datagram, and where it came from. Does not allocate.
    pub fn note(&mut self, outcome: &DatagramOutcome, from: Option<SocketAddr>, now: u64)
        ensures senders { Notes outcome.now from now self.old.senders self.new.senders }
        ensures same { self.new ≡ record self.old { senders = self.new.senders } }
    {
        match outcome {
            DatagramOutcome::Joined { place, point } => {
                let _ = point;
                self.add(*place, from, now);
            }
            DatagramOutcome::SetUp { place } => self.set_up(*place, from, now),
            DatagramOutcome::Frames { place, is_lost } => {
                let _ = is_lost;
                self.hear(*place, from, now);
            }
            _ => {}
        }
    }

    /// The sender of a new image at a place.
    fn add(&mut self, place: Place, from: Option<SocketAddr>, now: u64)
        ensures { self.new ≡ record self.old { senders = with_sender place from now self.old.senders } }
    {
        let sender = ImageSender::new(from, now);
        if place < self.senders.len() {
            self.senders[place] = sender;
        } else if self.senders.len() < MAX_IMAGES {
            self.senders.push_reserved(sender);
        }
    }

    /// Whether a status message is due to the sender of an image that is admitted so much. If not, [`tend`](Senders::tend) does the
    /// same for one that is admitted nothing.
    pub fn is_status_due(
        &self,
        place: Place,
        image: &BoundedImage,
        admission: Option<Admission>,
        now: u64,
    ) -> bool
        ensures { result ≡ is_status_due_to (slice_get self.now.senders place) admission now image.now }
    {
        match self.senders.as_slice().get(place) {
            Some(sender) => sender.is_due_by(admission, image, now),
            None => false,
        }
    }

    /// What the sender of an image with these terms is admitted that is recorded so.
    pub(crate) fn admission_of(&self, geometry: &Geometry, course: Course) -> Option<Admission>
        ensures { result ≡ admission_of self.now.receiver geometry.now course }
    {
        admission_of(&self.receiver, geometry, course)
    }

    /// The last status message to the sender of the image at a place is forgotten: another one is due at once.
    pub(crate) fn forget_status(&mut self, place: Place)
        ensures senders { ChangesAt place (slice_get self.old.senders place) self.old.senders self.new.senders StatusForgotten }
        ensures same { self.new ≡ record self.old { senders = self.new.senders } }
    {
        if let Some(sender) = self.senders.get_mut(place) {
            sender.feedback.status = None;
        }
    }

    /// When something of the publication of the image at a place came last, in milliseconds; 0 if there is none.
    pub fn heard(&self, place: Place) -> u64
        ensures { result ≡ heard_of (slice_get self.now.senders place) }
    {
        match self.senders.as_slice().get(place) {
            Some(sender) => sender.feedback.heard,
            None => 0,
        }
    }

    /// Whether the image at a place is not live: nothing of its publication came for 10,000 milliseconds.
    pub fn is_gone(&self, place: Place, now: u64) -> bool
        ensures { result ≡ is_gone now (slice_get self.now.senders place) }
    {
        match self.senders.as_slice().get(place) {
            Some(sender) => !sender.feedback.is_live(now),
            None => false,
        }
    }

    /// Where the sender of the image at a place is.
    pub(crate) fn address(&self, place: Place) -> Option<SocketAddr>
        ensures { result ≡ address_of (slice_get self.now.senders place) }
    {
        match self.senders.as_slice().get(place) {
            Some(sender) => sender.address,
            None => None,
        }
    }

    /// Whether something came from another address than the sender of the image at a place.
    pub(crate) fn is_elsewhere(&self, place: Place, from: Option<SocketAddr>) -> bool
        ensures { MatchBool result
            (IsElsewhere from (slice_get self.now.senders place))
            (IsElsewhere from (slice_get self.now.senders place) → ⊥) }
    {
        match self.senders.as_slice().get(place) {
            Some(sender) => !sender.is_at(from),
            None => false,
        }
    }

    /// Whether nothing came from the sender of the image at a place for 2,000 milliseconds.
    pub(crate) fn is_silent(&self, place: Place, now: u64) -> bool
        ensures { result ≡ is_sender_silent now (slice_get self.now.senders place) }
    {
        match self.senders.as_slice().get(place) {
            Some(sender) => sender.is_silent(now),
            None => false,
        }
    }

    /// A setup frame of the image at a place came.
    pub(crate) fn set_up(&mut self, place: Place, from: Option<SocketAddr>, now: u64)
        ensures senders { ChangesAt place (slice_get self.old.senders place) self.old.senders self.new.senders (SetsUp from now) }
        ensures same { self.new ≡ record self.old { senders = self.new.senders } }
    {
        if let Some(sender) = self.senders.get_mut(place) {
            sender.set_up(from, now);
        }
    }

    fn hear(&mut self, place: Place, from: Option<SocketAddr>, now: u64)
        ensures senders { ChangesAt place (slice_get self.old.senders place) self.old.senders self.new.senders (Hears from now) }
        ensures same { self.new ≡ record self.old { senders = self.new.senders } }
    {
        if let Some(sender) = self.senders.get_mut(place) {
            sender.hear(from, now);
        }
    }

    /// Sends what is due to the sender of an image: a status message, if it is admitted anything, and a NAK.
    /// Whether a NAK was. Does not allocate.
    pub fn tend<E: SenderEnd>(
        &mut self,
        end: &mut E,
        place: Place,
        image: &BoundedImage,
        admission: Option<Admission>,
        now: u64,
    ) -> bool
        ensures { Tends E.puts place admission now image.now self.old end.old self.new end.new result }
    {
        match self.senders.get_mut(place) {
            Some(sender) => sender.tend(end, image, &self.receiver, admission, now),
            None => false,
        }
    }

    /// Asks the sender of frames for a setup frame, if their publication has no image and was not asked within the last 200
    /// milliseconds. Does not allocate.
    pub fn ask_for_setup<E: SenderEnd>(
        &mut self,
        end: &mut E,
        outcome: &DatagramOutcome,
        from: Option<SocketAddr>,
        now: u64,
    )
        ensures { AsksForSetup E.puts outcome.now from now self.old end.old self.new end.new }
    {
        if let (DatagramOutcome::Unknown(publication), Some(to)) = (outcome, from) {
            self.ask_publication(end, publication, to, now);
        }
    }

    /// Asks an address for a publication's setup frame, if the publication was not asked within the last 200 milliseconds.
    pub(crate) fn ask_publication<E: SenderEnd>(
        &mut self,
        end: &mut E,
        publication: &Publication,
        to: SocketAddr,
        now: u64,
    )
        ensures { AsksPublication E.puts publication.now to now self.old end.old self.new end.new }
    {
        if self.setups.asks(publication, now) {
            let status = setup_request(publication, self.receiver.id);
            end.put(&status.encode(), to);
        }
    }
}
