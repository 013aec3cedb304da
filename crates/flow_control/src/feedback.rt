//! What the sender of an image is sent, and when: docs/PROTOCOL.md, "Status messages and NAKs of a receiver".

ghost use Rattle.std.specs.Prelude.{◌≡◌, ◌≤ℤ◌, ◌&&◌, ◌+◌, ◌<◌, ◌^◌, pos, None, IfSome, unsigned_abs};
ghost use Rattle.frame_core.specs.Status.{MayStand};
ghost use Rattle.flow_control.specs.Feedback.{GivesRequest, GivesStatus, is_live, is_request_due, is_request_time, is_status_due, is_status_time, next_pause, was_asked};
ghost use Rattle.flow_control.specs.Progress.{HasRoomWithin, IsAlignedImage};
ghost use Rattle.flow_control.specs.Windows.{receiver_window};

use crate::consumption::{has_term, rebuilt, status_of, told_position};
use crate::timing::{has_passed, is_quarter};
use crate::windows::{has_window, receiver_window};
use frame_core::{Nak, StatusMessage};
use image_core::BoundedImage;

// Milliseconds after which a publication of which nothing came is not live.
const SILENCE: u64 = 10_000;
// Milliseconds from one status message to the next, if the position that they name hardly moves.
const STATUS_PAUSE: u64 = 200;
// Milliseconds from the first NAK of a gap to the second.
const FIRST_PAUSE: u64 = 10;
// Milliseconds from one NAK of a gap to the next, at most.
const LONGEST_PAUSE: u64 = 160;

/// A status message that was sent.
#[derive(Clone, Copy, Debug, PartialEq, Eq)]
pub struct SentStatus {
    /// When, in milliseconds.
    pub at: u64,
    /// The position that it named, in bytes of the stream.
    pub position: u64,
}

/// A NAK that was sent.
#[derive(Clone, Copy, Debug, PartialEq, Eq)]
pub struct SentRequest {
    /// When, in milliseconds.
    pub at: u64,
    /// Where the gap began, in bytes of the stream.
    pub position: u64,
    /// Where what it asked for ends.
    pub end: u64,
    /// How many milliseconds have to pass until that is asked for again.
    pub pause: u64,
}

/// What the sender of one image was sent, and when something came from it. Times are milliseconds of a clock that does not
/// go back.
#[derive(Clone, Copy, Debug, PartialEq, Eq)]
pub struct Feedback {
    /// When a datagram of the publication that was not refused, or its setup frame, came last.
    pub heard: u64,
    /// The last status message.
    pub status: Option<SentStatus>,
    /// The last NAK.
    pub request: Option<SentRequest>,
}

impl Feedback {
    /// The setup frame of an image came now, and its sender was sent nothing yet. Does not allocate.
    pub fn new(now: u64) -> Feedback
        ensures { result ≡ record { heard = now; status = None; request = None } }
    {
        Feedback {
            heard: now,
            status: None,
            request: None,
        }
    }

    /// A datagram of the publication that was not refused, or its setup frame, came now. Does not allocate.
    pub fn hear(&mut self, now: u64)
        ensures { self.new ≡ record self.old { heard = now } }
    {
        self.heard = now;
    }

    /// Whether something came less than 10,000 milliseconds ago. Does not allocate.
    pub fn is_live(&self, now: u64) -> bool
        ensures { result ≡ is_live now self.now }
    {
        !has_passed(SILENCE, self.heard, now)
    }

    /// The status message that is due now, of a receiver with this id. None if no status message is due, and nothing
    /// changes then. `most` is the bound of its window, in bytes. `bound` is one of the position that it names, in bytes of
    /// the stream, if there is one: the message names the consumed position, but no position past the bound.
    ///
    /// It is due if the image is live, its publication has a window ([`window_of`](crate::window_of)), the position that it
    /// names has a term id, and it is time for it. It is time if none was sent yet, if 200 milliseconds have passed since
    /// the last one, or if that named a position that is a quarter of the window or more before this one's. Does not
    /// allocate.
    pub fn status(
        &mut self,
        now: u64,
        image: &BoundedImage,
        most: i32,
        bound: Option<u64>,
        receiver_id: i64,
    ) -> Option<StatusMessage>
        ensures due { GivesStatus now most bound receiver_id image.now self.old result self.new }
        // The stock and the window of the image have room for each frame that the message admits, then and later.
        ensures room { IfSome result (λ status. HasRoomWithin image.now status.receiver_window) }
        // `StatusMessage::decode` reads it.
        ensures stands { IfSome result (λ status.
            IsAlignedImage image.now → pos 0 ≤ℤ most → MayStand status) }
    {
        if !self.is_status_due(now, image, most, bound) {
            return None;
        }
        self.status = Some(SentStatus {
            at: now,
            position: told_position(image, bound),
        });
        Some(status_of(image, most, bound, receiver_id))
    }

    /// The NAK that is due now, as [`BoundedImage::request`] gives it. None if no NAK is due, and nothing changes then.
    ///
    /// It is due if the image is live, something is missing for which there is room, and it is time for it. It is time if
    /// the gap begins outside of what the last NAK asked for, or if the pause after that NAK has passed. The pause is 10
    /// milliseconds after the first NAK of a gap that begins at a position, then 20, 40 and 80, and then 160 each time.
    /// Does not allocate.
    pub fn request(&mut self, now: u64, image: &BoundedImage) -> Option<Nak>
        ensures { GivesRequest now image.now self.old result self.new }
    {
        let gap = rebuilt(image);
        if !self.is_request_due(now, gap) {
            return None;
        }
        let nak = image.request()?;
        self.request = Some(SentRequest {
            at: now,
            position: gap,
            end: range_end(gap, &nak),
            pause: next_pause(gap, &self.request),
        });
        Some(nak)
    }

    /// Whether a status message is due of an image whose window has at most so many bytes, and whose status messages name
    /// no position past a bound: [`status`](Feedback::status) gives one then. Does not allocate.
    pub fn is_status_due(
        &self,
        now: u64,
        image: &BoundedImage,
        most: i32,
        bound: Option<u64>,
    ) -> bool
        ensures { result ≡ is_status_due now most bound image.now self.now }
    {
        let geometry = image.geometry();
        let told = told_position(image, bound);
        self.is_live(now)
            && has_window(geometry, most)
            && has_term(image, told)
            && is_status_time(now, receiver_window(geometry, most), told, &self.status)
    }

    /// Whether a NAK may go out for the gap that begins at a position.
    fn is_request_due(&self, now: u64, gap: u64) -> bool
        ensures { result ≡ is_live now self.now && is_request_time now gap self.now.request }
    {
        self.is_live(now) && is_request_time(now, gap, &self.request)
    }
}

/// Whether it is time for a status message that names a position.
fn is_status_time(time: u64, window: i32, told: u64, last: &Option<SentStatus>) -> bool
    ensures { result ≡ is_status_time time window told last.now }
{
    match last {
        Some(last) => {
            has_passed(STATUS_PAUSE, last.at, time) || is_quarter(window, last.position, told)
        }
        None => true,
    }
}

/// Whether it is time for a NAK for the gap that begins at a position.
fn is_request_time(time: u64, gap: u64, last: &Option<SentRequest>) -> bool
    ensures { result ≡ is_request_time time gap last.now }
{
    match last {
        Some(last) => !was_asked(gap, last) || has_passed(last.pause, last.at, time),
        None => true,
    }
}

/// Whether the gap that begins at a position begins inside what a NAK asked for.
fn was_asked(gap: u64, last: &SentRequest) -> bool
    ensures { result ≡ was_asked gap last.now }
{
    last.position <= gap && gap < last.end
}

/// Where the range of a NAK ends, which begins at a position.
fn range_end(begin: u64, nak: &Nak) -> u64
    requires { begin < 2 ^ 63 }
    ensures { result ≡ begin + unsigned_abs nak.now.length }
{
    begin + u64::from(nak.length.unsigned_abs())
}

/// How many milliseconds to wait after a NAK for the gap that begins at a position.
fn next_pause(gap: u64, last: &Option<SentRequest>) -> u64
    ensures { result ≡ next_pause gap last.now }
{
    match last {
        Some(last) if last.position == gap => last.pause.saturating_mul(2).min(LONGEST_PAUSE),
        _ => FIRST_PAUSE,
    }
}
