//! What the senders of images are admitted. docs/PROTOCOL.md, "Status messages and NAKs of a receiver".

ghost use Rattle.std.specs.Prelude.{◌≡◌, ◌<◌, ◌^◌, replicate, slice_index_or, slice_set};
ghost use Rattle.server_receiver.specs.Admission.{admission_of, from_zero, has_opened, is_sender_held};
ghost use Rattle.server_receiver.specs.declared.admission.Course.TheVariants.{Waits};

use crate::senders::{Receiver, most_for};
use flow_control::{settled_bound, told_position};
use frame_core::Geometry;
use image_core::BoundedImage;
use stream_pairs::{MAX_IMAGES, Place};

/// How an image is recorded.
#[derive(Clone, Copy, Debug, PartialEq, Eq)]
pub enum Course {
    /// A session that is open records it, and is settled up to a position, in bytes of the stream.
    IsSettledTo(i64),
    /// A recording begins with its first block.
    Begins,
    /// Neither.
    Waits,
}

/// What a status message admits.
#[derive(Clone, Copy, Debug, PartialEq, Eq)]
pub struct Admission {
    /// The bound of its window, in bytes.
    pub most: i32,
    /// The bound of the position that it names, in bytes of the stream.
    pub bound: Option<u64>,
}

/// What the sender of an image is admitted: nothing past five sixteenths of a term after what is settled; a frame of the longest
/// kind, if a recording begins with the first one. None if it is admitted nothing.
pub(crate) fn admission_of(
    receiver: &Receiver,
    geometry: &Geometry,
    course: Course,
) -> Option<Admission>
    ensures { result ≡ admission_of receiver.now geometry.now course }
{
    let most = most_for(receiver, geometry);
    match course {
        Course::IsSettledTo(position) => Some(Admission {
            most,
            bound: Some(settled_bound(geometry, most, from_zero(position))),
        }),
        Course::Begins => Some(Admission {
            most: geometry.mtu.min(most),
            bound: None,
        }),
        Course::Waits => None,
    }
}

/// A position, or the beginning of the stream if it is before that.
fn from_zero(position: i64) -> u64
    ensures value { result ≡ from_zero position }
    ensures small { result < 2 ^ 63 }
{
    position.max(0).unsigned_abs()
}

/// Whether the sender of an image is held back by what is not settled: the position that status messages name lies a quarter of
/// the window or more before the consumed one.
pub(crate) fn is_held(image: &BoundedImage, admission: &Admission) -> bool
    ensures { result ≡ is_sender_held image.now admission.now }
{
    let told = told_position(image, admission.bound);
    u64::from(admission.most.unsigned_abs()) / 4
        <= image.taken().unsigned_abs().saturating_sub(told)
}

/// Whether an image whose sender was admitted one frame is recorded.
pub(crate) fn has_opened(before: Course, course: Course) -> bool
    ensures { result ≡ has_opened before course }
{
    match (before, course) {
        (Course::Begins, Course::IsSettledTo(_)) => true,
        _ => false,
    }
}

/// How the images are recorded, by their places, as it was looked at last.
#[derive(Clone, Copy)]
pub(crate) struct Courses {
    courses: [Course; MAX_IMAGES],
}

impl Courses {
    /// No image came.
    pub fn new() -> Courses
        ensures { result ≡ record { courses = replicate 64 Waits } }
    {
        Courses {
            courses: [Course::Waits; MAX_IMAGES],
        }
    }

    /// How the image at a place is recorded.
    pub fn at(&self, place: Place) -> Course
        ensures { result ≡ slice_index_or self.now.courses place Waits }
    {
        match self.courses.get(place) {
            Some(course) => *course,
            None => Course::Waits,
        }
    }

    /// The image at a place is recorded so.
    pub fn set(&mut self, place: Place, course: Course)
        ensures { self.new ≡ record self.old { courses = slice_set self.old.courses place course } }
    {
        if place < MAX_IMAGES {
            self.courses[place] = course;
        }
    }
}
