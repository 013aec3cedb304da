//! Images that begin where a recording stands, before their publications' setup frames, and whether what lies between comes.
//! docs/PROTOCOL.md, "Where an image joins".

ghost use Rattle.std.specs.Prelude.{◌≡◌, None, Some, IfSome, replicate, slice_index_or, slice_set};
ghost use Rattle.server_receiver.specs.Resuming.{IsSetupAt, begins_anew, begun_image, is_given_up, is_whole, looked_at, progress, progress_of, resumed_after, resumed_on};

use frame_core::{Setup, term_of};
use stream_pairs::{MAX_IMAGES, Place, StreamPoint};

/// Milliseconds without a repeat after which an image is given up.
const PATIENCE: u64 = 5_000;
/// Milliseconds without a datagram of the publication after which the time begins anew.
const QUIET: u64 = 1_000;

/// An image that resumes.
#[derive(Clone, Copy, Debug, PartialEq, Eq)]
pub(crate) struct ResumedImage {
    /// Where it began, in bytes of the stream.
    pub from: i64,
    /// Where its publication's setup frame was.
    pub to: i64,
    /// When it began, in milliseconds.
    pub begun: u64,
    /// Its rebuild position when the time began.
    pub rebuilt: i64,
    /// When the time began that it waits for a repeat.
    pub since: u64,
}

/// What is seen of an image that resumes.
#[derive(Clone, Copy, Debug, PartialEq, Eq)]
pub(crate) struct Looked {
    /// Its rebuild position, in bytes of the stream.
    pub rebuilt: i64,
    /// Whether something is missing that there is room for.
    pub asks: bool,
    /// When something of its publication came last, in milliseconds.
    pub heard: u64,
    /// The time, in milliseconds.
    pub time: u64,
}

/// How far an image is that resumes.
#[derive(Clone, Copy, Debug, PartialEq, Eq)]
pub(crate) enum Progress {
    /// It waits, or no image resumes.
    Waits,
    /// It has all up to the setup frame.
    IsWhole(ResumedImage),
    /// It is given up: nothing was sent again for 5,000 milliseconds, while its sender was heard.
    GivesUp(ResumedImage),
}

/// The images that resume, by their places.
#[derive(Clone, Copy)]
pub(crate) struct ResumedImages {
    images: [Option<ResumedImage>; MAX_IMAGES],
}

impl ResumedImages {
    /// No image resumes.
    pub fn new() -> ResumedImages
        ensures { result ≡ record { images = replicate 64 None } }
    {
        ResumedImages {
            images: [None; MAX_IMAGES],
        }
    }

    /// The image at a place resumes: it began at one position, and its publication's setup frame was at another.
    pub fn begin(&mut self, place: Place, from: i64, to: i64, now: u64)
        ensures { self.new ≡ record self.old { images = slice_set self.old.images place (Some (begun_image from to now)) } }
    {
        self.set(place, Some(begun_image(from, to, now)));
    }

    /// Whether the image at a place resumes.
    pub fn at(&self, place: Place) -> Option<ResumedImage>
        ensures { result ≡ slice_index_or self.now.images place None }
    {
        match self.images.get(place) {
            Some(image) => *image,
            None => None,
        }
    }

    /// The image at a place is looked at. One that is whole or given up does not resume any more.
    pub fn follow(&mut self, place: Place, look: &Looked) -> Progress
        ensures progress { result ≡ progress look.now (slice_index_or self.old.images place None) }
        ensures after { self.new ≡ record self.old {
          images = slice_set self.old.images place (resumed_after look.now (slice_index_or self.old.images place None));
        } }
    {
        let known = self.at(place);
        self.set(place, resumed_after(look, known));
        match known {
            Some(image) => progress_of(look, &image),
            None => Progress::Waits,
        }
    }

    /// No image resumes at a place.
    pub fn forget(&mut self, place: Place)
        ensures { self.new ≡ record self.old { images = slice_set self.old.images place None } }
    {
        self.set(place, None);
    }

    fn set(&mut self, place: Place, image: Option<ResumedImage>)
        ensures { self.new ≡ record self.old { images = slice_set self.old.images place image } }
    {
        if place < MAX_IMAGES {
            self.images[place] = image;
        }
    }
}

/// An image that begins to resume.
fn begun_image(from: i64, to: i64, now: u64) -> ResumedImage
    ensures { result ≡ begun_image from to now }
{
    ResumedImage {
        from,
        to,
        begun: now,
        rebuilt: from,
        since: now,
    }
}

fn resumed_after(look: &Looked, known: Option<ResumedImage>) -> Option<ResumedImage>
    ensures { result ≡ resumed_after look.now known }
{
    match known {
        Some(image) => resumed_on(look, &image),
        None => None,
    }
}

fn resumed_on(look: &Looked, image: &ResumedImage) -> Option<ResumedImage>
    ensures { result ≡ resumed_on look.now image.now }
{
    if is_whole(look, image) || is_given_up(look, image) {
        None
    } else {
        Some(looked_at(look, image))
    }
}

fn progress_of(look: &Looked, image: &ResumedImage) -> Progress
    ensures { result ≡ progress_of look.now image.now }
{
    if is_whole(look, image) {
        Progress::IsWhole(*image)
    } else if is_given_up(look, image) {
        Progress::GivesUp(*image)
    } else {
        Progress::Waits
    }
}

fn is_whole(look: &Looked, image: &ResumedImage) -> bool
    ensures { result ≡ is_whole look.now image.now }
{
    image.to <= look.rebuilt
}

/// Whether the time that an image waits for a repeat begins anew.
fn begins_anew(look: &Looked, image: &ResumedImage) -> bool
    ensures { result ≡ begins_anew look.now image.now }
{
    look.rebuilt != image.rebuilt || !look.asks || QUIET <= look.time.saturating_sub(look.heard)
}

fn looked_at(look: &Looked, image: &ResumedImage) -> ResumedImage
    ensures { result ≡ looked_at look.now image.now }
{
    if begins_anew(look, image) {
        ResumedImage {
            rebuilt: look.rebuilt,
            since: look.time,
            ..*image
        }
    } else {
        *image
    }
}

fn is_given_up(look: &Looked, image: &ResumedImage) -> bool
    ensures { result ≡ is_given_up look.now image.now }
{
    !begins_anew(look, image) && PATIENCE <= look.time.saturating_sub(image.since)
}

/// The setup frame of a publication by which an image of it begins at a position. None if there is none.
pub(crate) fn setup_at(point: &StreamPoint, position: i64) -> Option<Setup>
    ensures { IfSome result (IsSetupAt point.now position) }
{
    let geometry = point.geometry;
    let end = (1 << 31) * i64::from(geometry.term_length);
    if geometry.term_length <= 0 || position < 0 || end <= position {
        return None;
    }
    let (active_term_id, term_offset) = term_of(&geometry, position);
    let setup = Setup {
        flags: 0,
        term_offset,
        session_id: point.publication.session_id,
        stream_id: point.publication.stream_id,
        initial_term_id: geometry.initial_term_id,
        active_term_id,
        term_length: geometry.term_length,
        mtu: geometry.mtu,
        ttl: 0,
    };
    match setup.join_position() {
        Some(begins) if begins == position => Some(setup),
        _ => None,
    }
}
