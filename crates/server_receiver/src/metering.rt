//! What is measured of datagrams and images, by time. docs/SERVING.md, "Metrics".

ghost use Rattle.std.specs.Prelude.{◌≡◌, ◌<◌, ◌^◌};
ghost use Rattle.server_receiver.specs.Metering.{asked_bytes, image_measured};

use crate::gaps::Gaps;
use crate::images::{DatagramOutcome, Images};
use crate::repeats::{Repeats, begins_at};
use crate::seen_images::SeenImages;
use frame_core::Nak;
use image_core::BoundedImage;
use metrics_text::ImageMeasures;
use server_state::{ReceivedMeasures, Reporter, Shared};
use std::alloc::{AllocError, Global};
use std::sync::Wait;
use stream_pairs::{ImageNumber, Place};

/// The longest time of a gap, and since a datagram, that is measured, in milliseconds: more than a hundred years.
const LONGEST: u64 = 1 << 42;

/// What is measured of datagrams and images.
#[derive(Clone, Copy)]
pub(crate) struct Metering {
    dropped: u64,
    repeated: u64,
    repeats: Repeats,
    gaps: Gaps,
    seen: SeenImages,
    /// When the server is measured next.
    measures_at: u64,
}

impl Metering {
    /// Nothing came.
    pub fn new() -> Metering {
        Metering {
            dropped: 0,
            repeated: 0,
            repeats: Repeats::new(),
            gaps: Gaps::new(),
            seen: SeenImages::new(),
            measures_at: 0,
        }
    }

    /// Notes a datagram: one that changed nothing, or one that came late or again.
    pub fn note(&mut self, outcome: &DatagramOutcome, datagram: &[u8], images: &Images) {
        match outcome {
            DatagramOutcome::Joined { place, .. } => {
                self.forget(*place);
                self.seen.note(*place);
            }
            DatagramOutcome::SetUp { place } => self.seen.note(*place),
            DatagramOutcome::Frames { place, .. } => self.note_frames(*place, datagram, images),
            _ => self.dropped = self.dropped.saturating_add(1),
        }
    }

    /// A new image is at a place.
    pub fn forget(&mut self, place: Place) {
        self.repeats.forget(place);
        self.seen.forget(place);
    }

    /// The last datagram came at this time, if it came since the last call.
    pub fn note_time(&mut self, now: u64) {
        self.seen.note_time(now);
    }

    fn note_frames(&mut self, place: Place, datagram: &[u8], images: &Images) {
        self.seen.note(place);
        let Some(known) = images.get(place) else {
            return;
        };
        let begins = begins_at(datagram, known.geometry());
        if self.repeats.note(place, begins) {
            self.repeated = self.repeated.saturating_add(1);
        }
    }

    /// Whether the server is to be measured now.
    pub fn is_due(&self, now: u64) -> bool {
        self.measures_at <= now
    }

    /// Measures the server, which sent so many status messages, and hands that on. Without memory nothing is.
    pub fn measure<R: Wait, T: Reporter>(
        &mut self,
        rt: &R,
        alloc: Global,
        shared: &Shared<T>,
        images: &Images,
        status_messages: u64,
        now: u64,
    ) {
        self.measures_at = now.saturating_add(shared.measures_every());
        let received = ReceivedMeasures {
            dropped: self.dropped,
            repeats: self.repeated,
            status_messages,
        };
        if let Ok(measured) = self.measured(rt, alloc, shared, images, now) {
            shared.report_measures(rt, alloc, received, measured);
        }
    }

    /// What is measured of each image.
    fn measured<R: Wait, T: Reporter>(
        &mut self,
        rt: &R,
        alloc: Global,
        shared: &Shared<T>,
        images: &Images,
        now: u64,
    ) -> Result<Vec<ImageMeasures>, AllocError> {
        let mut measured = Vec::new(alloc);
        for place in 0..images.len() {
            let known = (shared.key_at(rt, place), images.get(place));
            if let (Some(key), Some(image)) = known {
                let stood = self.gaps.follow(place, gap_of(image), now);
                let seen = self.seen.at(place);
                let counted = shared.counts.counted(place);
                let traffic = ImageTraffic {
                    gap_millis: stood.min(LONGEST),
                    gap_bytes: asked_bytes(image.request()),
                    hole_bytes: shared.hole_bytes(rt, image.publication()),
                    datagrams: seen.datagrams,
                    naks: counted.requests,
                    lost: counted.lost,
                    silent_millis: seen.silent(now).min(LONGEST),
                };
                measured.push(image_measured(key.number, image, &traffic))?;
            }
        }
        Ok(measured)
    }
}

/// Where the first gap of an image begins, in bytes of the stream, if it is asked for.
fn gap_of(image: &BoundedImage) -> Option<i64> {
    match image.request() {
        Some(_) => Some(image.rebuilt()),
        None => None,
    }
}

/// How many bytes of the first gap of an image are asked for: none without a request.
fn asked_bytes(request: Option<Nak>) -> u64
    ensures { result ≡ asked_bytes request }
{
    match request {
        Some(nak) => u64::from(nak.length.unsigned_abs()),
        None => 0,
    }
}

/// What was counted of an image, and for how long what stands.
#[derive(Clone, Copy)]
struct ImageTraffic {
    /// For how many milliseconds its first gap has stood.
    gap_millis: u64,
    /// Bytes of that gap that are asked for.
    gap_bytes: u64,
    /// Bytes of holes of its publication that were seen.
    hole_bytes: u64,
    /// Datagrams that came for it.
    datagrams: u64,
    /// NAK frames that were sent for it.
    naks: u64,
    /// Datagrams that were lost past its stock.
    lost: u64,
    /// Milliseconds since its last datagram came.
    silent_millis: u64,
}

/// What is measured of an image with this number, of which so much was counted.
fn image_measured(
    number: ImageNumber,
    image: &BoundedImage,
    traffic: &ImageTraffic,
) -> ImageMeasures
    requires gap { traffic.now.gap_millis < 2 ^ 43 }
    requires silent { traffic.now.silent_millis < 2 ^ 43 }
    ensures { result ≡ image_measured number image.now traffic.now }
{
    let publication = image.publication();
    ImageMeasures {
        image: number,
        stream_id: publication.stream_id,
        session_id: publication.session_id,
        rebuilt: image.rebuilt(),
        consumed: image.taken(),
        gap_micros: traffic.gap_millis * 1_000,
        gap_bytes: traffic.gap_bytes,
        hole_bytes: traffic.hole_bytes,
        datagrams: traffic.datagrams,
        naks: traffic.naks,
        lost: traffic.lost,
        silent_micros: traffic.silent_millis * 1_000,
    }
}
