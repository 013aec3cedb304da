//! Where images come from, and what was found of them in the archive. docs/ARCHITECTURE.md, "Where an image joins".

ghost use Rattle.std.specs.Prelude.{◌≡◌, None, Some, replicate, slice_set};
ghost use Rattle.server_state.specs.Places.{after_filling};
ghost use Rattle.server_state.specs.Resuming.{after_finding, after_loss, origin_of, origin_with};

use crate::pairing::ImageKey;
use crate::resuming::{Resumes, Stand};
use std::net::SocketAddr;
use stream_pairs::{ImageNumber, MAX_IMAGES, Place};

/// What the recording thread found for an image whose stream is recorded without being asked.
#[derive(Clone, Copy, Debug, PartialEq, Eq)]
pub enum Found {
    /// It has not looked.
    Unasked,
    /// A recording that the server opened for it.
    Recorded,
    /// A recording that stands before its setup frame, where it may go on.
    Stands(Stand),
    /// Nothing: a recording begins with its first block.
    Nothing,
    /// Nothing yet: the call was refused.
    Refused,
}

/// Where an image comes from.
#[derive(Clone, Copy, Drop)]
pub struct Origin {
    /// The image's number.
    pub number: ImageNumber,
    /// Who sent its setup frame.
    pub sender: Option<SocketAddr>,
    /// Whether it may go on before its setup frame.
    pub resumes: Resumes,
    /// What was found for it.
    pub found: Found,
    /// Whether a block of it was refused, and so it was lost.
    pub is_refused: bool,
    /// Whether it has had a block while it fed no session.
    pub has_block: bool,
}

/// Where the images come from, by their places.
#[derive(Clone, Copy, Drop)]
pub(crate) struct Origins {
    origins: [Option<Origin>; MAX_IMAGES],
}

impl Origins {
    /// No image came.
    pub fn new() -> Origins
        ensures { result ≡ record { origins = replicate 64 None } }
    {
        Origins {
            origins: [None; MAX_IMAGES],
        }
    }

    /// An image came to a place.
    pub fn put(&mut self, place: Place, origin: Origin)
        ensures { self.new ≡ record self.old { origins = slice_set self.old.origins place (Some origin) } }
    {
        if place < MAX_IMAGES {
            self.origins[place] = Some(origin);
        }
    }

    /// Where an image comes from, if it is at its place still.
    pub fn of(&self, key: &ImageKey) -> Option<Origin>
        ensures { result ≡ origin_of key.now self.now.origins }
    {
        match self.origins.get(key.place) {
            Some(origin) => origin_with(key.number, *origin),
            None => None,
        }
    }

    /// The recording thread has found this for an image. Nothing changes if the image is not at its place any more.
    pub fn note(&mut self, key: &ImageKey, found: Found)
        ensures { self.new ≡ record self.old { origins = after_finding key.now found self.old.origins } }
    {
        if let Some(origin) = self.of(key) {
            self.put(key.place, Origin { found, ..origin });
        }
    }

    /// An image has its first block. Nothing changes if the image is not at its place any more.
    pub fn fill(&mut self, key: &ImageKey)
        ensures { self.new ≡ record self.old { origins = after_filling key.now self.old.origins } }
    {
        if let Some(origin) = self.of(key) {
            self.put(
                key.place,
                Origin {
                    has_block: true,
                    ..origin
                },
            );
        }
    }

    /// A block of an image was refused. Nothing changes if the image is not at its place any more.
    pub fn refuse(&mut self, key: &ImageKey)
        ensures { self.new ≡ record self.old { origins = after_loss key.now self.old.origins } }
    {
        if let Some(origin) = self.of(key) {
            self.put(
                key.place,
                Origin {
                    is_refused: true,
                    ..origin
                },
            );
        }
    }
}

/// Where the image of a number comes from, if that is known.
fn origin_with(number: ImageNumber, origin: Option<Origin>) -> Option<Origin>
    ensures { result ≡ origin_with number origin }
{
    match origin {
        Some(origin) if origin.number == number => Some(origin),
        _ => None,
    }
}
