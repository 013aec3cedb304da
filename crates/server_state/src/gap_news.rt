//! What a server reports of gaps of images.

use frame_core::Publication;
use std::fmt;
use stream_pairs::ImageNumber;

/// Milliseconds of a second and of an hour.
const SECOND: u64 = 1_000;

const HOUR: u64 = 3_600_000;

/// What happened to the first gap of an image.
#[derive(Clone, Copy, Drop)]
pub enum GapNews {
    /// It stands: it was asked for, and nothing filled it.
    Stands {
        /// The image's number.
        image: ImageNumber,
        /// Its publication.
        publication: Publication,
        /// Where it begins, in bytes of the stream.
        position: i64,
        /// How many bytes are asked for.
        length: i32,
        /// For how many milliseconds it has stood.
        millis: u64,
        /// How many NAKs were sent for it.
        naks: u64,
    },
    /// One that was reported is filled.
    Filled {
        /// The image's number.
        image: ImageNumber,
        /// Where it began, in bytes of the stream.
        position: i64,
        /// After how many milliseconds.
        millis: u64,
    },
}

impl GapNews {
    /// Whether it is a fault.
    pub fn is_fault(&self) -> bool {
        match self {
            GapNews::Stands { .. } => true,
            GapNews::Filled { .. } => false,
        }
    }
}

impl fmt::Display for GapNews {
    fn fmt<W: fmt::Write>(&self, f: &mut fmt::Formatter<W>) -> fmt::Result {
        match self {
            GapNews::Stands {
                image,
                publication,
                position,
                length,
                millis,
                naks,
            } => {
                write!(
                    f,
                    "image {image} waits for {length} bytes at {position} of "
                )?;
                write_publication(f, publication)?;
                write!(f, ": for {}, {naks} NAKs", LongTime(*millis))
            }
            GapNews::Filled {
                image,
                position,
                millis,
            } => write!(
                f,
                "image {image} has the bytes at {position}, after {}",
                LongTime(*millis)
            ),
        }
    }
}

/// A publication, as lines name it.
pub(crate) fn write_publication<W: fmt::Write>(
    f: &mut fmt::Formatter<W>,
    publication: &Publication,
) -> fmt::Result {
    write!(
        f,
        "stream {}, session id {}",
        publication.stream_id, publication.session_id
    )
}

/// Milliseconds as whole seconds, or from an hour on as whole hours.
#[derive(Clone, Copy, Drop)]
struct LongTime(u64);

impl fmt::Display for LongTime {
    fn fmt<W: fmt::Write>(&self, f: &mut fmt::Formatter<W>) -> fmt::Result {
        let (count, unit) = if self.0 < HOUR {
            (self.0 / SECOND, "second")
        } else {
            (self.0 / HOUR, "hour")
        };
        let end = if count == 1 { "" } else { "s" };
        write!(f, "{count} {unit}{end}")
    }
}
