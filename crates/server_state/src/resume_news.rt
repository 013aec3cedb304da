//! What a server reports of publications that go on before their setup frames, and of holes between their recordings.

use crate::gap_news::write_publication;
use frame_core::Publication;
use std::fmt;
use stream_pairs::ImageNumber;

/// Why bytes of a publication are in no recording.
#[derive(Clone, Copy, Debug, PartialEq, Eq)]
pub enum HoleCause {
    /// They were asked for, and for 5 seconds nothing of them was sent again.
    NoRepeat,
    /// They lie further back than the publication's reach, in bytes.
    TooFar(u64),
    /// The image before was lost, since a block of it was refused.
    WasLost,
}

/// What happened where a publication came back.
#[derive(Clone, Copy, Drop)]
pub enum ResumeNews {
    /// An image begins where a recording stands, before its publication's setup frame.
    Resumes {
        /// The image's number.
        image: ImageNumber,
        /// Its publication.
        publication: Publication,
        /// Where it begins, in bytes of the stream.
        from: i64,
        /// The recording that stands there.
        recording: i64,
        /// Bytes from there to the setup frame.
        bytes: u64,
    },
    /// It has all up to the setup frame.
    Filled {
        /// The image's number.
        image: ImageNumber,
        /// Bytes that were missing.
        bytes: u64,
        /// Where the setup frame was, in bytes of the stream.
        to: i64,
        /// After how many milliseconds.
        millis: u64,
    },
    /// Bytes of a publication are in no recording.
    Hole {
        /// The publication.
        publication: Publication,
        /// Where they begin, in bytes of the stream.
        from: i64,
        /// Where they end.
        to: i64,
        /// Why.
        cause: HoleCause,
    },
    /// A publication went back: another recording of it ends further on.
    WentBack {
        /// The publication.
        publication: Publication,
        /// Where its setup frame is, in bytes of the stream.
        at: i64,
        /// The recording that ends further on.
        recording: i64,
        /// Where it ends.
        end: i64,
    },
    /// Holes stand between recordings of one publication when the server begins.
    HolesStand {
        /// How many.
        count: u64,
        /// Bytes of them.
        bytes: u64,
    },
}

impl ResumeNews {
    /// Whether it is a fault.
    pub fn is_fault(&self) -> bool {
        match self {
            ResumeNews::Resumes { .. } => false,
            ResumeNews::Filled { .. } => false,
            ResumeNews::Hole { .. } => true,
            ResumeNews::WentBack { .. } => true,
            ResumeNews::HolesStand { .. } => false,
        }
    }
}

impl fmt::Display for HoleCause {
    fn fmt<W: fmt::Write>(&self, f: &mut fmt::Formatter<W>) -> fmt::Result {
        match self {
            HoleCause::NoRepeat => f.write_str("no repeat came for 5 seconds"),
            HoleCause::TooFar(reach) => write!(f, "further than {reach} bytes back"),
            HoleCause::WasLost => f.write_str("its image was lost"),
        }
    }
}

impl fmt::Display for ResumeNews {
    fn fmt<W: fmt::Write>(&self, f: &mut fmt::Formatter<W>) -> fmt::Result {
        match self {
            ResumeNews::Resumes {
                image,
                publication,
                from,
                recording,
                bytes,
            } => {
                write!(f, "image {image} resumes ")?;
                write_publication(f, publication)?;
                write!(f, " at {from}, where recording {recording} stands: ")?;
                write!(f, "{bytes} bytes before its setup frame are asked for")
            }
            ResumeNews::Filled {
                image,
                bytes,
                to,
                millis,
            } => {
                write!(f, "image {image} has what was missing: ")?;
                write!(f, "{bytes} bytes up to {to}, after {millis} milliseconds")
            }
            ResumeNews::Hole {
                publication,
                from,
                to,
                cause,
            } => {
                write!(f, "hole: {} bytes of ", to.saturating_sub(*from))?;
                write_publication(f, publication)?;
                write!(f, ", from {from} to {to}, are in no recording: {cause}")
            }
            ResumeNews::WentBack {
                publication,
                at,
                recording,
                end,
            } => {
                write_publication(f, publication)?;
                write!(f, " went back: its setup frame is at {at}, ")?;
                write!(f, "and recording {recording} ends at {end}")
            }
            ResumeNews::HolesStand { count, bytes } => {
                let which = if *count == 1 {
                    "hole stands"
                } else {
                    "holes stand"
                };
                write!(f, "{count} {which} between recordings of one publication: ")?;
                write!(f, "{bytes} bytes")
            }
        }
    }
}
