//! What a server reports of places of images, and of whose frames an image takes.

use crate::gap_news::write_publication;
use frame_core::Publication;
use frame_core::limits::MAX_RECORDINGS;
use std::fmt;
use std::net::SocketAddr;
use stream_pairs::ImageNumber;

/// What happened to a place, or to the sender of an image.
#[derive(Clone, Copy, Drop)]
pub enum PlaceNews {
    /// An image yields its place to a publication that is wanted.
    Yields {
        /// The image's number.
        image: ImageNumber,
        /// The publication.
        to: Publication,
    },
    /// A publication that is wanted gets no place.
    NoPlace {
        /// The publication.
        publication: Publication,
        /// How many times more that was so since it was reported last.
        more: u64,
    },
    /// Something of an image's publication came from another address than its sender.
    Stranger {
        /// The image's number.
        image: ImageNumber,
        /// The address.
        from: SocketAddr,
        /// Where the sender is.
        sender: SocketAddr,
    },
    /// The sender of an image is at another address from now on.
    Moved {
        /// The image's number.
        image: ImageNumber,
        /// The address.
        to: SocketAddr,
        /// Where it was.
        from: SocketAddr,
    },
    /// So many recordings stand.
    Recordings {
        /// How many.
        count: usize,
    },
    /// A recording of the server's own was stopped, and nothing was recorded by it.
    Purged {
        /// The recording's id.
        recording: i64,
    },
}

impl PlaceNews {
    /// Whether it is a fault.
    pub fn is_fault(&self) -> bool {
        match self {
            PlaceNews::Yields { .. } => false,
            PlaceNews::NoPlace { .. } => true,
            PlaceNews::Stranger { .. } => true,
            PlaceNews::Moved { .. } => true,
            PlaceNews::Recordings { .. } => false,
            PlaceNews::Purged { .. } => false,
        }
    }
}

impl fmt::Display for PlaceNews {
    fn fmt<W: fmt::Write>(&self, f: &mut fmt::Formatter<W>) -> fmt::Result {
        match self {
            PlaceNews::Yields { image, to } => {
                write!(f, "image {image} yields its place to ")?;
                write_publication(f, to)
            }
            PlaceNews::NoPlace { publication, more } => {
                f.write_str("no place for ")?;
                write_publication(f, publication)?;
                f.write_str(": 64 images are recorded")?;
                if *more > 0 {
                    write!(f, ", and {more} more")?;
                }
                Ok(())
            }
            PlaceNews::Stranger {
                image,
                from,
                sender,
            } => write!(
                f,
                "image {image} takes no frames from {from}: its sender is {sender}"
            ),
            PlaceNews::Moved { image, to, from } => {
                write!(
                    f,
                    "image {image} has another sender: {to} in place of {from}"
                )
            }
            PlaceNews::Recordings { count } => {
                write!(f, "{count} of {MAX_RECORDINGS} recordings stand")
            }
            PlaceNews::Purged { recording } => {
                write!(f, "recording {recording} was empty, and is purged")
            }
        }
    }
}
