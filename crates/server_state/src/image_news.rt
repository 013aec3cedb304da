//! What a server reports of images.

use crate::counted::ImageCounted;
use crate::refusal_text::RefusalText;
use frame_core::Refusal;
use std::fmt;
use std::net::SocketAddr;
use stream_pairs::{ImageNumber, StreamPoint};

/// What happened to an image, or to the places of images.
#[derive(Clone, Copy, Drop)]
pub enum ImageNews {
    /// An image joined.
    Joined {
        /// Its number, counted from 0.
        image: ImageNumber,
        /// Where it joined.
        point: StreamPoint,
        /// Who sent the setup frame.
        sender: Option<SocketAddr>,
    },
    /// An image's publication has an MTU that is longer than its window: its sender is sent no status messages.
    NoWindow {
        /// The image's number.
        image: ImageNumber,
        /// The MTU, in bytes.
        mtu: i32,
    },
    /// The server records an image by itself.
    Recorded {
        /// The image's number.
        image: ImageNumber,
        /// The recording's id.
        recording: i64,
    },
    /// The server can't record an image by itself.
    NotRecorded {
        /// The image's number.
        image: ImageNumber,
        /// Why.
        cause: Refusal,
    },
    /// The server does not record an image by itself yet: it has begun as many recordings as it may within a short time.
    TooManyBegun {
        /// The image's number.
        image: ImageNumber,
    },
    /// The place of an image is given back: it is not live any more, was lost, or its session has ended.
    Left {
        /// The image's number.
        image: ImageNumber,
        /// What was counted of the image.
        counted: ImageCounted,
    },
    /// The last of 64 images was used.
    Last,
    /// All 64 places of images are taken, until one is given back.
    AllPlacesTaken,
}

impl ImageNews {
    /// Whether it is a fault.
    pub fn is_fault(&self) -> bool {
        match self {
            ImageNews::NoWindow { .. } => true,
            ImageNews::NotRecorded { .. } => true,
            ImageNews::TooManyBegun { .. } => true,
            _ => false,
        }
    }
}

impl fmt::Display for ImageNews {
    fn fmt<W: fmt::Write>(&self, f: &mut fmt::Formatter<W>) -> fmt::Result {
        match self {
            ImageNews::Joined {
                image,
                point,
                sender,
            } => write_joined(f, image, point, sender),
            ImageNews::NoWindow { image, mtu } => write!(
                f,
                "image {image} is sent no status messages: its MTU of {mtu} bytes is longer than its window"
            ),
            ImageNews::Recorded { image, recording } => {
                write!(f, "image {image} is recorded by recording {recording}")
            }
            ImageNews::NotRecorded { image, cause } => write!(
                f,
                "image {image} is not recorded: {}",
                RefusalText(*cause)
            ),
            ImageNews::TooManyBegun { image } => write!(
                f,
                "image {image} is not recorded: 64 recordings were begun in a short time"
            ),
            ImageNews::Left { image, counted } => write!(f, "image {image} has left: {counted}"),
            ImageNews::Last => f.write_str(
                "the last of 64 images is used: further publications are ignored until a restart",
            ),
            ImageNews::AllPlacesTaken => f.write_str(
                "all 64 places of images are taken: further publications are ignored until one is given back",
            ),
        }
    }
}

fn write_joined<W: fmt::Write>(
    f: &mut fmt::Formatter<W>,
    image: &u64,
    point: &StreamPoint,
    sender: &Option<SocketAddr>,
) -> fmt::Result {
    write!(f, "image {image} joined")?;
    if let Some(sender) = sender {
        write!(f, " from {sender}")?;
    }
    write!(
        f,
        ": stream {}, session id {}, initial term {}",
        point.publication.stream_id, point.publication.session_id, point.geometry.initial_term_id
    )?;
    write!(
        f,
        ", term length {}, mtu {}, position {}",
        point.geometry.term_length, point.geometry.mtu, point.position
    )
}
