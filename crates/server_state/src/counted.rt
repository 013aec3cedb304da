//! What was counted of images and of a server.

use std::fmt;

/// What was counted of an image.
#[derive(Clone, Copy, Debug, PartialEq, Eq)]
pub struct ImageCounted {
    /// Bytes of the stream that were recorded.
    pub recorded: u64,
    /// Datagrams that were lost past the stock.
    pub lost: u64,
    /// NAK frames that were sent.
    pub requests: u64,
}

/// What was counted of a server.
#[derive(Clone, Copy, Debug, PartialEq, Eq)]
pub struct Counted {
    /// Connections that were taken.
    pub connections: u64,
    /// Datagrams that came.
    pub datagrams: u64,
    /// Images that joined.
    pub images: u64,
    /// What was counted of all images.
    pub all: ImageCounted,
}

impl fmt::Display for ImageCounted {
    fn fmt<W: fmt::Write>(&self, f: &mut fmt::Formatter<W>) -> fmt::Result {
        write!(
            f,
            "bytes recorded {}, datagrams lost {}, NAKs {}",
            self.recorded, self.lost, self.requests
        )
    }
}

impl fmt::Display for Counted {
    fn fmt<W: fmt::Write>(&self, f: &mut fmt::Formatter<W>) -> fmt::Result {
        write!(
            f,
            "connections {}, datagrams {}, images {}, {}",
            self.connections, self.datagrams, self.images, self.all
        )
    }
}
