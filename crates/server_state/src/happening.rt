//! What a server reports: docs/SERVING.md, "What the server prints".

use crate::archive_news::ArchiveNews;
use crate::client_news::ClientNews;
use crate::counted::Counted;
use crate::gap_news::GapNews;
use crate::image_news::ImageNews;
use crate::place_news::PlaceNews;
use crate::resume_news::ResumeNews;
use crate::send_news::SendNews;
use crate::session_news::SessionNews;
use std::fmt;
use std::net::SocketAddr;

/// What happened.
#[derive(Clone, Copy, Drop)]
pub enum Happening<'a> {
    /// The ports are bound, for control lines and for datagrams.
    Bound {
        /// Where control lines come to.
        control: SocketAddr,
        /// Where datagrams come to.
        receive: SocketAddr,
    },
    /// The port is bound that lines of clients come to which only read.
    BoundConsumers {
        /// Where these lines come to.
        consumers: SocketAddr,
    },
    /// The port is bound that recordings are sent from.
    BoundSending {
        /// Where their datagrams come from.
        send: SocketAddr,
    },
    /// Something of the archive.
    Archive(ArchiveNews),
    /// Something of an image, or of the places of images.
    Image(ImageNews),
    /// Something of a gap of an image.
    Gap(GapNews),
    /// Something of a publication that came back.
    Resume(ResumeNews),
    /// Something of a place, or of whose frames an image takes.
    Place(PlaceNews),
    /// Something of a recorder session that images feed, or of the seats of such sessions.
    Session(SessionNews),
    /// Something of a client.
    Client(ClientNews<'a>),
    /// Something of a recording that is sent.
    Sending(SendNews),
    /// The server ends.
    Ended(Counted),
}

impl Happening<'_> {
    /// Whether it is a fault.
    pub fn is_fault(&self) -> bool {
        match self {
            Happening::Archive(news) => news.is_fault(),
            Happening::Image(news) => news.is_fault(),
            Happening::Gap(news) => news.is_fault(),
            Happening::Resume(news) => news.is_fault(),
            Happening::Place(news) => news.is_fault(),
            Happening::Session(news) => news.is_fault(),
            Happening::Client(news) => news.is_fault(),
            Happening::Sending(news) => news.is_fault(),
            _ => false,
        }
    }

    /// Whether also a quiet reporter reports it: it is a fault, or the end of the server.
    pub fn is_reported_quietly(&self) -> bool {
        match self {
            Happening::Ended(_) => true,
            _ => self.is_fault(),
        }
    }
}

impl fmt::Display for Happening<'_> {
    fn fmt<W: fmt::Write>(&self, f: &mut fmt::Formatter<W>) -> fmt::Result {
        match self {
            Happening::Bound { control, receive } => {
                write!(f, "control lines on {control}, datagrams on {receive}")
            }
            Happening::BoundConsumers { consumers } => {
                write!(f, "lines of consumers on {consumers}")
            }
            Happening::BoundSending { send } => write!(f, "recordings are sent from {send}"),
            Happening::Archive(news) => write!(f, "{news}"),
            Happening::Image(news) => write!(f, "{news}"),
            Happening::Gap(news) => write!(f, "{news}"),
            Happening::Resume(news) => write!(f, "{news}"),
            Happening::Place(news) => write!(f, "{news}"),
            Happening::Session(news) => write!(f, "{news}"),
            Happening::Client(news) => write!(f, "{news}"),
            Happening::Sending(news) => write!(f, "{news}"),
            Happening::Ended(counted) => write!(f, "ended: {counted}"),
        }
    }
}
