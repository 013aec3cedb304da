//! What a receiver of a sending answers. docs/PROTOCOL.md, "Publications of recordings".

ghost use Rattle.std.specs.Prelude.{◌≡◌, MatchOption};
ghost use Rattle.server_sender.specs.Feedbacks.{IsFeedback, IsNoFeedback, publication_of};

use frame_core::{Nak, Publication, StatusMessage};

/// A status message, or a NAK.
#[derive(Clone, Copy, Debug)]
pub enum Feedback {
    /// How far the receiver has consumed the stream, and how much it admits; or that it wants a setup frame.
    Status(StatusMessage),
    /// What it misses.
    Repeat(Nak),
}

impl Feedback {
    /// Of which publication it is. Does not allocate.
    pub fn publication(&self) -> Publication
        ensures { result ≡ publication_of self.now }
    {
        match self {
            Feedback::Status(status) => Publication {
                session_id: status.session_id,
                stream_id: status.stream_id,
            },
            Feedback::Repeat(nak) => Publication {
                session_id: nak.session_id,
                stream_id: nak.stream_id,
            },
        }
    }
}

/// The status message or the NAK that a datagram is. None if it is neither. Does not allocate.
pub fn feedback_of(datagram: &[u8]) -> Option<Feedback>
    ensures { MatchOption result (IsNoFeedback datagram.now) (IsFeedback datagram.now) }
{
    if let Ok(status) = StatusMessage::decode(datagram) {
        return Some(Feedback::Status(status));
    }
    match Nak::decode(datagram) {
        Ok(nak) => Some(Feedback::Repeat(nak)),
        Err(_) => None,
    }
}
