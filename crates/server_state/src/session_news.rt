//! What a server reports of recorder sessions that images feed.

use crate::counted::ImageCounted;
use crate::refusal_text::RefusalText;
use frame_core::Refusal;
use std::fmt;
use stream_pairs::{ImageNumber, StreamPoint};

/// What happened to a recorder session that images feed, or to the seats of such sessions.
#[derive(Clone, Copy, Drop)]
pub enum SessionNews {
    /// An image feeds a session.
    Paired {
        /// The image's number.
        image: ImageNumber,
        /// The session's number.
        session: i64,
    },
    /// A session lost its image.
    Lost {
        /// The image's number.
        image: ImageNumber,
        /// The session's number.
        session: i64,
        /// Why: what the session's `Write` or `Settle` was refused by.
        cause: Refusal,
        /// What was counted of the image.
        counted: ImageCounted,
    },
    /// An image and a session of one publication don't fit: the session does not take the image.
    Misfit {
        /// The image's number.
        image: ImageNumber,
        /// The session's number.
        session: i64,
        /// Where the image joined.
        joined: StreamPoint,
        /// Up to where the session's recording is recorded.
        recorded: StreamPoint,
    },
    /// The last of 64 sessions that images feed was used.
    Last,
    /// A session was opened while 64 others have seats: no image feeds it.
    NoSeat {
        /// The session's number.
        session: i64,
    },
}

impl SessionNews {
    /// Whether it is a fault.
    pub fn is_fault(&self) -> bool {
        match self {
            SessionNews::Lost { .. } => true,
            SessionNews::Misfit { .. } => true,
            SessionNews::NoSeat { .. } => true,
            _ => false,
        }
    }
}

impl fmt::Display for SessionNews {
    fn fmt<W: fmt::Write>(&self, f: &mut fmt::Formatter<W>) -> fmt::Result {
        match self {
            SessionNews::Paired { image, session } => {
                write!(f, "image {image} feeds session {session}")
            }
            SessionNews::Lost {
                image,
                session,
                cause,
                counted,
            } => {
                write!(
                    f,
                    "image {image} is lost, as session {session} was refused: "
                )?;
                write!(f, "{}, {counted}", RefusalText(*cause))
            }
            SessionNews::Misfit {
                image,
                session,
                joined,
                recorded,
            } => write_misfit(f, image, session, joined, recorded),
            SessionNews::Last => f.write_str(
                "the last of 64 sessions that images feed is used: further ones get no datagrams until a restart",
            ),
            SessionNews::NoSeat { session } => write!(
                f,
                "session {session} gets no datagrams: 64 other sessions are open"
            ),
        }
    }
}

/// What differs: of the image, and of what its session records.
fn write_misfit<W: fmt::Write>(
    f: &mut fmt::Formatter<W>,
    image: &u64,
    session: &i64,
    joined: &StreamPoint,
    recorded: &StreamPoint,
) -> fmt::Result {
    let mut is_first = true;
    let (own, other) = (&joined.geometry, &recorded.geometry);
    let terms = (
        i64::from(own.initial_term_id),
        i64::from(other.initial_term_id),
    );
    let lengths = (i64::from(own.term_length), i64::from(other.term_length));
    let units = (i64::from(own.mtu), i64::from(other.mtu));
    write!(f, "image {image} does not fit session {session}")?;
    write_difference(f, &mut is_first, "initial term", terms)?;
    write_difference(f, &mut is_first, "term length", lengths)?;
    write_difference(f, &mut is_first, "mtu", units)?;
    write_difference(
        f,
        &mut is_first,
        "position",
        (joined.position, recorded.position),
    )
}

/// A number of an image and that of its session, if they differ; the first such pair after a colon, others after a comma.
fn write_difference<W: fmt::Write>(
    f: &mut fmt::Formatter<W>,
    is_first: &mut bool,
    name: &str,
    numbers: (i64, i64),
) -> fmt::Result {
    let (own, other) = numbers;
    if own == other {
        return Ok(());
    }
    let mark = if *is_first { ":" } else { "," };
    *is_first = false;
    write!(f, "{mark} {name} {own} and not {other}")
}
