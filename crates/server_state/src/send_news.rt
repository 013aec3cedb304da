//! What a server reports of recordings that it sends. docs/SERVING.md, "Send a recording".

use crate::gap_news::write_publication;
use crate::refusal_text::RefusalText;
use frame_core::{Publication, Refusal};
use std::fmt;
use std::net::SocketAddrV4;

/// What happened to a sending. Positions are bytes of the stream.
#[derive(Clone, Copy, Drop)]
pub enum SendNews {
    /// It begins.
    Began {
        /// Its number.
        send: u64,
        /// The recording's id.
        recording: i64,
        /// Where its datagrams go to.
        to: SocketAddrV4,
        /// The session id and the stream id that they have.
        publication: Publication,
        /// Where it begins.
        position: u64,
    },
    /// A receiver answered, the first time.
    Heard {
        /// Its number.
        send: u64,
        /// How many bytes the receiver admits.
        window: u64,
    },
    /// No datagram fits what the receiver admits.
    Narrow {
        /// Its number.
        send: u64,
        /// How many bytes a datagram may have.
        mtu: i32,
        /// How many bytes the receiver admits.
        window: u64,
    },
    /// No receiver has answered for 5 seconds.
    Waits {
        /// Its number.
        send: u64,
    },
    /// All of it is consumed, and no more comes; or it was stopped.
    Done {
        /// Its number.
        send: u64,
        /// The sender position.
        position: u64,
        /// How far the receiver has consumed it.
        consumed: u64,
        /// How many datagrams were repeated.
        repeats: u64,
    },
    /// The receiver has not answered for 5 seconds.
    Gone {
        /// Its number.
        send: u64,
        /// How far the receiver has consumed it.
        consumed: u64,
    },
    /// What comes next is longer than half a term, which no receiver takes.
    TooLong {
        /// Its number.
        send: u64,
        /// The sender position.
        position: u64,
    },
    /// No more can be sent.
    Failed {
        /// Its number.
        send: u64,
        /// The sender position.
        position: u64,
        /// Why.
        cause: Refusal,
    },
    /// A client closed its replay.
    Closed {
        /// Its number.
        send: u64,
        /// How far the receiver has consumed it.
        consumed: u64,
    },
}

impl SendNews {
    /// Whether it is a fault.
    pub fn is_fault(&self) -> bool {
        match self {
            SendNews::Narrow { .. }
            | SendNews::Waits { .. }
            | SendNews::Gone { .. }
            | SendNews::TooLong { .. }
            | SendNews::Failed { .. } => true,
            _ => false,
        }
    }
}

impl fmt::Display for SendNews {
    fn fmt<W: fmt::Write>(&self, f: &mut fmt::Formatter<W>) -> fmt::Result {
        match self {
            SendNews::Began {
                send,
                recording,
                to,
                publication,
                position,
            } => {
                write!(f, "send {send} of recording {recording} to {to}: ")?;
                write_publication(f, publication)?;
                write!(f, ", position {position}")
            }
            SendNews::Heard { send, window } => {
                write!(
                    f,
                    "send {send} has a receiver: its window is {window} bytes"
                )
            }
            SendNews::Narrow { send, mtu, window } => write!(
                f,
                "send {send} may send nothing: the MTU of {mtu} bytes is longer than the window of {window}"
            ),
            SendNews::Waits { send } => write!(f, "send {send} waits for a receiver"),
            SendNews::Done {
                send,
                position,
                consumed,
                repeats,
            } => write!(
                f,
                "send {send} is done at {position}: consumed to {consumed}, repeats {repeats}"
            ),
            _ => self.write_end(f),
        }
    }
}

impl SendNews {
    /// Writes how it ended, if it was not done.
    fn write_end<W: fmt::Write>(&self, f: &mut fmt::Formatter<W>) -> fmt::Result {
        match self {
            SendNews::Gone { send, consumed } => write!(
                f,
                "send {send} is gone: no status message for 5 seconds, consumed to {consumed}"
            ),
            SendNews::TooLong { send, position } => write!(
                f,
                "send {send} ended at {position}: what comes there is longer than half a term"
            ),
            SendNews::Failed {
                send,
                position,
                cause,
            } => {
                let cause = RefusalText(*cause);
                write!(f, "send {send} ended at {position}: {cause}")
            }
            SendNews::Closed { send, consumed } => write!(
                f,
                "send {send} ended: its replay was closed, consumed to {consumed}"
            ),
            _ => Ok(()),
        }
    }
}
