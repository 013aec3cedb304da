//! An open replay, as far as a server's answers say it. docs/SERVING.md, "Which replays are open".

ghost use Rattle.std.specs.Prelude.{◌≡◌};
ghost use Rattle.server_state.specs.ReplaysOpen.{bound_or_none, position_or_none, reader_text};

use frame_core::replay_bound;
use std::fmt;
use std::net::SocketAddr;

/// Who takes the frames of an open replay.
#[derive(Clone, Copy, Debug, PartialEq, Eq)]
pub enum ReplayReader {
    /// A client, by lines.
    Line,
    /// A follower.
    Follow,
    /// A receiver that the recording is sent to.
    Send,
}

impl ReplayReader {
    /// The word for it.
    pub(crate) fn text(self) -> &'static str
        ensures { result.now ≡ reader_text self }
    {
        match self {
            ReplayReader::Line => "line",
            ReplayReader::Follow => "follow",
            ReplayReader::Send => "send",
        }
    }
}

/// An open replay, as far as answers say it.
#[derive(Clone, Copy, Debug, PartialEq, Eq)]
pub struct KnownReplay {
    /// Its number.
    pub number: i64,
    /// The recording that it gives.
    pub recording: i64,
    /// Where it began, in bytes of the stream. None: at the recording's start, and no poll has said where that is.
    pub first: Option<i64>,
    /// Where its next frame begins, in bytes of the stream. None if that is not known either.
    pub next: Option<i64>,
    /// How far it goes, in bytes of the stream; -1 if it has no end.
    pub length: i64,
    /// Who takes its frames.
    pub reader: ReplayReader,
    /// Where their connection comes from, or where datagrams go to. None if the connection was gone before it was looked at.
    pub address: Option<SocketAddr>,
}

impl KnownReplay {
    /// Where its next frame begins; -1 if that is not known.
    #[tactic(auto, unfolding(crate::specs::ReplaysOpen::position_or_none))]
    pub(crate) fn position(&self) -> i64
        ensures { result ≡ position_or_none self.now.next }
    {
        match self.next {
            Some(position) => position,
            None => -1,
        }
    }

    /// Where it ends; -1 if it has no end, or that is not known.
    #[tactic(auto, unfolding(crate::specs::ReplaysOpen::bound_or_none))]
    pub(crate) fn bound(&self) -> i64
        ensures { result ≡ bound_or_none self.now.first self.now.length }
    {
        match self.first {
            Some(first) if self.length >= 0 => replay_bound(&first, &self.length),
            _ => -1,
        }
    }
}

impl fmt::Display for KnownReplay {
    fn fmt<W: fmt::Write>(&self, f: &mut fmt::Formatter<W>) -> fmt::Result {
        write!(f, "{} at ", self.number)?;
        match self.next {
            Some(position) => write!(f, "{position}")?,
            None => f.write_str("the start")?,
        }
        if let Some(address) = self.address {
            write!(f, " of {address}")?;
        }
        write!(f, " ({})", self.reader.text())
    }
}
