//! What a server reports of its clients.

use crate::known_replay::KnownReplay;
use crate::refusal_text::RefusalText;
use frame_core::Refusal;
use start_faults::StartWord;
use std::fmt;

/// What happened to a client.
#[derive(Clone, Copy, Drop)]
pub enum ClientNews<'a> {
    /// Its connection ended, and replays that it opened are open.
    LeftReplays(&'a [i64]),
    /// Its start is BadParameter, as this word is wrong.
    WrongWord(StartWord),
    /// Its line would take frames from a recording, and open replays hold them.
    HeldByReplays {
        /// The recording's id.
        recording: i64,
        /// The replays.
        replays: &'a [KnownReplay],
    },
    /// It follows a recording, and no frame can be sent any more from this position on.
    FollowingFailed {
        /// The recording's id.
        recording: i64,
        /// Where the next frame would begin, in bytes of the stream.
        position: i64,
        /// Why.
        cause: Refusal,
    },
}

impl ClientNews<'_> {
    /// Whether it is a fault.
    pub fn is_fault(&self) -> bool {
        matches!(self, ClientNews::FollowingFailed { .. })
    }
}

impl fmt::Display for ClientNews<'_> {
    fn fmt<W: fmt::Write>(&self, f: &mut fmt::Formatter<W>) -> fmt::Result {
        match self {
            ClientNews::LeftReplays(replays) => write_replays(f, replays),
            ClientNews::WrongWord(word) => write!(f, "{word}"),
            ClientNews::HeldByReplays { recording, replays } => {
                write_holders(f, *recording, replays)
            }
            ClientNews::FollowingFailed {
                recording,
                position,
                cause,
            } => {
                let cause = RefusalText(*cause);
                write!(
                    f,
                    "a follower of recording {recording} ended at {position}: {cause}"
                )
            }
        }
    }
}

fn write_replays<W: fmt::Write>(f: &mut fmt::Formatter<W>, replays: &[i64]) -> fmt::Result {
    f.write_str("a connection ended and left replays open:")?;
    for replay in replays {
        write!(f, " {replay}")?;
    }
    Ok(())
}

fn write_holders<W: fmt::Write>(
    f: &mut fmt::Formatter<W>,
    recording: i64,
    replays: &[KnownReplay],
) -> fmt::Result {
    write!(
        f,
        "recording {recording} is held by {} open replays",
        replays.len()
    )?;
    let mut before = ": ";
    for replay in replays {
        write!(f, "{before}{replay}")?;
        before = ", ";
    }
    Ok(())
}
