//! What became of a datagram.

ghost use Rattle.std.specs.Prelude.{◌≡◌, ◌<◌, ◌+◌, ◌^◌};

use crate::fate::Fate;

/// What became of the frames of a datagram: docs/PROTOCOL.md, "Images".
#[derive(Clone, Copy, Debug, PartialEq, Eq)]
pub struct Inserted {
    /// Frames that joined.
    pub held: usize,
    /// Frames that did not.
    pub dropped: usize,
    /// Whether it was a heartbeat of the image's session and stream that has a position.
    pub heartbeat: bool,
    /// Whether its type is neither that of data nor that of pads, so that nothing was read.
    pub foreign: bool,
}

impl Inserted {
    ghost use Rattle.image_core.specs.Insert.{uncounted, counted};

    /// No frame is counted yet.
    pub(crate) fn uncounted(foreign: bool) -> Inserted
        ensures { result ≡ uncounted foreign }
    {
        Inserted {
            held: 0,
            dropped: 0,
            heartbeat: false,
            foreign,
        }
    }

    /// One more frame is counted, by what becomes of it.
    pub(crate) fn counted(self, fate: Fate) -> Inserted
        requires { self.held + self.dropped < 2 ^ 63 }
        ensures { result ≡ counted self fate }
    {
        match fate {
            Fate::Joins { .. } => Inserted {
                held: self.held + 1,
                ..self
            },
            Fate::Tells { .. } => Inserted {
                heartbeat: true,
                ..self
            },
            Fate::Drops => Inserted {
                dropped: self.dropped + 1,
                ..self
            },
        }
    }
}
