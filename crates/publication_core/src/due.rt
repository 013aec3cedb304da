//! What a sender has to send.

/// What is due of a publication.
#[derive(Clone, Copy, Debug, PartialEq, Eq)]
pub enum Due {
    /// The receiver is silent for 5 seconds. The sending ends.
    Gone,
    /// A setup frame.
    Setup,
    /// A datagram that was asked for again.
    Again,
    /// A datagram for the first time.
    First,
    /// The next datagram is longer than half a term, which no image takes. The sending ends.
    Refused,
    /// A heartbeat.
    Heartbeat,
    /// The last heartbeats of the stream were sent. The sending ends.
    Done,
    /// Nothing.
    Nothing,
}
