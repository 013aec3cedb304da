//! What is measured of a server: docs/SERVING.md, "Metrics".

use crate::places::PlaceMeasures;
use crate::sends::{SendMeasures, SendsMeasures};
use crate::settle_times::SettleTimes;

/// What is measured of a server's archive.
#[derive(Clone, Copy, Debug, PartialEq, Eq)]
pub struct ArchiveMeasures {
    /// Whether an archive is open.
    pub is_open: bool,
    /// Whether a device fault broke it: nothing is recorded until it is opened again.
    pub is_broken: bool,
    /// Whether its history is full: nothing is recorded until it is made short.
    pub is_full: bool,
    /// Entries of its history that are used.
    pub entries: u64,
    /// Entries that its history may have.
    pub limit: u64,
    /// Checkpoints that were made.
    pub checkpoints: u64,
    /// Checkpoints that were refused.
    pub refused_checkpoints: u64,
}

/// What is measured of the thread that records.
#[derive(Clone, Copy, Debug, PartialEq, Eq)]
pub struct RecorderMeasures {
    /// Bytes of streams that are settled.
    pub bytes: u64,
    /// Data and pad frames that were written.
    pub frames: u64,
    /// Settles that were made, and how long they took.
    pub settles: SettleTimes,
}

/// What is measured of datagrams.
#[derive(Clone, Copy, Debug, PartialEq, Eq)]
pub struct DatagramMeasures {
    /// Datagrams that came.
    pub received: u64,
    /// Those of them that changed nothing: no frames, or of no image.
    pub dropped: u64,
    /// Those that were lost past an image's stock.
    pub lost: u64,
    /// Those that came late or again.
    pub repeats: u64,
    /// NAK frames that were sent.
    pub naks: u64,
    /// Status messages that were sent, requests for a setup frame among them.
    pub status_messages: u64,
    /// Images that joined.
    pub images: u64,
}

/// What is measured of publications that came back.
#[derive(Clone, Copy, Debug, PartialEq, Eq)]
pub struct ResumeMeasures {
    /// Holes between recordings of one publication that were seen.
    pub holes: u64,
    /// Bytes of them.
    pub hole_bytes: u64,
    /// Images that began where a recording stands, before their publications' setup frames.
    pub resumed: u64,
    /// Bytes that were missing before setup frames, and came.
    pub resumed_bytes: u64,
    /// Images that wait for such bytes now.
    pub resuming: u64,
}

/// What is measured of clients.
#[derive(Clone, Copy, Debug, PartialEq, Eq)]
pub struct ClientMeasures {
    /// Connections that were taken.
    pub connections: u64,
    /// Clients of the control port that are served.
    pub clients: u64,
    /// How many of them are served at a time at most.
    pub places: u64,
    /// Polls that were answered.
    pub polls: u64,
    /// Replays that are open.
    pub replays: u64,
}

/// What is measured of an active recording.
#[derive(Clone, Copy, Debug, PartialEq, Eq)]
pub struct RecordingMeasures {
    /// Its id.
    pub recording: i64,
    /// The stream that is recorded.
    pub stream_id: i32,
    /// The session that is recorded.
    pub session_id: i32,
    /// Where it is settled to, in bytes of the stream.
    pub recorded: i64,
}

/// What is measured of an open replay.
#[derive(Clone, Copy, Debug, PartialEq, Eq)]
pub struct ReplayMeasures {
    /// Its number.
    pub replay: i64,
    /// The recording that it gives.
    pub recording: i64,
    /// Where its next frame begins, in bytes of the stream.
    pub next: i64,
}

/// What is measured of an image.
#[derive(Clone, Copy, Debug, PartialEq, Eq)]
pub struct ImageMeasures {
    /// Its number.
    pub image: u64,
    /// Its publication's stream.
    pub stream_id: i32,
    /// Its publication's session.
    pub session_id: i32,
    /// Where all is received to, in bytes of the stream.
    pub rebuilt: i64,
    /// Where it is taken to, to be recorded, in bytes of the stream.
    pub consumed: i64,
    /// Microseconds for which its first gap has stood; 0 if nothing is missing.
    pub gap_micros: u64,
    /// Bytes of its first gap that are asked for; 0 if nothing is missing.
    pub gap_bytes: u64,
    /// Bytes of holes between recordings of its publication that were seen.
    pub hole_bytes: u64,
    /// Datagrams of its publication that came since it joined.
    pub datagrams: u64,
    /// NAK frames that were sent for it.
    pub naks: u64,
    /// Datagrams that were lost past its stock.
    pub lost: u64,
    /// Microseconds since its last datagram came.
    pub silent_micros: u64,
}

/// What is measured of a server, at one moment.
#[derive(Debug, Drop)]
pub struct Measures {
    pub archive: ArchiveMeasures,
    pub recorder: RecorderMeasures,
    pub datagrams: DatagramMeasures,
    pub resumes: ResumeMeasures,
    pub places: PlaceMeasures,
    pub clients: ClientMeasures,
    /// Of each active recording that has a seat.
    pub recordings: Vec<RecordingMeasures>,
    /// Of each open replay whose next position is known.
    pub replays: Vec<ReplayMeasures>,
    /// Of each image.
    pub images: Vec<ImageMeasures>,
    /// Of all sendings.
    pub sending: SendsMeasures,
    /// Of each sending that is not over.
    pub sends: Vec<SendMeasures>,
}
