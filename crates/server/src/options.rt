//! What a server can be asked for: docs/SERVING.md, "How to run it".

ghost use Rattle.std.specs.Prelude.{◌≡◌, [], None, false, pos, replicate};

use server_receiver::Networks;

/// Seconds for which a client may be idle while another waits, unless an option says otherwise.
pub const IDLE_SECONDS: u64 = 60;
/// Milliseconds for which a block waits for its settling at most, unless an option says otherwise.
pub const SETTLE_EVERY: u64 = 5;

/// Bytes of a segment of a recording that nobody asked for, unless an option says otherwise.
pub const SEGMENT_LENGTH: i32 = 134_217_728;

/// Options of a server.
#[derive(Clone, Copy, Debug, PartialEq, Eq)]
pub struct ServeOptions<'a> {
    /// Seconds for which a client may be idle while another waits: no whole line came, and no byte of a reply went out.
    pub idle_seconds: u64,
    /// Milliseconds for which a block waits for its settling at most. 0: each batch is settled at once.
    pub settle_every: u64,
    /// The greatest receiver window, in bytes: the server is a receiver of the public standard, which sends status messages.
    /// None: it sends none, and asks for what is missing after each datagram.
    pub window: Option<i32>,
    /// The receiver's number, which its status messages have.
    pub receiver_id: i64,
    /// How many clients are served at a time, from 1 to 64: less is 1, and more is 64. A replay that a connection leaves open
    /// is closed, and with more than one client the merge is the connection's. None: one client, and both stay for the next.
    pub clients: Option<u32>,
    /// The streams whose publications are recorded without being asked; with a receiver window alone.
    pub streams: &'a [i32],
    /// The networks that datagrams are taken from.
    pub networks: Networks,
    /// The networks that recordings may be sent to. None is sent anywhere else.
    pub send_to: Networks,
    /// Bytes of a segment of such a recording: a power of two from 65,536 to 1,073,741,824. It is a term if that is longer.
    pub segment_length: i32,
    /// Whether the server ends by itself once it can record nothing: its archive can't be opened, a write has failed, or its
    /// history is full. If not, it goes on until a line quits.
    pub is_strict: bool,
    /// Whether the reporter gets each second what is measured of the server.
    pub is_measured: bool,
    /// Whether the server makes checkpoints, after a settle or a command that leaves one due, and answers the line `checkpoint`.
    pub makes_checkpoints: bool,
    /// Whether it makes one before its first line, if it makes any: an entry counts, or the catalogue's bank is of version 1.
    pub begins_short: bool,
}

impl<'a> ServeOptions<'a> {
    /// A client may be idle for 60 seconds while another waits, a block waits for 5 milliseconds at most, no status message is
    /// sent, one client is served at a time, nothing is recorded without being asked, datagrams of all networks are taken, no recording
    /// is sent anywhere, the server is not strict, nothing is measured, and no checkpoint is made.
    pub fn new() -> ServeOptions<'a>
        ensures times { (result.idle_seconds ≡ 60) × (result.settle_every ≡ 5) }
        ensures receiver { (result.window ≡ None) × (result.receiver_id ≡ pos 0) }
        ensures clients { result.clients ≡ None }
        ensures streams { (result.streams.now ≡ []) × (result.segment_length ≡ pos 134217728) }
        ensures networks { result.networks ≡ record { networks = replicate 16 None } }
        ensures sends { result.send_to ≡ record { networks = replicate 16 None } }
        ensures strict { result.is_strict ≡ false }
        ensures measured { result.is_measured ≡ false }
        ensures checkpoints { (result.makes_checkpoints ≡ false) × (result.begins_short ≡ false) }
    {
        ServeOptions {
            idle_seconds: IDLE_SECONDS,
            settle_every: SETTLE_EVERY,
            window: None,
            receiver_id: 0,
            clients: None,
            streams: &[],
            networks: Networks::new(),
            send_to: Networks::new(),
            segment_length: SEGMENT_LENGTH,
            is_strict: false,
            is_measured: false,
            makes_checkpoints: false,
            begins_short: false,
        }
    }
}
