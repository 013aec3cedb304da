//! Conversations with a server that is a receiver of the public standard: docs/PROTOCOL.md, "Status messages and NAKs of a
//! receiver". Their words: `conversations`.

use crate::serving::converses;
use server::ServeOptions;
use std::test::Fail;

/// Aeron's initial window, and the receiver 9.
pub(crate) fn receiver() -> ServeOptions<'static> {
    let mut options = ServeOptions::new();
    options.window = Some(131_072);
    options.receiver_id = 9;
    options
}

/// No status message comes before the image feeds a session, and the first one with it. Others come by time. A gap is asked for
/// again without a datagram. After `stop` nothing comes.
const RECORDED: &str = "\
casts SETUP
silence
asks start 1001 7 42 65536 1408 65536 0 1000 c: started 0 0
receives STATUS_AT_0
receives STATUS_AT_0
casts HELLO_AT_0
receives-among STATUS_AT_64
casts HELLO_AT_128
receives-among NAK_AT_64
receives-among NAK_AT_64
receives-among NAK_AT_64
casts HELLO_AT_64
receives-among STATUS_AT_192
awaits positions 0: positions 0 192 -1
asks stop 0 5: stopped 192
silence
";

/// A stream gets status messages from `start` to `stop`, by time and by what was taken. A gap is asked for again without a
/// datagram.
#[test]
fn a_recorded_stream_gets_status_messages(rt: HostRuntime) -> Result<(), Fail> {
    converses(&rt, rt.alloc(), receiver(), RECORDED)
}

/// A sender that was silent for ten seconds gets no status messages. Its image leaves, and it is asked for its setup frame.
const SILENT: &str = "\
casts SETUP
asks start 1001 7 42 65536 1408 65536 0 1000 c: started 0 0
receives STATUS_AT_0
silence
rests
casts HELLO_AT_0
receives-among SETUP_ASKED
casts SETUP
receives-among STATUS_AT_0
casts HELLO_AT_0
receives-among STATUS_AT_64
";

/// A sender that was silent for ten seconds gets none. It is asked for its setup frame when it goes on.
#[test]
fn a_silent_sender_gets_no_status_messages(rt: HostRuntime) -> Result<(), Fail> {
    converses(&rt, rt.alloc(), receiver(), SILENT)
}

/// What comes from another address is not the stream's.
const FORGED: &str = "\
casts SETUP
asks start 1001 7 42 65536 1408 65536 0 1000 c: started 0 0
receives STATUS_AT_0
casts-elsewhere SETUP
casts-elsewhere HELLO_AT_0
asks positions 0: positions 0 0 -1
casts HELLO_AT_0
receives-among STATUS_AT_64
";

/// Status messages go to the address of the setup frame. Frames from another one are not recorded.
#[test]
fn another_address_gets_no_status_messages(rt: HostRuntime) -> Result<(), Fail> {
    converses(&rt, rt.alloc(), receiver(), FORGED)
}

/// A stream without an image is asked for a setup frame, once in 200 milliseconds. The line `images` shows the image.
const ASKED: &str = "\
casts HELLO_AT_0
receives SETUP_ASKED
casts HELLO_AT_0
silence
casts HELLO_AT_0
receives SETUP_ASKED
casts SETUP
silence
asks images: image 0 7 1001 42 65536 1408 0 -
follows end 1
asks start 1001 7 42 65536 1408 65536 0 1000 c: started 0 0
asks images: image 0 7 1001 42 65536 1408 0 0
follows end 1
";

/// A stream without an image is asked for its setup frame, once in 200 milliseconds. `images` shows the image and its session.
#[test]
fn an_unknown_stream_is_asked_for_its_setup_frame(rt: HostRuntime) -> Result<(), Fail> {
    converses(&rt, rt.alloc(), receiver(), ASKED)
}

/// A pad that ends past the window is dropped, and asked for once the stream has come near.
const PAD: &str = "\
casts SETUP
asks start 1001 7 42 65536 1408 65536 0 1000 c: started 0 0
casts PAD_AT_0
casts PAD_AT_TERM_END
casts PAD_IN_THE_MIDDLE
casts HEARTBEAT_IN_NEXT_TERM
receives-among NAK_OF_PAD
casts PAD_AT_TERM_END
awaits positions 0: positions 0 65536 -1
";

/// A pad that ends past the window is dropped, asked for once the stream has come near, and recorded.
#[test]
fn a_pad_past_the_window_is_asked_for(rt: HostRuntime) -> Result<(), Fail> {
    converses(&rt, rt.alloc(), receiver(), PAD)
}
