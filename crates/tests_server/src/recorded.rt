//! Publications that a server records without being asked: docs/SERVING.md, "Recording without being asked".

use crate::serving::converses;
use server::{IDLE_SECONDS, Networks, SEGMENT_LENGTH, SETTLE_EVERY, ServeOptions};
use std::test::Fail;

/// Aeron's initial window, and the receiver 9, which records the publications of these streams.
pub(crate) fn recorder(streams: &[i32]) -> ServeOptions<'_> {
    ServeOptions {
        idle_seconds: IDLE_SECONDS,
        settle_every: SETTLE_EVERY,
        window: Some(131_072),
        receiver_id: 9,
        clients: None,
        streams,
        networks: Networks::new(),
        send_to: Networks::new(),
        segment_length: SEGMENT_LENGTH,
        is_strict: false,
        is_measured: false,
        makes_checkpoints: false,
        begins_short: false,
    }
}

/// A setup frame and a message make a recording. After a client's `stop` the next setup frame at the stop position extends it. After ten seconds of
/// silence it is stopped, and goes on where it was: what a setup frame further on leaves out is asked for.
const RECORDED: &str = "\
casts SETUP
casts HELLO_AT_0
awaits positions 0: positions 0 64 -1
asks images: image 0 7 1001 42 65536 1408 0 0
follows end 1
asks stop 0 5: stopped 64
rests
asks images: end 0
casts SETUP_AT_64
casts HELLO_AT_64
awaits positions 0: positions 0 128 -1
rests
rests
rests
rests
awaits positions 0: positions 0 128 128
rests
asks images: end 0
casts SETUP_AT_192
receives-among NAK_AT_128
casts HELLO_AT_128
awaits positions 0: positions 0 192 -1
asks images: image 3 7 1001 42 65536 1408 128 2
follows end 1
";

/// The first message of a stream of `--record` begins a recording. After `stop` and after silence the next one goes on with it.
#[test]
fn a_stream_is_recorded_without_being_asked(rt: HostRuntime) -> Result<(), Fail> {
    converses(&rt, rt.alloc(), recorder(&[5, 1_001]), RECORDED)
}

/// A client that was quicker keeps the publication. A stream that is not named is not recorded.
const QUICKER: &str = "\
asks start 1001 7 42 65536 1408 65536 0 1000 c: started 0 0
casts SETUP
casts HELLO_AT_0
awaits positions 0: positions 0 64 -1
rests
asks images: image 0 7 1001 42 65536 1408 0 0
follows end 1
asks positions 1: error 1 UnknownRecording
";

/// A publication for which a client sent `start` first is recorded by that session alone.
#[test]
fn a_client_that_was_quicker_keeps_its_publication(rt: HostRuntime) -> Result<(), Fail> {
    converses(&rt, rt.alloc(), recorder(&[1_001]), QUICKER)
}

/// A stream that is not named.
const OTHER: &str = "\
casts SETUP
rests
asks images: image 0 7 1001 42 65536 1408 0 -
follows end 1
asks positions 0: error 1 UnknownRecording
";

/// A stream that `--record` does not name gets an image and no recording.
#[test]
fn another_stream_is_not_recorded(rt: HostRuntime) -> Result<(), Fail> {
    converses(&rt, rt.alloc(), recorder(&[1_002]), OTHER)
}

/// 64 publications begin so many recordings. One more begins 15 seconds after the first of them.
const MANY: &str = "\
casts-firsts
rests
rests
awaits positions 63: positions 0 64 -1
rests
rests
casts SETUP
casts HELLO_AT_0
pauses
asks positions 64: error 1 UnknownRecording
rests
rests
awaits positions 64: positions 0 64 -1
";

/// 64 publications begin 64 recordings at once. One more begins 15 seconds after the first.
#[test]
fn at_most_64_recordings_begin_in_a_short_time(rt: HostRuntime) -> Result<(), Fail> {
    converses(&rt, rt.alloc(), recorder(&[1_001]), MANY)
}
