//! Whose frames an image takes, who gets a place, and when a recording begins: docs/PROTOCOL.md, "Whose frames an image takes" and
//! "Places"; docs/SERVING.md, "Recording without being asked".

use crate::receivers::receiver;
use crate::recorded::recorder;
use crate::serving::converses;
use server::{Network, Networks};
use std::test::Fail;

/// Frames from a second socket are not recorded. Once the first one is silent for two seconds the second one is asked for its setup
/// frame. One with other terms changes nothing; by one with the image's terms it is the sender.
const MOVED: &str = "\
casts SETUP
asks start 1001 7 42 65536 1408 65536 0 1000 c: started 0 0
receives STATUS_AT_0
casts HELLO_AT_0
awaits positions 0: positions 0 64 -1
moves
casts SETUP
casts HELLO_AT_64
pauses
asks positions 0: positions 0 64 -1
rests
casts SETUP_OF_OTHER_TERMS
receives SETUP_ASKED
casts HELLO_AT_64
pauses
asks positions 0: positions 0 64 -1
casts SETUP
receives-among STATUS_AT_64
casts HELLO_AT_64
awaits positions 0: positions 0 128 -1
asks images: image 0 7 1001 42 65536 1408 0 0
follows end 1
";

/// An image takes the frames of its sender's address alone, until that is silent and another one sets it up.
#[test]
fn an_image_takes_frames_of_its_sender(rt: HostRuntime) -> Result<(), Fail> {
    converses(&rt, rt.alloc(), receiver(), MOVED)
}

/// Frames of two publications of one stream come in turn. Those of the second one carry other bytes, and come in another order.
const IN_TURN: &str = "\
casts SETUP
casts SETUP_OF_8
asks start 1001 7 42 65536 1408 65536 0 1000 c: started 0 0
asks start 1001 8 42 65536 1408 65536 0 1000 c: started 1 1
casts HELLO_AT_0
casts WORLD_OF_8_AT_64
casts HELLO_AT_64
casts WORLD_OF_8_AT_0
awaits positions 0: positions 0 128 -1
awaits positions 1: positions 0 128 -1
asks replay 0 0 -1: replay 0
asks poll 0 10: frame 0 2500000000c001000000000007000000e90300002a000000000000000000000068656c6c6f
follows frame 64 2500000000c001004000000007000000e90300002a000000000000000000000068656c6c6f
follows more 128
asks replay 1 0 -1: replay 1
asks poll 1 10: frame 0 2500000000c001000000000008000000e90300002a0000000000000000000000776f726c64
follows frame 64 2500000000c001004000000008000000e90300002a0000000000000000000000776f726c64
follows more 128
";

/// What two publications recorded at a time is each one's own, byte for byte.
#[test]
fn each_publication_is_recorded_as_its_own(rt: HostRuntime) -> Result<(), Fail> {
    converses(&rt, rt.alloc(), receiver(), IN_TURN)
}

/// Frames from a second socket don't keep an image.
const STRANGERS: &str = "\
casts SETUP
asks start 1001 7 42 65536 1408 65536 0 1000 c: started 0 0
receives STATUS_AT_0
moves
beats HELLO_AT_0
beats HELLO_AT_0
beats HELLO_AT_0
beats HELLO_AT_0
asks positions 0: positions 0 0 -1
asks images: end 0
";

/// An image whose sender is silent leaves, also while frames come from another address.
#[test]
fn strangers_do_not_keep_an_image(rt: HostRuntime) -> Result<(), Fail> {
    converses(&rt, rt.alloc(), receiver(), STRANGERS)
}

/// A setup frame makes no recording, and admits one frame. The first one makes it, and the window is whole at once.
const FIRST_FRAME: &str = "\
casts SETUP
receives STATUS_OF_MTU
receives STATUS_OF_MTU
asks positions 0: error 1 UnknownRecording
casts HELLO_AT_0
awaits positions 0: positions 0 64 -1
receives-among STATUS_AT_64
casts-setups
rests
asks positions 1: error 1 UnknownRecording
";

/// A recording that nobody asked for begins with the first frame.
#[test]
fn a_recording_begins_with_its_first_frame(rt: HostRuntime) -> Result<(), Fail> {
    converses(&rt, rt.alloc(), recorder(&[1_001]), FIRST_FRAME)
}

/// All places have publications that nobody records. One that is to be recorded gets a place at once.
const YIELDED: &str = "\
casts-others
casts SETUP
receives-among STATUS_OF_MTU
casts HELLO_AT_0
awaits positions 0: positions 0 64 -1

asks images: image 64 7 1001 42 65536 1408 0 0
";

/// A publication that is to be recorded waits for no other one.
#[test]
fn an_unwanted_image_yields_its_place(rt: HostRuntime) -> Result<(), Fail> {
    converses(&rt, rt.alloc(), recorder(&[1_001]), YIELDED)
}

/// All places have publications that are recorded. One more gets none, and none of them yields.
const RECORDED: &str = "\
casts-firsts
rests
rests
awaits positions 63: positions 0 64 -1
casts SETUP
casts HELLO_AT_0
pauses
asks positions 64: error 1 UnknownRecording
asks positions 63: positions 0 64 -1
";

/// An image that is recorded yields its place to nobody.
#[test]
fn a_recorded_image_keeps_its_place(rt: HostRuntime) -> Result<(), Fail> {
    converses(&rt, rt.alloc(), recorder(&[1_001]), RECORDED)
}

/// What comes from a network that is not named makes no image.
const ELSEWHERE: &str = "\
casts SETUP
casts HELLO_AT_0
silence
asks images: end 0
";

/// What comes from one that is named is taken.
const NAMED: &str = "\
casts SETUP
casts HELLO_AT_0
awaits positions 0: positions 0 64 -1
";

/// A server takes datagrams from the networks that it names alone. 127.0.0.1 is in 127.0.0.0/8, and not in 126.0.0.0/8.
#[test]
fn datagrams_come_from_named_networks(rt: HostRuntime) -> Result<(), Fail> {
    for (address, bits, conversation) in [
        (0x7e00_0000, 8, ELSEWHERE),
        (0x7f00_0001, 32, NAMED),
        (0x7f00_0000, 8, NAMED),
        (0x7e00_0000, 7, NAMED),
        (0x0000_0000, 0, NAMED),
    ] {
        let mut networks = Networks::new();
        networks.networks[15] = Some(Network { address, bits });
        let mut options = recorder(&[1_001]);
        options.networks = networks;
        converses(&rt, rt.alloc(), options, conversation)?;
    }
    Ok(())
}
