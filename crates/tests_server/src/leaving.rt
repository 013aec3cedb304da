//! Places of images and seats of sessions that a receiver of the public standard gives back: docs/SERVING.md, "Publications that
//! end".

use crate::receivers::receiver;
use crate::serving::converses;
use std::test::Fail;

/// After `stop` and `extend` a sender that goes back to the stop position is recorded on, by a new image. One that does not joins
/// further on, and `images` says where.
const STOPPED: &str = "\
casts SETUP
asks start 1001 7 42 65536 1408 65536 0 1000 c: started 0 0
casts HELLO_AT_0
awaits positions 0: positions 0 64 -1
asks stop 0 5: stopped 64
rests
asks images: end 0
asks extend 0 1001 7 42 65536 1408 64: extended 1
casts SETUP_AT_64
casts HELLO_AT_64
awaits positions 0: positions 0 128 -1
asks images: image 1 7 1001 42 65536 1408 64 1
follows end 1
asks stop 0 6: stopped 128
rests
casts SETUP_AT_192
rests
asks images: image 2 7 1001 42 65536 1408 192 -
follows end 1
";

/// With `--aeron` `stop` frees the image's place. `extend` takes a new image at the stop position, and one further on waits.
#[test]
fn an_extended_recording_takes_a_new_image(rt: HostRuntime) -> Result<(), Fail> {
    converses(&rt, rt.alloc(), receiver(), STOPPED)
}

/// An image leaves that was silent for ten seconds. Its session stays open, and takes the next one that joins where the recording
/// stands.
const SILENT: &str = "\
casts SETUP
asks start 1001 7 42 65536 1408 65536 0 1000 c: started 0 0
casts HELLO_AT_0
awaits positions 0: positions 0 64 -1
rests
rests
asks images: image 0 7 1001 42 65536 1408 0 0
follows end 1
rests
rests
pauses
asks images: end 0
casts SETUP_AT_64
casts HELLO_AT_64
awaits positions 0: positions 0 128 -1
asks images: image 1 7 1001 42 65536 1408 64 0
follows end 1
";

/// An image leaves after ten seconds of silence, not before. Its session stays open, and takes the next image that joins where
/// its recording stands.
#[test]
fn a_silent_image_leaves(rt: HostRuntime) -> Result<(), Fail> {
    converses(&rt, rt.alloc(), receiver(), SILENT)
}

/// More publications than there are places and seats.
const MANY: &str = "\
records-200
rests
asks images: end 0
";

/// 200 publications are recorded one after another, with 64 places of images.
#[test]
fn more_publications_are_recorded_than_there_are_places(rt: HostRuntime) -> Result<(), Fail> {
    converses(&rt, rt.alloc(), receiver(), MANY)
}
