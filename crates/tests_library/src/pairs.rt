//! Images and recorder sessions, paired as docs/ARCHITECTURE.md says.

use frame_core::{Geometry, Publication};
use std::test::Fail;
use stream_pairs::{Pairs, StreamPoint};

/// A position in the stream of a session id.
fn point(session_id: i32, position: i64) -> StreamPoint {
    StreamPoint {
        publication: Publication {
            session_id,
            stream_id: 1_001,
        },
        geometry: Geometry {
            initial_term_id: 42,
            term_length: 65_536,
            mtu: 1_408,
        },
        position,
    }
}

/// The sessions at the seats 5 and 2 stand where an image joins, one is opened before the image and one after it.
#[test]
fn the_least_session_that_stands_there_is_fed(rt: HostRuntime) -> Result<(), Fail> {
    let mut pairs = Pairs::new(rt.alloc())?;
    pairs.opened(5, 5, 0, point(7, 0));
    pairs.opened(2, 2, 1, point(7, 0));
    assert!(rt; pairs.joined(point(7, 0)) == Some(0) && pairs.session_of_image(0) == Some(2));
    assert!(rt; pairs.joined(point(8, 64)) == Some(1) && pairs.session_of_image(1).is_none());
    pairs.opened(9, 70, 2, point(8, 64));
    assert!(rt; pairs.session_of_image(1) == Some(9) && pairs.image_of_session(9) == Some(1));
    assert!(rt; pairs.image_of_session(5).is_none());
    Ok(())
}

/// If memory is refused once, pairs may be made again. trials/refused_memory.py refuses each of its requests in turn.
#[test]
fn refused_memory_makes_no_pairs(rt: HostRuntime) {
    let alloc = rt.alloc();
    assert!(rt; Pairs::new(alloc).is_ok() || Pairs::new(alloc).is_ok());
}
