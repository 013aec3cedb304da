//! Merges: each request for memory refused.

use frame_core::{Frame, FrameKind, Geometry, Items, Refusal};
use merge_core::{Merge, Offered};
use std::alloc::Global;
use std::process::Abort;
use std::test::Fail;

const GEOMETRY: Geometry = Geometry {
    initial_term_id: 42,
    term_length: 65_536,
    mtu: 1_408,
};

/// What becomes of a message of 64 bytes with no payload at hand, of term 42, offset 64.
fn offered(alloc: Global, merge: &mut Merge) -> Result<Offered, Refusal> {
    merge.live_frame(Frame {
        kind: FrameKind::Message,
        flags: 0,
        length: 64,
        term_offset: 64,
        session_id: 7,
        stream_id: 1_001,
        term_id: 42,
        reserved: 0,
        payload: Items::new(alloc),
    })
}

/// Offers it, again where memory is refused, which has changed nothing.
fn offered_again(rt: &impl Abort, alloc: Global, merge: &mut Merge) -> Result<(), Refusal> {
    if offered(alloc, merge).is_err() {
        assert!(rt; merge.take().is_none() && !merge.is_merged());
        assert!(rt; offered(alloc, merge)? == Offered::Held);
    }
    Ok(())
}

/// If memory is refused once, nothing has changed, and the frame may be offered again. trials/refused_memory.py refuses
/// each of its requests in turn.
#[test]
fn refused_memory_changes_nothing(rt: HostRuntime) -> Result<(), Fail> {
    let alloc = rt.alloc();
    let mut merge = Merge::new(alloc, GEOMETRY, 0);
    offered_again(&rt, alloc, &mut merge)?;
    assert!(rt; offered(alloc, &mut merge) == Ok(Offered::Ignored));
    Ok(())
}
