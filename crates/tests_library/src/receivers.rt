//! What a receiver sends to a sender: each request for memory refused.

use flow_control::SetupRequests;

/// If memory is refused once, requests may be made again. trials/refused_memory.py refuses each of its requests in turn.
#[test]
fn refused_memory_makes_no_requests(rt: HostRuntime) {
    let alloc = rt.alloc();
    assert!(rt; SetupRequests::new(alloc).is_ok() || SetupRequests::new(alloc).is_ok());
}
