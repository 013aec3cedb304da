//! A sender of recorded frames: each request for memory refused. docs/PROTOCOL.md, "Publications of recordings".

use crate::publications::sender_in;
use crate::vectors::{HELLO_AT_0, HELLO_AT_64, HELLO_AT_128};
use frame_core::{Refusal, StatusMessage, decode_front};
use publication_core::Sender;
use std::process::Abort;
use std::test::Fail;

/// A status message of the vectors' stream, by which all that comes may be sent.
const ADMITS_ALL: StatusMessage = StatusMessage {
    flags: 0,
    session_id: 7,
    stream_id: 1_001,
    consumption_term_id: 42,
    consumption_term_offset: 0,
    receiver_window: 131_072,
    receiver_id: 9,
};

/// Lays the frame of some bytes at a position.
fn lay(sender: &mut Sender, position: u64, bytes: &[u8]) -> Result<(), Refusal> {
    let (frame, _) = decode_front(bytes)?;
    sender.lay(position.min(1 << 62), &frame)?;
    Ok(())
}

/// Lays a frame, again if memory is refused, which has changed nothing.
fn lay_again(
    rt: &impl Abort,
    sender: &mut Sender,
    position: u64,
    bytes: &[u8],
) -> Result<(), Refusal> {
    if lay(sender, position, bytes).is_err() {
        assert!(rt; sender.lay_position() == position);
        lay(sender, position, bytes)?;
    }
    Ok(())
}

/// Sends a datagram, again if memory is refused, which has changed nothing.
fn send_again(rt: &impl Abort, sender: &mut Sender, index: usize) -> Result<(), Refusal> {
    match sender.send(0) {
        Ok(found) => assert!(rt; found == Some(index)),
        Err(_) => {
            assert!(rt; sender.datagram(index).is_none() && sender.waiting_bytes() > 0);
            assert!(rt; sender.send(0)? == Some(index));
        }
    }
    Ok(())
}

/// Lays three frames, and sends their datagrams.
fn check_again(rt: &impl Abort, sender: &mut Sender) -> Result<(), Refusal> {
    lay_again(rt, sender, 0, HELLO_AT_0)?;
    lay_again(rt, sender, 64, HELLO_AT_64)?;
    send_again(rt, sender, 0)?;
    lay_again(rt, sender, 128, HELLO_AT_128)?;
    send_again(rt, sender, 1)
}

/// If memory is refused once, nothing has changed, and the call may be made again: trials/refused_memory.py runs this
/// test for each of its requests for memory, which it refuses.
#[test]
fn refused_memory_of_a_publication(rt: HostRuntime) -> Result<(), Fail> {
    let mut sender = sender_in(rt.alloc(), 65_536, 128, 0);
    sender.hear(0, &ADMITS_ALL);
    check_again(&rt, &mut sender)?;
    assert!(rt; sender.retained_bytes() == 192 && sender.waiting_bytes() == 0);
    Ok(())
}
