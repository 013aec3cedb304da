//! A socket as the end that datagrams come from, and requests go to.

use crate::senders::SenderEnd;
use frame_core::limits::STATUS_LENGTH;
use recorder_seats::DatagramEnd;
use std::io::ErrorKind;
use std::net::{SocketAddr, UdpSocket};

/// Datagrams of any sender; a request goes to the sender of the last one.
#[derive(Drop)]
pub(crate) struct UdpEnd<'a> {
    socket: &'a UdpSocket,
    sender: Option<SocketAddr>,
    /// Status messages that were sent.
    statuses: u64,
}

impl<'a> UdpEnd<'a> {
    /// No datagram came yet.
    pub fn new(socket: &'a UdpSocket) -> UdpEnd<'a> {
        UdpEnd {
            socket,
            sender: None,
            statuses: 0,
        }
    }

    /// Status messages that were sent.
    pub fn statuses(&self) -> u64 {
        self.statuses
    }

    /// The sender of the last datagram.
    pub fn sender(&self) -> Option<SocketAddr> {
        self.sender
    }
}

/// Where no datagram comes for the socket's time-out, or a signal comes before one, it is an empty one without a sender.
impl DatagramEnd for UdpEnd<'_> {
    ghost use Rattle.std.specs.Prelude.{⊤};

    ghost receives = { λ old given new. ⊤ };

    ghost sends = { λ old bytes new. ⊤ };

    fn receive(&mut self, into: &mut [u8]) -> Option<usize> {
        match self.socket.recv_from(into) {
            Ok((count, sender)) => {
                self.sender = Some(sender);
                Some(count)
            }
            Err(error) => {
                self.sender = None;
                match error.kind() {
                    ErrorKind::WouldBlock | ErrorKind::Interrupted => Some(0),
                    _ => None,
                }
            }
        }
    }

    fn send(&mut self, nak: &[u8; 28]) {
        if let Some(sender) = self.sender {
            let _ = self.socket.send_to(nak, sender);
        }
    }
}

/// A frame goes out by the socket that receives. One that can't be sent may be lost on the way too. No other frame that is
/// sent has as many bytes as a status message.
impl SenderEnd for UdpEnd<'_> {
    ghost use Rattle.std.specs.Prelude.{⊤};

    ghost puts = { λ old address bytes new. ⊤ };

    fn put(&mut self, frame: &[u8], to: SocketAddr) {
        if frame.len() == STATUS_LENGTH {
            self.statuses = self.statuses.wrapping_add(1);
        }
        let _ = self.socket.send_to(frame, to);
    }
}
