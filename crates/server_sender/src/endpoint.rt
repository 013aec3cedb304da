//! Where a recording may be sent to. docs/CONTROL.md, "Sendings".

ghost use Rattle.std.specs.Prelude.{◌≡◌};
ghost use Rattle.std.specs.Net.Text.{socket_v4_text};
ghost use Rattle.server_sender.specs.Endpoints.{IsSocketOf, is_endpoint_at, is_endpoint_of, is_received_at, is_sendable, is_unicast};
ghost use Rattle.server_sender.specs.Texts.{endpoint_text};

use std::net::{Ipv4Addr, SocketAddr, SocketAddrV4};

/// The first address of the multicast addresses, as a number, and of those after them.
const MULTICAST: u32 = 0xE000_0000;

const RESERVED: u32 = 0xF000_0000;
/// The broadcast address, as a number.
const BROADCAST: u32 = 0xFFFF_FFFF;

/// An IPv4 address and a port that datagrams go to.
#[derive(Clone, Copy, Debug, PartialEq, Eq)]
pub struct Endpoint {
    /// The address, as a number.
    pub address: u32,
    /// The port.
    pub port: u16,
}

impl Endpoint {
    /// That of a socket address. Does not allocate.
    pub fn of(address: &SocketAddrV4) -> Endpoint
        ensures { IsSocketOf address.now result }
    {
        Endpoint {
            address: address.ip().to_bits(),
            port: address.port(),
        }
    }

    /// Its socket address. Does not allocate.
    #[tactic(auto, unfolding(crate::specs::Texts::endpoint_text, std::specs::Net::Addr::IsIpv4OfBits))]
    pub fn to_socket(self) -> SocketAddrV4
        ensures { socket_v4_text result ≡ endpoint_text self }
    {
        SocketAddrV4::new(Ipv4Addr::from_bits(self.address), self.port)
    }

    /// Whether a datagram came from it. Does not allocate.
    pub fn is_endpoint_of(&self, from: &SocketAddr) -> bool
        ensures { result ≡ is_endpoint_of from.now self.now }
    {
        match from {
            SocketAddr::V4(from) => self.is_endpoint_at(from),
            SocketAddr::V6(_) => false,
        }
    }

    /// Whether it is this socket address.
    fn is_endpoint_at(&self, address: &SocketAddrV4) -> bool
        ensures { result ≡ is_endpoint_at address.now self.now }
    {
        address.ip().to_bits() == self.address && address.port() == self.port
    }

    /// Whether what is sent to it comes to a socket that is bound to this address, or to 0.0.0.0, each address of its machine. Of
    /// which machine an address is can't be known here: with 0.0.0.0 each endpoint of that port counts.
    fn is_received_at(&self, bound: &SocketAddr) -> bool
        ensures { result ≡ is_received_at bound.now self.now }
    {
        match bound {
            SocketAddr::V4(bound) => {
                let address = bound.ip().to_bits();
                bound.port() == self.port && (address == self.address || address == 0)
            }
            SocketAddr::V6(_) => false,
        }
    }

    /// Whether it is one host's: no multicast address, not the broadcast address, not 0.0.0.0, and a port that isn't 0.
    fn is_unicast(&self) -> bool
        ensures { result ≡ is_unicast self.now }
    {
        self.address != 0
            && self.address != BROADCAST
            && (self.address < MULTICAST || RESERVED <= self.address)
            && self.port != 0
    }
}

/// Whether a recording may be sent to an endpoint: it is one host's, and not where datagrams for this server come to. Whether it
/// is in the networks that may be sent to is the caller's to know. Does not allocate.
pub fn is_sendable(endpoint: &Endpoint, receive: &SocketAddr) -> bool
    ensures { result ≡ is_sendable receive.now endpoint.now }
{
    endpoint.is_unicast() && !endpoint.is_received_at(receive)
}
