//! The networks that datagrams are taken from. docs/SERVING.md, "Who can send".

ghost use Rattle.std.specs.Prelude.{◌≡◌, None, is_some, replicate};
ghost use Rattle.std.specs.List.{list_any};
ghost use Rattle.server_receiver.specs.Networks.{contains, is_from_network, is_in_network, takes};

use std::net::{Ipv4Addr, SocketAddr};

/// Networks that may be named at most.
pub const MAX_NETWORKS: usize = 16;
/// Bits of an address.
const ADDRESS_BITS: u32 = 32;

/// A network of IPv4 addresses: those whose first bits are the same.
#[derive(Clone, Copy, Debug, PartialEq, Eq)]
pub struct Network {
    /// One of its addresses, as a number.
    pub address: u32,
    /// How many bits are the same, from 0 to 32.
    pub bits: u32,
}

impl Network {
    /// Whether it has an address. Does not allocate.
    fn contains(&self, address: &Ipv4Addr) -> bool
        ensures { result ≡ contains address.now self.now }
    {
        let rest = ADDRESS_BITS - self.bits.min(ADDRESS_BITS);
        u64::from(address.to_bits()) >> rest == u64::from(self.address) >> rest
    }
}

/// The networks that datagrams are taken from, at most 16. All are taken if there is none.
#[derive(Clone, Copy, Debug, PartialEq, Eq)]
pub struct Networks {
    /// Them.
    pub networks: [Option<Network>; MAX_NETWORKS],
}

impl Networks {
    /// No network is named.
    pub fn new() -> Networks
        ensures { result ≡ record { networks = replicate 16 None } }
    {
        Networks {
            networks: [None; MAX_NETWORKS],
        }
    }

    /// Whether datagrams from an address are taken. Does not allocate.
    pub fn takes(&self, from: Option<SocketAddr>) -> bool
        ensures { result ≡ takes from self.now.networks }
    {
        !self.is_any_named() || self.are_from(&from)
    }

    /// Whether an address is in one of the networks: none is, if none is named. Does not allocate.
    pub fn has(&self, address: Option<SocketAddr>) -> bool
        ensures { result ≡ list_any (is_from_network address) self.now.networks }
    {
        self.are_from(&address)
    }

    /// Whether an address is in one of the networks.
    fn are_from(&self, from: &Option<SocketAddr>) -> bool
        ensures { result ≡ list_any (is_from_network from.now) self.now.networks }
    {
        self.networks.iter().any(|network| is_from(network, from))
    }

    fn is_any_named(&self) -> bool
        ensures { result ≡ list_any is_some self.now.networks }
    {
        self.networks.iter().any(|network| network.is_some())
    }
}

/// Whether an address is in a network.
fn is_from(network: &Option<Network>, from: &Option<SocketAddr>) -> bool
    ensures { result ≡ is_from_network from.now network.now }
{
    match from {
        Some(SocketAddr::V4(from)) => is_in(network, from.ip()),
        _ => false,
    }
}

fn is_in(network: &Option<Network>, address: &Ipv4Addr) -> bool
    ensures { result ≡ is_in_network address.now network.now }
{
    match network {
        Some(network) => network.contains(address),
        None => false,
    }
}
