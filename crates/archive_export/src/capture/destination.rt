//! Where the datagrams of a channel go. docs/PROTOCOL.md, "Captures".

ghost use Rattle.std.specs.Prelude.{◌≡◌, ◌==◌, ◌+◌, ◌<◌, ◌++◌, ◌∷◌, not, Some, ℕ, List, MatchOption, length, option_copied, take, drop};
ghost use Rattle.std.specs.List.{AllPass, slice_split};
ghost use Rattle.std.specs.Net.Addr.{ipv4_octets};
ghost use Rattle.archive_export.specs.Destination.{HasPort, IsAddressOf, IsDestination, IsNamed, IsPortOf, first_endpoint, parameters_of};

use std::net::Ipv4Addr;

/// How the parameter begins that names a channel's host and port.
const ENDPOINT: &[u8] = b"endpoint=";
/// The port where a channel names none.
const DEFAULT_PORT: u16 = 40_123;

/// Where datagrams are sent to.
#[derive(Clone, Copy, Debug, PartialEq, Eq)]
pub struct Destination {
    /// The address.
    pub address: Ipv4Addr,
    /// The port of UDP.
    pub port: u16,
}

impl Destination {
    /// The destination of a channel: what its first parameter `endpoint` names. The address is 127.0.0.1 where that names
    /// another host than one by an IPv4 address, or none; the port is 40123 where it names none from 1 to 65,535.
    /// docs/PROTOCOL.md, "Captures". Does not allocate.
    pub fn of(channel: &str) -> Destination
        ensures { IsDestination channel.now result }
    {
        match endpoint_of(channel) {
            Some(endpoint) => named(endpoint),
            None => Destination {
                address: Ipv4Addr::LOCALHOST,
                port: DEFAULT_PORT,
            },
        }
    }
}

/// The value of a channel's first parameter that is an endpoint.
fn endpoint_of(channel: &str) -> Option<&[u8]>
    ensures { option_copied result ≡ first_endpoint (parameters_of channel.now) }
{
    let (_, parameters) = channel.split_once('?')?;
    first_endpoint(parameters)
}

/// The value of the first parameter that is an endpoint.
fn first_endpoint(parameters: &str) -> Option<&[u8]>
    ensures { option_copied result ≡ first_endpoint (slice_split (λ b. b == 124) parameters.now) }
{
    for parameter in parameters.split('|') {
        let text = parameter.as_bytes();
        if text.starts_with(ENDPOINT) {
            return Some(&text[ENDPOINT.len()..]);
        }
    }
    None
}

/// The destination that an endpoint names.
fn named(endpoint: &[u8]) -> Destination
    ensures { IsNamed endpoint.now result }
{
    match colon_in(endpoint) {
        Some(at) => Destination {
            address: address_of(&endpoint[..at]),
            port: port_of(&endpoint[at + 1..]),
        },
        None => Destination {
            address: address_of(endpoint),
            port: DEFAULT_PORT,
        },
    }
}

/// Where the last colon of an endpoint stands.
fn colon_in(endpoint: &[u8]) -> Option<usize>
    ensures { MatchOption result
        (AllPass (λ b. not (b == 58)) endpoint.now)
        (λ at. (at < length endpoint.now) × (endpoint.now ≡ take at endpoint.now ++ 58 ∷ drop (at + 1) endpoint.now)
        × AllPass (λ b. not (b == 58)) (drop (at + 1) endpoint.now)) }
{
    let mut at = endpoint.len();
    while at > 0 {
        at -= 1;
        if endpoint[at] == b':' {
            return Some(at);
        }
    }
    None
}

/// The address of a host.
fn address_of(host: &[u8]) -> Ipv4Addr
    ensures { IsAddressOf host.now (ipv4_octets result) }
{
    match Ipv4Addr::parse_ascii(host) {
        Ok(address) => address,
        Err(_) => Ipv4Addr::LOCALHOST,
    }
}

/// The port that a text names.
fn port_of(text: &[u8]) -> u16
    ensures { IsPortOf (Some text.now) result }
{
    named_port(text).unwrap_or(DEFAULT_PORT)
}

/// The port that a text names, if it names one.
fn named_port(text: &[u8]) -> Option<u16>
    ensures { MatchOption result ((port : ℕ) → HasPort text.now port → ⊥) (HasPort text.now) }
{
    let mut port: u32 = 0;
    for byte in text {
        let digit = char::from(*byte).to_digit(10)?;
        port = port * 10 + digit;
        if port > 65_535 {
            return None;
        }
    }
    if port == 0 { None } else { Some(port as u16) }
}
