//! The networks that `--from` and `--send-to` name. docs/SERVING.md, "How to run it" and "Send a recording".

ghost use Rattle.std.specs.Prelude.{◌≡◌, ◌≤◌, None, Some, IsSomeAnd, MatchOption, MatchResult, length, option_map, slice_get};
ghost use Rattle.clap.specs.declared.error.ErrorKind.TheVariants.{ValueValidation};
ghost use Rattle.server_receiver.specs.declared.networks.Network.{Network};
ghost use Rattle.server_receiver.specs.declared.networks.Networks.{Networks};
ghost use Rattle.folder_commands.specs.declared.status.Ending.TheVariants.{NoCommand};
ghost use Rattle.folder_commands.specs.Networks.{AreNetworks, HasBadNetworks, HasBadSendNetworks, HasNetworks, HasSendNetworks, IsNetwork, IsNetworkAt, IsNetworkOf, address_part, bits_part};

use crate::exit::Exit;
use crate::serving::misworded;
use command_line::{ServeWords, UsageError};
use server::{MAX_NETWORKS, Network, Networks};
use std::net::Ipv4Addr;

/// The bits of an address.
const ADDRESS_BITS: u32 = 32;

/// The networks that datagrams are taken from, by the words. Refused without `--aeron`, if there are more than 16, and if a word is
/// not an address of IPv4, or one with a number of bits from 0 to 32 after a `/`.
pub(crate) fn networks_of(words: &ServeWords<'_>) -> Result<Networks, Exit>
    ensures { MatchResult result (HasNetworks words.now) (λ exit.
        HasBadNetworks words.now × (exit.ending ≡ NoCommand ValueValidation)) }
{
    let texts = words.from.as_slice();
    if !words.is_aeron && !texts.is_empty() {
        return Err(misworded(UsageError::FromNeedsAeron));
    }
    if texts.len() > MAX_NETWORKS {
        return Err(misworded(UsageError::Networks));
    }
    match networks_in(texts) {
        Some(networks) => Ok(networks),
        None => Err(misworded(UsageError::Network)),
    }
}

/// The networks that recordings may be sent to, by the words. Refused as `networks_of`.
pub(crate) fn send_networks_of(words: &ServeWords<'_>) -> Result<Networks, Exit>
    ensures { MatchResult result (HasSendNetworks words.now) (λ exit.
        HasBadSendNetworks words.now × (exit.ending ≡ NoCommand ValueValidation)) }
{
    let texts = words.send_to.as_slice();
    if !texts.is_empty() && !words.is_aeron {
        return Err(misworded(UsageError::SendToNeedsAeron));
    }
    if MAX_NETWORKS < texts.len() {
        return Err(misworded(UsageError::SendNetworks));
    }
    match networks_in(texts) {
        Some(networks) => Ok(networks),
        None => Err(misworded(UsageError::SendNetwork)),
    }
}

/// The networks that texts name, each at its text's place. None if a text names none.
fn networks_in(texts: &[&str]) -> Option<Networks>
    requires { length texts.now ≤ 16 }
    ensures { MatchOption result ((n : Networks) → AreNetworks texts.now n → ⊥) (AreNetworks texts.now) }
{
    let mut networks = Networks::new();
    for index in 0..MAX_NETWORKS {
        match network_at(texts, index) {
            Some(network) => networks.networks[index] = network,
            None => return None,
        }
    }
    Some(networks)
}

/// The network that one of several texts names, if there is such a text. None if the text names none.
fn network_at(texts: &[&str], index: usize) -> Option<Option<Network>>
    ensures { MatchOption result
        (IsSomeAnd (slice_get texts.now index) (λ text. (n : Network) → IsNetwork text.now n → ⊥))
        (IsNetworkAt (slice_get texts.now index)) }
{
    match texts.get(index) {
        Some(text) => Some(Some(network_in(text)?)),
        None => Some(None),
    }
}

/// The network that a text names.
fn network_in(text: &str) -> Option<Network>
    ensures { MatchOption result ((n : Network) → IsNetwork text.now n → ⊥) (IsNetwork text.now) }
{
    let (address, bits) = parts_of(text);
    match bits {
        Some(bits) => network_with(address, bits),
        None => address_alone(address),
    }
}

/// The part of a text before its first `/`, and the part after it, if it has one.
fn parts_of(text: &str) -> (&str, Option<&str>)
    ensures address { result.0.now ≡ address_part text.now }
    ensures bits { option_map (λ bits. bits.now) result.1 ≡ bits_part text.now }
{
    match text.split_once('/') {
        Some((address, bits)) => (address, Some(bits)),
        None => (text, None),
    }
}

/// The network of an address and a number of bits.
fn network_with(address: &str, bits: &str) -> Option<Network>
    ensures { MatchOption result
        ((n : Network) → IsNetworkOf address.now (Some bits.now) n → ⊥)
        (IsNetworkOf address.now (Some bits.now)) }
{
    let Ok(address) = address.parse::<Ipv4Addr>() else {
        return None;
    };
    let Ok(bits) = bits.parse::<u32>() else {
        return None;
    };
    if bits > ADDRESS_BITS {
        return None;
    }
    Some(Network {
        address: address.to_bits(),
        bits,
    })
}

/// The network of one address.
fn address_alone(address: &str) -> Option<Network>
    ensures { MatchOption result
        ((n : Network) → IsNetworkOf address.now None n → ⊥)
        (IsNetworkOf address.now None) }
{
    match address.parse::<Ipv4Addr>() {
        Ok(address) => Some(Network {
            address: address.to_bits(),
            bits: ADDRESS_BITS,
        }),
        Err(_) => None,
    }
}
