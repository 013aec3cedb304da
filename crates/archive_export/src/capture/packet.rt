//! A frame as a datagram of UDP over IPv4: RFC 791, section 3.1; RFC 768. docs/PROTOCOL.md, "Captures".

ghost use Rattle.std.specs.Prelude.{◌≡◌, ◌+◌, ◌<◌, ◌≤◌, ◌++◌, ◌-◌, ◌↔◌, IsTrue, OnOk, length};
ghost use Rattle.std.specs.Net.Addr.{ipv4_octets, segments_of};
ghost use Rattle.frame_core.specs.FrameEncoding.{encoded};
ghost use Rattle.archive_export.specs.Packet.{FitsDatagram, added, checksum_of, in_network_order, ipv4_header, ipv4_words, udp_header, zeros_behind};

use super::destination::Destination;
use frame_core::limits::FRAME_ALIGNMENT;
use frame_core::{Frame, FrameKind};
use std::alloc::AllocError;

/// Bytes of the headers of IPv4 and UDP.
pub(crate) const HEADERS: usize = 28;
// Bytes of a datagram of IPv4 at most.
const MAX_DATAGRAM: usize = 65_535;

/// Whether what is sent of a frame fits one datagram of UDP over IPv4: a message of at most 65,504 bytes does, header
/// included, and so do a pad and a heartbeat. Does not allocate.
pub fn fits_datagram(frame: &Frame) -> bool
    ensures { IsTrue result ↔ FitsDatagram frame.now }
{
    frame.encoded_length() <= MAX_DATAGRAM
        && HEADERS + frame.encoded_length() + zeros_behind(frame) <= MAX_DATAGRAM
}

/// How many zeros are sent behind a frame's encoding.
pub(crate) fn zeros_behind(frame: &Frame) -> usize
    requires { length (encoded frame.now) ≤ 65535 }
    ensures value { result ≡ zeros_behind frame.now.kind (length (encoded frame.now)) }
    ensures few { result < 32 }
{
    match frame.kind {
        FrameKind::Pad | FrameKind::Heartbeat => 0,
        FrameKind::Message => (FRAME_ALIGNMENT - frame.encoded_length() % FRAME_ALIGNMENT)
            % FRAME_ALIGNMENT,
    }
}

/// Writes the headers of a datagram of so many bytes, headers included, behind some bytes.
pub(crate) fn append_headers(
    bytes: &mut Vec<u8>,
    destination: &Destination,
    total: u16,
) -> Result<(), AllocError>
    requires { 28 ≤ total }
    ensures written { OnOk result (bytes.new.items ≡
        bytes.old.items ++ ipv4_header destination.now total ++ udp_header destination.now (total - 20)) }
    ensures size { OnOk result (length (ipv4_header destination.now total) ≡ 20) }
{
    let checksum = checksum_of(&ipv4_words(destination, total, 0));
    append_words(bytes, &ipv4_words(destination, total, checksum))?;
    append_words(bytes, &[destination.port, destination.port, total - 20, 0])
}

/// The header of IPv4, as words of 16 bits.
fn ipv4_words(destination: &Destination, total: u16, checksum: u16) -> [u16; 10]
    ensures { result ≡ ipv4_words destination.now total checksum }
{
    let [a, b, c, d] = destination.address.octets();
    let high = u16::from(a) * 256 + u16::from(b);
    let low = u16::from(c) * 256 + u16::from(d);
    [
        0x4500, total, 0, 0, 0x4011, checksum, 0x7f00, 0x0001, high, low,
    ]
}

/// The one's complement of the one's complement sum of words.
fn checksum_of(words: &[u16]) -> u16
    ensures { result ≡ checksum_of words.now }
{
    let mut sum = 0;
    for word in words {
        sum = added(sum, *word);
    }
    65_535 - sum
}

/// The one's complement sum of two words.
fn added(a: u16, b: u16) -> u16
    ensures { result ≡ added a b }
{
    let sum = u32::from(a) + u32::from(b);
    (sum % 65_536 + sum / 65_536) as u16
}

/// Writes words behind some bytes, the high byte of each first.
fn append_words(bytes: &mut Vec<u8>, words: &[u16]) -> Result<(), AllocError>
    ensures { OnOk result (bytes.new.items ≡ bytes.old.items ++ in_network_order words.now) }
{
    for word in words {
        bytes.extend_from_slice(&word.to_be_bytes())?;
    }
    Ok(())
}
