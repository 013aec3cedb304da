//! A capture file: the savefile format of pcap, version 2.4. docs/PROTOCOL.md, "Captures".

ghost use Rattle.std.specs.Prelude.{◌≡◌, ◌++◌, IfOk, OnOk};
ghost use Rattle.archive_export.specs.CaptureFile.{file_header, packet_record_of, u32_bytes};
ghost use Rattle.archive_export.specs.Packet.{FitsDatagram};

use super::destination::Destination;
use super::packet::{HEADERS, append_headers, zeros_behind};
use frame_core::Frame;
use std::alloc::{AllocError, Global};

/// The header of a capture file. Does not allocate.
pub fn file_header() -> [u8; 24]
    ensures { result ≡ file_header }
{
    [
        0xd4, 0xc3, 0xb2, 0xa1, 2, 0, 4, 0, 0, 0, 0, 0, 0, 0, 0, 0, 0xff, 0xff, 0, 0, 101, 0, 0, 0,
    ]
}

/// The record of a frame that is sent to a destination by a datagram of its own, at the time 0. Costs the frame's length.
pub fn record(
    alloc: Global,
    destination: &Destination,
    frame: &Frame,
) -> Result<Vec<u8>, AllocError>
    requires { FitsDatagram frame.now }
    ensures { IfOk result (λ bytes. bytes.items ≡ packet_record_of destination.now frame.now) }
{
    let zeros = zeros_behind(frame);
    let total = (HEADERS + frame.encoded_length() + zeros) as u16;
    let mut bytes = Vec::new(alloc);
    append_lengths(&mut bytes, u32::from(total))?;
    append_headers(&mut bytes, destination, total)?;
    bytes.extend_from_slice(&frame.header())?;
    bytes.extend_from_slice(frame.payload.as_slice())?;
    bytes.extend_from_slice(&[0; 32][..zeros])?;
    Ok(bytes)
}

/// Writes the head of a record behind some bytes: the time 0, and twice the length of its packet.
fn append_lengths(bytes: &mut Vec<u8>, length: u32) -> Result<(), AllocError>
    ensures { OnOk result (bytes.new.items ≡
        bytes.old.items ++ u32_bytes 0 ++ u32_bytes 0 ++ u32_bytes length ++ u32_bytes length) }
{
    let length = length.to_le_bytes();
    bytes.extend_from_slice(&[0; 8])?;
    bytes.extend_from_slice(&length)?;
    bytes.extend_from_slice(&length)
}
