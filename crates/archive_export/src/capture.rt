//! Frames as a capture file: datagrams of UDP over IPv4 in pcap's savefile format. docs/PROTOCOL.md, "Captures".

mod destination;
mod file;
mod packet;

pub use destination::Destination;
pub use file::{file_header, record};
pub use packet::fits_datagram;
