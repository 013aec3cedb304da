//! The ends that a server is bound to: docs/SERVING.md, "How to run it".

use std::net::{TcpListener, UdpSocket};

/// What a server listens on.
#[derive(Drop)]
pub struct Ends {
    /// Where control lines come to.
    pub control: TcpListener,
    /// Where lines of clients come to that only read. None: no such clients are served.
    pub consumers: Option<TcpListener>,
    /// Where datagrams come to.
    pub datagrams: UdpSocket,
    /// Where recordings are sent from. None: none is sent.
    pub sending: Option<UdpSocket>,
}
