//! The end that datagrams of sendings go out by.

use crate::endpoint::Endpoint;

/// Who sends datagrams.
pub trait SendEnd {
    ghost use Rattle.std.specs.Prelude.{ℕ, List};
    ghost use Rattle.server_sender.specs.declared.endpoint.Endpoint.{Endpoint};

    /// Which state follows once some bytes were sent to an endpoint.
    ghost puts: { Self → Endpoint → List ℕ → Self → Type 0 };

    /// Sends a datagram to an endpoint. It may be lost on the way, and so may one that can't be sent.
    fn put(&mut self, datagram: &[u8], to: &Endpoint)
        ensures { Self.puts self.old to.now datagram.now self.new };
}
