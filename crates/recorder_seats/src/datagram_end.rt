//! Where datagrams come from, and requests for repair go: docs/ARCHITECTURE.md, "Blocks from datagrams".

ghost use Rattle.std.specs.Prelude.{◌≤◌, length, IfSome};
ghost use Rattle.recorder_seats.specs.DatagramEnd.{datagram_in};

/// Where the datagrams of a publication come from, and requests for repair go.
pub trait DatagramEnd {
    ghost use Rattle.std.specs.Prelude.{ℕ, List, Option};

    /// Which datagram a state may give next, or none, and which state follows.
    ghost receives: { Self → Option (List ℕ) → Self → Type 0 };

    /// Which state follows where some bytes were sent.
    ghost sends: { Self → List ℕ → Self → Type 0 };

    /// The next datagram, at the front of the buffer, and how many bytes it has; of a longer one than the buffer, as many
    /// as the buffer has. None where no more come. May wait for the world.
    fn receive(&mut self, into: &mut [u8]) -> Option<usize>
        ensures count { IfSome result (λ count. count ≤ length into.new) }
        ensures received { Self.receives self.old (datagram_in result into.new) self.new };

    /// Sends a NAK frame to where the datagrams come from. That it can't be sent is no answer: it may be lost on the way
    /// too, and is sent again with a later datagram.
    fn send(&mut self, nak: &[u8; 28])
        ensures { Self.sends self.old nak.now self.new };
}
