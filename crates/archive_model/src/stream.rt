//! Which stream a recording records: Aeron Transport Protocol Specification, "Stream".

ghost use Rattle.std.specs.Prelude.{◌≡◌};
ghost use Rattle.archive_model.specs.State.{geometry_of, publication_of};

use crate::descriptor::Descriptor;
use frame_core::{Geometry, Publication};

impl Descriptor {
    /// The terms of the recorded stream.
    pub fn geometry(&self) -> Geometry
        ensures { result ≡ geometry_of self.now }
    {
        Geometry {
            initial_term_id: self.initial_term_id,
            term_length: self.term_length,
            mtu: self.mtu,
        }
    }

    /// Who sends the recorded stream.
    pub fn publication(&self) -> Publication
        ensures { result ≡ publication_of self.now }
    {
        Publication {
            session_id: self.session_id,
            stream_id: self.stream_id,
        }
    }
}
