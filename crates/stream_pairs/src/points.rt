//! Where in which stream.

ghost use Rattle.std.specs.Prelude.{◌≡◌};
ghost use Rattle.stream_pairs.specs.Pairs.{has_publication, has_terms, is_point};

use frame_core::{Geometry, Publication};

/// A position in the stream of a publication: where an image joined, or where a recording is recorded to.
#[derive(Clone, Copy, Debug, PartialEq, Eq)]
pub struct StreamPoint {
    /// Who sends the stream.
    pub publication: Publication,
    /// The stream's terms.
    pub geometry: Geometry,
    /// Bytes from the stream's beginning.
    pub position: i64,
}

impl StreamPoint {
    /// Whether it is in a stream of this publication. Does not allocate.
    pub fn is_of(&self, publication: &Publication) -> bool
        ensures { result ≡ has_publication publication.now self.now }
    {
        self.publication.session_id == publication.session_id
            && self.publication.stream_id == publication.stream_id
    }

    /// Whether it is the same position in the same stream: of the same publication, with the same initial term id, term
    /// length and MTU. Does not allocate.
    pub fn is_at(&self, other: &StreamPoint) -> bool
        ensures { result ≡ is_point other.now self.now }
    {
        self.is_of(&other.publication)
            && self.has_terms(&other.geometry)
            && self.position == other.position
    }

    fn has_terms(&self, geometry: &Geometry) -> bool
        ensures { result ≡ has_terms geometry.now self.now }
    {
        self.geometry.initial_term_id == geometry.initial_term_id
            && self.geometry.term_length == geometry.term_length
            && self.geometry.mtu == geometry.mtu
    }
}
