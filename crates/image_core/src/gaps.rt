//! Requests for what is missing.

ghost use Rattle.std.specs.Prelude.{◌≡◌, ◌<◌, ◌≤◌, ◌+◌, ◌*◌, ◌^◌, ◌+ℤ◌, pos, unsigned_abs};
ghost use Rattle.frame_core.specs.Nak.{HasRange};
ghost use Rattle.frame_core.specs.Position.{HasPosition};
ghost use Rattle.image_core.specs.Kept.{HasTerms};
ghost use Rattle.image_core.specs.Rebuild.{term_end};

use frame_core::{Geometry, Nak, Publication, term_of};

/// The end of the term in which a position lies.
pub fn term_end(geometry: &Geometry, position: u64) -> u64
    requires terms { HasTerms geometry.now }
    requires small { position < 2 ^ 62 }
    ensures value { result ≡ term_end geometry.now position }
    ensures some { position < result }
    ensures few { result ≤ position + unsigned_abs geometry.now.term_length }
{
    let size = u64::from(geometry.term_length.unsigned_abs());
    (position / size + 1) * size
}

/// A request for the range from a position to an end.
pub fn nak_over(geometry: &Geometry, publication: &Publication, position: u64, end: u64) -> Nak
    requires terms { HasTerms geometry.now }
    requires position { position < 2 ^ 31 * unsigned_abs geometry.now.term_length }
    requires some { position < end }
    requires few { end ≤ position + unsigned_abs geometry.now.term_length }
    ensures session { result.session_id ≡ publication.now.session_id }
    ensures stream { result.stream_id ≡ publication.now.stream_id }
    ensures begins { HasPosition geometry.now result.term_id result.term_offset (pos position) }
    ensures ends { pos position +ℤ result.length ≡ pos end }
    ensures range { HasRange result }
{
    let (term_id, term_offset) = term_of(geometry, position as i64);
    Nak {
        session_id: publication.session_id,
        stream_id: publication.stream_id,
        term_id,
        term_offset,
        length: (end - position) as i32,
    }
}
