//! Segments of a recording: docs/STORAGE.md, "Segments".

ghost use Rattle.std.specs.Prelude.{◌≡◌, ◌<◌, ◌≤◌};
ghost use Rattle.frame_core.specs.Segment.{segment_base};

/// Where the segment of a position begins, in bytes of the stream: a whole number of segments behind the start
/// position, which is first rounded down to a multiple of the term length. docs/STORAGE.md, "Segments".
pub fn segment_base(start: u64, term_length: u32, segment_length: u32, position: u64) -> u64
    requires term { 0 < term_length }
    requires segment { 0 < segment_length }
    requires recorded { start ≤ position }
    ensures { result ≡ segment_base start term_length segment_length position }
{
    let first = start - start % u64::from(term_length);
    position - (position - first) % u64::from(segment_length)
}
