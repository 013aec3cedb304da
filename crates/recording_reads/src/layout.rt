//! Where the frames of a recording lie. docs/STORAGE.md, "Segments".

ghost use Rattle.std.specs.Prelude.{◌≡◌};
ghost use Rattle.recording_reads.specs.Recording.{layout_of};

use archive_model::Descriptor;
use segment_store::Layout;

/// Where the frames of a recording lie.
pub fn layout_of(descriptor: &Descriptor) -> Layout
    ensures { result ≡ layout_of descriptor.now }
{
    Layout {
        recording: descriptor.recording,
        stream_id: descriptor.stream_id,
        start_position: descriptor.start_position,
        term_length: descriptor.term_length,
        segment_length: descriptor.segment_length,
    }
}
