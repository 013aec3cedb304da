//! Streams whose publications are recorded without being asked. docs/SERVING.md, "Recording without being asked".

ghost use Rattle.std.specs.Prelude.{◌≡◌};
ghost use Rattle.server_receiver.specs.RecordedStreams.{is_recorded_stream};

/// Whether the publications of a stream are recorded.
pub(crate) fn is_recorded_stream(streams: &[i32], stream_id: i32) -> bool
    ensures { result ≡ is_recorded_stream streams.now stream_id }
{
    streams.iter().any(|stream| *stream == stream_id)
}
