//! The families that have a number of each image: docs/SERVING.md, "Metrics".

ghost use Rattle.std.specs.Prelude.{◌≡◌};
ghost use Rattle.metrics_text.specs.MetricsText.{image_help, image_kind, image_name};

/// A family that has a number of each image.
#[derive(Clone, Copy, Debug)]
pub(crate) enum ImageFamily {
    /// Where all of the image is received to.
    Rebuilt,
    /// Where the image is taken to, to be recorded.
    Consumed,
    /// How long the image's first gap has stood.
    Gap,
    /// How many bytes of that gap are asked for.
    GapBytes,
    /// How many datagrams of the image's publication came.
    Datagrams,
    /// How many NAK frames were sent for the image.
    Naks,
    /// How many datagrams were lost past the image's stock.
    Lost,
    /// How long ago the image's last datagram came.
    LastDatagram,
}

impl ImageFamily {
    /// The family's name.
    #[tactic(auto, unfolding(crate::specs::MetricsText::image_name))]
    pub(crate) fn name(self) -> &'static str
        ensures { result.now ≡ image_name self }
    {
        match self {
            ImageFamily::Rebuilt => "aeron_recorder_rebuilt_position_bytes",
            ImageFamily::Consumed => "aeron_recorder_consumed_position_bytes",
            ImageFamily::Gap => "aeron_recorder_gap_seconds",
            ImageFamily::GapBytes => "aeron_recorder_gap_bytes",
            ImageFamily::Datagrams => "aeron_recorder_image_datagrams_total",
            ImageFamily::Naks => "aeron_recorder_image_naks_total",
            ImageFamily::Lost => "aeron_recorder_image_lost_total",
            ImageFamily::LastDatagram => "aeron_recorder_image_last_datagram_seconds",
        }
    }

    /// The kind of its numbers.
    pub(crate) fn kind(self) -> &'static str
        ensures { result.now ≡ image_kind self }
    {
        match self {
            ImageFamily::Datagrams | ImageFamily::Naks | ImageFamily::Lost => "counter",
            _ => "gauge",
        }
    }

    /// What its numbers are.
    pub(crate) fn help(self) -> &'static str
        ensures { result.now ≡ image_help self }
    {
        match self {
            ImageFamily::Rebuilt => "Where all of an image is received to.",
            ImageFamily::Consumed => "Where an image is taken to, to be recorded.",
            ImageFamily::Gap => "How long the first gap of an image has stood.",
            ImageFamily::GapBytes => "Bytes of the first gap of an image that are asked for.",
            ImageFamily::Datagrams => "Datagrams of an image that came.",
            ImageFamily::Naks => "NAK frames that were sent for an image.",
            ImageFamily::Lost => "Datagrams that were lost past the stock of an image.",
            ImageFamily::LastDatagram => "How long ago the last datagram of an image came.",
        }
    }
}
