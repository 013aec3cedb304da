//! Measures of places, of publications that are not recorded, and of recordings. docs/SERVING.md, "Metrics".

ghost use Rattle.std.specs.Prelude.{◌≡◌, ◌++◌, OnOk, codes, string_bytes};
ghost use Rattle.std.specs.List.{flat_map};
ghost use Rattle.metrics_text.specs.MetricsText.{family_text, late_lines, place_text, rank_lines, ranks_family, recording_families, refusal_lines, refusals_family, word_labels, word_line};

use crate::print::{put_counter, put_gauge, put_head};
use std::alloc::AllocError;

/// What is measured of publications that are not recorded. Each counts once for a cause.
#[derive(Clone, Copy, Debug, PartialEq, Eq)]
pub struct RefusedMeasures {
    /// Those that got no place.
    pub places: u64,
    /// Those for which there is no recording, since as many stand as there may.
    pub recordings: u64,
    /// Those for which no recording may begin yet.
    pub starts: u64,
    /// Those that are not recorded since the history is full.
    pub history: u64,
    /// Since the archive is broken.
    pub broken: u64,
    /// Since there is no memory.
    pub memory: u64,
    /// For another cause.
    pub other: u64,
}

/// What is measured of places and recordings.
#[derive(Clone, Copy, Debug, PartialEq, Eq)]
pub struct PlaceMeasures {
    /// Datagrams from networks that are not taken, or of an image's publication from another address than its sender.
    pub foreign: u64,
    /// Publications that are not recorded.
    pub refused: RefusedMeasures,
    /// Images that feed a session.
    pub recorded: u64,
    /// Images that feed none, and whose publication is wanted.
    pub waiting: u64,
    /// Images of other publications.
    pub other: u64,
    /// Images that there may be.
    pub places: u64,
    /// Recordings that stand.
    pub recordings: u64,
    /// Recordings that may stand.
    pub limit: u64,
}

/// The labels of a line with a word.
fn put_word_labels(out: &mut String, who: &str, label: &str, word: &str) -> Result<(), AllocError>
    ensures { OnOk result
        (string_bytes out.new ≡ string_bytes out.old ++ word_labels who.now label.now word.now) }
{
    write!(out, "{{recorder=\"{who}\",{label}=\"{word}\"}}")
}

/// A line with a word.
#[tactic(auto, unfolding(crate::specs::MetricsText::word_line))]
fn put_word_line(
    out: &mut String,
    who: &str,
    name: &str,
    label: &str,
    word: &str,
    count: u64,
) -> Result<(), AllocError>
    ensures { OnOk result (string_bytes out.new
        ≡ string_bytes out.old ++ word_line who.now name.now label.now word.now count) }
{
    out.push_str(name)?;
    put_word_labels(out, who, label, word)?;
    writeln!(out, " {count}")
}

/// A line of publications that are not recorded.
fn put_refused(out: &mut String, who: &str, cause: &str, count: u64) -> Result<(), AllocError>
    ensures { OnOk result (string_bytes out.new
        ≡ string_bytes out.old ++ word_line who.now (codes "aeron_recorder_publications_refused_total") (codes "cause") cause.now count) }
{
    put_word_line(
        out,
        who,
        "aeron_recorder_publications_refused_total",
        "cause",
        cause,
        count,
    )
}

fn put_refusal_lines(
    out: &mut String,
    who: &str,
    refused: &RefusedMeasures,
) -> Result<(), AllocError>
    ensures { OnOk result
        (string_bytes out.new ≡ string_bytes out.old ++ refusal_lines who.now refused.now) }
{
    put_refused(out, who, "places", refused.places)?;
    put_refused(out, who, "recordings", refused.recordings)?;
    put_refused(out, who, "starts", refused.starts)?;
    put_late_lines(out, who, refused)
}

fn put_late_lines(out: &mut String, who: &str, refused: &RefusedMeasures) -> Result<(), AllocError>
    ensures { OnOk result
        (string_bytes out.new ≡ string_bytes out.old ++ late_lines who.now refused.now) }
{
    put_refused(out, who, "history", refused.history)?;
    put_refused(out, who, "broken", refused.broken)?;
    put_refused(out, who, "memory", refused.memory)?;
    put_refused(out, who, "other", refused.other)
}

#[tactic(auto, unfolding(crate::specs::MetricsText::family_text))]
fn put_refusals(out: &mut String, who: &str, refused: &RefusedMeasures) -> Result<(), AllocError>
    ensures { OnOk result
        (string_bytes out.new ≡ string_bytes out.old ++ family_text (refusals_family who.now refused.now)) }
{
    put_head(
        out,
        "counter",
        "aeron_recorder_publications_refused_total",
        "Publications that are not recorded.",
    )?;
    put_refusal_lines(out, who, refused)
}

/// A line of images.
fn put_rank(out: &mut String, who: &str, rank: &str, count: u64) -> Result<(), AllocError>
    ensures { OnOk result (string_bytes out.new
        ≡ string_bytes out.old ++ word_line who.now (codes "aeron_recorder_images") (codes "rank") rank.now count) }
{
    put_word_line(out, who, "aeron_recorder_images", "rank", rank, count)
}

fn put_rank_lines(out: &mut String, who: &str, places: &PlaceMeasures) -> Result<(), AllocError>
    ensures { OnOk result
        (string_bytes out.new ≡ string_bytes out.old ++ rank_lines who.now places.now) }
{
    put_rank(out, who, "recorded", places.recorded)?;
    put_rank(out, who, "waiting", places.waiting)?;
    put_rank(out, who, "other", places.other)
}

#[tactic(auto, unfolding(crate::specs::MetricsText::family_text))]
fn put_ranks(out: &mut String, who: &str, places: &PlaceMeasures) -> Result<(), AllocError>
    ensures { OnOk result
        (string_bytes out.new ≡ string_bytes out.old ++ family_text (ranks_family who.now places.now)) }
{
    put_head(out, "gauge", "aeron_recorder_images", "Images.")?;
    put_rank_lines(out, who, places)
}

fn put_recordings(out: &mut String, who: &str, places: &PlaceMeasures) -> Result<(), AllocError>
    ensures { OnOk result (string_bytes out.new
        ≡ string_bytes out.old ++ flat_map family_text (recording_families who.now places.now)) }
{
    put_gauge(
        out,
        who,
        "aeron_recorder_image_places",
        "Images that there may be.",
        places.places,
    )?;
    put_gauge(
        out,
        who,
        "aeron_recorder_recordings",
        "Recordings that stand.",
        places.recordings,
    )?;
    put_gauge(
        out,
        who,
        "aeron_recorder_recordings_limit",
        "Recordings that may stand.",
        places.limit,
    )
}

/// The families of places.
pub(crate) fn put_places(
    out: &mut String,
    who: &str,
    places: &PlaceMeasures,
) -> Result<(), AllocError>
    ensures { OnOk result
        (string_bytes out.new ≡ string_bytes out.old ++ place_text who.now places.now) }
{
    put_counter(
        out,
        who,
        "aeron_recorder_datagrams_foreign_total",
        "Datagrams of another address or network.",
        places.foreign,
    )?;
    put_refusals(out, who, &places.refused)?;
    put_ranks(out, who, places)?;
    put_recordings(out, who, places)
}
