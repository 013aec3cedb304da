//! Measures as text. docs/SERVING.md, "Metrics".

ghost use Rattle.std.specs.Prelude.{◌≡◌, ◌++◌, OnOk, IfOk, codes, decimal, string_bytes};
ghost use Rattle.std.specs.List.{flat_map};
ghost use Rattle.metrics_text.specs.MetricsText.{about_families, build_family, build_labels, build_line, client_families, counter, fact, family_text, gauge, head, history_families, hole_families, image_family, image_labels, image_metric_line, image_number, line, measures_text, metrics_text, own_labels, place_text, poll_families, position_text, received_families, received_image_text, recorded_family, recorded_line, recorder_families, recording_labels, replay_family, replay_labels, replay_line, resume_families, seconds, sent_families, start_family, state_families};

use crate::about::RecorderAbout;
use crate::histogram::put_histogram;
use crate::image_family::ImageFamily;
use crate::measures::{
    ArchiveMeasures, ClientMeasures, DatagramMeasures, ImageMeasures, Measures, RecorderMeasures,
    RecordingMeasures, ReplayMeasures, ResumeMeasures,
};
use crate::places::put_places;
use crate::publication_holes::put_publication_holes;
use crate::sends::put_sends;
use std::alloc::{AllocError, Global};

/// The two lines that say what a family is.
#[tactic(auto, unfolding(crate::specs::MetricsText::head))]
pub(crate) fn put_head(
    out: &mut String,
    kind: &str,
    name: &str,
    help: &str,
) -> Result<(), AllocError>
    ensures { OnOk result
        (string_bytes out.new ≡ string_bytes out.old ++ head kind.now name.now help.now) }
{
    writeln!(out, "# HELP {name} {help}\n# TYPE {name} {kind}")
}

/// Microseconds as seconds.
#[tactic(auto, unfolding(crate::specs::MetricsText::seconds))]
pub(crate) fn put_seconds(out: &mut String, micros: u64) -> Result<(), AllocError>
    ensures { OnOk result (string_bytes out.new ≡ string_bytes out.old ++ seconds micros) }
{
    write!(
        out,
        "{}.{}{}{}{}{}{}",
        micros / 1_000_000,
        micros / 100_000 % 10,
        micros / 10_000 % 10,
        micros / 1_000 % 10,
        micros / 100 % 10,
        micros / 10 % 10,
        micros % 10,
    )
}

/// The label of a line that has no other.
fn put_own_labels(out: &mut String, who: &str) -> Result<(), AllocError>
    ensures { OnOk result (string_bytes out.new ≡ string_bytes out.old ++ own_labels who.now) }
{
    write!(out, "{{recorder=\"{who}\"}}")
}

/// A name, and the label of a line that has no other.
fn put_name(out: &mut String, who: &str, name: &str) -> Result<(), AllocError>
    ensures { OnOk result (string_bytes out.new ≡ string_bytes out.old ++ (name.now ++ own_labels who.now)) }
{
    out.push_str(name)?;
    put_own_labels(out, who)
}

/// The line of how many microseconds they took in all.
pub(crate) fn put_sum(
    out: &mut String,
    who: &str,
    name: &str,
    micros: u64,
) -> Result<(), AllocError>
    ensures { OnOk result (string_bytes out.new
        ≡ string_bytes out.old ++ line (name.now ++ codes "_sum") (own_labels who.now) (seconds micros)) }
{
    write!(out, "{name}_sum")?;
    put_own_labels(out, who)?;
    out.push_str(" ")?;
    put_seconds(out, micros)?;
    out.push_str("\n")
}

/// The line of how many there were.
pub(crate) fn put_count(
    out: &mut String,
    who: &str,
    name: &str,
    count: u64,
) -> Result<(), AllocError>
    ensures { OnOk result (string_bytes out.new
        ≡ string_bytes out.old ++ line (name.now ++ codes "_count") (own_labels who.now) (decimal count)) }
{
    write!(out, "{name}_count")?;
    put_own_labels(out, who)?;
    writeln!(out, " {count}")
}

/// A family of a number that never falls.
#[tactic(auto, unfolding(crate::specs::MetricsText::family_text))]
pub(crate) fn put_counter(
    out: &mut String,
    who: &str,
    name: &str,
    help: &str,
    value: u64,
) -> Result<(), AllocError>
    ensures { OnOk result
        (string_bytes out.new ≡ string_bytes out.old ++ family_text (counter who.now name.now help.now value)) }
{
    put_head(out, "counter", name, help)?;
    put_name(out, who, name)?;
    writeln!(out, " {value}")
}

/// A family of a number that may fall.
#[tactic(auto, unfolding(crate::specs::MetricsText::family_text))]
pub(crate) fn put_gauge(
    out: &mut String,
    who: &str,
    name: &str,
    help: &str,
    value: u64,
) -> Result<(), AllocError>
    ensures { OnOk result
        (string_bytes out.new ≡ string_bytes out.old ++ family_text (gauge who.now name.now help.now (decimal value))) }
{
    put_head(out, "gauge", name, help)?;
    put_name(out, who, name)?;
    writeln!(out, " {value}")
}

/// A family of a fact.
fn put_fact(
    out: &mut String,
    who: &str,
    name: &str,
    help: &str,
    holds: bool,
) -> Result<(), AllocError>
    ensures { OnOk result
        (string_bytes out.new ≡ string_bytes out.old ++ family_text (fact who.now name.now help.now holds)) }
{
    if holds {
        put_gauge(out, who, name, help, 1)
    } else {
        put_gauge(out, who, name, help, 0)
    }
}

/// A family of a time, in microseconds.
#[tactic(auto, unfolding(crate::specs::MetricsText::family_text))]
fn put_time(
    out: &mut String,
    who: &str,
    name: &str,
    help: &str,
    micros: u64,
) -> Result<(), AllocError>
    ensures { OnOk result
        (string_bytes out.new ≡ string_bytes out.old ++ family_text (gauge who.now name.now help.now (seconds micros))) }
{
    put_head(out, "gauge", name, help)?;
    put_name(out, who, name)?;
    out.push_str(" ")?;
    put_seconds(out, micros)?;
    out.push_str("\n")
}

fn put_state(out: &mut String, who: &str, archive: &ArchiveMeasures) -> Result<(), AllocError>
    ensures { OnOk result (string_bytes out.new
        ≡ string_bytes out.old ++ flat_map family_text (state_families who.now archive.now)) }
{
    put_fact(
        out,
        who,
        "aeron_recorder_archive_open",
        "Whether an archive is open.",
        archive.is_open,
    )?;
    put_fact(
        out,
        who,
        "aeron_recorder_archive_broken",
        "Whether a device fault broke the archive.",
        archive.is_broken,
    )?;
    put_fact(
        out,
        who,
        "aeron_recorder_history_full",
        "Whether the history has no room for an entry.",
        archive.is_full,
    )
}

fn put_history(out: &mut String, who: &str, archive: &ArchiveMeasures) -> Result<(), AllocError>
    ensures { OnOk result (string_bytes out.new
        ≡ string_bytes out.old ++ flat_map family_text (history_families who.now archive.now)) }
{
    put_gauge(
        out,
        who,
        "aeron_recorder_history_entries",
        "Entries of the history that are used.",
        archive.entries,
    )?;
    put_gauge(
        out,
        who,
        "aeron_recorder_history_limit_entries",
        "Entries that the history may have.",
        archive.limit,
    )?;
    put_counter(
        out,
        who,
        "aeron_recorder_checkpoints_total",
        "Checkpoints that were made.",
        archive.checkpoints,
    )?;
    put_counter(
        out,
        who,
        "aeron_recorder_checkpoints_refused_total",
        "Checkpoints that were refused.",
        archive.refused_checkpoints,
    )
}

fn put_recorder(out: &mut String, who: &str, recorder: &RecorderMeasures) -> Result<(), AllocError>
    ensures { OnOk result (string_bytes out.new
        ≡ string_bytes out.old ++ flat_map family_text (recorder_families who.now recorder.now)) }
{
    put_counter(
        out,
        who,
        "aeron_recorder_recorded_bytes_total",
        "Bytes of streams that are settled.",
        recorder.bytes,
    )?;
    put_counter(
        out,
        who,
        "aeron_recorder_recorded_frames_total",
        "Frames that were written.",
        recorder.frames,
    )?;
    put_histogram(
        out,
        who,
        "aeron_recorder_settle_seconds",
        "Settles, and how long they took.",
        &recorder.settles,
    )
}

fn put_received(out: &mut String, who: &str, datagrams: &DatagramMeasures) -> Result<(), AllocError>
    ensures { OnOk result (string_bytes out.new
        ≡ string_bytes out.old ++ flat_map family_text (received_families who.now datagrams.now)) }
{
    put_counter(
        out,
        who,
        "aeron_recorder_datagrams_received_total",
        "Datagrams that came.",
        datagrams.received,
    )?;
    put_counter(
        out,
        who,
        "aeron_recorder_datagrams_dropped_total",
        "Datagrams that changed nothing.",
        datagrams.dropped,
    )?;
    put_counter(
        out,
        who,
        "aeron_recorder_datagrams_lost_total",
        "Datagrams that were lost past the stock of an image.",
        datagrams.lost,
    )?;
    put_counter(
        out,
        who,
        "aeron_recorder_datagrams_repeated_total",
        "Datagrams that came late or again.",
        datagrams.repeats,
    )
}

fn put_sent(out: &mut String, who: &str, datagrams: &DatagramMeasures) -> Result<(), AllocError>
    ensures { OnOk result (string_bytes out.new
        ≡ string_bytes out.old ++ flat_map family_text (sent_families who.now datagrams.now)) }
{
    put_counter(
        out,
        who,
        "aeron_recorder_naks_sent_total",
        "NAK frames that were sent.",
        datagrams.naks,
    )?;
    put_counter(
        out,
        who,
        "aeron_recorder_status_messages_sent_total",
        "Status messages that were sent.",
        datagrams.status_messages,
    )?;
    put_counter(
        out,
        who,
        "aeron_recorder_images_joined_total",
        "Images that joined.",
        datagrams.images,
    )
}

fn put_holes(out: &mut String, who: &str, resumes: &ResumeMeasures) -> Result<(), AllocError>
    ensures { OnOk result (string_bytes out.new
        ≡ string_bytes out.old ++ flat_map family_text (hole_families who.now resumes.now)) }
{
    put_counter(
        out,
        who,
        "aeron_recorder_holes_total",
        "Holes between recordings of one publication.",
        resumes.holes,
    )?;
    put_counter(
        out,
        who,
        "aeron_recorder_hole_bytes_total",
        "Bytes of such holes.",
        resumes.hole_bytes,
    )
}

fn put_resumes(out: &mut String, who: &str, resumes: &ResumeMeasures) -> Result<(), AllocError>
    ensures { OnOk result (string_bytes out.new
        ≡ string_bytes out.old ++ flat_map family_text (resume_families who.now resumes.now)) }
{
    put_counter(
        out,
        who,
        "aeron_recorder_resumed_total",
        "Images that began before their setup frames, where a recording stands.",
        resumes.resumed,
    )?;
    put_counter(
        out,
        who,
        "aeron_recorder_resumed_bytes_total",
        "Bytes that were missing before setup frames, and came.",
        resumes.resumed_bytes,
    )?;
    put_gauge(
        out,
        who,
        "aeron_recorder_resuming",
        "Images that wait for such bytes.",
        resumes.resuming,
    )
}

fn put_clients(out: &mut String, who: &str, clients: &ClientMeasures) -> Result<(), AllocError>
    ensures { OnOk result (string_bytes out.new
        ≡ string_bytes out.old ++ flat_map family_text (client_families who.now clients.now)) }
{
    put_counter(
        out,
        who,
        "aeron_recorder_connections_total",
        "Connections that were taken.",
        clients.connections,
    )?;
    put_gauge(
        out,
        who,
        "aeron_recorder_clients",
        "Clients of the control port that are served.",
        clients.clients,
    )?;
    put_gauge(
        out,
        who,
        "aeron_recorder_client_places",
        "Clients of the control port that are served at a time at most.",
        clients.places,
    )
}

fn put_polls(out: &mut String, who: &str, clients: &ClientMeasures) -> Result<(), AllocError>
    ensures { OnOk result (string_bytes out.new
        ≡ string_bytes out.old ++ flat_map family_text (poll_families who.now clients.now)) }
{
    put_counter(
        out,
        who,
        "aeron_recorder_polls_total",
        "Polls that were answered.",
        clients.polls,
    )?;
    put_gauge(
        out,
        who,
        "aeron_recorder_open_replays",
        "Replays that are open.",
        clients.replays,
    )
}

fn put_recording_labels(
    out: &mut String,
    who: &str,
    recording: &RecordingMeasures,
) -> Result<(), AllocError>
    ensures { OnOk result
        (string_bytes out.new ≡ string_bytes out.old ++ recording_labels who.now recording.now) }
{
    write!(
        out,
        "{{recorder=\"{who}\",recording=\"{}\",stream=\"{}\",session=\"{}\"}}",
        recording.recording, recording.stream_id, recording.session_id,
    )
}

fn put_image_labels(out: &mut String, who: &str, image: &ImageMeasures) -> Result<(), AllocError>
    ensures { OnOk result (string_bytes out.new ≡ string_bytes out.old ++ image_labels who.now image.now) }
{
    write!(
        out,
        "{{recorder=\"{who}\",image=\"{}\",stream=\"{}\",session=\"{}\"}}",
        image.image, image.stream_id, image.session_id,
    )
}

#[tactic(auto, unfolding(crate::specs::MetricsText::recorded_line))]
fn put_recorded_line(
    out: &mut String,
    who: &str,
    recording: &RecordingMeasures,
) -> Result<(), AllocError>
    ensures { OnOk result (string_bytes out.new ≡ string_bytes out.old ++ recorded_line who.now recording.now) }
{
    out.push_str("aeron_recorder_recorded_position_bytes")?;
    put_recording_labels(out, who, recording)?;
    writeln!(out, " {}", recording.recorded)
}

fn put_recorded_lines(
    out: &mut String,
    who: &str,
    recordings: &[RecordingMeasures],
) -> Result<(), AllocError>
    ensures { OnOk result (string_bytes out.new
        ≡ string_bytes out.old ++ flat_map (recorded_line who.now) recordings.now) }
{
    for recording in recordings {
        put_recorded_line(out, who, recording)?;
    }
    Ok(())
}

#[tactic(auto, unfolding(crate::specs::MetricsText::family_text))]
fn put_recorded(
    out: &mut String,
    who: &str,
    recordings: &[RecordingMeasures],
) -> Result<(), AllocError>
    ensures { OnOk result
        (string_bytes out.new ≡ string_bytes out.old ++ family_text (recorded_family who.now recordings.now)) }
{
    put_head(
        out,
        "gauge",
        "aeron_recorder_recorded_position_bytes",
        "Where an active recording is settled to.",
    )?;
    put_recorded_lines(out, who, recordings)
}

fn put_replay_labels(out: &mut String, who: &str, replay: &ReplayMeasures) -> Result<(), AllocError>
    ensures { OnOk result (string_bytes out.new ≡ string_bytes out.old ++ replay_labels who.now replay.now) }
{
    write!(
        out,
        "{{recorder=\"{who}\",replay=\"{}\",recording=\"{}\"}}",
        replay.replay, replay.recording,
    )
}

#[tactic(auto, unfolding(crate::specs::MetricsText::replay_line))]
fn put_replay_line(out: &mut String, who: &str, replay: &ReplayMeasures) -> Result<(), AllocError>
    ensures { OnOk result (string_bytes out.new ≡ string_bytes out.old ++ replay_line who.now replay.now) }
{
    out.push_str("aeron_recorder_replay_position_bytes")?;
    put_replay_labels(out, who, replay)?;
    writeln!(out, " {}", replay.next)
}

fn put_replay_lines(
    out: &mut String,
    who: &str,
    replays: &[ReplayMeasures],
) -> Result<(), AllocError>
    ensures { OnOk result (string_bytes out.new
        ≡ string_bytes out.old ++ flat_map (replay_line who.now) replays.now) }
{
    for replay in replays {
        put_replay_line(out, who, replay)?;
    }
    Ok(())
}

#[tactic(auto, unfolding(crate::specs::MetricsText::family_text))]
fn put_replays(out: &mut String, who: &str, replays: &[ReplayMeasures]) -> Result<(), AllocError>
    ensures { OnOk result
        (string_bytes out.new ≡ string_bytes out.old ++ family_text (replay_family who.now replays.now)) }
{
    put_head(
        out,
        "gauge",
        "aeron_recorder_replay_position_bytes",
        "Where the next frame of an open replay begins.",
    )?;
    put_replay_lines(out, who, replays)
}

/// An image's number in a family.
#[tactic(auto, unfolding(crate::specs::MetricsText::image_number))]
fn put_image_number(
    out: &mut String,
    family: ImageFamily,
    image: &ImageMeasures,
) -> Result<(), AllocError>
    ensures { OnOk result
        (string_bytes out.new ≡ string_bytes out.old ++ image_number family image.now) }
{
    match family {
        ImageFamily::Rebuilt => write!(out, "{}", image.rebuilt),
        ImageFamily::Consumed => write!(out, "{}", image.consumed),
        ImageFamily::Gap => put_seconds(out, image.gap_micros),
        ImageFamily::GapBytes => write!(out, "{}", image.gap_bytes),
        ImageFamily::Datagrams => write!(out, "{}", image.datagrams),
        ImageFamily::Naks => write!(out, "{}", image.naks),
        ImageFamily::Lost => write!(out, "{}", image.lost),
        ImageFamily::LastDatagram => put_seconds(out, image.silent_micros),
    }
}

/// An image's line in a family.
#[tactic(auto, unfolding(crate::specs::MetricsText::image_metric_line))]
fn put_image_line(
    out: &mut String,
    who: &str,
    family: ImageFamily,
    image: &ImageMeasures,
) -> Result<(), AllocError>
    ensures { OnOk result
        (string_bytes out.new ≡ string_bytes out.old ++ image_metric_line who.now family image.now) }
{
    out.push_str(family.name())?;
    put_image_labels(out, who, image)?;
    out.push_str(" ")?;
    put_image_number(out, family, image)?;
    out.push_str("\n")
}

/// The lines of a family: one for each image.
fn put_image_lines(
    out: &mut String,
    who: &str,
    family: ImageFamily,
    images: &[ImageMeasures],
) -> Result<(), AllocError>
    ensures { OnOk result (string_bytes out.new
        ≡ string_bytes out.old ++ flat_map (image_metric_line who.now family) images.now) }
{
    for image in images {
        put_image_line(out, who, family, image)?;
    }
    Ok(())
}

/// A family with a line for each image.
#[tactic(auto, unfolding(crate::specs::MetricsText::family_text))]
fn put_image_family(
    out: &mut String,
    who: &str,
    family: ImageFamily,
    images: &[ImageMeasures],
) -> Result<(), AllocError>
    ensures { OnOk result
        (string_bytes out.new ≡ string_bytes out.old ++ family_text (image_family who.now family images.now)) }
{
    put_head(out, family.kind(), family.name(), family.help())?;
    put_image_lines(out, who, family, images)
}

fn put_positions(
    out: &mut String,
    who: &str,
    recordings: &[RecordingMeasures],
    images: &[ImageMeasures],
) -> Result<(), AllocError>
    ensures { OnOk result (string_bytes out.new
        ≡ string_bytes out.old ++ position_text who.now recordings.now images.now) }
{
    put_recorded(out, who, recordings)?;
    put_image_family(out, who, ImageFamily::Rebuilt, images)?;
    put_image_family(out, who, ImageFamily::Consumed, images)?;
    put_image_family(out, who, ImageFamily::Gap, images)?;
    put_image_family(out, who, ImageFamily::GapBytes, images)
}

fn put_received_images(
    out: &mut String,
    who: &str,
    images: &[ImageMeasures],
) -> Result<(), AllocError>
    ensures { OnOk result (string_bytes out.new
        ≡ string_bytes out.old ++ received_image_text who.now images.now) }
{
    put_image_family(out, who, ImageFamily::Datagrams, images)?;
    put_image_family(out, who, ImageFamily::Naks, images)?;
    put_image_family(out, who, ImageFamily::Lost, images)?;
    put_image_family(out, who, ImageFamily::LastDatagram, images)
}

/// Which program runs.
#[tactic(auto, unfolding(crate::specs::MetricsText::family_text))]
fn put_build(out: &mut String, about: &RecorderAbout<'_>) -> Result<(), AllocError>
    ensures { OnOk result
        (string_bytes out.new ≡ string_bytes out.old ++ family_text (build_family about.now)) }
{
    put_head(
        out,
        "gauge",
        "aeron_recorder_build_info",
        "The program, and the catalogues that it writes.",
    )?;
    put_build_line(out, about)
}

#[tactic(auto, unfolding(crate::specs::MetricsText::build_line))]
fn put_build_line(out: &mut String, about: &RecorderAbout<'_>) -> Result<(), AllocError>
    ensures { OnOk result (string_bytes out.new ≡ string_bytes out.old ++ build_line about.now) }
{
    out.push_str("aeron_recorder_build_info")?;
    put_build_labels(out, about)?;
    let one: u64 = 1;
    writeln!(out, " {one}")
}

fn put_build_labels(out: &mut String, about: &RecorderAbout<'_>) -> Result<(), AllocError>
    ensures { OnOk result (string_bytes out.new ≡ string_bytes out.old ++ build_labels about.now) }
{
    write!(
        out,
        "{{recorder=\"{}\",version=\"{}\",catalogue=\"{}\"}}",
        about.name, about.version, about.catalogue,
    )
}

fn put_about(out: &mut String, about: &RecorderAbout<'_>) -> Result<(), AllocError>
    ensures { OnOk result (string_bytes out.new
        ≡ string_bytes out.old ++ flat_map family_text (about_families about.now)) }
{
    put_build(out, about)?;
    put_time(
        out,
        about.name,
        "aeron_recorder_start_time_seconds",
        "When the server began, since 1970.",
        about.started_micros,
    )
}

fn put_measures(out: &mut String, who: &str, measures: &Measures) -> Result<(), AllocError>
    ensures { OnOk result (string_bytes out.new
        ≡ string_bytes out.old ++ measures_text who.now measures.now) }
{
    put_state(out, who, &measures.archive)?;
    put_history(out, who, &measures.archive)?;
    put_recorder(out, who, &measures.recorder)?;
    put_received(out, who, &measures.datagrams)?;
    put_sent(out, who, &measures.datagrams)?;
    put_holes(out, who, &measures.resumes)?;
    put_resumes(out, who, &measures.resumes)?;
    put_places(out, who, &measures.places)?;
    put_clients(out, who, &measures.clients)?;
    put_polls(out, who, &measures.clients)?;
    put_replays(out, who, measures.replays.as_slice())?;
    put_positions(
        out,
        who,
        measures.recordings.as_slice(),
        measures.images.as_slice(),
    )?;
    put_received_images(out, who, measures.images.as_slice())?;
    put_publication_holes(out, who, measures.images.as_slice())?;
    put_sends(out, who, &measures.sending, measures.sends.as_slice())
}

/// The text of measures of a recorder, each line with its end: docs/SERVING.md, "Metrics". An error: there is no memory for it. Costs
/// the text's length.
pub fn print_metrics(
    alloc: Global,
    about: &RecorderAbout<'_>,
    measures: &Measures,
) -> Result<String, AllocError>
    ensures { IfOk result (λ text. string_bytes text ≡ metrics_text about.now measures.now) }
{
    let mut out = String::new(alloc);
    put_about(&mut out, about)?;
    put_measures(&mut out, about.name, measures)?;
    Ok(out)
}
