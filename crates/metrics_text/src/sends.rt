//! Measures of recordings that are sent. docs/SERVING.md, "Metrics".

ghost use Rattle.std.specs.Prelude.{◌≡◌, ◌++◌, OnOk, string_bytes};
ghost use Rattle.std.specs.List.{flat_map};
ghost use Rattle.metrics_text.specs.MetricsText.{answer_families, family_text, send_family, send_help, send_labels, send_metric_line, send_name, send_number, send_position_text, sends_text, sent_count_families};

use crate::print::{put_counter, put_gauge, put_head};
use std::alloc::AllocError;

/// What is measured of all sendings.
#[derive(Clone, Copy, Debug, PartialEq, Eq)]
pub struct SendsMeasures {
    /// Sendings that are not over.
    pub live: u64,
    /// Datagrams that were sent, setup frames and heartbeats among them.
    pub datagrams: u64,
    /// Bytes of them.
    pub bytes: u64,
    /// Datagrams that were repeated.
    pub repeats: u64,
    /// NAK frames that came, and count for a sending.
    pub naks: u64,
    /// Status messages that came, and count for a sending.
    pub status_messages: u64,
    /// Datagrams that came, and count for none.
    pub foreign: u64,
}

/// What is measured of a sending that is not over.
#[derive(Clone, Copy, Debug, PartialEq, Eq)]
pub struct SendMeasures {
    /// Its number.
    pub send: u64,
    /// The recording that is sent.
    pub recording: i64,
    /// The stream id of its datagrams.
    pub stream_id: i32,
    /// The session id of its datagrams.
    pub session_id: i32,
    /// The sender position, in bytes of the stream.
    pub position: u64,
    /// The sender limit, in bytes of the stream.
    pub limit: u64,
    /// How far the receiver has consumed the stream, in bytes of it.
    pub consumed: u64,
}

/// A family that has a number of each sending.
#[derive(Clone, Copy, Debug)]
pub(crate) enum SendFamily {
    /// The sender position.
    Position,
    /// The sender limit.
    Limit,
    /// How far the receiver has consumed the stream.
    Consumed,
}

impl SendFamily {
    /// The family's name.
    #[tactic(auto, unfolding(crate::specs::MetricsText::send_name))]
    fn name(self) -> &'static str
        ensures { result.now ≡ send_name self }
    {
        match self {
            SendFamily::Position => "aeron_recorder_sender_position_bytes",
            SendFamily::Limit => "aeron_recorder_sender_limit_bytes",
            SendFamily::Consumed => "aeron_recorder_consumed_by_receiver_bytes",
        }
    }

    /// What its numbers are.
    fn help(self) -> &'static str
        ensures { result.now ≡ send_help self }
    {
        match self {
            SendFamily::Position => "Up to where a recording was sent.",
            SendFamily::Limit => "Up to where a receiver admits a recording.",
            SendFamily::Consumed => "Up to where a receiver has consumed a recording.",
        }
    }
}

fn put_sent_counts(out: &mut String, who: &str, sends: &SendsMeasures) -> Result<(), AllocError>
    ensures { OnOk result (string_bytes out.new
        ≡ string_bytes out.old ++ flat_map family_text (sent_count_families who.now sends.now)) }
{
    put_gauge(
        out,
        who,
        "aeron_recorder_sends",
        "Recordings that are sent.",
        sends.live,
    )?;
    put_counter(
        out,
        who,
        "aeron_recorder_sent_datagrams_total",
        "Datagrams of recordings that were sent.",
        sends.datagrams,
    )?;
    put_counter(
        out,
        who,
        "aeron_recorder_sent_bytes_total",
        "Bytes of such datagrams.",
        sends.bytes,
    )?;
    put_counter(
        out,
        who,
        "aeron_recorder_repeated_datagrams_total",
        "Datagrams of recordings that were repeated.",
        sends.repeats,
    )
}

fn put_answers(out: &mut String, who: &str, sends: &SendsMeasures) -> Result<(), AllocError>
    ensures { OnOk result (string_bytes out.new
        ≡ string_bytes out.old ++ flat_map family_text (answer_families who.now sends.now)) }
{
    put_counter(
        out,
        who,
        "aeron_recorder_naks_received_total",
        "NAK frames of receivers that came.",
        sends.naks,
    )?;
    put_counter(
        out,
        who,
        "aeron_recorder_status_messages_received_total",
        "Status messages of receivers that came.",
        sends.status_messages,
    )?;
    put_counter(
        out,
        who,
        "aeron_recorder_foreign_feedback_total",
        "Datagrams that came and count for no sending.",
        sends.foreign,
    )
}

fn put_send_labels(out: &mut String, who: &str, send: &SendMeasures) -> Result<(), AllocError>
    ensures { OnOk result (string_bytes out.new ≡ string_bytes out.old ++ send_labels who.now send.now) }
{
    write!(
        out,
        "{{recorder=\"{who}\",send=\"{}\",recording=\"{}\",stream=\"{}\",session=\"{}\"}}",
        send.send, send.recording, send.stream_id, send.session_id,
    )
}

/// A sending's number in a family.
#[tactic(auto, unfolding(crate::specs::MetricsText::send_number))]
fn put_send_number(
    out: &mut String,
    family: SendFamily,
    send: &SendMeasures,
) -> Result<(), AllocError>
    ensures { OnOk result
        (string_bytes out.new ≡ string_bytes out.old ++ send_number family send.now) }
{
    match family {
        SendFamily::Position => write!(out, "{}", send.position),
        SendFamily::Limit => write!(out, "{}", send.limit),
        SendFamily::Consumed => write!(out, "{}", send.consumed),
    }
}

/// A sending's line in a family.
#[tactic(auto, unfolding(crate::specs::MetricsText::send_metric_line))]
fn put_send_line(
    out: &mut String,
    who: &str,
    family: SendFamily,
    send: &SendMeasures,
) -> Result<(), AllocError>
    ensures { OnOk result
        (string_bytes out.new ≡ string_bytes out.old ++ send_metric_line who.now family send.now) }
{
    out.push_str(family.name())?;
    put_send_labels(out, who, send)?;
    out.push_str(" ")?;
    put_send_number(out, family, send)?;
    out.push_str("\n")
}

/// The lines of a family: one for each sending.
fn put_send_lines(
    out: &mut String,
    who: &str,
    family: SendFamily,
    sends: &[SendMeasures],
) -> Result<(), AllocError>
    ensures { OnOk result (string_bytes out.new
        ≡ string_bytes out.old ++ flat_map (send_metric_line who.now family) sends.now) }
{
    for send in sends {
        put_send_line(out, who, family, send)?;
    }
    Ok(())
}

/// A family with a line for each sending.
#[tactic(auto, unfolding(crate::specs::MetricsText::family_text))]
fn put_send_family(
    out: &mut String,
    who: &str,
    family: SendFamily,
    sends: &[SendMeasures],
) -> Result<(), AllocError>
    ensures { OnOk result
        (string_bytes out.new ≡ string_bytes out.old ++ family_text (send_family who.now family sends.now)) }
{
    put_head(out, "gauge", family.name(), family.help())?;
    put_send_lines(out, who, family, sends)
}

fn put_send_positions(out: &mut String, who: &str, sends: &[SendMeasures]) -> Result<(), AllocError>
    ensures { OnOk result (string_bytes out.new
        ≡ string_bytes out.old ++ send_position_text who.now sends.now) }
{
    put_send_family(out, who, SendFamily::Position, sends)?;
    put_send_family(out, who, SendFamily::Limit, sends)?;
    put_send_family(out, who, SendFamily::Consumed, sends)
}

/// The families of recordings that are sent.
pub(crate) fn put_sends(
    out: &mut String,
    who: &str,
    counted: &SendsMeasures,
    sends: &[SendMeasures],
) -> Result<(), AllocError>
    ensures { OnOk result
        (string_bytes out.new ≡ string_bytes out.old ++ sends_text who.now counted.now sends.now) }
{
    put_sent_counts(out, who, counted)?;
    put_answers(out, who, counted)?;
    put_send_positions(out, who, sends)
}
