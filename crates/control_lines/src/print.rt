//! Replies as text. docs/CONTROL.md, "Lines".

ghost use Rattle.std.specs.Prelude.{◌≡◌, ◌++◌, OnOk, IfOk, IfErr, length, codes, decimal, string_bytes};
ghost use Rattle.std.specs.List.{flat_map};
ghost use Rattle.frame_core.specs.declared.refusal.Refusal.TheVariants.{NoMemory};
ghost use Rattle.control_lines.specs.ReplyText.{told, following_line, descriptor_line, frame_line, source_line, end_line, taken_line, swept_line, merge_line, position_word, reply_text, settled_all_line};

use crate::polled::{TextBuffer, write_frame, write_polled};
use archive_model::{Descriptor, PolledFrame, Reply, SourceIdentity};
use frame_core::Refusal;
use std::alloc::{AllocError, Global};

fn put_descriptor(out: &mut String, d: &Descriptor) -> Result<(), AllocError>
    ensures { OnOk result (string_bytes out.new ≡ string_bytes out.old ++ descriptor_line d.now) }
{
    writeln!(
        out,
        "recording {} {} {} {} {} {} {} {} {} {} {} {}",
        d.recording,
        d.start_timestamp,
        d.stop_timestamp,
        d.start_position,
        d.stop_position,
        d.initial_term_id,
        d.segment_length,
        d.term_length,
        d.mtu,
        d.session_id,
        d.stream_id,
        d.channel.as_str(),
    )
}

fn put_descriptors(out: &mut String, descriptors: &[Descriptor]) -> Result<(), AllocError>
    ensures { OnOk result
        (string_bytes out.new ≡ string_bytes out.old ++ flat_map descriptor_line descriptors.now) }
{
    for d in descriptors {
        put_descriptor(out, d)?;
    }
    Ok(())
}

fn recordings_text(alloc: Global, descriptors: &[Descriptor]) -> Result<Vec<u8>, AllocError>
    ensures { IfOk result (λ text. text.items ≡ flat_map descriptor_line descriptors.now
        ++ (codes "end " ++ (decimal (length descriptors.now) ++ codes "\n"))) }
{
    let mut out = String::new(alloc);
    put_descriptors(&mut out, descriptors)?;
    writeln!(out, "end {}", descriptors.len())?;
    Ok(out.into_bytes())
}

fn polled_text(
    alloc: Global,
    frames: &[PolledFrame],
    next: Option<i64>,
) -> Result<Vec<u8>, AllocError>
    ensures { IfOk result
        (λ text. text.items ≡ flat_map frame_line frames.now ++ end_line next) }
{
    let mut out = Vec::new(alloc);
    write_polled(frames, next, &mut out).map_err(|_| AllocError)?;
    Ok(out)
}

fn frame_text(alloc: Global, f: &PolledFrame) -> Result<Vec<u8>, AllocError>
    ensures { IfOk result (λ text. text.items ≡ frame_line f.now) }
{
    let mut out = Vec::new(alloc);
    write_frame(f, &mut TextBuffer::new(), &mut out).map_err(|_| AllocError)?;
    Ok(out)
}

fn source_text(alloc: Global, source: &SourceIdentity) -> Result<Vec<u8>, AllocError>
    ensures { IfOk result (λ text. text.items ≡ source_line source.now) }
{
    let source = source.as_str();
    if source.is_empty() {
        return Vec::from_slice(alloc, b"source 0\n");
    }
    Ok(format!(in alloc; "source {} {source}\n", source.len())?.into_bytes())
}

fn told(alloc: Global, word: &str, value: i64) -> Result<Vec<u8>, AllocError>
    ensures { IfOk result (λ text. text.items ≡ told word.now value) }
{
    Ok(format!(in alloc; "{word}{value}\n")?.into_bytes())
}

fn put_position(out: &mut String, position: Option<i64>) -> Result<(), AllocError>
    ensures { OnOk result (string_bytes out.new ≡ string_bytes out.old ++ position_word position) }
{
    match position {
        Some(position) => write!(out, " {position}"),
        None => write!(out, " -"),
    }
}

fn put_positions(out: &mut String, positions: &[Option<i64>]) -> Result<(), AllocError>
    ensures { OnOk result
        (string_bytes out.new ≡ string_bytes out.old ++ flat_map position_word positions.now) }
{
    for position in positions {
        put_position(out, *position)?;
    }
    Ok(())
}

/// The positions that a settling of several sessions answers, and `-` for a session that isn't open.
fn settled_all_text(alloc: Global, positions: &[Option<i64>]) -> Result<Vec<u8>, AllocError>
    ensures { IfOk result (λ text. text.items ≡ settled_all_line positions.now) }
{
    let mut out = String::from_str(alloc, "settled-all")?;
    put_positions(&mut out, positions)?;
    writeln!(out)?;
    Ok(out.into_bytes())
}

fn merge_text(alloc: Global, is_merged: bool, cursor: i64) -> Result<Vec<u8>, AllocError>
    ensures { IfOk result (λ text. text.items ≡ merge_line is_merged cursor) }
{
    if is_merged {
        told(alloc, "merged yes ", cursor)
    } else {
        told(alloc, "merged no ", cursor)
    }
}

fn text(alloc: Global, reply: &Reply) -> Result<Vec<u8>, AllocError>
    ensures { IfOk result (λ text. text.items ≡ reply_text reply.now) }
{
    match reply {
        Reply::Started { recording, session } => {
            Ok(format!(in alloc; "started {recording} {session}\n")?.into_bytes())
        }
        Reply::Extended { session } => told(alloc, "extended ", *session),
        Reply::Written { position } => told(alloc, "written ", *position),
        Reply::Settled { position } => told(alloc, "settled ", *position),
        Reply::SettledAll { positions } => settled_all_text(alloc, positions.as_slice()),
        Reply::Stopped { position } => told(alloc, "stopped ", *position),
        Reply::Truncated { position } => told(alloc, "truncated ", *position),
        Reply::Purged { segments } => told(alloc, "purged ", *segments),
        Reply::PurgedRecording => Vec::from_slice(alloc, b"purged-recording\n"),
        Reply::Recordings(descriptors) => recordings_text(alloc, descriptors.as_slice()),
        Reply::Found { recording } => told(alloc, "found ", *recording),
        Reply::Positions {
            start,
            recorded,
            stop,
        } => Ok(format!(in alloc; "positions {start} {recorded} {stop}\n")?.into_bytes()),
        Reply::Source(source) => source_text(alloc, source),
        Reply::ReplayOpened { replay } => told(alloc, "replay ", *replay),
        Reply::Polled { frames, next } => polled_text(alloc, frames.as_slice(), *next),
        Reply::Closed => Vec::from_slice(alloc, b"closed\n"),
        Reply::Swept { removed: true } => Vec::from_slice(alloc, b"swept 1\n"),
        Reply::Swept { removed: false } => Vec::from_slice(alloc, b"swept 0\n"),
        Reply::Verified { frames } => told(alloc, "verified ", *frames),
        Reply::Reopened { recordings } => told(alloc, "reopened ", *recordings),
        Reply::Compacted => Vec::from_slice(alloc, b"compacted\n"),
        Reply::Checkpointed => Vec::from_slice(alloc, b"checkpointed\n"),
        Reply::MergeOpened { position } => told(alloc, "merge ", *position),
        Reply::Held => Vec::from_slice(alloc, b"held\n"),
        Reply::Ignored => Vec::from_slice(alloc, b"ignored\n"),
        Reply::Full => Vec::from_slice(alloc, b"full\n"),
        Reply::Taken(None) => Vec::from_slice(alloc, b"none\n"),
        Reply::Taken(Some(f)) => frame_text(alloc, f),
        Reply::MergeState { is_merged, cursor } => merge_text(alloc, *is_merged, *cursor),
        Reply::Bye => Vec::from_slice(alloc, b"bye\n"),
    }
}

/// The line behind which a follower's frames come, from a position on, in bytes of the stream: docs/CONTROL.md, "Lines".
///
/// Only `NoMemory` is refused.
pub fn print_following(alloc: Global, position: i64) -> Result<Vec<u8>, Refusal>
    ensures text { IfOk result (λ text. text.items ≡ following_line position) }
    ensures memory { IfErr result (λ refusal. refusal ≡ NoMemory) }
{
    Ok(told(alloc, "following ", position)?)
}

/// The reply's text, each line with its end: docs/CONTROL.md, "Lines". Costs the text's length.
///
/// Only `NoMemory` is refused.
pub fn print_reply(alloc: Global, reply: &Reply) -> Result<Vec<u8>, Refusal>
    ensures text { IfOk result (λ text. text.items ≡ reply_text reply.now) }
    ensures memory { IfErr result (λ refusal. refusal ≡ NoMemory) }
{
    Ok(text(alloc, reply)?)
}
