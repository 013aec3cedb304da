//! What is printed and measured of open replays. docs/SERVING.md, "Which replays are open" and "Metrics".

ghost use Rattle.std.specs.Prelude.{◌≡◌, ◌++◌, IfOk, OnOk, string_bytes};
ghost use Rattle.std.specs.List.{flat_map};
ghost use Rattle.server_state.specs.ReplaysOpen.{address_text, held_by, measured_replay, measures_of, open_line, open_line_with, open_numbers, open_reader, replays_held, replays_text};

use crate::known_replay::KnownReplay;
use metrics_text::ReplayMeasures;
use std::alloc::{AllocError, Global};
use std::net::SocketAddr;

/// A line for each replay, and a line with how many there are.
pub(crate) fn replays_text(alloc: Global, replays: &[KnownReplay]) -> Result<String, AllocError>
    ensures { IfOk result (λ text. string_bytes text ≡ replays_text replays.now) }
{
    let mut out = String::new(alloc);
    put_replays(alloc, &mut out, replays)?;
    writeln!(out, "end {}", replays.len())?;
    Ok(out)
}

fn put_replays(alloc: Global, out: &mut String, replays: &[KnownReplay]) -> Result<(), AllocError>
    ensures { OnOk result (string_bytes out.new ≡ string_bytes out.old ++ flat_map open_line replays.now) }
{
    for replay in replays {
        put_replay(alloc, out, replay)?;
    }
    Ok(())
}

fn put_replay(alloc: Global, out: &mut String, replay: &KnownReplay) -> Result<(), AllocError>
    ensures { OnOk result (string_bytes out.new ≡ string_bytes out.old ++ open_line replay.now) }
{
    let address = address_text(alloc, replay.address)?;
    put_line(out, replay, address.as_str())
}

fn put_line(out: &mut String, replay: &KnownReplay, address: &str) -> Result<(), AllocError>
    ensures { OnOk result (string_bytes out.new ≡ string_bytes out.old ++ open_line_with replay.now address.now) }
{
    put_numbers(out, replay)?;
    put_reader(out, replay.reader.text(), address)
}

/// The numbers of a replay's line.
#[tactic(auto, unfolding(crate::specs::ReplaysOpen::open_numbers))]
fn put_numbers(out: &mut String, replay: &KnownReplay) -> Result<(), AllocError>
    ensures { OnOk result (string_bytes out.new ≡ string_bytes out.old ++ open_numbers replay.now) }
{
    write!(
        out,
        "open {} {} {} {}",
        replay.number,
        replay.recording,
        replay.position(),
        replay.bound(),
    )
}

/// Who takes its frames, and where, which ends a replay's line.
#[tactic(auto, unfolding(crate::specs::ReplaysOpen::open_reader))]
fn put_reader(out: &mut String, reader: &str, address: &str) -> Result<(), AllocError>
    ensures { OnOk result (string_bytes out.new ≡ string_bytes out.old ++ open_reader reader.now address.now) }
{
    writeln!(out, " {reader} {address}")
}

/// An address and its port, or `-` if it is not known.
fn address_text(alloc: Global, address: Option<SocketAddr>) -> Result<String, AllocError>
    ensures { IfOk result (λ text. string_bytes text ≡ address_text address) }
{
    match address {
        Some(address) => format!(in alloc; "{address}"),
        None => String::from_str(alloc, "-"),
    }
}

/// What is measured of the replays whose next position is known.
pub(crate) fn measures_of(
    alloc: Global,
    replays: &[KnownReplay],
) -> Result<Vec<ReplayMeasures>, AllocError>
    ensures { IfOk result (λ measures. measures.items ≡ measures_of replays.now) }
{
    let mut measures = Vec::new(alloc);
    for replay in replays {
        add_measured(&mut measures, replay)?;
    }
    Ok(measures)
}

/// Adds what is measured of a replay, if its next position is known.
fn add_measured(measures: &mut Vec<ReplayMeasures>, replay: &KnownReplay) -> Result<(), AllocError>
    ensures { OnOk result (measures.new.items ≡ measures.old.items ++ measured_replay replay.now) }
{
    if let Some(next) = replay.next {
        measures.push(ReplayMeasures {
            replay: replay.number,
            recording: replay.recording,
            next,
        })?;
    }
    Ok(())
}

/// The replays of a recording.
pub(crate) fn replays_held(
    alloc: Global,
    replays: &[KnownReplay],
    recording: i64,
) -> Result<Vec<KnownReplay>, AllocError>
    ensures { IfOk result (λ held. held.items ≡ replays_held recording replays.now) }
{
    let mut held = Vec::new(alloc);
    for replay in replays {
        add_held(&mut held, replay, recording)?;
    }
    Ok(held)
}

/// Adds a replay if it is of the recording.
fn add_held(
    held: &mut Vec<KnownReplay>,
    replay: &KnownReplay,
    recording: i64,
) -> Result<(), AllocError>
    ensures { OnOk result (held.new.items ≡ held.old.items ++ held_by recording replay.now) }
{
    if replay.recording == recording {
        held.push(*replay)?;
    }
    Ok(())
}
