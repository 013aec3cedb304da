//! What is measured of recordings. docs/SERVING.md, "Metrics".

ghost use Rattle.std.specs.Prelude.{◌≡◌, IfOk, OnOk};
ghost use Rattle.server_state.specs.Measuring.{measured_recording, recordings_below, with_measured};

use metrics_text::RecordingMeasures;
use std::alloc::{AllocError, Global};
use stream_pairs::{FED_SESSIONS, Pairs, SessionSlot};

/// What is measured of the recordings whose sessions are open, by the sessions' seats.
pub(crate) fn recordings_of(
    alloc: Global,
    pairs: &Pairs,
) -> Result<Vec<RecordingMeasures>, AllocError>
    ensures { IfOk result (λ measures. measures.items ≡ recordings_below 64 pairs.now) }
{
    let mut measures = Vec::new(alloc);
    for seat in 0..FED_SESSIONS {
        add(&mut measures, slot_measures(pairs.slot(seat)))?;
    }
    Ok(measures)
}

/// Adds what is measured of a recording, if there is one.
fn add(
    measures: &mut Vec<RecordingMeasures>,
    recording: Option<RecordingMeasures>,
) -> Result<(), AllocError>
    ensures { OnOk result (measures.new.items ≡ with_measured measures.old.items recording) }
{
    if let Some(recording) = recording {
        measures.push(recording)?;
    }
    Ok(())
}

/// What is measured of the recording of a seat's session, if that is open.
fn slot_measures(slot: Option<SessionSlot>) -> Option<RecordingMeasures>
    ensures { result ≡ measured_recording slot }
{
    match slot {
        Some(slot) if slot.is_open => Some(RecordingMeasures {
            recording: slot.recording,
            stream_id: slot.point.publication.stream_id,
            session_id: slot.point.publication.session_id,
            recorded: slot.point.position,
        }),
        _ => None,
    }
}
