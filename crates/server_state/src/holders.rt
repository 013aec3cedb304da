//! Which replays keep a recording as it is. docs/SERVING.md, "Retention".

ghost use Rattle.std.specs.Prelude.{◌≡◌};
ghost use Rattle.server_state.specs.Holding.{held_recording, removed_recording};

use crate::client_news::ClientNews;
use crate::happening::Happening;
use crate::reporter::Reporter;
use crate::shared::Shared;
use archive_model::Reply;
use control_core::{Event, Request};
use frame_core::Refusal;
use std::alloc::Global;
use std::sync::Wait;

impl<T: Reporter> Shared<T> {
    /// A client's call was answered so: which replays hold the recording is reported, if that is why it was refused. Without
    /// memory nothing is.
    pub fn report_holders<R: Wait>(
        &self,
        rt: &R,
        alloc: Global,
        event: &Event,
        outcome: &Result<Reply, Refusal>,
    ) {
        let Some(recording) = held_recording(event, outcome) else {
            return;
        };
        if let Ok(replays) = self.replays.of_recording(rt, alloc, recording) {
            let news = ClientNews::HeldByReplays {
                recording,
                replays: replays.as_slice(),
            };
            self.report(&Happening::Client(news));
        }
    }
}

/// The recording that replays hold, if a call was answered so: it would take frames away, and is `ActiveReplay`.
fn held_recording(event: &Event, outcome: &Result<Reply, Refusal>) -> Option<i64>
    ensures { result ≡ held_recording event.now outcome.now }
{
    match (event, outcome) {
        (Event::Ask(request), Err(Refusal::ActiveReplay)) => removed_recording(request),
        _ => None,
    }
}

/// The recording that a request takes frames from.
fn removed_recording(request: &Request) -> Option<i64>
    ensures { result ≡ removed_recording request.now }
{
    match request {
        Request::Truncate {
            recording,
            position,
        } => {
            let _ = position;
            Some(*recording)
        }
        Request::PurgeSegments {
            recording,
            position,
        } => {
            let _ = position;
            Some(*recording)
        }
        Request::PurgeRecording { recording } => Some(*recording),
        _ => None,
    }
}
