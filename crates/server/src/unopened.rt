//! Who answers where no archive is open. docs/SERVING.md, "Control lines".

ghost use Rattle.server.specs.Answering.{offered_if, unopened_ways};

use crate::connections::Server;
use archive_model::Reply;
use control_core::Event;
use frame_core::{Geometry, Refusal};
use std::alloc::Global;
use std::net::SocketAddr;
use tool_core::{Answerer, CheckpointOutcome};

/// No archive is open: calls are `Broken`, and `reopen` and `compact` are `BadLine`.
#[derive(Clone, Copy, Drop)]
pub(crate) struct Unopened {
    /// Whether the line `checkpoint` is one.
    pub offers_checkpoints: bool,
}

impl Answerer for Unopened {
    ghost ways = { unopened_ways };

    ghost checkpoints = { offered_if (λ unopened. unopened.offers_checkpoints) };

    fn terms(&mut self, session: &i64) -> Result<Geometry, Refusal> {
        let _ = session;
        Err(Refusal::Broken)
    }

    fn call(&mut self, _alloc: Global, event: &Event) -> Result<Reply, Refusal> {
        let _ = event;
        Err(Refusal::Broken)
    }

    fn reopen(self, _alloc: Global) -> (Unopened, Result<Reply, Refusal>) {
        (self, Err(Refusal::BadLine))
    }

    fn compact(self, _alloc: Global) -> (Unopened, Result<Reply, Refusal>) {
        (self, Err(Refusal::BadLine))
    }

    fn offers_checkpoints(&self) -> bool {
        self.offers_checkpoints
    }

    fn prepare(&mut self, _alloc: Global) -> Option<CheckpointOutcome> {
        None
    }
}

impl Server for Unopened {
    ghost use Rattle.std.specs.Prelude.{◌≡◌};

    ghost ended = { λ closes old new. new ≡ old };

    fn begin_connection(&mut self, address: Option<SocketAddr>) {
        let _ = address;
    }

    fn end_connection(&mut self, _alloc: Global, closes_replays: bool) {
        let _ = closes_replays;
    }
}
