//! Who answers the lines of clients that only read. docs/SERVING.md, "Consumers".

ghost use Rattle.std.specs.Prelude.{◌≡◌};
ghost use Rattle.tool_core.specs.Answering.{no_checkpoints, ways_seen};
ghost use Rattle.server.specs.Consumers.{consumer_ways, is_question, only_asks};

use crate::connections::Server;
use archive_model::Reply;
use control_core::{Event, Request};
use frame_core::{Geometry, Refusal};
use std::alloc::Global;
use std::net::SocketAddr;
use tool_core::{Answerer, CheckpointOutcome};

/// Answers lines by a server, as far as they only ask. Any other is `BadLine`, and changes nothing.
#[derive(Drop)]
pub(crate) struct Consumer<S> {
    server: S,
}

impl<S> Consumer<S> {
    /// Clients of a server that only read.
    pub fn new(server: S) -> Consumer<S>
        ensures { result.server ≡ server }
    {
        Consumer { server }
    }

    /// The server.
    pub fn into_server(self) -> S
        ensures { result ≡ self.server }
    {
        self.server
    }
}

impl<S: Answerer> Answerer for Consumer<S> {
    ghost ways = { ways_seen (λ c. c.server) (consumer_ways S.ways) };

    ghost checkpoints = { no_checkpoints };

    fn terms(&mut self, session: &i64) -> Result<Geometry, Refusal> {
        let _ = session;
        Err(Refusal::BadLine)
    }

    fn call(&mut self, alloc: Global, event: &Event) -> Result<Reply, Refusal> {
        if only_asks(event) {
            self.server.call(alloc, event)
        } else {
            Err(Refusal::BadLine)
        }
    }

    fn reopen(self, _alloc: Global) -> (Self, Result<Reply, Refusal>) {
        (self, Err(Refusal::BadLine))
    }

    fn compact(self, _alloc: Global) -> (Self, Result<Reply, Refusal>) {
        (self, Err(Refusal::BadLine))
    }

    fn offers_checkpoints(&self) -> bool {
        false
    }

    fn prepare(&mut self, _alloc: Global) -> Option<CheckpointOutcome> {
        None
    }
}

impl<S: Server> Server for Consumer<S> {
    ghost ended = { λ closes old new. S.ended closes old.server new.server };

    fn begin_connection(&mut self, address: Option<SocketAddr>) {
        self.server.begin_connection(address);
    }

    fn end_connection(&mut self, alloc: Global, closes_replays: bool) {
        self.server.end_connection(alloc, closes_replays);
    }
}

/// Whether a call only asks: for descriptors, a recording's number, its positions or its source.
fn only_asks(event: &Event) -> bool
    ensures { result ≡ only_asks event.now }
{
    match event {
        Event::Ask(request) => is_question(request),
        _ => false,
    }
}

fn is_question(request: &Request) -> bool
    ensures { result ≡ is_question request.now }
{
    matches!(
        request,
        Request::List { .. } | Request::Find(_) | Request::Positions { .. } | Request::Source { .. }
    )
}
