//! Requests for a setup frame: docs/PROTOCOL.md, "Status messages and NAKs of a receiver".

ghost use Rattle.std.specs.Prelude.{◌≡◌, ◌<◌, [], IfOk, IfSome, length};
ghost use Rattle.std.specs.List.{position};
ghost use Rattle.flow_control.specs.Feedback.{has_passed};
ghost use Rattle.flow_control.specs.Setups.{after_asking, may_ask, is_for, replaced, setup_request_of};

use crate::timing::has_passed;
use frame_core::{Publication, StatusMessage};
use std::alloc::{AllocError, Global};
use std::marker::Model;

// Requests for a setup frame that are noted at most.
const MAX_REQUESTS: usize = 64;
// Milliseconds from one request for a setup frame to the next one of the same publication.
const PAUSE: u64 = 200;
// The flag of a status message that asks for a setup frame.
const SETUP_FLAG: u8 = 0x80;

/// The status message that asks a publication for a setup frame: Aeron Transport Protocol Specification, "Status Message
/// Frame". It admits nothing. Does not allocate.
pub fn setup_request(publication: &Publication, receiver_id: i64) -> StatusMessage
    ensures { result ≡ setup_request_of publication.now receiver_id }
{
    StatusMessage {
        flags: SETUP_FLAG,
        session_id: publication.session_id,
        stream_id: publication.stream_id,
        consumption_term_id: 0,
        consumption_term_offset: 0,
        receiver_window: 0,
        receiver_id,
    }
}

/// A publication that was asked for a setup frame.
#[derive(Clone, Copy, Debug, PartialEq, Eq)]
pub struct SetupRequest {
    /// The publication.
    pub publication: Publication,
    /// When it was asked last, in milliseconds.
    pub at: u64,
}

/// The publications that were asked for a setup frame last, at most 64. To a contract it is the list of their requests, in
/// the order of asking.
#[derive(Drop)]
pub struct SetupRequests {
    noted: Vec<SetupRequest>,
}

impl Model for SetupRequests {
    ghost use Rattle.std.specs.Prelude.{◌≤◌, List};
    ghost use Rattle.std.specs.Vec.{vec_capacity, vec_len};
    ghost use Rattle.flow_control.specs.declared.setups.SetupRequest.{SetupRequest};

    ghost Value = { List SetupRequest };

    ghost view = { λ r. r.noted.items };

    ghost invariant = { λ r. (vec_len r.noted ≤ 64) × (64 ≤ vec_capacity r.noted) };
}

impl SetupRequests {
    /// No publication was asked. AllocError if there is no memory for 64 requests; nothing else here allocates.
    pub fn new(alloc: Global) -> Result<SetupRequests, AllocError>
        ensures { IfOk result (λ requests. requests ≡ []) }
    {
        Ok(SetupRequests {
            noted: Vec::with_capacity(alloc, MAX_REQUESTS)?,
        })
    }

    /// Whether a publication is asked for a setup frame now. If so, the request is noted; if not, nothing changes.
    ///
    /// A publication that is noted is asked again once 200 milliseconds have passed since it was asked. Another one is
    /// asked if fewer than 64 are noted. If 64 are noted, it is asked once 200 milliseconds have passed since the oldest
    /// request, which is then forgotten. Does not allocate. Costs a step for each of 64 requests.
    pub fn asks(&mut self, publication: &Publication, now: u64) -> bool
        ensures asked { result ≡ may_ask publication.now now self.old }
        ensures after { self.new ≡ after_asking publication.now now self.old }
    {
        if let Some(index) = self.replaced(publication) {
            if !gives_way(&self.noted[index], now) {
                return false;
            }
            self.noted.remove(index);
        }
        self.noted.push_reserved(SetupRequest {
            publication: *publication,
            at: now,
        });
        true
    }

    /// The index of the noted request that one more would take the place of.
    fn replaced(&self, publication: &Publication) -> Option<usize>
        ensures index { result ≡ replaced publication.now self.now }
        ensures inside { IfSome result (λ i. i < length self.now) }
    {
        match self.request_for(publication) {
            Some(index) => Some(index),
            None if self.noted.len() < MAX_REQUESTS => None,
            None => Some(0),
        }
    }

    /// The index of the noted request for a publication.
    fn request_for(&self, publication: &Publication) -> Option<usize>
        ensures index { result ≡ position (is_for publication.now) self.now }
        ensures inside { IfSome result (λ i. i < length self.now) }
    {
        self.noted
            .iter()
            .position(|request| is_for(publication, request))
    }
}

/// Whether a request is for a setup frame of this publication.
fn is_for(publication: &Publication, request: &SetupRequest) -> bool
    ensures { result ≡ is_for publication.now request.now }
{
    request.publication.session_id == publication.session_id
        && request.publication.stream_id == publication.stream_id
}

/// Whether a noted request gives way to another one now.
fn gives_way(request: &SetupRequest, now: u64) -> bool
    ensures { result ≡ has_passed 200 request.now.at now }
{
    has_passed(PAUSE, request.at, now)
}
