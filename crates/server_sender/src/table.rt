//! Which sendings there are. docs/CONTROL.md, "Sendings".

ghost use Rattle.std.specs.Prelude.{◌≡◌, count_by, map};
ghost use Rattle.std.specs.List.{list_any, position};
ghost use Rattle.server_sender.specs.Table.{BeginsSending, after_ending, after_noting, sends_after_stopping, counts_for, ended_as, find_send, found_at, has_ended, has_send_number, holds_endpoint, is_live_send, is_live_as, newest_ended, no_sends, noted_progress, sending_for, without_send_at};

use crate::endpoint::Endpoint;
use crate::publishing::SendProgress;
use crate::record::{SendRecord, SendRequest, SendState};
use frame_core::{Publication, Refusal};
use std::alloc::Global;
use std::marker::Model;
use std::net::SocketAddr;

/// How many sendings that are over are known at most.
pub const MAX_ENDED: usize = 64;

/// The sendings that are known, in the order in which they began. To a contract they are these, and the number of the next one.
#[derive(Drop)]
pub struct SendTable {
    sends: Vec<SendRecord>,
    next: u64,
}

impl Model for SendTable {
    ghost use Rattle.server_sender.specs.Table.{AllSends};

    ghost Value = { AllSends };

    ghost view = { λ t. record { sends = t.sends.items; next = t.next } };
}

impl SendTable {
    /// None is known. Does not allocate.
    pub fn new(alloc: Global) -> SendTable
        ensures { result ≡ no_sends }
    {
        SendTable {
            sends: Vec::new(alloc),
            next: 0,
        }
    }

    /// The sendings.
    pub fn records(&self) -> &[SendRecord]
        ensures { result.now ≡ self.now.sends }
    {
        self.sends.as_slice()
    }

    /// A sending begins: its number. `ActiveReplay` if one that is not over has its session id and stream id, and goes to its
    /// endpoint; `MaxReplays` if all numbers were given; `NoMemory`. Then nothing changes.
    pub fn begin(&mut self, request: &SendRequest) -> Result<u64, Refusal>
        ensures { BeginsSending request.now self.old result self.new }
    {
        if self.is_held(&request.endpoint, &request.publication) {
            return Err(Refusal::ActiveReplay);
        }
        let number = self.next;
        let Some(next) = number.checked_add(1) else {
            return Err(Refusal::MaxReplays);
        };
        if self.sends.push(SendRecord::begun(request, number)).is_err() {
            return Err(Refusal::NoMemory);
        }
        self.next = next;
        Ok(number)
    }

    /// Whether a sending that is not over is of a publication, and goes to an endpoint. Does not allocate.
    pub fn is_held(&self, endpoint: &Endpoint, publication: &Publication) -> bool
        ensures { result ≡ list_any (holds_endpoint endpoint.now publication.now) self.now.sends }
    {
        self.sends
            .iter()
            .any(|sending| sending.holds_endpoint(endpoint, publication))
    }

    /// Whether the sending of a number is known, and not over. Does not allocate.
    pub fn is_live(&self, number: u64) -> bool
        ensures { result ≡ list_any (is_live_as number) self.now.sends }
    {
        self.sends.iter().any(|sending| is_live_as(sending, number))
    }

    /// How many sendings are not over. Does not allocate.
    pub fn count_live(&self) -> usize
        ensures { result ≡ count_by is_live_send self.now.sends }
    {
        self.sends
            .iter()
            .filter(|sending| sending.is_live())
            .count()
    }

    /// Notes how far the sending of a number is, if there is one that is not over. Does not allocate.
    pub fn note(&mut self, number: u64, progress: &SendProgress)
        ensures { self.new ≡ after_noting number progress.now self.old }
    {
        note_each(&mut self.sends, number, progress);
    }

    /// Notes how the sending of a number ended, if there is one that was not over. Of those that are over the newest 64 stay.
    /// Does not allocate.
    pub fn end(&mut self, number: u64, state: SendState)
        ensures { self.new ≡ after_ending number state self.old }
    {
        end_each(&mut self.sends, number, state);
        drop_oldest(&mut self.sends);
    }

    /// The sending of a number, if it is known. Does not allocate.
    pub fn find(&self, number: u64) -> Option<SendRecord>
        ensures { result ≡ find_send number self.now }
    {
        record_at(
            self.sends.as_slice(),
            index_of(self.sends.as_slice(), number),
        )
    }

    /// The sending of a number is known no more. Does not allocate.
    pub fn remove(&mut self, number: u64)
        ensures { self.new ≡ sends_after_stopping number self.old }
    {
        let index = index_of(self.sends.as_slice(), number);
        remove_at(&mut self.sends, index);
    }

    /// The sending that a datagram of a publication from an address counts for: it is not over, and goes there. None if there is
    /// no such one. Does not allocate.
    pub fn sending_for(&self, from: &SocketAddr, publication: &Publication) -> Option<SendRecord>
        ensures { result ≡ sending_for from.now publication.now self.now }
    {
        let sends = self.sends.as_slice();
        record_at(sends, index_for(sends, from, publication))
    }
}

/// Whether a sending has a number, and is not over.
fn is_live_as(sending: &SendRecord, number: u64) -> bool
    ensures { result ≡ is_live_as number sending.now }
{
    sending.has_send_number(number) && sending.is_live()
}

/// Whether a datagram of a publication from an address counts for a sending.
fn counts_for(sending: &SendRecord, from: &SocketAddr, publication: &Publication) -> bool
    ensures { result ≡ counts_for from.now publication.now sending.now }
{
    sending.is_live() && sending.endpoint.is_endpoint_of(from) && sending.is_send_of(publication)
}

/// The index of the sending that a datagram of a publication from an address counts for.
fn index_for(sends: &[SendRecord], from: &SocketAddr, publication: &Publication) -> Option<usize>
    ensures { result ≡ position (counts_for from.now publication.now) sends.now }
{
    sends
        .iter()
        .position(|sending| counts_for(sending, from, publication))
}

/// The index of the sending of a number.
fn index_of(sends: &[SendRecord], number: u64) -> Option<usize>
    ensures { result ≡ position (has_send_number number) sends.now }
{
    sends
        .iter()
        .position(|sending| sending.has_send_number(number))
}

/// The sending at an index.
fn record_at(sends: &[SendRecord], index: Option<usize>) -> Option<SendRecord>
    ensures { result ≡ found_at index sends.now }
{
    match index {
        Some(index) => sends.get(index).copied(),
        None => None,
    }
}

/// Removes the sending at an index.
fn remove_at(sends: &mut Vec<SendRecord>, index: Option<usize>)
    ensures { sends.new.items ≡ without_send_at index sends.old.items }
{
    if let Some(index) = index {
        if index < sends.len() {
            sends.remove(index);
        }
    }
}

/// Notes how far the sending of a number is.
fn note_each(sends: &mut Vec<SendRecord>, number: u64, progress: &SendProgress)
    ensures { sends.new.items ≡ map (noted_progress number progress.now) sends.old.items }
{
    for sending in sends.iter_mut() {
        sending.note(number, progress);
    }
}

/// Notes how the sending of a number ended.
fn end_each(sends: &mut Vec<SendRecord>, number: u64, state: SendState)
    ensures { sends.new.items ≡ map (ended_as number state) sends.old.items }
{
    for sending in sends.iter_mut() {
        sending.end(number, state);
    }
}

/// Drops the first sending that is over, if more than 64 are.
fn drop_oldest(sends: &mut Vec<SendRecord>)
    ensures { sends.new.items ≡ newest_ended sends.old.items }
{
    if count_ended(sends.as_slice()) > MAX_ENDED {
        let index = first_ended(sends.as_slice());
        remove_at(sends, index);
    }
}

/// The index of the first sending that is over.
fn first_ended(sends: &[SendRecord]) -> Option<usize>
    ensures { result ≡ position has_ended sends.now }
{
    sends.iter().position(|sending| has_ended(sending))
}

/// How many sendings are over.
fn count_ended(sends: &[SendRecord]) -> usize
    ensures { result ≡ count_by has_ended sends.now }
{
    sends.iter().filter(|sending| has_ended(sending)).count()
}

/// Whether a sending is over.
fn has_ended(sending: &SendRecord) -> bool
    ensures { result ≡ has_ended sending.now }
{
    sending.state.is_over()
}
