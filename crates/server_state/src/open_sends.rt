//! Which recordings are sent, for the threads of a server. docs/CONTROL.md, "Sendings".

ghost use Rattle.std.specs.Prelude.{◌≡◌, ◌++◌, IfOk, OnOk};
ghost use Rattle.std.specs.List.{flat_map};
ghost use Rattle.server_state.specs.Sends.{measured_send, measured_sends};

use crate::counts::Count;
use frame_core::{Publication, Refusal};
use metrics_text::{SendMeasures, SendsMeasures};
use server_sender::{Endpoint, SendProgress, SendRecord, SendRequest, SendState, SendTable};
use std::alloc::{AllocError, Global};
use std::net::SocketAddr;
use std::rt::Clock;
use std::sync::{Condvar, CondvarTimeouts, Mutex, Wait};
use std::time::Duration;

/// Milliseconds for which a client waits at once for the end of a sending.
const LOOK: u64 = 100;

/// What is counted of sendings.
#[derive(Drop)]
pub struct SendCounts {
    /// Datagrams that were sent.
    pub datagrams: Count,
    /// Bytes of them.
    pub bytes: Count,
    /// Datagrams that were repeated.
    pub repeats: Count,
    /// NAK frames that came, and count for a sending.
    pub naks: Count,
    /// Status messages that came, and count for a sending.
    pub status_messages: Count,
    /// Datagrams that came, and count for none.
    pub foreign: Count,
}

/// The sendings that are known.
#[derive(Drop)]
pub struct OpenSends {
    table: Mutex<SendTable>,
    /// One has ended.
    ended: Condvar,
    /// What is counted.
    pub counts: SendCounts,
}

impl OpenSends {
    /// None is known.
    pub(crate) fn new(alloc: Global) -> OpenSends {
        OpenSends {
            table: Mutex::new(SendTable::new(alloc)),
            ended: Condvar::new(),
            counts: SendCounts {
                datagrams: Count::new(),
                bytes: Count::new(),
                repeats: Count::new(),
                naks: Count::new(),
                status_messages: Count::new(),
                foreign: Count::new(),
            },
        }
    }

    /// A sending begins: its number. Refused as `SendTable::begin`.
    pub fn begin<R: Wait>(&self, rt: &R, request: &SendRequest) -> Result<u64, Refusal> {
        self.table.lock(rt).begin(request)
    }

    /// Whether a sending that is not over is of a publication, and goes to an endpoint.
    pub fn is_held<R: Wait>(&self, rt: &R, endpoint: &Endpoint, publication: &Publication) -> bool {
        self.table.lock(rt).is_held(endpoint, publication)
    }

    /// Notes how far the sending of a number is.
    pub fn note<R: Wait>(&self, rt: &R, number: u64, progress: &SendProgress) {
        self.table.lock(rt).note(number, progress);
    }

    /// Notes how the sending of a number ended: clients who wait for that go on.
    pub fn end<R: Wait>(&self, rt: &R, number: u64, state: SendState) {
        self.table.lock(rt).end(number, state);
        self.ended.notify_all();
    }

    /// The sending of a number, if it is known.
    pub fn find<R: Wait>(&self, rt: &R, number: u64) -> Option<SendRecord> {
        self.table.lock(rt).find(number)
    }

    /// The sending that a datagram of a publication from an address counts for.
    pub fn sending_for<R: Wait>(
        &self,
        rt: &R,
        from: &SocketAddr,
        publication: &Publication,
    ) -> Option<SendRecord> {
        self.table.lock(rt).sending_for(from, publication)
    }

    /// Waits until the sending of a number is over, for 100 milliseconds at most. Whether it is, or is not known.
    pub fn wait_for_end<R: Wait + Clock>(&self, rt: &R, number: u64) -> bool {
        let table = self.table.lock(rt);
        let most = Duration::from_millis(LOOK);
        let (table, _) = self
            .ended
            .wait_timeout_while(rt, table, most, |table| table.is_live(number));
        !table.is_live(number)
    }

    /// The sending of a number is over, and is known no more: how far its receiver had consumed the stream, in bytes of it.
    /// `UnknownReplay` if it is not known.
    pub fn take<R: Wait>(&self, rt: &R, number: u64) -> Result<u64, Refusal> {
        let mut table = self.table.lock(rt);
        let Some(known) = table.find(number) else {
            return Err(Refusal::UnknownReplay);
        };
        table.remove(number);
        Ok(known.consumed)
    }

    /// The answer to the line `sends`.
    pub fn text<R: Wait>(&self, rt: &R, alloc: Global) -> Result<String, AllocError> {
        self.table.lock(rt).text(alloc)
    }

    /// What is measured of all of them.
    pub(crate) fn counted<R: Wait>(&self, rt: &R) -> SendsMeasures {
        SendsMeasures {
            live: self.table.lock(rt).count_live() as u64,
            datagrams: self.counts.datagrams.get(),
            bytes: self.counts.bytes.get(),
            repeats: self.counts.repeats.get(),
            naks: self.counts.naks.get(),
            status_messages: self.counts.status_messages.get(),
            foreign: self.counts.foreign.get(),
        }
    }

    /// What is measured of each that is not over.
    pub(crate) fn measures<R: Wait>(
        &self,
        rt: &R,
        alloc: Global,
    ) -> Result<Vec<SendMeasures>, AllocError> {
        measures_of(alloc, self.table.lock(rt).records())
    }
}

/// What is measured of the sendings that are not over.
fn measures_of(alloc: Global, sends: &[SendRecord]) -> Result<Vec<SendMeasures>, AllocError>
    ensures { IfOk result (λ measures. measures.items ≡ measured_sends sends.now) }
{
    let mut measures = Vec::new(alloc);
    for send in sends {
        add_measured(&mut measures, send)?;
    }
    Ok(measures)
}

/// Adds what is measured of a sending, if it is not over.
fn add_measured(measures: &mut Vec<SendMeasures>, send: &SendRecord) -> Result<(), AllocError>
    ensures { OnOk result (measures.new.items ≡ measures.old.items ++ measured_send send.now) }
{
    if send.is_live() {
        measures.push(SendMeasures {
            send: send.number,
            recording: send.recording,
            stream_id: send.publication.stream_id,
            session_id: send.publication.session_id,
            position: send.position,
            limit: send.limit,
            consumed: send.consumed,
        })?;
    }
    Ok(())
}
