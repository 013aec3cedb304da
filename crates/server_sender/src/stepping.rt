//! What goes to an endpoint, and when. docs/PROTOCOL.md, "Publications of recordings".

ghost use Rattle.std.specs.Prelude.{◌≡◌, IfOk, OnErr};
ghost use Rattle.publication_core.specs.Flows.{after_heartbeat, after_setup};
ghost use Rattle.publication_core.specs.Sending.{after_again, asked_first};
ghost use Rattle.server_sender.specs.Stepping.{FailsToStep, PutsAt, PutsHeartbeat, PutsSetup, SendsRun, SendsSome, StepsOnce, due_now, is_held_back, is_recent, paced, repeats_more, stepped_after};

use crate::endpoint::Endpoint;
use crate::publishing::{Publishing, SendOver};
use crate::send_end::SendEnd;
use publication_core::Due;
use std::alloc::AllocError;

/// Milliseconds for which an endpoint that never answers gets a setup frame as often as one that asks for it.
const EAGER: u64 = 60_000;
/// Milliseconds from one setup frame to the next after that.
const PATIENCE: u64 = 1_000;

/// What became of a sending.
#[derive(Clone, Copy, Debug, PartialEq, Eq)]
pub enum Stepped {
    /// A datagram went out.
    Sent,
    /// Nothing is due.
    Idle,
    /// It is over.
    Over(SendOver),
}

/// Sends what is due of a sending at a time, in milliseconds: one datagram at most. AllocError if there is no memory; then nothing
/// was sent, and nothing changes.
pub fn send_next<E: SendEnd>(
    now: u64,
    publishing: &mut Publishing,
    end: &mut E,
    to: &Endpoint,
) -> Result<Stepped, AllocError>
    ensures steps { IfOk result (λ stepped. StepsOnce E.puts to.now now publishing.old end.old stepped publishing.new end.new) }
    ensures fails { OnErr result (FailsToStep E.puts to.now now publishing.old end.old publishing.new end.new) }
{
    match due_now(now, publishing) {
        Due::Gone => Ok(Stepped::Over(SendOver::Gone)),
        Due::Refused => Ok(Stepped::Over(SendOver::TooLong)),
        Due::Done => Ok(Stepped::Over(SendOver::Done)),
        Due::Nothing => Ok(Stepped::Idle),
        Due::Setup => {
            send_setup(now, publishing, end, to);
            Ok(Stepped::Sent)
        }
        Due::Heartbeat => {
            send_heartbeat(now, publishing, end, to);
            Ok(Stepped::Sent)
        }
        Due::Again => {
            let index = repeat(now, publishing);
            put_at(publishing, index, end, to);
            Ok(Stepped::Sent)
        }
        Due::First => {
            let index = publishing.sender.send(now)?;
            put_at(publishing, index, end, to);
            Ok(Stepped::Sent)
        }
    }
}

/// Sends what is due of a sending at a time, in milliseconds: so many datagrams at most. How it ended, if it is over. AllocError if
/// there is no memory.
pub fn send_some<E: SendEnd>(
    now: u64,
    most: u64,
    publishing: &mut Publishing,
    end: &mut E,
    to: &Endpoint,
) -> Result<Stepped, AllocError>
    ensures { SendsSome E.puts to.now most now publishing.old end.old result publishing.new end.new }
{
    match publishing.conclude() {
        Some(over) => Ok(Stepped::Over(over)),
        None => send_each(now, most, publishing, end, to),
    }
}

/// Sends what is due of a sending, until nothing is, it is over, or so many datagrams went out.
fn send_each<E: SendEnd>(
    now: u64,
    most: u64,
    publishing: &mut Publishing,
    end: &mut E,
    to: &Endpoint,
) -> Result<Stepped, AllocError>
    ensures { SendsRun E.puts to.now most now publishing.old end.old result publishing.new end.new }
{
    for count in 0..most {
        match send_next(now, publishing, end, to)? {
            Stepped::Sent => {}
            Stepped::Idle => return Ok(stepped_after(count)),
            Stepped::Over(over) => return Ok(Stepped::Over(over)),
        }
    }
    Ok(stepped_after(most))
}

/// What became of a sending of which so many datagrams went out.
fn stepped_after(count: u64) -> Stepped
    ensures { result ≡ stepped_after count }
{
    if count > 0 {
        Stepped::Sent
    } else {
        Stepped::Idle
    }
}

/// What is due of a sending. An endpoint that never answers gets a setup frame once a second after a minute.
fn due_now(now: u64, publishing: &Publishing) -> Due
    ensures { result ≡ due_now now publishing.now }
{
    paced(is_held_back(now, publishing), publishing.sender.due(now))
}

/// What is due, if setup frames are held back, or not.
fn paced(is_held_back: bool, due: Due) -> Due
    ensures { result ≡ paced is_held_back due }
{
    match due {
        Due::Setup if is_held_back => Due::Nothing,
        due => due,
    }
}

/// Whether setup frames are held back: no receiver has ever answered or asks for one, a minute has passed, and the last one was
/// sent less than a second ago.
fn is_held_back(now: u64, publishing: &Publishing) -> bool
    ensures { result ≡ is_held_back now publishing.now }
{
    let flow = publishing.sender.flow();
    flow.heard_at.is_none()
        && !flow.is_setup_asked
        && EAGER <= now.saturating_sub(publishing.begun_at())
        && is_recent(now, &flow.setup_at)
}

/// Whether the last setup frame was sent less than a second ago.
fn is_recent(now: u64, setup_at: &Option<u64>) -> bool
    ensures { result ≡ is_recent now setup_at.now }
{
    match setup_at {
        Some(at) => now.saturating_sub(*at) < PATIENCE,
        None => false,
    }
}

/// Sends the setup frame, if the sender position has a term.
fn send_setup<E: SendEnd>(now: u64, publishing: &mut Publishing, end: &mut E, to: &Endpoint)
    ensures put { PutsSetup E.puts to.now publishing.old.sending end.old end.new }
    ensures noted { publishing.new ≡ record publishing.old {
      sending = record publishing.old.sending { flow = after_setup now publishing.old.sending.flow };
    } }
{
    if let Some(setup) = publishing.sender.setup() {
        end.put(&setup.encode(), to);
    }
    publishing.sender.note_setup(now);
}

/// Sends the heartbeat, if the sender position has a term.
fn send_heartbeat<E: SendEnd>(now: u64, publishing: &mut Publishing, end: &mut E, to: &Endpoint)
    ensures put { PutsHeartbeat E.puts to.now publishing.old.sending end.old end.new }
    ensures noted { publishing.new ≡ record publishing.old {
      sending = record publishing.old.sending { flow = after_heartbeat now publishing.old.sending.flow };
    } }
{
    if let Some(heartbeat) = publishing.sender.heartbeat() {
        end.put(&heartbeat.header(), to);
    }
    publishing.sender.note_heartbeat(now);
}

/// Repeats the first datagram that is asked for: its index.
fn repeat(now: u64, publishing: &mut Publishing) -> Option<usize>
    ensures first { result ≡ asked_first publishing.old.sending }
    ensures repeated { publishing.new ≡ record publishing.old {
      sending = after_again now publishing.old.sending;
      repeats = repeats_more publishing.old.repeats;
    } }
{
    let index = publishing.sender.again(now);
    publishing.repeats = publishing.repeats.saturating_add(1);
    index
}

/// Sends the datagram of an index, among those that were sent and are not consumed.
fn put_at<E: SendEnd>(publishing: &Publishing, index: Option<usize>, end: &mut E, to: &Endpoint)
    ensures { PutsAt E.puts to.now publishing.now.sending.sent index end.old end.new }
{
    let Some(index) = index else {
        return;
    };
    if let Some(datagram) = publishing.sender.datagram(index) {
        end.put(datagram.bytes.as_slice(), to);
    }
}
