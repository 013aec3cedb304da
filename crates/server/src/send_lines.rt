//! The lines `send` and `stop-sending`. docs/CONTROL.md, "Sendings".

use crate::connections::Connections;
use crate::followers::Asked;
use control_lines::FollowFields;
use frame_core::Refusal;
use server_sender::{SendFields, SendLine, SendRecord, print_sending, print_stopped, send_line};
use server_state::Reporter;
use std::net::SocketAddr;
use std::rt::Clock;
use std::sync::Wait;

/// The answer to a line that begins with `send` or `stop-sending`, or why it is refused.
pub(crate) fn answer_sending<R: Wait + Clock, T: Reporter>(
    rt: &R,
    with: &Connections<T>,
    line: &[u8],
) -> Result<String, Refusal> {
    let line = line.strip_suffix(b"\n").unwrap_or(line);
    match send_line(with.alloc, line)? {
        Some(SendLine::Send(fields)) => begin(rt, with, &fields),
        Some(SendLine::Stop(number)) => stop(rt, with, number),
        None => Err(Refusal::BadLine),
    }
}

/// A recording is sent from now on: the answer.
fn begin<R: Wait + Clock, T: Reporter>(
    rt: &R,
    with: &Connections<T>,
    fields: &SendFields,
) -> Result<String, Refusal> {
    with.sendings.check(&fields.endpoint)?;
    let asked = Asked {
        fields: FollowFields {
            recording: fields.recording,
            position: fields.position,
            length: fields.length,
        },
        address: Some(SocketAddr::V4(fields.endpoint.to_socket())),
        to: Some(fields.endpoint),
    };
    let (claim, number) = with.followers.ask(rt, &asked)?;
    with.followers.give_up(rt, &claim);
    Ok(print_sending(with.alloc, number.unsigned_abs())?)
}

/// A sending ends, and is known no more: the answer. Waits until its last heartbeats were sent, and its replay is closed.
fn stop<R: Wait + Clock, T: Reporter>(
    rt: &R,
    with: &Connections<T>,
    number: i64,
) -> Result<String, Refusal> {
    let Ok(number) = u64::try_from(number) else {
        return Err(Refusal::UnknownReplay);
    };
    let Some(known) = with.shared.sends.find(rt, number) else {
        return Err(Refusal::UnknownReplay);
    };
    let mut is_asked = !known.is_live();
    for _ in rt.forever() {
        if !is_asked {
            is_asked = ask_to_stop(rt, with, &known);
        }
        if with.shared.sends.wait_for_end(rt, number) {
            break;
        }
        if with.has_ended() {
            return Err(Refusal::Broken);
        }
    }
    let consumed = with.shared.sends.take(rt, number)?;
    Ok(print_stopped(with.alloc, consumed)?)
}

/// The stream of a sending ends. Whether it could: it does not if nothing is sent yet, or any more.
fn ask_to_stop<R: Wait + Clock, T: Reporter>(
    rt: &R,
    with: &Connections<T>,
    known: &SendRecord,
) -> bool {
    let Some(place) = with.sendings.place(known.place) else {
        return false;
    };
    let mut sending = place.lock(rt);
    let Some(sending) = &mut *sending else {
        return false;
    };
    if sending.number != known.number {
        return false;
    }
    sending.publishing.stop();
    with.sendings.wake();
    true
}
