//! The thread that sends recordings, and hears what their receivers answer. docs/SERVING.md, "Send a recording".

ghost use Rattle.std.specs.Prelude.{◌≡◌};
ghost use Rattle.server_sender.specs.Stepping.{SendsSome};

use crate::connections::Connections;
use crate::sendings::{ActiveSending, SendPlace};
use server_sender::{Endpoint, Feedback, SendEnd, SendProgress, Stepped, feedback_of, send_some};
use server_state::{Happening, Reporter, SendNews};
use std::alloc::AllocError;
use std::net::{SocketAddr, UdpSocket};
use std::rt::Clock;
use std::sync::Wait;
use std::thread;
use std::time::Duration;

/// Datagrams of one sending that go out before another one's.
const AT_ONCE: u64 = 32;
/// Datagrams that are heard before what is due is sent: a receiver that was heard is not gone.
const HEARD_AT_ONCE: u64 = 1_024;
/// Bytes of a datagram that are looked at: those of a status message or a NAK, and more.
const LONGEST: usize = 2_048;
/// Milliseconds that the thread sleeps at once at most if there is a sending.
const NAP: u64 = 10;
/// The same if there is none.
const REST: u64 = 100;
/// Milliseconds after which it is reported that no receiver answers.
const SILENCE: u64 = 5_000;
/// Datagrams from which on the recorder is busy that came while others went out.
const BUSY: u64 = 8;
/// Microseconds for which the thread rests then.
const BREATH: u64 = 50;

/// A socket as the end that datagrams of sendings go out by. One that can't be sent may be lost on the way too.
#[derive(Drop)]
struct UdpSendEnd<'a> {
    socket: &'a UdpSocket,
    datagrams: u64,
    bytes: u64,
}

impl SendEnd for UdpSendEnd<'_> {
    ghost use Rattle.std.specs.Prelude.{⊤};

    ghost puts = { λ old to bytes new. ⊤ };

    fn put(&mut self, datagram: &[u8], to: &Endpoint) {
        self.datagrams = self.datagrams.wrapping_add(1);
        self.bytes = self.bytes.wrapping_add(datagram.len() as u64);
        let _ = self.socket.send_to(datagram, to.to_socket());
    }
}

/// Sends recordings until the server ends, if there is a socket for that.
pub(crate) fn send_all<R: Wait + Clock, T: Reporter>(rt: &R, with: &Connections<T>) {
    let Some(socket) = with.sendings.socket() else {
        return;
    };
    let mut buffer = [0; LONGEST];
    let mut end = UdpSendEnd {
        socket,
        datagrams: 0,
        bytes: 0,
    };
    let mut is_quiet = false;
    let mut received = 0;
    for _ in rt.forever() {
        if with.has_ended() {
            return;
        }
        let has_heard = hear_waiting(rt, with, socket, &mut buffer);
        let (has_sent, nap) = send_round(rt, with, &mut end);
        note_counts(with, &mut end);
        if has_sent {
            received = give_way(rt, with, received);
        }
        let is_idle = !has_heard && !has_sent;
        if is_idle && is_quiet {
            sleep(rt, with, socket, &mut buffer, nap);
        }
        is_quiet = is_idle && !is_quiet;
        with.sendings.set_asleep(is_quiet);
    }
}

/// Notes what went out.
fn note_counts<T>(with: &Connections<T>, end: &mut UdpSendEnd<'_>) {
    let counts = &with.shared.sends.counts;
    if end.datagrams > 0 {
        counts.datagrams.add(end.datagrams);
        counts.bytes.add(end.bytes);
        end.datagrams = 0;
        end.bytes = 0;
    }
}

/// Rests for a moment if many datagrams came for the recorder, of which so many had come before: recording comes first. How many
/// have come.
fn give_way<R: Wait + Clock, T>(rt: &R, with: &Connections<T>, before: u64) -> u64 {
    let received = with.shared.counts.all().datagrams;
    if received.wrapping_sub(before) >= BUSY {
        thread::sleep(rt, Duration::from_micros(BREATH));
    }
    received
}

/// Sleeps until a datagram comes, for so many milliseconds at most, and hears it.
fn sleep<R: Wait + Clock, T: Reporter>(
    rt: &R,
    with: &Connections<T>,
    socket: &UdpSocket,
    buffer: &mut [u8; LONGEST],
    nap: u64,
) {
    let nap = Duration::from_millis(nap);
    if socket.set_read_timeout(Some(nap)).is_err() {
        return;
    }
    let _ = hear(rt, with, socket, buffer);
}

/// Hears the datagrams that wait, but no more than 1,024. Whether there was one.
fn hear_waiting<R: Wait + Clock, T: Reporter>(
    rt: &R,
    with: &Connections<T>,
    socket: &UdpSocket,
    buffer: &mut [u8; LONGEST],
) -> bool {
    if socket.set_nonblocking(true).is_err() {
        return false;
    }
    let has_heard = hear_some(rt, with, socket, buffer);
    // A send waits for room in the system's buffer. Else datagrams would be lost there.
    let _ = socket.set_nonblocking(false).is_ok();
    has_heard
}

/// Hears datagrams, but no more than 1,024. Whether there was one.
fn hear_some<R: Wait + Clock, T: Reporter>(
    rt: &R,
    with: &Connections<T>,
    socket: &UdpSocket,
    buffer: &mut [u8; LONGEST],
) -> bool {
    for count in 0..HEARD_AT_ONCE {
        if !hear(rt, with, socket, buffer) {
            return count > 0;
        }
    }
    true
}

/// Hears a datagram. Whether there was one.
fn hear<R: Wait + Clock, T: Reporter>(
    rt: &R,
    with: &Connections<T>,
    socket: &UdpSocket,
    buffer: &mut [u8; LONGEST],
) -> bool {
    match socket.recv_from(buffer.as_mut_slice()) {
        Ok((0, _)) => true,
        Ok((count, from)) => {
            hear_feedback(rt, with, &buffer[..count], &from);
            true
        }
        Err(_) => false,
    }
}

/// A sending hears what its receiver answers, if it counts for one.
fn hear_feedback<R: Wait + Clock, T: Reporter>(
    rt: &R,
    with: &Connections<T>,
    datagram: &[u8],
    from: &SocketAddr,
) {
    let counts = &with.shared.sends.counts;
    let Some(feedback) = feedback_of(datagram) else {
        counts.foreign.add(1);
        return;
    };
    let known = with
        .shared
        .sends
        .sending_for(rt, from, &feedback.publication());
    let Some(known) = known else {
        counts.foreign.add(1);
        return;
    };
    match feedback {
        Feedback::Status(_) => counts.status_messages.add(1),
        Feedback::Repeat(_) => counts.naks.add(1),
    }
    if let Some(place) = with.sendings.place(known.place) {
        pass_on(rt, with, place, known.number, &feedback);
    }
}

/// The sending of a number hears what its receiver answers, if it is at a place still.
fn pass_on<R: Wait + Clock, T>(
    rt: &R,
    with: &Connections<T>,
    place: &SendPlace,
    number: u64,
    feedback: &Feedback,
) {
    let now = with.sendings.now(rt);
    let mut sending = place.lock(rt);
    if let Some(sending) = &mut *sending {
        if sending.number == number {
            sending.publishing.hear(now, feedback);
        }
    }
}

/// Sends what is due of each sending, but no more than 32 datagrams of each. Whether there was any, and for how many milliseconds
/// the thread may sleep then.
fn send_round<R: Wait + Clock, T: Reporter>(
    rt: &R,
    with: &Connections<T>,
    end: &mut UdpSendEnd<'_>,
) -> (bool, u64) {
    let mut has_sent = false;
    let mut nap = REST;
    for place in with.sendings.places() {
        if place.is_taken() {
            has_sent = send_at(rt, with, place, end) || has_sent;
            nap = NAP;
        }
    }
    (has_sent, nap)
}

/// Sends what is due at a place. Whether there was something.
fn send_at<R: Wait + Clock, T: Reporter>(
    rt: &R,
    with: &Connections<T>,
    place: &SendPlace,
    end: &mut UdpSendEnd<'_>,
) -> bool {
    let now = with.sendings.now(rt);
    let mut sending = place.lock(rt);
    let Some(sending) = &mut *sending else {
        return false;
    };
    if sending.over.is_some() {
        return false;
    }
    if sending.publishing.wants_frames() {
        lay_given(rt, place, sending);
    }
    let sent = send_due(now, sending, end);
    if let Ok(Stepped::Over(over)) = sent {
        sending.over = Some(over);
        place.end(rt);
    }
    note_progress(rt, with, now, sending);
    matches!(sent, Ok(Stepped::Sent))
}

/// Lays the frames that the thread that reads has given. Those for which there is no memory are laid later.
fn lay_given<R: Wait>(rt: &R, place: &SendPlace, sending: &mut ActiveSending) {
    if sending.read.is_empty() {
        if let Some(last) = place.take_given(rt, &mut sending.read) {
            sending.publishing.note_last(last);
        }
    }
    let _ = sending.publishing.lay_all(&mut sending.read);
}

/// Sends what is due of a sending, but no more than 32 datagrams.
fn send_due<E: SendEnd>(
    now: u64,
    sending: &mut ActiveSending,
    end: &mut E,
) -> Result<Stepped, AllocError>
    ensures { SendsSome E.puts sending.old.to 32 now sending.old.publishing end.old result sending.new.publishing end.new }
{
    send_some(now, AT_ONCE, &mut sending.publishing, end, &sending.to)
}

/// Notes how far a sending is, and reports what is new.
fn note_progress<R: Wait, T: Reporter>(
    rt: &R,
    with: &Connections<T>,
    now: u64,
    sending: &mut ActiveSending,
) {
    let progress = sending.publishing.progress();
    if progress != sending.noted {
        with.shared.sends.note(rt, sending.number, &progress);
        let counts = &with.shared.sends.counts;
        counts
            .repeats
            .add(progress.repeats.saturating_sub(sending.noted.repeats));
        if progress.is_heard && !sending.noted.is_heard {
            report_heard(with, sending, &progress);
        }
        sending.noted = progress;
    }
    let waits = !progress.is_heard && SILENCE <= now.saturating_sub(sending.begun_at);
    if waits && !sending.is_waiting_reported {
        sending.is_waiting_reported = true;
        let send = sending.number;
        with.shared
            .report(&Happening::Sending(SendNews::Waits { send }));
    }
}

/// Reports that a receiver has answered.
fn report_heard<T: Reporter>(
    with: &Connections<T>,
    sending: &ActiveSending,
    progress: &SendProgress,
) {
    let send = sending.number;
    let window = progress.limit.saturating_sub(progress.consumed);
    with.shared
        .report(&Happening::Sending(SendNews::Heard { send, window }));
    if window < u64::from(sending.mtu.unsigned_abs()) {
        with.shared.report(&Happening::Sending(SendNews::Narrow {
            send,
            mtu: sending.mtu,
            window,
        }));
    }
}
