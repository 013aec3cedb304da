//! Lines about a sender: docs/PROTOCOL.md, "Publications of recordings". README.md, "A sender".

use crate::words::{bytes_of, frame_at, int, message_at, natural, numbers, put_bytes};
use frame_core::{
    FrameKind, FrameRef, Geometry, Nak, Publication, Refusal, StatusMessage, decode_front,
};
use publication_core::{Due, Sender};
use std::alloc::Global;

// Frames that are laid at most by one line.
const MOST: u32 = 100;

/// A sender of the vectors' session and stream, if there is one, and how many bytes its terms have.
#[derive(Drop)]
pub(crate) struct Sending {
    sender: Option<Sender>,
    term_length: u64,
}

impl Sending {
    /// No sender.
    pub fn new() -> Sending {
        Sending {
            sender: None,
            term_length: 0,
        }
    }

    /// Adds what a line is answered, and returns whether its word is one of these.
    pub fn reply(
        &mut self,
        alloc: Global,
        out: &mut String,
        word: &str,
        rest: &str,
    ) -> Result<bool, Refusal> {
        if word == "sender" {
            self.begin(alloc, rest)?;
            return Ok(true);
        }
        match &mut self.sender {
            Some(sender) => reply_of(alloc, out, sender, self.term_length, word, rest),
            None => Ok(false),
        }
    }

    /// Begins a publication: the term length, the MTU, and the position.
    fn begin(&mut self, alloc: Global, rest: &str) -> Result<(), Refusal> {
        let (term_length, mtu, position, _) = numbers(rest)?;
        let terms = Geometry {
            initial_term_id: 42,
            term_length: int(term_length)?,
            mtu: int(mtu)?,
        };
        let publication = Publication {
            session_id: 7,
            stream_id: 1_001,
        };
        self.term_length = natural(term_length)?;
        self.sender = Some(Sender::new(alloc, terms, publication, natural(position)?));
        Ok(())
    }
}

/// Adds what a line about a sender is answered, and returns whether its word is one of these.
fn reply_of(
    alloc: Global,
    out: &mut String,
    sender: &mut Sender,
    term_length: u64,
    word: &str,
    rest: &str,
) -> Result<bool, Refusal> {
    match word {
        "at" => {
            let now = happens(alloc, sender, term_length, rest)?;
            put_due(alloc, out, sender, now)?;
        }
        "note" => {
            happens(alloc, sender, term_length, rest)?;
        }
        "fill" => fill(out, sender, term_length, rest)?,
        "send" => put_sent(out, sender, rest)?,
        "repeats" => put_repeats(out, sender, rest)?,
        "finished" => {
            let (end, _, _, _) = numbers(rest)?;
            let is_finished = sender.is_finished(natural(end)?);
            out.push_str(if is_finished { "yes\n" } else { "no\n" })?;
        }
        "flow" => put_flow(out, sender)?,
        _ => return Ok(false),
    }
    Ok(true)
}

/// Adds how far a sender has come, and how much waits and is kept.
fn put_flow(out: &mut String, sender: &Sender) -> Result<(), Refusal> {
    let flow = sender.flow();
    write!(out, "position {} limit {} ", flow.position, flow.limit)?;
    write!(out, "consumed {} ", flow.consumed)?;
    let waiting = sender.waiting_bytes();
    writeln!(out, "waiting {waiting} kept {}", sender.retained_bytes())?;
    Ok(())
}

/// Something happens at a time, which is returned: the time, and what happens.
fn happens(
    alloc: Global,
    sender: &mut Sender,
    term_length: u64,
    rest: &str,
) -> Result<u64, Refusal> {
    let (now, event) = rest.split_once(' ').unwrap_or((rest, ""));
    let now = natural(numbers(now)?.0)?;
    let (word, rest) = event.split_once(' ').unwrap_or((event, ""));
    match word {
        "wait" => {}
        "end" => sender.end(),
        "hear" => sender.hear(now, &status_of(rest)?),
        "status" => sender.hear(
            now,
            &StatusMessage::decode(bytes_of(alloc, rest)?.as_slice())?,
        ),
        "ask" => sender.ask(now, &nak_of(rest)?),
        "nak" => sender.ask(now, &Nak::decode(bytes_of(alloc, rest)?.as_slice())?),
        "lay" => lay_bytes(alloc, sender, rest)?,
        "lay-message" => lay_message(sender, term_length, rest)?,
        "lay-pad" => lay_pad(sender, term_length, rest)?,
        _ => return Err(Refusal::BadLine),
    }
    Ok(now)
}

/// A status message of the vectors' stream: the term id, how many bytes of it are consumed, and the window.
fn status_of(rest: &str) -> Result<StatusMessage, Refusal> {
    let (term, offset, window, _) = numbers(rest)?;
    Ok(StatusMessage {
        flags: 0,
        session_id: 7,
        stream_id: 1_001,
        consumption_term_id: int(term)?,
        consumption_term_offset: int(offset)?,
        receiver_window: int(window)?,
        receiver_id: 9,
    })
}

/// A NAK of the vectors' stream: the term id, the offset there, and how many bytes it asks for.
fn nak_of(rest: &str) -> Result<Nak, Refusal> {
    let (term, offset, length, _) = numbers(rest)?;
    Ok(Nak {
        session_id: 7,
        stream_id: 1_001,
        term_id: int(term)?,
        term_offset: int(offset)?,
        length: int(length)?,
    })
}

/// Lays a frame at a position.
fn lay(sender: &mut Sender, position: u64, frame: &FrameRef<'_>) -> Result<(), Refusal> {
    sender.lay(position.min(1 << 62), frame)?;
    Ok(())
}

/// Lays the frame in front of some bytes: its position, and the bytes.
fn lay_bytes(alloc: Global, sender: &mut Sender, rest: &str) -> Result<(), Refusal> {
    let (position, digits) = rest.split_once(' ').unwrap_or((rest, ""));
    let position = natural(numbers(position)?.0)?;
    let bytes = bytes_of(alloc, digits)?;
    let (frame, _) = decode_front(bytes.as_slice())?;
    lay(sender, position, &frame)
}

/// Lays a message of zeros: its position, and how many bytes it has with its header.
fn lay_message(sender: &mut Sender, term_length: u64, rest: &str) -> Result<(), Refusal> {
    let (position, length, _, _) = numbers(rest)?;
    let position = natural(position)?;
    let frame = message_at(term_length, position, natural(length)?);
    lay(sender, position, &frame)
}

/// Lays a pad: its position, and how many bytes it fills.
fn lay_pad(sender: &mut Sender, term_length: u64, rest: &str) -> Result<(), Refusal> {
    let (position, length, _, _) = numbers(rest)?;
    let position = natural(position)?;
    let frame = frame_at(FrameKind::Pad, term_length, position, int(length)?, &[]);
    lay(sender, position, &frame)
}

/// Sends what is due, and adds its word and its bytes.
fn put_due(alloc: Global, out: &mut String, sender: &mut Sender, now: u64) -> Result<(), Refusal> {
    match sender.due(now) {
        Due::Setup => put_setup(alloc, out, sender, now),
        Due::Heartbeat => put_heartbeat(alloc, out, sender, now),
        Due::First => {
            let index = sender.send(now)?;
            put_datagram(alloc, out, "first", sender, index)
        }
        Due::Again => {
            let index = sender.again(now);
            put_datagram(alloc, out, "again", sender, index)
        }
        Due::Gone => Ok(out.push_str("gone\n")?),
        Due::Refused => Ok(out.push_str("refused\n")?),
        Due::Done => Ok(out.push_str("done\n")?),
        Due::Nothing => Ok(out.push_str("nothing\n")?),
    }
}

/// Notes that the setup frame goes out, and adds it, if there is one.
fn put_setup(
    alloc: Global,
    out: &mut String,
    sender: &mut Sender,
    now: u64,
) -> Result<(), Refusal> {
    sender.note_setup(now);
    match sender.setup() {
        Some(setup) => put_bytes(alloc, out, "setup", &setup.encode()),
        None => put_bytes(alloc, out, "setup", &[]),
    }
}

/// Adds the heartbeat, if there is one, and notes that it goes out.
fn put_heartbeat(
    alloc: Global,
    out: &mut String,
    sender: &mut Sender,
    now: u64,
) -> Result<(), Refusal> {
    match sender.heartbeat() {
        Some(frame) => put_bytes(alloc, out, "heartbeat", &frame.header())?,
        None => put_bytes(alloc, out, "heartbeat", &[])?,
    }
    sender.note_heartbeat(now);
    Ok(())
}

/// Adds the datagram of an index, if there is one.
fn put_datagram(
    alloc: Global,
    out: &mut String,
    word: &str,
    sender: &Sender,
    index: Option<usize>,
) -> Result<(), Refusal> {
    let Some(index) = index else {
        return put_bytes(alloc, out, word, &[]);
    };
    match sender.datagram(index) {
        Some(datagram) => put_bytes(alloc, out, word, datagram.bytes.as_slice()),
        None => put_bytes(alloc, out, word, &[]),
    }
}

/// Sends the first datagram that waits, and adds how many bytes it has, and from where to where it covers the stream: the time.
fn put_sent(out: &mut String, sender: &mut Sender, rest: &str) -> Result<(), Refusal> {
    let index = sender.send(natural(numbers(rest)?.0)?)?;
    let Some(index) = index else {
        out.push_str("sent none\n")?;
        return Ok(());
    };
    if let Some(datagram) = sender.datagram(index) {
        let count = datagram.bytes.len();
        write!(out, "sent {index} bytes {count} ")?;
        writeln!(out, "from {} to {}", datagram.position, datagram.end)?;
    }
    Ok(())
}

/// Repeats what is asked for, a hundred datagrams at most, and adds the index of each: the time.
fn put_repeats(out: &mut String, sender: &mut Sender, rest: &str) -> Result<(), Refusal> {
    let now = natural(numbers(rest)?.0)?;
    let mut is_any = false;
    out.push_str("repeats")?;
    for _ in 0..MOST {
        let Some(index) = sender.again(now) else {
            break;
        };
        is_any = true;
        write!(out, " {index}")?;
    }
    out.push_str(if is_any { "\n" } else { " none\n" })?;
    Ok(())
}

/// Lays messages one after another until no more are wanted, and adds how many those are: how many bytes each has.
fn fill(
    out: &mut String,
    sender: &mut Sender,
    term_length: u64,
    rest: &str,
) -> Result<(), Refusal> {
    let length = natural(numbers(rest)?.0)?;
    let mut count = 0u32;
    for _ in 0..MOST {
        if !sender.wants_frames() {
            break;
        }
        let position = sender.lay_position();
        lay(sender, position, &message_at(term_length, position, length))?;
        count = count.wrapping_add(1);
    }
    writeln!(out, "laid {count}")?;
    Ok(())
}
