//! A sender and an image on a bad line make a copy: docs/PROTOCOL.md, "Publications of recordings".

use crate::bounded_images::offer;
use crate::publications::sender_at;
use flow_control::{Feedback, INITIAL_WINDOW};
use frame_core::{Block, Frame, FrameKind, FrameRef, Nak, Refusal, Setup, StatusMessage};
use image_core::BoundedImage;
use publication_core::{Due, Sender};
use std::alloc::{AllocError, Global};
use std::collections::VecDeque;

/// Steps, each of one millisecond.
const STEPS: u64 = 10_000;
/// Frames of the stream, pads among them.
const FRAMES: u64 = 12_000;
/// Bytes of a term.
const TERM: u64 = 65_536;
/// Datagrams that are sent at most in a step, and those that come.
const TOGETHER: u32 = 4;

/// What messages carry: from a byte on that their number gives.
const CARRIED: &[u8] = b"0123456789ABCDEFGHIJKLMNOPQRSTUVWXYZabcdefghijklmnopqrstuvwxyz+/\
    ABCDEFGHIJKLMNOPQRSTUVWXYZabcdefghijklmnopqrstuvwxyz+/0123456789\
    abcdefghijklmnopqrstuvwxyz+/0123456789ABCDEFGHIJKLMNOPQRSTUVWXYZ\
    +/0123456789ABCDEFGHIJKLMNOPQRSTUVWXYZabcdefghijklmnopqrstuvwxyz";

/// Where a stream stands: the number of its next frame, and the position where that begins.
#[derive(Clone, Copy)]
struct Point {
    number: u64,
    position: u64,
}

/// What the message of a number carries.
fn carried(number: u64) -> &'static [u8] {
    let from = number % 64;
    let to = from + number % 193;
    CARRIED.get(from as usize..to as usize).unwrap_or(b"")
}

/// The next frame of a stream: a message, or a pad if the term has no room for it.
fn frame_at(point: Point) -> FrameRef<'static> {
    let offset = point.position % TERM;
    let payload = carried(point.number);
    let message = FrameRef {
        kind: FrameKind::Message,
        flags: 0xC0,
        length: 32 + (payload.len() % 1_024) as i32,
        term_offset: offset as i32,
        session_id: 7,
        stream_id: 1_001,
        term_id: 42 + (point.position / TERM % 1_000) as i32,
        reserved: (point.number % 1_000_000) as i64,
        payload,
    };
    if offset + message.aligned_length() <= TERM {
        return message;
    }
    FrameRef {
        kind: FrameKind::Pad,
        length: (TERM - offset) as i32,
        payload: b"",
        ..message
    }
}

/// Where a stream stands after its next frame.
fn after(point: Point) -> Point {
    Point {
        number: point.number.wrapping_add(1),
        position: (point.position % (1 << 62)) + frame_at(point).aligned_length(),
    }
}

/// Whether a frame is the next one of a stream.
fn is_next(frame: &Frame, point: Point) -> bool {
    let next = frame_at(point);
    frame.header() == next.header() && frame.payload.as_slice() == next.payload
}

/// Datagrams on their way, and what decides which of them are lost, come twice or overtake others.
#[derive(Drop)]
struct Line {
    alloc: Global,
    flying: VecDeque<Vec<u8>>,
    seed: u32,
}

impl Line {
    /// A number from 0 to 7.
    fn chance(&mut self) -> u32 {
        self.seed = self
            .seed
            .wrapping_mul(1_664_525)
            .wrapping_add(1_013_904_223);
        self.seed >> 29
    }

    /// How often a datagram comes: one in eight is lost, and one in eight comes twice.
    fn times(&mut self) -> u32 {
        match self.chance() {
            0 => 0,
            1 => 2,
            _ => 1,
        }
    }

    /// Sends a datagram.
    fn put(&mut self, bytes: &[u8]) -> Result<(), AllocError> {
        for _ in 0..self.times() {
            let copy = bytes.to_vec(self.alloc)?;
            self.flying.push_back(copy)?;
        }
        Ok(())
    }

    /// The datagram that comes next: one in four overtakes all others.
    fn next(&mut self) -> Option<Vec<u8>> {
        if self.chance() < 2 {
            return self.flying.pop_back();
        }
        self.flying.pop_front()
    }
}

/// What receives a stream: its image once a setup frame came, what it sent, and where its copy stands.
#[derive(Drop)]
struct Receiver {
    image: Option<BoundedImage>,
    feedback: Feedback,
    copied: Point,
}

/// A setup frame comes, or frames: the first setup frame makes the image.
fn receive(alloc: Global, receiver: &mut Receiver, now: u64, bytes: &[u8]) -> Result<(), Refusal> {
    receiver.feedback.hear(now);
    match Setup::decode(bytes) {
        Ok(setup) => join(alloc, &mut receiver.image, &setup),
        Err(_) => take_in(alloc, &mut receiver.image, bytes),
    }
}

/// Makes the image if there is none.
fn join(alloc: Global, image: &mut Option<BoundedImage>, setup: &Setup) -> Result<(), Refusal> {
    if image.is_none() {
        *image = Some(BoundedImage::from_setup(alloc, setup)?);
    }
    Ok(())
}

/// Offers frames to the image, if there is one.
fn take_in(alloc: Global, image: &mut Option<BoundedImage>, bytes: &[u8]) -> Result<(), Refusal> {
    match image {
        Some(image) => offer(alloc, image, bytes).and(Ok(())),
        None => Ok(()),
    }
}

/// Where the copy stands after a block. None if one of its frames is not the stream's.
fn copied(block: &Block, mut point: Point) -> Option<Point> {
    for frame in block.frames.as_slice() {
        if !is_next(frame, point) {
            return None;
        }
        point = after(point);
    }
    Some(point)
}

/// Takes a block of an image, if there is one: where the copy stands then.
fn take(image: &mut BoundedImage, point: Point) -> Result<Option<Point>, Refusal> {
    match image.take_block()? {
        Some(block) => Ok(copied(&block, point)),
        None => Ok(Some(point)),
    }
}

/// Takes a block for the copy, if there is an image: whether its frames are the stream's.
fn copy(receiver: &mut Receiver) -> Result<bool, Refusal> {
    let point = match &mut receiver.image {
        Some(image) => take(image, receiver.copied)?,
        None => Some(receiver.copied),
    };
    receiver.copied = point.unwrap_or(receiver.copied);
    Ok(point.is_some())
}

/// The status message that is due of a receiver.
fn status_of(receiver: &mut Receiver, now: u64) -> Option<StatusMessage> {
    match &receiver.image {
        Some(image) => receiver
            .feedback
            .status(now, image, INITIAL_WINDOW, None, 9),
        None => None,
    }
}

/// The NAK that is due of a receiver.
fn nak_of(receiver: &mut Receiver, now: u64) -> Option<Nak> {
    match &receiver.image {
        Some(image) => receiver.feedback.request(now, image),
        None => None,
    }
}

/// What the receiver says goes to the sender: one in eight is lost.
fn answer(sender: &mut Sender, line: &mut Line, receiver: &mut Receiver, now: u64) {
    if let Some(status) = status_of(receiver, now) {
        if line.chance() > 0 {
            sender.hear(now, &status);
        }
    }
    if let Some(nak) = nak_of(receiver, now) {
        if line.chance() > 0 {
            sender.ask(now, &nak);
        }
    }
}

/// Datagrams come to the receiver.
fn deliver(line: &mut Line, receiver: &mut Receiver, now: u64) -> Result<(), Refusal> {
    for _ in 0..TOGETHER {
        if let Some(bytes) = line.next() {
            receive(line.alloc, receiver, now, &bytes)?;
        }
    }
    Ok(())
}

/// The setup frame goes out.
fn send_setup(sender: &mut Sender, line: &mut Line, now: u64) -> Result<(), AllocError> {
    sender.note_setup(now);
    if let Some(setup) = sender.setup() {
        line.put(&setup.encode())?;
    }
    Ok(())
}

/// The heartbeat goes out.
fn send_heartbeat(sender: &mut Sender, line: &mut Line, now: u64) -> Result<(), AllocError> {
    if let Some(frame) = sender.heartbeat() {
        line.put(&frame.header())?;
    }
    sender.note_heartbeat(now);
    Ok(())
}

/// The datagram of an index goes out.
fn send_datagram(sender: &Sender, line: &mut Line, index: Option<usize>) -> Result<(), AllocError> {
    let Some(index) = index else {
        return Ok(());
    };
    match sender.datagram(index) {
        Some(datagram) => line.put(datagram.bytes.as_slice()),
        None => Ok(()),
    }
}

/// What is due goes out. Whether the sending goes on.
fn send_due(sender: &mut Sender, line: &mut Line, now: u64) -> Result<bool, AllocError> {
    match sender.due(now) {
        Due::Setup => send_setup(sender, line, now)?,
        Due::Heartbeat => send_heartbeat(sender, line, now)?,
        Due::First => {
            let index = sender.send(now)?;
            send_datagram(sender, line, index)?;
        }
        Due::Again => {
            let index = sender.again(now);
            send_datagram(sender, line, index)?;
        }
        Due::Gone | Due::Refused => return Ok(false),
        Due::Done | Due::Nothing => {}
    }
    Ok(true)
}

/// Some datagrams go out. Whether the sending goes on.
fn send_some(sender: &mut Sender, line: &mut Line, now: u64) -> Result<bool, AllocError> {
    for _ in 0..TOGETHER {
        if !send_due(sender, line, now)? {
            return Ok(false);
        }
    }
    Ok(true)
}

/// Lays frames of the stream while more are wanted: where the next one begins.
fn lay_wanted(sender: &mut Sender, mut point: Point) -> Result<Point, AllocError> {
    for _ in 0..1_000 {
        if point.number == FRAMES || !sender.wants_frames() {
            return Ok(point);
        }
        sender.lay(point.position % (1 << 62), &frame_at(point))?;
        point = after(point);
    }
    Ok(point)
}

/// One step: frames are laid, some datagrams go out, some come, and the receiver answers. Where the next frame begins, or none
/// if the sending ended or another frame was copied.
fn step(
    sender: &mut Sender,
    line: &mut Line,
    receiver: &mut Receiver,
    point: Point,
    now: u64,
) -> Result<Option<Point>, Refusal> {
    let laid = lay_wanted(sender, point)?;
    let goes_on = send_some(sender, line, now)?;
    deliver(line, receiver, now)?;
    let is_copied = copy(receiver)?;
    answer(sender, line, receiver, now);
    Ok(if goes_on && is_copied {
        Some(laid)
    } else {
        None
    })
}

/// A receiver to which nothing came.
fn new_receiver() -> Receiver {
    Receiver {
        image: None,
        feedback: Feedback::new(0),
        copied: Point {
            number: 0,
            position: 0,
        },
    }
}

/// All steps: where the stream stands after them, or none if one of them found another frame.
fn run(
    sender: &mut Sender,
    line: &mut Line,
    receiver: &mut Receiver,
) -> Result<Option<Point>, Refusal> {
    let mut laid = receiver.copied;
    for now in 0..STEPS {
        match step(sender, line, receiver, laid, now)? {
            Some(point) => laid = point,
            None => return Ok(None),
        }
    }
    Ok(Some(laid))
}

/// Whether the stream is sent to its end, and its copy ends there too.
fn is_copied(
    sender: &mut Sender,
    line: &mut Line,
    receiver: &mut Receiver,
) -> Result<bool, Refusal> {
    let Some(laid) = run(sender, line, receiver)? else {
        return Ok(false);
    };
    Ok(
        laid.number == FRAMES
            && sender.is_finished(laid.position)
            && receiver.copied.number == FRAMES
            && receiver.copied.position == laid.position,
    )
}

/// A sender and an image over a line that loses, repeats and reorders in both directions make an exact copy of the
/// stream.
#[test]
fn a_stream_is_copied_over_a_bad_line(rt: HostRuntime) {
    let alloc = rt.alloc();
    let mut sender = sender_at(alloc, 0);
    let mut line = Line {
        alloc,
        flying: VecDeque::new(alloc),
        seed: 1,
    };
    let mut receiver = new_receiver();
    assert!(rt; is_copied(&mut sender, &mut line, &mut receiver) == Ok(true));
}
