//! A publication as its sender has it: docs/PROTOCOL.md, "Publications of recordings".

ghost use Rattle.std.specs.Prelude.{◌≡◌, ◌≤◌, ◌^◌, false, IfOk, OnOk, OnErr, MatchOption};
ghost use Rattle.std.specs.Slice.{IsItemAt};
ghost use Rattle.frame_core.specs.FrameEncoding.{frame_of};
ghost use Rattle.flow_control.specs.Feedback.{has_term};
ghost use Rattle.publication_core.specs.Flows.{after_heartbeat, after_setup, may_go, never_goes};
ghost use Rattle.publication_core.specs.Sending.{Sends, after_again, after_end, after_hearing, after_laying, after_nak, asked_first, due, due_at_end, due_before_end, first_passes, is_finished, is_nak_of, retained_bytes, new_sending, lay_position, waiting_bytes, wants_frames};
ghost use Rattle.publication_core.specs.Signs.{IsHeartbeatOf, IsSetupOf, heartbeat_flags};

use crate::bytes::Bytes;
use crate::datagram::Datagram;
use crate::due::Due;
use crate::flow::{Flow, position_at};
use crate::lists::{drop_consumed, is_any_asked, lay_into, mark_each, repeat_first};
use crate::signs::{heartbeat_at, heartbeat_flags, setup_at};
use frame_core::{FrameRef, Geometry, Nak, Publication, Setup, StatusMessage};
use std::alloc::{AllocError, Global};
use std::collections::VecDeque;
use std::marker::Model;

// Heartbeats at the end of a stream.
const LAST_HEARTBEATS: u64 = 3;
// Bytes that wait at most when more frames are wanted.
const WAITING: u64 = 65_536;

/// One publication: what was sent of it and is not consumed, and what waits. To a contract it is a sending. The
/// memory of datagrams that were consumed is used again.
#[derive(Drop)]
pub struct Sender {
    alloc: Global,
    geometry: Geometry,
    publication: Publication,
    flow: Flow,
    sent: VecDeque<Datagram>,
    /// Whether one of those that were sent is asked for.
    is_any_asked: bool,
    waiting: VecDeque<Datagram>,
    spare: Vec<Bytes>,
}

impl Model for Sender {
    ghost use Rattle.std.specs.Prelude.{◌≡◌};
    ghost use Rattle.std.specs.List.{list_any};
    ghost use Rattle.publication_core.specs.Datagrams.{is_repeat_asked};
    ghost use Rattle.publication_core.specs.Sending.{Sending};

    ghost Value = { Sending };

    ghost view = { λ s. record {
      geometry = s.geometry;
      publication = s.publication;
      flow = s.flow;
      sent = s.sent.items;
      waiting = s.waiting.items;
    } };

    ghost invariant = { λ s. s.is_any_asked ≡ list_any is_repeat_asked s.sent.items };
}

impl Sender {
    /// A publication that begins at a position, in bytes of the stream. Does not allocate.
    pub fn new(alloc: Global, geometry: Geometry, publication: Publication, position: u64) -> Sender
        ensures { result ≡ new_sending geometry publication position }
    {
        Sender {
            alloc,
            geometry,
            publication,
            flow: Flow::new(position),
            sent: VecDeque::new(alloc),
            is_any_asked: false,
            waiting: VecDeque::new(alloc),
            spare: Vec::new(alloc),
        }
    }

    /// Lays a frame that begins at a position, in bytes of the stream: it waits to be sent. AllocError if there is no
    /// memory; then nothing changes. Costs a copy of the frame.
    pub fn lay(&mut self, position: u64, frame: &FrameRef<'_>) -> Result<(), AllocError>
        requires { position ≤ 2 ^ 63 }
        ensures laid { OnOk result
            (self.new ≡ after_laying position (frame_of frame.now) self.old) }
        ensures same { OnErr result (self.new ≡ self.old) }
    {
        lay_into(
            self.alloc,
            &self.geometry,
            &mut self.waiting,
            &mut self.spare,
            position,
            frame,
        )
    }

    /// Hears a status message. One of another publication, or without a position, changes nothing. Costs a step for
    /// each datagram that is consumed, and while one is asked for a step for each that is kept.
    #[tactic(auto, using(crate::proofs::AskedLemmas::asked_unconsumed))]
    pub fn hear(&mut self, now: u64, status: &StatusMessage)
        ensures { self.new ≡ after_hearing now status.now self.old }
    {
        self.flow
            .hear(&self.geometry, &self.publication, now, status);
        drop_consumed(&mut self.sent, &mut self.spare, self.flow.consumed);
        self.is_any_asked = self.is_any_asked && is_any_asked(&self.sent);
    }

    /// Hears a NAK: datagrams in its range are repeated. One of another publication, or without a position, changes
    /// nothing. Costs a step for each datagram that is kept; does not allocate.
    pub fn ask(&mut self, now: u64, nak: &Nak)
        ensures { self.new ≡ after_nak now nak.now self.old }
    {
        if !is_of(&self.publication, nak) {
            return;
        }
        if let Some(from) = position_at(&self.geometry, nak.term_id, nak.term_offset) {
            let to = from + u64::from(nak.length.unsigned_abs());
            mark_each(&mut self.sent, now, from, to);
            self.is_any_asked = is_any_asked(&self.sent);
        }
    }

    /// What is due. In constant time.
    pub fn due(&self, now: u64) -> Due
        ensures { result ≡ due now self.now }
    {
        match self.flow.ends_left {
            Some(left) => self.due_at_end(now, left),
            None => self.due_before_end(now),
        }
    }

    /// What is due while the stream ends.
    fn due_at_end(&self, now: u64, left: u64) -> Due
        ensures { result ≡ due_at_end now self.now.flow left }
    {
        if left == 0 || self.flow.heard_at.is_none() {
            return Due::Done;
        }
        if self.flow.is_heartbeat_due(now) {
            return Due::Heartbeat;
        }
        Due::Nothing
    }

    /// What is due before the stream ends.
    fn due_before_end(&self, now: u64) -> Due
        ensures { result ≡ due_before_end now self.now }
    {
        if self.flow.is_receiver_gone(now) {
            return Due::Gone;
        }
        if self.flow.is_setup_due(now) {
            return Due::Setup;
        }
        if self.is_any_asked {
            return Due::Again;
        }
        if self.may_send() {
            return Due::First;
        }
        if self.is_refused() {
            return Due::Refused;
        }
        if self.flow.is_heartbeat_due(now) {
            return Due::Heartbeat;
        }
        Due::Nothing
    }

    /// Sends the first datagram that waits, if it may go: its index among those that were sent. None if it may not,
    /// and nothing changes then. AllocError if there is no memory; then nothing changes either.
    pub fn send(&mut self, now: u64) -> Result<Option<usize>, AllocError>
        ensures sent { IfOk result (λ found. Sends now self.old found self.new) }
        ensures same { OnErr result (self.new ≡ self.old) }
    {
        if !self.may_send() {
            return Ok(None);
        }
        self.sent.reserve(1)?;
        let index = self.sent.len();
        if let Some(first) = self.waiting.pop_front() {
            self.flow.note_datagram(now, first.end);
            self.is_any_asked = self.is_any_asked || first.is_repeat_asked;
            self.sent.push_back_reserved(first);
        }
        Ok(Some(index))
    }

    /// Repeats the first datagram that is asked for: its index among those that were sent. None if none is, and
    /// nothing changes then. Costs a step for each datagram that is kept; does not allocate.
    pub fn again(&mut self, now: u64) -> Option<usize>
        ensures first { result ≡ asked_first self.old }
        ensures repeated { self.new ≡ after_again now self.old }
    {
        let index = repeat_first(&mut self.sent, now);
        self.is_any_asked = is_any_asked(&self.sent);
        index
    }

    /// The datagram of an index, among those that were sent and are not consumed.
    pub fn datagram(&self, index: usize) -> Option<&Datagram>
        ensures { IsItemAt self.now.sent index result }
    {
        self.sent.get(index)
    }

    /// How far the publication has come.
    pub fn flow(&self) -> &Flow
        ensures { result.now ≡ self.now.flow }
    {
        &self.flow
    }

    /// The heartbeat at the sender position, with the end-of-stream flag if the stream ends. None if the position is
    /// not before the end of the last term. Does not allocate.
    pub fn heartbeat(&self) -> Option<FrameRef<'static>>
        ensures { let flow = self.now.flow in MatchOption result
            (has_term self.now.geometry flow.position ≡ false)
            (λ frame. IsHeartbeatOf self.now.geometry self.now.publication
            (heartbeat_flags flow.ends_left) flow.position (frame_of frame)) }
    {
        let flags = heartbeat_flags(&self.flow.ends_left);
        heartbeat_at(&self.geometry, &self.publication, self.flow.position, flags)
    }

    /// The setup frame, by which an image joins at the sender position. None if the position is not before the end of
    /// the last term. Does not allocate.
    pub fn setup(&self) -> Option<Setup>
        ensures { MatchOption result (has_term self.now.geometry self.now.flow.position ≡ false)
            (IsSetupOf self.now.geometry self.now.publication self.now.flow.position) }
    {
        setup_at(&self.geometry, &self.publication, self.flow.position)
    }

    /// Notes that the setup frame was sent.
    pub fn note_setup(&mut self, now: u64)
        ensures { self.new ≡ record self.old { flow = after_setup now self.old.flow } }
    {
        self.flow.note_setup(now);
    }

    /// Notes that the heartbeat was sent.
    pub fn note_heartbeat(&mut self, now: u64)
        ensures { self.new ≡ record self.old { flow = after_heartbeat now self.old.flow } }
    {
        self.flow.note_heartbeat(now);
    }

    /// Ends the stream: three heartbeats with the end-of-stream flag are due, and nothing else.
    pub fn end(&mut self)
        ensures { self.new ≡ after_end self.old }
    {
        self.flow.ends_left = Some(LAST_HEARTBEATS);
    }

    /// Whether all up to a position, in bytes of the stream, was sent and is consumed.
    pub fn is_finished(&self, end: u64) -> bool
        ensures { result ≡ is_finished end self.now }
    {
        end <= self.flow.position && end <= self.flow.consumed
    }

    /// Where the next frame is laid, in bytes of the stream.
    pub fn lay_position(&self) -> u64
        ensures { result ≡ lay_position self.now }
    {
        match self.waiting.back() {
            Some(last) => last.end,
            None => self.flow.position,
        }
    }

    /// How many bytes of the stream wait to be sent.
    pub fn waiting_bytes(&self) -> u64
        ensures { result ≡ waiting_bytes self.now }
    {
        self.lay_position().saturating_sub(self.flow.position)
    }

    /// How many bytes of the stream were sent and are not consumed: they are kept for repeats.
    pub fn retained_bytes(&self) -> u64
        ensures { result ≡ retained_bytes self.now }
    {
        self.flow.position.saturating_sub(self.flow.consumed)
    }

    /// Whether more frames are wanted: fewer than 65,536 bytes wait, and the sender limit is past them.
    pub fn wants_frames(&self) -> bool
        ensures { result ≡ wants_frames self.now }
    {
        self.waiting_bytes() < WAITING && self.lay_position() < self.flow.limit
    }

    /// Whether the first datagram that waits may go.
    fn may_send(&self) -> bool
        ensures { result ≡
            first_passes (may_go self.now.geometry self.now.flow) self.now.waiting }
    {
        match self.waiting.front() {
            Some(first) => self.flow.may_go(&self.geometry, first),
            None => false,
        }
    }

    /// Whether the first datagram that waits never goes.
    fn is_refused(&self) -> bool
        ensures { result ≡
            first_passes (never_goes self.now.geometry self.now.flow) self.now.waiting }
    {
        match self.waiting.front() {
            Some(first) => self.flow.never_goes(&self.geometry, first),
            None => false,
        }
    }
}

/// Whether a NAK is of the publication.
fn is_of(publication: &Publication, nak: &Nak) -> bool
    ensures { result ≡ is_nak_of publication.now nak.now }
{
    nak.session_id == publication.session_id && nak.stream_id == publication.stream_id
}
