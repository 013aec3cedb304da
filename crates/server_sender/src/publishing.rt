//! A sending that is under way. docs/PROTOCOL.md, "Publications of recordings".

ghost use Rattle.std.specs.Prelude.{◌≡◌, [], OnErr, OnOk, Some};
ghost use Rattle.publication_core.specs.Sending.{after_end};
ghost use Rattle.server_sender.specs.Publishing.{Concludes, after_feedback, after_frame, begun_publishing, has_all, laid_each, sending_progress, wants_more};

use crate::feedback::Feedback;
use crate::read_frames::ReadFrames;
use archive_model::PolledFrame;
use frame_core::{Geometry, Publication, Refusal};
use publication_core::Sender;
use std::alloc::{AllocError, Global};
use std::marker::Model;

/// Why no more frames of a sending come.
#[derive(Clone, Copy, Debug, PartialEq, Eq)]
pub enum LastFrames {
    /// Its bound is reached.
    Bound,
    /// The recording is stopped, and all of it was read.
    Stopped,
    /// They can't be read.
    Refused(Refusal),
}

/// How a sending ended.
#[derive(Clone, Copy, Debug, PartialEq, Eq)]
pub enum SendOver {
    /// All of it is consumed, or it was stopped.
    Done,
    /// The receiver has not answered for 5 seconds.
    Gone,
    /// The next datagram is longer than half a term, which no receiver takes.
    TooLong,
    /// Frames can't be read.
    Refused(Refusal),
}

/// How far a sending is.
#[derive(Clone, Copy, Debug, PartialEq, Eq)]
pub struct SendProgress {
    /// Whether a receiver was heard.
    pub is_heard: bool,
    /// The sender position, in bytes of the stream.
    pub position: u64,
    /// The sender limit, in bytes of the stream.
    pub limit: u64,
    /// How far the receiver has consumed the stream, in bytes of it.
    pub consumed: u64,
    /// How many datagrams were repeated.
    pub repeats: u64,
}

/// A sending that is under way: its publication, when it began, why no more frames come, and how many datagrams were repeated.
#[derive(Drop)]
pub struct Publishing {
    pub(crate) sender: Sender,
    begun_at: u64,
    last: Option<LastFrames>,
    pub(crate) repeats: u64,
}

impl Model for Publishing {
    ghost use Rattle.server_sender.specs.Publishing.{PublishingView};

    ghost Value = { PublishingView };

    ghost view = { λ p. record {
      sending = p.sender;
      begun_at = p.begun_at;
      last = p.last;
      repeats = p.repeats;
    } };
}

impl Publishing {
    /// A publication begins at a position, in bytes of the stream, at a time in milliseconds. Does not allocate.
    pub fn new(
        alloc: Global,
        geometry: Geometry,
        publication: Publication,
        position: u64,
        now: u64,
    ) -> Publishing
        ensures { result ≡ begun_publishing geometry publication position now }
    {
        Publishing {
            sender: Sender::new(alloc, geometry, publication, position),
            begun_at: now,
            last: None,
            repeats: 0,
        }
    }

    /// When it began, in milliseconds.
    pub(crate) fn begun_at(&self) -> u64
        ensures { result ≡ self.now.begun_at }
    {
        self.begun_at
    }

    /// Lays frames that were read into the publication, in their order, and drops each: it waits to be sent. AllocError if there is
    /// no memory for one: it and those after it stay. Costs a copy of each.
    pub fn lay_all(&mut self, read: &mut ReadFrames) -> Result<(), AllocError>
        ensures laid { laid_each read.new self.new ≡ laid_each read.old self.old }
        ensures all { OnOk result (read.new ≡ []) }
    {
        while let Some(first) = read.first() {
            self.lay(first)?;
            read.drop_first();
        }
        Ok(())
    }

    /// Lays a frame where it begins: it waits to be sent. AllocError if there is no memory; then nothing changes.
    fn lay(&mut self, read: &PolledFrame) -> Result<(), AllocError>
        ensures laid { OnOk result (self.new ≡ after_frame read.now self.old) }
        ensures same { OnErr result (self.new ≡ self.old) }
    {
        let frame = read.frame.as_ref();
        self.sender.lay(read.position.unsigned_abs(), &frame)
    }

    /// Hears what a receiver answers, at a time in milliseconds. Costs a step for each datagram that is kept; does not allocate.
    pub fn hear(&mut self, now: u64, feedback: &Feedback)
        ensures { self.new ≡ after_feedback now feedback.now self.old }
    {
        match feedback {
            Feedback::Status(status) => self.sender.hear(now, status),
            Feedback::Repeat(nak) => self.sender.ask(now, nak),
        }
    }

    /// The stream ends: three heartbeats with the end-of-stream flag are due, if a receiver was heard, and nothing else. Does not
    /// allocate.
    pub fn stop(&mut self)
        ensures { self.new ≡ record self.old { sending = after_end self.old.sending } }
    {
        self.sender.end();
    }

    /// No more frames come, for this reason. Does not allocate.
    pub fn note_last(&mut self, last: LastFrames)
        ensures { self.new ≡ record self.old { last = Some last } }
    {
        self.last = Some(last);
    }

    /// Whether more frames are wanted: some may come, the stream does not end, and there is room for them. Does not allocate.
    pub fn wants_frames(&self) -> bool
        ensures { result ≡ wants_more self.now }
    {
        self.last.is_none() && self.sender.flow().ends_left.is_none() && self.sender.wants_frames()
    }

    /// How far it is. Does not allocate.
    pub fn progress(&self) -> SendProgress
        ensures { result ≡ sending_progress self.now }
    {
        let flow = self.sender.flow();
        SendProgress {
            is_heard: flow.heard_at.is_some(),
            position: flow.position,
            limit: flow.limit,
            consumed: flow.consumed,
            repeats: self.repeats,
        }
    }

    /// How it ends, if no more frames come, and all were consumed. If its bound is reached, the stream ends first. Does not
    /// allocate.
    pub(crate) fn conclude(&mut self) -> Option<SendOver>
        ensures { Concludes self.old result self.new }
    {
        if !self.has_all() {
            return None;
        }
        match self.last {
            Some(LastFrames::Bound) => {
                self.sender.end();
                None
            }
            Some(LastFrames::Stopped) => Some(SendOver::Done),
            Some(LastFrames::Refused(refusal)) => Some(SendOver::Refused(refusal)),
            None => None,
        }
    }

    /// Whether all that was laid is consumed, and the stream does not end yet.
    fn has_all(&self) -> bool
        ensures { result ≡ has_all self.now }
    {
        self.sender.flow().ends_left.is_none()
            && self.sender.is_finished(self.sender.lay_position())
    }
}
