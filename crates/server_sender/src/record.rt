//! What is known of a sending. docs/CONTROL.md, "Sendings".

ghost use Rattle.std.specs.Prelude.{◌≡◌};
ghost use Rattle.server_sender.specs.Table.{begun_record, ended_as, has_send_number, holds_endpoint, is_live_send, is_send_of, is_over, noted_progress, state_while, with_progress};

use crate::endpoint::Endpoint;
use crate::publishing::SendProgress;
use frame_core::Publication;

/// How far a sending is.
#[derive(Clone, Copy, Debug, PartialEq, Eq)]
pub enum SendState {
    /// No receiver has answered yet.
    Waiting,
    /// A receiver has answered.
    Sending,
    /// All of it is consumed, and no more comes.
    Done,
    /// The receiver has not answered for 5 seconds.
    Gone,
    /// No more can be sent, or its replay was closed.
    Refused,
}

impl SendState {
    /// Whether it is over.
    pub fn is_over(self) -> bool
        ensures { result ≡ is_over self }
    {
        match self {
            SendState::Waiting | SendState::Sending => false,
            SendState::Done | SendState::Gone | SendState::Refused => true,
        }
    }
}

/// What is to be sent, and where to.
#[derive(Clone, Copy, Debug)]
pub struct SendRequest {
    /// The recording's id.
    pub recording: i64,
    /// Where datagrams go to.
    pub endpoint: Endpoint,
    /// The session id and the stream id that they have.
    pub publication: Publication,
    /// Where it begins, in bytes of the stream.
    pub position: u64,
    /// Where it ends, in bytes of the stream, or -1.
    pub bound: i64,
    /// Which of its caller's places it has.
    pub place: usize,
}

/// A sending.
#[derive(Clone, Copy, Debug)]
pub struct SendRecord {
    /// Its number, which no other one ever has.
    pub number: u64,
    /// The recording's id.
    pub recording: i64,
    /// Where its datagrams go to.
    pub endpoint: Endpoint,
    /// The session id and the stream id that they have.
    pub publication: Publication,
    /// How far it is.
    pub state: SendState,
    /// The sender position, in bytes of the stream.
    pub position: u64,
    /// The sender limit, in bytes of the stream.
    pub limit: u64,
    /// How far the receiver has consumed the stream, in bytes of it.
    pub consumed: u64,
    /// Where it ends, in bytes of the stream, or -1.
    pub bound: i64,
    /// How many datagrams were repeated.
    pub repeats: u64,
    /// Which of its caller's places it has, while it is not over.
    pub place: usize,
}

impl SendRecord {
    /// That of a sending that begins.
    pub(crate) fn begun(request: &SendRequest, number: u64) -> SendRecord
        ensures { result ≡ begun_record request.now number }
    {
        SendRecord {
            number,
            recording: request.recording,
            endpoint: request.endpoint,
            publication: request.publication,
            state: SendState::Waiting,
            position: request.position,
            limit: request.position,
            consumed: request.position,
            bound: request.bound,
            repeats: 0,
            place: request.place,
        }
    }

    /// Whether it is not over. Does not allocate.
    pub fn is_live(&self) -> bool
        ensures { result ≡ is_live_send self.now }
    {
        !self.state.is_over()
    }

    /// Whether it has a number.
    pub(crate) fn has_send_number(&self, number: u64) -> bool
        ensures { result ≡ has_send_number number self.now }
    {
        self.number == number
    }

    /// Whether its datagrams are of a publication, and go to an endpoint, and it is not over.
    pub(crate) fn holds_endpoint(&self, endpoint: &Endpoint, publication: &Publication) -> bool
        ensures { result ≡ holds_endpoint endpoint.now publication.now self.now }
    {
        self.is_live()
            && self.endpoint.address == endpoint.address
            && self.endpoint.port == endpoint.port
            && self.is_send_of(publication)
    }

    /// Whether its datagrams are of a publication.
    pub(crate) fn is_send_of(&self, publication: &Publication) -> bool
        ensures { result ≡ is_send_of publication.now self.now }
    {
        self.publication.session_id == publication.session_id
            && self.publication.stream_id == publication.stream_id
    }

    /// Notes how far the sending of a number is, if this is it, and is not over.
    pub(crate) fn note(&mut self, number: u64, progress: &SendProgress)
        ensures { self.new ≡ noted_progress number progress.now self.old }
    {
        if self.has_send_number(number) && self.is_live() {
            self.set_progress(progress);
        }
    }

    /// Notes how far it is.
    fn set_progress(&mut self, progress: &SendProgress)
        ensures { self.new ≡ with_progress progress.now self.old }
    {
        self.state = state_while(progress.is_heard);
        self.position = progress.position;
        self.limit = progress.limit;
        self.consumed = progress.consumed;
        self.repeats = progress.repeats;
    }

    /// Notes how the sending of a number ended, if this is it, and is not over.
    pub(crate) fn end(&mut self, number: u64, state: SendState)
        ensures { self.new ≡ ended_as number state self.old }
    {
        if self.has_send_number(number) && self.is_live() {
            self.state = state;
        }
    }
}

/// How far a sending is that is not over, by whether a receiver was heard.
fn state_while(is_heard: bool) -> SendState
    ensures { result ≡ state_while is_heard }
{
    if is_heard {
        SendState::Sending
    } else {
        SendState::Waiting
    }
}
