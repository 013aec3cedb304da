//! What the plain book makes of the calls that were accepted.

use archive_model::{Command, Reply};
use control_core::{Event, Request};
use control_lines::print_reply;
use frame_core::limits::LAST_NUMBER;
use frame_core::{Block, Items, Refusal};
use plain_book::{Book, Recording};
use std::alloc::Global;

/// A recorder session: its recording, and the blocks that it wrote and did not settle.
#[derive(Drop)]
struct Session {
    recording: i64,
    written: Items<Block>,
}

/// The book, and the recorder sessions by number.
#[derive(Drop)]
pub(crate) struct Story {
    book: Book,
    sessions: Vec<Session>,
}

impl Story {
    /// Nothing yet, with room for so many entries.
    pub(crate) fn new(alloc: Global, limit: u32) -> Story {
        Story {
            book: Book::new(alloc, limit),
            sessions: Vec::new(alloc),
        }
    }

    /// Notes an accepted call.
    pub(crate) fn note(&mut self, alloc: Global, event: Event) -> Result<(), Refusal> {
        match event {
            Event::Write { session, block } => self.write(session, block),
            Event::Settle { session } => self.settle(alloc, session),
            Event::SettleAll { sessions } => self.settle_all(alloc, sessions.as_slice()),
            Event::Ask(request) => self.ask(alloc, request),
            _ => Ok(()),
        }
    }

    fn session(&mut self, number: i64) -> Option<&mut Session> {
        let index = usize::try_from(number).ok()?;
        self.sessions.as_mut_slice().get_mut(index)
    }

    fn write(&mut self, number: i64, block: Block) -> Result<(), Refusal> {
        match self.session(number) {
            Some(session) => Ok(session.written.push(block)?),
            None => Err(Refusal::StaleSession),
        }
    }

    /// The recording of a session, and the blocks that it wrote, which it has no more.
    fn taken(&mut self, alloc: Global, number: i64) -> Option<(i64, Items<Block>)> {
        let session = self.session(number)?;
        let blocks = std::mem::replace(&mut session.written, Items::new(alloc));
        Some((session.recording, blocks))
    }

    fn settle(&mut self, alloc: Global, number: i64) -> Result<(), Refusal> {
        match self.taken(alloc, number) {
            Some((recording, blocks)) => self.append(recording, blocks),
            None => Err(Refusal::StaleSession),
        }
    }

    /// Each of these sessions settles. A number that no open session has refuses nothing.
    fn settle_all(&mut self, alloc: Global, sessions: &[i64]) -> Result<(), Refusal> {
        for session in sessions {
            if let Some((recording, blocks)) = self.taken(alloc, *session) {
                self.append(recording, blocks)?;
            }
        }
        Ok(())
    }

    fn append(&mut self, recording: i64, blocks: Items<Block>) -> Result<(), Refusal> {
        if blocks.is_empty() {
            return Ok(());
        }
        self.obey(Command::Append { recording, blocks }).and(Ok(()))
    }

    /// Obeys a command.
    fn obey(&mut self, command: Command) -> Result<Reply, Refusal> {
        self.book.apply(&command)
    }

    /// Obeys a request, where it is a command.
    fn ask(&mut self, alloc: Global, request: Request) -> Result<(), Refusal> {
        let extended = match &request {
            Request::Extend(fields) => fields.recording,
            _ => -1,
        };
        let stopped = match &request {
            Request::Stop { recording, .. } => *recording,
            _ => -1,
        };
        let Some(command) = command_of(request) else {
            return Ok(());
        };
        match self.obey(command) {
            Ok(Reply::Stopped { .. }) => {
                self.end(alloc, stopped);
                Ok(())
            }
            Ok(Reply::Started { recording, .. }) => self.begin(alloc, recording),
            Ok(Reply::Extended { .. }) => self.begin(alloc, extended),
            Ok(_) => Ok(()),
            Err(refusal) => Err(refusal),
        }
    }

    /// The sessions of a recording have ended: what they wrote and did not settle is gone.
    fn end(&mut self, alloc: Global, recording: i64) {
        for session in self.sessions.as_mut_slice() {
            if session.recording == recording {
                session.written = Items::new(alloc);
            }
        }
    }

    fn begin(&mut self, alloc: Global, recording: i64) -> Result<(), Refusal> {
        Ok(
            self.sessions.push(Session {
                recording,
                written: Items::new(alloc),
            })?,
        )
    }

    /// The recordings, and behind them the frames of each, as `text_of` tells them of an archive.
    pub(crate) fn text(&self, alloc: Global) -> Result<Vec<u8>, Refusal> {
        let mut text = listed(alloc, self.book.recordings())?;
        for recording in self.book.recordings() {
            add_frames(alloc, recording, &mut text)?;
        }
        Ok(text)
    }
}

/// The command that a request is.
fn command_of(request: Request) -> Option<Command> {
    match request {
        Request::Start(fields) => Some(Command::Start(fields)),
        Request::Extend(fields) => Some(Command::Extend(fields)),
        Request::Stop {
            recording,
            timestamp,
        } => Some(Command::Stop {
            recording,
            timestamp,
        }),
        Request::Truncate {
            recording,
            position,
        } => Some(Command::Truncate {
            recording,
            position,
        }),
        Request::PurgeSegments {
            recording,
            position,
        } => Some(Command::PurgeSegments {
            recording,
            position,
        }),
        Request::PurgeRecording { recording } => Some(Command::PurgeRecording { recording }),
        _ => None,
    }
}

fn listed(alloc: Global, recordings: &[Recording]) -> Result<Vec<u8>, Refusal> {
    let mut descriptors = Items::new(alloc);
    for recording in recordings {
        descriptors.push(recording.descriptor().copy(alloc)?)?;
    }
    print_reply(alloc, &Reply::Recordings(descriptors))
}

fn add_frames(alloc: Global, recording: &Recording, text: &mut Vec<u8>) -> Result<(), Refusal> {
    let mut frames = frames_of(alloc, recording)?;
    Ok(text.append(&mut frames)?)
}

fn frames_of(alloc: Global, recording: &Recording) -> Result<Vec<u8>, Refusal> {
    let start = recording.descriptor().start_position;
    let frames = recording.poll(alloc, &start, &LAST_NUMBER, 4_096)?;
    let next = if recording.is_active() {
        Some(recording.recorded_position())
    } else {
        None
    };
    let reply = Reply::Polled { frames, next };
    print_reply(alloc, &reply)
}
