//! The plain book next to an archive: what it makes of the same events, and both as text.

use archive_model::{Command, Descriptor, Reply};
use control_core::{Event, Request};
use control_lines::print_reply;
use frame_core::limits::LAST_NUMBER;
use frame_core::{Block, Items, Refusal};
use plain_book::{Book, Recording};
use std::alloc::{AllocError, Global};

/// A recorder session: its recording, and the blocks that it wrote and did not settle.
#[derive(Drop)]
pub struct Session {
    /// The recording.
    pub recording: i64,
    /// What it wrote.
    pub written: Items<Block>,
    /// Where the last block ends, if there is one.
    pub end: i64,
}

/// The book of the commands that were accepted, and the recorder sessions by number.
#[derive(Drop)]
pub struct Story {
    /// The book.
    pub book: Book,
    /// The sessions.
    pub sessions: Vec<Session>,
}

/// How many entries the history takes.
pub const LIMIT: u32 = 1_000;

/// The command that an accepted request is, where it is one.
fn command_of(request: Request) -> Option<Command> {
    match request {
        Request::Start(fields) => Some(Command::Start(fields)),
        Request::Stop {
            recording,
            timestamp,
        } => Some(Command::Stop {
            recording,
            timestamp,
        }),
        Request::Extend(fields) => Some(Command::Extend(fields)),
        Request::Truncate {
            recording,
            position,
        } => Some(Command::Truncate {
            recording,
            position,
        }),
        Request::PurgeSegments {
            recording,
            position,
        } => Some(Command::PurgeSegments {
            recording,
            position,
        }),
        Request::PurgeRecording { recording } => Some(Command::PurgeRecording { recording }),
        _ => None,
    }
}

impl Story {
    /// Nothing yet.
    pub fn new(alloc: Global) -> Story {
        Story {
            book: Book::new(alloc, LIMIT),
            sessions: Vec::new(alloc),
        }
    }

    /// The session of a number.
    fn session(&self, number: i64) -> Option<&Session> {
        let index = usize::try_from(number).ok()?;
        self.sessions.as_slice().get(index)
    }

    /// The recording that a session writes, 0 where there is no session.
    pub fn recording_of(&self, number: i64) -> i64 {
        match self.session(number) {
            Some(session) => session.recording,
            None => 0,
        }
    }

    /// Where a recording ends, 0 where there is none.
    pub fn end_of(&self, recording: i64) -> i64 {
        match self.book.recording(&recording) {
            Some(found) => found.recorded_position(),
            None => 0,
        }
    }

    /// Where a session's next block begins.
    pub fn next_of(&self, number: i64) -> i64 {
        match self.session(number) {
            Some(session) if !session.written.is_empty() => session.end,
            _ => self.end_of(self.recording_of(number)),
        }
    }

    /// The command that an accepted event is, where it is one: a settle records what its session wrote.
    pub fn command(&mut self, alloc: Global, event: Event) -> Option<Command> {
        match event {
            Event::Ask(request) => command_of(request),
            Event::Settle { session } => self.settled(alloc, session),
            _ => None,
        }
    }

    /// The command that records what a session wrote, which is no longer its own.
    fn settled(&mut self, alloc: Global, number: i64) -> Option<Command> {
        let index = usize::try_from(number).ok()?;
        let session = self.sessions.as_mut_slice().get_mut(index)?;
        let blocks = std::mem::replace(&mut session.written, Items::new(alloc));
        if blocks.is_empty() {
            return None;
        }
        Some(Command::Append {
            recording: session.recording,
            blocks,
        })
    }

    /// Notes an accepted event; a block's end is the position that it was answered by.
    pub fn note(&mut self, alloc: Global, event: Event, end: i64) -> Result<(), Refusal> {
        match event {
            Event::Write { session, block } => self.write(session, block, end),
            event => match self.command(alloc, event) {
                Some(command) => self.accept(alloc, &command),
                None => Ok(()),
            },
        }
    }

    /// Notes that the archive was closed and opened again: its recordings have stopped, and its sessions are gone.
    pub fn restart(&mut self, alloc: Global) -> Result<(), Refusal> {
        apply(&mut self.book, &Command::Restart)?;
        self.sessions = Vec::new(alloc);
        Ok(())
    }

    fn write(&mut self, number: i64, block: Block, end: i64) -> Result<(), Refusal> {
        let Ok(index) = usize::try_from(number) else {
            return Err(Refusal::StaleSession);
        };
        if let Some(session) = self.sessions.as_mut_slice().get_mut(index) {
            session.written.push(block)?;
            session.end = end;
        }
        Ok(())
    }

    fn accept(&mut self, alloc: Global, command: &Command) -> Result<(), Refusal> {
        let next = self.book.next_recording();
        apply(&mut self.book, command)?;
        match command {
            Command::Start(_) => self.begin(alloc, next),
            Command::Extend(fields) => self.begin(alloc, fields.recording),
            _ => Ok(()),
        }
    }

    fn begin(&mut self, alloc: Global, recording: i64) -> Result<(), Refusal> {
        self.sessions.push(Session {
            recording,
            written: Items::new(alloc),
            end: 0,
        })?;
        Ok(())
    }
}

/// Makes a command of a book.
fn apply(book: &mut Book, command: &Command) -> Result<(), Refusal> {
    match book.apply(command) {
        Ok(_) => Ok(()),
        Err(refusal) => Err(refusal),
    }
}

/// A recording's descriptor as soon as it has stopped.
fn stopped(alloc: Global, recording: &Recording) -> Result<Descriptor, AllocError> {
    let mut descriptor = recording.descriptor().copy(alloc)?;
    descriptor.stop_position = recording.recorded_position();
    Ok(descriptor)
}

fn listed(alloc: Global, book: &Book) -> Result<Vec<u8>, Refusal> {
    let mut descriptors = Items::new(alloc);
    for recording in book.recordings() {
        descriptors.push(stopped(alloc, recording)?)?;
    }
    print_reply(alloc, &Reply::Recordings(descriptors))
}

/// The frames of a whole recording of the book, and then that a replay of it is done.
pub fn polled(alloc: Global, recording: &Recording) -> Result<Vec<u8>, Refusal> {
    let start = recording.descriptor().start_position;
    let frames = recording.poll(alloc, &start, &LAST_NUMBER, 4_096)?;
    print_reply(alloc, &Reply::Polled { frames, next: None })
}

/// The descriptors of a book once each recording has stopped, and then the frames of each.
pub fn text_of_book(alloc: Global, book: &Book) -> Result<Vec<u8>, Refusal> {
    let mut text = listed(alloc, book)?;
    for recording in book.recordings() {
        let mut frames = polled(alloc, recording)?;
        text.append(&mut frames)?;
    }
    Ok(text)
}

/// The text of the book after perhaps one more command and a restart.
pub fn text_after(
    alloc: Global,
    book: &mut Book,
    doubt: Option<&Command>,
) -> Result<Vec<u8>, Refusal> {
    if let Some(command) = doubt {
        apply(book, command)?;
    }
    apply(book, &Command::Restart)?;
    text_of_book(alloc, book)
}
