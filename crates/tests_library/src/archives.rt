//! The plain book of an archive, and the register: the worked scenarios at the calls of plain_book and archive_model.

use crate::catalogues::register_of_bank;
use crate::vectors::{HELLO_AT_0, HELLO_AT_64, HELLO_AT_128};
use archive_model::{Channel, Command, Descriptor, Register, Reply, SourceIdentity, StartFields};
use frame_core::limits::LAST_NUMBER;
use frame_core::{Block, Geometry, Items, Refusal, block_of};
use plain_book::{Book, Recording};
use std::alloc::Global;
use std::process::Abort;
use std::test::Fail;

const TERMS: Geometry = Geometry {
    initial_term_id: 42,
    term_length: 65_536,
    mtu: 1_408,
};

/// The fields of the line `start 1001 7 42 65536 1408 131072 0 1000 c`, from another start position.
fn fields(alloc: Global, start_position: i64) -> Result<StartFields, Refusal> {
    Ok(StartFields {
        stream_id: 1001,
        session_id: 7,
        initial_term_id: 42,
        term_length: 65_536,
        mtu: 1_408,
        segment_length: 131_072,
        start_position,
        timestamp: 1_000,
        channel: Channel::new(String::from_str(alloc, "c")?),
        source_identity: SourceIdentity::none(alloc),
    })
}

/// Adds the block of a vector's frame.
fn add_block(alloc: Global, blocks: &mut Items<Block>, bytes: &[u8]) -> Result<(), Refusal> {
    Ok(blocks.push(block_of(alloc, &TERMS, bytes)?)?)
}

/// Adds the blocks of `hello` at 0, 64 and 128.
fn add_hellos(alloc: Global, blocks: &mut Items<Block>) -> Result<(), Refusal> {
    add_block(alloc, blocks, HELLO_AT_0)?;
    add_block(alloc, blocks, HELLO_AT_64)?;
    add_block(alloc, blocks, HELLO_AT_128)
}

/// These blocks of the first recording.
fn append_hellos(alloc: Global) -> Result<Command, Refusal> {
    let mut blocks = Items::new(alloc);
    add_hellos(alloc, &mut blocks)?;
    Ok(Command::Append {
        recording: 0,
        blocks,
    })
}

// How an answer is told: a reply by its name and number, a refusal by itself.
type Told = Result<(&'static str, i64), Refusal>;

fn told(answer: &Result<Reply, Refusal>) -> Told {
    match answer {
        Ok(Reply::Started { recording, .. }) => Ok(("started", *recording)),
        Ok(Reply::Settled { position }) => Ok(("settled", *position)),
        Ok(Reply::Stopped { position }) => Ok(("stopped", *position)),
        Ok(_) => Ok(("another reply", -1)),
        Err(refusal) => Err(*refusal),
    }
}

/// What a book answers.
fn obeyed(book: &mut Book, command: &Command) -> Told {
    told(&book.apply(command))
}

fn started(alloc: Global, book: &mut Book, position: i64) -> Told {
    let command = Command::Start(fields(alloc, position)?);
    obeyed(book, &command)
}

fn appended_hellos(alloc: Global, book: &mut Book) -> Told {
    let command = append_hellos(alloc)?;
    obeyed(book, &command)
}

/// Stops the first recording.
const STOP: Command = Command::Stop {
    recording: 0,
    timestamp: 2_000,
};

/// A book with one recording of `hello` at 0, 64 and 128.
fn three_hellos(alloc: Global) -> Result<Book, Refusal> {
    let mut book = Book::new(alloc, 3);
    fill(alloc, &mut book).and(Ok(book))
}

fn fill(alloc: Global, book: &mut Book) -> Result<(), Refusal> {
    started(alloc, book, 0)?;
    appended_hellos(alloc, book)?;
    Ok(())
}

fn has_fields(descriptor: &Descriptor) -> bool {
    descriptor.geometry().mtu == 1_408 && descriptor.publication().session_id == 7
}

/// The copy of an active recording's descriptor has what `start` gave it.
fn is_copied(alloc: Global, recording: &Recording) -> Result<bool, Refusal> {
    let copy = recording.descriptor().copy(alloc)?;
    Ok(copy.stop_position == -1 && copy.channel.as_str() == "c" && has_fields(&copy))
}

fn polled_count(alloc: Global, recording: &Recording) -> Result<usize, Refusal> {
    Ok(recording.poll(alloc, &64, &129, 10)?.len())
}

fn replayed_count(alloc: Global, book: &Book) -> Result<usize, Refusal> {
    Ok(book.replay(alloc, &0, &0, &LAST_NUMBER)?.len())
}

/// It is active and as `start` gave it, and two of its frames are polled.
fn is_recorded(alloc: Global, recording: &Recording) -> Result<bool, Refusal> {
    Ok(
        is_copied(alloc, recording)?
            && recording.is_active()
            && recording.is_boundary(&64)
            && polled_count(alloc, recording)? == 2,
    )
}

/// What the recording of `three_hellos` is, and what it gives.
fn check_active(rt: &impl Abort, alloc: Global, book: &Book) -> Result<(), Fail> {
    let recording = book.recording(&0).ok_or("no recording")?;
    assert!(rt; is_recorded(alloc, recording)?);
    assert!(rt; replayed_count(alloc, book)? == 3);
    Ok(())
}

/// It has one recording and no room for a further entry.
fn is_full(book: &Book) -> bool {
    !book.has_room() && book.recordings().len() == 1 && book.next_recording() == 1
}

/// It gives that, and is stopped then.
fn check_stopped(rt: &impl Abort, alloc: Global, book: &mut Book) -> Result<(), Fail> {
    check_active(rt, alloc, book)?;
    assert!(rt; obeyed(book, &STOP) == Ok(("stopped", 192)) && is_full(book));
    Ok(())
}

/// The plain book records three frames, replays them, and stops the recording at its end.
#[test]
fn first_recording_and_replay(rt: HostRuntime) -> Result<(), Fail> {
    let mut book = three_hellos(rt.alloc())?;
    check_stopped(&rt, rt.alloc(), &mut book)
}

/// Starts a recording, again where it was refused, which has changed nothing.
fn start_again(rt: &impl Abort, alloc: Global, book: &mut Book) -> Result<(), Refusal> {
    if let Err(refusal) = started(alloc, book, 0) {
        assert!(rt; refusal == Refusal::NoMemory && book.next_recording() == 0);
        started(alloc, book, 0)?;
    }
    Ok(())
}

/// Appends the three blocks, again where that was refused, which has changed nothing.
fn append_again(rt: &impl Abort, alloc: Global, book: &mut Book) -> Result<(), Refusal> {
    if let Err(refusal) = appended_hellos(alloc, book) {
        assert!(rt; refusal == Refusal::NoMemory && recorded(book) == Some(0));
        appended_hellos(alloc, book)?;
    }
    Ok(())
}

fn replayed_again(alloc: Global, book: &Book) -> Result<usize, Refusal> {
    match replayed_count(alloc, book) {
        Err(Refusal::NoMemory) => replayed_count(alloc, book),
        count => count,
    }
}

fn recorded(book: &Book) -> Option<i64> {
    Some(book.recording(&0)?.recorded_position())
}

/// A start, three blocks and a replay, each made again where it was refused.
fn check_again(rt: &impl Abort, alloc: Global, book: &mut Book) -> Result<(), Fail> {
    start_again(rt, alloc, book)?;
    append_again(rt, alloc, book)?;
    assert!(rt; recorded(book) == Some(192));
    assert!(rt; replayed_again(alloc, book)? == 3);
    Ok(())
}

/// A refused request for memory is answered NoMemory and changes nothing, and the call may be made again.
/// trials/refused_memory.py refuses each of its requests in turn.
#[test]
fn refused_memory_changes_nothing(rt: HostRuntime) -> Result<(), Fail> {
    let mut book = Book::new(rt.alloc(), 2);
    check_again(&rt, rt.alloc(), &mut book)
}

/// How many frames are polled from the last one on.
fn late_count(alloc: Global, recording: &Recording) -> Result<usize, Refusal> {
    Ok(recording.poll(alloc, &128, &LAST_NUMBER, 10)?.len())
}

/// Polls the last frame of `three_hellos` a hundred times.
fn poll_late(rt: &impl Abort, alloc: Global, book: &Book) -> Result<(), Fail> {
    let recording = book.recording(&0).ok_or("no recording")?;
    for _ in 0..100 {
        assert!(rt; late_count(alloc, recording)? == 1);
    }
    Ok(())
}

/// A poll copies the frames that it gives and no other. trials/refused_memory.py counts its requests for memory: a list,
/// and the bytes of each frame given.
#[test]
fn counted_memory_of_a_late_poll(rt: HostRuntime) -> Result<(), Fail> {
    let book = three_hellos(rt.alloc())?;
    poll_late(&rt, rt.alloc(), &book)
}

/// Whether a register has the recording of the bank, with its channel, and its next id.
fn has_one(register: &Register) -> bool {
    let Some(found) = register.recording(&0) else {
        return false;
    };
    found.recorded == 64
        && found.descriptor.channel.as_str() == "c"
        && register.recordings().len() == 1
        && register.next_recording() == 1
}

fn has_copy(alloc: Global, register: &Register) -> Result<bool, Refusal> {
    Ok(has_one(&register.copy(alloc)?))
}

/// A copy has the same recordings, and gives the same next id.
#[test]
fn a_register_is_copied(rt: HostRuntime) -> Result<(), Fail> {
    let register = register_of_bank(rt.alloc())?;
    assert!(rt; has_copy(rt.alloc(), &register)?);
    Ok(())
}
