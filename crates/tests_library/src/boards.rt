//! Boards of positions: what was raised is seen, in another thread too; requests for memory, counted and refused.

ghost use Rattle.std.specs.Prelude.{◌≡◌, ◌<◌};

use position_board::{Board, Reader, Writer};
use std::alloc::Global;
use std::test::Fail;
use std::thread;

/// What a body that never loads a word would not see.
#[test]
fn a_raised_position_is_seen(rt: HostRuntime) -> Result<(), Fail> {
    let (board, mut writers, mut readers) = Board::new(rt.alloc(), &[0, 32], 1)?;
    let reader = &mut readers[0];
    board.raise(&mut writers[1], 64);
    assert!(rt; board.look(reader, 1) == 64 && board.look(reader, 0) == 0);
    board.raise(&mut writers[1], 128);
    assert!(rt; board.look(reader, 1) == 128);
    assert!(rt; board.meet(&mut writers[0], reader) == 0);
    Ok(())
}

/// The position that a writer raises its slot to in the end, in steps of 64.
const LAST: i64 = 64_000;

/// How often a reader looks for it at most.
const MOST_LOOKS: u32 = 1_000_000;

fn raise_to_the_last(board: &Board, mut writer: Writer) -> Writer
    requires { writer.table ≡ board.now }
    ensures { result.table ≡ board.now }
{
    for _ in 0..1_000 {
        let position = writer.last().saturating_add(64);
        board.raise(&mut writer, position);
    }
    writer
}

/// Whether the last position was seen.
fn look_for_the_last(board: &Board, mut reader: Reader) -> (Reader, bool)
    requires board { reader.table ≡ board.now }
    requires slot { 0 < board.now.words }
    ensures { result.0.table ≡ board.now }
{
    for _ in 0..MOST_LOOKS {
        if board.look(&mut reader, 0) == LAST {
            return (reader, true);
        }
        thread::yield_now();
    }
    (reader, false)
}

/// A position that one thread raises is seen by a reader in another thread.
#[test]
fn a_position_is_seen_in_another_thread(rt: HostRuntime) -> Result<(), Fail> {
    let (board, mut writers, mut readers) = Board::new(rt.alloc(), &[0], 1)?;
    let writer = writers.pop().ok_or("a writer")?;
    let reader = readers.pop().ok_or("a reader")?;
    let board = &board;
    let (mut writer, (mut reader, is_seen)) = thread::join(
        &rt,
        move || raise_to_the_last(board, writer),
        move || look_for_the_last(board, reader),
    );
    assert!(rt; is_seen && writer.last() == LAST);
    assert!(rt; board.meet(&mut writer, &mut reader) == LAST);
    Ok(())
}

/// Whether each of many raised positions is looked at and met.
fn is_followed(board: &Board, mut writer: Writer, mut reader: Reader) -> bool
    requires writer { writer.table ≡ board.now }
    requires reader { reader.table ≡ board.now }
    requires slot { 0 < board.now.words }
{
    for _ in 0..1_000 {
        let position = writer.last().saturating_add(64);
        board.raise(&mut writer, position);
        let is_seen = board.look(&mut reader, 0) == position;
        if !is_seen || board.meet(&mut writer, &mut reader) != position {
            return false;
        }
    }
    true
}

/// A raise, a look and a meeting take no memory: trials/refused_memory.py counts the requests, which are those of the board.
#[test]
fn counted_memory_of_a_board(rt: HostRuntime) -> Result<(), Fail> {
    let (board, mut writers, mut readers) = Board::new(rt.alloc(), &[0], 1)?;
    let writer = writers.pop().ok_or("a writer")?;
    let reader = readers.pop().ok_or("a reader")?;
    assert!(rt; is_followed(&board, writer, reader));
    Ok(())
}

/// Whether a board of these starts and so many readers is made.
fn is_made(alloc: Global, starts: &[i64], readers: usize) -> bool {
    Board::new(alloc, starts, readers).is_ok()
}

/// If memory is refused once, a board may be made again. trials/refused_memory.py refuses each of its requests in turn.
#[test]
fn refused_memory_makes_no_board(rt: HostRuntime) {
    let alloc = rt.alloc();
    assert!(rt; is_made(alloc, &[0, 0], 2) || is_made(alloc, &[0, 0], 2));
}
