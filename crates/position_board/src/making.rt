//! A new board, with a writer for each slot and its readers.

ghost use Rattle.std.specs.Prelude.{◌≡◌, ℕ, pos, ◌^◌, ◌<◌, ◌≤ℤ◌, ◌↔◌, [], All, IfErr, IfOk, OnOk, IsTrue, length, map, slice_index, vec_len};
ghost use Rattle.position_board.specs.Positions.{IsAccepted, MayRefuse, new_readers, new_writers};
ghost use Rattle.position_board.specs.Rule.{IsMakerSeat, making, starts_of};

use crate::board::{Board, Reader, Words, Writer};
use crate::rule::{MakesReader, MakesWriter, View};
use atomic_table::Seat;
use frame_core::Refusal;
use std::alloc::{AllocError, Global};

/// Slots that a board has at most.
pub const MAX_SLOTS: usize = 64;
/// Readers that a board has at most.
pub const MAX_READERS: usize = 64;

impl Board {
    /// A board of as many slots as there are starts, in bytes of a stream, with a writer for each slot, in their order, and
    /// so many readers, which have seen the starts. Refuses by `BadParameter` exactly where there are not 1 to 64 starts,
    /// more than 64 readers, or a start is below 0; by `NoMemory` where a request for memory is refused. Costs a word for
    /// each slot, and a step for each slot and reader. docs/ARCHITECTURE.md, "The board".
    pub fn new(
        alloc: Global,
        starts: &[i64],
        readers: usize,
    ) -> Result<(Board, Vec<Writer>, Vec<Reader>), Refusal>
        ensures accepted { OnOk result (IsAccepted starts.now readers) }
        ensures slots { IfOk result (λ b. b.0.words ≡ length starts.now) }
        ensures writers { IfOk result (λ b. b.1.items ≡ new_writers b.0 0 starts.now) }
        ensures readers { IfOk result (λ b. b.2.items ≡ new_readers b.0 readers starts.now) }
        ensures refused { IfErr result (MayRefuse starts.now readers) }
    {
        if !is_accepted(starts, readers) {
            return Err(Refusal::BadParameter);
        }
        let words = words_of(alloc, starts)?;
        Ok(made(alloc, &words, readers)?)
    }
}

/// Whether a board may have these starts and so many readers.
fn is_accepted(starts: &[i64], readers: usize) -> bool
    ensures { IsTrue result ↔ IsAccepted starts.now readers }
{
    !starts.is_empty()
        && starts.len() <= MAX_SLOTS
        && readers <= MAX_READERS
        && starts.iter().all(|start| *start >= 0)
}

/// The starts as words.
fn words_of(alloc: Global, starts: &[i64]) -> Result<Vec<u64>, AllocError>
    requires { All (λ start. pos 0 ≤ℤ start) starts.now }
    ensures same { IfOk result (λ words. map pos words.items ≡ starts.now) }
    ensures small { IfOk result (λ words. All (λ word. word < 2 ^ 63) words.items) }
{
    let mut words = Vec::with_capacity(alloc, starts.len())?;
    for start in starts {
        words.push(*start as u64)?;
    }
    Ok(words)
}

/// A board over these words, with its writers and readers.
fn made(
    alloc: Global,
    words: &Vec<u64>,
    readers: usize,
) -> Result<(Board, Vec<Writer>, Vec<Reader>), AllocError>
    requires some { 0 < vec_len words.now }
    requires small { All (λ word. word < 2 ^ 63) words.now.items }
    ensures slots { IfOk result (λ b. b.0.words ≡ vec_len words.now) }
    ensures writers { IfOk result (λ b. b.1.items ≡ new_writers b.0 0 (map pos words.now.items)) }
    ensures readers { IfOk result (λ b. b.2.items ≡ new_readers b.0 readers (map pos words.now.items)) }
{
    let (table, mut seat) = Words::of_words(alloc, words.as_slice(), words)?;
    let writers = writers_of(alloc, &table, &mut seat, words.as_slice())?;
    let made = readers_of(alloc, &table, &mut seat, readers)?;
    Ok((Board { table }, writers, made))
}

/// The writers of all slots, in their order.
fn writers_of(
    alloc: Global,
    table: &Words,
    seat: &mut Seat<(), View>,
    words: &[u64],
) -> Result<Vec<Writer>, AllocError>
    requires board { seat.old.table_id ≡ table.now.shared.table_id }
    requires wide { table.now.shared.table_id.words ≡ length words.now }
    requires seat { seat.old.me ≡ (making 0 (map pos words.now), []) }
    requires small { All (λ word. word < 2 ^ 63) words.now }
    ensures board { seat.new.table_id ≡ seat.old.table_id }
    ensures seat { OnOk result (seat.new.me ≡ (making (length words.now) (map pos words.now), [])) }
    ensures writers { IfOk result (λ v. v.items ≡ new_writers table.now.shared.table_id 0 (map pos words.now)) }
{
    let mut writers = Vec::with_capacity(alloc, words.len())?;
    for slot in 0..words.len() {
        let last = words[slot];
        let own = table.shared.split_seat::<MakesWriter>(seat);
        writers.push(Writer {
            slot,
            last,
            seat: own,
        })?;
    }
    Ok(writers)
}

/// So many readers, which have seen the starts.
fn readers_of(
    alloc: Global,
    table: &Words,
    seat: &mut Seat<(), View>,
    count: usize,
) -> Result<Vec<Reader>, AllocError>
    requires board { seat.old.table_id ≡ table.now.shared.table_id }
    requires some { 0 < table.now.shared.table_id.words }
    requires seat { IsMakerSeat table.now.shared.table_id seat.old.me }
    ensures { IfOk result (λ v. v.items ≡ new_readers table.now.shared.table_id count (starts_of seat.old.me.0)) }
{
    let mut readers = Vec::with_capacity(alloc, count)?;
    for _ in 0..count {
        let own = table.shared.split_seat::<MakesReader>(seat);
        readers.push(Reader { seat: own })?;
    }
    Ok(readers)
}
