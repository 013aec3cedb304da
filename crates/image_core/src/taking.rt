//! A block of the frames that are held, and how it is taken.

ghost use Rattle.std.specs.Prelude.{◌≡◌, ◌<◌, ◌≤◌, ◌+◌, ◌^◌, [], length, min, unsigned_abs, vec_len, IfSome, MatchOption, None};
ghost use Rattle.std.specs.Ordering.{nat_cmp};
ghost use Rattle.std.specs.Map.{lookup};
ghost use Rattle.std.specs.BTreeMap.{is_at};
ghost use Rattle.std.specs.Vec.{vec_capacity};
ghost use Rattle.image_core.specs.Kept.{AreMembers, AreSpaced, HasTerms, MovesFirst, TakesMessages, block_length, next_size, run_length, size_of_next};
ghost use Rattle.image_core.specs.Rebuild.{chain_end};
ghost use Rattle.image_core.specs.Take.{TakesBlock};

use frame_core::limits::MAX_BLOCK_LENGTH;
use frame_core::{BlockIds, Frame, FrameKind, Geometry, Publication, block_ids, is_next};
use std::collections::BTreeMap;

/// How many frames the block has that begins with the first frame of a chain.
pub(crate) fn block_length(
    held: &BTreeMap<u64, Frame>,
    geometry: &Geometry,
    publication: &Publication,
    from: u64,
) -> usize
    requires terms { HasTerms geometry.now }
    requires spaced { AreSpaced from (2 ^ 62) held.now.entries }
    requires members { AreMembers geometry.now publication.now held.now.entries }
    requires some { from < chain_end from held.now.entries }
    ensures { result ≡ block_length geometry.now publication.now held.now.entries }
{
    let Some((_, first)) = held.first_key_value() else {
        return 0;
    };
    match first.kind {
        FrameKind::Pad | FrameKind::Heartbeat => 1,
        FrameKind::Message => {
            let ids = block_ids(geometry, publication, first);
            let offset = offset_of(first);
            let limit = limit_behind(geometry, offset);
            let size = first.aligned_length();
            run_length(held, &ids, from + size, offset + size, limit) + 1
        }
    }
}

/// How many frames from a position on are messages of a block that follow one another, from an offset in their term up to
/// a limit.
fn run_length(
    held: &BTreeMap<u64, Frame>,
    ids: &BlockIds,
    from: u64,
    offset: u64,
    limit: u64,
) -> usize
    requires spaced { AreSpaced 0 (2 ^ 62) held.now.entries }
    requires from { from ≤ 2 ^ 62 }
    requires within { offset ≤ limit }
    requires small { limit ≤ 2 ^ 31 }
    ensures length { result ≡ run_length ids.now from offset limit held.now.entries }
    ensures few { result ≤ 2 ^ 31 }
{
    let mut count = 0;
    let mut covered = 0;
    'each: while let Some(size) = size_at(held, ids, from + covered, offset + covered, limit) {
        covered += size;
        count += 1;
    }
    count
}

/// How many bytes the frame at a position covers, if it is a message of a block, at an offset in its term and within a
/// limit there.
fn size_at(
    held: &BTreeMap<u64, Frame>,
    ids: &BlockIds,
    at: u64,
    offset: u64,
    limit: u64,
) -> Option<u64>
    requires { offset < 2 ^ 33 }
    ensures { result ≡ size_of_next ids.now offset limit
        (lookup (is_at (nat_cmp at)) held.now.entries) }
{
    let frame = held.get(&at)?;
    let size = frame.aligned_length();
    (is_next(ids, offset, frame) && offset + size <= limit).then_some(size)
}

/// Takes the first frames of a chain as a block into a list that has room for them. Answers where the block ends.
pub(crate) fn take_frames(
    held: &mut BTreeMap<u64, Frame>,
    geometry: &Geometry,
    publication: &Publication,
    from: u64,
    frames: &mut Vec<Frame>,
) -> u64
    requires terms { HasTerms geometry.now }
    requires spaced { AreSpaced from (2 ^ 62) held.old.entries }
    requires members { AreMembers geometry.now publication.now held.old.entries }
    requires some { from < chain_end from held.old.entries }
    requires empty { frames.old.items ≡ [] }
    requires room { block_length geometry.now publication.now held.old.entries
        ≤ vec_capacity frames.old }
    ensures { TakesBlock geometry.now publication.now from held.old.entries
        frames.new.items result held.new.entries }
{
    let Some((_, first)) = held.pop_first() else {
        return from;
    };
    let ids = block_ids(geometry, publication, &first);
    let offset = offset_of(&first);
    let limit = limit_behind(geometry, offset);
    let size = first.aligned_length();
    let kind = first.kind;
    frames.push_reserved(first);
    match kind {
        FrameKind::Pad | FrameKind::Heartbeat => from + size,
        FrameKind::Message => {
            from + size + take_messages(held, &ids, from + size, offset + size, limit, frames)
        }
    }
}

/// How many bytes of its term lie before a frame.
fn offset_of(frame: &Frame) -> u64
    ensures offset { result ≡ unsigned_abs frame.now.term_offset }
    ensures small { result ≤ 2 ^ 31 }
{
    u64::from(frame.term_offset.unsigned_abs())
}

/// Where a block ends at the latest that begins at an offset.
fn limit_behind(geometry: &Geometry, offset: u64) -> u64
    requires { offset ≤ 2 ^ 31 }
    ensures limit { result ≡ min (offset + 65536) (unsigned_abs geometry.now.term_length) }
    ensures small { result ≤ 2 ^ 31 }
{
    (offset + MAX_BLOCK_LENGTH as u64).min(u64::from(geometry.term_length.unsigned_abs()))
}

/// Takes the first frames behind those of a list, as long as they are messages of a block that follow one another from a
/// position and an offset in their term up to a limit. Answers how many bytes they cover.
fn take_messages(
    held: &mut BTreeMap<u64, Frame>,
    ids: &BlockIds,
    from: u64,
    offset: u64,
    limit: u64,
    frames: &mut Vec<Frame>,
) -> u64
    requires spaced { AreSpaced from (2 ^ 62) held.old.entries }
    requires from { from ≤ 2 ^ 62 }
    requires within { offset ≤ limit }
    requires small { limit ≤ 2 ^ 31 }
    requires room { run_length ids.now from offset limit held.old.entries + vec_len frames.old
        ≤ vec_capacity frames.old }
    ensures takes { TakesMessages ids.now from offset limit held.old.entries frames.old.items
        result held.new.entries frames.new.items }
    ensures stops { next_size ids.now (from + result) (offset + result) limit held.new.entries
        ≡ None }
    ensures few { result ≤ 2 ^ 31 }
{
    let mut covered = 0;
    'each: while let Some(size) = next_size(held, ids, from + covered, offset + covered, limit) {
        take_first(held, frames);
        covered += size;
    }
    covered
}

/// How many bytes the first frame covers, if it is the next message of a block: at a position, at an offset in its term,
/// and within a limit there.
fn next_size(
    held: &BTreeMap<u64, Frame>,
    ids: &BlockIds,
    at: u64,
    offset: u64,
    limit: u64,
) -> Option<u64>
    requires { offset < 2 ^ 33 }
    ensures { result ≡ next_size ids.now at offset limit held.now.entries }
{
    let (start, frame) = held.first_key_value()?;
    let size = frame.aligned_length();
    (*start == at && is_next(ids, offset, frame) && offset + size <= limit).then_some(size)
}

/// Moves the first frame behind the others of a list that has room for it.
fn take_first(held: &mut BTreeMap<u64, Frame>, frames: &mut Vec<Frame>)
    requires some { 0 < length held.old.entries }
    requires room { vec_len frames.old < vec_capacity frames.old }
    ensures moves { MovesFirst held.old.entries held.new.entries frames.old.items frames.new.items }
    ensures len { vec_len frames.new ≡ vec_len frames.old + 1 }
    ensures capacity { vec_capacity frames.new ≡ vec_capacity frames.old }
{
    let Some((_, frame)) = held.pop_first() else {
        return;
    };
    frames.push_reserved(frame);
}
