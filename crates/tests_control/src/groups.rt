//! Several recorder sessions that are settled together: docs/CONTROL.md, "Recorder sessions", by example.

use crate::desk_calls::{note, recording};
use archive_model::Reply;
use control_core::{Desk, copy_reply, decide_settle_all};
use frame_core::{Items, Refusal};
use std::alloc::{AllocError, Global};
use std::test::*;

/// Settles these sessions: up to where the recording of each is recorded then.
fn settle_all(
    alloc: Global,
    desk: &mut Desk,
    sessions: &[i64],
) -> Result<Items<Option<i64>>, Refusal> {
    decide_settle_all(desk, sessions)?;
    let positions = desk.settled_positions(alloc, sessions)?;
    desk.settle_each(sessions);
    Ok(positions)
}

/// Two active recordings, of which session 0 wrote 64 bytes; the history has room for so many entries more.
fn with_two(alloc: Global, room: u32) -> Result<Desk, Refusal> {
    let mut desk = recording(alloc, 2, room.saturating_add(2))?;
    note(&mut desk, 64).and(Ok(desk))
}

/// The positions, or the number of the refusal.
fn answered(alloc: Global, room: u32, sessions: &[i64]) -> Result<String, Fail> {
    let mut desk = with_two(alloc, room)?;
    let settled = settle_all(alloc, &mut desk, sessions);
    let counted = desk.counted();
    drop(desk);
    match settled {
        Ok(positions) => Ok(format!(in alloc; "{:?} {counted}", positions.as_slice())?),
        Err(refusal) => Ok(format!(in alloc; "{}", refusal.number())?),
    }
}

fn check(alloc: Global, room: u32, sessions: &[i64], text: &str) -> Result<(), Fail> {
    let told = answered(alloc, room, sessions)?;
    if told.as_str() == text {
        Ok(())
    } else {
        Err(Fail::new(told))
    }
}

/// A group settles each session that has blocks, gives the position of the others, and counts one entry for each settled
/// one. It is refused without room, or with a number twice.
#[test]
fn sessions_that_are_settled_together(rt: HostRuntime) -> Result<(), Fail> {
    check(rt.alloc(), 1, &[0, 1], "[Some(64), Some(0)] 3")?;
    check(rt.alloc(), 1, &[9, 1, 0], "[None, Some(0), Some(64)] 3")?;
    check(rt.alloc(), 0, &[1, 9], "[Some(0), None] 2")?;
    check(rt.alloc(), 0, &[], "[] 2")?;
    check(rt.alloc(), 0, &[1, 0], "11")?;
    check(rt.alloc(), 0, &[0, 1, 0], "10")?;
    check(rt.alloc(), 0, &[7; 65], "10")
}

/// Whether these sessions are not settled together.
fn is_refused(desk: &Desk, sessions: &[i64]) -> bool {
    decide_settle_all(desk, sessions).is_err()
}

/// So many numbers from 0 on.
fn numbers_to(alloc: Global, count: i64) -> Result<Vec<i64>, AllocError> {
    let mut numbers = Vec::new(alloc);
    for number in 0..count {
        numbers.push(number)?;
    }
    Ok(numbers)
}

/// At most 64 numbers, none twice.
#[test]
fn sixty_five_sessions_are_refused(rt: HostRuntime) -> Result<(), Fail> {
    let many = numbers_to(rt.alloc(), 65)?;
    let few = numbers_to(rt.alloc(), 64)?;
    let mut desk = with_two(rt.alloc(), 1)?;
    let is_refused = is_refused(&desk, many.as_slice());
    let settled = settle_all(rt.alloc(), &mut desk, few.as_slice());
    drop(desk);
    let count = settled?.len();
    assert!(rt; is_refused && count == 64);
    Ok(())
}

/// How many entries count behind a settle, and behind a checkpoint then.
fn counted_around_a_checkpoint(alloc: Global, desk: &mut Desk) -> Result<(u64, u64), Refusal> {
    let _ = settle_all(alloc, desk, &[0])?;
    let settled = desk.counted();
    desk.note_checkpoint();
    Ok((settled, desk.counted()))
}

/// After a checkpoint the history counts one entry for each active recording.
#[test]
fn a_checkpoint_counts_active_recordings(rt: HostRuntime) -> Result<(), Fail> {
    let mut desk = with_two(rt.alloc(), 1)?;
    let counted = counted_around_a_checkpoint(rt.alloc(), &mut desk);
    let recordings = desk.register().recordings().len();
    drop(desk);
    assert!(rt; counted? == (3, 2));
    assert!(rt; recordings == 2);
    Ok(())
}

/// A copy of a group's reply has the same positions.
#[test]
fn a_copy_of_positions(rt: HostRuntime) -> Result<(), Fail> {
    let positions = Items::from_vec([Some(128), None].to_vec(rt.alloc())?);
    let copy = copy_reply(rt.alloc(), &Reply::SettledAll { positions })?;
    let told = format!(in rt.alloc(); "{copy:?}")?;
    assert!(rt; told.as_str().contains("[Some(128), None]"), "{told}");
    Ok(())
}
