//! Several recorder sessions that are settled together: what is decided, what each is answered, and the desk then.
//! docs/CONTROL.md, "Recorder sessions".

ghost use Rattle.std.specs.Prelude.{◌≡◌, ◌<◌, count_by, true, IfOk, IsTrue, Ok, OnOk};
ghost use Rattle.archive_model.specs.Checks.{checked, checks};
ghost use Rattle.control_core.specs.Changes.{position_of, positions_each, settled, settled_each};
ghost use Rattle.control_core.specs.Turns.{are_once, has_room_for_each, has_written, session_in, settle_all_tests};

use crate::desk::Desk;
use frame_core::limits::MAX_ACTIVE_RECORDERS;
use frame_core::{Items, Refusal};
use std::alloc::{AllocError, Global};

/// What is decided on settling several sessions together. `Broken` if a write has failed. `BadParameter` for more than 64
/// numbers, or one that stands twice. `HistoryFull` if the history has no room for an entry of each that wrote something. A
/// number that no open session has refuses nothing. Costs the open sessions and the other numbers, for each number; does not
/// allocate.
pub fn decide_settle_all(desk: &Desk, sessions: &[i64]) -> Result<(), Refusal>
    ensures decided { result
        ≡ checked (settle_all_tests desk.now.state sessions.now) checks (Ok tt) }
    ensures once { OnOk result (IsTrue (are_once sessions.now)) }
    ensures room { OnOk result (IsTrue (has_room_for_each desk.now.state sessions.now)) }
{
    if desk.is_broken() {
        return Err(Refusal::Broken);
    }
    if sessions.len() > MAX_ACTIVE_RECORDERS || !are_once(sessions) {
        return Err(Refusal::BadParameter);
    }
    if !desk.has_room_for(count_writers(desk, sessions)) {
        return Err(Refusal::HistoryFull);
    }
    Ok(())
}

/// Whether no number stands twice. Costs the numbers behind each.
fn are_once(numbers: &[i64]) -> bool
    ensures { result ≡ are_once numbers.now }
{
    for (index, number) in numbers.iter().enumerate() {
        if numbers[index + 1..].contains(number) {
            return false;
        }
    }
    true
}

/// How many of these sessions wrote something that is not settled.
fn count_writers(desk: &Desk, sessions: &[i64]) -> usize
    ensures { result ≡ count_by (λ n. has_written (session_in desk.now.state n)) sessions.now }
{
    sessions
        .iter()
        .filter(|number| desk.has_written(number))
        .count()
}

impl Desk {
    /// Whether the session of a number is open and wrote something that is not settled.
    fn has_written(&self, session: &i64) -> bool
        ensures { result ≡ has_written (session_in self.now.state session.now) }
    {
        match self.sessions.get(session) {
            Some(found) => found.session.written.is_some(),
            None => false,
        }
    }

    /// Up to where the recording of each of these sessions is recorded once what they wrote is, in bytes of the stream and in
    /// their order; none for a number that no open session has. Costs the open sessions for each number. `AllocError` changes
    /// nothing.
    pub fn settled_positions(
        &self,
        alloc: Global,
        sessions: &[i64],
    ) -> Result<Items<Option<i64>>, AllocError>
        requires once { IsTrue (are_once sessions.now) }
        ensures { IfOk result (λ positions. positions ≡ positions_each sessions.now self.now.state) }
    {
        let _ = &self.register;
        let mut positions = Items::new(alloc);
        for session in sessions {
            positions.push(self.position_of(session))?;
        }
        Ok(positions)
    }

    /// Up to where the recording of a session is recorded once what it wrote is; none where it isn't open.
    fn position_of(&self, session: &i64) -> Option<i64>
        ensures { result ≡ position_of self.now.state (session_in self.now.state session.now) }
    {
        let Some(writer) = self.session(session) else {
            return None;
        };
        match writer.found.session.written {
            Some(written) => Some(written.last),
            None => Some(writer.known.recorded),
        }
    }

    /// What each of these sessions wrote is recorded, as one entry of the history each. Nothing changes for one that wrote
    /// nothing or isn't open. Costs the open sessions for each number; does not allocate.
    pub fn settle_each(&mut self, sessions: &[i64])
        requires room { IsTrue (has_room_for_each self.old.state sessions.now) }
        ensures { self.new.state ≡ settled_each sessions.now self.old.state }
    {
        for session in sessions {
            self.settle_found(session);
        }
    }

    /// What the session of a number wrote is recorded, if it is open and wrote something.
    fn settle_found(&mut self, session: &i64)
        requires room { IsTrue (has_written (session_in self.old.state session.now)) →
            self.old.state.counted < self.old.state.limit }
        ensures { self.new.state ≡ settled (session_in self.old.state session.now) self.old.state }
    {
        let Some(found) = self.sessions.get(session) else {
            return;
        };
        if found.session.written.is_some() {
            self.settle(session, &found);
        }
    }
}
