//! What several recorder sessions wrote is recorded together. docs/CONTROL.md, "Recorder sessions"; docs/STORAGE.md, "Segments".

ghost use Rattle.std.specs.Prelude.{◌≡◌, ◌++◌, IfErr, IfOk, IsTrue, OnOk, Some, unsigned_abs};
ghost use Rattle.frame_core.specs.declared.refusal.Refusal.TheVariants.{NoMemory};
ghost use Rattle.segment_store.specs.Layout.{IsFromStart, IsLayout, file_of};
ghost use Rattle.archive_model.specs.declared.reply.Reply.TheVariants as replies;
ghost use Rattle.archive_model.specs.Checks.{checks, passes};
ghost use Rattle.control_core.specs.declared.event.Event.TheVariants as events;
ghost use Rattle.control_core.specs.Changes.{settled_each};
ghost use Rattle.control_core.specs.Exact.{settled_archives};
ghost use Rattle.control_core.specs.Seats.{IsWriter};
ghost use Rattle.control_core.specs.Turns.{session_in, settle_all_tests};
ghost use Rattle.recording_reads.specs.Recording.{layout_of};
ghost use Rattle.engine_core.specs.Catalogued.{KeepsFound, register_made};
ghost use Rattle.engine_core.specs.Grouping.{IsGroup, MayRecord, entry_of_session, segment_of_session, segments_each};
ghost use Rattle.engine_core.specs.Making.{CommitsEntry};
ghost use Rattle.engine_core.specs.Touching.{SettlesEach, WantsMemory};

use crate::making::failed;
use crate::stored::StoredArchive;
use archive_model::Reply;
use catalogue_log::Entry;
use control_core::{Desk, Writer, Written, decide_settle_all};
use disk_core::{Disk, FileId};
use frame_core::{Items, Refusal};
use recording_reads::layout_of;
use segment_store::{Layout, spot_of};
use std::alloc::Global;

// What recorder sessions wrote, as it is to be recorded.
#[derive(Drop)]
struct Group {
    // The segment files that they wrote to.
    segments: Vec<FileId>,
    // The entry of each, in the order of the sessions.
    entries: Vec<Entry>,
}

impl<D: Disk> StoredArchive<D> {
    ghost use Rattle.engine_core.specs.Seen.{HasEnded, state_of};

    /// Records what recorder sessions wrote, all of it or nothing, by as many calls of the disk as sessions wrote and four
    /// more, and answers up to where the recording of each is recorded then, in bytes of the stream; none for a number that no
    /// open session has. A crash from then on leaves all of it recorded. Where none of them wrote anything the disk is not asked.
    ///
    /// The refusals of docs/CONTROL.md, "Refusals"; `NoMemory`, before the first call of the disk, which leaves what was written
    /// to be settled; `DeviceFault` where the disk fails, with the archive broken. Costs the open sessions for each number.
    pub(crate) fn settle_all(
        &mut self,
        alloc: Global,
        sessions: &Items<i64>,
    ) -> Result<Reply, Refusal>
        ensures ends { HasEnded D.life self.old self.new (events.SettleAll sessions.now) result }
        ensures touches { SettlesEach (state_of D.life self.old) sessions.now (D.life self.new.storage.disk) }
        ensures memory { WantsMemory self.old.desk.state (events.SettleAll sessions.now) result }
        ensures catalogue { KeepsFound (state_of D.life self.old) (state_of D.life self.new)
            (register_made self.old.desk.state (events.SettleAll sessions.now)) }
    {
        let numbers = sessions.as_slice();
        decide_settle_all(&self.desk, numbers)?;
        let positions = self.desk.settled_positions(alloc, numbers)?;
        let group = group_of(alloc, &self.desk, numbers)?;
        if group.entries.is_empty() {
            return Ok(Reply::SettledAll { positions });
        }
        self.settle_group(numbers, &group, positions)
    }

    /// Records what sessions wrote, once it is decided; then the desk follows, and these positions are answered. `NoMemory`;
    /// `DeviceFault` where the disk fails: the archive is then broken.
    fn settle_group(
        &mut self,
        sessions: &[i64],
        group: &Group,
        positions: Items<Option<i64>>,
    ) -> Result<Reply, Refusal>
        requires { MayRecord self.old.desk.state sessions.now group.now }
        ensures settles { CommitsEntry (state_of D.life self.old) (state_of D.life self.new)
            (λ a. IsTrue (passes (settle_all_tests a.desk sessions.now) checks))
            (replies.SettledAll positions) (settled_archives sessions.now) result }
        ensures touches { SettlesEach (state_of D.life self.old) sessions.now (D.life self.new.storage.disk) }
        ensures catalogue { KeepsFound (state_of D.life self.old) (state_of D.life self.new)
            (settled_each sessions.now self.old.desk.state).register }
    {
        match self.storage.settle_all(&group.segments, &group.entries) {
            Ok(()) => {
                self.desk.settle_each(sessions);
                Ok(Reply::SettledAll { positions })
            }
            Err(refusal) => Err(failed(&mut self.desk, refusal)),
        }
    }
}

/// The segment files of what these recorder sessions wrote and did not settle, in their order; none for a number of no open session,
/// and for one that wrote nothing. A settling of these sessions syncs these files. `NoMemory`. Costs the open sessions for
/// each number. docs/STORAGE.md, "Segments".
pub fn unsettled_segments(
    alloc: Global,
    desk: &Desk,
    sessions: &[i64],
) -> Result<Vec<FileId>, Refusal>
    ensures segments { IfOk result (λ files. files.items ≡ segments_each desk.now.state sessions.now) }
    ensures refused { IfErr result (λ refusal. refusal ≡ NoMemory) }
{
    let group = group_of(alloc, desk, sessions)?;
    Ok(group.segments)
}

/// What these sessions wrote. `NoMemory`. Costs the open sessions for each number.
fn group_of(alloc: Global, desk: &Desk, sessions: &[i64]) -> Result<Group, Refusal>
    ensures group { IfOk result (IsGroup desk.now.state sessions.now) }
    ensures refused { IfErr result (λ refusal. refusal ≡ NoMemory) }
{
    let _orderly = desk.is_broken();
    let mut group = Group {
        segments: Vec::new(alloc),
        entries: Vec::new(alloc),
    };
    for session in sessions {
        group.add(desk, session)?;
    }
    Ok(group)
}

impl Group {
    /// Adds what a session wrote, if it is open and wrote something. `NoMemory`.
    fn add(&mut self, desk: &Desk, session: &i64) -> Result<(), Refusal>
        ensures entries { OnOk result (self.new.entries.items
            ≡ self.old.entries.items ++ entry_of_session (session_in desk.now.state session.now)) }
        ensures segments { OnOk result (self.new.segments.items
            ≡ self.old.segments.items
            ++ segment_of_session desk.now.state (session_in desk.now.state session.now)) }
        ensures refused { IfErr result (λ refusal. refusal ≡ NoMemory) }
    {
        let Some(writer) = desk.session(session) else {
            return Ok(());
        };
        let Some(written) = writer.found.session.written else {
            return Ok(());
        };
        self.segments
            .push(segment_of(desk, session, &writer, &written))?;
        self.entries.push(Entry::Settle {
            recording: writer.found.session.recording,
            position: written.last,
        })?;
        Ok(())
    }
}

/// The segment file where begins what a session of a desk wrote.
fn segment_of(desk: &Desk, session: &i64, writer: &Writer, written: &Written) -> FileId
    requires writer { IsWriter session.now desk.now.state writer.now }
    requires written { writer.now.found.session.written ≡ Some written.now }
    ensures { result ≡ file_of (layout_of writer.now.known.now.descriptor) (unsigned_abs written.now.first) }
{
    let _orderly = desk.is_broken();
    let layout = layout_of(&writer.known.descriptor);
    file_at(&layout, written.first)
}

/// The segment file of a position.
fn file_at(layout: &Layout, position: i64) -> FileId
    requires layout { IsLayout layout.now }
    requires recorded { IsFromStart layout.now position }
    ensures { result ≡ file_of layout.now (unsigned_abs position) }
{
    spot_of(layout, position.unsigned_abs()).file
}
