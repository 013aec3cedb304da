//! Segment files that no recording needs go. docs/STORAGE.md, "Stale files".

ghost use Rattle.std.specs.Prelude.{◌≡◌, ◌∷◌, map, All, IfErr, IfOk};
ghost use Rattle.segment_store.specs.declared.keep.Keep.TheVariants.{Below};
ghost use Rattle.frame_core.specs.declared.refusal.Refusal.TheVariants.{NoMemory};
ghost use Rattle.segment_store.specs.Stale.{IsKeep};
ghost use Rattle.control_core.specs.declared.event.Event.TheVariants as events;
ghost use Rattle.engine_core.specs.Catalogued.{KeepsFound};
ghost use Rattle.engine_core.specs.Moves.{registered_keep, registered_keeps};
ghost use Rattle.engine_core.specs.Touching.{Touches};

use crate::stored::StoredArchive;
use archive_model::{Registration, Reply};
use control_core::{Desk, decide_sweep};
use disk_core::Disk;
use frame_core::Refusal;
use recording_reads::layout_of;
use segment_store::Keep;
use std::alloc::Global;

impl<D: Disk> StoredArchive<D> {
    ghost use Rattle.engine_core.specs.Seen.{HasEnded, state_of};

    /// Removes the first segment file that no recording needs, by two calls of the disk behind a listing, and answers
    /// whether there was one.
    ///
    /// `Broken` where a write has failed; `DeviceFault`; `NoMemory`. In every case, and at every moment, the archive stays
    /// as it is, and no fault breaks it. docs/STORAGE.md, "Stale files". Costs a step for each file and recording.
    pub(crate) fn sweep(&mut self, alloc: Global) -> Result<Reply, Refusal>
        ensures ends { HasEnded D.life self.old self.new events.Sweep result }
        ensures touches { Touches (state_of D.life self.old) events.Sweep (D.life self.new.storage.disk) }
        ensures catalogue { KeepsFound (state_of D.life self.old) (state_of D.life self.new) self.old.desk.state.register }
    {
        decide_sweep(&self.desk)?;
        let keeps = keeps_of(alloc, &self.desk)?;
        let removed = self.storage.sweep(keeps.as_slice())?;
        Ok(Reply::Swept { removed })
    }
}

/// What a sweep is told of the archive of a desk: below which id recordings were given, and what each that is there keeps.
/// `NoMemory`. Costs the recordings.
pub fn keeps_of(alloc: Global, desk: &Desk) -> Result<Vec<Keep>, Refusal>
    ensures ok { IfOk result (λ keeps. keeps.items ≡ registered_keeps desk.now.state.register) }
    ensures keeps { IfOk result (λ keeps. All IsKeep keeps.items) }
    ensures err { IfErr result (λ refusal. refusal ≡ NoMemory) }
{
    kept_by(alloc, &desk.next_recording(), desk.recordings())
}

/// What a sweep is told of an archive with these recordings, and this id for the next.
fn kept_by(alloc: Global, next: &i64, recordings: &[Registration]) -> Result<Vec<Keep>, Refusal>
    ensures ok { IfOk result (λ keeps. keeps.items
        ≡ Below next.now ∷ map registered_keep recordings.now) }
    ensures err { IfErr result (λ refusal. refusal ≡ NoMemory) }
{
    let mut keeps = Vec::new(alloc);
    keeps.push(Keep::Below { next: *next })?;
    for known in recordings {
        keeps.push(keep_of(known))?;
    }
    Ok(keeps)
}

/// What a sweep is told of a recording.
fn keep_of(known: &Registration) -> Keep
    ensures { result ≡ registered_keep known.now }
{
    Keep::Recording {
        layout: layout_of(&known.descriptor),
        recorded: known.recorded,
        active: known.is_active(),
    }
}
