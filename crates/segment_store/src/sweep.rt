//! Files that are not needed any more: docs/STORAGE.md, "Stale files".

ghost use Rattle.std.specs.Prelude.{◌≡◌, ◌⊎◌, ◌≤◌, ◌+◌, true, None, All, IfOk, IfErr, IsErrOf, IsTrue, OnOk, OnErr};
ghost use Rattle.std.specs.List.{list_any};
ghost use Rattle.disk_core.specs.DiskImage.{durable, reads};
ghost use Rattle.disk_core.specs.Life.{HasFailed, IsQuiet, IsSteady, moment};
ghost use Rattle.disk_core.specs.declared.file_id.FileId.{FileId};
ghost use Rattle.frame_core.specs.declared.refusal.Refusal.TheVariants.{DeviceFault, NoMemory};
ghost use Rattle.segment_store.specs.Reading.{IsFaultOrMemory};
ghost use Rattle.segment_store.specs.Stale.{AreStale, HasSwept, IsFirst, IsKeep, SweepsAtMost, TouchesOnly, is_base_of_recorded, is_given, is_kept, is_recording, is_stale, keeps_base};
ghost use Rattle.segment_store.specs.Layout.{IsLayout};

use crate::keep::Keep;
use crate::layout::{Layout, base_from};
use disk_core::{Disk, FileId};
use frame_core::Refusal;

/// The segment files that are there and not needed any more, in the order of files: those of a stopped recording whose
/// base is not that of a recorded byte, those of an active one below the base of its start, and, below the id that a
/// [`Keep::Below`] gives, those of recordings that are gone. DeviceFault where the disk fails; NoMemory. The disk stays
/// as it is. docs/STORAGE.md, "Stale files". Costs a step for each file and recording.
pub fn stale_files<D: Disk>(disk: &mut D, keeps: &[Keep]) -> Result<Vec<FileId>, Refusal>
    requires { All IsKeep keeps.now }
    ensures stale { IfOk result (λ files. IsTrue (D.life disk.new).obeys →
        AreStale (reads (D.life disk.old).now) keeps.now files.items) }
    ensures each { IfOk result (λ files. All (λ file. is_stale keeps.now file ≡ true) files.items) }
    ensures refused { IfErr result IsFaultOrMemory }
    ensures quiet { IsQuiet (D.life disk.old) (D.life disk.new) }
    ensures cause { IsErrOf result DeviceFault → HasFailed (D.life disk.old) (D.life disk.new) }
    ensures steady { IsSteady result (D.life disk.old) (D.life disk.new) }
{
    let mut files = disk.list()?;
    files.retain(|file| is_stale(keeps, file));
    Ok(files)
}

/// Removes the first stale file and syncs its name, by two calls of the disk behind a listing: true where there was
/// one, false where there is none. DeviceFault where the disk fails: then the file may be there still, or stand again
/// after a crash; NoMemory, with no file touched. The other files stay as they are, also after a crash.
/// docs/STORAGE.md, "Stale files".
pub fn sweep_one<D: Disk>(disk: &mut D, keeps: &[Keep]) -> Result<bool, Refusal>
    requires { All IsKeep keeps.now }
    ensures swept { IfOk result (HasSwept keeps.now (D.life disk.old) (D.life disk.new)) }
    // Also where it fails, at most the first stale file has changed.
    ensures bounded { IsQuiet (D.life disk.old) (D.life disk.new)
        ⊎ ((file : FileId) × SweepsAtMost keeps.now file (D.life disk.old) (D.life disk.new)) }
    ensures calls { moment (D.life disk.new) ≤ moment (D.life disk.old) + 2 }
    ensures refused { IfErr result IsFaultOrMemory }
    // Want of memory comes before the first change.
    ensures unchanged { IsErrOf result NoMemory → IsQuiet (D.life disk.old) (D.life disk.new) }
    ensures cause { IsErrOf result DeviceFault → HasFailed (D.life disk.old) (D.life disk.new) }
    ensures steady { IsSteady result (D.life disk.old) (D.life disk.new) }
{
    match first_stale(disk, keeps)? {
        Some(file) => {
            remove_file(disk, file)?;
            Ok(true)
        }
        None => Ok(false),
    }
}

/// The first stale file.
fn first_stale<D: Disk>(disk: &mut D, keeps: &[Keep]) -> Result<Option<FileId>, Refusal>
    requires { All IsKeep keeps.now }
    ensures first { IfOk result (IsFirst (D.life disk.new).obeys (reads (D.life disk.old).now) keeps.now) }
    ensures refused { IfErr result IsFaultOrMemory }
    ensures quiet { IsQuiet (D.life disk.old) (D.life disk.new) }
    ensures cause { IsErrOf result DeviceFault → HasFailed (D.life disk.old) (D.life disk.new) }
    ensures steady { IsSteady result (D.life disk.old) (D.life disk.new) }
{
    let stale = stale_files(disk, keeps)?;
    Ok(stale.first().copied())
}

/// Removes a file and syncs its name.
fn remove_file<D: Disk>(disk: &mut D, file: FileId) -> Result<(), Refusal>
    ensures gone { OnOk result ((D.life disk.new).now file ≡ durable None) }
    ensures bounded { TouchesOnly file (D.life disk.old) (D.life disk.new) }
    ensures calls { moment (D.life disk.new) ≤ moment (D.life disk.old) + 2 }
    ensures refused { IfErr result (λ refusal. refusal ≡ DeviceFault) }
    ensures cause { OnErr result (HasFailed (D.life disk.old) (D.life disk.new)) }
    ensures steady { IsSteady result (D.life disk.old) (D.life disk.new) }
{
    disk.remove(file)?;
    disk.sync(file)?;
    Ok(())
}

/// Whether a file is stale.
fn is_stale(keeps: &[Keep], file: &FileId) -> bool
    requires { All IsKeep keeps.now }
    ensures { result ≡ is_stale keeps.now file.now }
{
    match file {
        FileId::BankA | FileId::BankB => false,
        FileId::Segment { recording, base } => {
            (is_there(keeps, recording) || was_there(keeps, recording))
                && !is_needed(keeps, recording, base)
        }
    }
}

/// Whether a recording has this id.
fn is_there(keeps: &[Keep], id: &i64) -> bool
    ensures { result ≡ list_any (is_recording id.now) keeps.now }
{
    keeps.iter().any(|keep| is_recording(id, keep))
}

/// Whether the id was given.
fn was_there(keeps: &[Keep], id: &i64) -> bool
    ensures { result ≡ list_any (is_given id.now) keeps.now }
{
    keeps.iter().any(|keep| is_given(id, keep))
}

/// Whether a recording keeps the file of that id and base.
fn is_needed(keeps: &[Keep], id: &i64, base: &i64) -> bool
    requires { All IsKeep keeps.now }
    ensures { result ≡ list_any (is_kept id.now base.now) keeps.now }
{
    keeps.iter().any(|keep| is_kept(id, base, keep))
}

/// Whether the id is that of a recording that is there.
fn is_recording(id: &i64, keep: &Keep) -> bool
    ensures { result ≡ is_recording id.now keep.now }
{
    match keep {
        Keep::Below { .. } => false,
        Keep::Recording { layout, .. } => layout.recording == *id,
    }
}

/// Whether the id is below the next one.
fn is_given(id: &i64, keep: &Keep) -> bool
    ensures { result ≡ is_given id.now keep.now }
{
    match keep {
        Keep::Below { next } => *id < *next,
        Keep::Recording { .. } => false,
    }
}

/// Whether the file of that id and base is kept.
fn is_kept(id: &i64, base: &i64, keep: &Keep) -> bool
    requires { IsKeep keep.now }
    ensures { result ≡ is_kept id.now base.now keep.now }
{
    match keep {
        Keep::Below { .. } => false,
        Keep::Recording {
            layout,
            recorded,
            active,
        } => layout.recording == *id && keeps_base(layout, recorded, *active, base),
    }
}

/// Whether the recording keeps the file with this base.
fn keeps_base(layout: &Layout, recorded: &i64, active: bool, base: &i64) -> bool
    requires { IsLayout layout.now }
    ensures { result ≡ keeps_base layout.now recorded.now active base.now }
{
    if active {
        base_from(layout, layout.start_position.unsigned_abs()) as i64 <= *base
    } else {
        is_base_of_recorded(layout, recorded, base)
    }
}

/// Whether a recorded byte has this base.
#[tactic(auto, unfolding(crate::specs::Stale::is_base_of_recorded))]
fn is_base_of_recorded(layout: &Layout, recorded: &i64, base: &i64) -> bool
    requires { IsLayout layout.now }
    ensures { result ≡ is_base_of_recorded layout.now recorded.now base.now }
{
    if *base < 0 {
        return false;
    }
    let first = (*base).max(layout.start_position).unsigned_abs();
    (first as i64) < *recorded && base_from(layout, first) == base.unsigned_abs()
}
