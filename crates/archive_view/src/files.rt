//! The files of an archive that is only looked at: docs/STORAGE.md, "Stale files" and "Looking at an archive".

ghost use Rattle.std.specs.Prelude.{◌≡◌, ◌⊎◌, IfErr, IfOk, IsErrOf, IsSome, IsTrue, length};
ghost use Rattle.frame_core.specs.declared.refusal.Refusal.TheVariants.{DeviceFault, NoMemory};
ghost use Rattle.disk_core.specs.DiskImage.{bytes_of, reads};
ghost use Rattle.disk_core.specs.Life.{HasFailed, IsQuiet};
ghost use Rattle.disk_core.specs.FileNames.{AreFilesWith};
ghost use Rattle.segment_store.specs.Stale.{AreStale};
ghost use Rattle.engine_core.specs.Moves.{registered_keeps};

use crate::ArchiveView;
use control_core::Desk;
use disk_core::{Disk, FileId};
use engine_core::keeps_of;
use frame_core::Refusal;
use segment_store::stale_files;
use std::alloc::Global;

impl<D: Disk> ArchiveView<D> {
    ghost use Rattle.archive_view.specs.Asked.{HasAsked};
    ghost use Rattle.archive_view.specs.View.{is_unknown};
    ghost use Rattle.archive_view.specs.Viewed.{desk_of};

    /// The files that are there, in order. `DeviceFault`; `NoMemory` for the list. The disk is only read.
    pub fn files(&mut self) -> Result<Vec<FileId>, Refusal>
        ensures { HasAsked D.life (λ image files.
            AreFilesWith (λ file. IsSome (image file)) files.items) self.old self.new result }
    {
        listed(&mut self.disk)
    }

    /// How many bytes a file has, none if it is absent. `DeviceFault`. The disk is only read.
    pub fn length(&mut self, file: FileId) -> Result<u64, Refusal>
        ensures { HasAsked D.life (λ image bytes.
            bytes ≡ length (bytes_of (image file))) self.old self.new result }
    {
        measured(&mut self.disk, file)
    }

    /// The segment files that a sweep of the archive would remove one after another, in order. `DeviceFault`; `NoMemory`.
    /// The disk is only read. docs/STORAGE.md, "Stale files". Costs a step for each file and recording.
    pub fn stale_files(&mut self, alloc: Global) -> Result<Vec<FileId>, Refusal>
        ensures { HasAsked D.life (λ image files.
            AreStale image (registered_keeps (desk_of self.old).register) files.items) self.old self.new result }
    {
        stale_of(alloc, &mut self.disk, &self.desk)
    }

    /// Whether a file is a segment of no recording that the archive has, or ever had.
    pub fn is_unknown(&self, file: &FileId) -> bool
        ensures { result ≡ is_unknown (desk_of self.now).register file.now }
    {
        match file {
            FileId::BankA | FileId::BankB => false,
            FileId::Segment { recording, .. } => *recording >= self.desk.next_recording(),
        }
    }
}

/// The files that a disk has. `DeviceFault`; `NoMemory`.
fn listed<D: Disk>(disk: &mut D) -> Result<Vec<FileId>, Refusal>
    ensures files { IfOk result (λ files. IsTrue (D.life disk.new).obeys →
        AreFilesWith (λ file. IsSome (reads (D.life disk.old).now file)) files.items) }
    ensures refused { IfErr result (λ refusal. (refusal ≡ DeviceFault) ⊎ (refusal ≡ NoMemory)) }
    ensures quiet { IsQuiet (D.life disk.old) (D.life disk.new) }
    ensures cause { IsErrOf result DeviceFault → HasFailed (D.life disk.old) (D.life disk.new) }
{
    Ok(disk.list()?)
}

/// How many bytes a file of a disk has. `DeviceFault`.
fn measured<D: Disk>(disk: &mut D, file: FileId) -> Result<u64, Refusal>
    ensures bytes { IfOk result (λ bytes. IsTrue (D.life disk.new).obeys →
        bytes ≡ length (bytes_of (reads (D.life disk.old).now file))) }
    ensures refused { IfErr result (λ refusal. (refusal ≡ DeviceFault) ⊎ (refusal ≡ NoMemory)) }
    ensures quiet { IsQuiet (D.life disk.old) (D.life disk.new) }
    ensures cause { IsErrOf result DeviceFault → HasFailed (D.life disk.old) (D.life disk.new) }
{
    Ok(disk.len(file)?)
}

/// The stale segment files of a disk on which the archive of a desk stands. `DeviceFault`; `NoMemory`.
fn stale_of<D: Disk>(alloc: Global, disk: &mut D, desk: &Desk) -> Result<Vec<FileId>, Refusal>
    ensures files { IfOk result (λ files. IsTrue (D.life disk.new).obeys →
        AreStale (reads (D.life disk.old).now) (registered_keeps desk.now.state.register) files.items) }
    ensures refused { IfErr result (λ refusal. (refusal ≡ DeviceFault) ⊎ (refusal ≡ NoMemory)) }
    ensures quiet { IsQuiet (D.life disk.old) (D.life disk.new) }
    ensures cause { IsErrOf result DeviceFault → HasFailed (D.life disk.old) (D.life disk.new) }
{
    let keeps = keeps_of(alloc, desk)?;
    stale_files(disk, keeps.as_slice())
}
