//! A disk: what its calls do, what it reads as, and what a crash may leave of it.
ghost use Rattle.std.specs.Prelude.{◌≡◌, ◌≤◌, length, IfOk, OnErr, IsTrue, IsSome};
ghost use Rattle.disk_core.specs.FileNames.{AreFilesWith};
ghost use Rattle.disk_core.specs.DiskImage.{MayLeave, reads};
ghost use Rattle.disk_core.specs.Calls.{write_to, cut_to, removed, synced, IsWritten, IsCut, IsRemoved, IsSynced, IsRead};
ghost use Rattle.disk_core.specs.Life.{Life, bytes_now, IsQuiet, Steps, Makes, HasCause, HasListCause, IsSteady};

use crate::{Fault, FileId, ListFault};

/// A disk with the files of an archive. Offsets, lengths and counts are in bytes.
///
/// A call that writes, cuts or removes can be undone by a crash, wholly or in part, until the file is
/// synced: docs/STORAGE.md, "Crash model". What a crash may leave is promised of every disk. What is
/// read is promised where the disk obeys that model, which of a real folder is assumed.
///
/// A failed call leaves the file as it was only where its change was not begun. One that was begun makes
/// its range unsynced, however little of it was done. A call that succeeds counts no fault.
pub trait Disk {
    /// What each file reads as and what a crash may leave of it, now and at each earlier moment.
    ghost life: { Self → Life };

    /// The length of a file, 0 if it is absent.
    fn len(&mut self, file: FileId) -> Result<u64, Fault>
        ensures exact { IfOk result (λ n. IsTrue (life self.new).obeys →
            n ≡ length (bytes_now (life self.old) file)) }
        ensures quiet { IsQuiet (life self.old) (life self.new) }
        ensures cause { HasCause result (life self.old) (life self.new) }
        ensures steady { IsSteady result (life self.old) (life self.new) };

    /// Reads from an offset into a buffer, and answers how many bytes: fewer than the buffer holds only
    /// at the end of the file. The rest of the buffer stays. After a fault its contents are unknown.
    fn read_at(&mut self, file: FileId, at: u64, into: &mut [u8]) -> Result<usize, Fault>
        ensures within { IfOk result (λ n. n ≤ length into.old) }
        ensures exact { IfOk result (λ n. IsTrue (life self.new).obeys →
            IsRead (bytes_now (life self.old) file) at into.old into.new n) }
        ensures quiet { IsQuiet (life self.old) (life self.new) }
        ensures cause { HasCause result (life self.old) (life self.new) }
        ensures steady { IsSteady result (life self.old) (life self.new) };

    /// Writes bytes at an offset, over what is there and past the end. A gap reads as zeros. An absent
    /// file is made. No bytes change nothing. After a fault the range may be written in part.
    fn write_at(&mut self, file: FileId, at: u64, bytes: &[u8]) -> Result<(), Fault>
        ensures written { Makes result file (write_to at bytes.now)
            (life self.old) (life self.new) }
        ensures step { Steps file (IsWritten at (length bytes.now))
            (life self.old) (life self.new) }
        ensures cause { HasCause result (life self.old) (life self.new) }
        ensures steady { IsSteady result (life self.old) (life self.new) };

    /// Cuts a file to a length. A shorter file stays as it reads, and an absent one absent. After a
    /// fault some of what was to be cut off may be left.
    fn cut(&mut self, file: FileId, len: u64) -> Result<(), Fault>
        ensures cut { Makes result file (cut_to len) (life self.old) (life self.new) }
        ensures step { Steps file (IsCut len) (life self.old) (life self.new) }
        ensures cause { HasCause result (life self.old) (life self.new) }
        ensures steady { IsSteady result (life self.old) (life self.new) };

    /// Removes a file; one that is absent stays absent. After a fault it may be there or absent.
    fn remove(&mut self, file: FileId) -> Result<(), Fault>
        ensures removed { Makes result file removed (life self.old) (life self.new) }
        ensures step { Steps file IsRemoved (life self.old) (life self.new) }
        ensures cause { HasCause result (life self.old) (life self.new) }
        ensures steady { IsSteady result (life self.old) (life self.new) };

    /// Syncs a file and its name. From then on a crash leaves the file as it reads, absent or not. After
    /// a fault nothing of it is durable that was not before.
    fn sync(&mut self, file: FileId) -> Result<(), Fault>
        ensures synced { Makes result file synced (life self.old) (life self.new) }
        ensures kept { OnErr result ((life self.new).now file ≡ (life self.old).now file) }
        ensures step { Steps file IsSynced (life self.old) (life self.new) }
        ensures cause { HasCause result (life self.old) (life self.new) }
        ensures steady { IsSteady result (life self.old) (life self.new) };

    /// The files that are there, each once, in their order. `Device` is a fault, which is counted;
    /// `NoMemory` is want of memory for the list, which is not.
    fn list(&mut self) -> Result<Vec<FileId>, ListFault>
        ensures files { IfOk result (λ files. IsTrue (life self.new).obeys →
            AreFilesWith (λ file. IsSome (reads (life self.old).now file)) files.items) }
        ensures quiet { IsQuiet (life self.old) (life self.new) }
        ensures cause { HasListCause result (life self.old) (life self.new) }
        ensures steady { IsSteady result (life self.old) (life self.new) };

    /// How many calls have failed. The count stays at the last `u64`.
    fn faults(&self) -> u64
        ensures { result ≡ (life self.now).faults };

    /// A crash now may leave what the disk reads as.
    ghost reads_may_stay: { (disk : Self) → MayLeave (life disk).now (reads (life disk).now) };
}
