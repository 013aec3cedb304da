//! What a crash makes of a disk in memory: docs/STORAGE.md, "Crashes in memory".
ghost use Rattle.std.specs.Prelude.{◌≡◌, [], IfOk, IfErr};
ghost use Rattle.frame_core.specs.declared.refusal.Refusal.TheVariants.{NoMemory};
ghost use Rattle.disk_core.specs.CrashChoice.{IsCrash};
ghost use Rattle.disk_core.specs.DiskImage.{MayLeave, reads};
ghost use Rattle.disk_core.specs.Counts.{no_counts};

use crate::MemoryDisk;
use crate::counts::Counts;
use frame_core::Refusal;

impl MemoryDisk {
    ghost use Rattle.disk_core.specs.MemoryDisk.{life_of, counts_of};

    /// The disk that a crash now leaves by a choice. For each touched file, in the order of files, it reads
    /// one byte of the choice, round and round, and 0 where the choice is empty. 0 leaves the file as it was
    /// last synced and 1 as it reads. Another byte leaves it as it reads, and a file that is absent as it was
    /// last synced, with that byte at each unsynced offset. The other files are left as they read.
    ///
    /// The new disk begins with that image, all of it durable; it neither stops nor fails. It copies each file.
    /// `NoMemory` is the only refusal.
    pub fn crash(&self, choice: &[u8]) -> Result<MemoryDisk, Refusal>
        ensures left { IfOk result (λ disk.
            IsCrash (life_of self.now).now choice.now (life_of disk).now) }
        ensures may_leave { IfOk result (λ disk.
            MayLeave (life_of self.now).now (reads (life_of disk).now)) }
        ensures past { IfOk result (λ disk. (life_of disk).past ≡ []) }
        ensures counts { IfOk result (λ disk. counts_of disk ≡ no_counts) }
        ensures refusal { IfErr result (λ refusal. refusal ≡ NoMemory) }
    {
        let change_log = self.change_log.crashed(choice)?;
        Ok(MemoryDisk {
            change_log,
            counts: Counts::new(),
        })
    }
}
