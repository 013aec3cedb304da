//! A disk in memory, on which the archive runs without a folder, and by which crashes are tested.
ghost use Rattle.std.specs.Prelude.{◌≡◌, ◌≢◌, ◌≤◌, ◌↔◌, [], None, refl, true, false, length, is_ok, Some, OnOk, OnErr, IfOk, IsOk, IsErrOf, IsSome};
ghost use Rattle.disk_core.specs.FileNames.{AreFilesWith};
ghost use Rattle.disk_core.specs.DiskImage.{reads, begun, bytes_of};
ghost use Rattle.disk_core.specs.Calls.{write_to, cut_to, removed, synced, IsWritten, IsCut, IsRemoved, IsSynced, IsRead};
ghost use Rattle.disk_core.specs.Life.{bytes_now, IsQuiet, Steps, Makes, HasCause, HasListCause, IsSteady};
ghost use Rattle.disk_core.specs.Counts.{after_call, after_list, next_injected, no_counts};
ghost use Rattle.disk_core.specs.declared.counts.Injected.TheVariants.{Goes};
ghost use Rattle.disk_core.specs.declared.fault.ListFault.TheVariants.{Device};

use crate::change_log::ChangeLog;
use crate::counts::{Counts, Injected};
use crate::{Disk, Fault, FileId, ListFault};
use std::alloc::Global;

/// A disk in memory, which keeps the crash model and every change that it has seen.
///
/// A write costs by its own length and the logarithm of the number of files, a read by its length. The
/// memory that it takes grows with the calls and the bytes written.
#[derive(Drop)]
pub struct MemoryDisk {
    pub(crate) change_log: ChangeLog,
    pub(crate) counts: Counts,
}

impl MemoryDisk {
    ghost use Rattle.disk_core.specs.MemoryDisk.{life_of, counts_of};

    /// A disk with no file, on which no call fails but for want of memory.
    pub fn new(alloc: Global) -> Self
        ensures now { (life_of result).now ≡ begun (λ _. None) }
        ensures past { (life_of result).past ≡ [] }
        ensures counts { counts_of result ≡ no_counts }
    {
        MemoryDisk {
            change_log: ChangeLog::new(alloc),
            counts: Counts::new(),
        }
    }

    /// After this many more calls that write, cut, remove or sync, every call fails and changes nothing.
    pub fn stop_after(&mut self, changes: u64)
        ensures life { life_of self.new ≡ life_of self.old }
        ensures counts { counts_of self.new ≡ record (counts_of self.old) { left = Some changes } }
    {
        self.counts.left = Some(changes);
    }

    /// The call of this number from now fails once, the next one for 1 and none for 0. Where it writes,
    /// cuts or removes it takes effect, and stays unsynced.
    pub fn fail_at(&mut self, call: u64)
        ensures life { life_of self.new ≡ life_of self.old }
        ensures counts { counts_of self.new ≡ record (counts_of self.old) { fails = call } }
    {
        self.counts.fails = call;
    }

    /// How many calls there were that write, cut, remove or sync, failed ones too. The count stays at the
    /// last `u64`.
    pub fn changes(&self) -> u64
        ensures { result ≡ (counts_of self.now).changes }
    {
        self.counts.changes
    }

    /// How many calls there were of any kind but `faults`, failed ones too. The count stays at the last `u64`.
    pub fn calls(&self) -> u64
        ensures { result ≡ (counts_of self.now).calls }
    {
        self.counts.calls
    }
}

impl Disk for MemoryDisk {
    ghost use Rattle.disk_core.specs.MemoryDisk.{life_of, counts_of, KeepsInjected};
    ghost use Rattle.disk_core.specs.Memory.{after, nothing, well_stays};

    ghost life = { life_of };

    ghost reads_may_stay = { λ disk file.
        well_stays (after nothing disk.change_log.log.items file)
        (after nothing disk.change_log.log.items file).reads refl (disk.change_log.well file) };

    fn len(&mut self, file: FileId) -> Result<u64, Fault>
        ensures exact { IfOk result (λ n. n ≡ length (bytes_now (life_of self.old) file)) }
        ensures quiet { IsQuiet (life_of self.old) (life_of self.new) }
        ensures cause { HasCause result (life_of self.old) (life_of self.new) }
        ensures steady { IsSteady result (life_of self.old) (life_of self.new) }
        ensures counts { counts_of self.new ≡ after_call false (is_ok result) (counts_of self.old) }
        ensures injected { IsOk result ↔ (next_injected (counts_of self.old) ≡ Goes) }
    {
        if self.counts.begin(false) != Injected::Goes {
            self.counts.fail();
            return Err(Fault);
        }
        Ok(self.change_log.len(file))
    }

    fn read_at(&mut self, file: FileId, at: u64, into: &mut [u8]) -> Result<usize, Fault>
        ensures within { IfOk result (λ n. n ≤ length into.old) }
        ensures exact { IfOk result (λ n.
            IsRead (bytes_now (life_of self.old) file) at into.old into.new n) }
        ensures buffer { OnErr result (into.new ≡ into.old) }
        ensures quiet { IsQuiet (life_of self.old) (life_of self.new) }
        ensures cause { HasCause result (life_of self.old) (life_of self.new) }
        ensures steady { IsSteady result (life_of self.old) (life_of self.new) }
        ensures counts { counts_of self.new ≡ after_call false (is_ok result) (counts_of self.old) }
        ensures injected { IsOk result ↔ (next_injected (counts_of self.old) ≡ Goes) }
    {
        if self.counts.begin(false) != Injected::Goes {
            self.counts.fail();
            return Err(Fault);
        }
        Ok(self.change_log.read(file, at, into))
    }

    fn write_at(&mut self, file: FileId, at: u64, bytes: &[u8]) -> Result<(), Fault>
        ensures written { Makes result file (write_to at bytes.now)
            (life_of self.old) (life_of self.new) }
        ensures step { Steps file (IsWritten at (length bytes.now))
            (life_of self.old) (life_of self.new) }
        ensures cause { HasCause result (life_of self.old) (life_of self.new) }
        ensures steady { IsSteady result (life_of self.old) (life_of self.new) }
        ensures counts { counts_of self.new ≡ after_call true (is_ok result) (counts_of self.old) }
        ensures injected { KeepsInjected result file (write_to at bytes.now) self.old self.new }
    {
        let injected = self.counts.begin(true);
        if injected == Injected::Stops {
            self.counts.fail();
            return Err(Fault);
        }
        let outcome = self.change_log.write(file, at, bytes);
        self.counts.finish(injected, outcome)
    }

    fn cut(&mut self, file: FileId, len: u64) -> Result<(), Fault>
        ensures cut { Makes result file (cut_to len) (life_of self.old) (life_of self.new) }
        ensures step { Steps file (IsCut len) (life_of self.old) (life_of self.new) }
        ensures cause { HasCause result (life_of self.old) (life_of self.new) }
        ensures steady { IsSteady result (life_of self.old) (life_of self.new) }
        ensures counts { counts_of self.new ≡ after_call true (is_ok result) (counts_of self.old) }
        ensures injected { KeepsInjected result file (cut_to len) self.old self.new }
    {
        let injected = self.counts.begin(true);
        if injected == Injected::Stops {
            self.counts.fail();
            return Err(Fault);
        }
        let outcome = self.change_log.cut(file, len);
        self.counts.finish(injected, outcome)
    }

    fn remove(&mut self, file: FileId) -> Result<(), Fault>
        ensures removed { Makes result file removed (life_of self.old) (life_of self.new) }
        ensures step { Steps file IsRemoved (life_of self.old) (life_of self.new) }
        ensures cause { HasCause result (life_of self.old) (life_of self.new) }
        ensures steady { IsSteady result (life_of self.old) (life_of self.new) }
        ensures counts { counts_of self.new ≡ after_call true (is_ok result) (counts_of self.old) }
        ensures injected { KeepsInjected result file removed self.old self.new }
    {
        let injected = self.counts.begin(true);
        if injected == Injected::Stops {
            self.counts.fail();
            return Err(Fault);
        }
        let outcome = self.change_log.remove(file);
        self.counts.finish(injected, outcome)
    }

    fn sync(&mut self, file: FileId) -> Result<(), Fault>
        ensures synced { Makes result file synced (life_of self.old) (life_of self.new) }
        ensures kept { OnErr result ((life_of self.new).now file ≡ (life_of self.old).now file) }
        ensures step { Steps file IsSynced (life_of self.old) (life_of self.new) }
        ensures cause { HasCause result (life_of self.old) (life_of self.new) }
        ensures steady { IsSteady result (life_of self.old) (life_of self.new) }
        ensures counts { counts_of self.new ≡ after_call true (is_ok result) (counts_of self.old) }
        ensures injected { OnOk result (next_injected (counts_of self.old) ≡ Goes) }
        ensures unchanged { OnErr result (IsQuiet (life_of self.old) (life_of self.new)) }
    {
        if self.counts.begin(true) != Injected::Goes {
            self.counts.fail();
            return Err(Fault);
        }
        match self.change_log.sync(file) {
            Ok(()) => Ok(()),
            Err(_) => {
                self.counts.fail();
                Err(Fault)
            }
        }
    }

    fn list(&mut self) -> Result<Vec<FileId>, ListFault>
        ensures files { IfOk result (λ files.
            AreFilesWith (λ file. IsSome (reads (life_of self.old).now file)) files.items) }
        ensures quiet { IsQuiet (life_of self.old) (life_of self.new) }
        ensures cause { HasListCause result (life_of self.old) (life_of self.new) }
        ensures steady { IsSteady result (life_of self.old) (life_of self.new) }
        ensures counts { counts_of self.new ≡ after_list result (counts_of self.old) }
        ensures injected { IsErrOf result Device ↔ (next_injected (counts_of self.old) ≢ Goes) }
    {
        if self.counts.begin(false) != Injected::Goes {
            self.counts.fail();
            return Err(ListFault::Device);
        }
        self.change_log.list().map_err(|_| ListFault::NoMemory)
    }

    fn faults(&self) -> u64 {
        self.counts.faults
    }
}
