//! What is asked of a folder: that each call is noted with its answer, whatever that is.
ghost use Rattle.std.specs.Prelude.{◌≡◌, ◌+◌, ◌≤◌, List, ◌∷◌, length, IfOk, MatchResult};
ghost use Rattle.std.specs.List.Sorted.{IsStrictlySortedBy};
ghost use Rattle.disk_core.specs.FileNames.{file_cmp};
ghost use Rattle.host_disk.specs.Faults.{after_list_fault};
ghost use Rattle.host_disk.specs.Events.{Event, measured, measure_failed, asked, gave, read_failed, wrote, write_failed, cut, cut_failed, gone, remove_failed, flushed, flush_failed, listed, refused};

use disk_core::{Fault, FileId, ListFault};

/// The calls of a folder. Of what they answer nothing is promised.
pub trait Folder {
    /// Each call so far with its answer, the newest first.
    ghost events: { Self → List Event };

    /// The length of a file, 0 if it is absent.
    fn len(&mut self, file: FileId) -> Result<u64, Fault>
        ensures noted { MatchResult result
            (λ n. events self.new ≡ measured file n ∷ events self.old)
            (λ _. events self.new ≡ measure_failed file ∷ events self.old) };

    /// Reads once from an offset, and answers how many bytes came: none only at the end.
    fn read_some(&mut self, file: FileId, at: u64, into: &mut [u8]) -> Result<usize, Fault>
        ensures within { IfOk result (λ n. n ≤ length into.old) }
        ensures noted { MatchResult result
            (λ n. events self.new ≡ gave file at n into.new ∷ asked into.old ∷ events self.old)
            (λ _. events self.new ≡ read_failed file at ∷ asked into.old ∷ events self.old) };

    /// Writes all of the bytes at an offset.
    fn write(&mut self, file: FileId, at: u64, bytes: &[u8]) -> Result<(), Fault>
        ensures noted { MatchResult result
            (λ _. events self.new ≡ wrote file at bytes.now ∷ events self.old)
            (λ _. events self.new ≡ write_failed file at (length bytes.now) ∷ events self.old) };

    /// Cuts a file to a length, where it is longer.
    fn cut(&mut self, file: FileId, len: u64) -> Result<(), Fault>
        ensures noted { MatchResult result
            (λ _. events self.new ≡ cut file len ∷ events self.old)
            (λ _. events self.new ≡ cut_failed file len ∷ events self.old) };

    /// Removes a file, if it is there.
    fn remove(&mut self, file: FileId) -> Result<(), Fault>
        ensures noted { MatchResult result
            (λ _. events self.new ≡ gone file ∷ events self.old)
            (λ _. events self.new ≡ remove_failed file ∷ events self.old) };

    /// Syncs a file, if it is there, and its name.
    fn sync(&mut self, file: FileId) -> Result<(), Fault>
        ensures noted { MatchResult result
            (λ _. events self.new ≡ flushed file ∷ events self.old)
            (λ _. events self.new ≡ flush_failed file ∷ events self.old) };

    /// The files that are there, each once and in order.
    fn list(&mut self) -> Result<Vec<FileId>, ListFault>
        ensures in_order { IfOk result (λ files. IsStrictlySortedBy file_cmp files.items) }
        ensures noted { MatchResult result
            (λ files. events self.new ≡ listed files.items ∷ events self.old)
            (λ fault. events self.new ≡ after_list_fault fault (events self.old)) };

    /// Refuses a call of a file, so many bytes behind an offset, and asks the system nothing.
    fn refuse(&mut self, file: FileId, at: u64, done: usize)
        ensures { events self.new ≡ refused file (at + done) ∷ events self.old };
}
