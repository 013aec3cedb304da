//! Laws of the definitions, each the contract of a function that does nothing.
ghost use Rattle.std.specs.Prelude.{◌≡◌, ◌≢◌, ◌+◌, ◌<◌, ◌≤◌, ℕ, max, Bool, List, length, get_or, Option, Some, IsSome, if◌then◌else◌};
ghost use Rattle.disk_core.specs.declared.file_id.FileId.{FileId};
ghost use Rattle.disk_core.specs.DiskImage.{DiskImage, FileState, Files, IsUnsynced, LeavesFile, MayLeave, reads, bytes_of, durable, begun};
ghost use Rattle.disk_core.specs.Calls.{overwritten, write_to, cut_to, removed, synced, IsTorn, IsWritten, IsShorter, IsCut, IsRemoved, IsSynced};
ghost use Rattle.disk_core.specs.Standing.{Holds, KeepsBelow};

/// A write of some bytes leaves the file as long as it was, or as the bytes reach. The bytes stand at
/// the offset, and elsewhere the file is as it was, with zeros in a gap.
#[tactic(auto, using(crate::proofs::OverwriteLemmas::length_overwritten, crate::proofs::OverwriteLemmas::overwritten_inside, crate::proofs::OverwriteLemmas::overwritten_below, crate::proofs::OverwriteLemmas::overwritten_above))]
pub fn writes_change_their_range_alone()
    ensures long { (at : ℕ) (bytes old : List ℕ) → 0 < length bytes →
        length (overwritten at bytes old) ≡ max (length old) (at + length bytes) }
    ensures inside { (at : ℕ) (bytes old : List ℕ) (k : ℕ) → k < length bytes →
        get_or (overwritten at bytes old) (at + k) 0 ≡ get_or bytes k 0 }
    ensures below { (at : ℕ) (bytes old : List ℕ) (offset : ℕ) → offset < at →
        get_or (overwritten at bytes old) offset 0 ≡ get_or old offset 0 }
    ensures above { (at : ℕ) (bytes old : List ℕ) (offset : ℕ) → at + length bytes ≤ offset →
        get_or (overwritten at bytes old) offset 0 ≡ get_or old offset 0 }
{}

/// What a call makes of a file where it succeeds is within the bound on what it may make.
#[tactic(auto, using(crate::proofs::OverwriteLemmas::write_is_written, crate::proofs::DiskImageLemmas::cut_is_cut))]
pub fn calls_keep_their_bounds()
    ensures write { (at : ℕ) (bytes : List ℕ) (file : FileState) →
        IsWritten at (length bytes) file (write_to at bytes file) }
    ensures cut { (len : ℕ) (file : FileState) → IsCut len file (cut_to len file) }
    ensures remove { (file : FileState) → IsRemoved file (removed file) }
    ensures sync { (file : FileState) → IsSynced file (synced file) }
{}

/// A crash leaves a file at least as long as its durable bytes reach, and each of them as it reads: so
/// all images that it may leave have the same durable bytes.
#[tactic(auto, using(crate::proofs::DiskImageLemmas::durable_bytes))]
pub fn durable_bytes_are_left()
    ensures there { (file : FileState) (left : Option (List ℕ)) (offset : ℕ) →
        LeavesFile file left → ¬ IsUnsynced file offset → offset < length (bytes_of left) }
    ensures as_read { (file : FileState) (left : Option (List ℕ)) (offset : ℕ) →
        LeavesFile file left → ¬ IsUnsynced file offset →
        get_or (bytes_of left) offset 0 ≡ get_or (bytes_of file.reads) offset 0 }
{}

/// Nothing that a crash may leave before a write, or once it is half done, is lost when it is done: so a
/// crash within a write leaves nothing that one after it may not leave.
#[tactic(auto, using(crate::proofs::DiskImageLemmas::written_keeps, crate::proofs::DiskImageLemmas::half_written))]
pub fn writes_keep_outcomes()
    ensures half_done { (at count : ℕ) (old half done : FileState) (left : Option (List ℕ)) →
        IsTorn at count old half → IsTorn at count old done →
        LeavesFile half left → LeavesFile done left }
    ensures before { (at count : ℕ) (old new : FileState) (left : Option (List ℕ)) →
        IsWritten at count old new → LeavesFile old left → LeavesFile new left }
{}

/// Nothing that a crash may leave before a cut, or once it is half done, is lost when it is done.
#[tactic(auto, using(crate::proofs::DiskImageLemmas::cut_keeps, crate::proofs::DiskImageLemmas::half_cut))]
pub fn cuts_keep_outcomes()
    ensures half_done { (len : ℕ) (old half done : FileState) (left : Option (List ℕ)) →
        IsShorter len old half → IsShorter len old done →
        LeavesFile half left → LeavesFile done left }
    ensures before { (len : ℕ) (old new : FileState) (left : Option (List ℕ)) →
        IsCut len old new → LeavesFile old left → LeavesFile new left }
{}

/// Nothing that a crash may leave before a remove, or once it has failed, is lost when it is done.
#[tactic(auto, using(crate::proofs::DiskImageLemmas::removed_keeps, crate::proofs::DiskImageLemmas::half_removed))]
pub fn removes_keep_outcomes()
    ensures half_done { (old : FileState) (left : Option (List ℕ)) →
        LeavesFile (record (removed old) { reads = old.reads }) left →
        LeavesFile (removed old) left }
    ensures before { (old new : FileState) (left : Option (List ℕ)) →
        IsRemoved old new → LeavesFile old left → LeavesFile new left }
{}

/// A sync, also a failed one, adds nothing to what a crash may leave: so a crash within a sync leaves
/// nothing that one before it may not leave.
#[tactic(auto, using(crate::proofs::DiskImageLemmas::synced_left))]
pub fn syncs_add_no_outcome()
    ensures { (old new : FileState) (left : Option (List ℕ)) → LeavesFile old old.reads →
        IsSynced old new → LeavesFile new left → LeavesFile old left }
{}

/// Once each file has been synced, a crash leaves what is read and nothing else.
#[tactic(auto, using(crate::proofs::DiskImageLemmas::all_durable))]
pub fn synced_files_are_left_as_read()
    ensures { (files : Files) (image : DiskImage) →
        ((file : FileId) → files file ≡ durable (reads files file)) → MayLeave files image → (file : FileId) → image file ≡ reads files file }
{}

/// Of a disk that is begun from an image, a crash leaves that image and nothing else.
#[tactic(auto, using(crate::proofs::DiskImageLemmas::begun_left))]
pub fn a_begun_disk_is_durable()
    ensures { (first image : DiskImage) → MayLeave (begun first) image →
        (file : FileId) → image file ≡ first file }
{}

/// What a crash leaves of one file says nothing of another: of two images that it may leave, each file
/// may be left as in either.
#[tactic(auto, using(crate::proofs::DiskImageLemmas::either_image))]
pub fn files_are_independent()
    ensures { (files : Files) (one other : DiskImage) (pick : FileId → Bool) →
        MayLeave files one → MayLeave files other →
        MayLeave files (λ file. if pick file then one file else other file) }
{}

/// A write at an offset or past it, or a cut to it or past it, wholly or partly done, keeps what is below
/// that offset, and so do two changes that keep it one after the other.
#[tactic(auto, using(crate::proofs::StandingLemmas::keeps_refl, crate::proofs::StandingLemmas::keeps_write, crate::proofs::StandingLemmas::keeps_cut, crate::proofs::StandingLemmas::keeps_on))]
pub fn later_changes_keep_what_is_below()
    ensures start { (at : ℕ) (file : FileState) → KeepsBelow at file file }
    ensures write { (at to count : ℕ) (old mid new : FileState) → at ≤ to →
        KeepsBelow at old mid → IsWritten to count mid new → KeepsBelow at old new }
    ensures cut { (at len : ℕ) (old mid new : FileState) → at ≤ len →
        KeepsBelow at old mid → IsCut len mid new → KeepsBelow at old new }
    ensures both { (at : ℕ) (old mid new : FileState) →
        KeepsBelow at old mid → KeepsBelow at mid new → KeepsBelow at old new }
{}

/// Where a durable file is then changed from an offset on alone, bytes that stood in it below that offset
/// stand in it still, and in whatever a crash leaves of it, which is there.
#[tactic(auto, using(crate::proofs::StandingLemmas::keeps_holds, crate::proofs::StandingLemmas::below_there, crate::proofs::StandingLemmas::below_stands))]
pub fn bytes_below_stand()
    ensures read { (at : ℕ) (old new : FileState) (offset : ℕ) (bytes : List ℕ) →
        KeepsBelow at old new → Holds (bytes_of old.reads) offset bytes →
        offset + length bytes ≤ at → Holds (bytes_of new.reads) offset bytes }
    ensures there { (at : ℕ) (old : List ℕ) (file : FileState) (left : Option (List ℕ)) →
        KeepsBelow at (durable (Some old)) file → LeavesFile file left → IsSome left }
    ensures stand { (at : ℕ) (old left : List ℕ) (file : FileState) (offset : ℕ) (bytes : List ℕ) →
        KeepsBelow at (durable (Some old)) file → LeavesFile file (Some left) →
        Holds old offset bytes → offset + length bytes ≤ at → Holds left offset bytes }
{}
