//! Laws of the definitions, each the contract of a function that does nothing.
ghost use Rattle.std.specs.Prelude.{◌≡◌, ◌+◌, ◌-◌, ◌<◌, ◌≤◌, ℕ, List, ◌∷◌, length, get_or};
ghost use Rattle.disk_core.specs.declared.file_id.FileId.{FileId};
ghost use Rattle.disk_core.specs.DiskImage.{DiskImage, bytes_of};
ghost use Rattle.disk_core.specs.Life.{Life, LeavesOnly};
ghost use Rattle.disk_core.specs.Standing.{Holds};
ghost use Rattle.host_disk.specs.Events.{Event, gave, measured};
ghost use Rattle.host_disk.specs.OtherOpening.{SeesLeft};
ghost use Rattle.host_disk.specs.Replay.{replay};

/// If each image that a crash may leave, at every moment of a disk from one life to a later one, has some bytes at an offset
/// of a file, another opening that is only read meanwhile is given these bytes: by a read that lies in them, which gives some,
/// and a length reaches their end.
pub fn what_every_crash_leaves_is_read()
    ensures same { (old new : Life) (earlier : List Event) (file : FileId) (from at count : ℕ) (bytes after : List ℕ) →
        LeavesOnly old new (λ (image : DiskImage). Holds (bytes_of (image file)) from bytes) →
        SeesLeft old new (gave file at count after ∷ earlier) → from ≤ at → at + count ≤ from + length bytes →
        (k : ℕ) → k < count → get_or after k 0 ≡ get_or bytes (at - from + k) 0 }
    ensures some { (old new : Life) (earlier : List Event) (file : FileId) (from at count : ℕ) (bytes after : List ℕ) →
        LeavesOnly old new (λ (image : DiskImage). Holds (bytes_of (image file)) from bytes) →
        SeesLeft old new (gave file at count after ∷ earlier) → from ≤ at → at < from + length bytes →
        0 < length (replay earlier).asked → 0 < count }
    ensures long { (old new : Life) (earlier : List Event) (file : FileId) (from count : ℕ) (bytes : List ℕ) →
        LeavesOnly old new (λ (image : DiskImage). Holds (bytes_of (image file)) from bytes) →
        SeesLeft old new (measured file count ∷ earlier) → 0 < length bytes → from + length bytes ≤ count }
{}
