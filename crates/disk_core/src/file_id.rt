//! The files of an archive: docs/STORAGE.md, "Files".
ghost use Rattle.std.specs.Prelude.{◌≡◌, IfOk, string_bytes, Some};

use std::alloc::{AllocError, Global};
use std::cmp::Ordering;
use std::fmt;

/// A file of an archive. Files are ordered: bank A, bank B, then segments by recording and then by base.
#[derive(Clone, Copy, Debug, PartialEq, Eq, PartialOrd, Ord)]
pub enum FileId {
    /// The first bank of the catalogue.
    BankA,
    /// The second bank of the catalogue.
    BankB,
    /// The part of a recording from this base, a position in bytes.
    Segment { recording: i64, base: i64 },
}

impl FileId {
    ghost use Rattle.disk_core.specs.FileNames.{name_of, file_cmp};

    /// The file's name in a folder, `catalogue-a.bank`, `catalogue-b.bank` or `<recording>-<base>.rec`
    /// in decimal. `AllocError` where there is no memory for it.
    pub fn name(&self, alloc: Global) -> Result<String, AllocError>
        ensures { IfOk result (λ name. string_bytes name ≡ name_of self.now) }
    {
        self.to_string(alloc)
    }

    /// How the two files are ordered.
    pub fn compare(&self, other: &FileId) -> Ordering
        ensures { result ≡ file_cmp self.now other.now }
    {
        self.cmp(other)
    }
}

impl fmt::Display for FileId {
    ghost use Rattle.std.specs.Prelude.{Some};
    ghost use Rattle.disk_core.specs.FileNames.{name_of};

    ghost output = { λ file. Some (name_of file) };

    fn fmt<W: fmt::Write>(&self, f: &mut fmt::Formatter<W>) -> fmt::Result {
        match self {
            FileId::BankA => write!(f, "catalogue-a.bank"),
            FileId::BankB => write!(f, "catalogue-b.bank"),
            FileId::Segment { recording, base } => write!(f, "{recording}-{base}.rec"),
        }
    }
}
