//! What a disk keeps of its last fault.
use disk_core::FileId;
use std::{fmt, io};

/// A call of a folder that failed. Offsets, lengths and counts are in bytes.
#[derive(Clone, Copy)]
pub enum FailedCall {
    /// A file's length was not told.
    Measure(FileId),
    /// A read from an offset.
    Read(FileId, u64),
    /// A write of so many bytes at an offset.
    Write(FileId, u64, usize),
    /// A cut to a length.
    Cut(FileId, u64),
    /// A remove.
    Remove(FileId),
    /// A sync.
    Sync(FileId),
    /// A listing.
    List,
    /// A call of a file, so many bytes behind an offset, that was refused with nothing asked of the system.
    Refused(FileId, u64, usize),
}

/// The last call of a disk that failed, and what the system told of it. A call that was refused with nothing
/// asked of the system leaves what the system told before.
#[derive(Clone, Copy)]
pub struct LastFault {
    pub call: FailedCall,
    pub error: io::Error,
}

/// The call, its file and the system's text, as `write 0-0.rec: No space left on device (os error 28)`.
impl fmt::Display for LastFault {
    fn fmt<W: fmt::Write>(&self, f: &mut fmt::Formatter<W>) -> fmt::Result {
        match self.call {
            FailedCall::Measure(file) => write!(f, "length {file}: {}", self.error),
            FailedCall::Read(file, _) => write!(f, "read {file}: {}", self.error),
            FailedCall::Write(file, _, _) => write!(f, "write {file}: {}", self.error),
            FailedCall::Cut(file, _) => write!(f, "cut {file}: {}", self.error),
            FailedCall::Remove(file) => write!(f, "remove {file}: {}", self.error),
            FailedCall::Sync(file) => write!(f, "sync {file}: {}", self.error),
            FailedCall::List => write!(f, "list: {}", self.error),
            FailedCall::Refused(file, _, _) => write!(f, "refused {file}: {}", self.error),
        }
    }
}
