//! Why a folder is not opened.
ghost use Rattle.std.specs.Prelude.{◌≡◌};
ghost use Rattle.std.specs.IoError.{error_kind};
ghost use Rattle.host_disk.specs.OpenFaults.{open_fault_of};

use std::io;
use thiserror::Error;

/// Why a folder is not opened.
#[derive(Clone, Copy, Debug, PartialEq, Eq, Error)]
pub enum OpenFault {
    /// It is not there.
    #[error("the folder is not there")]
    Missing,
    /// What has its name is no folder.
    #[error("what has this name is no folder")]
    NoFolder,
    /// This user may not open it.
    #[error("no permission to open the folder")]
    Denied,
    /// The system refused it.
    #[error("the folder cannot be opened")]
    Device,
    /// Another process, or another disk of this one, has it open.
    #[error("the folder is in use")]
    Busy,
    /// There was no memory for what a disk keeps: its open files and their names.
    #[error("no memory for the folder")]
    NoMemory,
}

impl OpenFault {
    /// What the system's answer to its path or its opening says of a folder.
    pub fn of(error: io::Error) -> OpenFault
        ensures { result ≡ open_fault_of (error_kind error) }
    {
        match error.kind() {
            io::ErrorKind::NotFound => OpenFault::Missing,
            io::ErrorKind::NotADirectory => OpenFault::NoFolder,
            io::ErrorKind::PermissionDenied => OpenFault::Denied,
            io::ErrorKind::OutOfMemory => OpenFault::NoMemory,
            _ => OpenFault::Device,
        }
    }
}
