//! What a device call answers where it fails.
use thiserror::Error;

/// A device call failed, and the disk has counted it.
#[derive(Clone, Copy, Debug, PartialEq, Eq, Error)]
#[error("the device failed")]
pub struct Fault;

/// Why a listing of files failed.
#[derive(Clone, Copy, Debug, PartialEq, Eq, Error)]
pub enum ListFault {
    /// The device failed, and the disk has counted it.
    #[error("the device failed")]
    Device,
    /// There was no memory for the list. The disk does not count it.
    #[error("no memory for the list of files")]
    NoMemory,
}
