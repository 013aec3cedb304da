//! A folder as a disk: docs/STORAGE.md, "Folders".
#![tactic(auto)]

pub mod closed_disk;
mod file_names;
mod file_path;
pub mod folder;
pub mod folder_disk;
pub mod host_disk;
pub mod host_folder;
pub mod last_fault;
pub mod laws;
mod looked;
pub mod lost;
pub mod open_fault;
mod open_files;
pub mod read_folder;
mod system;

pub use closed_disk::ClosedDisk;
pub use folder::Folder;
pub use folder_disk::FolderDisk;
pub use host_disk::HostDisk;
pub use host_folder::HostFolder;
pub use last_fault::{FailedCall, LastFault};
pub use lost::Lost;
pub use open_fault::OpenFault;
pub use read_folder::ReadFolder;
