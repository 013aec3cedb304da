//! Files of the archive, what a device call does to them, and what a crash may leave.
#![tactic(auto)]

mod change;
mod change_log;
mod counts;
pub mod crash;
pub mod disk;
pub mod fault;
pub mod file_id;
pub mod laws;
pub mod memory;
mod memory_file;
mod refusal;

pub use disk::Disk;
pub use fault::{Fault, ListFault};
pub use file_id::FileId;
pub use memory::MemoryDisk;
