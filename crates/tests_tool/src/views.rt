//! A disk that is only read: docs/CONTROL.md, "Looking without a change".

use super::scripts::after;
use archive_view::ReadOnly;
use disk_core::{Disk, FileId, MemoryDisk};
use std::test::*;

/// A frame in a recording that was stopped, and one in another that is active.
const SCRIPT: &str =
    "start 1001 7 42 65536 1408 131072 0 1000 c; start 1001 7 42 65536 1408 131072 0 1000 d; block 0 HELLO_AT_0; \
    block 1 HELLO_AT_0; stop 0 2000";

/// Whether a disk refuses each change, and takes a sync.
fn refuses_changes(disk: &mut ReadOnly<MemoryDisk>) -> bool {
    disk.write_at(FileId::BankA, 0, &[0]).is_err()
        && disk.cut(FileId::BankA, 0).is_err()
        && disk.remove(FileId::BankA).is_err()
        && disk.sync(FileId::BankA).is_ok()
}

/// A disk that is only read refuses each change, counts these as faults, and takes a sync.
#[test]
fn a_disk_that_is_only_read_refuses_changes(rt: HostRuntime) -> Result<(), Fail> {
    let mut disk = ReadOnly::new(after(rt.alloc(), SCRIPT)?);
    let refuses = refuses_changes(&mut disk);
    let faults = disk.faults();
    drop(disk);
    assert!(rt; refuses && faults == 3);
    Ok(())
}
