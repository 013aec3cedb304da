//! A writer that held something before a script: what is written comes after it.

use super::scripts::behind;
use disk_core::MemoryDisk;
use std::alloc::Global;
use std::io::{Read, Write};
use std::test::*;
use tool_core::{EarlyEnd, Unobserved};

/// Why a script over an empty disk ended early, where it did.
fn end_of<R: Read + Drop, W: Write>(alloc: Global, reader: R, writer: &mut W) -> Option<EarlyEnd> {
    let disk = MemoryDisk::new(alloc);
    behind(alloc, reader, writer, disk, &mut Unobserved).err()
}

/// Replies are appended to what the output held before.
#[test]
fn what_was_written_before_stays(rt: HostRuntime) -> Result<(), Fail> {
    let mut out = b"before\n".to_vec(rt.alloc())?;
    let end = end_of(rt.alloc(), b"quit\n".as_slice(), &mut out);
    let is_reported = out.as_slice() == b"before\nbye\n".as_slice();
    assert!(rt; end.is_none() && is_reported);
    Ok(())
}
