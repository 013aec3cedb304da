//! A listing of a file's frames, which are more bytes than are read at once: docs/STORAGE.md, "Segments".

use archive_commands::{Listing, list_frames};
use std::alloc::Global;
use std::io::Read;
use std::test::*;

/// `hello` of session 7 and stream 1001, in term 42 at offset 0.
const HELLO: [u8; 37] =
    *b"\x25\0\0\0\0\xc0\x01\0\0\0\0\0\x07\0\0\0\xe9\x03\0\0\x2a\0\0\0\0\0\0\0\0\0\0\0hello";

/// What was written of the listing of what a reader gives, and how it ended.
fn listed<R: Read + Drop>(alloc: Global, reader: R) -> Result<(Listing, Vec<u8>), Fail> {
    let mut out = Vec::new(alloc);
    match list_frames(alloc, reader, &mut out) {
        Ok(listing) => Ok((listing, out)),
        Err(end) => Err(Fail::from(end)),
    }
}

/// Adds `hello`, and zeros to its aligned length.
fn add_hello(file: &mut Vec<u8>) -> Result<(), Fail> {
    file.extend_from_slice(&HELLO)?;
    let end = file.len();
    Ok(file.resize(end.saturating_add(27), 0)?)
}

/// So many times `hello`.
fn hellos(alloc: Global, count: usize) -> Result<Vec<u8>, Fail> {
    let mut file = Vec::new(alloc);
    for _ in 0..count {
        add_hello(&mut file)?;
    }
    Ok(file)
}

/// How the listing of 65,600 bytes of frames ended, how long it is, and whether it ends as it has to.
fn many_listed(alloc: Global) -> Result<(Listing, usize, bool), Fail> {
    let file = hellos(alloc, 1_025)?;
    let (listing, out) = listed(alloc, file.as_slice())?;
    let end = b"frame 42 0 1 37 c0\nend 1025\n";
    Ok((listing, out.len(), out.as_slice().ends_with(end)))
}

/// 65,600 bytes of frames, which are more than are read at once.
#[test]
fn many_frames(rt: HostRuntime) -> Result<(), Fail> {
    let (listing, count, is_ended) = many_listed(rt.alloc())?;
    assert!(rt; listing == Listing::Whole);
    assert!(rt; count == 1_025 * 19 + 9);
    assert!(rt; is_ended);
    Ok(())
}
