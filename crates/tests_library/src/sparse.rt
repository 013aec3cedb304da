//! Frames whose header declares much, in a file that no memory could hold: what is read of them, and what memory they take.

ghost use Rattle.std.specs.Prelude.{◌≡◌, ◌≤◌, ◌≤ℤ◌, ◌+◌, ◌-◌, ◌^◌, min, pos};

use disk_core::{Disk, Fault, FileId, ListFault};
use frame_core::{Frame, FrameKind, Geometry, Refusal};
use replay_core::{PageCache, Replay, Store};
use segment_store::{Layout, read_frame};
use std::alloc::Global;
use std::test::Fail;

/// Bytes of a term and of a segment: the most that they may have.
const TERM_LENGTH: i32 = 1_073_741_824;

const GEOMETRY: Geometry = Geometry {
    initial_term_id: 42,
    term_length: TERM_LENGTH,
    mtu: 1_408,
};

const LAYOUT: Layout = Layout {
    recording: 0,
    stream_id: 1_001,
    start_position: 0,
    term_length: TERM_LENGTH,
    segment_length: TERM_LENGTH,
};

/// A pad of a whole term, term 42.
const LONG_PAD: [u8; 32] =
    *b"\0\0\0\x40\0\xc0\0\0\0\0\0\0\x07\0\0\0\xe9\x03\0\0\x2a\0\0\0\0\0\0\0\0\0\0\0";

/// The header of a data frame as long as a term, term 42.
const LONG_FRAME: [u8; 32] =
    *b"\0\0\0\x40\0\xc0\x01\0\0\0\0\0\x07\0\0\0\xe9\x03\0\0\x2a\0\0\0\0\0\0\0\0\0\0\0";

/// A disk whose one file begins with a header and has zeros up to its length. It takes no memory for them, and tells the
/// greatest number of bytes that it was asked for at once. It can't be written to.
#[derive(Drop)]
struct SparseDisk {
    header: [u8; 32],
    length: u64,
    most: usize,
    faults: u64,
}

impl SparseDisk {
    fn new(header: [u8; 32], length: u64) -> SparseDisk {
        SparseDisk {
            header,
            length,
            most: 0,
            faults: 0,
        }
    }

    /// A call that fails.
    fn failed(&mut self) -> Fault
        ensures counted { self.new.faults ≡ min (self.old.faults + 1) (2 ^ 64 - 1) }
        ensures no_less { self.old.faults ≤ self.new.faults }
    {
        self.faults = self.faults.saturating_add(1);
        Fault
    }
}

/// The file's byte at an offset.
fn byte_at(header: &[u8; 32], offset: u64) -> u8 {
    if offset < 32 {
        header[offset as usize]
    } else {
        0
    }
}

// What it reads as no contract says: it does not obey the crash model.
impl Disk for SparseDisk {
    ghost use Rattle.tests_library.specs.Sparse.{absent_stays, astray};

    ghost life = { λ d. astray d.faults };

    ghost reads_may_stay = { λ d. absent_stays };

    fn len(&mut self, _file: FileId) -> Result<u64, Fault> {
        Ok(self.length)
    }

    fn read_at(&mut self, _file: FileId, at: u64, into: &mut [u8]) -> Result<usize, Fault> {
        self.most = self.most.max(into.len());
        let count = (into.len() as u64).min(self.length.saturating_sub(at)) as usize;
        for (index, byte) in into[..count].iter_mut().enumerate() {
            *byte = byte_at(&self.header, at.saturating_add(index as u64));
        }
        Ok(count)
    }

    fn write_at(&mut self, _file: FileId, _at: u64, _bytes: &[u8]) -> Result<(), Fault> {
        Err(self.failed())
    }

    fn cut(&mut self, _file: FileId, _len: u64) -> Result<(), Fault> {
        Err(self.failed())
    }

    fn remove(&mut self, _file: FileId) -> Result<(), Fault> {
        Err(self.failed())
    }

    fn sync(&mut self, _file: FileId) -> Result<(), Fault> {
        Err(self.failed())
    }

    fn list(&mut self) -> Result<Vec<FileId>, ListFault> {
        let _ = self.failed();
        Err(ListFault::Device)
    }

    fn faults(&self) -> u64 {
        self.faults
    }
}

/// The frame at the beginning of the file.
#[tactic(auto, using(crate::proofs::SegmentFacts::layout_of_long_terms, crate::proofs::SegmentFacts::geometry_of_long_terms))]
fn first_frame(alloc: Global, disk: &mut SparseDisk) -> Result<Frame, Refusal> {
    read_frame(alloc, disk, &LAYOUT, &GEOMETRY, 0, i64::from(TERM_LENGTH))
}

/// What a replay from the beginning gives of a recording of one term.
#[tactic(auto, using(crate::proofs::SegmentFacts::layout_of_long_terms, crate::proofs::SegmentFacts::geometry_of_long_terms))]
fn polled(alloc: Global, disk: &mut SparseDisk, replay: &mut Replay) -> Result<usize, Refusal>
    requires { pos 0 ≤ℤ replay.old.next }
{
    let mut pages = PageCache::new(alloc, 256)?;
    let mut store = Store {
        disk,
        pages: &mut pages,
        layout: LAYOUT,
        geometry: GEOMETRY,
        generation: 0,
    };
    let frames = replay.poll(alloc, &mut store, i64::from(TERM_LENGTH), 10)?;
    Ok(frames.len())
}

fn is_long_pad(frame: &Frame) -> bool {
    frame.kind == FrameKind::Pad && frame.length == TERM_LENGTH && frame.payload.is_empty()
}

/// A pad is read by its header. No byte of what it fills is asked for at once with more than the MTU, even if all of it
/// is in the file. It takes no memory, which trials/refused_memory.py asks.
#[test]
fn counted_memory_of_a_long_pad(rt: HostRuntime) -> Result<(), Fail> {
    for length in [32, 65_536, 1_073_741_824] {
        let mut disk = SparseDisk::new(LONG_PAD, length);
        for _ in 0..100 {
            assert!(rt; is_long_pad(&first_frame(rt.alloc(), &mut disk)?));
        }
        assert!(rt; disk.most <= 1_408);
    }
    Ok(())
}

/// A header that declares more than stands in the file is damage, and takes no memory.
#[test]
fn counted_memory_of_a_short_file(rt: HostRuntime) -> Result<(), Fail> {
    let damaged = Refusal::Damaged {
        recording: 0,
        position: 0,
    };
    for length in [0, 31, 32, 1_408, 65_536, 1_073_741_823] {
        let mut disk = SparseDisk::new(LONG_FRAME, length);
        for _ in 0..100 {
            assert!(rt; first_frame(rt.alloc(), &mut disk).err() == Some(damaged));
        }
        assert!(rt; disk.most <= 1_408);
    }
    Ok(())
}

/// The pad's header lies in the first of the pages that one call reads: 16 of 4,096 bytes, and none of what follows them.
#[test]
fn a_long_pad_is_replayed(rt: HostRuntime) -> Result<(), Fail> {
    let mut disk = SparseDisk::new(LONG_PAD, 32);
    let mut replay = Replay::new(0, 0, -1);
    assert!(rt; replay.next >= 0);
    assert!(rt; polled(rt.alloc(), &mut disk, &mut replay)? == 1);
    assert!(rt; replay.next == 1_073_741_824 && disk.most == 65_536);
    Ok(())
}
