//! Settled frames, read by a disk of the reader's own: docs/CONTROL.md, "Replays", by example.

use crate::pages::{END, stored};
use archive_model::{Channel, Descriptor, Registration, SourceIdentity};
use control_core::OpenReplay;
use disk_core::{Disk, Fault, FileId, ListFault, MemoryDisk};
use frame_core::{FrameRef, Refusal};
use recording_reads::{Cursor, SettledReader, is_readable};
use replay_core::{FrameTaker, PageCache};
use std::alloc::{AllocError, Global};
use std::process::Abort;
use std::test::Fail;

/// A disk that is only read. It notes up to which offset it was asked for bytes.
#[derive(Drop)]
struct Noted<D> {
    disk: D,
    end: u64,
}

impl<D: Disk> Disk for Noted<D> {
    ghost life = { λ noted. D.life noted.disk };

    ghost reads_may_stay = { λ noted. D.reads_may_stay noted.disk };

    fn len(&mut self, file: FileId) -> Result<u64, Fault> {
        self.disk.len(file)
    }

    fn read_at(&mut self, file: FileId, at: u64, into: &mut [u8]) -> Result<usize, Fault> {
        self.end = self.end.max(at.saturating_add(into.len() as u64));
        self.disk.read_at(file, at, into)
    }

    fn write_at(&mut self, file: FileId, at: u64, bytes: &[u8]) -> Result<(), Fault> {
        self.disk.write_at(file, at, bytes)
    }

    fn cut(&mut self, file: FileId, len: u64) -> Result<(), Fault> {
        self.disk.cut(file, len)
    }

    fn remove(&mut self, file: FileId) -> Result<(), Fault> {
        self.disk.remove(file)
    }

    fn sync(&mut self, file: FileId) -> Result<(), Fault> {
        self.disk.sync(file)
    }

    fn list(&mut self) -> Result<Vec<FileId>, ListFault> {
        self.disk.list()
    }

    fn faults(&self) -> u64 {
        self.disk.faults()
    }
}

/// Where frames begin whose header says 90 bytes, as all of the test do.
#[derive(Drop)]
struct Headed {
    found: Vec<i64>,
}

impl FrameTaker for Headed {
    ghost takes = { λ old position frame new. Unit {0} };

    ghost leaves = { λ old new. Unit {0} };

    fn take(
        &mut self,
        position: i64,
        header: &[u8],
        frame: &FrameRef<'_>,
    ) -> Result<(), AllocError> {
        if header.len() == 32 && header.first() == Some(&90) && frame.payload.len() == 58 {
            self.found.push(position)?;
        }
        Ok(())
    }
}

/// The recording, of which nothing was seen.
fn recording(alloc: Global) -> Result<Registration, AllocError> {
    let descriptor = Descriptor {
        recording: 0,
        start_timestamp: 1_000,
        stop_timestamp: -1,
        start_position: 0,
        stop_position: -1,
        initial_term_id: 42,
        segment_length: 131_072,
        term_length: 65_536,
        mtu: 1_408,
        session_id: 7,
        stream_id: 1_001,
        channel: Channel::new(String::from_str(alloc, "c")?),
        source_identity: SourceIdentity::none(alloc),
    };
    Ok(Registration {
        descriptor,
        recorded: 0,
    })
}

/// A reader of all of its frames.
type Reader = SettledReader<Noted<MemoryDisk>>;

/// A reader by a disk, from the start.
fn reader(rt: &impl Abort, alloc: Global, disk: MemoryDisk) -> Result<Reader, Refusal> {
    let known = recording(alloc)?;
    let pages = PageCache::new(alloc, 16)?;
    let replay = OpenReplay {
        number: 0,
        recording: 0,
        next: 0,
        bound: i64::MAX,
    };
    assert!(rt; is_readable(&known, &replay));
    let disk = Noted { disk, end: 0 };
    Ok(SettledReader::new(disk, pages, Cursor::new(known, replay)))
}

/// How many frames a turn hands on.
fn turned(alloc: Global, reader: &mut Reader, seen: i64) -> Result<usize, Refusal> {
    let mut taker = Headed {
        found: Vec::new(alloc),
    };
    reader.turn(alloc, seen, 1_000, &mut taker)?;
    Ok(taker.found.len())
}

/// How many frames two turns hand on, each up to a position that was seen.
fn turned_twice(
    rt: &impl Abort,
    alloc: Global,
    reader: &mut Reader,
    first: i64,
    second: i64,
) -> Result<(usize, usize), Refusal> {
    let one = turned(alloc, reader, first)?;
    assert!(rt; reader.next_position() == first && reader.is_done(false) && !reader.is_done(true));
    let two = turned(alloc, reader, second)?;
    assert!(rt; reader.next_position() == second);
    Ok((one, two))
}

/// The same of a reader, and up to where its disk was asked for bytes.
fn counted(
    rt: &impl Abort,
    alloc: Global,
    first: i64,
    second: i64,
) -> Result<(usize, usize, u64), Refusal> {
    let mut reader = reader(rt, alloc, stored(rt, alloc, 2)?.disk)?;
    let (one, two) = turned_twice(rt, alloc, &mut reader, first, second)?;
    let (disk, cursor) = reader.into_parts();
    assert!(rt; cursor.known().recorded == second && cursor.replay().next == second);
    Ok((one, two, disk.end))
}

/// Each frame up to what was seen is handed on, and no byte past that is read: 130 frames of 96 bytes stand in the file.
#[test]
fn nothing_past_the_look_is_read(rt: HostRuntime) -> Result<(), Fail> {
    for (first, second, one, two) in [
        (0, 96, 0, 1),
        (96, 96, 1, 0),
        (960, 1_056, 10, 1),
        (4_032, 4_128, 42, 1),
        (4_128, 8_160, 43, 42),
        (8_160, 8_256, 85, 1),
        (96, END, 1, 129),
    ] {
        assert!(rt;
            counted(&rt, rt.alloc(), first, second)? == (one, two, second as u64),
            "{first} {second}"
        );
    }
    Ok(())
}

/// A turn of which a read fails is refused, and the next one hands on all frames.
fn check_fault(rt: &impl Abort, alloc: Global, reader: &mut Reader) -> Result<(), Refusal> {
    assert!(rt; turned(alloc, reader, END) == Err(Refusal::DeviceFault));
    assert!(rt; reader.next_position() == 0 && !reader.is_done(false));
    assert!(rt; turned(alloc, reader, END)? == 130);
    Ok(())
}

/// Reads of which this one fails.
fn fails(rt: &impl Abort, alloc: Global, call: u64) -> Result<(), Refusal> {
    let mut disk = stored(rt, alloc, 2)?.disk;
    let changes = disk.changes();
    disk.fail_at(call);
    let mut reader = reader(rt, alloc, disk)?;
    check_fault(rt, alloc, &mut reader)?;
    let (disk, _) = reader.into_parts();
    assert!(rt; disk.disk.changes() == changes && disk.faults() == 1);
    Ok(())
}

/// Three pages are read by one call, and each of the two frames past them by another. Each call fails in turn.
#[test]
fn a_turn_may_be_made_again(rt: HostRuntime) -> Result<(), Fail> {
    for call in 1..4u64 {
        fails(&rt, rt.alloc(), call)?;
    }
    Ok(())
}

/// How many frames there are, read once more if memory is refused.
fn read_again(rt: &impl Abort, alloc: Global, reader: &mut Reader) -> Result<usize, Refusal> {
    match turned(alloc, reader, END) {
        Err(refusal) => {
            assert!(rt; refusal == Refusal::NoMemory && reader.next_position() == 0);
            turned(alloc, reader, END)
        }
        count => count,
    }
}

/// Makes a reader and reads all frames.
fn reads(rt: &impl Abort, alloc: Global) -> Result<(), Refusal> {
    let mut reader = reader(rt, alloc, stored(rt, alloc, 2)?.disk)?;
    assert!(rt; read_again(rt, alloc, &mut reader)? == 130 && reader.next_position() == END);
    Ok(())
}

/// A turn that finds no memory leaves the replay where it was, and may be made again.
#[test]
fn refused_memory_of_a_turn(rt: HostRuntime) -> Result<(), Fail> {
    if reads(&rt, rt.alloc()).is_err() {
        reads(&rt, rt.alloc())?;
    }
    Ok(())
}
