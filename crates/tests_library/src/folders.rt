//! A disk over a real folder: docs/STORAGE.md, "Folders". Each test has a folder of its own under the system's
//! folder for temporary files.

use disk_core::{Disk, Fault, FileId, ListFault};
use host_disk::{HostDisk, OpenFault, ReadFolder};
use std::alloc::Global;
use std::os::unix::fs::symlink;
use std::path::Path;
use std::process::Abort;
use std::test::Fail;
use std::{env, fs};

const SEGMENT: FileId = FileId::Segment {
    recording: 3,
    base: 131_072,
};

/// Makes a folder, in place of what is there.
fn make_empty(rt: HostRuntime, path: &str) -> Result<(), Fail> {
    if fs::exists(&rt, path)? {
        fs::remove_dir_all(&rt, path)?;
    }
    Ok(fs::create_dir(&rt, path)?)
}

/// The path of an empty folder for this test.
fn scratch(rt: HostRuntime, test: &str) -> Result<String, Fail> {
    let path = format!(in rt.alloc(); "{}/recorder-{test}", env::temp_dir(&rt)?.display())?;
    make_empty(rt, path.as_str())?;
    Ok(path)
}

/// Removes the folder of a test.
fn remove(rt: HostRuntime, path: &str) -> Result<(), Fail> {
    Ok(fs::remove_dir_all(&rt, path)?)
}

fn within(rt: HostRuntime, folder: &str, name: &str) -> Result<String, Fail> {
    Ok(format!(in rt.alloc(); "{folder}/{name}")?)
}

fn disk_at(rt: HostRuntime, path: &str) -> Result<HostDisk, OpenFault> {
    HostDisk::open(rt, rt.alloc(), Path::new(path))
}

fn opened(abort: &impl Abort, rt: HostRuntime, path: &str) -> HostDisk {
    match disk_at(rt, path) {
        Ok(disk) => disk,
        Err(fault) => panic!(abort; "{fault}"),
    }
}

// A call on a disk. A reading is of the segment, into a buffer of eight sevens, in which these bytes stand then.
#[derive(Clone, Copy)]
enum Call {
    Length(FileId),
    Read(u64, &'static [u8]),
    Write(FileId, u64, &'static [u8]),
    Cut(FileId, u64),
    Remove(FileId),
    Sync(FileId),
    List,
    Faults,
}

// A call and its answer: a length, or how many bytes, files or faults there are; 0 where it tells nothing.
type Row = (Call, Result<u64, ListFault>);

const DONE: Result<u64, ListFault> = Ok(0);

const FAULT: Result<u64, ListFault> = Err(ListFault::Device);

fn told(answer: Result<u64, Fault>) -> Result<u64, ListFault> {
    match answer {
        Ok(length) => Ok(length),
        Err(Fault) => FAULT,
    }
}

fn told_done(answer: Result<(), Fault>) -> Result<u64, ListFault> {
    match answer {
        Ok(()) => DONE,
        Err(Fault) => FAULT,
    }
}

fn listed(disk: &mut HostDisk) -> Result<u64, ListFault> {
    Ok(disk.list()?.len() as u64)
}

/// How many bytes of the segment are read at an offset; none such if others stand in the buffer then.
fn read(disk: &mut HostDisk, at: u64, wanted: &[u8]) -> Result<u64, Fault> {
    let mut buffer = [7u8; 8];
    let count = disk.read_at(SEGMENT, at, &mut buffer)?;
    let is_wanted = buffer.as_slice() == wanted;
    Ok(if is_wanted { count as u64 } else { 9 })
}

/// What a disk answers to a call.
fn answer(disk: &mut HostDisk, call: Call) -> Result<u64, ListFault> {
    match call {
        Call::Length(file) => told(disk.len(file)),
        Call::Read(at, wanted) => told(read(disk, at, wanted)),
        Call::Write(file, at, bytes) => told_done(disk.write_at(file, at, bytes)),
        Call::Cut(file, length) => told_done(disk.cut(file, length)),
        Call::Remove(file) => told_done(disk.remove(file)),
        Call::Sync(file) => told_done(disk.sync(file)),
        Call::List => listed(disk),
        Call::Faults => Ok(disk.faults()),
    }
}

/// Makes calls one after another, which have to answer so.
fn play(rt: &impl Abort, disk: &mut HostDisk, rows: &[Row]) {
    for (index, (call, wanted)) in rows.iter().enumerate() {
        assert!(rt; answer(disk, *call) == *wanted, "row {index}");
    }
}

/// The same over the disk of a folder, which is closed then.
fn play_in(abort: &impl Abort, rt: HostRuntime, path: &str, rows: &[Row]) {
    let mut disk = opened(abort, rt, path);
    play(abort, &mut disk, rows);
}

/// Some calls before a folder is removed, and others then.
fn play_both(
    abort: &impl Abort,
    rt: HostRuntime,
    disk: &mut HostDisk,
    folder: &str,
    before: &[Row],
    after: &[Row],
) -> Result<(), Fail> {
    play(abort, disk, before);
    fs::remove_dir(&rt, folder)?;
    play(abort, disk, after);
    Ok(())
}

/// Some calls while a folder has the segment's name, and others on the same disk once it is gone.
fn play_around(
    abort: &impl Abort,
    rt: HostRuntime,
    path: &str,
    before: &[Row],
    after: &[Row],
) -> Result<(), Fail> {
    make_folder(rt, path, "3-131072.rec")?;
    let in_the_way = within(rt, path, "3-131072.rec")?;
    let mut disk = opened(abort, rt, path);
    play_both(abort, rt, &mut disk, in_the_way.as_str(), before, after)
}

const WRITTEN: [Row; 4] = [
    (Call::Length(SEGMENT), Ok(0)),
    (Call::Read(0, &[7; 8]), Ok(0)),
    (Call::Write(SEGMENT, 4, b"abcd"), DONE),
    (Call::Sync(SEGMENT), DONE),
];

const OPENED_AGAIN: [Row; 3] = [
    (Call::Length(SEGMENT), Ok(8)),
    (Call::Read(2, b"\0\0abcd\x07\x07"), Ok(6)),
    (Call::Faults, Ok(0)),
];

const NO_FAULTS: [Row; 1] = [(Call::Faults, Ok(0))];

/// Bytes that are written to a folder are read after it is closed and opened again, and gaps read as zeros.
#[test]
fn what_is_written_is_read_when_opened_again(rt: HostRuntime) -> Result<(), Fail> {
    let path = scratch(rt, "written")?;
    play_in(&rt, rt, path.as_str(), &WRITTEN);
    play_in(&rt, rt, path.as_str(), &OPENED_AGAIN);
    remove(rt, path.as_str())
}

/// Whether a folder has something of a name.
fn is_there(rt: HostRuntime, path: &str, name: &str) -> Result<bool, Fail> {
    Ok(fs::exists(&rt, within(rt, path, name)?.as_str())?)
}

const CUTS: [Row; 13] = [
    (Call::Cut(SEGMENT, 1), DONE),
    (Call::Remove(SEGMENT), DONE),
    (Call::Sync(SEGMENT), DONE),
    (Call::List, Ok(0)),
    (Call::Write(SEGMENT, 0, b"abcdef"), DONE),
    (Call::Cut(SEGMENT, 100), DONE),
    (Call::Length(SEGMENT), Ok(6)),
    (Call::Cut(SEGMENT, 2), DONE),
    (Call::Sync(SEGMENT), DONE),
    (Call::Length(SEGMENT), Ok(2)),
    (Call::Remove(SEGMENT), DONE),
    (Call::Sync(SEGMENT), DONE),
    (Call::Length(SEGMENT), Ok(0)),
];

fn check_cuts(
    abort: &impl Abort,
    rt: HostRuntime,
    path: &str,
    disk: &mut HostDisk,
) -> Result<(), Fail> {
    play(abort, disk, &CUTS);
    assert!(abort; !is_there(rt, path, "3-131072.rec")?);
    play(abort, disk, &NO_FAULTS);
    Ok(())
}

fn check_cuts_in(abort: &impl Abort, rt: HostRuntime, path: &str) -> Result<(), Fail> {
    let mut disk = opened(abort, rt, path);
    check_cuts(abort, rt, path, &mut disk)
}

/// A cut shortens a file and never lengthens it, a removed file is gone from the folder, and a missing file is cut and
/// removed without a fault.
#[test]
fn cuts_and_removes(rt: HostRuntime) -> Result<(), Fail> {
    let path = scratch(rt, "cut")?;
    check_cuts_in(&rt, rt, path.as_str())?;
    remove(rt, path.as_str())
}

/// Writes a file of one byte.
fn put(rt: HostRuntime, path: &str, name: &str) -> Result<(), Fail> {
    Ok(fs::write(&rt, within(rt, path, name)?.as_str(), "x")?)
}

fn lists(disk: &mut HostDisk, wanted: &[FileId]) -> Result<bool, ListFault> {
    Ok(disk.list()?.as_slice() == wanted)
}

const LATER: FileId = FileId::Segment {
    recording: 10,
    base: 0,
};

const OUT_OF_ORDER: [Row; 4] = [
    (Call::Write(LATER, 0, b"x"), DONE),
    (Call::Write(SEGMENT, 0, b"x"), DONE),
    (Call::Write(FileId::BankB, 0, b"x"), DONE),
    (Call::Write(FileId::BankA, 0, b"x"), DONE),
];

/// Writes some files out of order, which are listed in order.
fn check_listed(abort: &impl Abort, rt: HostRuntime, path: &str) {
    let mut disk = opened(abort, rt, path);
    play(abort, &mut disk, &OUT_OF_ORDER);
    let files = [FileId::BankA, FileId::BankB, SEGMENT, LATER];
    assert!(abort; lists(&mut disk, &files) == Ok(true));
}

/// Writes files of names that are no file's.
fn put_others(rt: HostRuntime, path: &str) -> Result<(), Fail> {
    for name in [
        "note.txt",
        "03-0.rec",
        "00-0.rec",
        "+3-0.rec",
        "0--64.rec",
        "-3-0.rec",
        "-0-0.rec",
        "9223372036854775808-0.rec",
        "3-0.rec.rec",
        "3-x.rec",
        "3-0.rec~",
        "catalogue-c.bank",
    ] {
        put(rt, path, name)?;
    }
    Ok(())
}

/// Files are listed in order, banks first, and files with other names are ignored.
#[test]
fn files_are_listed_in_order_and_other_names_ignored(rt: HostRuntime) -> Result<(), Fail> {
    let path = scratch(rt, "listed")?;
    put_others(rt, path.as_str())?;
    check_listed(&rt, rt, path.as_str());
    remove(rt, path.as_str())
}

/// Why a folder is not opened.
fn why_not(rt: HostRuntime, path: &str) -> Option<OpenFault> {
    disk_at(rt, path).err()
}

/// A folder that is only read, which takes no lock, is opened and closed.
fn is_looked_at(rt: HostRuntime, path: &str) -> bool {
    match ReadFolder::open(rt, rt.alloc(), Path::new(path)) {
        Ok(disk) => {
            drop(disk.close());
            true
        }
        Err(_) => false,
    }
}

fn check_busy(abort: &impl Abort, rt: HostRuntime, path: &str) {
    let disk = opened(abort, rt, path);
    assert!(abort; why_not(rt, path) == Some(OpenFault::Busy) && is_looked_at(rt, path));
    drop(disk.close());
}

/// A folder that is open is refused as busy to a second writer, but not to a reader, and a missing folder is refused.
#[test]
fn a_folder_is_opened_once(rt: HostRuntime) -> Result<(), Fail> {
    let path = scratch(rt, "opened")?;
    check_busy(&rt, rt, path.as_str());
    drop(opened(&rt, rt, path.as_str()));
    remove(rt, path.as_str())?;
    assert!(rt; why_not(rt, path.as_str()) == Some(OpenFault::Missing));
    Ok(())
}

/// Makes a link of a name to a file outside of the archive.
fn make_link(rt: HostRuntime, path: &str, name: &str) -> Result<(), Fail> {
    let outside = within(rt, path, "outside.txt")?;
    fs::write(&rt, outside.as_str(), "outside")?;
    Ok(symlink(&rt, outside.as_str(), within(rt, path, name)?.as_str())?)
}

fn make_folder(rt: HostRuntime, path: &str, name: &str) -> Result<(), Fail> {
    Ok(fs::create_dir(&rt, within(rt, path, name)?.as_str())?)
}

fn is_file(rt: HostRuntime, path: &str, name: &str) -> Result<bool, Fail> {
    Ok(fs::symlink_metadata(&rt, within(rt, path, name)?.as_str())?.is_file())
}

fn holds(rt: HostRuntime, path: &str, name: &str, bytes: &[u8]) -> Result<bool, Fail> {
    Ok(fs::read(&rt, within(rt, path, name)?.as_str())?.as_slice() == bytes)
}

const REFUSED: [Row; 5] = [
    (Call::Length(SEGMENT), FAULT),
    (Call::List, FAULT),
    (Call::Length(FileId::BankB), FAULT),
    (Call::Remove(SEGMENT), FAULT),
    (Call::Faults, Ok(4)),
];

fn check_links(abort: &impl Abort, rt: HostRuntime, path: &str) -> Result<(), Fail> {
    make_link(rt, path, "3-131072.rec")?;
    make_folder(rt, path, "catalogue-b.bank")?;
    play_in(abort, rt, path, &REFUSED);
    assert!(abort; !is_file(rt, path, "3-131072.rec")?);
    assert!(abort; holds(rt, path, "outside.txt", b"outside")?);
    Ok(())
}

/// A link or a folder in the place of an archive file is refused, and what a link names is not touched.
#[test]
fn links_and_folders_are_refused(rt: HostRuntime) -> Result<(), Fail> {
    let path = scratch(rt, "links")?;
    check_links(&rt, rt, path.as_str())?;
    remove(rt, path.as_str())
}

const LOST: [Row; 6] = [
    (Call::Write(SEGMENT, 0, b"x"), FAULT),
    (Call::Sync(SEGMENT), FAULT),
    (Call::List, FAULT),
    (Call::Write(FileId::BankA, 0, b"x"), DONE),
    (Call::Sync(FileId::BankA), DONE),
    (Call::Faults, Ok(4)),
];

const UNSYNCED: [Row; 1] = [(Call::Sync(SEGMENT), FAULT)];

const AGAIN: [Row; 2] = [(Call::Length(SEGMENT), Ok(0)), (Call::List, Ok(1))];

/// After a failed sync each further change of that file and each listing fails until the folder is opened again; other
/// files go on.
#[test]
fn a_file_whose_sync_failed_is_asked_no_more(rt: HostRuntime) -> Result<(), Fail> {
    let path = scratch(rt, "lost")?;
    play_around(&rt, rt, path.as_str(), &UNSYNCED, &LOST)?;
    play_in(&rt, rt, path.as_str(), &AGAIN);
    remove(rt, path.as_str())
}

const FAILED: [Row; 3] = [
    (Call::Write(SEGMENT, 0, b"x"), FAULT),
    (Call::Cut(SEGMENT, 0), FAULT),
    (Call::Remove(SEGMENT), FAULT),
];

const BEHIND: [Row; 5] = [
    (Call::Length(SEGMENT), Ok(0)),
    (Call::Write(SEGMENT, 0, b"x"), DONE),
    (Call::Sync(SEGMENT), DONE),
    (Call::List, Ok(1)),
    (Call::Faults, Ok(3)),
];

/// After failed changes of a file it is still read, written and synced, and the faults are counted.
#[test]
fn reading_goes_on_after_a_failed_write(rt: HostRuntime) -> Result<(), Fail> {
    let path = scratch(rt, "failed")?;
    play_around(&rt, rt, path.as_str(), &FAILED, &BEHIND)?;
    remove(rt, path.as_str())
}

/// Whether the last fault of a disk is told so.
fn tells(alloc: Global, disk: &HostDisk, text: &str) -> Result<bool, Fail> {
    let Some(fault) = disk.last_fault() else {
        return Err(Fail::new("no fault"));
    };
    Ok(format!(in alloc; "{fault}")?.as_str() == text)
}

const UNWRITTEN: [Row; 1] = [(Call::Write(SEGMENT, 0, b"x"), FAULT)];

fn check_last_fault(
    abort: &impl Abort,
    rt: HostRuntime,
    path: &str,
    disk: &mut HostDisk,
) -> Result<(), Fail> {
    assert!(abort; disk.last_fault().is_none());
    make_folder(rt, path, "3-131072.rec")?;
    play(abort, disk, &UNWRITTEN);
    assert!(abort; tells(rt.alloc(), disk, "write 3-131072.rec: unsupported")?);
    Ok(())
}

fn check_last_fault_in(abort: &impl Abort, rt: HostRuntime, path: &str) -> Result<(), Fail> {
    let mut disk = opened(abort, rt, path);
    check_last_fault(abort, rt, path, &mut disk)
}

/// The last fault names its call, its file and the system's reason.
#[test]
fn the_last_fault_is_kept(rt: HostRuntime) -> Result<(), Fail> {
    let path = scratch(rt, "fault")?;
    check_last_fault_in(&rt, rt, path.as_str())?;
    remove(rt, path.as_str())
}

const fn segment(recording: i64) -> FileId {
    FileId::Segment { recording, base: 0 }
}

/// Writes 128 files and syncs none.
fn open_files(abort: &impl Abort, disk: &mut HostDisk) {
    for recording in 0..128 {
        assert!(abort; answer(disk, Call::Write(segment(recording), 0, b"x")) == DONE);
    }
}

/// Opens further ones.
fn open_more(abort: &impl Abort, disk: &mut HostDisk) {
    let rows = [
        (Call::Length(segment(200)), Ok(0)),
        (Call::Write(segment(128), 0, b"x"), FAULT),
        (Call::Sync(segment(5)), DONE),
        (Call::Write(segment(129), 0, b"x"), DONE),
        (Call::Length(segment(5)), FAULT),
        (Call::Sync(segment(129)), DONE),
        (Call::Length(segment(5)), Ok(1)),
    ];
    play(abort, disk, &rows);
}

fn check_room(abort: &impl Abort, rt: HostRuntime, path: &str) {
    let mut disk = opened(abort, rt, path);
    open_files(abort, &mut disk);
    open_more(abort, &mut disk);
}

/// At most 128 files are open; an unsynced one is not closed to open another, whose write fails instead.
#[test]
fn no_unsynced_file_is_closed_to_make_room(rt: HostRuntime) -> Result<(), Fail> {
    let path = scratch(rt, "room")?;
    check_room(&rt, rt, path.as_str());
    remove(rt, path.as_str())
}
