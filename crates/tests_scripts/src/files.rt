//! What is done to the disk of a world, and asked of it. README.md, "The disk".

use crate::world::World;
use catalogue_log::open;
use disk_core::{Disk, FileId, MemoryDisk};
use engine_core::compact;
use frame_core::Refusal;
use std::alloc::Global;

/// The words of these lines.
const WORDS: [&str; 15] = [
    "make",
    "open",
    "begin",
    "crash",
    "compacts",
    "stop-after",
    "fail-at",
    "cut",
    "put",
    "remove",
    "bytes",
    "calls",
    "changes",
    "catalogue",
    "clear",
];

/// Whether a line with this word is one of them.
pub(crate) fn has(word: &str) -> bool {
    WORDS.contains(&word)
}

/// What a line of this word is answered.
pub(crate) fn reply(
    alloc: Global,
    world: &mut World,
    word: &str,
    rest: &str,
) -> Result<Vec<u8>, Refusal> {
    match word {
        "open" => counted(alloc, world.open(alloc)?),
        "begin" => counted(alloc, world.begin(alloc)?),
        "calls" => counted(alloc, whole(world.disk().calls())),
        "changes" => counted(alloc, whole(world.disk().changes())),
        "catalogue" => catalogue_of(alloc, world.disk()),
        "bytes" => bytes_of(alloc, world.disk(), file_of(rest)?),
        _ => {
            order(alloc, world, word, rest)?;
            Ok(Vec::from_slice(alloc, b"done\n")?)
        }
    }
}

/// A number as a line.
fn counted(alloc: Global, count: i64) -> Result<Vec<u8>, Refusal> {
    Ok(format!(in alloc; "{count}\n")?.into_bytes())
}

/// A count, or -1 if it is no i64.
fn whole(count: u64) -> i64 {
    i64::try_from(count).unwrap_or(-1)
}

/// The number of a word, 0 if it is none.
fn number(word: &str) -> u64 {
    word.parse::<u64>().unwrap_or(0)
}

/// Makes an archive or a crash, compacts, has a call of the disk fail, or changes a file.
fn order(alloc: Global, world: &mut World, word: &str, rest: &str) -> Result<(), Refusal> {
    match word {
        "make" => world.make(alloc, u32::try_from(number(rest)).unwrap_or(0)),
        "crash" => crash(world, u8::try_from(number(rest)).unwrap_or(0)),
        "compacts" => compact(alloc, world.disk()),
        "clear" => {
            world.put_disk(MemoryDisk::new(alloc));
            Ok(())
        }
        "stop-after" => {
            world.disk().stop_after(number(rest));
            Ok(())
        }
        "fail-at" => {
            world.disk().fail_at(number(rest));
            Ok(())
        }
        _ => change(alloc, world.disk(), word, rest),
    }
}

/// Leaves of the disk what a crash does by a choice.
fn crash(world: &mut World, choice: u8) -> Result<(), Refusal> {
    let left = world.disk().crash(&[choice])?;
    world.put_disk(left);
    Ok(())
}

/// The file of a name: `bank-a`, `bank-b`, or a segment file's recording and base, parted by a `-`.
fn file_of(name: &str) -> Result<FileId, Refusal> {
    match name {
        "bank-a" => Ok(FileId::BankA),
        "bank-b" => Ok(FileId::BankB),
        _ => {
            let (recording, base) = name.split_once('-').ok_or(Refusal::BadLine)?;
            Ok(FileId::Segment {
                recording: whole(number(recording)),
                base: whole(number(base)),
            })
        }
    }
}

/// Cuts a file to so many bytes, puts bytes at an offset of it or removes it, and syncs it.
fn change(alloc: Global, disk: &mut MemoryDisk, word: &str, rest: &str) -> Result<(), Refusal> {
    let (name, rest) = rest.split_once(' ').unwrap_or((rest, ""));
    let file = file_of(name)?;
    match word {
        "cut" => disk.cut(file, number(rest))?,
        "remove" => disk.remove(file)?,
        _ => put(alloc, disk, file, rest)?,
    }
    Ok(disk.sync(file)?)
}

/// Puts bytes at an offset of a file: the offset and the bytes in hexadecimal.
fn put(alloc: Global, disk: &mut MemoryDisk, file: FileId, rest: &str) -> Result<(), Refusal> {
    let (at, digits) = rest.split_once(' ').unwrap_or((rest, ""));
    match hex::decode(alloc, digits) {
        Ok(bytes) => Ok(disk.write_at(file, number(at), bytes.as_slice())?),
        Err(_) => Err(Refusal::BadLine),
    }
}

/// All bytes of a file in hexadecimal, as a line.
fn bytes_of(alloc: Global, disk: &mut MemoryDisk, file: FileId) -> Result<Vec<u8>, Refusal> {
    let length = usize::try_from(disk.len(file)?).unwrap_or(0);
    let mut bytes = vec![in alloc; 0u8; length]?;
    let count = disk.read_at(file, 0, bytes.as_mut_slice())?;
    bytes.truncate(count);
    let mut line = hex::encode(alloc, bytes.as_slice())?;
    line.push('\n')?;
    Ok(line.into_bytes())
}

/// The epoch of the catalogue of a disk, and how many of its entries count, as a line.
fn catalogue_of(alloc: Global, disk: &mut MemoryDisk) -> Result<Vec<u8>, Refusal> {
    let (log, _) = open(alloc, disk)?;
    Ok(format!(in alloc; "{} {}\n", log.epoch(), log.counted())?.into_bytes())
}
