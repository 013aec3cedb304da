//! A disk in memory, and the archive that is open on it.

use crate::{calls, commands, files};
use case_files::Player;
use control_lines::print_refusal;
use disk_core::MemoryDisk;
use engine_core::{Engine, OpenRefusal};
use frame_core::Refusal;
use std::alloc::{AllocError, Global};

/// A disk, or the archive that is open on it.
#[derive(Drop)]
pub(crate) struct World {
    disk: MemoryDisk,
    archive: Option<Engine<MemoryDisk>>,
}

impl World {
    /// An empty disk.
    pub fn new(alloc: Global) -> World {
        World {
            disk: MemoryDisk::new(alloc),
            archive: None,
        }
    }

    /// Closes the archive.
    fn close(&mut self) {
        if let Some(engine) = self.archive.take() {
            self.disk = engine.into_disk();
        }
    }

    /// The disk, once the archive is closed.
    pub fn disk(&mut self) -> &mut MemoryDisk {
        self.close();
        &mut self.disk
    }

    /// Takes the disk out, once the archive is closed. An empty one is left.
    pub fn take_disk(&mut self, alloc: Global) -> MemoryDisk {
        self.close();
        std::mem::replace(&mut self.disk, MemoryDisk::new(alloc))
    }

    /// Puts a disk in place of the one that is there.
    pub fn put_disk(&mut self, disk: MemoryDisk) {
        self.close();
        self.disk = disk;
    }

    /// The archive, which has to be open: else BadLine.
    pub fn archive(&mut self) -> Result<&mut Engine<MemoryDisk>, Refusal> {
        match &mut self.archive {
            Some(engine) => Ok(engine),
            None => Err(Refusal::BadLine),
        }
    }

    /// Makes a new archive with room for so many entries.
    pub fn make(&mut self, alloc: Global, limit: u32) -> Result<(), Refusal> {
        match Engine::create(alloc, self.take_disk(alloc), limit) {
            Ok(engine) => {
                self.archive = Some(engine);
                Ok(())
            }
            Err(OpenRefusal { refusal, disk }) => {
                self.disk = disk;
                Err(refusal)
            }
        }
    }

    /// Opens the archive of the disk, and returns how many recordings that stopped.
    pub fn open(&mut self, alloc: Global) -> Result<i64, Refusal> {
        match Engine::open(alloc, self.take_disk(alloc)) {
            Ok((engine, stopped)) => {
                self.archive = Some(engine);
                Ok(stopped)
            }
            Err(OpenRefusal { refusal, disk }) => {
                self.disk = disk;
                Err(refusal)
            }
        }
    }

    /// Makes a new archive with room for 100 entries, or opens the one of the disk: how many recordings that stopped, -1 of a new one.
    pub fn begin(&mut self, alloc: Global) -> Result<i64, Refusal> {
        match Engine::create_or_open(alloc, self.take_disk(alloc), 100) {
            Ok((engine, stopped)) => {
                self.archive = Some(engine);
                Ok(stopped.unwrap_or(-1))
            }
            Err(OpenRefusal { refusal, disk }) => {
                self.disk = disk;
                Err(refusal)
            }
        }
    }

    /// What a line is answered: what is done to the disk or asked of it, a command or a script, or a call of the archive.
    fn reply(&mut self, alloc: Global, line: &str) -> Result<Vec<u8>, Refusal> {
        let (word, rest) = line.split_once(' ').unwrap_or((line, ""));
        if files::has(word) {
            return files::reply(alloc, self, word, rest);
        }
        if commands::has(word) {
            return commands::reply(alloc, self, word, rest);
        }
        calls::reply(alloc, self, line)
    }
}

impl Player for World {
    fn begin(&mut self, alloc: Global) -> Result<(), AllocError> {
        self.put_disk(MemoryDisk::new(alloc));
        Ok(())
    }

    fn answer(&mut self, alloc: Global, line: &str) -> Result<Vec<u8>, AllocError> {
        match self.reply(alloc, line) {
            Ok(answer) => Ok(answer),
            Err(refusal) => Vec::from_slice(alloc, print_refusal(&refusal).as_bytes()),
        }
    }
}
