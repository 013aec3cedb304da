//! A disk and the archive that is open on it, in a script: calls as `calls` has them, and what is done to the disk. docs/STORAGE.md.

use crate::calls::{answer, event_in, refused, told};
use archive_model::Reply;
use catalogue_log::open;
use control_core::Event;
use disk_core::MemoryDisk;
use engine_core::{Engine, OpenRefusal, compact};
use frame_core::Refusal;
use std::alloc::Global;

/// A disk, or the archive that is open on it.
#[derive(Drop)]
pub struct Scene {
    disk: MemoryDisk,
    archive: Option<Engine<MemoryDisk>>,
}

impl Scene {
    /// A new disk.
    pub fn new(alloc: Global) -> Scene {
        Scene {
            disk: MemoryDisk::new(alloc),
            archive: None,
        }
    }

    /// Takes a new disk.
    pub fn clear(&mut self, alloc: Global) {
        self.close();
        self.disk = MemoryDisk::new(alloc);
    }

    /// Closes the archive.
    fn close(&mut self) {
        if let Some(engine) = self.archive.take() {
            self.disk = engine.into_disk();
        }
    }

    /// The disk of the archive, which is closed.
    fn taken(&mut self, alloc: Global) -> MemoryDisk {
        self.close();
        std::mem::replace(&mut self.disk, MemoryDisk::new(alloc))
    }

    /// The disk, once the archive is closed.
    pub fn disk(&mut self) -> &mut MemoryDisk {
        self.close();
        &mut self.disk
    }

    /// Makes a new archive with room for so many entries.
    pub fn make(&mut self, alloc: Global, limit: u32) -> Result<(), Refusal> {
        match Engine::create(alloc, self.taken(alloc), limit) {
            Ok(engine) => {
                self.archive = Some(engine);
                Ok(())
            }
            Err(OpenRefusal { refusal, disk }) => {
                self.disk = disk;
                Err(refusal)
            }
        }
    }

    /// Opens the archive of the disk, and answers how many recordings that stopped.
    pub fn open(&mut self, alloc: Global) -> Result<i64, Refusal> {
        match Engine::open(alloc, self.taken(alloc)) {
            Ok((engine, stopped)) => {
                self.archive = Some(engine);
                Ok(stopped)
            }
            Err(OpenRefusal { refusal, disk }) => {
                self.disk = disk;
                Err(refusal)
            }
        }
    }

    /// Leaves of the disk what a crash does by a choice.
    pub fn crash(&mut self, choice: u8) -> Result<(), Refusal> {
        self.close();
        self.disk = self.disk.crash(&[choice])?;
        Ok(())
    }

    /// Takes what a crash leaves of a disk by a choice.
    pub fn take_crash(&mut self, disk: &MemoryDisk, choice: u8) -> Result<(), Refusal> {
        self.close();
        self.disk = disk.crash(&[choice])?;
        Ok(())
    }

    /// The archive, which has to be open.
    pub fn archive(&mut self) -> Result<&mut Engine<MemoryDisk>, Refusal> {
        match &mut self.archive {
            Some(engine) => Ok(engine),
            None => Err(Refusal::BadLine),
        }
    }

    /// What the archive answers to a call.
    pub fn step(&mut self, alloc: Global, event: &Event) -> Result<Reply, Refusal> {
        answer(alloc, self.archive()?, event)
    }

    /// What is answered to a call of a line, as lines.
    pub fn call(&mut self, alloc: Global, line: &str) -> Result<Vec<u8>, Refusal> {
        let event = event_in(alloc, line)?;
        told(alloc, &self.step(alloc, &event)?)
    }

    /// Makes an archive, or has a call of the disk fail.
    fn order(&mut self, alloc: Global, word: &str, rest: &str) -> Result<(), Refusal> {
        let number = rest.parse::<u64>().unwrap_or(0);
        match word {
            "make" => return self.make(alloc, u32::try_from(number).unwrap_or(0)),
            "stop-after" => self.disk().stop_after(number),
            _ => self.disk().fail_at(number),
        }
        Ok(())
    }

    /// What is answered to a line: a call of the archive, or an order, which closes the archive.
    fn reply(&mut self, alloc: Global, line: &str) -> Result<Vec<u8>, Refusal> {
        let (word, rest) = line.split_once(' ').unwrap_or((line, ""));
        match word {
            "make" | "stop-after" | "fail-at" => {
                self.order(alloc, word, rest)?;
                Ok(Vec::from_slice(alloc, b"done\n")?)
            }
            _ => self.call(alloc, line),
        }
    }

    /// The same, of a refusal too.
    pub fn answered(&mut self, alloc: Global, line: &str) -> Result<Vec<u8>, Refusal> {
        match self.reply(alloc, line) {
            Ok(text) => Ok(text),
            Err(refusal) => refused(alloc, &refusal),
        }
    }

    /// Obeys the lines of a script, whatever is answered.
    pub fn run(&mut self, alloc: Global, script: &str) -> Result<(), Refusal> {
        for line in script.lines() {
            self.answered(alloc, line)?;
        }
        Ok(())
    }

    /// Adds a line to a transcript, and after a colon what is answered.
    fn put(&mut self, alloc: Global, text: &mut Vec<u8>, line: &str) -> Result<(), Refusal> {
        text.extend_from_slice(line.as_bytes())?;
        text.extend_from_slice(b": ")?;
        let mut lines = self.answered(alloc, line)?;
        Ok(text.append(&mut lines)?)
    }

    /// The transcript of the lines of a script, which stand each before a colon.
    fn transcript(&mut self, alloc: Global, script: &str) -> Result<Vec<u8>, Refusal> {
        let mut text = Vec::new(alloc);
        for line in script.lines() {
            if let Some((line, _)) = line.split_once(": ") {
                self.put(alloc, &mut text, line)?;
            }
        }
        Ok(text)
    }

    /// Answers as a script says; NoMemory if one of its lines was refused.
    pub fn obey(&mut self, alloc: Global, script: &str) -> Result<(), Refusal> {
        if self.transcript(alloc, script)?.as_slice() == script.as_bytes() {
            Ok(())
        } else {
            Err(Refusal::NoMemory)
        }
    }

    /// The frames of a whole recording, as far as they are read.
    fn frames(&mut self, alloc: Global, recording: i64) -> Result<Vec<u8>, Refusal> {
        let replay = self.archive()?.desk().next_replay();
        self.call(
            alloc,
            format!(in alloc; "replay {recording} -1 -1")?.as_str(),
        )?;
        self.answered(alloc, format!(in alloc; "poll {replay} 4096")?.as_str())
    }

    /// The same of a replay that is closed then.
    pub fn replayed(&mut self, alloc: Global, recording: i64) -> Result<Vec<u8>, Refusal> {
        let replay = self.archive()?.desk().next_replay();
        let text = self.frames(alloc, recording);
        self.run(alloc, format!(in alloc; "close {replay}")?.as_str())?;
        text
    }

    /// The descriptors and the frames of the archive.
    fn text(&mut self, alloc: Global) -> Result<Vec<u8>, Refusal> {
        let mut text = self.call(alloc, "list 0 1000")?;
        for recording in 0..self.archive()?.desk().next_recording() {
            if self.archive()?.desk().recording(&recording).is_some() {
                text.append(&mut self.frames(alloc, recording)?)?;
            }
        }
        Ok(text)
    }

    /// Opens the archive of the disk: its descriptors and frames.
    pub fn found(&mut self, alloc: Global) -> Result<Vec<u8>, Refusal> {
        self.open(alloc)?;
        self.text(alloc)
    }
}

/// Compacts the archive of a disk.
pub fn compacts(alloc: Global, disk: &mut MemoryDisk) -> Result<(), Refusal> {
    compact(alloc, disk)
}

/// The epoch of the catalogue of a disk, and how many of its entries count.
pub fn catalogue_of(alloc: Global, disk: &mut MemoryDisk) -> Result<(u64, usize), Refusal> {
    let (log, _) = open(alloc, disk)?;
    Ok((log.epoch(), log.counted()))
}

/// What a crash leaves of the archive of a disk, as text.
fn text_left(alloc: Global, disk: &MemoryDisk, choice: u8) -> Result<Vec<u8>, Refusal> {
    let mut scene = Scene::new(alloc);
    let taken = scene.take_crash(disk, choice);
    let text = scene.found(alloc);
    drop(scene);
    taken.and(text)
}

/// Whether each of three crashes leaves one of two texts.
pub fn leaves(
    alloc: Global,
    disk: &MemoryDisk,
    before: &[u8],
    after: &[u8],
) -> Result<bool, Refusal> {
    for choice in [0, 1, 255] {
        let text = text_left(alloc, disk, choice)?;
        if text.as_slice() != before && text.as_slice() != after {
            return Ok(false);
        }
    }
    Ok(true)
}
