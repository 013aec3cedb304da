//! A file of a disk in memory.
ghost use Rattle.std.specs.Prelude.{◌≡◌, ◌+◌, ◌-◌, ◌<◌, ◌≤◌, ◌++◌, List, ℕ, Option, Some, option_map, get_or, ◌⊎◌, length, take, drop, replicate, OnOk, OnErr, IfOk};
ghost use Rattle.disk_core.specs.DiskImage.{bytes_of, durable};
ghost use Rattle.disk_core.specs.Calls.{IsRead, overwritten, write_to, cut_to, removed};
ghost use Rattle.disk_core.specs.Memory.{bytes_in, state_of, Becomes, AreFilled};
ghost use Rattle.disk_core.specs.CrashChoice.{IsFilled};

use std::alloc::{AllocError, Global};

/// What a file reads as, and what has happened to it since its last sync.
#[derive(Drop)]
pub(crate) struct MemoryFile {
    pub(crate) reads: Option<Vec<u8>>,
    pub(crate) is_touched: bool,
    /// The first offset and the number of bytes of each range that was written.
    pub(crate) written: Vec<(u64, u64)>,
    pub(crate) least: u64,
    pub(crate) was_absent: bool,
}

impl MemoryFile {
    /// A file that is not there and never was.
    pub(crate) fn absent(alloc: Global) -> Self
        ensures { (last : Option (List ℕ)) →
            state_of last result ≡ record (durable None) { last_synced = last } }
    {
        MemoryFile {
            reads: None,
            is_touched: false,
            written: Vec::new(alloc),
            least: 0,
            was_absent: true,
        }
    }

    /// Writes some bytes at an offset. Where there is no memory for it the file stays as it was.
    pub(crate) fn write(&mut self, alloc: Global, at: u64, bytes: &[u8]) -> Result<(), AllocError>
        requires some { 0 < length bytes.now }
        ensures done { OnOk result (Becomes (write_to at bytes.now) self.old self.new) }
        ensures same { OnErr result (Becomes (λ state. state) self.old self.new) }
    {
        self.written.push((at, bytes.len() as u64))?;
        let outcome = write_file(alloc, &mut self.reads, at, bytes);
        if outcome.is_ok() {
            self.is_touched = true;
        } else {
            self.written.pop();
        }
        outcome
    }

    /// Makes it a durable file of these bytes.
    pub(crate) fn begin(&mut self, bytes: Vec<u8>)
        ensures { state_of (Some bytes.items) self.new ≡ durable (Some bytes.items) }
    {
        self.reads = Some(bytes);
        self.sync();
    }

    /// Writes a byte over each unsynced offset of these bytes.
    pub(crate) fn fill(&self, bytes: &mut [u8], byte: u8)
        ensures { (last : Option (List ℕ)) →
            IsFilled byte (state_of last self.now) bytes.old bytes.new }
    {
        fill_ranges(&self.written, bytes, byte);
        fill_range(bytes, self.least, u64::MAX, byte);
    }

    /// Cuts the file to a length.
    pub(crate) fn cut(&mut self, len: u64)
        ensures { Becomes (cut_to len) self.old self.new }
    {
        cut_file(&mut self.reads, len);
        self.is_touched = true;
        self.least = self.least.min(len);
    }

    /// Removes the file.
    pub(crate) fn remove(&mut self)
        ensures { Becomes removed self.old self.new }
    {
        self.reads = None;
        self.is_touched = true;
        self.least = 0;
        self.was_absent = true;
    }

    /// Notes that the file is durable.
    pub(crate) fn sync(&mut self)
        ensures { state_of (bytes_in self.new.reads) self.new ≡ durable (bytes_in self.old.reads) }
    {
        self.is_touched = false;
        self.written.clear();
        self.least = self.len();
        self.was_absent = self.reads.is_none();
    }

    /// What the file reads as.
    pub(crate) fn copied(&self, alloc: Global) -> Result<Option<Vec<u8>>, AllocError>
        ensures { IfOk result (λ bytes. bytes_in bytes ≡ bytes_in self.now.reads) }
    {
        match &self.reads {
            Some(bytes) => Ok(Some(bytes.as_slice().to_vec(alloc)?)),
            None => Ok(None),
        }
    }

    /// Reads from an offset into a buffer, and answers how many bytes.
    pub(crate) fn read(&self, at: u64, into: &mut [u8]) -> usize
        ensures { IsRead (bytes_of (bytes_in self.now.reads)) at into.old into.new result }
    {
        match &self.reads {
            Some(bytes) => read_bytes(bytes, at, into),
            None => 0,
        }
    }

    /// The length of the file in bytes, 0 if it is not there.
    pub(crate) fn len(&self) -> u64
        ensures { result ≡ length (bytes_of (bytes_in self.now.reads)) }
    {
        match &self.reads {
            Some(bytes) => bytes.len() as u64,
            None => 0,
        }
    }
}

/// Reads from an offset into a buffer, and answers how many bytes.
fn read_bytes(bytes: &[u8], at: u64, into: &mut [u8]) -> usize
    ensures { IsRead bytes.now at into.old into.new result }
{
    if bytes.len() as u64 <= at {
        return 0;
    }
    let rest = &bytes[at as usize..];
    let count = rest.len().min(into.len());
    into[..count].copy_from_slice(&rest[..count]);
    count
}

/// Cuts what a file reads as to a length.
pub(crate) fn cut_file(file: &mut Option<Vec<u8>>, len: u64)
    ensures { bytes_in file.new ≡ option_map (take len) (bytes_in file.old) }
{
    if let Some(bytes) = file {
        bytes.truncate(len as usize);
    }
}

/// Writes some bytes into a file, which it makes if it is not there.
pub(crate) fn write_file(
    alloc: Global,
    file: &mut Option<Vec<u8>>,
    at: u64,
    bytes: &[u8],
) -> Result<(), AllocError>
    requires some { 0 < length bytes.now }
    ensures done { OnOk result
        (bytes_in file.new ≡ Some (overwritten at bytes.now (bytes_of (bytes_in file.old)))) }
    ensures same { OnErr result (bytes_in file.new ≡ bytes_in file.old) }
{
    match file {
        Some(old) => overwrite(old, at, bytes),
        None => {
            let mut made = Vec::new(alloc);
            overwrite(&mut made, at, bytes)?;
            *file = Some(made);
            Ok(())
        }
    }
}

/// Writes some bytes over others, behind zeros where there is a gap.
fn overwrite(file: &mut Vec<u8>, at: u64, bytes: &[u8]) -> Result<(), AllocError>
    requires some { 0 < length bytes.now }
    ensures done { OnOk result (file.new.items ≡ overwritten at bytes.now file.old.items) }
    ensures same { OnErr result (file.new.items ≡ file.old.items) }
{
    let at = at as usize;
    let end = at.checked_add(bytes.len()).ok_or(AllocError)?;
    stretch(file, end)?;
    replace(file, at, bytes);
    Ok(())
}

/// Fills a file up with zeros to a length, if it is shorter.
fn stretch(file: &mut Vec<u8>, len: usize) -> Result<(), AllocError>
    ensures done { OnOk result
        (file.new.items ≡ file.old.items ++ replicate (len - length file.old.items) 0) }
    ensures same { OnErr result (file.new.items ≡ file.old.items) }
{
    if file.len() < len {
        file.resize(len, 0)?;
    }
    Ok(())
}

/// Writes bytes over as many others.
fn replace(file: &mut [u8], at: usize, bytes: &[u8])
    requires fits { at + length bytes.now ≤ length file.old }
    ensures { file.new ≡ take at file.old ++ bytes.now ++ drop (at + length bytes.now) file.old }
{
    file[at..at + bytes.len()].copy_from_slice(bytes);
}

/// Writes a byte over each offset in one of the ranges.
fn fill_ranges(ranges: &[(u64, u64)], bytes: &mut [u8], byte: u8)
    ensures { AreFilled ranges.now byte bytes.old bytes.new }
{
    for (at, count) in ranges {
        fill_range(bytes, *at, *count, byte);
    }
}

/// Writes a byte over each offset from this one on, up to so many.
fn fill_range(bytes: &mut [u8], at: u64, count: u64, byte: u8)
    ensures inside { (offset : ℕ) → at ≤ offset → offset < at + count → offset < length bytes.old →
        get_or bytes.new offset 0 ≡ byte }
    ensures outside { (offset : ℕ) → (offset < at) ⊎ (at + count ≤ offset) →
        get_or bytes.new offset 0 ≡ get_or bytes.old offset 0 }
{
    let len = bytes.len() as u64;
    let from = at.min(len);
    let to = at.saturating_add(count).min(len);
    for offset in from..to {
        bytes[offset as usize] = byte;
    }
}
