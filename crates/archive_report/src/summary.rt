//! What is known of the files of an archive. docs/CONTROL.md, "A page for people".

ghost use Rattle.std.specs.Prelude.{◌≡◌, ◌++◌, IfErr, IfOk, IsTrue, OnOk, Some, [], ◌∷◌, map};
ghost use Rattle.disk_core.specs.DiskImage.{reads};
ghost use Rattle.archive_view.specs.Viewed.{desk_of};
ghost use Rattle.archive_report.specs.Describing.{IsLookedOn, IsUnasked};
ghost use Rattle.archive_report.specs.Files.{is_segment, is_segment_of, measured_on, recorded_bytes, total_of, unknown_among};
ghost use Rattle.archive_report.specs.Viewing.{inner};

use archive_model::Registration;
use archive_view::ArchiveView;
use control_core::Desk;
use disk_core::{Disk, FileId};
use frame_core::Refusal;
use std::alloc::{AllocError, Global};

/// A file with its length in bytes.
#[derive(Clone, Copy, Debug)]
pub(crate) struct Measured {
    pub file: FileId,
    pub bytes: u64,
}

/// The files of an archive, in order.
#[derive(Drop)]
pub(crate) struct Summary {
    /// All of them.
    pub files: Vec<Measured>,
    /// The segment files that a sweep would remove.
    pub stale: Vec<FileId>,
    /// The segment files of no recording that the archive has, or ever had.
    pub unknown: Vec<FileId>,
}

/// How many files there are, and how many bytes they have on the disk.
#[derive(Clone, Copy, Debug, Default)]
pub(crate) struct Total {
    pub files: u64,
    pub bytes: u64,
}

impl Total {
    ghost use Rattle.archive_report.specs.Files.{with_file};

    /// One file more, if it counts.
    fn with(self, counts: bool, bytes: u64) -> Total
        ensures { result ≡ with_file counts bytes self }
    {
        if !counts {
            return self;
        }
        Total {
            files: self.files.saturating_add(1),
            bytes: self.bytes.saturating_add(bytes),
        }
    }
}

/// Why a sweep would remove a segment file.
#[derive(Clone, Copy, Debug, PartialEq, Eq)]
pub(crate) enum Staleness {
    /// Its recording was purged.
    Gone,
    /// Nothing is recorded.
    Empty,
    /// It begins at the recorded position or behind it.
    Behind,
    /// It ends at the first position or before it.
    Before,
}

impl Staleness {
    ghost use Rattle.archive_report.specs.Files.{staleness_by, staleness_of, why_text};

    /// Why, in words.
    pub(crate) fn text(self) -> &'static str
        ensures { result.now ≡ why_text self }
    {
        match self {
            Staleness::Gone => "the recording was purged",
            Staleness::Empty => "the recording is empty",
            Staleness::Behind => "it lies behind the recorded position",
            Staleness::Before => "it lies before the first position",
        }
    }

    /// Why a stale file of a desk's archive is one.
    pub(crate) fn of(desk: &Desk, file: &FileId) -> Staleness
        ensures { result ≡ staleness_of desk.now.state.register file.now }
    {
        let FileId::Segment { recording, base } = file else {
            return Staleness::Gone;
        };
        match desk.recording(recording) {
            None => Staleness::Gone,
            Some(known) => Staleness::within(known, base),
        }
    }

    /// Why a stale file with this base is one, of a recording that is there.
    fn within(known: &Registration, base: &i64) -> Staleness
        ensures { result ≡ staleness_by (Some known.now) base.now }
    {
        if known.recorded == known.descriptor.start_position {
            Staleness::Empty
        } else if *base >= known.recorded {
            Staleness::Behind
        } else {
            Staleness::Before
        }
    }
}

impl Summary {
    ghost use Rattle.archive_report.specs.Files.{ShowsFiles, is_segment, is_segment_of, total_of, unknown_among};

    /// The files of an archive with their lengths, and which are stale. `DeviceFault`; `NoMemory`. The disk is only read.
    /// Costs a call of the disk for each file, and a step for each file and recording.
    pub(crate) fn of<D: Disk>(alloc: Global, view: &mut ArchiveView<D>) -> Result<Summary, Refusal>
        ensures look { IsLookedOn D.life view.old view.new }
        ensures shown { IfOk result (λ summary. IsTrue (inner D.life view.new).obeys →
            ShowsFiles (reads (inner D.life view.old).now) (desk_of view.old).register
            summary.files.items summary.stale.items) }
        ensures unknown { IfOk result (λ summary. summary.unknown.items
            ≡ unknown_among (desk_of view.old).register summary.files.items) }
        ensures refused { IfErr result IsUnasked }
    {
        let stale = view.stale_files(alloc)?;
        let names = view.files()?;
        let files = lengths_of(alloc, view, names.as_slice())?;
        let unknown = unknown_among(alloc, view, files.as_slice())?;
        Ok(Summary {
            files,
            stale,
            unknown,
        })
    }

    /// How many segment files a recording has, and how many bytes.
    pub(crate) fn of_recording(&self, recording: &i64) -> Total
        ensures { result ≡ total_of (is_segment_of recording.now) self.now.files.items }
    {
        recording_total(recording, self.files.as_slice())
    }

    /// How many segment files there are, and how many bytes.
    pub(crate) fn of_all(&self) -> Total
        ensures { result ≡ total_of is_segment self.now.files.items }
    {
        segments_total(self.files.as_slice())
    }
}

/// How many of these files are segments of a recording, and how many bytes these have.
fn recording_total(recording: &i64, files: &[Measured]) -> Total
    ensures { result ≡ total_of (is_segment_of recording.now) files.now }
{
    let mut total = Total::default();
    for found in files {
        total = total.with(is_segment_of(recording, &found.file), found.bytes);
    }
    total
}

/// How many of these files are segments, and how many bytes these have.
fn segments_total(files: &[Measured]) -> Total
    ensures { result ≡ total_of is_segment files.now }
{
    let mut total = Total::default();
    for found in files {
        total = total.with(is_segment(&found.file), found.bytes);
    }
    total
}

/// How many bytes of its stream a recording has.
pub(crate) fn recorded_bytes(known: &Registration) -> u64
    ensures { result ≡ recorded_bytes known.now }
{
    let first = known.descriptor.start_position;
    known.recorded.saturating_sub(first).max(0).unsigned_abs()
}

/// Whether a file is a segment.
fn is_segment(file: &FileId) -> bool
    ensures { result ≡ is_segment file.now }
{
    match file {
        FileId::BankA | FileId::BankB => false,
        FileId::Segment { .. } => true,
    }
}

/// Whether a file is a segment of the recording of an id.
fn is_segment_of(id: &i64, file: &FileId) -> bool
    ensures { result ≡ is_segment_of id.now file.now }
{
    match file {
        FileId::BankA | FileId::BankB => false,
        FileId::Segment { recording, .. } => recording == id,
    }
}

/// These files with their lengths. `DeviceFault`; `NoMemory`.
fn lengths_of<D: Disk>(
    alloc: Global,
    view: &mut ArchiveView<D>,
    files: &[FileId],
) -> Result<Vec<Measured>, Refusal>
    ensures look { IsLookedOn D.life view.old view.new }
    ensures measured { IfOk result (λ found. IsTrue (inner D.life view.new).obeys →
        found.items ≡ map (measured_on (reads (inner D.life view.old).now)) files.now) }
    ensures refused { IfErr result IsUnasked }
{
    let mut found = Vec::new(alloc);
    for file in files {
        let measured = length_of(view, *file)?;
        found.push(measured)?;
    }
    Ok(found)
}

/// A file with its length. `DeviceFault`.
fn length_of<D: Disk>(view: &mut ArchiveView<D>, file: FileId) -> Result<Measured, Refusal>
    ensures look { IsLookedOn D.life view.old view.new }
    ensures measured { IfOk result (λ found. IsTrue (inner D.life view.new).obeys →
        found ≡ measured_on (reads (inner D.life view.old).now) file) }
    ensures refused { IfErr result IsUnasked }
{
    let bytes = view.length(file)?;
    Ok(Measured { file, bytes })
}

/// Those of these files that no recording knows.
fn unknown_among<D: Disk>(
    alloc: Global,
    view: &ArchiveView<D>,
    files: &[Measured],
) -> Result<Vec<FileId>, AllocError>
    ensures { IfOk result (λ unknown. unknown.items
        ≡ unknown_among (desk_of view.now).register files.now) }
{
    let mut unknown = Vec::new(alloc);
    for found in files {
        add_if_unknown(view, found, &mut unknown)?;
    }
    Ok(unknown)
}

/// One file more, if no recording knows it.
fn add_if_unknown<D: Disk>(
    view: &ArchiveView<D>,
    found: &Measured,
    unknown: &mut Vec<FileId>,
) -> Result<(), AllocError>
    ensures { OnOk result (unknown.new.items
        ≡ unknown.old.items ++ unknown_among (desk_of view.now).register (found.now ∷ [])) }
{
    if view.is_unknown(&found.file) {
        unknown.push(found.file)?;
    }
    Ok(())
}
