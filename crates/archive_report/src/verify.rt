//! What `verify --read-only` prints of an archive. docs/CONTROL.md, "Looking without a change".

ghost use Rattle.std.specs.Prelude.{◌≡◌, IfErr, IfOk, IsTrue};
ghost use Rattle.archive_view.specs.ReadOnly.{IsOnlyRead};
ghost use Rattle.archive_report.specs.Viewing.{inner};
ghost use Rattle.archive_report.specs.Verifying.{FailsToVerifyViewed, HasVerifiedViewed, desk_seen, seen_verifies};

use crate::viewing::viewed_with;
use archive_commands::{CommandFault, Stop, Verdict, Verifiable, verify_recordings};
use archive_model::Reply;
use archive_view::ArchiveView;
use control_core::Desk;
use disk_core::Disk;
use frame_core::Refusal;
use std::alloc::Global;
use std::io::Write;
use tool_core::{EarlyEnd, Observer};

/// What the verifying of an archive found.
#[derive(Clone, Copy, Debug, PartialEq, Eq)]
pub struct Finding {
    /// Whether each recording was verified.
    pub verdict: Verdict,
    /// One was not, and the catalogue has moved meanwhile: the archive is being written, and what was reported of it may be of
    /// no moment at all.
    pub is_moving: bool,
}

/// An archive that was seen, whose recordings can be verified.
#[derive(Drop)]
struct Seen<D> {
    view: ArchiveView<D>,
}

impl<D: Disk> Verifiable for Seen<D> {
    ghost desk_of = { desk_seen };

    ghost verifies = { seen_verifies D.life };

    fn desk(&self) -> &Desk {
        self.view.desk()
    }

    fn verify(&mut self, alloc: Global, recording: &i64) -> Result<Reply, Refusal> {
        let frames = self.view.verify(alloc, recording)?;
        Ok(Reply::Verified { frames })
    }
}

/// Verifies each recording of the archive of a disk as it stands, by rising id, or the one of an id alone, and writes the
/// answer to each: `verified <frames>`, or the line of its refusal. The disk is only read, and comes back with what was found.
/// An observer gets whether the archive is there, and each answer before it is written.
///
/// Refused as `ArchiveView::open` refuses, and by `UnknownRecording` if the archive lacks that recording, and then nothing is
/// written; cut by `Memory` where there is none for the list of
/// ids or for a reply's text, and by `Write` where the writer fails: what was written before stays written. Costs what each
/// recorded frame costs. docs/CONTROL.md, "Looking without a change".
pub fn verify_view<W: Write, D: Disk, O: Observer>(
    alloc: Global,
    disk: D,
    asked: Option<i64>,
    writer: &mut W,
    observer: &mut O,
) -> Result<(D, Finding), CommandFault<D>>
    ensures verified { IfOk result (λ found. HasVerifiedViewed D.life asked (D.life disk) (D.life found.0)
        (W.contents writer.old) (W.contents writer.new) found.1.verdict) }
    ensures moving { IfOk result (λ found. IsTrue found.1.is_moving → found.1.verdict ≡ Verdict.Refused) }
    ensures fault { IfErr result (λ fault. FailsToVerifyViewed D.life asked (D.life disk) fault.disk fault.why
        (W.contents writer.old) (W.contents writer.new)) }
{
    let view = viewed_with(alloc, disk, asked, observer)?;
    let mut seen = Seen { view };
    let outcome = verify_recordings(alloc, &mut seen, asked, writer, observer);
    let mut view = seen.view;
    let is_moving = is_moving(alloc, &mut view, &outcome);
    let disk = view.into_disk().into_disk();
    match outcome {
        Ok(verdict) => Ok((disk, Finding { verdict, is_moving })),
        Err(end) => Err(CommandFault {
            why: Stop::Cut(end),
            disk,
        }),
    }
}

/// Whether one recording was refused and the catalogue has moved since it was read, or can't be read any more.
fn is_moving<D: Disk>(
    alloc: Global,
    view: &mut ArchiveView<D>,
    outcome: &Result<Verdict, EarlyEnd>,
) -> bool
    ensures inside { IsOnlyRead (inner D.life view.old) (inner D.life view.new) }
    ensures refused { IfOk outcome.now (λ verdict. IsTrue result → verdict ≡ Verdict.Refused) }
{
    match outcome {
        Ok(Verdict::Refused) => view.has_moved(alloc).unwrap_or(true),
        _ => false,
    }
}
