//! What `list` and `verify` report of an archive. docs/CONTROL.md, "The program".

ghost use Rattle.std.specs.Prelude.{◌≡◌, pos, IfErr, IfOk, MatchBool, OnOk, map};
ghost use Rattle.std.specs.Io.KnownBytes.{Appends};
ghost use Rattle.archive_model.specs.declared.reply.Reply.TheVariants.{Recordings};
ghost use Rattle.archive_model.specs.Register.{id_of};
ghost use Rattle.control_core.specs.Decisions.{listed};
ghost use Rattle.control_lines.specs.ReplyText.{reply_text};
ghost use Rattle.tool_core.specs.Answering.{FailsToAnswer};
ghost use Rattle.control_core.specs.Desk.{DeskState};
ghost use Rattle.engine_core.specs.Seen.{seen};
ghost use Rattle.archive_commands.specs.Reports.{KnowsAsked, HasReported, HasReportedFirst, HasReportedOne, InTurn, InTurnAndOne, LacksAsked, Verification, ids_asked, verifies_by};

use archive_model::{Registration, Reply};
use control_core::{Decision, Desk, Event, Request, decide};
use disk_core::Disk;
use engine_core::Engine;
use frame_core::Refusal;
use std::alloc::{AllocError, Global};
use std::io::Write;
use tool_core::{EarlyEnd, Observer, write_outcome, write_reply};

/// Recordings that are listed at most: as many as there may be.
const MOST_LISTED: i64 = 1_024;

/// Whether each recording was verified.
#[derive(Clone, Copy, Debug, PartialEq, Eq)]
pub enum Verdict {
    /// Each was.
    Whole,
    /// One at least was not: its line is an error's.
    Refused,
}

/// Writes the descriptors of the recordings, by rising id: the reply of the line `list 0 1024`. The frames are not read.
///
/// `Memory` where the list or its text finds no memory, and then nothing is written; `Write` where the writer fails.
/// docs/CONTROL.md, "The program".
pub fn list_recordings<W: Write>(alloc: Global, desk: &Desk, writer: &mut W) -> Result<(), EarlyEnd>
    ensures ok { OnOk result (Appends (W.contents writer.old) (W.contents writer.new)
        (reply_text (Recordings (listed (pos 0) (pos 1024) desk.now.state.register.recordings)))) }
    ensures err { IfErr result
        (λ end. FailsToAnswer end (W.contents writer.old) (W.contents writer.new)) }
{
    let request = Request::List {
        from: 0,
        count: MOST_LISTED,
    };
    let Decision::Answered(reply) = decide(alloc, desk, &request) else {
        return Err(EarlyEnd::Memory);
    };
    write_reply(alloc, &reply, writer)
}

/// An archive whose recordings can be verified, one after another.
pub trait Verifiable {
    /// What is known of the archive.
    ghost desk_of: { Self → DeskState };
    /// What the verifying of a recording may answer, and leave.
    ghost verifies: { Verification Self };

    /// What is known of the archive.
    fn desk(&self) -> &Desk
        ensures { result.now.state ≡ desk_of self.now };

    /// Verification a recording.
    fn verify(&mut self, alloc: Global, recording: &i64) -> Result<Reply, Refusal>
        ensures { verifies self.old recording.now result self.new };
}

impl<D: Disk> Verifiable for Engine<D> {
    ghost desk_of = { λ engine. engine.archive.desk.state };

    ghost verifies = { verifies_by (seen D.life) };

    fn desk(&self) -> &Desk {
        self.desk()
    }

    fn verify(&mut self, alloc: Global, recording: &i64) -> Result<Reply, Refusal> {
        let event = Event::Verify {
            recording: *recording,
        };
        self.step(alloc, &event)
    }
}

/// Whether a desk has the recording that is asked for alone, if one is.
pub fn has_asked(desk: &Desk, asked: Option<i64>) -> bool
    ensures { MatchBool result (KnowsAsked asked desk.now.state) (LacksAsked asked desk.now.state) }
{
    match asked {
        None => true,
        Some(id) => desk.recording(&id).is_some(),
    }
}

/// Verification each recording, by rising id, or that of one id alone, and writes the answer to each as a script does:
/// `verified <frames>`, or the line of its refusal. An observer gets each answer before it is written.
///
/// `Memory` where there is none for the list of ids or for a reply's text, and `Write` where the writer fails: what was
/// written before stays written. Costs what each recorded frame costs. docs/CONTROL.md, "The program".
pub fn verify_recordings<W: Write, A: Verifiable, O: Observer>(
    alloc: Global,
    archive: &mut A,
    asked: Option<i64>,
    writer: &mut W,
    observer: &mut O,
) -> Result<Verdict, EarlyEnd>
    ensures whole { IfOk result (HasReported (InTurn A.verifies) (ids_asked asked (A.desk_of archive.old)) archive.old
        archive.new (W.contents writer.old) (W.contents writer.new)) }
    ensures early { IfErr result (HasReportedFirst (InTurnAndOne A.verifies) (ids_asked asked (A.desk_of archive.old))
        archive.old archive.new (W.contents writer.old) (W.contents writer.new)) }
{
    let ids = ids_of(alloc, archive.desk(), asked)?;
    let mut is_whole = true;
    for id in ids.as_slice() {
        let is_verified = report(alloc, archive, id, writer, observer)?;
        is_whole = is_whole && is_verified;
    }
    Ok(if is_whole {
        Verdict::Whole
    } else {
        Verdict::Refused
    })
}

/// The ids that are asked for: that of one recording alone, or those of a desk's recordings.
fn ids_of(alloc: Global, desk: &Desk, asked: Option<i64>) -> Result<Vec<i64>, AllocError>
    ensures { IfOk result (λ ids. ids.items ≡ ids_asked asked desk.now.state) }
{
    match asked {
        Some(id) => Vec::from_slice(alloc, &[id]),
        None => all_ids(alloc, desk.recordings()),
    }
}

/// The ids of recordings.
fn all_ids(alloc: Global, recordings: &[Registration]) -> Result<Vec<i64>, AllocError>
    ensures { IfOk result (λ ids. ids.items ≡ map id_of recordings.now) }
{
    recordings
        .iter()
        .map(|known| known.descriptor.recording)
        .collect(alloc)
}

/// Verification a recording, writes the answer, and says whether it was verified.
fn report<W: Write, A: Verifiable, O: Observer>(
    alloc: Global,
    archive: &mut A,
    recording: &i64,
    writer: &mut W,
    observer: &mut O,
) -> Result<bool, EarlyEnd>
    ensures { HasReportedOne A.verifies archive.old archive.new recording.now (W.contents writer.old)
        (W.contents writer.new) result }
{
    let outcome = archive.verify(alloc, recording);
    if let Some(known) = archive.desk().recording(recording) {
        observer.verified(known, &outcome);
    }
    write_outcome(alloc, &outcome, writer)?;
    Ok(outcome.is_ok())
}
