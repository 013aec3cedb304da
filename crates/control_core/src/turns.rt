//! What is decided on a call that is no request, by the desk alone. docs/CONTROL.md, "Recorder sessions", "Replays" and
//! "Refusals".

ghost use Rattle.std.specs.Prelude.{◌≡◌, ◌++◌, ◌≤ℤ◌, negsuc, true, Some, Ok, None, Err, IfOk, IfSome, MatchOption, MatchResult};
ghost use Rattle.frame_core.specs.Block.{IsBlock};
ghost use Rattle.frame_core.specs.ReplayEnd.{bound_of};
ghost use Rattle.archive_model.specs.Checks.{block_checks, checked, checks, last_checks};
ghost use Rattle.archive_model.specs.Register.{registration_in};
ghost use Rattle.archive_model.specs.State.{geometry_of, publication_of};
ghost use Rattle.archive_model.specs.declared.reply.Reply.TheVariants.{Closed};
ghost use Rattle.control_core.specs.Orderly.{KeepsDesk};
ghost use Rattle.control_core.specs.Seats.{IsFoundReplay, IsReader, IsWriter};
ghost use Rattle.control_core.specs.Opened.{IfOpensInside, said_opening};
ghost use Rattle.control_core.specs.Turns.{AllowsWriting, RefusesWriting, begins_at, close_decision, extent_of, is_limit, open_decision, open_tests, opened_at, poll_decision, settle_decision, sweep_tests, verify_tests};

use crate::callers::{FoundReplay, Reader, Writer, Written};
use crate::desk::Desk;
use archive_model::{Registration, Reply};
use frame_core::limits::{LAST_NUMBER, MAX_OPEN_REPLAYS, MAX_POLL};
use frame_core::{Block, Refusal, block_end, replay_bound};

/// What there is to settle.
#[derive(Clone, Copy, Debug)]
pub enum Settling {
    /// Nothing was written: the answer is the recorded position, and no entry is made.
    Nothing {
        /// The recorded position, in bytes of the stream.
        position: i64,
    },
    /// Blocks that are recorded by one entry.
    Blocks {
        /// The recording's id.
        recording: i64,
        /// Where they lie.
        written: Written,
    },
}

/// A replay that is to be opened.
#[derive(Clone, Copy, Debug)]
pub struct Opening {
    /// The recording that it gives.
    pub recording: i64,
    /// Where its first frame begins, in bytes of the stream.
    pub next: i64,
    /// Where it ends, in bytes of the stream.
    pub bound: i64,
}

/// What is decided on the opening of a replay, before any frame is read.
#[derive(Clone, Copy, Debug)]
pub enum OpeningDecision<'a> {
    /// It is refused, or opened.
    Decided(Result<Opening, Refusal>),
    /// It depends on whether a frame begins at a position strictly inside the recording: `BadPosition` where none does.
    IfBoundary {
        /// The recording.
        known: &'a Registration,
        /// The position, in bytes of the stream.
        position: i64,
        /// What is decided where one does.
        decided: Result<Opening, Refusal>,
    },
}

/// A block that may be written: who writes it, and where it lies.
#[derive(Clone, Copy, Debug)]
pub struct FoundWriting<'a> {
    /// The session, where it stands, and its recording.
    pub writer: Writer<'a>,
    /// From where to where the block lies.
    pub span: Written,
}

/// What is decided on a block that a recorder session of this number writes: docs/CONTROL.md, "Recorder sessions". Costs the
/// open sessions and a step for each of the block's frames.
pub fn decide_write<'a>(
    desk: &'a Desk,
    session: &i64,
    block: &Block,
) -> Result<FoundWriting<'a>, Refusal>
    ensures decided { MatchResult result
        (AllowsWriting desk.now.state session.now block.now)
        (RefusesWriting desk.now.state session.now block.now) }
    ensures keeps { KeepsDesk desk.now.state.register desk.now.state.callers }
{
    let writer = desk.session(session);
    let found = writing_of(writer, block);
    if desk.is_broken() {
        return Err(Refusal::Broken);
    }
    if writer.is_none() {
        return Err(Refusal::StaleSession);
    }
    let Some(found) = found else {
        return Err(Refusal::BadBlock);
    };
    let part = found.writer.part();
    if found.span.first != part.written {
        return Err(Refusal::BadBlock);
    }
    if part.needs_settle(&found.writer.known.descriptor) {
        return Err(Refusal::NeedSettle);
    }
    Ok(found)
}

/// Who writes a block, and where it lies. None where nobody does, or the block isn't one of the terms, session and stream of
/// the writer's recording.
fn writing_of<'a>(writer: Option<Writer<'a>>, block: &Block) -> Option<FoundWriting<'a>>
    ensures { MatchOption result
        (IfSome writer.entry (λ w. IsBlock (geometry_of w.known.now.descriptor) (publication_of w.known.now.descriptor) block.now → ⊥))
        (λ found. (writer.entry ≡ Some found.writer) × (found.span ≡ extent_of block.now)
        × IsBlock (geometry_of found.writer.known.now.descriptor) (publication_of found.writer.known.now.descriptor) block.now) }
{
    let writer = writer?;
    let descriptor = &writer.known.descriptor;
    let last = block_end(&descriptor.geometry(), &descriptor.publication(), block)?;
    let span = Written {
        first: block.position,
        last,
    };
    Some(FoundWriting { writer, span })
}

/// What there is to settle of a session that was found.
#[derive(Clone, Copy, Debug)]
pub struct FoundSettling<'a> {
    /// The session, where it stands, and its recording.
    pub writer: Writer<'a>,
    /// What there is to settle.
    pub settling: Settling,
}

/// What is decided on settling what a session wrote. Costs the open sessions.
pub fn decide_settle<'a>(desk: &'a Desk, session: &i64) -> Result<FoundSettling<'a>, Refusal>
    ensures decided { MatchResult result
        (λ decided. settle_decision desk.now.state session.now ≡ Ok decided.settling)
        (λ refusal. settle_decision desk.now.state session.now ≡ Err refusal) }
    ensures found { IfOk result (λ decided. IsWriter session.now desk.now.state decided.writer) }
    ensures keeps { KeepsDesk desk.now.state.register desk.now.state.callers }
{
    if desk.is_broken() {
        return Err(Refusal::Broken);
    }
    let Some(writer) = desk.session(session) else {
        return Err(Refusal::StaleSession);
    };
    let session = &writer.found.session;
    let Some(written) = session.written else {
        let settling = Settling::Nothing {
            position: writer.known.recorded,
        };
        return Ok(FoundSettling { writer, settling });
    };
    if !desk.has_room() {
        return Err(Refusal::HistoryFull);
    }
    let settling = Settling::Blocks {
        recording: session.recording,
        written,
    };
    Ok(FoundSettling { writer, settling })
}

/// What is decided on opening a replay: docs/CONTROL.md, "Replays".
pub fn decide_open<'a>(
    desk: &'a Desk,
    recording: &i64,
    position: &i64,
    length: &i64,
) -> OpeningDecision<'a>
    ensures decided { said_opening result
        ≡ open_decision desk.now.state recording.now position.now length.now }
    ensures known { IfOpensInside result (λ known.
        (registration_in desk.now.state.register recording.now ≡ Some known)
        × KeepsDesk desk.now.state.register desk.now.state.callers) }
{
    if *position < -1 || *length < -1 {
        return OpeningDecision::Decided(Err(Refusal::BadParameter));
    }
    let Some(known) = desk.recording(recording) else {
        return OpeningDecision::Decided(Err(Refusal::UnknownRecording));
    };
    let next = begins_at(position, known);
    if !known.is_within(&next) {
        return OpeningDecision::Decided(Err(Refusal::BadPosition));
    }
    let decided = behind_boundary(desk, recording, &next, length);
    opened_at(known, decided, &next)
}

/// What is decided at a position, by what comes behind its test.
fn opened_at<'a>(
    known: &'a Registration,
    decided: Result<Opening, Refusal>,
    position: &i64,
) -> OpeningDecision<'a>
    ensures decided { said_opening result ≡ opened_at (Some known.now) decided position.now }
    ensures known { IfOpensInside result (λ it. it ≡ known.now) }
{
    if known.is_end(position) {
        return OpeningDecision::Decided(decided);
    }
    OpeningDecision::IfBoundary {
        known,
        position: *position,
        decided,
    }
}

/// Where a replay begins that was asked for at a position.
fn begins_at(position: &i64, known: &Registration) -> i64
    ensures { result ≡ begins_at position.now (Some known.now) }
{
    if *position == -1 {
        return known.descriptor.start_position;
    }
    *position
}

fn behind_boundary(
    desk: &Desk,
    recording: &i64,
    next: &i64,
    length: &i64,
) -> Result<Opening, Refusal>
    requires { negsuc 0 ≤ℤ length.now }
    ensures { result ≡ checked (open_tests desk.now.state recording.now next.now length.now true)
        (block_checks ++ last_checks)
        (Ok (record { recording = recording.now; next = next.now; bound = bound_of next.now length.now })) }
{
    if desk.open_replays() >= MAX_OPEN_REPLAYS || desk.next_replay() == LAST_NUMBER {
        return Err(Refusal::MaxReplays);
    }
    Ok(Opening {
        recording: *recording,
        next: *next,
        bound: replay_bound(next, length),
    })
}

/// What is decided on a poll for at most so many frames, with a limit or without: the replay to be read from, and where it
/// stands, or a refusal. Costs the open replays.
pub fn decide_poll<'a>(
    desk: &'a Desk,
    replay: &i64,
    max: &i64,
    limit: &Option<i64>,
) -> Result<Reader<'a>, Refusal>
    ensures decided { MatchResult result
        (λ reader. poll_decision desk.now.state replay.now max.now limit.now
        ≡ Ok reader.found.replay)
        (λ refusal. poll_decision desk.now.state replay.now max.now limit.now ≡ Err refusal) }
    ensures found { IfOk result (IsReader replay.now desk.now.state) }
    ensures keeps { IfOk result (λ reader.
        KeepsDesk desk.now.state.register desk.now.state.callers) }
{
    if *max < 1 || *max > MAX_POLL || !is_limit(limit) {
        return Err(Refusal::BadParameter);
    }
    desk.replay(replay).ok_or(Refusal::UnknownReplay)
}

/// Whether a poll may have this limit: a limit is not below 0.
fn is_limit(limit: &Option<i64>) -> bool
    ensures { result ≡ is_limit limit.now }
{
    limit.is_none_or(|limit| limit >= 0)
}

/// What is decided on closing a replay, which is answered by `Closed`: the replay, and where it stands, or a refusal.
/// Costs the open replays.
pub fn decide_close(desk: &Desk, replay: &i64) -> Result<FoundReplay, Refusal>
    ensures decided { MatchResult result
        (λ found. close_decision desk.now.state replay.now ≡ Ok Closed)
        (λ refusal. close_decision desk.now.state replay.now ≡ Err refusal) }
    ensures found { IfOk result (IsFoundReplay replay.now desk.now.state.callers.replays) }
{
    let reader = desk.replay(replay).ok_or(Refusal::UnknownReplay)?;
    Ok(reader.found)
}

/// What is decided on a sweep: it is refused where a write has failed.
pub fn decide_sweep(desk: &Desk) -> Result<(), Refusal>
    ensures { result ≡ checked (sweep_tests desk.now.state) checks (Ok tt) }
{
    if !desk.is_broken() {
        return Ok(());
    }
    Err(Refusal::Broken)
}

/// What is decided on verifying a recording: it has to be there, and is answered.
pub fn decide_verify<'a>(desk: &'a Desk, recording: &i64) -> Result<&'a Registration, Refusal>
    ensures decided { MatchResult result
        (λ known. checked (verify_tests desk.now.state recording.now) checks (Ok (tt {0})) ≡ Ok (tt {0}))
        (λ refusal. checked (verify_tests desk.now.state recording.now) checks (Ok (tt {0})) ≡ Err refusal) }
    ensures found { IfOk result (λ known. Some known.now
        ≡ registration_in desk.now.state.register recording.now) }
    ensures keeps { KeepsDesk desk.now.state.register desk.now.state.callers }
{
    desk.recording(recording).ok_or(Refusal::UnknownRecording)
}
