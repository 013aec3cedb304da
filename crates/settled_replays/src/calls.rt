//! The calls by which a reader keeps its replay open, and sees how far it may read. docs/CONTROL.md, "Replays".

ghost use Rattle.std.specs.Prelude.{◌≡◌, ℤ, pos, IfOk, Result};
ghost use Rattle.frame_core.specs.declared.refusal.Refusal.{Refusal};
ghost use Rattle.archive_model.specs.declared.reply.Reply.{Reply};
ghost use Rattle.archive_model.specs.declared.reply.Reply.TheVariants.{Positions as PositionsReply, ReplayOpened};
ghost use Rattle.control_core.specs.declared.event.Event.TheVariants.{Ask, ReplayClose, ReplayOpen};
ghost use Rattle.control_core.specs.declared.request.Request.TheVariants.{List};
ghost use Rattle.settled_replays.specs.Holding.{PassAsks, AsksPositions, ClosesHeld, is_unstopped, opening_outcome};

use archive_lock::{Made, Naming, SharedArchive};
use archive_model::{Descriptor, Reply};
use call_history::Pass;
use control_core::{Event, Request};
use disk_core::Disk;
use frame_core::Refusal;
use std::alloc::Global;
use std::sync::Wait;

/// Where a recording begins and ends, as its positions were answered, in bytes of the stream.
#[derive(Clone, Copy, Debug, PartialEq, Eq)]
pub struct Seen {
    /// The start position.
    pub start: i64,
    /// The recorded position.
    pub recorded: i64,
    /// The stop position, or -1 while the recording is active.
    pub stop: i64,
}

impl Seen {
    /// Whether the recording is active.
    pub(crate) fn is_active(&self) -> bool
        ensures { result ≡ is_unstopped self.now }
    {
        self.stop == -1
    }
}

/// Opens a replay of a recording, and gives its number.
#[tactic(auto, using(crate::proofs::AnswerLemmas::opening_told))]
pub(crate) fn opened<D: Disk, A: Naming, R: Wait>(
    rt: &R,
    alloc: Global,
    archive: &SharedArchive<D, A>,
    pass: &mut Pass<Made>,
    recording: i64,
    position: i64,
    length: i64,
) -> Result<i64, Refusal>
    requires { pass.old.table ≡ A.table }
    ensures asks { PassAsks D.life A.opening pass.old (ReplayOpen recording position length) (opening_outcome result) pass.new }
    ensures pass { (pass.new.table ≡ pass.old.table) × (pass.new.number ≡ pass.old.number) }
{
    let event = Event::ReplayOpen {
        recording,
        position,
        length,
    };
    let reply = archive.call(rt, alloc, pass, &event)?;
    Ok(number_of(&reply))
}

/// The number of a replay that was opened.
fn number_of(reply: &Reply) -> i64
    requires { (number : ℤ) × (reply.now ≡ ReplayOpened number) }
    ensures { reply.now ≡ ReplayOpened result }
{
    match reply {
        Reply::ReplayOpened { replay } => *replay,
        _ => unreachable!(),
    }
}

/// Closes a replay, however that is answered.
pub(crate) fn close<D: Disk, A: Naming, R: Wait>(
    rt: &R,
    alloc: Global,
    archive: &SharedArchive<D, A>,
    pass: &mut Pass<Made>,
    replay: i64,
)
    requires { pass.old.table ≡ A.table }
    ensures closes { ClosesHeld D.life A.opening pass.old replay pass.new }
    ensures pass { (pass.new.table ≡ pass.old.table) × (pass.new.number ≡ pass.old.number) }
{
    let _ = archive.call(rt, alloc, pass, &Event::ReplayClose { replay });
}

/// Asks for a recording's positions.
#[tactic(auto, using(crate::proofs::AnswerLemmas::positions_told))]
pub(crate) fn positions_of<D: Disk, A: Naming, R: Wait>(
    rt: &R,
    alloc: Global,
    archive: &SharedArchive<D, A>,
    pass: &mut Pass<Made>,
    recording: i64,
) -> Result<Seen, Refusal>
    requires { pass.old.table ≡ A.table }
    ensures asks { AsksPositions D.life A.opening pass.old recording result pass.new }
    ensures pass { (pass.new.table ≡ pass.old.table) × (pass.new.number ≡ pass.old.number) }
{
    let event = Event::Ask(Request::Positions { recording });
    let reply = archive.call(rt, alloc, pass, &event)?;
    Ok(seen_of(&reply))
}

/// The descriptor of a recording, as a listing gives it. `UnknownRecording` if there is none of that id; `NoMemory`.
pub fn described<D: Disk, A: Naming, R: Wait>(
    rt: &R,
    alloc: Global,
    archive: &SharedArchive<D, A>,
    pass: &mut Pass<Made>,
    recording: i64,
) -> Result<Descriptor, Refusal>
    requires { pass.old.table ≡ A.table }
    ensures asks { (outcome : Result Reply Refusal) × PassAsks D.life A.opening pass.old (Ask (List recording (pos 1))) outcome pass.new }
    ensures recording { IfOk result (λ d. d.recording ≡ recording) }
    ensures pass { (pass.new.table ≡ pass.old.table) × (pass.new.number ≡ pass.old.number) }
{
    let event = Event::Ask(Request::List {
        from: recording,
        count: 1,
    });
    let outcome = archive.call(rt, alloc, pass, &event);
    listed(outcome, recording)
}

/// The descriptor of a recording, if a listing from its id on gave it.
fn listed(outcome: Result<Reply, Refusal>, recording: i64) -> Result<Descriptor, Refusal>
    ensures { IfOk result (λ d. d.recording ≡ recording) }
{
    let Reply::Recordings(descriptors) = outcome? else {
        return Err(Refusal::UnknownRecording);
    };
    match descriptors.into_vec().pop() {
        Some(descriptor) if descriptor.recording == recording => Ok(descriptor),
        _ => Err(Refusal::UnknownRecording),
    }
}

/// What positions were answered.
fn seen_of(reply: &Reply) -> Seen
    requires { (start recorded stop : ℤ) × (reply.now ≡ PositionsReply start recorded stop) }
    ensures { reply.now ≡ PositionsReply result.start result.recorded result.stop }
{
    match reply {
        Reply::Positions {
            start,
            recorded,
            stop,
        } => Seen {
            start: *start,
            recorded: *recorded,
            stop: *stop,
        },
        _ => unreachable!(),
    }
}
