//! Laws of the definitions, each the contract of a function that does nothing.

ghost use Rattle.std.specs.Prelude.{◌≡◌, ◌≢◌, ◌⊎◌, ℕ, ℤ, List, map, Option, None, Some, Ok, Err, Result, IsFalse, IsTrue};
ghost use Rattle.archive_model.specs.declared.command.Command.{Command};
ghost use Rattle.archive_model.specs.Checks.{checked, checks};
ghost use Rattle.archive_model.specs.Descriptor.{is_aligned};
ghost use Rattle.archive_model.specs.Keyed.{Each};
ghost use Rattle.archive_model.specs.Replay.{is_boundary};
ghost use Rattle.archive_model.specs.State.{Recording, State, register_of};
ghost use Rattle.archive_model.specs.Commands.{after, register_after};
ghost use Rattle.archive_model.specs.Acceptance.{BookState};
ghost use Rattle.archive_model.specs.Accepting.{Accepts};
ghost use Rattle.archive_model.specs.WellFormed.{IsWell};
ghost use Rattle.control_core.specs.declared.request.Request.{Request};
ghost use Rattle.control_core.specs.Desk.{DeskState};
ghost use Rattle.control_core.specs.Changes.{desk_after, position_of, positions_each, sessions_each};
ghost use Rattle.control_core.specs.Decisions.{Allows, asked_command, command_in, decision_of};
ghost use Rattle.control_core.specs.Agreement.{Agrees, HasWritten};
ghost use Rattle.frame_core.specs.declared.refusal.Refusal.{Refusal};
ghost use Rattle.frame_core.specs.declared.refusal.Refusal.TheVariants.{DeviceFault};
ghost use Rattle.archive_model.specs.declared.reply.Reply.{Reply};
ghost use Rattle.archive_model.specs.declared.version.BankVersion.{BankVersion};
ghost use Rattle.control_core.specs.declared.event.Event.{Event};
ghost use Rattle.control_core.specs.ByDecision.{OpensBy, PollsBy, SweepsBy, VerifiesBy};
ghost use Rattle.control_core.specs.Machine.{Outcome, Step, Stepped};
ghost use Rattle.control_core.specs.declared.asked.Asked.{Asked};
ghost use Rattle.control_core.specs.Seats.{AreApart, KeepsSeats};
ghost use Rattle.control_core.specs.declared.asked.Asked.TheVariants.{ReplayOpen, ReplayPoll, Sweep, Verify};
ghost use Rattle.control_core.specs.Exact.{Archive, ArchiveEnds, CallEnds, archive_after, asked_frames, asked_of, is_poll, opened_archive, recording_at, settled_archive, told_of, with_desk};
ghost use Rattle.control_core.specs.Consistent.{AreAtBoundaries, AsksFew, IsAcceptable, IsAtBoundary, IsConsistent, MakesSteps, SettlesByAppend, StaysConsistent, StaysOpen, WroteNothing, is_append, is_asked};
ghost use Rattle.control_core.specs.Orderly.{BeginsBy};
ghost use Rattle.control_core.specs.Runs.{IsHistory, Leave};
ghost use Rattle.control_core.specs.Steps.{BookStep};
ghost use Rattle.control_core.specs.Turns.{DecidesSettling, MayOpen, are_once, open_decision, opening_in, poll_decision, session_in, settle_decision, sweep_tests, verify_tests};
ghost use Rattle.control_core.specs.declared.turns.Opening.{Opening};
ghost use Rattle.control_core.specs.declared.callers.Written.{Written};
ghost use Rattle.control_core.specs.Decided.{Accepted};
ghost use Rattle.control_core.specs.declared.turns.Settling.{Settling};
ghost use Rattle.control_core.specs.declared.turns.Settling.TheVariants.{Blocks};

/// Each test holds of the command that a decision leads to, so it may be accepted: docs/CONTROL.md, "Requests".
#[tactic(auto, using(crate::proofs::AgreementLemmas::allowed))]
pub fn what_is_decided_is_allowed()
    ensures { (d : DeskState) (request : Request) (c : Command) →
        command_in (decision_of d request) ≡ Some c → Allows d c }
{}

/// The command that a request leads to is the one that it asks for: docs/CONTROL.md, "Requests".
pub fn what_is_decided_is_what_was_asked_for()
    ensures { (d : DeskState) (request : Request) (c : Command) →
        command_in (decision_of d request) ≡ Some c → asked_command request ≡ Some c }
{}

/// The desk's register after an accepted command, each of the eight, is the one that the command makes of the register
/// of the state that agrees with it; of an append where the recording's session wrote its blocks.
#[tactic(auto, using(crate::proofs::AgreementLemmas::register_is))]
pub fn the_desk_changes_its_register_as_the_command_says()
    ensures { (d : DeskState) (s : State) (c : Command) → Agrees d s → HasWritten d s c →
        (desk_after d c).register ≡ register_after s c (register_of s) }
{}

/// So the desk goes on agreeing with the state.
#[tactic(auto, using(crate::proofs::AgreementLemmas::agrees))]
pub fn the_desk_follows_the_state()
    ensures { (d : DeskState) (b : BookState) (c : Command) → Agrees d b.state →
        HasWritten d b.state c →
        IsWell b.state → Accepts b c → Agrees (desk_after d c) (after b.state c) }
{}

/// A command that a request leads to once the frames are asked is accepted and allowed, and is neither an append nor a
/// restart: docs/CONTROL.md, "Requests".
#[tactic(auto, using(crate::proofs::DecidedLemmas::decided_accepted))]
pub fn a_decided_command_is_accepted()
    ensures { (a : Archive) (request : Request) (c : Command) → Agrees a.desk a.state →
        asked_frames a (decision_of a.desk request) ≡ Accepted c → IsAcceptable a c × IsTrue (is_asked c) }
{}

/// Each boundary of a recording of a consistent archive, its start, its recorded position and where a frame begins, is a
/// multiple of 32. So a truncation at another position, which is refused unread, would be refused by the frames, too:
/// docs/CONTROL.md, "Requests".
#[tactic(auto, using(crate::proofs::MultipleLemmas::boundary_multiple))]
pub fn a_boundary_is_a_multiple_of_32()
    ensures { (a : Archive) (id position : ℤ) (r : Recording) → IsConsistent a →
        recording_at a id ≡ Some r → IsTrue (is_boundary position r) → IsTrue (is_aligned position) }
{}

/// What is settled of a session's blocks is recorded by an accepted append, which makes of the desk what the settling
/// does: docs/CONTROL.md, "Recorder sessions".
#[tactic(auto, using(crate::proofs::DecidedLemmas::settling_accepted))]
pub fn a_settling_is_an_accepted_append()
    ensures { (a : Archive) (session id : ℤ) (w : Written) → IsConsistent a →
        settle_decision a.desk session ≡ Ok (Blocks id w) → SettlesByAppend a session id }
{}

/// A settling is decided on while the archive works, of a session that is there: docs/CONTROL.md, "Recorder sessions".
pub fn a_settling_has_its_session()
    ensures { (d : DeskState) (number : ℤ) (settles : Settling) →
        settle_decision d number ≡ Ok settles → DecidesSettling d number settles }
{}

/// A replay that a decision leads to may be opened, and begins at the start of its recording or behind it:
/// docs/CONTROL.md, "Replays".
pub fn what_is_opened_is_allowed()
    ensures allowed { (d : DeskState) (id position size : ℤ) (opening : Opening) →
        opening_in (open_decision d id position size) ≡ Some opening → MayOpen d opening }
    ensures from_start { (d : DeskState) (id position size : ℤ) (opening : Opening) →
        opening_in (open_decision d id position size) ≡ Some opening →
        BeginsBy opening.next d.register opening.recording }
{}

/// A refused call leaves the archive as it was: docs/CONTROL.md, "Refusals".
#[tactic(auto, using(crate::proofs::CallLemmas::refused_unchanged))]
pub fn a_refused_call_changes_nothing()
    ensures { (a : Archive) (event : Event) (refusal : Refusal) (new : Archive) →
        ArchiveEnds a event (Err refusal) new → new ≡ a }
{}

/// A call of a consistent archive that is answered makes exactly the steps that it asks for: the command of its request, the
/// append of what its session wrote, or a checkpoint. That is one at most; a call that settles several sessions makes an append
/// of each that wrote something: docs/CONTROL.md, "Requests".
#[tactic(auto, using(crate::proofs::MadeLemmas::makes_asked, crate::proofs::MadeLemmas::asks_few))]
pub fn an_answered_call_makes_what_it_asks_for()
    ensures made { (a : Archive) (event : Event) (reply : Reply) (new : Archive) → IsConsistent a →
        ArchiveEnds a event (Ok reply) new → MakesSteps a new event }
    ensures few { (a : Archive) (event : Event) → AsksFew a event }
{}

/// What several sessions wrote, and up to where their recordings are recorded once it is settled, is known before the first of
/// them is settled, where no number stands twice: docs/CONTROL.md, "Recorder sessions".
#[tactic(auto, using(crate::proofs::GroupLemmas::sessions_before, crate::proofs::GroupLemmas::positions_before))]
pub fn what_several_sessions_settle_is_known_before()
    ensures sessions { (d : DeskState) (numbers : List ℤ) → IsTrue (are_once numbers) →
        sessions_each numbers d ≡ map (session_in d) numbers }
    ensures positions { (d : DeskState) (numbers : List ℤ) → AreApart d.callers.sessions →
        IsTrue (are_once numbers) → positions_each numbers d ≡ map (λ n. position_of d (session_in d n)) numbers }
{}

/// What a call is answered exactly, with the frames, is one of the answers that the desk machine allows, which knows none:
/// docs/CONTROL.md, "Control state". Of a poll this rests on a consistent archive whose replays are at boundaries.
#[tactic(auto, using(crate::proofs::ExactLemmas::exact_is_allowed))]
pub fn an_exact_answer_is_allowed()
    ensures { (a : Archive) (event : Event) (outcome : Result Reply Refusal) (new : Archive) →
        (IsTrue (is_poll event) → IsConsistent a × AreAtBoundaries a) → ArchiveEnds a event outcome new →
        Step a.desk (asked_of event) (told_of a.desk event outcome) new.desk }
{}

/// So is whatever a call ends with: also want of memory, which changes nothing, and a device fault, which leaves the desk
/// as it was or broken: docs/CONTROL.md, "Control state".
#[tactic(auto, using(crate::proofs::FaultLemmas::call_is_allowed))]
pub fn a_call_is_allowed()
    ensures { (a : Archive) (event : Event) (outcome : Result Reply Refusal) (new : Archive) →
        (IsTrue (is_poll event) → IsConsistent a × AreAtBoundaries a) → CallEnds a event (Unit {0}) outcome new →
        Stepped a.desk (asked_of event) (told_of a.desk event outcome) new.desk }
{}

/// A consistent archive still is after an accepted command that is no append: docs/CONTROL.md, "Control state".
#[tactic(auto, using(crate::proofs::CommandLemmas::consistent_after))]
pub fn a_command_keeps_the_archive_consistent()
    ensures { (a : Archive) (c : Command) → IsFalse (is_append c) → IsConsistent a →
        IsAcceptable a c →
        StaysConsistent a (archive_after a c) }
{}

/// What such a command makes of the recorder sessions: each was open before, and its recording stays, or wrote nothing.
#[tactic(auto, using(crate::proofs::CommandLemmas::sessions_stay))]
pub fn a_command_leaves_what_sessions_wrote()
    ensures { (a : Archive) (c : Command) → IsFalse (is_append c) → IsConsistent a →
        IsAcceptable a c →
        Each (λ s. StaysOpen a (after a.state c) s ⊎ WroteNothing a s) (desk_after a.desk c).callers.sessions }
{}

/// What a settling makes of them: each has nothing more to settle, or its blocks and recording stay.
#[tactic(auto, using(crate::proofs::ConsistentLemmas::settling_sessions))]
pub fn a_settling_leaves_what_other_sessions_wrote()
    ensures { (a : Archive) (session id : ℤ) (w : Written) → IsConsistent a →
        settle_decision a.desk session ≡ Ok (Blocks id w) →
        Each (λ s. WroteNothing (settled_archive a session id) s
        ⊎ (StaysOpen a (settled_archive a session id).state s
        × ((settled_archive a session id).blocks s.number ≡ a.blocks s.number)))
        (settled_archive a session id).desk.callers.sessions }
{}

/// An archive that is opened with a well-formed state is consistent: docs/CONTROL.md, "Control state".
#[tactic(auto, using(crate::proofs::ConsistentLemmas::consistent_opened))]
pub fn an_opened_archive_is_consistent()
    ensures { (s : State) (counted limit : ℕ) (version : BankVersion) → IsWell s →
        IsConsistent (opened_archive s counted limit version) }
{}

/// A consistent archive still is after each call, whatever it ends with, want of memory and a device fault too:
/// docs/CONTROL.md, "Control state".
#[tactic(auto, using(crate::proofs::ConsistentLemmas::consistent_call))]
pub fn a_call_keeps_the_archive_consistent()
    ensures { (a : Archive) (event : Event) (outcome : Result Reply Refusal) (new : Archive) →
        IsConsistent a →
        CallEnds a event (Unit {0}) outcome new → StaysConsistent a new }
{}

/// Calls one after another of a consistent archive that nothing is in doubt of made steps, each call none or those that it asked
/// for, and each command of them accepted. They lead to what the last archive has recorded. Whatever stood meanwhile, or was in
/// doubt, is what a beginning of the calls made, or what all of them made and what the call asked for which broke the archive:
/// docs/STORAGE.md, "Recovery".
#[tactic(auto, using(crate::proofs::RunLemmas::run_history))]
pub fn a_run_is_a_history()
    ensures { (a : Archive) (events : List Event) (outcomes : List (Result Reply Refusal))
        (left : List Archive) →
        IsConsistent a → a.doubt ≡ None → Leave a events outcomes left →
        (steps : List (List BookStep)) × IsHistory a events left steps }
{}

/// What is decided on a call that reads says what the desk machine allows: whatever the files hold. docs/CONTROL.md,
/// "Control state".
pub fn what_is_decided_on_a_read_is_a_step()
    ensures polled { (d : DeskState) (number most : ℤ) (limit : Option ℤ) (outcome : Outcome) (new : DeskState) →
        PollsBy d limit (poll_decision d number most limit) outcome new →
        Step d (ReplayPoll number most limit) outcome new }
    ensures opened { (d : DeskState) (id position size : ℤ) (outcome : Outcome) (new : DeskState) →
        OpensBy d (open_decision d id position size) outcome new →
        Step d (ReplayOpen id position size) outcome new }
    ensures swept { (d : DeskState) (outcome : Outcome) (new : DeskState) →
        SweepsBy d (checked (sweep_tests d) checks (Ok tt)) outcome new → Step d Sweep outcome new }
    ensures verified { (d : DeskState) (id : ℤ) (outcome : Outcome) (new : DeskState) →
        VerifiesBy d (checked (verify_tests d id) checks (Ok tt)) outcome new → Step d (Verify id) outcome new }
{}

/// A step of the desk machine that is refused by anything but a device fault leaves the desk as it was: docs/CONTROL.md,
/// "Refusals".
#[tactic(auto, using(crate::proofs::StepLemmas::stepped_stays))]
pub fn a_refused_step_leaves_the_desk()
    ensures { (d : DeskState) (asked : Asked) (refusal : Refusal) (new : DeskState) →
        refusal ≢ DeviceFault →
        Stepped d asked (Err refusal) new → new ≡ d }
{}

/// A desk with other replays, whose seats are kept, is that of a consistent archive still.
#[tactic(auto, using(crate::proofs::ConsistentLemmas::with_replays))]
pub fn other_replays_keep_the_archive_consistent()
    ensures { (a : Archive) (d : DeskState) → IsConsistent a → d.register ≡ a.desk.register →
        d.callers.sessions ≡ a.desk.callers.sessions → d.is_broken ≡ a.desk.is_broken →
        KeepsSeats d.register d.callers →
        (AreAtBoundaries a → Each (IsAtBoundary a.state) d.callers.replays) → StaysConsistent a (with_desk d a) }
{}
