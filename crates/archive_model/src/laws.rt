//! Laws of the definitions, each the contract of a function that does nothing.

ghost use Rattle.std.specs.Prelude.{◌≡◌, ◌≢◌, ◌↔◌, ◌≤ℤ◌, ◌<ℤ◌, ◌++◌, ◌+ℤ◌, ℕ, ℤ, pos, Err, IsFalse, IsSomeAnd, IsTrue, List, Ok, Some};
ghost use Rattle.frame_core.specs.declared.block.Block.{Block};
ghost use Rattle.frame_core.specs.declared.frame.Frame.{Frame};
ghost use Rattle.frame_core.specs.declared.refusal.Refusal.{Refusal};
ghost use Rattle.frame_core.specs.Block.{covered};
ghost use Rattle.frame_core.specs.declared.refusal.Refusal.TheVariants.{NoMemory};
ghost use Rattle.archive_model.specs.declared.command.Command.{Command};
ghost use Rattle.archive_model.specs.declared.reply.Reply.{Reply};
ghost use Rattle.archive_model.specs.State.{Recording as Recorded, State, empty, id_of, recorded_position, register_of, registration_of};
ghost use Rattle.archive_model.specs.Keyed.{find, Rise};
ghost use Rattle.archive_model.specs.Replay.{begins_frame, placed, placed_frames, replayed};
ghost use Rattle.archive_model.specs.Commands.{after, after_all, appended, frames_of, purged, register_after, reply_to, truncated};
ghost use Rattle.archive_model.specs.Left.{left_of};
ghost use Rattle.archive_model.specs.Histories.{new_book};
ghost use Rattle.archive_model.specs.Acceptance.{BookState};
ghost use Rattle.archive_model.specs.Accepting.{Accepts, Answers};
ghost use Rattle.archive_model.specs.Checks.{is_boundary_by};
ghost use Rattle.archive_model.specs.Register.{is_later_base};
ghost use Rattle.archive_model.specs.WellFormed.{AreAccepted, IsKept, IsWell, cuts};

/// Blocks that join a recording move no frame that is there: the new ones stand behind, from the recorded position on.
#[tactic(auto, using(crate::proofs::ReplayLemmas::placed_appended))]
pub fn appending_moves_no_frame()
    ensures { (blocks : List Block) (r : Recorded) →
        placed_frames (appended blocks r) ≡ placed_frames r ++ placed (recorded_position r) (frames_of blocks) }
{}

/// The recorded position of a recording falls in no command but a truncation of it, and it stays until it is purged.
#[tactic(auto, using(crate::proofs::CommandsLemmas::never_falls))]
pub fn the_recorded_position_never_falls()
    ensures { (b : BookState) (c : Command) → IsWell b.state → Accepts b c →
        (id : ℤ) (r : Recorded) → IsFalse (cuts id c) →
        find id_of id b.state.recordings ≡ Some r →
        IsSomeAnd (find id_of id (after b.state c).recordings)
        (λ new. recorded_position r ≤ℤ recorded_position new) }
{}

/// A replay from the start to behind the recorded position gives all frames.
#[tactic(auto, using(crate::proofs::ReplayLemmas::all_replayed))]
pub fn the_whole_range_is_all_frames()
    ensures { (r : Recorded) (from bound : ℤ) →
        from ≤ℤ r.descriptor.start_position → recorded_position r <ℤ bound →
        replayed from bound r ≡ r.frames }
{}

/// The ids of recordings rise, and are below the next one, whatever the commands were.
#[tactic(auto, using(crate::proofs::CommandsLemmas::ids_rise))]
pub fn ids_rise()
    ensures { (cs : List Command) →
        Rise id_of (pos 0) (after_all empty cs).recordings (after_all empty cs).next }
{}

/// An accepted command leaves a well-formed state well-formed: ids rise, a recording's parameters are in their limits,
/// frames go without a gap from the start to the recorded position, each inside its term, and where a recording isn't
/// active it stopped at its recorded position.
pub fn an_accepted_command_keeps_states_well_formed()
    ensures { (b : BookState) (c : Command) →
        IsWell b.state → Accepts b c → IsWell (after b.state c) }
{}

/// So each state that accepted commands make is well-formed.
#[tactic(auto, using(crate::proofs::StateLemmas::all_well))]
pub fn accepted_commands_make_well_formed_states()
    ensures { (limit : ℕ) (cs : List Command) →
        AreAccepted (new_book limit) cs → IsWell (after_all empty cs) }
{}

/// The register after an accepted command is the one of the state after it.
#[tactic(auto, using(crate::proofs::StateLemmas::register_follows))]
pub fn the_register_follows_the_state()
    ensures { (b : BookState) (c : Command) → IsWell b.state → Accepts b c →
        register_of (after b.state c) ≡ register_after b.state c (register_of b.state) }
{}

/// An answer Ok says that the command is accepted and replied to, and an accepted command may be answered so; a refusal,
/// but for want of memory, says that the command is not accepted.
pub fn an_answer_says_whether_a_command_is_accepted()
    ensures ok { (b : BookState) (c : Command) (reply : Reply) →
        Answers b c (Ok reply) ↔ (Accepts b c × (reply ≡ reply_to b.state c)) }
    ensures refused { (b : BookState) (c : Command) (refusal : Refusal) → refusal ≢ NoMemory →
        Answers b c (Err refusal) → Accepts b c → ⊥ }
{}

/// A truncation at a boundary ends at its position.
#[tactic(auto, using(crate::proofs::StateLemmas::truncated_ends))]
pub fn a_truncation_ends_at_its_position()
    ensures { (r : Recorded) (position : ℤ) → IsKept r →
        IsTrue (is_boundary_by (begins_frame position r) position (registration_of r)) →
        recorded_position (truncated position r) ≡ position }
{}

/// A purge of segments leaves the recorded position.
#[tactic(auto, using(crate::proofs::StateLemmas::purged_ends))]
pub fn a_purge_of_segments_leaves_the_recorded_position()
    ensures { (r : Recorded) (position : ℤ) → IsKept r →
        IsTrue (is_later_base position (registration_of r)) →
        recorded_position (purged position r) ≡ recorded_position r }
{}

/// A command changes the recording that it names, as its equation says, and leaves each other one, but for a restart, which
/// stops all that are active.
#[tactic(auto, using(crate::proofs::LeftLemmas::command_leaves))]
pub fn a_command_changes_its_recording_alone()
    ensures { (s : State) (c : Command) → IsWell s → (id : ℤ) (r : Recorded) →
        find id_of id s.recordings ≡ Some r →
        find id_of id (after s c).recordings ≡ left_of id c r }
{}

/// A purge of segments is accepted only where a later segment of its recording begins.
#[tactic(auto, using(crate::proofs::StateLemmas::base_of_purge))]
pub fn an_accepted_purge_is_at_a_later_base()
    ensures { (b : BookState) (id position : ℤ) (r : Recorded) →
        Accepts b (Command.PurgeSegments id position) →
        find id_of id b.state.recordings ≡ Some r →
        IsTrue (is_later_base position (registration_of r)) }
{}

/// A purge of segments leaves the last frames of a recording, those from its position on.
#[tactic(auto, using(crate::proofs::LeftLemmas::purge_leaves_last))]
pub fn a_purge_of_segments_leaves_the_last_frames()
    ensures { (r : Recorded) (position : ℤ) → IsKept r →
        IsTrue (is_later_base position (registration_of r)) →
        (gone : List Frame) × (r.frames ≡ gone ++ (purged position r).frames)
        × (position ≡ r.descriptor.start_position +ℤ pos (covered gone)) }
{}

/// A truncation leaves the first frames of a recording.
#[tactic(auto, using(crate::proofs::LeftLemmas::truncation_leaves_first))]
pub fn a_truncation_leaves_the_first_frames()
    ensures { (r : Recorded) (position : ℤ) →
        (gone : List Frame) × (r.frames ≡ (truncated position r).frames ++ gone) }
{}
