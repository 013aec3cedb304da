//! Laws of the definitions, each the contract of a function that does nothing.

ghost use Rattle.std.specs.Prelude.{◌≡◌, ◌+◌, ◌++◌, ◌∷◌, ◌≤ℤ◌, ℕ, ℤ, false, IsFalse, IsTrue, List, [], Some, Result, Ok, Err, length, unsigned_abs};
ghost use Rattle.disk_core.specs.DiskImage.{DiskImage, Files, MayLeave, begun, reads};
ghost use Rattle.disk_core.specs.Life.{LeavesOnly, Life, MayHaveLeft, moment};
ghost use Rattle.frame_core.specs.declared.block.Block.{Block};
ghost use Rattle.frame_core.specs.declared.refusal.Refusal.{Refusal};
ghost use Rattle.frame_core.specs.Block.{covered};
ghost use Rattle.segment_store.specs.Layout.{IsBlockIn, IsFromStart, IsLayout, base_of, file_of};
ghost use Rattle.segment_store.specs.Stored.{HoldsFrames};
ghost use Rattle.archive_model.specs.declared.command.Command.{Command};
ghost use Rattle.archive_model.specs.declared.registration.Registration.{Registration};
ghost use Rattle.archive_model.specs.declared.reply.PolledFrame.{PolledFrame};
ghost use Rattle.archive_model.specs.declared.reply.Reply.{Reply};
ghost use Rattle.archive_model.specs.Acceptance.{BookState};
ghost use Rattle.archive_model.specs.Accepting.{Accepts};
ghost use Rattle.archive_model.specs.Commands.{after, frames_of};
ghost use Rattle.archive_model.specs.Keyed.{Each};
ghost use Rattle.archive_model.specs.Register.{no_recordings};
ghost use Rattle.archive_model.specs.Replay.{is_boundary, polled};
ghost use Rattle.archive_model.specs.State.{Recording, State, recorded_position, register_of, registration_of};
ghost use Rattle.archive_model.specs.WellFormed.{IsKept, IsWell};
ghost use Rattle.catalogue_entries.specs.declared.entry.Entry.{Entry};
ghost use Rattle.archive_model.specs.declared.version.BankVersion.{BankVersion};
ghost use Rattle.catalogue_entries.specs.Fold.{AreAdmitted, after_entries, first_place};
ghost use Rattle.catalogue_entries.specs.History.{IsRequested, entry_of};
ghost use Rattle.catalogue_log.specs.declared.bank.BankHeader.{BankHeader};
ghost use Rattle.catalogue_log.specs.Catalogue.{IsCatalogue};
ghost use Rattle.catalogue_log.specs.Compacting.{HasRegister, LeavesRegister};
ghost use Rattle.catalogue_log.specs.LogState.{LogState};
ghost use Rattle.control_core.specs.declared.callers.OpenReplay.{OpenReplay};
ghost use Rattle.control_core.specs.declared.event.Event.{Event};
ghost use Rattle.control_core.specs.declared.event.Event.TheVariants as events;
ghost use Rattle.control_core.specs.Consistent.{IsConsistent};
ghost use Rattle.control_core.specs.Exact.{Archive, ArchiveEnds, CallEnds, recording_at};
ghost use Rattle.control_core.specs.Orderly.{AreLaid};
ghost use Rattle.control_core.specs.Runs.{MayStand, StoodAmong};
ghost use Rattle.control_core.specs.Turns.{open_replay_in};
ghost use Rattle.engine_core.specs.Calls.{AnswersEvent, HasFailedOften, IsRun, KeepsStanding, LeavesAlone, Ran, StoodIn, WorksOn, faults_in};
ghost use Rattle.engine_core.specs.Catalogued.{IsCatalogued, MakesRegister};
ghost use Rattle.engine_core.specs.Consistent.{IsCrashConsistent, Stands};
ghost use Rattle.engine_core.specs.Engine.{Content, EngineState, DiskGoesOn, archive_of};
ghost use Rattle.engine_core.specs.Moves.{Enters, EntryLeads};
ghost use Rattle.engine_core.specs.Opened.{HasOpened, LeavesEither};
ghost use Rattle.engine_core.specs.Protected.{GoesOn, HasFrom, KeepOpen, KeepsFrom, KnowsFrom, StandFrom, StaysRead, closes};
ghost use Rattle.engine_core.specs.Recovery.{IsDurable, IsSound, Recovers, RecoversTo, last_of};
ghost use Rattle.recording_reads.specs.Reading.{GivesShown};
ghost use Rattle.recording_reads.specs.Recording.{layout_of};

/// Every image that a crash may leave of a sound archive recovers to its state.
pub fn a_sound_archive_recovers()
    ensures { (files : Files) (log : LogState) (s : State) (image : DiskImage) →
        IsSound files log s → MayLeave files image → Recovers image s }
{}

/// An image recovers to one state.
pub fn an_image_recovers_to_one_state()
    ensures { (image : DiskImage) (s u : State) → Recovers image s → Recovers image u → s ≡ u }
{}

/// A command that records no frames leaves durable frames durable: so its entry leads from the state before it to the one
/// after it.
pub fn frames_stay_durable_where_none_is_recorded()
    ensures frames { (files : Files) (b : BookState) (c : Command) → IsWell b.state → Accepts b c →
        IsRequested c → Each (IsDurable files) b.state.recordings →
        Each (IsDurable files) (after b.state c).recordings }
    ensures leads { (files : Files) (b : BookState) (c : Command) → IsWell b.state → Accepts b c →
        IsRequested c → Each (IsDurable files) b.state.recordings →
        EntryLeads files b.state (after b.state c) (entry_of b.state c) }
{}

/// The entry of any accepted command enters the state after it.
pub fn an_accepted_command_enters_the_state_after_it()
    ensures { (b : BookState) (c : Command) → IsWell b.state → Accepts b c →
        Enters b.state (after b.state c) (entry_of b.state c) }
{}

/// Blocks stand behind what is recorded, in the segment where that ends, and one more that begins there where they end,
/// and is read there, stands with them: docs/STORAGE.md, "Segments".
pub fn blocks_stand_together()
    ensures { (image : DiskImage) (r : Recording) (blocks : List Block) (block : Block) →
        IsLayout (layout_of r.descriptor) → IsFromStart (layout_of r.descriptor) block.position →
        IsBlockIn (layout_of r.descriptor) block →
        unsigned_abs block.position ≡ last_of r + covered (frames_of blocks) →
        base_of (layout_of r.descriptor) (unsigned_abs block.position)
        ≡ base_of (layout_of r.descriptor) (last_of r) →
        Stands image (file_of (layout_of r.descriptor) (last_of r)) r (frames_of blocks) →
        HoldsFrames image (layout_of r.descriptor) (unsigned_abs block.position) block.frames
        (unsigned_abs block.position + covered block.frames) →
        Stands image (file_of (layout_of r.descriptor) (last_of r)) r (frames_of (blocks ++ block ∷ [])) }
{}

/// A run goes on: what was obeyed at its end was at its start, and its faults were counted. There are as many answers as
/// events.
pub fn a_run_goes_on()
    ensures goes_on { (old new : EngineState) (events : List Event) (outcomes : List
        (Result Reply Refusal)) →
        IsRun old events outcomes new → DiskGoesOn old.life new.life }
    ensures cause { (old new : EngineState) (events : List Event) (outcomes : List
        (Result Reply Refusal)) →
        IsRun old events outcomes new → HasFailedOften (faults_in outcomes) old.life new.life }
    ensures each { (old new : EngineState) (events : List Event) (outcomes : List
        (Result Reply Refusal)) →
        IsRun old events outcomes new → length outcomes ≡ length events }
{}

/// For who answers one event at a time: no events are a run, and so are those of a run and one more.
pub fn a_run_and_a_step_are_a_run()
    ensures none { (e : EngineState) → IsRun e [] [] e }
    ensures more { (old mid new : EngineState) (events : List Event) (outcomes : List
        (Result Reply Refusal))
        (event : Event) (outcome : Result Reply Refusal) → IsRun old events outcomes mid →
        AnswersEvent mid new event outcome → IsRun old (events ++ event ∷ []) (outcomes ++ outcome ∷ []) new }
{}

/// While no write has failed a checkpoint leaves the archive's state alone: a crash at any moment of it leaves that state,
/// whatever is active, and also where it is refused or breaks the archive.
pub fn a_checkpoint_leaves_the_state()
    ensures { (old new : EngineState) (c : Content) (result : Result Reply Refusal) →
        AnswersEvent old new events.Checkpoint result → IsCrashConsistent old.life old.log (archive_of old c) →
        IsFalse old.desk.is_broken → LeavesOnly old.life new.life (RecoversTo (λ x. x ≡ c.state)) }
{}

/// A run over a disk that obeys leaves a crash-consistent archive such; a crash at any moment of it leaves a state that
/// stood after the first of its events, or was in doubt then.
pub fn a_run_keeps_the_archive()
    ensures { (old new : EngineState) (c : Content) (events : List Event) (outcomes : List
        (Result Reply Refusal)) →
        IsRun old events outcomes new → IsCrashConsistent old.life old.log (archive_of old c) →
        IsTrue new.life.obeys → Ran old new (archive_of old c) events outcomes }
{}

/// Whatever the segment files hold, a run up to a write that fails keeps the catalogue: a crash at any moment of it leaves
/// recordings that stood then, or what the write was to make.
pub fn a_run_keeps_the_catalogue()
    ensures { (old new : EngineState) (events : List Event) (outcomes : List (Result Reply Refusal))
        (run : IsRun old events outcomes new) → WorksOn old events outcomes new run → IsCatalogued old →
        KeepsStanding old new (StoodIn old events outcomes new run) }
{}

/// An archive that was opened over a whole catalogue keeps it, whatever the segment files hold.
pub fn an_opened_catalogue_is_kept()
    ensures { (old : Life) (new : EngineState) (stopped : ℤ) (h : BankHeader) (es : List Entry) →
        HasOpened old new stopped → IsTrue new.life.obeys → IsCatalogue (reads old.now) h es → IsCatalogued new }
{}

/// The catalogue of a log at rest is what a crash leaves: an opening finds it, and its recordings.
pub fn a_kept_catalogue_is_found()
    ensures { (e : EngineState) (image : DiskImage) → IsCatalogued e → MayLeave e.life.now image →
        MakesRegister e.log.header e.desk.register image }
{}

/// Once a call is answered, a crash leaves the state after it alone; refused, while no write has failed, the one before it
/// alone.
pub fn a_call_leaves_one_state()
    ensures answered { (old new : EngineState) (c : Content) (event : Event) (reply : Reply) →
        IsCrashConsistent old.life old.log (archive_of old c) → IsTrue new.life.obeys →
        AnswersEvent old new event (Ok reply) → IsFalse new.desk.is_broken →
        (after : Content) × ArchiveEnds (archive_of old c) event (Ok reply) (archive_of new after)
        × LeavesAlone new.life after.state }
    ensures refused { (old new : EngineState) (c : Content) (event : Event) (refusal : Refusal) →
        IsCrashConsistent old.life old.log (archive_of old c) → IsTrue new.life.obeys →
        AnswersEvent old new event (Err refusal) → IsFalse new.desk.is_broken → LeavesAlone new.life c.state }
{}

/// A crash leaves a disk that an archive can be opened from: at any moment of calls a state that stood after the first of
/// them, or was in doubt then; behind them the state after all of them, or the one in doubt. `Engine::open` gives its
/// restart.
pub fn a_crash_leaves_an_archive_to_open()
    ensures meanwhile { (old new : EngineState) (left : Life) (a : Archive) (events : List Event)
        (outcomes : List (Result Reply Refusal)) (image : DiskImage) → (ran : Ran old new a events outcomes) →
        MayHaveLeft new.life (moment old.life) image → left.now ≡ begun image →
        (s : State) × StoodAmong a ran.left s × LeavesEither left s s }
    ensures now { (life left : Life) (log : LogState) (a : Archive) (image : DiskImage) →
        IsCrashConsistent life log a → MayLeave life.now image → left.now ≡ begun image →
        (s : State) × MayStand a s × LeavesEither left s s }
{}

/// Where every image recovers to a state, its catalogue makes that state's register; and a stretch of calls whose images
/// have catalogues that make this register, and the segment files as before, leaves the state. So a catalogue may be
/// written anew: docs/STORAGE.md, "Compaction".
pub fn a_catalogue_of_the_same_register_keeps_the_state()
    ensures start { (files : Files) (s : State) →
        ((image : DiskImage) → MayLeave files image → Recovers image s) →
        LeavesRegister files (register_of s) }
    ensures moments { (old new : Life) (s : State) → MayLeave old.now (reads old.now) →
        ((image : DiskImage) → MayLeave old.now image → Recovers image s) →
        LeavesOnly old new (HasRegister old.now (register_of s)) →
        LeavesOnly old new (λ image. Recovers image s) }
{}

/// Entries of which each may follow those before it, as an opening finds them in a catalogue, make recordings that are laid:
/// what a desk that is opened over them asks for.
pub fn admitted_entries_make_laid_recordings()
    ensures { (v : BankVersion) (entries : List Entry) → AreAdmitted (first_place v) entries →
        AreLaid (after_entries no_recordings entries) }
{}

/// While a replay is open, a call, whatever it is and whatever fails in it, leaves each recorded frame from where the replay
/// goes on in its place, in every image that a crash at any moment of the call may leave. The archive has to work as the
/// call begins.
pub fn a_step_keeps_what_a_replay_reads()
    ensures { (old new : EngineState) (c : Content) (event : Event) (outcome : Result Reply Refusal)
        (n : ℤ)
        (replay : OpenReplay) (r : Recording) →
        IsCrashConsistent old.life old.log (archive_of old c) → IsTrue new.life.obeys →
        IsFalse old.desk.is_broken → AnswersEvent old new event outcome →
        open_replay_in old.desk n ≡ Some replay →
        recording_at (archive_of old c) replay.recording ≡ Some r →
        LeavesOnly old.life new.life (λ image. StandFrom image replay.next r) }
{}

/// A replay stays open until a call closes it. It is of the same recording, and goes on where it went on or past that. After
/// any call, its recording has the frames that it had from there on, perhaps with more after them, where they were.
pub fn a_replay_stays_open()
    ensures goes_on { (a b : Archive) (event : Event) (outcome : Result Reply Refusal) (n : ℤ)
        (replay : OpenReplay) →
        IsConsistent a → open_replay_in a.desk n ≡ Some replay → closes n event outcome ≡ false →
        CallEnds a event (Unit {0}) outcome b → GoesOn b.desk n replay }
    ensures keeps { (a b : Archive) (event : Event) (outcome : Result Reply Refusal) (n : ℤ)
        (replay : OpenReplay) (r : Recording) →
        IsConsistent a → open_replay_in a.desk n ≡ Some replay →
        recording_at a replay.recording ≡ Some r → r.descriptor.start_position ≤ℤ replay.next →
        CallEnds a event (Unit {0}) outcome b → HasFrom replay.next replay.recording r b.state }
{}

/// So do calls one after another of which none closes the replay, also once a write among them has failed. The archive has to
/// work as the first of them begins.
pub fn a_run_keeps_what_a_replay_reads()
    ensures { (old new : EngineState) (c : Content) (events : List Event) (outcomes : List
        (Result Reply Refusal)) (n : ℤ)
        (replay : OpenReplay) (r : Recording) →
        IsRun old events outcomes new → IsCrashConsistent old.life old.log (archive_of old c) →
        IsTrue new.life.obeys → IsFalse old.desk.is_broken →
        open_replay_in old.desk n ≡ Some replay →
        recording_at (archive_of old c) replay.recording ≡ Some r → KeepOpen n events outcomes →
        StaysRead old new n replay r }
{}

/// What a reader is shown of an image where these frames are in their places is what a poll would give. The reader knows the
/// recording as it was when its replay was opened, and up to where it is recorded now. As the reader goes forward, both hold
/// from its later position on.
pub fn what_is_read_beside_is_recorded()
    ensures known { (p : ℤ) (r new : Recording) → KeepsFrom p r new →
        KnowsFrom p (record (registration_of r) { recorded = recorded_position new }) new }
    ensures later { (image : DiskImage) (p q : ℤ) (g : Registration) (r : Recording) → p ≤ℤ q →
        StandFrom image p r → KnowsFrom p g r → StandFrom image q r × KnowsFrom q g r }
    ensures read { (image : DiskImage) (g : Registration) (r : Recording) (replay : OpenReplay)
        (most : ℤ)
        (frames : List PolledFrame) (end : ℕ) → IsKept r → IsTrue (is_boundary replay.next r) →
        StandFrom image replay.next r → KnowsFrom replay.next g r →
        GivesShown image g replay most frames end →
        frames ≡ polled replay.next replay.bound (unsigned_abs most) r }
{}
