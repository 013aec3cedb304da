//! Who answers the lines of connections over a shared archive. docs/SERVING.md, "Control lines".

ghost use Rattle.std.specs.Prelude.{◌≡◌, [], MatchBool, Result};
ghost use Rattle.std.specs.List.{position};
ghost use Rattle.frame_core.specs.declared.refusal.Refusal.{Refusal};
ghost use Rattle.archive_model.specs.declared.reply.Reply.{Reply};
ghost use Rattle.control_core.specs.declared.event.Event.TheVariants.{Checkpoint};
ghost use Rattle.server.specs.Answering.{CallsOnce, CallsShared, ClosesReplay, ClosesEach, EndsConnection, FollowsCall, KeepsShort, NotesOpened, NotesReplay, awaited_before, closed_replay, is_command, is_device_fault, is_replay, replays_left_by, left_open, makes_entry, may_be_last, offered_if, opened_replay, polled_replay, settled_after, settled_before, shared_ways};

use crate::connections::{Connections, Server};
use crate::place::Place;
use archive_lock::{Made, Naming, SharedArchive, Standing};
use archive_model::Reply;
use call_history::Pass;
use control_core::{Event, Request};
use disk_core::Disk;
use frame_core::{Geometry, Refusal};
use server_recorder::{is_begun, note_checkpoint, note_standing};
use server_state::{ClientNews, Happening, Reporter};
use std::alloc::Global;
use std::marker::{Model, PhantomData};
use std::mem;
use std::net::SocketAddr;
use std::sync::Wait;
use tool_core::{Answerer, CheckpointOutcome};

/// A shared archive, and what clients' calls on it are noted in.
#[derive(Drop)]
pub(crate) struct NotedArchive<'a, D: Disk, A: Naming, R, T> {
    pub rt: &'a R,
    pub archive: &'a SharedArchive<D, A>,
    pub with: &'a Connections<T>,
    /// Where the connection comes from whose lines are answered, if that is known.
    pub address: Option<SocketAddr>,
    /// Whether positions that are asked for wait for a settling, and ask for the next one.
    pub settles: bool,
}

impl<'a, D: Disk, A: Naming, R: Wait, T: Reporter> NotedArchive<'a, D, A, R, T> {
    /// Makes a call, as `SharedArchive::call_with_standing`, and notes its answer.
    fn call(
        &self,
        alloc: Global,
        pass: &mut Pass<Made>,
        event: &Event,
    ) -> (Result<Reply, Refusal>, Option<Standing>)
        requires { pass.old.table ≡ A.table }
        ensures calls { CallsOnce D.life A.opening event.now pass.old result.0 pass.new }
        ensures pass { (pass.new.table ≡ pass.old.table) × (pass.new.number ≡ pass.old.number) }
    {
        self.settle_first(event);
        if makes_entry(event) {
            self.call_in_turn(alloc, pass, event)
        } else {
            self.call_now(alloc, pass, event)
        }
    }

    /// Notes where the archive stands after a call. If a checkpoint is due then, it is made first, and noted.
    fn keep_short(&self, alloc: Global, pass: &mut Pass<Made>, standing: &Standing)
        requires { pass.old.table ≡ A.table }
        ensures short { KeepsShort D.life A.opening pass.old pass.new }
        ensures pass { (pass.new.table ≡ pass.old.table) × (pass.new.number ≡ pass.old.number) }
    {
        if is_begun(&self.with.shared, standing) {
            self.make_checkpoint(alloc, pass, standing);
        } else {
            note_standing(&self.with.shared, standing);
        }
    }

    /// Notes how a checkpoint ended that a client asked for, and where the archive stands after it.
    fn note_asked(&self, outcome: &Result<Reply, Refusal>, standing: &Option<Standing>) {
        if let Some(after) = standing {
            let before = Standing {
                is_broken: after.is_broken,
                counted: self.with.shared.meter.entries(),
                limit: after.limit,
                active: after.active,
                version: after.version,
            };
            note_checkpoint(&self.with.shared, &before, outcome, standing);
        }
    }

    /// Makes a checkpoint that has begun, of an archive that stands so, and notes how it ended.
    fn make_checkpoint(&self, alloc: Global, pass: &mut Pass<Made>, before: &Standing)
        requires { pass.old.table ≡ A.table }
        ensures made { (outcome : Result Reply Refusal) × CallsOnce D.life A.opening Checkpoint pass.old outcome pass.new }
        ensures pass { (pass.new.table ≡ pass.old.table) × (pass.new.number ≡ pass.old.number) }
    {
        let (outcome, after) = self
            .archive
            .call_with_standing(self.rt, alloc, pass, &Event::Checkpoint);
        note_checkpoint(&self.with.shared, before, &outcome, &after);
    }

    /// Makes a call and notes it, before or after each other call by this function.
    fn call_in_turn(
        &self,
        alloc: Global,
        pass: &mut Pass<Made>,
        event: &Event,
    ) -> (Result<Reply, Refusal>, Option<Standing>)
        requires { pass.old.table ≡ A.table }
        ensures calls { CallsOnce D.life A.opening event.now pass.old result.0 pass.new }
        ensures pass { (pass.new.table ≡ pass.old.table) × (pass.new.number ≡ pass.old.number) }
    {
        let _turn = self.with.shared.turn.lock(self.rt);
        self.call_now(alloc, pass, event)
    }

    fn call_now(
        &self,
        alloc: Global,
        pass: &mut Pass<Made>,
        event: &Event,
    ) -> (Result<Reply, Refusal>, Option<Standing>)
        requires { pass.old.table ≡ A.table }
        ensures calls { CallsOnce D.life A.opening event.now pass.old result.0 pass.new }
        ensures pass { (pass.new.table ≡ pass.old.table) × (pass.new.number ≡ pass.old.number) }
    {
        let (outcome, standing) = self.archive.call_with_standing(self.rt, alloc, pass, event);
        self.note(event, &outcome);
        (outcome, standing)
    }

    /// If a call is a stop, its recording's session settles first: what was recorded of it is kept. If it asks for positions,
    /// a settling that was asked for before is made first, so that it shows it.
    fn settle_first(&self, event: &Event) {
        if let Some(recording) = settled_before(event) {
            self.with.shared.settle_writer(self.rt, recording);
        }
        if let (true, Some(recording)) = (self.settles, awaited_before(event)) {
            self.with.shared.await_writer(self.rt, recording);
        }
    }

    /// Notes what a call was answered, beside the history.
    fn note(&self, event: &Event, outcome: &Result<Reply, Refusal>) {
        self.with.shared.meter.note_call(outcome);
        self.with
            .shared
            .replays
            .note(self.rt, event, outcome, self.address);
        self.with
            .shared
            .report_holders(self.rt, self.with.alloc, event, outcome);
        self.with.shared.report_wrong_word(event, outcome);
        if self.with.shared.note(self.rt, event, outcome) {
            self.with.shared.look_round(&self.with.socket);
        }
        if let (true, Some(recording)) = (self.settles, settled_after(event, outcome)) {
            self.with.shared.ask_writer(self.rt, recording);
        }
    }
}

/// A client thread's part in a shared archive. To a contract it is its pass, which has the number that names its place, and
/// the replays that its connection opened and did not close.
#[derive(Drop)]
pub(crate) struct Controller<'a, D: Disk, A: Naming, P: Place, R, T> {
    noted: NotedArchive<'a, D, A, R, T>,
    pass: Pass<Made>,
    replays: Vec<i64>,
    /// Whether the server makes checkpoints.
    checkpoints: bool,
    of: PhantomData<P>,
}

impl<'a, D: Disk, A: Naming, P: Place, R, T> Model for Controller<'a, D, A, P, R, T> {
    ghost use Rattle.std.specs.Prelude.{◌≡◌};
    ghost use Rattle.server.specs.Answering.{ClientView};

    ghost Value = { ClientView };

    ghost view = { λ c. record { pass = c.pass; replays = c.replays.items; checkpoints = c.checkpoints } };

    ghost invariant = { λ c. (c.pass.table ≡ A.table) × (c.pass.number ≡ P.number) };
}

impl<'a, D: Disk, A: Naming, P: Place, R: Wait, T: Reporter> Controller<'a, D, A, P, R, T> {
    /// The part that calls with a pass.
    pub fn new(
        alloc: Global,
        noted: NotedArchive<'a, D, A, R, T>,
        pass: Pass<Made>,
        checkpoints: bool,
    ) -> Controller<'a, D, A, P, R, T>
        requires table { pass.table ≡ A.table }
        requires number { pass.number ≡ P.number }
        ensures { result ≡ record { pass = pass; replays = []; checkpoints = checkpoints } }
    {
        Controller {
            noted,
            pass,
            replays: Vec::new(alloc),
            checkpoints,
            of: PhantomData,
        }
    }

    /// The pass.
    pub fn into_pass(self) -> Pass<Made>
        ensures same { result ≡ self.entry.pass }
        ensures table { result.table ≡ A.table }
        ensures number { result.number ≡ P.number }
    {
        self.pass
    }

    /// Notes where the archive stands after a call that makes an entry, and after a device fault. A checkpoint comes first, if the
    /// server makes any and one is due. What became of one that a client asked for is noted.
    #[tactic(auto, using(crate::proofs::ClientLemmas::not_followed))]
    fn after_call(
        &mut self,
        alloc: Global,
        event: &Event,
        outcome: &Result<Reply, Refusal>,
        standing: &Option<Standing>,
    )
        ensures { FollowsCall D.life A.opening self.old self.new }
    {
        if matches!(event, Event::Checkpoint) {
            self.noted.note_asked(outcome, standing);
            return;
        }
        match standing {
            Some(standing) => {
                if may_be_last(event, outcome) {
                    self.follow(alloc, standing);
                }
            }
            None => {}
        }
    }

    /// Notes where the archive stands after a call. A checkpoint comes first, if the server makes any and one is due.
    fn follow(&mut self, alloc: Global, standing: &Standing)
        ensures { FollowsCall D.life A.opening self.old self.new }
    {
        if self.checkpoints {
            self.noted.keep_short(alloc, &mut self.pass, standing);
        } else {
            note_standing(&self.noted.with.shared, standing);
        }
    }

    /// Makes a call, and notes the replay that it opened or closed. A checkpoint may follow.
    fn call_shared(&mut self, alloc: Global, event: &Event) -> Result<Reply, Refusal>
        ensures { CallsShared D.life A.opening event.now self.old result self.new }
    {
        let (outcome, standing) = self.noted.call(alloc, &mut self.pass, event);
        note_replay(&mut self.replays, event, &outcome);
        self.after_call(alloc, event, &outcome, &standing);
        outcome
    }

    /// Closes replays, each by a call.
    fn close_each(&mut self, alloc: Global, replays: &[i64])
        ensures { ClosesEach D.life A.opening replays.now self.old self.new }
    {
        for (index, replay) in replays.iter().enumerate() {
            let _ = index;
            self.close(alloc, replay);
        }
    }

    /// Closes a replay by a call.
    fn close(&mut self, alloc: Global, replay: &i64)
        ensures { ClosesReplay D.life A.opening replay.now self.old self.new }
    {
        let _ = self.call_shared(alloc, &Event::ReplayClose { replay: *replay });
    }
}

/// Notes a replay that was opened or closed among those that a connection opened and did not close. If there is no memory for
/// one, it is not noted.
fn note_replay(replays: &mut Vec<i64>, event: &Event, outcome: &Result<Reply, Refusal>)
    ensures { NotesReplay event.now outcome.now replays.old.items replays.new.items }
{
    note_opened(replays, opened_replay(outcome));
    forget_closed(replays, &closed_replay(event, outcome));
}

/// Notes a replay, if there is memory for it.
fn note_opened(replays: &mut Vec<i64>, opened: Option<i64>)
    ensures { NotesOpened opened replays.old.items replays.new.items }
{
    if let Some(replay) = opened {
        let _ = replays.push(replay);
    }
}

/// Removes a replay from those that are noted.
fn forget_closed(replays: &mut Vec<i64>, closed: &Option<i64>)
    ensures { replays.new.items ≡ replays_left_by closed.now replays.old.items }
{
    match closed {
        Some(replay) => forget_replay(replays, replay),
        None => {}
    }
}

fn forget_replay(replays: &mut Vec<i64>, replay: &i64)
    ensures { replays.new.items ≡ left_open replay.now replays.old.items }
{
    match index_of(replays.as_slice(), replay) {
        Some(index) => {
            replays.remove(index);
        }
        None => {}
    }
}

/// Where a replay is among those that are noted.
fn index_of(replays: &[i64], replay: &i64) -> Option<usize>
    ensures { result ≡ position (is_replay replay.now) replays.now }
{
    replays.iter().position(|other| is_replay(replay, other))
}

/// Whether an open replay is this one.
fn is_replay(replay: &i64, other: &i64) -> bool
    ensures { result ≡ is_replay replay.now other.now }
{
    *replay == *other
}

/// The replay that an answer opens.
fn opened_replay(outcome: &Result<Reply, Refusal>) -> Option<i64>
    ensures { result ≡ opened_replay outcome.now }
{
    match outcome {
        Ok(Reply::ReplayOpened { replay }) => Some(*replay),
        _ => None,
    }
}

/// The replay that a call closes which was answered so.
fn closed_replay(event: &Event, outcome: &Result<Reply, Refusal>) -> Option<i64>
    ensures { result ≡ closed_replay event.now outcome.now }
{
    match (event, outcome) {
        (Event::ReplayClose { replay }, Ok(_)) => Some(*replay),
        _ => None,
    }
}

/// The replay that a call polls.
fn polled_replay(event: &Event) -> Option<i64>
    ensures { result ≡ polled_replay event.now }
{
    match event {
        Event::ReplayPoll { replay, max } => {
            let _ = max;
            Some(*replay)
        }
        Event::ReplayPollTo { replay, max, limit } => {
            let _ = max;
            let _ = limit;
            Some(*replay)
        }
        _ => None,
    }
}

/// Whether an accepted call of it makes an entry of the history.
fn makes_entry(event: &Event) -> bool
    ensures { result ≡ makes_entry event.now }
{
    match event {
        Event::Ask(request) => is_command(request),
        Event::Settle { .. } | Event::SettleAll { .. } => true,
        _ => false,
    }
}

/// Whether an archive may record nothing after a call that was answered so: it makes an entry, or the device failed.
fn may_be_last(event: &Event, outcome: &Result<Reply, Refusal>) -> bool
    ensures { result ≡ may_be_last event.now outcome.now }
{
    makes_entry(event) || is_device_fault(outcome)
}

fn is_device_fault(outcome: &Result<Reply, Refusal>) -> bool
    ensures { result ≡ is_device_fault outcome.now }
{
    matches!(outcome, Err(Refusal::DeviceFault))
}

/// Whether a request changes the catalogue, where it is accepted.
fn is_command(request: &Request) -> bool
    ensures { result ≡ is_command request.now }
{
    !matches!(
        request,
        Request::List { .. } | Request::Find(_) | Request::Positions { .. } | Request::Source { .. }
    )
}

/// The recording whose session settles before a call: that of a stop.
fn settled_before(event: &Event) -> Option<i64>
    ensures { result ≡ settled_before event.now }
{
    match event {
        Event::Ask(
            Request::Stop {
                recording,
                timestamp,
            },
        ) => {
            let _ = timestamp;
            Some(*recording)
        }
        _ => None,
    }
}

/// The recording whose settling a call waits for, if one is asked for: that of a question for positions.
fn awaited_before(event: &Event) -> Option<i64>
    ensures { result ≡ awaited_before event.now }
{
    match event {
        Event::Ask(Request::Positions { recording }) => Some(*recording),
        _ => None,
    }
}

/// The recording whose session is to settle after a call that was answered so: that of positions that were given.
fn settled_after(event: &Event, outcome: &Result<Reply, Refusal>) -> Option<i64>
    ensures { result ≡ settled_after event.now outcome.now }
{
    match (event, outcome) {
        (Event::Ask(Request::Positions { recording }), Ok(_)) => Some(*recording),
        _ => None,
    }
}

impl<D: Disk, A: Naming, P: Place, R: Wait, T: Reporter> Answerer
    for Controller<'_, D, A, P, R, T> {
    ghost ways = { shared_ways D.life A.opening };

    ghost checkpoints = { offered_if (λ client. client.checkpoints) };

    fn terms(&mut self, session: &i64) -> Result<Geometry, Refusal> {
        self.noted
            .archive
            .terms(self.noted.rt, &mut self.pass, session)
    }

    fn call(&mut self, alloc: Global, event: &Event) -> Result<Reply, Refusal> {
        let NotedArchive { rt, with, .. } = self.noted;
        if let Event::ReplayClose { replay } = event {
            with.followers.end_follower(rt, *replay);
        }
        let Some(replay) = polled_replay(event) else {
            return self.call_shared(alloc, event);
        };
        // A follower's replay is opened under the same lock: there is no moment at which it can be polled.
        let places = with.followers.lock(rt);
        if places.has(replay) {
            return Err(Refusal::UnknownReplay);
        }
        self.call_shared(alloc, event)
    }

    fn reopen(self, _alloc: Global) -> (Self, Result<Reply, Refusal>) {
        (self, Err(Refusal::BadLine))
    }

    fn compact(self, _alloc: Global) -> (Self, Result<Reply, Refusal>) {
        (self, Err(Refusal::BadLine))
    }

    fn offers_checkpoints(&self) -> bool {
        self.checkpoints
    }

    fn prepare(&mut self, _alloc: Global) -> Option<CheckpointOutcome> {
        None
    }
}

impl<D: Disk, A: Naming, P: Place, R: Wait, T: Reporter> Server for Controller<'_, D, A, P, R, T> {
    ghost ended = { EndsConnection D.life A.opening };

    fn begin_connection(&mut self, address: Option<SocketAddr>) {
        self.noted.address = address;
    }

    fn end_connection(&mut self, alloc: Global, closes_replays: bool) {
        let replays = mem::replace(&mut self.replays, Vec::new(alloc));
        if closes_replays {
            self.close_each(alloc, replays.as_slice());
        } else if !replays.is_empty() {
            let left = Happening::Client(ClientNews::LeftReplays(replays.as_slice()));
            self.noted.with.shared.report(&left);
        }
    }
}
