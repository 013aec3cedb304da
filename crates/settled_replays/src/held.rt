//! A replay that is open while its frames are read beside the archive. docs/CONTROL.md, "Replays".

ghost use Rattle.std.specs.Prelude.{◌≡◌, Err, IfErr, IfOk, OnErr, OnOk, true};
ghost use Rattle.control_core.specs.declared.event.Event.TheVariants.{ReplayOpen};
ghost use Rattle.settled_replays.specs.Holding.{PassAsks, ClosesHeld, LooksAgain, MovesReplayOn, OpensReplay, SeesNothing, StaysHeld};
ghost use Rattle.settled_replays.specs.Reading.{KeepsUp, LooksIfRead};

use crate::calls::{close, opened, positions_of};
use archive_lock::{Made, Naming, SharedArchive};
use call_history::Pass;
use disk_core::Disk;
use frame_core::Refusal;
use std::alloc::Global;
use std::marker::Model;
use std::sync::Wait;

/// A replay that a pass opened and did not close, and how far its recording was seen to be recorded. While it is open, each
/// recorded frame from where it was opened on stays at its place (archive_lock, `laws`).
#[derive(Drop)]
pub struct HeldReplay {
    pass: Pass<Made>,
    recording: i64,
    number: i64,
    from: i64,
    seen: i64,
    is_active: bool,
}

impl Model for HeldReplay {
    ghost use Rattle.settled_replays.specs.Holding.{HeldReplayView};

    ghost Value = { HeldReplayView };

    ghost view = { λ h. record {
      pass = h.pass;
      recording = h.recording;
      number = h.number;
      from = h.from;
      seen = h.seen;
      is_active = h.is_active;
    } };
}

/// Why a replay was not opened, and the pass.
#[derive(Drop)]
pub struct Unopened {
    /// The pass, which has seen the refused call.
    pub pass: Pass<Made>,
    /// Why.
    pub refusal: Refusal,
}

impl HeldReplay {
    /// Opens a replay of a recording at a position, for a length, both in bytes of the stream: one call. Nothing is seen yet
    /// past the position.
    ///
    /// Refused as that call is, with the pass. Costs what it costs, and waits for those that hold the lock.
    pub fn open<D: Disk, A: Naming, R: Wait>(
        rt: &R,
        alloc: Global,
        archive: &SharedArchive<D, A>,
        mut pass: Pass<Made>,
        recording: i64,
        position: i64,
        length: i64,
    ) -> Result<HeldReplay, Unopened>
        requires { pass.table ≡ A.table }
        ensures opens { IfOk result (λ held. OpensReplay D.life A.opening pass recording position length held.number held.pass) }
        ensures held { IfOk result (λ held. held ≡ record {
          pass = held.pass;
          recording = recording;
          number = held.number;
          from = position;
          seen = position;
          is_active = true;
        }) }
        ensures refused { IfErr result (λ un. PassAsks D.life A.opening pass (ReplayOpen recording position length) (Err un.refusal) un.pass) }
        ensures pass { IfOk result (λ held. (held.pass.table ≡ pass.table) × (held.pass.number ≡ pass.number)) }
        ensures back { IfErr result (λ un. (un.pass.table ≡ pass.table) × (un.pass.number ≡ pass.number)) }
    {
        match opened(rt, alloc, archive, &mut pass, recording, position, length) {
            Ok(number) => Ok(HeldReplay {
                pass,
                recording,
                number,
                from: position,
                seen: position,
                is_active: true,
            }),
            Err(refusal) => Err(Unopened { pass, refusal }),
        }
    }

    /// The recording's id. Does not allocate.
    pub fn recording(&self) -> i64
        ensures { result ≡ self.now.recording }
    {
        self.recording
    }

    /// The replay's number. Does not allocate.
    pub fn number(&self) -> i64
        ensures { result ≡ self.now.number }
    {
        self.number
    }

    /// Where the replay was opened, in bytes of the stream. Does not allocate.
    pub fn from(&self) -> i64
        ensures { result ≡ self.now.from }
    {
        self.from
    }

    /// Up to where the recording was seen to be recorded, in bytes of the stream. Does not allocate.
    pub fn seen(&self) -> i64
        ensures { result ≡ self.now.seen }
    {
        self.seen
    }

    /// Whether the recording was active when that was seen. Does not allocate.
    pub fn is_active(&self) -> bool
        ensures { result ≡ self.now.is_active }
    {
        self.is_active
    }

    /// Looks how far the recording is recorded, and whether it is active: one call, which reads nothing.
    ///
    /// Refused as that call is. Then nothing more was seen. Waits for those that hold the lock.
    pub fn look<D: Disk, A: Naming, R: Wait>(
        &mut self,
        rt: &R,
        alloc: Global,
        archive: &SharedArchive<D, A>,
    ) -> Result<(), Refusal>
        requires { self.old.pass.table ≡ A.table }
        ensures looks { OnOk result (LooksAgain D.life A.opening self.old self.new) }
        ensures refused { IfErr result (SeesNothing D.life A.opening self.old self.new) }
        ensures pass { (self.new.pass.table ≡ self.old.pass.table) × (self.new.pass.number ≡ self.old.pass.number) }
    {
        let seen = positions_of(rt, alloc, archive, &mut self.pass, self.recording)?;
        self.seen = seen.recorded;
        self.is_active = seen.is_active();
        Ok(())
    }

    /// Looks, if all that was seen is read up to where the next frame begins, in bytes of the stream.
    ///
    /// Refused as the look is.
    pub(crate) fn look_if_read<D: Disk, A: Naming, R: Wait>(
        &mut self,
        rt: &R,
        alloc: Global,
        archive: &SharedArchive<D, A>,
        next: i64,
    ) -> Result<(), Refusal>
        requires { self.old.pass.table ≡ A.table }
        ensures looks { OnOk result (LooksIfRead D.life A.opening self.old next self.new) }
        ensures refused { IfErr result (SeesNothing D.life A.opening self.old self.new) }
        ensures pass { (self.new.pass.table ≡ self.old.pass.table) × (self.new.pass.number ≡ self.old.pass.number) }
        ensures same { (self.new.recording ≡ self.old.recording) × (self.new.from ≡ self.old.from) }
    {
        if next < self.seen {
            return Ok(());
        }
        self.look(rt, alloc, archive)
    }

    /// Moves on to where a segment begins, if that is further on than where the replay was opened. If that is refused the
    /// replay stays, and protects more than it needs.
    pub(crate) fn keep_up<D: Disk, A: Naming, R: Wait>(
        &mut self,
        rt: &R,
        alloc: Global,
        archive: &SharedArchive<D, A>,
        base: Option<i64>,
    )
        requires { self.old.pass.table ≡ A.table }
        ensures keeps { KeepsUp D.life A.opening self.old base self.new }
        ensures pass { (self.new.pass.table ≡ self.old.pass.table) × (self.new.pass.number ≡ self.old.pass.number) }
        ensures seen { (self.new.seen ≡ self.old.seen) × (self.new.is_active ≡ self.old.is_active) }
        ensures recording { self.new.recording ≡ self.old.recording }
    {
        if let Some(base) = base {
            if self.from < base {
                let _ = self.move_on(rt, alloc, archive, base, -1);
            }
        }
    }

    /// Opens a replay of the recording further on, and then closes the one before: two calls. A position that is a multiple of
    /// the term length needs no read.
    ///
    /// Refused as the opening is. Then the replay before it is open still. Waits for those that hold the lock.
    pub fn move_on<D: Disk, A: Naming, R: Wait>(
        &mut self,
        rt: &R,
        alloc: Global,
        archive: &SharedArchive<D, A>,
        position: i64,
        length: i64,
    ) -> Result<(), Refusal>
        requires { self.old.pass.table ≡ A.table }
        ensures moves { OnOk result (MovesReplayOn D.life A.opening self.old self.new position length) }
        ensures stays { IfErr result (StaysHeld D.life A.opening self.old self.new position length) }
        ensures pass { (self.new.pass.table ≡ self.old.pass.table) × (self.new.pass.number ≡ self.old.pass.number) }
    {
        let number = opened(
            rt,
            alloc,
            archive,
            &mut self.pass,
            self.recording,
            position,
            length,
        )?;
        close(rt, alloc, archive, &mut self.pass, self.number);
        self.number = number;
        self.from = position;
        Ok(())
    }

    /// Closes the replay, by one call, however that is answered: the pass.
    pub fn close<D: Disk, A: Naming, R: Wait>(
        self,
        rt: &R,
        alloc: Global,
        archive: &SharedArchive<D, A>,
    ) -> Pass<Made>
        requires { self.pass.table ≡ A.table }
        ensures closes { ClosesHeld D.life A.opening self.pass self.number result }
        ensures pass { (result.table ≡ self.pass.table) × (result.number ≡ self.pass.number) }
    {
        let HeldReplay {
            mut pass,
            number,
            ..
        } = self;
        close(rt, alloc, archive, &mut pass, number);
        pass
    }

    /// The pass. The replay stays open, for another one to close. Does not allocate.
    pub fn release(self) -> Pass<Made>
        ensures { result ≡ self.pass }
    {
        self.pass
    }
}
