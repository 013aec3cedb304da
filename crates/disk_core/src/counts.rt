//! What a disk in memory counts, and when it stops or fails.
ghost use Rattle.std.specs.Prelude.{◌≡◌, ◌≤◌, ◌↔◌, is_ok, if◌then◌else◌, IsOk};
ghost use Rattle.disk_core.specs.declared.counts.Injected.TheVariants.{Goes};
ghost use Rattle.disk_core.specs.Counts.{no_counts, next_injected, counted_call, with_fault};

use crate::Fault;
use std::alloc::AllocError;

/// What becomes of a call.
#[derive(Clone, Copy, Debug, PartialEq, Eq)]
pub(crate) enum Injected {
    Goes,
    /// It fails, and where it writes, cuts or removes it takes effect.
    Fails,
    /// It fails and changes nothing.
    Stops,
}

/// How many calls there have been, and which are to fail.
#[derive(Clone, Copy, Debug, PartialEq, Eq)]
pub(crate) struct Counts {
    pub(crate) calls: u64,
    pub(crate) changes: u64,
    pub(crate) faults: u64,
    /// How many changes are left before the disk stops.
    pub(crate) left: Option<u64>,
    /// Which call from now fails, counted from 1; 0 is none.
    pub(crate) fails: u64,
}

impl Counts {
    pub(crate) fn new() -> Self
        ensures { result ≡ no_counts }
    {
        Counts {
            calls: 0,
            changes: 0,
            faults: 0,
            left: None,
            fails: 0,
        }
    }

    /// Counts a call, and answers what becomes of it.
    pub(crate) fn begin(&mut self, changes: bool) -> Injected
        ensures injected { result ≡ next_injected self.old }
        ensures counted { self.new ≡ counted_call changes self.old }
    {
        let injected = if self.left == Some(0) {
            Injected::Stops
        } else if self.fails == 1 {
            Injected::Fails
        } else {
            Injected::Goes
        };
        self.calls = self.calls.saturating_add(1);
        self.fails = self.fails.saturating_sub(1);
        if changes {
            self.changes = self.changes.saturating_add(1);
            self.left = self.left.map(|left| left.saturating_sub(1));
        }
        injected
    }

    /// Counts a fault.
    pub(crate) fn fail(&mut self)
        ensures counted { self.new ≡ with_fault self.old }
        ensures risen { self.old.faults ≤ self.new.faults }
    {
        self.faults = self.faults.saturating_add(1);
    }

    /// Answers for a call that has made its change, or found no memory for it.
    pub(crate) fn finish(
        &mut self,
        injected: Injected,
        outcome: Result<(), AllocError>,
    ) -> Result<(), Fault>
        ensures done { IsOk result ↔ ((injected ≡ Goes) × IsOk outcome) }
        ensures risen { self.old.faults ≤ self.new.faults }
        ensures counted { self.new ≡ (if is_ok result then self.old else with_fault self.old) }
    {
        if injected == Injected::Goes && outcome.is_ok() {
            return Ok(());
        }
        self.fail();
        Err(Fault)
    }
}
