//! Where agents ask whether to go on. docs/ARCHITECTURE.md, "Agents".

ghost use Rattle.std.specs.Prelude.{◌≡◌};

use std::sync::atomic::{AtomicBool, Ordering};

/// Says whether agents go on.
pub trait Gate {
    /// Whether the agent of a number makes a further turn.
    fn turn(&self, agent: u32) -> bool;
}

/// Where the agents of a run ask whether to go on.
#[derive(Clone, Copy)]
pub struct Signals<'a, G> {
    /// Asked before each turn.
    pub gate: &'a G,
    /// Set where an agent could not be started.
    pub ends: &'a AtomicBool,
}

impl<'a, G: Gate> Signals<'a, G> {
    /// Whether the agent of a number makes a further turn.
    pub fn goes_on(&self, agent: u32) -> bool {
        !self.ends.load(Ordering::SeqCst) && self.gate.turn(agent)
    }

    /// Notes whether an agent was started: if not, each ends at its next turn. Hands on whether it was.
    pub fn note(&self, is_started: bool) -> bool
        ensures { result ≡ is_started }
    {
        if !is_started {
            self.ends.store(true, Ordering::SeqCst);
        }
        is_started
    }
}
