//! Items handed from one thread to another, in order, by a queue of a few. docs/ARCHITECTURE.md, "Agents".

ghost use Rattle.std.specs.Prelude.{◌≡◌, ◌++◌, ◌∷◌, [], IfOk, MatchOption, MatchResult};
ghost use mathlib.Core.List.{IsPrefix};
ghost use Rattle.agents_core.specs.Handoff.{WasFull};

use crossbeam_queue::protocol::{Join, Lesson, Outcome, Protocol, Split};
use crossbeam_queue::{Pass, RuledArrayQueue};
use frame_core::limits::MAX_WAITING_BLOCKS;
use std::alloc::{AllocError, Global};
use std::collections::LinkedList;
use std::marker::Model;
use std::sync::Wait;

/// What an end knows: whether it puts and takes, and what it has put and taken. No value of it is made.
pub struct Passed<T> {
    pub puts: bool,
    pub takes: bool,
    pub put: LinkedList<T>,
    pub taken: LinkedList<T>,
}

/// What was put is what was taken and then what waits.
pub struct InOrder;

impl<T> Protocol<T, Passed<T>> for InOrder {
    ghost use Rattle.std.specs.Prelude.{true, []};
    ghost use Rattle.agents_core.specs.Handoff.{IsInOrder, passed};

    ghost holds = { IsInOrder };

    ghost first = { passed true true [] [] };
}

/// Two ends are made of one, or one of two.
pub struct Ends;

impl<T> Split<Passed<T>> for Ends {
    ghost use Rattle.agents_core.specs.Handoff.{putting, taking};

    ghost left = { putting };

    ghost right = { taking };
}

impl<T> Join<Passed<T>> for Ends {
    ghost use Rattle.std.specs.Prelude.{true, false, []};
    ghost use Rattle.agents_core.specs.Handoff.{passed};

    ghost both = { λ v w. passed true true v.put w.taken };

    ghost spent = { passed false false [] [] };
}

/// An item is put.
pub struct Put;

impl<T> Outcome<T, Passed<T>> for Put {
    ghost use Rattle.std.specs.Prelude.{◌≡◌, ◌++◌, ◌∷◌, []};
    ghost use Rattle.agents_core.specs.Handoff.{passed};

    ghost then = { λ v x w. w ≡ passed v.puts v.takes (v.put ++ x ∷ []) v.taken };
}

impl<T> Lesson<T, Passed<T>> for Put {
    ghost use Rattle.std.specs.Prelude.{◌≡◌, ◌++◌, List};

    ghost fact = { λ v items. (taken : List T) × (v.put ≡ taken ++ items) };
}

/// An item is taken.
pub struct Taken;

impl<T> Outcome<T, Passed<T>> for Taken {
    ghost use Rattle.std.specs.Prelude.{◌≡◌, ◌++◌, ◌∷◌, []};
    ghost use Rattle.agents_core.specs.Handoff.{passed};

    ghost then = { λ v x w. w ≡ passed v.puts v.takes v.put (v.taken ++ x ∷ []) };
}

impl<T> Lesson<T, Passed<T>> for Taken {
    ghost use Rattle.std.specs.Prelude.{⊤};

    ghost fact = { λ v items. ⊤ };
}

/// What both ends know together.
pub struct Total;

impl<T> Lesson<T, Passed<T>> for Total {
    ghost use Rattle.std.specs.Prelude.{◌≡◌, ◌++◌};

    ghost fact = { λ v items. v.put ≡ v.taken ++ items };
}

/// Room for 16 items between two threads.
#[derive(Drop)]
pub struct Handoff<T> {
    queue: RuledArrayQueue<T, Passed<T>, InOrder>,
}

impl<T> Model for Handoff<T> {
    ghost use Rattle.std.specs.Prelude.{◌≡◌};
    ghost use Rattle.atomic_table.specs.Seated.{TableId};
    ghost use Rattle.crossbeam_queue.specs.Passes.{ruled_capacity};

    ghost Value = { TableId };

    ghost view = { λ h. h.queue.table.shared.table_id };

    ghost invariant = { λ h. ruled_capacity h.queue ≡ 16 };
}

/// The end that puts.
#[derive(Drop)]
pub struct Putter<T> {
    pass: Pass<T, Passed<T>>,
}

impl<T> Model for Putter<T> {
    ghost use Rattle.std.specs.Prelude.{◌≡◌, []};
    ghost use Rattle.agents_core.specs.Handoff.{PutterView, known_by, putting};

    ghost Value = { PutterView T };

    ghost view = { λ p. record { handoff = p.pass.table_id; put = (known_by p.pass).put } };

    ghost invariant = { λ p. (p.pass.me.1 ≡ []) × (known_by p.pass ≡ putting (known_by p.pass)) };
}

/// The end that takes.
#[derive(Drop)]
pub struct Taker<T> {
    pass: Pass<T, Passed<T>>,
}

impl<T> Model for Taker<T> {
    ghost use Rattle.std.specs.Prelude.{◌≡◌, []};
    ghost use Rattle.agents_core.specs.Handoff.{TakerView, known_by, taking};

    ghost Value = { TakerView T };

    ghost view = { λ p. record { handoff = p.pass.table_id; taken = (known_by p.pass).taken } };

    ghost invariant = { λ p. (p.pass.me.1 ≡ []) × (known_by p.pass ≡ taking (known_by p.pass)) };
}

impl<T> Handoff<T> {
    /// An empty handoff and its two ends. Costs memory for 16 items.
    pub fn new(alloc: Global) -> Result<(Handoff<T>, Putter<T>, Taker<T>), AllocError>
        ensures putter { IfOk result (λ made. made.1 ≡ record { handoff = made.0; put = [] }) }
        ensures taker { IfOk result (λ made. made.2 ≡ record { handoff = made.0; taken = [] }) }
    {
        let (queue, mut pass) = RuledArrayQueue::<T, Passed<T>, InOrder>::ruled(
            alloc,
            MAX_WAITING_BLOCKS,
        )?;
        let other = queue.another::<Ends>(&mut pass);
        Ok((Handoff { queue }, Putter { pass }, Taker { pass: other }))
    }

    /// Puts an item after the others, or hands it back if 16 wait. May try again while another thread is at work.
    pub fn put<R: Wait>(&self, rt: &R, putter: &mut Putter<T>, item: T) -> Result<(), T>
        requires { putter.old.handoff ≡ self.now }
        ensures { MatchResult result
            (λ _. putter.new ≡ record putter.old { put = putter.old.put ++ item ∷ [] })
            (λ back. (back ≡ item) × (putter.new ≡ putter.old) × WasFull putter.old.put) }
    {
        let queue = &self.queue;
        queue.push_as::<Put, R>(rt, &mut putter.pass, item)
    }

    /// Takes the first item, or none where none waits. May try again while another thread is at work.
    pub fn take<R: Wait>(&self, rt: &R, taker: &mut Taker<T>) -> Option<T>
        requires { taker.old.handoff ≡ self.now }
        ensures { MatchOption result (taker.new ≡ taker.old)
            (λ item. taker.new ≡ record taker.old { taken = taker.old.taken ++ item ∷ [] }) }
    {
        let queue = &self.queue;
        queue.pop_as::<Taken, R>(rt, &mut taker.pass)
    }

    /// What was taken is a beginning of what was put.
    pub fn compare(&self, putter: Putter<T>, taker: Taker<T>)
        requires putter { putter.handoff ≡ self.now }
        requires taker { taker.handoff ≡ self.now }
        ensures { IsPrefix taker.taken putter.put }
    {
        let queue = &self.queue;
        let Putter { mut pass } = putter;
        let Taker { pass: other } = taker;
        queue.absorb::<Ends>(&mut pass, other);
        queue.learn_as::<Total>(&mut pass);
    }
}
