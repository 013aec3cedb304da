//! A receiver: hands the blocks of a source to a recorder. docs/ARCHITECTURE.md, "Agents".

ghost use Rattle.std.specs.Prelude.{◌≡◌, [], MatchOption};
ghost use Rattle.agents_core.specs.Receivers.{ReceiverEnded, answer_of};

use crate::block_source::BlockSource;
use crate::gate::{Gate, Signals};
use crate::handoff::{Handoff, Putter};
use crate::item::Item;
use std::sync::Wait;
use std::sync::atomic::{AtomicBool, Ordering};
use std::thread;

/// An agent that hands on the blocks of a source.
#[derive(Drop)]
pub struct Receiver<S> {
    /// Where the blocks come from.
    pub source: S,
}

/// Hands on the blocks of a source until there is no more, the gate ends it or its recorder has ended; then sets the flag of
/// its pair.
pub fn receive<S: BlockSource, G: Gate, R: Wait>(
    rt: &R,
    agent: u32,
    receiver: Receiver<S>,
    handoff: &Handoff<Item>,
    putter: Putter<Item>,
    signals: &Signals<'_, G>,
    is_over: &AtomicBool,
) -> (Receiver<S>, Putter<Item>)
    requires handoff { putter.handoff ≡ handoff.now }
    requires empty { putter.put ≡ [] }
    ensures { ReceiverEnded S.gives receiver handoff.now result.0 result.1 }
{
    let ended = hand_on(rt, agent, receiver, handoff, putter, signals, is_over);
    is_over.store(true, Ordering::SeqCst);
    ended
}

fn hand_on<S: BlockSource, G: Gate, R: Wait>(
    rt: &R,
    agent: u32,
    mut receiver: Receiver<S>,
    handoff: &Handoff<Item>,
    mut putter: Putter<Item>,
    signals: &Signals<'_, G>,
    is_over: &AtomicBool,
) -> (Receiver<S>, Putter<Item>)
    requires handoff { putter.handoff ≡ handoff.now }
    requires empty { putter.put ≡ [] }
    ensures { ReceiverEnded S.gives receiver handoff.now result.0 result.1 }
{
    let mut waiting = None;
    for _ in rt.forever() {
        if is_over.load(Ordering::SeqCst) || !signals.goes_on(agent) {
            return (receiver, putter);
        }
        let item = next_item(waiting, &mut receiver.source);
        let is_end = item.is_end();
        match handoff.put(rt, &mut putter, item) {
            Ok(()) => {
                if is_end {
                    return (receiver, putter);
                }
                waiting = None;
            }
            Err(item) => {
                waiting = Some(item);
                thread::yield_now();
            }
        }
    }
    unreachable!()
}

/// What waits, or else what the source answers next.
fn next_item<S: BlockSource>(waiting: Option<Item>, source: &mut S) -> Item
    ensures { MatchOption waiting (S.gives source.old (answer_of result) source.new)
        (λ item. (result ≡ item) × (source.new ≡ source.old)) }
{
    match waiting {
        Some(item) => item,
        None => match source.next() {
            Some(block) => Item::Block(block),
            None => Item::End,
        },
    }
}
