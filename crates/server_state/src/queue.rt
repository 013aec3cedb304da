//! Blocks on their way from the thread that receives to the one that records, settlings that clients ask for, and images that
//! leave.
//! docs/ARCHITECTURE.md, "Serving".

ghost use Rattle.std.specs.Prelude.{◌≡◌, [], ◌∷◌, ◌++◌, ◌||◌, false, length, not, replicate, true, IfErr, IfOk, OnOk};
ghost use Rattle.server_state.specs.Asking.{all_taken, is_any_asked};
ghost use Rattle.server_state.specs.Handing.{is_idle, is_handed_over, may_put};

use crate::asking::Asks;
use crate::pairing::ImageKey;
use frame_core::Block;
use std::alloc::{AllocError, Global};
use std::collections::VecDeque;
use std::mem;
use std::rt::Clock;
use std::sync::{Condvar, CondvarTimeouts, Mutex, Wait};
use std::time::Duration;
use stream_pairs::{FED_SESSIONS, MAX_IMAGES, Place, Seat};

/// Blocks that wait at most on their way from the thread that receives to the one that records: one of each image.
pub const MAX_QUEUED: usize = MAX_IMAGES;

/// A block, and the image that it is of.
#[derive(Drop)]
pub struct FedBlock {
    /// The image.
    pub image: ImageKey,
    /// The block.
    pub block: Block,
}

/// What the recording thread takes from the queue, beside the blocks.
#[derive(Clone, Copy)]
pub struct Taken {
    /// Of each seat whether a client asked that its session settles.
    pub asked: [bool; FED_SESSIONS],
    /// Of each place whether its image leaves: no block of it comes any more.
    pub leaving: [bool; FED_SESSIONS],
    /// Of each place whether its image is to be recorded without being asked.
    pub records: [bool; FED_SESSIONS],
    /// Whether no blocks came, and none come any more.
    pub is_over: bool,
}

/// Blocks that wait, at most 64. While none is awaited a block stays in its image and grows there, unless it is full.
#[derive(Drop)]
pub struct Queue {
    state: Mutex<Waiting>,
    filled: Condvar,
    emptied: Condvar,
    settled: Condvar,
}

#[derive(Drop)]
struct Waiting {
    blocks: VecDeque<FedBlock>,
    /// Whether the thread that records waits for blocks.
    is_awaited: bool,
    /// Whether a block was kept back since.
    is_kept_back: bool,
    is_ended: bool,
    /// Seats whose sessions are to settle.
    asks: Asks,
    /// Places whose images leave.
    leaves: Asks,
    /// Places whose images are to be recorded without being asked.
    records: Asks,
}

impl Waiting {
    /// No block waits, and none is awaited. Costs memory for 64.
    fn new(alloc: Global) -> Result<Waiting, AllocError>
        ensures blocks { IfOk result (λ made. made.blocks.items ≡ []) }
        ensures nothing_asked { IfOk result (λ made. made ≡ record {
          blocks = made.blocks;
          is_awaited = false;
          is_kept_back = false;
          is_ended = false;
          asks = record {
            asked = replicate 64 false;
            taken = replicate 64 false;
            is_closed = false;
          };
          leaves = record {
            asked = replicate 64 false;
            taken = replicate 64 false;
            is_closed = false;
          };
          records = record {
            asked = replicate 64 false;
            taken = replicate 64 false;
            is_closed = false;
          };
        }) }
    {
        Ok(Waiting {
            blocks: VecDeque::with_capacity(alloc, MAX_QUEUED)?,
            is_awaited: false,
            is_kept_back: false,
            is_ended: false,
            asks: Asks::new(),
            leaves: Asks::new(),
            records: Asks::new(),
        })
    }

    /// Whether a block may be put: fewer than 64 wait, and blocks are awaited, or it is full. Where not, it is kept back.
    fn admits(&mut self, is_full: bool) -> bool
        ensures admitted { result ≡ may_put self.old.is_awaited (length self.old.blocks.items) is_full }
        ensures kept_back { self.new ≡ record self.old
            { is_kept_back = self.old.is_kept_back || not result } }
    {
        let may_put = self.blocks.len() < MAX_QUEUED && (is_full || self.is_awaited);
        if !may_put {
            self.is_kept_back = true;
        }
        may_put
    }

    /// Puts a block behind the others. It comes back where there is no memory for it.
    fn put(&mut self, fed: FedBlock) -> Result<(), FedBlock>
        ensures put { OnOk result (self.new.blocks.items ≡ self.old.blocks.items ++ fed ∷ []) }
        ensures refused { IfErr result (λ back. (back ≡ fed)
            × (self.new.blocks.items ≡ self.old.blocks.items)) }
        ensures others { self.new ≡ record self.old { blocks = self.new.blocks } }
    {
        match self.blocks.push_back(fed) {
            Ok(()) => Ok(()),
            Err(refused) => Err(refused.value),
        }
    }

    /// Blocks are awaited from now on. Whether one was kept back.
    fn await_blocks(&mut self) -> bool
        ensures was_kept_back { result ≡ self.old.is_kept_back }
        ensures awaited { self.new ≡ record self.old { is_awaited = true; is_kept_back = false } }
    {
        self.is_awaited = true;
        mem::replace(&mut self.is_kept_back, false)
    }

    /// Whether there is nothing to do for the recording thread: no block waits, no settling is asked for, no image leaves, and
    /// blocks may come.
    fn is_idle(&self) -> bool
        ensures { result ≡ is_idle (length self.now.blocks.items)
            (is_any_asked self.now.asks.asked || is_any_asked self.now.leaves.asked || is_any_asked self.now.records.asked)
            self.now.is_ended }
    {
        let is_asked = self.asks.is_asked() || self.leaves.is_asked() || self.records.is_asked();
        self.blocks.is_empty() && !is_asked && !self.is_ended
    }

    /// Gives all blocks that wait in place of those of an empty batch, which settlings are asked for, and which images leave. No
    /// block is awaited from now on.
    fn give(&mut self, batch: &mut VecDeque<FedBlock>) -> Taken
        ensures given { batch.new ≡ self.old.blocks }
        ensures taken { result ≡ record {
          asked = self.old.asks.asked;
          leaving = self.old.leaves.asked;
          records = self.old.records.asked;
          is_over = is_handed_over (length self.old.blocks.items) self.old.is_ended;
        } }
        ensures left { self.new ≡ record self.old
            { blocks = batch.old; is_awaited = false; asks = all_taken self.old.asks; leaves = all_taken self.old.leaves; records = all_taken self.old.records } }
    {
        let is_over = self.blocks.is_empty() && self.is_ended;
        self.is_awaited = false;
        mem::swap(&mut self.blocks, batch);
        Taken {
            asked: self.asks.take(),
            leaving: self.leaves.take(),
            records: self.records.take(),
            is_over,
        }
    }

    /// The sessions that were taken have settled, and those of images that were taken, too.
    fn answer(&mut self)
        ensures { self.new ≡ record self.old {
          asks = record self.old.asks { taken = replicate 64 false };
          leaves = record self.old.leaves { taken = replicate 64 false };
        } }
    {
        self.asks.answer();
        self.leaves.answer();
    }

    /// The recording thread has ended.
    fn close(&mut self)
        ensures { self.new ≡ record self.old {
          asks = record self.old.asks { is_closed = true };
          leaves = record self.old.leaves { is_closed = true };
        } }
    {
        self.asks.close();
        self.leaves.close();
    }
}

impl Queue {
    /// No block waits. Costs memory for 64.
    pub fn new(alloc: Global) -> Result<Queue, AllocError> {
        Ok(Queue {
            state: Mutex::new(Waiting::new(alloc)?),
            filled: Condvar::new(),
            emptied: Condvar::new(),
            settled: Condvar::new(),
        })
    }

    /// Whether a block may be put: fewer than 64 wait, and blocks are awaited, or it is full. Where not, it is kept back.
    pub fn has_room<R: Wait>(&self, rt: &R, is_full: bool) -> bool {
        self.state.lock(rt).admits(is_full)
    }

    /// Puts a block behind the others. It comes back where there is no memory for it. The thread that records is not woken.
    pub fn put<R: Wait>(&self, rt: &R, fed: FedBlock) -> Result<(), FedBlock> {
        self.state.lock(rt).put(fed)
    }

    /// Wakes the thread that records, since blocks were put.
    pub fn wake(&self) {
        self.filled.notify_one();
    }

    /// Waits until fewer than 64 blocks wait.
    pub fn wait_for_room<R: Wait>(&self, rt: &R) {
        let state = self.emptied.wait_while(rt, self.state.lock(rt), |state| {
            state.blocks.len() >= MAX_QUEUED
        });
        let _ = state.is_ended;
    }

    /// Blocks are awaited from now on. Whether one was kept back.
    pub fn await_blocks<R: Wait>(&self, rt: &R) -> bool {
        self.state.lock(rt).await_blocks()
    }

    /// Whether a block waits.
    pub fn has_block<R: Wait>(&self, rt: &R) -> bool {
        !self.state.lock(rt).blocks.is_empty()
    }

    /// Takes all blocks that wait in place of those of an empty batch, which settlings are asked for, and which images leave. It
    /// waits for one of these, or for the end, for so many milliseconds at most.
    pub fn take<R: Wait + Clock>(
        &self,
        rt: &R,
        batch: &mut VecDeque<FedBlock>,
        wait: Option<u64>,
    ) -> Taken {
        let state = self.state.lock(rt);
        let mut state = match wait {
            Some(wait) => {
                let wait = Duration::from_millis(wait);
                self.filled
                    .wait_timeout_while(rt, state, wait, |state| state.is_idle())
                    .0
            }
            None => self.filled.wait_while(rt, state, |state| state.is_idle()),
        };
        let taken = state.give(batch);
        self.emptied.notify_all();
        taken
    }

    /// Asks that the session at a seat settles at once.
    pub fn ask<R: Wait>(&self, rt: &R, seat: Seat) {
        self.state.lock(rt).asks.ask(seat);
        self.filled.notify_one();
    }

    /// Waits until a session that was asked for has settled, or the recording thread has ended.
    pub fn wait_for_settling<R: Wait>(&self, rt: &R, seat: Seat) {
        let state = self.settled.wait_while(rt, self.state.lock(rt), |state| {
            state.asks.is_pending(seat)
        });
        let _ = state.is_ended;
    }

    /// The image at a place leaves: no block of it is put any more.
    pub fn ask_to_leave<R: Wait>(&self, rt: &R, place: Place) {
        self.state.lock(rt).leaves.ask(place);
        self.filled.notify_one();
    }

    /// The image at a place is to be recorded without being asked.
    pub fn ask_to_record<R: Wait>(&self, rt: &R, place: Place) {
        self.state.lock(rt).records.ask(place);
        self.filled.notify_one();
    }

    /// Whether the recording thread has not done yet with all blocks of an image that leaves.
    pub fn is_leaving<R: Wait>(&self, rt: &R, place: Place) -> bool {
        self.state.lock(rt).leaves.is_pending(place)
    }

    /// The sessions that were taken have settled, and those of images that were taken, too.
    pub fn answer<R: Wait>(&self, rt: &R) {
        self.state.lock(rt).answer();
        self.settled.notify_all();
    }

    /// The recording thread has ended: nobody waits for it any more.
    pub fn leave<R: Wait>(&self, rt: &R) {
        self.state.lock(rt).close();
        self.settled.notify_all();
    }

    /// No more blocks come.
    pub fn end<R: Wait>(&self, rt: &R) {
        self.state.lock(rt).is_ended = true;
        self.filled.notify_all();
    }
}
