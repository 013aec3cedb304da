//! When the threads of a server make checkpoints. docs/SERVING.md, "How long a history lasts".

ghost use Rattle.std.specs.Prelude.{◌≡◌, ◌^◌, ◌-◌, min, IsTrue, true};
ghost use Rattle.tool_core.specs.Checkpoints.{is_checkpoint_due};
ghost use Rattle.server_state.specs.Checkpointing.{next_try};

use frame_core::Refusal;
use std::sync::atomic::{AtomicBool, AtomicU8, AtomicU64, Ordering};
use tool_core::{CheckpointOutcome, is_checkpoint_due};

/// What the threads of a server know of checkpoints: whether there are any, and how the last one ended.
#[derive(Drop)]
pub struct Checkpointing {
    is_on: bool,
    /// Whether a thread makes one.
    is_making: AtomicBool,
    /// Entries with which one is tried again after a refusal. 0 after one that was made.
    next: AtomicU64,
    /// Whether the history is full.
    is_full: AtomicBool,
    /// The causes that were reported, one bit for each.
    causes: AtomicU8,
}

impl Checkpointing {
    /// None was made.
    pub(crate) fn new(is_on: bool) -> Checkpointing
        ensures { result.is_on ≡ is_on }
    {
        Checkpointing {
            is_on,
            is_making: AtomicBool::new(false),
            next: AtomicU64::new(0),
            is_full: AtomicBool::new(false),
            causes: AtomicU8::new(0),
        }
    }

    /// Whether the server makes checkpoints.
    pub fn is_on(&self) -> bool
        ensures { result ≡ self.now.is_on }
    {
        self.is_on
    }

    /// Whether the caller is to make one, of an archive of which so many entries count, so many recordings are active, and so
    /// many entries may count: one is due. Then no other thread is to, until `ended`.
    pub fn begins(&self, counted: u64, active: u64, limit: u32) -> bool
        ensures { IsTrue result → is_checkpoint_due counted active limit ≡ true }
    {
        self.is_on
            && is_checkpoint_due(counted, active, limit)
            && self.next.load(Ordering::SeqCst) <= counted
            && self.begins_now()
    }

    /// Whether the caller is to make one, whatever counts: no other thread makes one.
    pub fn begins_now(&self) -> bool {
        self.is_on && !self.is_making.swap(true, Ordering::SeqCst)
    }

    /// The one that began has ended, and so many entries count, of so many that may. Whether its outcome is to be reported: each
    /// cause of a refusal is once.
    pub(crate) fn ended(&self, outcome: &CheckpointOutcome, counted: u64, limit: u32) -> bool {
        let is_new = match outcome {
            CheckpointOutcome::Made { .. } => {
                self.next.store(0, Ordering::SeqCst);
                true
            }
            CheckpointOutcome::Refused(cause) => {
                self.next.store(next_try(counted, limit), Ordering::SeqCst);
                self.is_new(*cause)
            }
        };
        self.is_making.store(false, Ordering::SeqCst);
        is_new
    }

    /// So many entries count, and so many may.
    pub(crate) fn note(&self, counted: u64, limit: u32) {
        self.is_full
            .store(u64::from(limit) <= counted, Ordering::SeqCst);
    }

    /// Whether the server makes checkpoints and its history is full: then one is tried each second.
    pub fn is_full(&self) -> bool {
        self.is_on && self.is_full.load(Ordering::SeqCst)
    }

    /// Whether a cause was not reported before.
    fn is_new(&self, cause: Refusal) -> bool {
        let bit = cause_bit(cause);
        self.causes.fetch_or(bit, Ordering::SeqCst) & bit == 0
    }
}

/// A bit for each cause of a refusal.
fn cause_bit(cause: Refusal) -> u8 {
    match cause {
        Refusal::NoMemory => 1,
        Refusal::NotCatalogue => 2,
        Refusal::HistoryFull => 4,
        Refusal::DeviceFault => 8,
        _ => 16,
    }
}

/// With how many entries a checkpoint is tried again, if it was refused with so many, of so many that may count.
fn next_try(counted: u64, limit: u32) -> u64
    ensures { result ≡ min (next_try counted limit) (2 ^ 64 - 1) }
{
    counted.saturating_add(u64::from(limit / 64).max(1))
}
