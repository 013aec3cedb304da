//! Wakes those who wait until something more is settled. docs/ARCHITECTURE.md, "Serving".

use std::rt::Clock;
use std::sync::{Condvar, CondvarTimeouts, Mutex, Wait};
use std::time::Duration;

/// How often something was settled, for those who wait for more.
#[derive(Drop)]
pub struct SettleNotice {
    count: Mutex<u64>,
    raised: Condvar,
}

impl SettleNotice {
    /// Nothing was settled.
    pub fn new() -> SettleNotice {
        SettleNotice {
            count: Mutex::new(0),
            raised: Condvar::new(),
        }
    }

    /// Something was settled: whoever waits goes on. Waits for nothing but the count's lock, which nobody holds for long.
    pub fn note<R: Wait>(&self, rt: &R) {
        let mut count = self.count.lock(rt);
        *count = count.wrapping_add(1);
        self.raised.notify_all();
    }

    /// How often something was settled.
    pub fn count<R: Wait>(&self, rt: &R) -> u64 {
        *self.count.lock(rt)
    }

    /// Waits until something more was settled than so often, for so many milliseconds at most.
    pub fn wait<R: Wait + Clock>(&self, rt: &R, seen: u64, most: u64) {
        let count = self.count.lock(rt);
        let most = Duration::from_millis(most);
        let (count, _) = self
            .raised
            .wait_timeout_while(rt, count, most, |count| *count == seen);
        let _ = *count;
    }
}
