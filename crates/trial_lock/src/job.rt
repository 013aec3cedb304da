//! A seat at a shared archive, and the work of its thread.

use crate::seat::Seat;
use crate::speed::{Load, events_of, session_of, start};
use crate::work::{Plan, Work};
use archive_lock::{Naming, SharedArchive};
use disk_core::Disk;
use frame_core::Refusal;
use std::alloc::Global;
use std::io::Print;
use std::rt::Clock;
use std::sync::Wait;
use std::thread;
use std::time::Duration;

/// A seat and the work of its thread.
#[derive(Drop)]
pub(crate) struct Job<A: Naming> {
    /// The seat.
    pub seat: Seat<A>,
    /// The work.
    pub work: Work,
}

impl<A: Naming> Job<A> {
    /// Does what comes before the threads: begins a recording, where the work goes on with it.
    pub(crate) fn prepare<D: Disk, R: Wait + Clock + Print>(
        &mut self,
        rt: &R,
        alloc: Global,
        archive: &SharedArchive<D, A>,
    ) -> Result<(), Refusal> {
        match self.work.plan {
            Plan::Storm { .. } => Ok(()),
            Plan::Folder { .. } => {
                if self.turn(rt, alloc, archive) && self.turn(rt, alloc, archive) {
                    Ok(())
                } else {
                    Err(Refusal::BadLine)
                }
            }
            Plan::Speed(load) => self.load(rt, alloc, archive, load),
        }
    }

    /// Begins a recording, and makes the calls that write it.
    fn load<D: Disk, R: Wait>(
        &mut self,
        rt: &R,
        alloc: Global,
        archive: &SharedArchive<D, A>,
        load: Load,
    ) -> Result<(), Refusal> {
        let start = start(alloc)?;
        let session = session_of(self.seat.call(rt, alloc, archive, &start));
        self.work.events = events_of(alloc, session, load)?;
        Ok(())
    }

    /// Makes the next call. Whether the work goes on.
    fn turn<D: Disk, R: Wait + Clock + Print>(
        &mut self,
        rt: &R,
        alloc: Global,
        archive: &SharedArchive<D, A>,
    ) -> bool {
        let micros = self.work.pause();
        if micros > 0 {
            thread::sleep(rt, Duration::from_micros(micros));
        }
        let Ok(event) = self.work.next(alloc) else {
            return false;
        };
        let answer = self.seat.call(rt, alloc, archive, &event);
        self.work.take(rt, alloc, event, &answer)
    }

    /// Makes the calls that were made before. Whether each was answered Ok.
    fn push<D: Disk, R: Wait>(
        &mut self,
        rt: &R,
        alloc: Global,
        archive: &SharedArchive<D, A>,
    ) -> bool {
        for event in self.work.events.as_slice() {
            if self.seat.call(rt, alloc, archive, event).is_err() {
                return false;
            }
        }
        true
    }
}

/// Does the work of a thread.
pub(crate) fn done<D: Disk, A: Naming, R: Wait + Clock + Print>(
    rt: &R,
    alloc: Global,
    archive: &SharedArchive<D, A>,
    mut job: Job<A>,
) -> Job<A> {
    job.work.is_right = job.push(rt, alloc, archive);
    for _ in 0..job.work.calls() {
        if !job.turn(rt, alloc, archive) {
            break;
        }
    }
    job
}
