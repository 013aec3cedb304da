//! How a receiver and its recorder end each other: docs/ARCHITECTURE.md, "Agents".

use crate::agents::{MOST, Plan, Told, ran, zeros};
use crate::archives::{Scenario, Seats, played};
use crate::left::Then;
use agents_core::Gate;
use archive_lock::{Naming, SharedArchive};
use disk_core::Disk;
use std::alloc::Global;
use std::process::Abort;
use std::sync::Wait;
use std::sync::atomic::{AtomicU32, Ordering};
use std::test::Fail;
use std::thread::{self, Threads};

/// What ends two pairs.
#[derive(Clone, Copy, PartialEq, Eq)]
pub(crate) enum End {
    /// The second recorder is refused at its first block. Its source has more blocks than may wait.
    Refused,
    /// Both receivers are ended by their gate after three blocks. Their recorders have no such gate.
    Gated,
    /// Each recorder begins only when its source has ended, and its queue is full.
    Full,
}

/// Where the blocks of a source begin, from the last to the first: more of them than may wait.
const TWENTY: &[i32] = &[
    1_216, 1_152, 1_088, 1_024, 960, 896, 832, 768, 704, 640, 576, 512, 448, 384, 320, 256, 192,
    128, 64, 0,
];

/// The same for a queue that is full once the end follows them.
const FIFTEEN: &[i32] = &[
    896, 832, 768, 704, 640, 576, 512, 448, 384, 320, 256, 192, 128, 64, 0,
];

/// How often a receiver asks whose queue is full at its end: for 15 blocks and the end.
const ASKS_OF_FULL: u32 = 16;

/// Agents that go on for as long as they like, but for two receivers. A recorder may wait until its receiver has asked so often.
#[derive(Drop)]
struct Receivers {
    asked: [AtomicU32; 6],
    turns: u32,
    waits_for: u32,
}

impl Receivers {
    /// The gate of an end.
    fn of(end: End) -> Receivers {
        Receivers {
            asked: zeros(),
            turns: if end == End::Gated { 3 } else { MOST },
            waits_for: if end == End::Full { ASKS_OF_FULL } else { 0 },
        }
    }

    /// How often an agent asked.
    fn asked_by(&self, agent: usize) -> u32 {
        match self.asked.get(agent) {
            Some(asked) => asked.load(Ordering::SeqCst),
            None => 0,
        }
    }

    /// Waits, for a recorder, until its receiver has asked often enough, and has had time to end then.
    fn wait_for_receiver(&self, agent: u32) {
        if self.waits_for > 0 && (agent == 2 || agent == 3) {
            self.wait_for_asks(if agent == 2 { 0 } else { 1 });
            for _ in 0..1_000 {
                thread::yield_now();
            }
        }
    }

    /// Waits until a receiver has asked often enough.
    fn wait_for_asks(&self, receiver: usize) {
        for _ in 0..MOST {
            if self.asked_by(receiver) >= self.waits_for {
                return;
            }
            thread::yield_now();
        }
    }

    /// Whether no agent was refused a turn, but for receivers that end so.
    fn are_free(&self, end: End) -> bool {
        let receivers = end == End::Gated || (self.is_free(0) && self.is_free(1));
        let recorders = self.is_free(2) && self.is_free(3);
        receivers && recorders && self.is_free(4) && self.is_free(5)
    }

    /// Whether an agent was never refused a turn.
    fn is_free(&self, agent: usize) -> bool {
        (1..=MOST).contains(&self.asked_by(agent))
    }
}

impl Gate for Receivers {
    fn turn(&self, agent: u32) -> bool {
        self.wait_for_receiver(agent);
        let turns = if agent < 2 { self.turns } else { MOST };
        match self.asked.get(agent as usize) {
            Some(asked) => asked.fetch_add(1, Ordering::SeqCst) < turns,
            None => false,
        }
    }
}

/// One recording, and two replays of so many bytes of it. There is no second session.
const ONE: &str = "\
start 1001 7 42 65536 1408 65536 0 1000 c: started 0 0
replay 0 0 1280: replay 0
replay 0 0 1280: replay 1
";

/// Two recordings, and a replay of each, over three blocks.
const OF_THREE: &str = "\
start 1001 7 42 65536 1408 65536 0 1000 c: started 0 0
start 1001 7 42 65536 1408 65536 0 1000 c: started 1 1
replay 0 0 192: replay 0
replay 1 0 192: replay 1
";

/// The same over fifteen.
const OF_FIFTEEN: &str = "\
start 1001 7 42 65536 1408 65536 0 1000 c: started 0 0
start 1001 7 42 65536 1408 65536 0 1000 c: started 1 1
replay 0 0 960: replay 0
replay 1 0 960: replay 1
";

/// The second recorder is refused at its first block. Its receiver ends, though its source has more blocks than may wait.
#[test]
fn a_refused_recorder_ends_its_receiver(rt: HostRuntime) -> Result<(), Fail> {
    played(&rt, rt.alloc(), false, Scenario::Ended(End::Refused))
}

/// Both receivers are ended by their gate after three blocks. Their recorders write these, and end.
#[test]
fn a_receiver_that_its_gate_ends_ends_its_recorder(rt: HostRuntime) -> Result<(), Fail> {
    played(&rt, rt.alloc(), false, Scenario::Ended(End::Gated))
}

/// Each recorder begins once its source has ended and 16 items wait. It writes all 15 blocks.
#[test]
fn a_full_queue_is_recorded_after_its_source_ended(rt: HostRuntime) -> Result<(), Fail> {
    played(&rt, rt.alloc(), false, Scenario::Ended(End::Full))
}

/// Two pairs and two replayers, of which no agent goes on for long once its pair, or its replay, is at its end.
pub(crate) fn ended_pairs<
    D: Disk + Drop + Send,
    A: Naming + Send + Sync,
    R: Threads + Wait + Abort + Sync,
>(
    rt: &R,
    alloc: Global,
    archive: &SharedArchive<D, A>,
    seats: Seats<A>,
    end: End,
) -> Result<(Seats<A>, Then), Fail> {
    let gate = Receivers::of(end);
    let (seats, told) = ran(rt, alloc, archive, seats, plan_of(end), &gate)?;
    assert!(rt; told.has_run && is_as_told(told, end));
    assert!(rt; gate.are_free(end));
    Ok((seats, Then::Anything))
}

/// What the agents of an end are made with.
fn plan_of(end: End) -> Plan<'static> {
    let (script, offsets) = match end {
        End::Refused => (ONE, TWENTY),
        End::Gated => (OF_THREE, TWENTY),
        End::Full => (OF_FIFTEEN, FIFTEEN),
    };
    Plan {
        script,
        offsets,
        wanted: 100,
        meeting: None,
    }
}

/// Whether the agents did what they have to do.
fn is_as_told(told: Told, end: End) -> bool {
    match end {
        // At most 16 blocks wait, one is taken, and one is at hand.
        End::Refused => {
            told.refused == 1 && told.frames == [20, 20] && told.left[0] == 0 && told.left[1] >= 2
        }
        End::Gated => told.refused == 0 && told.frames == [3, 3] && told.left == [17, 17],
        End::Full => told.refused == 0 && told.frames == [15, 15] && told.left == [0, 0],
    }
}
