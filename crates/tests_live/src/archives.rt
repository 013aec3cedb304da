//! An archive in memory that threads share, with four seats, and what is played on it.

ghost use Rattle.std.specs.Prelude.{◌≡◌, [], IfOk};
ghost use Rattle.archive_lock.specs.Held.{engine_seen, view_of};
ghost use Rattle.call_history.specs.Passes.{AllOfTable, new_passes};

use crate::agents::{gated_pairs, two_pairs};
use crate::benches::{Settling, grouped};
use crate::ends::{End, ended_pairs};
use crate::failing::{READINGS, SCRIPT, again, faults};
use crate::held_back::{Turning, paired};
use crate::left::{Left, Then, check, left_on};
use crate::refused_turns::reopened;
use crate::scenarios::{BOUNDED_PARTS, BREAKS, by_turns, missing_pass};
use crate::seat::Seat;
use archive_lock::{Call, Closed, Made, Naming, SharedArchive};
use call_history::{Opened, Pass, Stored};
use disk_core::{Disk, MemoryDisk};
use engine_core::Engine;
use frame_core::Refusal;
use std::alloc::{AllocError, Global};
use std::io::Eprint;
use std::marker::Brand;
use std::process::{Abort, Termination};
use std::sync::Wait;
use std::test::Fail;
use std::thread::Threads;

/// What is played on an archive.
#[derive(Clone, Copy)]
pub(crate) enum Scenario {
    MissingPass,
    BoundedPart,
    Break,
    Agents,
    Gated,
    /// The pairs end by what happens to one of them.
    Ended(End),
    HeldBack,
    DamagedTurn,
    TurnAgain,
    /// The call of the disk of this number fails, counted after those that make the archive.
    Fault(u64),
    EachAgain,
    Group,
    /// The call of the disk of this number fails, counted from a group's settling on.
    GroupFault(u64),
    GroupAgain,
    ReadAgain,
}

/// A disk that tells how many changes it has seen.
pub(crate) trait Counted {
    fn changes_seen(&self) -> u64;
}

impl Counted for MemoryDisk {
    fn changes_seen(&self) -> u64 {
        self.changes()
    }
}

/// All seats of an archive.
#[derive(Drop)]
pub(crate) struct Seats<A: Naming> {
    pub first: Seat<A>,
    pub second: Seat<A>,
    pub third: Seat<A>,
    pub fourth: Seat<A>,
}

/// Plays a scenario on a new archive, where records are kept, or where calls are counted alone.
pub(crate) fn played<R: Threads + Wait + Abort + Sync>(
    rt: &R,
    alloc: Global,
    keeps: bool,
    scenario: Scenario,
) -> Result<(), Fail> {
    let engine = made(alloc, scenario)?;
    opened(rt, alloc, keeps, engine, scenario)
}

/// The same, once more if it was refused memory before a call or after it. Nothing is refused a second time.
pub(crate) fn played_again<R: Threads + Wait + Abort + Sync + Eprint>(
    rt: &R,
    alloc: Global,
    keeps: bool,
    scenario: Scenario,
) -> Result<(), Fail> {
    match played(rt, alloc, keeps, scenario) {
        Ok(()) => Ok(()),
        first => {
            first.report(rt);
            played(rt, alloc, keeps, scenario)
        }
    }
}

/// The archive in memory that a scenario is played on: a new one, or for a refused turn or reading one that has a recording.
fn made(alloc: Global, scenario: Scenario) -> Result<Engine<MemoryDisk>, Refusal> {
    match scenario {
        Scenario::DamagedTurn => reopened(alloc, true),
        Scenario::TurnAgain | Scenario::ReadAgain => reopened(alloc, false),
        // Seven calls make the archive.
        Scenario::Fault(call) => begun(alloc, call.wrapping_add(7)),
        // Two starts and two writes make ten more.
        Scenario::GroupFault(call) => begun(alloc, call.wrapping_add(17)),
        Scenario::Break => begun(alloc, 19),
        Scenario::HeldBack => begun(alloc, 27),
        _ => begun(alloc, 0),
    }
}

/// A new archive in memory, whose disk fails at a call, but for 0. The 19th is the first one of the second settling of the
/// archive that breaks; the 27th the second read of the replayer that is held back.
fn begun(alloc: Global, fails_at: u64) -> Result<Engine<MemoryDisk>, Refusal> {
    let mut disk = MemoryDisk::new(alloc);
    disk.fail_at(fails_at);
    match Engine::create(alloc, disk, 64) {
        Ok(engine) => Ok(engine),
        Err(refused) => Err(refused.refusal),
    }
}

fn opened<D: Disk + Drop + Send + Counted, R: Threads + Wait + Abort + Sync>(
    rt: &R,
    alloc: Global,
    keeps: bool,
    engine: Engine<D>,
    scenario: Scenario,
) -> Result<(), Fail> {
    let Ok(opened) = Opened::new(alloc, keeps) else {
        return Err(Fail::from("opened"));
    };
    shared::<D, Brand, R>(rt, alloc, opened, keeps, engine, scenario)
}

fn shared<
    D: Disk + Drop + Send + Counted,
    A: Naming + Send + Sync,
    R: Threads + Wait + Abort + Sync,
>(
    rt: &R,
    alloc: Global,
    opened: Opened<Made>,
    keeps: bool,
    engine: Engine<D>,
    scenario: Scenario,
) -> Result<(), Fail>
    requires named { opened.table ≡ A.table }
    requires counts { A.passes ≡ 4 }
    requires stores { opened.keeps ≡ A.keeps }
    requires opens { engine_seen D.life (view_of engine []) ≡ A.opening }
{
    let Ok((archive, passes)) = SharedArchive::<D, A>::new(alloc, opened, engine, 4) else {
        return Err(Fail::from("shared"));
    };
    match seats_of::<A>(passes) {
        Some(seats) => play(rt, alloc, archive, seats, keeps, scenario),
        None => Err(Fail::from("four passes")),
    }
}

/// The seats of new passes.
fn seats_of<A: Naming>(mut passes: Vec<Pass<Made>>) -> Option<Seats<A>>
    requires { passes.items ≡ new_passes A.table 4 }
{
    let (Some(fourth), Some(third), Some(second), Some(first)) = (
        passes.pop(),
        passes.pop(),
        passes.pop(),
        passes.pop(),
    ) else {
        return None;
    };
    Some(Seats {
        first: Seat::new(first),
        second: Seat::new(second),
        third: Seat::new(third),
        fourth: Seat::new(fourth),
    })
}

/// Plays a scenario, closes the archive, and looks at what is left.
fn play<D: Disk + Drop + Send + Counted, A: Naming + Send + Sync, R: Threads + Wait + Abort + Sync>(
    rt: &R,
    alloc: Global,
    archive: SharedArchive<D, A>,
    seats: Seats<A>,
    keeps: bool,
    scenario: Scenario,
) -> Result<(), Fail> {
    if let Scenario::MissingPass = scenario {
        return missing_pass(rt, alloc, archive, seats, keeps);
    }
    match course_of(rt, alloc, &archive, seats, scenario) {
        Ok((seats, then)) => {
            let left = left_by(rt, alloc, archive, seats)?;
            check(rt, left, keeps, then);
            Ok(())
        }
        Err(fail) => Err(fail),
    }
}

/// Plays a scenario whose archive is closed once. What has to be left then.
fn course_of<D: Disk + Drop + Send, A: Naming + Send + Sync, R: Threads + Wait + Abort + Sync>(
    rt: &R,
    alloc: Global,
    archive: &SharedArchive<D, A>,
    seats: Seats<A>,
    scenario: Scenario,
) -> Result<(Seats<A>, Then), Fail> {
    match scenario {
        Scenario::MissingPass => Err(Fail::from("an archive that is closed twice")),
        Scenario::BoundedPart => by_turns(rt, alloc, archive, seats, BOUNDED_PARTS, 9),
        Scenario::Break => by_turns(rt, alloc, archive, seats, BREAKS, 22),
        Scenario::Agents => two_pairs(rt, alloc, archive, seats),
        Scenario::Gated => gated_pairs(rt, alloc, archive, seats),
        Scenario::Ended(end) => ended_pairs(rt, alloc, archive, seats, end),
        Scenario::HeldBack => paired(rt, alloc, archive, seats, Turning::HeldBack),
        Scenario::DamagedTurn => paired(rt, alloc, archive, seats, Turning::Damaged),
        Scenario::TurnAgain => paired(rt, alloc, archive, seats, Turning::Again),
        Scenario::Fault(call) => faults(rt, alloc, archive, seats, call),
        // 6 changes came before the script.
        Scenario::EachAgain => again(rt, alloc, archive, seats, &SCRIPT, 52),
        Scenario::Group => grouped(rt, alloc, archive, seats, Settling::Twice),
        Scenario::GroupFault(call) => grouped(rt, alloc, archive, seats, Settling::Once(call)),
        Scenario::GroupAgain => grouped(rt, alloc, archive, seats, Settling::Again),
        // 21 changes made what is recorded, and its opening synced three files.
        Scenario::ReadAgain => again(rt, alloc, archive, seats, &READINGS, 24),
    }
}

/// What an archive leaves that is closed with all seats; `NoMemory` if there is none for their passes.
fn left_by<D: Disk + Drop + Counted, A: Naming, R: Abort>(
    rt: &R,
    alloc: Global,
    archive: SharedArchive<D, A>,
    seats: Seats<A>,
) -> Result<Left, Refusal> {
    match passes_of(alloc, seats) {
        Ok(passes) => left_with(rt, alloc, archive, passes),
        Err(_) => Err(Refusal::NoMemory),
    }
}

/// The same of one that is closed with these passes.
fn left_with<D: Disk + Drop + Counted, A: Naming, R: Abort>(
    rt: &R,
    alloc: Global,
    archive: SharedArchive<D, A>,
    passes: Vec<Pass<Made>>,
) -> Result<Left, Refusal>
    requires { AllOfTable A.table passes.items }
{
    match closed(archive, passes) {
        Some(closed) => {
            let calls = stored(&closed.history);
            left_on(alloc, closed.engine.into_disk(), calls)
        }
        None => panic!(rt; "a call is of no pass"),
    }
}

/// It, closed.
fn closed<D: Disk + Drop, A: Naming>(
    archive: SharedArchive<D, A>,
    passes: Vec<Pass<Made>>,
) -> Option<Closed<D>>
    requires { AllOfTable A.table passes.items }
{
    archive.close(passes).ok()
}

/// How many calls were stored, and whether their records were kept.
pub(crate) fn stored(history: &Stored<Call>) -> (u64, bool) {
    match history {
        Stored::Kept(records) => (records.len() as u64, true),
        Stored::Counted(number) => (*number, false),
    }
}

/// The passes of all seats.
fn passes_of<A: Naming>(alloc: Global, seats: Seats<A>) -> Result<Vec<Pass<Made>>, AllocError>
    ensures { IfOk result (λ passes. AllOfTable A.table passes.items) }
{
    let Seats {
        first,
        second,
        third,
        fourth,
    } = seats;
    let (first, second) = (first.into_pass(), second.into_pass());
    let (third, fourth) = (third.into_pass(), fourth.into_pass());
    Ok(vec![in alloc; first, second, third, fourth]?)
}
