//! The worked scenarios, by calls under a lock.

ghost use Rattle.std.specs.Prelude.{◌≡◌, IfSome};
ghost use Rattle.call_history.specs.Passes.{AllOfTable};

use crate::archives::{Scenario, Seats, played, stored};
use crate::left::Then;
use crate::seat::Seat;
use archive_lock::{Closed, Held, Made, MissingPass, Naming, SharedArchive};
use call_history::Pass;
use disk_core::Disk;
use std::alloc::Global;
use std::process::Abort;
use std::sync::Wait;
use std::test::Fail;
use std::thread::{Threads, join};

/// Where records are kept, and where calls are counted alone.
fn both<R: Threads + Wait + Abort + Sync>(
    rt: &R,
    alloc: Global,
    scenario: Scenario,
) -> Result<(), Fail> {
    played(rt, alloc, true, scenario)?;
    played(rt, alloc, false, scenario)
}

/// An archive does not close without the passes of all calls: it says how many are missing, and closes once they are given.
#[test]
fn a_missing_pass(rt: HostRuntime) -> Result<(), Fail> {
    both(&rt, rt.alloc(), Scenario::MissingPass)
}

/// A replay under the lock gives the frames from its position to its bound, and then `done`.
#[test]
fn bounded_part_of_a_recording(rt: HostRuntime) -> Result<(), Fail> {
    both(&rt, rt.alloc(), Scenario::BoundedPart)
}

/// After a failed write each pass is refused every change and reads what was recorded. The archive closes.
#[test]
fn an_archive_that_breaks(rt: HostRuntime) -> Result<(), Fail> {
    both(&rt, rt.alloc(), Scenario::Break)
}

const STARTED: &str = "\
start 1001 7 42 65536 1408 131072 0 1000 c: started 0 0
positions 0: positions 0 0 -1
";

/// Two threads call; the archive is closed with one pass, and then with both.
pub(crate) fn missing_pass<
    D: Disk + Drop + Send,
    A: Naming + Send + Sync,
    R: Threads + Wait + Abort + Sync,
>(
    rt: &R,
    alloc: Global,
    archive: SharedArchive<D, A>,
    seats: Seats<A>,
    keeps: bool,
) -> Result<(), Fail> {
    let (first, second) = called_by_both(rt, alloc, &archive, seats)?;
    let told = closed_twice(alloc, archive, first, second)?;
    assert!(rt; told == (1, 3, keeps));
    Ok(())
}

/// The seats of two threads, behind the calls of each.
fn called_by_both<D: Disk + Drop + Send, A: Naming + Send + Sync, R: Threads + Wait + Abort + Sync>(
    rt: &R,
    alloc: Global,
    archive: &SharedArchive<D, A>,
    seats: Seats<A>,
) -> Result<(Seat<A>, Seat<A>), Fail> {
    let Seats { first, second, .. } = seats;
    let (first, second) = join(
        rt,
        move || started(rt, alloc, archive, first),
        move || listed(rt, alloc, archive, second),
    );
    match first {
        Ok(first) => Ok((first, second)),
        Err(fail) => Err(fail),
    }
}

fn started<D: Disk, A: Naming, R: Wait + Abort>(
    rt: &R,
    alloc: Global,
    archive: &SharedArchive<D, A>,
    mut seat: Seat<A>,
) -> Result<Seat<A>, Fail> {
    match seat.plays(rt, alloc, archive, STARTED) {
        Ok(()) => Ok(seat),
        Err(fail) => Err(fail),
    }
}

/// A listing, of whatever is there by then.
fn listed<D: Disk, A: Naming, R: Wait>(
    rt: &R,
    alloc: Global,
    archive: &SharedArchive<D, A>,
    mut seat: Seat<A>,
) -> Seat<A> {
    let _ = seat.answer(rt, alloc, archive, "list 0 10");
    seat
}

/// How many calls are missing where the archive is closed with the first seat alone, and then, where what comes back is closed
/// with both, how many were stored, and whether their records were kept.
fn closed_twice<D: Disk + Drop, A: Naming>(
    alloc: Global,
    archive: SharedArchive<D, A>,
    first: Seat<A>,
    second: Seat<A>,
) -> Result<(u64, u64, bool), Fail> {
    let Ok(given) = vec![in alloc; first.into_pass()] else {
        return Err(Fail::from("a list of passes"));
    };
    let Some(left) = left_by(archive, given) else {
        return Err(Fail::from("one call is missing"));
    };
    let MissingPass {
        archive,
        passes: mut given,
        missing,
    } = left;
    if given.push(second.into_pass()).is_err() {
        return Err(Fail::from("a list of passes"));
    }
    match stored_by(archive, given) {
        Some((calls, keeps)) => Ok((missing, calls, keeps)),
        None => Err(Fail::from("both passes are given")),
    }
}

/// What was stored of an archive under no lock that is closed with these passes.
fn stored_by<D: Disk + Drop, A: Naming>(
    archive: Held<D, A>,
    passes: Vec<Pass<Made>>,
) -> Option<(u64, bool)>
    requires { AllOfTable A.table passes.items }
{
    match closed(archive, passes) {
        Some(closed) => Some(stored(&closed.history)),
        None => None,
    }
}

/// It, closed.
fn closed<D: Disk + Drop, A: Naming>(
    archive: Held<D, A>,
    passes: Vec<Pass<Made>>,
) -> Option<Closed<D>>
    requires { AllOfTable A.table passes.items }
{
    archive.close(passes).ok()
}

/// What comes back of an archive that is closed with too few passes.
fn left_by<D: Disk + Drop, A: Naming>(
    archive: SharedArchive<D, A>,
    passes: Vec<Pass<Made>>,
) -> Option<MissingPass<D, A>>
    requires { AllOfTable A.table passes.items }
    ensures { IfSome result (λ left. left.passes.items ≡ passes.items) }
{
    match archive.close(passes) {
        Ok(_) => None,
        Err(left) => Some(left),
    }
}

/// Two seats make the calls of four scripts in turn.
fn play<D: Disk, A: Naming, R: Wait + Abort>(
    rt: &R,
    alloc: Global,
    archive: &SharedArchive<D, A>,
    seats: &mut Seats<A>,
    scripts: [&str; 4],
) -> Result<(), Fail> {
    seats.first.plays(rt, alloc, archive, scripts[0])?;
    seats.second.plays(rt, alloc, archive, scripts[1])?;
    seats.first.plays(rt, alloc, archive, scripts[2])?;
    seats.second.plays(rt, alloc, archive, scripts[3])
}

/// The same, by which so many calls are stored.
pub(crate) fn by_turns<D: Disk, A: Naming, R: Wait + Abort>(
    rt: &R,
    alloc: Global,
    archive: &SharedArchive<D, A>,
    mut seats: Seats<A>,
    scripts: [&str; 4],
    calls: u64,
) -> Result<(Seats<A>, Then), Fail> {
    match play(rt, alloc, archive, &mut seats, scripts) {
        Ok(()) => Ok((seats, Then::Calls(calls))),
        Err(fail) => Err(fail),
    }
}

const BOUNDED_PART: &str = "\
start 1001 7 42 65536 1408 131072 0 1000 c: started 0 0
block 0 2500000000c001000000000007000000e90300002a000000000000000000000068656c6c6f: settled 64
block 0 2500000000c001004000000007000000e90300002a000000000000000000000068656c6c6f: settled 128
block 0 2500000000c001008000000007000000e90300002a000000000000000000000068656c6c6f: settled 192
replay 0 64 65: replay 0
poll 0 10: frame 64 2500000000c001004000000007000000e90300002a000000000000000000000068656c6c6f
frame 128 2500000000c001008000000007000000e90300002a000000000000000000000068656c6c6f
done
";

/// One seat makes all calls.
pub(crate) const BOUNDED_PARTS: [&str; 4] = [BOUNDED_PART, "", "", ""];

const BREAK: &str = "\
start 1001 7 42 65536 1408 131072 0 1000 c: started 0 0
block 0 2500000000c001000000000007000000e90300002a000000000000000000000068656c6c6f: settled 64
block 0 2500000000c001004000000007000000e90300002a000000000000000000000068656c6c6f: error 17 DeviceFault
";

const BROKEN: &str = "\
start 1001 7 42 65536 1408 131072 0 1000 c: error 16 Broken
block 0 2500000000c001004000000007000000e90300002a000000000000000000000068656c6c6f: error 16 Broken
settle 0: error 16 Broken
stop 0 2000: error 16 Broken
truncate 0 0: error 16 Broken
sweep: error 16 Broken
positions 0: positions 0 64 -1
verify 0: verified 1
";

const BROKEN_REPLAY: &str = "\
replay 0 0 -1: replay 0
poll 0 10: frame 0 2500000000c001000000000007000000e90300002a000000000000000000000068656c6c6f
more 64
close 0: closed
";

/// A settling's write fails: no pass writes from then on, and each reads what was recorded before.
pub(crate) const BREAKS: [&str; 4] = [BREAK, BROKEN, BROKEN, BROKEN_REPLAY];
