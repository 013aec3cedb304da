//! Histories of calls: docs/CONTROL.md, "Histories of calls"; and each request for memory refused.

ghost use Rattle.std.specs.Prelude.{◌≡◌, ℕ, true};
ghost use Rattle.call_history.specs.Stored.{record_if};
ghost use Rattle.call_history.specs.Values.{HistoryView, PassView};

use call_history::{
    History, HistoryRefusal, MAX_PASSES, MissingPass, Opened, Pass, RecordOf, Stored,
};
use std::alloc::Global;
use std::process::Abort;
use std::test::Fail;

/// What is stored of a call, which is a number.
#[derive(Clone, Copy, PartialEq, Eq)]
struct Call {
    pass: u64,
    asked: u64,
}

impl RecordOf<u64> for Call {
    ghost record_of = { λ pass asked. record { pass = pass; asked = asked } };
}

/// A call of a pass.
fn make_call(
    history: &mut History<u64, Call>,
    pass: &mut Pass<u64>,
    asked: u64,
) -> Result<(), HistoryRefusal>
    requires { pass.old.table ≡ history.old.table }
    ensures history { history.new.table ≡ history.old.table }
    ensures pass { pass.new.table ≡ pass.old.table }
{
    history.reserve()?;
    let kept = if history.keeps() {
        Some(Call {
            pass: pass.number(),
            asked,
        })
    } else {
        None
    };
    note(history, pass, kept, asked);
    Ok(())
}

/// Adds the call.
fn note(history: &mut History<u64, Call>, pass: &mut Pass<u64>, kept: Option<Call>, asked: u64)
    ghost call: { ℕ }
    requires asked { call ≡ asked }
    requires table { pass.old.table ≡ history.old.table }
    requires ready { history.old.ready ≡ true }
    requires kept { kept ≡ record_if (λ pass asked. record { pass = pass; asked = asked })
        history.old.keeps pass.old.number call }
    ensures history { history.new.table ≡ history.old.table }
    ensures pass { pass.new.table ≡ pass.old.table }
{
    let _ = asked;
    history.note(pass, kept);
}

/// Two passes of a history, the first one in front.
struct Passes {
    history: History<u64, Call>,
    first: Pass<u64>,
    second: Pass<u64>,
    ghost first_is: { first.table ≡ history.table },
    ghost second_is: { second.table ≡ history.table },
}

fn two_passes(alloc: Global, keeps: bool) -> Result<Passes, HistoryRefusal> {
    let (history, mut passes) = Opened::new(alloc, keeps)?.with_passes(alloc, 2)?;
    match (passes.pop(), passes.pop()) {
        (Some(second), Some(first)) => Ok(Passes {
            history,
            first,
            second,
        }),
        _ => Err(HistoryRefusal::BadParameter),
    }
}

/// Two calls of the first pass, and one of the second between them; then the history is closed with the first alone,
/// and with both. How many calls were missing first, and what was stored.
fn three_calls(alloc: Global, keeps: bool) -> Result<(u64, Stored<Call>), Fail> {
    let Passes {
        mut history,
        mut first,
        mut second,
    } = two_passes(alloc, keeps)?;
    make_three(&mut history, &mut first, &mut second)?;
    close_twice(alloc, history, first, second)
}

fn make_three(
    history: &mut History<u64, Call>,
    first: &mut Pass<u64>,
    second: &mut Pass<u64>,
) -> Result<(), HistoryRefusal>
    requires first { first.old.table ≡ history.old.table }
    requires second { second.old.table ≡ history.old.table }
    ensures history { history.new.table ≡ history.old.table }
    ensures first { first.new.table ≡ first.old.table }
    ensures second { second.new.table ≡ second.old.table }
{
    make_call(history, first, 10)?;
    make_call(history, second, 20)?;
    make_call(history, first, 11)
}

fn close_twice(
    alloc: Global,
    history: History<u64, Call>,
    first: Pass<u64>,
    second: Pass<u64>,
) -> Result<(u64, Stored<Call>), Fail>
    requires first { first.table ≡ history.table }
    requires second { second.table ≡ history.table }
{
    let mut given = Vec::new(alloc);
    given.push(first)?;
    let Err(left) = history.close(given) else {
        return Err(Fail::from("a call is missing"));
    };
    let MissingPass {
        history,
        mut passes,
        missing,
    } = left;
    passes.push(second)?;
    let Ok(stored) = history.close(passes) else {
        return Err(Fail::from("all passes are given"));
    };
    Ok((missing, stored))
}

const THREE_CALLS: [Call; 3] = [
    Call { pass: 0, asked: 10 },
    Call { pass: 1, asked: 20 },
    Call { pass: 0, asked: 11 },
];

/// A history closes only with all its passes, says how many are missing, and then gives all calls in order, or their
/// count.
#[test]
fn a_pass_is_missing(rt: HostRuntime) -> Result<(), Fail> {
    let (missing, stored) = three_calls(rt.alloc(), true)?;
    assert!(rt; missing == 1);
    assert!(rt;
        matches!(&stored, Stored::Kept(records) if records.as_slice() == THREE_CALLS.as_slice())
    );
    let (missing, stored) = three_calls(rt.alloc(), false)?;
    assert!(rt; missing == 1);
    assert!(rt; matches!(stored, Stored::Counted(3)));
    Ok(())
}

/// How many passes are made.
fn passes_made(alloc: Global, count: u64) -> Result<usize, HistoryRefusal> {
    let (history, passes) = Opened::<u64>::new(alloc, false)?.with_passes::<Call>(alloc, count)?;
    let _ = history;
    Ok(passes.len())
}

/// A history has 1 to 256 passes; another number is refused.
#[test]
fn a_history_has_1_to_256_passes(rt: HostRuntime) -> Result<(), Fail> {
    let alloc = rt.alloc();
    assert!(rt; passes_made(alloc, 0) == Err(HistoryRefusal::BadParameter));
    assert!(rt; passes_made(alloc, 1)? == 1);
    assert!(rt; passes_made(alloc, MAX_PASSES)? == 256);
    assert!(rt; passes_made(alloc, 257) == Err(HistoryRefusal::BadParameter));
    Ok(())
}

/// A call that is made again where memory is refused: then it has changed nothing.
fn call_again(
    rt: &impl Abort,
    history: &mut History<u64, Call>,
    pass: &mut Pass<u64>,
    asked: u64,
) -> Result<(), Fail>
    requires { pass.old.table ≡ history.old.table }
    ensures history { history.new.table ≡ history.old.table }
    ensures pass { pass.new.table ≡ pass.old.table }
{
    let before = history.len();
    if make_call(history, pass, asked).is_err() {
        assert!(rt; history.len() == before);
        make_call(history, pass, asked)?;
    }
    Ok(())
}

/// Five calls, each made again where memory is refused.
fn five_again(
    rt: &impl Abort,
    history: &mut History<u64, Call>,
    pass: &mut Pass<u64>,
) -> Result<(), Fail>
    requires { pass.old.table ≡ history.old.table }
{
    call_again(rt, history, pass, 10)?;
    call_again(rt, history, pass, 11)?;
    call_again(rt, history, pass, 12)?;
    call_again(rt, history, pass, 13)?;
    call_again(rt, history, pass, 14)
}

fn two_passes_again(alloc: Global) -> Result<Passes, HistoryRefusal> {
    two_passes(alloc, true).or_else(|_| two_passes(alloc, true))
}

/// If memory is refused once, nothing has changed, and the call may be made again. trials/refused_memory.py refuses each
/// of its requests in turn.
#[test]
fn refused_memory_changes_nothing(rt: HostRuntime) -> Result<(), Fail> {
    let Passes {
        mut history,
        mut first,
        second: _,
    } = two_passes_again(rt.alloc())?;
    five_again(&rt, &mut history, &mut first)?;
    assert!(rt; history.len() == 5);
    Ok(())
}
