//! Directives that are certified, and exposed.
ghost use Rattle.std.specs.Prelude.{◌≤◌};
ghost use Rattle.rank_now.specs.Order.{IsOrder};

use crate::scripts::{ADDERS, EIGHT, FAILED, FIRST_OF_A, LAST_FAILS, ONE, SEVEN, code_and_deal};
use directive::Directive;
use directive_run::{Certified, CertifyRow, Exposed, certify, expose};
use pct_ask::{Outcome, Verdict};
use pct_gate::OpenGate;
use policy_pick::{Moment, MomentList};
use std::alloc::Global;
use std::process::Abort;
use std::sync::Wait;
use std::test::Fail;
use std::thread::Threads;

const NINTH_OF_A: Moment = Moment {
    thread: 0,
    number: 9,
};

/// A directive of a script, which makes the thread the lowest at first, and others at their
/// moments.
#[derive(Clone, Copy)]
struct Told {
    script: &'static [u8],
    low: u32,
    events: &'static [Moment],
    verdict: Verdict,
}

fn directive_of(rt: &impl Abort, alloc: Global, told: &Told) -> Result<Directive, Fail> {
    assert!(rt; told.events.len() <= 7);
    Ok(Directive {
        low: told.low,
        events: MomentList::from_vec(Vec::from_slice(alloc, told.events)?),
        verdict: told.verdict,
    })
}

/// What is certified of a script's directive.
fn certified<R: Threads + Wait + Abort + Sync>(
    rt: &R,
    alloc: Global,
    told: &Told,
    steps: u32,
    limit: u32,
) -> Result<Certified, Fail>
    requires some_steps { 1 ≤ steps }
    requires few_steps { steps ≤ 100000 }
    requires some_limit { 1 ≤ limit }
    requires small_limit { limit ≤ 100000 }
{
    let (code, deal) = code_and_deal(alloc, told.script)?;
    let directive = directive_of(rt, alloc, told)?;
    assert!(rt; directive.low < deal.threads);
    let gate = OpenGate::new();
    Ok(certify(rt, alloc, &code, &deal, &directive, steps, limit, &gate)?)
}

/// An order and its points.
type Row = (&'static [u32], &'static [u32]);

/// What is told of a directive.
#[derive(Clone, Copy)]
enum Want {
    /// It is certified with this bound and so many rows, of which these are the first.
    Yes(u128, usize, &'static [Row]),
    /// This order leads to so many steps.
    TooLong(&'static [u32], u32),
    /// This order leads to another verdict.
    Refuted(&'static [u32], Verdict),
    TooManyThreads(u32),
}

/// Whether a row is of this order and these points.
fn is_row(row: &CertifyRow, order: &[u32], points: &[u32]) -> bool {
    row.order.as_slice() == order && row.points.as_slice() == points
}

fn are_first(rows: &[CertifyRow], first: &[Row]) -> bool {
    for (row, (order, points)) in rows.iter().zip(first) {
        if !is_row(row, order, points) {
            return false;
        }
    }
    first.len() <= rows.len()
}

fn is_certified(found: &Certified, least: u128, count: usize, first: &[Row]) -> bool {
    match found {
        Certified::Yes { bound, rows } => {
            *bound == least && rows.len() == count && are_first(rows.as_slice(), first)
        }
        _ => false,
    }
}

fn is_too_long(found: &Certified, by: &[u32], count: u32) -> bool {
    match found {
        Certified::TooLong { order, steps } => order.as_slice() == by && *steps == count,
        _ => false,
    }
}

fn is_refuted(found: &Certified, by: &[u32], other: Verdict) -> bool {
    match found {
        Certified::Refuted { order, verdict } => order.as_slice() == by && *verdict == other,
        _ => false,
    }
}

fn has_too_many(found: &Certified, many: u32) -> bool {
    match found {
        Certified::TooManyThreads { threads } => *threads == many,
        _ => false,
    }
}

/// This is told of the directive.
fn expect<R: Threads + Wait + Abort + Sync>(
    rt: &R,
    alloc: Global,
    told: &Told,
    steps: u32,
    limit: u32,
    want: &Want,
) -> Result<(), Fail>
    requires some_steps { 1 ≤ steps }
    requires few_steps { steps ≤ 100000 }
    requires some_limit { 1 ≤ limit }
    requires small_limit { limit ≤ 100000 }
{
    let found = certified(rt, alloc, told, steps, limit)?;
    let is_wanted = match *want {
        Want::Yes(bound, count, first) => is_certified(&found, bound, count, first),
        Want::TooLong(order, steps) => is_too_long(&found, order, steps),
        Want::Refuted(order, verdict) => is_refuted(&found, order, verdict),
        Want::TooManyThreads(threads) => has_too_many(&found, threads),
    };
    assert!(rt; is_wanted, "{steps} {limit}");
    Ok(())
}

/// By which the second adder's update is lost.
const LOST: Told = Told {
    script: ADDERS,
    low: 1,
    events: &[FIRST_OF_A],
    verdict: FAILED,
};

const LOST_ROWS: [Row; 2] = [(&[0, 2, 1], &[1]), (&[2, 0, 1], &[1])];

#[test]
fn certifies_the_lost_update(rt: HostRuntime) -> Result<(), Fail> {
    let yes = Want::Yes(24, 2, &LOST_ROWS);
    expect(&rt, rt.alloc(), &LOST, 8, 10_000, &yes)?;
    let long = Want::TooLong(&[0, 2, 1], 8);
    expect(&rt, rt.alloc(), &LOST, 7, 10_000, &long)
}

/// The same of another thread.
const OTHER_LOST: Told = Told { low: 2, ..LOST };

#[test]
fn refutes_another_thread(rt: HostRuntime) -> Result<(), Fail> {
    let passed = Want::Refuted(&[1, 0, 2], Verdict::Passed);
    expect(&rt, rt.alloc(), &OTHER_LOST, 8, 10_000, &passed)
}

const LAST_PASSES: Told = Told {
    script: LAST_FAILS,
    low: 3,
    events: &[],
    verdict: Verdict::Passed,
};

// The fifth order decides, which is neither the first nor the last of its batch.
#[test]
fn refutes_within_a_batch(rt: HostRuntime) -> Result<(), Fail> {
    let failed = Want::Refuted(&[1, 2, 0, 3], Verdict::Failed { thread: 0, line: 5 });
    expect(&rt, rt.alloc(), &LAST_PASSES, 8, 10_000, &failed)
}

const CUT: Told = Told {
    script: ADDERS,
    low: 0,
    events: &[],
    verdict: Verdict::Cut,
};

// Where the limit is below the steps, a run that is cut may be what is certified.
#[test]
fn certifies_cut_runs(rt: HostRuntime) -> Result<(), Fail> {
    expect(&rt, rt.alloc(), &CUT, 8, 3, &Want::Yes(3, 2, &[]))
}

/// Threads that do nothing.
const ONE_PASSES: Told = Told {
    script: ONE,
    low: 0,
    events: &[],
    verdict: Verdict::Passed,
};

const SEVEN_PASS: Told = Told {
    script: SEVEN,
    ..ONE_PASSES
};

const EIGHT_PASS: Told = Told {
    script: EIGHT,
    ..ONE_PASSES
};

const ONE_ROW: [Row; 1] = [(&[0], &[])];

const FIRST_OF_SEVEN: [Row; 1] = [(&[1, 2, 3, 4, 5, 6, 0], &[])];

#[test]
fn counts_threads(rt: HostRuntime) -> Result<(), Fail> {
    let one = Want::Yes(1, 1, &ONE_ROW);
    expect(&rt, rt.alloc(), &ONE_PASSES, 1, 10_000, &one)?;
    let seven = Want::Yes(7, 720, &FIRST_OF_SEVEN);
    expect(&rt, rt.alloc(), &SEVEN_PASS, 1, 10_000, &seven)?;
    let eight = Want::TooManyThreads(8);
    expect(&rt, rt.alloc(), &EIGHT_PASS, 1, 10_000, &eight)
}

/// The points of a directive of the adders under an order of their threads, with the verdict.
fn exposed<R: Threads + Wait + Abort + Sync>(
    rt: &R,
    alloc: Global,
    order: [u32; 3],
    told: &Told,
    steps: u32,
) -> Result<Exposed, Fail>
    requires order { IsOrder order }
    requires some_steps { 1 ≤ steps }
    requires few_steps { steps ≤ 100000 }
{
    let (code, deal) = code_and_deal(alloc, ADDERS)?;
    assert!(rt; deal.threads == 3);
    let directive = directive_of(rt, alloc, told)?;
    let gate = OpenGate::new();
    Ok(expose(
        rt, alloc, &code, &deal, &order, &directive, steps, 10_000, &gate,
    )?)
}

/// Whether a run of eight steps was exposed, with these points and this verdict.
fn has_points(exposed: &Exposed, points: &[u32], verdict: Verdict) -> bool {
    match exposed {
        Exposed::Points {
            points: found,
            played,
        } => {
            found.as_slice() == points
                && played.events.len() == 8
                && played.outcome == Outcome::Verdict(verdict)
        }
        Exposed::TooLong { .. } => false,
    }
}

/// A run of eight steps is exposed, with these points and this verdict.
fn expect_points<R: Threads + Wait + Abort + Sync>(
    rt: &R,
    alloc: Global,
    order: [u32; 3],
    told: &Told,
    points: &[u32],
    verdict: Verdict,
) -> Result<(), Fail>
    requires order { IsOrder order }
{
    let found = exposed(rt, alloc, order, told, 8)?;
    assert!(rt; has_points(&found, points, verdict));
    Ok(())
}

/// The run has eight steps where there may be seven.
fn expect_too_long<R: Threads + Wait + Abort + Sync>(
    rt: &R,
    alloc: Global,
    order: [u32; 3],
    told: &Told,
) -> Result<(), Fail>
    requires order { IsOrder order }
{
    let found = exposed(rt, alloc, order, told, 7)?;
    assert!(rt; matches!(found, Exposed::TooLong { steps: 8 }));
    Ok(())
}

/// A moment that doesn't occur.
const NEVER: Told = Told {
    events: &[NINTH_OF_A],
    ..LOST
};

/// One that is told twice.
const TWICE: Told = Told {
    low: 2,
    events: &[FIRST_OF_A, FIRST_OF_A],
    ..LOST
};

#[test]
fn exposes_the_lost_update(rt: HostRuntime) -> Result<(), Fail> {
    let alloc = rt.alloc();
    expect_points(&rt, alloc, [0, 2, 1], &LOST, &[1], FAILED)?;
    expect_too_long(&rt, alloc, [0, 2, 1], &LOST)?;
    expect_points(&rt, alloc, [0, 1, 2], &NEVER, &[8], Verdict::Passed)?;
    expect_points(&rt, alloc, [0, 1, 2], &TWICE, &[1, 1], FAILED)
}
