//! Runs of a small test's bodies under a policy.
ghost use Rattle.std.specs.Prelude.{◌≤◌, []};
ghost use Rattle.policy_pick.specs.Plan.{SpeaksOf};

mod arrivals;
mod batches;
mod crowds;
mod many;
mod meetings;

use crate::deals::{deal_of, ordered};
use crate::samples::samples;
use crate::steps::{FAILED, IN_ORDER, LOST_UPDATE};
use pct_ask::{Event, Limit, Outcome, Verdict};
use pct_outside::{Gate, OpenGate};
use policy_pick::{DirectedPriorities, Listed, Moment, Pct, Policy, Priorities};
use std::alloc::{AllocError as NoMemory, Global};
use std::process::Abort;
use std::sync::Wait;
use std::sync::atomic::{AtomicU64, Ordering};
use std::test::Fail;
use std::thread::Threads;
use turn_book::TurnBook;
use turn_lock::TurnLock;
use worker_run::{Played, run_by_moments, run_by_points, run_here, run_on, run_threads};

const FIRST_STEP: [Moment; 1] = [Moment {
    thread: 0,
    number: 1,
}];

/// A run of the small test, each body in a thread of its own.
fn play<R: Threads + Wait + Sync, P: Policy, G: Gate>(
    rt: &R,
    alloc: Global,
    policy: P,
    limit: u32,
    gate: &G,
) -> Result<Played, NoMemory>
    requires some_steps { 1 ≤ limit }
    requires few_steps { limit ≤ 100000 }
    requires stands { P.stands policy [] }
    requires speaks { SpeaksOf (P.plan policy) 3 }
{
    let bodies = samples(alloc)?;
    let deal = deal_of(alloc, 3)?;
    run_threads(rt, alloc, deal, policy, limit, bodies, gate)
}

/// That these are the steps of the run, and what becomes of it.
fn expect(rt: &impl Abort, played: Played, events: &[Event], outcome: Outcome) {
    assert_eq!(rt; played.events.as_slice(), events);
    assert_eq!(rt; played.outcome, outcome);
}

/// The run in order, with each body in a thread of its own.
fn expect_in_order<R: Threads + Wait + Sync + Abort, G: Gate>(
    rt: &R,
    alloc: Global,
    gate: &G,
) -> Result<(), Fail> {
    let pct = Pct::new(alloc, &[0, 1, 2], &[])?;
    let played = play(rt, alloc, pct, 10_000, gate)?;
    expect(rt, played, &IN_ORDER, Outcome::Verdict(Verdict::Passed));
    Ok(())
}

#[test]
fn counts_in_order(rt: HostRuntime) -> Result<(), Fail> {
    expect_in_order(&rt, rt.alloc(), &OpenGate::new())
}

/// The run in order, with all bodies by the caller.
fn expect_here<R: Wait + Abort, G: Gate>(rt: &R, alloc: Global, gate: &G) -> Result<(), Fail> {
    let bodies = samples(alloc)?;
    let (deal, pct) = ordered(alloc, &[0, 1, 2])?;
    let played = run_here(rt, alloc, deal, pct, 10_000, bodies, gate)?;
    expect(rt, played, &IN_ORDER, Outcome::Verdict(Verdict::Passed));
    Ok(())
}

#[test]
fn served_here(rt: HostRuntime) -> Result<(), Fail> {
    expect_here(&rt, rt.alloc(), &OpenGate::new())
}

/// On a lock that is lent: afterwards its book has the run.
#[test]
fn runs_on_a_lent_lock(rt: HostRuntime) -> Result<(), Fail> {
    let bodies = samples(rt.alloc())?;
    let (deal, pct) = ordered(rt.alloc(), &[0, 1, 2])?;
    let book = TurnBook::new(rt.alloc(), deal, pct, 10_000)?;
    let (lock, mut seat) = TurnLock::new(rt.alloc(), book)?;
    let ran = run_on(&rt, rt.alloc(), &lock, &mut seat, bodies, &OpenGate::new());
    for thread in 0..3 {
        assert!(rt; seat.serves(thread));
    }
    let (events, outcome) = lock.close(seat).into_parts();
    ran?;
    assert_eq!(rt; events.as_slice(), IN_ORDER.as_slice());
    assert_eq!(rt; outcome, Some(Outcome::Verdict(Verdict::Passed)));
    Ok(())
}

/// A change point after the first step.
#[test]
fn loses_an_update(rt: HostRuntime) -> Result<(), Fail> {
    let bodies = samples(rt.alloc())?;
    let deal = deal_of(rt.alloc(), 3)?;
    let gate = OpenGate::new();
    let whole = run_by_points(
        &rt,
        rt.alloc(),
        deal,
        &Priorities {
            order: &[0, 1, 2],
            points: &[1],
        },
        Limit::new(10_000),
        bodies,
        &gate,
    )?;
    let failed = Outcome::Verdict(FAILED);
    expect(&rt, Played::from(whole), &LOST_UPDATE, failed);
    Ok(())
}

/// The same by the first thread's first own step.
#[test]
fn loses_an_update_by_a_moment(rt: HostRuntime) -> Result<(), Fail> {
    let bodies = samples(rt.alloc())?;
    let deal = deal_of(rt.alloc(), 3)?;
    let gate = OpenGate::new();
    let whole = run_by_moments(
        &rt,
        rt.alloc(),
        deal,
        &DirectedPriorities {
            order: &[0, 1, 2],
            moments: &FIRST_STEP,
        },
        Limit::new(10_000),
        bodies,
        &gate,
    )?;
    let failed = Outcome::Verdict(FAILED);
    expect(&rt, Played::from(whole), &LOST_UPDATE, failed);
    Ok(())
}

/// The third thread can't join the first before it has ended; at the limit the run is cut.
#[test]
fn departs_and_is_cut(rt: HostRuntime) -> Result<(), Fail> {
    let listed = Listed::new(rt.alloc(), &[0, 2])?;
    let played = play(&rt, rt.alloc(), listed, 10_000, &OpenGate::new())?;
    expect(&rt, played, &IN_ORDER[..1], Outcome::Departed { thread: 2 });
    let pct = Pct::new(rt.alloc(), &[0, 1, 2], &[])?;
    let played = play(&rt, rt.alloc(), pct, 3, &OpenGate::new())?;
    expect(&rt, played, &IN_ORDER[..3], Outcome::Verdict(Verdict::Cut));
    Ok(())
}

/// A gate that counts the arrivals, and adds up their turns.
#[derive(Drop)]
struct CountingGate {
    arrivals: AtomicU64,
    turns: AtomicU64,
}

impl Gate for CountingGate {
    fn arrive(&self, _thread: u32, turn: u64) {
        self.arrivals.fetch_add(1, Ordering::SeqCst);
        self.turns.fetch_add(turn, Ordering::SeqCst);
    }
}

/// The counters arrive with 0, 1 and 2 answers, and the third thread with 0 to 4.
#[test]
fn passes_the_gate(rt: HostRuntime) -> Result<(), Fail> {
    let gate = CountingGate {
        arrivals: AtomicU64::new(0),
        turns: AtomicU64::new(0),
    };
    expect_in_order(&rt, rt.alloc(), &gate)?;
    assert_eq!(rt; gate.arrivals.load(Ordering::SeqCst), 11);
    assert_eq!(rt; gate.turns.load(Ordering::SeqCst), 16);
    Ok(())
}
