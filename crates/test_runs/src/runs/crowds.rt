//! Runs of four bodies, all of which are at the gate at once: each has a thread of its own.
ghost use Rattle.std.specs.Prelude.{◌≡◌, [], ◌∷◌, pos, false, length, IfOk};
ghost use Rattle.policy_pick.specs.Kept.{points_plan, PointsStand};
ghost use Rattle.worker_run.specs.Tests.{AreTests};
ghost use Rattle.pct_ask.specs.declared.ask.Ask.{Ask};
ghost use Rattle.test_runs.specs.OneStep.{once_pending};

use super::batches::{ORDER, Once, expect_events, once_test};
use crate::deals::deal_of;
use crate::steps::ADD;
use body_kit::{BoxedRun, KitError, run_boxed};
use pct_ask::{Ask as Asked, Body, Limit};
use pct_outside::Gate;
use policy_pick::Pct;
use std::alloc::{AllocError as NoMemory, Global};
use std::sync::Wait;
use std::sync::atomic::{AtomicU64, Ordering};
use std::test::Fail;
use std::thread::{Threads, yield_now};
use worker_run::{Test, run_many, run_threads};

const LOOKS: u64 = 10_000_000;

const ADDS: [Asked; 4] = [ADD, ADD, ADD, ADD];

/// Holds each first arrival until four have come, and counts those that have seen it; then the next
/// four.
#[derive(Drop)]
struct CrowdGate {
    arrivals: AtomicU64,
    seen: AtomicU64,
}

impl CrowdGate {
    fn new() -> CrowdGate {
        CrowdGate {
            arrivals: AtomicU64::new(0),
            seen: AtomicU64::new(0),
        }
    }

    fn seen(&self) -> u64 {
        self.seen.load(Ordering::SeqCst)
    }
}

impl Gate for CrowdGate {
    fn arrive(&self, _thread: u32, turn: u64) {
        if turn != 0 {
            return;
        }
        let before = self.arrivals.fetch_add(1, Ordering::SeqCst);
        for _ in 0..LOOKS {
            if self.arrivals.load(Ordering::SeqCst) / 4 > before / 4 {
                self.seen.fetch_add(1, Ordering::SeqCst);
                return;
            }
            yield_now();
        }
    }
}

#[test]
fn four_at_once(rt: HostRuntime) -> Result<(), Fail> {
    let gate = CrowdGate::new();
    let Test {
        deal,
        policy,
        limit,
        bodies,
    } = once_test(rt.alloc(), &ADDS, Limit::new(10_000))?;
    let played = run_threads(&rt, rt.alloc(), deal, policy, limit.steps(), bodies, &gate)?;
    expect_events(&rt, 4, played.events.as_slice());
    assert_eq!(rt; gate.seen(), 4);
    Ok(())
}

/// Two tests of four threads.
fn two_tests(alloc: Global) -> Result<Vec<Test<Pct, Once>>, Fail>
    ensures { IfOk result (λ tests.
        AreTests (λ b. once_pending b.ask 7 b.asked) points_plan PointsStand tests.items) }
{
    let mut tests = Vec::new(alloc);
    tests.push(once_test(alloc, &ADDS, Limit::new(10_000))?)?;
    tests.push(once_test(alloc, &ADDS, Limit::new(10_000))?)?;
    Ok(tests)
}

#[test]
fn four_of_each_test_at_once(rt: HostRuntime) -> Result<(), Fail> {
    let gate = CrowdGate::new();
    let tests = two_tests(rt.alloc())?;
    let runs = run_many(&rt, rt.alloc(), tests, &gate)?;
    assert_eq!(rt; runs.len(), 2);
    for played in runs.iter() {
        expect_events(&rt, 4, played.events.as_slice());
    }
    assert_eq!(rt; gate.seen(), 8);
    Ok(())
}

/// A list of four bodies.
fn four(
    alloc: Global,
    one: Box<dyn Body + Send>,
    two: Box<dyn Body + Send>,
    three: Box<dyn Body + Send>,
    last: Box<dyn Body + Send>,
) -> Result<Vec<Box<dyn Body + Send>>, NoMemory>
    ensures { IfOk result (λ all. all.items ≡ one ∷ two ∷ three ∷ last ∷ []) }
{
    let mut all = Vec::with_capacity(alloc, 4)?;
    all.push_reserved(one);
    all.push_reserved(two);
    all.push_reserved(three);
    all.push_reserved(last);
    Ok(all)
}

/// A run of four bodies that each add one.
fn run_four<R: Threads + Wait + Sync>(
    rt: &R,
    alloc: Global,
    one: Box<dyn Body + Send>,
    two: Box<dyn Body + Send>,
    three: Box<dyn Body + Send>,
    last: Box<dyn Body + Send>,
    gate: &CrowdGate,
) -> Result<BoxedRun, KitError>
    requires one { pending one ≡ once_pending (Ask.Add 0 (pos 1)) 7 false }
    requires two { pending two ≡ once_pending (Ask.Add 0 (pos 1)) 7 false }
    requires three { pending three ≡ once_pending (Ask.Add 0 (pos 1)) 7 false }
    requires last { pending last ≡ once_pending (Ask.Add 0 (pos 1)) 7 false }
{
    let bodies = four(alloc, one, two, three, last)?;
    let deal = deal_of(alloc, 4)?;
    run_boxed(rt, alloc, deal, &ORDER, &[], 10_000, bodies, gate)
}

#[test]
fn four_boxes_at_once(rt: HostRuntime) -> Result<(), Fail> {
    let gate = CrowdGate::new();
    let one = Box::new(rt.alloc(), Once::new(ADD))?;
    let two = Box::new(rt.alloc(), Once::new(ADD))?;
    let three = Box::new(rt.alloc(), Once::new(ADD))?;
    let last = Box::new(rt.alloc(), Once::new(ADD))?;
    let run = run_four(&rt, rt.alloc(), one, two, three, last, &gate)?;
    expect_events(&rt, 4, run.events.as_slice());
    assert_eq!(rt; gate.seen(), 4);
    Ok(())
}
