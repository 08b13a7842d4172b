//! Batches of different tests: each test has the run that it has alone.
ghost use Rattle.std.specs.Prelude.{◌≡◌, ◌≤◌, true, false, length, map, IfOk, OnOk};
ghost use Rattle.std.specs.List.{list_all};
ghost use Rattle.policy_pick.specs.Kept.{points_plan, PointsStand};
ghost use Rattle.worker_run.specs.Tests.{IsTest, AreTests};
ghost use Rattle.test_runs.specs.OneStep.{once_pending, is_deed};

use crate::deals::ordered;
use crate::steps::ADD;
use pct_ask::{Ask, Body, Event, Limit, Outcome, Post, Verdict};
use pct_outside::OpenGate;
use policy_pick::Pct;
use std::alloc::{AllocError as NoMemory, Global};
use std::process::Abort;
use std::test::Fail;
use worker_run::{Test, run_many};

const DOWN: Ask = Ask::Down { sem: 0 };

const FAIL: Ask = Ask::Check { holds: false };

pub(super) const ORDER: [u32; 4] = [0, 1, 2, 3];

/// A thread of one step.
#[derive(Drop)]
pub(super) struct Once {
    ask: Ask,
    asked: bool,
}

impl Once {
    pub(super) fn new(ask: Ask) -> Once
        ensures { result ≡ record { ask = ask; asked = false } }
    {
        Once { ask, asked: false }
    }
}

impl Body for Once {
    ghost pending = { λ b. once_pending b.ask 7 b.asked };

    fn post(&self) -> Post {
        Post {
            ask: if self.asked { None } else { Some(self.ask) },
            line: 7,
        }
    }

    fn answer(&mut self, _value: i64) {
        self.asked = true;
    }
}

/// A thread for each ask.
fn once_bodies(alloc: Global, asks: &[Ask]) -> Result<Vec<Once>, NoMemory>
    ensures { IfOk result (λ bodies.
        bodies.items ≡ map (λ ask. record { ask = ask; asked = false }) asks.now) }
{
    asks.iter().map(|ask| Once::new(*ask)).collect(alloc)
}

/// A test of threads of one step each. The first goes first.
pub(super) fn once_test(alloc: Global, asks: &[Ask], limit: Limit) -> Result<Test<Pct, Once>, Fail>
    requires some { 1 ≤ length asks.now }
    requires few { length asks.now ≤ 4 }
    requires deeds { list_all is_deed asks.now ≡ true }
    ensures { IfOk result (λ test.
        IsTest (λ b. once_pending b.ask 7 b.asked) points_plan PointsStand test) }
{
    let bodies = once_bodies(alloc, asks)?;
    let (deal, policy) = ordered(alloc, &ORDER[..asks.len()])?;
    Ok(Test {
        deal,
        policy,
        limit,
        bodies,
    })
}

/// One of five tests: two threads that add; one that sleeps for good; three of which the limit
/// leaves two; three of which the second fails; and four that add.
fn one_of_five(alloc: Global, place: usize) -> Result<Test<Pct, Once>, Fail>
    ensures { IfOk result (λ test.
        IsTest (λ b. once_pending b.ask 7 b.asked) points_plan PointsStand test) }
{
    let limit = Limit::new(10_000);
    match place {
        0 => once_test(alloc, &[ADD, ADD], limit),
        1 => once_test(alloc, &[DOWN], limit),
        2 => once_test(alloc, &[ADD, ADD, ADD], Limit::new(2)),
        3 => once_test(alloc, &[ADD, FAIL, ADD], limit),
        _ => once_test(alloc, &[ADD, ADD, ADD, ADD], limit),
    }
}

/// One more of the five.
fn add_test(alloc: Global, place: usize, tests: &mut Vec<Test<Pct, Once>>) -> Result<(), Fail>
    requires { AreTests
        (λ b. once_pending b.ask 7 b.asked) points_plan PointsStand tests.old.items }
    ensures { OnOk result
        (AreTests (λ b. once_pending b.ask 7 b.asked) points_plan PointsStand tests.new.items) }
{
    let test = one_of_five(alloc, place)?;
    tests.push(test)?;
    Ok(())
}

/// The first so many of the five.
fn first_tests(alloc: Global, count: usize) -> Result<Vec<Test<Pct, Once>>, Fail>
    ensures { IfOk result (λ tests.
        AreTests (λ b. once_pending b.ask 7 b.asked) points_plan PointsStand tests.items) }
{
    let mut tests = Vec::new(alloc);
    for place in 0..count {
        if let Err(error) = add_test(alloc, place, &mut tests) {
            drop(tests);
            return Err(error);
        }
    }
    Ok(tests)
}

/// A step of one of the threads.
fn step(thread: u32, ask: Ask, answer: i64) -> Event {
    Event {
        thread,
        line: 7,
        ask,
        answer,
    }
}

/// The steps of one of the five: the threads go one after another.
pub(super) fn expect_events(rt: &impl Abort, place: usize, events: &[Event]) {
    let first = step(0, ADD, 0);
    let second = step(1, ADD, 1);
    match place {
        0 | 2 => assert_eq!(rt; events, [first, second].as_slice()),
        1 => assert_eq!(rt; events.len(), 0),
        3 => assert_eq!(rt; events, [first, step(1, FAIL, 0)].as_slice()),
        _ => {
            let all = [first, second, step(2, ADD, 2), step(3, ADD, 3)];
            assert_eq!(rt; events, all.as_slice());
        }
    }
}

/// What becomes of it.
fn expect_end(rt: &impl Abort, place: usize, outcome: Outcome) {
    let Outcome::Verdict(verdict) = outcome else {
        panic!(rt; "no verdict");
    };
    match place {
        1 => assert!(rt; matches!(verdict, Verdict::Stuck { .. })),
        2 => assert_eq!(rt; verdict, Verdict::Cut),
        3 => assert_eq!(rt; verdict, Verdict::Failed { thread: 1, line: 7 }),
        _ => assert_eq!(rt; verdict, Verdict::Passed),
    }
}

/// Batches of one to five tests: each test has the run that it has in every other batch.
#[test]
fn batches_of_five(rt: HostRuntime) -> Result<(), Fail> {
    for count in 1..6usize {
        let tests = first_tests(rt.alloc(), count)?;
        let runs = run_many(&rt, rt.alloc(), tests, &OpenGate::new())?;
        assert_eq!(rt; runs.len(), count);
        for (place, played) in runs.iter().enumerate() {
            expect_events(&rt, place, played.events.as_slice());
            expect_end(&rt, place, played.outcome);
        }
    }
    Ok(())
}
