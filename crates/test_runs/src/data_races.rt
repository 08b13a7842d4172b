//! The data races of lists of steps.

use crate::deals::are_in_range;
use hb_race::{Race, races};
use pct_ask::{Ask, Deal, Event, Outcome, Sequence, Verdict};
use std::alloc::{AllocError, Global};
use std::process::Abort;
use std::test::Fail;
use worker_run::Played;

/// Three threads, two variables, and another object of each kind.
fn small_deal(alloc: Global) -> Result<Deal, AllocError> {
    Ok(Deal {
        threads: 3,
        vars: Sequence::from_vec(vec![in alloc; 0, 0]?),
        mutexes: 1,
        conds: 1,
        sems: Sequence::from_vec(vec![in alloc; 1]?),
        barriers: Sequence::from_vec(vec![in alloc; 2]?),
        rwlocks: 1,
    })
}

/// A thread's step, with its ask and its answer.
type Step = (u32, Ask, i64);

/// The steps have these races.
fn expect(rt: &impl Abort, alloc: Global, steps: &[Step], expected: &[Race]) -> Result<(), Fail> {
    let mut events = Vec::new(alloc);
    for (thread, ask, answer) in steps {
        events.push(Event {
            thread: *thread,
            line: 1,
            ask: *ask,
            answer: *answer,
        })?;
    }
    let deal = small_deal(alloc)?;
    let played = Played {
        events: Sequence::from_vec(events),
        outcome: Outcome::Verdict(Verdict::Passed),
    };
    assert!(rt; played.events.len() <= 100_000);
    assert!(rt; are_in_range(&deal, played.events.as_slice()));
    let found = races(alloc, &deal, &played);
    drop(deal);
    drop(played);
    assert_eq!(rt; found?.as_slice(), expected);
    Ok(())
}

macro_rules! race {
    ($var:literal, $first:literal, $second:literal) => {
        Race {
            var: $var,
            first: $first,
            second: $second,
        }
    };
}

/// Two threads add to a variable by a read and a write, and a third joins both and reads it.
const ADDERS: [Step; 8] = [
    (0, Ask::Read { var: 0 }, 0),
    (0, Ask::Write { var: 0, value: 1 }, 0),
    (1, Ask::Read { var: 0 }, 1),
    (1, Ask::Write { var: 0, value: 2 }, 0),
    (2, Ask::Join { thread: 0 }, 0),
    (2, Ask::Join { thread: 1 }, 0),
    (2, Ask::Read { var: 0 }, 2),
    (2, Ask::Check { holds: true }, 0),
];

#[test]
fn one_race(rt: HostRuntime) -> Result<(), Fail> {
    expect(&rt, rt.alloc(), &ADDERS, &[race!(0, 2, 3)])
}

/// The same mutex is held round both writes.
const ONE_MUTEX: [Step; 6] = [
    (0, Ask::Lock { mutex: 0 }, 0),
    (0, Ask::Write { var: 0, value: 1 }, 0),
    (0, Ask::Unlock { mutex: 0 }, 0),
    (1, Ask::Lock { mutex: 0 }, 0),
    (1, Ask::Write { var: 0, value: 2 }, 0),
    (1, Ask::Unlock { mutex: 0 }, 0),
];

#[test]
fn no_race(rt: HostRuntime) -> Result<(), Fail> {
    expect(&rt, rt.alloc(), &ONE_MUTEX, &[])
}

const EXCHANGE: Ask = Ask::Cas {
    var: 0,
    old: 5,
    new: 6,
};

/// A failed exchange after a plain write does not hide the write from a later read, and an addition
/// of another thread comes after the one before it, with all that came before that.
const ATOMIC_ACCESSES: [Step; 8] = [
    (0, Ask::Write { var: 0, value: 1 }, 0),
    (0, EXCHANGE, 0),
    (0, Ask::Write { var: 1, value: 1 }, 0),
    (0, Ask::Add { var: 1, value: 1 }, 1),
    (1, Ask::Read { var: 0 }, 1),
    (1, Ask::Add { var: 1, value: 1 }, 2),
    (1, Ask::Read { var: 1 }, 3),
    (2, Ask::Read { var: 1 }, 3),
];

#[test]
fn atomic_accesses(rt: HostRuntime) -> Result<(), Fail> {
    expect(
        &rt,
        rt.alloc(),
        &ATOMIC_ACCESSES,
        &[race!(0, 1, 5), race!(1, 6, 8)],
    )
}

/// What one thread does, with its answer, then another, with its answer, and whether that is an
/// edge. Thread 0 is the first, thread 1 the other.
type Pair = (Ask, i64, Ask, i64, bool);

const PAIRS: [Pair; 26] = [
    (Ask::Unlock { mutex: 0 }, 0, Ask::Lock { mutex: 0 }, 0, true),
    (
        Ask::Unlock { mutex: 0 },
        0,
        Ask::TryLock { mutex: 0 },
        1,
        true,
    ),
    (
        Ask::Unlock { mutex: 0 },
        0,
        Ask::TryLock { mutex: 0 },
        0,
        false,
    ),
    (
        Ask::Unlock { mutex: 0 },
        0,
        Ask::Regain { cond: 0, mutex: 0 },
        0,
        true,
    ),
    (
        Ask::Release { cond: 0, mutex: 0 },
        0,
        Ask::Lock { mutex: 0 },
        0,
        true,
    ),
    (Ask::Lock { mutex: 0 }, 0, Ask::Lock { mutex: 0 }, 0, false),
    (
        Ask::Signal { cond: 0 },
        1,
        Ask::Regain { cond: 0, mutex: 0 },
        0,
        true,
    ),
    (
        Ask::Signal { cond: 0 },
        0,
        Ask::Regain { cond: 0, mutex: 0 },
        0,
        false,
    ),
    (
        Ask::Broadcast { cond: 0 },
        2,
        Ask::Regain { cond: 0, mutex: 0 },
        0,
        true,
    ),
    (
        Ask::Broadcast { cond: 0 },
        0,
        Ask::Regain { cond: 0, mutex: 0 },
        0,
        false,
    ),
    (Ask::Up { sem: 0 }, 0, Ask::Down { sem: 0 }, 0, true),
    (Ask::Up { sem: 0 }, 0, Ask::TryDown { sem: 0 }, 1, true),
    (Ask::Up { sem: 0 }, 0, Ask::TryDown { sem: 0 }, 0, false),
    (
        Ask::Arrive { barrier: 0 },
        0,
        Ask::Leave { barrier: 0 },
        1,
        true,
    ),
    (
        Ask::Arrive { barrier: 0 },
        0,
        Ask::Arrive { barrier: 0 },
        0,
        false,
    ),
    (Ask::Yield, 0, Ask::Join { thread: 0 }, 0, true),
    (Ask::Yield, 0, Ask::Join { thread: 2 }, 0, false),
    (Ask::Start { thread: 1 }, 0, Ask::Begin, 0, true),
    (Ask::Start { thread: 2 }, 0, Ask::Begin, 0, false),
    (
        Ask::RwUnlock { rwlock: 0 },
        0,
        Ask::RdLock { rwlock: 0 },
        0,
        true,
    ),
    (
        Ask::RwUnlock { rwlock: 0 },
        0,
        Ask::WrLock { rwlock: 0 },
        0,
        true,
    ),
    (
        Ask::RwUnlock { rwlock: 0 },
        0,
        Ask::TryRdLock { rwlock: 0 },
        1,
        true,
    ),
    (
        Ask::RwUnlock { rwlock: 0 },
        0,
        Ask::TryWrLock { rwlock: 0 },
        1,
        true,
    ),
    (
        Ask::RwUnlock { rwlock: 0 },
        0,
        Ask::TryWrLock { rwlock: 0 },
        0,
        false,
    ),
    (
        Ask::RdLock { rwlock: 0 },
        0,
        Ask::RdLock { rwlock: 0 },
        0,
        false,
    ),
    (
        Ask::Add { var: 1, value: 1 },
        0,
        Ask::Add { var: 1, value: 1 },
        1,
        true,
    ),
];

const WRITE: Ask = Ask::Write { var: 0, value: 1 };

/// Two threads write, and an edge lies between the writes or none.
fn expect_pair(rt: &impl Abort, alloc: Global, pair: &Pair) -> Result<(), Fail> {
    let (first, told, second, answer, ordered) = *pair;
    let steps = [
        (0, WRITE, 0),
        (0, first, told),
        (1, second, answer),
        (1, WRITE, 0),
    ];
    let races: &[Race] = if ordered { &[] } else { &[race!(0, 1, 4)] };
    expect(rt, alloc, &steps, races)
}

#[test]
fn edges(rt: HostRuntime) -> Result<(), Fail> {
    for pair in &PAIRS {
        expect_pair(&rt, rt.alloc(), pair)?;
    }
    Ok(())
}
