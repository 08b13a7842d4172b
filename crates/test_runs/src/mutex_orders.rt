//! Orders of mutexes, and cycles of nestings, in lists of steps.
ghost use Rattle.std.specs.Prelude.{◌≤◌, length};
ghost use Rattle.lock_order.specs.Nestings.{AreEventsInRange};

use crate::deals::are_in_range;
use lock_order::{IdList, LockReport, Nesting, NestingList, check_report, lock_order};
use pct_ask::{Ask, Deal, Event, Sequence};
use std::alloc::{AllocError as NoMemory, Global};
use std::process::Abort;
use std::test::Fail;

/// A step's thread, line and ask. A try is answered 1, all else 0.
type Step = (u32, u32, Ask);

/// Two threads that take two mutexes, each in an order of its own.
const OPPOSED: [Step; 8] = [
    (0, 5, Ask::Lock { mutex: 0 }),
    (0, 6, Ask::Lock { mutex: 1 }),
    (0, 7, Ask::Unlock { mutex: 1 }),
    (0, 8, Ask::Unlock { mutex: 0 }),
    (1, 11, Ask::Lock { mutex: 1 }),
    (1, 12, Ask::Lock { mutex: 0 }),
    (1, 13, Ask::Unlock { mutex: 0 }),
    (1, 14, Ask::Unlock { mutex: 1 }),
];

/// Two threads that take them in one order.
const AGREED: [Step; 8] = [
    (0, 5, Ask::Lock { mutex: 0 }),
    (0, 6, Ask::Lock { mutex: 1 }),
    (0, 7, Ask::Unlock { mutex: 1 }),
    (0, 8, Ask::Unlock { mutex: 0 }),
    (1, 11, Ask::Lock { mutex: 0 }),
    (1, 12, Ask::Lock { mutex: 1 }),
    (1, 13, Ask::Unlock { mutex: 1 }),
    (1, 14, Ask::Unlock { mutex: 0 }),
];

/// One thread after the other holds the mutexes 1 and 3, 3 and 2, 2 and 1. The second tries for its
/// last one, and the third takes it again at the end of a wait.
const AROUND: [Step; 12] = [
    (0, 5, Ask::Lock { mutex: 1 }),
    (0, 6, Ask::Lock { mutex: 3 }),
    (0, 7, Ask::Unlock { mutex: 3 }),
    (0, 8, Ask::Unlock { mutex: 1 }),
    (1, 11, Ask::Lock { mutex: 3 }),
    (1, 12, Ask::TryLock { mutex: 2 }),
    (1, 13, Ask::Unlock { mutex: 2 }),
    (1, 14, Ask::Unlock { mutex: 3 }),
    (2, 17, Ask::Lock { mutex: 1 }),
    (2, 18, Ask::Release { cond: 0, mutex: 1 }),
    (2, 19, Ask::Lock { mutex: 2 }),
    (2, 18, Ask::Regain { cond: 0, mutex: 1 }),
];

fn small_deal(alloc: Global) -> Deal {
    Deal {
        threads: 3,
        vars: Sequence::new(alloc),
        mutexes: 4,
        conds: 1,
        sems: Sequence::new(alloc),
        barriers: Sequence::new(alloc),
        rwlocks: 0,
    }
}

fn events_of(alloc: Global, steps: &[Step]) -> Result<Vec<Event>, NoMemory> {
    let mut events = Vec::new(alloc);
    for (thread, line, ask) in steps {
        events.push(Event {
            thread: *thread,
            line: *line,
            ask: *ask,
            answer: i64::from(matches!(ask, Ask::TryLock { .. })),
        })?;
    }
    Ok(events)
}

/// What a report says.
#[derive(Clone, Copy)]
enum Said {
    Cycle(&'static [Nesting]),
    Order(&'static [u32]),
}

fn says(report: &LockReport, said: Said) -> bool {
    match (report, said) {
        (LockReport::Cycle { nestings }, Said::Cycle(cycle)) => nestings.as_slice() == cycle,
        (LockReport::Order { mutexes }, Said::Order(order)) => mutexes.as_slice() == order,
        _ => false,
    }
}

/// The report that says it.
fn report_of(alloc: Global, said: Said) -> Result<LockReport, NoMemory> {
    Ok(match said {
        Said::Cycle(cycle) => LockReport::Cycle {
            nestings: NestingList::from_vec(Vec::from_slice(alloc, cycle)?),
        },
        Said::Order(order) => LockReport::Order {
            mutexes: IdList::from_vec(Vec::from_slice(alloc, order)?),
        },
    })
}

/// This is reported of the steps, and is so.
fn expect_report(
    rt: &impl Abort,
    alloc: Global,
    deal: &Deal,
    events: &[Event],
    said: Said,
) -> Result<(), NoMemory>
    requires in_range { AreEventsInRange deal.now events.now }
    requires short { length events.now ≤ 100000 }
{
    let report = lock_order(alloc, deal, events)?;
    let good = check_report(alloc, deal, events, &report);
    assert!(rt; says(&report, said));
    drop(report);
    assert!(rt; good?);
    Ok(())
}

/// This isn't so of the steps.
fn expect_bad(
    rt: &impl Abort,
    alloc: Global,
    deal: &Deal,
    events: &[Event],
    said: Said,
) -> Result<(), NoMemory>
    requires in_range { AreEventsInRange deal.now events.now }
    requires short { length events.now ≤ 100000 }
{
    let report = report_of(alloc, said)?;
    let good = check_report(alloc, deal, events, &report);
    drop(report);
    assert!(rt; !good?);
    Ok(())
}

/// The first is reported of the steps, and is so. The others aren't so.
fn expect_all(
    rt: &impl Abort,
    alloc: Global,
    deal: &Deal,
    events: &[Event],
    said: Said,
    bad: &[Said],
) -> Result<(), NoMemory>
    requires in_range { AreEventsInRange deal.now events.now }
    requires short { length events.now ≤ 100000 }
{
    expect_report(rt, alloc, deal, events, said)?;
    for other in bad {
        expect_bad(rt, alloc, deal, events, *other)?;
    }
    Ok(())
}

fn expect(
    rt: &impl Abort,
    alloc: Global,
    steps: &[Step],
    said: Said,
    bad: &[Said],
) -> Result<(), Fail> {
    let events = events_of(alloc, steps)?;
    let deal = small_deal(alloc);
    assert!(rt; are_in_range(&deal, &events) && events.len() <= 100_000);
    let told = expect_all(rt, alloc, &deal, &events, said, bad);
    drop(deal);
    Ok(told?)
}

macro_rules! nesting {
    ($step:literal, $thread:literal, $held:literal, $taken:literal) => {
        Nesting {
            step: $step,
            thread: $thread,
            held: $held,
            taken: $taken,
        }
    };
}

const TWO_AROUND: [Nesting; 2] = [nesting!(2, 0, 0, 1), nesting!(6, 1, 1, 0)];

const FIRST_OF_TWO: [Nesting; 1] = [nesting!(2, 0, 0, 1)];

#[test]
fn two_orders(rt: HostRuntime) -> Result<(), Fail> {
    expect(
        &rt,
        rt.alloc(),
        &OPPOSED,
        Said::Cycle(&TWO_AROUND),
        &[Said::Cycle(&FIRST_OF_TWO)],
    )
}

#[test]
fn one_order(rt: HostRuntime) -> Result<(), Fail> {
    expect(
        &rt,
        rt.alloc(),
        &AGREED,
        Said::Order(&[0, 1, 2, 3]),
        &[Said::Order(&[0, 1, 2, 3, 3])],
    )
}

const THREE_AROUND: [Nesting; 3] = [
    nesting!(2, 0, 1, 3),
    nesting!(6, 1, 3, 2),
    nesting!(12, 2, 2, 1),
];

#[test]
fn three_around(rt: HostRuntime) -> Result<(), Fail> {
    expect(&rt, rt.alloc(), &AROUND, Said::Cycle(&THREE_AROUND), &[])
}
