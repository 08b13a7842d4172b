ghost use Rattle.std.specs.Prelude.{◌≡◌, ◌≤◌, length, IfOk};

use crate::samples::ORDERS;
use crate::slow::{slow_indices, slow_ranks};
use rank_now::{RankError, Ranks, first_wrong, is_order};
use std::alloc::Global;
use std::process::Abort;
use std::test::Fail;

/// The ranks after a whole schedule, kept step by step: a step lowers its thread to the index that
/// it gives.
fn kept_ranks(
    rt: &impl Abort,
    alloc: Global,
    order: &[u32],
    count: u32,
    schedule: &[u32],
    given: &[u32],
) -> Result<Ranks, RankError>
    requires few_threads { length order.now ≤ 64 }
    requires few_points { count ≤ 7 }
    ensures threads { IfOk result (λ r. length r.values ≡ length order.now) }
{
    let mut ranks = Ranks::new(alloc, order, count)?;
    for (place, index) in given.iter().enumerate() {
        if *index > 0 {
            assert!(rt; place < schedule.len());
            let thread = schedule[place];
            assert!(rt; (thread as usize) < order.len());
            assert!(rt; *index <= count);
            assert!(rt; ranks.holder(*index).is_none());
            ranks.lower(thread, *index);
        }
    }
    Ok(ranks)
}

/// Compares the kept values with the wanted ones, who has each of them, and the walk with the
/// values.
fn compare(rt: &impl Abort, ranks: &Ranks, want: &[u32])
    requires as_many { length want.now ≡ length ranks.now.values }
    requires few_threads { length want.now ≤ 64 }
{
    for (thread, value) in want.iter().enumerate() {
        assert_eq!(rt; ranks.value(thread as u32), *value, "thread {thread}");
        assert!(rt; *value >= 1 && *value <= ranks.greatest());
        assert_eq!(rt; ranks.holder(*value), Some(thread as u32));
    }
    for place in 1..want.len() as u32 {
        let higher = ranks.value(ranks.walk(place - 1));
        assert!(rt; higher > ranks.value(ranks.walk(place)), "place {place}");
    }
}

/// The ranks after the schedule have the wanted values, and those of the slow program.
fn check_case(
    rt: &impl Abort,
    alloc: Global,
    order: &[u32],
    points: &[u32],
    schedule: &[u32],
    want: Option<&[u32]>,
) -> Result<(), Fail> {
    assert!(rt; order.len() <= 64);
    assert!(rt; points.len() <= 7);
    assert!(rt; schedule.len() <= 100);
    let count = points.len() as u32;
    let given = slow_indices(alloc, points, schedule)?;
    let ranks = kept_ranks(rt, alloc, order, count, schedule, &given)?;
    let slow = slow_ranks(alloc, &given, count, order, schedule)?;
    assert_eq!(rt; slow.len(), order.len());
    compare(rt, &ranks, &slow);
    if let Some(want) = want {
        assert_eq!(rt; slow.as_slice(), want);
    }
    Ok(())
}

/// What isn't an order, and the first wrong place.
const WRONG_ORDERS: [(&'static [u32], u32); 4] = [
    (&[0, 0], 1),
    (&[1], 0),
    (&[0, 2, 1, 1], 3),
    (&[1, 0, 3, 3], 3),
];

#[test]
fn wrong_orders(rt: HostRuntime) {
    for (order, wrong) in &WRONG_ORDERS {
        assert!(rt; order.len() <= 64);
        let at = match Ranks::new(rt.alloc(), *order, 1) {
            Err(RankError::NotAnOrder { at }) => at,
            _ => 100,
        };
        assert_eq!(rt; at, *wrong);
    }
}

#[test]
fn lists_and_orders(rt: HostRuntime) -> Result<(), Fail> {
    let alloc = rt.alloc();
    for (list, wrong) in &WRONG_ORDERS {
        assert!(rt; list.len() <= 64);
        assert_eq!(rt; first_wrong(*list), Some(*wrong));
        assert!(rt; !is_order(*list));
    }
    let list = [2, 0, 1];
    assert!(rt; is_order(&list));
    let ranks = Ranks::of_order(alloc, &list, 1, None)?;
    assert_eq!(rt; ranks.greatest(), 4);
    Ok(())
}

/// An order, change points, the steps, and the ranks after them.
type Case = (
    &'static [u32],
    &'static [u32],
    &'static [u32],
    &'static [u32],
);

const BY_HAND: [Case; 10] = [
    // Before the first step, and after the one change point, where the lowest value goes to the
    // highest thread.
    (&[2, 0, 1], &[1], &[], &[3, 2, 4]),
    (&[2, 0, 1], &[1], &[2], &[3, 2, 1]),
    // The other threads' steps change nothing.
    (&[0, 1, 2], &[1], &[0, 1, 1, 0, 2], &[1, 3, 2]),
    // Of equal points the greatest index stands.
    (&[0, 1, 2], &[1, 1], &[0], &[2, 4, 3]),
    // A point past the schedule changes nothing.
    (&[0, 1, 2], &[8, 100], &[0, 0, 0, 1, 1, 1, 2], &[5, 4, 3]),
    (&[0, 1, 2], &[8, 100], &[0, 0, 0, 1, 1, 1, 2, 2], &[5, 4, 1]),
    // One thread is changed twice, up and down.
    (&[0, 1, 2], &[1, 3], &[0, 1, 0], &[2, 4, 3]),
    (&[0, 1, 2], &[3, 1], &[0, 1, 0], &[1, 4, 3]),
    // Two threads, each at a point.
    (&[0, 1, 2], &[2, 1], &[0, 1, 2], &[2, 1, 3]),
    (&[0, 1, 2], &[1, 2], &[0, 1, 2], &[1, 2, 3]),
];

/// Three threads, with one change point or with two.
#[test]
fn values_by_hand(rt: HostRuntime) -> Result<(), Fail> {
    for (order, points, schedule, want) in &BY_HAND {
        check_case(&rt, rt.alloc(), *order, *points, *schedule, Some(*want))?;
    }
    Ok(())
}

/// The value that a thread had before it was lowered is nobody's.
#[test]
fn holders(rt: HostRuntime) -> Result<(), Fail> {
    let ranks = kept_ranks(&rt, rt.alloc(), &[2, 0, 1], 1, &[2], &[1])?;
    assert_eq!(rt; ranks.greatest(), 4);
    assert_eq!(rt; ranks.holder(4), None);
    assert_eq!(rt; ranks.holder(3), Some(0));
    assert_eq!(rt; ranks.holder(2), Some(1));
    assert_eq!(rt; ranks.holder(1), Some(2));
    Ok(())
}

/// Ranks that are made again, of fewer threads and of more, have nobody lowered.
#[test]
fn ranks_made_again(rt: HostRuntime) -> Result<(), Fail> {
    let lowered = kept_ranks(&rt, rt.alloc(), &[2, 0, 1], 2, &[2, 0], &[1, 2])?;
    let two = [1, 0];
    assert!(rt; is_order(&two));
    let fewer = Ranks::of_order(rt.alloc(), &two, 1, Some(lowered))?;
    assert_eq!(rt; fewer.greatest(), 3);
    assert_eq!(rt; fewer.holder(3), Some(1));
    assert_eq!(rt; fewer.holder(2), Some(0));
    assert_eq!(rt; fewer.holder(1), None);
    let four = [3, 1, 0, 2];
    assert!(rt; is_order(&four));
    let more = Ranks::of_order(rt.alloc(), &four, 3, Some(fewer))?;
    assert_eq!(rt; more.greatest(), 7);
    for (place, thread) in four.iter().enumerate() {
        assert_eq!(rt; more.holder(7 - place as u32), Some(*thread));
        assert!(rt; place == 3 || more.holder(place as u32 + 1).is_none());
    }
    Ok(())
}

/// A thread outranks another where its value is no less, also where two of them were lowered, the
/// later one below the earlier or above it.
#[test]
fn outranked(rt: HostRuntime) -> Result<(), Fail> {
    for given in &[[1, 2], [2, 1]] {
        let ranks = kept_ranks(&rt, rt.alloc(), &[2, 0, 1], 2, &[2, 0], given)?;
        for pair in 0..9u32 {
            let (thread, other) = (pair / 3, pair % 3);
            let no_less = ranks.value(thread) >= ranks.value(other);
            assert_eq!(rt; ranks.outranks(thread, 1u64 << other), no_less);
        }
        assert!(rt; ranks.outranks(1, u64::MAX));
    }
    Ok(())
}

/// Every order of three threads, each two points up to one past the schedule, and each schedule of
/// four steps.
#[test]
fn values_are_the_slow_ones(rt: HostRuntime) -> Result<(), Fail> {
    for order in &ORDERS {
        for case in 0..25 * 81u32 {
            let points = [1 + case % 5, 1 + case / 5 % 5];
            let steps = case / 25;
            let schedule = [steps % 3, steps / 3 % 3, steps / 9 % 3, steps / 27 % 3];
            check_case(&rt, rt.alloc(), order, &points, &schedule, None)?;
        }
    }
    Ok(())
}
