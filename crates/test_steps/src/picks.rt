ghost use Rattle.std.specs.Prelude.{◌≡◌, ℕ, ◌<◌, ◌≤◌, [], ◌++◌, List, length, IsTrue};
ghost use Rattle.policy_pick.specs.Plan.{SpeaksOf};
ghost use Rattle.policy_pick.specs.Choice.{TargetsAreAway, HasAwayTarget};

use crate::samples::ORDERS;
use crate::slow::{slow_by_list, slow_by_moments, slow_by_points, slow_choice};
use policy_pick::{
    Chance, DirectedPolicy, DirectedPriorities, Listed, Moment, Pct, Pick, Policy, Priorities,
};
use rank_now::is_order;
use std::alloc::Global;
use std::process::Abort;
use std::test::Fail;

/// Whether the target of an Unknown is Away.
fn has_away_target(chances: &[Chance], chance: Chance) -> bool
    ensures { IsTrue result → HasAwayTarget chances.now chance }
{
    match chance {
        Chance::Unknown { target } => (target as usize) < chances.len()
            && chances[target as usize] == Chance::Away,
        _ => true,
    }
}

/// Whether each target of an Unknown is Away.
fn targets_are_away(chances: &[Chance]) -> bool
    ensures { IsTrue result → TargetsAreAway chances.now }
{
    for chance in chances {
        if !has_away_target(chances, *chance) {
            return false;
        }
    }
    true
}

/// The policy picks as wanted, and is told who takes a step then.
fn expect_pick<P: Policy>(
    rt: &impl Abort,
    policy: &mut P,
    chances: &[Chance],
    wanted: Pick,
    taker: Option<u32>,
    place: usize,
)
    requires threads { SpeaksOf (P.plan policy.old) 3 }
    requires short { (schedule : List ℕ)
        × P.stands policy.old schedule
        × (length schedule < 100000) }
    ensures plan { P.plan policy.new ≡ P.plan policy.old }
    ensures stands { (schedule : List ℕ) → P.stands policy.old schedule
        → ((more : List ℕ) × (length more ≤ 1) × P.stands policy.new (schedule ++ more)) }
{
    assert_eq!(rt; chances.len(), 3);
    assert!(rt; targets_are_away(chances));
    assert_eq!(rt; policy.pick(chances), wanted, "pick {place}");
    if let Some(thread) = taker {
        assert!(rt; thread < 3);
        policy.took(thread);
    }
}

/// The thread that is picked.
fn thread_of(pick: Pick) -> Option<u32> {
    match pick {
        Pick::Thread(thread) => Some(thread),
        _ => None,
    }
}

/// The chances of three threads, and what is picked.
type Case = (&'static [Chance], Pick);

/// The policy picks as wanted, one case after another, and the picked threads take their steps.
fn expect_picks<P: Policy>(rt: &impl Abort, mut policy: P, cases: &[Case])
    requires threads { SpeaksOf (P.plan policy) 3 }
    requires stands { P.stands policy [] }
    requires short { length cases.now ≤ 100 }
{
    for place in 0..cases.len() {
        let (chances, wanted) = cases[place];
        expect_pick(rt, &mut policy, chances, wanted, thread_of(wanted), place);
    }
}

/// One of the 125 combinations of three chances. An Unknown waits for the first thread that is
/// Away.
fn chances_of(number: u32) -> [Chance; 3] {
    let kinds = [number % 5, number / 5 % 5, number / 25 % 5];
    let away = match kinds {
        [0, _, _] => Some(0),
        [_, 0, _] => Some(1),
        [_, _, 0] => Some(2),
        _ => None,
    };
    [
        chance_of(kinds[0], away),
        chance_of(kinds[1], away),
        chance_of(kinds[2], away),
    ]
}

fn chance_of(kind: u32, away: Option<u32>) -> Chance {
    match (kind, away) {
        (0, _) => Chance::Away,
        (1, _) => Chance::Blocked,
        (2, _) => Chance::Ended,
        (3, Some(target)) => Chance::Unknown { target },
        _ => Chance::Ready,
    }
}

/// The policy picks as wanted before each step of the schedule.
fn expect_along<P: Policy>(
    rt: &impl Abort,
    mut policy: P,
    schedule: &[u32; 3],
    number: u32,
    wanted: &[Pick; 3],
)
    requires threads { SpeaksOf (P.plan policy) 3 }
    requires stands { P.stands policy [] }
    requires small { number < 1000000 }
{
    for taken in 0..3 {
        let chances = chances_of(number + taken as u32);
        let taker = Some(schedule[taken]);
        let place = number as usize + taken;
        expect_pick(rt, &mut policy, &chances, wanted[taken], taker, place);
    }
}

/// The picks by points along a schedule, from the plain programs.
fn wanted_by_points(
    rt: &impl Abort,
    alloc: Global,
    order: &[u32],
    points: &[u32],
    schedule: &[u32; 3],
    number: u32,
) -> Result<[Pick; 3], Fail>
    requires few_threads { length order.now ≤ 64 }
    requires few_points { length points.now ≤ 7 }
    requires small { number < 1000000 }
{
    let mut wanted = [Pick::Nobody; 3];
    for taken in 0..3 {
        let ranks = slow_by_points(alloc, order, points, &schedule[..taken])?;
        assert_eq!(rt; ranks.len(), 3);
        let chances = chances_of(number + taken as u32);
        wanted[taken] = slow_choice(&ranks, &chances);
    }
    Ok(wanted)
}

/// The picks by moments along a schedule, from the plain programs.
fn wanted_by_moments(
    rt: &impl Abort,
    alloc: Global,
    order: &[u32],
    moments: &[Moment],
    schedule: &[u32; 3],
    number: u32,
) -> Result<[Pick; 3], Fail>
    requires few_threads { length order.now ≤ 64 }
    requires few_moments { length moments.now ≤ 7 }
    requires small { number < 1000000 }
{
    let mut wanted = [Pick::Nobody; 3];
    for taken in 0..3 {
        let ranks = slow_by_moments(alloc, order, moments, &schedule[..taken])?;
        assert_eq!(rt; ranks.len(), 3);
        let chances = chances_of(number + taken as u32);
        wanted[taken] = slow_choice(&ranks, &chances);
    }
    Ok(wanted)
}

const AWAY: Chance = Chance::Away;

const READY: Chance = Chance::Ready;

const BLOCKED: Chance = Chance::Blocked;

const ENDED: Chance = Chance::Ended;

const UNKNOWN_0: Chance = Chance::Unknown { target: 0 };

const UNKNOWN_1: Chance = Chance::Unknown { target: 1 };

const UNKNOWN_2: Chance = Chance::Unknown { target: 2 };

const ORDER: [u32; 3] = [0, 1, 2];

/// A lost update: the first thread reads and is lowered, the second one reads and writes, and a
/// third one joins both.
const LOST_UPDATE: [Case; 9] = [
    (&[READY, READY, BLOCKED], Pick::Thread(0)),
    (&[READY, READY, BLOCKED], Pick::Thread(1)),
    (&[READY, READY, BLOCKED], Pick::Thread(1)),
    (&[READY, ENDED, BLOCKED], Pick::Thread(0)),
    (&[ENDED, ENDED, READY], Pick::Thread(2)),
    (&[ENDED, ENDED, READY], Pick::Thread(2)),
    (&[ENDED, ENDED, READY], Pick::Thread(2)),
    (&[ENDED, ENDED, READY], Pick::Thread(2)),
    (&[ENDED, ENDED, ENDED], Pick::Nobody),
];

#[test]
fn lost_update_by_hand(rt: HostRuntime) -> Result<(), Fail> {
    expect_picks(&rt, Pct::new(rt.alloc(), &ORDER, &[1])?, &LOST_UPDATE);
    Ok(())
}

/// What is not known is waited for, where no higher thread may go.
const WAITS: [Case; 6] = [
    (&[AWAY, READY, READY], Pick::Waits(0)),
    (&[BLOCKED, AWAY, READY], Pick::Waits(1)),
    (&[ENDED, UNKNOWN_2, AWAY], Pick::Waits(2)),
    (&[AWAY, AWAY, UNKNOWN_0], Pick::Waits(0)),
    (&[BLOCKED, ENDED, BLOCKED], Pick::Nobody),
    (&[READY, AWAY, UNKNOWN_1], Pick::Thread(0)),
];

#[test]
fn waits_by_hand(rt: HostRuntime) -> Result<(), Fail> {
    expect_picks(&rt, Pct::new(rt.alloc(), &ORDER, &[])?, &WAITS);
    Ok(())
}

/// Of equal points the greatest index stands: the first thread gets 3, and the second one 2.
const EQUAL_POINTS: [Case; 4] = [
    (&[READY, BLOCKED, BLOCKED], Pick::Thread(0)),
    (&[BLOCKED, READY, BLOCKED], Pick::Thread(1)),
    (&[READY, READY, BLOCKED], Pick::Thread(0)),
    (&[READY, READY, READY], Pick::Thread(2)),
];

/// A point past the run changes nothing.
const LATE_POINT: [Case; 3] = [
    (&[READY, READY, READY], Pick::Thread(0)),
    (&[READY, READY, READY], Pick::Thread(0)),
    (&[READY, READY, READY], Pick::Thread(0)),
];

#[test]
fn points_by_hand(rt: HostRuntime) -> Result<(), Fail> {
    expect_picks(
        &rt,
        Pct::new(rt.alloc(), &ORDER, &[1, 2, 1])?,
        &EQUAL_POINTS,
    );
    expect_picks(&rt, Pct::new(rt.alloc(), &ORDER, &[9])?, &LATE_POINT);
    Ok(())
}

const SECOND_OF_A: [Moment; 1] = [Moment {
    thread: 0,
    number: 2,
}];

/// The first thread's second own step is the third step.
const SECOND_STEP: [Case; 4] = [
    (&[READY, READY, READY], Pick::Thread(0)),
    (&[BLOCKED, READY, READY], Pick::Thread(1)),
    (&[READY, READY, READY], Pick::Thread(0)),
    (&[READY, READY, READY], Pick::Thread(1)),
];

const FIRST_OF_A: Moment = Moment {
    thread: 0,
    number: 1,
};

const FIRST_OF_B: Moment = Moment {
    thread: 1,
    number: 1,
};

/// Of equal moments the greatest index stands.
const EQUAL_MOMENTS: [Case; 4] = [
    (&[READY, BLOCKED, BLOCKED], Pick::Thread(0)),
    (&[BLOCKED, READY, BLOCKED], Pick::Thread(1)),
    (&[READY, READY, BLOCKED], Pick::Thread(0)),
    (&[READY, READY, READY], Pick::Thread(2)),
];

#[test]
fn moments_by_hand(rt: HostRuntime) -> Result<(), Fail> {
    let second = DirectedPolicy::new(rt.alloc(), &ORDER, &SECOND_OF_A)?;
    expect_picks(&rt, second, &SECOND_STEP);
    let moments = [FIRST_OF_A, FIRST_OF_B, FIRST_OF_A];
    let equal = DirectedPolicy::new(rt.alloc(), &ORDER, &moments)?;
    expect_picks(&rt, equal, &EQUAL_MOMENTS);
    Ok(())
}

#[test]
fn policies_of_priorities(rt: HostRuntime) -> Result<(), Fail> {
    assert!(rt; is_order(&ORDER));
    let first = Priorities {
        order: &ORDER,
        points: &[1],
    };
    let lost = Pct::of_priorities(rt.alloc(), &first, None)?;
    expect_picks(&rt, lost, &LOST_UPDATE);
    let second = DirectedPriorities {
        order: &ORDER,
        moments: &SECOND_OF_A,
    };
    let lowered = DirectedPolicy::of_priorities(rt.alloc(), &second, None)?;
    expect_picks(&rt, lowered, &SECOND_STEP);
    Ok(())
}

/// A policy by points that is made in the memory of another goes by its own order and points alone.
fn expect_points_again(rt: &impl Abort, alloc: Global, other: Pct) -> Result<(), Fail> {
    assert!(rt; is_order(&ORDER));
    let first = Priorities {
        order: &ORDER,
        points: &[1],
    };
    let again = Pct::of_priorities(alloc, &first, Some(other))?;
    expect_picks(rt, again, &LOST_UPDATE);
    Ok(())
}

/// The same by moments.
fn expect_moments_again(rt: &impl Abort, alloc: Global, other: DirectedPolicy) -> Result<(), Fail> {
    assert!(rt; is_order(&ORDER));
    let second = DirectedPriorities {
        order: &ORDER,
        moments: &SECOND_OF_A,
    };
    let again = DirectedPolicy::of_priorities(alloc, &second, Some(other))?;
    expect_picks(rt, again, &SECOND_STEP);
    Ok(())
}

/// In the memory of policies of fewer threads and changes, and of policies of more changes that
/// took a step under another order.
#[test]
fn policies_made_again(rt: HostRuntime) -> Result<(), Fail> {
    expect_points_again(&rt, rt.alloc(), Pct::new(rt.alloc(), &[0], &[])?)?;
    let mut large = Pct::new(rt.alloc(), &[2, 0, 1], &[1, 1, 2])?;
    expect_pick(&rt, &mut large, &[READY; 3], Pick::Thread(2), Some(2), 0);
    expect_points_again(&rt, rt.alloc(), large)?;
    expect_moments_again(&rt, rt.alloc(), DirectedPolicy::new(rt.alloc(), &[0], &[])?)?;
    let moments = [FIRST_OF_B, FIRST_OF_A];
    let mut large = DirectedPolicy::new(rt.alloc(), &[1, 2, 0], &moments)?;
    expect_pick(&rt, &mut large, &[READY; 3], Pick::Thread(1), Some(1), 0);
    expect_moments_again(&rt, rt.alloc(), large)?;
    Ok(())
}

const LISTED: [Case; 13] = [
    (&[READY, READY, READY], Pick::Thread(0)),
    (&[READY, AWAY, READY], Pick::Waits(1)),
    (&[READY, UNKNOWN_2, AWAY], Pick::Waits(2)),
    (&[READY, BLOCKED, READY], Pick::Departs(1)),
    (&[READY, ENDED, READY], Pick::Departs(1)),
    (&[AWAY, READY, AWAY], Pick::Thread(1)),
    (&[AWAY, AWAY, READY], Pick::Thread(2)),
    // The list is over.
    (&[READY, READY, READY], Pick::Departs(0)),
    (&[BLOCKED, AWAY, READY], Pick::Waits(1)),
    (&[ENDED, UNKNOWN_2, AWAY], Pick::Waits(2)),
    (&[ENDED, BLOCKED, READY], Pick::Departs(2)),
    (&[ENDED, ENDED, ENDED], Pick::Nobody),
    (&[BLOCKED, ENDED, BLOCKED], Pick::Nobody),
];

#[test]
fn list_by_hand(rt: HostRuntime) -> Result<(), Fail> {
    expect_picks(&rt, Listed::new(rt.alloc(), &ORDER)?, &LISTED);
    Ok(())
}

/// The policies pick as the plain programs do, with two changes of each kind and three steps.
fn compare_case(rt: &impl Abort, alloc: Global, order: &[u32], case: u32) -> Result<(), Fail>
    requires threads { length order.now ≡ 3 }
    requires small { case < 1000 }
{
    let steps = case / 16;
    let schedule = [steps % 3, steps / 3 % 3, steps / 9 % 3];
    let points = [1 + case % 4, 1 + case / 4 % 4];
    let wanted = wanted_by_points(rt, alloc, order, &points, &schedule, 3 * case)?;
    let policy = Pct::new(alloc, order, &points)?;
    expect_along(rt, policy, &schedule, 3 * case, &wanted);
    let moments = points.map(|point| Moment {
        thread: point % 3,
        number: 1 + point / 3,
    });
    let wanted = wanted_by_moments(rt, alloc, order, &moments, &schedule, 3 * case)?;
    let policy = DirectedPolicy::new(alloc, order, &moments)?;
    expect_along(rt, policy, &schedule, 3 * case, &wanted);
    Ok(())
}

/// The orders of three threads, two changes each, and the schedules of three steps.
#[test]
fn picks_are_the_slow_ones(rt: HostRuntime) -> Result<(), Fail> {
    for case in 0..16 * 27 {
        for order in &ORDERS {
            assert_eq!(rt; order.len(), 3);
            compare_case(&rt, rt.alloc(), order, case)?;
        }
    }
    Ok(())
}

/// A list picks as the plain program does, also after the list.
fn compare_list(rt: &impl Abort, alloc: Global, listed: &[u32; 2], number: u32) -> Result<(), Fail>
    requires small { number < 1000000 }
{
    assert!(rt; listed.iter().all(|thread| *thread < 3));
    let mut wanted = [Pick::Nobody; 3];
    for taken in 0..3 {
        let chances = chances_of(number + taken as u32);
        wanted[taken] = slow_by_list(listed, taken, &chances);
    }
    let policy = Listed::new(alloc, listed)?;
    expect_along(rt, policy, &[0, 1, 2], number, &wanted);
    Ok(())
}

/// Every list of two threads, with each three combinations of chances.
#[test]
fn lists_pick_as_slow_ones(rt: HostRuntime) -> Result<(), Fail> {
    for case in 0..9 * 125 {
        compare_list(&rt, rt.alloc(), &[case % 3, case / 3 % 3], case / 9)?;
    }
    Ok(())
}
