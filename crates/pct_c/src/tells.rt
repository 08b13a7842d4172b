//! The calls of C on what runs tell.

ghost use Rattle.std.specs.Prelude.{◌≡◌, ◌≢◌, ◌+◌, ◌*◌, ◌^◌, length};
ghost use Rattle.c_tells.specs.Groups.{AreGroupsOf};
ghost use Rattle.c_tells.specs.Locks.{AreLocksOf};
ghost use Rattle.c_tells.specs.Moments.{AreMomentsOf};
ghost use Rattle.c_tells.specs.Orders.{IsOrderTold};
ghost use Rattle.c_tells.specs.Points.{ArePointsOf};
ghost use Rattle.c_tells.specs.Races.{AreRacesOf};
ghost use Rattle.pct_c.specs.Buffers.{Puts, Fills};
ghost use Rattle.pct_c.specs.Tells.{CountsOrders, SaysBound, TellsLocks, IsLocksPut};

use crate::buffers::{counted, fill, put, refusal};
use crate::status::{BAD, DONE, PctCount};
use c_tells::{
    LocksTold, PctGroup, PctNesting, PctRace, bound_told, groups_told, locks_told, moments_told,
    order_count_told, order_told, points_told, races_told,
};
use c_values::{PctDeal, PctEvent, PctMoment, PctRow, Refused};
use std::alloc::Global;

/// A number below 2^128.
#[repr(C)]
#[derive(Clone, Copy, Debug, PartialEq, Eq)]
pub struct PctBound {
    pub status: u32,
    pub low: u64,
    pub high: u64,
}

/// The version of the library.
#[unsafe(no_mangle)]
pub extern "C" fn pct_tell_version() -> u32
    ensures { result ≡ 1 }
{
    1
}

/// The moments of a run's change points.
#[unsafe(no_mangle)]
pub extern "C" fn pct_tell_moments(
    alloc: Global,
    steps: &[PctEvent],
    points: &[u32],
    moments: &mut [PctMoment],
) -> PctCount
    ensures { Puts (AreMomentsOf steps.now points.now) result.status result.count
        moments.old moments.new }
{
    put(moments_told(alloc, steps, points), moments)
}

/// The change points that stand for moments in a run's steps.
#[unsafe(no_mangle)]
pub extern "C" fn pct_tell_points(
    alloc: Global,
    steps: &[PctEvent],
    most: u32,
    moments: &[PctMoment],
    points: &mut [u32],
) -> u32
    ensures { Fills (ArePointsOf steps.now most moments.now (length points.old)) result
        points.old points.new }
{
    let told = points_told(alloc, steps, most, moments, points.len());
    fill(told, points)
}

/// How many orders of 1 to 7 threads place a given one last.
#[unsafe(no_mangle)]
pub extern "C" fn pct_tell_order_count(threads: u32) -> PctCount
    ensures { CountsOrders threads result }
{
    match order_count_told(threads) {
        Some(count) => counted(DONE, count as usize),
        None => counted(BAD, 0),
    }
}

/// The order at a place, from 0, among those that place `low` last.
#[unsafe(no_mangle)]
pub extern "C" fn pct_tell_order(
    alloc: Global,
    threads: u32,
    low: u32,
    place: u32,
    order: &mut [u32],
) -> u32
    ensures { Fills (IsOrderTold threads low place (length order.old)) result order.old order.new }
{
    let told = order_told(alloc, threads, low, place, order.len());
    fill(told, order)
}

const TWO_TO_64: u128 = 18_446_744_073_709_551_616;

/// In how many choices a certified directive gives its verdict at least once.
#[unsafe(no_mangle)]
pub extern "C" fn pct_tell_bound(threads: u32, steps: u32, points: u32) -> PctBound
    ensures { SaysBound threads steps points result }
{
    match bound_told(threads, steps, points) {
        Some(bound) => PctBound {
            status: DONE,
            low: (bound % TWO_TO_64) as u64,
            high: (bound / TWO_TO_64) as u64,
        },
        None => PctBound {
            status: BAD,
            low: 0,
            high: 0,
        },
    }
}

/// The data races of a run's steps, by happens-before.
#[unsafe(no_mangle)]
pub extern "C" fn pct_tell_races(
    alloc: Global,
    deal: &PctDeal,
    variables: &[i64],
    semaphores: &[i64],
    barriers: &[i64],
    steps: &[PctEvent],
    races: &mut [PctRace],
) -> PctCount
    ensures { Puts (AreRacesOf deal.now variables.now semaphores.now barriers.now steps.now)
        result.status result.count races.old races.new }
{
    put(
        races_told(alloc, deal, variables, semaphores, barriers, steps),
        races,
    )
}

/// The failures among the runs of a campaign, in groups by their verdicts.
#[unsafe(no_mangle)]
pub extern "C" fn pct_tell_groups(
    alloc: Global,
    rows: &[PctRow],
    groups: &mut [PctGroup],
) -> PctCount
    ensures { Puts (AreGroupsOf rows.now) result.status result.count groups.old groups.new }
{
    put(groups_told(alloc, rows), groups)
}

/// Whether a run's steps take the mutexes in one order, and how long the list is that says so.
#[repr(C)]
#[derive(Clone, Copy, Debug, PartialEq, Eq)]
pub struct PctLocks {
    pub status: u32,
    pub kind: u32,
    pub count: u64,
}

const ORDER: u32 = 1;

const CYCLE: u32 = 2;

fn locks_put(kind: u32, counted: PctCount) -> PctLocks
    ensures status { result.status ≡ counted.status }
    ensures kind { result.kind ≡ kind }
    ensures count { result.count ≡ counted.count }
{
    PctLocks {
        status: counted.status,
        kind,
        count: counted.count,
    }
}

/// Puts what is told into the one buffer or the other.
fn put_locks(
    told: Result<LocksTold, Refused>,
    mutexes: &mut [u32],
    nestings: &mut [PctNesting],
) -> PctLocks
    ensures { IsLocksPut told result mutexes.old mutexes.new nestings.old nestings.new }
{
    match told {
        Ok(LocksTold::Order { mutexes: order }) => locks_put(ORDER, put(Ok(order), mutexes)),
        Ok(LocksTold::Cycle { nestings: cycle }) => locks_put(CYCLE, put(Ok(cycle), nestings)),
        Err(why) => locks_put(0, counted(refusal(why), 0)),
    }
}

/// An order in which a run's steps take the mutexes, or a cycle of nestings.
#[unsafe(no_mangle)]
pub extern "C" fn pct_tell_lock_order(
    alloc: Global,
    deal: &PctDeal,
    variables: &[i64],
    semaphores: &[i64],
    barriers: &[i64],
    steps: &[PctEvent],
    mutexes: &mut [u32],
    nestings: &mut [PctNesting],
) -> PctLocks
    ensures { TellsLocks
        (AreLocksOf deal.now variables.now semaphores.now barriers.now steps.now) result
        mutexes.old mutexes.new nestings.old nestings.new }
{
    put_locks(
        locks_told(alloc, deal, variables, semaphores, barriers, steps),
        mutexes,
        nestings,
    )
}
