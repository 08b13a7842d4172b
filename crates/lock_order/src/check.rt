ghost use Rattle.std.specs.Prelude.{◌≤◌, ◌↔◌, IsTrue, IfOk, length};
ghost use Rattle.lock_order.specs.Nestings.{AreEventsInRange};
ghost use Rattle.lock_order.specs.Good.{IsGood, IsGoodOrder, IsGoodCycle};
ghost use Rattle.lock_order.specs.MutexSets.{AreHeldSets};
ghost use Rattle.pct_ask.specs.declared.limits.TheConstants.{MAX_STEPS};

use crate::held::{held_sets, is_nesting};
use crate::mutex_set::MutexSet;
use crate::nested::{is_free, nested_sets};
use crate::nesting::Nesting;
use crate::report::LockReport;
use pct_ask::{Deal, Event};
use std::alloc::{AllocError as NoMemory, Global};

/// Whether the report is good for these events. Any report is taken, at a cost of its length and
/// that of the events.
pub fn check_report(
    alloc: Global,
    deal: &Deal,
    events: &[Event],
    report: &LockReport,
) -> Result<bool, NoMemory>
    requires in_range { AreEventsInRange deal.now events.now }
    requires short { length events.now ≤ MAX_STEPS }
    ensures { IfOk result (λ good. IsTrue good ↔ IsGood deal.now.mutexes events.now report.now) }
{
    let held = held_sets(alloc, events)?;
    Ok(match report {
        LockReport::Order { mutexes } => is_good_order(deal, events, &held, mutexes.as_slice()),
        LockReport::Cycle { nestings } => is_good_cycle(events, &held, nestings.as_slice()),
    })
}

/// Whether the order names every mutex once, and none before one that is held where it is taken.
fn is_good_order(deal: &Deal, events: &[Event], held: &[MutexSet], order: &[u32]) -> bool
    requires in_range { AreEventsInRange deal.now events.now }
    requires held { AreHeldSets events.now held.now }
    ensures { IsTrue result ↔ IsGoodOrder deal.now.mutexes events.now order.now }
{
    let nested = nested_sets(events, held);
    let mut left = MutexSet::before(deal.mutexes);
    for mutex in order {
        if !is_free(&nested, left, *mutex) {
            return false;
        }
        left = left.without(*mutex);
    }
    left.lowest().is_none()
}

/// Whether these are nestings, each of which takes what the next one holds, and the last what the
/// first one holds.
fn is_good_cycle(events: &[Event], held: &[MutexSet], cycle: &[Nesting]) -> bool
    requires held { AreHeldSets events.now held.now }
    ensures { IsTrue result ↔ IsGoodCycle events.now cycle.now }
{
    let Some(last) = cycle.last() else {
        return false;
    };
    let mut taken = last.taken;
    for nesting in cycle {
        if nesting.held != taken || !is_nesting(events, held, nesting) {
            return false;
        }
        taken = nesting.taken;
    }
    true
}
