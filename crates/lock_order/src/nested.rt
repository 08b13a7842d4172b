ghost use Rattle.std.specs.Prelude.{◌↔◌, IsTrue};
ghost use Rattle.lock_order.specs.Nestings.{AreOfSomeDeal};
ghost use Rattle.lock_order.specs.MutexSets.{AreHeldSets, AreNestedSets, IsFreeIn};

use crate::held::taken;
use crate::mutex_set::MutexSet;
use pct_ask::{Event, MAX_OBJECTS};

/// For each mutex those that are held where it is taken.
pub fn nested_sets(events: &[Event], held: &[MutexSet]) -> [MutexSet; MAX_OBJECTS]
    requires in_range { AreOfSomeDeal events.now }
    requires held { AreHeldSets events.now held.now }
    ensures { AreNestedSets events.now result }
{
    let mut sets = [MutexSet::EMPTY; MAX_OBJECTS];
    for (place, event) in events.iter().enumerate() {
        if let Some(mutex) = taken(event) {
            sets[mutex as usize] = sets[mutex as usize].union(held[place]);
        }
    }
    sets
}

/// Whether the mutex remains, and of those that remain none is held where it is taken.
pub fn is_free(nested: &[MutexSet; MAX_OBJECTS], remaining: MutexSet, mutex: u32) -> bool
    ensures { IsTrue result ↔ IsFreeIn nested.now remaining mutex }
{
    remaining.contains(mutex) && nested[mutex as usize].lowest_common(remaining).is_none()
}
