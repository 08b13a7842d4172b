ghost use Rattle.std.specs.Prelude.{◌≡◌, ◌<◌, ℕ, suc, max, ◌==◌, length, Some};
ghost use Rattle.pct_ask.specs.Objects.{EventIsInRange};
ghost use Rattle.hb_race.specs.Order.{Steps};
ghost use Rattle.hb_race.specs.Clocks.{stamp};
ghost use Rattle.hb_race.specs.Ranges.{most_with};
ghost use Rattle.hb_race.specs.Objects.{place, is_at};
ghost use Rattle.hb_race.specs.Table.{time, entry_if, stamp_from, AreJoined, IsStepEvent, IsTable};
ghost use Rattle.pct_ask.specs.declared.limits.TheConstants.{MAX_OBJECTS, MAX_STEPS};

use crate::object::{Object, first_taken, object_given, second_taken};
use pct_ask::{Event, MAX_THREADS};

/// How many rows a table of clocks has: one for each object of each of eight kinds.
pub(crate) const ROWS: usize = 512;

/// For each thread, how many of its steps come before: a vector clock.
pub(crate) type Clock = [u32; MAX_THREADS];

/// Each entry becomes the greater one.
fn join(clock: &mut Clock, other: &Clock)
    ensures { (u : ℕ) → time clock.new u ≡ max (time clock.old u) (time other.now u) }
{
    for u in 0..MAX_THREADS {
        if clock[u] < other[u] {
            clock[u] = other[u];
        }
    }
}

/// Joins the clock of an object, if there is one.
fn join_object(clock: &mut Clock, table: &[Clock], object: Option<Object>)
    requires { (o : Object) → object ≡ Some o → place o < length table.now }
    ensures { (u : ℕ) → time clock.new u ≡ max (time clock.old u) (entry_if table.now object u) }
{
    if let Some(object) = object {
        join(clock, &table[object.place()]);
    }
}

/// The clock of the next step.
fn stamp_of(table: &[Clock], counts: &Clock, event: &Event) -> Clock
    requires rows { length table.now ≡ 512 }
    requires range { EventIsInRange (most_with MAX_OBJECTS) event.now }
    requires few { (u : ℕ) → time counts.now u < MAX_STEPS }
    ensures { (u : ℕ) → time result u ≡ stamp_from table.now counts.now event.now u }
{
    let thread = event.thread as usize;
    let mut stamp = table[Object::Thread(event.thread).place()];
    join(&mut stamp, &table[Object::Beginning(event.thread).place()]);
    join_object(&mut stamp, table, first_taken(event));
    join_object(&mut stamp, table, second_taken(event));
    stamp[thread] = counts[thread] + 1;
    stamp
}

/// A row's clock joins that of a step.
fn give(table: &mut [Clock], row: usize, stamp: &Clock)
    requires { row < length table.old }
    ensures rows { length table.new ≡ length table.old }
    ensures entries { AreJoined (λ o. row == o) stamp.now table.old table.new }
{
    join(&mut table[row], stamp);
}

/// The clock of an object, if there is one, joins that of a step.
fn give_object(table: &mut [Clock], object: Option<Object>, stamp: &Clock)
    requires { (o : Object) → object ≡ Some o → place o < length table.old }
    ensures rows { length table.new ≡ length table.old }
    ensures entries { AreJoined (is_at object) stamp.now table.old table.new }
{
    if let Some(object) = object {
        give(table, object.place(), stamp);
    }
}

/// Takes one step, and answers its clock.
pub(crate) fn advance(table: &mut [Clock], counts: &mut Clock, event: &Event) -> Clock
    requires rows { length table.old ≡ 512 }
    requires range { EventIsInRange (most_with MAX_OBJECTS) event.now }
    requires few { (u : ℕ) → time counts.old u < MAX_STEPS }
    ensures rows { length table.new ≡ 512 }
    ensures stamp { (s : Steps ℕ) (n : ℕ) → IsStepEvent s n event.now
        → IsTable s n table.old counts.old
        → (u : ℕ) → time result u ≡ stamp s n u }
    ensures table { (s : Steps ℕ) (n : ℕ) → IsStepEvent s n event.now
        → IsTable s n table.old counts.old
        → IsTable s (suc n) table.new counts.new }
{
    let stamp = stamp_of(table, counts, event);
    counts[event.thread as usize] += 1;
    give(table, Object::Thread(event.thread).place(), &stamp);
    give_object(table, object_given(event), &stamp);
    stamp
}
