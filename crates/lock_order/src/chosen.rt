ghost use Rattle.std.specs.Prelude.{◌≡◌, ℕ, ◌<◌, ◌≤◌, ◌↔◌, List, length, slice_index};
ghost use Rattle.std.specs.Prelude.{MatchOption, IfOk};
ghost use Rattle.std.specs.List.{Contains};
ghost use Rattle.pct_ask.specs.declared.event.Event.{Event};
ghost use Rattle.lock_order.specs.declared.nesting.Nesting.{Nesting};
ghost use Rattle.lock_order.specs.declared.report.LockReport.{LockReport};
ghost use Rattle.lock_order.specs.Nestings.{AreEventsInRange};
ghost use Rattle.lock_order.specs.Good.{IsGood, IsGoodOrder, IsGoodCycle, IsCycle};
ghost use Rattle.lock_order.specs.Chosen.{IsChosen, IsLowest, Remains, AreTakenOut, IsWalk, IsRing};
ghost use Rattle.lock_order.specs.Chosen.{AreNestingsOf, AreNested, next_in_ring};
ghost use Rattle.lock_order.specs.MutexSets.{HasMutex, HasThose, AreHeldSets, AreNestedSets};
ghost use Rattle.lock_order.specs.MutexSets.{IsFreeIn};
ghost use Rattle.lock_order.specs.MutexSets.{IsHeldIn, IsCycleIn};
ghost use Rattle.pct_ask.specs.declared.limits.TheConstants.{MAX_OBJECTS, MAX_STEPS};

use crate::held::{first_nesting, held_sets};
use crate::mutex_set::MutexSet;
use crate::nested::{is_free, nested_sets};
use crate::nesting::{Nesting, NestingList};
use crate::report::{IdList, LockReport};
use pct_ask::{Deal, Event, MAX_OBJECTS};
use std::alloc::{AllocError as NoMemory, Global};

/// Whether the mutexes of a run were always taken in one order. Read-write locks play no part.
pub fn lock_order(alloc: Global, deal: &Deal, events: &[Event]) -> Result<LockReport, NoMemory>
    requires in_range { AreEventsInRange deal.now events.now }
    requires short { length events.now ≤ MAX_STEPS }
    ensures chosen { IfOk result (IsChosen deal.now.mutexes events.now) }
    // There is one such report.
    ensures only { (one other : LockReport) → IsChosen deal.now.mutexes events.now one →
        IsChosen deal.now.mutexes events.now other → one ≡ other }
    ensures good { IfOk result (IsGood deal.now.mutexes events.now) }

    // A good order and a good cycle never both exist, so a cycle comes exactly where no order is
    // good.
    ensures apart { (order : List ℕ) (cycle : List Nesting) →
        IsGoodOrder deal.now.mutexes events.now order → ¬ IsGoodCycle events.now cycle }
    ensures cycle { IfOk result (λ report. IsCycle report ↔
        ((order : List ℕ) → ¬ IsGoodOrder deal.now.mutexes events.now order)) }
{
    let held = held_sets(alloc, events)?;
    let nested = nested_sets(events, &held);
    let (out, remaining) = take_out(alloc, deal.mutexes, &nested)?;
    match remaining.lowest() {
        None => Ok(LockReport::Order {
            mutexes: IdList::from_vec(out),
        }),
        Some(first) => Ok(LockReport::Cycle {
            nestings: cycle(alloc, events, &held, &nested, remaining, first)?,
        }),
    }
}

/// The lowest mutex that is free.
fn lowest_free(mutexes: u32, nested: &[MutexSet; MAX_OBJECTS], remaining: MutexSet) -> Option<u32>
    requires below { (mutex : ℕ) → HasMutex remaining mutex → mutex < mutexes }
    ensures { MatchOption result ((mutex : ℕ) → ¬ IsFreeIn nested.now remaining mutex)
        (IsLowest (IsFreeIn nested.now remaining)) }
{
    for mutex in 0..mutexes {
        if is_free(nested, remaining, mutex) {
            return Some(mutex);
        }
    }
    None
}

/// The mutexes in the order in which they are taken out, and those that remain.
fn take_out(
    alloc: Global,
    mutexes: u32,
    nested: &[MutexSet; MAX_OBJECTS],
) -> Result<(Vec<u32>, MutexSet), NoMemory>
    requires few_mutexes { mutexes ≤ MAX_OBJECTS }
    ensures taken_out { IfOk result (λ r. (events : List Event) →
        AreNestedSets events nested.now → AreTakenOut mutexes events r.0.items) }
    ensures remaining { IfOk result (λ r. HasThose r.1 (Remains mutexes r.0.items)) }
    ensures stuck { IfOk result (λ r. (mutex : ℕ) → ¬ IsFreeIn nested.now r.1 mutex) }
{
    let mut out = Vec::new(alloc);
    let mut remaining = MutexSet::before(mutexes);
    while let Some(mutex) = lowest_free(mutexes, nested, remaining) {
        out.push(mutex)?;
        remaining = remaining.without(mutex);
    }
    Ok((out, remaining))
}

/// The cycle that the walk through the remaining mutexes ends in.
fn cycle(
    alloc: Global,
    events: &[Event],
    held: &[MutexSet],
    nested: &[MutexSet; MAX_OBJECTS],
    remaining: MutexSet,
    first: u32,
) -> Result<NestingList, NoMemory>
    requires short { length events.now ≤ MAX_STEPS }
    requires held { AreHeldSets events.now held.now }
    requires nested { AreNestedSets events.now nested.now }
    requires first { IsLowest (HasMutex remaining) first }
    requires stuck { (mutex : ℕ) → ¬ IsFreeIn nested.now remaining mutex }
    ensures { IfOk result (IsCycleIn events.now nested.now remaining) }
{
    let (mut walk, back) = walk(alloc, nested, remaining, first)?;
    let ring = &mut walk[back..];
    turn(ring);
    nestings_of(alloc, events, held, ring)
}

/// The walk through the remaining mutexes, and the place to which it would go back.
fn walk(
    alloc: Global,
    nested: &[MutexSet; MAX_OBJECTS],
    remaining: MutexSet,
    first: u32,
) -> Result<(Vec<u32>, usize), NoMemory>
    requires first { IsLowest (HasMutex remaining) first }
    requires stuck { (mutex : ℕ) → ¬ IsFreeIn nested.now remaining mutex }
    ensures { IfOk result (λ r.
        IsWalk (HasMutex remaining) (IsHeldIn nested.now remaining) r.0.items r.1) }
{
    let mut walk = Vec::new(alloc);
    let mut fresh = remaining;
    let mut mutex = first;
    while fresh.contains(mutex) {
        walk.push(mutex)?;
        fresh = fresh.without(mutex);
        mutex = nested[mutex as usize].lowest_common(remaining).unwrap();
    }
    let back = place_of(&walk, mutex);
    Ok((walk, back))
}

/// The first place of the mutex.
fn place_of(walk: &[u32], mutex: u32) -> usize
    requires { Contains walk.now mutex }
    ensures within { result < length walk.now }
    ensures found { slice_index walk.now result ≡ mutex }
{
    for (place, other) in walk.iter().enumerate() {
        if *other == mutex {
            return place;
        }
    }
    unreachable!()
}

/// The place of the lowest mutex.
fn lowest_place(ring: &[u32]) -> usize
    requires { 0 < length ring.now }
    ensures within { result < length ring.now }
    ensures lowest { (place : ℕ) → place < length ring.now →
        slice_index ring.now result ≤ slice_index ring.now place }
{
    let mut lowest = 0;
    for place in 1..ring.len() {
        if ring[place] < ring[lowest] {
            lowest = place;
        }
    }
    lowest
}

/// Reads the part of a walk backwards, beginning at its lowest mutex.
fn turn(part: &mut [u32])
    requires { 0 < length part.old }
    ensures { IsRing part.old part.new }
{
    part.reverse();
    let lowest = lowest_place(part);
    part.rotate_left(lowest);
}

/// The mutex after a place of the ring.
fn after(ring: &[u32], place: usize) -> u32
    requires { place < length ring.now }
    ensures { result ≡ next_in_ring ring.now place }
{
    if place + 1 == ring.len() {
        ring[0]
    } else {
        ring[place + 1]
    }
}

/// The first nestings of each mutex of the ring with the next one.
fn nestings_of(
    alloc: Global,
    events: &[Event],
    held: &[MutexSet],
    ring: &[u32],
) -> Result<NestingList, NoMemory>
    requires short { length events.now ≤ MAX_STEPS }
    requires held { AreHeldSets events.now held.now }
    requires nested { (place : ℕ) → place < length ring.now →
        AreNested events.now (slice_index ring.now place) (next_in_ring ring.now place) }
    ensures { IfOk result (AreNestingsOf events.now ring.now) }
{
    let mut nestings = NestingList::new(alloc);
    for (place, mutex) in ring.iter().enumerate() {
        nestings.try_push(first_nesting(events, held, *mutex, after(ring, place)))?;
    }
    Ok(nestings)
}
