ghost use Rattle.std.specs.Prelude.{◌≡◌, ℕ, ◌<◌, ◌≤◌, ◌↔◌, ◌⊎◌, Some, length, IfOk, IsTrue};
ghost use Rattle.lock_order.specs.Nestings.{TakesBy, LetsGoBy, AreOfSomeDeal, IsNesting};
ghost use Rattle.lock_order.specs.Chosen.{AreNested, IsFirstOfPair};
ghost use Rattle.lock_order.specs.MutexSets.{HasMutex, HasThose, AreHeldSets};
ghost use Rattle.pct_ask.specs.declared.limits.TheConstants.{MAX_OBJECTS, MAX_STEPS};

use crate::mutex_set::MutexSet;
use crate::nesting::Nesting;
use pct_ask::{Ask, Event, MAX_THREADS};
use std::alloc::{AllocError as NoMemory, Global};

/// The mutex that the event takes.
pub fn taken(event: &Event) -> Option<u32>
    ensures { (mutex : ℕ) → (result ≡ Some mutex) ↔ TakesBy event.now.ask event.now.answer mutex }
{
    match event.ask {
        Ask::Lock { mutex } | Ask::Regain { mutex, .. } => Some(mutex),
        Ask::TryLock { mutex } if event.answer == 1 => Some(mutex),
        _ => None,
    }
}

/// Whether the event takes the one mutex while the set has the other.
fn nests(event: &Event, set: MutexSet, held: u32, mutex: u32) -> bool
    ensures { IsTrue result ↔ (TakesBy event.now.ask event.now.answer mutex × HasMutex set held) }
{
    taken(event) == Some(mutex) && set.contains(held)
}

/// The mutex that the event lets go.
fn let_go(event: &Event) -> Option<u32>
    ensures { (mutex : ℕ) → (result ≡ Some mutex) ↔ LetsGoBy event.now.ask mutex }
{
    match event.ask {
        Ask::Unlock { mutex } | Ask::Release { mutex, .. } => Some(mutex),
        _ => None,
    }
}

/// The mutexes that the event's thread holds after its step, by those that it held before.
fn after(held: MutexSet, event: &Event) -> MutexSet
    requires { (mutex : ℕ) →
        TakesBy event.now.ask event.now.answer mutex ⊎ LetsGoBy event.now.ask mutex
        → mutex < MAX_OBJECTS }
    ensures { HasThose result (λ mutex. TakesBy event.now.ask event.now.answer mutex ⊎
        ((¬ LetsGoBy event.now.ask mutex) × HasMutex held mutex)) }
{
    let kept = match let_go(event) {
        Some(mutex) => held.without(mutex),
        None => held,
    };
    match taken(event) {
        Some(mutex) => kept.with(mutex),
        None => kept,
    }
}

/// For each step the mutexes that its thread holds before it.
pub fn held_sets(alloc: Global, events: &[Event]) -> Result<Vec<MutexSet>, NoMemory>
    requires in_range { AreOfSomeDeal events.now }
    ensures { IfOk result (λ sets. AreHeldSets events.now sets.items) }
{
    let mut now = [MutexSet::EMPTY; MAX_THREADS];
    let mut sets = Vec::new(alloc);
    for event in events {
        let held = now[event.thread as usize];
        sets.push(held)?;
        now[event.thread as usize] = after(held, event);
    }
    Ok(sets)
}

/// The nesting of least step of the pair.
pub fn first_nesting(events: &[Event], sets: &[MutexSet], held: u32, mutex: u32) -> Nesting
    requires short { length events.now ≤ MAX_STEPS }
    requires sets { AreHeldSets events.now sets.now }
    requires nested { AreNested events.now held mutex }
    ensures { IsFirstOfPair events.now held mutex result }
{
    for (place, event) in events.iter().enumerate() {
        if nests(event, sets[place], held, mutex) {
            return Nesting {
                step: place as u32 + 1,
                thread: event.thread,
                held,
                taken: mutex,
            };
        }
    }
    unreachable!()
}

/// Whether the nesting is one of the events.
pub fn is_nesting(events: &[Event], sets: &[MutexSet], nesting: &Nesting) -> bool
    requires sets { AreHeldSets events.now sets.now }
    ensures { IsTrue result ↔ IsNesting events.now nesting.now }
{
    if nesting.step == 0 || nesting.step as usize > events.len() {
        return false;
    }
    let place = nesting.step as usize - 1;
    let event = &events[place];
    event.thread == nesting.thread && nests(event, sets[place], nesting.held, nesting.taken)
}
