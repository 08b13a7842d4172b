//! A step as numbers.

ghost use Rattle.std.specs.Prelude.{◌≡◌, IfOk};
ghost use Rattle.c_values.specs.Events.{SaysEvent, event_said, events_said, AreSteps};
ghost use Rattle.c_values.specs.Told.{Answers};

use crate::ask::{PctAsk, ask_of, numbers_of_ask};
use crate::refused::Refused;
use pct_ask::{Event, EventList, MAX_STEPS};
use std::alloc::{AllocError as NoMemory, Global};

/// A step as numbers.
#[repr(C)]
#[derive(Clone, Copy, Debug, PartialEq, Eq)]
pub struct PctEvent {
    pub thread: u32,
    pub line: u32,
    pub ask: PctAsk,
    pub answer: i64,
}

/// The numbers that say a step.
pub fn numbers_of_event(event: &Event) -> PctEvent
    ensures { SaysEvent result event.now }
{
    PctEvent {
        thread: event.thread,
        line: event.line,
        ask: numbers_of_ask(&event.ask),
        answer: event.answer,
    }
}

/// The step that the numbers say. `None` where they say no ask.
pub fn event_of(numbers: &PctEvent) -> Option<Event>
    ensures { result ≡ event_said numbers.now }
{
    match ask_of(&numbers.ask) {
        Some(Some(ask)) => Some(Event {
            thread: numbers.thread,
            line: numbers.line,
            ask,
            answer: numbers.answer,
        }),
        Some(None) | None => None,
    }
}

/// The steps that the numbers say, in their order. `None` where some say no step.
pub fn events_of(alloc: Global, numbers: &[PctEvent]) -> Result<Option<EventList>, NoMemory>
    ensures { IfOk result (λ events. events ≡ events_said numbers.now) }
{
    let mut events = Vec::with_capacity(alloc, numbers.len())?;
    for one in numbers {
        match event_of(one) {
            Some(event) => events.push(event)?,
            None => return Ok(None),
        }
    }
    Ok(Some(EventList::from_vec(events)))
}

/// The steps of a run that the numbers say.
pub fn steps_of(alloc: Global, numbers: &[PctEvent]) -> Result<EventList, Refused>
    ensures { Answers (AreSteps numbers.now) result }
{
    if numbers.len() > MAX_STEPS as usize {
        return Err(Refused::Bad);
    }
    match events_of(alloc, numbers)? {
        Some(events) => Ok(events),
        None => Err(Refused::Bad),
    }
}
