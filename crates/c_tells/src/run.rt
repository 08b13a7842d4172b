//! A run's deal and steps.

ghost use Rattle.std.specs.Prelude.{◌↔◌, IsTrue, All};
ghost use Rattle.pct_ask.specs.Objects.{sizes_of_deal, EventIsInRange};
ghost use Rattle.c_values.specs.Told.{Answers};
ghost use Rattle.c_tells.specs.Runs.{SayRun};

use c_values::{PctDeal, PctEvent, Refused, deal_said, steps_of};
use pct_ask::{Deal, Event, EventList};
use std::alloc::Global;

/// A deal, and the steps of a run of it.
#[derive(Drop)]
pub struct Run {
    pub deal: Deal,
    pub events: EventList,
}

fn is_in_range(deal: &Deal, event: &Event) -> bool
    ensures { IsTrue result ↔ EventIsInRange (sizes_of_deal deal.now) event.now }
{
    event.thread < deal.threads && deal.has_objects_of(&event.ask)
}

fn are_in_range(deal: &Deal, events: &[Event]) -> bool
    ensures { IsTrue result ↔ All (EventIsInRange (sizes_of_deal deal.now)) events.now }
{
    events.iter().all(|event| is_in_range(deal, event))
}

/// The deal and the steps that the numbers say.
pub fn run_of(
    alloc: Global,
    counts: &PctDeal,
    vars: &[i64],
    sems: &[i64],
    barriers: &[i64],
    steps: &[PctEvent],
) -> Result<Run, Refused>
    ensures { Answers (λ run.
        SayRun counts.now vars.now sems.now barriers.now steps.now run.deal run.events) result }
{
    let deal = deal_said(alloc, counts, vars, sems, barriers)?;
    let events = steps_of(alloc, steps)?;
    if !are_in_range(&deal, events.as_slice()) {
        return Err(Refused::Bad);
    }
    Ok(Run { deal, events })
}
