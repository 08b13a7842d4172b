// What the run of an order says.
ghost use Rattle.std.specs.Prelude.{IfOk, List, ℕ};
ghost use Rattle.directive_run.specs.Tested.{directed_setup, Tells, IsOrderRun};

use crate::claim::Claim;
use choices::points_of;
use pct_ask::{Event, Outcome, PointList, Verdict};
use std::alloc::{AllocError as NoMemory, Global};
use worker_run::{count_steps, verdict_of};

/// What one order leads to.
#[derive(Drop)]
pub enum Tested {
    /// To the verdict: these are the points by which it does.
    Led(PointList),
    /// To another verdict.
    Other(Verdict),
    /// To more steps than there may be.
    TooLong(u32),
}

/// What an order leads to, by its directed run.
pub fn test_run(
    alloc: Global,
    claim: &Claim<'_, '_>,
    events: &[Event],
    outcome: &Outcome,
) -> Result<Tested, NoMemory>
    requires run { (order : List ℕ) × IsOrderRun (directed_setup claim.now) order
        (record { events = events.now; outcome = outcome.now }) }
    ensures { (order : List ℕ) → IsOrderRun (directed_setup claim.now) order
        (record { events = events.now; outcome = outcome.now })
        → IfOk result (Tells (directed_setup claim.now) order) }
{
    let verdict = verdict_of(outcome);
    let many = count_steps(events, claim.limit);
    let most = claim.steps.steps();
    if many > most {
        return Ok(Tested::TooLong(many));
    }
    if !verdict.is(&claim.directive.verdict) {
        return Ok(Tested::Other(verdict));
    }
    let moments = claim.directive.events.as_slice();
    Ok(Tested::Led(points_of(alloc, events, most, moments)?))
}
