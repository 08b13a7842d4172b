// The choices that come next, whose runs are made in a batch and counted.
ghost use Rattle.std.specs.Prelude.{◌≡◌, ◌≤◌, ◌<◌, ◌+◌, ◌++◌, ◌^◌, List, length, replicate, IfOk};
ghost use Rattle.std.specs.Prelude.{OnOk, Some, [], slice_get};
ghost use Rattle.policy_pick.specs.Kept.{points_plan, PointsStand};
ghost use Rattle.script_run.specs.Batches.{IsPlanOf};
ghost use Rattle.pct_ask.specs.declared.event.Row.{Row};
ghost use Rattle.failure_rank.specs.Growing.{IsTally};
ghost use Rattle.sweep.specs.Batches.{common_of_sweep, setup_of_sweep, IsRunOfChoice, HasCounted};
ghost use Rattle.sweep.specs.Batches.{HavePointAbove};
ghost use Rattle.sweep.specs.Batches.{IsRunOfNext, HasCountedNext, HasCountedLonger};

use crate::ahead::{choices_ahead, stands_for};
use crate::choice::choice_at;
use crate::common::{Reach, Sweep};
use crate::next::{Counts, NextRuns};
use failure_rank::Tally;
use pct_ask::{Event, Limit, Outcome, Row};
use pct_gate::Gate;
use policy_pick::{Pct, Priorities};
use script_run::{Batch, ReadyScript, run_batch};
use std::alloc::{AllocError as NoMemory, Global};
use std::sync::Wait;
use std::thread::Threads;
use worker_run::{Serving, count_steps, verdict_of};

/// Counts a row so many times.
fn add_copies(tally: &mut Tally, row: &Row, times: u32) -> Result<(), NoMemory>
    requires { (rows : List Row) × IsTally rows tally.old × (length rows + times < 2 ^ 32) }
    ensures { (rows : List Row) → IsTally rows tally.old
        → OnOk result (IsTally (rows ++ replicate times row.now) tally.new) }
{
    for _copy in 0..times {
        tally.add(row)?;
    }
    Ok(())
}

/// Counts the run of the next choice, for all choices for which it stands.
fn count_run(
    sweep: &Sweep<'_>,
    tally: &mut Tally,
    reach: Reach,
    place: u32,
    events: &[Event],
    outcome: &Outcome,
) -> Result<Reach, NoMemory>
    requires ahead { reach.place ≤ place }
    requires place { place < sweep.now.choices }
    requires above { HavePointAbove (setup_of_sweep sweep.now) reach.longest reach.place place }
    requires run { IsRunOfChoice (setup_of_sweep sweep.now) place
        (record { events = events.now; outcome = outcome.now }) }
    requires before { HasCounted (setup_of_sweep sweep.now) reach tally.old }
    ensures place { IfOk result (λ now. now.place ≡ place + 1) }
    ensures longest { IfOk result (λ now. reach.longest ≤ now.longest) }
    ensures counted { IfOk result (λ now. HasCounted (setup_of_sweep sweep.now) now tally.new) }
{
    let steps = count_steps(events, sweep.limit);
    let row = Row {
        seed: u64::from(place),
        steps,
        verdict: verdict_of(outcome),
    };
    add_copies(tally, &row, stands_for(sweep, place, steps.max(1)))?;
    Ok(Reach {
        place: place + 1,
        longest: reach.longest.max(steps),
    })
}

impl Batch for NextRuns<'_> {
    type Policy = Pct;

    type Kept = Counts;

    type Answer = ();

    ghost size = { λ next. length next.ahead.now.places.items };

    ghost common = { λ next. common_of_sweep next.sweep.now };

    ghost is_run = { IsRunOfNext };

    ghost stands = { HasCountedNext };

    // a run is longer than all before it: behind that other choices come next
    ghost answers = { λ next counts answer. HasCountedLonger next counts };

    fn script(&self) -> ReadyScript<'_> {
        self.sweep.script
    }

    fn limit(&self) -> Limit {
        self.sweep.limit
    }

    fn policy(&self, alloc: Global, place: u32, spare: Option<Pct>) -> Result<Pct, NoMemory>
        requires place { place < length self.now.ahead.now.places.items }
        ensures stands { IfOk result (λ policy. PointsStand policy []) }
        ensures plan { IfOk result (λ policy. IsPlanOf (common_of_sweep self.now.sweep.now)
            (IsRunOfNext self.now place) (points_plan policy)) }
    {
        let sweep = self.sweep;
        let at = self.ahead.places[place as usize];
        let threads = sweep.script.deal.threads;
        let choice = choice_at(alloc, threads, sweep.steps, sweep.points, at)?;
        let (order, points) = (choice.order.as_slice(), choice.points.as_slice());
        Pct::of_priorities(alloc, &Priorities { order, points }, spare)
    }

    fn take(
        &self,
        _alloc: Global,
        counts: &mut Counts,
        place: u32,
        events: &[Event],
        outcome: &Outcome,
    ) -> Result<Option<()>, NoMemory> {
        let at = self.ahead.places[place as usize];
        counts.reach = count_run(
            self.sweep,
            &mut counts.tally,
            counts.reach,
            at,
            events,
            outcome,
        )?;
        if counts.reach.longest > self.before.longest {
            return Ok(Some(()));
        }
        Ok(None)
    }
}

/// Makes the runs of the next choices, at most so many, and counts them, up to one that is longer
/// than all before it: behind that other choices come next.
pub fn count_ahead<R: Threads + Wait + Sync, G: Gate>(
    rt: &R,
    alloc: Global,
    sweep: &Sweep<'_>,
    counts: &mut Counts,
    most: u32,
    serving: &mut Serving,
    gate: &G,
) -> Result<(), NoMemory>
    requires some { 1 ≤ most }
    requires within { counts.old.reach.place < sweep.now.choices }
    requires before { HasCounted (setup_of_sweep sweep.now) counts.old.reach counts.old.tally }
    ensures within { OnOk result (counts.new.reach.place ≤ sweep.now.choices) }
    ensures goes_on { OnOk result (counts.old.reach.place < counts.new.reach.place) }
    ensures counted { OnOk result
        (HasCounted (setup_of_sweep sweep.now) counts.new.reach counts.new.tally) }
{
    let before = counts.reach;
    let ahead = choices_ahead(alloc, sweep, before, most)?;
    let next = NextRuns {
        sweep,
        ahead: &ahead,
        before,
    };
    let count = ahead.places.len() as u32;
    let longer = run_batch(rt, alloc, &next, counts, 0, count, serving, gate)?;
    if longer.is_some() {
        return Ok(());
    }
    counts.reach.place = ahead.end;
    Ok(())
}
