// A short directive from a failing run.
ghost use Rattle.std.specs.Prelude.{◌≡◌, ◌≢◌, ◌≤◌, ◌<◌, ◌^◌, length, IfOk, All};
ghost use Rattle.pct_ask.specs.declared.verdict.Verdict.TheVariants.{Passed};
ghost use Rattle.turn_book.specs.Posts.{schedule_of};
ghost use Rattle.choices.specs.Moments.{moments_of};
ghost use Rattle.choices.specs.Orders.{EndsIn};
ghost use Rattle.kit_runs.specs.Runs.{IsFileOf};
ghost use Rattle.kit_directives.specs.Directed.{LeadsTo};
ghost use Rattle.kit_directives.specs.Finding.{Finds};
ghost use Rattle.pct_ask.specs.declared.limits.TheConstants.{MAX_POINTS, MAX_STEPS};

use crate::reducing::{ShortMoments, reduce, steps_to};
use crate::trial::Trial;
use choices::moments_of;
use directive::Directive;
use kit_runs::{Program, RunError, run_program};
use pct_ask::{Deal, Verdict};
use std::alloc::Global;
use std::sync::Wait;
use std::thread::Threads;
use trace_text::{Header, TraceFile};

/// What a run comes to.
#[derive(Debug, Drop)]
pub enum Finding {
    /// The directive leads to the run's verdict under its order, each of its moments is needed, and
    /// its run has this number of steps.
    Fails { directive: Directive, steps: u32 },
    /// The run passes, after this number of steps.
    Passes { steps: u32 },
}

/// The last thread of an order.
fn last_of(order: &[u32]) -> Result<u32, RunError>
    ensures { IfOk result (EndsIn order.now) }
{
    match order.last().copied() {
        Some(low) => Ok(low),
        None => Err(RunError::NotAnOrder),
    }
}

/// The moments of a run's points, where the run by them has its verdict.
fn whole_moments<R: Threads + Wait + Sync, T: Program + Sync>(
    rt: &R,
    alloc: Global,
    trial: &Trial<'_>,
    points: &[u32],
    made: &TraceFile,
    program: &T,
) -> Result<ShortMoments, RunError>
    requires few_points { length points.now ≤ MAX_POINTS }
    requires points { All (λ point. 1 ≤ point) points.now }
    requires fits { T.fits program.now trial.now.deal.now }
    ensures moments { IfOk result (λ whole. whole.moments
        ≡ moments_of (schedule_of made.now.events) points.now) }
    ensures few { IfOk result (λ whole. length whole.moments ≤ MAX_POINTS) }
    ensures leads { IfOk result (λ whole. LeadsTo trial.now.deal.now trial.now.order.now
        trial.now.limit made.now.verdict whole.moments whole.steps) }
{
    let moments = moments_of(alloc, made.events.as_slice(), points)?;
    let all = moments.as_slice();
    let verdict = &made.verdict;
    match steps_to(rt, alloc, trial, all, verdict, program)? {
        Some(steps) => Ok(ShortMoments { moments, steps }),
        None => Err(RunError::Unsteady),
    }
}

/// What a run, which didn't pass, comes to.
fn shorten<R: Threads + Wait + Sync, T: Program + Sync>(
    rt: &R,
    alloc: Global,
    trial: &Trial<'_>,
    points: &[u32],
    made: &TraceFile,
    program: &T,
) -> Result<Finding, RunError>
    requires few_points { length points.now ≤ MAX_POINTS }
    requires points { All (λ point. 1 ≤ point) points.now }
    requires fits { T.fits program.now trial.now.deal.now }
    requires run { IsFileOf trial.now.deal.now trial.now.order.now points.now
        trial.now.limit made.now }
    requires fails { made.now.verdict ≢ Passed }
    ensures { IfOk result
        (Finds trial.now.deal.now trial.now.order.now points.now trial.now.limit) }
{
    let low = last_of(trial.order)?;
    let whole = whole_moments(rt, alloc, trial, points, made, program)?;
    let short = reduce(rt, alloc, trial, whole, &made.verdict, program)?;
    Ok(Finding::Fails {
        directive: Directive {
            low,
            events: short.moments,
            verdict: made.verdict,
        },
        steps: short.steps,
    })
}

/// What the run by an order, points and a limit comes to.
fn find_of<R: Threads + Wait + Sync, T: Program + Sync>(
    rt: &R,
    alloc: Global,
    trial: &Trial<'_>,
    points: &[u32],
    program: &T,
) -> Result<Finding, RunError>
    requires few_points { length points.now ≤ MAX_POINTS }
    requires points { All (λ point. 1 ≤ point) points.now }
    requires fits { T.fits program.now trial.now.deal.now }
    ensures { IfOk result
        (Finds trial.now.deal.now trial.now.order.now points.now trial.now.limit) }
{
    let own = trial.deal.copy(alloc)?;
    let made = run_program(rt, alloc, own, trial.order, points, trial.limit, program)?;
    if made.verdict.is(&Verdict::Passed) {
        let steps = made.events.len() as u32;
        return Ok(Finding::Passes { steps });
    }
    let found = shorten(rt, alloc, trial, points, &made, program);
    drop(made);
    found
}

/// Runs a program by the order, the points and the limit of a trace. Where the run doesn't pass,
/// finds few moments by which the order has the same verdict.
pub fn find<R: Threads + Wait + Sync, T: Program + Sync>(
    rt: &R,
    alloc: Global,
    deal: &Deal,
    header: &Header,
    program: &T,
) -> Result<Finding, RunError>
    requires some_steps { 1 ≤ header.now.limit }
    requires few_steps { header.now.limit ≤ MAX_STEPS }
    requires few_points { length header.now.points ≤ MAX_POINTS }
    requires points { All (λ point. 1 ≤ point) header.now.points }
    requires few_names { length header.now.order < 2 ^ 32 }
    requires fits { T.fits program.now deal.now }
    ensures { IfOk result
        (Finds deal.now header.now.order header.now.points header.now.limit) }
{
    let order = header.order.as_slice();
    let points = header.points.as_slice();
    let limit = header.limit;
    let trial = Trial { deal, order, limit };
    find_of(rt, alloc, &trial, points, program)
}
