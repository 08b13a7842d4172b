// Runs by moments.
ghost use Rattle.std.specs.Prelude.{◌≡◌, ◌<◌, ◌≤◌, ◌^◌, length, IfOk, IfSome};
ghost use Rattle.kit_directives.specs.Directed.{IsDirectedFile};
ghost use Rattle.pct_ask.specs.declared.limits.TheConstants.{MAX_POINTS, MAX_STEPS};

use crate::trial::Trial;
use choices::points_of;
use kit_runs::{Program, RunError, run_program};
use pct_ask::Deal;
use policy_pick::Moment;
use std::alloc::{AllocError as NoMemory, Global};
use std::sync::Wait;
use std::thread::Threads;
use trace_text::TraceFile;

/// As many points as there are moments, of none of which the step is known.
fn unknown_points(alloc: Global, many: usize, limit: u32) -> Result<Vec<u32>, NoMemory>
    ensures { IfOk result (λ points. length points.items ≡ many) }
{
    let mut points = Vec::new(alloc);
    for _place in 0..many {
        points.push(limit)?;
    }
    Ok(points)
}

/// The place and the step of the first moment that comes of those whose step isn't known.
fn first_unknown(points: &[u32], found: &[u32], limit: u32) -> Option<(usize, u32)>
    ensures { IfSome result (λ first. first.0 < length points.now) }
{
    let mut first = None;
    let mut least = limit;
    for place in 0..points.len() {
        let step = found.get(place).copied().unwrap_or(limit);
        if points[place] == limit && step < least {
            least = step;
            first = Some((place, step));
        }
    }
    first
}

/// The points, with that of the next moment that comes. It is told where nothing more comes.
fn learn(points: &mut [u32], found: &[u32], limit: u32) -> bool
    ensures { length points.new ≡ length points.old }
{
    match first_unknown(points, found, limit) {
        Some((place, step)) => {
            points[place] = step;
            true
        }
        None => false,
    }
}

/// The run by points, where these are the points of the moments in that run.
fn run_round<R: Threads + Wait + Sync, T: Program + Sync>(
    rt: &R,
    alloc: Global,
    trial: &Trial<'_>,
    moments: &[Moment],
    points: &mut [u32],
    program: &T,
) -> Result<Option<TraceFile>, RunError>
    requires few_points { length points.old ≤ MAX_POINTS }
    requires fits { T.fits program.now trial.now.deal.now }
    ensures long { length points.new ≡ length points.old }
    ensures run { IfOk result (λ made. IfSome made (λ file.
        IsDirectedFile trial.now.deal.now trial.now.order.now moments.now trial.now.limit file)) }
    ensures short { IfOk result (λ made. IfSome made (λ file.
        length file.events ≤ trial.now.limit)) }
{
    let own = trial.deal.copy(alloc)?;
    let file = run_program(rt, alloc, own, trial.order, points, trial.limit, program)?;
    let found = points_of(alloc, file.events.as_slice(), trial.limit, moments)?;
    if found.as_slice() == points {
        return Ok(Some(file));
    }
    if !learn(points, found.as_slice(), trial.limit) {
        return Err(RunError::Unsteady);
    }
    Ok(None)
}

/// The run by moments: that of the points which stand for them in it. These are found one after
/// another, by at most one run more than there are moments.
pub fn run_by_moments<R: Threads + Wait + Sync, T: Program + Sync>(
    rt: &R,
    alloc: Global,
    trial: &Trial<'_>,
    moments: &[Moment],
    program: &T,
) -> Result<TraceFile, RunError>
    requires few_moments { length moments.now ≤ MAX_POINTS }
    requires fits { T.fits program.now trial.now.deal.now }
    ensures run { IfOk result (λ file.
        IsDirectedFile trial.now.deal.now trial.now.order.now moments.now trial.now.limit file) }
    ensures short { IfOk result (λ file. length file.events ≤ trial.now.limit) }
{
    let mut points = unknown_points(alloc, moments.len(), trial.limit)?;
    for _round in 0..moments.len() + 1 {
        let made = run_round(rt, alloc, trial, moments, &mut points, program)?;
        if let Some(file) = made {
            return Ok(file);
        }
    }
    Err(RunError::Unsteady)
}

/// Runs a program by an order of its threads and moments: a thread is lowered after its own step of
/// a number, from 1. The run is that of the points which stand for the moments in it; these are
/// found one after another, by at most one run more than there are moments.
pub fn run_directed<R: Threads + Wait + Sync, T: Program + Sync>(
    rt: &R,
    alloc: Global,
    deal: &Deal,
    order: &[u32],
    moments: &[Moment],
    limit: u32,
    program: &T,
) -> Result<TraceFile, RunError>
    requires some_steps { 1 ≤ limit }
    requires few_steps { limit ≤ MAX_STEPS }
    requires few_moments { length moments.now ≤ MAX_POINTS }
    requires few_names { length order.now < 2 ^ 32 }
    requires fits { T.fits program.now deal.now }
    ensures run { IfOk result (λ file.
        IsDirectedFile deal.now order.now moments.now limit file) }
    ensures short { IfOk result (λ file. length file.events ≤ limit) }
{
    let trial = Trial { deal, order, limit };
    run_by_moments(rt, alloc, &trial, moments, program)
}
