// Moments without those that a verdict doesn't need.
ghost use Rattle.std.specs.Prelude.{◌≡◌, ◌≤◌, ◌<◌, length, IfOk, IfSome, None};
ghost use Rattle.kit_directives.specs.Directed.{LeadsTo};
ghost use Rattle.kit_directives.specs.Finding.{HasOther, Leaves, IsReduced};
ghost use Rattle.pct_ask.specs.declared.limits.TheConstants.{MAX_POINTS};

use crate::directed::run_by_moments;
use crate::trial::Trial;
use choices::without_moment;
use kit_runs::{Program, RunError};
use pct_ask::Verdict;
use policy_pick::{Moment, MomentList};
use std::alloc::Global;
use std::sync::Wait;
use std::thread::Threads;

/// Moments, and the number of steps of their run.
#[derive(Debug, Drop)]
pub struct ShortMoments {
    pub moments: MomentList,
    pub steps: u32,
}

/// The number of steps of the moments' run, where it has the verdict.
pub fn steps_to<R: Threads + Wait + Sync, T: Program + Sync>(
    rt: &R,
    alloc: Global,
    trial: &Trial<'_>,
    moments: &[Moment],
    verdict: &Verdict,
    program: &T,
) -> Result<Option<u32>, RunError>
    requires few_moments { length moments.now ≤ MAX_POINTS }
    requires fits { T.fits program.now trial.now.deal.now }
    ensures leads { IfOk result (λ steps. IfSome steps (λ steps.
        LeadsTo trial.now.deal.now trial.now.order.now trial.now.limit
        verdict.now moments.now steps)) }
    ensures other { IfOk result (λ steps. steps ≡ None
        → HasOther trial.now.deal.now trial.now.order.now trial.now.limit
        verdict.now moments.now) }
{
    let file = run_by_moments(rt, alloc, trial, moments, program)?;
    if file.verdict.is(verdict) {
        return Ok(Some(file.events.len() as u32));
    }
    Ok(None)
}

/// Leaves out the first moment without which the run still has the verdict. `None` where each is
/// needed.
fn leave_out<R: Threads + Wait + Sync, T: Program + Sync>(
    rt: &R,
    alloc: Global,
    trial: &Trial<'_>,
    moments: &[Moment],
    verdict: &Verdict,
    program: &T,
) -> Result<Option<ShortMoments>, RunError>
    requires few_moments { length moments.now ≤ MAX_POINTS }
    requires fits { T.fits program.now trial.now.deal.now }
    ensures leaves { IfOk result
        (Leaves trial.now.deal.now trial.now.order.now trial.now.limit verdict.now moments.now) }
    ensures fewer { IfOk result (λ left.
        IfSome left (λ short. length short.moments < length moments.now)) }
{
    for place in 0..moments.len() {
        let rest = without_moment(alloc, moments, place)?;
        let led = steps_to(rt, alloc, trial, rest.as_slice(), verdict, program)?;
        if let Some(steps) = led {
            return Ok(Some(ShortMoments {
                moments: rest,
                steps,
            }));
        }
    }
    Ok(None)
}

/// Leaves out single moments, each time the first that the verdict doesn't need, until each is
/// needed.
pub fn reduce<R: Threads + Wait + Sync, T: Program + Sync>(
    rt: &R,
    alloc: Global,
    trial: &Trial<'_>,
    whole: ShortMoments,
    verdict: &Verdict,
    program: &T,
) -> Result<ShortMoments, RunError>
    requires few_moments { length whole.moments ≤ MAX_POINTS }
    requires fits { T.fits program.now trial.now.deal.now }
    requires leads { LeadsTo trial.now.deal.now trial.now.order.now trial.now.limit
        verdict.now whole.moments whole.steps }
    ensures { IfOk result
        (IsReduced trial.now.deal.now trial.now.order.now trial.now.limit
        verdict.now whole.moments) }
{
    let mut short = whole;
    'rounds: while let Some(shorter) = leave_out(
        rt,
        alloc,
        trial,
        short.moments.as_slice(),
        verdict,
        program,
    )? {
        short = shorter;
    }
    Ok(short)
}
