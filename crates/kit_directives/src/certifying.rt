// Whether every order that places a directive's thread last leads to its verdict.
ghost use Rattle.std.specs.Prelude.{◌≤◌, ◌<◌, IfOk};
ghost use Rattle.kit_directives.specs.Certified.{Certifies};
ghost use Rattle.pct_ask.specs.declared.limits.TheConstants.{MAX_STEPS};

use crate::judging::{Judged, judge_place};
use choices::{bound_of, order_count};
use directive::Directive;
use directive_run::{Certified, CertifyRows};
use kit_runs::{Program, RunError};
use pct_ask::{Deal, MAX_CERTIFIED_THREADS};
use std::alloc::Global;
use std::sync::Wait;
use std::thread::Threads;

/// Runs a program under each order that places a directive's thread last, one after another, and
/// tells whether each leads to the directive's verdict within `steps` steps.
pub fn certify<R: Threads + Wait + Sync, T: Program + Sync>(
    rt: &R,
    alloc: Global,
    deal: &Deal,
    directive: &Directive,
    steps: u32,
    limit: u32,
    program: &T,
) -> Result<Certified, RunError>
    requires low { directive.now.low < deal.now.threads }
    requires few_steps { steps ≤ MAX_STEPS }
    requires some_limit { 1 ≤ limit }
    requires small_limit { limit ≤ MAX_STEPS }
    requires fits { T.fits program.now deal.now }
    ensures { IfOk result (Certifies deal.now directive.now steps limit) }
{
    let threads = deal.threads;
    if threads > MAX_CERTIFIED_THREADS {
        return Ok(Certified::TooManyThreads { threads });
    }
    let mut rows = CertifyRows::new(alloc);
    for place in 0..order_count(threads - 1) {
        match judge_place(rt, alloc, deal, directive, steps, limit, place, program)? {
            Judged::Led(row) => rows.try_push(row)?,
            Judged::Other(answer) => return Ok(answer),
        }
    }
    let bound = bound_of(threads, steps, directive.events.len());
    Ok(Certified::Yes { bound, rows })
}
