// What the run of an order says of a directive.
ghost use Rattle.std.specs.Prelude.{◌≡◌, ◌≤◌, ◌<◌, ◌-◌, ℕ, length, IfOk};
ghost use Rattle.pct_ask.specs.declared.deal.Deal.{Deal};
ghost use Rattle.choices.specs.Orders.{factorial};
ghost use Rattle.kit_directives.specs.Directed.{IsDirectedFile};
ghost use Rattle.kit_directives.specs.Certified.{Judges, JudgesAt};
ghost use Rattle.pct_ask.specs.declared.limits.TheConstants.{MAX_CERTIFIED_THREADS, MAX_STEPS};

use crate::directed::run_directed;
use choices::{low_order_at, points_of};
use directive::Directive;
use directive_run::{Certified, CertifyRow};
use kit_runs::{Program, RunError};
use pct_ask::{Deal, OrderList};
use std::alloc::{AllocError as NoMemory, Global};
use std::sync::Wait;
use std::thread::Threads;
use trace_text::TraceFile;

/// What one order leads to.
#[derive(Debug, Drop)]
pub enum Judged {
    /// To the verdict, with this row.
    Led(CertifyRow),
    /// To something else, which is the answer.
    Other(Certified),
}

/// What an order leads to, by its run.
fn judge(
    alloc: Global,
    directive: &Directive,
    steps: u32,
    order: OrderList,
    file: &TraceFile,
) -> Result<Judged, NoMemory>
    requires few { length file.now.events ≤ MAX_STEPS }
    ensures { (deal : Deal) (limit : ℕ)
        → IsDirectedFile deal order directive.now.events limit file.now
        → IfOk result (Judges deal directive.now steps limit order) }
{
    let many = file.events.len() as u32;
    if many > steps {
        return Ok(Judged::Other(Certified::TooLong { order, steps: many }));
    }
    let verdict = file.verdict;
    if !verdict.is(&directive.verdict) {
        return Ok(Judged::Other(Certified::Refuted { order, verdict }));
    }
    let moments = directive.events.as_slice();
    let points = points_of(alloc, file.events.as_slice(), steps, moments)?;
    Ok(Judged::Led(CertifyRow { order, points }))
}

/// What the order at a place leads to, of those that place the directive's thread last.
pub fn judge_place<R: Threads + Wait + Sync, T: Program + Sync>(
    rt: &R,
    alloc: Global,
    deal: &Deal,
    directive: &Directive,
    steps: u32,
    limit: u32,
    place: u32,
    program: &T,
) -> Result<Judged, RunError>
    requires few_threads { deal.now.threads ≤ MAX_CERTIFIED_THREADS }
    requires low { directive.now.low < deal.now.threads }
    requires some_limit { 1 ≤ limit }
    requires small_limit { limit ≤ MAX_STEPS }
    requires place { place < factorial (deal.now.threads - 1) }
    requires fits { T.fits program.now deal.now }
    ensures { IfOk result (JudgesAt deal.now directive.now steps limit place) }
{
    let order = low_order_at(alloc, deal.threads, directive.low, place)?;
    let moments = directive.events.as_slice();
    let file = run_directed(rt, alloc, deal, order.as_slice(), moments, limit, program)?;
    Ok(judge(alloc, directive, steps, order, &file)?)
}
