//! Whether every order that places a directive's thread last leads to its verdict.

ghost use Rattle.std.specs.Prelude.{◌≤◌, ◌<◌, IfOk};
ghost use Rattle.script_tree.specs.ScriptText.{ScriptText};
ghost use Rattle.script_code.specs.Listing.{listing};
ghost use Rattle.script_body.specs.Bodies.{bodies_of, AreOf};
ghost use Rattle.directive_run.specs.Certifying.{Certifies};
ghost use Rattle.pct_ask.specs.declared.limits.TheConstants.{MAX_STEPS};

use crate::answers::{Certified, CertifyRows};
use crate::claim::Claim;
use choices::{bound_of, order_count};
use directive::Directive;
use pct_ask::{Deal, Limit, MAX_CERTIFIED_THREADS};
use pct_gate::Gate;
use script_code::Code;
use script_run::{ReadyScript, run_batches};
use std::alloc::{AllocError as NoMemory, Global};
use std::sync::Wait;
use std::thread::Threads;
use worker_run::Serve;

/// As `certify`, with bodies that are served by threads or by the caller. Where a thread couldn't
/// be started, or there was no memory for threads, the caller serves the rest.
pub fn certify_by<R: Threads + Wait + Sync, G: Gate>(
    rt: &R,
    alloc: Global,
    code: &Code,
    deal: &Deal,
    directive: &Directive,
    steps: Limit,
    limit: Limit,
    serve: Serve,
    gate: &G,
) -> Result<Certified, NoMemory>
    requires script { (script : ScriptText) × AreOf script (listing code.now) deal.now }
    requires low { directive.now.low < deal.now.threads }
    ensures { (script : ScriptText) → AreOf script (listing code.now) deal.now
        → IfOk result (Certifies deal.now (bodies_of script) directive.now steps limit) }
{
    let threads = deal.threads;
    if threads > MAX_CERTIFIED_THREADS {
        return Ok(Certified::TooManyThreads { threads });
    }
    let claim = Claim {
        script: ReadyScript { code, deal },
        directive,
        steps,
        limit,
    };
    let mut rows = CertifyRows::new(alloc);
    let total = order_count(threads - 1);
    if let Some(certified) = run_batches(rt, alloc, &claim, &mut rows, total, 1, serve, gate)? {
        return Ok(certified);
    }
    let bound = bound_of(threads, steps.steps(), directive.events.len());
    Ok(Certified::Yes { bound, rows })
}

/// Runs a script under each order that places a directive's thread last, and tells whether each
/// leads to the directive's verdict within `steps` steps. Runs are made at once in batches, of one
/// order first and then of twice as many each time.
pub fn certify<R: Threads + Wait + Sync, G: Gate>(
    rt: &R,
    alloc: Global,
    code: &Code,
    deal: &Deal,
    directive: &Directive,
    steps: u32,
    limit: u32,
    gate: &G,
) -> Result<Certified, NoMemory>
    requires script { (script : ScriptText) × AreOf script (listing code.now) deal.now }
    requires low { directive.now.low < deal.now.threads }
    requires some_steps { 1 ≤ steps }
    requires few_steps { steps ≤ MAX_STEPS }
    requires some_limit { 1 ≤ limit }
    requires small_limit { limit ≤ MAX_STEPS }
    ensures { (script : ScriptText) → AreOf script (listing code.now) deal.now
        → IfOk result (Certifies deal.now (bodies_of script) directive.now steps limit) }
{
    let steps = Limit::new(steps);
    let limit = Limit::new(limit);
    let serve = Serve::Threads;
    certify_by(rt, alloc, code, deal, directive, steps, limit, serve, gate)
}
