//! Runs of a script.

ghost use Rattle.std.specs.Prelude.{◌≡◌, ◌≤◌, Some, IfOk, length};
ghost use Rattle.script_tree.specs.ScriptSeen.{plain_script};
ghost use Rattle.trace_text.specs.Lawful.{IsKnownRun};
ghost use Rattle.pct_top.specs.Runs.{run_of, trace_version};
ghost use Rattle.pct_ask.specs.declared.limits.TheConstants.{MAX_STEPS};

use crate::run_plan::RunPlan;
use crate::test::ReadyTest;
use pct_outside::Gate;
use policy_pick::Priorities;
use script_run::ReadyScript;
use std::alloc::{AllocError as NoMemory, Global};
use std::sync::Wait;
use std::thread::Threads;
use worker_run::{Serve, WholeRun};

/// The run of a test by a plan, whose bodies are served by threads or by the caller.
pub fn play<R: Threads + Wait + Sync, G: Gate>(
    rt: &R,
    alloc: Global,
    test: &ReadyTest,
    plan: &RunPlan,
    serve: Serve,
    gate: &G,
) -> Result<WholeRun, NoMemory>
    requires { length plan.now.order ≡ test.now.deal.threads }
    ensures run { IfOk result (λ run.
        run_of (plain_script test.now.script) test.now.deal plan.now.order plan.now.points
        plan.now.limit ≡ Some (run.events, run.verdict)) }
    ensures known { IfOk result (λ run.
        IsKnownRun test.now.script.names (trace_version (plain_script test.now.script))
        plan.now.limit run.events run.verdict) }
    ensures short { IfOk result (λ run. length run.events ≤ MAX_STEPS) }
{
    let ready = ReadyScript {
        code: &test.code,
        deal: &test.deal,
    };
    let order = plan.order.as_slice();
    let points = plan.points.as_slice();
    let limit = plan.limit;
    let _most = limit.steps(); // so many steps at most
    ready.run_by_points(rt, alloc, &Priorities { order, points }, limit, serve, gate)
}
