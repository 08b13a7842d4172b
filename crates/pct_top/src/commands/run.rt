//! `run`: the trace of a script's run.

ghost use Rattle.std.specs.Prelude.{◌≡◌, IfOk, length};
ghost use Rattle.script_tree.specs.ScriptSeen.{plain_script};
ghost use Rattle.pct_top.specs.CommandOutput.{printed_of};
ghost use Rattle.pct_top.specs.commands.Run.{PrintsTrace};

use crate::command_output::CommandOutput;
use crate::playing::play;
use crate::run_plan::RunPlan;
use crate::test::ReadyTest;
use crate::traces::{is_passed, told_trace};
use pct_outside::Gate;
use std::alloc::{AllocError as NoMemory, Global};
use std::sync::Wait;
use std::thread::Threads;
use worker_run::Serve;

/// The trace of a test's run by this plan.
pub fn trace_of<R: Threads + Wait + Sync, G: Gate>(
    rt: &R,
    alloc: Global,
    test: &ReadyTest,
    plan: RunPlan,
    gate: &G,
) -> Result<CommandOutput, NoMemory>
    requires { length plan.order ≡ test.now.deal.threads }
    ensures { IfOk result (λ output. PrintsTrace (plain_script test.now.script) test.now.deal
        plan.order plan.points plan.limit (printed_of output)) }
{
    let run = play(rt, alloc, test, &plan, Serve::Threads, gate)?;
    let done = is_passed(&run.verdict);
    told_trace(alloc, &test.script, plan, &run, done)
}
