//! The trace of a run.

ghost use Rattle.std.specs.Prelude.{◌≡◌, length, IfOk};
ghost use Rattle.script_tree.specs.ScriptSeen.{plain_script};
ghost use Rattle.trace_text.specs.Lawful.{IsKnownRun};
ghost use Rattle.pct_top.specs.Runs.{trace_version as version_by, is_passed as is_passed_by};
ghost use Rattle.pct_top.specs.Runs.{TellsRun};
ghost use Rattle.pct_top.specs.CommandOutput.{printed_of};

use crate::command_output::CommandOutput;
use crate::run_plan::RunPlan;
use pct_ask::Verdict;
use script_tree::Script;
use std::alloc::{AllocError as NoMemory, Global};
use trace_text::{Header, write_trace};
use worker_run::WholeRun;

/// Whether a run passes.
pub fn is_passed(verdict: &Verdict) -> bool
    ensures { result ≡ is_passed_by verdict.now }
{
    matches!(verdict, Verdict::Passed)
}

/// The version of a script's traces.
fn trace_version(script: &Script) -> u32
    ensures { result ≡ version_by (plain_script script.now) }
{
    if script.version >= 3 { 2 } else { 1 }
}

/// The trace of a run.
pub fn told_trace(
    alloc: Global,
    script: &Script,
    plan: RunPlan,
    run: &WholeRun,
    done: bool,
) -> Result<CommandOutput, NoMemory>
    requires whole { length plan.order ≡ length script.now.names.threads }
    requires known { IsKnownRun script.now.names (version_by (plain_script script.now)) plan.limit
        run.now.events run.now.verdict }
    ensures { IfOk result (λ output.
        TellsRun (plain_script script.now) plan.order plan.points plan.limit
        (run.now.events, run.now.verdict) done (printed_of output)) }
{
    let header = Header {
        version: trace_version(script),
        order: plan.order,
        points: plan.points,
        limit: plan.limit.steps(),
    };
    let text = write_trace(
        alloc,
        &header,
        script.names(),
        run.events.as_slice(),
        &run.verdict,
    )?;
    Ok(CommandOutput { text, done })
}
