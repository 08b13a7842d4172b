//! `find`: from a script's failing run to a short directive.

ghost use Rattle.std.specs.Prelude.{◌≡◌, ◌≤◌, ◌<◌, length, IfOk};
ghost use Rattle.script_tree.specs.ScriptSeen.{plain_script};
ghost use Rattle.pct_top.specs.CommandOutput.{printed_of};
ghost use Rattle.pct_top.specs.commands.Find.{last_of, found_text, IsWellFormed};
ghost use Rattle.pct_top.specs.commands.Find.{is_pass as passes_by, PrintsFound};
ghost use Rattle.pct_top.specs.commands.KnownFinding.{IsKnownFinding};

use crate::command_output::CommandOutput;
use crate::lines::push_count;
use crate::run_plan::RunPlan;
use crate::test::ReadyTest;
use directive::{Directive, write_directive};
use directive_find::{FoundOut, find};
use pct_ask::Names;
use pct_outside::Gate;
use std::alloc::{AllocError as NoMemory, Global};
use std::sync::Wait;
use std::thread::Threads;

fn passes(found: &FoundOut) -> bool
    ensures { result ≡ passes_by found.now }
{
    matches!(found, FoundOut::Passes { .. })
}

/// The directive of what was found, with this thread as the lowest, or how many steps the run has
/// that passes.
fn write_found(
    alloc: Global,
    names: &Names,
    order: &[u32],
    found: FoundOut,
) -> Result<Vec<u8>, NoMemory>
    requires some { 1 ≤ length order.now }
    requires low { last_of order.now < length names.now.threads }
    requires known { IsKnownFinding names.now found }
    ensures text { IfOk result (λ text. text.items ≡ found_text names.now order.now found) }
    ensures form { IfOk result (λ text. IsWellFormed names.now order.now found) }
{
    match found {
        FoundOut::Events {
            events,
            verdict,
            ..
        } => {
            let low = order[order.len() - 1];
            let directive = Directive {
                low,
                events,
                verdict,
            };
            write_directive(alloc, &directive, names)
        }
        FoundOut::Passes { steps } => {
            let mut text = Vec::new(alloc);
            push_count(&mut text, "passes", steps)?;
            Ok(text)
        }
    }
}

/// The short directive of a test's run by this plan.
pub fn directive_of<R: Threads + Wait + Sync, G: Gate>(
    rt: &R,
    alloc: Global,
    test: &ReadyTest,
    plan: RunPlan,
    gate: &G,
) -> Result<CommandOutput, NoMemory>
    requires { length plan.order ≡ test.now.deal.threads }
    ensures { IfOk result (λ output. PrintsFound (plain_script test.now.script) test.now.deal
        plan.order plan.points plan.limit (printed_of output)) }
{
    let order = plan.order.as_slice();
    let points = plan.points.as_slice();
    let found = find(
        rt,
        alloc,
        &test.code,
        &test.deal,
        order,
        points,
        plan.limit.steps(),
        gate,
    )?;
    let done = passes(&found);
    let text = write_found(alloc, test.script.names(), order, found)?;
    Ok(CommandOutput { text, done })
}
