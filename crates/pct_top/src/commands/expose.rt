//! `expose`: the run that a directive exposes under an order.

ghost use Rattle.std.specs.Prelude.{◌≡◌, length, IfOk, Some, take};
ghost use Rattle.directive_run.specs.Exposing.{Exposes};
ghost use Rattle.script_body.specs.Bodies.{bodies_of};
ghost use Rattle.script_tree.specs.ScriptSeen.{plain_script};
ghost use Rattle.pct_ask.specs.Limits.{IsStepCount};
ghost use Rattle.pct_top.specs.Ordered.{OrderFits};
ghost use Rattle.pct_top.specs.Printed.{directive_bytes};
ghost use Rattle.pct_top.specs.Files.{Misses};
ghost use Rattle.pct_top.specs.Reads.{KeepsSecond, is_missed};
ghost use Rattle.pct_top.specs.CommandOutput.{printed_of, Comes};
ghost use Rattle.pct_top.specs.commands.Expose.{long_text, TellsExposed, PrintsExposed, OfExpose};

use crate::command_output::CommandOutput;
use crate::files::read_directed;
use crate::lines::push_count;
use crate::order::order_given;
use crate::refusal::Refusal;
use crate::run_plan::RunPlan;
use crate::test::ReadyTest;
use crate::text::{Text, TextList};
use crate::traces::told_trace;
use directive::Directive;
use directive_run::{Exposed, expose};
use pct_ask::{Limit, PointList};
use pct_outside::{Gate, Shelf};
use std::alloc::{AllocError as NoMemory, Global};
use std::sync::Wait;
use std::thread::Threads;

/// How many steps the run has, where there are more than there may be.
fn write_long(alloc: Global, steps: u32) -> Result<Vec<u8>, NoMemory>
    ensures { IfOk result (λ text. text.items ≡ long_text steps) }
{
    let mut text = Vec::new(alloc);
    push_count(&mut text, "toolong", steps)?;
    Ok(text)
}

/// The run of a script that the directive of a file exposes under the order that names give, which
/// stand in the word of this number. It has at most `limit` steps, and points stand for the
/// directive's moments where it has at most `steps`.
#[derive(Debug, Drop)]
pub struct ExposeJob {
    pub directive: Text,
    pub order: TextList,
    pub word: u32,
    pub steps: u32,
    pub limit: Limit,
    ghost steps_fit: { IsStepCount steps },
}

impl ExposeJob {
    /// What is written of what was exposed under the order of this plan.
    fn told_exposed(
        &self,
        alloc: Global,
        test: &ReadyTest,
        plan: RunPlan,
        directive: &Directive,
        exposed: Exposed,
    ) -> Result<CommandOutput, NoMemory>
        requires whole { length plan.order ≡ test.now.deal.threads }
        requires exposed { Exposes test.now.deal (bodies_of (plain_script test.now.script))
            plan.order directive.now.events self.now.steps plan.limit exposed }
        ensures { IfOk result
            (λ output. TellsExposed (plain_script test.now.script) test.now.deal plan.order
            plan.limit directive.now.verdict exposed (printed_of output)) }
    {
        match exposed {
            Exposed::Points { points, played } => {
                let run = played.into_whole();
                let done = run.verdict == directive.verdict;
                let RunPlan {
                    order,
                    points: _,
                    limit,
                } = plan;
                let plan = RunPlan {
                    order,
                    points,
                    limit,
                };
                told_trace(alloc, &test.script, plan, &run, done)
            }
            Exposed::TooLong { steps } => Ok(CommandOutput {
                text: write_long(alloc, steps)?,
                done: false,
            }),
        }
    }

    /// What a directive exposes over a test, under the order of this plan.
    fn exposed_by<R: Threads + Wait + Sync, G: Gate>(
        &self,
        rt: &R,
        alloc: Global,
        test: &ReadyTest,
        plan: RunPlan,
        directive: &Directive,
        gate: &G,
    ) -> Result<CommandOutput, NoMemory>
        requires { length plan.order ≡ test.now.deal.threads }
        ensures { IfOk result
            (λ output. PrintsExposed (plain_script test.now.script) test.now.deal plan.order
            self.now.steps plan.limit directive.now (printed_of output)) }
    {
        let exposed = expose(
            rt,
            alloc,
            &test.code,
            &test.deal,
            plan.order.as_slice(),
            directive,
            self.steps,
            plan.limit.steps(),
            gate,
        )?;
        self.told_exposed(alloc, test, plan, directive, exposed)
    }

    pub fn expose_file<R: Threads + Wait + Sync, H: Shelf, G: Gate>(
        &self,
        rt: &R,
        alloc: Global,
        test: &ReadyTest,
        directive: &str,
        shelf: &mut H,
        gate: &G,
    ) -> Result<CommandOutput, Refusal>
        ensures comes { Comes
            (λ files. OfExpose (take directive_bytes (files directive.now)) self.now.order
            self.now.word self.now.steps self.now.limit (plain_script test.now.script)
            test.now.deal)
            (H.told shelf.old).files
            (Misses (Some directive.now) (H.told shelf.old).failed (H.told shelf.new).failed
            × OrderFits (plain_script test.now.script).names (Some self.now.order)) result }
        ensures keeps { KeepsSecond (Some directive.now)
            (OrderFits (plain_script test.now.script).names (Some self.now.order))
            (is_missed result) (H.told shelf.old) (H.told shelf.new) }
        ensures files { (H.told shelf.new).files ≡ (H.told shelf.old).files }
    {
        let names = test.script.names();
        let order = match order_given(alloc, names, self.order.as_slice(), self.word) {
            Ok(order) => order,
            Err(refusal) => return Err(refusal),
        };
        match read_directed(alloc, directive, names, shelf) {
            Err(refusal) => Err(refusal),
            Ok(directive) => {
                let plan = RunPlan {
                    order,
                    points: PointList::new(alloc),
                    limit: self.limit,
                };
                Ok(self.exposed_by(rt, alloc, test, plan, &directive, gate)?)
            }
        }
    }
}
