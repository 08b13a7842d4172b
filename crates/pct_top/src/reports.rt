//! What is reported of a run: the commands that take the words of a run.

ghost use Rattle.std.specs.Prelude.{◌≡◌, IfOk, length};
ghost use Rattle.script_tree.specs.ScriptSeen.{plain_script};
ghost use Rattle.pct_top.specs.Settings.{AreChangePoints};
ghost use Rattle.pct_top.specs.CommandOutput.{printed_of, GivesPrinted};
ghost use Rattle.pct_top.specs.Reports.{OfReport, OfOrdered, OfSeed};

use crate::command_output::CommandOutput;
use crate::commands::{find, locks, races, run};
use crate::order::order_given;
use crate::refusal::Refusal;
use crate::run_plan::{RunPlan, drawn, steps_of};
use crate::settings::Report;
use crate::test::ReadyTest;
use crate::text::TextList;
use pct_ask::{Depth, Limit, PointList};
use pct_outside::Gate;
use std::alloc::{AllocError as NoMemory, Global};
use std::sync::Wait;
use std::thread::Threads;
use worker_run::Serve;

/// The report on a test's run by this plan.
fn report_of<R: Threads + Wait + Sync, G: Gate>(
    rt: &R,
    alloc: Global,
    report: Report,
    test: &ReadyTest,
    plan: RunPlan,
    gate: &G,
) -> Result<CommandOutput, NoMemory>
    requires { length plan.order ≡ test.now.deal.threads }
    ensures { IfOk result (λ output. OfReport report (plain_script test.now.script) test.now.deal
        plan.order plan.points plan.limit (printed_of output)) }
{
    match report {
        Report::Trace => run::trace_of(rt, alloc, test, plan, gate),
        Report::Races => races::races_of(rt, alloc, test, plan, gate),
        Report::Locks => locks::locks_of(rt, alloc, test, plan, gate),
        Report::Find => find::directive_of(rt, alloc, test, plan, gate),
    }
}

/// The report on the run of a script under the order that names give, which stand in the word of
/// this number, and change points. It has at most `limit` steps.
#[derive(Debug, Drop)]
pub struct OrderedRun {
    pub order: TextList,
    pub word: u32,
    pub points: PointList,
    pub limit: Limit,
    pub report: Report,
    ghost points_fit: { AreChangePoints points },
}

impl OrderedRun {
    pub fn report_on<R: Threads + Wait + Sync, G: Gate>(
        &self,
        rt: &R,
        alloc: Global,
        test: &ReadyTest,
        gate: &G,
    ) -> Result<CommandOutput, Refusal>
        ensures { GivesPrinted (OfOrdered self.now.order self.now.word self.now.points
            self.now.limit self.now.report (plain_script test.now.script) test.now.deal) result }
    {
        let items = self.order.as_slice();
        let order = match order_given(alloc, test.script.names(), items, self.word) {
            Ok(order) => order,
            Err(refusal) => return Err(refusal),
        };
        let points = self.points.copy(alloc)?;
        let plan = RunPlan {
            order,
            points,
            limit: self.limit,
        };
        Ok(report_of(rt, alloc, self.report, test, plan, gate)?)
    }
}

/// The report on the run of a script under the order and the `depth - 1` change points of a seed,
/// which are drawn from so many steps, or where none are given from as many as the run in declared
/// order has. It has at most `limit` steps.
#[derive(Debug, Drop)]
pub struct SeededRun {
    pub seed: u64,
    pub depth: Depth,
    pub steps: Option<Limit>,
    pub limit: Limit,
    pub report: Report,
}

impl SeededRun {
    pub fn report_on<R: Threads + Wait + Sync, G: Gate>(
        &self,
        rt: &R,
        alloc: Global,
        test: &ReadyTest,
        gate: &G,
    ) -> Result<CommandOutput, NoMemory>
        ensures { IfOk result (λ output. OfSeed self.now.seed self.now.depth self.now.steps
            self.now.limit self.now.report (plain_script test.now.script) test.now.deal
            (printed_of output)) }
    {
        let serve = Serve::Threads;
        let steps = steps_of(rt, alloc, test, self.steps, self.limit, serve, gate)?;
        let threads = test.deal.threads;
        let plan = drawn(alloc, threads, self.seed, steps, self.depth, self.limit)?;
        report_of(rt, alloc, self.report, test, plan, gate)
    }
}
