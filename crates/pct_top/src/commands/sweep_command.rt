//! `sweep`: what every choice of an order and change points leads to.

ghost use Rattle.std.specs.Prelude.{◌≡◌, ◌≤◌, ◌<◌, ◌-◌, All, IfOk};
ghost use Rattle.script_tree.specs.ScriptSeen.{plain_script};
ghost use Rattle.report_text.specs.Report.{IsTellable};
ghost use Rattle.sweep.specs.Choices.{choice_count, most_choices};
ghost use Rattle.pct_top.specs.CommandOutput.{printed_of};
ghost use Rattle.pct_top.specs.commands.Campaign.{frame_of as frame_by};
ghost use Rattle.pct_top.specs.commands.Sweep.{told_as, AreGroupsTold, sweep_report};
ghost use Rattle.pct_top.specs.commands.Sweep.{too_many_text, OfSweep};

use crate::command_output::CommandOutput;
use crate::commands::campaign_command::frame_of;
use crate::lines::push_count;
use crate::run_plan::steps_of;
use crate::test::ReadyTest;
use failure_rank::Group;
use pct_ask::{Deal, Depth, Limit};
use pct_outside::Gate;
use report_text::{Frame, SweptGroup, sweep_json, sweep_text};
use script_tree::Script;
use std::alloc::{AllocError as NoMemory, Global};
use std::sync::Wait;
use std::thread::Threads;
use sweep::{Answer, Choice, Swept, choice_at, sweep};
use worker_run::Serve;

/// A group as it is told: with its first choice, in place of that choice's place among all.
fn told_as(group: &Group, choice: Choice) -> SweptGroup
    ensures { result ≡ told_as group.now choice }
{
    let Choice { order, points } = choice;
    SweptGroup {
        count: group.count,
        steps: group.steps,
        order,
        points,
        verdict: group.verdict,
    }
}

/// The report as JSON or as a text.
fn write_report(
    alloc: Global,
    json: bool,
    script: &Script,
    frame: &Frame,
    swept: &Swept,
    told: &[SweptGroup],
) -> Result<Vec<u8>, NoMemory>
    requires { All (IsTellable script.now.names) told.now }
    ensures { IfOk result (λ report. report.items
        ≡ sweep_report json (plain_script script.now) frame.now swept.now told.now) }
{
    let names = script.names();
    if json {
        sweep_json(alloc, frame, swept.choices, told, swept.passed, names)
    } else {
        sweep_text(alloc, frame, swept.choices, told, swept.passed, names)
    }
}

/// The line that tells of too many choices.
fn too_many(alloc: Global, threads: u32) -> Result<Vec<u8>, NoMemory>
    ensures { IfOk result (λ text. text.items ≡ too_many_text threads) }
{
    let mut text = Vec::new(alloc);
    push_count(&mut text, "toomany", threads)?;
    Ok(text)
}

/// The report on all choices of an order of a script's threads and of `depth - 1` change points.
#[derive(Debug, Drop)]
pub struct SweepJob {
    pub depth: Depth,
    pub steps: Option<Limit>,
    pub limit: Limit,
    pub json: bool,
    pub serve: Serve,
}

impl SweepJob {
    /// The groups as they are told.
    fn told_groups(
        &self,
        alloc: Global,
        deal: &Deal,
        steps: Limit,
        groups: &[Group],
    ) -> Result<Vec<SweptGroup>, NoMemory>
        requires few { choice_count deal.now.threads steps (self.now.depth - 1) ≤ most_choices }
        requires first { All
            (λ group. group.first < choice_count deal.now.threads steps (self.now.depth - 1))
            groups.now }
        ensures { IfOk result (λ told.
            AreGroupsTold (frame_by deal.now self.now.depth steps self.now.limit) groups.now
            told.items) }
    {
        let mut told = Vec::new(alloc);
        for group in groups {
            let choice = choice_at(
                alloc,
                deal.threads,
                steps.steps(),
                self.depth.points(),
                group.first as u32,
            )?;
            told.push(told_as(group, choice))?;
        }
        Ok(told)
    }

    pub fn report_on<R: Threads + Wait + Sync, G: Gate>(
        &self,
        rt: &R,
        alloc: Global,
        test: &ReadyTest,
        gate: &G,
    ) -> Result<CommandOutput, NoMemory>
        ensures { IfOk result (λ output. OfSweep self.now.depth self.now.steps self.now.limit
            self.now.json (plain_script test.now.script) test.now.deal (printed_of output)) }
    {
        let steps = steps_of(rt, alloc, test, self.steps, self.limit, self.serve, gate)?;
        let frame = frame_of(test, self.depth, steps, self.limit);
        match sweep(
            rt, alloc, &test.code, &test.deal, self.depth, steps, self.limit, self.serve, gate,
        )? {
            Answer::Whole(swept) => {
                let told = self.told_groups(alloc, &test.deal, steps, swept.groups.as_slice())?;
                let told = told.as_slice();
                let text = write_report(alloc, self.json, &test.script, &frame, &swept, told)?;
                let done = swept.groups.len() == 0;
                Ok(CommandOutput { text, done })
            }
            Answer::TooMany => Ok(CommandOutput {
                text: too_many(alloc, frame.threads)?,
                done: false,
            }),
        }
    }
}
