//! `campaign`: the report on a script's runs over seeds.

ghost use Rattle.std.specs.Prelude.{◌≡◌, All, IfOk};
ghost use Rattle.script_tree.specs.ScriptSeen.{plain_script};
ghost use Rattle.pct_ask.specs.Limits.{IsDepth, IsStepCount};
ghost use Rattle.report_text.specs.Report.{IsWritable};
ghost use Rattle.pct_top.specs.CommandOutput.{printed_of};
ghost use Rattle.pct_top.specs.commands.Campaign.{all_pass as all_pass_by, campaign_text};
ghost use Rattle.pct_top.specs.commands.Campaign.{frame_of as frame_by};
ghost use Rattle.pct_top.specs.commands.Campaign.{OfCampaign};

use crate::command_output::CommandOutput;
use crate::run_plan::steps_of;
use crate::test::ReadyTest;
use crate::traces::is_passed;
use campaign::campaign_by;
use failure_rank::{Groups, rank};
use pct_ask::{Depth, Limit, Row, RowList};
use pct_outside::Gate;
use report_text::{Frame, json_report, text_report};
use script_tree::Script;
use std::alloc::{AllocError as NoMemory, Global};
use std::sync::Wait;
use std::thread::Threads;
use worker_run::Serve;

/// Whether every run passes.
pub fn all_pass(rows: &[Row]) -> bool
    ensures { result ≡ all_pass_by rows.now }
{
    for row in rows {
        if !is_passed(&row.verdict) {
            return false;
        }
    }
    true
}

/// What a report says that its runs were made with.
pub fn frame_of(test: &ReadyTest, depth: Depth, steps: Limit, limit: Limit) -> Frame
    ensures made { result ≡ frame_by test.now.deal depth steps limit }
    ensures depth { IsDepth result.depth }
    ensures steps { IsStepCount result.steps }
    ensures limit { IsStepCount result.limit }
{
    Frame {
        threads: test.deal.threads,
        steps: steps.steps(),
        depth: depth.number(),
        limit: limit.steps(),
    }
}

/// The report as JSON or as a text.
fn write_report(
    alloc: Global,
    json: bool,
    script: &Script,
    frame: &Frame,
    rows: &RowList,
    groups: &Groups,
) -> Result<Vec<u8>, NoMemory>
    requires rows { All (λ row. IsWritable script.now.names row.verdict) rows.now }
    requires groups { All (λ group. IsWritable script.now.names group.verdict) groups.now }
    ensures { IfOk result (λ report. report.items
        ≡ campaign_text json (plain_script script.now) frame.now rows.now groups.now) }
{
    if json {
        json_report(alloc, frame, rows, groups, script.names())
    } else {
        text_report(alloc, frame, rows, groups, script.names())
    }
}

/// The report on the runs of a script of `count` seeds from `first` on.
#[derive(Debug, Drop)]
pub struct CampaignJob {
    pub first: u64,
    pub count: u32,
    pub depth: Depth,
    pub steps: Option<Limit>,
    pub limit: Limit,
    pub json: bool,
    pub serve: Serve,
    ghost count_fits: { IsStepCount count },
}

impl CampaignJob {
    pub fn report_on<R: Threads + Wait + Sync, G: Gate>(
        &self,
        rt: &R,
        alloc: Global,
        test: &ReadyTest,
        gate: &G,
    ) -> Result<CommandOutput, NoMemory>
        ensures { IfOk result (λ output. OfCampaign self.now.first self.now.count self.now.depth
            self.now.steps self.now.limit self.now.json (plain_script test.now.script)
            test.now.deal (printed_of output)) }
    {
        let steps = steps_of(rt, alloc, test, self.steps, self.limit, self.serve, gate)?;
        let rows = campaign_by(
            rt, alloc, &test.code, &test.deal, self.first, self.count, self.depth, steps,
            self.limit, self.serve, gate,
        )?;
        let groups = rank(alloc, &rows)?;
        let frame = frame_of(test, self.depth, steps, self.limit);
        let text = write_report(alloc, self.json, &test.script, &frame, &rows, &groups)?;
        let done = all_pass(rows.as_slice());
        Ok(CommandOutput { text, done })
    }
}
