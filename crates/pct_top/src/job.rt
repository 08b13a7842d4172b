//! What a command does with the script of a file.

ghost use Rattle.std.specs.Prelude.{◌≡◌, ℕ, List};
ghost use Rattle.script_tree.specs.ScriptSeen.{plain_script};
ghost use Rattle.pct_top.specs.Plan.{asked};
ghost use Rattle.pct_top.specs.Ordered.{OrderFits};
ghost use Rattle.pct_top.specs.Output.{order_given, second_file, OfCommand};
ghost use Rattle.pct_top.specs.CommandOutput.{Comes};
ghost use Rattle.pct_top.specs.Reads.{KeepsSecond, is_missed};
ghost use Rattle.pct_top.specs.Call.{MissesSecond};

use crate::command_output::CommandOutput;
use crate::commands::campaign_command::CampaignJob;
use crate::commands::certify::CertifyJob;
use crate::commands::expose::ExposeJob;
use crate::commands::replay::{ReplayJob, reply_to_file};
use crate::commands::sweep_command::SweepJob;
use crate::refusal::Refusal;
use crate::reports::{OrderedRun, SeededRun};
use crate::test::ReadyTest;
use pct_outside::{Gate, Shelf};
use std::alloc::Global;
use std::sync::Wait;
use std::thread::Threads;

/// What a command does with the script of a file.
#[derive(Debug, Drop)]
pub enum Job {
    Ordered(OrderedRun),
    Seeded(SeededRun),
    Campaign(CampaignJob),
    Replay(ReplayJob),
    Expose(ExposeJob),
    Certify(CertifyJob),
    Sweep(SweepJob),
}

impl Job {
    /// What comes of it over a script, for which at most the second file is read.
    pub fn output<R: Threads + Wait + Sync, H: Shelf, G: Gate>(
        &self,
        rt: &R,
        alloc: Global,
        test: &ReadyTest,
        shelf: &mut H,
        gate: &G,
    ) -> Result<CommandOutput, Refusal>
        ensures comes { (file : List ℕ) → Comes
            (λ files. OfCommand (asked file self.now) files (plain_script test.now.script)
            test.now.deal)
            (H.told shelf.old).files
            (MissesSecond (asked file self.now) (plain_script test.now.script)
            (H.told shelf.old).failed (H.told shelf.new).failed)
            result }
        ensures keeps { (file : List ℕ) → KeepsSecond (second_file (asked file self.now))
            (OrderFits (plain_script test.now.script).names (order_given (asked file self.now)))
            (is_missed result) (H.told shelf.old) (H.told shelf.new) }
        ensures files { (H.told shelf.new).files ≡ (H.told shelf.old).files }
    {
        match self {
            Job::Ordered(run) => run.report_on(rt, alloc, test, gate),
            Job::Seeded(run) => Ok(run.report_on(rt, alloc, test, gate)?),
            Job::Campaign(campaign) => Ok(campaign.report_on(rt, alloc, test, gate)?),
            Job::Replay(replay) => {
                reply_to_file(rt, alloc, test, replay.trace.as_str(), shelf, gate)
            }
            Job::Expose(expose) => {
                expose.expose_file(rt, alloc, test, expose.directive.as_str(), shelf, gate)
            }
            Job::Certify(certify) => {
                certify.certify_file(rt, alloc, test, certify.directive.as_str(), shelf, gate)
            }
            Job::Sweep(sweep) => Ok(sweep.report_on(rt, alloc, test, gate)?),
        }
    }
}
