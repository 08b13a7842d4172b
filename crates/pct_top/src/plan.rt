//! What the settings come to: a job, and the script that it is done with.

ghost use Rattle.std.specs.Prelude.{◌≡◌};
ghost use Rattle.pct_top.specs.Settings.{AreLawful};
ghost use Rattle.pct_top.specs.Plan.{asked_by};

use crate::commands::campaign_command::CampaignJob;
use crate::commands::certify::CertifyJob;
use crate::commands::expose::ExposeJob;
use crate::commands::replay::ReplayJob;
use crate::commands::sweep_command::SweepJob;
use crate::job::Job;
use crate::reports::{OrderedRun, SeededRun};
use crate::settings::Settings;
use crate::text::Text;
use pct_ask::{Depth, Limit};
use worker_run::Serve;

/// What is to be done.
#[derive(Debug, Drop)]
pub enum Plan {
    /// The campaign of the large script, whose threads have so many pieces.
    Big { pieces: u32, serve: Serve },
    /// A job over the script of a file.
    OfFile { file: Text, job: Job },
}

/// The plan that the settings ask for.
pub fn plan_of(settings: Settings) -> Plan
    requires { AreLawful settings }
    ensures { settings ≡ asked_by result }
{
    match settings {
        Settings::Big { pieces, serve } => Plan::Big { pieces, serve },
        Settings::RunOrder {
            file,
            order,
            word,
            points,
            limit,
            report,
        } => Plan::OfFile {
            file,
            job: Job::Ordered(OrderedRun {
                order,
                word,
                points,
                limit: Limit::new(limit),
                report,
            }),
        },
        Settings::RunSeed {
            file,
            seed,
            depth,
            steps,
            limit,
            report,
        } => Plan::OfFile {
            file,
            job: Job::Seeded(SeededRun {
                seed,
                depth: Depth::new(depth),
                steps: steps.map(Limit::new),
                limit: Limit::new(limit),
                report,
            }),
        },
        Settings::Campaign {
            file,
            first,
            count,
            depth,
            steps,
            limit,
            json,
            serve,
        } => Plan::OfFile {
            file,
            job: Job::Campaign(CampaignJob {
                first,
                count,
                depth: Depth::new(depth),
                steps: steps.map(Limit::new),
                limit: Limit::new(limit),
                json,
                serve,
            }),
        },
        Settings::Replay { file, trace } => Plan::OfFile {
            file,
            job: Job::Replay(ReplayJob { trace }),
        },
        Settings::Expose {
            file,
            directive,
            order,
            word,
            steps,
            limit,
        } => Plan::OfFile {
            file,
            job: Job::Expose(ExposeJob {
                directive,
                order,
                word,
                steps,
                limit: Limit::new(limit),
            }),
        },
        Settings::Certify {
            file,
            directive,
            steps,
            limit,
            serve,
        } => Plan::OfFile {
            file,
            job: Job::Certify(CertifyJob {
                directive,
                steps: Limit::new(steps),
                limit: Limit::new(limit),
                serve,
            }),
        },
        Settings::Sweep {
            file,
            depth,
            steps,
            limit,
            json,
            serve,
        } => Plan::OfFile {
            file,
            job: Job::Sweep(SweepJob {
                depth: Depth::new(depth),
                steps: steps.map(Limit::new),
                limit: Limit::new(limit),
                json,
                serve,
            }),
        },
    }
}
