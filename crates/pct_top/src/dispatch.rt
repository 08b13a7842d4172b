//! From the settings to a command's output.

ghost use Rattle.std.specs.Prelude.{◌≡◌, Ok, None};
ghost use Rattle.pct_top.specs.Settings.{AreLawful};
ghost use Rattle.pct_top.specs.Plan.{asked};
ghost use Rattle.pct_top.specs.Printed.{NamedFiles};
ghost use Rattle.pct_top.specs.Output.{script_file, OfTaken};
ghost use Rattle.pct_top.specs.CommandOutput.{GivesPrinted, Comes};
ghost use Rattle.pct_top.specs.Reads.{is_missed};
ghost use Rattle.pct_top.specs.Call.{ReadFailed, LeavesShelf};

use crate::command_output::CommandOutput;
use crate::commands::big::big_output;
use crate::files::read_test;
use crate::job::Job;
use crate::plan::{Plan, plan_of};
use crate::refusal::Refusal;
use crate::settings::Settings;
use pct_outside::{Gate, Shelf};
use std::alloc::Global;
use std::sync::Wait;
use std::thread::Threads;

/// What comes of a job over the script of a file.
fn over_file<R: Threads + Wait + Sync, H: Shelf, G: Gate>(
    rt: &R,
    alloc: Global,
    file: &str,
    job: &Job,
    shelf: &mut H,
    gate: &G,
) -> Result<CommandOutput, Refusal>
    ensures comes { Comes (OfTaken (Ok (asked file.now job.now))) (H.told shelf.old).files
        (ReadFailed (Ok (asked file.now job.now))
        (H.told shelf.old)
        (H.told shelf.new)) result }
    ensures shelf { LeavesShelf (Ok (asked file.now job.now)) (is_missed result)
        (H.told shelf.old)
        (H.told shelf.new) }
{
    let test = read_test(alloc, file, shelf)?;
    job.output(rt, alloc, &test, shelf, gate)
}

/// What the settings ask for.
pub fn output_of<R: Threads + Wait + Sync, H: Shelf, G: Gate>(
    rt: &R,
    alloc: Global,
    settings: Settings,
    shelf: &mut H,
    gate: &G,
) -> Result<CommandOutput, Refusal>
    requires { AreLawful settings }
    ensures comes { Comes (OfTaken (Ok settings)) (H.told shelf.old).files
        (ReadFailed (Ok settings)
        (H.told shelf.old)
        (H.told shelf.new)) result }
    ensures unread { script_file settings ≡ None → (files : NamedFiles)
        → GivesPrinted (OfTaken (Ok settings) files) result }
    ensures shelf { LeavesShelf (Ok settings) (is_missed result)
        (H.told shelf.old)
        (H.told shelf.new) }
{
    match plan_of(settings) {
        Plan::Big { pieces, serve } => big_output(rt, alloc, pieces, serve, gate),
        Plan::OfFile { file, job } => over_file(rt, alloc, file.as_str(), &job, shelf, gate),
    }
}
