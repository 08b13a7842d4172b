// The replay of a trace.
ghost use Rattle.std.specs.Prelude.{◌≡◌, ◌<◌, ◌≤◌, ◌^◌, length, Err, IfOk};
ghost use Rattle.kit_runs.specs.Errors.{IsWholeOrder};
ghost use Rattle.kit_runs.specs.Replays.{IsReplay, TellsReplay};
ghost use Rattle.pct_ask.specs.declared.limits.TheConstants.{MAX_POINTS, MAX_STEPS};

use crate::error::RunError;
use crate::program::Program;
use crate::running::run_program;
use pct_ask::{Deal, Verdict};
use std::alloc::Global;
use std::sync::Wait;
use std::thread::Threads;
use trace_text::{TraceFile, agreed};

/// What a replay tells of a trace.
#[derive(Clone, Copy, Debug, PartialEq, Eq)]
pub enum Confirmation {
    /// The run of the trace's order, points and limit has its steps and its verdict.
    Confirmed(Verdict),
    /// The first step, from 1, at which the two differ, or one more than both have where their
    /// verdicts differ.
    Departs { step: u32 },
}

/// Compares a run with a trace.
fn compare(run: &TraceFile, file: &TraceFile) -> Confirmation
    requires few { length run.now.events ≤ MAX_STEPS }
    ensures { TellsReplay run.now file.now result }
{
    let many = agreed(run.events.as_slice(), file.events.as_slice());
    let is_whole = many == run.events.len() && many == file.events.len();
    if is_whole && run.verdict.is(&file.verdict) {
        return Confirmation::Confirmed(file.verdict);
    }
    Confirmation::Departs {
        step: many as u32 + 1,
    }
}

/// Runs a program again by the order, the change points and the limit of a trace.
pub fn replay<R: Threads + Wait + Sync, T: Program + Sync>(
    rt: &R,
    alloc: Global,
    deal: &Deal,
    file: &TraceFile,
    program: &T,
) -> Result<Confirmation, RunError>
    requires some_steps { 1 ≤ file.now.header.limit }
    requires few_steps { file.now.header.limit ≤ MAX_STEPS }
    requires few_points { length file.now.header.points ≤ MAX_POINTS }
    requires few_names { length file.now.header.order < 2 ^ 32 }
    requires fits { T.fits program.now deal.now }
    ensures replay { IfOk result (IsReplay deal.now file.now) }
    ensures refused { result ≡ Err RunError.NotAnOrder
        → ¬ IsWholeOrder deal.now.threads file.now.header.order }
{
    let own = deal.copy(alloc)?;
    let order = file.header.order.as_slice();
    let points = file.header.points.as_slice();
    let run = run_program(rt, alloc, own, order, points, file.header.limit, program)?;
    Ok(compare(&run, file))
}
