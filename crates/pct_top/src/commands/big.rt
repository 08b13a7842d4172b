//! `big`: the campaign of the large script, counted.

ghost use Rattle.std.specs.Prelude.{◌≡◌, ◌≤◌, IfOk};
ghost use Rattle.std.specs.List.{flat_map};
ghost use Rattle.pct_ask.specs.TraceText.{line_text};
ghost use Rattle.script_tree.specs.Layout.{layout};
ghost use Rattle.script_tree.specs.ScriptSeen.{plain_script};
ghost use Rattle.large_script.specs.Large.{large_script};
ghost use Rattle.pct_top.specs.Printed.{OfScript};
ghost use Rattle.pct_top.specs.CommandOutput.{printed_of, GivesPrinted};
ghost use Rattle.pct_top.specs.commands.Big.{failures as failures_by, big_lines, OfBig};

use crate::command_output::CommandOutput;
use crate::commands::campaign_command::all_pass;
use crate::files::large_test;
use crate::lines::{push_count, push_size};
use crate::refusal::Refusal;
use crate::run_plan::steps_of;
use crate::test::ReadyTest;
use crate::traces::is_passed;
use campaign::campaign_by;
use failure_rank::{Group, rank};
use large_script::line_count;
use pct_ask::{Depth, Limit, Row};
use pct_outside::Gate;
use std::alloc::{AllocError as NoMemory, Global};
use std::sync::Wait;
use std::thread::Threads;
use worker_run::Serve;

/// The first seed, and how many seeds are run.
const SEEDS: (u64, u32) = (1, 20);

const DEPTH: u32 = 3;

const LIMIT: u32 = 10_000;

/// How many runs don't pass.
fn failures(rows: &[Row]) -> usize
    ensures { result ≡ failures_by rows.now }
{
    let mut failures = 0;
    for row in rows {
        if !is_passed(&row.verdict) {
            failures += 1;
        }
    }
    failures
}

/// The five lines of counts.
fn write_counts(
    alloc: Global,
    lines: u32,
    steps: u32,
    rows: &[Row],
    groups: &[Group],
) -> Result<Vec<u8>, NoMemory>
    ensures { IfOk result (λ counts. counts.items
        ≡ flat_map line_text (big_lines lines steps rows.now groups.now)) }
{
    let mut text = Vec::new(alloc);
    push_count(&mut text, "lines", lines)?;
    push_count(&mut text, "steps", steps)?;
    push_size(&mut text, "runs", rows.len())?;
    push_size(&mut text, "failures", failures(rows))?;
    push_size(&mut text, "groups", groups.len())?;
    Ok(text)
}

/// The counts of the campaign of the large script, which is the test's.
fn big_of<R: Threads + Wait + Sync, G: Gate>(
    rt: &R,
    alloc: Global,
    test: &ReadyTest,
    pieces: u32,
    serve: Serve,
    gate: &G,
) -> Result<CommandOutput, NoMemory>
    requires { pieces ≤ 100 }
    ensures { IfOk result (λ output.
        OfBig pieces (plain_script test.now.script) test.now.deal (printed_of output)) }
{
    let (first, count) = SEEDS;
    let depth = Depth::new(DEPTH);
    let limit = Limit::new(LIMIT);
    let steps = steps_of(rt, alloc, test, None, limit, serve, gate)?;
    let rows = campaign_by(
        rt, alloc, &test.code, &test.deal, first, count, depth, steps, limit, serve, gate,
    )?;
    let groups = rank(alloc, &rows)?;
    let lines = line_count(pieces);
    let text = write_counts(
        alloc,
        lines,
        steps.steps(),
        rows.as_slice(),
        groups.as_slice(),
    )?;
    let done = all_pass(rows.as_slice());
    Ok(CommandOutput { text, done })
}

/// The same counts, with the large script printed and parsed.
pub fn big_output<R: Threads + Wait + Sync, G: Gate>(
    rt: &R,
    alloc: Global,
    pieces: u32,
    serve: Serve,
    gate: &G,
) -> Result<CommandOutput, Refusal>
    requires { pieces ≤ 100 }
    ensures { GivesPrinted (OfScript (layout (large_script pieces)) (OfBig pieces)) result }
{
    let test = large_test(alloc, pieces)?;
    Ok(big_of(rt, alloc, &test, pieces, serve, gate)?)
}
