//! `races`: the data races of a script's run.

ghost use Rattle.std.specs.Prelude.{◌≡◌, ◌++◌, OnOk, IfOk, length};
ghost use Rattle.pct_ask.specs.TraceText.{line_text};
ghost use Rattle.script_tree.specs.ScriptSeen.{plain_script};
ghost use Rattle.pct_top.specs.CommandOutput.{printed_of};
ghost use Rattle.pct_top.specs.commands.Races.{race_words, race_text, PrintsRaces};

use crate::command_output::CommandOutput;
use crate::lines::{push_number, push_size};
use crate::playing::play;
use crate::run_plan::RunPlan;
use crate::test::ReadyTest;
use hb_race::{Race, races};
use pct_ask::{NameKind, Names, name_at, write_spaced_word};
use pct_outside::Gate;
use std::alloc::{AllocError as NoMemory, Global};
use std::sync::Wait;
use std::thread::Threads;
use worker_run::{Played, Serve};

/// The line of a race.
fn push_race(out: &mut Vec<u8>, names: &Names, race: &Race) -> Result<(), NoMemory>
    ensures { OnOk result (out.new.items
        ≡ out.old.items ++ line_text (race_words names.now race.now)) }
{
    out.extend_from_slice(b"race")?;
    write_spaced_word(name_at(names, NameKind::Var, race.var), out)?;
    push_number(out, race.first)?;
    push_number(out, race.second)?;
    out.push(b'\n')?;
    Ok(())
}

/// The lines of races, and how many there are.
fn write_races(alloc: Global, names: &Names, races: &[Race]) -> Result<Vec<u8>, NoMemory>
    ensures { IfOk result (λ text. text.items ≡ race_text names.now races.now) }
{
    let mut text = Vec::new(alloc);
    for race in races {
        push_race(&mut text, names, race)?;
    }
    push_size(&mut text, "races", races.len())?;
    Ok(text)
}

/// The races of a test's run by this plan.
pub fn races_of<R: Threads + Wait + Sync, G: Gate>(
    rt: &R,
    alloc: Global,
    test: &ReadyTest,
    plan: RunPlan,
    gate: &G,
) -> Result<CommandOutput, NoMemory>
    requires { length plan.order ≡ test.now.deal.threads }
    ensures { IfOk result (λ output. PrintsRaces (plain_script test.now.script) test.now.deal
        plan.order plan.points plan.limit (printed_of output)) }
{
    let run = play(rt, alloc, test, &plan, Serve::Threads, gate)?;
    let found = races(alloc, &test.deal, &Played::from(run))?;
    let text = write_races(alloc, test.script.names(), found.as_slice())?;
    let done = found.len() == 0;
    Ok(CommandOutput { text, done })
}
