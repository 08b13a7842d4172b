//! `locks`: in which order a script's run took its mutexes.

ghost use Rattle.std.specs.Prelude.{◌≡◌, ◌++◌, ◌∷◌, map, OnOk, IfOk, codes, length};
ghost use Rattle.pct_ask.specs.TraceText.{name_at, line_text};
ghost use Rattle.script_tree.specs.ScriptSeen.{plain_script};
ghost use Rattle.pct_top.specs.CommandOutput.{printed_of};
ghost use Rattle.pct_top.specs.commands.Locks.{nesting_words, lock_text, is_order as is_order_by};
ghost use Rattle.pct_top.specs.commands.Locks.{PrintsLocks};

use crate::command_output::CommandOutput;
use crate::lines::{push_number, push_size};
use crate::playing::play;
use crate::run_plan::RunPlan;
use crate::test::ReadyTest;
use lock_order::{LockReport, Nesting, lock_order};
use pct_ask::{NameKind, Names, name_at, write_spaced_word};
use pct_outside::Gate;
use std::alloc::{AllocError as NoMemory, Global};
use std::sync::Wait;
use std::thread::Threads;
use worker_run::Serve;

/// The line of a nesting.
fn push_nesting(out: &mut Vec<u8>, names: &Names, nesting: &Nesting) -> Result<(), NoMemory>
    ensures { OnOk result (out.new.items
        ≡ out.old.items ++ line_text (nesting_words names.now nesting.now)) }
{
    out.extend_from_slice(b"nest")?;
    push_number(out, nesting.step)?;
    write_spaced_word(name_at(names, NameKind::Thread, nesting.thread), out)?;
    write_spaced_word(name_at(names, NameKind::Mutex, nesting.held), out)?;
    write_spaced_word(name_at(names, NameKind::Mutex, nesting.taken), out)?;
    out.push(b'\n')?;
    Ok(())
}

/// The line of an order.
fn push_order(out: &mut Vec<u8>, names: &Names, mutexes: &[u32]) -> Result<(), NoMemory>
    ensures { OnOk result (out.new.items ≡ out.old.items
        ++ line_text (codes "order" ∷ map (name_at names.now.mutexes) mutexes.now)) }
{
    out.extend_from_slice(b"order")?;
    for mutex in mutexes {
        write_spaced_word(name_at(names, NameKind::Mutex, *mutex), out)?;
    }
    out.push(b'\n')?;
    Ok(())
}

/// The lines of a report.
fn write_report(alloc: Global, names: &Names, report: &LockReport) -> Result<Vec<u8>, NoMemory>
    ensures { IfOk result (λ text. text.items ≡ lock_text names.now report.now) }
{
    let mut text = Vec::new(alloc);
    match report {
        LockReport::Order { mutexes } => push_order(&mut text, names, mutexes.as_slice())?,
        LockReport::Cycle { nestings } => {
            for nesting in nestings.as_slice() {
                push_nesting(&mut text, names, nesting)?;
            }
            push_size(&mut text, "cycle", nestings.len())?;
        }
    }
    Ok(text)
}

fn is_order(report: &LockReport) -> bool
    ensures { result ≡ is_order_by report.now }
{
    matches!(report, LockReport::Order { .. })
}

/// The lock order of a test's run under these priorities, or a cycle of its nestings.
pub fn locks_of<R: Threads + Wait + Sync, G: Gate>(
    rt: &R,
    alloc: Global,
    test: &ReadyTest,
    plan: RunPlan,
    gate: &G,
) -> Result<CommandOutput, NoMemory>
    requires { length plan.order ≡ test.now.deal.threads }
    ensures { IfOk result (λ output. PrintsLocks (plain_script test.now.script) test.now.deal
        plan.order plan.points plan.limit (printed_of output)) }
{
    let run = play(rt, alloc, test, &plan, Serve::Threads, gate)?;
    let report = lock_order(alloc, &test.deal, run.events.as_slice())?;
    let text = write_report(alloc, test.script.names(), &report)?;
    let done = is_order(&report);
    Ok(CommandOutput { text, done })
}
