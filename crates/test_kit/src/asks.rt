//! Two threads that ask all that the counters don't, and their one run by hand.
ghost use Rattle.std.specs.Prelude.{◌≡◌, ◌≤◌, length, IfOk};
ghost use Rattle.pct_ask.specs.declared.deal.Deal.{Deal};
ghost use Rattle.body_kit.specs.Ports.{home_of};

use crate::programs::add_name;
use body_kit::{Over, Port};
use kit_runs::{Program, RunError, run_program};
use kit_text::{TextError, show_run};
use pct_ask::{Deal, NameKind, Names, Sequence};
use std::alloc::{AllocError as NoMemory, Global};
use std::sync::Wait;
use std::test::Fail;
use std::thread::Threads;
use trace_text::TraceFile;

/// A waits until it is told; both meet at the end.
const TRACE: &str =
    "trace 1\norder A B\npoints\nlimit 100\n1 A 1 lock m = 0\n2 A 2 release c m = 0\n3 B 11 lock m = 0\n4 B 12 signal c = 1\n5 B 13 broadcast c = 0\n6 B 14 unlock m = 0\n7 A 2 regain c m = 0\n8 A 3 add x 5 = 0\n9 A 4 unlock m = 0\n10 B 15 up s = 0\n11 A 5 down s = 0\n12 A 6 arrive b = 0\n13 B 16 arrive b = 0\n14 A 6 leave b = 0\n15 B 16 leave b = 1\nverdict passed\n";

#[derive(Drop)]
struct Asks;

fn wait_for_it<R: Wait>(rt: &R, port: &mut Port<'_>) -> Result<(), Over>
    requires vars { 1 ≤ length (home_of port.old).deal.vars }
    requires mutexes { 1 ≤ (home_of port.old).deal.mutexes }
    requires conds { 1 ≤ (home_of port.old).deal.conds }
    ensures { home_of port.new ≡ home_of port.old }
{
    port.lock(rt, 0, 1)?;
    port.wait(rt, 0, 0, 2)?;
    port.add(rt, 0, 5, 3)?;
    port.unlock(rt, 0, 4)?;
    Ok(())
}

fn tell_it<R: Wait>(rt: &R, port: &mut Port<'_>) -> Result<(), Over>
    requires mutexes { 1 ≤ (home_of port.old).deal.mutexes }
    requires conds { 1 ≤ (home_of port.old).deal.conds }
    ensures { home_of port.new ≡ home_of port.old }
{
    port.lock(rt, 0, 11)?;
    port.signal(rt, 0, 12)?;
    port.broadcast(rt, 0, 13)?;
    port.unlock(rt, 0, 14)?;
    Ok(())
}

impl Program for Asks {
    ghost fits = { λ _ deal. (1 ≤ length deal.vars) × (1 ≤ deal.mutexes) × (1 ≤ deal.conds)
        × (1 ≤ length deal.sems) × (1 ≤ length deal.barriers) };

    fn run<R: Wait>(&self, rt: &R, port: &mut Port<'_>, thread: u32) -> Result<(), Over> {
        if thread == 0 {
            wait_for_it(rt, port)?;
            port.down(rt, 0, 5)?;
            port.meet(rt, 0, 6)?;
        } else {
            tell_it(rt, port)?;
            port.up(rt, 0, 15)?;
            port.meet(rt, 0, 16)?;
        }
        Ok(())
    }
}

fn deal(alloc: Global) -> Result<Deal, NoMemory>
    ensures vars { IfOk result (λ deal. 1 ≤ length deal.vars) }
    ensures mutexes { IfOk result (λ deal. 1 ≤ deal.mutexes) }
    ensures conds { IfOk result (λ deal. 1 ≤ deal.conds) }
    ensures sems { IfOk result (λ deal. 1 ≤ length deal.sems) }
    ensures barriers { IfOk result (λ deal. 1 ≤ length deal.barriers) }
{
    let vars = Sequence::from_vec(vec![in alloc; 0]?);
    let sems = Sequence::from_vec(vec![in alloc; 0]?);
    let barriers = Sequence::from_vec(vec![in alloc; 2]?);
    Ok(Deal {
        threads: 2,
        vars,
        mutexes: 1,
        conds: 1,
        sems,
        barriers,
        rwlocks: 0,
    })
}

fn add_names(alloc: Global, names: &mut Names) -> Result<(), NoMemory> {
    add_name(alloc, names, NameKind::Thread, b"A")?;
    add_name(alloc, names, NameKind::Thread, b"B")?;
    add_name(alloc, names, NameKind::Var, b"x")?;
    add_name(alloc, names, NameKind::Mutex, b"m")?;
    add_name(alloc, names, NameKind::Cond, b"c")?;
    add_name(alloc, names, NameKind::Sem, b"s")?;
    add_name(alloc, names, NameKind::Barrier, b"b")?;
    Ok(())
}

fn asked<R: Threads + Wait + Sync>(rt: &R, alloc: Global) -> Result<TraceFile, RunError> {
    let deal = deal(alloc)?;
    run_program(rt, alloc, deal, &[0, 1], &[], 100, &Asks)
}

fn named_text(alloc: Global, names: &Names, file: &TraceFile) -> Result<Vec<u8>, TextError> {
    let deal = deal(alloc)?;
    let text = show_run(alloc, &deal, names, file);
    drop(deal);
    text
}

fn text_of_run(alloc: Global, file: &TraceFile) -> Result<Vec<u8>, TextError> {
    let mut names = Names::new(alloc);
    let text = match add_names(alloc, &mut names) {
        Ok(()) => named_text(alloc, &names, file),
        Err(NoMemory) => Err(TextError::NoMemory),
    };
    drop(names);
    text
}

#[test]
fn asks_by_each_name(rt: HostRuntime) -> Result<(), Fail> {
    let alloc = rt.alloc();
    let file = asked(&rt, alloc)?;
    let text = text_of_run(alloc, &file);
    drop(file);
    assert_eq!(rt; text?.as_slice(), TRACE.as_bytes());
    Ok(())
}
