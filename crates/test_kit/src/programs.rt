//! Runs, campaigns and replays of the counters, and their texts.
ghost use Rattle.std.specs.Prelude.{◌≡◌, [], ◌∷◌, IfOk};
ghost use Rattle.trace_text.specs.Trace.{head_of};
ghost use Rattle.kit_runs.specs.Runs.{head_with};

use crate::counters::Counters;
use kit_runs::{
    Confirmation, Findings, RunError, Seeds, campaign, replay, run_program, small_deal,
};
use kit_text::{ShownGroups, ShownVerdict, TextError, show_report, show_run};
use pct_ask::{Deal, NameKind, Names, Verdict, is_lawful_name};
use std::alloc::{AllocError as NoMemory, Global};
use std::sync::Wait;
use std::test::Fail;
use std::thread::Threads;
use trace_text::TraceFile;

/// The run in which both counters read 0.
const TRACE: &str =
    "trace 1\norder A B C\npoints 1\nlimit 10000\n1 A 4 read x = 0\n2 B 8 read x = 0\n3 B 9 write x 1 = 0\n4 A 5 write x 1 = 0\n5 C 12 join A = 0\n6 C 13 join B = 0\n7 C 14 read x = 1\n8 C 15 check 0 = 0\nverdict failed C 15\n";

pub(crate) const FAILED: Verdict = Verdict::Failed {
    thread: 2,
    line: 15,
};

/// How a report of a campaign begins.
const HEAD: &str = "campaign 1\nthreads 3\nsteps 8\ndepth 2\nlimit 10000\n";

/// Adds a name, where it is one and nobody has it.
pub(crate) fn add_name(
    alloc: Global,
    names: &mut Names,
    kind: NameKind,
    name: &[u8],
) -> Result<(), NoMemory> {
    if is_lawful_name(1, name) && !names.contains(name) && names.count(kind) < 64 {
        names.add(alloc, kind, name)?;
    }
    Ok(())
}

fn add_names(alloc: Global, names: &mut Names) -> Result<(), NoMemory> {
    add_name(alloc, names, NameKind::Thread, b"A")?;
    add_name(alloc, names, NameKind::Thread, b"B")?;
    add_name(alloc, names, NameKind::Thread, b"C")?;
    add_name(alloc, names, NameKind::Var, b"x")?;
    Ok(())
}

pub(crate) fn names(alloc: Global) -> Result<Names, NoMemory> {
    let mut names = Names::new(alloc);
    match add_names(alloc, &mut names) {
        Ok(()) => Ok(names),
        Err(NoMemory) => {
            drop(names);
            Err(NoMemory)
        }
    }
}

/// The run of the counters by which both read 0.
pub(crate) fn counted<R: Threads + Wait + Sync>(
    rt: &R,
    alloc: Global,
) -> Result<TraceFile, RunError>
    ensures { IfOk result (λ file.
        head_of file.header ≡ head_with 1 (0 ∷ 1 ∷ 2 ∷ []) (1 ∷ []) 10000) }
{
    let deal = small_deal(alloc, 3, &[0], 0, 0)?;
    run_program(rt, alloc, deal, &[0, 1, 2], &[1], 10_000, &Counters)
}

fn named_text(alloc: Global, deal: &Deal, file: &TraceFile) -> Result<Vec<u8>, TextError> {
    let names = names(alloc)?;
    let text = show_run(alloc, deal, &names, file);
    drop(names);
    text
}

/// The text of a run of the counters.
fn text_of_run(alloc: Global, file: &TraceFile) -> Result<Vec<u8>, TextError> {
    let deal = small_deal(alloc, 3, &[0], 0, 0)?;
    let text = named_text(alloc, &deal, file);
    drop(deal);
    text
}

#[test]
fn shows_a_run(rt: HostRuntime) -> Result<(), Fail> {
    let alloc = rt.alloc();
    let file = counted(&rt, alloc)?;
    let text = text_of_run(alloc, &file);
    drop(file);
    assert_eq!(rt; text?.as_slice(), TRACE.as_bytes());
    Ok(())
}

/// A deal without the variable can't have its name.
#[test]
fn shows_no_run_of_another_deal(rt: HostRuntime) -> Result<(), Fail> {
    let alloc = rt.alloc();
    let file = counted(&rt, alloc)?;
    let deal = small_deal(alloc, 3, &[], 0, 0)?;
    let text = named_text(alloc, &deal, &file);
    drop(deal);
    drop(file);
    assert!(rt; matches!(text, Err(TextError::Unknown)));
    Ok(())
}

fn confirmation_of<R: Threads + Wait + Sync>(
    rt: &R,
    alloc: Global,
    file: &TraceFile,
) -> Result<Confirmation, RunError>
    requires { head_of file.now.header ≡ head_with 1 (0 ∷ 1 ∷ 2 ∷ []) (1 ∷ []) 10000 }
{
    let deal = small_deal(alloc, 3, &[0], 0, 0)?;
    let confirmation = replay(rt, alloc, &deal, file, &Counters);
    drop(deal);
    confirmation
}

#[test]
fn replays_a_run(rt: HostRuntime) -> Result<(), Fail> {
    let alloc = rt.alloc();
    let file = counted(&rt, alloc)?;
    let confirmation = confirmation_of(&rt, alloc, &file);
    drop(file);
    assert_eq!(rt; confirmation?, Confirmation::Confirmed(FAILED));
    Ok(())
}

/// The runs of a hundred seeds.
fn findings<R: Threads + Wait + Sync>(rt: &R, alloc: Global) -> Result<Findings, RunError> {
    let deal = small_deal(alloc, 3, &[0], 0, 0)?;
    let seeds = Seeds::from_zero(100, 2, 8);
    let found = campaign(rt, alloc, &deal, &seeds, &Counters);
    drop(deal);
    found
}

fn report_of(alloc: Global, found: &Findings) -> Result<Vec<u8>, TextError> {
    let names = names(alloc)?;
    let text = show_report(alloc, &names, &found.frame, &found.rows, &found.groups);
    drop(names);
    text
}

/// The failures, with and without names, and the verdict alone.
fn groups_of(alloc: Global, found: &Findings) -> Result<String, NoMemory> {
    let names = &names(alloc)?;
    let nobody = &Names::new(alloc);
    let groups = &found.groups;
    let named = ShownGroups { groups, names };
    let numbered = ShownVerdict {
        verdict: &FAILED,
        names: nobody,
    };
    format!(in alloc; "{named}{numbered}")
}

#[test]
fn counts_the_failures(rt: HostRuntime) -> Result<(), Fail> {
    let alloc = rt.alloc();
    let found = findings(&rt, alloc)?;
    let rows = found.rows.len();
    let text = groups_of(alloc, &found);
    drop(found);
    assert_eq!(rt; rows, 100);
    assert_eq!(rt; text?.as_str(), "11 8 0 failed C 15\nfailed #2 15");
    Ok(())
}

#[test]
fn reports_the_failures(rt: HostRuntime) -> Result<(), Fail> {
    let alloc = rt.alloc();
    let found = findings(&rt, alloc)?;
    let text = report_of(alloc, &found);
    drop(found);
    let text = text?;
    assert!(rt; text.as_slice().starts_with(HEAD.as_bytes()));
    assert!(rt; text.as_slice().ends_with(b"groups 1\n11 8 0 failed C 15\n"));
    Ok(())
}
