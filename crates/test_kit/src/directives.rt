//! Directives of the counters, by hand.
ghost use Rattle.std.specs.Prelude.{◌≡◌, ◌≤◌, [], ◌∷◌, length, IfOk};
ghost use Rattle.trace_text.specs.Trace.{head_of};
ghost use Rattle.kit_runs.specs.Runs.{head_with};

use crate::counters::Counters;
use crate::programs::{FAILED, counted, names};
use directive::Directive;
use kit_directives::{Certified, Finding, ShownCertificate, certify, find};
use kit_runs::{RunError, small_deal};
use kit_text::{TextError, show_directive};
use pct_ask::{Deal, Sequence};
use policy_pick::Moment;
use std::alloc::{AllocError as NoMemory, Global};
use std::sync::Wait;
use std::test::Fail;
use std::thread::Threads;
use trace_text::TraceFile;

/// After A has read.
const AFTER_A: Moment = Moment {
    thread: 0,
    number: 1,
};

/// After B has read.
const AFTER_B: Moment = Moment {
    thread: 1,
    number: 1,
};

/// C is last, and counters are lowered behind their reads.
fn lowered(alloc: Global, is_b: bool) -> Result<Directive, NoMemory>
    ensures { IfOk result (λ directive. directive.low ≡ 2) }
{
    let moments = if is_b {
        vec![in alloc; AFTER_A, AFTER_B]?
    } else {
        vec![in alloc; AFTER_A]?
    };
    Ok(Directive {
        low: 2,
        events: Sequence::from_vec(moments),
        verdict: FAILED,
    })
}

fn found_of<R: Threads + Wait + Sync>(
    rt: &R,
    alloc: Global,
    file: &TraceFile,
) -> Result<Finding, RunError>
    requires { head_of file.now.header ≡ head_with 1 (0 ∷ 1 ∷ 2 ∷ []) (1 ∷ []) 10000 }
{
    let deal = small_deal(alloc, 3, &[0], 0, 0)?;
    let found = find(rt, alloc, &deal, &file.header, &Counters);
    drop(deal);
    found
}

/// The directive's text; nothing where the run passed.
fn directive_text(alloc: Global, found: &Finding) -> Result<Vec<u8>, TextError> {
    let names = names(alloc)?;
    let text = match found {
        Finding::Fails { directive, .. } => show_directive(alloc, &names, directive),
        Finding::Passes { .. } => Err(TextError::Unknown),
    };
    drop(names);
    text
}

#[test]
fn finds_a_directive(rt: HostRuntime) -> Result<(), Fail> {
    let alloc = rt.alloc();
    let file = counted(&rt, alloc)?;
    let found = found_of(&rt, alloc, &file);
    drop(file);
    let found = found?;
    let text = directive_text(alloc, &found);
    let is_whole = matches!(found, Finding::Fails { steps: 8, .. });
    drop(found);
    let wanted = b"directive 1\nlow C\nafter A 1\nverdict failed C 15\n";
    assert_eq!(rt; text?.as_slice(), wanted.as_slice());
    assert!(rt; is_whole);
    Ok(())
}

fn certified<R: Threads + Wait + Sync>(
    rt: &R,
    alloc: Global,
    deal: &Deal,
    is_b: bool,
    steps: u32,
) -> Result<Certified, RunError>
    requires threads { deal.now.threads ≡ 3 }
    requires vars { 1 ≤ length deal.now.vars }
    requires steps { steps ≤ 100000 }
{
    let directive = lowered(alloc, is_b)?;
    let certified = certify(rt, alloc, deal, &directive, steps, 100, &Counters);
    drop(directive);
    certified
}

fn shown(alloc: Global, certified: &Certified) -> Result<String, NoMemory> {
    let names = &names(alloc)?;
    format!(in alloc; "{}", ShownCertificate { certified, names })
}

/// The certificate's text.
fn text_of<R: Threads + Wait + Sync>(
    rt: &R,
    alloc: Global,
    is_b: bool,
    steps: u32,
) -> Result<String, RunError>
    requires { steps ≤ 100000 }
{
    let deal = small_deal(alloc, 3, &[0], 0, 0)?;
    let answer = certified(rt, alloc, &deal, is_b, steps);
    drop(deal);
    let answer = answer?;
    let text = shown(alloc, &answer);
    drop(answer);
    Ok(text?)
}

#[test]
fn certifies_a_directive(rt: HostRuntime) -> Result<(), Fail> {
    let alloc = rt.alloc();
    let text = text_of(&rt, alloc, true, 8)?;
    let wanted = "order A B C points 1 2\norder B A C points 2 1\ncertified 1 in 192\n";
    assert_eq!(rt; text.as_str(), wanted);
    Ok(())
}

#[test]
fn certifies_no_longer_run(rt: HostRuntime) -> Result<(), Fail> {
    let alloc = rt.alloc();
    let text = text_of(&rt, alloc, true, 7)?;
    assert_eq!(rt; text.as_str(), "toolong order A B C steps 8\n");
    Ok(())
}

#[test]
fn certifies_no_other_verdict(rt: HostRuntime) -> Result<(), Fail> {
    let alloc = rt.alloc();
    let text = text_of(&rt, alloc, false, 8)?;
    assert_eq!(rt; text.as_str(), "refuted order B A C verdict passed\n");
    Ok(())
}
