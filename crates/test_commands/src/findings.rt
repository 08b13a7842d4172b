//! What is found of a script's run.
ghost use Rattle.std.specs.Prelude.{◌≤◌, length, All};

use crate::scripts::{ADDERS, FAILED, FIRST_OF_A, code_and_deal};
use directive_find::{FoundOut, find};
use pct_gate::OpenGate;
use std::alloc::Global;
use std::process::Abort;
use std::sync::Wait;
use std::test::Fail;
use std::thread::Threads;

/// What is found of the adders under its threads in their order and these points.
fn found<R: Threads + Wait + Abort + Sync>(
    rt: &R,
    alloc: Global,
    points: &[u32],
) -> Result<FoundOut, Fail>
    requires few { length points.now ≤ 7 }
    requires points { All (λ point. 1 ≤ point) points.now }
{
    let (code, deal) = code_and_deal(alloc, ADDERS)?;
    assert!(rt; deal.threads == 3);
    let gate = OpenGate::new();
    Ok(find(rt, alloc, &code, &deal, &[0, 1, 2], points, 10_000, &gate)?)
}

/// That the first step of the first thread is all that the failed check needs.
fn expect_one<R: Threads + Wait + Abort + Sync>(
    rt: &R,
    alloc: Global,
    points: &[u32],
) -> Result<(), Fail>
    requires few { length points.now ≤ 7 }
    requires points { All (λ point. 1 ≤ point) points.now }
{
    match found(rt, alloc, points)? {
        FoundOut::Events {
            events,
            verdict,
            steps,
        } => {
            assert_eq!(rt; events.as_slice(), [FIRST_OF_A].as_slice());
            assert_eq!(rt; verdict, FAILED);
            assert_eq!(rt; steps, 8);
        }
        FoundOut::Passes { .. } => assert!(rt; false),
    }
    Ok(())
}

#[test]
fn needs_one_moment(rt: HostRuntime) -> Result<(), Fail> {
    expect_one(&rt, rt.alloc(), &[1, 5])?;
    expect_one(&rt, rt.alloc(), &[1, 1])
}

#[test]
fn has_nothing_to_find(rt: HostRuntime) -> Result<(), Fail> {
    match found(&rt, rt.alloc(), &[8, 100])? {
        FoundOut::Passes { steps } => assert_eq!(rt; steps, 8),
        FoundOut::Events { .. } => assert!(rt; false),
    }
    Ok(())
}
