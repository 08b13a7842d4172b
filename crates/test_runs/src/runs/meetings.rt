//! Threads that meet at the gate before their first posts: they run at once.
ghost use Rattle.std.specs.Prelude.{◌≢◌};

use super::{expect_here, expect_in_order};
use pct_outside::PairGate;
use std::alloc::Global;
use std::process::Abort;
use std::sync::Wait;
use std::test::Fail;
use std::thread::Threads;

const LOOKS: u64 = 10_000_000;

/// Two threads meet at the gate before their first posts.
fn expect_met<R: Threads + Wait + Sync + Abort>(
    rt: &R,
    alloc: Global,
    one: u32,
    other: u32,
) -> Result<(), Fail>
    requires { one ≢ other }
{
    let gate = PairGate::new(one, other, LOOKS);
    expect_in_order(rt, alloc, &gate)?;
    assert!(rt; gate.met());
    Ok(())
}

/// Each pair of threads meets.
#[test]
fn meets_at_the_gate(rt: HostRuntime) -> Result<(), Fail> {
    expect_met(&rt, rt.alloc(), 0, 1)?;
    expect_met(&rt, rt.alloc(), 0, 2)?;
    expect_met(&rt, rt.alloc(), 1, 2)
}

/// One thread that serves all bodies meets nobody.
#[test]
fn meets_nobody_here(rt: HostRuntime) -> Result<(), Fail> {
    let gate = PairGate::new(0, 1, 10);
    expect_here(&rt, rt.alloc(), &gate)?;
    assert!(rt; !gate.met());
    Ok(())
}
