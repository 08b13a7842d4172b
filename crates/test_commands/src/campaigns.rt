//! Campaigns of small scripts.
ghost use Rattle.std.specs.Prelude.{◌≤◌};

use crate::scripts::{ONE, code_and_deal};
use campaign::campaign;
use pct_ask::{Row, Verdict};
use pct_gate::OpenGate;
use std::alloc::Global;
use std::process::Abort;
use std::sync::Wait;
use std::test::Fail;
use std::thread::Threads;

macro_rules! row {
    ($seed:literal, $steps:literal, $verdict:expr) => {
        Row {
            seed: $seed,
            steps: $steps,
            verdict: $verdict,
        }
    };
}

const FAILED: Verdict = Verdict::Failed { thread: 0, line: 3 };

const PASSING: [Row; 2] = [row!(7, 0, Verdict::Passed), row!(8, 0, Verdict::Passed)];

const FAILING: [Row; 2] = [row!(7, 1, FAILED), row!(8, 1, FAILED)];

/// The campaign of a text's seeds 7 and 8.
fn expect_rows<R: Abort + Threads + Wait + Sync>(
    rt: &R,
    alloc: Global,
    text: &[u8],
    depth: u32,
    wanted: &[Row],
) -> Result<(), Fail>
    requires some { 1 ≤ depth }
    requires little { depth ≤ 8 }
{
    let (code, deal) = code_and_deal(alloc, text)?;
    let gate = OpenGate::new();
    let rows = campaign(rt, alloc, &code, &deal, 7, 2, depth, 1, 10_000, &gate)?;
    assert_eq!(rt; rows.as_slice(), wanted);
    Ok(())
}

/// A thread that does nothing passes under each seed, and one whose only step fails fails under
/// each.
#[test]
fn small_campaigns(rt: HostRuntime) -> Result<(), Fail> {
    let alloc = rt.alloc();
    expect_rows(&rt, alloc, ONE, 1, &PASSING)?;
    let failing = b"script 1\nthread A\nassert 0\nend\n";
    expect_rows(&rt, alloc, failing, 2, &FAILING)
}
