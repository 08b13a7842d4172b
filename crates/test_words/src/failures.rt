ghost use Rattle.std.specs.Prelude.{◌≤◌, length};

use failure_rank::{Group, rank};
use pct_ask::{Blocked, Row, RowList, Verdict};
use std::alloc::Global;
use std::process::Abort;
use std::test::Fail;

fn row(seed: u64, steps: u32, verdict: Verdict) -> Row {
    Row {
        seed,
        steps,
        verdict,
    }
}

fn group(verdict: Verdict, count: u32, steps: u32, first: u64) -> Group {
    Group {
        verdict,
        count,
        steps,
        first,
    }
}

/// The rows are ranked so.
fn expect_ranked(rt: &impl Abort, alloc: Global, rows: &[Row], told: &[Group]) -> Result<(), Fail>
    requires { length rows.now ≤ 100000 }
{
    let rows = RowList::from_vec(Vec::from_slice(alloc, rows)?);
    let groups = rank(alloc, &rows);
    drop(rows);
    let groups = groups?;
    assert!(rt; groups.as_slice() == told);
    drop(groups);
    Ok(())
}

const FAILED: Verdict = Verdict::Failed { thread: 0, line: 3 };

#[test]
fn one_failure_twice(rt: HostRuntime) -> Result<(), Fail> {
    let rows = [row(7, 1, FAILED), row(8, 1, FAILED)];
    expect_ranked(&rt, rt.alloc(), &rows, &[group(FAILED, 2, 1, 7)])
}

fn stuck(line: u32) -> Verdict {
    let mut blocked = Blocked::new();
    blocked.push(0, 3);
    blocked.push(1, line);
    Verdict::Stuck { blocked }
}

#[test]
fn stuck_elsewhere_and_ties(rt: HostRuntime) -> Result<(), Fail> {
    let rows = [
        row(u64::MAX, 4, stuck(8)),
        row(0, 4, stuck(9)),
        row(1, 9, Verdict::Passed),
        row(2, 3, FAILED),
        row(2, 3, Verdict::Cut),
        row(3, 2, stuck(9)),
        row(4, 2, stuck(8)),
    ];
    let told = [
        group(stuck(9), 2, 2, 0),
        group(stuck(8), 2, 2, u64::MAX),
        group(FAILED, 1, 3, 2),
        group(Verdict::Cut, 1, 3, 2),
    ];
    expect_ranked(&rt, rt.alloc(), &rows, &told)
}
