//! A sweep's reports, and rows that are counted one after another.
ghost use Rattle.std.specs.Prelude.{◌≤◌, ◌<◌, length, IfOk};
ghost use Rattle.failure_rank.specs.Growing.{IsTally};

use crate::samples::names_of;
use failure_rank::{Group, Tally};
use pct_ask::{NameKind, Names, OrderList, PointList, Row, Verdict};
use report_text::{Frame, SweptGroup, sweep_json, sweep_text};
use std::alloc::{AllocError as NoMemory, Global};
use std::process::Abort;
use std::test::Fail;

const SWEPT: &[u8] = b"sweep 1\nthreads 1\nsteps 2\ndepth 2\nlimit 10000\nchoices 2\ngroups 1\n\
1 4 order A points 1 verdict failed A 3\npassed 1\n";

const SWEPT_AS_JSON: &[u8] =
    b"{\"choices\":2,\"depth\":2,\"groups\":[{\"count\":1,\"order\":[\"A\"],\
\"points\":[1],\"steps\":4,\"verdict\":\"failed A 3\"}],\"limit\":10000,\"passed\":1,\"steps\":2,\
\"threads\":1}\n";

const FRAME: Frame = Frame {
    threads: 1,
    steps: 2,
    depth: 2,
    limit: 10000,
};

const FAILED: Verdict = Verdict::Failed { thread: 0, line: 3 };

/// A sweep of two choices, of which one fails, as text and as JSON.
fn expect_swept(rt: &impl Abort, alloc: Global, names: &Names) -> Result<(), Fail>
    requires { 0 < length names.now.threads }
{
    let groups = [SweptGroup {
        count: 1,
        steps: 4,
        order: OrderList::from_vec(vec![in alloc; 0]?),
        points: PointList::from_vec(vec![in alloc; 1]?),
        verdict: FAILED,
    }];
    let text = sweep_text(alloc, &FRAME, 2, &groups, 1, names);
    let json = sweep_json(alloc, &FRAME, 2, &groups, 1, names);
    drop(groups);
    assert!(rt; text?.as_slice() == SWEPT);
    assert!(rt; json?.as_slice() == SWEPT_AS_JSON);
    Ok(())
}

#[test]
fn sweep_of_two_choices(rt: HostRuntime) -> Result<(), Fail> {
    let names = names_of(&rt, rt.alloc(), &[(NameKind::Thread, b"A")], &[])?;
    assert!(rt; names.count(NameKind::Thread) == 1);
    let told = expect_swept(&rt, rt.alloc(), &names);
    drop(names);
    told
}

/// The rows, counted.
fn tally_of(alloc: Global, rows: &[Row]) -> Result<Tally, NoMemory>
    requires { length rows.now ≤ 100000 }
    ensures { IfOk result (IsTally rows.now) }
{
    let mut tally = Tally::new(alloc);
    for row in rows {
        tally.add(row)?;
    }
    Ok(tally)
}

fn row(seed: u64, steps: u32, verdict: Verdict) -> Row {
    Row {
        seed,
        steps,
        verdict,
    }
}

#[test]
fn rows_are_counted(rt: HostRuntime) -> Result<(), Fail> {
    let rows = [
        row(0, 3, FAILED),
        row(1, 2, FAILED),
        row(2, 5, Verdict::Passed),
    ];
    let tally = tally_of(rt.alloc(), &rows)?;
    assert!(rt; tally.passed() == 1);
    let groups = tally.into_groups(rt.alloc())?;
    let told = [Group {
        verdict: FAILED,
        count: 2,
        steps: 2,
        first: 0,
    }];
    assert!(rt; groups.as_slice() == told.as_slice());
    drop(groups);
    Ok(())
}
