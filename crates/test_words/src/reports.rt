ghost use Rattle.std.specs.Prelude.{◌≡◌, ◌<◌, All, length, IfOk};

use crate::samples::names_of;
use failure_rank::{Group, Groups};
use pct_ask::{NameKind, Names, Row, RowList, Verdict};
use report_text::{Frame, json_report, text_report};
use std::alloc::{AllocError as NoMemory, Global};
use std::process::Abort;
use std::test::Fail;

const PASSING: &[u8] =
    b"campaign 1\nthreads 1\nsteps 1\ndepth 1\nlimit 10000\n7 0 passed\n8 0 passed\ngroups 0\n";

const FAILING: &[u8] =
    b"campaign 1\nthreads 1\nsteps 1\ndepth 2\nlimit 10000\n7 1 failed A 3\n8 1 failed A 3\ngroups 1\n2 1 7 failed A 3\n";

const FAILING_AS_JSON: &[u8] =
    b"{\"depth\":2,\"groups\":[{\"count\":2,\"first\":7,\"steps\":1,\"verdict\":\"failed A 3\"}],\"limit\":10000,\"rows\":[[7,1,\"failed A 3\"],[8,1,\"failed A 3\"]],\"steps\":1,\"threads\":1}\n";

/// The one name of a campaign's test.
const ONE_THREAD: [(NameKind, &[u8]); 1] = [(NameKind::Thread, b"A")];

fn one_thread(rt: &impl Abort, alloc: Global) -> Result<Names, Fail>
    ensures { IfOk result (λ names. 0 < length names.threads) }
{
    let names = names_of(rt, alloc, &ONE_THREAD, &[])?;
    assert!(rt; names.count(NameKind::Thread) == 1);
    Ok(names)
}

fn frame_of(depth: u32) -> Frame {
    Frame {
        threads: 1,
        steps: 1,
        depth,
        limit: 10000,
    }
}

fn two_rows(alloc: Global, steps: u32, verdict: &Verdict) -> Result<RowList, NoMemory>
    ensures { IfOk result (All (λ row. row.verdict ≡ verdict.now)) }
{
    let mut rows = RowList::new(alloc);
    for seed in 7..9 {
        rows.try_push(Row {
            seed,
            steps,
            verdict: *verdict,
        })?;
    }
    Ok(rows)
}

fn one_group(alloc: Global, verdict: &Verdict) -> Result<Groups, NoMemory>
    ensures { IfOk result (All (λ group. group.verdict ≡ verdict.now)) }
{
    let mut groups = Groups::new(alloc);
    groups.try_push(Group {
        verdict: *verdict,
        count: 2,
        steps: 1,
        first: 7,
    })?;
    Ok(groups)
}

fn expect_told(rt: &impl Abort, found: Result<Vec<u8>, NoMemory>, told: &[u8]) -> Result<(), Fail> {
    assert!(rt; found?.as_slice() == told);
    Ok(())
}

/// What is told of a campaign of two rows that passed.
fn passing_text(alloc: Global, names: &Names) -> Result<Vec<u8>, NoMemory> {
    let rows = two_rows(alloc, 0, &Verdict::Passed)?;
    let groups = Groups::new(alloc);
    let text = text_report(alloc, &frame_of(1), &rows, &groups, names);
    drop(groups);
    drop(rows);
    text
}

#[test]
fn passing_campaign(rt: HostRuntime) -> Result<(), Fail> {
    let names = one_thread(&rt, rt.alloc())?;
    let text = passing_text(rt.alloc(), &names);
    drop(names);
    expect_told(&rt, text, PASSING)
}

/// What is told of a campaign of two rows that failed alike.
fn expect_failing(rt: &impl Abort, alloc: Global, names: &Names) -> Result<(), Fail>
    requires { 0 < length names.now.threads }
{
    let verdict = Verdict::Failed { thread: 0, line: 3 };
    let rows = two_rows(alloc, 1, &verdict)?;
    let groups = one_group(alloc, &verdict)?;
    let text = text_report(alloc, &frame_of(2), &rows, &groups, names);
    let json = json_report(alloc, &frame_of(2), &rows, &groups, names);
    drop(groups);
    drop(rows);
    expect_told(rt, text, FAILING)?;
    expect_told(rt, json, FAILING_AS_JSON)
}

#[test]
fn failing_campaign(rt: HostRuntime) -> Result<(), Fail> {
    let names = one_thread(&rt, rt.alloc())?;
    let told = expect_failing(&rt, rt.alloc(), &names);
    drop(names);
    told
}
