// The runs of all seeds, and their failures.
ghost use Rattle.std.specs.Prelude.{◌≡◌, ◌≤◌, IfOk};
ghost use Rattle.failure_rank.specs.Groups.{IsRanking};
ghost use Rattle.kit_runs.specs.Rows.{AreRowsOf, IsRowOf, frame_by};

use crate::drawing::run_seed;
use crate::error::RunError;
use crate::program::Program;
use crate::seeds::Seeds;
use failure_rank::{Groups, rank};
use pct_ask::{Deal, Row, RowList};
use report_text::Frame;
use std::alloc::Global;
use std::sync::Wait;
use std::thread::Threads;

/// The runs of a campaign, one row for each seed, and their failures in groups.
#[derive(Debug, Drop)]
pub struct Findings {
    pub frame: Frame,
    pub rows: RowList,
    pub groups: Groups,
}

/// The row of a seed's run.
fn row_of_seed<R: Threads + Wait + Sync, T: Program + Sync>(
    rt: &R,
    alloc: Global,
    deal: &Deal,
    seeds: &Seeds,
    seed: u64,
    program: &T,
) -> Result<Row, RunError>
    requires fits { T.fits program.now deal.now }
    ensures { IfOk result (IsRowOf deal.now seeds.now seed) }
{
    let run = run_seed(rt, alloc, deal, seeds, seed, program)?;
    Ok(Row {
        seed,
        steps: run.events.len() as u32,
        verdict: run.verdict,
    })
}

/// Runs a program once for each of the seeds, one after another.
pub fn campaign<R: Threads + Wait + Sync, T: Program + Sync>(
    rt: &R,
    alloc: Global,
    deal: &Deal,
    seeds: &Seeds,
    program: &T,
) -> Result<Findings, RunError>
    requires fits { T.fits program.now deal.now }
    ensures rows { IfOk result (λ found. AreRowsOf deal.now seeds.now seeds.now.count found.rows) }
    ensures frame { IfOk result (λ found. found.frame ≡ frame_by deal.now seeds.now) }
    ensures groups { IfOk result (λ found. IsRanking found.rows found.groups) }
{
    let mut rows = Vec::with_capacity(alloc, seeds.count as usize)?;
    for place in 0..seeds.count {
        let row = row_of_seed(rt, alloc, deal, seeds, seeds.at(place), program)?;
        rows.push_reserved(row);
    }
    let rows = RowList::from_vec(rows);
    let groups = rank(alloc, &rows)?;
    let frame = Frame {
        threads: deal.threads,
        steps: seeds.steps,
        depth: seeds.depth,
        limit: seeds.limit,
    };
    Ok(Findings {
        frame,
        rows,
        groups,
    })
}
