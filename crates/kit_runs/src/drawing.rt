// The runs of seeds.
ghost use Rattle.std.specs.Prelude.{◌≡◌, ◌≤◌, length, IfOk};
ghost use Rattle.kit_runs.specs.Rows.{IsRunOfSeed, IsDrawOf};
ghost use Rattle.pct_ask.specs.declared.limits.TheConstants.{MAX_STEPS, MAX_THREADS};

use crate::error::RunError;
use crate::program::Program;
use crate::running::run_program;
use crate::seeds::Seeds;
use pct_ask::{Deal, OrderList, PointList};
use priority_draw::Words;
use std::alloc::{AllocError as NoMemory, Global};
use std::sync::Wait;
use std::thread::Threads;
use trace_text::TraceFile;

/// What a seed draws.
#[derive(Debug, Drop)]
struct Drawn {
    order: OrderList,
    points: PointList,
}

/// The order and the change points of a seed.
fn draw(alloc: Global, threads: u32, seeds: &Seeds, seed: u64) -> Result<Drawn, NoMemory>
    requires some_thread { 1 ≤ threads }
    requires few_threads { threads ≤ MAX_THREADS }
    ensures { IfOk result (λ drawn.
        IsDrawOf threads seeds.now seed drawn.order drawn.points) }
{
    let mut words = Words::of_seed(seed);
    let order = words.draw_order(alloc, threads)?;
    let points = words.draw_points(alloc, seeds.steps, seeds.depth - 1)?;
    Ok(Drawn { order, points })
}

/// Runs a program by the order and the change points of a seed.
pub fn run_seed<R: Threads + Wait + Sync, T: Program + Sync>(
    rt: &R,
    alloc: Global,
    deal: &Deal,
    seeds: &Seeds,
    seed: u64,
    program: &T,
) -> Result<TraceFile, RunError>
    requires fits { T.fits program.now deal.now }
    ensures run { IfOk result (IsRunOfSeed deal.now seeds.now seed) }
    ensures short { IfOk result (λ file. length file.events ≤ MAX_STEPS) }
{
    let drawn = draw(alloc, deal.threads, seeds, seed)?;
    let own = deal.copy(alloc)?;
    let order = drawn.order.as_slice();
    let points = drawn.points.as_slice();
    run_program(rt, alloc, own, order, points, seeds.limit, program)
}
