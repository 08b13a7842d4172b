// Runs of the queue by the seeds of priority orders and change points.
ghost use Rattle.std.specs.Prelude.{◌≡◌, ◌<◌, ◌∷◌, [], length, IfOk};
ghost use Rattle.kit_example.specs.Queue.{worker_pending, taker, putter};

use body_kit::{BoxedRun, KitError, run_boxed};
use pct_ask::{Body, Deal, Sequence};
use pct_gate::OpenGate;
use priority_draw::Words;
use std::alloc::{AllocError as NoMemory, Global};
use std::sync::Wait;
use std::thread::Threads;

/// About how many steps a run has.
const STEPS: u32 = 30;

/// Three threads, the place of the queue, a mutex and two conditions.
fn deal(alloc: Global) -> Result<Deal, NoMemory>
    ensures threads { IfOk result (λ deal. deal.threads ≡ 3) }
    ensures vars { IfOk result (λ deal. length deal.vars ≡ 1) }
    ensures mutexes { IfOk result (λ deal. deal.mutexes ≡ 1) }
    ensures conds { IfOk result (λ deal. deal.conds ≡ 2) }
{
    Ok(Deal {
        threads: 3,
        vars: Sequence::from_vec(vec![in alloc; 0]?),
        mutexes: 1,
        conds: 2,
        sems: Sequence::new(alloc),
        barriers: Sequence::new(alloc),
        rwlocks: 0,
    })
}

/// A list of three bodies.
fn three(
    alloc: Global,
    one: Box<dyn Body + Send>,
    other: Box<dyn Body + Send>,
    last: Box<dyn Body + Send>,
) -> Result<Vec<Box<dyn Body + Send>>, NoMemory>
    ensures { IfOk result (λ all. all.items ≡ one ∷ other ∷ last ∷ []) }
{
    let mut all = Vec::with_capacity(alloc, 3)?;
    all.push_reserved(one);
    all.push_reserved(other);
    all.push_reserved(last);
    Ok(all)
}

/// Two takers and a putter, over these two conditions, by the order and the change point of a seed.
pub fn run_seed<R: Threads + Wait + Sync>(
    rt: &R,
    alloc: Global,
    seed: u64,
    filled: u32,
    emptied: u32,
    one: Box<dyn Body + Send>,
    other: Box<dyn Body + Send>,
    last: Box<dyn Body + Send>,
) -> Result<BoxedRun, KitError>
    requires filled { filled < 2 }
    requires emptied { emptied < 2 }
    requires one { pending one ≡ worker_pending (taker filled emptied) }
    requires other { pending other ≡ worker_pending (taker filled emptied) }
    requires last { pending last ≡ worker_pending (putter filled emptied) }
{
    let mut words = Words::of_seed(seed);
    let order = words.draw_order(alloc, 3)?;
    let points = words.draw_points(alloc, STEPS, 1)?;
    let order = order.as_slice();
    let points = points.as_slice();
    let deal = deal(alloc)?;
    let bodies = three(alloc, one, other, last)?;
    let gate = OpenGate::new();
    run_boxed(rt, alloc, deal, order, points, 1_000, bodies, &gate)
}
