//! Runs of bodies in boxes.
ghost use Rattle.std.specs.Prelude.{◌≡◌, ◌<◌, ◌≤◌, ◌^◌, length, pos, [], ◌∷◌, IfOk};
ghost use Rattle.worker_run.specs.Samples.{sample_pending};

use crate::deals::deal_of;
use crate::ports::is_wrong_count;
use crate::samples::Sample;
use crate::steps::{FAILED, LOST_UPDATE};
use body_kit::{BoxedRun, KitError, run_boxed};
use pct_ask::Body;
use pct_outside::OpenGate;
use std::alloc::{AllocError as NoMemory, Global};
use std::sync::Wait;
use std::test::Fail;
use std::thread::Threads;

/// A list of three bodies.
fn three(
    alloc: Global,
    one: Box<dyn Body + Send>,
    other: Box<dyn Body + Send>,
    last: Box<dyn Body + Send>,
) -> Result<Vec<Box<dyn Body + Send>>, NoMemory>
    ensures { IfOk result (λ all. all.items ≡ one ∷ other ∷ last ∷ []) }
{
    let mut all = Vec::with_capacity(alloc, 3)?;
    all.push_reserved(one);
    all.push_reserved(other);
    all.push_reserved(last);
    Ok(all)
}

/// A run of three bodies.
fn run_three<R: Threads + Wait + Sync>(
    rt: &R,
    alloc: Global,
    one: Box<dyn Body + Send>,
    other: Box<dyn Body + Send>,
    last: Box<dyn Body + Send>,
    order: &[u32],
    points: &[u32],
) -> Result<BoxedRun, KitError>
    requires few_points { length points.now ≤ 7 }
    requires few_names { length order.now < 2 ^ 32 }
    requires one { pending one ≡ sample_pending 0 0 (pos 0) }
    requires other { pending other ≡ sample_pending 1 0 (pos 0) }
    requires last { pending last ≡ sample_pending 2 0 (pos 0) }
{
    let bodies = three(alloc, one, other, last)?;
    let deal = deal_of(alloc, 3)?;
    let gate = OpenGate::new();
    run_boxed(rt, alloc, deal, order, points, 10_000, bodies, &gate)
}

/// A run of the small test's bodies, or why there is none.
fn run_samples<R: Threads + Wait + Sync>(
    rt: &R,
    alloc: Global,
    order: &[u32],
    points: &[u32],
) -> Result<Result<BoxedRun, KitError>, NoMemory>
    requires few_points { length points.now ≤ 7 }
    requires few_names { length order.now < 2 ^ 32 }
{
    let one = Box::new(alloc, Sample::new(0))?;
    let other = Box::new(alloc, Sample::new(1))?;
    let last = Box::new(alloc, Sample::new(2))?;
    Ok(run_three(rt, alloc, one, other, last, order, points))
}

#[test]
fn runs_boxed_bodies(rt: HostRuntime) -> Result<(), Fail> {
    let run = run_samples(&rt, rt.alloc(), &[0, 1, 2], &[1])??;
    assert_eq!(rt; run.events.as_slice(), LOST_UPDATE.as_slice());
    assert_eq!(rt; run.verdict, FAILED);
    Ok(())
}

/// Whether an order was refused that names a thread twice, the second time at this place.
fn is_no_order(run: &Result<BoxedRun, KitError>, place: u32) -> bool {
    matches!(run, Err(KitError::NotAnOrder { at }) if *at == place)
}

#[test]
fn refuses_boxed_bodies(rt: HostRuntime) -> Result<(), Fail> {
    let run = run_samples(&rt, rt.alloc(), &[0, 0, 1], &[])?;
    assert!(rt; is_no_order(&run, 1));
    let run = run_samples(&rt, rt.alloc(), &[0, 1], &[])?;
    assert!(rt; matches!(&run, Err(error) if is_wrong_count(error, 3, 2)));
    Ok(())
}
