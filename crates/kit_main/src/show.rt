ghost use Rattle.std.specs.Prelude.{◌≡◌, ◌≤◌, All, length, map, IfOk};
ghost use Rattle.pct_outside.specs.Counter.{Rose};
ghost use Rattle.trace_text.specs.Lawful.{IsKnownRun};
ghost use Rattle.kit_main.specs.Showing.{test_names, IsShowableBody, IsRunOfBodies, Shows};
ghost use Rattle.kit_main.specs.Told.{IsRunTrace, status_by};
ghost use Rattle.pct_ask.specs.declared.limits.TheConstants.{MAX_STEPS};

use crate::shown::Shown;
use crate::test_parts::{LIMIT, ORDER, POINTS, deal, header, names};
use body_kit::{BoxedRun, KitError, run_boxed};
use pct_ask::{Body, Verdict};
use pct_outside::{Gate, Sink, SinkError, put_whole};
use std::alloc::{AllocError as NoMemory, Global};
use std::sync::Wait;
use std::thread::Threads;
use trace_text::write_trace;

/// The trace of a run, and its verdict.
#[derive(Drop)]
struct Traced {
    text: Vec<u8>,
    verdict: Verdict,
}

/// The run of the bodies, by the order and the point of the test, of at most `limit` steps.
fn run_test<R: Threads + Wait + Sync, G: Gate>(
    rt: &R,
    alloc: Global,
    limit: u32,
    bodies: Vec<Box<dyn Body + Send>>,
    gate: &G,
) -> Result<BoxedRun, NoMemory>
    requires some_steps { 1 ≤ limit }
    requires few_steps { limit ≤ MAX_STEPS }
    requires three { length bodies.items ≡ 3 }
    requires bodies { All IsShowableBody (map pending bodies.items) }
    ensures run { IfOk result (λ r.
        IsRunOfBodies (map pending bodies.items) limit (r.events, r.verdict)) }
    ensures known { IfOk result (λ r. IsKnownRun test_names 1 limit r.events r.verdict) }
{
    let deal = deal(alloc)?;
    match run_boxed(rt, alloc, deal, &ORDER, &POINTS, limit, bodies, gate) {
        Ok(run) => Ok(run),
        Err(KitError::NoMemory) => Err(NoMemory),
        Err(KitError::WrongCount { .. }) => unreachable!(),
        Err(KitError::NotAnOrder { .. }) => unreachable!(),
    }
}

/// The trace of the bodies' run.
fn trace_of<R: Threads + Wait + Sync, G: Gate>(
    rt: &R,
    alloc: Global,
    bodies: Vec<Box<dyn Body + Send>>,
    gate: &G,
) -> Result<Traced, NoMemory>
    requires three { length bodies.items ≡ 3 }
    requires bodies { All IsShowableBody (map pending bodies.items) }
    ensures { IfOk result (λ t. IsRunTrace (map pending bodies.items) t.text.items t.verdict) }
{
    let run = run_test(rt, alloc, LIMIT, bodies, gate)?;
    let header = header(alloc)?;
    let names = names(alloc)?;
    let written = write_trace(alloc, &header, &names, run.events.as_slice(), &run.verdict);
    drop(names);
    let text = written?;
    Ok(Traced {
        text,
        verdict: run.verdict,
    })
}

/// How the program ends once the trace is written.
fn status_of(verdict: &Verdict) -> Shown
    ensures { result ≡ status_by verdict.now }
{
    match verdict {
        Verdict::Passed => Shown::Done,
        _ => Shown::Found,
    }
}

/// Runs three bodies as the threads A, B and C with the variable x, by this order and a change
/// point after the first step, and puts the trace of the run. Where it is not put whole, a
/// beginning of it may be.
pub fn show<R: Threads + Wait + Sync, O: Sink, G: Gate>(
    rt: &R,
    alloc: Global,
    bodies: Vec<Box<dyn Body + Send>>,
    out: &mut O,
    gate: &G,
) -> Shown
    requires three { length bodies.items ≡ 3 }
    requires bodies { All IsShowableBody (map pending bodies.items) }
    ensures shows { Shows (map pending bodies.items) (O.told out.old) (O.told out.new) result }
    ensures write_fault { result ≡ Shown.WriteFault
        → Rose (O.told out.old).faults (O.told out.new).faults }
{
    let Ok(traced) = trace_of(rt, alloc, bodies, gate) else {
        return Shown::NoMemory;
    };
    match put_whole(out, traced.text.as_slice()) {
        Ok(()) => status_of(&traced.verdict),
        Err(SinkError::Failed) => Shown::WriteFault,
        Err(SinkError::NoMemory) => Shown::NoMemory,
    }
}
