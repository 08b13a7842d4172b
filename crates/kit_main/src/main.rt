//! A small test in Rattle, run by boxed bodies: two threads count up, and a third finds that a
//! count was lost.
//!
//! What is proved, by call and clause; in parentheses the definitions:
//!
//! - `show` puts the trace of its bodies' run whole and says whether it passed, or WriteFault where
//!   the output's count of faults rose: `show`: `shows`, `write_fault` (`Shows`).
#![tactic(auto)]

ghost use Rattle.std.specs.Prelude.{◌≡◌, [], ◌∷◌, pos, IfOk};
ghost use Rattle.worker_run.specs.Samples.{sample_pending};

mod counting;
mod show;
mod shown;
mod test_parts;

use counting::Sample;
use pct_ask::Body;
use pct_outside::{HostSink, OpenGate, Sink};
use show::show;
use shown::Shown;
use std::alloc::{AllocError as NoMemory, Global};
use std::process::ExitCode;
use std::sync::Wait;
use std::thread::Threads;

/// A list of three bodies.
fn three(
    alloc: Global,
    one: Box<dyn Body + Send>,
    other: Box<dyn Body + Send>,
    last: Box<dyn Body + Send>,
) -> Result<Vec<Box<dyn Body + Send>>, NoMemory>
    ensures { IfOk result (λ all. all.items ≡ one ∷ other ∷ last ∷ []) }
{
    let mut all = Vec::with_capacity(alloc, 3)?;
    all.push_reserved(one);
    all.push_reserved(other);
    all.push_reserved(last);
    Ok(all)
}

/// Shows the run of two threads that count and one that checks.
fn show_samples<R: Threads + Wait + Sync, O: Sink>(
    rt: &R,
    alloc: Global,
    one: Box<dyn Body + Send>,
    other: Box<dyn Body + Send>,
    last: Box<dyn Body + Send>,
    out: &mut O,
) -> Shown
    requires one { pending one ≡ sample_pending 0 0 (pos 0) }
    requires other { pending other ≡ sample_pending 1 0 (pos 0) }
    requires last { pending last ≡ sample_pending 2 0 (pos 0) }
{
    match three(alloc, one, other, last) {
        Ok(bodies) => show(rt, alloc, bodies, out, &OpenGate::new()),
        Err(NoMemory) => Shown::NoMemory,
    }
}

fn main(rt: HostRuntime) -> ExitCode {
    let alloc = rt.alloc();
    let mut out = HostSink::output(rt.alloc(), rt.stdout());
    let one: Result<_, _> = Box::new(alloc, Sample::new(0));
    let other: Result<_, _> = Box::new(alloc, Sample::new(1));
    let last: Result<_, _> = Box::new(alloc, Sample::new(2));
    let shown = match (one, other, last) {
        (Ok(one), Ok(other), Ok(last)) => show_samples(&rt, alloc, one, other, last, &mut out),
        _ => Shown::NoMemory,
    };
    ExitCode::from(shown as u8)
}
