//! The order in which a run's steps take mutexes.

ghost use Rattle.std.specs.Prelude.{◌≡◌, IfOk, map};
ghost use Rattle.c_values.specs.Told.{Answers};
ghost use Rattle.c_tells.specs.Locks.{nesting_numbers, locks_of, AreLocksOf};

use crate::run::run_of;
use c_values::{PctDeal, PctEvent, Refused};
use lock_order::{IdList, LockReport, Nesting, lock_order};
use pct_ask::Sequence;
use std::alloc::{AllocError as NoMemory, Global};

/// A thread takes a mutex while it holds another.
#[repr(C)]
#[derive(Clone, Copy, Debug, PartialEq, Eq)]
pub struct PctNesting {
    pub step: u32,
    pub thread: u32,
    pub held: u32,
    pub taken: u32,
}

/// An order of the mutexes, or a cycle of nestings.
#[derive(Drop)]
pub enum LocksTold {
    Order { mutexes: IdList },
    Cycle { nestings: Sequence<PctNesting> },
}

fn numbers_of_nesting(nesting: &Nesting) -> PctNesting
    ensures { result ≡ nesting_numbers nesting.now }
{
    PctNesting {
        step: nesting.step,
        thread: nesting.thread,
        held: nesting.held,
        taken: nesting.taken,
    }
}

fn numbers_of(alloc: Global, nestings: &[Nesting]) -> Result<Vec<PctNesting>, NoMemory>
    ensures { IfOk result (λ numbers. numbers.items ≡ map nesting_numbers nestings.now) }
{
    nestings
        .iter()
        .map(|nesting| numbers_of_nesting(nesting))
        .collect(alloc)
}

fn told_of(alloc: Global, report: LockReport) -> Result<LocksTold, NoMemory>
    ensures { IfOk result (λ told. told ≡ locks_of report) }
{
    match report {
        LockReport::Order { mutexes } => Ok(LocksTold::Order { mutexes }),
        LockReport::Cycle { nestings } => Ok(LocksTold::Cycle {
            nestings: Sequence::from_vec(numbers_of(alloc, nestings.as_slice())?),
        }),
    }
}

/// Whether a run's steps take the mutexes in one order.
pub fn locks_told(
    alloc: Global,
    counts: &PctDeal,
    vars: &[i64],
    sems: &[i64],
    barriers: &[i64],
    steps: &[PctEvent],
) -> Result<LocksTold, Refused>
    ensures { Answers (AreLocksOf counts.now vars.now sems.now barriers.now steps.now) result }
{
    let run = run_of(alloc, counts, vars, sems, barriers, steps)?;
    let report = lock_order(alloc, &run.deal, run.events.as_slice())?;
    Ok(told_of(alloc, report)?)
}
