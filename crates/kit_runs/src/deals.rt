ghost use Rattle.std.specs.Prelude.{◌≡◌, ◌≤◌, length, IfOk};
ghost use Rattle.kit_runs.specs.Deals.{IsSmallDeal};
ghost use Rattle.pct_ask.specs.declared.limits.TheConstants.{MAX_OBJECTS, MAX_THREADS};

use pct_ask::{Deal, NumberList, Sequence};
use std::alloc::{AllocError as NoMemory, Global};

/// What threads share that have variables with these first values, mutexes and conditions, and
/// nothing else. There are at most 64 of each.
pub fn small_deal(
    alloc: Global,
    threads: u32,
    vars: &[i64],
    mutexes: u32,
    conds: u32,
) -> Result<Deal, NoMemory>
    requires some_thread { 1 ≤ threads }
    requires few_threads { threads ≤ MAX_THREADS }
    requires few_vars { length vars.now ≤ MAX_OBJECTS }
    requires few_mutexes { mutexes ≤ MAX_OBJECTS }
    requires few_conds { conds ≤ MAX_OBJECTS }
    ensures { IfOk result (IsSmallDeal threads vars.now mutexes conds) }
{
    Ok(Deal {
        threads,
        vars: NumberList::from_vec(Vec::from_slice(alloc, vars)?),
        mutexes,
        conds,
        sems: Sequence::new(alloc),
        barriers: Sequence::new(alloc),
        rwlocks: 0,
    })
}
