//! What the threads share, as numbers.

ghost use Rattle.std.specs.Prelude.{◌≡◌, ◌≤◌, ◌↔◌, All, IfOk, IfSome, IsSome, IsTrue, length};
ghost use Rattle.std.specs.Prelude.{replicate};
ghost use Rattle.pct_ask.specs.declared.deal.Deal.{Deal};
ghost use Rattle.pct_ask.specs.Objects.{sizes_of_deal, sizes_of_names};
ghost use Rattle.pct_ask.specs.Ranges.{IsSemValue, IsBarrierCount};
ghost use Rattle.c_values.specs.Deals.{SaysDeal, AreLawfulCounts};
ghost use Rattle.c_values.specs.Told.{Answers};

use crate::refused::Refused;
use pct_ask::{Deal, MAX_OBJECTS, MAX_THREADS, NameKind, Names, NumberList};
use std::alloc::{AllocError as NoMemory, Global};

/// How many threads there are, and objects that have no first value.
#[repr(C)]
#[derive(Clone, Copy, Debug, PartialEq, Eq)]
pub struct PctDeal {
    pub threads: u32,
    pub mutexes: u32,
    pub conditions: u32,
    pub rwlocks: u32,
}

fn are_sem_values(values: &[i64]) -> bool
    ensures { IsTrue result ↔ All IsSemValue values.now }
{
    values
        .iter()
        .all(|value| 0 <= *value && *value <= 2147483647)
}

fn are_barrier_counts(values: &[i64]) -> bool
    ensures { IsTrue result ↔ All IsBarrierCount values.now }
{
    values.iter().all(|value| 1 <= *value && *value <= 1000)
}

fn are_lawful(counts: &PctDeal, vars: &[i64], sems: &[i64], barriers: &[i64]) -> bool
    ensures { IsTrue result ↔ AreLawfulCounts counts.now vars.now sems.now barriers.now }
{
    1 <= counts.threads
        && counts.threads as usize <= MAX_THREADS
        && vars.len() <= MAX_OBJECTS
        && counts.mutexes as usize <= MAX_OBJECTS
        && counts.conditions as usize <= MAX_OBJECTS
        && sems.len() <= MAX_OBJECTS
        && barriers.len() <= MAX_OBJECTS
        && counts.rwlocks as usize <= MAX_OBJECTS
        && are_sem_values(sems)
        && are_barrier_counts(barriers)
}

fn list_of(alloc: Global, values: &[i64]) -> Result<NumberList, NoMemory>
    ensures { IfOk result (λ list. list ≡ values.now) }
{
    Ok(NumberList::from_vec(Vec::from_slice(alloc, values)?))
}

/// The deal of these counts and first values. `None` where some are out of range.
pub fn deal_of(
    alloc: Global,
    counts: &PctDeal,
    vars: &[i64],
    sems: &[i64],
    barriers: &[i64],
) -> Result<Option<Deal>, NoMemory>
    ensures deal { IfOk result (λ deal.
        IfSome deal (SaysDeal counts.now vars.now sems.now barriers.now)) }
    ensures lawful { IfOk result (λ deal.
        IsSome deal ↔ AreLawfulCounts counts.now vars.now sems.now barriers.now) }
{
    if !are_lawful(counts, vars, sems, barriers) {
        return Ok(None);
    }
    Ok(Some(Deal {
        threads: counts.threads,
        vars: list_of(alloc, vars)?,
        mutexes: counts.mutexes,
        conds: counts.conditions,
        sems: list_of(alloc, sems)?,
        barriers: list_of(alloc, barriers)?,
        rwlocks: counts.rwlocks,
    }))
}

/// The deal that the numbers say.
pub fn deal_said(
    alloc: Global,
    counts: &PctDeal,
    vars: &[i64],
    sems: &[i64],
    barriers: &[i64],
) -> Result<Deal, Refused>
    ensures { Answers (SaysDeal counts.now vars.now sems.now barriers.now) result }
{
    match deal_of(alloc, counts, vars, sems, barriers)? {
        Some(deal) => Ok(deal),
        None => Err(Refused::Bad),
    }
}

/// As many equal numbers.
fn several(alloc: Global, value: i64, count: u32) -> Result<NumberList, NoMemory>
    ensures { IfOk result (λ list. list ≡ replicate count value) }
{
    Ok(NumberList::from_vec(vec![in alloc; value; count as usize]?))
}

/// A deal of as many threads and objects of each kind as have names. `None` where no thread has.
pub fn deal_of_names(alloc: Global, names: &Names) -> Result<Option<Deal>, NoMemory>
    ensures deal { IfOk result (λ deal.
        IfSome deal (λ (d : Deal). sizes_of_deal d ≡ sizes_of_names names.now)) }
    ensures some { IfOk result (λ deal. IsSome deal ↔ 1 ≤ length names.now.threads) }
{
    let threads = names.count(NameKind::Thread);
    if threads == 0 {
        return Ok(None);
    }
    Ok(Some(Deal {
        threads,
        vars: several(alloc, 0, names.count(NameKind::Var))?,
        mutexes: names.count(NameKind::Mutex),
        conds: names.count(NameKind::Cond),
        sems: several(alloc, 0, names.count(NameKind::Sem))?,
        barriers: several(alloc, 1, names.count(NameKind::Barrier))?,
        rwlocks: names.count(NameKind::RwLock),
    }))
}
