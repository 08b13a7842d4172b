//! What the tests of several libraries need.
ghost use Rattle.std.specs.Prelude.{◌≡◌, ◌≤◌, IfOk};

use pct_ask::{Deal, Sequence};
use std::alloc::{AllocError, Global};

/// The orders of three threads.
pub const ORDERS: [[u32; 3]; 6] = [
    [0, 1, 2],
    [0, 2, 1],
    [1, 0, 2],
    [1, 2, 0],
    [2, 0, 1],
    [2, 1, 0],
];

/// So many threads, a variable of this first value, and an object or more of each other kind.
pub fn deal_of(alloc: Global, threads: u32, var: i64) -> Result<Deal, AllocError>
    requires some { 1 ≤ threads }
    requires few { threads ≤ 64 }
    ensures { IfOk result (λ deal. deal.threads ≡ threads) }
{
    Ok(Deal {
        threads,
        vars: Sequence::from_vec(vec![in alloc; var]?),
        mutexes: 2,
        conds: 1,
        sems: Sequence::from_vec(vec![in alloc; 1, 2_147_483_647]?),
        barriers: Sequence::from_vec(vec![in alloc; 1, 3, 2]?),
        rwlocks: 1,
    })
}
