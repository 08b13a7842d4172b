ghost use Rattle.std.specs.Prelude.{◌≡◌, ◌≢◌, ℕ, ◌+◌, ◌-◌, ◌<◌, ◌≤◌, length, map, IfOk};
ghost use Rattle.std.specs.Prelude.{if◌then◌else◌};
ghost use Rattle.std.specs.Int.{bit_at};
ghost use Rattle.rank_now.specs.Rank.{place_in_order, threads_of};
ghost use Rattle.rank_now.specs.Order.{IsOrder};
ghost use Rattle.rank_now.specs.Ranking.{AreAbove, AreAboveButOne};
ghost use Rattle.pct_ask.specs.declared.limits.TheConstants.{MAX_THREADS};

use std::alloc::AllocError;

/// Which threads have greater values than each one before the first step: those that the order
/// names before it. They are written into the vector that is given.
pub fn first_above(mut above: Vec<u64>, order: &[u32]) -> Result<Vec<u64>, AllocError>
    requires order { IsOrder order.now }
    requires few_threads { length order.now ≤ MAX_THREADS }
    ensures { IfOk result (λ a.
        (count : ℕ)
        → AreAbove
        (map (λ t. count + length order.now - place_in_order order.now t) (threads_of order.now))
        a.items) }
{
    above.resize(order.len(), 0)?;
    let mut before = 0u64;
    for thread in order {
        above[*thread as usize] = before;
        before |= 1u64 << *thread;
    }
    Ok(above)
}

/// Compares the thread's value with each other's, where it alone has changed.
pub fn compare_again(above: &mut [u64], values: &[u32], thread: u32)
    requires thread { thread < length values.now }
    requires few_threads { length values.now ≤ MAX_THREADS }
    requires others { AreAboveButOne values.now above.old thread }
    ensures { AreAbove values.now above.new }
{
    let value = values[thread as usize];
    let mut greater = 0u64;
    for (other, its) in values.iter().enumerate() {
        above[other] = with_bit(above[other], thread, *its < value);
        greater = with_bit(greater, other as u32, value < *its);
    }
    above[thread as usize] = greater;
}

/// The word with the thread's bit set or cleared.
fn with_bit(word: u64, thread: u32, set: bool) -> u64
    requires { thread < MAX_THREADS }
    ensures this { bit_at result thread ≡ (if set then 1 else 0) }
    ensures others { (u : ℕ) → u < MAX_THREADS → u ≢ thread → bit_at result u ≡ bit_at word u }
{
    let bit = 1u64 << thread;
    if set { word | bit } else { word & !bit }
}
