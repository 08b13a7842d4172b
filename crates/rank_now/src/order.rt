ghost use Rattle.std.specs.Prelude.{◌≡◌, ℕ, ◌<◌, ◌≤◌, length, IfSome, IsNone, IsTrue, ◌↔◌};
ghost use Rattle.rank_now.specs.Order.{IsOrder, IsFirstWrong, IsWrongAt};
ghost use Rattle.pct_ask.specs.declared.limits.TheConstants.{MAX_THREADS};

use std::alloc::AllocError as NoMemory;
use thiserror::Error;

/// Why no ranks were made.
#[derive(Debug, Drop, Error)]
pub enum RankError {
    /// The thread at this place, from 0, is none of the order's, or was named before.
    #[error("the thread at place {at} makes this no order")]
    NotAnOrder { at: u32 },
    #[error("no memory")]
    NoMemory,
}

impl From<NoMemory> for RankError {
    ghost use Rattle.std.specs.Prelude.{◌≡◌};
    ghost use Rattle.rank_now.specs.declared.order.RankError.TheVariants.{NoMemory};

    ghost from_gives = { λ _ e. e ≡ NoMemory };

    fn from(_e: NoMemory) -> RankError {
        RankError::NoMemory
    }
}

/// The first place at which the list is no order of as many threads as it names.
pub fn first_wrong(order: &[u32]) -> Option<u32>
    requires { length order.now ≤ MAX_THREADS }
    ensures found { IfSome result (IsFirstWrong order.now) }
    ensures none { IsNone result → (place : ℕ) → place < length order.now
        → ¬ IsWrongAt order.now place }
    ensures order { IsNone result → IsOrder order.now }
{
    for (place, thread) in order.iter().enumerate() {
        if *thread as usize >= order.len() || order[..place].contains(thread) {
            return Some(place as u32);
        }
    }
    None
}

/// Whether a list names each of as many threads as it has once.
pub fn is_order(order: &[u32]) -> bool
    requires { length order.now ≤ MAX_THREADS }
    ensures { IsTrue result ↔ IsOrder order.now }
{
    first_wrong(order).is_none()
}
