//! An order of a script's threads, by their names.

ghost use Rattle.std.specs.Prelude.{◌≡◌, ℕ, List, IfOk, MatchOption};
ghost use Rattle.pct_top.specs.Ordered.{threads_named, NamesAll, GivesOrder};

use crate::refusal::Refusal;
use crate::text::Text;
use pct_ask::{NameKind, Names, OrderList};
use rank_now::is_order;
use std::alloc::{AllocError as NoMemory, Global};

/// The threads that names stand for, where each is a thread's.
fn threads_of(alloc: Global, names: &Names, items: &[Text]) -> Result<Option<OrderList>, NoMemory>
    ensures { IfOk result (λ threads. threads ≡ threads_named names.now items.now) }
{
    let mut threads = OrderList::new(alloc);
    for item in items {
        match names.find(NameKind::Thread, item.as_str().as_bytes()) {
            Some(thread) => threads.try_push(thread)?,
            None => return Ok(None),
        }
    }
    Ok(Some(threads))
}

/// The order in which names list the threads of a script, where they list each once.
fn order_of(alloc: Global, names: &Names, items: &[Text]) -> Result<Option<OrderList>, NoMemory>
    ensures { IfOk result (λ order. MatchOption order
        ((other : List ℕ) → ¬ NamesAll names.now items.now other) (NamesAll names.now items.now)) }
{
    let Some(threads) = threads_of(alloc, names, items)? else {
        return Ok(None);
    };
    if threads.len() != names.count(NameKind::Thread) as usize {
        return Ok(None);
    }
    let whole = is_order(threads.as_slice());
    Ok(whole.then_some(threads))
}

/// The order that names give, which stand in the word of this number.
pub fn order_given(
    alloc: Global,
    names: &Names,
    items: &[Text],
    word: u32,
) -> Result<OrderList, Refusal>
    ensures { GivesOrder names.now items.now word result }
{
    match order_of(alloc, names, items)? {
        Some(order) => Ok(order),
        None => Err(Refusal::Usage { word }),
    }
}
