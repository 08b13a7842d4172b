ghost use Rattle.std.specs.Prelude.{◌≡◌, ◌≤◌, length};
ghost use Rattle.policy_pick.specs.Choice.{choice_by_rank, choice_by_number};
ghost use Rattle.pct_ask.specs.declared.limits.TheConstants.{MAX_THREADS};

use crate::chance::{Chance, Pick, is_open, pick_at};
use rank_now::Ranks;

/// The pick of the walk by falling value: down the order past those that were lowered, and then
/// down the values that they were lowered to.
pub fn pick_by_rank(ranks: &Ranks, chances: &[Chance]) -> Pick
    requires threads { length chances.now ≡ length ranks.now.values }
    requires few_threads { length chances.now ≤ MAX_THREADS }
    ensures { result ≡ choice_by_rank ranks.now.values chances.now }
{
    let greatest = ranks.greatest();
    for below in 0..greatest {
        if let Some(thread) = ranks.holder(greatest - below) {
            let chance = chances[thread as usize];
            if is_open(chance) {
                return pick_at(Pick::Thread(thread), thread, chance);
            }
        }
    }
    Pick::Nobody
}

/// The pick of the walk by rising number, after a list.
pub fn pick_by_number(chances: &[Chance]) -> Pick
    requires { length chances.now ≤ MAX_THREADS }
    ensures { result ≡ choice_by_number chances.now }
{
    for (thread, chance) in chances.iter().enumerate() {
        if is_open(*chance) {
            return pick_at(Pick::Departs(thread as u32), thread as u32, *chance);
        }
    }
    Pick::Nobody
}
