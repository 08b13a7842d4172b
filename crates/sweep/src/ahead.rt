// Which choices come next: those that repeat a run that is counted are left out.
ghost use Rattle.std.specs.Prelude.{◌≡◌, ◌≤◌, ◌<◌, All, IfOk, Some, length, slice_get};
ghost use Rattle.sweep.specs.Choices.{choices, choice_count};
ghost use Rattle.sweep.specs.declared.choice.Choice.{Choice};
ghost use Rattle.sweep.specs.Weights.{weight};
ghost use Rattle.sweep.specs.Batches.{setup_of_sweep, AreAhead};

use crate::choice::{list_count, weight_at};
use crate::common::{Reach, Sweep};
use std::alloc::{AllocError as NoMemory, Global};

/// Choices whose runs come next.
#[derive(Drop)]
pub struct Ahead {
    /// Their places among all choices.
    pub places: Vec<u32>,
    /// Before this place all others repeat runs that are counted.
    pub end: u32,
}

/// For how many choices the one at a place stands, where its run has `length` steps.
pub fn stands_for(sweep: &Sweep<'_>, place: u32, length: u32) -> u32
    requires { place
        < choice_count sweep.now.script.deal.now.threads sweep.now.steps sweep.now.points }
    ensures { (choice : Choice)
        → slice_get
        (choices sweep.now.script.deal.now.threads sweep.now.steps sweep.now.points) place
        ≡ Some choice → result ≡ weight sweep.now.steps length choice.points }
{
    let lists = list_count(sweep.steps, sweep.points);
    weight_at(sweep.steps, sweep.points, length, place % lists)
}

/// The choices that come next, at most so many. A choice with a point above the longest run repeats
/// the run of an earlier one, whose point is that run's last step.
pub fn choices_ahead(
    alloc: Global,
    sweep: &Sweep<'_>,
    reach: Reach,
    most: u32,
) -> Result<Ahead, NoMemory>
    requires some { 1 ≤ most }
    requires within { reach.place < sweep.now.choices }
    ensures few { IfOk result (λ ahead. length ahead.places.items ≤ most) }
    ensures within { IfOk result (λ ahead. All (λ place. place < sweep.now.choices)
        ahead.places.items) }
    ensures end { IfOk result (λ ahead. ahead.end ≤ sweep.now.choices) }
    ensures goes_on { IfOk result (λ ahead. reach.place < ahead.end) }
    ensures ahead { IfOk result (λ ahead. AreAhead (setup_of_sweep sweep.now) reach.longest
        reach.place ahead.places.items ahead.end) }
{
    let mut places = Vec::with_capacity(alloc, most as usize)?;
    let mut end = reach.place;
    'choices: while end < sweep.choices && places.len() < most as usize {
        if stands_for(sweep, end, reach.longest) > 0 {
            places.push_reserved(end);
        }
        end += 1;
    }
    Ok(Ahead { places, end })
}
