//! The data races of a run's steps.

ghost use Rattle.std.specs.Prelude.{◌≡◌, IfOk, map};
ghost use Rattle.c_values.specs.Told.{Answers};
ghost use Rattle.c_tells.specs.Races.{race_numbers, AreRacesOf};

use crate::run::run_of;
use c_values::{PctDeal, PctEvent, Refused};
use hb_race::{Race, races};
use pct_ask::{Outcome, Sequence, Verdict};
use std::alloc::{AllocError as NoMemory, Global};
use worker_run::Played;

/// Two steps that race on a variable.
#[repr(C)]
#[derive(Clone, Copy, Debug, PartialEq, Eq)]
pub struct PctRace {
    pub variable: u32,
    pub first: u32,
    pub second: u32,
}

fn numbers_of_race(race: &Race) -> PctRace
    ensures { result ≡ race_numbers race.now }
{
    PctRace {
        variable: race.var,
        first: race.first,
        second: race.second,
    }
}

fn numbers_of(alloc: Global, races: &[Race]) -> Result<Vec<PctRace>, NoMemory>
    ensures { IfOk result (λ numbers. numbers.items ≡ map race_numbers races.now) }
{
    races
        .iter()
        .map(|race| numbers_of_race(race))
        .collect(alloc)
}

/// The data races of a run's steps, by happens-before: at most one for each variable.
pub fn races_told(
    alloc: Global,
    counts: &PctDeal,
    vars: &[i64],
    sems: &[i64],
    barriers: &[i64],
    steps: &[PctEvent],
) -> Result<Sequence<PctRace>, Refused>
    ensures { Answers (AreRacesOf counts.now vars.now sems.now barriers.now steps.now) result }
{
    let run = run_of(alloc, counts, vars, sems, barriers, steps)?;
    // Races are those of the steps, whatever became of the run.
    let played = Played {
        events: run.events,
        outcome: Outcome::Verdict(Verdict::Passed),
    };
    let found = races(alloc, &run.deal, &played)?;
    Ok(Sequence::from_vec(numbers_of(alloc, found.as_slice())?))
}
