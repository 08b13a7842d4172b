//! The moments of a run's change points.

ghost use Rattle.std.specs.Prelude.{◌≡◌, ◌≤◌, ◌↔◌, IfOk, IsTrue, All, map};
ghost use Rattle.c_values.specs.Moments.{moment_numbers};
ghost use Rattle.c_values.specs.Told.{Answers};
ghost use Rattle.c_tells.specs.Moments.{AreMomentsOf};

use c_values::{PctEvent, PctMoment, Refused, numbers_of_moment, steps_of};
use choices::moments_of;
use pct_ask::{MAX_POINTS, Sequence};
use policy_pick::Moment;
use std::alloc::{AllocError as NoMemory, Global};

fn are_steps(points: &[u32]) -> bool
    ensures { IsTrue result ↔ All (λ point. 1 ≤ point) points.now }
{
    points.iter().all(|point| *point >= 1)
}

fn numbers_of(alloc: Global, moments: &[Moment]) -> Result<Vec<PctMoment>, NoMemory>
    ensures { IfOk result (λ numbers. numbers.items ≡ map moment_numbers moments.now) }
{
    moments
        .iter()
        .map(|moment| numbers_of_moment(*moment))
        .collect(alloc)
}

/// The moments of a run's change points: for each point that is a step and that no later one
/// equals, its thread and the number of that thread's own step.
pub fn moments_told(
    alloc: Global,
    steps: &[PctEvent],
    points: &[u32],
) -> Result<Sequence<PctMoment>, Refused>
    ensures { Answers (AreMomentsOf steps.now points.now) result }
{
    if points.len() > MAX_POINTS || !are_steps(points) {
        return Err(Refused::Bad);
    }
    let events = steps_of(alloc, steps)?;
    let moments = moments_of(alloc, events.as_slice(), points)?;
    Ok(Sequence::from_vec(numbers_of(alloc, moments.as_slice())?))
}
