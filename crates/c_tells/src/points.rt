//! The change points that stand for moments.

ghost use Rattle.std.specs.Prelude.{◌≡◌};
ghost use Rattle.c_values.specs.Told.{Answers};
ghost use Rattle.c_tells.specs.Points.{ArePointsOf};

use c_values::{PctEvent, PctMoment, Refused, moments_said, steps_of};
use choices::points_of;
use pct_ask::{MAX_POINTS, MAX_STEPS, PointList};
use std::alloc::Global;

/// The change points that stand for moments in a run's steps: a moment that doesn't occur is
/// `most`. There is room for just as many numbers as there are moments.
pub fn points_told(
    alloc: Global,
    steps: &[PctEvent],
    most: u32,
    moments: &[PctMoment],
    room: usize,
) -> Result<PointList, Refused>
    ensures { Answers (ArePointsOf steps.now most moments.now room) result }
{
    if most == 0 || most > MAX_STEPS || moments.len() > MAX_POINTS || moments.len() != room {
        return Err(Refused::Bad);
    }
    let events = steps_of(alloc, steps)?;
    let said = moments_said(alloc, moments)?;
    Ok(points_of(alloc, events.as_slice(), most, said.as_slice())?)
}
