//! The change points that stand for moments.

ghost use Rattle.std.specs.Prelude.{◌≡◌, ◌≤◌, length, IfOk};
ghost use Rattle.turn_book.specs.Posts.{schedule_of};
ghost use Rattle.choices.specs.Points.{point_of_moment, points_of};
ghost use Rattle.pct_ask.specs.declared.limits.TheConstants.{MAX_STEPS};

use pct_ask::{Event, PointList};
use policy_pick::Moment;
use std::alloc::{AllocError as NoMemory, Global};

/// The step at which a moment occurs among some steps, and `steps` where it doesn't.
fn point_of(events: &[Event], steps: u32, moment: Moment) -> u32
    requires { length events.now ≤ MAX_STEPS }
    ensures { result ≡ point_of_moment (schedule_of events.now) steps moment }
{
    let mut own = 0;
    let mut point = steps;
    for (place, event) in events.iter().enumerate() {
        if event.thread == moment.thread {
            own += 1;
            if own == moment.number {
                point = place as u32 + 1;
            }
        }
    }
    point
}

/// The points of moments, in their order.
pub fn points_of(
    alloc: Global,
    events: &[Event],
    steps: u32,
    moments: &[Moment],
) -> Result<PointList, NoMemory>
    requires { length events.now ≤ MAX_STEPS }
    ensures { IfOk result (λ points. points
        ≡ points_of (schedule_of events.now) steps moments.now) }
{
    let mut points = PointList::new(alloc);
    for moment in moments {
        points.try_push(point_of(events, steps, *moment))?;
    }
    Ok(points)
}
