//! The moments of a run's change points.

ghost use Rattle.std.specs.Prelude.{◌≡◌, ◌≤◌, ◌<◌, ◌==◌, length, remove, count_by, IfOk, All};
ghost use Rattle.std.specs.List.{list_any};
ghost use Rattle.pct_ask.specs.declared.event.Event.{Event};
ghost use Rattle.turn_book.specs.Posts.{schedule_of};
ghost use Rattle.choices.specs.Moments.{moment_at, is_kept, moments_of};

use pct_ask::Event;
use policy_pick::{Moment, MomentList};
use std::alloc::{AllocError as NoMemory, Global};

/// How many of some steps a thread took.
fn own_steps(events: &[Event], thread: u32) -> usize
    ensures { result ≡ count_by (λ (event : Event). event.thread == thread) events.now }
{
    events.iter().filter(|event| event.thread == thread).count()
}

/// The moment of a step, counted from 1: its thread, and the number of the thread's own step that
/// it is.
fn moment_at(events: &[Event], step: u32) -> Moment
    requires some { 1 ≤ step }
    requires within { step ≤ length events.now }
    ensures { result ≡ moment_at (schedule_of events.now) step }
{
    let thread = events[step as usize - 1].thread;
    let number = own_steps(&events[..step as usize], thread) as u32;
    Moment { thread, number }
}

/// Whether a point is one of these.
fn is_among(points: &[u32], point: u32) -> bool
    ensures { result ≡ list_any (λ other. other == point) points.now }
{
    points.iter().any(|other| *other == point)
}

/// Whether a point is a step of the run, and no later one is the same.
fn is_kept(events: &[Event], point: u32, later: &[u32]) -> bool
    ensures { result ≡ is_kept (schedule_of events.now) point later.now }
{
    point as usize <= events.len() && !is_among(later, point)
}

/// The moments of those points that are steps of the run. Of equal points the last one counts.
pub fn moments_of(alloc: Global, events: &[Event], points: &[u32]) -> Result<MomentList, NoMemory>
    requires points { All (λ point. 1 ≤ point) points.now }
    ensures { IfOk result (λ moments. moments ≡ moments_of (schedule_of events.now) points.now) }
{
    let mut moments = MomentList::new(alloc);
    for (place, point) in points.iter().enumerate() {
        let later = &points[place + 1..];
        if is_kept(events, *point, later) {
            let moment = moment_at(events, *point);
            moments.try_push(moment)?;
        }
    }
    Ok(moments)
}

/// The moments but the one at a place.
pub fn without_moment(
    alloc: Global,
    moments: &[Moment],
    place: usize,
) -> Result<MomentList, NoMemory>
    requires { place < length moments.now }
    ensures { IfOk result (λ rest. rest ≡ remove moments.now place) }
{
    let mut rest = Vec::from_slice(alloc, moments)?;
    rest.remove(place);
    Ok(MomentList::from_vec(rest))
}
