//! Whether moments may be written.

ghost use Rattle.std.specs.Prelude.{◌↔◌, IsTrue, All};
ghost use Rattle.directive.specs.Directive.{IsMoment};

use pct_ask::{MAX_STEPS, NameKind, Names};
use policy_pick::Moment;

/// Whether each moment's thread has a name, and its number is one of a step, from 1 to `MAX_STEPS`.
pub fn are_known_moments(names: &Names, moments: &[Moment]) -> bool
    ensures { IsTrue result ↔ All (IsMoment names.now) moments.now }
{
    let threads = names.count(NameKind::Thread);
    moments.iter().all(|moment| {
        moment.thread < threads && 1 <= moment.number && moment.number <= MAX_STEPS
    })
}
