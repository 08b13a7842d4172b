ghost use Rattle.std.specs.Prelude.{◌≡◌, ◌≤◌, length};
ghost use Rattle.pct_ask.specs.declared.verdict.Outcome.{Outcome};
ghost use Rattle.pct_ask.specs.declared.verdict.Verdict.{Verdict};

use pct_ask::{Event, EventList, Limit, Outcome, Verdict};

/// A run: its steps, and its outcome.
#[derive(Debug, Drop)]
pub struct Played {
    pub events: EventList,
    pub outcome: Outcome,
}

/// How many steps a run of at most `limit` steps has.
pub fn count_steps(events: &[Event], limit: Limit) -> u32
    requires within { length events.now ≤ limit }
    ensures { result ≡ length events.now }
{
    let _most = limit.steps(); // of so many steps the number fits
    events.len() as u32
}

/// The verdict of an outcome that is one, as that of each run by an order is.
pub fn verdict_of(outcome: &Outcome) -> Verdict
    requires { (verdict : Verdict) × (outcome.now ≡ Outcome.Verdict verdict) }
    ensures { outcome.now ≡ Outcome.Verdict result }
{
    match *outcome {
        Outcome::Verdict(verdict) => verdict,
        Outcome::Departed { .. } => unreachable!(),
    }
}
