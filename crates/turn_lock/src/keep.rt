ghost use Rattle.std.specs.Prelude.{◌≡◌};

use pct_ask::Outcome;

/// What a call keeps of the outcome of a run that is over.
pub trait Keep {
    ghost use Rattle.std.specs.Prelude.{Option};
    ghost use Rattle.pct_ask.specs.declared.verdict.Outcome.{Outcome};

    ghost kept: { Option Outcome → Self → Type 0 };

    fn keep(&mut self, outcome: Option<Outcome>)
        ensures { kept outcome self.new };
}

impl Keep for Option<Outcome> {
    ghost kept = { λ outcome place. place ≡ outcome };

    fn keep(&mut self, outcome: Option<Outcome>) {
        *self = outcome;
    }
}

/// The outcome isn't kept.
#[derive(Drop)]
pub struct Nowhere;

impl Keep for Nowhere {
    ghost kept = { λ outcome place. Unit {0} };

    fn keep(&mut self, _outcome: Option<Outcome>) {}
}
