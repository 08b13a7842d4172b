// What is to be swept, and how far a sweep has come.
ghost use Rattle.std.specs.Prelude.{◌≡◌, ◌≤◌};
ghost use Rattle.sweep.specs.Choices.{choice_count, most_choices};
ghost use Rattle.pct_ask.specs.declared.limits.TheConstants.{MAX_POINTS, MAX_STEPS};

use pct_ask::Limit;
use script_run::ReadyScript;

/// What the runs of a sweep have in common: a script, how many change points a run has, from how
/// many steps they are, and how many steps a run may have; and how many choices there are.
#[derive(Clone, Copy)]
pub struct Sweep<'a> {
    pub script: ReadyScript<'a>,
    pub points: u32,
    pub steps: u32,
    pub limit: Limit,
    pub choices: u32,
    ghost few_points: { points ≤ MAX_POINTS },
    ghost some_steps: { 1 ≤ steps },
    ghost few_steps: { steps ≤ MAX_STEPS },
    ghost whole: { choices ≡ choice_count script.deal.now.threads steps points },
    ghost few_choices: { choice_count script.deal.now.threads steps points ≤ most_choices },
}

/// How far a sweep has come.
#[derive(Clone, Copy)]
pub struct Reach {
    /// The choices before this place are counted.
    pub place: u32,
    /// The number of steps of the longest of their runs, and at least 1.
    pub longest: u32,
}
