// What is to be certified.
ghost use Rattle.std.specs.Prelude.{◌≤◌, ◌<◌};
ghost use Rattle.pct_ask.specs.declared.limits.TheConstants.{MAX_CERTIFIED_THREADS};

use directive::Directive;
use pct_ask::Limit;
use script_run::ReadyScript;

/// What is to be certified: a directive of a script's threads, within how many steps it is to lead
/// to its verdict, and how many a run may have.
#[derive(Clone, Copy)]
pub struct Claim<'a, 'd> {
    pub script: ReadyScript<'a>,
    pub directive: &'d Directive,
    pub steps: Limit,
    pub limit: Limit,
    ghost few_threads: { script.deal.now.threads ≤ MAX_CERTIFIED_THREADS },
    ghost low: { directive.now.low < script.deal.now.threads },
}
