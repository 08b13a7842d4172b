//! A run's steps beside those that a trace tells.

ghost use Rattle.std.specs.Prelude.{◌≡◌};
ghost use Rattle.trace_text.specs.Agreed.{IsAgreed};

use pct_ask::Event;

/// In how many steps two lists agree.
pub fn agreed(made: &[Event], told: &[Event]) -> usize
    ensures { IsAgreed made.now told.now result }
{
    let mut many = 0;
    while many < made.len() && many < told.len() && made[many].is(&told[many]) {
        many += 1;
    }
    many
}
