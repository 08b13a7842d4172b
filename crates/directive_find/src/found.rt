//! What holds of what is found, whatever the script.

ghost use Rattle.directive_find.specs.Laws.{EachHasOneFinding};

/// A law of the answers, and no work: of a script, an order, points and a limit one thing is found.
pub fn one_finding()
    ensures { EachHasOneFinding }
{}
