//! What holds of the lists of choices.

ghost use Rattle.choices.specs.Laws.{EachChoiceOnce};

/// A law of the lists of choices, and no work: each order of n threads stands in the list of their
/// orders at exactly one place, each list of m points at exactly one place among the lists of m
/// points, and nothing else stands there.
pub fn each_choice_once()
    ensures { EachChoiceOnce }
{}
