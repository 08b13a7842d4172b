//! What holds of a sweep, whatever the script.

ghost use Rattle.sweep.specs.Swept.{SweepsAreCounted};

/// A law of the answers, and no work: each group's count is the number of choices that have its
/// verdict, with the shortest of their runs and the first of them; the counts and those that passed
/// add up to all choices; and there is no group exactly where every choice passes.
pub fn sweeps_are_counted()
    ensures { SweepsAreCounted }
{}
