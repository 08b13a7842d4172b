//! Laws of the program: what a sweep says of a script.

ghost use Rattle.pct_top.specs.Cleared.{SweptAreCleared, CertifiedAreSwept};

/// A law of the program, and no work: where the choices of an order of a script's threads and of
/// `depth - 1` points in `1..=k` aren't too many, a sweep that is carried out tells each verdict
/// with the number of the choices that lead to it, and it is done exactly where every run passes,
/// whatever the order and the points. Where they are too many, a line says so.
pub fn swept_are_cleared()
    ensures { SweptAreCleared }
{}

/// A law of the program, and no work: where `certify` is done for a script of `n` threads, and the
/// script is swept for the same number of steps and limit, with as many points as the directive has
/// moments, at least `(n - 1)!` choices are told of the directive's verdict.
pub fn certified_are_swept()
    ensures { CertifiedAreSwept }
{}
