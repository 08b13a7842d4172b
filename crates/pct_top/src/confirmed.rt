//! Laws of the program: what one command writes, as another one takes it.

ghost use Rattle.pct_top.specs.Confirmed.{RunsAreConfirmed, ExposedAreConfirmed};
ghost use Rattle.pct_top.specs.Counted.{CertifiedAreCounted};
ghost use Rattle.pct_top.specs.FailedReads.{OneFailedRead};
ghost use Rattle.pct_top.specs.TakenUp.{FoundAreTakenUp};

/// A law of the program, and no work: what `run` writes whole is a trace whose replay over the same
/// script is confirmed with the verdict that it states.
pub fn runs_are_confirmed()
    ensures { RunsAreConfirmed }
{}

/// The same law of a directive: what `expose` writes, where its run isn't too long, is a trace
/// whose replay over the same script is confirmed with the verdict that it states.
pub fn exposed_are_confirmed()
    ensures { ExposedAreConfirmed }
{}

/// A law of the program, and no work: where `certify` is done, of the `n! k^m` choices of an order
/// of the script's `n` threads and of `m` points in `1..=k`, where the directive has `m` moments
/// and the words give `k`, at least one in `n k^m` leads to the directive's verdict, and the last
/// line that it prints tells `n k^m`.
pub fn certified_are_counted()
    ensures { CertifiedAreCounted }
{}

/// A law of the program, and no work: what `find` writes of a failing run is a directive that
/// `expose` takes, and of which it finds the verdict again under the run's order.
pub fn found_are_taken_up()
    ensures { FoundAreTakenUp }
{}

/// A law of the program, and no work: over a shelf that keeps the names of failed reads and no
/// others, a call adds one name exactly where it ends with ReadFault.
pub fn one_failed_read()
    ensures { OneFailedRead }
{}
