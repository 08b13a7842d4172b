// A run whose bodies the calling thread serves.
ghost use Rattle.std.specs.Prelude.{◌≡◌, List, Some, map};
ghost use Rattle.turn_book.specs.Told.{SameMaking};
ghost use Rattle.worker_run.specs.Served.{first_runners};
ghost use Rattle.worker_run.specs.Tests.{IsRunBy, IsNew, AreNewRunners};

use crate::alone::serve_alone;
use crate::runner::Runner;
use pct_ask::{Body, Outcome};
use pct_gate::Gate;
use policy_pick::Policy;
use std::sync::Wait;
use turn_book::TurnBook;

/// The caller serves the bodies of a test until the run is over: one runner for each thread, none
/// of which has had an answer, over a book of turns in which nothing has happened. Gives the run's
/// outcome; its steps are the book's then. The gate is passed before each post.
pub fn serve_by_caller<R: Wait, P: Policy, B: Body, G: Gate>(
    rt: &R,
    book: &mut TurnBook<P>,
    runners: &mut [Option<Runner<B>>],
    gate: &G,
) -> Outcome
    requires book { IsNew book.old }
    requires runners { AreNewRunners B.pending book.old.deal runners.old }
    ensures making { SameMaking book.old book.new }
    ensures outcome { book.new.outcome ≡ Some result }
    ensures run { (bodies : List B) → runners.old ≡ first_runners bodies
        → IsRunBy book.old.plan book.old.deal (map B.pending bodies) book.old.limit
        (record { events = book.new.trace; outcome = result }) }
{
    serve_alone(rt, book, runners, gate);
    match book.outcome() {
        Some(outcome) => outcome,
        None => unreachable!(),
    }
}
