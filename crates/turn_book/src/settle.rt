ghost use Rattle.std.specs.Prelude.{◌≡◌, ◌<◌, ℕ, true, false, List, length, Option, None, IfSome};
ghost use Rattle.pct_ask.specs.declared.verdict.Verdict.{Verdict};
ghost use Rattle.policy_pick.specs.declared.chance.Chance.{Chance};
ghost use Rattle.policy_pick.specs.Plan.{SpeaksOf, IsThreadOf};
ghost use Rattle.policy_pick.specs.Choice.{chance_of, choice, TargetsAreAway};
ghost use Rattle.turn_book.specs.Chances.{rest_verdict};
ghost use Rattle.turn_book.specs.Obeys.{outcome_by, outcome_by_pick};
ghost use Rattle.turn_book.specs.Board.{next_posts_of, chances_on, WasChosen, HadTurn};

use crate::board::{Board, Posted};
use pct_ask::{Outcome, Verdict};
use policy_pick::{Pick, Policy};

/// The thread that the book waited for goes, where it may go now, and its post has changed nothing
/// else. Nothing where that isn't so, or the policy doesn't go by ranks.
pub fn after_post<P: Policy>(policy: &P, next: Pick, thread: u32, posted: Posted) -> Option<Pick>
    ensures { (schedule : List ℕ) (later : List Chance) → TargetsAreAway later
        → (posted.ready ≡ true → chance_of later thread ≡ Chance.Ready)
        → (posted.alone ≡ true → WasChosen (P.plan policy.now) schedule thread next later)
        → IfSome result (λ pick. pick ≡ choice (P.plan policy.now) schedule later) }
{
    if posted.alone && posted.ready && waits_for(next, thread) && policy.goes_by_rank() {
        Some(Pick::Thread(thread))
    } else {
        None
    }
}

/// Whether the choice waits for the thread.
pub fn waits_for(next: Pick, thread: u32) -> bool
    ensures { result ≡ true → next ≡ Pick.Waits thread }
{
    match next {
        Pick::Waits(other) => other == thread,
        Pick::Thread(_) | Pick::Nobody | Pick::Departs(_) => false,
    }
}

/// The thread that took the step is waited for, where no choice has changed, and no other thread is
/// open that wasn't before, or it outranks each one that is.
pub fn after_step<P: Policy>(policy: &P, thread: u32, kept: bool, opened: u64) -> Option<Pick>
    requires { IsThreadOf (P.plan policy.now) thread }
    ensures { (schedule : List ℕ) (later : List Chance) → P.stands policy.now schedule
        → (kept ≡ true → HadTurn (P.plan policy.now) schedule thread opened later)
        → IfSome result (λ pick. pick ≡ choice (P.plan policy.now) schedule later) }
{
    if kept && (opened == 0 || policy.outranks(thread, opened)) {
        Some(Pick::Waits(thread))
    } else {
        None
    }
}

/// Who goes next, where that isn't known.
fn next_of<P: Policy>(policy: &P, board: &mut Board, known: Option<Pick>) -> Pick
    requires { SpeaksOf (P.plan policy.now) board.old.store.threads }
    ensures same { board.new ≡ board.old }
    ensures pick { (schedule : List ℕ) → P.stands policy.now schedule
        → IfSome known (λ pick.
        pick ≡ choice (P.plan policy.now) schedule (chances_on board.old))
        → result ≡ choice (P.plan policy.now) schedule (chances_on board.old) }
{
    match known {
        Some(next) => next,
        None => board.pick(policy),
    }
}

/// Who goes next, which may be known already. Where the last step gave no verdict, what became of
/// the run by who goes next is noted, if that settles it; `full` says whether the run has as many
/// steps as it may have. An outcome has room for 64 threads, so it is written only where there is
/// one.
pub fn settle<P: Policy>(
    policy: &P,
    board: &mut Board,
    known: Option<Pick>,
    full: bool,
    outcome: &mut Option<Outcome>,
) -> Pick
    requires { SpeaksOf (P.plan policy.now) board.old.store.threads }
    ensures same { board.new ≡ board.old }
    ensures pick { (schedule : List ℕ) → P.stands policy.now schedule
        → IfSome known (λ pick.
        pick ≡ choice (P.plan policy.now) schedule (chances_on board.old))
        → result ≡ choice (P.plan policy.now) schedule (chances_on board.old) }
    ensures outcome { (verdict : Option Verdict) → outcome.old ≡ outcome_by verdict None
        → outcome.new ≡ outcome_by verdict (outcome_by_pick
        (rest_verdict board.old.store.threads board.old.store (next_posts_of board.old.posts))
        full result) }
{
    let next = next_of(policy, board, known);
    if outcome.is_none() && may_end(next, full) {
        note_end(next, board, full, outcome);
    }
    next
}

/// Whether a run may end by who goes next.
fn may_end(next: Pick, full: bool) -> bool
    ensures { result ≡ false → (rest : Verdict) → outcome_by_pick rest full next ≡ None }
{
    match next {
        Pick::Nobody | Pick::Departs(_) => true,
        Pick::Waits(_) => false,
        Pick::Thread(_) => full,
    }
}

/// Notes what became of the run by who goes next, where it doesn't go on.
#[inline(never)]
fn note_end(next: Pick, board: &Board, full: bool, outcome: &mut Option<Outcome>)
    requires { outcome.old ≡ None }
    ensures { outcome.new ≡ outcome_by_pick
        (rest_verdict board.now.store.threads board.now.store (next_posts_of board.now.posts)) full
        next }
{
    match next {
        Pick::Nobody => *outcome = Some(Outcome::Verdict(board.rest_verdict())),
        Pick::Waits(_) => {}
        Pick::Thread(_) => {
            if full {
                *outcome = Some(Outcome::Verdict(Verdict::Cut));
            }
        }
        Pick::Departs(thread) => {
            *outcome = Some(if full {
                Outcome::Verdict(Verdict::Cut)
            } else {
                Outcome::Departed { thread }
            });
        }
    }
}
