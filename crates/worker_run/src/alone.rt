// The caller's loop over a book of turns that it has for itself, with no lock. Contracts see the
// book as the first seat of a lock would: it serves all threads, and has seen the book.
ghost use Rattle.std.specs.Prelude.{◌≡◌, ◌<◌, ◌≤◌, ◌+◌, ◌^◌, ℕ, true, false, None, Some, length};
ghost use Rattle.pct_ask.specs.Objects.{sizes_of_deal, PostIsInRange};
ghost use Rattle.pct_ask.specs.Bodies.{Pending, IsInRangeBody};
ghost use Rattle.turn_book.specs.Told.{IsLawful, SameMaking};
ghost use Rattle.turn_lock.specs.Seen.{owes_of};
ghost use Rattle.turn_lock.specs.Rule.{Serves, first_view};
ghost use Rattle.turn_lock.specs.Turns.{TookTurn, TellsEnd};
ghost use Rattle.turn_lock.specs.Briefs.{InBrief, settles};
ghost use Rattle.worker_run.specs.Served.{IsShare, HasShare, AllOwe, NoneOwes, GoesOn, IsOver};
ghost use Rattle.worker_run.specs.Served.{IsRunning, IsServed, Moves};
ghost use Rattle.pct_ask.specs.declared.limits.TheConstants.{MAX_THREADS};

use crate::runner::{Runner, is_over};
use pct_ask::{Body, Post};
use pct_gate::Gate;
use policy_pick::Policy;
use std::sync::Wait;
use turn_book::TurnBook;
use turn_lock::{Brief, answer, post_and_turn};

/// A thread posts, and takes its step where it has its turn.
fn post_alone<P: Policy>(book: &mut TurnBook<P>, thread: u32, post: Post) -> Brief
    requires thread { thread < book.old.deal.threads }
    requires owed { owes_of book.old thread ≡ true }
    requires in_range { PostIsInRange (sizes_of_deal book.old.deal) post.ask }
    ensures turn { InBrief (λ turn.
        TookTurn (first_view book.old) thread (Some post) turn (first_view book.new))
        result }
{
    // Any look at a book tells that it is lawful.
    let _steps = book.trace();
    post_and_turn(book, thread, Some(post))
}

/// The thread whose turn it is, and else the first.
fn next_of<P: Policy>(book: &TurnBook<P>) -> u32
    ensures { result < book.now.deal.threads }
{
    match book.granted() {
        Some(thread) if thread < book.deal().threads => thread,
        _ => 0,
    }
}

/// Whether a thread that asked for its turn has been answered.
fn is_settled(told: &Brief) -> bool
    ensures { result ≡ settles told.now }
{
    matches!(told, Brief::Answer(_) | Brief::Over)
}

/// The thread whose turn it is takes its step, where every thread has posted, or the run is over.
fn turn_alone<R: Wait, P: Policy>(rt: &R, book: &mut TurnBook<P>) -> (u32, Brief)
    requires posted { NoneOwes (first_view book.old) }
    ensures serves { Serves (first_view book.old) result.0 }
    ensures turn { InBrief (λ turn.
        TookTurn (first_view book.old) result.0 None turn (first_view book.new)
        × TellsEnd (first_view book.old).serves result.0 turn book.new)
        result.1 }
{
    let _steps = book.trace();
    for _ in rt.forever() {
        let thread = next_of(book);
        let told = answer(book, thread);
        if is_settled(&told) {
            return (thread, told);
        }
    }
    unreachable!()
}

impl<B: Body> Runner<B> {
    /// As `speak`, over a book that the caller has for itself.
    fn speak_alone<R: Wait, P: Policy, G: Gate>(
        &mut self,
        rt: &R,
        book: &mut TurnBook<P>,
        thread: u32,
        gate: &G,
    ) -> bool
        requires serves { Serves (first_view book.old) thread }
        requires owes { owes_of book.old thread ≡ true }
        requires runs { (start : Pending)
            × IsInRangeBody (sizes_of_deal book.old.deal) start × IsRunning start
            (B.pending self.old.body) self.old.answered thread book.old }
        ensures of { SameMaking book.old book.new }
        ensures runs { (start : Pending)
            → IsRunning start (B.pending self.old.body) self.old.answered thread book.old
            → IsRunning start (B.pending self.new.body) self.new.answered thread book.new }
        ensures moves { Moves thread (first_view book.old) (first_view book.new) }
        ensures lawful { IsLawful book.new }
        ensures over { result ≡ true → IsOver book.new }
        ensures posted { result ≡ false → owes_of book.new thread ≡ false }
    {
        for _ in rt.forever() {
            gate.arrive(thread, self.answered);
            let post = self.body.post();
            match post_alone(book, thread, post) {
                Brief::Answer(value) => self.hear(value),
                told => return is_over(told),
            }
        }
        unreachable!()
    }
}

/// Each body posts, and goes on for as long as it is its turn. It is true where the run is over.
fn begin_alone<R: Wait, P: Policy, B: Body, G: Gate>(
    rt: &R,
    book: &mut TurnBook<P>,
    runners: &mut [Option<Runner<B>>],
    gate: &G,
) -> bool
    requires share { HasShare (sizes_of_deal book.old.deal) B.pending 0 runners.old
        (first_view book.old) }
    requires owe { AllOwe (first_view book.old) }
    requires few { length runners.old ≤ MAX_THREADS }
    ensures of { SameMaking book.old book.new }
    ensures share { (start : ℕ → Pending)
        → IsShare B.pending start 0 runners.old (first_view book.old)
        → IsShare B.pending start 0 runners.new (first_view book.new) }
    ensures on { GoesOn (first_view book.old) (first_view book.new) }
    ensures runners { length runners.new ≡ length runners.old }
    ensures lawful { (t : ℕ) → Serves (first_view book.old) t → IsLawful book.new }
    ensures over { result ≡ true → IsOver book.new }
    ensures posted { result ≡ false → NoneOwes (first_view book.new) }
{
    for index in 0..runners.len() {
        if let Some(runner) = &mut runners[index] {
            if runner.speak_alone(rt, book, index as u32, gate) {
                return true;
            }
        }
    }
    false
}

/// The threads take their turns until the run is over.
fn take_turns_alone<R: Wait, P: Policy, B: Body, G: Gate>(
    rt: &R,
    book: &mut TurnBook<P>,
    runners: &mut [Option<Runner<B>>],
    gate: &G,
)
    requires share { HasShare (sizes_of_deal book.old.deal) B.pending 0 runners.old
        (first_view book.old) }
    requires posted { NoneOwes (first_view book.old) }
    requires few { length runners.old ≤ MAX_THREADS }
    ensures of { SameMaking book.old book.new }
    ensures served { (start : ℕ → Pending)
        → IsShare B.pending start 0 runners.old (first_view book.old)
        → IsServed start (first_view book.old) (first_view book.new) }
    ensures lawful { IsLawful book.new }
{
    for _ in rt.forever() {
        let (thread, told) = turn_alone(rt, book);
        let Brief::Answer(value) = told else {
            return;
        };
        let Some(runner) = &mut runners[thread as usize] else {
            unreachable!()
        };
        runner.hear(value);
        if runner.speak_alone(rt, book, thread, gate) {
            return;
        }
    }
    unreachable!()
}

/// Serves the bodies, one for each thread of the book, until the run is over.
pub fn serve_alone<R: Wait, P: Policy, B: Body, G: Gate>(
    rt: &R,
    book: &mut TurnBook<P>,
    runners: &mut [Option<Runner<B>>],
    gate: &G,
)
    requires share { HasShare (sizes_of_deal book.old.deal) B.pending 0 runners.old
        (first_view book.old) }
    requires owe { AllOwe (first_view book.old) }
    requires few { length runners.old ≤ MAX_THREADS }
    ensures of { SameMaking book.old book.new }
    ensures served { (start : ℕ → Pending)
        → IsShare B.pending start 0 runners.old (first_view book.old)
        → IsServed start (first_view book.old) (first_view book.new) }
    ensures lawful { (t : ℕ) → Serves (first_view book.old) t → IsLawful book.new }
{
    if begin_alone(rt, book, runners, gate) {
        return;
    }
    take_turns_alone(rt, book, runners, gate);
}
