ghost use Rattle.std.specs.Prelude.{◌≡◌, ◌≢◌, ◌<◌, ◌≤◌, ◌↔◌, ℕ, ℤ, [], ◌++◌, List, length, Some};
ghost use Rattle.std.specs.Prelude.{None, IfOk, IfSome, IsSome, IsNone, is_some, true};
ghost use Rattle.std.specs.Prelude.{vec_capacity};
ghost use Rattle.pct_ask.specs.declared.ask.Post.{Post};
ghost use Rattle.pct_ask.specs.declared.event.Event.{Event};
ghost use Rattle.pct_ask.specs.declared.event.Standing.{Standing};
ghost use Rattle.pct_ask.specs.declared.verdict.Outcome.{Outcome};
ghost use Rattle.pct_ask.specs.Objects.{sizes_of_deal, PostIsInRange};
ghost use Rattle.policy_pick.specs.declared.chance.Pick.{Pick};
ghost use Rattle.policy_pick.specs.Plan.{SpeaksOf, GoesByRank};
ghost use Rattle.turn_book.specs.Posts.{schedule_of};
ghost use Rattle.turn_book.specs.Told.{BookState, new_book, standing_of, choice_of, IsLawful};
ghost use Rattle.turn_book.specs.Told.{IsPosted, IsAnswered, IsRunOver};
ghost use Rattle.turn_book.specs.declared.taken.Because.{Because};
ghost use Rattle.turn_book.specs.Answers.{IsAnswerTaken, IsBecause};
ghost use Rattle.pct_ask.specs.declared.limits.TheConstants.{MAX_STEPS};

use crate::board::Board;
use crate::settle::{after_post, after_step, settle, waits_for};
use crate::taken::{Because, Reply, Taken, reason};
use pct_ask::{Deal, Event, EventList, Limit, Outcome, Post, Sequence, Standing};
use policy_pick::{Pick, Policy};
use std::alloc::{AllocError as NoMemory, Global};
use std::marker::Model;
use std::mem;

/// A book of turns. Threads post what they ask, and the policy says whose turn it is. A thread goes
/// on as soon as that is known, also where others haven't posted. Contracts see a book as what it
/// was made with, each thread's posts, the steps and the outcome. Only the calls that make a book
/// take memory. The time of a post or a step grows with the number of threads at most.
#[derive(Drop)]
pub struct TurnBook<P: Policy> {
    deal: Deal,
    limit: u32,
    policy: P,
    board: Board,
    trace: Vec<Event>,
    next: Pick,
    outcome: Option<Outcome>,
}

impl<P: Policy> Model for TurnBook<P> {
    ghost use Rattle.std.specs.Prelude.{vec_capacity};
    ghost use Rattle.turn_book.specs.Posts.{schedule_of};
    ghost use Rattle.turn_book.specs.Told.{BookState};
    ghost use Rattle.turn_book.specs.Kept.{book_of_parts, IsKept};

    ghost Value = { BookState };

    ghost view = { λ b.
        book_of_parts b.deal b.limit (P.plan b.policy) b.board.posts b.trace.items b.outcome };

    ghost invariant = { λ b.
        IsKept b.deal b.limit (P.plan b.policy) b.board b.trace.items b.next b.outcome
        (vec_capacity b.trace) × P.stands b.policy (schedule_of b.trace.items) };
}

impl<P: Policy> TurnBook<P> {
    /// A book in which no thread has posted, of a run of at most `limit` steps.
    pub fn new(alloc: Global, deal: Deal, policy: P, limit: u32) -> Result<TurnBook<P>, NoMemory>
        requires some_steps { 1 ≤ limit }
        requires few_steps { limit ≤ MAX_STEPS }
        requires stands { P.stands policy [] }
        requires speaks { SpeaksOf (P.plan policy) deal.threads }
        ensures made { IfOk result (λ book. book ≡ new_book deal limit (P.plan policy)) }
        ensures lawful { IfOk result IsLawful }
    {
        TurnBook::new_in(alloc, deal, policy, Limit::new(limit), Sequence::new(alloc))
    }

    /// As `new`, in the memory of a trace that nobody needs any more. Where that is too small, or
    /// there was none, memory is taken.
    pub fn new_in(
        alloc: Global,
        deal: Deal,
        policy: P,
        limit: Limit,
        spare: EventList,
    ) -> Result<TurnBook<P>, NoMemory>
        requires stands { P.stands policy [] }
        requires speaks { SpeaksOf (P.plan policy) deal.threads }
        ensures made { IfOk result (λ book. book ≡ new_book deal limit (P.plan policy)) }
        ensures lawful { IfOk result IsLawful }
    {
        let limit = limit.steps();
        let mut board = Board::new(alloc, &deal)?;
        let trace = cleared(spare, limit as usize)?;
        let next = board.pick(&policy);
        Ok(TurnBook {
            deal,
            limit,
            policy,
            board,
            trace,
            next,
            outcome: None,
        })
    }

    /// Begins again by another policy, over the same deal and with the same limit, and gives back
    /// the policy of before. Takes no memory.
    pub fn restart(&mut self, policy: P) -> P
        requires stands { P.stands policy [] }
        requires speaks { SpeaksOf (P.plan policy) self.old.deal.threads }
        ensures made { self.new ≡ new_book self.old.deal self.old.limit (P.plan policy) }
        ensures plan { P.plan result ≡ self.old.plan }
        ensures stands { P.stands result (schedule_of self.old.trace) }
        ensures lawful { IsLawful self.new }
    {
        self.board.restart(&self.deal);
        self.trace.clear();
        self.next = self.board.pick(&policy);
        self.outcome = None;
        mem::replace(&mut self.policy, policy)
    }

    /// A thread posts. Where the run is over this changes nothing.
    pub fn post(&mut self, thread: u32, post: Post)
        requires thread { thread < self.old.deal.threads }
        requires away { standing_of self.old thread ≡ Standing.Away }
        requires in_range { PostIsInRange (sizes_of_deal self.old.deal) post.ask }
        ensures posted { self.old.outcome ≡ None → IsPosted self.old thread post self.new }
        ensures over { IsSome self.old.outcome → self.new ≡ self.old }
        ensures lawful { IsLawful self.new }
    {
        if self.outcome.is_none() {
            let posted = self.board.post(thread, post);
            let known = after_post(&self.policy, self.next, thread, posted);
            let full = self.trace.len() == self.limit as usize;
            self.next = settle(
                &self.policy,
                &mut self.board,
                known,
                full,
                &mut self.outcome,
            );
        }
    }

    /// A thread asks for its turn, and takes its step where it has it.
    pub fn take(&mut self, thread: u32) -> Taken
        requires { self.old.outcome ≡ None → standing_of self.old thread ≡ Standing.Asks }

        // Each answer comes exactly where this holds.
        ensures over { (outcome : Outcome)
            → (result ≡ Taken.Over outcome) ↔ (self.old.outcome ≡ Some outcome) }
        ensures answer { IsAnswerTaken result
            ↔ ((self.old.outcome ≡ None) × (choice_of self.old ≡ Some (Pick.Thread thread))) }
        ensures turn { (at u : ℕ)
            → (result ≡ Taken.NotYet at (Because.Turn u))
            ↔ ((self.old.outcome ≡ None) × (choice_of self.old ≡ Some (Pick.Thread u))
            × (u ≢ thread) × (at ≡ length self.old.trace)) }
        ensures away { (at u : ℕ)
            → (result ≡ Taken.NotYet at (Because.Away u))
            ↔ ((self.old.outcome ≡ None) × (choice_of self.old ≡ Some (Pick.Waits u))
            × (at ≡ length self.old.trace)) }

        ensures answered { (answer : ℤ) → result ≡ Taken.Answer answer
            → IsAnswered self.old thread answer self.new }
        ensures unchanged { ¬ IsAnswerTaken result → self.new ≡ self.old }
        ensures lawful { IsLawful self.new }
    {
        if let Some(outcome) = self.outcome {
            return Taken::Over(outcome);
        }
        match reason(self.next, thread) {
            None => Taken::Answer(self.step(thread)),
            Some(because) => Taken::NotYet {
                at: self.trace.len() as u32,
                because,
            },
        }
    }

    /// As `take`, without the outcome of a run that is over.
    pub fn take_turn(&mut self, thread: u32) -> Reply
        requires { self.old.outcome ≡ None → standing_of self.old thread ≡ Standing.Asks }
        ensures over { result ≡ Reply.Over → IsSome self.old.outcome × (self.new ≡ self.old) }
        ensures answer { (answer : ℤ) → result ≡ Reply.Answer answer
            → (self.old.outcome ≡ None) × (choice_of self.old ≡ Some (Pick.Thread thread))
            × IsAnswered self.old thread answer self.new }
        ensures not_yet { (at : ℕ) (because : Because) → result ≡ Reply.NotYet at because
            → (self.old.outcome ≡ None) × (at ≡ length self.old.trace)
            × IsBecause self.old thread because × (self.new ≡ self.old) }
        ensures lawful { IsLawful self.new }
    {
        if self.outcome.is_some() {
            return Reply::Over;
        }
        match reason(self.next, thread) {
            None => Reply::Answer(self.step(thread)),
            Some(because) => Reply::NotYet {
                at: self.trace.len() as u32,
                because,
            },
        }
    }

    /// As `post` and then `take`, in less time, for the thread that the book waits for. `None`
    /// where the book doesn't wait for the thread by rank, where the step isn't the thread's to
    /// take now, or where that takes a look at other threads; then nothing has changed.
    pub fn post_and_take(&mut self, thread: u32, post: Post) -> Option<i64>
        requires thread { thread < self.old.deal.threads }
        requires away { standing_of self.old thread ≡ Standing.Away }
        requires in_range { PostIsInRange (sizes_of_deal self.old.deal) post.ask }
        ensures answer { IfSome result (λ answer. (self.old.outcome ≡ None)
            × ((posted : BookState) × IsPosted self.old thread post posted
            × (posted.outcome ≡ None) × (choice_of posted ≡ Some (Pick.Thread thread))
            × IsAnswered posted thread answer self.new)) }
        ensures none { IsNone result → self.new ≡ self.old }
        ensures lawful { IsLawful self.new }
    {
        if !self.waits_by_rank(thread) {
            return None;
        }
        let (event, opened) = self.board.post_and_step(thread, post, &mut self.outcome)?;
        self.trace.push_reserved(event);
        let kept = self.policy.took_and_kept(thread);
        let known = after_step(&self.policy, thread, kept, opened);
        let full = self.trace.len() == self.limit as usize;
        self.next = settle(
            &self.policy,
            &mut self.board,
            known,
            full,
            &mut self.outcome,
        );
        Some(event.answer)
    }

    /// The run isn't over, the policy goes by ranks, its choice waits for the thread, and there is
    /// room for a step.
    fn waits_by_rank(&self, thread: u32) -> bool
        ensures { result ≡ true → (self.now.outcome ≡ None)
            × (choice_of self.now ≡ Some (Pick.Waits thread))
            × GoesByRank self.now.plan × (length self.now.trace < self.now.limit) }
    {
        if self.outcome.is_none() && waits_for(self.next, thread) && self.policy.goes_by_rank() {
            self.trace.len() < self.limit as usize
        } else {
            false
        }
    }

    /// The thread takes the step that it asks.
    fn step(&mut self, thread: u32) -> i64
        requires running { self.old.outcome ≡ None }
        requires turn { choice_of self.old ≡ Some (Pick.Thread thread) }
        ensures answered { IsAnswered self.old thread result self.new }
        ensures lawful { IsLawful self.new }
    {
        let (event, opened) = self.board.step(thread, &mut self.outcome);
        self.trace.push_reserved(event);
        let kept = self.policy.took_and_kept(thread);
        let known = after_step(&self.policy, thread, kept, opened);
        let full = self.trace.len() == self.limit as usize;
        self.next = settle(
            &self.policy,
            &mut self.board,
            known,
            full,
            &mut self.outcome,
        );
        event.answer
    }

    /// The thread whose turn it is, if that is known.
    pub fn granted(&self) -> Option<u32>
        ensures { (u : ℕ) → (result ≡ Some u)
            ↔ ((self.now.outcome ≡ None) × (choice_of self.now ≡ Some (Pick.Thread u))) }
    {
        if self.outcome.is_some() {
            return None;
        }
        match self.next {
            Pick::Thread(thread) => Some(thread),
            _ => None,
        }
    }

    /// The thread for whose next post the book waits, if it waits for one.
    pub fn awaited(&self) -> Option<u32>
        ensures { (u : ℕ) → (result ≡ Some u)
            ↔ ((self.now.outcome ≡ None) × (choice_of self.now ≡ Some (Pick.Waits u))) }
    {
        if self.outcome.is_some() {
            return None;
        }
        match self.next {
            Pick::Waits(thread) => Some(thread),
            _ => None,
        }
    }

    /// The steps so far, which obey the plan over the posts. Whatever the threads may post besides,
    /// they begin every whole run over it, and once an outcome stands they are that run.
    pub fn trace(&self) -> &[Event]
        ensures trace { result.now ≡ self.now.trace }
        ensures lawful { IsLawful self.now }
        ensures prefix { (posts : List (List Post)) (events : List Event)
            → IsRunOver self.now posts events
            → (rest : List Event) × (events ≡ result.now ++ rest) }
        ensures whole { (posts : List (List Post)) (events : List Event)
            → IsRunOver self.now posts events → IsSome self.now.outcome → events ≡ result.now }
    {
        self.trace.as_slice()
    }

    /// What became of the run, if that is settled.
    pub fn outcome(&self) -> Option<Outcome>
        ensures outcome { result ≡ self.now.outcome }
        ensures lawful { IsLawful self.now }
    {
        self.outcome
    }

    /// Whether the run is over.
    pub fn is_over(&self) -> bool
        ensures { result ≡ is_some self.now.outcome }
    {
        self.outcome.is_some()
    }

    /// What is known of a thread's next post.
    pub fn standing(&self, thread: u32) -> Standing
        requires { thread < self.now.deal.threads }
        ensures { result ≡ standing_of self.now thread }
    {
        self.board.standing(thread)
    }

    /// What the book was made with.
    pub fn deal(&self) -> &Deal
        ensures { result.now ≡ self.now.deal }
    {
        &self.deal
    }

    /// The steps, and what became of the run, if that is settled.
    pub fn into_parts(self) -> (EventList, Option<Outcome>)
        ensures events { result.0 ≡ self.trace }
        ensures outcome { result.1 ≡ self.outcome }
        ensures lawful { IsLawful self }
    {
        (Sequence::from_vec(self.trace), self.outcome)
    }
}

/// An empty list in the memory of another one, with room for `count` items.
fn cleared(spare: EventList, room: usize) -> Result<Vec<Event>, NoMemory>
    ensures items { IfOk result (λ items. items.items ≡ []) }
    ensures room { IfOk result (λ items. room ≤ vec_capacity items) }
{
    let mut items = spare.into_vec();
    items.clear();
    items.reserve_exact(room)?;
    Ok(items)
}
