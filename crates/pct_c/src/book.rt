//! A book of turns under any of three policies: each call is that of turn_book.

ghost use Rattle.std.specs.Prelude.{◌≡◌, ◌≢◌, ◌<◌, ◌≤◌, ◌↔◌, ℕ, ℤ, length, Some, None, Err};
ghost use Rattle.std.specs.Prelude.{List, [], ◌++◌, All, IfOk, IsSome, is_some};
ghost use Rattle.pct_ask.specs.declared.event.Event.{Event};
ghost use Rattle.pct_ask.specs.declared.event.Standing.{Standing};
ghost use Rattle.pct_ask.specs.declared.ask.Post.{Post};
ghost use Rattle.pct_ask.specs.Objects.{sizes_of_deal, PostIsInRange};
ghost use Rattle.policy_pick.specs.Plan.{ByPoints, ByMoments, ByList};
ghost use Rattle.policy_pick.specs.declared.chance.Pick.{Pick};
ghost use Rattle.rank_now.specs.Order.{IsFirstWrong};
ghost use Rattle.turn_book.specs.Told.{new_book, standing_of, choice_of, IsLawful};
ghost use Rattle.turn_book.specs.Told.{IsPosted, IsAnswered, IsRunOver};
ghost use Rattle.turn_book.specs.declared.taken.Because.{Because};
ghost use Rattle.turn_book.specs.Answers.{IsBecause};
ghost use Rattle.pct_c.specs.Books.{state_of};
ghost use Rattle.pct_ask.specs.declared.limits.TheConstants.{MAX_POINTS, MAX_STEPS};

use pct_ask::{Deal, Event, Outcome, Post, Standing};
use policy_pick::{DirectedPolicy, Listed, Pct};
use rank_now::{Moment, RankError};
use std::alloc::{AllocError as NoMemory, Global};
use turn_book::{Reply, TurnBook};

/// A book of turns by an order with change points or with moments, or by a list of threads.
#[derive(Drop)]
pub enum Book {
    Points(TurnBook<Pct>),
    Moments(TurnBook<DirectedPolicy>),
    Listed(TurnBook<Listed>),
}

impl Book {
    pub fn by_points(
        alloc: Global,
        deal: Deal,
        order: &[u32],
        points: &[u32],
        limit: u32,
    ) -> Result<Book, RankError>
        requires some_steps { 1 ≤ limit }
        requires few_steps { limit ≤ MAX_STEPS }
        requires few_points { length points.now ≤ MAX_POINTS }
        requires threads { length order.now ≡ deal.threads }
        ensures made { IfOk result (λ book.
            state_of book ≡ new_book deal limit (ByPoints order.now points.now)) }
        ensures lawful { IfOk result (λ book. IsLawful (state_of book)) }
        ensures not_an_order { (at : ℕ)
            → (result ≡ Err (RankError.NotAnOrder at)) → IsFirstWrong order.now at }
    {
        let policy = Pct::new(alloc, order, points)?;
        Ok(Book::Points(TurnBook::new(alloc, deal, policy, limit)?))
    }

    pub fn by_moments(
        alloc: Global,
        deal: Deal,
        order: &[u32],
        moments: &[Moment],
        limit: u32,
    ) -> Result<Book, RankError>
        requires some_steps { 1 ≤ limit }
        requires few_steps { limit ≤ MAX_STEPS }
        requires few_moments { length moments.now ≤ MAX_POINTS }
        requires threads { length order.now ≡ deal.threads }
        ensures made { IfOk result (λ book.
            state_of book ≡ new_book deal limit (ByMoments order.now moments.now)) }
        ensures lawful { IfOk result (λ book. IsLawful (state_of book)) }
        ensures not_an_order { (at : ℕ)
            → (result ≡ Err (RankError.NotAnOrder at)) → IsFirstWrong order.now at }
    {
        let policy = DirectedPolicy::new(alloc, order, moments)?;
        Ok(Book::Moments(TurnBook::new(alloc, deal, policy, limit)?))
    }

    pub fn by_list(alloc: Global, deal: Deal, threads: &[u32], limit: u32) -> Result<Book, NoMemory>
        requires some_steps { 1 ≤ limit }
        requires few_steps { limit ≤ MAX_STEPS }
        requires threads { All (λ thread. thread < deal.threads) threads.now }
        ensures made { IfOk result (λ book.
            state_of book ≡ new_book deal limit (ByList threads.now)) }
        ensures lawful { IfOk result (λ book. IsLawful (state_of book)) }
    {
        let policy = Listed::new(alloc, threads)?;
        Ok(Book::Listed(TurnBook::new(alloc, deal, policy, limit)?))
    }

    pub fn post(&mut self, thread: u32, post: Post)
        requires thread { thread < (state_of self.old).deal.threads }
        requires away { standing_of (state_of self.old) thread ≡ Standing.Away }
        requires in_range { PostIsInRange (sizes_of_deal (state_of self.old).deal) post.ask }
        ensures posted { (state_of self.old).outcome ≡ None
            → IsPosted (state_of self.old) thread post (state_of self.new) }
        ensures over { IsSome (state_of self.old).outcome → state_of self.new ≡ state_of self.old }
        ensures lawful { IsLawful (state_of self.new) }
    {
        match self {
            Book::Points(book) => book.post(thread, post),
            Book::Moments(book) => book.post(thread, post),
            Book::Listed(book) => book.post(thread, post),
        }
    }

    pub fn take_turn(&mut self, thread: u32) -> Reply
        requires { (state_of self.old).outcome ≡ None
            → standing_of (state_of self.old) thread ≡ Standing.Asks }
        ensures over { result ≡ Reply.Over
            → IsSome (state_of self.old).outcome × (state_of self.new ≡ state_of self.old) }
        ensures answer { (answer : ℤ) → result ≡ Reply.Answer answer
            → ((state_of self.old).outcome ≡ None)
            × (choice_of (state_of self.old) ≡ Some (Pick.Thread thread))
            × IsAnswered (state_of self.old) thread answer (state_of self.new) }
        ensures not_yet { (at : ℕ) (because : Because) → result ≡ Reply.NotYet at because
            → ((state_of self.old).outcome ≡ None) × (at ≡ length (state_of self.old).trace)
            × IsBecause (state_of self.old) thread because
            × (state_of self.new ≡ state_of self.old) }
        ensures lawful { IsLawful (state_of self.new) }
    {
        match self {
            Book::Points(book) => book.take_turn(thread),
            Book::Moments(book) => book.take_turn(thread),
            Book::Listed(book) => book.take_turn(thread),
        }
    }

    pub fn granted(&self) -> Option<u32>
        ensures { (u : ℕ) → (result ≡ Some u)
            ↔ (((state_of self.now).outcome ≡ None)
            × (choice_of (state_of self.now) ≡ Some (Pick.Thread u))) }
    {
        match self {
            Book::Points(book) => book.granted(),
            Book::Moments(book) => book.granted(),
            Book::Listed(book) => book.granted(),
        }
    }

    pub fn awaited(&self) -> Option<u32>
        ensures { (u : ℕ) → (result ≡ Some u)
            ↔ (((state_of self.now).outcome ≡ None)
            × (choice_of (state_of self.now) ≡ Some (Pick.Waits u))) }
    {
        match self {
            Book::Points(book) => book.awaited(),
            Book::Moments(book) => book.awaited(),
            Book::Listed(book) => book.awaited(),
        }
    }

    pub fn is_over(&self) -> bool
        ensures { result ≡ is_some (state_of self.now).outcome }
    {
        match self {
            Book::Points(book) => book.is_over(),
            Book::Moments(book) => book.is_over(),
            Book::Listed(book) => book.is_over(),
        }
    }

    pub fn standing(&self, thread: u32) -> Standing
        requires { thread < (state_of self.now).deal.threads }
        ensures { result ≡ standing_of (state_of self.now) thread }
    {
        match self {
            Book::Points(book) => book.standing(thread),
            Book::Moments(book) => book.standing(thread),
            Book::Listed(book) => book.standing(thread),
        }
    }

    pub fn trace(&self) -> &[Event]
        ensures trace { result.now ≡ (state_of self.now).trace }
        ensures lawful { IsLawful (state_of self.now) }
        ensures prefix { (posts : List (List Post)) (events : List Event)
            → IsRunOver (state_of self.now) posts events
            → (rest : List Event) × (events ≡ result.now ++ rest) }
        ensures whole { (posts : List (List Post)) (events : List Event)
            → IsRunOver (state_of self.now) posts events → IsSome (state_of self.now).outcome
            → events ≡ result.now }
    {
        match self {
            Book::Points(book) => book.trace(),
            Book::Moments(book) => book.trace(),
            Book::Listed(book) => book.trace(),
        }
    }

    pub fn outcome(&self) -> Option<Outcome>
        ensures outcome { result ≡ (state_of self.now).outcome }
        ensures lawful { IsLawful (state_of self.now) }
    {
        match self {
            Book::Points(book) => book.outcome(),
            Book::Moments(book) => book.outcome(),
            Book::Listed(book) => book.outcome(),
        }
    }

    pub fn deal(&self) -> &Deal
        ensures { result.now ≡ (state_of self.now).deal }
    {
        match self {
            Book::Points(book) => book.deal(),
            Book::Moments(book) => book.deal(),
            Book::Listed(book) => book.deal(),
        }
    }
}
