ghost use Rattle.std.specs.Prelude.{◌≡◌, ◌≢◌, ◌<◌, ◌≤◌, ◌^◌, ◌↔◌, ◌⊎◌, ℕ, true, length, IfOk};
ghost use Rattle.policy_pick.specs.Plan.{ByPoints};
ghost use Rattle.turn_book.specs.Told.{new_book, IsLawful, SameMaking, Within};
ghost use Rattle.turn_lock.specs.Seen.{ObeysPlan, SameOf, owes_of};
ghost use Rattle.turn_lock.specs.Rule.{Serves, first_view};
ghost use Rattle.turn_lock.specs.Calls.{first_book, ServesAll};
ghost use Rattle.turn_lock.specs.Seats.{seat_without, seat_of_one, joined_seat};
ghost use Rattle.turn_lock.specs.Views.{view, HasSeat};
ghost use Rattle.body_kit.specs.Refusals.{IsWrongCount, IsWrongOrder};
ghost use Rattle.pct_ask.specs.declared.limits.TheConstants.{MAX_POINTS, MAX_STEPS};

use crate::counts::pct_of;
use crate::error::KitError;
use crate::port::Port;
use pct_ask::Deal;
use policy_pick::Pct;
use std::alloc::Global;
use std::marker::Model;
use turn_book::TurnBook;
use turn_lock::{Seat, TurnLock};

/// A test whose threads are the caller's own. Contracts see a kit as its lock.
#[derive(Drop)]
pub struct Kit {
    lock: TurnLock<Pct>,
}

impl Model for Kit {
    ghost use Rattle.policy_pick.specs.declared.pct.Pct.{Pct};
    ghost use Rattle.turn_lock.specs.declared.held.TurnLock.{TurnLock};

    ghost Value = { TurnLock Pct };

    ghost view = { λ k. k.lock };
}

impl Kit {
    /// A test of the deal's threads, by an order of them, the highest first, and change points,
    /// that stops after `limit` steps. The seat serves all its threads, each of which owes its
    /// first post.
    pub fn open(
        alloc: Global,
        deal: Deal,
        order: &[u32],
        points: &[u32],
        limit: u32,
    ) -> Result<(Kit, Seat<Pct>), KitError>
        requires some_steps { 1 ≤ limit }
        requires few_steps { limit ≤ MAX_STEPS }
        requires few_points { length points.now ≤ MAX_POINTS }
        requires few_names { length order.now < 2 ^ 32 }
        ensures made { IfOk result (λ r.
            first_book r.0 ≡ new_book deal limit (ByPoints order.now points.now)) }
        ensures of { IfOk result (λ r. HasSeat r.0 r.1) }
        ensures view { IfOk result (λ r. view r.1 ≡ first_view (first_book r.0)) }
        ensures all { IfOk result (λ r. ServesAll (view r.1)) }
        ensures owe { IfOk result (λ r. (t : ℕ) → owes_of (view r.1).seen t ≡ true) }

        // Each refusal comes exactly where this holds.
        ensures wrong_count { (had named : ℕ)
            → (result ≡ Err (KitError.WrongCount had named))
            ↔ IsWrongCount deal.threads deal.threads order.now had named }
        ensures not_an_order { (at : ℕ)
            → (result ≡ Err (KitError.NotAnOrder at))
            ↔ IsWrongOrder deal.threads deal.threads order.now at }
    {
        let pct = pct_of(alloc, deal.threads, deal.threads, order, points)?;
        let book = TurnBook::new(alloc, deal, pct, limit)?;
        let (lock, seat) = TurnLock::new(alloc, book)?;
        Ok((Kit { lock }, seat))
    }

    /// Takes a thread off the seat, into a new seat that serves it alone, which a thread of the
    /// caller's can take along.
    pub fn split(&self, seat: &mut Seat<Pct>, thread: u32) -> Seat<Pct>
        requires of { HasSeat self.now seat.old }
        requires serves { Serves (view seat.old) thread }
        ensures of { HasSeat self.now seat.new × HasSeat self.now result }
        ensures left { view seat.new ≡ seat_without (view seat.old) thread }
        ensures right { view result ≡ seat_of_one (view seat.old) thread }
        ensures rest { (t : ℕ) → t ≢ thread → Serves (view seat.old) t → Serves (view seat.new) t }
        ensures own { Serves (view result) thread }
    {
        self.lock.split(seat, thread)
    }

    /// Takes a thread off the seat. Its port has a seat that serves it alone.
    pub fn port<'k>(&'k self, seat: &mut Seat<Pct>, thread: u32) -> Port<'k>
        requires of { HasSeat self.now seat.old }
        requires serves { Serves (view seat.old) thread }
        requires owes { owes_of (view seat.old).seen thread ≡ true }
        ensures of { HasSeat self.now seat.new × HasSeat self.now result }
        ensures left { view seat.new ≡ seat_without (view seat.old) thread }
        ensures right { view result ≡ seat_of_one (view seat.old) thread }
        ensures rest { (t : ℕ) → t ≢ thread → Serves (view seat.old) t → Serves (view seat.new) t }
        ensures own { Serves (view result) thread }
    {
        let own = self.lock.split(seat, thread);
        Port::new(&self.lock, own, thread)
    }

    /// The seat serves the other's threads too, and has seen what each of the two has seen.
    pub fn join(&self, seat: &mut Seat<Pct>, other: Seat<Pct>)
        requires of { HasSeat self.now seat.old × HasSeat self.now other }
        ensures of { HasSeat self.now seat.new }
        ensures view { view seat.new ≡ joined_seat (view seat.old) (view other) }
        ensures seen { Within (view seat.old).seen (view seat.new).seen
            × Within (view other).seen (view seat.new).seen }
        ensures serves { (t : ℕ) → Serves (view seat.old) t ⊎ Serves (view other) t
            → Serves (view seat.new) t }
        ensures own { (t : ℕ) → Serves (view seat.old) t
            → SameOf t (view seat.old).seen (view seat.new).seen }
        ensures theirs { (t : ℕ) → Serves (view other) t
            → SameOf t (view other).seen (view seat.new).seen }
        ensures obeys { ObeysPlan (view seat.new).seen }
    {
        self.lock.join(seat, other);
    }

    /// Gives the book of the test back, which has each thread's posts and steps as its port had
    /// them.
    pub fn close(self, seat: Seat<Pct>) -> TurnBook<Pct>
        requires of { HasSeat self seat }
        requires all { ServesAll (view seat) }
        ensures making { SameMaking (first_book self) result }
        ensures lawful { IsLawful result }
        ensures seen { Within (view seat).seen result }
        ensures own { (t : ℕ) → t < result.deal.threads → SameOf t (view seat).seen result }
    {
        self.lock.close(seat)
    }
}
