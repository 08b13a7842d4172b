ghost use Rattle.std.specs.Prelude.{◌≡◌, ℕ, Some, None, Err};
ghost use Rattle.pct_ask.specs.declared.verdict.Outcome.{Outcome};
ghost use Rattle.pct_ask.specs.Objects.{sizes_of_deal, IsInRange};
ghost use Rattle.turn_book.specs.Told.{IsLawful};
ghost use Rattle.turn_lock.specs.Rule.{Serves};
ghost use Rattle.turn_lock.specs.Views.{view, HasSeat};
ghost use Rattle.body_kit.specs.Asking.{AskTells, IsEnded, answer_in, asked_of};
ghost use Rattle.body_kit.specs.Asking.{over_of};
ghost use Rattle.body_kit.specs.Ports.{IsPortSeat, IsBack, home_of};

use crate::asked::{Asked, Over};
use crate::asking::{ask_once, end_once};
use pct_ask::{Ask, Outcome};
use policy_pick::{Pct, Policy};
use std::marker::Model;
use std::sync::Wait;
use turn_lock::{Seat, TurnLock};

/// How the run ended, where that was told.
fn over_of(asked: &Asked) -> Option<Outcome>
    ensures { result ≡ over_of asked.now }
{
    match *asked {
        Asked::Answer(_) => None,
        Asked::Over(outcome) => Some(outcome),
    }
}

/// The answer, or that there is none.
fn answer_in(asked: Asked) -> Result<i64, Over>
    ensures { result ≡ answer_in asked }
{
    match asked {
        Asked::Answer(answer) => Ok(answer),
        Asked::Over(outcome) => Err(Over { outcome }),
    }
}

/// What a thread of the caller's own asks through. Contracts see a port as its seat, which serves
/// one thread.
#[derive(Drop)]
pub struct Port<'k> {
    lock: &'k TurnLock<Pct>,
    seat: Seat<Pct>,
    thread: u32,
    /// How the run ended, once the port was told.
    over: Option<Outcome>,
}

impl<'k> Model for Port<'k> {
    ghost use Rattle.policy_pick.specs.declared.pct.Pct.{Pct};
    ghost use Rattle.turn_lock.specs.declared.seat.Seat.{Seat};
    ghost use Rattle.body_kit.specs.Ports.{IsPort};

    ghost Value = { Seat Pct ⟦<Pct as Policy>⟧ };

    ghost view = { λ p. p.seat };

    ghost invariant = { λ p. IsPort p.lock.now p.seat p.thread p.over };
}

impl<'k> Port<'k> {
    /// A port for the one thread of a seat.
    pub(crate) fn new(lock: &'k TurnLock<Pct>, seat: Seat<Pct>, thread: u32) -> Port<'k>
        requires of { HasSeat lock.now seat }
        requires port { IsPortSeat (view seat) thread None }
        ensures { result ≡ seat }
    {
        Port {
            lock,
            seat,
            thread,
            over: None,
        }
    }

    /// The thread asks something, on a line of its own, and waits for its turn. Once it was told
    /// that the run is over it is told so again.
    pub fn ask<R: Wait>(&mut self, rt: &R, ask: Ask, line: u32) -> Result<i64, Over>
        requires in_range { IsInRange (sizes_of_deal (view self.old).seen.deal) ask }
        ensures home { home_of self.new ≡ home_of self.old }
        ensures back { IsBack self.old self.new }
        ensures row { (t : ℕ) → Serves (view self.old) t
            → AskTells (view self.old) t ask line (asked_of result) (view self.new) }

        // Where the run was over by what the port had seen, it is told just that.
        ensures later { (o : Outcome) → IsLawful (view self.old).seen
            → (view self.old).seen.outcome ≡ Some o → result ≡ Err (record { outcome = o }) }
    {
        if let Some(outcome) = self.over {
            return Err(Over { outcome });
        }
        let asked = ask_once(rt, self.lock, &mut self.seat, self.thread, ask, line);
        self.over = over_of(&asked);
        answer_in(asked)
    }

    /// The thread ends, on a line of its own, and its seat is given back. Where the run is over
    /// nothing is posted.
    pub fn end<R: Wait>(self, rt: &R, line: u32) -> Seat<Pct>
        ensures home { home_of result ≡ home_of self.entry }
        ensures back { IsBack self.entry result }
        ensures ended { (t : ℕ) → Serves (view self.entry) t
            → IsEnded (view self.entry) t line (view result) }
    {
        let Port {
            lock,
            mut seat,
            thread,
            over,
        } = self;
        if over.is_none() {
            end_once(rt, lock, &mut seat, thread, line);
        }
        seat
    }
}
