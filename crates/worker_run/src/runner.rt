ghost use Rattle.std.specs.Prelude.{◌≡◌, ◌<◌, ◌+◌, ◌^◌, ℤ, List, ◌∷◌, [], true, false, IsSome};
ghost use Rattle.pct_ask.specs.Objects.{sizes_of_deal};
ghost use Rattle.pct_ask.specs.Bodies.{Pending, IsInRangeBody};
ghost use Rattle.turn_book.specs.Told.{IsLawful};
ghost use Rattle.turn_lock.specs.Seen.{owes_of};
ghost use Rattle.turn_lock.specs.Rule.{Serves};
ghost use Rattle.turn_lock.specs.Calls.{first_book};
ghost use Rattle.turn_lock.specs.Views.{view, HasSeat};
ghost use Rattle.turn_lock.specs.Briefs.{brief};
ghost use Rattle.turn_lock.specs.declared.turn.Turn.{Turn};
ghost use Rattle.worker_run.specs.Served.{IsRunning, Moves, IsOver, is_over};

use pct_ask::Body;
use pct_gate::Gate;
use policy_pick::Policy;
use std::sync::Wait;
use turn_lock::{Brief, Seat, TurnLock};

/// Whether the run is over.
pub fn is_over(told: Brief) -> bool
    ensures { (turn : Turn) → told ≡ brief turn → result ≡ is_over turn }
{
    matches!(told, Brief::Over)
}

/// A body, and how many answers it has had.
#[derive(Drop)]
pub struct Runner<B: Body> {
    pub body: B,
    pub answered: u64,
}

impl<B: Body> Runner<B> {
    /// A runner of a body that has had no answer.
    pub fn new(body: B) -> Runner<B>
        ensures { result ≡ record { body = body; answered = 0 } }
    {
        Runner { body, answered: 0 }
    }

    /// The body is told the answer to what it asked.
    pub(crate) fn hear(&mut self, value: i64)
        requires asks { IsSome (B.pending self.old.body []).ask }
        requires few { self.old.answered + 1 < 2 ^ 64 }
        ensures body { (answers : List ℤ)
            → B.pending self.new.body answers ≡ B.pending self.old.body (value ∷ answers) }
        ensures answered { self.new.answered ≡ self.old.answered + 1 }
    {
        self.answered += 1;
        self.body.answer(value);
    }

    /// The thread passes the gate and posts, and goes on so for as long as it is its turn. It is
    /// true where the run is over.
    pub(crate) fn speak<R: Wait, P: Policy, G: Gate>(
        &mut self,
        rt: &R,
        lock: &TurnLock<P>,
        seat: &mut Seat<P>,
        thread: u32,
        gate: &G,
    ) -> bool
        requires of { HasSeat lock.now seat.old }
        requires serves { Serves (view seat.old) thread }
        requires owes { owes_of (view seat.old).seen thread ≡ true }
        requires runs { (start : Pending)
            × IsInRangeBody (sizes_of_deal (first_book lock.now).deal) start × IsRunning start
            (B.pending self.old.body) self.old.answered thread (view seat.old).seen }
        ensures of { HasSeat lock.now seat.new }
        ensures runs { (start : Pending)
            → IsRunning start (B.pending self.old.body) self.old.answered thread
            (view seat.old).seen
            → IsRunning start (B.pending self.new.body) self.new.answered thread
            (view seat.new).seen }
        ensures moves { Moves thread (view seat.old) (view seat.new) }
        ensures lawful { IsLawful (view seat.new).seen }
        ensures over { result ≡ true → IsOver (view seat.new).seen }
        ensures posted { result ≡ false → owes_of (view seat.new).seen thread ≡ false }
    {
        for _ in rt.forever() {
            gate.arrive(thread, self.answered);
            let post = self.body.post();
            match lock.post_brief(rt, seat, thread, post) {
                Brief::Answer(value) => self.hear(value),
                told => return is_over(told),
            }
        }
        unreachable!()
    }
}
