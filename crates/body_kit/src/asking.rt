// What a port does with the lock.
ghost use Rattle.std.specs.Prelude.{◌≡◌, true, false, Some, None};
ghost use Rattle.pct_ask.specs.Objects.{sizes_of_deal, IsInRange};
ghost use Rattle.turn_book.specs.Told.{next_post};
ghost use Rattle.turn_lock.specs.Seen.{owes_of};
ghost use Rattle.turn_lock.specs.Rule.{Serves};
ghost use Rattle.turn_lock.specs.Calls.{first_book};
ghost use Rattle.turn_lock.specs.Turns.{TookAtLast};
ghost use Rattle.turn_lock.specs.Views.{view, HasSeat};
ghost use Rattle.body_kit.specs.Asking.{AskTells, IsEnded, SeatGoesOn, ServesOnly, ask_post};
ghost use Rattle.body_kit.specs.Asking.{as_turn};

use crate::asked::Asked;
use pct_ask::{Ask, Post};
use policy_pick::Pct;
use std::sync::Wait;
use turn_lock::{Seat, Turn, TurnLock};

/// Waits until the thread, which has asked, has its turn or the run is over.
fn wait<R: Wait>(
    rt: &R,
    lock: &TurnLock<Pct>,
    seat: &mut Seat<Pct>,
    thread: u32,
    ask: Ask,
    line: u32,
) -> Asked
    requires of { HasSeat lock.now seat.old }
    requires only { ServesOnly (view seat.old) thread }
    requires posted { owes_of (view seat.old).seen thread ≡ false }
    requires asks { next_post (view seat.old).seen thread ≡ Some (ask_post ask line) }
    ensures of { HasSeat lock.now seat.new }
    ensures took { TookAtLast (view seat.old) thread None (as_turn result) (view seat.new) }
{
    let (_, turn) = lock.turn_any(rt, seat);
    match turn {
        Turn::Answer(answer) => Asked::Answer(answer),
        Turn::Over(outcome) => Asked::Over(outcome),
        _ => unreachable!(),
    }
}

/// The thread asks, and waits for its turn.
pub fn ask_once<R: Wait>(
    rt: &R,
    lock: &TurnLock<Pct>,
    seat: &mut Seat<Pct>,
    thread: u32,
    ask: Ask,
    line: u32,
) -> Asked
    requires of { HasSeat lock.now seat.old }
    requires only { ServesOnly (view seat.old) thread }
    requires owes { owes_of (view seat.old).seen thread ≡ true }
    requires in_range { IsInRange (sizes_of_deal (first_book lock.now).deal) ask }
    ensures of { HasSeat lock.now seat.new }
    ensures row { AskTells (view seat.old) thread ask line result (view seat.new) }
    ensures on { SeatGoesOn (view seat.old) (view seat.new) }
{
    let post = Post {
        ask: Some(ask),
        line,
    };
    match lock.post_wait(rt, seat, thread, post) {
        Turn::Answer(answer) => Asked::Answer(answer),
        Turn::Over(outcome) => Asked::Over(outcome),
        Turn::NotYet { .. } => wait(rt, lock, seat, thread, ask, line),
        _ => unreachable!(),
    }
}

/// The thread posts its end.
pub fn end_once<R: Wait>(rt: &R, lock: &TurnLock<Pct>, seat: &mut Seat<Pct>, thread: u32, line: u32)
    requires of { HasSeat lock.now seat.old }
    requires serves { Serves (view seat.old) thread }
    requires owes { owes_of (view seat.old).seen thread ≡ true }
    ensures of { HasSeat lock.now seat.new }
    ensures ended { IsEnded (view seat.old) thread line (view seat.new) }
    ensures on { SeatGoesOn (view seat.old) (view seat.new) }
{
    lock.post_wait(rt, seat, thread, Post { ask: None, line });
}
