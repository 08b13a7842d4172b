ghost use Rattle.turn_lock.specs.Rule.{KeepsRule, first_view, spent_view};
ghost use Rattle.turn_lock.specs.Plays.{Grabs, Unlocks, Marks, Looks};
ghost use Rattle.turn_lock.specs.Seats.{seat_without, seat_of_one, joined_seat};

use crate::slot::Slot;
use crate::view::View;
use atomic_table::{Join, Play, Split, TableRule};
use policy_pick::Policy;
use std::marker::{Brand, PhantomData};
use std::snapshot::Snapshot;

/// A seat as the table has it.
pub type TableSeat<P> = atomic_table::Seat<Slot<P>, View>;

/// What is true between any two steps.
pub struct LockLaw;

impl<P: Policy> TableRule<Slot<P>, View, Snapshot<Slot<P>>> for LockLaw {
    ghost holds = { λ key. KeepsRule key.value.book };

    ghost first = { λ key. first_view key.value.book };
}

/// Compare and exchange on the lock word.
pub struct Grab;

impl<P: Policy> Play<Slot<P>, View> for Grab {
    ghost then = { Grabs };
}

/// The store that frees the lock.
pub struct Unlock;

impl<P: Policy> Play<Slot<P>, View> for Unlock {
    ghost then = { Unlocks };
}

/// A step on a turn word.
pub struct Mark;

impl<P: Policy> Play<Slot<P>, View> for Mark {
    ghost then = { Marks };
}

/// The load after a join.
pub struct Look;

impl<P: Policy> Play<Slot<P>, View> for Look {
    ghost then = { Looks };
}

/// Which thread is split off. Each call picks it.
pub trait Which {
    ghost use Rattle.std.specs.Prelude.{ℕ};

    ghost thread: { ℕ };
}

impl Which for Brand {
    ghost thread = { 0 };
}

/// A thread is split off.
pub struct SplitOff<W: Which> {
    of: PhantomData<W>,
}

impl<W: Which> Split<View> for SplitOff<W> {
    ghost left = { λ v. seat_without v W.thread };

    ghost right = { λ v. seat_of_one v W.thread };
}

/// Two seats are made one.
pub struct Both;

impl Join<View> for Both {
    ghost both = { joined_seat };

    ghost spent = { spent_view };
}
