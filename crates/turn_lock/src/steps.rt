// The single steps on the table, each with what it tells.
ghost use Rattle.std.specs.Prelude.{◌≡◌, ◌<◌, ◌≤◌, ◌+◌, [], IfSome};
ghost use Rattle.atomic_table.specs.Table.{step};
ghost use Rattle.turn_lock.specs.Slots.{Slot};
ghost use Rattle.turn_lock.specs.Rule.{Serves};
ghost use Rattle.turn_lock.specs.Plays.{Grabs, Looks, with_book};
ghost use Rattle.turn_lock.specs.Hands.{HasInHand, IsReady, IsReadyForAny, SlotGoesOn, IsWork};
ghost use Rattle.turn_lock.specs.Hands.{IsSwept};
ghost use Rattle.turn_lock.specs.Wakes.{WakesBelow};
ghost use Rattle.turn_lock.specs.Seats.{seat_without, seat_of_one};
ghost use Rattle.turn_lock.specs.Calls.{IsTableSeatOf, SameSeat, Idle, first_book};
ghost use mathlib.Core.Option.{none};

use crate::brief::Brief;
use crate::held::TurnLock;
use crate::keep::Keep;
use crate::rule::{Grab, Look, Mark, SplitOff, TableSeat, Unlock, Which};
use crate::work::{Wakes, Work};
use pct_ask::{MAX_THREADS, Post};
use policy_pick::Policy;
use std::sync::Wait;

/// What one sleeper adds to the place of its turn word: one to the high half, which `park` doesn't
/// compare.
const SLEEPER: u64 = 4_294_967_296;

impl<P: Policy> TurnLock<P> {
    /// Takes the slot to the seat, or answers the number of the thread that holds the lock.
    pub(crate) fn grab(&self, seat: &mut TableSeat<P>, thread: u32) -> u64
        requires of { IsTableSeatOf self.now seat.old }
        requires idle { Idle seat.old }
        requires serves { Serves seat.old.me.0 thread }
        requires thread { thread < seat.old.me.0.seen.deal.threads }
        ensures same { SameSeat seat.old seat.new }
        ensures grabs { Grabs (step 1 0 0 (thread + 1) none) seat.old.me result seat.new.me }
    {
        self.table
            .shared
            .compare_exchange::<Grab>(seat, 0, 0, thread as u64 + 1)
    }

    /// The post and the turn, on the book in the seat's hand.
    pub(crate) fn work<K: Keep>(
        &self,
        seat: &mut TableSeat<P>,
        thread: u32,
        post: Option<Post>,
        alone: bool,
        place: &mut K,
    ) -> Work
        requires of { seat.old.table_id ≡ self.now.table.shared.table_id }
        requires ready { IsReady seat.old.me thread post }
        ensures same { SameSeat seat.old seat.new × (seat.new.me.0 ≡ seat.old.me.0) }
        ensures work { (after : Slot) × HasInHand seat.new.me after
            × IsWork seat.old.me.0.base thread post result after
            × (result.brief ≡ Brief.Over → K.kept after.book.outcome place.new) }
    {
        let slot = seat.slot_mut(&self.table.shared, 0);
        slot.work(thread, post, alone, place)
    }

    /// The turn of one of these threads, on the book in the seat's hand.
    pub(crate) fn sweep<K: Keep>(
        &self,
        seat: &mut TableSeat<P>,
        threads: &[bool; MAX_THREADS],
        lowest: u32,
        place: &mut K,
    ) -> Option<(u32, Work)>
        requires of { seat.old.table_id ≡ self.now.table.shared.table_id }
        requires ready { IsReadyForAny seat.old.me threads.now lowest }
        ensures same { SameSeat seat.old seat.new × (seat.new.me.0 ≡ seat.old.me.0) }
        ensures swept { (after : Slot) × HasInHand seat.new.me after
            × IsSwept threads.now seat.old.me.0.base result after
            × IfSome result (λ found.
            found.1.brief ≡ Brief.Over → K.kept after.book.outcome place.new) }
    {
        let slot = seat.slot_mut(&self.table.shared, 0);
        slot.sweep(threads, lowest, place)
    }

    /// Gives the slot back, and frees the lock.
    pub(crate) fn unlock(&self, seat: &mut TableSeat<P>)
        requires of { seat.old.table_id ≡ self.now.table.shared.table_id }
        requires goes { (after : Slot) × HasInHand seat.old.me after
            × SlotGoesOn seat.old.me.0 seat.old.me.0.base after }
        ensures same { SameSeat seat.old seat.new }
        ensures freed { (after : Slot) → HasInHand seat.old.me after
            → seat.new.me ≡ (with_book seat.old.me.0 after.book, []) }
    {
        self.table.shared.store::<Unlock>(seat, 0, 0);
    }

    /// A thread's turn word as it is now: the low half of its place, on which the thread sleeps.
    pub(crate) fn turn_word(&self, thread: u32) -> u32
        requires { thread < (first_book self.now).deal.threads }
    {
        (self.table.shared.peek(thread as usize + 1) % SLEEPER) as u32
    }

    /// A thread's turn word where that is wanted.
    pub(crate) fn word_if(&self, wanted: bool, thread: u32) -> Option<u32>
        requires { thread < (first_book self.now).deal.threads }
    {
        if wanted {
            Some(self.turn_word(thread))
        } else {
            None
        }
    }

    /// Sleeps on a thread's turn word if that is still as it was. The high half of its place tells
    /// meanwhile that somebody sleeps, and whoever marks the word wakes only then. No wake-up is
    /// lost: all steps on the place have one order. A mark after the addition here finds the
    /// sleeper and wakes it, and by a mark before it the word isn't as it was, so `park` returns
    /// at once.
    pub(crate) fn sleep<R: Wait>(&self, rt: &R, seat: &mut TableSeat<P>, thread: u32, word: u32)
        requires of { seat.old.table_id ≡ self.now.table.shared.table_id }
        requires thread { thread < (first_book self.now).deal.threads }
        ensures same { SameSeat seat.old seat.new }
        ensures view { seat.new.me ≡ seat.old.me }
    {
        let place = thread as usize + 1;
        self.table.shared.fetch_add::<Mark>(seat, place, SLEEPER);
        self.table.shared.park(rt, place, word);
        self.table.shared.fetch_sub::<Mark>(seat, place, SLEEPER);
    }

    /// Adds one to a turn word, and wakes its waiter if it sleeps.
    fn mark(&self, seat: &mut TableSeat<P>, word: u32)
        requires of { seat.old.table_id ≡ self.now.table.shared.table_id }
        requires word { word < (first_book self.now).deal.threads }
        ensures same { SameSeat seat.old seat.new }
        ensures view { seat.new.me ≡ seat.old.me }
    {
        let place = word as usize + 1;
        let before = self.table.shared.fetch_add::<Mark>(seat, place, 1);
        if before >= SLEEPER {
            self.table.shared.wake_one(place);
        }
    }

    /// Marks the turn words of the first `threads` threads.
    fn mark_all(&self, seat: &mut TableSeat<P>, threads: u32)
        requires of { seat.old.table_id ≡ self.now.table.shared.table_id }
        requires threads { threads ≤ (first_book self.now).deal.threads }
        ensures same { SameSeat seat.old seat.new }
        ensures view { seat.new.me ≡ seat.old.me }
    {
        for word in 0..threads {
            self.mark(seat, word);
        }
    }

    /// Marks the turn words of those who may go on. A call does so after it freed the lock: a
    /// waiter that looked before the change noted its word and read it while it held the book, so
    /// it doesn't sleep on the word as it was.
    pub(crate) fn wake(&self, seat: &mut TableSeat<P>, wakes: &Wakes)
        requires of { seat.old.table_id ≡ self.now.table.shared.table_id }
        requires words { WakesBelow (first_book self.now).deal.threads wakes.now }
        ensures same { SameSeat seat.old seat.new }
        ensures view { seat.new.me ≡ seat.old.me }
    {
        match wakes {
            Wakes::Nobody => {}
            Wakes::One { word } => self.mark(seat, *word),
            Wakes::All { threads } => self.mark_all(seat, *threads),
        }
    }

    pub(crate) fn split_as<W: Which>(&self, seat: &mut TableSeat<P>, thread: u32) -> TableSeat<P>
        requires which { thread ≡ W.thread }
        requires of { seat.old.table_id ≡ self.now.table.shared.table_id }
        requires idle { Idle seat.old }
        requires serves { Serves seat.old.me.0 thread }
        ensures same { SameSeat seat.old seat.new × (result.table_id ≡ seat.old.table_id) }
        ensures left { seat.new.me ≡ (seat_without seat.old.me.0 thread, []) }
        ensures right { result.me ≡ (seat_of_one seat.old.me.0 thread, []) }
    {
        self.table.shared.split_seat::<SplitOff<W>>(seat)
    }

    /// A load of the lock word, which tells what the rule says of the seat's last join.
    pub(crate) fn look(&self, seat: &mut TableSeat<P>)
        requires of { seat.old.table_id ≡ self.now.table.shared.table_id }
        requires idle { Idle seat.old }
        ensures same { SameSeat seat.old seat.new }
        ensures looks { Looks (step 1 0 0 0 none) seat.old.me 0 seat.new.me }
    {
        self.table.shared.load::<Look>(seat, 0);
    }
}
