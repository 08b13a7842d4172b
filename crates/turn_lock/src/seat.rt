ghost use Rattle.std.specs.Prelude.{◌≡◌, ◌<◌, ℕ, [], true, false, length, slice_index_or};
ghost use Rattle.turn_lock.specs.Seen.{owes_of};
ghost use Rattle.pct_ask.specs.declared.limits.TheConstants.{MAX_THREADS};

use crate::flags::first_threads;
use crate::rule::TableSeat;
use pct_ask::MAX_THREADS;
use policy_pick::Policy;

/// What one caller has of a lock: it serves a set of threads.
#[derive(Drop)]
pub struct Seat<P: Policy> {
    pub(crate) seat: TableSeat<P>,
    pub(crate) serves: [bool; MAX_THREADS],
    pub(crate) owes: [bool; MAX_THREADS],
    /// It serves one thread at most. Where this is false it may, too.
    pub(crate) alone: bool,
    /// Where the seat's last call noted a turn word for all its threads and none of them had its
    /// turn: that word, as it was then.
    pub(crate) noted: Option<u32>,
    ghost flags: { length owes ≡ MAX_THREADS },
    ghost live: { seat.me.0.live ≡ true },
    ghost idle: { seat.me.0.held ≡ false },
    ghost none: { seat.me.1 ≡ [] },
    ghost served: { serves ≡ seat.me.0.serves },
    ghost threads: { (t : ℕ) → slice_index_or serves t false ≡ true
        → t < seat.me.0.seen.deal.threads },
    ghost owed: { (t : ℕ) → slice_index_or serves t false ≡ true
        → slice_index_or owes t false ≡ owes_of seat.me.0.seen t },
}

impl<P: Policy> Seat<P> {
    ghost use Rattle.std.specs.Prelude.{◌≡◌, ◌<◌, ℕ, [], true, false, length, slice_index_or, ◌↔◌};
    ghost use Rattle.turn_lock.specs.Seen.{owes_of};
    ghost use Rattle.turn_lock.specs.Rule.{Serves, first_view};
    ghost use Rattle.turn_lock.specs.Views.{view};

    /// The first seat of a table. Each of its threads owes a post.
    pub(crate) fn first(seat: TableSeat<P>, threads: u32) -> Seat<P>
        requires me { seat.me ≡ (first_view seat.me.0.seen, []) }
        requires threads { threads ≡ seat.me.0.seen.deal.threads }
        requires owe { (t : ℕ) → t < threads → owes_of seat.me.0.seen t ≡ true }
        ensures { result.seat ≡ seat }
    {
        let all = first_threads(threads);
        Seat {
            seat,
            serves: all,
            owes: all,
            alone: threads == 1,
            noted: None,
        }
    }

    /// Whether the seat serves the thread.
    pub fn serves(&self, thread: u32) -> bool
        ensures { (result ≡ true) ↔ Serves (view self.now) thread }
    {
        thread < MAX_THREADS as u32 && self.serves[thread as usize]
    }

    /// Whether the thread's next post was not yet taken by the lock.
    pub fn owes(&self, thread: u32) -> bool
        requires { Serves (view self.now) thread }
        ensures { result ≡ owes_of (view self.now).seen thread }
    {
        self.owes[thread as usize]
    }
}
