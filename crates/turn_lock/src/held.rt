ghost use Rattle.std.specs.Prelude.{◌≡◌, ◌+◌};

use crate::brief::Brief;
use crate::flags::{chosen, either, lowest};
use crate::keep::{Keep, Nowhere};
use crate::round::Round;
use crate::rule::{Both, LockLaw};
use crate::seat::Seat;
use crate::slot::Slot;
use crate::turn::Turn;
use crate::turning::{turn_of, waits};
use crate::view::View;
use atomic_table::{Refused, Table};
use pct_ask::{MAX_THREADS, Post};
use policy_pick::Policy;
use std::alloc::{AllocError as NoMemory, Global};
use std::marker::Brand;
use std::snapshot::Snapshot;
use std::sync::Wait;
use std::thread::yield_now;
use turn_book::TurnBook;

/// How often the waiting threads of a test look at their turn words, and yield, before they sleep:
/// each of them this often, divided by the number of the test's threads. Measured with four quiet
/// processors: two threads that hand the turn to each other by semaphores make a little over
/// 1,000,000 steps a second with 10 looks each as with 1,000, and 360,000 where they sleep at once;
/// a bounded buffer of three threads makes 650,000 with 200 or 1,000 looks, 620,000 with 50, and
/// 480,000 with 10 or none; rings of three and of five threads take a seventh longer with 20 looks
/// than with 200, rings of eight and of sixteen as long. Sixteen threads that seldom hand the turn
/// over take half the processor time with 20 looks, and on busy processors half the time. Pinned to
/// one processor, 10 looks do as well as 1,000, and none up to a tenth less.
const LOOKS: u32 = 400;

/// How often each thread of a test looks, by the number of threads.
fn looks_of_each(threads: u32) -> u32 {
    LOOKS / threads.max(1)
}

/// A lock that holds a book of turns, for many seats.
#[derive(Drop)]
pub struct TurnLock<P: Policy> {
    pub(crate) table: Table<Slot<P>, View, Snapshot<Slot<P>>, LockLaw, Global>,
    /// How often a waiting thread looks at its turn word before it sleeps.
    looks: u32,
    ghost words: { table.shared.table_id.words ≡ table.shared.key.value.book.deal.threads + 1 },
    ghost slots: { table.shared.table_id.slots ≡ 1 },
}

impl<P: Policy> TurnLock<P> {
    ghost use Rattle.std.specs.Prelude.{◌≡◌, ◌+◌, ◌<◌, ℕ, [], IfOk, ◌≤◌, true, false, None, Some};
    ghost use Rattle.turn_book.specs.Told.{standing_of, IsLawful, SameMaking, Within};
    ghost use Rattle.turn_lock.specs.Seen.{ObeysPlan, SameOf, owes_of};
    ghost use Rattle.turn_lock.specs.Rule.{Serves, first_view};
    ghost use Rattle.turn_lock.specs.Turns.{GivenInRange, IsOwed, GivesOnce, TookAtLast, TellsEnd};
    ghost use Rattle.turn_lock.specs.Briefs.{InBrief};
    ghost use Rattle.turn_lock.specs.Calls.{first_book, ServesAll, WaitsForTurn};
    ghost use Rattle.turn_lock.specs.Seats.{seat_without, seat_of_one, joined_seat};
    ghost use Rattle.turn_lock.specs.Views.{view, HasSeat};
    ghost use Rattle.pct_ask.specs.declared.event.Standing.TheVariants as standings;
    ghost use Rattle.pct_ask.specs.Objects.{sizes_of_deal, PostIsInRange};
    ghost use Rattle.turn_lock.specs.Rounds.{RoundTells};

    /// A lock over a book in which nothing has happened, and the seat that serves all its threads.
    pub fn new(alloc: Global, book: TurnBook<P>) -> Result<(TurnLock<P>, Seat<P>), NoMemory>
        requires steps { book.trace ≡ [] }
        requires away { (t : ℕ) → t < book.deal.threads → standing_of book t ≡ standings.Away }
        ensures made { IfOk result (λ r. first_book r.0 ≡ book) }
        ensures of { IfOk result (λ r. HasSeat r.0 r.1) }
        ensures view { IfOk result (λ r. view r.1 ≡ first_view book) }
        ensures obeys { IfOk result (λ r. ObeysPlan (view r.1).seen) }
    {
        let threads = book.deal().threads;
        let slot = Slot::new(book);
        let about = Snapshot::of(&slot);
        let words = vec![in alloc; 0u64; threads as usize + 1]?;
        let mut slots = Vec::with_capacity(alloc, 1)?;
        slots.push_reserved(slot);
        match Table::new(alloc, words.as_slice(), slots, &about) {
            Ok((table, seat)) => {
                let looks = looks_of_each(threads);
                Ok((TurnLock { table, looks }, Seat::first(seat, threads)))
            }
            Err(Refused { slots: _ }) => Err(NoMemory),
        }
    }

    /// Takes a thread off the seat, into a new seat that serves it alone.
    pub fn split(&self, seat: &mut Seat<P>, thread: u32) -> Seat<P>
        requires of { HasSeat self.now seat.old }
        requires serves { Serves (view seat.old) thread }
        ensures of { HasSeat self.now seat.new × HasSeat self.now result }
        ensures left { view seat.new ≡ seat_without (view seat.old) thread }
        ensures right { view result ≡ seat_of_one (view seat.old) thread }
    {
        let other = self.split_as::<Brand>(&mut seat.seat, thread);
        seat.serves[thread as usize] = false;
        let mut serves = [false; MAX_THREADS];
        serves[thread as usize] = true;
        Seat {
            seat: other,
            serves,
            owes: seat.owes,
            alone: true,
            noted: None,
        }
    }

    /// The seat serves the other's threads too, and has seen what each of the two has seen.
    pub fn join(&self, seat: &mut Seat<P>, other: Seat<P>)
        requires of { HasSeat self.now seat.old × HasSeat self.now other }
        ensures of { HasSeat self.now seat.new }
        ensures view { view seat.new ≡ joined_seat (view seat.old) (view other) }
        ensures seen { Within (view seat.old).seen (view seat.new).seen
            × Within (view other).seen (view seat.new).seen }
        ensures own { (t : ℕ) → Serves (view seat.old) t
            → SameOf t (view seat.old).seen (view seat.new).seen }
        ensures theirs { (t : ℕ) → Serves (view other) t
            → SameOf t (view other).seen (view seat.new).seen }
        ensures obeys { ObeysPlan (view seat.new).seen }
    {
        let Seat {
            seat: their_seat,
            serves,
            owes,
            alone: _,
            noted: _,
        } = other;
        let both = either(&seat.serves, &serves);
        let owing = chosen(&serves, &owes, &seat.owes);
        self.table
            .shared
            .join_seat::<Both>(&mut seat.seat, their_seat);
        self.look(&mut seat.seat);
        seat.serves = both;
        seat.owes = owing;
        seat.alone = false;
        seat.noted = None;
    }

    /// Gives the book back. A seat that serves every thread has the lock for itself.
    pub fn close(self, seat: Seat<P>) -> TurnBook<P>
        requires of { HasSeat self seat }
        requires all { ServesAll (view seat) }
        ensures making { SameMaking (first_book self) result }
        ensures lawful { IsLawful result }
        ensures seen { Within (view seat).seen result }
        ensures own { (t : ℕ) → t < result.deal.threads → SameOf t (view seat).seen result }
    {
        let TurnLock { table, looks: _ } = self;
        let Seat {
            seat: table_seat,
            serves: _,
            owes: _,
            alone: _,
            noted: _,
        } = seat;
        let mut closed = table.close_with(table_seat);
        let slot = closed.take(0);
        closed.free();
        slot.into_book()
    }

    /// Posts, where a post is owed, and asks for the thread's turn. It waits for nobody: where
    /// another seat holds the lock it says so.
    pub fn try_turn(&self, seat: &mut Seat<P>, thread: u32, post: Option<Post>) -> Turn
        requires of { HasSeat self.now seat.old }
        requires serves { Serves (view seat.old) thread }
        requires owed { IsOwed (view seat.old).seen thread post }
        requires in_range { GivenInRange (first_book self.now) post }
        ensures of { HasSeat self.now seat.new }
        ensures gives { GivesOnce (view seat.old) thread post result (view seat.new) }
        ensures obeys { ObeysPlan (view seat.new).seen }
    {
        let mut outcome = None;
        let told = self.try_in_brief(seat, thread, post, &mut outcome);
        turn_of(told, outcome)
    }

    /// As `try_turn`, in brief. The outcome is kept where the run is over. Where the seat serves
    /// the thread alone and it isn't its turn, its turn word is noted for it in the same round, so
    /// a call that waits doesn't take the lock again for that.
    pub(crate) fn try_in_brief<K: Keep>(
        &self,
        seat: &mut Seat<P>,
        thread: u32,
        post: Option<Post>,
        place: &mut K,
    ) -> Brief
        requires of { HasSeat self.now seat.old }
        requires serves { Serves (view seat.old) thread }
        requires owed { IsOwed (view seat.old).seen thread post }
        requires in_range { GivenInRange (first_book self.now) post }
        ensures of { HasSeat self.now seat.new }
        ensures gives { InBrief (λ turn.
            GivesOnce (view seat.old) thread post turn (view seat.new)) result }
        ensures obeys { ObeysPlan (view seat.new).seen }
        ensures kept { result ≡ Brief.Over → K.kept (view seat.new).seen.outcome place.new }
    {
        let found = self.grab(&mut seat.seat, thread);
        if found != 0 {
            return Brief::Busy {
                holder: (found - 1) as u32,
            };
        }
        let work = self.work(&mut seat.seat, thread, post, seat.alone, place);
        let noted = self.word_if(seat.alone && waits(&work.brief), thread);
        self.unlock(&mut seat.seat);
        self.wake(&mut seat.seat, &work.wakes);
        seat.owes[thread as usize] = work.owes;
        seat.noted = noted;
        work.brief
    }

    // ---- What may wait.

    /// As `try_turn` with a post, and tries again while another seat holds the lock.
    pub fn post_wait<R: Wait>(&self, rt: &R, seat: &mut Seat<P>, thread: u32, post: Post) -> Turn
        requires of { HasSeat self.now seat.old }
        requires serves { Serves (view seat.old) thread }
        requires owed { owes_of (view seat.old).seen thread ≡ true }
        requires in_range { PostIsInRange (sizes_of_deal (first_book self.now).deal) post.ask }
        ensures of { HasSeat self.now seat.new }
        ensures turn { TookAtLast (view seat.old) thread (Some post) result (view seat.new) }
        ensures obeys { ObeysPlan (view seat.new).seen }
    {
        let mut outcome = None;
        let told = self.post_in_brief(rt, seat, thread, post, &mut outcome);
        turn_of(told, outcome)
    }

    /// As `post_wait`, without the outcome of a run that is over.
    pub fn post_brief<R: Wait>(&self, rt: &R, seat: &mut Seat<P>, thread: u32, post: Post) -> Brief
        requires of { HasSeat self.now seat.old }
        requires serves { Serves (view seat.old) thread }
        requires owed { owes_of (view seat.old).seen thread ≡ true }
        requires in_range { PostIsInRange (sizes_of_deal (first_book self.now).deal) post.ask }
        ensures of { HasSeat self.now seat.new }
        ensures turn { InBrief (λ turn.
            TookAtLast (view seat.old) thread (Some post) turn (view seat.new))
            result }
        ensures obeys { ObeysPlan (view seat.new).seen }
    {
        self.post_in_brief(rt, seat, thread, post, &mut Nowhere)
    }

    /// As `post_wait`, in brief. The outcome is kept where the run is over.
    fn post_in_brief<R: Wait, K: Keep>(
        &self,
        rt: &R,
        seat: &mut Seat<P>,
        thread: u32,
        post: Post,
        place: &mut K,
    ) -> Brief
        requires of { HasSeat self.now seat.old }
        requires serves { Serves (view seat.old) thread }
        requires owed { owes_of (view seat.old).seen thread ≡ true }
        requires in_range { PostIsInRange (sizes_of_deal (first_book self.now).deal) post.ask }
        ensures of { HasSeat self.now seat.new }
        ensures turn { InBrief (λ turn.
            TookAtLast (view seat.old) thread (Some post) turn (view seat.new))
            result }
        ensures obeys { ObeysPlan (view seat.new).seen }
        ensures kept { result ≡ Brief.Over → K.kept (view seat.new).seen.outcome place.new }
    {
        for _ in rt.forever() {
            match self.try_in_brief(seat, thread, Some(post), place) {
                Brief::Busy { holder: _ } => yield_now(),
                told => return told,
            }
        }
        unreachable!()
    }

    /// Takes the book once, where the lock is free, and gives a thread of the seat its turn. Where
    /// none has it, the turn word of the lowest is noted for all of them, and read before the lock
    /// is freed.
    fn round<K: Keep>(&self, seat: &mut Seat<P>, lowest: u32, place: &mut K) -> Round
        requires of { HasSeat self.now seat.old }
        requires here { Serves (view seat.old) lowest }
        requires least { (t : ℕ) → Serves (view seat.old) t → lowest ≤ t }
        requires posted { (t : ℕ) → Serves (view seat.old) t
            → owes_of (view seat.old).seen t ≡ false }
        ensures of { HasSeat self.now seat.new }
        ensures round { RoundTells (view seat.old) result (view seat.new) }
        ensures obeys { ObeysPlan (view seat.new).seen }
        ensures kept { (thread : ℕ) → result ≡ Round.Found thread Brief.Over
            → K.kept (view seat.new).seen.outcome place.new }
    {
        let found = self.grab(&mut seat.seat, lowest);
        if found != 0 {
            return Round::Busy;
        }
        let swept = self.sweep(&mut seat.seat, &seat.serves, lowest, place);
        let word = self.turn_word(lowest);
        self.unlock(&mut seat.seat);
        match swept {
            Some((thread, work)) => {
                self.wake(&mut seat.seat, &work.wakes);
                seat.owes[thread as usize] = work.owes;
                Round::Found {
                    thread,
                    brief: work.brief,
                }
            }
            None => Round::Wait { word },
        }
    }

    /// Looks a number of times whether a thread's turn word has changed from what it was, and
    /// yields after each look.
    fn has_changed(&self, thread: u32, word: u32) -> bool
        requires { thread < (first_book self.now).deal.threads }
    {
        for _ in 0..self.looks {
            if self.turn_word(thread) != word {
                return true;
            }
            yield_now();
        }
        false
    }

    /// Looks a number of times whether a thread's turn word has changed from what it was, and then
    /// sleeps on it.
    fn look_or_sleep<R: Wait>(&self, rt: &R, seat: &mut Seat<P>, thread: u32, word: u32)
        requires of { HasSeat self.now seat.old }
        requires thread { thread < (first_book self.now).deal.threads }
        ensures of { HasSeat self.now seat.new }
        ensures view { view seat.new ≡ view seat.old }
    {
        if !self.has_changed(thread, word) {
            self.sleep(rt, &mut seat.seat, thread, word);
        }
    }

    /// Waits first where the seat's last call noted the word already.
    fn wait_noted<R: Wait>(&self, rt: &R, seat: &mut Seat<P>, thread: u32)
        requires of { HasSeat self.now seat.old }
        requires thread { thread < (first_book self.now).deal.threads }
        ensures of { HasSeat self.now seat.new }
        ensures view { view seat.new ≡ view seat.old }
    {
        if let Some(word) = seat.noted.take() {
            self.look_or_sleep(rt, seat, thread, word);
        }
    }

    /// Waits until a thread of the seat has its turn, or the run is over, or all its threads have
    /// ended. It sleeps only after a round in which it took the book, on its turn word as it was
    /// then, which whoever gives one of its threads the turn changes afterwards.
    pub fn turn_any<R: Wait>(&self, rt: &R, seat: &mut Seat<P>) -> (u32, Turn)
        requires of { HasSeat self.now seat.old }
        requires waits { WaitsForTurn (view seat.old) }
        ensures of { HasSeat self.now seat.new }
        ensures serves { Serves (view seat.old) result.0 }
        ensures turn { TookAtLast (view seat.old) result.0 None result.1 (view seat.new) }
        ensures tells { TellsEnd (view seat.old).serves result.0 result.1 (view seat.new).seen }
        ensures obeys { ObeysPlan (view seat.new).seen }
    {
        let mut outcome = None;
        let (thread, told) = self.turn_in_brief(rt, seat, &mut outcome);
        (thread, turn_of(told, outcome))
    }

    /// As `turn_any`, without the outcome of a run that is over.
    pub fn turn_brief<R: Wait>(&self, rt: &R, seat: &mut Seat<P>) -> (u32, Brief)
        requires of { HasSeat self.now seat.old }
        requires waits { WaitsForTurn (view seat.old) }
        ensures of { HasSeat self.now seat.new }
        ensures serves { Serves (view seat.old) result.0 }
        ensures turn { InBrief (λ turn.
            TookAtLast (view seat.old) result.0 None turn (view seat.new)
            × TellsEnd (view seat.old).serves result.0 turn (view seat.new).seen)
            result.1 }
        ensures obeys { ObeysPlan (view seat.new).seen }
    {
        self.turn_in_brief(rt, seat, &mut Nowhere)
    }

    /// As `turn_any`, in brief. The outcome is kept where the run is over.
    fn turn_in_brief<R: Wait, K: Keep>(
        &self,
        rt: &R,
        seat: &mut Seat<P>,
        place: &mut K,
    ) -> (u32, Brief)
        requires of { HasSeat self.now seat.old }
        requires waits { WaitsForTurn (view seat.old) }
        ensures of { HasSeat self.now seat.new }
        ensures serves { Serves (view seat.old) result.0 }
        ensures turn { InBrief (λ turn.
            TookAtLast (view seat.old) result.0 None turn (view seat.new)
            × TellsEnd (view seat.old).serves result.0 turn (view seat.new).seen)
            result.1 }
        ensures obeys { ObeysPlan (view seat.new).seen }
        ensures kept { result.1 ≡ Brief.Over → K.kept (view seat.new).seen.outcome place.new }
    {
        let lowest = lowest(&seat.serves);
        self.wait_noted(rt, seat, lowest);
        for _ in rt.forever() {
            match self.round(seat, lowest, place) {
                Round::Busy => yield_now(),
                Round::Found { thread, brief } => return (thread, brief),
                Round::Wait { word } => self.look_or_sleep(rt, seat, lowest, word),
            }
        }
        unreachable!()
    }
}
