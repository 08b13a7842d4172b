ghost use Rattle.std.specs.Prelude.{◌≡◌, ◌<◌, ◌≤◌, ℕ, true, false, Some, None, IfSome};
ghost use Rattle.turn_book.specs.Told.{IsLawful, standing_of};
ghost use Rattle.turn_lock.specs.Seen.{owes_of};
ghost use Rattle.turn_lock.specs.Slots.{NotesBelow, new_slot, word_noted};
ghost use Rattle.turn_lock.specs.Rule.{HasFlag};
ghost use Rattle.turn_lock.specs.Turns.{GivenInRange, IsOwed, TurnsTo};
ghost use Rattle.turn_lock.specs.Hands.{IsWork, IsSwept};
ghost use Rattle.turn_lock.specs.Briefs.{InBrief};
ghost use Rattle.turn_lock.specs.Wakes.{WakesBelow, AreDue};
ghost use Rattle.pct_ask.specs.declared.event.Standing.TheVariants as standings;
ghost use Rattle.pct_ask.specs.declared.limits.TheConstants.{MAX_THREADS};

use crate::board::WaitBoard;
use crate::brief::Brief;
use crate::keep::Keep;
use crate::turning::{is_away, post_and_turn, settles, waits};
use crate::work::{Wakes, Work};
use pct_ask::{MAX_THREADS, Post, Standing};
use policy_pick::Policy;
use std::marker::Model;
use turn_book::TurnBook;

/// What lies in the slot of the table.
#[derive(Drop)]
pub struct Slot<P: Policy> {
    book: TurnBook<P>,
    board: WaitBoard,
}

impl<P: Policy> Model for Slot<P> {
    ghost use Rattle.turn_lock.specs.Slots.{Slot as SlotData};

    ghost Value = { SlotData };

    ghost view = { λ s. record { book = s.book; board = s.board } };
}

impl<P: Policy> Slot<P> {
    pub fn new(book: TurnBook<P>) -> Slot<P>
        ensures slot { result ≡ new_slot book }
        ensures lawful { IsLawful book }
    {
        // Any look at a book tells that it is lawful.
        let _steps = book.trace();
        Slot {
            book,
            board: WaitBoard::new(),
        }
    }

    pub fn into_book(self) -> TurnBook<P>
        ensures { result ≡ self.book }
    {
        let Slot { book, board: _ } = self;
        book
    }

    /// The post, where one is given, and the thread's turn.
    fn turn(&mut self, thread: u32, post: Option<Post>) -> Brief
        requires thread { thread < self.old.book.deal.threads }
        requires lawful { IsLawful self.old.book }
        requires owed { IsOwed self.old.book thread post }
        requires in_range { GivenInRange self.old.book post }
        ensures turn { InBrief (λ turn.
            TurnsTo self.old.book thread post turn self.new.book) result }
        ensures board { self.new.board ≡ self.old.board }
    {
        post_and_turn(&mut self.book, thread, post)
    }

    /// The word that was noted for the thread.
    fn noted(&self, thread: u32) -> Option<u32>
        requires { NotesBelow self.now.book.deal.threads self.now.board }
        ensures some { IfSome result (λ word.
            (word_noted self.now.board thread ≡ Some word) × (word < self.now.book.deal.threads)) }
        ensures none { result ≡ None → thread < MAX_THREADS
            → word_noted self.now.board thread ≡ None }
    {
        if thread < MAX_THREADS as u32 {
            self.board.word_of(thread)
        } else {
            None
        }
    }

    /// Whom a call wakes: whoever has its turn, and once an outcome stands everybody.
    fn wakes(&self) -> Wakes
        requires { NotesBelow self.now.book.deal.threads self.now.board }
        ensures due { AreDue self.now result }
        ensures below { WakesBelow self.now.book.deal.threads result }
    {
        if self.book.is_over() {
            return Wakes::All {
                threads: self.book.deal().threads,
            };
        }
        let Some(thread) = self.book.granted() else {
            return Wakes::Nobody;
        };
        match self.noted(thread) {
            Some(word) => Wakes::One { word },
            None => Wakes::Nobody,
        }
    }

    /// Keeps the outcome of a run that is over. It stands apart from the steps after which the run
    /// goes on.
    #[inline(never)]
    fn keep_outcome<K: Keep>(&self, place: &mut K)
        ensures { K.kept self.now.book.outcome place.new }
    {
        place.keep(self.book.outcome());
    }

    /// Keeps the outcome where the run is over.
    fn keep<K: Keep>(&self, told: Brief, place: &mut K)
        ensures { told ≡ Brief.Over → K.kept self.now.book.outcome place.new }
    {
        if let Brief::Over = told {
            self.keep_outcome(place);
        }
    }

    /// Notes a thread's own word for it where that is wanted.
    fn note_own(&mut self, thread: u32, wanted: bool)
        requires thread { thread < self.old.book.deal.threads }
        requires notes { NotesBelow self.old.book.deal.threads self.old.board }
        ensures book { self.new.book ≡ self.old.book }
        ensures notes { NotesBelow self.old.book.deal.threads self.new.board }
    {
        if wanted {
            self.board.note(thread, thread);
        }
    }

    /// A turn, with what is told of it. Where the thread is alone in its seat and has to wait, its
    /// own word is noted for it.
    pub fn work<K: Keep>(
        &mut self,
        thread: u32,
        post: Option<Post>,
        alone: bool,
        place: &mut K,
    ) -> Work
        requires thread { thread < self.old.book.deal.threads }
        requires lawful { IsLawful self.old.book }
        requires notes { NotesBelow self.old.book.deal.threads self.old.board }
        requires owed { IsOwed self.old.book thread post }
        requires in_range { GivenInRange self.old.book post }
        ensures work { IsWork self.old thread post result self.new }
        ensures due { AreDue self.new result.wakes }
        ensures kept { result.brief ≡ Brief.Over → K.kept self.new.book.outcome place.new }
    {
        let brief = self.turn(thread, post);
        self.note_own(thread, alone && waits(&brief));
        self.keep(brief, place);
        Work {
            brief,
            owes: is_away(&self.book, thread),
            wakes: self.wakes(),
        }
    }

    /// Notes a word for each of these threads.
    fn note(&mut self, serves: &[bool; MAX_THREADS], word: u32)
        requires word { word < self.old.book.deal.threads }
        requires notes { NotesBelow self.old.book.deal.threads self.old.board }
        ensures book { self.new.book ≡ self.old.book }
        ensures notes { NotesBelow self.old.book.deal.threads self.new.board }
    {
        for thread in 0..MAX_THREADS as u32 {
            if serves[thread as usize] {
                self.board.note(thread, word);
            }
        }
    }

    /// Each of these threads has ended.
    fn all_ended(&self, serves: &[bool; MAX_THREADS]) -> bool
        requires { (t : ℕ) → HasFlag serves.now t → t < self.now.book.deal.threads }
        ensures { result ≡ true → (t : ℕ) → HasFlag serves.now t
            → standing_of self.now.book t ≡ standings.Ended }
    {
        for thread in 0..MAX_THREADS as u32 {
            if serves[thread as usize] && self.book.standing(thread) != Standing::Ended {
                return false;
            }
        }
        true
    }

    /// The one of these threads whose turn it is, or else the lowest.
    fn candidate(&self, serves: &[bool; MAX_THREADS], lowest: u32) -> u32
        requires { HasFlag serves.now lowest }
        ensures { HasFlag serves.now result }
    {
        match self.book.granted() {
            Some(thread) if thread < MAX_THREADS as u32 && serves[thread as usize] => thread,
            _ => lowest,
        }
    }

    /// A turn of one of these threads, if one is answered. Else the lowest one's word is noted for
    /// all.
    pub fn sweep<K: Keep>(
        &mut self,
        serves: &[bool; MAX_THREADS],
        lowest: u32,
        place: &mut K,
    ) -> Option<(u32, Work)>
        requires lowest { HasFlag serves.now lowest
            × ((t : ℕ) → HasFlag serves.now t → lowest ≤ t) }
        requires threads { (t : ℕ) → HasFlag serves.now t → t < self.old.book.deal.threads }
        requires posted { (t : ℕ) → HasFlag serves.now t → owes_of self.old.book t ≡ false }
        requires lawful { IsLawful self.old.book }
        requires notes { NotesBelow self.old.book.deal.threads self.old.board }
        ensures swept { IsSwept serves.now self.old result self.new }
        ensures kept { IfSome result (λ found.
            found.1.brief ≡ Brief.Over → K.kept self.new.book.outcome place.new) }
    {
        let thread = self.candidate(serves, lowest);
        let work = self.work(thread, None, false, place);
        if settles(&work.brief) {
            return Some((thread, work));
        }
        if self.all_ended(serves) {
            return Some((lowest, Work::ended()));
        }
        self.note(serves, lowest);
        None
    }
}
