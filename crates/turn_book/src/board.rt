ghost use Rattle.std.specs.Prelude.{◌≡◌, ◌<◌, ℕ, List, length, replicate, Option, Some, None, true};
ghost use Rattle.std.specs.Prelude.{slice_set, IfOk, IfSome, IsNone, IsTrue};
ghost use Rattle.pct_ask.specs.declared.verdict.Verdict.{Verdict};
ghost use Rattle.pct_ask.specs.Objects.{sizes_of_deal, PostIsInRange};
ghost use Rattle.sync_store.specs.Store.{first_store, sizes_of};
ghost use Rattle.sync_store.specs.Enabled.{enabled, others_ended};
ghost use Rattle.policy_pick.specs.declared.chance.Chance.{Chance};
ghost use Rattle.policy_pick.specs.Plan.{SpeaksOf};
ghost use Rattle.policy_pick.specs.Choice.{chance_of, choice, TargetsAreAway, SameOthers};
ghost use Rattle.policy_pick.specs.Choice.{OpensOnly};
ghost use Rattle.turn_book.specs.Chances.{chance, rest_verdict};
ghost use Rattle.turn_book.specs.Obeys.{outcome_by};
ghost use Rattle.turn_book.specs.Told.{standing_by};
ghost use Rattle.turn_book.specs.Board.{TakesStep, PostsAndSteps, next_posts_of, chances_on};
ghost use Rattle.turn_book.specs.Board.{posted_on};

use crate::known::{
    add_locker, is_ready, look_again, look_at_stale, note_joined, remove_locker, with_stale,
    with_waiter,
};
use crate::posts::{asked, blocked_line, standing_of, step_of};
use pct_ask::{Ask, Blocked, Deal, Event, MAX_THREADS, Outcome, Post, Standing, Verdict};
use policy_pick::{Chance, Pick, Policy};
use std::alloc::{AllocError as NoMemory, Global};
use std::marker::Model;
use sync_store::{Ready, Store, Touched};

/// What the threads share and ask, and what is known of each one's next step.
#[derive(Drop)]
pub struct Board {
    store: Store,
    posts: Vec<Option<Post>>,
    standings: Vec<Standing>,
    /// Of each thread its chance, but for those whose asks lock a stale mutex.
    chances: Vec<Chance>,
    /// Of each thread, whether another one has ever asked for its end.
    joined: [bool; MAX_THREADS],
    /// A bit for each thread, the lowest for thread 0: where its ask may have to wait, and locks no
    /// mutex, it is set.
    waiters: u64,
    /// Of each mutex such bits, of the threads whose asks lock it. So they are looked at together.
    lockers: Vec<u64>,
    /// A bit for each mutex: where it is set, a step touched the mutex, and those that lock it
    /// weren't looked at since. They are once somebody needs all chances.
    stale: u64,
}

/// What is known at once of a thread that has posted.
#[derive(Clone, Copy)]
pub struct Posted {
    /// Whether its post has changed no other thread's chance.
    pub alone: bool,
    /// Whether it may go now.
    pub ready: bool,
}

impl Model for Board {
    ghost use Rattle.turn_book.specs.Board.{BoardState, IsNotedBoard};

    ghost Value = { BoardState };

    ghost view = { λ b. record { store = b.store; posts = b.posts.items } };

    ghost invariant = { λ b.
        IsNotedBoard b.store b.posts.items b.standings.items b.chances.items b.joined b.waiters
        b.lockers.items b.stale };
}

impl Board {
    /// No thread has posted.
    pub fn new(alloc: Global, deal: &Deal) -> Result<Self, NoMemory>
        ensures board { IfOk result (λ board.
            board ≡ record {
              store = first_store deal.now;
              posts = replicate deal.now.threads None;
            }) }
        ensures sizes { IfOk result (λ board. sizes_of board.store ≡ sizes_of_deal deal.now) }
    {
        Ok(Board {
            store: Store::new(alloc, deal)?,
            posts: several(alloc, None, deal.threads)?,
            standings: several(alloc, Standing::Away, deal.threads)?,
            chances: several(alloc, Chance::Away, deal.threads)?,
            joined: [false; MAX_THREADS],
            waiters: 0,
            lockers: several(alloc, 0, deal.mutexes)?,
            stale: 0,
        })
    }

    /// Forgets all posts, over a deal of the same sizes. Takes no memory.
    pub fn restart(&mut self, deal: &Deal)
        requires { sizes_of self.old.store ≡ sizes_of_deal deal.now }
        ensures board { self.new
            ≡ record {
              store = first_store deal.now;
              posts = replicate deal.now.threads None;
            } }
        ensures sizes { sizes_of self.new.store ≡ sizes_of_deal deal.now }
    {
        self.store.restart(deal);
        self.posts.fill(None);
        self.standings.fill(Standing::Away);
        self.chances.fill(Chance::Away);
        self.joined = [false; MAX_THREADS];
        self.waiters = 0;
        self.lockers.fill(0);
        self.stale = 0;
    }

    pub fn standing(&self, thread: u32) -> Standing
        requires { thread < length self.now.posts }
        ensures { result ≡ standing_by (next_posts_of self.now.posts thread) }
    {
        self.standings[thread as usize]
    }

    /// Who goes next. What the policy needs and isn't known is looked at first.
    pub fn pick<P: Policy>(&mut self, policy: &P) -> Pick
        requires speaks { SpeaksOf (P.plan policy.now) self.old.store.threads }
        ensures same { self.new ≡ self.old }
        ensures pick { (schedule : List ℕ) → P.stands policy.now schedule
            → result ≡ choice (P.plan policy.now) schedule (chances_on self.old) }
    {
        look_at_stale(
            &self.store,
            self.posts.as_slice(),
            self.standings.as_slice(),
            self.lockers.as_slice(),
            self.stale,
            self.chances.as_mut_slice(),
        );
        self.stale = 0;
        policy.pick(self.chances.as_slice())
    }

    /// A thread posts.
    pub fn post(&mut self, thread: u32, post: Post) -> Posted
        requires thread { thread < length self.old.posts }
        requires away { next_posts_of self.old.posts thread ≡ None }
        requires in_range { PostIsInRange (sizes_of self.old.store) post.ask }
        ensures store { self.new.store ≡ self.old.store }
        ensures posts { self.new.posts ≡ slice_set self.old.posts thread (Some post) }
        ensures alone { result.alone ≡ true
            → SameOthers thread (chances_on self.old) (chances_on self.new) }
        ensures ready { result.ready ≡ true
            → chance_of (chances_on self.new) thread ≡ Chance.Ready }
        ensures targets { TargetsAreAway (chances_on self.new) }
    {
        let place = thread as usize;
        self.posts[place] = Some(post);
        self.standings[place] = standing_of(Some(post));
        self.waiters = with_waiter(self.waiters, thread, post.ask);
        add_locker(self.lockers.as_mut_slice(), thread, post.ask);
        note_joined(&mut self.joined, post.ask);
        let joined = self.joined[place];
        look_again(
            &self.store,
            self.posts.as_slice(),
            self.standings.as_slice(),
            thread,
            Touched::Nothing,
            joined,
            self.waiters,
            self.lockers.as_slice(),
            self.chances.as_mut_slice(),
        );
        Posted {
            alone: !joined,
            ready: is_ready(self.chances[place]),
        }
    }

    /// A thread takes the step that it asks. Its next post isn't known then. Where the step ends
    /// the run, its verdict is noted. The second of the result has a bit, the lowest for thread 0,
    /// for each other thread that is open now and wasn't before.
    pub fn step(&mut self, thread: u32, outcome: &mut Option<Outcome>) -> (Event, u64)
        requires thread { thread < length self.old.posts }
        requires ready { chance self.old.store (next_posts_of self.old.posts) thread
            ≡ Chance.Ready }
        ensures step { (ends : Option Verdict) × TakesStep self.old thread result.0 ends self.new
            × (outcome.new ≡ outcome_by ends outcome.old) }
        ensures opens { OpensOnly thread result.1 (chances_on self.old) (chances_on self.new) }
        ensures sizes { sizes_of self.new.store ≡ sizes_of self.old.store }
    {
        let place = thread as usize;
        match asked(self.posts[place]) {
            Some((line, ask)) => {
                let stepped = self.store.take_step(thread, line, &ask);
                self.posts[place] = None;
                remove_locker(self.lockers.as_mut_slice(), thread, &ask);
                self.standings[place] = Standing::Away;
                let touched = Store::touched(&ask);
                self.stale = with_stale(self.stale, touched);
                let opened = look_again(
                    &self.store,
                    self.posts.as_slice(),
                    self.standings.as_slice(),
                    thread,
                    touched,
                    self.joined[place],
                    self.waiters,
                    self.lockers.as_slice(),
                    self.chances.as_mut_slice(),
                );
                (step_of(thread, line, ask, stepped, outcome), opened)
            }
            None => unreachable!(),
        }
    }

    /// A thread posts and takes its step at once, where it may take it now and nobody has ever
    /// asked for its end. As `post` and then `step`, without what would be noted in between. Where
    /// it is nothing, nothing has changed.
    pub fn post_and_step(
        &mut self,
        thread: u32,
        post: Post,
        outcome: &mut Option<Outcome>,
    ) -> Option<(Event, u64)>
        requires thread { thread < length self.old.posts }
        requires away { next_posts_of self.old.posts thread ≡ None }
        requires in_range { PostIsInRange (sizes_of self.old.store) post.ask }
        ensures steps { IfSome result (λ r.
            (ends : Option Verdict) × PostsAndSteps self.old thread post r.0 ends self.new
            × (outcome.new ≡ outcome_by ends outcome.old)) }
        ensures opens { IfSome result (λ r.
            OpensOnly thread r.1 (chances_on (posted_on self.old thread post))
            (chances_on self.new)) }
        ensures sizes { sizes_of self.new.store ≡ sizes_of self.old.store }
        ensures none { IsNone result → (self.new ≡ self.old) × (outcome.new ≡ outcome.old) }
    {
        let ask = post.ask?;
        if self.joined[thread as usize] || !self.may_go(thread, &ask) {
            return None;
        }
        let stepped = self.store.take_step(thread, post.line, &ask);
        let touched = Store::touched(&ask);
        self.stale = with_stale(self.stale, touched);
        let opened = look_again(
            &self.store,
            self.posts.as_slice(),
            self.standings.as_slice(),
            thread,
            touched,
            false,
            self.waiters,
            self.lockers.as_slice(),
            self.chances.as_mut_slice(),
        );
        let event = step_of(thread, post.line, ask, stepped, outcome);
        Some((event, opened))
    }

    /// Whether a thread whose next post isn't known may do now what is asked.
    fn may_go(&self, thread: u32, ask: &Ask) -> bool
        requires thread { thread < length self.now.posts }
        requires away { next_posts_of self.now.posts thread ≡ None }
        requires in_range { PostIsInRange (sizes_of self.now.store) (Some ask.now) }
        ensures ready { result ≡ true → (line : ℕ)
            → chance self.now.store (next_posts_of (slice_set self.now.posts thread
            (Some (record { ask = Some ask.now; line = line })))) thread
            ≡ Chance.Ready }
        ensures enabled { result ≡ true
            → IsTrue (enabled self.now.store (others_ended thread) thread ask.now) }
    {
        match self.store.ready(self.standings.as_slice(), thread, ask) {
            Ready::Yes => true,
            Ready::No | Ready::Unknown { .. } => false,
        }
    }

    /// How the run ends where nobody may go on.
    pub fn rest_verdict(&self) -> Verdict
        ensures { result
            ≡ rest_verdict self.now.store.threads self.now.store (next_posts_of self.now.posts) }
    {
        let mut blocked = Blocked::new();
        let mut stuck = false;
        for (thread, post) in self.posts.iter().enumerate() {
            if let Some(line) = blocked_line(&self.store, thread as u32, *post) {
                blocked.push(thread as u32, line);
                stuck = true;
            }
        }
        if stuck {
            Verdict::Stuck { blocked }
        } else {
            Verdict::Passed
        }
    }
}

/// As many equal items.
fn several<T: Copy + Drop>(alloc: Global, item: T, count: u32) -> Result<Vec<T>, NoMemory>
    ensures { IfOk result (λ v. v.items ≡ replicate count item) }
{
    let mut items = Vec::with_capacity(alloc, count as usize)?;
    for _ in 0..count {
        items.push(item)?;
    }
    Ok(items)
}
