ghost use Rattle.std.specs.Prelude.{◌≡◌, ◌≢◌, ◌<◌, ◌≤◌, ℕ, true, false, length, map, Some, None};
ghost use Rattle.std.specs.Prelude.{List, Option};
ghost use Rattle.std.specs.Prelude.{slice_set, slice_index_or};
ghost use Rattle.std.specs.Int.{bit_at};
ghost use Rattle.pct_ask.specs.declared.ask.Post.{Post};
ghost use Rattle.pct_ask.specs.Objects.{PostIsInRange};
ghost use Rattle.sync_store.specs.Store.{sizes_of};
ghost use Rattle.sync_store.specs.Ready.{away_by, ended_by};
ghost use Rattle.policy_pick.specs.declared.chance.Chance.{Chance};
ghost use Rattle.policy_pick.specs.Choice.{chance_of, is_open, OpensOnly};
ghost use Rattle.turn_book.specs.Chances.{chance, chance_by, chance_of_post, chances};
ghost use Rattle.turn_book.specs.Told.{standing_by};
ghost use Rattle.turn_book.specs.Board.{ArePostsInRange, ask_of_post};
ghost use Rattle.turn_book.specs.Board.{concerns, waits_otherwise, waits_otherwise_ask, AreWaiters};
ghost use Rattle.turn_book.specs.Board.{next_posts_of, joins_ask, locks, locks_ask, AreLockers};
ghost use Rattle.turn_book.specs.Board.{lockers_at, LockOne, AreKnownChances, IsFresh, IsStale};
ghost use Rattle.turn_book.specs.Board.{WereChances};
ghost use Rattle.sync_store.specs.declared.touched.Touched.{Touched};
ghost use Rattle.pct_ask.specs.declared.limits.TheConstants.{MAX_THREADS, MAX_OBJECTS};

use pct_ask::{Ask, MAX_THREADS, Post, Standing};
use policy_pick::{Chance, is_open};
use sync_store::{Ready, Store, Touched};

/// The chance of a thread with this next post.
fn chance_of(store: &Store, standings: &[Standing], thread: u32, post: Option<Post>) -> Chance
    requires thread { thread < store.now.threads }
    requires standings { length standings.now ≡ store.now.threads }
    requires in_range { PostIsInRange (sizes_of store.now) (ask_of_post post) }
    ensures { result
        ≡ chance_of_post store.now (away_by standings.now) (ended_by standings.now) thread post }
{
    match post {
        None => Chance::Away,
        Some(post) => match post.ask {
            None => Chance::Ended,
            Some(ask) => chance_by(store.ready(standings, thread, &ask)),
        },
    }
}

fn chance_by(ready: Ready) -> Chance
    ensures { result ≡ chance_by ready }
{
    match ready {
        Ready::Yes => Chance::Ready,
        Ready::No => Chance::Blocked,
        Ready::Unknown { target } => Chance::Unknown { target },
    }
}

/// Whether an ask may have to wait otherwise than for a mutex that it locks: for an object, for the
/// end of a thread or for its own start.
fn waits_otherwise(ask: &Ask) -> bool
    ensures { result ≡ waits_otherwise ask.now }
{
    match *ask {
        Ask::Regain { .. }
        | Ask::Down { .. }
        | Ask::Leave { .. }
        | Ask::Join { .. }
        | Ask::Begin
        | Ask::RdLock { .. }
        | Ask::WrLock { .. } => true,
        Ask::Read { .. }
        | Ask::Write { .. }
        | Ask::Add { .. }
        | Ask::Cas { .. }
        | Ask::Lock { .. }
        | Ask::TryLock { .. }
        | Ask::Unlock { .. }
        | Ask::Release { .. }
        | Ask::Signal { .. }
        | Ask::Broadcast { .. }
        | Ask::TryDown { .. }
        | Ask::Up { .. }
        | Ask::Arrive { .. }
        | Ask::Yield
        | Ask::Check { .. }
        | Ask::Fault { .. }
        | Ask::Start { .. }
        | Ask::TryRdLock { .. }
        | Ask::TryWrLock { .. }
        | Ask::RwUnlock { .. } => false,
    }
}

/// The threads of the bits, with this one where its ask may have to wait otherwise than for a mutex
/// that it locks, and else without it.
pub fn with_waiter(waiters: u64, thread: u32, ask: Option<Ask>) -> u64
    requires { thread < MAX_THREADS }
    ensures this { waits_otherwise_ask ask ≡ true → bit_at result thread ≡ 1 }
    ensures unlocking { bit_at result thread ≡ 1 → (m : ℕ) → locks_ask m ask ≡ false }
    ensures others { (u : ℕ) → u < MAX_THREADS → u ≢ thread → bit_at result u ≡ bit_at waiters u }
{
    let bit = 1u64 << thread;
    match ask {
        Some(ask) if waits_otherwise(&ask) => waiters | bit,
        _ => waiters & !bit,
    }
}

/// A thread that was away posts. Where its ask locks a mutex, it is one of those that do.
pub fn add_locker(lockers: &mut [u64], thread: u32, ask: Option<Ask>)
    requires thread { thread < MAX_THREADS }
    requires in_range { (m : ℕ) → locks_ask m ask ≡ true → m < length lockers.old }
    ensures many { length lockers.new ≡ length lockers.old }
    ensures lockers { (posts : List (Option Post)) (post : Option Post)
        → AreLockers posts lockers.old → thread < length posts
        → next_posts_of posts thread ≡ None → ask_of_post post ≡ ask
        → AreLockers (slice_set posts thread post) lockers.new }
{
    if let Some(Ask::Lock { mutex }) = ask {
        let place = mutex as usize;
        lockers[place] = lockers[place] | 1u64 << thread;
    }
}

/// A thread takes the step that it asks, and no longer is one of those that lock a mutex.
pub fn remove_locker(lockers: &mut [u64], thread: u32, ask: &Ask)
    requires thread { thread < MAX_THREADS }
    requires in_range { (m : ℕ) → locks m ask.now ≡ true → m < length lockers.old }
    ensures many { length lockers.new ≡ length lockers.old }
    ensures lockers { (posts : List (Option Post)) → AreLockers posts lockers.old
        → thread < length posts → ask_of_post (next_posts_of posts thread) ≡ Some ask.now
        → AreLockers (slice_set posts thread None) lockers.new }
{
    if let Ask::Lock { mutex } = *ask {
        let place = mutex as usize;
        lockers[place] = lockers[place] & !(1u64 << thread);
    }
}

/// The threads that lock an object, as bits: none where it is no mutex.
fn lockers_at(lockers: &[u64], touched: Touched) -> u64
    ensures { result ≡ lockers_at lockers.now touched }
{
    match touched {
        Touched::Mutex(mutex) => match lockers.get(mutex as usize) {
            Some(threads) => *threads,
            None => 0,
        },
        Touched::Nothing
        | Touched::Cond(_)
        | Touched::Sem(_)
        | Touched::Barrier(_)
        | Touched::Thread(_)
        | Touched::RwLock(_) => 0,
    }
}

/// The mutexes of the bits, and the one that is touched, if one is.
pub fn with_stale(stale: u64, touched: Touched) -> u64
    requires { (m : ℕ) → touched ≡ Touched.Mutex m → m < MAX_OBJECTS }
    ensures touched { IsStale result touched }
    ensures others { (m : ℕ) → bit_at stale m ≡ 1 → bit_at result m ≡ 1 }
{
    match touched {
        Touched::Mutex(mutex) => stale | 1u64 << mutex,
        Touched::Nothing
        | Touched::Cond(_)
        | Touched::Sem(_)
        | Touched::Barrier(_)
        | Touched::Thread(_)
        | Touched::RwLock(_) => stale,
    }
}

/// Notes which thread an ask joins.
pub fn note_joined(joined: &mut [bool; MAX_THREADS], ask: Option<Ask>)
    ensures noted { (t : ℕ) → t < MAX_THREADS → joins_ask t ask ≡ true
        → slice_index_or joined.new t false ≡ true }
    ensures kept { (t : ℕ) → slice_index_or joined.old t false ≡ true
        → slice_index_or joined.new t false ≡ true }
{
    if let Some(Ask::Join { thread }) = ask {
        if thread < MAX_THREADS as u32 {
            joined[thread as usize] = true;
        }
    }
}

/// Looks again at one thread.
fn look_at(
    store: &Store,
    posts: &[Option<Post>],
    standings: &[Standing],
    thread: u32,
    known: &mut [Chance],
)
    requires thread { thread < store.now.threads }
    requires threads { length posts.now ≡ store.now.threads }
    requires few { store.now.threads ≤ MAX_THREADS }
    requires in_range { ArePostsInRange store.now posts.now }
    requires standings { standings.now ≡ map standing_by posts.now }
    requires as_many { length known.old ≡ store.now.threads }
    ensures { known.new
        ≡ slice_set known.old thread (chance store.now (next_posts_of posts.now) thread) }
{
    let post = posts[thread as usize];
    known[thread as usize] = chance_of(store, standings, thread, post);
}

/// Looks again at the threads that the post or the step of a thread concerns, but for those that
/// lock the mutex that it touches, which is stale from then on. Where it touches no object and
/// nobody joins the thread, that is the thread alone, and else it may be any whose ask may have to
/// wait otherwise. The result has a bit for each other thread that is open now and wasn't before.
pub fn look_again(
    store: &Store,
    posts: &[Option<Post>],
    standings: &[Standing],
    thread: u32,
    touched: Touched,
    joined: bool,
    waiters: u64,
    lockers: &[u64],
    known: &mut [Chance],
) -> u64
    requires thread { thread < store.now.threads }
    requires threads { length posts.now ≡ store.now.threads }
    requires few { store.now.threads ≤ MAX_THREADS }
    requires in_range { ArePostsInRange store.now posts.now }
    requires standings { standings.now ≡ map standing_by posts.now }
    requires waiters { AreWaiters store.now.threads posts.now waiters }
    requires lockers { AreLockers posts.now lockers.now }
    requires as_many { length known.old ≡ store.now.threads }
    requires joined { joined ≡ false
        → (u : ℕ) → joins_ask thread (ask_of_post (next_posts_of posts.now u)) ≡ false }
    ensures many { length known.new ≡ length known.old }
    ensures own { chance_of known.new thread ≡ chance store.now (next_posts_of posts.now) thread }
    ensures chances { (stale : ℕ) → IsStale stale touched
        → ((u : ℕ) → u < store.now.threads
        → IsFresh stale (ask_of_post (next_posts_of posts.now u))
        → concerns thread touched u (next_posts_of posts.now u) ≡ false
        → chance_of known.old u ≡ chance store.now (next_posts_of posts.now) u)
        → AreKnownChances store.now posts.now stale known.new }
    ensures opens { (earlier : List Chance)
        → WereChances store.now posts.now thread touched waiters known.old earlier
        → OpensOnly thread result earlier
        (chances store.now.threads store.now (next_posts_of posts.now)) }
{
    look_at(store, posts, standings, thread, known);
    match touched {
        Touched::Nothing if !joined => 0,
        _ => {
            let alike = lockers_at(lockers, touched);
            let may_lock = open_alike(store, posts, standings, alike);
            may_lock | look_at_waiters(store, posts, standings, waiters, known)
        }
    }
}

/// The threads of the bits, which all lock one mutex, where they may go, and else none.
fn open_alike(store: &Store, posts: &[Option<Post>], standings: &[Standing], alike: u64) -> u64
    requires threads { length posts.now ≡ store.now.threads }
    requires few { store.now.threads ≤ MAX_THREADS }
    requires in_range { ArePostsInRange store.now posts.now }
    requires standings { standings.now ≡ map standing_by posts.now }
    requires alike { LockOne posts.now alike }
    ensures { (u : ℕ) → u < MAX_THREADS → bit_at alike u ≡ 1
        → is_open (chance store.now (next_posts_of posts.now) u) ≡ true → result ≡ alike }
{
    if alike == 0 {
        return 0;
    }
    let chance = chance_of_alike(store, posts, standings, alike);
    if is_open(chance) { alike } else { 0 }
}

/// The chance of threads that all lock one mutex.
fn chance_of_alike(
    store: &Store,
    posts: &[Option<Post>],
    standings: &[Standing],
    alike: u64,
) -> Chance
    requires threads { length posts.now ≡ store.now.threads }
    requires few { store.now.threads ≤ MAX_THREADS }
    requires in_range { ArePostsInRange store.now posts.now }
    requires standings { standings.now ≡ map standing_by posts.now }
    requires alike { LockOne posts.now alike }
    requires some { alike ≢ 0 }
    ensures { (u : ℕ) → u < MAX_THREADS → bit_at alike u ≡ 1
        → result ≡ chance store.now (next_posts_of posts.now) u }
{
    let first = alike.trailing_zeros();
    chance_of(store, standings, first, posts[first as usize])
}

/// Looks again at those that lock the mutexes of the bits.
pub fn look_at_stale(
    store: &Store,
    posts: &[Option<Post>],
    standings: &[Standing],
    lockers: &[u64],
    stale: u64,
    known: &mut [Chance],
)
    requires threads { length posts.now ≡ store.now.threads }
    requires few { store.now.threads ≤ MAX_THREADS }
    requires in_range { ArePostsInRange store.now posts.now }
    requires standings { standings.now ≡ map standing_by posts.now }
    requires lockers { AreLockers posts.now lockers.now }
    requires as_many { length known.old ≡ store.now.threads }
    requires known { AreKnownChances store.now posts.now stale known.old }
    ensures { known.new ≡ chances store.now.threads store.now (next_posts_of posts.now) }
{
    let mut left = stale;
    while left != 0 {
        let mutex = left.trailing_zeros();
        left &= !(1u64 << mutex);
        let alike = lockers_at(lockers, Touched::Mutex(mutex));
        look_at_alike(store, posts, standings, alike, known);
    }
}

/// Looks again at threads that all lock one mutex.
fn look_at_alike(
    store: &Store,
    posts: &[Option<Post>],
    standings: &[Standing],
    alike: u64,
    known: &mut [Chance],
)
    requires threads { length posts.now ≡ store.now.threads }
    requires few { store.now.threads ≤ MAX_THREADS }
    requires in_range { ArePostsInRange store.now posts.now }
    requires standings { standings.now ≡ map standing_by posts.now }
    requires as_many { length known.old ≡ store.now.threads }
    requires alike { LockOne posts.now alike }
    ensures many { length known.new ≡ length known.old }
    ensures looked { (u : ℕ) → u < MAX_THREADS → bit_at alike u ≡ 1
        → chance_of known.new u ≡ chance store.now (next_posts_of posts.now) u }
    ensures others { (u : ℕ) → u < MAX_THREADS → bit_at alike u ≡ 0
        → chance_of known.new u ≡ chance_of known.old u }
{
    if alike != 0 {
        let chance = chance_of_alike(store, posts, standings, alike);
        set_each(alike, chance, known);
    }
}

/// Gives each thread of the bits one chance.
fn set_each(threads: u64, chance: Chance, known: &mut [Chance])
    requires { (u : ℕ) → u < MAX_THREADS → bit_at threads u ≡ 1 → u < length known.old }
    ensures many { length known.new ≡ length known.old }
    ensures these { (u : ℕ) → u < MAX_THREADS → bit_at threads u ≡ 1
        → chance_of known.new u ≡ chance }
    ensures others { (u : ℕ) → u < MAX_THREADS → bit_at threads u ≡ 0
        → chance_of known.new u ≡ chance_of known.old u }
{
    let mut left = threads;
    while left != 0 {
        let thread = left.trailing_zeros();
        left &= !(1u64 << thread);
        known[thread as usize] = chance;
    }
}

/// Looks again at each of the threads of the bits. The result has a bit for each of them that is
/// open now and wasn't before.
fn look_at_waiters(
    store: &Store,
    posts: &[Option<Post>],
    standings: &[Standing],
    waiters: u64,
    known: &mut [Chance],
) -> u64
    requires threads { length posts.now ≡ store.now.threads }
    requires few { store.now.threads ≤ MAX_THREADS }
    requires in_range { ArePostsInRange store.now posts.now }
    requires standings { standings.now ≡ map standing_by posts.now }
    requires waiters { AreWaiters store.now.threads posts.now waiters }
    requires as_many { length known.old ≡ store.now.threads }
    ensures many { length known.new ≡ length known.old }
    ensures looked { (u : ℕ) → u < MAX_THREADS → bit_at waiters u ≡ 1
        → chance_of known.new u ≡ chance store.now (next_posts_of posts.now) u }
    ensures others { (u : ℕ) → u < MAX_THREADS → bit_at waiters u ≡ 0
        → chance_of known.new u ≡ chance_of known.old u }
    ensures opens { (u : ℕ) → u < MAX_THREADS → bit_at waiters u ≡ 1 → bit_at result u ≡ 0
        → is_open (chance store.now (next_posts_of posts.now) u) ≡ true
        → is_open (chance_of known.old u) ≡ true }
{
    let mut opened = 0;
    let mut left = waiters;
    while left != 0 {
        let other = left.trailing_zeros();
        left &= !(1u64 << other);
        let post = posts[other as usize];
        let chance = chance_of(store, standings, other, post);
        opened = with_opened(opened, other, known[other as usize], chance);
        known[other as usize] = chance;
    }
    opened
}

/// The threads of the bits, and this one where it is open and wasn't before.
fn with_opened(opened: u64, thread: u32, before: Chance, after: Chance) -> u64
    requires { thread < MAX_THREADS }
    ensures this { bit_at result thread ≡ 0 → is_open after ≡ true → is_open before ≡ true }
    ensures others { (u : ℕ) → bit_at result u ≡ 0 → bit_at opened u ≡ 0 }
{
    if is_open(after) && !is_open(before) {
        opened | 1u64 << thread
    } else {
        opened
    }
}

/// Whether the thread may go now.
pub fn is_ready(chance: Chance) -> bool
    ensures { result ≡ true → chance ≡ Chance.Ready }
{
    match chance {
        Chance::Ready => true,
        Chance::Away | Chance::Blocked | Chance::Unknown { .. } | Chance::Ended => false,
    }
}
