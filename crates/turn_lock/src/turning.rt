// What a call does with the book while it has it.
ghost use Rattle.std.specs.Prelude.{◌≡◌, ◌≢◌, ◌<◌, ◌↔◌, true, None};
ghost use Rattle.turn_book.specs.Told.{IsLawful, standing_of};
ghost use Rattle.turn_lock.specs.Turns.{GivenInRange, IsAsked, IsOwed, Row, TurnsTo};
ghost use Rattle.turn_lock.specs.Briefs.{InBrief, IsWith, as_brief, brief, settles};
ghost use Rattle.turn_lock.specs.declared.turn.Turn.{Turn};
ghost use Rattle.pct_ask.specs.declared.event.Standing.TheVariants as standings;

use crate::brief::Brief;
use crate::turn::Turn;
use pct_ask::{Outcome, Post, Standing};
use policy_pick::Policy;
use turn_book::{Reply, TurnBook};

fn as_brief(reply: Reply) -> Brief
    ensures { result ≡ as_brief reply }
{
    match reply {
        Reply::Answer(answer) => Brief::Answer(answer),
        Reply::NotYet { at, because } => Brief::NotYet { at, because },
        Reply::Over => Brief::Over,
    }
}

/// The turn that was told in brief, where an outcome stands if the run is over.
pub fn turn_of(told: Brief, outcome: Option<Outcome>) -> Turn
    requires { InBrief (IsWith outcome) told }
    ensures { (turn : Turn) → IsWith outcome turn → told ≡ brief turn → result ≡ turn }
{
    match told {
        Brief::Answer(answer) => Turn::Answer(answer),
        Brief::Ended => Turn::Ended,
        Brief::NotYet { at, because } => Turn::NotYet { at, because },
        Brief::Busy { holder } => Turn::Busy { holder },
        Brief::Over => match outcome {
            Some(outcome) => Turn::Over(outcome),
            None => unreachable!(),
        },
    }
}

/// Whether a thread that asked for its turn has been answered.
pub fn settles(told: &Brief) -> bool
    ensures { result ≡ settles told.now }
{
    matches!(told, Brief::Answer(_) | Brief::Over)
}

/// Whether a thread that asked for its turn has to wait for it.
pub fn waits(told: &Brief) -> bool {
    matches!(told, Brief::NotYet { .. })
}

/// The post, where one is given.
fn ask<P: Policy>(book: &mut TurnBook<P>, thread: u32, post: Option<Post>)
    requires thread { thread < book.old.deal.threads }
    requires lawful { IsLawful book.old }
    requires owed { IsOwed book.old thread post }
    requires in_range { GivenInRange book.old post }
    ensures asked { IsAsked book.old thread post book.new }
    ensures lawful { IsLawful book.new }
    ensures here { book.new.outcome ≡ None → standing_of book.new thread ≢ standings.Away }
{
    if let Some(post) = post {
        book.post(thread, post);
    }
}

/// The thread has ended, and the run goes on.
fn has_ended<P: Policy>(book: &TurnBook<P>, thread: u32) -> bool
    requires { thread < book.now.deal.threads }
    ensures { (result ≡ true)
        ↔ ((book.now.outcome ≡ None) × (standing_of book.now thread ≡ standings.Ended)) }
{
    !book.is_over() && book.standing(thread) == Standing::Ended
}

/// The thread's turn.
pub fn answer<P: Policy>(book: &mut TurnBook<P>, thread: u32) -> Brief
    requires thread { thread < book.old.deal.threads }
    requires lawful { IsLawful book.old }
    requires here { book.old.outcome ≡ None → standing_of book.old thread ≢ standings.Away }
    ensures row { InBrief (λ turn. Row book.old thread turn book.new) result }
    ensures lawful { IsLawful book.new }
{
    if has_ended(book, thread) {
        return Brief::Ended;
    }
    as_brief(book.take_turn(thread))
}

/// The post, where one is given, and the thread's turn. Where the book waited for the thread, both
/// are done at once.
pub fn post_and_turn<P: Policy>(book: &mut TurnBook<P>, thread: u32, post: Option<Post>) -> Brief
    requires thread { thread < book.old.deal.threads }
    requires lawful { IsLawful book.old }
    requires owed { IsOwed book.old thread post }
    requires in_range { GivenInRange book.old post }
    ensures { InBrief (λ turn. TurnsTo book.old thread post turn book.new) result }
{
    if let Some(post) = post {
        if let Some(answer) = book.post_and_take(thread, post) {
            return Brief::Answer(answer);
        }
    }
    ask(book, thread, post);
    answer(book, thread)
}

/// The thread's next post is not known.
pub fn is_away<P: Policy>(book: &TurnBook<P>, thread: u32) -> bool
    requires { thread < book.now.deal.threads }
    ensures { (result ≡ true) ↔ (standing_of book.now thread ≡ standings.Away) }
{
    book.standing(thread) == Standing::Away
}
