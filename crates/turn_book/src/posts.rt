ghost use Rattle.std.specs.Prelude.{◌≡◌, ◌<◌, Option, Some, None, MatchOption};
ghost use Rattle.std.specs.Option.{option_map};
ghost use Rattle.sync_store.specs.Effect.{Effect, applied_of};
ghost use Rattle.sync_store.specs.Stepped.{applied_by};
ghost use Rattle.turn_book.specs.Chances.{blocked_by_post};
ghost use Rattle.turn_book.specs.Obeys.{outcome_by};
ghost use Rattle.turn_book.specs.Told.{standing_by};
ghost use Rattle.turn_book.specs.Board.{ask_of_post, answer_of, verdict_of};

use pct_ask::{Ask, Event, Outcome, Post, Standing};
use sync_store::{Applied, Stepped, Store};

/// What is known of a thread with this next post.
pub fn standing_of(post: Option<Post>) -> Standing
    ensures { result ≡ standing_by post }
{
    match post {
        None => Standing::Away,
        Some(post) => match post.ask {
            None => Standing::Ended,
            Some(_) => Standing::Asks,
        },
    }
}

/// The line and the ask of a post, if it has one.
pub fn asked(post: Option<Post>) -> Option<(u32, Ask)>
    ensures { MatchOption result (ask_of_post post ≡ None)
        (λ found. post ≡ Some (record { ask = Some found.1; line = found.0 })) }
{
    match post {
        None => None,
        Some(post) => match post.ask {
            None => None,
            Some(ask) => Some((post.line, ask)),
        },
    }
}

/// A step as the trace has it. Where it ends the run, its verdict is noted.
pub fn step_of(
    thread: u32,
    line: u32,
    ask: Ask,
    stepped: Stepped,
    outcome: &mut Option<Outcome>,
) -> Event
    ensures thread { result.thread ≡ thread }
    ensures line { result.line ≡ line }
    ensures ask { result.ask ≡ ask }
    ensures answer { (step : Effect) → applied_by stepped ≡ applied_of step
        → result.answer ≡ answer_of step }
    ensures outcome { (step : Effect) → applied_by stepped ≡ applied_of step
        → outcome.new ≡ outcome_by (verdict_of step) outcome.old }
{
    let answer = match stepped {
        Stepped::Answer(answer) => answer,
        Stepped::Failed { .. } | Stepped::Misuse { .. } | Stepped::Fault { .. } => {
            note_verdict(stepped, outcome);
            0
        }
    };
    Event {
        thread,
        line,
        ask,
        answer,
    }
}

/// Notes the verdict of a step, where that ends the run. It has room for 64 threads, and stands
/// apart from the steps after which the run goes on.
#[inline(never)]
fn note_verdict(stepped: Stepped, outcome: &mut Option<Outcome>)
    ensures { (step : Effect) → applied_by stepped ≡ applied_of step
        → outcome.new ≡ outcome_by (verdict_of step) outcome.old }
{
    if let Applied::Ends(verdict) = stepped.applied() {
        *outcome = Some(Outcome::Verdict(verdict));
    }
}

/// The line of a thread that is blocked where nobody may go on.
pub fn blocked_line(store: &Store, thread: u32, post: Option<Post>) -> Option<u32>
    requires { thread < store.now.threads }
    ensures { blocked_by_post store.now thread post ≡ option_map (λ line. (thread, line)) result }
{
    let (line, ask) = asked(post)?;
    if ask == Ask::Begin && !store.is_started(thread) {
        None
    } else {
        Some(line)
    }
}
