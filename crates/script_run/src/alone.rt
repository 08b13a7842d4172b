//! Runs that the caller makes one after another, over one book of turns.

ghost use Rattle.std.specs.Prelude.{◌≡◌, ◌≤◌, ◌<◌, IfOk, OnOk};
ghost use Rattle.turn_book.specs.Told.{SameMaking};
ghost use Rattle.script_code.specs.Listing.{listing};
ghost use Rattle.worker_run.specs.Tests.{IsRunBy, IsNew};
ghost use Rattle.script_run.specs.Ready.{bodies_of_code};
ghost use Rattle.script_run.specs.Batches.{Decides, AreRunnersOf, IsSetFor};

use crate::batch::Batch;
use crate::ready::ReadyScript;
use pct_ask::Outcome;
use pct_gate::Gate;
use policy_pick::Policy;
use script_body::ScriptBody;
use script_code::Code;
use std::alloc::{AllocError as NoMemory, Global};
use std::sync::Wait;
use turn_book::TurnBook;
use worker_run::{Runner, Serving, serve_by_caller};

/// New runners of the code's threads, in the place of those that were there.
fn renew<'c>(
    code: &'c Code,
    runners: &mut Vec<Option<Runner<ScriptBody<'c>>>>,
) -> Result<(), NoMemory>
    ensures { OnOk result (AreRunnersOf (listing code.now) runners.new.items) }
{
    runners.clear();
    for thread in 0..code.threads() {
        runners.push(Some(Runner::new(ScriptBody::new(code, thread))))?;
    }
    Ok(())
}

/// Makes the run of the policy by which the book goes, and gives its outcome. Its steps are the
/// book's then.
fn play<'s, R: Wait, P: Policy, G: Gate>(
    rt: &R,
    script: &ReadyScript<'s>,
    book: &mut TurnBook<P>,
    runners: &mut Vec<Option<Runner<ScriptBody<'s>>>>,
    gate: &G,
) -> Result<Outcome, NoMemory>
    requires book { IsNew book.old }
    requires deal { book.old.deal ≡ script.now.deal.now }
    ensures making { OnOk result (SameMaking book.old book.new) }
    ensures run { IfOk result (λ outcome. IsRunBy book.old.plan book.old.deal
        (bodies_of_code (listing script.now.code.now)) book.old.limit
        (record { events = book.new.trace; outcome = outcome })) }
{
    renew(script.code, runners)?;
    Ok(serve_by_caller(rt, book, runners.as_mut_slice(), gate))
}

/// The book of turns of the run at a place.
fn book_of<T: Batch>(
    alloc: Global,
    batch: &T,
    place: u32,
    serving: &mut Serving,
) -> Result<TurnBook<T::Policy>, NoMemory>
    requires { place < T.size batch.now }
    ensures { IfOk result (IsSetFor (T.common batch.now) (T.is_run batch.now place)) }
{
    let policy = batch.policy(alloc, place, None)?;
    let deal = batch.script().deal.copy(alloc)?;
    let trace = serving.next_trace(alloc);
    TurnBook::new_in(alloc, deal, policy, batch.limit(), trace)
}

/// Makes the runs from one place to before another by the caller, and takes each before the next is
/// made, up to one that comes to an answer. They use the same book, runners and policies.
pub fn run_alone<R: Wait, T: Batch, G: Gate>(
    rt: &R,
    alloc: Global,
    batch: &T,
    kept: &mut T::Kept,
    start: u32,
    end: u32,
    serving: &mut Serving,
    gate: &G,
) -> Result<Option<T::Answer>, NoMemory>
    requires places { start ≤ end }
    requires within { end ≤ T.size batch.now }
    requires stands { T.stands batch.now kept.old start }
    ensures { IfOk result (Decides (T.stands batch.now) (T.answers batch.now) kept.new end) }
{
    if start == end {
        return Ok(None);
    }
    let script = batch.script();
    let mut book = book_of(alloc, batch, start, serving)?;
    let (mut runners, mut spare) = (Vec::new(alloc), None);
    for place in start..end {
        if place > start {
            spare = Some(book.restart(batch.policy(alloc, place, spare)?));
        }
        let outcome = play(rt, &script, &mut book, &mut runners, gate)?;
        if let Some(answer) = batch.take(alloc, kept, place, book.trace(), &outcome)? {
            return Ok(Some(answer));
        }
    }
    serving.take_back(book.into_parts().0);
    Ok(None)
}
