ghost use Rattle.std.specs.Prelude.{◌≡◌, ◌≤◌, ◌+◌, List, length};
ghost use Rattle.pct_ask.specs.declared.event.Event.{Event};
ghost use Rattle.pct_ask.specs.declared.verdict.Verdict.{Verdict};
ghost use Rattle.replay_run.specs.Replay.{TellsReply, EndsBefore};
ghost use Rattle.pct_ask.specs.declared.limits.TheConstants.{MAX_STEPS};

use crate::answer::{Found, Replayed, Written};
use pct_ask::{Event, Outcome, Verdict};
use trace_text::{TraceFile, agreed};
use worker_run::Played;

/// What is told where the run ended, or left its list, before a step of the trace.
fn stopped(step: u32, outcome: Outcome, written: Event) -> Replayed
    ensures { (made told : List Event) (verdict : Verdict) → EndsBefore step made told written
        → TellsReply made outcome told verdict result }
{
    let found = match outcome {
        Outcome::Verdict(verdict) => Found::Over(verdict),
        Outcome::Departed { thread } => Found::NotEnabled { thread },
    };
    Replayed::Departs {
        step,
        found,
        written: Written::Event(written),
    }
}

/// What is told where all steps of the trace are the run's.
fn ended(step: u32, outcome: Outcome, verdict: Verdict) -> Replayed
    ensures { (steps : List Event) → step ≡ length steps + 1
        → TellsReply steps outcome steps verdict result }
{
    let found = match outcome {
        Outcome::Verdict(reached) => {
            if reached.is(&verdict) {
                return Replayed::Confirmed(verdict);
            }
            Found::Over(reached)
        }
        Outcome::Departed { thread } => Found::Goes { thread },
    };
    Replayed::Departs {
        step,
        found,
        written: Written::Verdict(verdict),
    }
}

/// Compares a run of a trace's threads with the trace.
pub(crate) fn compare(played: &Played, file: &TraceFile) -> Replayed
    requires no_longer { length played.now.events ≤ length file.now.events }
    requires few { length played.now.events ≤ MAX_STEPS }
    ensures { TellsReply played.now.events played.now.outcome file.now.events file.now.verdict
        result }
{
    let many = agreed(played.events.as_slice(), file.events.as_slice());
    let step = many as u32 + 1;
    let Some(written) = file.events.get(many) else {
        return ended(step, played.outcome, file.verdict);
    };
    match played.events.get(many) {
        Some(event) => Replayed::Departs {
            step,
            found: Found::Event(event),
            written: Written::Event(written),
        },
        None => stopped(step, played.outcome, written),
    }
}
