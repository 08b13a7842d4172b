//! Verdicts that may be written.

ghost use Rattle.std.specs.Prelude.{◌≡◌, ◌↔◌, IsTrue, Some, All, length};
ghost use Rattle.pct_ask.specs.Places.{places_from, known_lines};
ghost use Rattle.report_text.specs.Report.{IsWritable};
ghost use Rattle.c_values.specs.Outcomes.{verdict_said};
ghost use Rattle.c_values.specs.Told.{Answers};
ghost use Rattle.trace_text.specs.Known.{IsKnownPlace};
ghost use Rattle.c_texts.specs.Known.{AreKnownBlocked, SaysKnown, IsKnown};

use c_values::{PctOutcome, Refused, verdict_said};
use pct_ask::{MAX_THREADS, NameKind, Names, Verdict};
use trace_text::is_known_place;

/// Whether each thread whose bit is set has a name, and its line is a test's.
fn are_known_places(threads: u32, bits: u64, lines: &[u32; MAX_THREADS]) -> bool
    ensures { IsTrue result
        ↔ All (IsKnownPlace threads) (places_from 0 (known_lines bits lines.now)) }
{
    let mut rest = bits;
    for (thread, line) in lines.iter().enumerate() {
        if rest % 2 == 1 && !is_known_place(threads, thread as u32, *line) {
            return false;
        }
        rest /= 2;
    }
    true
}

/// Whether some bit is set, and each thread whose bit is set is known.
fn is_known_stuck(threads: u32, bits: u64, lines: &[u32; MAX_THREADS]) -> bool
    ensures { IsTrue result
        ↔ AreKnownBlocked threads (places_from 0 (known_lines bits lines.now)) }
{
    bits != 0 && are_known_places(threads, bits, lines)
}

/// Whether a verdict's threads have names and its lines are a test's; and where it is that of a
/// stuck run, somebody is blocked.
fn is_known(names: &Names, numbers: &PctOutcome, verdict: &Verdict) -> bool
    requires { verdict_said numbers.now ≡ Some verdict.now }
    ensures { IsTrue result ↔ IsWritable names.now verdict.now }
{
    let threads = names.count(NameKind::Thread);
    match *verdict {
        Verdict::Passed | Verdict::Cut => true,
        Verdict::Failed { thread, line }
        | Verdict::Misuse { thread, line, .. }
        | Verdict::Fault { thread, line, .. } => is_known_place(threads, thread, line),
        Verdict::Stuck { blocked: _blocked } => {
            is_known_stuck(threads, numbers.blocked, &numbers.lines)
        }
    }
}

/// Whether the numbers say a verdict that may be written under the names.
pub fn says_known(names: &Names, numbers: &PctOutcome) -> bool
    ensures { IsTrue result ↔ IsKnown names.now numbers.now }
{
    match verdict_said(numbers) {
        Some(verdict) => is_known(names, numbers, &verdict),
        None => false,
    }
}

/// The verdict that the numbers say, where it may be written under the names.
pub fn known_verdict(names: &Names, numbers: &PctOutcome) -> Result<Verdict, Refused>
    ensures { Answers (SaysKnown names.now numbers.now) result }
{
    match verdict_said(numbers) {
        Some(verdict) if is_known(names, numbers, &verdict) => Ok(verdict),
        _ => Err(Refused::Bad),
    }
}
