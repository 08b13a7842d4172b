//! An outcome as numbers.

ghost use Rattle.std.specs.Prelude.{◌≡◌};
ghost use Rattle.pct_ask.specs.declared.verdict.Outcome.{Outcome};
ghost use Rattle.pct_ask.specs.Places.{places_from, known_lines};
ghost use Rattle.c_values.specs.Outcomes.{misuse_number, fault_number, misuse_by, fault_by};
ghost use Rattle.c_values.specs.Outcomes.{numbers_by, outcome_numbers, verdict_said};

use pct_ask::{Blocked, FaultKind, MAX_THREADS, MisuseKind, Outcome, Verdict};

/// What became of a run, as numbers: its kind, a reason, a thread and its line; and a bit for each
/// thread that is blocked, the lowest for thread 0, with its line.
#[repr(C)]
#[derive(Clone, Copy, Debug)]
pub struct PctOutcome {
    pub kind: u32,
    pub reason: u32,
    pub thread: u32,
    pub line: u32,
    pub blocked: u64,
    pub lines: [u32; MAX_THREADS],
}

fn misuse_number(kind: MisuseKind) -> u32
    ensures { result ≡ misuse_number kind }
{
    match kind {
        MisuseKind::NotOwner => 1,
        MisuseKind::SemFull => 2,
        MisuseKind::AlreadyStarted => 3,
        MisuseKind::TooManyReads => 4,
    }
}

fn fault_number(kind: FaultKind) -> u32
    ensures { result ≡ fault_number kind }
{
    match kind {
        FaultKind::Overflow => 1,
        FaultKind::ZeroDivisor => 2,
        FaultKind::Spin => 3,
    }
}

fn numbers_by(kind: u32, reason: u32, thread: u32, line: u32) -> PctOutcome
    ensures { result ≡ numbers_by kind reason thread line }
{
    PctOutcome {
        kind,
        reason,
        thread,
        line,
        blocked: 0,
        lines: [0; MAX_THREADS],
    }
}

/// The numbers of an outcome.
pub fn numbers_of_outcome(outcome: &Outcome) -> PctOutcome
    ensures { result ≡ outcome_numbers outcome.now }
{
    match outcome {
        Outcome::Departed { thread } => numbers_by(7, 0, *thread, 0),
        Outcome::Verdict(verdict) => numbers_of_verdict(verdict),
    }
}

/// The numbers of a verdict.
pub fn numbers_of_verdict(verdict: &Verdict) -> PctOutcome
    ensures { result ≡ outcome_numbers (Outcome.Verdict verdict.now) }
{
    match verdict {
        Verdict::Passed => numbers_by(1, 0, 0, 0),
        Verdict::Failed { thread, line } => numbers_by(2, 0, *thread, *line),
        Verdict::Stuck { blocked } => {
            let (threads, lines) = blocked.numbers();
            PctOutcome {
                kind: 3,
                reason: 0,
                thread: 0,
                line: 0,
                blocked: threads,
                lines,
            }
        }
        Verdict::Misuse { thread, line, kind } => {
            numbers_by(4, misuse_number(*kind), *thread, *line)
        }
        Verdict::Fault { thread, line, kind } => numbers_by(5, fault_number(*kind), *thread, *line),
        Verdict::Cut => numbers_by(6, 0, 0, 0),
    }
}

fn misuse_of(reason: u32) -> Option<MisuseKind>
    ensures { result ≡ misuse_by reason }
{
    if reason > 4 {
        return None;
    }
    match reason {
        1 => Some(MisuseKind::NotOwner),
        2 => Some(MisuseKind::SemFull),
        3 => Some(MisuseKind::AlreadyStarted),
        4 => Some(MisuseKind::TooManyReads),
        _ => None,
    }
}

fn fault_of(reason: u32) -> Option<FaultKind>
    ensures { result ≡ fault_by reason }
{
    if reason > 3 {
        return None;
    }
    match reason {
        1 => Some(FaultKind::Overflow),
        2 => Some(FaultKind::ZeroDivisor),
        3 => Some(FaultKind::Spin),
        _ => None,
    }
}

/// The threads whose bits are set, the lowest for thread 0, each with its line.
fn blocked_of(threads: u64, lines: &[u32; MAX_THREADS]) -> Blocked
    ensures { result ≡ places_from 0 (known_lines threads lines.now) }
{
    let mut blocked = Blocked::new();
    let mut bits = threads;
    for (thread, line) in lines.iter().enumerate() {
        if bits % 2 == 1 {
            blocked.push(thread as u32, *line);
        }
        bits /= 2;
    }
    blocked
}

/// The verdict that the numbers say. `None` where they say none.
pub fn verdict_said(numbers: &PctOutcome) -> Option<Verdict>
    ensures { result ≡ verdict_said numbers.now }
{
    let (thread, line) = (numbers.thread, numbers.line);
    if numbers.kind > 6 {
        return None;
    }
    match numbers.kind {
        1 => Some(Verdict::Passed),
        2 => Some(Verdict::Failed { thread, line }),
        3 => Some(Verdict::Stuck {
            blocked: blocked_of(numbers.blocked, &numbers.lines),
        }),
        4 => misuse_of(numbers.reason).map(|kind| Verdict::Misuse { thread, line, kind }),
        5 => fault_of(numbers.reason).map(|kind| Verdict::Fault { thread, line, kind }),
        6 => Some(Verdict::Cut),
        _ => None,
    }
}
