//! Whether a trace may tell a part of a run.

ghost use Rattle.std.specs.Prelude.{◌≡◌, ◌↔◌, IsTrue, All};
ghost use Rattle.pct_ask.specs.NameLists.{NameLists};
ghost use Rattle.pct_ask.specs.Objects.{sizes_of_deal, sizes_of_names};
ghost use Rattle.trace_text.specs.Lawful.{HasObjects, NamesKnown};
ghost use Rattle.trace_text.specs.Known.{head_by, IsKnownPlace, IsPlainHead, IsOfVersion};
ghost use Rattle.pct_ask.specs.Limits.{IsStepCount};

use pct_ask::{Ask, Deal, Event, MAX_LINES, MAX_POINTS, MAX_STEPS, MisuseKind, Verdict};

/// Whether the thread is one of so many, and the line is a test's.
pub fn is_known_place(threads: u32, thread: u32, line: u32) -> bool
    ensures { IsTrue result ↔ IsKnownPlace threads (thread, line) }
{
    thread < threads && 1 <= line && line <= MAX_LINES
}

fn are_step_counts(points: &[u32]) -> bool
    ensures { IsTrue result ↔ All IsStepCount points.now }
{
    points
        .iter()
        .all(|point| 1 <= *point && *point <= MAX_STEPS)
}

/// Whether all of a head but its order is that of a trace with so many threads.
pub fn is_plain_head(threads: u32, version: u32, limit: u32, order: &[u32], points: &[u32]) -> bool
    ensures { IsTrue result
        ↔ IsPlainHead threads (head_by version limit order.now points.now) }
{
    (version == 1 || version == 2)
        && order.len() == threads as usize
        && points.len() <= MAX_POINTS
        && are_step_counts(points)
        && 1 <= limit
        && limit <= MAX_STEPS
}

/// Whether what an ask names is there, and its kind is one of the version.
fn has_objects(version: u32, deal: &Deal, ask: &Ask) -> bool
    ensures { (names : NameLists) → sizes_of_deal deal.now ≡ sizes_of_names names
        → (IsTrue result ↔ HasObjects names version ask.now) }
{
    match *ask {
        Ask::RdLock { .. }
        | Ask::WrLock { .. }
        | Ask::TryRdLock { .. }
        | Ask::TryWrLock { .. }
        | Ask::RwUnlock { .. } => deal.has_objects_of(ask) && version == 2,
        Ask::Read { .. }
        | Ask::Write { .. }
        | Ask::Add { .. }
        | Ask::Cas { .. }
        | Ask::Lock { .. }
        | Ask::TryLock { .. }
        | Ask::Unlock { .. }
        | Ask::Release { .. }
        | Ask::Regain { .. }
        | Ask::Signal { .. }
        | Ask::Broadcast { .. }
        | Ask::Down { .. }
        | Ask::TryDown { .. }
        | Ask::Up { .. }
        | Ask::Arrive { .. }
        | Ask::Leave { .. }
        | Ask::Join { .. }
        | Ask::Yield
        | Ask::Check { .. }
        | Ask::Fault { .. }
        | Ask::Start { .. }
        | Ask::Begin => deal.has_objects_of(ask),
    }
}

fn is_known_step(version: u32, deal: &Deal, event: &Event) -> bool
    ensures { (names : NameLists) → sizes_of_deal deal.now ≡ sizes_of_names names
        → (IsTrue result ↔ NamesKnown names version event.now) }
{
    event.thread < deal.threads
        && 1 <= event.line
        && event.line <= MAX_LINES
        && has_objects(version, deal, &event.ask)
}

/// Whether a trace of the version may tell all steps, under names for the threads and objects of
/// the deal.
pub fn are_known_steps(version: u32, deal: &Deal, events: &[Event]) -> bool
    ensures { (names : NameLists) → sizes_of_deal deal.now ≡ sizes_of_names names
        → (IsTrue result ↔ All (NamesKnown names version) events.now) }
{
    events
        .iter()
        .all(|event| is_known_step(version, deal, event))
}

/// Whether a trace of the version may tell the verdict.
pub fn is_of_version(version: u32, verdict: &Verdict) -> bool
    ensures { IsTrue result ↔ IsOfVersion version verdict.now }
{
    match *verdict {
        Verdict::Misuse { kind, .. } => match kind {
            MisuseKind::TooManyReads => version == 2,
            MisuseKind::NotOwner | MisuseKind::SemFull | MisuseKind::AlreadyStarted => true,
        },
        Verdict::Passed
        | Verdict::Failed { .. }
        | Verdict::Stuck { .. }
        | Verdict::Fault { .. }
        | Verdict::Cut => true,
    }
}
