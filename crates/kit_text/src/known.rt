// Whether a run can be written under the names of a test.
ghost use Rattle.std.specs.Prelude.{◌≡◌, ◌↔◌, IsTrue, All, length};
ghost use Rattle.pct_ask.specs.Objects.{sizes_of_deal, sizes_of_names};
ghost use Rattle.trace_text.specs.Known.{IsKnownPlace};
ghost use Rattle.report_text.specs.Report.{IsWritable};

use pct_ask::{Blocked, Deal, MAX_THREADS, NameKind, Names, Verdict};
use trace_text::is_known_place;

/// Whether each thread that can't go on has a name, and its line is a test's.
fn are_known_places(threads: u32, blocked: &Blocked) -> bool
    ensures { IsTrue result ↔ All (IsKnownPlace threads) blocked.now }
{
    for thread in 0..MAX_THREADS as u32 {
        if let Some(line) = blocked.get(thread) {
            if !is_known_place(threads, thread, line) {
                return false;
            }
        }
    }
    true
}

/// Whether a verdict's threads have names and its lines are a test's; and where it is that of a
/// stuck run, somebody is blocked.
pub(crate) fn is_known(names: &Names, verdict: &Verdict) -> bool
    ensures { IsTrue result ↔ IsWritable names.now verdict.now }
{
    let threads = names.count(NameKind::Thread);
    match verdict {
        Verdict::Passed | Verdict::Cut => true,
        Verdict::Failed { thread, line }
        | Verdict::Misuse { thread, line, .. }
        | Verdict::Fault { thread, line, .. } => is_known_place(threads, *thread, *line),
        Verdict::Stuck { blocked } => {
            *blocked != Blocked::new() && are_known_places(threads, blocked)
        }
    }
}

/// Whether each thread and each object of a deal has a name, and nothing else has.
pub(crate) fn is_named(deal: &Deal, names: &Names) -> bool
    ensures { IsTrue result ↔ (sizes_of_deal deal.now ≡ sizes_of_names names.now) }
{
    deal.threads == names.count(NameKind::Thread)
        && deal.vars.len() == names.count(NameKind::Var) as usize
        && deal.mutexes == names.count(NameKind::Mutex)
        && deal.conds == names.count(NameKind::Cond)
        && deal.sems.len() == names.count(NameKind::Sem) as usize
        && deal.barriers.len() == names.count(NameKind::Barrier) as usize
        && deal.rwlocks == names.count(NameKind::RwLock)
}
