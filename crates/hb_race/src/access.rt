ghost use Rattle.std.specs.Prelude.{◌≡◌};
ghost use Rattle.hb_race.specs.Accesses.{access_of, conflict, exchange_kind};

use pct_ask::{Ask, Event};

/// How a step accesses a variable. A read and a write are plain, an addition and a
/// compare-and-exchange are atomic.
#[derive(Clone, Copy)]
pub(crate) enum AccessKind {
    PlainRead,
    PlainWrite,
    /// A compare-and-exchange that left the variable as it was.
    AtomicRead,
    AtomicWrite,
}

/// A step's access of a variable.
#[derive(Clone, Copy)]
pub(crate) struct Access {
    pub(crate) var: u32,
    pub(crate) kind: AccessKind,
}

/// The access of a step, if it has one.
pub(crate) fn access_of(event: &Event) -> Option<Access>
    ensures { result ≡ access_of event.now }
{
    match event.ask {
        Ask::Read { var } => Some(Access {
            var,
            kind: AccessKind::PlainRead,
        }),
        Ask::Write { var, .. } => Some(Access {
            var,
            kind: AccessKind::PlainWrite,
        }),
        Ask::Add { var, .. } => Some(Access {
            var,
            kind: AccessKind::AtomicWrite,
        }),
        Ask::Cas { var, .. } => Some(Access {
            var,
            kind: exchange_kind(event.answer),
        }),
        _ => None,
    }
}

/// Whether two accesses of a variable that nothing orders race: one is plain, and one writes.
pub(crate) fn conflict(a: AccessKind, b: AccessKind) -> bool
    ensures { result ≡ conflict a b }
{
    match (a, b) {
        (AccessKind::PlainWrite, _) | (_, AccessKind::PlainWrite) => true,
        (AccessKind::PlainRead, AccessKind::AtomicWrite) => true,
        (AccessKind::AtomicWrite, AccessKind::PlainRead) => true,
        _ => false,
    }
}

/// How a compare-and-exchange accesses its variable, by its answer.
fn exchange_kind(answer: i64) -> AccessKind
    ensures { result ≡ exchange_kind answer }
{
    if answer == 1 {
        AccessKind::AtomicWrite
    } else {
        AccessKind::AtomicRead
    }
}
