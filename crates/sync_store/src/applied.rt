ghost use Rattle.std.specs.Prelude.{◌≡◌, pos, if◌then◌else◌};
ghost use Rattle.sync_store.specs.Stepped.{applied_by};

use pct_ask::{FaultKind, MisuseKind, Verdict};

/// What came of a step.
#[derive(Clone, Copy, Debug, PartialEq, Eq, Hash)]
pub enum Applied {
    /// What the thread is told.
    Answer(i64),
    /// The run ends here, and the store is as it was.
    Ends(Verdict),
}

/// What came of a step, without the room that a verdict has for 64 threads.
#[derive(Clone, Copy, Debug, PartialEq, Eq)]
pub enum Stepped {
    /// What the thread is told.
    Answer(i64),
    /// An assertion doesn't hold. Here and in the cases below the run ends, and the store is as
    /// it was.
    Failed {
        thread: u32,
        line: u32,
    },
    Misuse {
        thread: u32,
        line: u32,
        kind: MisuseKind,
    },
    Fault {
        thread: u32,
        line: u32,
        kind: FaultKind,
    },
}

impl Stepped {
    /// The same with its verdict.
    pub fn applied(self) -> Applied
        ensures { result ≡ applied_by self }
    {
        match self {
            Stepped::Answer(answer) => Applied::Answer(answer),
            Stepped::Failed { thread, line } => Applied::Ends(Verdict::Failed { thread, line }),
            Stepped::Misuse { thread, line, kind } => {
                Applied::Ends(Verdict::Misuse { thread, line, kind })
            }
            Stepped::Fault { thread, line, kind } => {
                Applied::Ends(Verdict::Fault { thread, line, kind })
            }
        }
    }

    /// The answer 1 for yes and 0 for no.
    pub(crate) fn truth(yes: bool) -> Self
        ensures { result ≡ Stepped.Answer (if yes then pos 1 else pos 0) }
    {
        Stepped::Answer(if yes { 1 } else { 0 })
    }

    /// The answer 0, or how the run ends.
    pub(crate) fn done_or(done: bool, end: Stepped) -> Self
        ensures { result ≡ (if done then Stepped.Answer (pos 0) else end) }
    {
        if done { Stepped::Answer(0) } else { end }
    }
}

/// The thread let go what it doesn't hold.
pub(crate) fn not_owner(thread: u32, line: u32) -> Stepped
    ensures { result ≡ Stepped.Misuse thread line MisuseKind.NotOwner }
{
    Stepped::Misuse {
        thread,
        line,
        kind: MisuseKind::NotOwner,
    }
}
