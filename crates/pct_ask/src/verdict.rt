ghost use Rattle.std.specs.Prelude.{◌≡◌, ◌↔◌, IsTrue};

use crate::ask::FaultKind;
use crate::blocked::Blocked;

/// What a thread did that its object forbids.
#[derive(Clone, Copy, Debug, PartialEq, Eq, Hash)]
pub enum MisuseKind {
    /// It let go what it doesn't hold.
    NotOwner,
    /// It raised a semaphore past its greatest value.
    SemFull,
    /// It started a thread that was started before.
    AlreadyStarted,
    /// It took more read holds than there may be.
    TooManyReads,
}

/// How a run ends.
#[derive(Clone, Copy, Debug, PartialEq, Eq, Hash)]
pub enum Verdict {
    /// Every thread has ended, or was never started.
    Passed,
    /// An assertion doesn't hold.
    Failed {
        thread: u32,
        line: u32,
    },
    /// No thread can go on, and these haven't ended.
    Stuck {
        blocked: Blocked,
    },
    Misuse {
        thread: u32,
        line: u32,
        kind: MisuseKind,
    },
    Fault {
        thread: u32,
        line: u32,
        kind: FaultKind,
    },
    /// The run would go on beyond its limit.
    Cut,
}

/// What became of a run under a schedule: a verdict, or the thread at which it left the schedule.
#[derive(Clone, Copy, Debug, PartialEq, Eq, Hash)]
pub enum Outcome {
    Verdict(Verdict),
    Departed { thread: u32 },
}

impl Verdict {
    /// Whether two verdicts are the same, threads and lines too. So is `==`.
    pub fn is(&self, other: &Verdict) -> bool
        ensures { IsTrue result ↔ (self.now ≡ other.now) }
    {
        self == other
    }
}

impl Outcome {
    /// Whether two outcomes are the same. So is `==`.
    pub fn is(&self, other: &Outcome) -> bool
        ensures { IsTrue result ↔ (self.now ≡ other.now) }
    {
        self == other
    }
}
