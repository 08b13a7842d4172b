ghost use Rattle.std.specs.Prelude.{◌≡◌};
ghost use Rattle.policy_pick.specs.Choice.{is_open, pick_at};

/// What is known of a thread's next step.
#[derive(Clone, Copy, Debug, PartialEq, Eq)]
pub enum Chance {
    /// Its next ask has not come yet.
    Away,
    /// It asks for what may be done now.
    Ready,
    /// It asks for what may not be done now.
    Blocked,
    /// It asks for the end of the target, and the target is away.
    Unknown { target: u32 },
    /// It has no further step.
    Ended,
}

/// Who goes next.
#[derive(Clone, Copy, Debug, PartialEq, Eq)]
pub enum Pick {
    /// This thread.
    Thread(u32),
    /// Nobody yet: it depends on the next ask of this thread, which has not come.
    Waits(u32),
    /// Nobody ever.
    Nobody,
    /// This thread, against what the policy was told: one that was listed and may not go, or one
    /// that may go after the list.
    Departs(u32),
}

/// Whether a walk over the threads stops here.
pub fn is_open(chance: Chance) -> bool
    ensures { result ≡ is_open chance }
{
    match chance {
        Chance::Away | Chance::Ready | Chance::Unknown { .. } => true,
        Chance::Blocked | Chance::Ended => false,
    }
}

/// What is picked at a thread.
pub fn pick_at(ready: Pick, thread: u32, chance: Chance) -> Pick
    ensures { result ≡ pick_at ready thread chance }
{
    match chance {
        Chance::Ready => ready,
        Chance::Away => Pick::Waits(thread),
        Chance::Unknown { target } => Pick::Waits(target),
        Chance::Blocked | Chance::Ended => Pick::Departs(thread),
    }
}
