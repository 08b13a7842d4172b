ghost use Rattle.std.specs.Prelude.{◌≡◌};
ghost use Rattle.turn_book.specs.Answers.{MayWait, because_of};

use pct_ask::Outcome;
use policy_pick::Pick;

/// Why a thread doesn't have its turn.
#[derive(Clone, Copy, Debug, PartialEq, Eq, Hash)]
pub enum Because {
    /// Who goes next depends on what this thread posts.
    Away(u32),
    /// It is this thread's turn.
    Turn(u32),
}

/// What a thread gets that asks for its turn.
#[derive(Clone, Copy, Debug, PartialEq, Eq, Hash)]
pub enum Taken {
    /// It took its step, and this is what it is told. It is 0 where the step ended the run.
    Answer(i64),
    /// It isn't its turn, at this number of steps.
    NotYet { at: u32, because: Because },
    /// The run was over before.
    Over(Outcome),
}

/// The same without the outcome of a run that is over, which has room for 64 threads.
#[derive(Clone, Copy, Debug, PartialEq, Eq)]
pub enum Reply {
    Answer(i64),
    NotYet { at: u32, because: Because },
    Over,
}

/// Why a thread doesn't have its turn, or nothing where it has it.
pub fn reason(next: Pick, thread: u32) -> Option<Because>
    requires { MayWait next }
    ensures { result ≡ because_of next thread }
{
    match next {
        Pick::Thread(other) => {
            if other == thread {
                None
            } else {
                Some(Because::Turn(other))
            }
        }
        Pick::Waits(other) => Some(Because::Away(other)),
        Pick::Nobody | Pick::Departs(_) => unreachable!(),
    }
}
