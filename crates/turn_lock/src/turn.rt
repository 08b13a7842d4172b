use pct_ask::Outcome;
use turn_book::Because;

/// What a call answers.
#[derive(Clone, Copy, Debug, PartialEq, Eq, Hash)]
pub enum Turn {
    /// The thread took its step, and this is what it is told.
    Answer(i64),
    /// The thread has ended.
    Ended,
    /// It isn't the thread's turn, at this number of steps.
    NotYet { at: u32, because: Because },
    /// Another seat holds the lock, by this thread.
    Busy { holder: u32 },
    /// The run is over.
    Over(Outcome),
}
