use pct_ask::Outcome;

/// What the lock says to a thread that asked.
#[derive(Clone, Copy, Debug, PartialEq, Eq)]
pub enum Asked {
    /// The answer to what it asked.
    Answer(i64),
    /// The run is over.
    Over(Outcome),
}

/// The run is over, so nothing more is answered. A thread that is told so goes to its end: `?`
/// leads it out of its loops.
#[derive(Clone, Copy, Debug, PartialEq, Eq)]
pub struct Over {
    /// How the run ended.
    pub outcome: Outcome,
}
