use pct_ask::{Event, Verdict};

/// What a trace has at a step.
#[derive(Clone, Copy, Debug, PartialEq, Eq)]
pub enum Written {
    Event(Event),
    /// Its steps end before it.
    Verdict(Verdict),
}

/// What the run of a trace's list of threads has at a step.
#[derive(Clone, Copy, Debug, PartialEq, Eq)]
pub enum Found {
    Event(Event),
    /// The run left the list: the listed thread may not go.
    NotEnabled { thread: u32 },
    /// The list is at its end, and the run isn't: this is the lowest thread that may go.
    Goes { thread: u32 },
    /// The run ended before it.
    Over(Verdict),
}

/// What a replay tells of a trace.
#[derive(Clone, Copy, Debug, PartialEq, Eq)]
pub enum Replayed {
    /// The run has the trace's steps and its verdict.
    Confirmed(Verdict),
    /// The first step, from 1, at which the run and the trace differ.
    Departs {
        step: u32,
        found: Found,
        written: Written,
    },
}
