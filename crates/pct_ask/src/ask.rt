/// What a thread asks of the objects that it shares with the other threads, with the operations of
/// POSIX threads. An object is named by its place among those of its kind, from 0.
#[derive(Clone, Copy, Debug, PartialEq, Eq, Hash)]
pub enum Ask {
    /// The value of a variable.
    Read { var: u32 },
    /// Gives a variable a value.
    Write { var: u32, value: i64 },
    /// Adds to a variable, in one step. The answer is the old value.
    Add { var: u32, value: i64 },
    /// Compares and exchanges. The answer is 1 where the variable was `old`, else 0.
    Cas { var: u32, old: i64, new: i64 },
    Lock { mutex: u32 },
    TryLock { mutex: u32 },
    Unlock { mutex: u32 },
    /// The first half of a wait: the mutex is let go and the thread waits for the condition.
    Release { cond: u32, mutex: u32 },
    /// The second half of a wait: the woken thread takes the mutex again.
    Regain { cond: u32, mutex: u32 },
    Signal { cond: u32 },
    Broadcast { cond: u32 },
    Down { sem: u32 },
    TryDown { sem: u32 },
    Up { sem: u32 },
    /// The first half of a meeting at a barrier.
    Arrive { barrier: u32 },
    /// The second half. The answer is 1 for the serial thread, else 0.
    Leave { barrier: u32 },
    Join { thread: u32 },
    Yield,
    /// An assertion, and whether it holds.
    Check { holds: bool },
    /// A fault of the thread's own, which ends the run.
    Fault { kind: FaultKind },
    Start { thread: u32 },
    /// The first ask of a thread that another thread has to start.
    Begin,
    RdLock { rwlock: u32 },
    WrLock { rwlock: u32 },
    TryRdLock { rwlock: u32 },
    TryWrLock { rwlock: u32 },
    RwUnlock { rwlock: u32 },
}

/// Why a thread can't go on by itself.
#[derive(Clone, Copy, Debug, PartialEq, Eq, Hash)]
pub enum FaultKind {
    /// A number outside i64.
    Overflow,
    /// A division by zero.
    ZeroDivisor,
    /// Too many moves without an ask.
    Spin,
}

/// What a thread posts: its next ask, or that it has ended (no ask).
#[derive(Clone, Copy, Debug, PartialEq, Eq, Hash)]
pub struct Post {
    pub ask: Option<Ask>,
    /// The line of the test that asks, from 1.
    pub line: u32,
}
