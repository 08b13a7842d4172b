use crate::brief::Brief;

/// What a call came to that took the book once, to see whether one of its threads has its turn.
#[derive(Clone, Copy, Debug)]
pub enum Round {
    /// Another seat holds the lock.
    Busy,
    /// A thread is answered.
    Found { thread: u32, brief: Brief },
    /// None of them is. The turn word was noted for all of them, and this is what it was.
    Wait { word: u32 },
}
