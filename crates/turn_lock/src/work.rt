ghost use Rattle.std.specs.Prelude.{◌≡◌, false};

use crate::brief::Brief;

/// The turn words that a call changes after it freed the lock, and whose waiters it wakes.
#[derive(Clone, Copy, Debug)]
pub enum Wakes {
    /// It is nobody's turn, or no word was noted for the thread whose turn it is.
    Nobody,
    /// The word of the thread whose turn it is.
    One { word: u32 },
    /// The run is over: the words of the first `threads` threads, among them each that was noted.
    All { threads: u32 },
}

/// What a call made of the book while it had it.
#[derive(Clone, Copy, Debug)]
pub struct Work {
    pub brief: Brief,
    /// The thread's next post is owed afterwards.
    pub owes: bool,
    pub wakes: Wakes,
}

impl Work {
    /// The thread has ended, and nothing changed.
    pub fn ended() -> Work
        ensures brief { result.brief ≡ Brief.Ended }
        ensures owes { result.owes ≡ false }
        ensures wakes { result.wakes ≡ Wakes.Nobody }
    {
        Work {
            brief: Brief::Ended,
            owes: false,
            wakes: Wakes::Nobody,
        }
    }
}
