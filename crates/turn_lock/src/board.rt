ghost use Rattle.std.specs.Prelude.{◌≡◌, ◌<◌, None, Some, replicate, slice_set, slice_index_or};
ghost use Rattle.pct_ask.specs.declared.limits.TheConstants.{MAX_THREADS};

use pct_ask::MAX_THREADS;
use std::marker::Model;

/// For each thread, the word that its seat waits on, where it was noted.
#[derive(Clone, Copy, Debug)]
pub struct WaitBoard {
    words: [Option<u32>; MAX_THREADS],
}

impl Model for WaitBoard {
    ghost use Rattle.std.specs.Prelude.{ℕ, List, Option};

    ghost Value = { List (Option ℕ) };

    ghost view = { λ b. b.words };

    ghost inverse = { λ words. record { words = words } };
}

impl WaitBoard {
    /// Nothing is noted.
    pub fn new() -> WaitBoard
        ensures { result ≡ replicate MAX_THREADS None }
    {
        WaitBoard {
            words: [None; MAX_THREADS],
        }
    }

    /// Notes the word of a thread.
    pub fn note(&mut self, thread: u32, word: u32)
        requires { (thread < MAX_THREADS) × (word < MAX_THREADS) }
        ensures { self.new ≡ slice_set self.old thread (Some word) }
    {
        self.words[thread as usize] = Some(word);
    }

    /// The word that was noted last for a thread.
    pub fn word_of(&self, thread: u32) -> Option<u32>
        requires { thread < MAX_THREADS }
        ensures { result ≡ slice_index_or self.now thread None }
    {
        self.words[thread as usize]
    }
}
