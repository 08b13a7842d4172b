ghost use Rattle.std.specs.Prelude.{◌≡◌, ◌<◌, [], ◌∷◌, ◌++◌, All};
ghost use Rattle.std.specs.Cmp.{partial_equiv_from_equiv};
ghost use Rattle.std.specs.Hash.{slice, u32, u64};
ghost use Rattle.std.proofs.Common.{ap};
ghost use Rattle.pct_ask.specs.Places.{AreRising, line_of_thread, same_places};
ghost use Rattle.pct_ask.specs.Places.{lines_from, line_bits, line_numbers};
ghost use Rattle.pct_ask.specs.PlaceLaws.{same_places-Decides, same_places-equivalence};
ghost use Rattle.pct_ask.specs.declared.limits.TheConstants.{MAX_THREADS};

use crate::limits::MAX_THREADS;
use std::hash::{Hash, Hasher};
use std::marker::Model;

/// The threads that can't go on where nobody can, each with the line of the test at which it asks.
/// Contracts see the list of pairs of a thread and a line, in rising order of threads.
#[derive(Clone, Copy, Debug)]
pub struct Blocked {
    /// A bit for each thread, the lowest for thread 0: whether it can't go on.
    threads: u64,
    /// The line of each thread that can't go on, and 0 for the others.
    lines: [u32; MAX_THREADS],
}

impl Model for Blocked {
    ghost use Rattle.std.specs.Prelude.{ℕ, List};
    ghost use Rattle.pct_ask.specs.Places.{places_from, lines_from};
    ghost use Rattle.pct_ask.specs.Places.{known_lines, line_bits, line_numbers, AreKnown};
    ghost use Rattle.pct_ask.specs.declared.limits.TheConstants.{MAX_THREADS};
    ghost use Rattle.pct_ask.specs.PlaceLaws.{bits-back, numbers-back};

    ghost Value = { List (ℕ × ℕ) };

    ghost view = { λ b. places_from 0 (known_lines b.threads b.lines) };

    ghost invariant = { λ b. AreKnown b.threads b.lines };

    ghost inverse = { λ places. record {
      threads = line_bits (lines_from 0 MAX_THREADS places);
      lines = line_numbers (lines_from 0 MAX_THREADS places);
    } };

    ghost inverse_ok = { λ b known i. record {
      threads = bits-back b.threads b.lines known i;
      lines = numbers-back b.threads b.lines known i;
    } };
}

impl PartialEq for Blocked {
    ghost eq = { same_places };

    ghost laws = { partial_equiv_from_equiv same_places-equivalence };

    fn eq(&self, other: &Self) -> bool {
        self.threads == other.threads && self.lines == other.lines
    }
}

impl Eq for Blocked {
    ghost laws = { same_places-equivalence };
}

impl Hash for Blocked {
    ghost hash_input = { λ places.
        u64 (line_bits (lines_from 0 MAX_THREADS places))
        ++ slice u32 (line_numbers (lines_from 0 MAX_THREADS places)) };

    ghost respects_eq = { λ x y same.
        ap (λ places. u64 (line_bits (lines_from 0 MAX_THREADS places))
        ++ slice u32 (line_numbers (lines_from 0 MAX_THREADS places)))
        ((same_places-Decides x y).0 same) };

    fn hash<H: Hasher>(&self, state: &mut H) {
        self.threads.hash(state);
        self.lines.hash(state);
    }
}

impl Blocked {
    /// No threads yet.
    pub fn new() -> Self
        ensures { result ≡ [] }
    {
        Blocked {
            threads: 0,
            lines: [0; MAX_THREADS],
        }
    }

    /// Adds a thread above those that are there.
    pub fn push(&mut self, thread: u32, line: u32)
        requires few { thread < MAX_THREADS }
        requires above { All (λ place. place.0 < thread) self.old }
        ensures { self.new ≡ self.old ++ (thread, line) ∷ [] }
    {
        self.threads |= 1 << thread;
        self.lines[thread as usize] = line;
    }

    /// The threads as bits, the lowest for thread 0, and the line of each, 0 for the others.
    pub fn numbers(&self) -> (u64, [u32; MAX_THREADS])
        ensures bits { result.0 ≡ line_bits (lines_from 0 MAX_THREADS self.now) }
        ensures lines { result.1 ≡ line_numbers (lines_from 0 MAX_THREADS self.now) }
    {
        (self.threads, self.lines)
    }

    /// The line at which a thread asks.
    pub fn get(&self, thread: u32) -> Option<u32>
        ensures line { result ≡ line_of_thread thread self.now }
        ensures rising { AreRising self.now }
    {
        let threads = self.threads;
        if thread >= MAX_THREADS as u32 {
            return None;
        }
        if (threads >> thread) & 1 == 1 {
            Some(self.lines[thread as usize])
        } else {
            None
        }
    }
}
