ghost use Rattle.std.specs.Prelude.{◌≡◌, ℕ, ◌<◌, ◌≤◌, ◌↔◌, ◌⊎◌, ◌≢◌, IsTrue, MatchOption};
ghost use Rattle.lock_order.specs.MutexSets.{HasMutex, HasThose};
ghost use Rattle.lock_order.specs.Chosen.{IsLowest};
ghost use Rattle.pct_ask.specs.declared.limits.TheConstants.{MAX_OBJECTS};

use pct_ask::MAX_OBJECTS;

/// Some of a test's mutexes, of which there are at most `MAX_OBJECTS`.
#[derive(Clone, Copy, Debug)]
pub struct MutexSet {
    bits: u64,
}

impl MutexSet {
    pub const EMPTY: Self = MutexSet { bits: 0 };

    /// The mutexes before this one.
    pub fn before(count: u32) -> Self
        requires { count ≤ MAX_OBJECTS }
        ensures { HasThose result (λ mutex. mutex < count) }
    {
        let mut set = Self::EMPTY;
        for mutex in 0..count {
            set = set.with(mutex);
        }
        set
    }

    pub fn contains(self, mutex: u32) -> bool
        ensures { IsTrue result ↔ HasMutex self mutex }
    {
        mutex < MAX_OBJECTS as u32 && (self.bits >> mutex) & 1 == 1
    }

    pub fn with(self, mutex: u32) -> Self
        requires { mutex < MAX_OBJECTS }
        ensures { HasThose result (λ other. (other ≡ mutex) ⊎ HasMutex self other) }
    {
        MutexSet {
            bits: self.bits | 1 << mutex,
        }
    }

    pub fn without(self, mutex: u32) -> Self
        requires { mutex < MAX_OBJECTS }
        ensures rest { HasThose result (λ other. (other ≢ mutex) × HasMutex self other) }
        ensures less { HasMutex self mutex → result.bits < self.bits }
    {
        MutexSet {
            bits: self.bits & !(1 << mutex),
        }
    }

    pub fn union(self, other: Self) -> Self
        ensures { HasThose result (λ mutex. HasMutex self mutex ⊎ HasMutex other mutex) }
    {
        MutexSet {
            bits: self.bits | other.bits,
        }
    }

    /// The lowest mutex that is in both sets.
    pub fn lowest_common(self, other: Self) -> Option<u32>
        ensures { MatchOption result ((mutex : ℕ) → HasMutex self mutex → ¬ HasMutex other mutex)
            (IsLowest (λ mutex. HasMutex self mutex × HasMutex other mutex)) }
    {
        lowest_bit(self.bits & other.bits)
    }

    pub fn lowest(self) -> Option<u32>
        ensures { MatchOption result ((mutex : ℕ) → ¬ HasMutex self mutex)
            (IsLowest (HasMutex self)) }
    {
        lowest_bit(self.bits)
    }
}

fn lowest_bit(bits: u64) -> Option<u32>
    ensures { MatchOption result ((mutex : ℕ) → ¬ HasMutex (record { bits = bits }) mutex)
        (IsLowest (HasMutex (record { bits = bits }))) }
{
    if bits == 0 {
        None
    } else {
        Some(bits.trailing_zeros())
    }
}
