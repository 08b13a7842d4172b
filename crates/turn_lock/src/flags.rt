// A flag for each thread that a test may have.
ghost use Rattle.std.specs.Prelude.{◌≡◌, ◌<◌, ◌≤◌, ℕ, false, if◌then◌else◌, length, slice_index_or};
ghost use Rattle.turn_lock.specs.Rule.{HasFlag, first_threads};
ghost use Rattle.turn_lock.specs.Seats.{flags_of_either};
ghost use Rattle.pct_ask.specs.declared.limits.TheConstants.{MAX_THREADS};

use pct_ask::MAX_THREADS;

/// The first `threads` threads.
pub fn first_threads(threads: u32) -> [bool; MAX_THREADS]
    requires { threads ≤ MAX_THREADS }
    ensures first { result ≡ first_threads threads }
    ensures flags { length result ≡ MAX_THREADS }
{
    let mut first = [false; MAX_THREADS];
    for thread in 0..threads {
        first[thread as usize] = true;
    }
    first
}

/// The threads of both.
pub fn either(one: &[bool; MAX_THREADS], other: &[bool; MAX_THREADS]) -> [bool; MAX_THREADS]
    ensures { result ≡ flags_of_either one.now other.now }
{
    let mut both = *one;
    for i in 0..MAX_THREADS {
        both[i] = both[i] | other[i];
    }
    both
}

/// Each flag is taken from the first list where that is wanted, and else from the second.
pub fn chosen(
    wanted: &[bool; MAX_THREADS],
    one: &[bool; MAX_THREADS],
    other: &[bool; MAX_THREADS],
) -> [bool; MAX_THREADS]
    ensures flags { length result ≡ MAX_THREADS }
    ensures chosen { (t : ℕ) → t < MAX_THREADS
        → slice_index_or result t false
        ≡ (if slice_index_or wanted.now t false then slice_index_or one.now t false
        else slice_index_or other.now t false) }
{
    let mut flags = *other;
    for i in 0..MAX_THREADS {
        flags[i] = if wanted[i] { one[i] } else { flags[i] };
    }
    flags
}

/// The lowest of the threads.
pub fn lowest(threads: &[bool; MAX_THREADS]) -> u32
    requires { (t : ℕ) × HasFlag threads.now t }
    ensures here { HasFlag threads.now result }
    ensures least { (t : ℕ) → HasFlag threads.now t → result ≤ t }
{
    for thread in 0..MAX_THREADS as u32 {
        if threads[thread as usize] {
            return thread;
        }
    }
    unreachable!()
}
