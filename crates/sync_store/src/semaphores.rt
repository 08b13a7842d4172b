ghost use Rattle.std.specs.Prelude.{◌≡◌, ◌<◌, ◌+ℤ◌, ◌-ℤ◌, pos, int_lt, IsTrue, if◌then◌else◌};
ghost use Rattle.std.specs.Prelude.{length, slice_index_or, slice_set, IfOk};
ghost use Rattle.sync_store.specs.Store.{number_of, with_number};
ghost use Rattle.sync_store.specs.Effect.{sem_max, effect, store_after, applied_of};
ghost use Rattle.sync_store.specs.Stepped.{applied_by};

use crate::applied::Stepped;
use crate::store::Store;
use pct_ask::{Ask, MisuseKind, NumberList};
use std::alloc::{AllocError as NoMemory, Global};
use std::marker::Model;

/// The greatest number of a semaphore: POSIX's SEM_VALUE_MAX, whose value is this project's.
const SEM_VALUE_MAX: i64 = 2_147_483_647;

/// The semaphores.
#[derive(Drop)]
pub(crate) struct Semaphores {
    numbers: Vec<i64>,
}

impl Model for Semaphores {
    ghost use Rattle.std.specs.Prelude.{List, ℤ};

    ghost Value = { List ℤ };

    ghost view = { λ s. s.numbers.items };
}

impl Semaphores {
    pub(crate) fn new(alloc: Global, numbers: &NumberList) -> Result<Self, NoMemory>
        ensures { IfOk result (λ semaphores. semaphores ≡ numbers.now) }
    {
        Ok(Semaphores {
            numbers: Vec::from_slice(alloc, numbers.as_slice())?,
        })
    }

    /// Gives the semaphores these numbers, in the same memory.
    pub(crate) fn restart(&mut self, numbers: &NumberList)
        requires { length self.old ≡ length numbers.now }
        ensures { self.new ≡ numbers.now }
    {
        self.numbers.copy_from_slice(numbers.as_slice());
    }

    pub(crate) fn is_open(&self, sem: u32) -> bool
        requires { sem < length self.now }
        ensures { result ≡ int_lt (pos 0) (slice_index_or self.now sem (pos 0)) }
    {
        self.numbers[sem as usize] > 0
    }

    pub(crate) fn down(&mut self, sem: u32)
        requires within { sem < length self.old }
        requires open { IsTrue (int_lt (pos 0) (slice_index_or self.old sem (pos 0))) }
        ensures { self.new ≡ slice_set self.old sem (slice_index_or self.old sem (pos 0) -ℤ pos 1) }
    {
        self.numbers[sem as usize] -= 1;
    }

    /// Raises a semaphore. The answer is false, and nothing changes, where it is at its greatest
    /// number.
    pub(crate) fn up(&mut self, sem: u32) -> bool
        requires { sem < length self.old }
        ensures room { result ≡ int_lt (slice_index_or self.old sem (pos 0)) sem_max }
        ensures numbers { self.new
            ≡ (if result then slice_set self.old sem (slice_index_or self.old sem (pos 0) +ℤ pos 1)
            else self.old) }
    {
        let number = self.numbers[sem as usize];
        if number < SEM_VALUE_MAX {
            self.numbers[sem as usize] = number + 1;
            true
        } else {
            false
        }
    }
}

impl Store {
    pub(crate) fn down(&mut self, sem: u32)
        requires within { sem < length self.old.numbers }
        requires open { IsTrue (int_lt (pos 0) (number_of self.old sem)) }
        ensures { self.new ≡ with_number self.old sem (number_of self.old sem -ℤ pos 1) }
    {
        self.semaphores.down(sem);
    }

    pub(crate) fn try_down(&mut self, sem: u32) -> Stepped
        requires { sem < length self.old.numbers }
        ensures store { self.new
            ≡ (if int_lt (pos 0) (number_of self.old sem)
            then with_number self.old sem (number_of self.old sem -ℤ pos 1) else self.old) }
        ensures applied { result
            ≡ Stepped.Answer (if int_lt (pos 0) (number_of self.old sem) then pos 1 else pos 0) }
    {
        let open = self.semaphores.is_open(sem);
        if open {
            self.semaphores.down(sem);
        }
        Stepped::truth(open)
    }

    pub(crate) fn up(&mut self, thread: u32, line: u32, sem: u32) -> Stepped
        requires { sem < length self.old.numbers }
        ensures store { self.new ≡ store_after self.old (effect self.old thread line (Ask.Up sem)) }
        ensures applied { applied_by result
            ≡ applied_of (effect self.old thread line (Ask.Up sem)) }
    {
        Stepped::done_or(
            self.semaphores.up(sem),
            Stepped::Misuse {
                thread,
                line,
                kind: MisuseKind::SemFull,
            },
        )
    }
}
