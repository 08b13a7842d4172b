ghost use Rattle.std.specs.Prelude.{◌≡◌, ◌<◌, ◌≤◌, [], pos, min, length, replicate, IfOk};
ghost use Rattle.sync_store.specs.Store.{is_on, new_condition, condition_of, with_condition};
ghost use Rattle.sync_store.specs.Store.{with_owner};
ghost use Rattle.sync_store.specs.Effect.{put_last, list_without, put_all_last, after_signal};
ghost use Rattle.sync_store.specs.Effect.{effect, store_after};
ghost use Rattle.sync_store.specs.Effect.{applied_of};
ghost use Rattle.sync_store.specs.Stepped.{applied_by};
ghost use Rattle.pct_ask.specs.declared.limits.TheConstants.{MAX_THREADS};

use crate::applied::{Stepped, not_owner};
use crate::store::Store;
use crate::thread_list::ThreadList;
use pct_ask::Ask;
use std::alloc::{AllocError as NoMemory, Global};
use std::marker::Model;

/// A condition variable.
#[derive(Drop)]
pub(crate) struct Condition {
    waiting: ThreadList,
    woken: ThreadList,
}

impl Model for Condition {
    ghost use Rattle.sync_store.specs.Store.{ConditionState};

    ghost Value = { ConditionState };

    ghost view = { λ c. record { waiting = c.waiting; woken = c.woken } };
}

impl Condition {
    pub(crate) fn new(alloc: Global) -> Result<Self, NoMemory>
        ensures { IfOk result (λ condition. condition ≡ new_condition) }
    {
        Ok(Condition {
            waiting: ThreadList::new(alloc)?,
            woken: ThreadList::new(alloc)?,
        })
    }

    pub(crate) fn several(alloc: Global, count: u32) -> Result<Vec<Condition>, NoMemory>
        ensures { IfOk result (λ conditions. conditions.items ≡ replicate count new_condition) }
    {
        let mut conditions = Vec::with_capacity(alloc, count as usize)?;
        for _ in 0..count {
            conditions.push(Condition::new(alloc)?)?;
        }
        Ok(conditions)
    }

    pub(crate) fn restart(&mut self)
        ensures { self.new ≡ new_condition }
    {
        self.waiting.clear();
        self.woken.clear();
    }

    pub(crate) fn restart_all(conditions: &mut [Condition])
        ensures { conditions.new ≡ replicate (length conditions.old) new_condition }
    {
        for condition in conditions.iter_mut() {
            condition.restart();
        }
    }

    pub(crate) fn has_woken(&self, thread: u32) -> bool
        requires { thread < MAX_THREADS }
        ensures { result ≡ is_on thread self.now.woken }
    {
        self.woken.has(thread)
    }

    /// The thread waits for a signal.
    pub(crate) fn wait(&mut self, thread: u32)
        requires { thread < MAX_THREADS }
        ensures { self.new ≡ record self.old { waiting = put_last thread self.old.waiting } }
    {
        self.waiting.add(thread);
    }

    /// The woken thread goes on.
    pub(crate) fn go_on(&mut self, thread: u32)
        requires { thread < MAX_THREADS }
        ensures { self.new ≡ record self.old { woken = list_without thread self.old.woken } }
    {
        self.woken.leave(thread);
    }

    /// Wakes the longest waiter. The answer is how many it wakes.
    pub(crate) fn signal(&mut self) -> usize
        ensures signalled { self.new ≡ after_signal self.old.waiting self.old.woken }
        ensures woken { result ≡ min 1 (length self.old.waiting) }
    {
        match self.waiting.take_first() {
            Some(thread) => {
                self.woken.add(thread);
                1
            }
            None => 0,
        }
    }

    /// Wakes all waiters. The answer is how many it wakes.
    pub(crate) fn broadcast(&mut self) -> usize
        ensures woken { self.new
            ≡ record { waiting = []; woken = put_all_last self.old.waiting self.old.woken } }
        ensures count { result ≡ length self.old.waiting }
        ensures few { result ≤ MAX_THREADS }
    {
        let count = self.waiting.len();
        self.waiting.move_to(&mut self.woken);
        count
    }
}

impl Store {
    pub(crate) fn release(&mut self, thread: u32, line: u32, cond: u32, mutex: u32) -> Stepped
        requires there { thread < self.old.threads }
        requires cond { cond < length self.old.conditions }
        requires mutex { mutex < length self.old.owners }
        ensures store { self.new
            ≡ store_after self.old (effect self.old thread line (Ask.Release cond mutex)) }
        ensures applied { applied_by result
            ≡ applied_of (effect self.old thread line (Ask.Release cond mutex)) }
    {
        if !self.mutexes.unlock(mutex, thread) {
            return not_owner(thread, line);
        }
        self.conditions[cond as usize].wait(thread);
        Stepped::Answer(0)
    }

    pub(crate) fn regain(&mut self, thread: u32, cond: u32, mutex: u32)
        requires there { thread < self.old.threads }
        requires cond { cond < length self.old.conditions }
        requires mutex { mutex < length self.old.owners }
        ensures { self.new
            ≡ with_condition (with_owner self.old mutex (Some thread)) cond
            (record (condition_of self.old cond) {
              woken = list_without thread (condition_of self.old cond).woken;
            }) }
    {
        self.mutexes.lock(mutex, thread);
        self.conditions[cond as usize].go_on(thread);
    }

    pub(crate) fn signal(&mut self, cond: u32) -> Stepped
        requires { cond < length self.old.conditions }
        ensures store { self.new ≡ with_condition self.old cond
            (after_signal (condition_of self.old cond).waiting (condition_of self.old cond).woken) }
        ensures applied { result
            ≡ Stepped.Answer (pos (min 1 (length (condition_of self.old cond).waiting))) }
    {
        Stepped::Answer(self.conditions[cond as usize].signal() as i64)
    }

    pub(crate) fn broadcast(&mut self, cond: u32) -> Stepped
        requires { cond < length self.old.conditions }
        ensures store { self.new
            ≡ with_condition self.old cond (record {
              waiting = [];
              woken =
                  put_all_last (condition_of self.old cond).waiting
                  (condition_of self.old cond).woken;
            }) }
        ensures applied { result
            ≡ Stepped.Answer (pos (length (condition_of self.old cond).waiting)) }
    {
        Stepped::Answer(self.conditions[cond as usize].broadcast() as i64)
    }
}
