ghost use Rattle.std.specs.Prelude.{◌≡◌, ◌<◌, ◌+ℤ◌, pos, if◌then◌else◌, Some, None, length};
ghost use Rattle.std.specs.Prelude.{slice_index_or, slice_set, IfOk};
ghost use Rattle.std.specs.Ordering.{int_eq};
ghost use Rattle.sync_store.specs.Store.{variable_value, with_value};
ghost use Rattle.sync_store.specs.Effect.{is_i64, effect, store_after, applied_of};
ghost use Rattle.sync_store.specs.Stepped.{applied_by};

use crate::applied::Stepped;
use crate::store::Store;
use pct_ask::{Ask, FaultKind, NumberList};
use std::alloc::{AllocError as NoMemory, Global};
use std::marker::Model;

/// The variables.
#[derive(Drop)]
pub(crate) struct Variables {
    values: Vec<i64>,
}

impl Model for Variables {
    ghost use Rattle.std.specs.Prelude.{List, ℤ};

    ghost Value = { List ℤ };

    ghost view = { λ v. v.values.items };
}

impl Variables {
    pub(crate) fn new(alloc: Global, values: &NumberList) -> Result<Self, NoMemory>
        ensures { IfOk result (λ variables. variables ≡ values.now) }
    {
        Ok(Variables {
            values: Vec::from_slice(alloc, values.as_slice())?,
        })
    }

    /// Gives the variables these values, in the same memory.
    pub(crate) fn restart(&mut self, values: &NumberList)
        requires { length self.old ≡ length values.now }
        ensures { self.new ≡ values.now }
    {
        self.values.copy_from_slice(values.as_slice());
    }

    pub(crate) fn read(&self, var: u32) -> i64
        requires { var < length self.now }
        ensures { result ≡ slice_index_or self.now var (pos 0) }
    {
        self.values[var as usize]
    }

    pub(crate) fn write(&mut self, var: u32, value: i64)
        requires { var < length self.old }
        ensures { self.new ≡ slice_set self.old var value }
    {
        self.values[var as usize] = value;
    }

    /// Adds to a variable. The answer is the old value, or None where the sum is outside i64, and
    /// then nothing changes.
    pub(crate) fn add(&mut self, var: u32, value: i64) -> Option<i64>
        requires { var < length self.old }
        ensures old { let old = slice_index_or self.old var (pos 0) in
            result ≡ (if is_i64 (old +ℤ value) then Some old else None) }
        ensures new { let old = slice_index_or self.old var (pos 0) in
            self.new
            ≡ (if is_i64 (old +ℤ value) then slice_set self.old var (old +ℤ value) else self.old) }
    {
        let old = self.values[var as usize];
        let sum = old.checked_add(value)?;
        self.values[var as usize] = sum;
        Some(old)
    }

    /// Gives a variable the value `new` where it is `old`, and answers whether it was.
    pub(crate) fn compare_exchange(&mut self, var: u32, old: i64, new: i64) -> bool
        requires { var < length self.old }
        ensures was { result ≡ int_eq (slice_index_or self.old var (pos 0)) old }
        ensures new { self.new ≡ (if result then slice_set self.old var new else self.old) }
    {
        if self.values[var as usize] == old {
            self.values[var as usize] = new;
            true
        } else {
            false
        }
    }
}

impl Store {
    pub(crate) fn write(&mut self, var: u32, value: i64)
        requires { var < length self.old.values }
        ensures { self.new ≡ with_value self.old var value }
    {
        self.variables.write(var, value);
    }

    pub(crate) fn add(&mut self, thread: u32, line: u32, var: u32, value: i64) -> Stepped
        requires { var < length self.old.values }
        ensures store { self.new
            ≡ store_after self.old (effect self.old thread line (Ask.Add var value)) }
        ensures applied { applied_by result
            ≡ applied_of (effect self.old thread line (Ask.Add var value)) }
    {
        match self.variables.add(var, value) {
            Some(old) => Stepped::Answer(old),
            None => Stepped::Fault {
                thread,
                line,
                kind: FaultKind::Overflow,
            },
        }
    }

    pub(crate) fn compare_exchange(&mut self, var: u32, old: i64, new: i64) -> Stepped
        requires { var < length self.old.values }
        ensures store { self.new
            ≡ (if int_eq (variable_value self.old var) old then with_value self.old var new
            else self.old) }
        ensures applied { result
            ≡ Stepped.Answer (if int_eq (variable_value self.old var) old then pos 1 else pos 0) }
    {
        Stepped::truth(self.variables.compare_exchange(var, old, new))
    }
}
