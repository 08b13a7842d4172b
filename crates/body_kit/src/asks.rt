// What a thread asks through its port, by the objects' own words.
ghost use Rattle.std.specs.Prelude.{◌≡◌, ◌<◌, ℕ, ℤ, length};
ghost use Rattle.pct_ask.specs.declared.ask.Ask.TheVariants as asks;
ghost use Rattle.turn_lock.specs.Rule.{Serves};
ghost use Rattle.turn_lock.specs.Views.{view};
ghost use Rattle.body_kit.specs.Asking.{AskTells, PairTells, asked_of};
ghost use Rattle.body_kit.specs.Ports.{home_of};

use crate::asked::Over;
use crate::port::Port;
use pct_ask::Ask;
use std::sync::Wait;

impl<'k> Port<'k> {
    /// The value of a variable.
    pub fn read<R: Wait>(&mut self, rt: &R, var: u32, line: u32) -> Result<i64, Over>
        requires var { var < length (home_of self.old).deal.vars }
        ensures home { home_of self.new ≡ home_of self.old }
        ensures row { (t : ℕ) → Serves (view self.old) t
            → AskTells (view self.old) t (asks.Read var) line (asked_of result) (view self.new) }
    {
        self.ask(rt, Ask::Read { var }, line)
    }

    /// Gives a variable a value.
    pub fn write<R: Wait>(&mut self, rt: &R, var: u32, value: i64, line: u32) -> Result<i64, Over>
        requires var { var < length (home_of self.old).deal.vars }
        ensures home { home_of self.new ≡ home_of self.old }
        ensures row { (t : ℕ) → Serves (view self.old) t
            → AskTells (view self.old) t (asks.Write var value) line (asked_of result)
            (view self.new) }
    {
        self.ask(rt, Ask::Write { var, value }, line)
    }

    /// Adds to a variable, in one step. The answer is the old value.
    pub fn add<R: Wait>(&mut self, rt: &R, var: u32, value: i64, line: u32) -> Result<i64, Over>
        requires var { var < length (home_of self.old).deal.vars }
        ensures home { home_of self.new ≡ home_of self.old }
        ensures row { (t : ℕ) → Serves (view self.old) t
            → AskTells (view self.old) t (asks.Add var value) line (asked_of result)
            (view self.new) }
    {
        self.ask(rt, Ask::Add { var, value }, line)
    }

    /// Waits for a mutex that somebody else holds, and takes it.
    pub fn lock<R: Wait>(&mut self, rt: &R, mutex: u32, line: u32) -> Result<i64, Over>
        requires mutex { mutex < (home_of self.old).deal.mutexes }
        ensures home { home_of self.new ≡ home_of self.old }
        ensures row { (t : ℕ) → Serves (view self.old) t
            → AskTells (view self.old) t (asks.Lock mutex) line (asked_of result) (view self.new) }
    {
        self.ask(rt, Ask::Lock { mutex }, line)
    }

    /// Lets a mutex go.
    pub fn unlock<R: Wait>(&mut self, rt: &R, mutex: u32, line: u32) -> Result<i64, Over>
        requires mutex { mutex < (home_of self.old).deal.mutexes }
        ensures home { home_of self.new ≡ home_of self.old }
        ensures row { (t : ℕ) → Serves (view self.old) t
            → AskTells (view self.old) t (asks.Unlock mutex) line (asked_of result)
            (view self.new) }
    {
        self.ask(rt, Ask::Unlock { mutex }, line)
    }

    /// Lets the mutex go and waits for the condition, and once it is woken takes the mutex again.
    /// These are two steps, on one line.
    pub fn wait<R: Wait>(&mut self, rt: &R, cond: u32, mutex: u32, line: u32) -> Result<i64, Over>
        requires cond { cond < (home_of self.old).deal.conds }
        requires mutex { mutex < (home_of self.old).deal.mutexes }
        ensures home { home_of self.new ≡ home_of self.old }
        ensures row { (t : ℕ) → Serves (view self.old) t
            → PairTells (view self.old) t (asks.Release cond mutex) (asks.Regain cond mutex) line
            (asked_of result) (view self.new) }
    {
        if let Err(over) = self.ask(rt, Ask::Release { cond, mutex }, line) {
            return Err(over);
        }
        self.ask(rt, Ask::Regain { cond, mutex }, line)
    }

    /// Wakes a thread that waits for the condition, if one does.
    pub fn signal<R: Wait>(&mut self, rt: &R, cond: u32, line: u32) -> Result<i64, Over>
        requires cond { cond < (home_of self.old).deal.conds }
        ensures home { home_of self.new ≡ home_of self.old }
        ensures row { (t : ℕ) → Serves (view self.old) t
            → AskTells (view self.old) t (asks.Signal cond) line (asked_of result)
            (view self.new) }
    {
        self.ask(rt, Ask::Signal { cond }, line)
    }

    /// Wakes all threads that wait for the condition.
    pub fn broadcast<R: Wait>(&mut self, rt: &R, cond: u32, line: u32) -> Result<i64, Over>
        requires cond { cond < (home_of self.old).deal.conds }
        ensures home { home_of self.new ≡ home_of self.old }
        ensures row { (t : ℕ) → Serves (view self.old) t
            → AskTells (view self.old) t (asks.Broadcast cond) line (asked_of result)
            (view self.new) }
    {
        self.ask(rt, Ask::Broadcast { cond }, line)
    }

    /// Waits until a semaphore is above 0, and takes one from it.
    pub fn down<R: Wait>(&mut self, rt: &R, sem: u32, line: u32) -> Result<i64, Over>
        requires sem { sem < length (home_of self.old).deal.sems }
        ensures home { home_of self.new ≡ home_of self.old }
        ensures row { (t : ℕ) → Serves (view self.old) t
            → AskTells (view self.old) t (asks.Down sem) line (asked_of result) (view self.new) }
    {
        self.ask(rt, Ask::Down { sem }, line)
    }

    /// Adds one to a semaphore.
    pub fn up<R: Wait>(&mut self, rt: &R, sem: u32, line: u32) -> Result<i64, Over>
        requires sem { sem < length (home_of self.old).deal.sems }
        ensures home { home_of self.new ≡ home_of self.old }
        ensures row { (t : ℕ) → Serves (view self.old) t
            → AskTells (view self.old) t (asks.Up sem) line (asked_of result) (view self.new) }
    {
        self.ask(rt, Ask::Up { sem }, line)
    }

    /// Waits at a barrier until as many threads are there as meet at it. The answer is 1 for one of
    /// them, else 0. These are two steps, on one line.
    pub fn meet<R: Wait>(&mut self, rt: &R, barrier: u32, line: u32) -> Result<i64, Over>
        requires barrier { barrier < length (home_of self.old).deal.barriers }
        ensures home { home_of self.new ≡ home_of self.old }
        ensures row { (t : ℕ) → Serves (view self.old) t
            → PairTells (view self.old) t (asks.Arrive barrier) (asks.Leave barrier) line
            (asked_of result) (view self.new) }
    {
        if let Err(over) = self.ask(rt, Ask::Arrive { barrier }, line) {
            return Err(over);
        }
        self.ask(rt, Ask::Leave { barrier }, line)
    }

    /// Waits until another thread has ended.
    pub fn join<R: Wait>(&mut self, rt: &R, thread: u32, line: u32) -> Result<i64, Over>
        requires thread { thread < (home_of self.old).deal.threads }
        ensures home { home_of self.new ≡ home_of self.old }
        ensures row { (t : ℕ) → Serves (view self.old) t
            → AskTells (view self.old) t (asks.Join thread) line (asked_of result)
            (view self.new) }
    {
        self.ask(rt, Ask::Join { thread }, line)
    }

    /// Ends the run where this doesn't hold: its verdict is that the thread failed on the line.
    pub fn check<R: Wait>(&mut self, rt: &R, holds: bool, line: u32) -> Result<i64, Over>
        ensures home { home_of self.new ≡ home_of self.old }
        ensures row { (t : ℕ) → Serves (view self.old) t
            → AskTells (view self.old) t (asks.Check holds) line (asked_of result)
            (view self.new) }
    {
        self.ask(rt, Ask::Check { holds }, line)
    }
}
