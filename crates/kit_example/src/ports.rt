// The queue again, by threads that ask through ports.
ghost use Rattle.std.specs.Prelude.{◌≡◌, ◌<◌, IfOk};
ghost use Rattle.body_kit.specs.Ports.{home_of};

use body_kit::{Over, Port};
use kit_runs::{Program, RunError, Seeds, run_seed, small_deal};
use pct_ask::Verdict;
use std::alloc::Global;
use std::sync::Wait;
use std::thread::Threads;

/// The condition on which it is waited for an item, and that for room.
#[derive(Drop)]
pub struct PortQueue {
    filled: u32,
    emptied: u32,
}

impl PortQueue {
    ghost use Rattle.kit_example.specs.Ports.{FitsQueue};

    pub fn new(filled: u32, emptied: u32) -> PortQueue
        ensures { result ≡ record { filled = filled; emptied = emptied } }
    {
        PortQueue { filled, emptied }
    }

    /// Waits until there are `at` items, changes their number, and tells somebody.
    fn change<R: Wait>(&self, rt: &R, port: &mut Port<'_>, at: i64, by: i64) -> Result<(), Over>
        requires { FitsQueue self.now (home_of port.old).deal }
        ensures { home_of port.new ≡ home_of port.old }
    {
        let waits = if by < 0 { self.filled } else { self.emptied };
        let tells = if by < 0 { self.emptied } else { self.filled };
        port.lock(rt, 0, 1)?;
        for _ in rt.forever() {
            if port.read(rt, 0, 2)? == at {
                break;
            }
            port.wait(rt, waits, 0, 3)?;
        }
        port.add(rt, 0, by, 4)?;
        port.signal(rt, tells, 5)?;
        port.unlock(rt, 0, 6)?;
        Ok(())
    }
}

impl Program for PortQueue {
    ghost use Rattle.kit_example.specs.Ports.{FitsQueue};

    ghost fits = { FitsQueue };

    fn run<R: Wait>(&self, rt: &R, port: &mut Port<'_>, thread: u32) -> Result<(), Over> {
        if thread < 2 {
            return self.change(rt, port, 1, -1);
        }
        self.change(rt, port, 0, 1)?;
        self.change(rt, port, 0, 1)
    }
}

/// Whether the queue gets stuck by the order and the change point of a seed.
pub fn gets_stuck<R: Threads + Wait + Sync>(
    rt: &R,
    alloc: Global,
    seed: u64,
    filled: u32,
    emptied: u32,
) -> Result<bool, RunError>
    requires filled { filled < 2 }
    requires emptied { emptied < 2 }
{
    let deal = small_deal(alloc, 3, &[0], 1, 2)?;
    let seeds = Seeds::from_zero(1, 2, 30);
    let queue = PortQueue::new(filled, emptied);
    let file = run_seed(rt, alloc, &deal, &seeds, seed, &queue)?;
    Ok(matches!(file.verdict, Verdict::Stuck { .. }))
}
