//! Two threads that count without a lock, and a third that checks the sum.
ghost use Rattle.std.specs.Prelude.{◌≡◌, ◌≤◌, length};
ghost use Rattle.body_kit.specs.Ports.{home_of};

use body_kit::{Over, Port};
use kit_runs::Program;
use std::sync::Wait;

#[derive(Drop)]
pub(crate) struct Counters;

/// A thread reads a number, and writes the next.
fn count<R: Wait>(rt: &R, port: &mut Port<'_>, line: u32) -> Result<(), Over>
    requires line { line ≤ 8 }
    requires vars { 1 ≤ length (home_of port.old).deal.vars }
    ensures { home_of port.new ≡ home_of port.old }
{
    let seen = port.read(rt, 0, line)?;
    port.write(rt, 0, seen.wrapping_add(1), line + 1)?;
    Ok(())
}

/// A thread waits for both counters, and checks the number.
fn check<R: Wait>(rt: &R, port: &mut Port<'_>) -> Result<(), Over>
    requires vars { 1 ≤ length (home_of port.old).deal.vars }
    requires threads { 2 ≤ (home_of port.old).deal.threads }
    ensures { home_of port.new ≡ home_of port.old }
{
    port.join(rt, 0, 12)?;
    port.join(rt, 1, 13)?;
    let holds = port.read(rt, 0, 14)? == 2;
    port.check(rt, holds, 15)?;
    Ok(())
}

impl Program for Counters {
    ghost fits = { λ _ deal. (1 ≤ length deal.vars) × (2 ≤ deal.threads) };

    fn run<R: Wait>(&self, rt: &R, port: &mut Port<'_>, thread: u32) -> Result<(), Over> {
        match thread {
            0 => count(rt, port, 4),
            1 => count(rt, port, 8),
            _ => check(rt, port),
        }
    }
}
