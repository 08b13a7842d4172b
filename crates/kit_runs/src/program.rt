ghost use Rattle.std.specs.Prelude.{◌≡◌};
ghost use Rattle.pct_ask.specs.declared.deal.Deal.{Deal};
ghost use Rattle.body_kit.specs.Ports.{home_of};

use body_kit::{Over, Port};
use std::sync::Wait;

/// A program under test. Its threads share nothing but the objects of the deal, and what a thread
/// asks follows from what it was answered.
pub trait Program {
    // What the program asks of a deal, such as that there is a mutex.
    ghost fits: { Self → Deal → Type 0 } = { λ _ _. Unit {0} };

    /// What a thread does, from its first ask to its end.
    fn run<R: Wait>(&self, rt: &R, port: &mut Port<'_>, thread: u32) -> Result<(), Over>
        requires { fits self.now (home_of port.old).deal }
        ensures { home_of port.new ≡ home_of port.old };
}
