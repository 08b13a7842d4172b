// Bodies as a program.
ghost use Rattle.std.specs.Prelude.{◌≡◌};
ghost use Rattle.pct_ask.specs.Bodies.{IsInRangeBody};
ghost use Rattle.pct_ask.specs.Objects.{sizes_of_deal};
ghost use Rattle.pct_ask.specs.declared.deal.Deal.{Deal};
ghost use Rattle.body_kit.specs.Ports.{home_of};

use crate::program::Program;
use body_kit::{Over, Port};
use pct_ask::Body;
use std::sync::Wait;

/// Bodies under test, which are made anew for each run.
pub trait Bodies {
    type Body: Body;

    // What the bodies ask of a deal.
    ghost fits: { Self → Deal → Type 0 };

    /// The body of a thread, as it is at its start.
    fn body(&self, thread: u32) -> Self::Body
        ensures { (deal : Deal) → fits self.now deal
            → IsInRangeBody (sizes_of_deal deal) (Self.Body.pending result) };
}

/// The program whose threads are these bodies.
#[derive(Drop)]
pub struct BodyProgram<T> {
    pub bodies: T,
}

impl<T: Bodies + Drop> Program for BodyProgram<T> {
    ghost fits = { λ program deal. T.fits program.bodies deal };

    fn run<R: Wait>(&self, rt: &R, port: &mut Port<'_>, thread: u32) -> Result<(), Over> {
        let mut body = self.bodies.body(thread);
        for _ in rt.forever() {
            let post = body.post();
            match post.ask {
                Some(ask) => body.answer(port.ask(rt, ask, post.line)?),
                None => break,
            }
        }
        Ok(())
    }
}
