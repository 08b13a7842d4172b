//! A moment as numbers.

ghost use Rattle.std.specs.Prelude.{◌≡◌, IfOk, map};
ghost use Rattle.c_values.specs.Moments.{moment_said, moment_numbers};

use rank_now::Moment;
use std::alloc::{AllocError as NoMemory, Global};

/// Right after its own step of this number, from 1, a thread is lowered.
#[repr(C)]
#[derive(Clone, Copy, Debug, PartialEq, Eq)]
pub struct PctMoment {
    pub thread: u32,
    pub number: u32,
}

/// The numbers of a moment.
pub fn numbers_of_moment(moment: Moment) -> PctMoment
    ensures { result ≡ moment_numbers moment }
{
    PctMoment {
        thread: moment.thread,
        number: moment.number,
    }
}

/// The moments that the numbers say.
pub fn moments_said(alloc: Global, numbers: &[PctMoment]) -> Result<Vec<Moment>, NoMemory>
    ensures { IfOk result (λ moments. moments.items ≡ map moment_said numbers.now) }
{
    numbers
        .iter()
        .map(|one| Moment {
            thread: one.thread,
            number: one.number,
        })
        .collect(alloc)
}
