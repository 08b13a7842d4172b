//! Why a call refuses what it is given.

ghost use Rattle.std.specs.Prelude.{◌≡◌};
ghost use Rattle.c_values.specs.declared.refused.Refused.TheVariants.{NoMemory as no_memory};

use std::alloc::AllocError;

/// Why a call gives nothing.
#[derive(Clone, Copy, Debug, PartialEq, Eq)]
pub enum Refused {
    /// An argument is out of range, or nothing can be told of them together.
    Bad,
    NoMemory,
}

impl From<AllocError> for Refused {
    ghost from_gives = { λ _ e. e ≡ no_memory };

    fn from(_error: AllocError) -> Refused {
        Refused::NoMemory
    }
}
