use rank_now::RankError;
use std::alloc::AllocError as NoMemory;
use thiserror::Error;

/// Why no test is run.
#[derive(Debug, Drop, Error)]
pub enum KitError {
    /// The number of bodies, or of a kit's threads, or the number of names in the order is not the
    /// test's number of threads.
    #[error("{bodies} bodies, and {order} names in the order")]
    WrongCount { bodies: u32, order: u32 },
    /// The thread at this place of the order, from 0, is none of its threads, or was named before.
    #[error("the thread at place {at} makes this no order")]
    NotAnOrder { at: u32 },
    #[error("no memory")]
    NoMemory,
}

impl From<NoMemory> for KitError {
    ghost use Rattle.std.specs.Prelude.{◌≡◌};
    ghost use Rattle.body_kit.specs.declared.error.KitError.TheVariants.{NoMemory};

    ghost from_gives = { λ _ e. e ≡ NoMemory };

    fn from(_e: NoMemory) -> KitError {
        KitError::NoMemory
    }
}

impl From<RankError> for KitError {
    ghost use Rattle.std.specs.Prelude.{◌≡◌};
    ghost use Rattle.body_kit.specs.Refusals.{as_kit_error};

    ghost from_gives = { λ r e. e ≡ as_kit_error r };

    fn from(error: RankError) -> KitError {
        match error {
            RankError::NotAnOrder { at } => KitError::NotAnOrder { at },
            RankError::NoMemory => KitError::NoMemory,
        }
    }
}
