//! Why a user's call was not sent.

ghost use Rattle.std.specs.Prelude.{◌≡◌};
ghost use Rattle.atspi_reader_calls.specs.declared.fault.CallFault.TheVariants as faults;

use atspi_base::NoMemory;
use std::alloc::AllocError;
use thiserror::Error;

/// Why a user's call was not sent.
#[derive(Clone, Copy, Debug, PartialEq, Eq, Error)]
pub enum CallFault {
    /// The application is not held.
    #[error("the application is not held")]
    NotHeld,
    /// Its number would pass 4,294,967,295.
    #[error("no number is left for a message")]
    Spent,
    #[error("out of memory")]
    NoMemory,
}

impl From<AllocError> for CallFault {
    ghost from_gives = { λ _ e. e ≡ faults.NoMemory };

    fn from(_: AllocError) -> CallFault {
        CallFault::NoMemory
    }
}

impl From<NoMemory> for CallFault {
    ghost from_gives = { λ _ e. e ≡ faults.NoMemory };

    fn from(_: NoMemory) -> CallFault {
        CallFault::NoMemory
    }
}
