//! Why an end did not do what it was called for.

ghost use Rattle.std.specs.Prelude.{◌≡◌};
ghost use Rattle.atspi_protocol.specs.declared.ends.fault.EndFault.TheVariants as faults;

use atspi_base::NoMemory;
use std::alloc::{AllocError, AllocFailed};
use thiserror::Error;

/// Why an end did not do what it was called for.
#[derive(Clone, Copy, Debug, PartialEq, Eq, Error)]
pub enum EndFault {
    /// Its messages would pass number 4,294,967,295.
    #[error("no number is left for a message")]
    Spent,
    #[error("out of memory")]
    NoMemory,
}

impl From<AllocError> for EndFault {
    ghost from_gives = { λ _ e. e ≡ faults.NoMemory };

    fn from(_: AllocError) -> EndFault {
        EndFault::NoMemory
    }
}

impl From<NoMemory> for EndFault {
    ghost from_gives = { λ _ e. e ≡ faults.NoMemory };

    fn from(_: NoMemory) -> EndFault {
        EndFault::NoMemory
    }
}

impl<T: Drop> From<AllocFailed<T>> for EndFault {
    ghost from_gives = { λ _ e. e ≡ faults.NoMemory };

    fn from(_: AllocFailed<T>) -> EndFault {
        EndFault::NoMemory
    }
}
