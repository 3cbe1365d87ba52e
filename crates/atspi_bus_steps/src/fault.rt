//! Why a bus refused a call. Each kind of call has just the faults that may come of it.

ghost use Rattle.std.specs.Prelude.{◌≡◌};
ghost use Rattle.atspi_bus_steps.specs.declared.fault.BusFault.TheVariants as faults;

use atspi_base::NoMemory;
use std::alloc::{AllocError, AllocFailed};
use thiserror::Error;

/// Why a connection could not join a bus.
#[derive(Clone, Copy, Debug, PartialEq, Eq, Error)]
pub enum JoinFault {
    /// No number is left that is above those of all connections that have joined.
    #[error("no number of a connection is left")]
    Full,
    #[error("out of memory")]
    NoMemory,
}

/// Why a bus did not take a message, or let a connection leave.
#[derive(Clone, Copy, Debug, PartialEq, Eq, Error)]
pub enum BusFault {
    /// The bus's own messages for the call would pass the serial 4,294,967,295.
    #[error("no serial is left for the bus's own messages")]
    Spent,
    #[error("out of memory")]
    NoMemory,
}

impl From<NoMemory> for BusFault {
    ghost from_gives = { λ _ e. e ≡ faults.NoMemory };

    fn from(_: NoMemory) -> BusFault {
        BusFault::NoMemory
    }
}

impl From<AllocError> for BusFault {
    ghost from_gives = { λ _ e. e ≡ faults.NoMemory };

    fn from(_: AllocError) -> BusFault {
        BusFault::NoMemory
    }
}

impl<T: Drop> From<AllocFailed<T>> for BusFault {
    ghost from_gives = { λ _ e. e ≡ faults.NoMemory };

    fn from(_: AllocFailed<T>) -> BusFault {
        BusFault::NoMemory
    }
}
