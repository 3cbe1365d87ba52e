//! Why a message was not sent.

ghost use Rattle.std.specs.Prelude.{◌≡◌};
ghost use Rattle.atspi_world_links.specs.declared.fault.SendFault.TheVariants as faults;

use atspi_base::NoMemory;
use std::alloc::{AllocError, AllocFailed};
use thiserror::Error;

/// Why a message was not sent.
#[derive(Clone, Copy, Debug, PartialEq, Eq, Error)]
pub enum SendFault {
    /// It breaks a rule of messages, or passes the limits of the wire. No end sends such a one.
    #[error("a message breaks a rule, or passes the limits of the wire")]
    Unsendable,
    #[error("out of memory")]
    NoMemory,
}

impl From<NoMemory> for SendFault {
    ghost from_gives = { λ _ e. e ≡ faults.NoMemory };

    fn from(_: NoMemory) -> SendFault {
        SendFault::NoMemory
    }
}

impl From<AllocError> for SendFault {
    ghost from_gives = { λ _ e. e ≡ faults.NoMemory };

    fn from(_: AllocError) -> SendFault {
        SendFault::NoMemory
    }
}

impl<T: Drop> From<AllocFailed<T>> for SendFault {
    ghost from_gives = { λ _ e. e ≡ faults.NoMemory };

    fn from(_: AllocFailed<T>) -> SendFault {
        SendFault::NoMemory
    }
}
