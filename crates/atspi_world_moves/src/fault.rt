//! Why something was not carried.

ghost use Rattle.std.specs.Prelude.{◌≡◌};
ghost use Rattle.atspi_world_moves.specs.declared.fault.CarryFault.TheVariants as faults;
ghost use Rattle.atspi_world_moves.specs.Faults.{of_bus, of_end, of_send};

use atspi_base::NoMemory;
use atspi_bus_steps::BusFault;
use atspi_protocol::ends::EndFault;
use atspi_world_links::SendFault;
use std::alloc::{AllocError, AllocFailed};
use thiserror::Error;

/// Why something was not carried. A world is not used again then.
#[derive(Clone, Copy, Debug, PartialEq, Eq, Error)]
pub enum CarryFault {
    /// A message of an end, or of the bus, would pass serial 4,294,967,295.
    #[error("no number is left for a message")]
    Spent,
    /// The registry was dropped at its quota.
    #[error("the registry was dropped")]
    RegistryLost,
    /// What no script comes to: a message breaks a rule, or passes the limits of the wire, or no number of a connection
    /// is left.
    #[error("a message breaks a rule, or passes the limits of the wire, or no number of a connection is left")]
    Unsendable,
    #[error("out of memory")]
    NoMemory,
}

impl From<NoMemory> for CarryFault {
    ghost from_gives = { λ _ e. e ≡ faults.NoMemory };

    fn from(_: NoMemory) -> CarryFault {
        CarryFault::NoMemory
    }
}

impl From<AllocError> for CarryFault {
    ghost from_gives = { λ _ e. e ≡ faults.NoMemory };

    fn from(_: AllocError) -> CarryFault {
        CarryFault::NoMemory
    }
}

impl<T: Drop> From<AllocFailed<T>> for CarryFault {
    ghost from_gives = { λ _ e. e ≡ faults.NoMemory };

    fn from(_: AllocFailed<T>) -> CarryFault {
        CarryFault::NoMemory
    }
}

impl From<BusFault> for CarryFault {
    ghost from_gives = { λ f e. e ≡ of_bus f };

    fn from(fault: BusFault) -> CarryFault {
        match fault {
            BusFault::Spent => CarryFault::Spent,
            BusFault::NoMemory => CarryFault::NoMemory,
        }
    }
}

impl From<SendFault> for CarryFault {
    ghost from_gives = { λ f e. e ≡ of_send f };

    fn from(fault: SendFault) -> CarryFault {
        match fault {
            SendFault::Unsendable => CarryFault::Unsendable,
            SendFault::NoMemory => CarryFault::NoMemory,
        }
    }
}

impl From<EndFault> for CarryFault {
    ghost from_gives = { λ f e. e ≡ of_end f };

    fn from(fault: EndFault) -> CarryFault {
        match fault {
            EndFault::Spent => CarryFault::Spent,
            EndFault::NoMemory => CarryFault::NoMemory,
        }
    }
}
