//! Why a line is not done.

ghost use Rattle.std.specs.Prelude.{◌≡◌};
ghost use Rattle.atspi_world.specs.Faults.{of_carry, of_sent, of_app, of_call};

use atspi_world_ends::{AppFault, CallFault};
use atspi_world_links::SendFault;
use atspi_world_moves::CarryFault;
use atspi_world_parties::Refusal;
use thiserror::Error;

/// Why a line is not done. Behind any but a refusal the world is not used again.
#[derive(Clone, Copy, Debug, PartialEq, Eq, Error)]
pub enum ActFault {
    #[error("the line is refused: {0}")]
    Refused(Refusal),
    /// A message of an end, or of the bus, would pass serial 4,294,967,295.
    #[error("no number is left for a message")]
    Spent,
    #[error("the registry was dropped")]
    RegistryLost,
    /// What no script comes to: a message breaks a rule, or passes the limits of the wire, or no number of a connection
    /// or of an end is left.
    #[error("a message breaks a rule, or passes the limits of the wire")]
    Unsendable,
    #[error("out of memory")]
    NoMemory,
}

impl From<CarryFault> for ActFault {
    ghost from_gives = { λ f e. e ≡ of_carry f };

    fn from(fault: CarryFault) -> ActFault {
        match fault {
            CarryFault::Spent => ActFault::Spent,
            CarryFault::RegistryLost => ActFault::RegistryLost,
            CarryFault::Unsendable => ActFault::Unsendable,
            CarryFault::NoMemory => ActFault::NoMemory,
        }
    }
}

impl From<SendFault> for ActFault {
    ghost from_gives = { λ f e. e ≡ of_sent f };

    fn from(fault: SendFault) -> ActFault {
        match fault {
            SendFault::Unsendable => ActFault::Unsendable,
            SendFault::NoMemory => ActFault::NoMemory,
        }
    }
}

impl From<AppFault> for ActFault {
    ghost from_gives = { λ f e. e ≡ of_app f };

    fn from(fault: AppFault) -> ActFault {
        match fault {
            AppFault::Refused(why) => ActFault::Refused(Refusal::Edit(why)),
            AppFault::Spent => ActFault::Spent,
            AppFault::NoMemory => ActFault::NoMemory,
        }
    }
}

impl From<CallFault> for ActFault {
    ghost from_gives = { λ f e. e ≡ of_call f };

    fn from(fault: CallFault) -> ActFault {
        match fault {
            CallFault::NotHeld => ActFault::Refused(Refusal::NotHeld),
            CallFault::Spent => ActFault::Spent,
            CallFault::NoMemory => ActFault::NoMemory,
        }
    }
}
