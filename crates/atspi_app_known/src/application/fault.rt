//! Why an application did not make an edit of its user.

ghost use Rattle.std.specs.Prelude.{◌≡◌};
ghost use Rattle.atspi_app_known.specs.application.Faults.{of_end};
ghost use Rattle.atspi_app_known.specs.declared.application.fault.AppFault.TheVariants as faults;

use atspi_base::NoMemory;
use atspi_protocol::ends::EndFault;
use atspi_tree_model::EditFault;
use thiserror::Error;

/// Why an application did not make an edit of its user. After a fault all is as before.
#[derive(Clone, Copy, Debug, PartialEq, Eq, Error)]
pub enum AppFault {
    /// The first refusal of the edit.
    #[error("the edit is refused: {0}")]
    Refused(EditFault),
    /// Its messages would pass number 4,294,967,295.
    #[error("no number is left for a message")]
    Spent,
    #[error("out of memory")]
    NoMemory,
}

impl From<NoMemory> for AppFault {
    ghost from_gives = { λ _ e. e ≡ faults.NoMemory };

    fn from(_: NoMemory) -> AppFault {
        AppFault::NoMemory
    }
}

impl From<EndFault> for AppFault {
    ghost from_gives = { λ fault e. e ≡ of_end fault };

    fn from(fault: EndFault) -> AppFault {
        match fault {
            EndFault::Spent => AppFault::Spent,
            EndFault::NoMemory => AppFault::NoMemory,
        }
    }
}
