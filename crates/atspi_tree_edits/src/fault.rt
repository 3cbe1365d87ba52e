//! Why an edit gives no steps.

use atspi_tree_model::EditFault;
use thiserror::Error;

/// Why an edit gave no steps.
#[derive(Clone, Copy, Debug, PartialEq, Eq, Error)]
pub enum EditRefused {
    /// The edit is refused.
    #[error("{0}")]
    Refused(EditFault),
    #[error("out of memory")]
    NoMemory,
}

impl From<atspi_base::NoMemory> for EditRefused {
    ghost use Rattle.std.specs.Prelude.{◌≡◌};
    ghost use Rattle.atspi_tree_edits.specs.declared.fault.EditRefused.TheVariants.{NoMemory};

    ghost from_gives = { λ _ e. e ≡ NoMemory };

    fn from(_e: atspi_base::NoMemory) -> EditRefused {
        EditRefused::NoMemory
    }
}
