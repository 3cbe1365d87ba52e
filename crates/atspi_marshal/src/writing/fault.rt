//! Why a value was not written.

ghost use Rattle.std.specs.Prelude.{◌≡◌};
ghost use Rattle.atspi_marshal.specs.declared.writing.fault.WriteFault.TheVariants.{NoMemory};

use thiserror::Error;

/// Why a value was not written.
#[derive(Clone, Copy, Debug, PartialEq, Eq, Error)]
pub enum WriteFault {
    /// The value passes a limit: 67,108,864 bytes in an array, 134,217,728 bytes in all, 64 levels of containers, or
    /// those of a signature in the type of a variant.
    #[error("too big")]
    Big,
    #[error("out of memory")]
    NoMemory,
}

impl From<atspi_base::NoMemory> for WriteFault {
    ghost from_gives = { λ _ e. e ≡ NoMemory };

    fn from(_: atspi_base::NoMemory) -> WriteFault {
        WriteFault::NoMemory
    }
}
