//! Why a conversation ends without success.

ghost use Rattle.std.specs.Prelude.{◌≡◌};
ghost use Rattle.atspi_auth.specs.declared.fault.AuthFault.TheVariants.{NoMemory};

use std::alloc::AllocError;
use thiserror::Error;

/// Why authentication fails. Each but want of memory stays for good.
#[derive(Clone, Copy, Debug, PartialEq, Eq, Error)]
pub enum AuthFault {
    /// The first byte that a client sent is not 0.
    #[error("the first byte is not 0")]
    NoZero,
    /// 16,384 bytes of a line came without its CR LF among them.
    #[error("a line has more than 16384 bytes")]
    TooLong,
    /// `BEGIN` came before the server had granted anything.
    #[error("BEGIN came before it was awaited")]
    Early,
    /// The server said something else than the line that the client awaited.
    #[error("the server did not say what was awaited")]
    Rejected,
    /// There is no memory; the end is as it was before the call.
    #[error("out of memory")]
    NoMemory,
}

impl From<AllocError> for AuthFault {
    ghost from_gives = { λ _ e. e ≡ NoMemory };

    fn from(_: AllocError) -> AuthFault {
        AuthFault::NoMemory
    }
}

impl From<atspi_base::NoMemory> for AuthFault {
    ghost from_gives = { λ _ e. e ≡ NoMemory };

    fn from(_: atspi_base::NoMemory) -> AuthFault {
        AuthFault::NoMemory
    }
}
