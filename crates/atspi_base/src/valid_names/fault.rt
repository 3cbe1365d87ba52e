//! Why bytes are no name.

ghost use Rattle.std.specs.Prelude.{◌≡◌, IfOk};
ghost use Rattle.std.specs.Str.{IsAscii};
ghost use Rattle.std.specs.Prelude.{string_bytes};
ghost use Rattle.atspi_base.specs.declared.valid_names.fault.NameFault.TheVariants.{NoMemory};

use std::alloc::{AllocError, Global};
use thiserror::Error;

/// Why bytes are no name.
#[derive(Clone, Copy, Debug, PartialEq, Eq, Error)]
pub enum NameFault {
    /// The bytes are outside the rule.
    #[error("not a name of the form")]
    Form,
    #[error("out of memory")]
    NoMemory,
}

impl From<AllocError> for NameFault {
    ghost from_gives = { λ _ e. e ≡ NoMemory };

    fn from(_: AllocError) -> NameFault {
        NameFault::NoMemory
    }
}

/// The ASCII bytes as a text.
pub fn ascii_text(alloc: Global, bytes: &[u8]) -> Result<String, AllocError>
    requires { IsAscii bytes.now }
    ensures { IfOk result (λ text. string_bytes text ≡ bytes.now) }
{
    // SAFETY: ASCII is UTF-8, so the bytes need not be looked at once more.
    let text = unsafe { std::str::from_utf8_unchecked(bytes) };
    String::from_str(alloc, text)
}
