//! Why bytes are no match rule.

ghost use Rattle.std.specs.Prelude.{◌≡◌};
ghost use Rattle.atspi_match.specs.declared.fault.RuleRead.TheVariants.{NoMemory};

use std::alloc::{AllocError, AllocFailed};
use thiserror::Error;

/// What is wrong with the text of a match rule: the place counts bytes from 0, the reason is a number of the table.
///
/// | reason | what is wrong | place |
/// |---|---|---|
/// | 1 | no `=` before the next comma or the end; also where nothing or only blanks stand | the key |
/// | 2 | no such key | the key |
/// | 3 | the key stands before | the key |
/// | 4 | a quoted part is not closed | its apostrophe |
/// | 5 | no such type | the value |
/// | 6 | a value that its key may not have | the value |
/// | 7 | both `path` and `path_namespace` | the second key |
/// | 8 | more than 1,024 bytes | 1,024 |
#[derive(Clone, Copy, Debug, PartialEq, Eq)]
pub struct RuleFault {
    pub place: u32,
    pub reason: u8,
}

/// Why a match rule could not be read.
#[derive(Clone, Copy, Debug, PartialEq, Eq, Error)]
pub enum RuleRead {
    /// The bytes are no match rule.
    #[error("no match rule")]
    Bad(RuleFault),
    #[error("out of memory")]
    NoMemory,
}

impl From<AllocError> for RuleRead {
    ghost from_gives = { λ _ e. e ≡ NoMemory };

    fn from(_: AllocError) -> RuleRead {
        RuleRead::NoMemory
    }
}

impl<T: Drop> From<AllocFailed<T>> for RuleRead {
    ghost from_gives = { λ _ e. e ≡ NoMemory };

    fn from(_: AllocFailed<T>) -> RuleRead {
        RuleRead::NoMemory
    }
}
