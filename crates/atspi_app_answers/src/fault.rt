//! Why a call is not answered with values.

ghost use Rattle.std.specs.Prelude.{◌≡◌};
ghost use Rattle.atspi_app_answers.specs.inner.Faults.{or_fault};

use atspi_base::NoMemory;
use atspi_protocol::ends::CallError;
use atspi_types::Values;
use thiserror::Error;

/// Why a call is not answered with values.
#[derive(Clone, Copy, Debug, PartialEq, Eq, Error)]
pub enum AnswerFault {
    /// The object has no such member or property.
    #[error("the call is refused")]
    Refused(CallError),
    #[error("out of memory")]
    NoMemory,
}

/// Values, or want of memory as such a fault.
pub(crate) fn or_fault(values: Result<Values, NoMemory>) -> Result<Values, AnswerFault>
    ensures { result ≡ or_fault values }
{
    match values {
        Ok(values) => Ok(values),
        Err(NoMemory) => Err(AnswerFault::NoMemory),
    }
}
