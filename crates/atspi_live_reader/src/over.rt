//! How following applications was over.

use atspi_live_conversation::Ending;

/// How following applications was over.
#[derive(Clone, Copy, Debug, PartialEq, Eq)]
pub(crate) enum Over {
    Ended(Ending),
    /// The output failed.
    NotWritten,
}
