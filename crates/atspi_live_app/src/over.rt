//! How exporting a tree was over.

use crate::live_app::Stop;
use atspi_live_conversation::Ending;

/// How exporting a tree was over.
#[derive(Clone, Copy, Debug, PartialEq, Eq)]
pub(crate) enum Over {
    Ended(Ending),
    /// A line of the input was not done.
    Stopped(Stop),
}
