//! The call that waits.

use atspi_protocol::following::Question;

/// A call of the reader's own that waits for its reply.
#[derive(Drop)]
pub(crate) struct Waiting {
    pub(crate) serial: u32,
    pub(crate) question: Question,
}
