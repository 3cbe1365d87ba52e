//! What is handed over of what a reader does.

use atspi_message::Message;

/// What a reader did last, for its link.
#[derive(Drop)]
pub(crate) enum Handed {
    Message(Message),
    /// Nothing for the link.
    Aside,
    /// All was handed over before.
    Nothing,
}
