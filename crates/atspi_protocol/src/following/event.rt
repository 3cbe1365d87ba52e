//! What a reader gives to whoever holds it.

use atspi_base::Text;
use atspi_base::valid_names::BusName;
use atspi_message::Message;

/// What a reader does: it speaks, tells that an application has ended, or sends a message.
#[derive(Drop)]
pub enum ReaderEvent {
    /// A message of the reader's.
    Send(Message),
    /// A spoken line about the application with this name.
    Say(BusName, Text),
    /// The bus told that the connection with this unique name has ended.
    Gone(BusName),
}
