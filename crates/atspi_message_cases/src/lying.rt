//! The message that bytes are.

use atspi_message::total;
use atspi_message_in_place::MessageRef;

/// The message that bytes are, where it lies.
pub fn lent<'a>(bytes: &'a [u8]) -> Option<MessageRef<'a>> {
    let length = total(bytes.first_chunk::<16>()?).ok()?;
    if length as usize != bytes.len() {
        return None;
    }
    MessageRef::parse(bytes).ok()
}
