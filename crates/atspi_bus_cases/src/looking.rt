//! The message that bytes are.

ghost use Rattle.std.specs.Prelude.{IfSome};
ghost use Rattle.atspi_message.specs.Rules.{MeetsRules};
ghost use Rattle.atspi_message_in_place.specs.View.{envelope_at};

use atspi_message::total;
use atspi_message_in_place::MessageRef;

/// The message that the bytes are, where it lies.
pub fn lent<'a>(bytes: &'a [u8]) -> Option<MessageRef<'a>>
    ensures { IfSome result (λ m. MeetsRules (envelope_at m)) }
{
    let first = bytes.first_chunk::<16>()?;
    let length = total(first).ok()?;
    if length as usize != bytes.len() {
        return None;
    }
    MessageRef::parse(bytes).ok()
}
