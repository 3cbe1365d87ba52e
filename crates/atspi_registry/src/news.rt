//! What the registry hears that is no call.

ghost use Rattle.std.specs.Prelude.{◌≡◌, ◌==◌, ◌<◌, ◌^◌, ◌↔◌, [], IfSome, IsTrue, chars, length};
ghost use Rattle.atspi_base.specs.Text.{HasNoZero};
ghost use Rattle.atspi_marshal_in_place.specs.Items.{fields_data};
ghost use Rattle.atspi_message_in_place.specs.View.{bytes_of, envelope_at};
ghost use Rattle.atspi_protocol.specs.members.Asked as asked;
ghost use Rattle.atspi_protocol.specs.registering.Steps as steps;
ghost use Rattle.atspi_registry.specs.inner.Heard as heard;
ghost use Rattle.atspi_registry.specs.inner.Heard.{lent_text, TextComes};

use atspi_marshal_in_place::Fields;
use atspi_message_in_place::MessageRef;

/// The name of the bus and of its interface.
const BUS: &str = "org.freedesktop.DBus";

/// Whether a field is there and is the text.
fn is_text(field: Option<&str>, text: &str) -> bool
    ensures { result ≡ asked.is_text (bytes_of field.entry) text.now }
{
    match field {
        Some(field) => field == text,
        None => false,
    }
}

/// Whether a message replies to the call with this number.
fn is_reply_to(hello: Option<u32>, reply: Option<u32>) -> bool
    ensures { result ≡ steps.is_reply_to hello reply }
{
    match hello {
        None => false,
        Some(call) => match reply {
            None => false,
            Some(serial) => call == serial,
        },
    }
}

/// Whether the message is a call.
pub fn is_call(m: &MessageRef) -> bool
    ensures { result ≡ ((envelope_at m.now).kind == 1) }
{
    m.kind == 1
}

/// Whether the message is a return to the call with this number.
fn is_return(hello: Option<u32>, m: &MessageRef) -> bool
    ensures { result ≡ heard.is_return hello (envelope_at m.now) }
{
    m.kind == 2 && is_reply_to(hello, m.reply)
}

/// Whether the message is the bus's news of a name's owners.
fn is_owner_news(m: &MessageRef) -> bool
    ensures { result ≡ heard.is_owner_news (envelope_at m.now) }
{
    m.kind == 4
        && (is_text(m.sender, BUS)
            && (is_text(m.interface, BUS) && is_text(m.member, "NameOwnerChanged")))
}

/// The next value where it is a text.
fn next_text<'a>(values: &mut Fields<'a>) -> Option<&'a str>
    ensures comes { TextComes result (fields_data values.old) (fields_data values.new) }
    ensures no_zero { IfSome result (λ s. HasNoZero s.now) }
    ensures counted { IfSome result (λ s. length s.now < 2 ^ 32) }
{
    match values.next() {
        None => None,
        Some(item) => match item.text() {
            None => None,
            Some(text) => Some(text),
        },
    }
}

/// Whether a text has no character.
fn is_nobody(text: &str) -> bool
    ensures { IsTrue result ↔ (chars text.now ≡ []) }
{
    text.is_empty()
}

/// The registry's unique name, where the message is a return to its Hello, whoever sent it.
pub fn name_told<'a>(hello: Option<u32>, m: &MessageRef<'a>) -> Option<&'a str>
    ensures name { lent_text result ≡ steps.name_told hello (envelope_at m.now) }
    ensures no_zero { IfSome result (λ name. HasNoZero name.now) }
    ensures counted { IfSome result (λ name. length name.now < 2 ^ 32) }
{
    if !is_return(hello, m) {
        return None;
    }
    let mut values = m.body;
    next_text(&mut values)
}

/// The name that nobody owns any more, where the message is the bus's news of that.
pub fn name_gone<'a>(m: &MessageRef<'a>) -> Option<&'a str>
    ensures { lent_text result ≡ steps.name_gone (envelope_at m.now) }
{
    if !is_owner_news(m) {
        return None;
    }
    let mut values = m.body;
    let name = next_text(&mut values)?;
    let _before = next_text(&mut values)?;
    let after = next_text(&mut values)?;
    if !is_nobody(after) {
        return None;
    }
    match values.next() {
        Some(_) => None,
        None => Some(name),
    }
}
