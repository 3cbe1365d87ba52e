//! The end of a name.

ghost use Rattle.std.specs.Prelude.{◌≡◌, [], bytes_eq, chars};
ghost use Rattle.std.specs.Option.{option_map};
ghost use Rattle.atspi_marshal_in_place.specs.Items.{fields_data};
ghost use Rattle.atspi_message_in_place.specs.View.{envelope_at};
ghost use Rattle.atspi_protocol.specs.following.Known as known;
ghost use Rattle.atspi_reader_told.specs.inner.Ended.{ended_in};

use crate::sender::is_word;
use atspi_marshal_in_place::Fields;
use atspi_message_in_place::MessageRef;
use atspi_reader_news::next_text;

/// The name of the bus and of its interface.
const BUS: &str = "org.freedesktop.DBus";

/// Whether nobody is the new owner.
fn is_nobody(owner: &str) -> bool
    ensures { result ≡ bytes_eq (chars owner.now) [] }
{
    owner.is_empty()
}

/// The name in the arguments of NameOwnerChanged, where the new owner is nobody.
fn name_in<'a>(body: Fields<'a>) -> Option<&'a str>
    ensures { option_map (λ name. chars name.now) result ≡ ended_in (fields_data body.entry) }
{
    let mut values = body;
    let name = next_text(&mut values)?;
    let _before = next_text(&mut values)?;
    let owner = next_text(&mut values)?;
    if !is_nobody(owner) {
        return None;
    }
    match values.next() {
        None => Some(name),
        Some(_more) => None,
    }
}

/// The same, as a whole.
fn ended_in<'a>(body: Fields<'a>) -> Option<&'a str>
    ensures { option_map (λ name. chars name.now) result ≡ known.ended_name (fields_data body.entry) }
{
    name_in(body)
}

/// The name whose end the bus tells in a message (D-Bus Specification, NameOwnerChanged): its new owner is nobody.
pub fn ended_name<'a>(m: &MessageRef<'a>) -> Option<&'a str>
    ensures { option_map (λ name. chars name.now) result ≡ known.told_end (envelope_at m.now) }
{
    if m.kind != 4 || !is_word(m.sender, BUS) {
        return None;
    }
    if !is_word(m.interface, BUS) || !is_word(m.member, "NameOwnerChanged") {
        return None;
    }
    ended_in(m.body)
}
