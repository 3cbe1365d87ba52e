//! What Hello returns.

ghost use Rattle.std.specs.Prelude.{◌≡◌, ◌==◌, ◌&&◌, chars};
ghost use Rattle.std.specs.Option.{option_map};
ghost use Rattle.atspi_marshal_in_place.specs.Items.{fields_data};
ghost use Rattle.atspi_message_in_place.specs.View.{envelope_at};
ghost use Rattle.atspi_base.specs.valid_names.Names as names;
ghost use Rattle.atspi_base.specs.valid_names.Names.{is_unique_name};
ghost use Rattle.atspi_protocol.specs.following.Replied as replied;
ghost use Rattle.atspi_reader_told.specs.inner.Alone as alone;

use atspi_base::valid_names::is_bus_name;
use atspi_marshal_in_place::Fields;
use atspi_message_in_place::MessageRef;
use atspi_reader_news::next_text;

/// Whether a text begins as unique names do.
fn begins_unique(name: &str) -> bool
    ensures { result ≡ is_unique_name name.now }
{
    name.as_bytes().first() == Some(&b':')
}

/// Whether a text is a unique name.
fn is_unique(name: &str) -> bool
    ensures { result ≡ (names.is_bus_name (chars name.now) && is_unique_name (chars name.now)) }
{
    is_bus_name(name.as_bytes()) && begins_unique(name)
}

/// The text that a body is, if it is one text alone.
fn text_alone<'a>(body: Fields<'a>) -> Option<&'a str>
    ensures { option_map (λ text. chars text.now) result ≡ alone.text_alone (fields_data body.entry) }
{
    let mut rest = body;
    let text = next_text(&mut rest)?;
    match rest.next() {
        None => Some(text),
        Some(_more) => None,
    }
}

/// Whether a body is a unique name alone.
fn is_unique_alone(body: Fields) -> bool
    ensures { result ≡ replied.is_unique_name_alone (fields_data body.entry) }
{
    match text_alone(body) {
        Some(name) => is_unique(name),
        None => false,
    }
}

/// Whether a message returns a unique name alone, as Hello of the bus does.
pub fn returns_name(m: &MessageRef) -> bool
    ensures { result ≡ ((envelope_at m.now).kind == 2 && replied.is_unique_name_alone (envelope_at m.now).body) }
{
    m.kind == 2 && is_unique_alone(m.body)
}
