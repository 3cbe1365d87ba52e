//! The name that Hello returns.

ghost use Rattle.std.specs.Prelude.{◌≡◌, ◌<◌, ◌^◌, ◌&&◌, IfSome, chars, length};
ghost use Rattle.atspi_base.specs.Text.{HasNoZero};
ghost use Rattle.atspi_base.specs.valid_names.Names.{is_bus_name, is_unique_name};
ghost use Rattle.atspi_marshal_in_place.specs.Items.{fields_data};
ghost use Rattle.atspi_protocol.specs.exporting.Starting.{unique_name_in};
ghost use Rattle.atspi_app_known.specs.starting.inner.Lent.{chars_or_none};

use atspi_base::valid_names::is_bus_name;
use atspi_marshal_in_place::Fields;

/// Whether the first byte is a colon.
fn has_colon(bytes: &[u8]) -> bool
    ensures { result ≡ is_unique_name bytes.now }
{
    bytes.first() == Some(&b':')
}

/// Whether the text is a unique bus name.
fn is_unique(text: &str) -> bool
    ensures { result ≡ (is_unique_name (chars text.now) && is_bus_name (chars text.now)) }
{
    let bytes = text.as_bytes();
    if is_bus_name(bytes) {
        return has_colon(bytes);
    }
    false
}

/// The unique name that the values are, if they are one text that is one (D-Bus Specification, "Message Bus Messages":
/// Hello).
pub(crate) fn unique_name<'a>(values: Fields<'a>) -> Option<&'a str>
    ensures name { chars_or_none result ≡ unique_name_in (fields_data values.entry) }
    ensures no_zero { IfSome result (λ name. HasNoZero name.now) }
    ensures counted { IfSome result (λ name. length name.now < 2 ^ 32) }
{
    let mut rest = values;
    let text = rest.next()?.text()?;
    match rest.next() {
        Some(_) => None,
        None => {
            if is_unique(text) {
                return Some(text);
            }
            None
        }
    }
}
