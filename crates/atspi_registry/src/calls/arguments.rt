//! The arguments of a call, read where they lie.

ghost use Rattle.std.specs.Prelude.{◌≡◌, ◌<◌, ◌^◌, Some, IfSome, chars, length};
ghost use Rattle.atspi_base.specs.Text.{HasNoZero};
ghost use Rattle.atspi_base.specs.valid_names.Names.{IsPath};
ghost use Rattle.atspi_marshal_in_place.specs.Items.{item_data, fields_data};
ghost use Rattle.atspi_protocol.specs.members.Arguments.{characters_in, signed_in, text_at, signed_at};
ghost use Rattle.atspi_registry.specs.calls.inner.Arguments.{reference_of, lent_references};

use atspi_marshal_in_place::{Fields, Item};

/// The text, and an empty one for another value.
fn text_of<'a>(item: Item<'a>) -> &'a str
    ensures text { chars result.now ≡ characters_in (Some (item_data item.entry)) }
    ensures no_zero { HasNoZero result.now }
    ensures counted { length result.now < 2 ^ 32 }
{
    if let Some(text) = item.text() {
        return text;
    }
    ""
}

/// The signed number, and 0 for another value.
fn signed_of(item: Item) -> i32
    ensures { result ≡ signed_in (Some (item_data item.entry)) }
{
    if let Some(number) = item.i32() {
        return number;
    }
    0
}

/// The first argument where it is a text, and an empty one else.
pub fn first_text<'a>(args: Fields<'a>) -> &'a str
    ensures text { chars result.now ≡ text_at 0 (fields_data args.entry) }
    ensures no_zero { HasNoZero result.now }
    ensures counted { length result.now < 2 ^ 32 }
{
    let mut rest = args;
    match rest.next() {
        Some(first) => text_of(first),
        None => "",
    }
}

/// The second argument where it is a text, and an empty one else.
pub fn second_text<'a>(args: Fields<'a>) -> &'a str
    ensures { chars result.now ≡ text_at 1 (fields_data args.entry) }
{
    let mut rest = args;
    match rest.next() {
        Some(_) => first_text(rest),
        None => "",
    }
}

/// The first argument where it is a signed number, and 0 else.
pub fn first_signed(args: Fields) -> i32
    ensures { result ≡ signed_at 0 (fields_data args.entry) }
{
    let mut rest = args;
    match rest.next() {
        Some(first) => signed_of(first),
        None => 0,
    }
}

/// The first argument where it is a reference: its bus name and its path.
pub fn first_reference<'a>(args: Fields<'a>) -> Option<(&'a str, &'a str)>
    ensures reference { lent_references result ≡ reference_of (fields_data args.entry) }
    ensures path { IfSome result (λ r. IsPath r.1.now) }
{
    let mut rest = args;
    let mut fields = rest.next()?.fields()?;
    let name = fields.next()?.text()?;
    let path = fields.next()?.path()?;
    match fields.next() {
        Some(_) => None,
        None => Some((name, path)),
    }
}
