//! The arguments of a call, read where they lie. Behind the last one, and where another type stands, they are empty
//! or 0.

ghost use Rattle.std.specs.Prelude.{◌≡◌, Some, chars};
ghost use Rattle.atspi_marshal_in_place.specs.Items.{item_data, fields_data};
ghost use Rattle.atspi_protocol.specs.members.Arguments.{characters_in, signed_in, text_at, signed_at, value_at};
ghost use Rattle.atspi_protocol.specs.members.Arguments.{value_in, unsigned_in, unsigned_at};
ghost use Rattle.atspi_app_calls.specs.reading.Arguments.{IsSigned};

use atspi_marshal_in_place::{Fields, Item};

/// The text, and an empty one for another value.
fn text_of<'a>(item: Item<'a>) -> &'a str
    ensures { chars result.now ≡ characters_in (Some (item_data item.entry)) }
{
    if let Some(text) = item.text() {
        return text;
    }
    ""
}

/// The signed number, and 0 for another value.
fn signed_of(item: Item) -> i32
    ensures { result ≡ signed_in (Some (item_data item.entry)) }
{
    if let Some(number) = item.i32() {
        return number;
    }
    0
}

/// The number without a sign, and 0 for another value.
fn unsigned_of(item: Item) -> u32
    ensures { result ≡ unsigned_in (Some (item_data item.entry)) }
{
    if let Some(number) = item.u32() {
        return number;
    }
    0
}

/// The first argument where it is a text, and an empty one else.
pub fn first_text<'a>(args: Fields<'a>) -> &'a str
    ensures { chars result.now ≡ text_at 0 (fields_data args.entry) }
{
    let mut rest = args;
    match rest.next() {
        Some(first) => text_of(first),
        None => "",
    }
}

/// The second argument where it is a text, and an empty one else.
pub fn second_text<'a>(args: Fields<'a>) -> &'a str
    ensures { chars result.now ≡ text_at 1 (fields_data args.entry) }
{
    let mut rest = args;
    match rest.next() {
        Some(_) => first_text(rest),
        None => "",
    }
}

/// The first argument where it is a signed number, and 0 else.
pub fn first_signed(args: Fields) -> i32
    ensures { result ≡ signed_at 0 (fields_data args.entry) }
{
    let mut rest = args;
    match rest.next() {
        Some(first) => signed_of(first),
        None => 0,
    }
}

/// The second argument where it is a signed number, and 0 else.
pub fn second_signed(args: Fields) -> i32
    ensures { result ≡ signed_at 1 (fields_data args.entry) }
{
    let mut rest = args;
    match rest.next() {
        Some(_) => first_signed(rest),
        None => 0,
    }
}

/// The first argument where it is a number without a sign, and 0 else.
fn first_unsigned(args: Fields) -> u32
    ensures { result ≡ unsigned_at 0 (fields_data args.entry) }
{
    let mut rest = args;
    match rest.next() {
        Some(first) => unsigned_of(first),
        None => 0,
    }
}

/// The second argument where it is a number without a sign, and 0 else.
pub fn second_unsigned(args: Fields) -> u32
    ensures { result ≡ unsigned_at 1 (fields_data args.entry) }
{
    let mut rest = args;
    match rest.next() {
        Some(_) => first_unsigned(rest),
        None => 0,
    }
}

/// The third argument where it is a signed number, and 0 else.
pub fn third_signed(args: Fields) -> i32
    ensures { result ≡ signed_at 2 (fields_data args.entry) }
{
    let mut rest = args;
    match rest.next() {
        Some(_) => second_signed(rest),
        None => 0,
    }
}

/// The number in a variant, if there is one, and it is signed.
fn set_signed_of(item: Item) -> Option<i32>
    ensures { IsSigned result (value_in (Some (item_data item.entry))) }
{
    let Some(inner) = item.variant() else {
        return None;
    };
    inner.i32()
}

/// The signed number in the variant that is the first argument.
fn first_set_signed(args: Fields) -> Option<i32>
    ensures { IsSigned result (value_at 0 (fields_data args.entry)) }
{
    let mut rest = args;
    match rest.next() {
        Some(first) => set_signed_of(first),
        None => None,
    }
}

/// The signed number in the variant that is the second argument.
fn second_set_signed(args: Fields) -> Option<i32>
    ensures { IsSigned result (value_at 1 (fields_data args.entry)) }
{
    let mut rest = args;
    match rest.next() {
        Some(_) => first_set_signed(rest),
        None => None,
    }
}

/// The signed number in the variant that is the third argument. None where that is no variant, or another value is in
/// it.
pub fn third_set_signed(args: Fields) -> Option<i32>
    ensures { IsSigned result (value_at 2 (fields_data args.entry)) }
{
    let mut rest = args;
    match rest.next() {
        Some(_) => second_set_signed(rest),
        None => None,
    }
}
