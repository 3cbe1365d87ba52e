//! The arguments of a reader's calls.

ghost use Rattle.std.specs.Prelude.{◌≡◌, ◌≤◌, ◌<◌, ◌^◌, ◌∷◌, [], true, codes, length, IfOk};
ghost use Rattle.atspi_types.specs.Data.{text_data};
ghost use Rattle.atspi_types.specs.DataView.{data_of, all_data};
ghost use Rattle.atspi_protocol_messages.specs.Plain.{are_plain};
ghost use Rattle.atspi_protocol.specs.following.Calls.{int, minus_one, property};

use atspi_base::{NoMemory, Text};
use atspi_protocol_messages::word;
use atspi_types::{Value, Values};
use std::alloc::Global;

/// A place or an index, as a signed number.
pub(crate) fn number(n: u32) -> Value
    requires { n ≤ 2147483647 }
    ensures { data_of result ≡ int n }
{
    Value::I32(n as i32)
}

/// No argument.
pub(crate) fn nothing(alloc: Global) -> Values
    ensures { all_data result ≡ [] }
{
    Values::new(alloc)
}

/// One argument.
pub(crate) fn one(alloc: Global, value: Value) -> Result<Values, NoMemory>
    ensures { IfOk result (λ body. all_data body ≡ data_of value ∷ []) }
{
    let mut body = Values::new(alloc);
    body.push(value)?;
    Ok(body)
}

/// A text as the one argument.
pub(crate) fn text(alloc: Global, text: &Text) -> Result<Values, NoMemory>
    ensures { IfOk result (λ body. all_data body ≡ text_data text.now ∷ []) }
{
    one(alloc, Value::Text(text.copy(alloc)?))
}

/// Two numbers.
pub(crate) fn two(alloc: Global, first: u32, second: u32) -> Result<Values, NoMemory>
    requires first { first ≤ 2147483647 }
    requires second { second ≤ 2147483647 }
    ensures { IfOk result (λ body. all_data body ≡ int first ∷ (int second ∷ [])) }
{
    let mut body = Values::new(alloc);
    body.push(number(first))?;
    body.push(number(second))?;
    Ok(body)
}

/// All of a text: from 0 on, without an end.
pub(crate) fn whole(alloc: Global) -> Result<Values, NoMemory>
    ensures { IfOk result (λ body. all_data body ≡ int 0 ∷ (int minus_one ∷ [])) }
{
    let mut body = Values::new(alloc);
    body.push(Value::I32(0))?;
    body.push(Value::I32(-1))?;
    Ok(body)
}

/// A text at a place, with the count of its characters.
pub(crate) fn placed(alloc: Global, at: u32, text: &Text) -> Result<Values, NoMemory>
    requires at { at ≤ 2147483647 }
    requires short { length text.now ≤ 1048576 }
    ensures { IfOk result (λ body. all_data body ≡ int at ∷ (text_data text.now ∷ (int (length text.now) ∷ []))) }
{
    let count = text.count();
    let text = text.copy(alloc)?;
    let mut body = Values::new(alloc);
    body.push(number(at))?;
    body.push(Value::Text(text))?;
    body.push(number(count))?;
    Ok(body)
}

/// A property of an interface.
fn property_of(alloc: Global, of: &str, name: &str) -> Result<Values, NoMemory>
    requires of_plain { are_plain of.now ≡ true }
    requires of_short { length of.now < 2 ^ 32 }
    requires plain { are_plain name.now ≡ true }
    requires short { length name.now < 2 ^ 32 }
    ensures { IfOk result (λ body. all_data body ≡ property of.now name.now) }
{
    let of = word(alloc, of)?;
    let name = word(alloc, name)?;
    let mut body = Values::new(alloc);
    body.push(Value::Text(of))?;
    body.push(Value::Text(name))?;
    Ok(body)
}

/// The caret of an object of interface Text.
pub(crate) fn caret_property(alloc: Global) -> Result<Values, NoMemory>
    ensures { IfOk result (λ body. all_data body ≡ property (codes "org.a11y.atspi.Text") (codes "CaretOffset")) }
{
    property_of(alloc, "org.a11y.atspi.Text", "CaretOffset")
}

/// The count of columns of an object of interface Table.
pub(crate) fn columns_property(alloc: Global) -> Result<Values, NoMemory>
    ensures { IfOk result (λ body. all_data body ≡ property (codes "org.a11y.atspi.Table") (codes "NColumns")) }
{
    property_of(alloc, "org.a11y.atspi.Table", "NColumns")
}
