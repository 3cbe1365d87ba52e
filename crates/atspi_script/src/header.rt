//! What the text of a message has of its header.

ghost use Rattle.std.specs.Prelude.{◌≡◌, [], ◌∷◌, ◌++◌, OnOk, codes, length, take};
ghost use Rattle.std.specs.List.{flat_map};
ghost use Rattle.atspi_message_in_place.specs.View.{bytes_of, envelope_at};
ghost use Rattle.atspi_script.specs.MessageText.{field_words, fields_words, header_words, labelled, order_letter};
ghost use Rattle.atspi_script.specs.MessageText.{reply_text, type_word};
ghost use Rattle.atspi_script.specs.Spaced.{behind_space, spaced};

use crate::numbers::put_number;
use atspi_base::{Bytes, NoMemory};
use atspi_message_in_place::MessageRef;
use atspi_types::Order;

/// Appends the text of a message as far as its body.
#[inline(always)]
pub fn put_header(message: &MessageRef, out: &mut Bytes) -> Result<(), NoMemory>
    ensures ok { OnOk result (out.new ≡ out.old ++ spaced (header_words (envelope_at message.now))) }
    ensures front { take (length out.old) out.new ≡ out.old }
{
    put_front(message.kind, message.order, out)?;
    put_number(message.flags as u64, out)?;
    out.push(b' ')?;
    put_number(message.serial as u64, out)?;
    put_fields(message, out)?;
    Ok(())
}

/// Appends the word of a message's type and the letter of its byte order, each with a space behind it. Those that most
/// messages have are appended in one piece.
#[inline(always)]
fn put_front(kind: u8, order: Order, out: &mut Bytes) -> Result<(), NoMemory>
    ensures ok { OnOk result (out.new ≡ out.old ++ (type_word kind ++ 32 ∷ order_letter order ∷ 32 ∷ [])) }
    ensures front { take (length out.old) out.new ≡ out.old }
{
    match (kind, order) {
        (1, Order::Little) => out.extend(b"call l "),
        (2, Order::Little) => out.extend(b"return l "),
        (3, Order::Little) => out.extend(b"error l "),
        (4, Order::Little) => out.extend(b"signal l "),
        _ => {
            put_type(kind, out)?;
            put_order(order, out)
        }
    }
}

/// Appends the word of a message's type.
fn put_type(kind: u8, out: &mut Bytes) -> Result<(), NoMemory>
    ensures ok { OnOk result (out.new ≡ out.old ++ type_word kind) }
    ensures front { take (length out.old) out.new ≡ out.old }
{
    match kind {
        1 => out.extend(b"call"),
        2 => out.extend(b"return"),
        3 => out.extend(b"error"),
        4 => out.extend(b"signal"),
        _ => {
            out.extend(b"type-")?;
            put_number(kind as u64, out)
        }
    }
}

/// Appends the letter of a byte order, between spaces.
fn put_order(order: Order, out: &mut Bytes) -> Result<(), NoMemory>
    ensures ok { OnOk result (out.new ≡ out.old ++ 32 ∷ order_letter order ∷ 32 ∷ []) }
    ensures front { take (length out.old) out.new ≡ out.old }
{
    match order {
        Order::Little => out.extend(b" l "),
        Order::Big => out.extend(b" B "),
    }
}

/// Appends the fields that are there, each behind a space.
#[inline(always)]
fn put_fields(message: &MessageRef, out: &mut Bytes) -> Result<(), NoMemory>
    ensures ok { OnOk result (out.new ≡ out.old ++ flat_map behind_space (fields_words (envelope_at message.now))) }
    ensures front { take (length out.old) out.new ≡ out.old }
{
    put_name(b" path=", message.path, out)?;
    put_name(b" interface=", message.interface, out)?;
    put_name(b" member=", message.member, out)?;
    put_name(b" error=", message.error, out)?;
    put_reply(message.reply, out)?;
    put_name(b" destination=", message.destination, out)?;
    put_name(b" sender=", message.sender, out)?;
    Ok(())
}

/// Appends a label and the name behind it, where there is one.
#[inline(always)]
fn put_name(label: &[u8], name: Option<&str>, out: &mut Bytes) -> Result<(), NoMemory>
    ensures ok { OnOk result (out.new ≡ out.old ++ labelled label.now (bytes_of name.entry)) }
    ensures front { take (length out.old) out.new ≡ out.old }
{
    let Some(name) = name else {
        return Ok(());
    };
    out.extend(label)?;
    out.extend(name.as_bytes())
}

/// Appends the serial that a message replies to, where there is one.
#[inline(always)]
fn put_reply(reply: Option<u32>, out: &mut Bytes) -> Result<(), NoMemory>
    ensures ok { OnOk result
        (out.new ≡ out.old ++ flat_map behind_space (field_words (codes "reply") (reply_text reply))) }
    ensures front { take (length out.old) out.new ≡ out.old }
{
    match reply {
        Some(serial) => {
            out.extend(b" reply=")?;
            put_number(serial as u64, out)
        }
        None => Ok(()),
    }
}
