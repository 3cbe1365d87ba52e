//! Writing the fields of a header from names that lie in bytes.

ghost use Rattle.std.specs.Prelude.{◌≡◌, ◌<◌, ◌≤◌, ◌+◌, ◌++◌, length, take, IsTrue};
ghost use Rattle.atspi_types.specs.Kinds.{number, text, path, u32};
ghost use Rattle.atspi_types.specs.Data.{number_data, text_data, path_data, items_of, AreWellTyped};
ghost use Rattle.atspi_base.specs.valid_names.Names.{is_path};
ghost use Rattle.atspi_types.specs.declared.fault.Order.{Order};
ghost use Rattle.atspi_marshal.specs.Input.{aligned};
ghost use Rattle.atspi_marshal.specs.Spelling.{counted, counted_short};
ghost use Rattle.atspi_marshal.specs.Writing.{Writes};
ghost use Rattle.atspi_marshal_in_place.specs.Items.{fields_data};
ghost use Rattle.atspi_message.specs.Bytes.{field_if, signature_if, rising_fields};
ghost use Rattle.atspi_message.specs.Codes.{number_of};
ghost use Rattle.atspi_message.specs.inner.Reading.{is_name};
ghost use Rattle.atspi_message.specs.inner.Writing.{field_front, later_fields, PutsFields};
ghost use Rattle.atspi_message_in_place.specs.Names.{fits};
ghost use Rattle.atspi_message_in_place.specs.View.{bytes_of, envelope_at};
ghost use Rattle.atspi_message_forwarding.specs.inner.Fields.{code_for};

use crate::field::{NameField, number_of};
use atspi_base::Bytes;
use atspi_marshal::{WriteFault, put_counted, put_padded, put_u32};
use atspi_marshal_in_place::Fields;
use atspi_message_in_place::MessageRef;
use atspi_types::Order;

/// The bytes of a message, at most.
const MESSAGE: usize = 134_217_728;

/// What a field begins with: its code, and the signature of its type, which is one letter.
fn put_code(at: usize, code: u8, letter: u8, out: &mut Bytes) -> Result<usize, WriteFault>
    requires { at ≤ 134217728 }
    ensures writes { Writes (Unit {0}) (field_front at code letter) at out.old out.new result }
    ensures front { take (length out.old) out.new ≡ out.old }
{
    put_padded(8, at, &[code, 1, letter, 0], out)
}

/// A field whose value is a text or a path.
fn put_text(
    order: Order,
    at: usize,
    code: u8,
    letter: u8,
    bytes: &[u8],
    out: &mut Bytes,
) -> Result<usize, WriteFault>
    requires { at ≤ 134217728 }
    ensures writes { Writes (Unit {0}) (field_front at code letter ++ counted order (aligned 8 at + 4) bytes.now) at
        out.old out.new result }
    ensures front { take (length out.old) out.new ≡ out.old }
{
    let place = put_code(at, code, letter, out)?;
    put_counted(order, place, bytes, out)
}

fn put_path(
    order: Order,
    at: usize,
    name: Option<&str>,
    out: &mut Bytes,
) -> Result<usize, WriteFault>
    requires place { at ≤ 134217728 }
    requires named { IsTrue (fits is_path name) }
    ensures { PutsFields order at (field_if 1 path path_data (bytes_of name.entry)) out.old out.new result }
{
    match name {
        Some(text) => put_text(order, at, 1, b'o', text.as_bytes(), out),
        None => Ok(at),
    }
}

fn put_name(
    order: Order,
    at: usize,
    field: NameField,
    name: Option<&str>,
    out: &mut Bytes,
) -> Result<usize, WriteFault>
    requires place { at ≤ 134217728 }
    requires named { IsTrue (fits (is_name (code_for field)) name) }
    ensures { PutsFields order at (field_if (number_of (code_for field)) text text_data (bytes_of name.entry)) out.old
        out.new result }
{
    match name {
        Some(text) => put_text(order, at, number_of(field), b's', text.as_bytes(), out),
        None => Ok(at),
    }
}

fn put_reply(
    order: Order,
    at: usize,
    reply: Option<u32>,
    out: &mut Bytes,
) -> Result<usize, WriteFault>
    requires { at ≤ 134217728 }
    ensures { PutsFields order at (field_if 5 (number u32) (number_data u32) reply) out.old out.new result }
{
    match reply {
        Some(serial) => {
            let place = put_code(at, 5, b'u', out)?;
            put_u32(order, place, serial, out)
        }
        None => Ok(at),
    }
}

/// Bytes behind a count of 8 bits, and before a zero byte, as a signature is spelled.
fn put_short(at: usize, bytes: &[u8], out: &mut Bytes) -> Result<usize, WriteFault>
    requires place { at ≤ 134217728 }
    requires short { length bytes.now ≤ 255 }
    ensures writes { Writes (Unit {0}) (counted_short bytes.now) at out.old out.new result }
    ensures front { take (length out.old) out.new ≡ out.old }
{
    let next = at + 2 + bytes.len();
    if next > MESSAGE {
        return Err(WriteFault::Big);
    }
    out.push(bytes.len() as u8)?;
    out.extend(bytes)?;
    out.push(0)?;
    Ok(next)
}

/// The types of a body that is not empty.
fn put_signature(at: usize, body: Fields, out: &mut Bytes) -> Result<usize, WriteFault>
    requires place { at ≤ 134217728 }
    requires typed { AreWellTyped (items_of (fields_data body)) }
    ensures { (o : Order) → PutsFields o at (signature_if (fields_data body.entry)) out.old out.new result }
{
    let types = body.types();
    if types.is_empty() {
        return Ok(at);
    }
    let place = put_code(at, 8, b'g', out)?;
    put_short(place, types.codes(), out)
}

/// The fields from REPLY_SERIAL on.
#[tactic(auto, using(atspi_message_in_place::proofs::Names::each_named))]
fn put_later(m: &MessageRef, at: usize, out: &mut Bytes) -> Result<usize, WriteFault>
    requires place { at ≤ 134217728 }
    requires typed { AreWellTyped (items_of (envelope_at m.now).body) }
    ensures { PutsFields m.now.order at (later_fields (envelope_at m.now)) out.old out.new result }
{
    let order = m.order;
    let behind_reply = put_reply(order, at, m.reply, out)?;
    let behind_destination = put_name(
        order,
        behind_reply,
        NameField::Destination,
        m.destination,
        out,
    )?;
    let behind_sender = put_name(order, behind_destination, NameField::Sender, m.sender, out)?;
    put_signature(behind_sender, m.body, out)
}

/// The fields of a message in rising order of their codes.
#[tactic(auto, using(atspi_message_in_place::proofs::Names::each_named))]
pub fn put_fields(m: &MessageRef, at: usize, out: &mut Bytes) -> Result<usize, WriteFault>
    requires place { at ≤ 134217728 }
    requires typed { AreWellTyped (items_of (envelope_at m.now).body) }
    ensures { PutsFields m.now.order at (rising_fields (envelope_at m.now)) out.old out.new result }
{
    let order = m.order;
    let behind_path = put_path(order, at, m.path, out)?;
    let behind_interface = put_name(order, behind_path, NameField::Interface, m.interface, out)?;
    let behind_member = put_name(order, behind_interface, NameField::Member, m.member, out)?;
    let behind_error = put_name(order, behind_member, NameField::Error, m.error, out)?;
    put_later(m, behind_error, out)
}
