//! Writing the fields of a header.

ghost use Rattle.std.specs.Prelude.{◌≡◌, ◌≤◌, ◌+◌, ◌++◌, length, take, IfSome, OnOk};
ghost use Rattle.atspi_types.specs.Kinds.{number, text, path, u32};
ghost use Rattle.atspi_types.specs.Data.{number_data, text_data, path_data, items_of, AreWellTyped};
ghost use Rattle.atspi_types.specs.DataView.{all_data};
ghost use Rattle.atspi_base.specs.valid_names.Names.{IsPath, IsInterface, IsMember, IsBusName};
ghost use Rattle.atspi_types.specs.declared.fault.Order.{Order};
ghost use Rattle.atspi_marshal.specs.Input.{aligned};
ghost use Rattle.atspi_marshal.specs.Spelling.{counted};
ghost use Rattle.atspi_marshal.specs.Writing.{Writes};
ghost use Rattle.atspi_message.specs.Bytes.{field_if, signature_if, rising_fields};
ghost use Rattle.atspi_message.specs.Codes.{number_of};
ghost use Rattle.atspi_message.specs.Envelope.{envelope_of};
ghost use Rattle.atspi_message.specs.Rules.{HasNames};
ghost use Rattle.atspi_message.specs.inner.Writing.{field_front, later_fields, PutsFields};

use crate::code::{Code, number_of};
use crate::message::Message;
use atspi_base::Bytes;
use atspi_base::valid_names::{BusName, Interface, Member, Path};
use atspi_marshal::{WriteFault, put_counted, put_padded, put_types, put_u32};
use atspi_types::{Order, Values};

/// What a field begins with: its code, and the signature of its type, which is one letter.
fn put_code(at: usize, code: Code, letter: u8, out: &mut Bytes) -> Result<usize, WriteFault>
    requires { at ≤ 134217728 }
    ensures writes { Writes (Unit {0}) (field_front at (number_of code) letter) at out.old out.new result }
    ensures front { take (length out.old) out.new ≡ out.old }
{
    put_padded(8, at, &[number_of(code), 1, letter, 0], out)
}

/// A field whose value is a text or a path.
fn put_text(
    order: Order,
    at: usize,
    code: Code,
    letter: u8,
    bytes: &[u8],
    out: &mut Bytes,
) -> Result<usize, WriteFault>
    requires { at ≤ 134217728 }
    ensures writes { Writes (Unit {0})
        (field_front at (number_of code) letter ++ counted order (aligned 8 at + 4) bytes.now) at out.old out.new
        result }
    ensures front { take (length out.old) out.new ≡ out.old }
{
    let place = put_code(at, code, letter, out)?;
    put_counted(order, place, bytes, out)
}

fn put_path(
    order: Order,
    at: usize,
    name: &Option<Path>,
    out: &mut Bytes,
) -> Result<usize, WriteFault>
    requires { at ≤ 134217728 }
    ensures puts { PutsFields order at (field_if 1 path path_data name.now) out.old out.new result }
    ensures named { IfSome name.now IsPath }
{
    match name {
        Some(name) => put_text(order, at, Code::Path, b'o', name.as_str().as_bytes(), out),
        None => Ok(at),
    }
}

/// The name of an interface or of an error.
fn put_interface(
    order: Order,
    at: usize,
    code: Code,
    name: &Option<Interface>,
    out: &mut Bytes,
) -> Result<usize, WriteFault>
    requires { at ≤ 134217728 }
    ensures puts { PutsFields order at (field_if (number_of code) text text_data name.now) out.old out.new result }
    ensures named { IfSome name.now IsInterface }
{
    match name {
        Some(name) => put_text(order, at, code, b's', name.as_str().as_bytes(), out),
        None => Ok(at),
    }
}

fn put_member(
    order: Order,
    at: usize,
    name: &Option<Member>,
    out: &mut Bytes,
) -> Result<usize, WriteFault>
    requires { at ≤ 134217728 }
    ensures puts { PutsFields order at (field_if 3 text text_data name.now) out.old out.new result }
    ensures named { IfSome name.now IsMember }
{
    match name {
        Some(name) => put_text(order, at, Code::Member, b's', name.as_str().as_bytes(), out),
        None => Ok(at),
    }
}

/// The name of a destination or of a sender.
fn put_bus_name(
    order: Order,
    at: usize,
    code: Code,
    name: &Option<BusName>,
    out: &mut Bytes,
) -> Result<usize, WriteFault>
    requires { at ≤ 134217728 }
    ensures puts { PutsFields order at (field_if (number_of code) text text_data name.now) out.old out.new result }
    ensures named { IfSome name.now IsBusName }
{
    match name {
        Some(name) => put_text(order, at, code, b's', name.as_str().as_bytes(), out),
        None => Ok(at),
    }
}

fn put_reply(
    order: Order,
    at: usize,
    reply: Option<u32>,
    out: &mut Bytes,
) -> Result<usize, WriteFault>
    requires { at ≤ 134217728 }
    ensures { PutsFields order at (field_if 5 (number u32) (number_data u32) reply) out.old out.new result }
{
    match reply {
        Some(serial) => {
            let place = put_code(at, Code::Reply, b'u', out)?;
            put_u32(order, place, serial, out)
        }
        None => Ok(at),
    }
}

/// The types of a body that is not empty.
fn put_signature(at: usize, body: &Values, out: &mut Bytes) -> Result<usize, WriteFault>
    requires place { at ≤ 134217728 }
    requires typed { AreWellTyped (items_of (all_data body.now)) }
    ensures { (o : Order) → PutsFields o at (signature_if (all_data body.now)) out.old out.new result }
{
    if body.len() == 0 {
        return Ok(at);
    }
    let place = put_code(at, Code::Signature, b'g', out)?;
    put_types(place, body, out)
}

/// The fields from REPLY_SERIAL on.
fn put_later(message: &Message, at: usize, out: &mut Bytes) -> Result<usize, WriteFault>
    requires place { at ≤ 134217728 }
    requires typed { AreWellTyped (items_of (all_data message.now.body)) }
    ensures puts { PutsFields message.now.order at (later_fields (envelope_of message.now)) out.old out.new result }
    ensures named { OnOk result (IfSome message.now.destination IsBusName × IfSome message.now.sender IsBusName) }
{
    let order = message.order;
    let behind_reply = put_reply(order, at, message.reply, out)?;
    let behind_destination = put_bus_name(
        order,
        behind_reply,
        Code::Destination,
        &message.destination,
        out,
    )?;
    let behind_sender = put_bus_name(
        order,
        behind_destination,
        Code::Sender,
        &message.sender,
        out,
    )?;
    put_signature(behind_sender, &message.body, out)
}

/// The fields of a message in rising order of their codes.
pub fn put_fields(message: &Message, at: usize, out: &mut Bytes) -> Result<usize, WriteFault>
    requires place { at ≤ 134217728 }
    requires typed { AreWellTyped (items_of (all_data message.now.body)) }
    ensures puts { PutsFields message.now.order at (rising_fields (envelope_of message.now)) out.old out.new result }
    ensures named { OnOk result (HasNames (envelope_of message.now)) }
{
    let order = message.order;
    let behind_path = put_path(order, at, &message.path, out)?;
    let behind_interface = put_interface(
        order,
        behind_path,
        Code::Interface,
        &message.interface,
        out,
    )?;
    let behind_member = put_member(order, behind_interface, &message.member, out)?;
    let behind_error = put_interface(order, behind_member, Code::Error, &message.error, out)?;
    put_later(message, behind_error, out)
}
