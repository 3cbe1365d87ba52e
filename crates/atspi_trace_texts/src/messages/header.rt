//! What the text of a message has of its header.

ghost use Rattle.std.specs.Prelude.{◌≡◌, [], ◌∷◌, ◌++◌, OnOk, codes, length, take};
ghost use Rattle.std.specs.List.{flat_map};
ghost use Rattle.atspi_message.specs.Envelope.{envelope_of};
ghost use Rattle.atspi_script.specs.MessageText.{field_words, fields_words, header_words, order_letter, reply_text};
ghost use Rattle.atspi_script.specs.MessageText.{type_word};
ghost use Rattle.atspi_script.specs.Spaced.{behind_space, spaced};

use atspi_base::valid_names::{BusName, Interface, Member, Path};
use atspi_base::{Bytes, NoMemory, put_decimal};
use atspi_message::Message;
use atspi_types::Order;

/// Appends the text of a message as far as its body.
pub fn put_header(message: &Message, out: &mut Bytes) -> Result<(), NoMemory>
    ensures ok { OnOk result (out.new ≡ out.old ++ spaced (header_words (envelope_of message.now))) }
    ensures front { take (length out.old) out.new ≡ out.old }
{
    put_front(message.kind, message.order, out)?;
    put_decimal(message.flags as u64, out)?;
    out.push(b' ')?;
    put_decimal(message.serial as u64, out)?;
    put_fields(message, out)?;
    Ok(())
}

/// Appends the word of a message's type and the letter of its byte order, each with a space behind it. Those that most
/// messages have are appended in one piece.
fn put_front(kind: u8, order: Order, out: &mut Bytes) -> Result<(), NoMemory>
    ensures ok { OnOk result (out.new ≡ out.old ++ (type_word kind ++ 32 ∷ order_letter order ∷ 32 ∷ [])) }
    ensures front { take (length out.old) out.new ≡ out.old }
{
    match (kind, order) {
        (1, Order::Little) => out.extend(b"call l "),
        (2, Order::Little) => out.extend(b"return l "),
        (3, Order::Little) => out.extend(b"error l "),
        (4, Order::Little) => out.extend(b"signal l "),
        _ => {
            put_type(kind, out)?;
            put_order(order, out)
        }
    }
}

/// Appends the word of a message's type.
fn put_type(kind: u8, out: &mut Bytes) -> Result<(), NoMemory>
    ensures ok { OnOk result (out.new ≡ out.old ++ type_word kind) }
    ensures front { take (length out.old) out.new ≡ out.old }
{
    match kind {
        1 => out.extend(b"call"),
        2 => out.extend(b"return"),
        3 => out.extend(b"error"),
        4 => out.extend(b"signal"),
        _ => {
            out.extend(b"type-")?;
            put_decimal(kind as u64, out)
        }
    }
}

/// Appends the letter of a byte order, between spaces.
fn put_order(order: Order, out: &mut Bytes) -> Result<(), NoMemory>
    ensures ok { OnOk result (out.new ≡ out.old ++ 32 ∷ order_letter order ∷ 32 ∷ []) }
    ensures front { take (length out.old) out.new ≡ out.old }
{
    match order {
        Order::Little => out.extend(b" l "),
        Order::Big => out.extend(b" B "),
    }
}

/// Appends the fields that are there, each behind a space.
fn put_fields(message: &Message, out: &mut Bytes) -> Result<(), NoMemory>
    ensures ok { OnOk result (out.new ≡ out.old ++ flat_map behind_space (fields_words (envelope_of message.now))) }
    ensures front { take (length out.old) out.new ≡ out.old }
{
    put_path(&message.path, out)?;
    put_interface(&message.interface, out)?;
    put_member(&message.member, out)?;
    put_error(&message.error, out)?;
    put_reply(message.reply, out)?;
    put_destination(&message.destination, out)?;
    put_sender(&message.sender, out)?;
    Ok(())
}

/// Appends the name of a field and its value.
fn put_field(name: &[u8], value: &str, out: &mut Bytes) -> Result<(), NoMemory>
    ensures ok { OnOk result (out.new ≡ out.old ++ (name.now ++ value.now)) }
    ensures front { take (length out.old) out.new ≡ out.old }
{
    out.extend(name)?;
    out.extend(value.as_bytes())
}

fn put_path(path: &Option<Path>, out: &mut Bytes) -> Result<(), NoMemory>
    ensures ok { OnOk result (out.new ≡ out.old ++ flat_map behind_space (field_words (codes "path") path.now)) }
    ensures front { take (length out.old) out.new ≡ out.old }
{
    match path {
        Some(path) => put_field(b" path=", path.as_str(), out),
        None => Ok(()),
    }
}

fn put_interface(interface: &Option<Interface>, out: &mut Bytes) -> Result<(), NoMemory>
    ensures ok { OnOk result
        (out.new ≡ out.old ++ flat_map behind_space (field_words (codes "interface") interface.now)) }
    ensures front { take (length out.old) out.new ≡ out.old }
{
    match interface {
        Some(interface) => put_field(b" interface=", interface.as_str(), out),
        None => Ok(()),
    }
}

fn put_member(member: &Option<Member>, out: &mut Bytes) -> Result<(), NoMemory>
    ensures ok { OnOk result (out.new ≡ out.old ++ flat_map behind_space (field_words (codes "member") member.now)) }
    ensures front { take (length out.old) out.new ≡ out.old }
{
    match member {
        Some(member) => put_field(b" member=", member.as_str(), out),
        None => Ok(()),
    }
}

fn put_error(error: &Option<Interface>, out: &mut Bytes) -> Result<(), NoMemory>
    ensures ok { OnOk result (out.new ≡ out.old ++ flat_map behind_space (field_words (codes "error") error.now)) }
    ensures front { take (length out.old) out.new ≡ out.old }
{
    match error {
        Some(error) => put_field(b" error=", error.as_str(), out),
        None => Ok(()),
    }
}

fn put_reply(reply: Option<u32>, out: &mut Bytes) -> Result<(), NoMemory>
    ensures ok { OnOk result
        (out.new ≡ out.old ++ flat_map behind_space (field_words (codes "reply") (reply_text reply))) }
    ensures front { take (length out.old) out.new ≡ out.old }
{
    match reply {
        Some(serial) => {
            out.extend(b" reply=")?;
            put_decimal(serial as u64, out)
        }
        None => Ok(()),
    }
}

fn put_destination(destination: &Option<BusName>, out: &mut Bytes) -> Result<(), NoMemory>
    ensures ok { OnOk result
        (out.new ≡ out.old ++ flat_map behind_space (field_words (codes "destination") destination.now)) }
    ensures front { take (length out.old) out.new ≡ out.old }
{
    match destination {
        Some(destination) => put_field(b" destination=", destination.as_str(), out),
        None => Ok(()),
    }
}

fn put_sender(sender: &Option<BusName>, out: &mut Bytes) -> Result<(), NoMemory>
    ensures ok { OnOk result (out.new ≡ out.old ++ flat_map behind_space (field_words (codes "sender") sender.now)) }
    ensures front { take (length out.old) out.new ≡ out.old }
{
    match sender {
        Some(sender) => put_field(b" sender=", sender.as_str(), out),
        None => Ok(()),
    }
}
