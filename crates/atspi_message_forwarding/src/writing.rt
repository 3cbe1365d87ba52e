//! Writing a message that lies in bytes.

ghost use Rattle.std.specs.Prelude.{◌≡◌, ◌<◌, ◌≤◌, ◌^◌, ◌%◌, ◌++◌, [], length, take, IfOk, IfSome, OnOk, IsErrOf};
ghost use Rattle.atspi_types.specs.Data.{items_of, AreWellTyped};
ghost use Rattle.atspi_marshal.specs.Spelling.{spellings};
ghost use Rattle.atspi_marshal.specs.Writing.{Writes};
ghost use Rattle.atspi_message.specs.Bytes.{FitsWire, IsMessage, order_byte, rising_fields, written};
ghost use Rattle.atspi_message.specs.Rules.{MeetsRules};
ghost use Rattle.atspi_message.specs.inner.Writing.{start_bytes, fields_bytes, HeaderFits, HasWidths};
ghost use Rattle.atspi_message_in_place.specs.View.{envelope_at};

use crate::fields::put_fields;
use atspi_base::{Bytes, NoMemory};
use atspi_marshal::{
    WriteFault, append_u32, begin_array, end_array, put_padded, put_padding, set_u32,
};
use atspi_message_in_place::MessageRef;
use atspi_types::Order;
use std::alloc::Global;

/// What a header takes beside its names, where the types of the body are few: what stands before the fields, what each
/// field has beside its name, and padding.
const BESIDE_NAMES: usize = 192;

/// The byte that tells the order of the others.
fn order_byte(order: Order) -> u8
    ensures { result ≡ order_byte order }
{
    match order {
        Order::Little => b'l',
        Order::Big => b'B',
    }
}

/// How many bytes the message takes, about: seldom fewer than it does.
fn room(m: &MessageRef) -> usize {
    let names = [
        m.path,
        m.interface,
        m.member,
        m.error,
        m.destination,
        m.sender,
    ];
    let mut room = m.body_bytes.len().saturating_add(BESIDE_NAMES);
    for name in &names {
        if let Some(text) = name {
            room = room.saturating_add(text.len());
        }
    }
    room
}

/// No bytes, with room for some.
fn with_room(alloc: Global, room: usize) -> Result<Bytes, NoMemory>
    ensures { IfOk result (λ bytes. bytes ≡ []) }
{
    Ok(Bytes::from_vec(Vec::with_capacity(alloc, room)?))
}

/// The first twelve bytes of a header. The length of the body is 0 so far.
fn put_start(m: &MessageRef, out: &mut Bytes) -> Result<(), NoMemory>
    ensures ok { OnOk result (out.new ≡ out.old ++ start_bytes (envelope_at m.now)) }
    ensures front { take (length out.old) out.new ≡ out.old }
    ensures widths { HasWidths (envelope_at m.now) }
{
    let (kind, flags, serial) = (m.kind, m.flags, m.serial);
    let order = m.order;
    out.extend(&[order_byte(order), kind, flags, 1, 0, 0, 0, 0])?;
    append_u32(order, serial, out)
}

/// A header. The length of the body is 0 so far. The place behind the fields.
fn put_header(m: &MessageRef, out: &mut Bytes) -> Result<usize, WriteFault>
    requires { AreWellTyped (items_of (envelope_at m.now).body) }
    ensures writes { let e = envelope_at m.now in
        Writes (HeaderFits e) (start_bytes e ++ fields_bytes e) 0 out.old out.new result }
    ensures front { take (length out.old) out.new ≡ out.old }
    ensures widths { HasWidths (envelope_at m.now) }
{
    put_start(m, out)?;
    let index = out.len();
    let first = begin_array(8, 12, out)?;
    let next = put_fields(m, first, out)?;
    end_array(m.order, index, next - first, out)?;
    Ok(next)
}

/// The body, as it lies: how values are spelled depends on their place only modulo 8.
fn put_body(m: &MessageRef, place: usize, out: &mut Bytes) -> Result<usize, WriteFault>
    requires place { place ≤ 134217728 }
    requires even { place % 8 ≡ 0 }
    ensures writes { Writes (Unit {0}) (spellings m.now.order place (items_of (envelope_at m.now).body)) place out.old
        out.new result }
    ensures front { take (length out.old) out.new ≡ out.old }
{
    put_padded(1, place, m.body_bytes, out)
}

/// A message. After a refusal a front of it was appended.
fn put_message(m: &MessageRef, out: &mut Bytes) -> Result<(), WriteFault>
    requires { MeetsRules (envelope_at m.now) }
    ensures ok { OnOk result (out.new ≡ out.old ++ written (envelope_at m.now)) }
    ensures fits { OnOk result ∥ FitsWire (envelope_at m.now) (rising_fields (envelope_at m.now)) ∥₁ }
    ensures big { IsErrOf result WriteFault.Big → ¬ FitsWire (envelope_at m.now) (rising_fields (envelope_at m.now)) }
    ensures widths { HasWidths (envelope_at m.now) }
{
    let end = put_header(m, out)?;
    let index = out.len() - end + 4;
    let place = put_padding(8, end, 0, out)?;
    let next = put_body(m, place, out)?;
    set_u32(m.order, index, (next - place) as u32, out);
    Ok(())
}

/// A law: a serial is a number of 32 bits.
fn is_in_width(serial: u32)
    ensures { serial < 2 ^ 32 }
{
    let _ = serial;
}

/// A law: the serial that a message replies to is one.
fn replies_to_serial(m: &MessageRef)
    ensures { IfSome (envelope_at m.now).reply (λ n. n < 2 ^ 32) }
{
    if let Some(serial) = m.reply {
        is_in_width(serial);
    }
}

/// The written form of the message that lies in bytes (D-Bus Specification, "Message Format"), as `Message::write`
/// appends it for the same message, owned: the fields in rising order of their codes, each only where it is there,
/// SIGNATURE where the body is not empty, and UNIX_FDS never. No value is made: the body's bytes are copied as they
/// lie. `Big` where the fields pass 67,108,864 bytes or the message passes 134,217,728, as one that just fits may where
/// its sender is another; more than 67,108,864 bytes would then be written.
pub fn write_from(alloc: Global, m: &MessageRef) -> Result<Bytes, WriteFault>
    requires { MeetsRules (envelope_at m.now) }
    ensures bytes { IfOk result (λ bytes. bytes ≡ written (envelope_at m.now)) }
    // These bytes are a message, which is read as this one.
    ensures message { IfOk result (λ bytes. ∥ IsMessage (envelope_at m.now) bytes ∥₁) }
    ensures short { IfOk result (λ bytes. length bytes ≤ 134217728) }
    ensures big { IsErrOf result WriteFault.Big → ¬ FitsWire (envelope_at m.now) (rising_fields (envelope_at m.now)) }
    ensures long { IsErrOf result WriteFault.Big → 67108864 < length (written (envelope_at m.now)) }
{
    replies_to_serial(m);
    let mut out = with_room(alloc, room(m))?;
    match put_message(m, &mut out) {
        Ok(()) => Ok(out),
        Err(fault) => Err(fault),
    }
}
