//! How many bytes a message has, where nothing is written of it. Numbers of bytes are told up to 4,294,967,295: what
//! has more counts as that.

ghost use Rattle.std.specs.Prelude.{◌≡◌, ◌+◌, ℕ, length};
ghost use Rattle.atspi_marshal_in_place.specs.Items.{fields_data};
ghost use Rattle.atspi_message_in_place.specs.View.{bytes_of, envelope_at};
ghost use Rattle.atspi_marshal.specs.Input.{aligned};
ghost use Rattle.atspi_message.specs.Bytes.{written};
ghost use Rattle.atspi_message.specs.Length.{told};
ghost use Rattle.atspi_message.specs.inner.Ends.{name_end, number_end, types_end};

use atspi_marshal_in_place::Fields;
use atspi_message_in_place::MessageRef;

/// The place so many bytes behind another.
pub(crate) fn behind(at: u32, count: usize) -> u32
    ensures { (place : ℕ) → at ≡ told place → result ≡ told (place + count) }
{
    let left = u32::MAX - at;
    if count as u64 > u64::from(left) {
        u32::MAX
    } else {
        at + count as u32
    }
}

/// The first multiple of 8 from a place on.
pub(crate) fn at_eight(at: u32) -> u32
    ensures { (place : ℕ) → at ≡ told place → result ≡ told (aligned 8 place) }
{
    let over = (8 - at % 8) % 8;
    behind(at, over as usize)
}

/// The first multiple of 4 from a place on.
pub(crate) fn at_four(at: u32) -> u32
    ensures { (place : ℕ) → at ≡ told place → result ≡ told (aligned 4 place) }
{
    let over = (4 - at % 4) % 4;
    behind(at, over as usize)
}

/// Where the field of a name ends that begins behind a place.
pub(crate) fn name_end(at: u32, name: Option<&str>) -> u32
    ensures { (place : ℕ) → at ≡ told place → result ≡ told (name_end place (bytes_of name.entry)) }
{
    match name {
        Some(text) => behind(behind(at_eight(at), 9), text.len()),
        None => at,
    }
}

/// Where the field of a number ends.
pub(crate) fn number_end(at: u32, number: Option<u32>) -> u32
    ensures { (place : ℕ) → at ≡ told place → result ≡ told (number_end place number) }
{
    match number {
        Some(_) => behind(at_eight(at), 8),
        None => at,
    }
}

/// Where the field of the types of a body ends.
fn types_end(at: u32, body: Fields) -> u32
    ensures { (place : ℕ) → at ≡ told place → result ≡ told (types_end place (fields_data body.entry)) }
{
    let types = body.types();
    if types.is_empty() {
        return at;
    }
    behind(behind(at_eight(at), 6), types.codes().len())
}

/// How many bytes the written form of a message has, also where it is too long for the wire.
pub fn written_length(m: &MessageRef) -> u32
    ensures { result ≡ told (length (written (envelope_at m.now))) }
{
    let path = name_end(16, m.path);
    let interface = name_end(path, m.interface);
    let member = name_end(interface, m.member);
    let error = name_end(member, m.error);
    let reply = number_end(error, m.reply);
    let destination = name_end(reply, m.destination);
    let sender = name_end(destination, m.sender);
    let types = types_end(sender, m.body);
    behind(at_eight(types), m.body_bytes.len())
}
