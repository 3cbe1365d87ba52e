//! Reading messages where they lie.

ghost use Rattle.std.specs.Prelude.{◌≡◌, ◌<◌, ◌≤◌, ℕ, List, Err, length, take, drop, IfOk, IfErr, IsOkAnd, IsErrOf};
ghost use Rattle.std.specs.Prelude.{if◌then◌else◌};
ghost use Rattle.atspi_types.specs.Kinds.{kinds_of};
ghost use Rattle.atspi_marshal_in_place.specs.codes.TyRefs.{refs_kinds};
ghost use Rattle.atspi_marshal.specs.Input.{PlacesFit};
ghost use Rattle.atspi_marshal_in_place.specs.Items.{fields_data};
ghost use Rattle.atspi_message.specs.Envelope.{Envelope};
ghost use Rattle.atspi_message.specs.Bytes.{IsMessage};
ghost use Rattle.atspi_message.specs.Front.{order_by, type_in, fields_end_in, body_place_in, length_in, IsSoundFront};
ghost use Rattle.atspi_message.specs.Faults.{FirstFault};
ghost use Rattle.atspi_message.specs.inner.Reading.{has_required, rest_at, values_at, missing_at};
ghost use Rattle.atspi_message_in_place.specs.View.{found_in, envelope_at, Reads};
ghost use Rattle.atspi_message_in_place.specs.inner.Parsing.{IsReadOrTold};

use crate::header::Header;
use crate::message::MessageRef;
use atspi_marshal::{Bound, Marshalled, u32_at};
use atspi_marshal_in_place::codes::TysRef;
use atspi_marshal_in_place::{Fields, fault, padding};
use atspi_types::{Fault, Order};

/// The order of the bytes that the first of them tells.
#[inline(always)]
fn order_of(first: u8) -> Order
    ensures { result ≡ order_by first }
{
    if first == b'B' {
        Order::Big
    } else {
        Order::Little
    }
}

/// The values of a body of these types that begins at a place. Nothing is left behind them.
#[inline(always)]
fn values<'a>(bytes: &'a [u8], types: TysRef<'a>, place: usize) -> Result<Fields<'a>, Fault>
    requires { (0 < length bytes.now) × (place ≤ length bytes.now) × (length bytes.now ≤ 134217728) }
    ensures { Reads fields_data result (values_at bytes.now (kinds_of (refs_kinds types.entry)) place) }
{
    if types.is_empty() && place < bytes.len() {
        return Err(fault(place, 35));
    }
    let (body, next) = Fields::read(order_of(bytes[0]), bytes, place, types)?;
    if next < bytes.len() {
        return Err(fault(next, 21));
    }
    Ok(body)
}

/// Where the fields end.
#[inline(always)]
fn fields_end(bytes: &[u8]) -> usize
    requires { (16 ≤ length bytes.now) × PlacesFit bytes.now }
    ensures { result ≡ fields_end_in bytes.now }
{
    let input = Marshalled {
        order: order_of(bytes[0]),
        bytes,
    };
    16 + u32_at(&input, 12) as usize
}

/// The body, behind its padding.
#[tactic(auto, unfolding(atspi_message::specs::inner::Reading::rest_at))]
#[inline(always)]
fn rest<'a>(bytes: &'a [u8], header: &Header<'a>) -> Result<Fields<'a>, Fault>
    requires { (16 ≤ length bytes.now) × (fields_end_in bytes.now ≤ length bytes.now) × (length bytes.now ≤ 134217728) }
    ensures { Reads fields_data result (rest_at bytes.now (found_in header.now)) }
{
    let end = fields_end(bytes);
    let input = Marshalled {
        order: order_of(bytes[0]),
        bytes,
    };
    let bound = Bound {
        end: bytes.len(),
        reason: 19,
    };
    let place = padding(&input, 8, bound, end)?;
    values(bytes, header.types(), place)
}

/// What is told where a required field is missing: what the padding or the body tells at the end of the fields for a
/// lesser reason, or that.
#[cold]
fn missing<'a>(bytes: &'a [u8], header: &Header<'a>) -> Fault
    requires { (16 ≤ length bytes.now) × (fields_end_in bytes.now ≤ length bytes.now) × (length bytes.now ≤ 134217728) }
    ensures { missing_at (fields_end_in bytes.now) (rest_at bytes.now (found_in header.now)) ≡ Err result }
{
    let end = fields_end(bytes);
    match rest(bytes, header) {
        Err(wrong) => {
            if wrong.place as usize == end && wrong.reason < 34 {
                return wrong;
            }
            fault(end, 34)
        }
        Ok(_) => fault(end, 34),
    }
}

/// The body of a message with these fields.
#[inline(always)]
fn body<'a>(bytes: &'a [u8], header: &Header<'a>) -> Result<Fields<'a>, Fault>
    requires { (16 ≤ length bytes.now) × (fields_end_in bytes.now ≤ length bytes.now) × (length bytes.now ≤ 134217728) }
    ensures { Reads fields_data result
        (if has_required (type_in bytes.now) (found_in header.now) then rest_at bytes.now (found_in header.now)
        else missing_at (fields_end_in bytes.now) (rest_at bytes.now (found_in header.now))) }
{
    if header.has_required(bytes[1]) {
        rest(bytes, header)
    } else {
        Err(missing(bytes, header))
    }
}

/// The bytes of the body, behind its padding.
#[inline(always)]
fn body_bytes(bytes: &[u8]) -> &[u8]
    requires { (16 ≤ length bytes.now) × (body_place_in bytes.now ≤ length bytes.now) × (length bytes.now ≤ 134217728) }
    ensures { result.now ≡ drop (body_place_in bytes.now) bytes.now }
{
    let end = fields_end(bytes);
    let place = end + (8 - end % 8) % 8;
    &bytes[place..]
}

/// The message that the bytes are.
#[tactic(auto, unfolding(atspi_message::specs::inner::Reading::message_at, atspi_message::specs::inner::Reading::ended_at))]
#[inline(always)]
fn read<'a>(bytes: &'a [u8]) -> Result<MessageRef<'a>, Fault>
    requires length { length_in (take 16 bytes.now) ≡ length bytes.now }
    requires sound { IsSoundFront (take 16 bytes.now) }
    ensures { IsReadOrTold result bytes.now }
{
    let input = Marshalled {
        order: order_of(bytes[0]),
        bytes,
    };
    let bound = Bound {
        end: fields_end(bytes),
        reason: 18,
    };
    let header = Header::read_all(&input, bound)?;
    let body = body(bytes, &header)?;
    Ok(MessageRef {
        order: order_of(bytes[0]),
        kind: bytes[1],
        flags: bytes[2],
        serial: u32_at(&input, 8),
        path: header.path,
        interface: header.interface,
        member: header.member,
        error: header.error,
        reply: header.reply,
        destination: header.destination,
        sender: header.sender,
        body,
        body_bytes: body_bytes(bytes),
    })
}

impl<'a> MessageRef<'a> {
    /// The message that the bytes are, where it lies: no memory is taken. They are as long as their first 16 state,
    /// which have no fault (`atspi_message::total`). Refused with the first fault, of the reasons 2 to 21 and 28 to 35.
    #[inline(always)]
    pub fn parse(bytes: &'a [u8]) -> Result<MessageRef<'a>, Fault>
        requires length { length_in (take 16 bytes.now) ≡ length bytes.now }
        requires sound { IsSoundFront (take 16 bytes.now) }
        // What is read is a message with these bytes.
        ensures found { IfOk result (λ message. IsMessage (envelope_at message) bytes.now) }
        // A message with these bytes is read.
        ensures only { (e : Envelope) → IsMessage e bytes.now → IsOkAnd result (λ message. envelope_at message ≡ e) }
        // Of all that is wrong the least is told.
        ensures first { IfErr result (λ fault. FirstFault bytes.now fault.place fault.reason) }
        // Where a fault is the first one it is told.
        ensures told { (place reason : ℕ) → FirstFault bytes.now place reason
            → IsErrOf result (record { place = place; reason = reason }) }
    {
        read(bytes)
    }
}
