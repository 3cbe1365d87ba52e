//! Reading messages.

ghost use Rattle.std.specs.Prelude.{◌≡◌, ◌<◌, ◌≤◌, ℕ, List, length, map, take, IfOk, if◌then◌else◌};
ghost use Rattle.atspi_types.specs.Kinds.{kinds_of};
ghost use Rattle.atspi_types.specs.KindView.{kind_of};
ghost use Rattle.atspi_types.specs.DataView.{all_data};
ghost use Rattle.atspi_marshal.specs.Input.{PlacesFit};
ghost use Rattle.atspi_marshal.specs.Reading.{Gives, Fails};
ghost use Rattle.atspi_message.specs.Envelope.{Envelope, envelope_of};
ghost use Rattle.atspi_message.specs.Bytes.{IsMessage};
ghost use Rattle.atspi_message.specs.Front.{type_in, fields_end_in, body_place_in, length_in, IsSoundFront};
ghost use Rattle.atspi_message.specs.Faults.{FirstFault};
ghost use Rattle.atspi_message.specs.inner.FieldsView.{found_of};
ghost use Rattle.atspi_message.specs.inner.Reading.{has_required, rest_at, some_values_at, values_at, missing_at};
ghost use Rattle.atspi_message.specs.Parsing.{Reads, TellsFirst, IsMessageOrNoMemory, IsFaultOrNoMemory};

use crate::fields::Fields;
use crate::front::order_of;
use crate::message::Message;
use atspi_marshal::{Bound, Marshalled, bad, fields_of, padding, u32_at};
use atspi_types::{ReadFault, Ty, Values};
use std::alloc::Global;

/// The values of one type or more that begin at a place. Nothing is left behind them.
fn some_values(alloc: Global, bytes: &[u8], types: &[Ty], place: usize) -> Result<Values, ReadFault>
    requires { (0 < length bytes.now) × (place ≤ length bytes.now) × PlacesFit bytes.now }
    ensures { Gives all_data result (some_values_at bytes.now (map kind_of types.now) place) }
{
    let end = bytes.len();
    let input = Marshalled {
        order: order_of(bytes[0]),
        bytes,
    };
    let (values, next) = fields_of(alloc, &input, 64, types, Bound { end, reason: 19 }, place)?;
    if next < end {
        return Err(bad(next, 21));
    }
    Ok(values)
}

/// The values of a body of these types that begins at a place.
fn values(alloc: Global, bytes: &[u8], types: &[Ty], place: usize) -> Result<Values, ReadFault>
    requires { (0 < length bytes.now) × (place ≤ length bytes.now) × PlacesFit bytes.now }
    ensures { Gives all_data result (values_at bytes.now (kinds_of (map kind_of types.now)) place) }
{
    if types.is_empty() {
        if place < bytes.len() {
            return Err(bad(place, 35));
        }
        return Ok(Values::new(alloc));
    }
    some_values(alloc, bytes, types, place)
}

/// Where the fields end.
fn fields_end(bytes: &[u8]) -> usize
    requires { (16 ≤ length bytes.now) × PlacesFit bytes.now }
    ensures { result ≡ fields_end_in bytes.now }
{
    let input = Marshalled {
        order: order_of(bytes[0]),
        bytes,
    };
    16 + u32_at(&input, 12) as usize
}

/// The body, behind its padding.
#[tactic(auto, unfolding(crate::specs::inner::Reading::rest_at))]
fn rest(alloc: Global, bytes: &[u8], fields: &Fields) -> Result<Values, ReadFault>
    requires { (16 ≤ length bytes.now) × (fields_end_in bytes.now ≤ length bytes.now) × PlacesFit bytes.now }
    ensures { Gives all_data result (rest_at bytes.now (found_of fields.now)) }
{
    let end = fields_end(bytes);
    let input = Marshalled {
        order: order_of(bytes[0]),
        bytes,
    };
    let bound = Bound {
        end: bytes.len(),
        reason: 19,
    };
    let place = padding(&input, 8, bound, end)?;
    match &fields.signature {
        Some(signature) => values(alloc, bytes, signature.types(), place),
        None => values(alloc, bytes, &[], place),
    }
}

/// What is told where a required field is missing: what the padding or the body tells at the end of the fields for a
/// lesser reason, or that.
fn missing(alloc: Global, bytes: &[u8], fields: &Fields) -> ReadFault
    requires { (16 ≤ length bytes.now) × (fields_end_in bytes.now ≤ length bytes.now) × PlacesFit bytes.now }
    ensures { Fails result (missing_at (fields_end_in bytes.now) (rest_at bytes.now (found_of fields.now))) }
{
    let end = fields_end(bytes);
    match rest(alloc, bytes, fields) {
        Err(ReadFault::NoMemory) => ReadFault::NoMemory,
        Err(ReadFault::Bad(fault)) => {
            if fault.place as usize == end && fault.reason < 34 {
                return ReadFault::Bad(fault);
            }
            bad(end, 34)
        }
        Ok(_) => bad(end, 34),
    }
}

/// The body of a message with these fields.
fn body(alloc: Global, bytes: &[u8], fields: &Fields) -> Result<Values, ReadFault>
    requires { (16 ≤ length bytes.now) × (fields_end_in bytes.now ≤ length bytes.now) × PlacesFit bytes.now }
    ensures { Gives all_data result
        (if has_required (type_in bytes.now) (found_of fields.now) then rest_at bytes.now (found_of fields.now)
        else missing_at (fields_end_in bytes.now) (rest_at bytes.now (found_of fields.now))) }
{
    if fields.has_required(bytes[1]) {
        rest(alloc, bytes, fields)
    } else {
        Err(missing(alloc, bytes, fields))
    }
}

/// The message that the bytes are.
#[tactic(auto, unfolding(crate::specs::inner::Reading::message_at, crate::specs::inner::Reading::ended_at))]
fn read(alloc: Global, bytes: &[u8]) -> Result<Message, ReadFault>
    requires { (16 ≤ length bytes.now) × (fields_end_in bytes.now ≤ length bytes.now) × PlacesFit bytes.now }
    ensures { Reads result bytes.now }
{
    let input = Marshalled {
        order: order_of(bytes[0]),
        bytes,
    };
    let bound = Bound {
        end: fields_end(bytes),
        reason: 18,
    };
    let fields = Fields::read_all(alloc, &input, bound)?;
    let body = body(alloc, bytes, &fields)?;
    Ok(Message {
        order: order_of(bytes[0]),
        kind: bytes[1],
        flags: bytes[2],
        serial: u32_at(&input, 8),
        path: fields.path,
        interface: fields.interface,
        member: fields.member,
        error: fields.error,
        reply: fields.reply,
        destination: fields.destination,
        sender: fields.sender,
        body,
    })
}

impl Message {
    /// The message that the bytes are. They are as long as their first 16 state, which have no fault (`total`). Refused
    /// as `Bad` with the first fault, of the reasons 2 to 21 and 28 to 35.
    pub fn parse(alloc: Global, bytes: &[u8]) -> Result<Message, ReadFault>
        requires length { length_in (take 16 bytes.now) ≡ length bytes.now }
        requires sound { IsSoundFront (take 16 bytes.now) }
        // What is read is a message with these bytes.
        ensures found { IfOk result (λ message. IsMessage (envelope_of message) bytes.now) }
        // A message with these bytes is read, unless memory runs out.
        ensures only { (e : Envelope) → IsMessage e bytes.now → IsMessageOrNoMemory result e }
        // Of all that is wrong the least is told.
        ensures first { TellsFirst result bytes.now }
        // Where a fault is the first one it is told, unless memory runs out.
        ensures told { (place reason : ℕ) → FirstFault bytes.now place reason → IsFaultOrNoMemory result place reason }
    {
        read(alloc, bytes)
    }
}
