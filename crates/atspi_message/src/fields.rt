//! The fields of a header.

ghost use Rattle.std.specs.Prelude.{◌≡◌, ◌<◌, ◌≤◌, ◌+◌, None, IfOk};
ghost use Rattle.std.specs.Int.{w32};
ghost use Rattle.atspi_types.specs.Kinds.{u32};
ghost use Rattle.atspi_types.specs.Data.{number_data};
ghost use Rattle.atspi_types.specs.SignatureReading.{signature_in};
ghost use Rattle.atspi_marshal.specs.Input.{byte_in, ReachTo};
ghost use Rattle.atspi_marshal.specs.Faults.{short_in};
ghost use Rattle.atspi_marshal.specs.Reading.{input_of, Gives, Fails, short_at, signature_body_at};
ghost use Rattle.atspi_message.specs.inner.Reading.{Found, none_found, slot, is_there, set_at, typed_body_at, typed_at};
ghost use Rattle.atspi_message.specs.inner.Reading.{other_type, reply_at, descriptors_at, known_at, coded_at, field_at};
ghost use Rattle.atspi_message.specs.inner.Reading.{all_fields_at, has_required};
ghost use Rattle.atspi_message.specs.inner.FieldsView.{found_of, signature_value};

use crate::code::{Code, code_of, letter_of};
use crate::name::{bus_name, interface, member, path};
use atspi_base::valid_names::{BusName, Interface, Member, Path};
use atspi_marshal::{Bound, Marshalled, bad, byte_at, room, short, signature_at, u32_at, value};
use atspi_types::{ReadFault, Signature, Ty, Value};
use std::alloc::Global;

/// The known fields of a header, as far as they were read.
#[derive(Drop)]
pub struct Fields {
    pub path: Option<Path>,
    pub interface: Option<Interface>,
    pub member: Option<Member>,
    pub error: Option<Interface>,
    pub reply: Option<u32>,
    pub destination: Option<BusName>,
    pub sender: Option<BusName>,
    pub signature: Option<Signature>,
    pub descriptors: bool,
}

/// The serial that a reply names, and the place behind it.
#[tactic(auto, unfolding(crate::specs::inner::Reading::reply_at))]
fn reply(input: &Marshalled, bound: Bound, at: usize) -> Result<(u32, usize), ReadFault>
    requires at { at ≤ bound.end }
    requires end { ReachTo input.now bound.end }
    ensures read { Gives (λ x. (number_data u32 x.0, x.1)) result (reply_at (input_of input.now) bound at) }
    ensures within { IfOk result (λ x. (at < x.1) × (x.1 ≤ bound.end)) }
{
    let place = room(input, 4, 4, bound, at)?;
    let serial = u32_at(input, place);
    if serial == 0 {
        return Err(bad(place, 32));
    }
    Ok((serial, place + 4))
}

/// The place behind a count of descriptors, which is 0.
#[tactic(auto, unfolding(crate::specs::inner::Reading::descriptors_at))]
fn descriptors(input: &Marshalled, bound: Bound, at: usize) -> Result<usize, ReadFault>
    requires at { at ≤ bound.end }
    requires end { ReachTo input.now bound.end }
    ensures read { Gives (λ next. (number_data u32 0, next)) result (descriptors_at (input_of input.now) bound at) }
    ensures within { IfOk result (λ next. (at < next) × (next ≤ bound.end)) }
{
    let place = room(input, 4, 4, bound, at)?;
    if u32_at(input, place) != 0 {
        return Err(bad(place, 33));
    }
    Ok(place + 4)
}

/// The signature whose length stands at a place, and the place behind it.
#[tactic(auto, unfolding(atspi_marshal::specs::Reading::signature_body_at))]
fn signature_body(
    alloc: Global,
    input: &Marshalled,
    place: usize,
) -> Result<(Signature, usize), ReadFault>
    requires { ReachTo input.now (place + 2 + byte_in (input_of input.now) place) }
    ensures read { Gives (λ x. (signature_value x.0, x.1)) result (signature_body_at (input_of input.now) place) }
    ensures within { IfOk result (λ x. x.1 ≡ place + 2 + byte_in (input_of input.now) place) }
{
    let start = place + 1;
    let end = start + byte_at(input, place) as usize;
    match signature_at(alloc, input, place) {
        Ok(signature) => {
            if byte_at(input, end) != 0 {
                return Err(bad(end, 12));
            }
            Ok((signature, end + 1))
        }
        Err(ReadFault::Bad(fault)) => Err(bad(start + fault.place as usize, fault.reason)),
        Err(ReadFault::NoMemory) => Err(ReadFault::NoMemory),
    }
}

/// A signature, and the place behind it.
#[tactic(auto, unfolding(atspi_marshal::specs::Reading::short_at))]
fn signature(
    alloc: Global,
    input: &Marshalled,
    bound: Bound,
    at: usize,
) -> Result<(Signature, usize), ReadFault>
    requires at { at ≤ bound.end }
    requires end { ReachTo input.now bound.end }
    ensures read { Gives (λ x. (signature_value x.0, x.1)) result
        (short_at (signature_body_at (input_of input.now)) (input_of input.now) bound at) }
    ensures within { IfOk result (λ x. (at < x.1) × (x.1 ≤ bound.end)) }
{
    let place = short(input, bound, at)?;
    signature_body(alloc, input, place)
}

/// What is wrong with the signature at a place, which is not the one of the field.
fn wrong_type(alloc: Global, input: &Marshalled, place: usize) -> ReadFault
    requires { ReachTo input.now (place + 2 + byte_in (input_of input.now) place) }
    ensures { Fails result (other_type place (signature_in (short_in (input_of input.now) place))) }
{
    match signature_at(alloc, input, place) {
        Ok(signature) => bad(place, if signature.types().len() == 1 { 29 } else { 16 }),
        Err(ReadFault::Bad(fault)) => bad(place + 1 + fault.place as usize, fault.reason),
        Err(ReadFault::NoMemory) => ReadFault::NoMemory,
    }
}

/// The place behind the signature at a place, which has to be that of the field.
#[tactic(auto, unfolding(crate::specs::inner::Reading::typed_body_at))]
fn typed_body(
    alloc: Global,
    input: &Marshalled,
    code: Code,
    place: usize,
) -> Result<usize, ReadFault>
    requires { ReachTo input.now (place + 2 + byte_in (input_of input.now) place) }
    ensures read { Gives (λ next. next) result (typed_body_at (input_of input.now) code place) }
    ensures within { IfOk result (λ next. next ≡ place + 2 + byte_in (input_of input.now) place) }
{
    if byte_at(input, place) == 1 && byte_at(input, place + 1) == letter_of(code) {
        if byte_at(input, place + 2) != 0 {
            return Err(bad(place + 2, 12));
        }
        return Ok(place + 3);
    }
    Err(wrong_type(alloc, input, place))
}

/// The place behind the signature of a field.
#[tactic(auto, unfolding(crate::specs::inner::Reading::typed_at))]
fn typed(
    alloc: Global,
    input: &Marshalled,
    bound: Bound,
    code: Code,
    at: usize,
) -> Result<usize, ReadFault>
    requires at { at ≤ bound.end }
    requires end { ReachTo input.now bound.end }
    ensures read { Gives (λ next. next) result (typed_at (input_of input.now) bound code at) }
    ensures within { IfOk result (λ next. (at < next) × (next ≤ bound.end)) }
{
    let place = short(input, bound, at)?;
    typed_body(alloc, input, code, place)
}

/// The place behind a value that was read. The value is let go here and nowhere else, since that takes long to prove.
fn end_of(read: (Value, usize)) -> usize
    ensures { result ≡ read.1 }
{
    read.1
}

/// The place behind the field without a meaning whose code stands at a place.
fn unknown(
    alloc: Global,
    input: &Marshalled,
    bound: Bound,
    place: usize,
) -> Result<usize, ReadFault>
    requires at { place + 1 ≤ bound.end }
    requires end { ReachTo input.now bound.end }
    ensures read { (found : Found)
        → Gives (λ next. (found, next)) result (coded_at (input_of input.now) bound found place None) }
    ensures within { IfOk result (λ next. (place < next) × (next ≤ bound.end)) }
{
    Ok(end_of(value(alloc, input, 62, &Ty::Variant, bound, place + 1)?))
}

impl Fields {
    /// No field.
    pub fn new() -> Fields
        ensures { found_of result ≡ none_found }
    {
        Fields {
            path: None,
            interface: None,
            member: None,
            error: None,
            reply: None,
            destination: None,
            sender: None,
            signature: None,
            descriptors: false,
        }
    }

    /// Whether a field was read.
    fn has(&self, code: Code) -> bool
        ensures { result ≡ is_there (slot code (found_of self.now)) }
    {
        match code {
            Code::Path => self.path.is_some(),
            Code::Interface => self.interface.is_some(),
            Code::Member => self.member.is_some(),
            Code::Error => self.error.is_some(),
            Code::Reply => self.reply.is_some(),
            Code::Destination => self.destination.is_some(),
            Code::Sender => self.sender.is_some(),
            Code::Signature => self.signature.is_some(),
            Code::Descriptors => self.descriptors,
        }
    }

    /// Whether the fields are there that a type of message requires.
    pub fn has_required(&self, kind: u8) -> bool
        ensures { result ≡ has_required kind (found_of self.now) }
    {
        match kind {
            1 => self.path.is_some() && self.member.is_some(),
            2 => self.reply.is_some(),
            3 => self.error.is_some() && self.reply.is_some(),
            4 => self.path.is_some() && self.interface.is_some() && self.member.is_some(),
            _ => true,
        }
    }

    /// Reads the value of a known field, and gives the place behind it.
    fn set(
        &mut self,
        alloc: Global,
        input: &Marshalled,
        bound: Bound,
        code: Code,
        at: usize,
    ) -> Result<usize, ReadFault>
        requires at { at ≤ bound.end }
        requires end { ReachTo input.now bound.end }
        ensures read { Gives (λ next. (found_of self.new, next)) result
            (set_at (input_of input.now) bound code at (found_of self.old)) }
        ensures within { IfOk result (λ next. (at < next) × (next ≤ bound.end)) }
    {
        match code {
            Code::Path => {
                let (path, next) = path(alloc, input, bound, at)?;
                self.path = Some(path);
                Ok(next)
            }
            Code::Interface => {
                let (interface, next) = interface(alloc, input, bound, at)?;
                self.interface = Some(interface);
                Ok(next)
            }
            Code::Member => {
                let (member, next) = member(alloc, input, bound, at)?;
                self.member = Some(member);
                Ok(next)
            }
            Code::Error => {
                let (error, next) = interface(alloc, input, bound, at)?;
                self.error = Some(error);
                Ok(next)
            }
            Code::Reply => {
                let (reply, next) = reply(input, bound, at)?;
                self.reply = Some(reply);
                Ok(next)
            }
            Code::Destination => {
                let (destination, next) = bus_name(alloc, input, bound, at)?;
                self.destination = Some(destination);
                Ok(next)
            }
            Code::Sender => {
                let (sender, next) = bus_name(alloc, input, bound, at)?;
                self.sender = Some(sender);
                Ok(next)
            }
            Code::Signature => {
                let (signature, next) = signature(alloc, input, bound, at)?;
                self.signature = Some(signature);
                Ok(next)
            }
            Code::Descriptors => {
                let next = descriptors(input, bound, at)?;
                self.descriptors = true;
                Ok(next)
            }
        }
    }

    /// Reads the known field whose code stands at a place.
    #[tactic(auto, unfolding(crate::specs::inner::Reading::known_at))]
    fn known(
        &mut self,
        alloc: Global,
        input: &Marshalled,
        bound: Bound,
        place: usize,
        code: Code,
    ) -> Result<usize, ReadFault>
        requires at { place + 1 ≤ bound.end }
        requires end { ReachTo input.now bound.end }
        ensures read { Gives (λ next. (found_of self.new, next)) result
            (known_at (input_of input.now) bound (found_of self.old) place code) }
        ensures within { IfOk result (λ next. (place < next) × (next ≤ bound.end)) }
    {
        if self.has(code) {
            return Err(bad(place, 30));
        }
        let at = typed(alloc, input, bound, code, place + 1)?;
        self.set(alloc, input, bound, code, at)
    }

    /// Reads a field, and gives the place behind it.
    #[tactic(auto, unfolding(crate::specs::inner::Reading::field_at))]
    fn read(
        &mut self,
        alloc: Global,
        input: &Marshalled,
        bound: Bound,
        at: usize,
    ) -> Result<usize, ReadFault>
        requires at { at ≤ bound.end }
        requires end { ReachTo input.now bound.end }
        ensures read { Gives (λ next. (found_of self.new, next)) result
            (field_at (input_of input.now) bound (found_of self.old) at) }
        ensures within { IfOk result (λ next. (at ≤ next) × (next ≤ bound.end)) }
    {
        let place = room(input, 8, 1, bound, at)?;
        let byte = byte_at(input, place);
        if byte == 0 {
            return Err(bad(place, 28));
        }
        match code_of(byte) {
            Some(code) => self.known(alloc, input, bound, place, code),
            None => unknown(alloc, input, bound, place),
        }
    }

    /// The fields from place 16 up to their end.
    pub fn read_all(alloc: Global, input: &Marshalled, bound: Bound) -> Result<Fields, ReadFault>
        requires at { 16 ≤ bound.end }
        requires end { ReachTo input.now bound.end }
        ensures { Gives found_of result (all_fields_at (input_of input.now) bound bound.end none_found 16) }
    {
        let mut fields = Fields::new();
        let mut at = 16;
        for _ in 0..bound.end {
            if at == bound.end {
                return Ok(fields);
            }
            at = fields.read(alloc, input, bound, at)?;
        }
        Ok(fields)
    }
}
