//! The fields of a header that lie in its bytes.

ghost use Rattle.std.specs.Prelude.{◌≡◌, ◌<◌, ◌≤◌, ◌+◌, None, Err, IfOk};
ghost use Rattle.atspi_types.specs.Kinds.{u32, variant, kinds_of};
ghost use Rattle.atspi_types.specs.Data.{number_data};
ghost use Rattle.atspi_types.specs.SignatureReading.{signature_in};
ghost use Rattle.atspi_marshal_in_place.specs.codes.TyRefs.{refs_kinds};
ghost use Rattle.atspi_marshal.specs.Input.{byte_in, ReachTo};
ghost use Rattle.atspi_marshal.specs.Faults.{short_in};
ghost use Rattle.atspi_marshal.specs.Reading.{input_of, read, short_at, signature_body_at};
ghost use Rattle.atspi_marshal_in_place.specs.Passing.{after};
ghost use Rattle.atspi_message.specs.inner.Reading.{none_found, name_data, put, slot, is_there, name_at, with_value};
ghost use Rattle.atspi_message.specs.inner.Reading.{set_at, typed_body_at, typed_at, other_type, reply_at};
ghost use Rattle.atspi_message.specs.inner.Reading.{descriptors_at, known_at, field_at, all_fields_at, has_required};
ghost use Rattle.atspi_message.specs.inner.Reading.{signature_found};
ghost use Rattle.atspi_message_in_place.specs.inner.Codes.{name_code, field_code};
ghost use Rattle.atspi_message_in_place.specs.View.{found_in, types_value, Reads};

use crate::code::{Code, NameCode, letter_of};
use crate::name::name;
use atspi_marshal::{Bound, Marshalled, byte_at, u32_at};
use atspi_marshal_in_place::codes::{TyRef, TysRef};
use atspi_marshal_in_place::{fault, pass, room, short, types_at};
use atspi_types::Fault;

/// The known fields of a header, as far as they were read.
#[derive(Clone, Copy)]
pub struct Header<'a> {
    pub path: Option<&'a str>,
    pub interface: Option<&'a str>,
    pub member: Option<&'a str>,
    pub error: Option<&'a str>,
    pub reply: Option<u32>,
    pub destination: Option<&'a str>,
    pub sender: Option<&'a str>,
    pub signature: Option<TysRef<'a>>,
    pub descriptors: bool,
}

/// The serial that a reply names, and the place behind it.
#[tactic(auto, unfolding(atspi_message::specs::inner::Reading::reply_at))]
#[inline(always)]
fn reply(input: &Marshalled, bound: Bound, at: usize) -> Result<(u32, usize), Fault>
    requires at { at ≤ bound.end }
    requires end { ReachTo input.now bound.end }
    ensures read { Reads (λ x. (number_data u32 x.0, x.1)) result (reply_at (input_of input.now) bound at) }
    ensures within { IfOk result (λ x. (at < x.1) × (x.1 ≤ bound.end)) }
{
    let place = room(input, 4, 4, bound, at)?;
    let serial = u32_at(input, place);
    if serial == 0 {
        return Err(fault(place, 32));
    }
    Ok((serial, place + 4))
}

/// The place behind a count of descriptors, which is 0.
#[tactic(auto, unfolding(atspi_message::specs::inner::Reading::descriptors_at))]
#[inline(always)]
fn descriptors(input: &Marshalled, bound: Bound, at: usize) -> Result<usize, Fault>
    requires at { at ≤ bound.end }
    requires end { ReachTo input.now bound.end }
    ensures read { Reads (λ next. (number_data u32 0, next)) result (descriptors_at (input_of input.now) bound at) }
    ensures within { IfOk result (λ next. (at < next) × (next ≤ bound.end)) }
{
    let place = room(input, 4, 4, bound, at)?;
    if u32_at(input, place) != 0 {
        return Err(fault(place, 33));
    }
    Ok(place + 4)
}

/// The types of the signature whose length stands at a place, and the place behind it.
#[tactic(auto, unfolding(atspi_marshal::specs::Reading::signature_body_at))]
#[inline(always)]
fn signature_body<'a>(input: &Marshalled<'a>, place: usize) -> Result<(TysRef<'a>, usize), Fault>
    requires { ReachTo input.now (place + 2 + byte_in (input_of input.now) place) }
    ensures read { Reads (λ x. (types_value x.0, x.1)) result (signature_body_at (input_of input.now) place) }
    ensures within { IfOk result (λ x. x.1 ≡ place + 2 + byte_in (input_of input.now) place) }
{
    let start = place + 1;
    let end = start + byte_at(input, place) as usize;
    match types_at(input, place) {
        Ok(types) => {
            if byte_at(input, end) != 0 {
                return Err(fault(end, 12));
            }
            Ok((types, end + 1))
        }
        Err(wrong) => Err(fault(start + wrong.place as usize, wrong.reason)),
    }
}

/// The types of a signature, and the place behind it.
#[tactic(auto, unfolding(atspi_marshal::specs::Reading::short_at))]
#[inline(always)]
fn signature<'a>(
    input: &Marshalled<'a>,
    bound: Bound,
    at: usize,
) -> Result<(TysRef<'a>, usize), Fault>
    requires at { at ≤ bound.end }
    requires end { ReachTo input.now bound.end }
    ensures read { Reads (λ x. (types_value x.0, x.1)) result
        (short_at (signature_body_at (input_of input.now)) (input_of input.now) bound at) }
    ensures within { IfOk result (λ x. (at < x.1) × (x.1 ≤ bound.end)) }
{
    let place = short(input, bound, at)?;
    signature_body(input, place)
}

/// What is wrong with the signature at a place, which is not the one of the field.
#[cold]
fn wrong_type(input: &Marshalled, place: usize) -> Fault
    requires { ReachTo input.now (place + 2 + byte_in (input_of input.now) place) }
    ensures { other_type place (signature_in (short_in (input_of input.now) place)) ≡ Err result }
{
    match types_at(input, place) {
        Ok(types) => fault(place, if types.single().is_some() { 29 } else { 16 }),
        Err(wrong) => fault(place + 1 + wrong.place as usize, wrong.reason),
    }
}

/// The place behind the signature at a place, which has to be that of the field.
#[tactic(auto, unfolding(atspi_message::specs::inner::Reading::typed_body_at))]
#[inline(always)]
fn typed_body(input: &Marshalled, code: Code, place: usize) -> Result<usize, Fault>
    requires { ReachTo input.now (place + 2 + byte_in (input_of input.now) place) }
    ensures read { result ≡ typed_body_at (input_of input.now) (field_code code) place }
    ensures within { IfOk result (λ next. next ≡ place + 2 + byte_in (input_of input.now) place) }
{
    if byte_at(input, place) == 1 && byte_at(input, place + 1) == letter_of(code) {
        if byte_at(input, place + 2) != 0 {
            return Err(fault(place + 2, 12));
        }
        return Ok(place + 3);
    }
    Err(wrong_type(input, place))
}

/// The place behind the signature of a field.
#[tactic(auto, unfolding(atspi_message::specs::inner::Reading::typed_at))]
#[inline(always)]
fn typed(input: &Marshalled, bound: Bound, code: Code, at: usize) -> Result<usize, Fault>
    requires at { at ≤ bound.end }
    requires end { ReachTo input.now bound.end }
    ensures read { result ≡ typed_at (input_of input.now) bound (field_code code) at }
    ensures within { IfOk result (λ next. (at < next) × (next ≤ bound.end)) }
{
    let place = short(input, bound, at)?;
    typed_body(input, code, place)
}

/// The place behind the variant of a field without a meaning.
#[cold]
fn unknown(input: &Marshalled, bound: Bound, at: usize) -> Result<usize, Fault>
    requires at { at ≤ bound.end }
    requires end { ReachTo input.now bound.end }
    ensures read { result ≡ after (read (input_of input.now) 62 variant bound at) }
    ensures within { IfOk result (λ next. (at ≤ next) × (next ≤ bound.end)) }
{
    match TyRef::parse(b"v") {
        Ok(Some(ty)) => pass(input, 62, ty, bound, at),
        // v is one type, so these arms are never taken.
        Ok(None) => Err(fault(at, 16)),
        Err(wrong) => Err(wrong),
    }
}

impl<'a> Header<'a> {
    /// No field.
    pub fn none() -> Header<'a>
        ensures { found_in result ≡ none_found }
    {
        Header {
            path: None,
            interface: None,
            member: None,
            error: None,
            reply: None,
            destination: None,
            sender: None,
            signature: None,
            descriptors: false,
        }
    }

    /// Whether a name was read.
    #[inline(always)]
    fn has_name(&self, code: NameCode) -> bool
        ensures { result ≡ is_there (slot (name_code code) (found_in self.now)) }
    {
        match code {
            NameCode::Path => self.path.is_some(),
            NameCode::Interface => self.interface.is_some(),
            NameCode::Member => self.member.is_some(),
            NameCode::Error => self.error.is_some(),
            NameCode::Destination => self.destination.is_some(),
            NameCode::Sender => self.sender.is_some(),
        }
    }

    /// Whether a field was read.
    #[inline(always)]
    fn has(&self, code: Code) -> bool
        ensures { result ≡ is_there (slot (field_code code) (found_in self.now)) }
    {
        match code {
            Code::Name(code) => self.has_name(code),
            Code::Reply => self.reply.is_some(),
            Code::Signature => self.signature.is_some(),
            Code::Descriptors => self.descriptors,
        }
    }

    /// Whether the fields are there that a type of message requires.
    #[inline(always)]
    pub fn has_required(&self, kind: u8) -> bool
        ensures { result ≡ has_required kind (found_in self.now) }
    {
        match kind {
            1 => self.path.is_some() && self.member.is_some(),
            2 => self.reply.is_some(),
            3 => self.error.is_some() && self.reply.is_some(),
            4 => self.path.is_some() && self.interface.is_some() && self.member.is_some(),
            _ => true,
        }
    }

    /// The types of the body: those of SIGNATURE, none where it is not there.
    #[inline(always)]
    pub fn types(&self) -> TysRef<'a>
        ensures { kinds_of (refs_kinds result) ≡ signature_found (found_in self.now).signature }
    {
        match self.signature {
            Some(types) => types,
            None => TysRef::none(),
        }
    }

    /// Keeps a name.
    #[inline(always)]
    fn put_name(&mut self, code: NameCode, text: &'a str)
        ensures { found_in self.new ≡ put (name_code code) (name_data (name_code code) text.now) (found_in self.old) }
    {
        match code {
            NameCode::Path => self.path = Some(text),
            NameCode::Interface => self.interface = Some(text),
            NameCode::Member => self.member = Some(text),
            NameCode::Error => self.error = Some(text),
            NameCode::Destination => self.destination = Some(text),
            NameCode::Sender => self.sender = Some(text),
        }
    }

    /// Reads a name and keeps it.
    #[inline(always)]
    fn set_name(
        &mut self,
        input: &Marshalled<'a>,
        bound: Bound,
        code: NameCode,
        at: usize,
    ) -> Result<usize, Fault>
        requires at { at ≤ bound.end }
        requires end { ReachTo input.now bound.end }
        ensures read { Reads (λ next. (found_in self.new, next)) result
            (set_at (input_of input.now) bound (name_code code) at (found_in self.old)) }
        ensures within { IfOk result (λ next. (at < next) × (next ≤ bound.end)) }
    {
        let (text, next) = name(input, code, bound, at)?;
        self.put_name(code, text);
        Ok(next)
    }

    /// Reads the serial of a reply and keeps it.
    #[inline(always)]
    fn set_reply(&mut self, input: &Marshalled<'a>, bound: Bound, at: usize) -> Result<usize, Fault>
        requires at { at ≤ bound.end }
        requires end { ReachTo input.now bound.end }
        ensures read { Reads (λ next. (found_in self.new, next)) result
            (set_at (input_of input.now) bound (field_code Code.Reply) at (found_in self.old)) }
        ensures within { IfOk result (λ next. (at < next) × (next ≤ bound.end)) }
    {
        let (serial, next) = reply(input, bound, at)?;
        self.reply = Some(serial);
        Ok(next)
    }

    /// Reads the types of the body and keeps them.
    #[inline(always)]
    fn set_signature(
        &mut self,
        input: &Marshalled<'a>,
        bound: Bound,
        at: usize,
    ) -> Result<usize, Fault>
        requires at { at ≤ bound.end }
        requires end { ReachTo input.now bound.end }
        ensures read { Reads (λ next. (found_in self.new, next)) result
            (set_at (input_of input.now) bound (field_code Code.Signature) at (found_in self.old)) }
        ensures within { IfOk result (λ next. (at < next) × (next ≤ bound.end)) }
    {
        let (types, next) = signature(input, bound, at)?;
        self.signature = Some(types);
        Ok(next)
    }

    /// Reads the count of descriptors and keeps that it is there.
    #[inline(always)]
    fn set_descriptors(
        &mut self,
        input: &Marshalled<'a>,
        bound: Bound,
        at: usize,
    ) -> Result<usize, Fault>
        requires at { at ≤ bound.end }
        requires end { ReachTo input.now bound.end }
        ensures read { Reads (λ next. (found_in self.new, next)) result
            (set_at (input_of input.now) bound (field_code Code.Descriptors) at (found_in self.old)) }
        ensures within { IfOk result (λ next. (at < next) × (next ≤ bound.end)) }
    {
        let next = descriptors(input, bound, at)?;
        self.descriptors = true;
        Ok(next)
    }

    /// Reads the value of a known field and keeps it, and gives the place behind it.
    #[inline(always)]
    fn set(
        &mut self,
        input: &Marshalled<'a>,
        bound: Bound,
        code: Code,
        at: usize,
    ) -> Result<usize, Fault>
        requires at { at ≤ bound.end }
        requires end { ReachTo input.now bound.end }
        ensures read { Reads (λ next. (found_in self.new, next)) result
            (set_at (input_of input.now) bound (field_code code) at (found_in self.old)) }
        ensures within { IfOk result (λ next. (at < next) × (next ≤ bound.end)) }
    {
        match code {
            Code::Name(code) => self.set_name(input, bound, code, at),
            Code::Reply => self.set_reply(input, bound, at),
            Code::Signature => self.set_signature(input, bound, at),
            Code::Descriptors => self.set_descriptors(input, bound, at),
        }
    }

    /// Reads the known field whose code stands at a place.
    #[tactic(auto, unfolding(atspi_message::specs::inner::Reading::known_at))]
    #[inline(always)]
    fn known(
        &mut self,
        input: &Marshalled<'a>,
        bound: Bound,
        place: usize,
        code: Code,
    ) -> Result<usize, Fault>
        requires at { place + 1 ≤ bound.end }
        requires end { ReachTo input.now bound.end }
        ensures read { Reads (λ next. (found_in self.new, next)) result
            (known_at (input_of input.now) bound (found_in self.old) place (field_code code)) }
        ensures within { IfOk result (λ next. (place < next) × (next ≤ bound.end)) }
    {
        if self.has(code) {
            return Err(fault(place, 30));
        }
        let at = typed(input, bound, code, place + 1)?;
        self.set(input, bound, code, at)
    }

    /// Reads a field, and gives the place behind it.
    #[tactic(auto, unfolding(atspi_message::specs::inner::Reading::field_at))]
    #[inline(always)]
    fn read(&mut self, input: &Marshalled<'a>, bound: Bound, at: usize) -> Result<usize, Fault>
        requires at { at ≤ bound.end }
        requires end { ReachTo input.now bound.end }
        ensures read { Reads (λ next. (found_in self.new, next)) result
            (field_at (input_of input.now) bound (found_in self.old) at) }
        ensures within { IfOk result (λ next. (at ≤ next) × (next ≤ bound.end)) }
    {
        let place = room(input, 8, 1, bound, at)?;
        match byte_at(input, place) {
            0 => Err(fault(place, 28)),
            1 => self.known(input, bound, place, Code::Name(NameCode::Path)),
            2 => self.known(input, bound, place, Code::Name(NameCode::Interface)),
            3 => self.known(input, bound, place, Code::Name(NameCode::Member)),
            4 => self.known(input, bound, place, Code::Name(NameCode::Error)),
            5 => self.known(input, bound, place, Code::Reply),
            6 => self.known(input, bound, place, Code::Name(NameCode::Destination)),
            7 => self.known(input, bound, place, Code::Name(NameCode::Sender)),
            8 => self.known(input, bound, place, Code::Signature),
            9 => self.known(input, bound, place, Code::Descriptors),
            _ => unknown(input, bound, place + 1),
        }
    }

    /// The fields from place 16 up to their end.
    #[inline(always)]
    pub fn read_all(input: &Marshalled<'a>, bound: Bound) -> Result<Header<'a>, Fault>
        requires at { 16 ≤ bound.end }
        requires end { ReachTo input.now bound.end }
        ensures { Reads found_in result (all_fields_at (input_of input.now) bound bound.end none_found 16) }
    {
        let mut header = Header::none();
        let mut at = 16;
        for _ in 0..bound.end {
            if at == bound.end {
                return Ok(header);
            }
            at = header.read(input, bound, at)?;
        }
        Ok(header)
    }
}
